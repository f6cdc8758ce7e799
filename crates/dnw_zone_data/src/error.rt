//! Why a text gives no data.
ghost use Rattle.std.specs.Prelude.{◌≡◌};
ghost use Rattle.dnw_zone_data.specs.Faults.{number_wanted, octets_wanted, wanted_of};

use crate::number_form::NumberForm;
use dnw_data::kind::{Kind, ListKind, Shape, Shown};
use std::alloc::AllocError;
use thiserror::Error;

/// What was wanted in a text of data.
#[derive(Debug, Clone, Copy, PartialEq, Eq, Error)]
pub enum Wanted {
    /// A name; one without a dot at its end if there is an origin.
    #[error("a name")]
    Name,
    /// A number of one octet, in decimal.
    #[error("a number of at most 255")]
    U8,
    /// A number of two octets, in decimal.
    #[error("a number of at most 65535")]
    U16,
    /// A number of four octets, in decimal.
    #[error("a number of at most 4294967295")]
    U32,
    /// A number of seconds, or numbers with units: `2h`, `1w2d`.
    #[error("seconds, or a period as 1h30m")]
    Period,
    /// An algorithm of DNSSEC by its number or its mnemonic: `RSASHA256`.
    #[error("an algorithm by its number or mnemonic")]
    Algorithm,
    /// A type of certificates by its number or its mnemonic: `PKIX`.
    #[error("a type of certificates by its number or mnemonic")]
    CertificateType,
    /// A scheme of DSYNC by its number or its mnemonic: `NOTIFY`.
    #[error("a scheme by its number or mnemonic")]
    Scheme,
    /// A protocol by its number or its name: `TCP`.
    #[error("a protocol by its number or name")]
    Protocol,
    /// A time: 14 digits as YYYYMMDDHHmmSS, or a number of seconds.
    #[error("YYYYMMDDHHmmSS or a number of seconds")]
    Time,
    /// An IPv4 address.
    #[error("an IPv4 address")]
    Ipv4,
    /// An IPv6 address.
    #[error("an IPv6 address")]
    Ipv6,
    /// An identifier of six octets.
    #[error("six pairs of hexadecimal digits with hyphens between them")]
    Eui48,
    /// An identifier of eight octets.
    #[error("eight pairs of hexadecimal digits with hyphens between them")]
    Eui64,
    /// A record type.
    #[error("a record type")]
    TypeCode,
    /// A character string.
    #[error("a character string of at most 255 octets")]
    CharacterString,
    /// A tag: letters and digits.
    #[error("1 to 255 letters and digits")]
    Tag,
    /// A salt in hexadecimal, or `-` for none.
    #[error("`-` or 1 to 255 octets in hexadecimal")]
    Salt,
    /// A hashed name in base 32.
    #[error("1 to 255 octets in base 32")]
    Hash,
    /// A text, written as a character string is.
    #[error("a text of at most 65535 octets")]
    Text,
    /// Octets up to the end, in hexadecimal.
    #[error("octets in hexadecimal")]
    Hexadecimal,
    /// Octets up to the end, in base 64.
    #[error("octets in base 64")]
    Base64,
    /// Character strings up to the end, one or more.
    #[error("character strings of at most 255 octets, one or more")]
    Strings,
    /// Record types up to the end.
    #[error("record types")]
    Types,
    /// Service parameters up to the end, none of them twice.
    #[error("service parameters, each key once")]
    Params,
    /// Service parameters of which `mandatory` lists keys of the others.
    #[error("`mandatory` to list keys of other parameters that are there")]
    Mandatory,
    /// Names up to the end.
    #[error("names")]
    Names,
    /// A location: `52 22 23.000 N 4 53 32.000 E -2.00m`.
    #[error("a location: latitude, longitude and altitude")]
    Location,
    /// The type of a gateway, an algorithm, and the gateway.
    #[error("the type of a gateway (0 to 3), an algorithm, and `.`, an address or a name")]
    Gateway,
    /// The discovery flag of a relay, its type, and the relay.
    #[error("0 or 1, the type of a relay (0 to 3), and `.`, an address or a name")]
    Relay,
    /// The algorithm of a host identity, its tag and its key.
    #[error("an algorithm, a tag in hexadecimal, and a key in base 64")]
    HostIdentity,
    /// An identifier of a node, or a locator, of eight octets.
    #[error("four groups of hexadecimal digits with colons between them")]
    Locator,
    /// A number of eight octets, in decimal.
    #[error("a number of at most 18446744073709551615")]
    NodeNumber,
    /// Octets in hexadecimal after `0x`.
    #[error("`0x` and octets in hexadecimal")]
    Nsap,
    /// Address prefixes up to the end.
    #[error("address prefixes, each as 1:192.0.2.0/24")]
    Prefixes,
    /// Ports up to the end.
    #[error("ports or names of services")]
    Ports,
    /// Record types of codes of 1 to 127 up to the end.
    #[error("record types of codes of 1 to 127")]
    OldTypes,
    /// The form that any data have, which begins with `\#`: the type has no other.
    #[error("the form of any data, which begins with \\#")]
    Generic,
    /// The number of all octets, up to 65535 in decimal.
    #[error("a number of octets of at most 65535")]
    Size,
    /// That many octets in hexadecimal.
    #[error("{0} octets in hexadecimal")]
    Octets(u16),
    /// Octets that are data of the type, without compression pointers.
    #[error("octets that are data of the type")]
    Data,
    /// No more octets than data may have.
    #[error("data of at most 65535 octets")]
    FewerOctets,
    /// Nothing more.
    #[error("the end of the data")]
    End,
}

/// Why a text gives no data.
#[derive(Debug, Drop, Error)]
pub enum DataTextError {
    /// The text goes wrong at a field.
    #[error("at offset {offset}: wanted {wanted} (field {field})")]
    Wanted {
        /// The number of the field, from 0.
        field: usize,
        /// The offset of the word that is not as wanted, or of the end: in the text of the data, or in the line that it is parsed in.
        offset: usize,
        /// What was wanted there.
        wanted: Wanted,
    },
    /// An allocation failed.
    #[error("out of memory")]
    Memory,
}

impl From<AllocError> for DataTextError {
    ghost use Rattle.std.specs.Prelude.{◌≡◌};
    ghost use Rattle.dnw_zone_data.specs.declared.error.DataTextError.TheVariants.{Memory};

    ghost from_gives = { λ _ e. e ≡ Memory };

    fn from(_: AllocError) -> Self {
        DataTextError::Memory
    }
}

/// Returns what is wanted in place of a field of a kind, whose number is in a form.
pub(crate) fn wanted_of(form: NumberForm, kind: Kind) -> Wanted
    ensures { result ≡ wanted_of form kind }
{
    match kind {
        Kind::Name(_) => Wanted::Name,
        Kind::U8 => number_wanted(form, Wanted::U8),
        Kind::U16 => number_wanted(form, Wanted::U16),
        Kind::U32 => number_wanted(form, Wanted::U32),
        Kind::U48 => Wanted::Eui48,
        Kind::U64 => Wanted::Eui64,
        Kind::Ipv4 => Wanted::Ipv4,
        Kind::Ipv6 => Wanted::Ipv6,
        Kind::TypeCode => Wanted::TypeCode,
        Kind::Time => Wanted::Time,
        Kind::Counted(Shown::Text) => Wanted::CharacterString,
        Kind::Counted(Shown::Tag) => Wanted::Tag,
        Kind::Counted(Shown::Hex) => Wanted::Salt,
        Kind::Counted(Shown::Base32Hex) => Wanted::Hash,
        Kind::Octets(shown) => octets_wanted(shown),
        Kind::List(ListKind::Texts) => Wanted::Strings,
        Kind::List(ListKind::Types) => Wanted::Types,
        Kind::List(ListKind::Params) => Wanted::Params,
        Kind::List(ListKind::Names) => Wanted::Names,
        Kind::List(ListKind::Prefixes) => Wanted::Prefixes,
        Kind::Locator => Wanted::Locator,
        Kind::NodeNumber => Wanted::NodeNumber,
        Kind::Shaped(Shape::Location) => Wanted::Location,
        Kind::Shaped(Shape::Gateway) => Wanted::Gateway,
        Kind::Shaped(Shape::Relay) => Wanted::Relay,
        Kind::Shaped(Shape::HostIdentity) => Wanted::HostIdentity,
        _ => Wanted::Generic,
    }
}

/// Returns what is wanted in place of a number in a form, of which this is wanted in decimal.
fn number_wanted(form: NumberForm, decimal: Wanted) -> Wanted
    ensures { result ≡ number_wanted form decimal }
{
    match form {
        NumberForm::Decimal | NumberForm::Optional => decimal,
        NumberForm::Period => Wanted::Period,
        NumberForm::Algorithm => Wanted::Algorithm,
        NumberForm::CertificateType => Wanted::CertificateType,
        NumberForm::Scheme => Wanted::Scheme,
        NumberForm::Protocol => Wanted::Protocol,
    }
}

/// Returns what is wanted in place of octets up to the end.
fn octets_wanted(shown: Shown) -> Wanted
    ensures { result ≡ octets_wanted shown }
{
    match shown {
        Shown::Text => Wanted::Text,
        Shown::Hex => Wanted::Hexadecimal,
        Shown::Base64 => Wanted::Base64,
        Shown::Nsap => Wanted::Nsap,
        Shown::Ports => Wanted::Ports,
        Shown::OldTypes => Wanted::OldTypes,
        _ => Wanted::Generic,
    }
}
