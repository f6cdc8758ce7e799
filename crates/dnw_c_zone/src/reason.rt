//! What is wrong with texts, in numbers and sentences.
ghost use Rattle.std.specs.Prelude.{◌≡◌, ◌≢◌, IfOk, IfSome, IfNone, string_bytes};
ghost use Rattle.dnw_c_zone.specs.declared.reason.Reason.{Reason};
ghost use Rattle.dnw_c_zone.specs.Reasons.{HasSentence, at_field, at_place, is_of_field, reason_number, reason_text, sentence, worded};

use std::alloc::{AllocError, Global};

/// What is wrong with a text, or what a field of data was to be in the place of what is there. In the header each has its number.
#[derive(Clone, Copy)]
pub enum Reason {
    /// A parenthesis is opened within parentheses.
    NestedParenthesis = 1,
    /// A parenthesis is closed that none opened.
    UnopenedParenthesis,
    /// The text ends within parentheses.
    UnclosedParenthesis,
    /// A line ends within a quoted string.
    UnclosedQuote,
    /// A line ends after a backslash.
    UnfinishedEscape,
    /// Another entry is after the first.
    MoreEntries,
    /// The text does not begin with a name.
    NoOwner,
    /// No time to live is there.
    NoTimeToLive,
    /// No record type is there.
    NoType,
    /// The data have more than 65535 octets.
    TooLong,
    /// The first record of a zone file has no owner.
    NoOwnerBefore,
    /// The owner of a record of a zone file is no name.
    BadOwner,
    /// No time to live is there, nor was one before.
    NoTimeToLiveBefore,
    /// An entry begins with `$`, and is none that is known.
    UnknownDirective,
    /// An entry is `$GENERATE`.
    Generate,
    /// `$ORIGIN` has no name, or what `$INCLUDE` has is none.
    NoName,
    /// `$TTL` has no time.
    NoTime,
    /// `$INCLUDE` has no file.
    NoFile,
    /// More is in an entry than it may have.
    WordsLeft,
    /// The type of a record of a zone file is unknown.
    UnknownType,
    /// The type is none of a record of a zone.
    OtherType,
    /// A time has too many seconds.
    TimeTooLarge,
    /// `$GENERATE` has no range.
    NoRange,
    /// `$GENERATE` stands for more records than the limit.
    TooMany,
    /// A template of `$GENERATE` has a `$` that stands for nothing.
    BadTemplate,
    /// A name; one without a dot at its end if there is an origin.
    Name = 32,
    /// A number of one octet, in decimal.
    U8,
    /// A number of two octets, in decimal.
    U16,
    /// A number of four octets, in decimal.
    U32,
    /// A number of seconds, or numbers with units: `2h`, `1w2d`.
    Period,
    /// An algorithm of DNSSEC by its number or its mnemonic: `RSASHA256`.
    Algorithm,
    /// A type of certificates by its number or its mnemonic: `PKIX`.
    CertificateType,
    /// A time: 14 digits as YYYYMMDDHHmmSS, or a number of seconds.
    Time,
    /// An IPv4 address.
    Ipv4,
    /// An IPv6 address.
    Ipv6,
    /// An identifier of six octets.
    Eui48,
    /// An identifier of eight octets.
    Eui64,
    /// A record type.
    TypeCode,
    /// A character string.
    CharacterString,
    /// A tag: letters and digits.
    Tag,
    /// A salt in hexadecimal, or `-` for none.
    Salt,
    /// A hashed name in base 32.
    Hash,
    /// A text, written as a character string is.
    Text,
    /// Octets up to the end, in hexadecimal.
    Hexadecimal,
    /// Octets up to the end, in base 64.
    Base64,
    /// Character strings up to the end, one or more.
    Strings,
    /// Record types up to the end.
    Types,
    /// Service parameters up to the end, none of them twice.
    Params,
    /// The form that any data have, which begins with `\#`: the type has no other.
    Generic,
    /// The number of all octets, up to 65535 in decimal.
    Size,
    /// As many octets in hexadecimal as the number before says.
    Octets,
    /// Octets that are data of the type, without compression pointers.
    Data,
    /// Nothing more.
    End,
    /// A scheme of DSYNC by its number or its mnemonic: `NOTIFY`.
    Scheme,
    /// Names up to the end.
    Names,
    /// The type of a gateway, an algorithm, and the gateway.
    Gateway,
    /// The discovery flag of a relay, its type, and the relay.
    Relay,
    /// The algorithm of a host identity, its tag and its key.
    HostIdentity,
    /// A location, as `52 22 23.000 N 4 53 32.000 E -2.00m`.
    Location,
    /// Four groups of hexadecimal digits: `2001:db8:1140:1000`.
    Locator,
    /// A number of eight octets, in decimal.
    NodeNumber,
    /// Octets in hexadecimal after `0x`.
    Nsap,
    /// Address prefixes up to the end: `1:192.0.2.0/24`.
    Prefixes,
    /// A protocol by its number or its name: `TCP`.
    Protocol,
    /// Ports up to the end, by their numbers or the names of services: `smtp`.
    Ports,
    /// Record types of codes of 1 to 127 up to the end.
    OldTypes,
    /// Service parameters of which `mandatory` lists keys of the others.
    Mandatory,
}

/// The table of the reasons: each with its number in C and the words of its sentence. The rule that is named gets the rows, after
/// what it is asked about.
macro_rules! reasons {
    ($rule:ident $asked:expr) => {
        $rule! { $asked =>
            NestedParenthesis = 1, "more than 255 parentheses are open";
            UnopenedParenthesis = 2, "no parenthesis is open";
            UnclosedParenthesis = 3, "the text ends within parentheses";
            UnclosedQuote = 4, "the line ends within a quoted string";
            UnfinishedEscape = 5, "the line ends after a backslash";
            MoreEntries = 6, "another entry is there";
            NoOwner = 7, "wanted an owner";
            NoTimeToLive = 8, "wanted a time to live";
            NoType = 9, "wanted a record type";
            TooLong = 10, "wanted data of at most 65535 octets";
            NoOwnerBefore = 11, "no owner is there, nor in an entry before";
            BadOwner = 12, "the owner is no name";
            NoTimeToLiveBefore = 13, "no time to live is there, nor in an entry before";
            UnknownDirective = 14, "no entry has this name";
            Generate = 15, "$GENERATE is not read";
            NoName = 16, "no name is there";
            NoTime = 17, "no time is there";
            NoFile = 18, "no file is there";
            WordsLeft = 19, "more words are there";
            UnknownType = 20, "the type is unknown";
            OtherType = 21, "no zone has records of this type";
            TimeTooLarge = 22, "the time is too large";
            NoRange = 23, "no range is there";
            TooMany = 24, "more records than the limit";
            BadTemplate = 25, "wanted $ or ${offset,width,base}";
            Name = 32, "wanted a name";
            U8 = 33, "wanted a number of at most 255";
            U16 = 34, "wanted a number of at most 65535";
            U32 = 35, "wanted a number of at most 4294967295";
            Period = 36, "wanted seconds, or a period as 1h30m";
            Algorithm = 37, "wanted an algorithm by its number or mnemonic";
            CertificateType = 38, "wanted a type of certificates by its number or mnemonic";
            Time = 39, "wanted YYYYMMDDHHmmSS or a number of seconds";
            Ipv4 = 40, "wanted an IPv4 address";
            Ipv6 = 41, "wanted an IPv6 address";
            Eui48 = 42, "wanted six pairs of hexadecimal digits with hyphens between them";
            Eui64 = 43, "wanted eight pairs of hexadecimal digits with hyphens between them";
            TypeCode = 44, "wanted a record type";
            CharacterString = 45, "wanted a character string of at most 255 octets";
            Tag = 46, "wanted 1 to 255 letters and digits";
            Salt = 47, "wanted `-` or 1 to 255 octets in hexadecimal";
            Hash = 48, "wanted 1 to 255 octets in base 32";
            Text = 49, "wanted a text of at most 65535 octets";
            Hexadecimal = 50, "wanted octets in hexadecimal";
            Base64 = 51, "wanted octets in base 64";
            Strings = 52, "wanted character strings of at most 255 octets, one or more";
            Types = 53, "wanted record types";
            Params = 54, "wanted service parameters, each key once";
            Generic = 55, "wanted the form of any data, which begins with \\#";
            Size = 56, "wanted a number of octets of at most 65535";
            Octets = 57, "wanted as many octets in hexadecimal as the number says";
            Data = 58, "wanted octets that are data of the type";
            End = 59, "wanted the end of the data";
            Scheme = 60, "wanted a scheme by its number or mnemonic";
            Names = 61, "wanted names";
            Gateway = 62, "wanted the type of a gateway (0 to 3), an algorithm, and `.`, an address or a name";
            Relay = 63, "wanted 0 or 1, the type of a relay (0 to 3), and `.`, an address or a name";
            HostIdentity = 64, "wanted an algorithm, a tag in hexadecimal, and a key in base 64";
            Location = 65, "wanted a location: latitude, longitude and altitude";
            Locator = 66, "wanted four groups of hexadecimal digits with colons between them";
            NodeNumber = 67, "wanted a number of at most 18446744073709551615";
            Nsap = 68, "wanted `0x` and octets in hexadecimal";
            Prefixes = 69, "wanted address prefixes, each as 1:192.0.2.0/24";
            Protocol = 70, "wanted a protocol by its number or name";
            Ports = 71, "wanted ports or names of services";
            OldTypes = 72, "wanted record types of codes of 1 to 127";
            Mandatory = 73, "wanted `mandatory` to list keys of other parameters that are there";
        }
    };
}

macro_rules! with_number {
    ($number:expr => $($reason:ident = $code:literal, $text:literal;)*) => {
        match $number {
            $($code => Some(Reason::$reason),)*
            _ => None,
        }
    };
}

macro_rules! text_about {
    ($of:expr => $($reason:ident = $code:literal, $text:literal;)*) => {
        match $of {
            $(Reason::$reason => $text,)*
        }
    };
}

impl Reason {
    /// Returns its number in C.
    pub fn number(self) -> u32
        ensures { result ≡ reason_number self }
    {
        self as u32
    }

    /// Returns the reason with this number.
    pub fn from_number(code: u32) -> Option<Self>
        ensures some { IfSome result (λ reason. reason_number reason ≡ code) }
        ensures none { IfNone result ((reason : Reason) → reason_number reason ≢ code) }
    {
        reasons!(with_number code)
    }

    /// Returns the words of its sentence.
    pub fn text(self) -> &'static str
        ensures { result.now ≡ reason_text self }
    {
        reasons!(text_about self)
    }

    /// Returns `true` if it is about a field of data.
    fn is_of_field(self) -> bool
        ensures { result ≡ is_of_field self }
    {
        self.number() >= 32
    }
}

/// Returns the sentence for the number of a reason, at an offset, about the field with this number. It is empty for a number
/// that stands for nothing.
pub fn sentence_of(
    alloc: Global,
    offset: usize,
    field: usize,
    code: u32,
) -> Result<String, AllocError>
    ensures { IfOk result (λ text. HasSentence offset field code (string_bytes text)) }
{
    match Reason::from_number(code) {
        Some(reason) => sentence(alloc, offset, field, reason),
        None => Ok(String::new(alloc)),
    }
}

/// Returns the sentence for a reason.
fn sentence(
    alloc: Global,
    offset: usize,
    field: usize,
    reason: Reason,
) -> Result<String, AllocError>
    ensures { IfOk result (λ text. string_bytes text ≡ sentence offset field reason) }
{
    worded(alloc, reason.is_of_field(), offset, field, reason.text())
}

/// Returns the sentence with these words, about a field or about none.
fn worded(
    alloc: Global,
    of_field: bool,
    offset: usize,
    field: usize,
    words: &str,
) -> Result<String, AllocError>
    ensures { IfOk result (λ text. string_bytes text ≡ worded of_field offset field words.now) }
{
    if of_field {
        return at_field(alloc, offset, field, words);
    }
    at_place(alloc, offset, words)
}

/// Returns the words at an offset.
fn at_place(alloc: Global, offset: usize, words: &str) -> Result<String, AllocError>
    ensures { IfOk result (λ text. string_bytes text ≡ at_place offset words.now) }
{
    format!(in alloc; "at offset {offset}: {words}")
}

/// Returns the words at an offset about a field.
fn at_field(alloc: Global, offset: usize, field: usize, words: &str) -> Result<String, AllocError>
    ensures { IfOk result (λ text. string_bytes text ≡ at_field offset field words.now) }
{
    format!(in alloc; "at offset {offset}: {words} (field {field})")
}
