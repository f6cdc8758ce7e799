//! The table of the fields of each record type.
ghost use Rattle.std.specs.Prelude.{◌++◌, ◌≡◌, IfSome, List, slice_index, ℕ};
ghost use Rattle.dnw_base.specs.DnsClasses.{class_code};
ghost use Rattle.dnw_base.specs.RecordTypes.{type_code};
ghost use Rattle.dnw_data.specs.Table.{a6_fields, are_names_decompressed, fields_elsewhere, fields_in, fields_in_internet, fields_of};
ghost use Rattle.dnw_data.specs.Table.{fields_of_some, is_internet_type, is_like_internet, late_rows, may_lack_data, middle_rows, table};

use crate::kind::{Kind, ListKind, NameForm, Shape, Shown};
use crate::whole_name::octet_at;
use dnw_base::dns_class::DNSClass;
use dnw_base::record_type::RecordType;

/// A name of a type of RFC 1035.
const NAME: Kind = Kind::Name(NameForm::Compressible);

/// A name that is never compressed, and that canonical form lowers.
const LOWERED: Kind = Kind::Name(NameForm::Lowered);

/// A name that is always written as it is.
const PLAIN: Kind = Kind::Name(NameForm::Plain);

/// A character string.
const TEXT: Kind = Kind::Counted(Shown::Text);

/// The tag of a property.
const TAG: Kind = Kind::Counted(Shown::Tag);

/// A salt.
const SALT: Kind = Kind::Counted(Shown::Hex);

/// A hashed name.
const HASH: Kind = Kind::Counted(Shown::Base32Hex);

/// Octets up to the end, shown in hexadecimal.
const HEX: Kind = Kind::Octets(Shown::Hex);

/// Octets up to the end, shown in base 64.
const BASE64: Kind = Kind::Octets(Shown::Base64);

/// Octets up to the end, shown as text.
const VALUE: Kind = Kind::Octets(Shown::Text);

/// Octets up to the end, shown in base 64 or as `-`.
const MAYBE_BASE64: Kind = Kind::Octets(Shown::MaybeBase64);

/// An address of NSAP.
const NSAP: Kind = Kind::Octets(Shown::Nsap);

/// The ports of a bitmap.
const PORTS: Kind = Kind::Octets(Shown::Ports);

/// The record types of a bitmap without windows.
const OLD_TYPES: Kind = Kind::Octets(Shown::OldTypes);

/// A length of two octets, and octets.
const LONG: Kind = Kind::LongCounted(Shown::Base64);

/// Character strings up to the end.
const TEXTS: Kind = Kind::List(ListKind::Texts);

/// A set of record types up to the end.
const TYPES: Kind = Kind::List(ListKind::Types);

/// Service parameters up to the end.
const PARAMS: Kind = Kind::List(ListKind::Params);

/// Address prefixes up to the end.
const PREFIXES: Kind = Kind::List(ListKind::Prefixes);

/// Names in their wire form up to the end.
const NAMES: Kind = Kind::List(ListKind::Names);

/// The fields of SOA.
const AUTHORITY: [Kind; 7] = [
    NAME,
    NAME,
    Kind::U32,
    Kind::U32,
    Kind::U32,
    Kind::U32,
    Kind::U32,
];

/// The fields of SIG and RRSIG.
const SIGNATURE: [Kind; 9] = [
    Kind::TypeCode,
    Kind::U8,
    Kind::U8,
    Kind::U32,
    Kind::Time,
    Kind::Time,
    Kind::U16,
    LOWERED,
    BASE64,
];

/// The fields of TKEY.
const SHARED_KEY: [Kind; 7] = [
    PLAIN,
    Kind::Time,
    Kind::Time,
    Kind::U16,
    Kind::U16,
    LONG,
    LONG,
];

/// The fields of TSIG.
const MESSAGE_SIGNATURE: [Kind; 7] = [
    PLAIN,
    Kind::LongTime,
    Kind::U16,
    LONG,
    Kind::U16,
    Kind::U16,
    LONG,
];

/// The code of A6.
const A6: u16 = 38;

/// Returns the kinds of the fields that data of a class and a type have. Data of a type that is not in the table are octets
/// (RFC 3597), and so are those of a type that only IN has in another class. Under NONE and ANY data are as in IN, or are left
/// out: then they have no fields (RFC 2136, sections 2.4 and 2.5).
///
/// Of the data it matters only if there are any and, for A6, if their first octet is 0: then they end with no name (RFC 2874,
/// section 3.1.1).
// For usual types the table need not be asked.
#[inline(always)]
#[tactic(auto, using(crate::proofs::Rows::in_internet))]
pub fn fields_of(class: DNSClass, record_type: RecordType, octets: &[u8]) -> &'static [Kind]
    ensures { result.now ≡ fields_of (class_code class) (type_code record_type) octets.now }
{
    match (class, usual_fields(record_type)) {
        (DNSClass::IN, Some(kinds)) => kinds,
        _ => listed_fields(class, record_type, octets),
    }
}

/// Returns the kinds of the fields that data in IN have, for the types that are most used.
#[inline(always)]
fn usual_fields(record_type: RecordType) -> Option<&'static [Kind]>
    ensures { IfSome result (λ kinds. (octets : List ℕ) → kinds.now ≡ fields_in_internet (type_code record_type) octets) }
{
    match record_type {
        RecordType::A => Some(&[Kind::Ipv4]),
        RecordType::NS | RecordType::CNAME | RecordType::PTR => Some(&[NAME]),
        RecordType::SOA => Some(&AUTHORITY),
        RecordType::MX => Some(&[Kind::U16, NAME]),
        RecordType::TXT => Some(&[TEXTS]),
        RecordType::AAAA => Some(&[Kind::Ipv6]),
        _ => None,
    }
}

/// Returns the kinds of the fields that data of a class and a type have, by the table.
#[tactic(auto, unfolding(crate::specs::Table::fields_of))]
fn listed_fields(class: DNSClass, record_type: RecordType, octets: &[u8]) -> &'static [Kind]
    ensures { result.now ≡ fields_of (class_code class) (type_code record_type) octets.now }
{
    let class = u16::from(class);
    let code = u16::from(record_type);
    if octets.is_empty() && may_lack_data(class, code) {
        return &[];
    }
    fields_of_some(class, code, octets)
}

/// Returns `true` if data of this class and type may be left out.
fn may_lack_data(class: u16, code: u16) -> bool
    ensures { result ≡ may_lack_data class code }
{
    (class == 254 || class == 255) && code != 41
}

/// Returns the kinds of the fields of data that are not left out.
fn fields_of_some(class: u16, code: u16, octets: &[u8]) -> &'static [Kind]
    ensures { result.now ≡ fields_of_some class code octets.now }
{
    if is_like_internet(class) || !is_internet_type(code) {
        return fields_in_internet(code, octets);
    }
    fields_elsewhere(class, code)
}

/// Returns `true` for the classes whose data are as in IN.
fn is_like_internet(class: u16) -> bool
    ensures { result ≡ is_like_internet class }
{
    class == 1 || class == 254 || class == 255
}

/// Returns `true` for the types that only IN has.
#[tactic(auto, unfolding(crate::specs::Table::is_internet_type))]
fn is_internet_type(code: u16) -> bool
    ensures { result ≡ is_internet_type code }
{
    // made by tools/types from specs/Table.antt
    matches!(
        code,
        1 | 11 | 22 | 23 | 26 | 28 | 33 | 36 | 38 | 42 | 49 | 64 | 65
    )
    // made until here
}

/// Returns the kinds of the fields of a type that only IN has, in another class.
fn fields_elsewhere(class: u16, code: u16) -> &'static [Kind]
    ensures { result.now ≡ fields_elsewhere class code }
{
    if class == 3 && code == 1 {
        return &[NAME, Kind::ChaosAddress];
    }
    &[HEX]
}

/// Returns the kinds of the fields of data in IN.
fn fields_in_internet(code: u16, octets: &[u8]) -> &'static [Kind]
    ensures { result.now ≡ fields_in_internet code octets.now }
{
    if code == A6 {
        return a6_fields(octet_at(octets, 0));
    }
    early_fields_of(code)
}

/// Returns the kinds of the fields of A6 with a prefix of this length.
fn a6_fields(prefix: u8) -> &'static [Kind]
    ensures { result.now ≡ a6_fields prefix }
{
    if prefix == 0 {
        return &[Kind::Shaped(Shape::AddressSuffix)];
    }
    &[Kind::Shaped(Shape::AddressSuffix), LOWERED]
}

/// Returns the kinds of the fields of a type by its code, but of A6: here those of the types up to 30.
fn early_fields_of(code: u16) -> &'static [Kind]
    ensures { result.now ≡ fields_in table code }
{
    match code {
        // made by tools/types from specs/Table.antt
        1 => &[Kind::Ipv4], // A
        2 => &[NAME], // NS
        3 => &[NAME], // MD
        4 => &[NAME], // MF
        5 => &[NAME], // CNAME
        6 => &AUTHORITY, // SOA
        7 => &[NAME], // MB
        8 => &[NAME], // MG
        9 => &[NAME], // MR
        10 => &[HEX], // NULL
        11 => &[Kind::Ipv4, Kind::U8, PORTS], // WKS
        12 => &[NAME], // PTR
        13 => &[TEXT, TEXT], // HINFO
        14 => &[NAME, NAME], // MINFO
        15 => &[Kind::U16, NAME], // MX
        16 => &[TEXTS], // TXT
        17 => &[LOWERED, LOWERED], // RP
        18 => &[Kind::U16, LOWERED], // AFSDB
        19 => &[TEXT], // X25
        20 => &[TEXTS], // ISDN
        21 => &[Kind::U16, LOWERED], // RT
        22 => &[NSAP], // NSAP
        23 => &[PLAIN], // NSAP-PTR
        24 => &SIGNATURE, // SIG
        25 => &[Kind::U16, Kind::U8, Kind::U8, BASE64], // KEY
        26 => &[Kind::U16, LOWERED, LOWERED], // PX
        27 => &[TEXT, TEXT, TEXT], // GPOS
        28 => &[Kind::Ipv6], // AAAA
        29 => &[Kind::Shaped(Shape::Location)], // LOC
        30 => &[LOWERED, OLD_TYPES], // NXT
        // made until here
        middle_code => middle_fields_of(middle_code),
    }
}

/// Returns the kinds of the fields of the types with a code of 31 to 68, but of A6, and of those above.
fn middle_fields_of(code: u16) -> &'static [Kind]
    ensures { result.now ≡ fields_in (middle_rows ++ late_rows) code }
{
    match code {
        // made by tools/types from specs/Table.antt
        33 => &[Kind::U16, Kind::U16, Kind::U16, LOWERED], // SRV
        35 => &[Kind::U16, Kind::U16, TEXT, TEXT, TEXT, LOWERED], // NAPTR
        36 => &[Kind::U16, LOWERED], // KX
        37 => &[Kind::U16, Kind::U16, Kind::U8, BASE64], // CERT
        39 => &[LOWERED], // DNAME
        42 => &[PREFIXES], // APL
        43 => &[Kind::U16, Kind::U8, Kind::U8, HEX], // DS
        44 => &[Kind::U8, Kind::U8, HEX], // SSHFP
        45 => &[Kind::U8, Kind::Shaped(Shape::Gateway), BASE64], // IPSECKEY
        46 => &SIGNATURE, // RRSIG
        47 => &[PLAIN, TYPES], // NSEC
        48 => &[Kind::U16, Kind::U8, Kind::U8, BASE64], // DNSKEY
        49 => &[BASE64], // DHCID
        50 => &[Kind::U8, Kind::U8, Kind::U16, SALT, HASH, TYPES], // NSEC3
        51 => &[Kind::U8, Kind::U8, Kind::U16, SALT], // NSEC3PARAM
        52 => &[Kind::U8, Kind::U8, Kind::U8, HEX], // TLSA
        53 => &[Kind::U8, Kind::U8, Kind::U8, HEX], // SMIMEA
        55 => &[Kind::Shaped(Shape::HostIdentity), NAMES], // HIP
        56 => &[TEXTS], // NINFO
        57 => &[Kind::U16, Kind::U8, Kind::U8, BASE64], // RKEY
        58 => &[PLAIN, PLAIN], // TALINK
        59 => &[Kind::U16, Kind::U8, Kind::U8, HEX], // CDS
        60 => &[Kind::U16, Kind::U8, Kind::U8, BASE64], // CDNSKEY
        61 => &[BASE64], // OPENPGPKEY
        62 => &[Kind::U32, Kind::U16, TYPES], // CSYNC
        63 => &[Kind::U32, Kind::U8, Kind::U8, HEX], // ZONEMD
        64 => &[Kind::U16, PLAIN, PARAMS], // SVCB
        65 => &[Kind::U16, PLAIN, PARAMS], // HTTPS
        66 => &[Kind::TypeCode, Kind::U8, Kind::U16, PLAIN], // DSYNC
        67 => &[BASE64], // HHIT
        68 => &[BASE64], // BRID
        // made until here
        late_code => late_fields_of(late_code),
    }
}

/// Returns the kinds of the fields of the types with a code above 68.
fn late_fields_of(code: u16) -> &'static [Kind]
    ensures { result.now ≡ fields_in late_rows code }
{
    match code {
        // made by tools/types from specs/Table.antt
        99 => &[TEXTS], // SPF
        104 => &[Kind::U16, Kind::Locator], // NID
        105 => &[Kind::U16, Kind::Ipv4], // L32
        106 => &[Kind::U16, Kind::Locator], // L64
        107 => &[Kind::U16, PLAIN], // LP
        108 => &[Kind::U48], // EUI48
        109 => &[Kind::U64], // EUI64
        249 => &SHARED_KEY, // TKEY
        250 => &MESSAGE_SIGNATURE, // TSIG
        256 => &[Kind::U16, Kind::U16, VALUE], // URI
        257 => &[Kind::U8, TAG, VALUE], // CAA
        258 => &[TEXTS], // AVC
        259 => &[Kind::U32, Kind::U32, Kind::U8, TEXT, MAYBE_BASE64], // DOA
        260 => &[Kind::U8, Kind::Shaped(Shape::Relay)], // AMTRELAY
        261 => &[TEXTS], // RESINFO
        262 => &[TEXTS], // WALLET
        263 => &[TEXTS], // CLA
        264 => &[Kind::NodeNumber], // IPN
        32768 => &[Kind::U16, Kind::U8, Kind::U8, HEX], // TA
        32769 => &[Kind::U16, Kind::U8, Kind::U8, HEX], // DLV
        // made until here
        _ => &[HEX],
    }
}

/// Returns `true` if receivers decompress names in data of a type: its names may be compressed, or were once (RFC 3597, section
/// 4). Names of other types are never compressed; they are read with pointers here all the same.
#[tactic(auto, unfolding(crate::specs::Table::are_names_decompressed))]
pub fn are_names_decompressed(record_type: RecordType) -> bool
    ensures { result ≡ are_names_decompressed (type_code record_type) }
{
    matches!(
        u16::from(record_type),
        2..=9 | 12 | 14 | 15 | 17 | 18 | 21 | 24 | 26 | 30 | 33 | 35
    )
}
