//! The names of types that are no variants of [`RecordType`], and types by their names in upper or lower case.
//!
//! A name is found as a number, its key: the octets in lower case, the first one highest, and then the length, in 4 bits.
//! In hexadecimal that is the ASCII of the name and a digit.
ghost use Rattle.std.specs.Prelude.{◌≡◌, ◌≤◌, length, option_map};
ghost use Rattle.dnw_base.specs.RecordTypes.{registered_type};
ghost use Rattle.dnw_base.specs.TypeNames.{further_name};
ghost use Rattle.dnw_base.specs.Inside.TypeKeys.{name_key, named_by_key, further_by_key};

use crate::code_text::MAX_CODE_TEXT;
use crate::record_type::RecordType;

/// The names of IANA's registry whose types are `Unknown` here, by their codes, and their keys.
macro_rules! further {
    ($($asked:tt)*) => {
        rows! {
            {
            3 "MD" 0x6d64_2,
            4 "MF" 0x6d66_2,
            7 "MB" 0x6d62_2,
            8 "MG" 0x6d67_2,
            9 "MR" 0x6d72_2,
            11 "WKS" 0x776b73_3,
            14 "MINFO" 0x6d696e666f_5,
            17 "RP" 0x7270_2,
            18 "AFSDB" 0x6166736462_5,
            19 "X25" 0x783235_3,
            20 "ISDN" 0x6973646e_4,
            21 "RT" 0x7274_2,
            22 "NSAP" 0x6e736170_4,
            23 "NSAP-PTR" 0x6e7361702d707472_8,
            26 "PX" 0x7078_2,
            27 "GPOS" 0x67706f73_4,
            29 "LOC" 0x6c6f63_3,
            30 "NXT" 0x6e7874_3,
            31 "EID" 0x656964_3,
            32 "NIMLOC" 0x6e696d6c6f63_6,
            34 "ATMA" 0x61746d61_4,
            36 "KX" 0x6b78_2,
            38 "A6" 0x6136_2,
            40 "SINK" 0x73696e6b_4,
            42 "APL" 0x61706c_3,
            45 "IPSECKEY" 0x69707365636b6579_8,
            49 "DHCID" 0x6468636964_5,
            55 "HIP" 0x686970_3,
            56 "NINFO" 0x6e696e666f_5,
            57 "RKEY" 0x726b6579_4,
            58 "TALINK" 0x74616c696e6b_6,
            63 "ZONEMD" 0x7a6f6e656d64_6,
            66 "DSYNC" 0x6473796e63_5,
            67 "HHIT" 0x68686974_4,
            68 "BRID" 0x62726964_4,
            99 "SPF" 0x737066_3,
            100 "UINFO" 0x75696e666f_5,
            101 "UID" 0x756964_3,
            102 "GID" 0x676964_3,
            103 "UNSPEC" 0x756e73706563_6,
            104 "NID" 0x6e6964_3,
            105 "L32" 0x6c3332_3,
            106 "L64" 0x6c3634_3,
            107 "LP" 0x6c70_2,
            108 "EUI48" 0x6575693438_5,
            109 "EUI64" 0x6575693634_5,
            128 "NXNAME" 0x6e786e616d65_6,
            249 "TKEY" 0x746b6579_4,
            253 "MAILB" 0x6d61696c62_5,
            254 "MAILA" 0x6d61696c61_5,
            256 "URI" 0x757269_3,
            258 "AVC" 0x617663_3,
            259 "DOA" 0x646f61_3,
            260 "AMTRELAY" 0x616d7472656c6179_8,
            261 "RESINFO" 0x726573696e666f_7,
            262 "WALLET" 0x77616c6c6574_6,
            263 "CLA" 0x636c61_3,
            264 "IPN" 0x69706e_3,
            32768 "TA" 0x7461_2,
            32769 "DLV" 0x646c76_3,
            }
            $($asked)*
        }
    };
}

/// What a table of names says: `by_key x`, the code of the name with the key `x`; `by_code x`, the name of the code `x`.
macro_rules! rows {
    ({ $($code:literal $name:literal $key:literal,)* } by_key $value:expr) => {
        match $value {
            $($key => Some($code),)*
            _ => None,
        }
    };
    ({ $($code:literal $name:literal $key:literal,)* } by_code $value:expr) => {
        match $value {
            $($code => Some($name),)*
            _ => None,
        }
    };
}

/// Returns the name of the code in IANA's registry, if its type is no variant of [`RecordType`].
#[tactic(auto, unfolding(crate::specs::TypeNames::further_name))]
pub(crate) fn further_name(code: u16) -> Option<&'static str>
    ensures { option_map (λ name. name.now) result ≡ further_name code }
{
    further!(by_code code)
}

/// Returns the type with this name in IANA's registry, in upper or lower case.
#[tactic(auto, using(crate::proofs::TypeKeys::too_long))]
pub(crate) fn registered_type(name: &[u8]) -> Option<RecordType>
    ensures { result ≡ registered_type name.now }
{
    if name.len() > MAX_CODE_TEXT {
        return None;
    }
    let key = name_key(name);
    if let Some(record_type) = named_by_key(key) {
        return Some(record_type);
    }
    let code = further_by_key(key)?;
    Some(RecordType::Unknown(code))
}

/// Returns the key of a name.
fn name_key(name: &[u8]) -> u128
    requires { length name.now ≤ 10 }
    ensures { result ≡ name_key name.now }
{
    let mut letters: u128 = 0;
    for i in 0..name.len() {
        letters = 256 * letters + u128::from(name[i].to_ascii_lowercase());
    }
    16 * letters + name.len() as u128
}

/// Returns the variant of [`RecordType`] whose name has this key.
#[tactic(auto, unfolding(crate::specs::Inside::TypeKeys::named_by_key))]
fn named_by_key(key: u128) -> Option<RecordType>
    ensures { result ≡ named_by_key key }
{
    match key {
        0x61_1 => Some(RecordType::A),
        0x6e73_2 => Some(RecordType::NS),
        0x636e616d65_5 => Some(RecordType::CNAME),
        0x736f61_3 => Some(RecordType::SOA),
        0x6e756c6c_4 => Some(RecordType::NULL),
        0x707472_3 => Some(RecordType::PTR),
        0x68696e666f_5 => Some(RecordType::HINFO),
        0x6d78_2 => Some(RecordType::MX),
        0x747874_3 => Some(RecordType::TXT),
        0x736967_3 => Some(RecordType::SIG),
        0x6b6579_3 => Some(RecordType::KEY),
        0x61616161_4 => Some(RecordType::AAAA),
        0x737276_3 => Some(RecordType::SRV),
        0x6e61707472_5 => Some(RecordType::NAPTR),
        0x63657274_4 => Some(RecordType::CERT),
        0x646e616d65_5 => Some(RecordType::DNAME),
        0x6f7074_3 => Some(RecordType::OPT),
        0x6473_2 => Some(RecordType::DS),
        0x7373686670_5 => Some(RecordType::SSHFP),
        0x7272736967_5 => Some(RecordType::RRSIG),
        0x6e736563_4 => Some(RecordType::NSEC),
        0x646e736b6579_6 => Some(RecordType::DNSKEY),
        0x6e73656333_5 => Some(RecordType::NSEC3),
        0x6e73656333706172616d_a => Some(RecordType::NSEC3PARAM),
        0x746c7361_4 => Some(RecordType::TLSA),
        0x736d696d6561_6 => Some(RecordType::SMIMEA),
        0x636473_3 => Some(RecordType::CDS),
        0x63646e736b6579_7 => Some(RecordType::CDNSKEY),
        0x6f70656e7067706b6579_a => Some(RecordType::OPENPGPKEY),
        0x6373796e63_5 => Some(RecordType::CSYNC),
        0x73766362_4 => Some(RecordType::SVCB),
        0x6874747073_5 => Some(RecordType::HTTPS),
        0x74736967_4 => Some(RecordType::TSIG),
        0x69786672_4 => Some(RecordType::IXFR),
        0x61786672_4 => Some(RecordType::AXFR),
        0x616e79_3 => Some(RecordType::ANY),
        0x636161_3 => Some(RecordType::CAA),
        _ => None,
    }
}

/// Returns the code of the other name that has this key.
#[tactic(auto, unfolding(crate::specs::Inside::TypeKeys::further_by_key))]
fn further_by_key(key: u128) -> Option<u16>
    ensures { result ≡ further_by_key key }
{
    further!(by_key key)
}
