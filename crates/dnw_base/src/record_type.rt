//! Record types.
ghost use Rattle.std.specs.Prelude.{◌≡◌, ◌⊎◌, ◌↔◌, Some, IsTrue, find, option_map};
ghost use Rattle.std.specs.Ordering.{eq_by_cmp};
ghost use Rattle.dnw_base.specs.RecordTypes.{type_code, type_name, type_of_code, type_text, type_of_text, registered_name, registered_type, find_named, type_of_name, type_cmp, is_unknown, is_written, is_dnssec};
ghost use Rattle.dnw_base.specs.Naming.{Looks, ReportsType};

use crate::code_text::{CodeText, code_after, named, numbered};
use crate::error::DecodeError;
use crate::of_table;
use crate::type_names::{further_name, registered_type};
use std::alloc::Global;
use std::cmp::Ordering;
use std::fmt;
use std::hash::{Hash, Hasher};

/// The type of a record: what its data means (RFC 1035, section 3.2.2).
///
/// Each type has a code of 16 bits. The types below have names; every other code is `Unknown`. `Unknown` of a code that
/// has a name is another value than the named type, although both have the same code.
#[derive(Debug, Clone, Copy)]
pub enum RecordType {
    /// An IPv4 address (RFC 1035, section 3.4.1).
    A,
    /// An IPv6 address (RFC 3596, section 2.1).
    AAAA,
    /// An alias at the top of a zone (draft-ietf-dnsop-aname). Its code was never assigned.
    ANAME,
    /// Any type, in a question (RFC 1035, section 3.2.3, `*`).
    ANY,
    /// The transfer of a whole zone, in a question (RFC 5936).
    AXFR,
    /// Which authorities may issue certificates (RFC 8659).
    CAA,
    /// The child's copy of a `DS` (RFC 7344).
    CDS,
    /// The child's copy of a `DNSKEY` (RFC 7344).
    CDNSKEY,
    /// A certificate (RFC 4398).
    CERT,
    /// The name that an alias stands for (RFC 1035, section 3.3.1).
    CNAME,
    /// The name that a whole subtree is an alias of (RFC 6672).
    DNAME,
    /// What a parent may copy from its child (RFC 7477).
    CSYNC,
    /// A key of a zone (RFC 4034, section 2).
    DNSKEY,
    /// The digest of a child's key (RFC 4034, section 5).
    DS,
    /// What a host is (RFC 1035, section 3.3.2).
    HINFO,
    /// How to reach a service over HTTPS (RFC 9460).
    HTTPS,
    /// The transfer of what changed in a zone, in a question (RFC 1995).
    IXFR,
    /// A key of a host (RFC 2535 and RFC 2930).
    KEY,
    /// Where mail goes (RFC 1035, section 3.3.9).
    MX,
    /// A rule that rewrites a name (RFC 3403).
    NAPTR,
    /// A name server of a zone (RFC 1035, section 3.3.11).
    NS,
    /// The next name of a zone, and the types of this one (RFC 4034, section 4).
    NSEC,
    /// The same over hashed names (RFC 5155, section 3).
    NSEC3,
    /// How the names of a zone are hashed (RFC 5155, section 4).
    NSEC3PARAM,
    /// Any data (RFC 1035, section 3.3.10).
    NULL,
    /// A key of OpenPGP (RFC 7929).
    OPENPGPKEY,
    /// The options of a message (RFC 6891).
    OPT,
    /// Another name (RFC 1035, section 3.3.12).
    PTR,
    /// A signature of records (RFC 4034, section 3).
    RRSIG,
    /// A signature of a message (RFC 2931).
    SIG,
    /// A certificate for mail (RFC 8162).
    SMIMEA,
    /// The start of a zone (RFC 1035, section 3.3.13).
    SOA,
    /// Where a service is (RFC 2782).
    SRV,
    /// The fingerprint of an SSH key (RFC 4255).
    SSHFP,
    /// How to reach a service (RFC 9460).
    SVCB,
    /// A certificate of a TLS server (RFC 6698).
    TLSA,
    /// The signature of a message by a shared key (RFC 8945).
    TSIG,
    /// Text (RFC 1035, section 3.3.14).
    TXT,
    /// A type that is none of these, by its code.
    Unknown(u16),
    /// Code 0, which is the type of no record (RFC 6895, section 3.1).
    ZERO,
}

/// The table of the types, by their codes.
macro_rules! types {
    ($($asked:tt)*) => {
        of_table! {
            RecordType {
                ZERO = 0,
                A = 1,
                NS = 2,
                CNAME = 5,
                SOA = 6,
                NULL = 10,
                PTR = 12,
                HINFO = 13,
                MX = 15,
                TXT = 16,
                SIG = 24,
                KEY = 25,
                AAAA = 28,
                SRV = 33,
                NAPTR = 35,
                CERT = 37,
                DNAME = 39,
                OPT = 41,
                DS = 43,
                SSHFP = 44,
                RRSIG = 46,
                NSEC = 47,
                DNSKEY = 48,
                NSEC3 = 50,
                NSEC3PARAM = 51,
                TLSA = 52,
                SMIMEA = 53,
                CDS = 59,
                CDNSKEY = 60,
                OPENPGPKEY = 61,
                CSYNC = 62,
                SVCB = 64,
                HTTPS = 65,
                TSIG = 250,
                IXFR = 251,
                AXFR = 252,
                ANY = 255,
                CAA = 257,
                ANAME = 65305,
            }
            $($asked)*
        }
    };
}

/// The types that have a name, by their codes.
const NAMED: &[RecordType] = &types!(all);

impl RecordType {
    /// Returns the code of the type on the wire, as `u16::from` does.
    ///
    /// ```
    /// RecordType::AAAA.code(); // 28
    /// RecordType::Unknown(65280).code(); // 65280
    /// ```
    #[inline]
    pub fn code(self) -> u16
        ensures { result ≡ type_code self }
    {
        u16::from(self)
    }

    /// Returns the name of the type in capitals, or `Unknown`, as `<&str>::from` does.
    /// [`to_text`](RecordType::to_text) has a text for `Unknown` too.
    #[inline]
    pub fn name(self) -> &'static str
        ensures { result.now ≡ type_name self }
    {
        <&str>::from(self)
    }

    /// Returns `true` for `ANY`.
    #[inline]
    pub fn is_any(self) -> bool
        ensures { IsTrue result ↔ (self ≡ RecordType.ANY) }
    {
        matches!(self, RecordType::ANY)
    }

    /// Returns `true` for `CERT`.
    #[inline]
    pub fn is_cert(self) -> bool
        ensures { IsTrue result ↔ (self ≡ RecordType.CERT) }
    {
        matches!(self, RecordType::CERT)
    }

    /// Returns `true` for `CNAME`.
    #[inline]
    pub fn is_cname(self) -> bool
        ensures { IsTrue result ↔ (self ≡ RecordType.CNAME) }
    {
        matches!(self, RecordType::CNAME)
    }

    /// Returns `true` for `NS`.
    #[inline]
    pub fn is_ns(self) -> bool
        ensures { IsTrue result ↔ (self ≡ RecordType.NS) }
    {
        matches!(self, RecordType::NS)
    }

    /// Returns `true` for `SOA`.
    #[inline]
    pub fn is_soa(self) -> bool
        ensures { IsTrue result ↔ (self ≡ RecordType.SOA) }
    {
        matches!(self, RecordType::SOA)
    }

    /// Returns `true` for `SRV`.
    #[inline]
    pub fn is_srv(self) -> bool
        ensures { IsTrue result ↔ (self ≡ RecordType.SRV) }
    {
        matches!(self, RecordType::SRV)
    }

    /// Returns `true` for the types of addresses, `A` and `AAAA`.
    #[inline]
    pub fn is_ip_addr(self) -> bool
        ensures { IsTrue result ↔ ((self ≡ RecordType.A) ⊎ (self ≡ RecordType.AAAA)) }
    {
        matches!(self, RecordType::A | RecordType::AAAA)
    }

    /// Returns `true` for the types of DNSSEC and of signed messages: `CDNSKEY`, `CDS`, `DNSKEY`, `DS`, `KEY`, `NSEC`,
    /// `NSEC3`, `NSEC3PARAM`, `RRSIG`, `SIG` and `TSIG`.
    #[inline]
    pub fn is_dnssec(self) -> bool
        ensures { result ≡ is_dnssec self }
    {
        matches!(
            self,
            RecordType::CDNSKEY
                | RecordType::CDS
                | RecordType::DNSKEY
                | RecordType::DS
                | RecordType::KEY
                | RecordType::NSEC
                | RecordType::NSEC3
                | RecordType::NSEC3PARAM
                | RecordType::RRSIG
                | RecordType::SIG
                | RecordType::TSIG
        )
    }

    /// Returns `true` for `RRSIG`.
    #[inline]
    pub fn is_rrsig(self) -> bool
        ensures { IsTrue result ↔ (self ≡ RecordType.RRSIG) }
    {
        matches!(self, RecordType::RRSIG)
    }

    /// Returns `true` for `ZERO`.
    #[inline]
    pub fn is_zero(self) -> bool
        ensures { IsTrue result ↔ (self ≡ RecordType.ZERO) }
    {
        matches!(self, RecordType::ZERO)
    }

    /// Returns `true` for `Unknown`, whatever its code.
    #[inline]
    fn is_unknown(self) -> bool
        ensures { result ≡ is_unknown self }
    {
        matches!(self, RecordType::Unknown(_))
    }

    /// Returns `true` for the types that a text can name: all that have a name but `IXFR`, `OPT` and `ZERO`.
    #[inline]
    fn is_written(self) -> bool
        ensures { result ≡ is_written self }
    {
        !matches!(
            self,
            RecordType::IXFR | RecordType::OPT | RecordType::Unknown(_) | RecordType::ZERO
        )
    }

    /// Returns the type with this name, in capitals, or `ANY` for `*` (RFC 1035, section 3.2.3). No text names `IXFR`,
    /// `OPT`, `ZERO` or `Unknown`.
    #[tactic(auto, unfolding(crate::specs::RecordTypes::type_of_name))]
    pub fn from_name(name: &str) -> Option<Self>
        ensures { result ≡ type_of_name name.now }
    {
        if name == "*" {
            return Some(RecordType::ANY);
        }
        find_named(NAMED, name)
    }

    /// Returns the type that [`from_name`](RecordType::from_name) returns.
    ///
    /// It fails with `UnknownRecordTypeStr` if there is none. Only the copy of the text in that error is allocated; if that
    /// fails, it fails with `Memory`.
    pub fn from_str(alloc: Global, str: &str) -> Result<Self, DecodeError>
        ensures { Looks (type_of_name str.now) (ReportsType str.now) result }
    {
        if let Some(record_type) = RecordType::from_name(str) {
            return Ok(record_type);
        }
        let mut text = String::new(alloc);
        text.push_str(str)?;
        Err(DecodeError::UnknownRecordTypeStr(text))
    }

    /// Returns the type that a text gives in a zone file, in upper or lower case: a name of IANA's registry, `*` for `ANY`,
    /// or `TYPE` and a code in decimal digits, also for a type with a name (RFC 3597, section 5).
    ///
    /// Unlike [`from_name`](RecordType::from_name) it takes all names of the registry, also those of types that are
    /// `Unknown` here, and neither `ANAME` nor `ZERO`, which are not in it.
    ///
    /// ```
    /// RecordType::from_text("aaaa"); // Some(RecordType::AAAA)
    /// RecordType::from_text("RP"); // Some(RecordType::Unknown(17))
    /// RecordType::from_text("TYPE28"); // Some(RecordType::AAAA)
    /// RecordType::from_text("TYPE65536"); // None
    /// ```
    #[tactic(auto, unfolding(crate::specs::RecordTypes::type_of_text))]
    pub fn from_text(text: &str) -> Option<Self>
        ensures { result ≡ type_of_text text.now }
    {
        if let Some(code) = code_after("TYPE", text) {
            return Some(RecordType::from(code));
        }
        if text == "*" {
            return Some(RecordType::ANY);
        }
        registered_type(text.as_bytes())
    }

    /// Returns the text of the type in a zone file: its name in IANA's registry, in capitals, or `TYPE` and its code if it
    /// has none there, as `ANAME`, `ZERO` and most codes of `Unknown` (RFC 3597, section 5).
    /// [`from_text`](RecordType::from_text) gives the type of the same code for it.
    ///
    /// ```
    /// RecordType::AAAA.to_text(); // "AAAA"
    /// RecordType::Unknown(17).to_text(); // "RP"
    /// RecordType::Unknown(65280).to_text(); // "TYPE65280"
    /// ```
    #[tactic(auto, using(crate::proofs::PrintedTypes::types_come_back))]
    pub fn to_text(self) -> CodeText
        ensures text { result.bytes ≡ type_text self }
        ensures back { type_of_text (type_text self) ≡ Some (type_of_code (type_code self)) }
    {
        match self.registered_name() {
            Some(name) => named(name),
            None => numbered("TYPE", u16::from(self)),
        }
    }

    /// Returns the name of the type in IANA's registry, if it has one there.
    fn registered_name(self) -> Option<&'static str>
        ensures { option_map (λ name. name.now) result ≡ registered_name self }
    {
        let code = self.code();
        match self {
            RecordType::ANAME | RecordType::Unknown(_) | RecordType::ZERO => further_name(code),
            _ => Some(self.name()),
        }
    }
}

fn find_named(types: &[RecordType], name: &str) -> Option<RecordType>
    ensures { result ≡ find_named types.now name.now }
{
    types.iter().copied().find(|record_type| record_type.is_written()
        && Into::<&str>::into(*record_type) == name)
}

/// The type with a code: the named one, or `Unknown`.
impl From<u16> for RecordType {
    ghost use Rattle.std.specs.Prelude.{◌≡◌};
    ghost use Rattle.dnw_base.specs.RecordTypes.{type_code, type_of_code};

    ghost from_gives = { λ code record_type. record_type ≡ type_of_code code };

    // For usual codes the table need not be asked.
    #[inline(always)]
    #[tactic(auto, unfolding(crate::specs::RecordTypes::type_of_code))]
    fn from(value: u16) -> Self
        ensures gives { result ≡ type_of_code value }
        ensures code { type_code result ≡ value }
    {
        match value {
            1 => RecordType::A,
            2 => RecordType::NS,
            5 => RecordType::CNAME,
            6 => RecordType::SOA,
            12 => RecordType::PTR,
            15 => RecordType::MX,
            16 => RecordType::TXT,
            28 => RecordType::AAAA,
            41 => RecordType::OPT,
            _ => type_listed(value),
        }
    }
}

/// Returns the type with a code, by the table.
#[tactic(auto, unfolding(crate::specs::RecordTypes::type_of_code))]
fn type_listed(value: u16) -> RecordType
    ensures gives { result ≡ type_of_code value }
    ensures code { type_code result ≡ value }
{
    types!(by_code value)
}

/// The name of a type in capitals, or `Unknown`.
impl From<RecordType> for &'static str {
    ghost use Rattle.std.specs.Prelude.{◌≡◌};
    ghost use Rattle.dnw_base.specs.RecordTypes.{type_name};

    ghost from_gives = { λ record_type name. name.now ≡ type_name record_type };

    fn from(rt: RecordType) -> &'static str {
        types!(name_of rt, RecordType::Unknown(_) => "Unknown",)
    }
}

/// The code of a type on the wire.
impl From<RecordType> for u16 {
    ghost use Rattle.std.specs.Prelude.{◌≡◌};
    ghost use Rattle.dnw_base.specs.RecordTypes.{type_code};

    ghost from_gives = { λ record_type code. code ≡ type_code record_type };

    fn from(rt: RecordType) -> u16 {
        types!(code_of rt, RecordType::Unknown(code) => code,)
    }
}

/// Types are equal if they have the same code and both have a name or both are `Unknown`.
impl PartialEq for RecordType {
    ghost use Rattle.std.proofs.Common.{rules};
    ghost use Rattle.std.specs.Cmp.Rules.{comparing};

    ghost eq = { eq_by_cmp type_cmp };

    ghost laws = { Prim.search (comparing, rules) };

    fn eq(&self, other: &Self) -> bool
        ensures order { result ≡ eq_by_cmp type_cmp self.now other.now }
        ensures same { IsTrue result ↔ (self.now ≡ other.now) }
    {
        self.cmp(other).is_eq()
    }
}

impl Eq for RecordType {
    ghost use Rattle.std.proofs.Common.{rules};
    ghost use Rattle.std.specs.Cmp.Rules.{comparing};

    ghost laws = { Prim.search (comparing, rules) };
}

impl Hash for RecordType {
    ghost use Rattle.dnw_base.specs.RecordTypes.{type_hash};
    ghost use Rattle.dnw_base.specs.Inside.RecordTypeLaws.{types_hash_alike};

    ghost hash_input = { type_hash };

    ghost respects_eq = { types_hash_alike };

    fn hash<H: Hasher>(&self, state: &mut H) {
        u16::from(*self).hash(state);
        self.is_unknown().hash(state);
    }
}

impl PartialOrd for RecordType {
    ghost use Rattle.std.proofs.Common.{rules};
    ghost use Rattle.std.specs.Cmp.Rules.{comparing};
    ghost use Rattle.std.specs.Ordering.{as_partial_cmp};

    ghost partial_cmp = { as_partial_cmp type_cmp };

    ghost laws = { Prim.search (comparing, rules) };

    fn partial_cmp(&self, other: &Self) -> Option<Ordering> {
        Some(self.cmp(other))
    }
}

/// By code. Of two types with one code, the named one is first.
impl Ord for RecordType {
    ghost use Rattle.std.specs.Prelude.{refl};
    ghost use Rattle.std.proofs.Common.{rules};
    ghost use Rattle.std.specs.Cmp.Rules.{comparing};

    ghost cmp = { type_cmp };

    ghost total = { Prim.search (comparing, rules) };

    ghost matches_partial_cmp = { λ x y. refl };

    ghost matches_eq = { λ x y. refl };

    fn cmp(&self, other: &Self) -> Ordering {
        let by_code = u16::from(*self).cmp(&u16::from(*other));
        by_code.then(self.is_unknown().cmp(&other.is_unknown()))
    }
}

impl fmt::Display for RecordType {
    ghost output = { λ record_type. Some (type_name record_type) };

    fn fmt<W: fmt::Write>(&self, f: &mut fmt::Formatter<W>) -> fmt::Result {
        f.write_str(Into::<&str>::into(*self))
    }
}
