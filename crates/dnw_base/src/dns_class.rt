//! Classes of records.
ghost use Rattle.std.specs.Prelude.{◌≡◌, ◌↔◌, max, Some, IsTrue, find};
ghost use Rattle.std.specs.Ordering.{eq_by_cmp};
ghost use Rattle.std.specs.Str.{str_eq_ignore_ascii_case};
ghost use Rattle.dnw_base.specs.DnsClasses.{class_code, class_name, class_of_code, class_text, class_of_text, class_rank, class_number, class_of_name, find_class, class_cmp};
ghost use Rattle.dnw_base.specs.Limits.{min_payload};
ghost use Rattle.dnw_base.specs.Naming.{Looks, ReportsClass};

use crate::code_text::{CodeText, code_after, is_alike, named, numbered};
use crate::error::DecodeError;
use crate::limits::MIN_PAYLOAD;
use crate::of_table;
use std::alloc::Global;
use std::cmp::Ordering;
use std::fmt;
use std::hash::{Hash, Hasher};

/// The class of a record: nearly always `IN` (RFC 1035, section 3.2.4).
///
/// Each class has a code of 16 bits. Classes of one code are different values if one is named, or `OPT`, or `Unknown`,
/// or if they hold different numbers.
#[derive(Debug, Clone, Copy)]
pub enum DNSClass {
    /// The Internet (RFC 1035, section 3.2.4).
    IN,
    /// Chaosnet (RFC 1035, section 3.2.4).
    CH,
    /// Hesiod (RFC 1035, section 3.2.4).
    HS,
    /// No class, in an update (RFC 2136, section 2.4).
    NONE,
    /// Any class, in a question (RFC 1035, section 3.2.5).
    ANY,
    /// The class of an `OPT` record, which is the size of the messages that its sender accepts, in octets (RFC 6891,
    /// section 6.1.2). A size below 512 has the code 512.
    OPT(u16),
    /// A class without a name here, by its code.
    Unknown(u16),
}

/// The table of the classes, by their codes.
macro_rules! classes {
    ($($asked:tt)*) => {
        of_table! {
            DNSClass {
                IN = 1,
                CH = 3,
                HS = 4,
                NONE = 254,
                ANY = 255,
            }
            $($asked)*
        }
    };
}

/// The classes that have a name, all of which a text can name.
const NAMED: &[DNSClass] = &classes!(all);

impl DNSClass {
    /// Returns the code of the class on the wire, as `u16::from` does.
    ///
    /// ```
    /// DNSClass::IN.code(); // 1
    /// DNSClass::OPT(100).code(); // 512
    /// ```
    #[inline]
    pub fn code(self) -> u16
        ensures { result ≡ class_code self }
    {
        u16::from(self)
    }

    /// Returns the name of the class in capitals, or `OPT` or `UNKNOWN`, as `<&str>::from` does.
    /// [`to_text`](DNSClass::to_text) has a text for those two too.
    #[inline]
    pub fn name(self) -> &'static str
        ensures { result.now ≡ class_name self }
    {
        <&str>::from(self)
    }

    /// Returns the class with this name, in capitals, or `ANY` for `*` (RFC 1035, section 3.2.5). No text names `OPT` or
    /// `Unknown`.
    #[tactic(auto, unfolding(crate::specs::DnsClasses::class_of_name))]
    pub fn from_name(name: &str) -> Option<Self>
        ensures { result ≡ class_of_name name.now }
    {
        if name == "*" {
            return Some(DNSClass::ANY);
        }
        find_class(NAMED, name)
    }

    /// Returns the class that [`from_name`](DNSClass::from_name) returns.
    ///
    /// It fails with `UnknownDnsClassStr` if there is none. Only the copy of the text in that error is allocated; if that
    /// fails, it fails with `Memory`.
    pub fn from_str(alloc: Global, str: &str) -> Result<Self, DecodeError>
        ensures { Looks (class_of_name str.now) (ReportsClass str.now) result }
    {
        if let Some(class) = DNSClass::from_name(str) {
            return Ok(class);
        }
        let mut text = String::new(alloc);
        text.push_str(str)?;
        Err(DecodeError::UnknownDnsClassStr(text))
    }

    /// Returns the class that a text gives in a zone file, in upper or lower case: a name, `*` for `ANY`, or `CLASS` and a
    /// code in decimal digits, also for a class with a name (RFC 3597, section 5). No text gives `OPT`.
    ///
    /// ```
    /// DNSClass::from_text("ch"); // Some(DNSClass::CH)
    /// DNSClass::from_text("CLASS3"); // Some(DNSClass::CH)
    /// ```
    #[tactic(auto, unfolding(crate::specs::DnsClasses::class_of_text))]
    pub fn from_text(text: &str) -> Option<Self>
        ensures { result ≡ class_of_text text.now }
    {
        if let Some(code) = code_after("CLASS", text) {
            return Some(DNSClass::from(code));
        }
        if text == "*" {
            return Some(DNSClass::ANY);
        }
        find_any_case(NAMED, text)
    }

    /// Returns the text of the class in a zone file: its name in capitals, or `CLASS` and its code for `OPT` and `Unknown`
    /// (RFC 3597, section 5). [`from_text`](DNSClass::from_text) gives the class of the same code for it.
    ///
    /// ```
    /// DNSClass::IN.to_text(); // "IN"
    /// DNSClass::Unknown(7).to_text(); // "CLASS7"
    /// ```
    #[tactic(auto, using(crate::proofs::PrintedClasses::names_fit, crate::proofs::PrintedClasses::classes_come_back))]
    pub fn to_text(self) -> CodeText
        ensures text { result.bytes ≡ class_text self }
        ensures back { class_of_text (class_text self) ≡ Some (class_of_code (class_code self)) }
    {
        if self.rank() == 0 {
            named(Into::<&str>::into(self))
        } else {
            numbered("CLASS", u16::from(self))
        }
    }

    /// Returns the class of an `OPT` record whose sender accepts messages of `value` octets. A size below 512 is taken
    /// as 512 (RFC 6891, section 6.2.3).
    pub fn for_opt(value: u16) -> Self
        ensures { result ≡ DNSClass.OPT (max value min_payload) }
    {
        DNSClass::OPT(value.max(MIN_PAYLOAD))
    }

    /// Returns 0 for a named class, 1 for `OPT` and 2 for `Unknown`.
    fn rank(self) -> u8
        ensures { result ≡ class_rank self }
    {
        match self {
            DNSClass::OPT(_) => 1,
            DNSClass::Unknown(_) => 2,
            _ => 0,
        }
    }

    /// Returns the number that `OPT` and `Unknown` hold, or 0.
    fn number(self) -> u16
        ensures { result ≡ class_number self }
    {
        match self {
            DNSClass::OPT(size) => size,
            DNSClass::Unknown(code) => code,
            _ => 0,
        }
    }
}

fn find_any_case(classes: &[DNSClass], text: &str) -> Option<DNSClass>
    ensures { result ≡ find (λ class. str_eq_ignore_ascii_case (class_name class) text.now) classes.now }
{
    classes.iter().copied().find(|class| is_alike(
        Into::<&str>::into(*class).as_bytes(),
        text.as_bytes(),
    ))
}

fn find_class(classes: &[DNSClass], name: &str) -> Option<DNSClass>
    ensures { result ≡ find_class classes.now name.now }
{
    classes
        .iter()
        .copied()
        .find(|class| Into::<&str>::into(*class) == name)
}

/// The name of a class in capitals, or `OPT` or `UNKNOWN`.
impl From<DNSClass> for &'static str {
    ghost use Rattle.std.specs.Prelude.{◌≡◌};
    ghost use Rattle.dnw_base.specs.DnsClasses.{class_name};

    ghost from_gives = { λ class name. name.now ≡ class_name class };

    fn from(rt: DNSClass) -> &'static str {
        classes!(name_of rt,
            DNSClass::OPT(_) => "OPT",
            DNSClass::Unknown(_) => "UNKNOWN",
        )
    }
}

/// The class with a code: the named one, or `Unknown`. It is never `OPT`, since that depends on the record's type.
impl From<u16> for DNSClass {
    ghost use Rattle.std.specs.Prelude.{◌≡◌};
    ghost use Rattle.dnw_base.specs.DnsClasses.{class_code, class_of_code};

    ghost from_gives = { λ code class. class ≡ class_of_code code };

    #[tactic(auto, unfolding(crate::specs::DnsClasses::class_of_code))]
    fn from(value: u16) -> Self
        ensures gives { result ≡ class_of_code value }
        ensures code { class_code result ≡ value }
    {
        classes!(by_code value)
    }
}

/// The code of a class on the wire.
impl From<DNSClass> for u16 {
    ghost use Rattle.std.specs.Prelude.{◌≡◌};
    ghost use Rattle.dnw_base.specs.DnsClasses.{class_code};

    ghost from_gives = { λ class code. code ≡ class_code class };

    fn from(rt: DNSClass) -> u16 {
        classes!(code_of rt,
            DNSClass::OPT(size) => size.max(MIN_PAYLOAD),
            DNSClass::Unknown(code) => code,
        )
    }
}

/// Two classes are equal if the order does not tell them apart: they are the same value.
impl PartialEq for DNSClass {
    ghost use Rattle.std.proofs.Common.{rules};
    ghost use Rattle.std.specs.Cmp.Rules.{comparing};

    ghost eq = { eq_by_cmp class_cmp };

    ghost laws = { Prim.search (comparing, rules) depth 9 };

    fn eq(&self, other: &Self) -> bool
        ensures order { result ≡ eq_by_cmp class_cmp self.now other.now }
        ensures same { IsTrue result ↔ (self.now ≡ other.now) }
    {
        self.cmp(other).is_eq()
    }
}

impl Eq for DNSClass {
    ghost use Rattle.std.proofs.Common.{rules};
    ghost use Rattle.std.specs.Cmp.Rules.{comparing};

    ghost laws = { Prim.search (comparing, rules) };
}

impl Hash for DNSClass {
    ghost use Rattle.dnw_base.specs.DnsClasses.{class_hash};
    ghost use Rattle.dnw_base.specs.Inside.DnsClassLaws.{classes_hash_alike};

    ghost hash_input = { class_hash };

    ghost respects_eq = { classes_hash_alike };

    fn hash<H: Hasher>(&self, state: &mut H) {
        u16::from(*self).hash(state);
        self.rank().hash(state);
        self.number().hash(state);
    }
}

impl PartialOrd for DNSClass {
    ghost use Rattle.std.proofs.Common.{rules};
    ghost use Rattle.std.specs.Cmp.Rules.{comparing};
    ghost use Rattle.std.specs.Ordering.{as_partial_cmp};

    ghost partial_cmp = { as_partial_cmp class_cmp };

    ghost laws = { Prim.search (comparing, rules) };

    fn partial_cmp(&self, other: &Self) -> Option<Ordering> {
        Some(self.cmp(other))
    }
}

/// By code. Of classes with one code the named one is first, then `OPT`, then `Unknown`, each by its number.
impl Ord for DNSClass {
    ghost use Rattle.std.specs.Prelude.{refl};
    ghost use Rattle.std.proofs.Common.{rules};
    ghost use Rattle.std.specs.Cmp.Rules.{comparing};

    ghost cmp = { class_cmp };

    ghost total = { Prim.search (comparing, rules) };

    ghost matches_partial_cmp = { λ x y. refl };

    ghost matches_eq = { λ x y. refl };

    fn cmp(&self, other: &Self) -> Ordering {
        let by_rank = self.rank().cmp(&other.rank());
        let in_code = by_rank.then(self.number().cmp(&other.number()));
        u16::from(*self).cmp(&u16::from(*other)).then(in_code)
    }
}

impl fmt::Display for DNSClass {
    ghost output = { λ class. Some (class_name class) };

    fn fmt<W: fmt::Write>(&self, f: &mut fmt::Formatter<W>) -> fmt::Result {
        f.write_str(Into::<&str>::into(*self))
    }
}
