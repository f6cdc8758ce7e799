//! Names in lower case.
ghost use Rattle.std.specs.Prelude.{◌≡◌, ◌≢◌, ℕ, ◌+◌, ◌↔◌, false, List, [], length, Some, Ok, IsTrue, IfOk, IfErr, OnErr, IsErrOf, IsOkAnd, refl};
ghost use Rattle.std.specs.Cmp.{partial_equiv_from_equiv};
ghost use Rattle.std.specs.Ordering.{as_partial_cmp};
ghost use Rattle.std.specs.Str.{chars};
ghost use Rattle.dnw_base.specs.Fault.{Follows, NeedsErrorText};
ghost use Rattle.dnw_base.specs.Decoder.{Decoder};
ghost use Rattle.dnw_base.specs.Names.{NameValue, encoded_size, IsWildcard};
ghost use Rattle.dnw_name_form.specs.Edits.{base_name, into_wildcard};
ghost use Rattle.dnw_name_text.specs.AsciiText.{name_text};
ghost use Rattle.dnw_name_order.specs.Order.{name_cmp_case, name_eq_case, IsZoneOfCase};
ghost use Rattle.dnw_name_order.specs.OrderLaws.{name_cmp_case_total, name_eq_case_equiv, name_case_ties, name_case_order};
ghost use Rattle.dnw_name.specs.Decodable.{StopsSomehow};
ghost use Rattle.dnw_name_zones.specs.LowerNames.{lowered, IsLower, lower_name_from_text, TakesLowerName, lower_name_hash_input, lower_name_hash_alike};

use dnw_base::decoder::BinDecoder;
use dnw_base::error::{DecodeError, ProtoResult};
use dnw_name::binary::BinDecodable;
use dnw_name::name::Name;
use std::alloc::Global;
use std::cmp::Ordering;
use std::fmt;
use std::hash::{Hash, Hasher};
use std::marker::Model;
use std::ops::Deref;

/// A domain name without capital ASCII letters, so that it can be compared byte by byte (RFC 4343).
///
/// A contract sees it as a `Name`: the flag `is_fqdn` and the list of its labels, from the left.
#[derive(Drop)]
pub struct LowerName(Name);

impl Model for LowerName {
    ghost use Rattle.dnw_base.specs.Names.{NameValue};
    ghost use Rattle.dnw_name_zones.specs.LowerNames.{IsLower};

    ghost Value = { NameValue };

    ghost view = { λ n. n.0 };

    ghost invariant = { λ n. IsLower n.0.labels };
}

impl LowerName {
    /// Creates the name in lower case. It does not allocate and cannot fail.
    pub fn new(name: &Name) -> ProtoResult<Self>
        ensures { result ≡ Ok (lowered name.now) }
    {
        Ok(LowerName(name.to_lowercase()?))
    }

    /// Creates the name in lower case, as `new`.
    pub fn from_name(name: Name) -> ProtoResult<Self>
        ensures { result ≡ Ok (lowered name) }
    {
        LowerName::new(&name)
    }

    /// Creates the relative name without labels.
    pub fn default(alloc: Global) -> Self
        ensures { result ≡ record { is_fqdn = false; labels = [] } }
    {
        LowerName(Name::default(alloc))
    }

    /// Creates a name from text, as `Name::from_str`, in lower case.
    pub fn from_str(alloc: Global, name: &str) -> ProtoResult<Self>
        ensures follows { Follows (lower_name_from_text (chars name.now)) (NeedsErrorText (lower_name_from_text (chars name.now))) result }
    {
        LowerName::from_name(Name::from_str(alloc, name)?)
    }

    /// Reads a name as `Name::read` does, and makes it lower case. It does not allocate.
    pub fn read(alloc: Global, decoder: &mut BinDecoder<'_>) -> Result<Self, DecodeError>
        ensures ok { IfOk result (λ name. TakesLowerName decoder.old name decoder.new) }
        ensures err { IfErr result (StopsSomehow decoder.old) }
        ensures same { OnErr result (decoder.new ≡ decoder.old) }

        // It accepts what the definition accepts, and fails where the definition stops.
        ensures accepts { (name : NameValue) (after : Decoder) → TakesLowerName decoder.old name after
            → IsOkAnd result (λ read. read ≡ name) × (decoder.new ≡ after) }
        ensures fails { (error : DecodeError) → StopsSomehow decoder.old error → IsErrOf result error }
        ensures no_memory { IsErrOf result DecodeError.Memory → ⊥ }
    {
        let name = Name::read(alloc, decoder)?;
        Ok(LowerName(name.to_lowercase().unwrap()))
    }

    /// Copies the name. It does not allocate and cannot fail.
    pub fn clone(&self) -> ProtoResult<Self>
        ensures { result ≡ Ok self.now }
    {
        Ok(LowerName(self.0.clone()?))
    }

    /// Returns a copy as a `Name`. It does not allocate and cannot fail.
    pub fn to_name(&self) -> ProtoResult<Name>
        ensures name { result ≡ Ok self.now }
        ensures lower { IsLower self.now.labels }
    {
        self.0.clone()
    }

    /// Returns the name as a `Name`.
    pub fn into_name(self) -> Name
        ensures name { result ≡ self }
        ensures lower { IsLower self.labels }
    {
        let LowerName(name) = self;
        name
    }

    /// Makes the name fully qualified or relative.
    pub fn set_fqdn(&mut self, val: bool)
        ensures { self.new ≡ record { is_fqdn = val; labels = self.old.labels } }
    {
        self.0.set_fqdn(val);
    }

    /// Returns `true` for the root: the name is fully qualified and has no labels.
    pub fn is_root(&self) -> bool
        ensures { IsTrue result ↔ ((self.now.labels ≡ []) × IsTrue self.now.is_fqdn) }
    {
        self.0.is_root()
    }

    /// Returns `true` if the name is fully qualified, so that it ends at the root.
    pub fn is_fqdn(&self) -> bool
        ensures { result ≡ self.now.is_fqdn }
    {
        self.0.is_fqdn()
    }

    /// Returns the name without its first label, fully qualified. If there is none, it returns a copy. It does not
    /// allocate and cannot fail.
    pub fn base_name(&self) -> ProtoResult<Self>
        ensures { result ≡ Ok (base_name self.now) }
    {
        Ok(LowerName(self.0.base_name()?))
    }

    /// Returns `true` if this name is the zone of `name`: its labels are the last ones of `name`. Whether they are fully
    /// qualified is ignored.
    pub fn zone_of(&self, name: &Self) -> bool
        ensures { IsTrue result ↔ IsZoneOfCase self.now.labels name.now.labels }
    {
        self.0.zone_of_case(&name.0)
    }

    /// Returns the number of labels, without a `*` at the start.
    pub fn num_labels(&self) -> u8
        ensures wildcard { IsWildcard self.now.labels → result + 1 ≡ length self.now.labels }
        ensures other { ¬ (IsWildcard self.now.labels) → result ≡ length self.now.labels }
    {
        self.0.num_labels()
    }

    /// Returns the number of bytes of all labels plus the number of labels, or 1 if there are no labels.
    pub fn len(&self) -> usize
        ensures none { self.now.labels ≡ [] → result ≡ 1 }
        ensures some { self.now.labels ≢ [] → result + 1 ≡ encoded_size self.now.labels }
    {
        self.0.len()
    }

    /// Returns `false`: even the root takes an octet.
    pub fn is_empty(&self) -> bool
        ensures { result ≡ false }
    {
        self.0.is_empty()
    }

    /// Returns `true` if the first label is `*` (RFC 4592, section 2.1.1).
    pub fn is_wildcard(&self) -> bool
        ensures { IsTrue result ↔ IsWildcard self.now.labels }
    {
        self.0.is_wildcard()
    }

    /// Returns the name with `*` in place of its first label. Without labels it becomes the root. It does not allocate and
    /// cannot fail.
    pub fn into_wildcard(self) -> ProtoResult<Self>
        ensures { result ≡ Ok (into_wildcard self) }
    {
        Ok(LowerName(self.0.into_wildcard()?))
    }
}

impl Deref for LowerName {
    type Target = Name;

    ghost deref_gives = { λ lower name. name ≡ lower };

    fn deref(&self) -> &Name {
        &self.0
    }
}

/// Names in lower case are equal if both are fully qualified or both relative, and their labels are the same.
impl PartialEq for LowerName {
    ghost eq = { name_eq_case };

    ghost laws = { partial_equiv_from_equiv name_eq_case_equiv };

    fn eq(&self, other: &Self) -> bool {
        self.0.eq_case(&other.0)
    }
}

impl Eq for LowerName {
    ghost laws = { name_eq_case_equiv };
}

impl PartialOrd for LowerName {
    ghost partial_cmp = { as_partial_cmp name_cmp_case };

    ghost laws = { name_case_order };

    fn partial_cmp(&self, other: &Self) -> Option<Ordering> {
        Some(self.cmp(other))
    }
}

/// Relative names come before fully qualified ones. Then the labels decide, from the last one, as strings of unsigned
/// bytes. As there are no capitals, this is the canonical order (RFC 4034, section 6.1).
impl Ord for LowerName {
    ghost cmp = { name_cmp_case };

    ghost total = { name_cmp_case_total };

    ghost matches_partial_cmp = { λ x y. refl };

    ghost matches_eq = { name_case_ties };

    fn cmp(&self, other: &Self) -> Ordering {
        self.0.cmp_case(&other.0)
    }
}

/// A name in lower case is hashed as its wire form and its flag.
impl Hash for LowerName {
    ghost hash_input = { lower_name_hash_input };

    ghost respects_eq = { lower_name_hash_alike };

    fn hash<H: Hasher>(&self, state: &mut H) {
        state.write(self.0.as_wire());
        self.is_fqdn().hash(state);
    }
}

impl<'r> BinDecodable<'r> for LowerName {
    ghost stands = { TakesLowerName };

    ghost fails = { StopsSomehow };

    fn read(alloc: Global, decoder: &mut BinDecoder<'r>) -> Result<Self, DecodeError> {
        LowerName::read(alloc, decoder)
    }

    fn from_bytes(alloc: Global, bytes: &'r [u8]) -> Result<Self, DecodeError> {
        let mut decoder = BinDecoder::new(bytes);
        LowerName::read(alloc, &mut decoder)
    }
}

impl fmt::Display for LowerName {
    ghost output = { λ n. Some (name_text n) };

    fn fmt<W: fmt::Write>(&self, f: &mut fmt::Formatter<W>) -> fmt::Result {
        fmt::Display::fmt(&self.0, f)
    }
}

impl fmt::Debug for LowerName {
    fn fmt<W: fmt::Write>(&self, f: &mut fmt::Formatter<W>) -> fmt::Result {
        write!(f, "LowerName({:?})", self.0)
    }
}
