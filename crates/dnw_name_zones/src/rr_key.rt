//! Keys of sets of records.
ghost use Rattle.std.specs.Prelude.{◌≡◌, Ok, refl};
ghost use Rattle.std.specs.Ordering.{as_partial_cmp};
ghost use Rattle.dnw_name_zones.specs.Keys.{key_cmp, key_eq, key_hash};
ghost use Rattle.dnw_name_zones.specs.Inside.KeyLaws.{keys_total, keys_equal, keys_per, keys_tied, keys_ordered, keys_hash_alike};

use crate::lower_name::LowerName;
use dnw_base::error::ProtoResult;
use dnw_base::record_type::RecordType;
use std::cmp::Ordering;
use std::hash::{Hash, Hasher};

/// What a zone finds a set of records by: the name and the type that they share (RFC 2181, section 5).
#[derive(Debug, Drop)]
pub struct RrKey {
    /// The name of the records.
    pub name: LowerName,
    /// The type of the records.
    pub record_type: RecordType,
}

impl RrKey {
    /// Creates the key of the records of a name and a type.
    pub fn new(name: LowerName, record_type: RecordType) -> Self
        ensures { result ≡ record { name = name; record_type = record_type } }
    {
        RrKey { name, record_type }
    }

    /// Returns the name of the records.
    pub fn name(&self) -> &LowerName
        ensures { result.now ≡ self.now.name }
    {
        &self.name
    }

    /// Copies the key. It does not allocate and cannot fail.
    pub fn clone(&self) -> ProtoResult<Self>
        ensures { result ≡ Ok self.now }
    {
        Ok(RrKey {
            name: self.name.clone()?,
            record_type: self.record_type,
        })
    }
}

/// Keys are equal if their names and their types are.
impl PartialEq for RrKey {
    ghost eq = { key_eq };

    ghost laws = { keys_per };

    fn eq(&self, other: &Self) -> bool {
        self.name == other.name && self.record_type == other.record_type
    }
}

impl Eq for RrKey {
    ghost laws = { keys_equal };
}

impl PartialOrd for RrKey {
    ghost partial_cmp = { as_partial_cmp key_cmp };

    ghost laws = { keys_ordered };

    fn partial_cmp(&self, other: &Self) -> Option<Ordering> {
        Some(self.cmp(other))
    }
}

/// By name and then by type, as `LowerName` and `RecordType` are ordered.
impl Ord for RrKey {
    ghost cmp = { key_cmp };

    ghost total = { keys_total };

    ghost matches_partial_cmp = { λ x y. refl };

    ghost matches_eq = { keys_tied };

    fn cmp(&self, other: &Self) -> Ordering {
        let by_name = self.name.cmp(&other.name);
        by_name.then(self.record_type.cmp(&other.record_type))
    }
}

impl Hash for RrKey {
    ghost hash_input = { key_hash };

    ghost respects_eq = { keys_hash_alike };

    fn hash<H: Hasher>(&self, state: &mut H) {
        self.name.hash(state);
        self.record_type.hash(state);
    }
}
