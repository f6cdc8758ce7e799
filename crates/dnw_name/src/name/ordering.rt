//! The order, equality and hash of names.
ghost use Rattle.std.specs.Prelude.{◌≡◌, ◌↔◌, IsTrue, refl};
ghost use Rattle.std.specs.Cmp.{partial_equiv_from_equiv};
ghost use Rattle.std.specs.Ordering.{as_partial_cmp};
ghost use Rattle.dnw_base.specs.Names.{lower};
ghost use Rattle.dnw_name_order.specs.Order.{name_cmp, name_cmp_case, name_eq, name_hash_input};
ghost use Rattle.dnw_name_order.specs.OrderLaws.{name_cmp_total, name_eq_equiv, name_ties, name_order, name_hash_alike};

use crate::name::Name;
use dnw_name_order::order;
use std::cmp::Ordering;
use std::hash::{Hash, Hasher};

impl Name {
    /// Compares two names as `cmp` does, but with capitals as they are.
    pub fn cmp_case(&self, other: &Self) -> Ordering
        ensures { result ≡ name_cmp_case self.now other.now }
    {
        let flags = self.is_fqdn().cmp(&other.is_fqdn());
        if flags.is_ne() {
            return flags;
        }
        order::cmp_forms_case(&self.form, &other.form)
    }

    /// Returns `true` if both names have the same labels, with capitals as they are, and are both fully qualified or both
    /// relative.
    pub fn eq_case(&self, other: &Self) -> bool
        ensures { IsTrue result ↔ (self.now ≡ other.now) }
    {
        self.is_fqdn() == other.is_fqdn()
            && order::eq_labels_case(self.wire_labels(), other.wire_labels())
    }

    /// Returns `true` if both names have the same labels, ignoring ASCII case. Whether they are fully qualified is ignored.
    pub fn eq_ignore_root(&self, other: &Self) -> bool
        ensures { IsTrue result ↔ (lower self.now.labels ≡ lower other.now.labels) }
    {
        order::eq_labels(self.wire_labels(), other.wire_labels())
    }

    /// Returns `true` if both names have the same labels, with capitals as they are. Whether they are fully qualified is
    /// ignored.
    pub fn eq_ignore_root_case(&self, other: &Self) -> bool
        ensures { IsTrue result ↔ (self.now.labels ≡ other.now.labels) }
    {
        order::eq_labels_case(self.wire_labels(), other.wire_labels())
    }
}

/// Names are equal if both are fully qualified or both relative, and their labels are the same ignoring ASCII case (RFC
/// 4343).
impl PartialEq for Name {
    ghost eq = { name_eq };

    ghost laws = { partial_equiv_from_equiv name_eq_equiv };

    fn eq(&self, other: &Self) -> bool {
        self.is_fqdn() == other.is_fqdn() && self.eq_ignore_root(other)
    }
}

impl Eq for Name {
    ghost laws = { name_eq_equiv };
}

impl PartialOrd for Name {
    ghost partial_cmp = { as_partial_cmp name_cmp };

    ghost laws = { name_order };

    fn partial_cmp(&self, other: &Self) -> Option<Ordering> {
        Some(self.cmp(other))
    }
}

/// Relative names come before fully qualified ones. Then the labels decide, from the last one, in canonical order (RFC
/// 4034, section 6.1): as strings of unsigned bytes, a shorter one before those that it begins, and ignoring ASCII case. A
/// name comes before those that end in it.
impl Ord for Name {
    ghost cmp = { name_cmp };

    ghost total = { name_cmp_total };

    ghost matches_partial_cmp = { λ x y. refl };

    ghost matches_eq = { name_ties };

    fn cmp(&self, other: &Self) -> Ordering {
        let flags = self.is_fqdn().cmp(&other.is_fqdn());
        if flags.is_ne() {
            return flags;
        }
        order::cmp_forms(&self.form, &other.form)
    }
}

/// A name is hashed in one write, as its wire form in lower case and its flag. So equal names have equal hashes.
impl Hash for Name {
    ghost hash_input = { name_hash_input };

    ghost respects_eq = { name_hash_alike };

    fn hash<H: Hasher>(&self, state: &mut H) {
        order::hash_name(self.is_fqdn(), self.wire_labels(), state);
    }
}
