//! Names in canonical order (RFC 4034, section 6.1), sorted by their sort keys, each of which is made once.
ghost use Rattle.std.specs.Prelude.{◌≡◌, [], ◌∷◌, ◌++◌, ℕ, List, length, map, slice_get, OnOk, OnErr};
ghost use Rattle.dnw_name_order.specs.SortKeys.{sort_key};
ghost use Rattle.dnw_name_order.specs.Sorted.{AreInOrder};
ghost use Rattle.dnw_name_order.specs.Inside.Keyed.{AreSorted, entry_cmp};

use crate::octets::cmp_octets;
use crate::sort_key::{self, MAX_SORT_KEY_LENGTH};
use dnw_name_form::wire_labels::WireLabels;
use smallvec::SmallVec;
use std::alloc::{AllocError, Global};
use std::cmp::Ordering;
use std::marker::Model;

/// A sort key. Most names have a short one, which is kept inline, so that they are sorted without an allocation for each.
type Key = SmallVec<u8, 30>;

/// The sort keys of names, which are numbered from 0.
///
/// A contract sees it as the list of the keys.
#[derive(Drop)]
pub struct SortKeys {
    // Each key with the number of its name.
    entries: Vec<(Key, usize)>,
    // Where a key is made. It is cleared once, and not for each key.
    room: [u8; MAX_SORT_KEY_LENGTH],
}

impl Model for SortKeys {
    ghost use Rattle.std.specs.Prelude.{List, ℕ, map};
    ghost use Rattle.dnw_name_order.specs.Inside.Keyed.{AreNumbered, key_of};

    ghost Value = { List (List ℕ) };

    ghost view = { λ keys. map key_of keys.entries.items };

    ghost invariant = { λ keys. AreNumbered keys.entries.items };
}

impl SortKeys {
    /// Creates a list without keys. It does not allocate.
    pub fn new(alloc: Global) -> Self
        ensures { result ≡ [] }
    {
        SortKeys {
            entries: Vec::new(alloc),
            room: [0; MAX_SORT_KEY_LENGTH],
        }
    }

    /// Returns the number of names.
    pub fn len(&self) -> usize
        ensures { result ≡ length self.now }
    {
        self.entries.len()
    }

    /// Adds the key of the next name. If it fails, the list is unchanged.
    #[tactic(auto, using(crate::proofs::Numbers::numbered_more))]
    pub fn push(&mut self, labels: WireLabels<'_>) -> Result<(), AllocError>
        ensures added { OnOk result (self.new ≡ self.old ++ sort_key labels.entry ∷ []) }
        ensures same { OnErr result (self.new ≡ self.old) }
    {
        let key = SmallVec::from_slice(
            *self.entries.allocator(),
            sort_key::of_labels(labels, &mut self.room),
        )?;
        self.entries.reserve(1)?;
        let number = self.entries.len();
        self.entries.push((key, number)).unwrap();
        Ok(())
    }

    /// Returns the numbers of the names in canonical order of the names. Those of equal names ascend.
    #[tactic(auto, using(crate::proofs::Numbers::in_order))]
    pub fn sorted(self) -> CanonicalOrder
        ensures in_order { (names : List (List (List ℕ))) → self ≡ map sort_key names → AreInOrder names result }
        ensures len { length result ≡ length self }
    {
        let SortKeys { entries, room: _ } = self;
        CanonicalOrder {
            entries: by_keys(entries),
        }
    }
}

/// Sorts entries by their keys, and those of equal keys by their numbers.
fn by_keys(mut entries: Vec<(Key, usize)>) -> Vec<(Key, usize)>
    ensures sorted { AreSorted entries.items result.items }
    ensures len { length result.items ≡ length entries.items }
{
    entries.sort_unstable_by(|left, right| cmp_entries(left, right));
    entries
}

/// Compares entries by their keys, and then by their numbers.
#[inline(always)]
fn cmp_entries(left: &(Key, usize), right: &(Key, usize)) -> Ordering
    ensures { result ≡ entry_cmp left.now right.now }
{
    let order = cmp_octets(left.0.as_slice(), right.0.as_slice());
    if order.is_ne() {
        return order;
    }
    left.1.cmp(&right.1)
}

/// The numbers of names, from 0, in canonical order of the names.
///
/// A contract sees it as the list of the numbers.
#[derive(Drop)]
pub struct CanonicalOrder {
    entries: Vec<(Key, usize)>,
}

impl Model for CanonicalOrder {
    ghost use Rattle.std.specs.Prelude.{List, ℕ, map};
    ghost use Rattle.dnw_name_order.specs.Inside.Keyed.{number_of};

    ghost Value = { List ℕ };

    ghost view = { λ order. map number_of order.entries.items };
}

impl CanonicalOrder {
    /// Returns how many numbers there are.
    #[inline(always)]
    pub fn len(&self) -> usize
        ensures { result ≡ length self.now }
    {
        self.entries.len()
    }

    /// Returns the number of the name that has this place in the order, from 0, or `None` past the last one.
    #[inline(always)]
    pub fn get(&self, place: usize) -> Option<usize>
        ensures { result ≡ slice_get self.now place }
    {
        Some(self.entries.get(place)?.1)
    }
}
