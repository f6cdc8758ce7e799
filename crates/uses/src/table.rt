//! A table of many names in little memory: their wire forms in one buffer, in canonical order.
ghost use Rattle.std.specs.Prelude.{◌≡◌, ◌↔◌, ◌<◌, [], ◌∷◌, ◌++◌, length, slice_get, Some, IsTrue, IfOk, IfErr, OnOk, OnErr};
ghost use Rattle.std.specs.List.Sorted.{IsStrictlySortedBy};
ghost use Rattle.dns_names_wire.specs.Words.{labels_cmp};
ghost use Rattle.uses.specs.Tables.{BelongsAt, ComesLast, TableHasRoom, IsAt};
ghost use Rattle.uses.specs.TableErrors.{IsRefused};

use dns_names_wire::name::laws;
use dns_names_wire::{BinDecoder, Name, NameRef};
use std::alloc::{AllocError, Global};
use std::cmp::Ordering;
use std::marker::Model;

/// The most octets of all wire forms of a table: where a name begins and ends is then a number of 32 bits.
const MAX_OCTETS: usize = u32::MAX as usize;

/// Why a name is not added to a table, which is then unchanged.
#[derive(Debug, Clone, Copy, PartialEq, Eq)]
pub enum PushError {
    /// The name does not come after all names of the table.
    NotLast,

    /// The wire forms would take more octets than offsets of 32 bits reach.
    NoRoom,

    /// An allocation failed.
    Memory,
}

impl From<AllocError> for PushError {
    ghost use Rattle.std.specs.Prelude.{◌≡◌};
    ghost use Rattle.uses.specs.declared.table.PushError.TheVariants.{Memory};

    ghost from_gives = { λ _ e. e ≡ Memory };

    fn from(_: AllocError) -> Self {
        PushError::Memory
    }
}

/// Names in canonical order (RFC 4034, section 6.1), as those of a zone: their wire forms one after another in one buffer, and
/// where each begins. So a name takes four bytes beyond its wire form, while a `Name` takes some 270.
///
/// A contract sees it as the list of the names' labels. Whether a name is fully qualified is not kept.
#[derive(Drop)]
pub struct NameTable {
    octets: Vec<u8>,
    starts: Vec<u32>,
}

impl Model for NameTable {
    ghost use Rattle.std.specs.Prelude.{List, ℕ};
    ghost use Rattle.uses.specs.Inside.TableOctets.{IsTable, names_at};

    ghost Value = { List (List (List ℕ)) };

    ghost view = { λ t. names_at t.octets.items t.starts.items };

    ghost invariant = { λ t. IsTable t.octets.items t.starts.items (names_at t.octets.items t.starts.items) };
}

impl NameTable {
    /// Creates a table without names. It does not allocate.
    pub fn new(alloc: Global) -> Self
        ensures { result ≡ [] }
    {
        NameTable {
            octets: Vec::new(alloc),
            starts: Vec::new(alloc),
        }
    }

    /// Returns the number of names.
    pub fn len(&self) -> usize
        ensures len { result ≡ length self.now }
        ensures ascending { IsStrictlySortedBy labels_cmp self.now }
    {
        self.starts.len()
    }

    /// Adds a name at the end. It must come after all names of the table, ignoring ASCII case.
    ///
    /// If it fails, the table is unchanged.
    pub fn push(&mut self, name: &Name) -> Result<(), PushError>
        ensures added { OnOk result (self.new ≡ self.old ++ name.now.labels ∷ []) }
        ensures fits { OnOk result (ComesLast self.old name.now.labels × TableHasRoom self.old name.now.labels) }
        ensures refused { IfErr result (IsRefused self.old name.now.labels) }
        ensures unchanged { OnErr result (self.new ≡ self.old) }
    {
        if !self.comes_last(name) {
            return Err(PushError::NotLast);
        }
        // The proof reads here that the labels fit together.
        let _size = name.encoded_len();
        let wire = name.as_wire();
        if MAX_OCTETS - self.octets.len() < wire.len() {
            return Err(PushError::NoRoom);
        }
        let start = self.octets.len() as u32;
        self.starts.reserve(1)?;
        self.octets.extend_from_slice(wire)?;
        self.starts.push(start).unwrap();
        Ok(())
    }

    /// Returns the name with this number, from 0 on, without a copy, or `None` past the last one.
    pub fn get(&self, index: usize) -> Option<NameRef<'_>>
        ensures { result ≡ slice_get self.now index }
    {
        if index < self.len() {
            Some(self.name_at(index))
        } else {
            None
        }
    }

    /// Returns the number of a name with the same labels, ignoring ASCII case, or else the number that it would have, as
    /// `binary_search` of a slice. It compares the name with few others: some 20 of a million.
    pub fn find(&self, name: &Name) -> Result<usize, usize>
        ensures found { IfOk result (IsAt self.now name.now.labels) }
        ensures absent { IfErr result (BelongsAt self.now name.now.labels) }
    {
        let mut low = 0;
        let mut high = self.len();
        'search: while low < high {
            let middle = low + (high - low) / 2;
            match self.name_at(middle).cmp_name(name) {
                Ordering::Less => low = middle + 1,
                Ordering::Equal => return Ok(middle),
                Ordering::Greater => high = middle,
            }
        }
        Err(low)
    }

    /// Returns `true` if a name comes after all names of the table.
    fn comes_last(&self, name: &Name) -> bool
        ensures { IsTrue result ↔ ComesLast self.now name.now.labels }
    {
        let len = self.len();
        len == 0 || self.name_at(len - 1).cmp_name(name).is_lt()
    }

    /// Returns the name with this number.
    fn name_at(&self, index: usize) -> NameRef<'_>
        requires { index < length self.now }
        ensures { slice_get self.now index ≡ Some result }
    {
        laws::reads_back();
        let start = self.starts[index] as usize;
        let mut decoder = BinDecoder::new(&self.octets[start..]);
        NameRef::read(&mut decoder).unwrap()
    }
}
