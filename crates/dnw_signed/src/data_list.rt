//! The data of records in canonical form, in one buffer.
ghost use Rattle.std.specs.Prelude.{◌≡◌, ◌≤◌, ◌<◌, ◌-◌, ◌↔◌, ℕ, true, Some, List, [], ◌∷◌, ◌++◌, length, IfOk, IfErr, OnOk, IsTrue, MatchBool};
ghost use Rattle.dnw_base.specs.Limits.{max_message};
ghost use Rattle.dnw_signed.specs.CanonicalData.{IsCanonical, IsCanonicalOf};
ghost use Rattle.dnw_record.specs.DataPointers.{TakesDataPointers};
ghost use Rattle.dnw_signed.specs.Inside.Going.{AreShort, all_octets};
ghost use Rattle.dnw_signed.specs.Inside.Listing.{TakesData, HoldsData, data_of};
ghost use Rattle.dnw_signed.specs.Inside.Selecting.{FailsSelected};

use crate::error::CanonicalError;
use crate::fields::{put_data, put_limited};
use dnw_base::limits::MAX_MESSAGE;
use dnw_record::rdata::{RData, RDataError};
use dnw_record::record_ref::RecordRef;
use std::alloc::{AllocError, Global};

/// The data of records, one after another, and how many octets each takes.
#[derive(Drop)]
pub(crate) struct DataList {
    octets: Vec<u8>,
    sizes: Vec<usize>,
}

impl DataList {
    /// Creates a list of no data.
    pub(crate) fn new(alloc: Global) -> Self
        ensures { HoldsData result × (data_of result ≡ []) }
    {
        DataList {
            octets: Vec::new(alloc),
            sizes: Vec::new(alloc),
        }
    }

    /// Returns `true` if there are no data.
    pub(crate) fn is_empty(&self) -> bool
        ensures { IsTrue result ↔ (data_of self.now ≡ []) }
    {
        self.sizes.as_slice().is_empty()
    }

    /// Appends data. Returns `false` if two octets can't say how long they are; then the list is of no use.
    pub(crate) fn push_data(&mut self, data: &RData) -> Result<bool, RDataError>
        requires { HoldsData self.old }
        ensures { IfOk result (λ fits. (more : List ℕ) × IsCanonical «data».now more × (length more ≡ length «data».now.octets)
            × TakesData fits self.old more self.new) }
    {
        let before = self.octets.len();
        put_data(data, &mut self.octets)?;
        let fits = self.end(before)?;
        Ok(fits)
    }

    /// Appends the data of the record of a message with this number, and takes the pointers that its names follow from those that
    /// are `left`. If it fails, the list is of no use.
    pub(crate) fn push_record(
        &mut self,
        item: &RecordRef<'_>,
        record: usize,
        left: &mut usize,
    ) -> Result<(), CanonicalError>
        requires { HoldsData self.old }
        ensures ok { OnOk result ((more : List ℕ) × TakesDataPointers item.now left.old (Some left.new) × IsCanonicalOf item.now more
            × TakesData true self.old more self.new) }
        ensures err { IfErr result (FailsSelected item.now left.old «record») }
    {
        let before = self.octets.len();
        put_limited(item, record, left, &mut self.octets)?;
        if self.end(before)? {
            Ok(())
        } else {
            Err(CanonicalError::DataTooLong { record })
        }
    }

    /// Ends data that begin at an offset of the buffer.
    fn end(&mut self, before: usize) -> Result<bool, AllocError>
        requires { before ≤ length self.old.octets.items }
        ensures octets { self.new.octets ≡ self.old.octets }
        ensures size { let size = length self.old.octets.items - before in
            IfOk result (λ fits. MatchBool fits ((size ≤ max_message) × (self.new.sizes.items ≡ self.old.sizes.items ++ size ∷ [])) (max_message < size)) }
    {
        let size = self.octets.len() - before;
        if size > MAX_MESSAGE as usize {
            return Ok(false);
        }
        if self.sizes.push(size).is_err() {
            return Err(AllocError);
        }
        Ok(true)
    }

    /// Returns the data, each borrowed from the buffer.
    #[tactic(auto, using(crate::proofs::Listing::cut_one))]
    pub(crate) fn slices(&self, alloc: Global) -> Result<Vec<&[u8]>, AllocError>
        requires { HoldsData self.now }
        ensures data { IfOk result (λ all. all_octets all.items ≡ data_of self.now) }
        ensures short { IfOk result (λ all. AreShort all.items) }
    {
        let mut all = Vec::with_capacity(alloc, self.sizes.len())?;
        let mut octets = self.octets.as_slice();
        let mut sizes = self.sizes.as_slice();
        'sizes: while let Some((size, others)) = sizes.split_first() {
            let (own, rest) = octets.split_at(*size);
            if all.push(own).is_err() {
                return Err(AllocError);
            }
            octets = rest;
            sizes = others;
        }
        Ok(all)
    }
}
