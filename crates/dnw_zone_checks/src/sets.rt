//! The first records of sets, which are the records of a name that have one type.
ghost use Rattle.std.specs.Prelude.{◌≡◌, ◌<◌, ◌+◌, List, Some, None, length, slice_index_or, IfNone, IfOk, IfSome};
ghost use Rattle.dnw_base.specs.RecordTypes.{type_code};
ghost use Rattle.dnw_name_order.specs.Order.{labels_cmp};
ghost use Rattle.dnw_record.specs.Records.{RecordValue};
ghost use Rattle.dnw_zone_checks.specs.Checks.{OwnersAreInOrder, first_of_set};
ghost use Rattle.dnw_zone_checks.specs.Inside.Seeking.{AreFirsts, IsNew, IsOfMetSet};

use crate::lookup::cmp_owners;
use dnw_record::record_ref::RecordRef;
use std::alloc::{AllocError, Global};
use std::cmp::Ordering;

/// How many types there are.
const TYPES: usize = 65_536;

/// The first records of the sets that were met last, by their types.
#[derive(Drop)]
pub(crate) struct Firsts {
    numbers: Vec<Option<usize>>,
}

impl Firsts {
    /// Begins before the first record.
    pub(crate) fn new(alloc: Global) -> Result<Self, AllocError>
        ensures { IfOk result (λ firsts. (records : List RecordValue) → AreFirsts firsts records 0) }
    {
        let mut numbers = Vec::new(alloc);
        numbers.resize(TYPES, None)?;
        Ok(Firsts { numbers })
    }

    /// Takes the next record, and returns the number of the first one of its set.
    pub(crate) fn take(&mut self, records: &[RecordRef<'_>], number: usize) -> usize
        requires order { OwnersAreInOrder records.now }
        requires within { number < length records.now }
        requires firsts { AreFirsts self.old records.now number }
        ensures first { (d : RecordValue) → first_of_set records.now (slice_index_or records.now number d) ≡ Some result }
        ensures within { result < length records.now }
        ensures firsts { AreFirsts self.new records.now (number + 1) }
    {
        let code = code_of(records, number);
        if let Some(first) = self.met(records, number, code) {
            return first;
        }
        self.numbers[code] = Some(number);
        number
    }

    /// Returns the number of the first record of the set of a record of this type, if that set was met last.
    fn met(&self, records: &[RecordRef<'_>], number: usize, code: usize) -> Option<usize>
        requires order { OwnersAreInOrder records.now }
        requires within { number < length records.now }
        requires firsts { AreFirsts self.now records.now number }
        requires code { code < 65536 }
        ensures none { IfNone result (IsNew records.now number code) }
        ensures some { IfSome result (IsOfMetSet records.now number code) }
        ensures kept { IfSome result (λ first. slice_index_or self.now.numbers.items code None ≡ Some first) }
    {
        let Some(first) = self.numbers[code] else {
            return None;
        };
        if cmp_owners_of(records, first, number).is_eq() {
            Some(first)
        } else {
            None
        }
    }
}

/// Returns the code of the type of a record.
fn code_of(records: &[RecordRef<'_>], number: usize) -> usize
    requires { number < length records.now }
    ensures is { (d : RecordValue) → result ≡ type_code (slice_index_or records.now number d).record_type }
    ensures few { result < 65536 }
{
    let code = u16::from(records[number].record_type());
    usize::from(code)
}

/// Compares the owners of two records.
fn cmp_owners_of(records: &[RecordRef<'_>], number: usize, other: usize) -> Ordering
    requires number { number < length records.now }
    requires other { other < length records.now }
    ensures { (d : RecordValue) → result ≡ labels_cmp (slice_index_or records.now number d).owner (slice_index_or records.now other d).owner }
{
    cmp_owners(&records[number], &records[other])
}
