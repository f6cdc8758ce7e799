//! Records in canonical order of their owners, found by them.
ghost use Rattle.std.specs.Prelude.{◌≡◌, ◌==◌, ◌≤◌, true, length, IfSome, IfNone, slice_range};
ghost use Rattle.std.specs.List.{AllByRecursion};
ghost use Rattle.std.specs.Ordering.{is_lt};
ghost use Rattle.dns_names_wire.specs.Words.{IsOutOfOrder, OwnersAreInOrder, is_in, is_same, labels_cmp, type_code};
ghost use Rattle.ans_store.specs.Zones.{IsFirstFrom, IsFirstOutside, IsNode, name_exists, have_type, owned_by};

use crate::records::Records;
use dns_names_wire::sort_key::laws;
use dns_names_wire::{Name, RecordRef};
use std::alloc::Global;

/// The records that a name owns, which are next to one another.
#[derive(Debug, Clone, Copy, PartialEq, Eq)]
pub struct Node {
    /// The number of the first of them, or of the first record after the name if it owns none.
    pub start: usize,
    /// The number after that of the last of them.
    pub end: usize,
    /// Whether the name exists: it or a name below it owns a record (RFC 4592, section 2.2.2).
    pub exists: bool,
}

/// Returns what a name owns of records that are in canonical order of their owners.
pub(crate) fn node_of(records: &Records<'_>, name: &Name) -> Node
    requires { OwnersAreInOrder records.now }
    ensures { IsNode records.now name.now.labels result }
{
    let start = first_from(records, name);
    Node {
        start,
        end: end_of(records, name, start),
        exists: exists_from(records, name, start),
    }
}

/// Returns the number of the first record whose owner is a name or after it, or the number of all records.
pub(crate) fn first_from(records: &Records<'_>, name: &Name) -> usize
    requires { OwnersAreInOrder records.now }
    ensures { IsFirstFrom records.now name.now.labels result }
{
    let mut low = 0;
    let mut high = records.len();
    'halves: while low < high {
        let middle = low + (high - low) / 2;
        if is_before(&records.get(middle), name) {
            low = middle + 1;
        } else {
            high = middle;
        }
    }
    low
}

/// Returns the number after that of the last record that a name owns.
fn end_of(records: &Records<'_>, name: &Name, start: usize) -> usize
    requires order { OwnersAreInOrder records.now }
    requires first { IsFirstFrom records.now name.now.labels start }
    ensures within { result ≤ length records.now }
    ensures ordered { start ≤ result }
    ensures owned { slice_range records.now start result ≡ owned_by name.now.labels records.now }
{
    let mut end = start;
    'owned: while end < records.len() {
        if !is_owner(&records.get(end), name) {
            return end;
        }
        end += 1;
    }
    end
}

/// Returns `true` if a name owns a record.
#[tactic(auto, unfolding(dns_names_wire::specs::Words::is_same))]
fn is_owner(record: &RecordRef<'_>, name: &Name) -> bool
    ensures { result ≡ is_same record.now.owner name.now.labels }
{
    record.owner().cmp_name(name).is_eq()
}

/// Returns `true` if a name exists, by the number of the first record that is it or after it.
fn exists_from(records: &Records<'_>, name: &Name, start: usize) -> bool
    requires order { OwnersAreInOrder records.now }
    requires first { IsFirstFrom records.now name.now.labels start }
    ensures { result ≡ name_exists name.now.labels records.now }
{
    laws::keys_compare();
    laws::zones_begin();
    if start == records.len() {
        return false;
    }
    is_within(&records.get(start), name)
}

/// Returns `true` if the owner of a record is in a zone.
fn is_within(record: &RecordRef<'_>, zone: &Name) -> bool
    ensures { result ≡ is_in zone.now.labels record.now.owner }
{
    record.owner().zone_of(zone)
}

/// Returns `true` if one of the records from one number up to another has a type.
pub(crate) fn have_type(records: &Records<'_>, start: usize, end: usize, code: u16) -> bool
    requires ordered { start ≤ end }
    requires within { end ≤ length records.now }
    ensures { result ≡ have_type code (slice_range records.now start end) }
{
    'records: for number in start..end {
        if has_type(&records.get(number), code) {
            return true;
        }
    }
    false
}

/// Returns `true` if a record has a type.
fn has_type(record: &RecordRef<'_>, code: u16) -> bool
    ensures { result ≡ (type_code record.now.record_type == code) }
{
    record.record_type().code() == code
}

/// Returns the number of the first record whose owner is before that of the record before it.
#[tactic(auto, unfolding(dns_names_wire::specs::Words::OwnersAreInOrder))]
pub(crate) fn out_of_order(alloc: Global, records: &Records<'_>) -> Option<usize>
    ensures none { IfNone result (OwnersAreInOrder records.now) }
    ensures some { IfSome result (IsOutOfOrder records.now) }
{
    'records: for number in 1..records.len() {
        let former = records.get(number - 1).owner().to_name(alloc).unwrap();
        if is_before(&records.get(number), &former) {
            return Some(number);
        }
    }
    None
}

/// Returns `true` if the owner of a record is before a name.
fn is_before(record: &RecordRef<'_>, name: &Name) -> bool
    ensures { result ≡ is_lt (labels_cmp record.now.owner name.now.labels) }
{
    record.owner().cmp_name(name).is_lt()
}

/// Returns the number of the first record whose owner is not in a zone.
pub(crate) fn first_outside(records: &Records<'_>, apex: &Name) -> Option<usize>
    ensures none { IfNone result (AllByRecursion (λ r. is_in apex.now.labels r.owner ≡ true) records.now) }
    ensures some { IfSome result (IsFirstOutside apex.now.labels records.now) }
{
    'records: for number in 0..records.len() {
        if !is_within(&records.get(number), apex) {
            return Some(number);
        }
    }
    None
}
