//! The names that aliases lead to.
ghost use Rattle.std.specs.Prelude.{◌≡◌, ◌≤◌, ◌+◌, ◌-◌, ◌++◌, ℕ, List, length, slice_get, slice_range, take};
ghost use Rattle.std.specs.Option.{option_map};
ghost use Rattle.dns_names_wire.specs.Words.{AreLabels, NameValue, max_name, wire};
ghost use Rattle.ans_store.specs.Stored.{leading_labels};
ghost use Rattle.ans_answer.specs.Answers.{records_of_type};
ghost use Rattle.ans_answer.specs.Outcomes.{is_wanted};
ghost use Rattle.ans_answer.specs.Seen.{next_seen};
ghost use Rattle.ans_answer.specs.Targets.{if_short, name_in, redirected, renamed};

use crate::outcome::{count_of, last_labels};
use ans_store::lookup::Node;
use ans_store::store::ZoneStore;
use dns_names_wire::limits::MAX_NAME;
use dns_names_wire::message_writer::whole_name;
use dns_names_wire::name::laws;
use dns_names_wire::type_codes::ANY;
use dns_names_wire::{BinDecoder, Name, RecordRef};
use std::alloc::Global;

/// What a name leads to.
#[derive(Drop)]
pub enum Next {
    /// Another name.
    To(Name),
    /// No name: the data of its record are none.
    Nowhere,
    /// A name past 255 octets, which there is not (RFC 6672, section 2.2).
    TooLong,
}

/// Returns what the CNAME records of a name lead to.
#[tactic(auto, unfolding(crate::specs::Targets::renamed))]
pub(crate) fn renamed(alloc: Global, zone: &ZoneStore<'_>, node: Node, code: u16) -> Next
    requires ordered { node.start ≤ node.end }
    requires within { node.end ≤ length zone.now.records }
    ensures { next_seen result ≡ renamed (records_of_type code (slice_range zone.now.records node.start node.end)) }
{
    let Some(record) = first_of(zone, node, code) else {
        return Next::Nowhere;
    };
    match name_in(alloc, record.rdata()) {
        Some(target) => Next::To(target),
        None => Next::Nowhere,
    }
}

/// Returns what a name leads to by the DNAME records of a name above it.
#[tactic(auto, unfolding(crate::specs::Targets::redirected))]
pub(crate) fn redirected(
    alloc: Global,
    zone: &ZoneStore<'_>,
    name: &Name,
    node: Node,
    code: u16,
) -> Next
    requires ordered { node.start ≤ node.end }
    requires within { node.end ≤ length zone.now.records }
    ensures { next_seen result ≡ redirected name.now.labels (records_of_type code (slice_range zone.now.records node.start node.end)) }
{
    let Some(record) = first_of(zone, node, code) else {
        return Next::Nowhere;
    };
    let count = usize::from(record.owner().num_labels());
    match name_in(alloc, record.rdata()) {
        Some(target) => replaced(alloc, name, count, &target),
        None => Next::Nowhere,
    }
}

/// Returns the first record of a type among those of a name.
pub(crate) fn first_of<'z>(zone: &ZoneStore<'z>, node: Node, code: u16) -> Option<RecordRef<'z>>
    requires ordered { node.start ≤ node.end }
    requires within { node.end ≤ length zone.now.records }
    ensures { result ≡ slice_get (records_of_type code (slice_range zone.now.records node.start node.end)) 0 }
{
    'records: for number in node.start..node.end {
        let record = zone.get(number);
        if is_wanted(&record, code) {
            return Some(record);
        }
    }
    None
}

/// Returns `true` if a record is asked for.
fn is_wanted(record: &RecordRef<'_>, code: u16) -> bool
    ensures { result ≡ is_wanted code record.now }
{
    code == ANY || record.record_type().code() == code
}

/// Returns a name with its last labels, so many, replaced by those of another.
#[tactic(auto, unfolding(crate::specs::Targets::if_short))]
fn replaced(alloc: Global, name: &Name, count: usize, target: &Name) -> Next
    ensures { next_seen result ≡ if_short (take (length name.now.labels - count) name.now.labels ++ target.now.labels) }
{
    let all = count_of(name);
    let last = last_labels(name, count.min(all));
    let kept = name.encoded_len() - last.encoded_len();
    let end = kept + target.encoded_len();
    if end > MAX_NAME {
        return Next::TooLong;
    }
    let mut room = [0; MAX_NAME];
    put_at(&mut room, 0, &name.as_wire()[..kept]);
    put_at(&mut room, kept, target.as_wire());
    Next::To(name_of(alloc, &room[..end]))
}

/// Puts octets at an offset of a room.
fn put_at(room: &mut [u8; MAX_NAME], start: usize, octets: &[u8])
    requires { start + length octets.now ≤ max_name }
    ensures front { take (start + length octets.now) room.new ≡ take start room.old ++ octets.now }
    ensures size { length room.new ≡ max_name }
{
    room[start..start + octets.len()].copy_from_slice(octets);
}

/// Returns the name whose wire form octets are, if they are one.
pub(crate) fn name_in(alloc: Global, octets: &[u8]) -> Option<Name>
    ensures { option_map (λ (name : NameValue). name.labels) result ≡ name_in octets.now }
{
    let Some(labels) = whole_name(octets) else {
        return None;
    };
    if labels.as_wire().len() != octets.len() {
        return None;
    }
    Some(name_of(alloc, octets))
}

/// Returns the name whose wire form octets are.
fn name_of(alloc: Global, octets: &[u8]) -> Name
    requires { (labels : List (List ℕ)) × AreLabels labels × (octets.now ≡ wire labels) }
    ensures { result.labels ≡ leading_labels max_name octets.now }
{
    laws::reads_back();
    let mut reader = BinDecoder::new(octets);
    Name::read(alloc, &mut reader).unwrap()
}
