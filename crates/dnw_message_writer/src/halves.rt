//! Sets of which a part is there, and a part is left out (RFC 2181, section 9).
ghost use Rattle.std.specs.Cmp.Lexicographic.{pointwise};
ghost use Rattle.std.specs.Prelude.{◌≡◌, ◌≤◌, ◌||◌, length, nat_eq, take};
ghost use Rattle.dnw_base.specs.Names.{lower};
ghost use Rattle.dnw_name_order.specs.Order.{labels_eq};
ghost use Rattle.dnw_message_writer.specs.Copying.{lacks_half_of, section_records, sets_of};
ghost use Rattle.dnw_message_writer.specs.Needs.{are_beside, are_the_same, halves, is_half_there, set_type, signs_set};
ghost use Rattle.dnw_message_writer.specs.Sections.{rank};
ghost use Rattle.dnw_message_writer.specs.States.{count_in_header};

use crate::copying::{are_alike, next_of};
use crate::missing::pass;
use crate::reply::field_at;
use crate::section::Section;
use crate::state::count_of;
use dnw_base::record_type::RecordType;
use dnw_message_read::items::Records;
use dnw_message_read::message::MessageRef;
use dnw_name::name_ref::NameRef;
use dnw_record::record_ref::RecordRef;

/// How many pairs of records are compared at most.
pub(crate) const MOST_PAIRS: u16 = 4096;

/// Returns `true` if half of a set of a section may be in a message that is written, and the other half be left out.
pub(crate) fn lacks_half_of(section: Section, source: &MessageRef<'_>, message: &[u8]) -> bool
    requires long { 12 ≤ length message.now }
    requires records { 1 ≤ rank section }
    ensures { result ≡ lacks_half_of section source.now message.now }
{
    let count = count_of(message, section);
    let mut left = section_records(section, source);
    pass(section, &mut left, count);
    let mut pairs = MOST_PAIRS;
    'left: while let Some(record) = next_of(section, &mut left) {
        if pairs < count
            || is_half_there(section, section_records(section, source), count, &record)
        {
            return true;
        }
        pairs -= count;
    }
    false
}

/// Returns the records of a section.
pub(crate) fn section_records<'m>(section: Section, source: &MessageRef<'m>) -> Records<'m>
    requires { 1 ≤ rank section }
    ensures { result ≡ section_records section source.now }
{
    match section {
        Section::Queries => unreachable!(),
        Section::Answers => source.answers(),
        Section::Authorities => source.authorities(),
        Section::Additionals => source.additionals(),
    }
}

/// Returns `true` if one of so many records halves the set of another that is left out, and none of them is the same.
fn is_half_there(section: Section, mut there: Records<'_>, count: u16, left: &RecordRef<'_>) -> bool
    ensures { result ≡ is_half_there (take count (sets_of section there.entry)) left.now }
{
    let mut more = count;
    let mut half = false;
    'there: while more > 0 {
        let Some(record) = next_of(section, &mut there) else {
            return half;
        };
        if are_the_same(&record, left) {
            return false;
        }
        half = or_halves(half, &record, left);
        more -= 1;
    }
    half
}

/// Returns `true` if two records are the same: they have the same owner, ignoring case, type, class and octets of data.
pub fn are_the_same(some: &RecordRef<'_>, other: &RecordRef<'_>) -> bool
    ensures { result ≡ are_the_same some.now other.now }
{
    some.record_type().code() == other.record_type().code()
        && (are_beside(some, other) && are_equal(some.rdata(), other.rdata()))
}

/// Returns `true` if two runs of octets are the same.
fn are_equal(some: &[u8], other: &[u8]) -> bool
    ensures { result ≡ pointwise nat_eq some.now other.now }
{
    some == other
}

/// Returns `true` if half of a set is there already, or is if the first record is there and the other is left out.
pub fn or_halves(half: bool, there: &RecordRef<'_>, left: &RecordRef<'_>) -> bool
    ensures { result ≡ (half || halves there.now left.now) }
{
    half || halves(there, left)
}

/// Returns `true` if half of a set is there, if the first record is and the other is left out.
fn halves(there: &RecordRef<'_>, left: &RecordRef<'_>) -> bool
    ensures { result ≡ halves there.now left.now }
{
    !signs_set(left) && (set_type(there) == set_type(left) && are_beside(there, left))
}

/// Returns `true` for an RRSIG whose data have the type that it covers.
fn signs_set(item: &RecordRef<'_>) -> bool
    ensures { result ≡ signs_set item.now }
{
    item.record_type().code() == RecordType::RRSIG.code() && item.rdata().len() >= 2
}

/// Returns the type of the set of a record: that which it covers, or its own.
fn set_type(item: &RecordRef<'_>) -> u16
    ensures { result ≡ set_type item.now }
{
    if signs_set(item) {
        return field_at(item.rdata(), 0);
    }
    item.record_type().code()
}

/// Returns `true` if two records have the same owner, ignoring case, and the same class.
fn are_beside(some: &RecordRef<'_>, other: &RecordRef<'_>) -> bool
    ensures { result ≡ are_beside some.now other.now }
{
    u16::from(some.class()) == u16::from(other.class()) && are_one_name(some.owner(), other.owner())
}

/// Returns `true` if two names are the same, ignoring case.
fn are_one_name(some: &NameRef<'_>, other: &NameRef<'_>) -> bool
    ensures { result ≡ labels_eq (lower some.now) (lower other.now) }
{
    are_alike(some, other)
}
