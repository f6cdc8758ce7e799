//! NSEC records, and which names they say exist.
ghost use Rattle.std.specs.Prelude.{◌≡◌, ◌<◌, ◌≤◌, ◌-◌, ◌∷◌, true, length, drop, map, IfSome};
ghost use Rattle.std.specs.Option.{option_map};
ghost use Rattle.dns_names_wire.specs.Words.{is_in, is_same, wildcard};
ghost use Rattle.ans_denial.specs.Nsecs.{closest, covered, covers, existence, is_above_ends, said_by};
ghost use Rattle.ans_denial.specs.Seen.{IsNextCloser, existence_seen, labels_above, last_labels, nsec_seen};

use crate::denial::Reason;
use crate::types::sends_below;
use dns_names_wire::dnssec::nsec_covers;
use dns_names_wire::{Name, RecordTypeSet};

/// An NSEC record (RFC 4034, section 4), whose signature the caller has checked.
#[derive(Clone, Copy)]
pub struct Nsec<'a> {
    /// The name that owns the record, as it was signed: if the RRSIG counts fewer labels than the owner has, it is `*` and that many last
    /// labels (RFC 4035, section 5.3.2).
    pub owner: &'a Name,
    /// The next name.
    pub next: &'a Name,
    /// The types of the records that the owner has.
    pub types: &'a RecordTypeSet,
}

/// What NSEC records say of a name.
#[derive(Clone, Copy)]
pub(crate) enum Existence<'a> {
    /// Nothing, for a reason.
    Unknown(Reason),
    /// It owns records, of these types.
    Owns(&'a RecordTypeSet),
    /// It owns none, and a name below it does (RFC 4592, section 2.2.2).
    Empty,
    /// It does not exist. The next closer name has so many labels: one more than the closest encloser (RFC 5155, section 1.3).
    Missing(usize),
}

/// Returns what NSEC records say of a name.
pub(crate) fn existence_of<'a>(nsecs: &[Nsec<'a>], name: &Name) -> Existence<'a>
    ensures said { existence_seen name.now.labels result ≡ existence (map nsec_seen nsecs.now) name.now.labels }
    ensures next { IsNextCloser name.now.labels result }
{
    'records: for nsec in nsecs {
        if let Some(existence) = said_by(nsec, name) {
            return existence;
        }
    }
    Existence::Unknown(Reason::NoRecord)
}

/// Returns what a record says of a name, if it is the name's or covers it.
#[tactic(auto, unfolding(crate::specs::Nsecs::said_by))]
fn said_by<'a>(nsec: &Nsec<'a>, name: &Name) -> Option<Existence<'a>>
    ensures said { option_map (existence_seen name.now.labels) result ≡ said_by (nsec_seen nsec.now) name.now.labels }
    ensures next { IfSome result (IsNextCloser name.now.labels) }
{
    if is_same(nsec.owner, name) {
        return Some(Existence::Owns(nsec.types));
    }
    if !covers(nsec, name) {
        return None;
    }
    Some(covered(nsec, name))
}

/// Returns `true` if a record covers a name.
fn covers(nsec: &Nsec<'_>, name: &Name) -> bool
    ensures { result ≡ covers (nsec_seen nsec.now) name.now.labels }
{
    nsec_covers(nsec.owner, nsec.next, name)
}

/// Returns what a record says of a name that it covers.
#[tactic(auto, unfolding(crate::specs::Nsecs::covered))]
fn covered<'a>(nsec: &Nsec<'a>, name: &Name) -> Existence<'a>
    requires { covers (nsec_seen nsec.now) name.now.labels ≡ true }
    ensures said { existence_seen name.now.labels result ≡ covered (nsec_seen nsec.now) name.now.labels }
    ensures next { IsNextCloser name.now.labels result }
{
    if is_in(nsec.owner, name) && sends_below(nsec.types) {
        return Existence::Unknown(Reason::BelowDelegation);
    }
    if is_in(name, nsec.next) {
        return Existence::Empty;
    }
    Existence::Missing(next_closer_of(nsec, name))
}

/// Returns the number of labels of the next closer name of a name that a record covers.
fn next_closer_of(nsec: &Nsec<'_>, name: &Name) -> usize
    requires { covers (nsec_seen nsec.now) name.now.labels ≡ true }
    ensures closest { labels_above name.now.labels result ≡ closest (nsec_seen nsec.now) name.now.labels }
    ensures some { 0 < result }
    ensures within { result ≤ length name.now.labels }
{
    let mut count = count_of(name);
    'up: while count > 1 {
        if is_above_ends(nsec, &last_labels(name, count - 1)) {
            return count;
        }
        count -= 1;
    }
    count
}

/// Returns the number of labels of a name.
pub(crate) fn count_of(name: &Name) -> usize
    ensures { result ≡ length name.now.labels }
{
    usize::from(name.as_name_ref().num_labels())
}

/// Returns `true` if the owner or the next name of a record is this name or below it.
#[tactic(auto, unfolding(crate::specs::Nsecs::is_above_ends))]
fn is_above_ends(nsec: &Nsec<'_>, name: &Name) -> bool
    ensures { result ≡ is_above_ends (nsec_seen nsec.now) name.now.labels }
{
    is_in(name, nsec.owner) || is_in(name, nsec.next)
}

/// Returns the last labels of a name.
pub(crate) fn last_labels(name: &Name, count: usize) -> Name
    requires { count ≤ length name.now.labels }
    ensures { result.labels ≡ last_labels name.now.labels count }
{
    name.trim_to(count).unwrap()
}

/// Returns the last labels of a name with `*` in place of the first of them (RFC 4592, section 2.1.1).
pub(crate) fn wildcard_beside(name: &Name, count: usize) -> Name
    requires some { 0 < count }
    requires within { count ≤ length name.now.labels }
    ensures { result.labels ≡ wildcard ∷ labels_above name.now.labels count }
{
    last_labels(name, count).into_wildcard().unwrap()
}

/// Returns `true` if a name is in a zone.
pub(crate) fn is_in(zone: &Name, name: &Name) -> bool
    ensures { result ≡ is_in zone.now.labels name.now.labels }
{
    zone.zone_of(name)
}

/// Returns `true` if names are the same, ignoring ASCII case.
#[tactic(auto, unfolding(dns_names_wire::specs::Words::is_same))]
fn is_same(name: &Name, other: &Name) -> bool
    ensures { result ≡ is_same name.now.labels other.now.labels }
{
    name.as_name_ref().cmp_name(other).is_eq()
}
