//! What the NSEC or NSEC3 records of a zone prove of a name and a type.
ghost use Rattle.std.specs.Prelude.{◌≡◌, ◌<◌, List, ℕ, length, map, IfSome};
ghost use Rattle.std.specs.Option.{option_map};
ghost use Rattle.ans_denial.specs.Denials.{denied_by, denied_by_types, denied_by_wildcard, denies, is_present, proved_encloser};
ghost use Rattle.ans_denial.specs.Hashes.{denies_by_hashes, hashed_existence};
ghost use Rattle.ans_denial.specs.HashesSeen.{hash_by, hashing_seen, nsec3_seen};
ghost use Rattle.ans_denial.specs.Nsecs.{Owns};
ghost use Rattle.ans_denial.specs.Seen.{codes, existence_seen, last_labels, nsec_seen};

use crate::nsec::{Existence, Nsec, existence_of, is_in, wildcard_beside};
use crate::nsec3::{Hashing, Nsec3, hash_count, hashed_existence};
use crate::types::{is_of_delegation, lists};
use dns_names_wire::type_codes::{ANY, CNAME, DS, SOA};
use dns_names_wire::{Name, RecordTypeSet};

/// What records prove of a name and a type.
#[derive(Debug, Clone, Copy, PartialEq, Eq)]
pub enum Denial {
    /// There is no such name, and no wildcard stands for it.
    NoName,
    /// The name exists. It has no records of the type, and is no alias.
    NoData,
    /// The name does not exist, and a wildcard stands for it, which has no records of the type and is no alias.
    NoWildcardData,
    /// DS was asked, and the name is a delegation without DS records: what is below it is not signed (RFC 4035, section 5.2).
    Insecure,
    /// Nothing, for a reason.
    Nothing(Reason),
}

/// Why records prove nothing.
#[derive(Debug, Clone, Copy, PartialEq, Eq)]
pub enum Reason {
    /// The name is not in the zone.
    OutOfZone,
    /// No record is the name's or covers it.
    NoRecord,
    /// The name has records of the type, or is an alias.
    Present,
    /// The record is that of a delegation, and the type is not DS: the records of the name are not the zone's (RFC 6840, section 4.1).
    AtDelegation,
    /// The record that covers the name is that of a delegation, or of a name with a DNAME record, and the name is below it (RFC 6840,
    /// section 4.1).
    BelowDelegation,
    /// DS was asked, and the name is the zone's apex: its DS records are the parent's (RFC 4035, section 2.4).
    OfParent,
    /// There is no such name, and nothing is said of the wildcard that would stand for it.
    WildcardUnknown,
    /// The name is not signed, if it exists: it may be a delegation without DS records, which may be left out (RFC 5155, section 6).
    OptOut,
    /// The records have more iterations than are allowed (RFC 9276, section 3.2).
    TooManyIterations,
    /// It may take more hashes than are allowed.
    TooManyHashes,
}

/// Returns what NSEC records prove of a name and a type.
///
/// The records are those of the zone with this apex, and the caller has checked their signatures. Each of them may prove a part, so all
/// that came are given, in any order. Nothing is allocated. Each record is compared with the name and with one wildcard at most.
///
/// [`denials_are_sound`](crate::laws::denials_are_sound) says that the zone is as they prove.
#[tactic(auto, unfolding(crate::specs::Denials::denied_by, crate::specs::Denials::concluded))]
pub fn denial_of(nsecs: &[Nsec<'_>], name: &Name, code: u16, apex: &Name) -> Denial
    ensures { result ≡ denies (map nsec_seen nsecs.now) name.now.labels code apex.now.labels }
{
    if !is_in(apex, name) {
        return Denial::Nothing(Reason::OutOfZone);
    }
    match existence_of(nsecs, name) {
        Existence::Unknown(reason) => Denial::Nothing(reason),
        Existence::Owns(types) => denied_by_types(types, code),
        Existence::Empty => Denial::NoData,
        Existence::Missing(next) => {
            let wild = wildcard_beside(name, next);
            denied_by_wildcard(existence_of(nsecs, &wild), code)
        }
    }
}

/// Returns what NSEC3 records prove of a name and a type.
///
/// The records are those of the zone with this apex that have the salt and the iterations of `hashing`, and the caller has checked their
/// signatures. They are given in any order. Nothing is allocated. At most [`hash_count`](crate::nsec3::hash_count) names are hashed, and
/// each hash is compared with each record. If it may take more than the caller allows, the records prove nothing.
///
/// [`hashed_denials_are_sound`](crate::laws::hashed_denials_are_sound) says that the zone is as they prove.
#[tactic(auto, unfolding(crate::specs::Hashes::denies_by_hashes))]
pub fn denial_by_hashes(
    nsecs: &[Nsec3<'_>],
    hashing: &Hashing<'_>,
    name: &Name,
    code: u16,
    apex: &Name,
) -> Denial
    ensures { result ≡ denies_by_hashes (map nsec3_seen nsecs.now) (hashing_seen hashing.now) name.now.labels code apex.now.labels }
{
    if hashing.most_iterations < hashing.iterations {
        return Denial::Nothing(Reason::TooManyIterations);
    }
    if hashing.most_hashes < hash_count(name, apex) {
        return Denial::Nothing(Reason::TooManyHashes);
    }
    denied_by_hashes(nsecs, hashing, name, code, apex)
}

/// Returns what NSEC3 records prove of a name and a type, whatever it takes.
#[tactic(auto, unfolding(crate::specs::Denials::denied_by, crate::specs::Denials::concluded))]
fn denied_by_hashes(
    nsecs: &[Nsec3<'_>],
    hashing: &Hashing<'_>,
    name: &Name,
    code: u16,
    apex: &Name,
) -> Denial
    ensures { result ≡ denied_by (hashed_existence (hash_by hashing.now) (map nsec3_seen nsecs.now) apex.now.labels) name.now.labels code apex.now.labels }
{
    if !is_in(apex, name) {
        return Denial::Nothing(Reason::OutOfZone);
    }
    match hashed_existence(nsecs, hashing, name, apex) {
        Existence::Unknown(reason) => Denial::Nothing(reason),
        Existence::Owns(types) => denied_by_types(types, code),
        Existence::Empty => Denial::NoData,
        Existence::Missing(next) => {
            let wild = wildcard_beside(name, next);
            denied_by_wildcard(hashed_existence(nsecs, hashing, &wild, apex), code)
        }
    }
}

/// Returns the number of labels of a name's closest encloser, if NSEC records prove that the name does not exist.
///
/// So the answer of a wildcard is the one for the name if the RRSIG counts as many labels (RFC 4035, section 5.3.4). The records are as
/// for [`denial_of`].
#[tactic(auto, unfolding(crate::specs::Denials::encloser_by, crate::specs::Denials::missing_below))]
pub fn closest_encloser(nsecs: &[Nsec<'_>], name: &Name, apex: &Name) -> Option<usize>
    ensures encloser { option_map (last_labels name.now.labels) result ≡ proved_encloser (map nsec_seen nsecs.now) name.now.labels apex.now.labels }
    ensures above { IfSome result (λ count. count < length name.now.labels) }
{
    if !is_in(apex, name) {
        return None;
    }
    match existence_of(nsecs, name) {
        Existence::Missing(next) => Some(next - 1),
        _ => None,
    }
}

/// Returns what the types of a name prove.
#[tactic(auto, unfolding(crate::specs::Denials::denied_by_types))]
fn denied_by_types(types: &RecordTypeSet, code: u16) -> Denial
    ensures { result ≡ denied_by_types (codes types.now.types) code }
{
    let delegation = is_of_delegation(types);
    if delegation && code != DS {
        Denial::Nothing(Reason::AtDelegation)
    } else if lists(types, SOA) && code == DS {
        Denial::Nothing(Reason::OfParent)
    } else if is_present(types, code) {
        Denial::Nothing(Reason::Present)
    } else if delegation {
        Denial::Insecure
    } else {
        Denial::NoData
    }
}

/// Returns what is proved of a name that does not exist, by what is said of the wildcard that would stand for it.
#[tactic(auto, unfolding(crate::specs::Denials::denied_by_wildcard))]
fn denied_by_wildcard(wild: Existence<'_>, code: u16) -> Denial
    ensures { (name : List (List ℕ)) → result ≡ denied_by_wildcard (existence_seen name wild.entry) code }
{
    match wild {
        Existence::Unknown(_) => Denial::Nothing(Reason::WildcardUnknown),
        Existence::Owns(types) => denied_by_wildcard_types(types, code),
        Existence::Empty => Denial::NoWildcardData,
        Existence::Missing(_) => Denial::NoName,
    }
}

/// Returns what the types of a wildcard prove.
#[tactic(auto, unfolding(crate::specs::Denials::denied_by_wildcard))]
fn denied_by_wildcard_types(types: &RecordTypeSet, code: u16) -> Denial
    ensures { result ≡ denied_by_wildcard (Owns (codes types.now.types)) code }
{
    if is_of_delegation(types) {
        Denial::Nothing(Reason::AtDelegation)
    } else if is_present(types, code) {
        Denial::Nothing(Reason::Present)
    } else {
        Denial::NoWildcardData
    }
}

/// Returns `true` if there are records of a type, or the name is an alias.
#[tactic(auto, unfolding(crate::specs::Denials::is_present))]
fn is_present(types: &RecordTypeSet, code: u16) -> bool
    ensures { result ≡ is_present (codes types.now.types) code }
{
    code == ANY || lists(types, code) || lists(types, CNAME)
}
