//! NSEC3 records, and which names they say exist.
ghost use Rattle.std.specs.Prelude.{◌≡◌, ◌+◌, ◌<◌, ◌≤◌, ◌&&◌, ℕ, List, length, map};
ghost use Rattle.std.specs.List.{find};
ghost use Rattle.std.specs.Option.{option_map};
ghost use Rattle.dns_names_wire.specs.Words.{is_in};
ghost use Rattle.ans_denial.specs.Hashes.{climb, covering_record, covers_hash, covers_whole, expands, expands_by_hashes, has_hash, hash_count, hashed_existence, said_below, said_next};
ghost use Rattle.ans_denial.specs.HashesSeen.{hash_by, hashing_seen, nsec3_seen};
ghost use Rattle.ans_denial.specs.Seen.{IsNextCloser, existence_seen, labels_above, last_labels};

use crate::denial::Reason;
use crate::nsec::{Existence, count_of, is_in, last_labels};
use crate::types::sends_below;
use dns_names_wire::dnssec::{NSEC3_HASH_LENGTH, nsec3_covers, nsec3_hash};
use dns_names_wire::{Name, RecordTypeSet};

/// The hash algorithm SHA-1, the only one that NSEC3 has (RFC 5155, section 11).
const SHA1: u8 = 1;

/// An NSEC3 record (RFC 5155, section 3), whose signature the caller has checked.
#[derive(Clone, Copy)]
pub struct Nsec3<'a> {
    /// The hash of the name that owns the record: the first label of the owner, in octets.
    pub own: &'a [u8],
    /// The next hash.
    pub next: &'a [u8],
    /// Whether delegations without DS records may be left out between the two (RFC 5155, section 6).
    pub opt_out: bool,
    /// The types of the records that the name has.
    pub types: &'a RecordTypeSet,
}

/// How names are hashed (RFC 5155, section 3.1), and how much of it the caller allows (RFC 9276, section 3.2).
#[derive(Clone, Copy)]
pub struct Hashing<'a> {
    /// The salt of all records.
    pub salt: &'a [u8],
    /// The iterations of all records.
    pub iterations: u16,
    /// The most iterations that are allowed.
    pub most_iterations: u16,
    /// The most names that may be hashed. [`hash_count`] returns how many it may take.
    pub most_hashes: usize,
}

/// Returns how many names are hashed at most: the name and those above it, and then a wildcard and the name above it.
#[tactic(auto, unfolding(crate::specs::Hashes::hash_count))]
pub fn hash_count(name: &Name, apex: &Name) -> usize
    ensures { result ≡ hash_count name.now.labels apex.now.labels }
{
    let (all, above) = (
        name.as_name_ref().num_labels(),
        apex.as_name_ref().num_labels(),
    );
    usize::from(all.saturating_sub(above)) + 3
}

/// Returns `true` if NSEC3 records prove that the answer of a wildcard is the one for a name: no name nearer to it exists.
///
/// `labels` is what the RRSIG of the answer counts, so the wildcard is `*` and that many last labels of the name (RFC 5155, section 8.8).
/// One name is hashed, or none if the records have more iterations than are allowed. The records are as for
/// [`denial_by_hashes`](crate::denial::denial_by_hashes).
#[tactic(auto, unfolding(crate::specs::Hashes::expands_by_hashes, crate::specs::HashesSeen::hash_by))]
pub fn is_expansion(
    nsecs: &[Nsec3<'_>],
    hashing: &Hashing<'_>,
    name: &Name,
    labels: u8,
    apex: &Name,
) -> bool
    ensures { result ≡ expands_by_hashes (map nsec3_seen nsecs.now) (hashing_seen hashing.now) name.now.labels labels apex.now.labels }
{
    if hashing.most_iterations < hashing.iterations {
        return false;
    }
    expands(nsecs, hashing, name, usize::from(labels), apex)
}

/// Returns `true` if no name nearer to this one exists than the one that has so many of its last labels.
#[tactic(auto, unfolding(crate::specs::Hashes::expands))]
fn expands(
    nsecs: &[Nsec3<'_>],
    hashing: &Hashing<'_>,
    name: &Name,
    labels: usize,
    apex: &Name,
) -> bool
    requires { labels < 256 }
    ensures { result ≡ expands (hash_by hashing.now) (map nsec3_seen nsecs.now) apex.now.labels name.now.labels labels }
{
    labels < count_of(name) && is_next_missing(nsecs, hashing, name, labels, apex)
}

/// Returns `true` if the name that is one label longer than the one with so many last labels does not exist.
fn is_next_missing(
    nsecs: &[Nsec3<'_>],
    hashing: &Hashing<'_>,
    name: &Name,
    labels: usize,
    apex: &Name,
) -> bool
    requires few { labels < 256 }
    requires within { labels < length name.now.labels }
    ensures { result ≡ (is_in apex.now.labels (last_labels name.now.labels labels)
        && covers_whole (covering_record (hash_by hashing.now) (map nsec3_seen nsecs.now) (last_labels name.now.labels (labels + 1)))) }
{
    let closest = last_labels(name, labels);
    if !is_in(apex, &closest) {
        return false;
    }
    let next = last_labels(name, labels + 1);
    is_covered(nsecs, hashing, &next)
}

/// Returns `true` if a record covers a name, and says that none is left out.
fn is_covered(nsecs: &[Nsec3<'_>], hashing: &Hashing<'_>, name: &Name) -> bool
    ensures { result ≡ covers_whole (covering_record (hash_by hashing.now) (map nsec3_seen nsecs.now) name.now.labels) }
{
    let hash = hash_of(hashing, name);
    covers_whole(covering_record(nsecs, &hash))
}

/// Returns `true` if there is a record, and it says that no delegation is left out.
#[tactic(auto, unfolding(crate::specs::Hashes::covers_whole))]
fn covers_whole(nsec: Option<&Nsec3<'_>>) -> bool
    ensures { result ≡ covers_whole (option_map (λ n. nsec3_seen n.now) nsec.entry) }
{
    match nsec {
        Some(nsec) => !nsec.opt_out,
        None => false,
    }
}

/// Returns what NSEC3 records say of a name of the zone with this apex.
pub(crate) fn hashed_existence<'a>(
    nsecs: &[Nsec3<'a>],
    hashing: &Hashing<'_>,
    name: &Name,
    apex: &Name,
) -> Existence<'a>
    ensures said { existence_seen name.now.labels result ≡ hashed_existence (hash_by hashing.now) (map nsec3_seen nsecs.now) apex.now.labels name.now.labels }
    ensures next { IsNextCloser name.now.labels result }
{
    let hash = hash_of(hashing, name);
    if let Some(nsec) = own_record(nsecs, &hash) {
        return Existence::Owns(nsec.types);
    }
    climb(nsecs, hashing, name, apex, hash)
}

/// Returns what NSEC3 records say of a name that has none, by those of the names above it.
fn climb<'a>(
    nsecs: &[Nsec3<'a>],
    hashing: &Hashing<'_>,
    name: &Name,
    apex: &Name,
    hash: [u8; NSEC3_HASH_LENGTH],
) -> Existence<'a>
    requires { hash ≡ hash_by hashing.now name.now.labels }
    ensures said { existence_seen name.now.labels result ≡ climb (hash_by hashing.now) (map nsec3_seen nsecs.now) apex.now.labels name.now.labels }
    ensures next { IsNextCloser name.now.labels result }
{
    let mut count = count_of(name);
    let mut next = hash;
    'up: while count > 0 {
        let above = last_labels(name, count - 1);
        if !is_in(apex, &above) {
            return Existence::Unknown(Reason::NoRecord);
        }
        let hash = hash_of(hashing, &above);
        if let Some(nsec) = own_record(nsecs, &hash) {
            return said_below(count, nsec, covering_record(nsecs, &next));
        }
        next = hash;
        count -= 1;
    }
    Existence::Unknown(Reason::NoRecord)
}

/// Returns what is said of a name by the record of its closest encloser and that which covers the next closer name, which has so many
/// labels.
#[tactic(auto, unfolding(crate::specs::Hashes::said_below, crate::specs::Hashes::said_next))]
fn said_below<'a>(count: usize, nsec: &Nsec3<'a>, next: Option<&Nsec3<'a>>) -> Existence<'a>
    ensures said { (name : List (List ℕ)) → existence_seen name result
        ≡ said_below (labels_above name count) (nsec3_seen nsec.now) (option_map (λ n. nsec3_seen n.now) next.entry) }
    ensures next { (name : List (List ℕ)) → 0 < count → count ≤ length name → IsNextCloser name result }
{
    if sends_below(nsec.types) {
        return Existence::Unknown(Reason::BelowDelegation);
    }
    match next {
        Some(next) if next.opt_out => Existence::Unknown(Reason::OptOut),
        Some(_) => Existence::Missing(count),
        None => Existence::Unknown(Reason::NoRecord),
    }
}

/// Returns the hash of a name.
#[tactic(auto, unfolding(crate::specs::HashesSeen::hash_by))]
fn hash_of(hashing: &Hashing<'_>, name: &Name) -> [u8; NSEC3_HASH_LENGTH]
    ensures { result ≡ hash_by hashing.now name.now.labels }
{
    nsec3_hash(
        name,
        SHA1,
        hashing.iterations,
        hashing.salt,
        hashing.iterations,
    )
    .unwrap()
}

/// Returns the record that has this hash.
fn own_record<'r, 'a>(nsecs: &'r [Nsec3<'a>], hash: &[u8]) -> Option<&'r Nsec3<'a>>
    ensures { option_map (λ n. nsec3_seen n.now) result ≡ find (has_hash hash.now) (map nsec3_seen nsecs.now) }
{
    'records: for nsec in nsecs {
        if has_hash(hash, nsec) {
            return Some(nsec);
        }
    }
    None
}

/// Returns the record that covers this hash.
fn covering_record<'r, 'a>(nsecs: &'r [Nsec3<'a>], hash: &[u8]) -> Option<&'r Nsec3<'a>>
    ensures { option_map (λ n. nsec3_seen n.now) result ≡ find (covers_hash hash.now) (map nsec3_seen nsecs.now) }
{
    'records: for nsec in nsecs {
        if covers_hash(hash, nsec) {
            return Some(nsec);
        }
    }
    None
}

/// Returns `true` if the hash is the record's own.
#[tactic(auto, unfolding(crate::specs::Hashes::has_hash))]
fn has_hash(hash: &[u8], nsec: &Nsec3<'_>) -> bool
    ensures { result ≡ has_hash hash.now (nsec3_seen nsec.now) }
{
    nsec.own == hash
}

/// Returns `true` if the record covers the hash.
fn covers_hash(hash: &[u8], nsec: &Nsec3<'_>) -> bool
    ensures { result ≡ covers_hash hash.now (nsec3_seen nsec.now) }
{
    nsec3_covers(nsec.own, nsec.next, hash)
}
