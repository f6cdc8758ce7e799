//! Records of a response that are sought at a name.
ghost use Rattle.std.specs.Prelude.{◌≡◌, ◌∷◌, ◌&&◌, ◌==◌, true, [], IfSome, MatchOption};
ghost use Rattle.std.specs.Option.{option_map};
ghost use Rattle.dns_names_wire.specs.Words.{type_code};
ghost use Rattle.ans_response.specs.Counted.{Targets, counted_records, counts, record_seen};
ghost use Rattle.ans_response.specs.Meanings.{first, is_sought_at, asks_for};
ghost use Rattle.ans_response.specs.Seen.{sought_in};

use crate::asked::Asked;
use crate::names::{is_above, is_below, is_same, is_within};
use dns_names_wire::message::Records;
use dns_names_wire::type_codes::{ANY, CNAME, DNAME, NS, SOA};
use dns_names_wire::{Name, NameRef, RecordRef};

/// What is sought at a name.
#[derive(Debug, Clone, Copy, PartialEq, Eq)]
pub enum Sought {
    /// Records of the type that is asked for.
    Data,
    /// Its CNAME record (RFC 1035, section 3.3.1).
    Alias,
    /// The DNAME record of a name above it (RFC 6672, section 2.3).
    AliasAbove,
    /// The SOA record of a zone that it is in (RFC 2308, section 3).
    Start,
    /// The NS records of a delegation that it is at or below (RFC 1034, section 4.2.1).
    Delegation,
}

/// Returns the next of the records that is sought at a name, and passes over those before it. Records that are not in the zone that was
/// asked, or of another class, are never found.
pub fn next_sought<'m>(
    records: &mut Records<'m>,
    asked: &Asked<'_>,
    name: &Name,
    sought: Sought,
) -> Option<RecordRef<'m>>
    ensures { MatchOption result (sought_in asked.now name.now.labels sought records.old ≡ [])
        (λ r. sought_in asked.now name.now.labels sought records.old ≡ r ∷ sought_in asked.now name.now.labels sought records.new) }
{
    'records: loop {
        let record = records.next()?;
        if is_found(&record, asked, name, sought) {
            return Some(record);
        }
    }
}

/// Returns the first of the records that is sought at a name.
pub(crate) fn first_sought<'m>(
    mut records: Records<'m>,
    asked: &Asked<'_>,
    name: &Name,
    sought: Sought,
) -> Option<RecordRef<'m>>
    ensures first { (target : Targets) → option_map (record_seen target) result ≡ first asked.now name.now.labels sought (counted_records target asked.now records.entry) }
    ensures sought { IfSome result (λ r. is_sought_at asked.now name.now.labels sought r.owner (type_code r.record_type) ≡ true) }
{
    next_sought(&mut records, asked, name, sought)
}

/// Returns `true` if a record counts and is sought at a name.
fn is_found(record: &RecordRef<'_>, asked: &Asked<'_>, name: &Name, sought: Sought) -> bool
    ensures { result ≡ (is_sought_at asked.now name.now.labels sought record.now.owner (type_code record.now.record_type) && counts asked.now record.now) }
{
    let code = record.record_type().code();
    is_sought(asked, name, sought, record.owner(), code) && asked.counts(record)
}

/// Returns `true` if a record with this owner and type is sought at a name.
#[tactic(auto, unfolding(crate::specs::Meanings::is_sought_at))]
fn is_sought(asked: &Asked<'_>, name: &Name, sought: Sought, owner: &NameRef<'_>, code: u16) -> bool
    ensures { result ≡ is_sought_at asked.now name.now.labels sought owner.now code }
{
    match sought {
        Sought::Data => is_wanted(asked.code(), code) && is_same(owner, name),
        Sought::Alias => code == CNAME && is_same(owner, name),
        Sought::AliasAbove => code == DNAME && is_above(owner, name),
        Sought::Start => code == SOA && is_within(owner, name),
        Sought::Delegation => {
            code == NS && is_below(asked.zone(), owner) && is_within(owner, name)
        }
    }
}

/// Returns `true` if a type is asked for.
fn is_wanted(asked: u16, code: u16) -> bool
    ensures { result ≡ asks_for asked code }
{
    asked == ANY || code == asked
}
