//! Which addresses a response has besides.
ghost use Rattle.std.specs.Prelude.{◌≡◌, List, drop, IfSome};
ghost use Rattle.std.specs.Option.{option_map};
ghost use Rattle.dns_names_wire.specs.Words.{NameValue, RecordValue};
ghost use Rattle.ans_answer.specs.Additionals.{addresses, before_server, said_records, server};
ghost use Rattle.ans_answer.specs.Answers.{records_of_type};
ghost use Rattle.ans_answer.specs.Seen.{HasRecords, IsOfRecords, outcome_seen, records_seen};
ghost use Rattle.ans_answer.specs.Targets.{name_in};

use crate::outcome::{Outcome, outcome_of};
use crate::target::name_in;
use ans_store::lookup::Node;
use ans_store::store::ZoneStore;
use dns_names_wire::type_codes::{MX, NS, SRV};
use dns_names_wire::{Name, RecordRef};
use std::alloc::Global;

/// Returns the server that a record names: NS, MX (RFC 1035, sections 3.3.11 and 3.3.9) and SRV (RFC 2782) name one. It allocates nothing.
pub fn server_of(alloc: Global, record: &RecordRef<'_>) -> Option<Name>
    ensures { option_map (λ (name : NameValue). name.labels) result ≡ server record.now }
{
    let Some(count) = before_server(record.record_type().code()) else {
        return None;
    };
    name_after(alloc, record.rdata(), count)
}

/// Returns how many octets of its data are before the server that a record of a type names.
fn before_server(code: u16) -> Option<usize>
    ensures { result ≡ before_server code }
{
    if code == NS {
        return Some(0);
    }
    if code == MX {
        return Some(2);
    }
    if code == SRV {
        return Some(6);
    }
    None
}

/// Returns the name that octets are after so many others.
fn name_after(alloc: Global, octets: &[u8], count: usize) -> Option<Name>
    ensures { option_map (λ (name : NameValue). name.labels) result ≡ name_in (drop count octets.now) }
{
    if octets.len() < count {
        return None;
    }
    name_in(alloc, &octets[count..])
}

/// Returns where the addresses of a server are, by the code of their type: what its name owns, or its wildcard. If a referral names the
/// server, they may be glue.
#[tactic(auto, unfolding(crate::specs::Additionals::addresses))]
pub fn addresses_of(zone: &ZoneStore<'_>, is_referral: bool, name: &Name, code: u16) -> Option<Node>
    ensures addresses { records_of_type code (records_seen zone.now.records result) ≡ addresses zone.now is_referral name.now.labels code }
    ensures records { IfSome result (IsOfRecords zone.now.records) }
{
    if is_referral {
        return Some(zone.node(name));
    }
    said_records(outcome_of(zone, name, code))
}

/// Returns what the name of an outcome owns, or its wildcard.
fn said_records(outcome: Outcome) -> Option<Node>
    ensures said { (records : List RecordValue) → records_seen records result ≡ said_records (outcome_seen records outcome) }
    ensures records { (records : List RecordValue) → HasRecords records outcome → IfSome result (IsOfRecords records) }
{
    match outcome {
        Outcome::Exact(node) => Some(node),
        Outcome::Synthesised(node) => Some(node),
        Outcome::Outside | Outcome::Referral(_) | Outcome::Redirect(_) | Outcome::NoName => None,
    }
}
