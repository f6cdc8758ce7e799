//! Names that are aliases.
ghost use Rattle.std.specs.Prelude.{◌≡◌};
ghost use Rattle.ans_answer.specs.Answers.{lead, lead_by_kind};
ghost use Rattle.ans_answer.specs.Outcomes.{kind};
ghost use Rattle.ans_answer.specs.Seen.{HasRecords, IsOfRecords, LeadHasRecords, lead_seen, node_records, outcome_seen};

use crate::kind::{Kind, kind_of};
use crate::outcome::{Outcome, outcome_of};
use crate::target::{Next, redirected, renamed};
use ans_store::lookup::Node;
use ans_store::store::ZoneStore;
use dns_names_wire::Name;
use dns_names_wire::type_codes::{CNAME, DNAME};
use std::alloc::Global;

/// What a name is.
#[derive(Drop)]
pub enum Lead {
    /// No alias: what the zone says of it.
    Stays(Outcome),
    /// An alias by a CNAME record, and what it leads to: what it owns, or the wildcard that stands for it.
    Cname(Node, Next),
    /// An alias by a DNAME record of a name above it, and what it leads to: what that name owns.
    Dname(Node, Next),
}

/// Returns what a name is, if this type is asked for.
#[tactic(auto, unfolding(crate::specs::Answers::lead))]
pub fn lead_of(alloc: Global, zone: &ZoneStore<'_>, name: &Name, code: u16) -> Lead
    ensures lead { lead_seen zone.now.records result ≡ lead zone.now name.now.labels code }
    ensures records { LeadHasRecords zone.now.records result }
{
    let outcome = outcome_of(zone, name, code);
    match outcome {
        Outcome::Redirect(node) => Lead::Dname(node, redirected(alloc, zone, name, node, DNAME)),
        Outcome::Exact(node) | Outcome::Synthesised(node) => by_kind(
            alloc, zone, outcome, node, code,
        ),
        Outcome::Outside | Outcome::Referral(_) | Outcome::NoName => Lead::Stays(outcome),
    }
}

/// Returns what a name is that owns these records, or whose wildcard does.
fn by_kind(alloc: Global, zone: &ZoneStore<'_>, outcome: Outcome, node: Node, code: u16) -> Lead
    requires node { IsOfRecords zone.now.records node }
    requires outcome { HasRecords zone.now.records outcome }
    ensures records { LeadHasRecords zone.now.records result }
    ensures lead { lead_seen zone.now.records result ≡ lead_by_kind (outcome_seen zone.now.records outcome) (node_records zone.now.records node) (kind (node_records zone.now.records node) code) }
{
    match kind_of(zone, node, code) {
        Kind::Alias => Lead::Cname(node, renamed(alloc, zone, node, CNAME)),
        Kind::Records | Kind::NoData => Lead::Stays(outcome),
    }
}
