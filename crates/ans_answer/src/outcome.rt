//! What a zone says of a name.
ghost use Rattle.std.specs.Prelude.{◌≡◌, ◌<◌, ◌≤◌, ◌-◌, ◌+◌, ◌∷◌, true, length, drop, IfSome};
ghost use Rattle.std.specs.Option.{option_map};
ghost use Rattle.dns_names_wire.specs.Words.{is_in, is_same, wildcard};
ghost use Rattle.ans_store.specs.Zones.{IsNode};
ghost use Rattle.ans_answer.specs.Outcomes.{by_wildcard, is_delegation, is_sent, itself, outcome, sent_at};
ghost use Rattle.ans_answer.specs.Seen.{HasRecords, outcome_seen};
ghost use Rattle.ans_answer.specs.Inside.Ways.{EndsDown, IsWay};

use ans_store::lookup::Node;
use ans_store::store::ZoneStore;
use dns_names_wire::Name;
use dns_names_wire::type_codes::{DNAME, DS, NS};

/// What a zone says of a name: where the name leads to, and which records are owned there.
#[derive(Debug, Clone, Copy, PartialEq, Eq)]
pub enum Outcome {
    /// The name is not in the zone.
    Outside,
    /// It is that of a delegation, or below it (RFC 1034, section 4.2.1): what the delegation's name owns.
    Referral(Node),
    /// A name above it has a DNAME record (RFC 6672, section 2.3): what that name owns.
    Redirect(Node),
    /// It exists: what it owns, which may be nothing (RFC 4592, section 2.2.2).
    Exact(Node),
    /// It does not exist, and a wildcard stands for it (RFC 4592, section 3.3.1): what the wildcard owns.
    Synthesised(Node),
    /// It does not exist.
    NoName,
}

/// Where the way down from the apex to a name leads.
#[derive(Clone, Copy)]
pub(crate) enum Way {
    /// A name above it sends it away.
    Sent(Outcome),
    /// None does. Of the name's last labels so many are a name that does not exist, or the name itself.
    Ends(usize),
}

/// Returns what a zone says of a name and a type.
#[tactic(auto, unfolding(crate::specs::Outcomes::outcome))]
pub fn outcome_of(zone: &ZoneStore<'_>, name: &Name, code: u16) -> Outcome
    ensures outcome { outcome_seen zone.now.records result ≡ outcome zone.now name.now.labels code }
    ensures records { HasRecords zone.now.records result }
{
    if !is_in(zone.apex(), name) {
        return Outcome::Outside;
    }
    match way_down(zone, name) {
        Way::Sent(outcome) => outcome,
        Way::Ends(count) => itself(zone, name, code, count),
    }
}

/// Returns `true` if a name is in a zone.
pub(crate) fn is_in(zone: &Name, name: &Name) -> bool
    ensures { result ≡ is_in zone.now.labels name.now.labels }
{
    zone.zone_of(name)
}

/// Goes down from the apex to a name.
fn way_down(zone: &ZoneStore<'_>, name: &Name) -> Way
    requires { is_in zone.now.apex name.now.labels ≡ true }
    ensures { IsWay zone.now name.now.labels result }
{
    let last = count_of(name);
    let mut count = count_of(zone.apex());
    'down: while count < last {
        let above = last_labels(name, count);
        let node = zone.node(&above);
        if !node.exists {
            return Way::Ends(count);
        }
        if let Some(outcome) = sent_at(zone, &above, node) {
            return Way::Sent(outcome);
        }
        count += 1;
    }
    Way::Ends(count)
}

/// Returns the number of labels of a name.
pub(crate) fn count_of(name: &Name) -> usize
    ensures { result ≡ length name.now.labels }
{
    usize::from(name.as_name_ref().num_labels())
}

/// Returns the last labels of a name.
pub(crate) fn last_labels(name: &Name, count: usize) -> Name
    requires { count ≤ length name.now.labels }
    ensures { result.labels ≡ drop (length name.now.labels - count) name.now.labels }
{
    name.trim_to(count).unwrap()
}

/// Returns what the names below one are sent to.
#[tactic(auto, unfolding(crate::specs::Outcomes::sent_at))]
fn sent_at(zone: &ZoneStore<'_>, name: &Name, node: Node) -> Option<Outcome>
    requires { IsNode zone.now.records name.now.labels node }
    ensures sent { option_map (outcome_seen zone.now.records) result ≡ sent_at zone.now name.now.labels }
    ensures records { IfSome result (HasRecords zone.now.records) }
{
    if is_delegation(zone, name, node) {
        Some(Outcome::Referral(node))
    } else if zone.have_type(node, DNAME) {
        Some(Outcome::Redirect(node))
    } else {
        None
    }
}

/// Returns `true` if a name is that of a delegation.
#[tactic(auto, unfolding(crate::specs::Outcomes::is_delegation))]
fn is_delegation(zone: &ZoneStore<'_>, name: &Name, node: Node) -> bool
    requires { IsNode zone.now.records name.now.labels node }
    ensures { result ≡ is_delegation zone.now name.now.labels }
{
    !is_same(name, zone.apex()) && zone.have_type(node, NS)
}

/// Returns `true` if names are the same, ignoring ASCII case.
#[tactic(auto, unfolding(dns_names_wire::specs::Words::is_same))]
pub(crate) fn is_same(name: &Name, other: &Name) -> bool
    ensures { result ≡ is_same name.now.labels other.now.labels }
{
    name.as_name_ref().cmp_name(other).is_eq()
}

/// Returns what a name itself says, if none above it sends it away, and the way down to it ends after so many labels.
fn itself(zone: &ZoneStore<'_>, name: &Name, code: u16, count: usize) -> Outcome
    requires { EndsDown zone.now name.now.labels count }
    ensures outcome { outcome_seen zone.now.records result ≡ itself zone.now name.now.labels code }
    ensures records { HasRecords zone.now.records result }
{
    let node = zone.node(name);
    if is_sent(zone, name, node, code) {
        return Outcome::Referral(node);
    }
    if node.exists {
        return Outcome::Exact(node);
    }
    let wild = wildcard_beside(name, count);
    by_wildcard(zone, &wild)
}

/// Returns `true` if a delegation sends its own name away.
#[tactic(auto, unfolding(crate::specs::Outcomes::is_sent))]
fn is_sent(zone: &ZoneStore<'_>, name: &Name, node: Node, code: u16) -> bool
    requires { IsNode zone.now.records name.now.labels node }
    ensures { result ≡ is_sent zone.now name.now.labels code }
{
    is_delegation(zone, name, node) && code != DS
}

/// Returns the last labels of a name with `*` in place of the first of them.
fn wildcard_beside(name: &Name, count: usize) -> Name
    requires some { 0 < count }
    requires within { count ≤ length name.now.labels }
    ensures { result.labels ≡ wildcard ∷ drop (length name.now.labels - count + 1) name.now.labels }
{
    last_labels(name, count).into_wildcard().unwrap()
}

/// Returns what a wildcard says that may stand for a name.
#[tactic(auto, unfolding(crate::specs::Outcomes::by_wildcard))]
fn by_wildcard(zone: &ZoneStore<'_>, wild: &Name) -> Outcome
    ensures outcome { outcome_seen zone.now.records result ≡ by_wildcard zone.now wild.now.labels }
    ensures records { HasRecords zone.now.records result }
{
    let node = zone.node(wild);
    if !node.exists {
        return Outcome::NoName;
    }
    Outcome::Synthesised(node)
}
