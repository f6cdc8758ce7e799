//! What a server says to a name and a type by its zone alone, without DNSSEC.
ghost use Rattle.std.specs.Prelude.{◌≡◌, ℕ, List, ◌∷◌, ◌++◌, [], false, true, None, IfNone, IfOk, IfSome, OnOk};
ghost use Rattle.ans_answer.specs.Answers.{answer, by_kind, denied, of_outcome, follow, is_met, max_aliases};
ghost use Rattle.ans_answer.specs.Inside.Steps.{EndsAs, EndsTurn, LeadsOn, IsSaid, IsUpTo, TurnsTo, link_parts};
ghost use Rattle.ans_answer.specs.Targets.{To};
ghost use Rattle.ans_answer.specs.Outcomes.{kind};
ghost use Rattle.ans_answer.specs.Seen.{HasRecords, IsOfRecords, LeadHasRecords, all_labels, answer_seen, numbered_name, lead_seen, names_of, next_seen, node_records, outcome_seen};
ghost use Rattle.ans_answer.specs.declared.answer.Rcode.TheVariants.{Refused};

use crate::kind::{Kind, kind_of};
use crate::lead::{Lead, lead_of};
use crate::outcome::{Outcome, is_in, is_same};
use crate::target::Next;
use ans_store::lookup::Node;
use ans_store::store::ZoneStore;
use dns_names_wire::Name;
use dns_names_wire::type_codes::{CNAME, DNAME, NS};
use std::alloc::{AllocError, Global};

/// The most aliases that are followed. No RFC has a number: knotd 3.2 follows 5, named 9.18 follows 12, and nsd 4.6 each.
pub const MAX_ALIASES: usize = 16;

/// The response codes that a zone has (RFC 1035, section 4.1.1; RFC 6672, section 2.2).
#[derive(Debug, Clone, Copy, PartialEq, Eq)]
pub enum Rcode {
    /// No error.
    NoError,
    /// The name does not exist.
    NXDomain,
    /// The name is not in the zone.
    Refused,
    /// A DNAME record leads to a name that is too long.
    YXDomain,
}

/// Records that a section of a response has, by what the zone's name owns and their type.
#[derive(Debug, Clone, Copy, PartialEq, Eq)]
pub enum Part {
    /// Records of the zone.
    Kept(Node, u16),
    /// Records of the zone with the name of this number as owner: they are its own, or those of a wildcard.
    Named(usize, Node, u16),
    /// A CNAME record that is made of the DNAME record there, whose TTL it has. Its owner is the name of this number, and its target the
    /// next one (RFC 6672, section 3.1).
    Made(usize, Node),
    /// The SOA record there, for as long as it denies: its TTL or its minimum, whichever is less (RFC 2308, sections 3 and 5).
    Denying(Node),
}

/// What a response says.
#[derive(Drop)]
pub struct Answer {
    /// The response code, which is that of the last name (RFC 6604, section 3).
    pub rcode: Rcode,
    /// AA: the zone has authority for the first owner of the answer section, or for what is denied (RFC 1035, section 4.1.1).
    pub is_authoritative: bool,
    /// The names that aliases lead to, in turn. Their numbers are from 1: that of the name that is asked for is 0.
    pub names: Vec<Name>,
    /// What the answer section has of aliases.
    pub aliases: Vec<Part>,
    /// What it has after them.
    pub data: Option<Part>,
    /// What the authority section has.
    pub authority: Option<Part>,
}

/// Returns what a server says to a name and a type. It allocates only if the name is an alias, and fails only if that fails.
#[tactic(auto, unfolding(crate::specs::Answers::answer))]
pub fn answer_of(
    alloc: Global,
    zone: &ZoneStore<'_>,
    name: &Name,
    code: u16,
) -> Result<Answer, AllocError>
    ensures { IfOk result (λ it. answer_seen zone.now.records name.now.labels it ≡ answer zone.now name.now.labels code) }
{
    let mut answer = Answer::new(alloc);
    if is_in(zone.apex(), name) {
        answer.follow(alloc, zone, name, code)?;
    }
    Ok(answer)
}

impl Answer {
    /// Creates that to a name outside the zone: it is refused.
    fn new(alloc: Global) -> Self
        ensures refused { (result.rcode ≡ Refused) × (result.is_authoritative ≡ false) }
        ensures parts { (result.names.items ≡ []) × (result.aliases.items ≡ []) }
        ensures none { (result.data ≡ None) × (result.authority ≡ None) }
    {
        Answer {
            rcode: Rcode::Refused,
            is_authoritative: false,
            names: Vec::new(alloc),
            aliases: Vec::new(alloc),
            data: None,
            authority: None,
        }
    }

    /// Follows aliases from the name that is asked for.
    fn follow(
        &mut self,
        alloc: Global,
        zone: &ZoneStore<'_>,
        name: &Name,
        code: u16,
    ) -> Result<(), AllocError>
        requires upto { IsUpTo self.old 0 }
        requires none { self.old.aliases.items ≡ [] }
        ensures { OnOk result (answer_seen zone.now.records name.now.labels self.new ≡ follow zone.now code max_aliases (name.now.labels ∷ []) name.now.labels) }
    {
        let mut last = name.copied();
        'aliases: for number in 0..MAX_ALIASES {
            let lead = lead_of(alloc, zone, &last, code);
            match self.add(zone, name, number, lead, code)? {
                Some(next) => last = next,
                None => return Ok(()),
            }
        }
        self.end(Rcode::NoError);
        Ok(())
    }

    /// Adds what a name is, the last one that was asked for, which has this number. Returns the name that is to be asked for next, if there
    /// is one.
    fn add(
        &mut self,
        zone: &ZoneStore<'_>,
        asked: &Name,
        number: usize,
        lead: Lead,
        code: u16,
    ) -> Result<Option<Name>, AllocError>
        requires upto { IsUpTo self.old number }
        requires records { LeadHasRecords zone.now.records lead }
        ensures some { IfOk result (λ next. IfSome next (LeadsOn zone.now asked.now.labels code number (lead_seen zone.now.records lead) self.old self.new)) }
        ensures none { IfOk result (λ next. IfNone next (IsSaid zone.now asked.now.labels code number (lead_seen zone.now.records lead) self.old self.new)) }
    {
        match lead {
            Lead::Stays(outcome) => {
                self.stay(zone, number, outcome, code);
                Ok(None)
            }
            Lead::Cname(node, next) => {
                self.aliases.push(Part::Named(number, node, CNAME))?;
                self.turn(asked, next)
            }
            Lead::Dname(node, next) => {
                self.link(number, node, &next)?;
                self.turn(asked, next)
            }
        }
    }

    /// Adds the records of an alias by a DNAME record, for the name of this number.
    fn link(&mut self, number: usize, node: Node, next: &Next) -> Result<(), AllocError>
        ensures parts { OnOk result (self.new.aliases.items ≡ self.old.aliases.items ++ link_parts number node next.now) }
        ensures names { self.new.names ≡ self.old.names }
        ensures others { (self.new.data ≡ self.old.data) × (self.new.authority ≡ self.old.authority) }
    {
        self.aliases.push(Part::Kept(node, DNAME))?;
        if let Next::To(_) = next {
            self.aliases.push(Part::Made(number, node))?;
        }
        Ok(())
    }

    /// Turns to what an alias leads to. Returns the name that is to be asked for next, if there is one.
    fn turn(&mut self, asked: &Name, next: Next) -> Result<Option<Name>, AllocError>
        requires none { (self.old.data ≡ None) × (self.old.authority ≡ None) }
        ensures some { IfOk result (λ it. IfSome it (TurnsTo asked.now.labels self.old self.new (next_seen next))) }
        ensures none { IfOk result (λ it. IfNone it (EndsTurn asked.now.labels self.old self.new (next_seen next))) }
    {
        match next {
            Next::To(name) => self.visit(asked, name),
            Next::Nowhere => {
                self.end(Rcode::NoError);
                Ok(None)
            }
            Next::TooLong => {
                self.end(Rcode::YXDomain);
                Ok(None)
            }
        }
    }

    /// Turns to a name. Returns it, unless it was asked for before.
    fn visit(&mut self, asked: &Name, name: Name) -> Result<Option<Name>, AllocError>
        requires none { (self.old.data ≡ None) × (self.old.authority ≡ None) }
        ensures some { IfOk result (λ it. IfSome it (TurnsTo asked.now.labels self.old self.new (To name.labels))) }
        ensures none { IfOk result (λ it. IfNone it (EndsTurn asked.now.labels self.old self.new (To name.labels))) }
    {
        let met = self.has_met(asked, &name);
        let next = name.copied();
        self.names.push(name)?;
        if met {
            self.end(Rcode::NoError);
            return Ok(None);
        }
        Ok(Some(next))
    }

    /// Returns `true` if a name was asked for before.
    #[tactic(auto, unfolding(crate::specs::Answers::is_met))]
    fn has_met(&self, asked: &Name, name: &Name) -> bool
        ensures { result ≡ is_met (names_of asked.now.labels self.now) name.now.labels }
    {
        is_same(asked, name) || is_met(self.names.as_slice(), name)
    }

    /// Ends the answer with a code, and nothing more.
    fn end(&mut self, rcode: Rcode)
        ensures { self.new ≡ record self.old { rcode = rcode; is_authoritative = true } }
    {
        self.rcode = rcode;
        self.is_authoritative = true;
    }

    /// Ends the answer with what the zone says of the last name, which has this number.
    fn stay(&mut self, zone: &ZoneStore<'_>, number: usize, outcome: Outcome, code: u16)
        requires upto { IsUpTo self.old number }
        requires records { HasRecords zone.now.records outcome }
        ensures { (asked : List (List ℕ)) → EndsAs zone.now.records asked self.old self.new (of_outcome zone.now (numbered_name (names_of asked self.old) number) code (outcome_seen zone.now.records outcome)) }
    {
        match outcome {
            Outcome::Referral(node) => {
                self.rcode = Rcode::NoError;
                self.is_authoritative = !self.aliases.as_slice().is_empty();
                self.authority = Some(Part::Kept(node, NS));
            }
            Outcome::Exact(node) => self.tell(zone, number, node, code),
            Outcome::Synthesised(node) => self.tell(zone, number, node, code),
            Outcome::NoName => self.deny(zone, Rcode::NXDomain),
            Outcome::Outside | Outcome::Redirect(_) => self.end(Rcode::NoError),
        }
    }

    /// Ends the answer with what the records of a name, or of its wildcard, say of a type.
    fn tell(&mut self, zone: &ZoneStore<'_>, number: usize, node: Node, code: u16)
        requires upto { IsUpTo self.old number }
        requires records { IsOfRecords zone.now.records node }
        ensures { (asked : List (List ℕ)) → EndsAs zone.now.records asked self.old self.new (by_kind zone.now (numbered_name (names_of asked self.old) number) code (node_records zone.now.records node) (kind (node_records zone.now.records node) code)) }
    {
        match kind_of(zone, node, code) {
            Kind::Records => {
                self.data = Some(Part::Named(number, node, code));
                self.end(Rcode::NoError);
            }
            Kind::NoData => self.deny(zone, Rcode::NoError),
            Kind::Alias => self.end(Rcode::NoError),
        }
    }

    /// Ends the answer: the zone has no such records, or no such name.
    fn deny(&mut self, zone: &ZoneStore<'_>, rcode: Rcode)
        requires { (self.old.data ≡ None) × (self.old.authority ≡ None) }
        ensures { (asked : List (List ℕ)) → EndsAs zone.now.records asked self.old self.new (denied zone.now rcode) }
    {
        let apex = zone.node(zone.apex());
        self.authority = Some(Part::Denying(apex));
        self.end(rcode);
    }
}

/// Returns `true` if a name is one of those that were asked for.
#[tactic(auto, unfolding(crate::specs::Answers::is_met))]
fn is_met(names: &[Name], name: &Name) -> bool
    ensures { result ≡ is_met (all_labels names.now) name.now.labels }
{
    'met: for met in names {
        if is_same(met, name) {
            return true;
        }
    }
    false
}
