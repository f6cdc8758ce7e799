//! What a response means.
ghost use Rattle.std.specs.Prelude.{◌≡◌, ◌+◌, min};
ghost use Rattle.ans_response.specs.Counted.{AreTargets, Targets, counted_records, minimum_of, record_seen};
ghost use Rattle.std.specs.Option.{option_map};
ghost use Rattle.ans_response.specs.Meanings.{at_last_name, by_delegation, has_data, heard_of, max_aliases, meaning, meant_by, negative, on_or_out, step, unsaid, without_soa};
ghost use Rattle.ans_response.specs.Seen.{meaning_seen, negative_seen, step_seen};

use crate::aliases::next_name;
use crate::asked::{Asked, NO_NAME, code_of};
use crate::names::{is_in, is_same};
use crate::reason::Reason;
use crate::sought::{Sought, first_sought};
use dns_names_wire::message::MessageRef;
use dns_names_wire::{Name, RecordRef};

/// The most aliases that are followed. So each record of a message is read at most 51 times: thrice for each of 17 names.
pub const MAX_ALIASES: usize = 16;

/// The fewest octets of the data of SOA: two names of one octet, and five numbers (RFC 1035, section 3.3.13).
const LEAST_SOA: usize = 22;

/// The zone that says that there is nothing, by its SOA record (RFC 2308, section 3).
#[derive(Drop)]
pub struct Negative<'m> {
    /// The SOA record, whose owner is the name of the zone.
    pub soa: RecordRef<'m>,
    /// For how many seconds it may be kept that there is nothing: the smaller of the time to live of the record and its minimum (RFC
    /// 2308, section 5).
    pub ttl: u32,
}

/// What a response means to who asked (RFC 1034, section 5.3.3). Names are those at the end of the aliases, if there are any.
#[derive(Drop)]
pub enum Meaning<'m> {
    /// It is no answer.
    NoAnswer(Reason),
    /// There are records of the type at this name. [`next_sought`](crate::sought::next_sought) returns them.
    Data(Name),
    /// There are none at this name, which exists (RFC 2308, section 2.2). Without an SOA record it is not kept.
    NoData(Name, Option<Negative<'m>>),
    /// This name does not exist (RFC 2308, section 2.1; RFC 6604, section 3).
    NoName(Name, Option<Negative<'m>>),
    /// Other servers know more: this is the first of the NS records of a delegation below the zone (RFC 1034, section 4.3.2).
    Referral(RecordRef<'m>),
    /// Aliases lead to this name, which is not in the zone, or of which nothing is said.
    Alias(Name),
    /// The server is no authority for the zone, and knows no other.
    Lame,
}

/// A response means something by a name, or what it means is that by another name.
#[derive(Drop)]
pub(crate) enum Turn<'m> {
    /// It means this.
    Means(Meaning<'m>),
    /// The other name.
    On(Name),
}

/// Returns what a message means to who asked for a name and a type, of a server of this zone.
#[tactic(auto, unfolding(crate::specs::Meanings::meaning))]
pub fn meaning_of<'m>(message: &MessageRef<'m>, name: &Name, code: u16, zone: &Name) -> Meaning<'m>
    ensures { (target : Targets) → AreTargets target
        → meaning_seen result ≡ meaning target message.now name.now.labels code zone.now.labels }
{
    match Asked::of(message, name, code, zone) {
        Err(why) => Meaning::NoAnswer(why),
        Ok(asked) => follow(message, &asked),
    }
}

/// Returns what a message means to who asked: it follows the aliases from the name asked.
fn follow<'m>(message: &MessageRef<'m>, asked: &Asked<'_>) -> Meaning<'m>
    ensures { (target : Targets) → AreTargets target
        → meaning_seen result ≡ meant_by (max_aliases + 1) asked.now (heard_of target asked.now message.now) asked.now.name }
{
    let mut name = asked.name().copied();
    let mut left = MAX_ALIASES + 1;
    'aliases: while left > 0 {
        left -= 1;
        match step(message, asked, &name) {
            Turn::Means(meaning) => return meaning,
            Turn::On(next) => name = next,
        }
    }
    Meaning::NoAnswer(Reason::TooManyAliases)
}

/// Returns what a message means by a name, or the name that its aliases lead to.
#[tactic(auto, unfolding(crate::specs::Meanings::step, crate::specs::Meanings::heard_of))]
fn step<'m>(message: &MessageRef<'m>, asked: &Asked<'_>, name: &Name) -> Turn<'m>
    ensures { (target : Targets) → AreTargets target
        → step_seen result ≡ step asked.now (heard_of target asked.now message.now) name.now.labels }
{
    let next = match next_name(message, asked, name) {
        Ok(next) => next,
        Err(why) => return Turn::Means(Meaning::NoAnswer(why)),
    };
    if has_data(message, asked, name) {
        return Turn::Means(Meaning::Data(name.copied()));
    }
    match next {
        None => Turn::Means(at_end(message, asked, name)),
        Some(next) => on_or_out(asked, next),
    }
}

/// Returns the name that aliases lead to, if it is in the zone; else that is what a message means.
fn on_or_out<'m>(asked: &Asked<'_>, next: Name) -> Turn<'m>
    ensures { step_seen result ≡ on_or_out asked.now next.labels }
{
    if is_in(asked.zone(), &next.as_name_ref()) {
        Turn::On(next)
    } else {
        Turn::Means(Meaning::Alias(next))
    }
}

/// Returns `true` if there are records of the type asked for at a name.
fn has_data(message: &MessageRef<'_>, asked: &Asked<'_>, name: &Name) -> bool
    ensures { (target : Targets) → result ≡ has_data asked.now (counted_records target asked.now message.now.answers) name.now.labels }
{
    first_sought(message.answers(), asked, name, Sought::Data).is_some()
}

/// Returns what is said of a name without data, and that is no alias.
#[tactic(auto, unfolding(crate::specs::Meanings::at_last_name, crate::specs::Meanings::heard_of))]
fn at_end<'m>(message: &MessageRef<'m>, asked: &Asked<'_>, name: &Name) -> Meaning<'m>
    ensures { (target : Targets) → meaning_seen result ≡ at_last_name asked.now (heard_of target asked.now message.now) name.now.labels }
{
    let said = negative_at(message, asked, name);
    if code_of(message) == NO_NAME {
        return Meaning::NoName(name.copied(), said);
    }
    match said {
        Some(said) => Meaning::NoData(name.copied(), Some(said)),
        None => without_soa(message, asked, name),
    }
}

/// Returns the zone that says that there is nothing at a name.
fn negative_at<'m>(message: &MessageRef<'m>, asked: &Asked<'_>, name: &Name) -> Option<Negative<'m>>
    ensures { (target : Targets) → negative_seen result ≡ negative asked.now (counted_records target asked.now message.now.authorities) name.now.labels }
{
    let Some(soa) = first_sought(message.authorities(), asked, name, Sought::Start) else {
        return None;
    };
    let Some(minimum) = minimum_of(&soa) else {
        return None;
    };
    let ttl = smaller_ttl(&soa, minimum);
    Some(Negative { soa, ttl })
}

/// Returns the smaller of the time to live of an SOA record and its minimum (RFC 2308, section 5).
fn smaller_ttl(soa: &RecordRef<'_>, minimum: u32) -> u32
    ensures { result ≡ min soa.now.ttl minimum }
{
    soa.ttl().min(minimum)
}

/// Returns the last number of the data of SOA.
#[tactic(auto, unfolding(crate::specs::Counted::minimum_of))]
fn minimum_of(soa: &RecordRef<'_>) -> Option<u32>
    ensures { result ≡ minimum_of soa.now }
{
    let octets = soa.rdata();
    if octets.len() < LEAST_SOA {
        return None;
    }
    let number = octets.last_chunk()?;
    Some(u32::from_be_bytes(*number))
}

/// Returns what is said of a name without data, that is no alias, and has no SOA record.
#[tactic(auto, unfolding(crate::specs::Meanings::without_soa, crate::specs::Meanings::heard_of))]
fn without_soa<'m>(message: &MessageRef<'m>, asked: &Asked<'_>, name: &Name) -> Meaning<'m>
    ensures { (target : Targets) → meaning_seen result ≡ without_soa asked.now (heard_of target asked.now message.now) name.now.labels }
{
    let aliased = !is_same(&name.as_name_ref(), asked.name());
    let authoritative = message.header().metadata.authoritative;
    let ns = first_sought(message.authorities(), asked, name, Sought::Delegation);
    by_delegation(aliased, authoritative, name, ns)
}

/// Returns what is said of a name by a response with this first record of a delegation, if there is one.
fn by_delegation<'m>(
    aliased: bool,
    authoritative: bool,
    name: &Name,
    ns: Option<RecordRef<'m>>,
) -> Meaning<'m>
    ensures { (target : Targets) → meaning_seen result ≡ by_delegation aliased authoritative name.now.labels (option_map (record_seen target) ns.entry) }
{
    let Some(ns) = ns else {
        return unsaid(aliased, authoritative, name);
    };
    if aliased || !authoritative {
        Meaning::Referral(ns)
    } else {
        unsaid(aliased, authoritative, name)
    }
}

/// Returns what is said of a name by a response that has neither data nor an SOA record nor a delegation.
fn unsaid<'m>(aliased: bool, authoritative: bool, name: &Name) -> Meaning<'m>
    ensures { meaning_seen result ≡ unsaid aliased authoritative name.now.labels }
{
    if aliased {
        Meaning::Alias(name.copied())
    } else if authoritative {
        Meaning::NoData(name.copied(), None)
    } else {
        Meaning::Lame
    }
}
