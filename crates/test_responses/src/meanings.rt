//! What replies of servers and hostile messages mean.

use crate::recorded::ROWS;
use ans_response::asked::Asked;
use ans_response::meaning::{Meaning, Negative, meaning_of};
use ans_response::reason::Reason;
use ans_response::sought::{Sought, next_sought};
use dns_names_wire::Name;
use dns_names_wire::message::MessageRef;
use std::alloc::Global;
use std::test::Fail;

/// Returns a word and a name.
fn named(alloc: Global, word: &str, name: &Name) -> Result<String, Fail> {
    Ok(format!(in alloc; "{word} {name}")?)
}

/// Returns a word, a name, and for how long there is nothing.
fn denied(
    alloc: Global,
    word: &str,
    name: &Name,
    said: Option<Negative<'_>>,
) -> Result<String, Fail> {
    let text = named(alloc, word, name)?;
    match said {
        None => Ok(text),
        Some(said) => {
            let ttl = said.ttl;
            Ok(format!(in alloc; "{text} {ttl}")?)
        }
    }
}

/// Returns a word for why a message is no answer.
fn reason_word(why: Reason) -> &'static str {
    match why {
        Reason::NotAResponse => "query",
        Reason::OtherQuestion => "other question",
        Reason::Failed { .. } => "failed",
        Reason::Truncated => "truncated",
        Reason::OtherZone => "other zone",
        Reason::NoTarget => "too long",
        Reason::WrongAlias => "wrong alias",
        Reason::TooManyAliases => "loop",
    }
}

/// Returns what a message means, in words.
fn words(alloc: Global, meaning: Meaning<'_>) -> Result<String, Fail> {
    match meaning {
        Meaning::NoAnswer(why) => Ok(String::from_str(alloc, reason_word(why))?),
        Meaning::Data(name) => named(alloc, "data", &name),
        Meaning::NoData(name, said) => denied(alloc, "no data", &name, said),
        Meaning::NoName(name, said) => denied(alloc, "no name", &name, said),
        Meaning::Referral(ns) => named(alloc, "referral", &ns.owner().to_name(alloc)?),
        Meaning::Alias(name) => named(alloc, "alias", &name),
        Meaning::Lame => Ok(String::from_str(alloc, "lame")?),
    }
}

#[test]
fn each_message_means_what_the_rfcs_say(rt: HostRuntime) -> Result<(), Fail> {
    let alloc = rt.alloc();
    let zone = Name::from_ascii(alloc, "A.test.")?;
    for row in ROWS {
        let mut parts = row.splitn(5, ' ').skip(1);
        let name = Name::from_ascii(alloc, parts.next().ok_or("a name")?)?;
        let code = parts.next().ok_or("a type")?.parse()?;
        let octets = hex::decode(alloc, parts.next().ok_or("octets")?)?;
        let wanted = parts.next().ok_or("a meaning")?;
        let message = MessageRef::read(octets.as_slice())?;
        let meant = words(alloc, meaning_of(&message, &name, code, &zone))?;
        assert_eq!(rt; meant.as_str(), wanted);
    }
    Ok(())
}

/// A reply with two addresses of `w.a.test.`, one of `www.bank.` between them, and the class of one record changed to CH.
const ADDRESSES: &str = "000784000001000400000000\
    0177016104746573740000010001\
    c00c000100010000003c0004c0000201\
    037777770462616e6b00000100010000003c0004c0000209\
    c00c000100030000003c0004c0000208\
    c00c000100010000003c0004c0000202";

#[test]
fn records_that_do_not_count_are_passed_over(rt: HostRuntime) -> Result<(), Fail> {
    let alloc = rt.alloc();
    let octets = hex::decode(alloc, ADDRESSES)?;
    let message = MessageRef::read(octets.as_slice())?;
    let name = Name::from_ascii(alloc, "w.a.test.")?;
    let zone = Name::from_ascii(alloc, "a.test.")?;
    let asked = Asked::of(&message, &name, 1, &zone)?;
    let mut records = message.answers();
    let first = next_sought(&mut records, &asked, &name, Sought::Data).ok_or("one")?;
    let second = next_sought(&mut records, &asked, &name, Sought::Data).ok_or("two")?;
    assert_eq!(rt; first.rdata(), [192, 0, 2, 1].as_slice());
    assert_eq!(rt; second.rdata(), [192, 0, 2, 2].as_slice());
    assert!(rt; next_sought(&mut records, &asked, &name, Sought::Data).is_none());
    Ok(())
}
