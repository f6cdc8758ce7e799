//! What zones say of names and types, by sections. named, nsd and knotd answered so.

use crate::outcomes::octets_of;
use crate::rows::{ROWS, ZONE};
use ans_answer::additional::{addresses_of, server_of};
use ans_answer::answer::{Answer, Part, Rcode, answer_of};
use ans_answer::denial::denial_ttl;
use ans_store::lookup::Node;
use ans_store::store::ZoneStore;
use dns_names_wire::data_text::data_text;
use dns_names_wire::{Name, RecordRef, RecordType};
use std::alloc::Global;
use std::test::Fail;

/// Returns a record as a line.
fn line(
    alloc: Global,
    section: &str,
    owner: &str,
    ttl: u32,
    record: &RecordRef<'_>,
) -> Result<String, Fail> {
    let data = data_text(alloc, record)?;
    let record_type = record.record_type().to_text();
    Ok(format!(in alloc; "{section} {owner} {ttl} {record_type} {data}")?)
}

/// Adds the lines of the records of a type that a name owns, with another owner if one is given.
fn add_records(
    alloc: Global,
    zone: &ZoneStore<'_>,
    section: &str,
    owner: Option<&Name>,
    node: Node,
    code: u16,
    lines: &mut Vec<String>,
) -> Result<(), Fail> {
    for number in node.start..node.end {
        let record = zone.get(number);
        if code == 255 || record.record_type().code() == code {
            let own = record.owner().to_name(alloc)?;
            let owner = owner.unwrap_or(&own).to_text(alloc)?;
            lines.push(line(alloc, section, owner.as_str(), record.ttl(), &record)?)?;
        }
    }
    Ok(())
}

/// Returns the name of a number: 0 is that of the name that was asked for.
fn name_of<'n>(asked: &'n Name, answer: &'n Answer, number: usize) -> &'n Name {
    if number == 0 {
        return asked;
    }
    &answer.names[number - 1]
}

/// Adds the lines of a part of a section.
fn add_part(
    alloc: Global,
    zone: &ZoneStore<'_>,
    asked: &Name,
    answer: &Answer,
    section: &str,
    part: Part,
    lines: &mut Vec<String>,
) -> Result<(), Fail> {
    match part {
        Part::Kept(node, code) => add_records(alloc, zone, section, None, node, code, lines)?,
        Part::Named(number, node, code) => {
            let owner = name_of(asked, answer, number);
            add_records(alloc, zone, section, Some(owner), node, code, lines)?;
        }
        Part::Made(number, node) => {
            let owner = name_of(asked, answer, number).to_text(alloc)?;
            let target = name_of(asked, answer, number + 1).to_text(alloc)?;
            let ttl = zone.get(node.start).ttl();
            lines.push(format!(in alloc; "{section} {owner} {ttl} CNAME {target}")?)?;
        }
        Part::Denying(node) => {
            for number in node.start..node.end {
                let record = zone.get(number);
                if record.record_type() == RecordType::SOA {
                    let owner = record.owner().to_name(alloc)?.to_text(alloc)?;
                    let ttl = denial_ttl(&record);
                    lines.push(line(alloc, section, owner.as_str(), ttl, &record)?)?;
                }
            }
        }
    }
    Ok(())
}

/// Returns the records whose servers have addresses in the additional section: those of a referral, or the data. A referral is told by
/// its type.
fn helped(answer: &Answer) -> Option<(Node, u16, bool)> {
    if let Some(Part::Kept(node, code)) = answer.authority {
        return Some((node, code, true));
    }
    if let Some(Part::Named(_, node, code)) = answer.data {
        return Some((node, code, false));
    }
    None
}

/// Adds the lines of the additional section: the addresses of each server once.
fn add_addresses(
    alloc: Global,
    zone: &ZoneStore<'_>,
    answer: &Answer,
    lines: &mut Vec<String>,
) -> Result<(), Fail> {
    let Some((node, code, is_referral)) = helped(answer) else {
        return Ok(());
    };
    let mut servers = Vec::new(alloc);
    for number in node.start..node.end {
        let record = zone.get(number);
        if record.record_type().code() == code
            && let Some(server) = server_of(alloc, &record)
            && !servers.as_slice().contains(&server)
        {
            for address in [1, 28] {
                if let Some(node) = addresses_of(zone, is_referral, &server, address) {
                    add_records(alloc, zone, "ad", Some(&server), node, address, lines)?;
                }
            }
            servers.push(server)?;
        }
    }
    Ok(())
}

/// Returns what an answer says as lines.
fn lines_of(
    alloc: Global,
    zone: &ZoneStore<'_>,
    asked: &Name,
    answer: &Answer,
) -> Result<Vec<String>, Fail> {
    let mut lines = Vec::new(alloc);
    let rcode = match answer.rcode {
        Rcode::NoError => "NOERROR",
        Rcode::NXDomain => "NXDOMAIN",
        Rcode::Refused => "REFUSED",
        Rcode::YXDomain => "YXDOMAIN",
    };
    let flag = if answer.is_authoritative { " aa" } else { "" };
    lines.push(format!(in alloc; "{rcode}{flag}")?)?;
    for part in answer.aliases.as_slice() {
        add_part(alloc, zone, asked, answer, "an", *part, &mut lines)?;
    }
    if let Some(part) = answer.data {
        add_part(alloc, zone, asked, answer, "an", part, &mut lines)?;
    }
    if let Some(part) = answer.authority {
        add_part(alloc, zone, asked, answer, "au", part, &mut lines)?;
    }
    add_addresses(alloc, zone, answer, &mut lines)?;
    Ok(lines)
}

#[test]
fn each_question_has_the_sections_that_servers_give_it(rt: HostRuntime) -> Result<(), Fail> {
    let alloc = rt.alloc();
    let octets = octets_of(alloc, &ZONE)?;
    let apex = Name::from_ascii(alloc, "A.test.")?;
    let zone = ZoneStore::load(alloc, apex, octets.as_slice())?;
    for (name, record_type, wanted) in ROWS {
        let asked = Name::from_text(alloc, name, None)?;
        let code = RecordType::from_text(record_type)
            .expect(&rt, "a type")
            .code();
        let answer = answer_of(alloc, &zone, &asked, code)?;
        let lines = lines_of(alloc, &zone, &asked, &answer)?;
        let mut count = 0;
        for line in wanted.split('\n') {
            count += 1;
            let found = lines
                .iter()
                .any(|other| other.as_str().eq_ignore_ascii_case(line));
            assert!(rt; found, "{name} {record_type}: {line}");
        }
        assert_eq!(rt; lines.len(), count, "{name} {record_type}");
    }
    Ok(())
}
