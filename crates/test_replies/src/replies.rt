//! What is replied to requests about a zone.

use crate::recorded::{ROWS, ZONE};
use ans_reply::head::{head_of, size_limit};
use ans_reply::message::write_reply;
use ans_reply::reply::{ReplyItems, items_of};
use ans_store::store::ZoneStore;
use dns_names_wire::data_text::{data_text, parse_record};
use dns_names_wire::message::{MessageRef, QueryRef};
use dns_names_wire::message_writer::{Asked, WriterState};
use dns_names_wire::{BinDecoder, Name, RecordRef, RecordType};
use std::alloc::Global;
use std::test::Fail;

/// Returns the octets of records, by their lines.
fn octets_of(alloc: Global, lines: &[&str]) -> Result<Vec<u8>, Fail> {
    let mut octets = Vec::new(alloc);
    for line in lines {
        octets.extend_from_slice(parse_record(alloc, line, None)?.as_slice())?;
    }
    Ok(octets)
}

/// Returns the name of a response code.
fn code_name(code: u16) -> &'static str {
    match code {
        0 => "NOERROR",
        1 => "FORMERR",
        3 => "NXDOMAIN",
        4 => "NOTIMP",
        5 => "REFUSED",
        6 => "YXDOMAIN",
        16 => "BADVERS",
        _ => "another",
    }
}

/// Returns what is replied to a request, and how it asks, or `None` if it is none.
fn reply_to(
    alloc: Global,
    zone: &ZoneStore<'_>,
    request: &[u8],
) -> Result<Option<(ReplyItems, Asked)>, Fail> {
    let mut room = [0; 512];
    let mut state = WriterState::new();
    let Ok(asked) = state.reply_to(&mut room, request, 0, 0, 512) else {
        return Ok(None);
    };
    let operation = request[2] / 8 % 16;
    let Ok(message) = MessageRef::read(request) else {
        return Ok(Some((items_of(alloc, zone, operation, asked, None)?, asked)));
    };
    let mut queries = message.queries();
    let first = queries.next();
    let query = if queries.next().is_some() {
        None
    } else {
        first
    };
    Ok(Some((items_of(alloc, zone, operation, asked, query)?, asked)))
}

/// Returns a record of a section as a line.
fn record_line(alloc: Global, octet: u8, record: &RecordRef<'_>) -> Result<String, Fail> {
    let ttl = record.ttl();
    if record.record_type() == RecordType::OPT {
        let payload = record.class().code();
        return Ok(format!(in alloc; "opt {} {payload} {}", ttl >> 16, ttl >> 15 & 1)?);
    }
    let section = match octet {
        1 => "an",
        2 => "au",
        _ => "ad",
    };
    let owner = record.owner().to_name(alloc)?.to_text(alloc)?;
    let data = data_text(alloc, record)?;
    let record_type = record.record_type().to_text();
    Ok(format!(in alloc; "{section} {owner} {ttl} {record_type} {data}")?)
}

/// Returns the records of a reply as lines, and its question as octets.
fn lines_of(alloc: Global, reply: &ReplyItems) -> Result<(Vec<String>, Vec<u8>), Fail> {
    let octets = reply.items.as_slice();
    let mut lines = Vec::new(alloc);
    let mut question = Vec::new(alloc);
    let mut reader = BinDecoder::new(octets);
    while let Some(octet) = reader.peek() {
        let octet = octet.unverified();
        reader.skip(1)?;
        let start = reader.index();
        if octet == 0 {
            QueryRef::read_next(&mut reader)?;
            question.extend_from_slice(&octets[start..reader.index()])?;
        } else {
            let record = RecordRef::read_next(&mut reader)?;
            lines.push(record_line(alloc, octet, &record)?)?;
        }
    }
    Ok((lines, question))
}

/// Returns `true` if a reply says what is wanted, which begins with a line of its code and flags. A reply that is cut has fewer records, since
/// the list of items is not cut; and of one with FORMERR or NOTIMP the first line counts.
fn says(reply: &ReplyItems, lines: &[String], wanted: &str) -> bool {
    let mut rows = wanted.split('\n');
    let head = rows.next().unwrap_or("");
    let name = code_name(reply.code);
    if !head.starts_with(name) || head.contains(" aa") != reply.is_authoritative {
        return false;
    }
    if name == "FORMERR" || name == "NOTIMP" {
        return true;
    }
    let mut count = 0;
    for row in rows {
        count += 1;
        if !lines
            .iter()
            .any(|line| line.as_str().eq_ignore_ascii_case(row))
        {
            return false;
        }
    }
    head.contains(" tc") || lines.len() == count
}

/// Returns `true` if the message of a reply has its code and AA, and TC if the first line of what is wanted says so.
fn is_written(
    request: &[u8],
    reply: &ReplyItems,
    asked: Asked,
    wanted: &str,
) -> Result<bool, Fail> {
    let mut room = [0; 4096];
    let Some(head) = head_of(request, reply.is_authoritative) else {
        return Ok(false);
    };
    let written = write_reply(reply, head, size_limit(asked, true, 4096), &mut room)?;
    let message = MessageRef::read(&room[..written.len])?;
    let said = wanted.split('\n').next().unwrap_or("");
    Ok(
        written.truncated == said.contains(" tc")
            && message.header().metadata.authoritative == reply.is_authoritative,
    )
}

#[test]
fn each_request_has_the_reply_of_servers(rt: HostRuntime) -> Result<(), Fail> {
    let alloc = rt.alloc();
    let octets = octets_of(alloc, &ZONE)?;
    let apex = Name::from_ascii(alloc, "A.test.")?;
    let zone = ZoneStore::load(alloc, apex, octets.as_slice())?;
    for (label, digits, wanted) in ROWS {
        let request = hex::decode(alloc, digits)?;
        let Some((reply, asked)) = reply_to(alloc, &zone, request.as_slice())? else {
            assert_eq!(rt; wanted, "none", "{label}");
            continue;
        };
        let (lines, question) = lines_of(alloc, &reply)?;
        assert!(rt; says(&reply, lines.as_slice(), wanted), "{label}");
        let start = request.as_slice().get(12..12 + question.len());
        assert!(rt; start == Some(question.as_slice()), "{label}");
        assert!(rt;
            is_written(request.as_slice(), &reply, asked, wanted)?,
            "{label}"
        );
    }
    Ok(())
}
