//! Zone files: what the entries of a text are, in one window or cut at every octet. What they are, BIND, NSD and dnspython say.

use dns_names_wire::binary::BinDecodable;
use dns_names_wire::data_text::{RecordEntryError, parse_entry, parse_record};
use dns_names_wire::name::Name;
use dns_names_wire::record::RecordRef;
use dns_names_wire::zone::{
    Context, Ending, Entry, Found, OwnedRecord, WordRule, ZoneError, ZoneRule, ZoneTextError,
    append_origin, append_record, append_short_record, append_ttl, entry_of, place_of,
    read_records, scan, take_entry,
};
use std::alloc::Global;
use std::test::Fail;

/// A zone with what may be left out, comments, parentheses and a blank owner.
const ZONE: &[u8] =
    b"$ORIGIN example.\n@ 60 IN SOA ns h 1 2 3 4 5 ; first\n\tNS ns\n\n$TTL 2h\nb TXT ( \"a;b\"\r\n  c ) \n  MX 1 a;b\n";

/// Returns the owner, the time to live and the data of each record, one after the other.
fn records(alloc: Global, text: &[u8], window: usize) -> Result<Vec<u8>, Fail> {
    let mut context = Context::new(Name::from_ascii(alloc, "example.")?);
    let mut line = Vec::new(alloc);
    let mut octets = Vec::new(alloc);
    let mut at = 0;
    let mut end = 0;
    for _ in 0..1000 {
        let step = take_entry(
            alloc,
            &mut context,
            &text[at..end],
            end < text.len(),
            &mut line,
        );
        let used = step.used;
        match step.found {
            Ok(Found::Entry(Entry::Record(found))) => {
                if let Some(owner) = &context.owner {
                    octets.extend_from_slice(owner.as_bytes())?;
                }
                octets.extend_from_slice(&found.ttl.to_be_bytes())?;
                octets.extend_from_slice(found.wire.as_slice())?;
            }
            Ok(Found::Entry(_)) => {}
            Ok(Found::More) => end = text.len().min(end + window),
            _ => return Ok(octets),
        }
        at += used;
    }
    Ok(octets)
}

#[test]
fn windows_cut_anywhere_give_the_same_records(rt: HostRuntime) -> Result<(), Fail> {
    let alloc = rt.alloc();
    let wanted =
        b"\x07example\x00\x00\x00\x00\x3c\x02ns\x07example\x00\x01h\x07example\x00\x00\x00\x00\x01\x00\x00\x00\x02\x00\x00\x00\x03\x00\x00\x00\x04\x00\x00\x00\x05\x07example\x00\x00\x00\x00\x3c\x02ns\x07example\x00\x01b\x07example\x00\x00\x00\x1c\x20\x03a;b\x01c\x01b\x07example\x00\x00\x00\x1c\x20\x00\x01\x01a\x07example\x00";
    for window in &[1, 7, 1000] {
        let octets = records(alloc, ZONE, *window)?;
        assert_eq!(rt; octets.as_slice(), wanted.as_slice());
    }
    Ok(())
}

#[test]
fn a_record_has_comments_and_parentheses(rt: HostRuntime) -> Result<(), Fail> {
    let alloc = rt.alloc();
    let octets = parse_entry(alloc, b"a. 60 TXT ( \"v; k\" ; c\n b )\n", None)?;
    let same = parse_record(alloc, "a. 60 TXT \"v; k\" b", None)?;
    assert_eq!(rt; octets.as_slice(), same.as_slice());
    assert!(rt;
        matches!(
            parse_entry(alloc, b"a. 60 TXT b\na. 60 TXT c", None),
            Err(RecordEntryError::MoreEntries { offset: 11 })
        )
    );
    assert!(rt;
        matches!(
            parse_entry(alloc, b"a. 60 TXT )", None),
            Err(RecordEntryError::Words {
                offset: 10,
                rule: WordRule::UnopenedParenthesis
            })
        )
    );
    Ok(())
}

#[test]
fn a_fault_has_its_place(rt: HostRuntime) -> Result<(), Fail> {
    let alloc = rt.alloc();
    let mut line = Vec::new(alloc);
    let ending = scan(b"a \"b\nc", &mut line)?;
    assert!(rt; ending == Ending::Wrong(WordRule::UnclosedQuote));
    let mut context = Context::new(Name::from_ascii(alloc, "example.")?);
    let found = entry_of(alloc, &mut context, false, b"$GENERATE 1-9 a A 1.2.3.$");
    assert!(rt;
        matches!(
            found,
            Err(ZoneError::Wrong {
                offset: 0,
                rule: ZoneRule::Generate
            })
        )
    );
    let place = place_of(b"ab\ncd\nef", 7);
    assert_eq!(rt; place.line, 2);
    assert_eq!(rt; place.column, 1);
    Ok(())
}

#[test]
fn a_text_is_a_list_of_records(rt: HostRuntime) -> Result<(), Fail> {
    let alloc = rt.alloc();
    let records = read_records(alloc, Name::from_ascii(alloc, "example.")?, ZONE)?;
    assert_eq!(rt; records.len(), 4);
    assert_eq!(rt; records[0].body.ttl, 60);
    assert_eq!(rt; records[1].owner.as_bytes(), b"\x07example\x00".as_slice());
    assert_eq!(rt;
        records[2].owner.as_bytes(),
        b"\x01b\x07example\x00".as_slice()
    );
    assert_eq!(rt; records[2].body.ttl, 7200);
    assert_eq!(rt; records[2].body.wire.as_slice(), b"\x03a;b\x01c".as_slice());
    Ok(())
}

/// The TTLs are those that named-checkzone and dnspython give this zone.
#[test]
fn an_soa_has_its_minimum_as_its_time_to_live(rt: HostRuntime) -> Result<(), Fail> {
    let alloc = rt.alloc();
    let text = b"@ SOA ns h 1 2 3 4 300\n@ NS ns\nns 60 A 192.0.2.1\nb A 192.0.2.2\n";
    let records = read_records(alloc, Name::from_ascii(alloc, "example.")?, text)?;
    assert_eq!(rt; records.len(), 4);
    for (found, wanted) in records.iter().zip([300, 300, 60, 300].iter()) {
        assert_eq!(rt; found.body.ttl, *wanted);
    }
    Ok(())
}

#[test]
fn a_time_to_live_that_no_entry_states_is_the_callers(rt: HostRuntime) -> Result<(), Fail> {
    let alloc = rt.alloc();
    let mut context = Context::new(Name::from_ascii(alloc, "example.")?);
    context.fallback_ttl = Some(9);
    for (line, wanted) in [("a A 1.2.3.4", 9), ("b 7 A 1.2.3.4", 7), ("c A 1.2.3.4", 7)] {
        match entry_of(alloc, &mut context, false, line.as_bytes())? {
            Entry::Record(found) => assert_eq!(rt; found.ttl, wanted),
            _ => return Err(Fail::from("a record")),
        }
    }
    Ok(())
}

#[test]
fn the_first_entry_that_is_none_has_its_offset(rt: HostRuntime) -> Result<(), Fail> {
    let alloc = rt.alloc();
    let origin = Name::from_ascii(alloc, "example.")?;
    assert!(rt;
        matches!(
            read_records(alloc, origin, b"a 1 A 192.0.2.1\nb A 192.0.2.1\nc )"),
            Err(ZoneTextError::NoEntry {
                offset: 30,
                error: ZoneError::Wrong {
                    offset: 2,
                    rule: ZoneRule::Words(WordRule::UnopenedParenthesis)
                },
            })
        )
    );
    let origin = Name::from_ascii(alloc, "example.")?;
    assert!(rt;
        matches!(
            read_records(alloc, origin, b"\n$INCLUDE other"),
            Err(ZoneTextError::HasInclude { offset: 1 })
        )
    );
    Ok(())
}

#[test]
fn what_is_written_is_read(rt: HostRuntime) -> Result<(), Fail> {
    let alloc = rt.alloc();
    // The owner `$;.`, and a string of a quote and a line feed.
    let octets = b"\x02$;\x00\x00\x10\x00\x01\x00\x00\x00\x3c\x00\x03\x02\"\n";
    let record = RecordRef::from_bytes(alloc, octets.as_slice())?;
    let mut text = Vec::new(alloc);
    append_record(alloc, &record, &mut text)?;
    append_record(alloc, &record, &mut text)?;
    assert_eq!(rt;
        text.as_slice(),
        b"\\$\\;. 60 IN TXT \"\\\"\\010\"\n\\$\\;. 60 IN TXT \"\\\"\\010\"\n".as_slice()
    );
    let records = read_records(alloc, Name::from_ascii(alloc, "example.")?, text.as_slice())?;
    assert_eq!(rt; records.len(), 2);
    assert_eq!(rt; records[1].owner.as_bytes(), b"\x02$;\x00".as_slice());
    assert_eq!(rt; records[1].body.wire.as_slice(), b"\x02\"\n".as_slice());
    Ok(())
}

/// Appends a record that a line is, in the form of `parse_record`.
fn put_short(
    alloc: Global,
    context: &mut Context,
    line: &str,
    text: &mut Vec<u8>,
) -> Result<(), Fail> {
    let octets = parse_record(alloc, line, None)?;
    let record = RecordRef::from_bytes(alloc, octets.as_slice())?;
    append_short_record(alloc, context, &record, text)?;
    Ok(())
}

/// Records, the first before `$ORIGIN example.` and `$TTL 60`, and the others after it.
const LINES: [&str; 9] = [
    "b.example. 5 IN NS ns.example.",
    "example. 60 IN TXT a",
    "example. 5 IN TXT b",
    "a\\.b.c.example. 60 CH TXT c",
    "c.EXAMPLE. 60 IN A 192.0.2.1",
    "C.EXAMPLE. 60 IN TYPE65280 \\# 0",
    "xexample. 60 IN A 192.0.2.1",
    "\\@.example. 60 IN A 192.0.2.1",
    ". 60 IN A 192.0.2.1",
];

/// These in short form.
const SHORT: &[u8] =
    b"b.example. 5 IN NS ns.example.\n$ORIGIN example.\n$TTL 60\n@ IN TXT \"a\"\n 5 IN TXT \"b\"\na\\.b.c CH TXT \"c\"\nc.EXAMPLE. IN A 192.0.2.1\nC.EXAMPLE. IN TYPE65280 \\# 0\nxexample. IN A 192.0.2.1\n\\@ IN A 192.0.2.1\n. IN A 192.0.2.1\n";

/// Returns the octets of a record of a zone.
fn octets_of(alloc: Global, found: &OwnedRecord) -> Result<Vec<u8>, Fail> {
    let mut octets = Vec::from_slice(alloc, found.owner.as_bytes())?;
    octets.extend_from_slice(&found.body.record_type.code().to_be_bytes())?;
    octets.extend_from_slice(&found.body.class.code().to_be_bytes())?;
    octets.extend_from_slice(&found.body.ttl.to_be_bytes())?;
    octets.extend_from_slice(&[0, found.body.wire.len() as u8])?;
    octets.extend_from_slice(found.body.wire.as_slice())?;
    Ok(octets)
}

#[test]
fn what_is_written_after_others_is_read(rt: HostRuntime) -> Result<(), Fail> {
    let alloc = rt.alloc();
    let origin = Name::from_ascii(alloc, "example.")?;
    let mut context = Context::new(Name::root(alloc));
    let mut text = Vec::new(alloc);
    put_short(alloc, &mut context, LINES[0], &mut text)?;
    append_origin(alloc, &mut context, &origin, &mut text)?;
    append_ttl(alloc, &mut context, 60, &mut text)?;
    for line in &LINES[1..] {
        put_short(alloc, &mut context, line, &mut text)?;
    }
    assert_eq!(rt; text.as_slice(), SHORT);
    let read = read_records(alloc, Name::from_ascii(alloc, "other.")?, text.as_slice())?;
    assert_eq!(rt; read.len(), LINES.len());
    let mut again = Vec::new(alloc);
    let mut context = Context::new(Name::root(alloc));
    for (place, found) in read.iter().enumerate() {
        if place == 1 {
            append_origin(alloc, &mut context, &origin, &mut again)?;
            append_ttl(alloc, &mut context, 60, &mut again)?;
        }
        let octets = octets_of(alloc, found)?;
        let record = RecordRef::from_bytes(alloc, octets.as_slice())?;
        append_short_record(alloc, &mut context, &record, &mut again)?;
    }
    assert_eq!(rt; again.as_slice(), SHORT);
    Ok(())
}
