//! Calls that may report out of memory, with ample memory, at every size that a body could take for a limit: texts that are printed
//! and parsed, zone files, and messages.

use crate::ample::{LIMITS, counts, octets, record_octets, sizes, text};
use dns_names_wire::data_text::{data_text, parse, parse_entry};
use dns_names_wire::decoder::BinDecoder;
use dns_names_wire::dns_class::DNSClass;
use dns_names_wire::encoder::BinEncoder;
use dns_names_wire::message::MessageRef;
use dns_names_wire::message_writer::{Section, WriterState};
use dns_names_wire::name::Name;
use dns_names_wire::record::RecordRef;
use dns_names_wire::record_type::RecordType;
use dns_names_wire::zone::{Context, entry_of, scan};
use std::alloc::Global;
use std::test::Fail;

/// Returns these octets, and then so many runs of others.
fn repeated(alloc: Global, front: &[u8], run: &[u8], count: usize) -> Result<Vec<u8>, Fail> {
    let mut bytes = Vec::new(alloc);
    bytes.extend_from_slice(front)?;
    for _ in 0..count {
        bytes.extend_from_slice(run)?;
    }
    Ok(bytes)
}

/// Returns the data of an SVCB record with one parameter.
fn with_param(alloc: Global, key: u16, value: &[u8]) -> Result<Vec<u8>, Fail> {
    let mut bytes = Vec::new(alloc);
    bytes.extend_from_slice(b"\x00\x01\x00")?;
    bytes.extend_from_slice(&key.to_be_bytes())?;
    let len = u16::try_from(value.len()).map_err(|_| "a length")?;
    bytes.extend_from_slice(&len.to_be_bytes())?;
    bytes.extend_from_slice(value)?;
    Ok(bytes)
}

/// Returns `true` if the text of these data is parsed as the same, and is no text of octets.
fn comes_back(alloc: Global, code: u16, own: &[u8]) -> Result<bool, Fail> {
    let bytes = record_octets(alloc, code, own)?;
    let item = RecordRef::read_next(&mut BinDecoder::new(bytes.as_slice()))?;
    let printed = data_text(alloc, &item)?;
    let again = parse(
        alloc,
        DNSClass::IN,
        RecordType::from(code),
        printed.as_str(),
        None,
    );
    Ok(
        !printed.as_str().starts_with("\\#")
            && matches!(again, Ok(found) if found.as_slice() == own),
    )
}

#[test]
fn octets_are_printed_and_parsed_at_any_size(rt: HostRuntime) -> Result<(), Fail> {
    let alloc = rt.alloc();
    let all = sizes(alloc)?;
    for len in all.as_slice() {
        let len = *len;
        let in_hexadecimal = repeated(alloc, b"\x03\x01\x01", b"x", len)?;
        assert!(rt; comes_back(alloc, 52, in_hexadecimal.as_slice())?);
        let in_base64 = repeated(alloc, b"\x01\x00\x03\x08", b"x", len)?;
        assert!(rt; comes_back(alloc, 48, in_base64.as_slice())?);
        let as_text = repeated(alloc, b"\x00\x01\x00\x02", b"x", len)?;
        assert!(rt; comes_back(alloc, 256, as_text.as_slice())?);
        let tagged = repeated(alloc, b"\x00\x05issue", b"x", len)?;
        assert!(rt; comes_back(alloc, 257, tagged.as_slice())?);
    }
    Ok(())
}

#[test]
fn lists_are_printed_and_parsed_at_any_size(rt: HostRuntime) -> Result<(), Fail> {
    let alloc = rt.alloc();
    let all = counts(alloc, &LIMITS)?;
    for count in all.as_slice() {
        let count = *count;
        let strings = repeated(alloc, b"", b"\x01x", count)?;
        assert!(rt; comes_back(alloc, 16, strings.as_slice())?);
        let protocols = with_param(alloc, 1, strings.as_slice())?;
        assert!(rt; comes_back(alloc, 64, protocols.as_slice())?);
        let addresses = repeated(alloc, b"", b"\xc0\x00\x02\x01", count)?;
        let hints = with_param(alloc, 4, addresses.as_slice())?;
        assert!(rt; comes_back(alloc, 64, hints.as_slice())?);
    }
    Ok(())
}

#[test]
fn values_are_printed_and_parsed_at_any_size(rt: HostRuntime) -> Result<(), Fail> {
    let alloc = rt.alloc();
    let all = sizes(alloc)?;
    for len in all.as_slice() {
        let len = *len;
        let value = octets(alloc, len)?;
        for key in [5u16, 65_280] {
            let own = with_param(alloc, key, value.as_slice())?;
            assert!(rt; comes_back(alloc, 64, own.as_slice())?);
        }
        let strings = repeated(alloc, b"", b"\x01x", len / 2)?;
        let texts = repeated(alloc, strings.as_slice(), b"\x7f", 1)?;
        let own = repeated(alloc, texts.as_slice(), b"x", 127)?;
        assert!(rt; 65_300 < len || comes_back(alloc, 16, own.as_slice())?);
    }
    Ok(())
}

#[test]
fn hashes_and_salts_have_up_to_255_octets(rt: HostRuntime) -> Result<(), Fail> {
    let alloc = rt.alloc();
    for number in 1usize..256 {
        let len = (number % 256) as u8;
        let salt = repeated(alloc, &[1, 0, 0, 1, len], b"s", usize::from(len))?;
        assert!(rt; comes_back(alloc, 51, salt.as_slice())?);
        let hash = repeated(alloc, salt.as_slice(), &[len], 1)?;
        let own = repeated(alloc, hash.as_slice(), b"h", usize::from(len))?;
        assert!(rt; comes_back(alloc, 50, own.as_slice())?);
    }
    Ok(())
}

#[test]
fn entries_of_zone_files_may_have_any_size(rt: HostRuntime) -> Result<(), Fail> {
    let alloc = rt.alloc();
    let all = sizes(alloc)?;
    for len in all.as_slice() {
        let len = *len;
        let comment = text(alloc, len)?;
        let entry = format!(in alloc; "a. 60 TXT (\n \"b\" ; {}\n c )\n", comment.as_str())?;
        let found = parse_entry(alloc, entry.as_bytes(), None);
        assert!(rt; matches!(found, Ok(own) if own.len() == 17));
        let words = " x".repeat(alloc, len / 2)?;
        let line = format!(in alloc; "a. 60 TXT x{}", words.as_str())?;
        let wanted = (len / 2).saturating_mul(2).saturating_add(15);
        let found = parse_entry(alloc, line.as_bytes(), None);
        assert!(rt; matches!(found, Ok(own) if own.len() == wanted));
        let mut scanned = Vec::new(alloc);
        assert!(rt; scan(line.as_bytes(), &mut scanned).is_ok());
        assert_eq!(rt; scanned.as_slice(), line.as_bytes());
        let mut context = Context::new(Name::from_ascii(alloc, "example.")?);
        assert!(rt; entry_of(alloc, &mut context, false, scanned.as_slice()).is_ok());
    }
    Ok(())
}

/// Returns a response with so many answers, which are NULL records of the root with so many octets of data.
fn response(alloc: Global, count: usize, len: usize) -> Result<Vec<u8>, Fail> {
    let own = octets(alloc, len)?;
    let record = record_octets(alloc, 10, own.as_slice())?;
    let answers = u16::try_from(count).map_err(|_| "a count")?;
    let mut head = Vec::new(alloc);
    head.extend_from_slice(b"\x00\x07\x84\x00\x00\x00")?;
    head.extend_from_slice(&answers.to_be_bytes())?;
    head.extend_from_slice(&[0; 4])?;
    repeated(alloc, head.as_slice(), record.as_slice(), count)
}

/// Returns whether such a response is written again as it is: whole, and record by record.
fn is_copied(alloc: Global, octets: &[u8]) -> Result<bool, Fail> {
    let message = MessageRef::read(octets)?;
    let mut room = Vec::new(alloc);
    room.resize(65_535, 0)?;
    let mut writer = WriterState::new();
    writer.copy(alloc, room.as_mut_slice(), &message, 65_535)?;
    let is_whole = writer.end == octets.len() && room.as_slice().starts_with(octets);
    writer.begin(room.as_mut_slice(), 7, 0x8400, 65_535)?;
    for record in message.answers() {
        writer.record_of(alloc, room.as_mut_slice(), Section::Answers, &record)?;
    }
    Ok(is_whole && writer.end == octets.len() && room.as_slice().starts_with(octets))
}

#[test]
fn a_message_of_many_records_is_copied(rt: HostRuntime) -> Result<(), Fail> {
    let alloc = rt.alloc();
    let all = counts(alloc, &LIMITS)?;
    for count in all.as_slice() {
        let count = *count;
        let bytes = response(alloc, count, 4)?;
        assert!(rt; is_copied(alloc, bytes.as_slice())?);
    }
    Ok(())
}

#[test]
fn a_message_of_any_size_is_copied(rt: HostRuntime) -> Result<(), Fail> {
    let alloc = rt.alloc();
    let all = sizes(alloc)?;
    for len in all.as_slice() {
        let len = *len;
        let bytes = response(alloc, 1, len)?;
        assert!(rt; is_copied(alloc, bytes.as_slice())?);
        let mut encoded = Vec::new(alloc);
        BinEncoder::new(&mut encoded).emit_vec(bytes.as_slice())?;
        assert_eq!(rt; encoded.len(), bytes.len());
    }
    Ok(())
}
