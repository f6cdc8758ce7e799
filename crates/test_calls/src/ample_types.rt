//! Calls that may report out of memory, with ample memory, for each type that has fields of its own. No contract refuses a body
//! that reports out of memory for one of them, so these tests have to. What is written is worked out by hand from RFC 1035,
//! sections 3.2.1 and 4.1, and RFC 4034, sections 3.1.8.1 and 6: the names of all data are in lower case.

use crate::ample::record_octets;
use crate::data_texts::ROWS;
use crate::given_fields::made_again;
use dns_names_wire::binary::{BinDecodable, BinEncodable};
use dns_names_wire::canonical::{canonical_octets, record_key, record_set, signed_octets};
use dns_names_wire::data_text::{
    Generic, data_text, parse, parse_entry, parse_record, record_text,
};
use dns_names_wire::dns_class::DNSClass;
use dns_names_wire::dnssec::{ds_digest, zone_digest};
use dns_names_wire::field_text::parse_hexadecimal;
use dns_names_wire::message::MessageRef;
use dns_names_wire::message_writer::{Section, WriterState};
use dns_names_wire::name::Name;
use dns_names_wire::rdata::{RData, Record};
use dns_names_wire::record::{RecordRef, WireData, WireRecord};
use dns_names_wire::record_type::RecordType;
use dns_names_wire::zone::{
    Check, Context, Entry, append_record, append_short_record, check_zone, entry_of, read_records,
    scan,
};
use std::alloc::Global;
use std::test::Fail;

/// Type codes and data of the types that have no row in `data_texts`.
const OTHERS: &[(u16, &str)] = &[
    (3, "0161076578616D706C6500"),
    (4, "0162076578616D706C6500"),
    (7, "016D00"),
    (8, "01670767726F75702D6700"),
    (9, "016D016200"),
    (10, "0001FF"),
    (11, "0A0000010600000040"),
    (14, "0172000165016500"),
    (19, "0C333131303631373030393536"),
    (20, "03616263"),
    (21, "0002017200"),
    (23, "016100"),
    (24, "00010503000151803E7C9DD73E5510D70A52016500A09075"),
    (25, "010003050103D22A6CA7"),
    (26, "0032016100016200"),
    (27, "082D33322E36383832083131362E383635320431302E30"),
    (30, "016D00400100000002"),
    (38, "0020010DB8000000000000000000000001"),
    (45, "0A0102C0000226010351537986ED"),
    (49, "000201636FC0B8"),
    (55, "01020001000003727673076578616D706C6500"),
    (56, "0161"),
    (57, "00000301AABB"),
    (58, "016100016200"),
    (65, "000003666F6F076578616D706C6500"),
    (66, "003B0114EB016100"),
    (67, "AABB"),
    (68, "CCDD"),
    (105, "000AC0000201"),
    (106, "000A20010DB811401000"),
    (107, "000A016100"),
    (249, "0161005F0F90435F10E1C3000300000002AABB0000"),
    (258, "0161"),
    (259, "0000000100000002030474657874AABB"),
    (260, "0A81CB00710F"),
    (261, "0161"),
    (262, "0161"),
    (263, "0161"),
    (264, "0000000000000007"),
    (32768, "EC450501AABB"),
    (32769, "EC450501AABB"),
    (65280, "00"),
];

/// A record of the root in IN with a time to live of 60.
#[derive(Drop)]
struct Sample {
    code: u16,
    data: Vec<u8>,
    octets: Vec<u8>,
}

/// Returns the record with this code and data.
fn sample(alloc: Global, code: u16, digits: &str) -> Result<Sample, Fail> {
    let mut data = Vec::new(alloc);
    parse_hexadecimal(digits, &mut data)?;
    let octets = record_octets(alloc, code, data.as_slice())?;
    Ok(Sample { code, data, octets })
}

/// Returns a record of each type.
fn samples(alloc: Global) -> Result<Vec<Sample>, Fail> {
    let mut all = Vec::new(alloc);
    for (code, digits, _) in ROWS {
        all.push(sample(alloc, *code, digits)?)?;
    }
    for (code, digits) in OTHERS {
        all.push(sample(alloc, *code, digits)?)?;
    }
    Ok(all)
}

/// Returns the record as its own, for calls that take such.
fn owned(alloc: Global, octets: &[u8]) -> Result<Record, Fail> {
    let item = RecordRef::from_bytes(alloc, octets)?;
    match Record::from_ref(alloc, &item) {
        Ok(record) => Ok(record),
        Err(_) => Err(Fail::from("a record")),
    }
}

#[test]
fn data_of_each_type_are_made_and_copied(rt: HostRuntime) -> Result<(), Fail> {
    let alloc = rt.alloc();
    let all = samples(alloc)?;
    for it in &all {
        let wanted = it.data.as_slice();
        let item = RecordRef::from_bytes(alloc, it.octets.as_slice())?;
        let data = RData::new(alloc, DNSClass::IN, RecordType::from(it.code), wanted)?;
        assert!(rt; data.octets() == wanted);
        assert!(rt; RData::from_ref(alloc, &item)?.octets() == wanted);
        assert!(rt; made_again(alloc, &data)?.octets() == wanted);
        assert!(rt; canonical_octets(alloc, &data)?.as_slice() == wanted);
        let mut out = Vec::new(alloc);
        for field in data.fields() {
            let Ok(field) = field else {
                return Err(Fail::from("a field"));
            };
            assert!(rt; field.append_to(&mut out)?);
        }
        assert!(rt; out.as_slice() == wanted);
    }
    Ok(())
}

#[test]
fn records_of_each_type_are_owned_and_written(rt: HostRuntime) -> Result<(), Fail> {
    let alloc = rt.alloc();
    let all = samples(alloc)?;
    for it in &all {
        let own = owned(alloc, it.octets.as_slice())?;
        assert!(rt; own.data.octets() == it.data.as_slice());
        if let Some(wire) = WireRecord::from_record(alloc, &own)? {
            let back = wire.to_record(alloc)?;
            assert!(rt; back.data.octets() == it.data.as_slice());
        }
        let wire = WireRecord {
            owner: Name::root(alloc),
            record_type: RecordType::from(it.code),
            class: DNSClass::IN,
            ttl: 60,
            rdata: WireData::Bytes(Vec::from_slice(alloc, it.data.as_slice())?),
        };
        let back = wire.to_record(alloc)?;
        assert!(rt; back.data.octets() == it.data.as_slice());
    }
    Ok(())
}

#[test]
fn records_of_each_type_have_sort_keys(rt: HostRuntime) -> Result<(), Fail> {
    let alloc = rt.alloc();
    let all = samples(alloc)?;
    for it in &all {
        let item = RecordRef::from_bytes(alloc, it.octets.as_slice())?;
        let key = record_key(alloc, &item)?;
        assert_eq!(rt; key.len(), it.data.len().saturating_add(5));
        assert!(rt; key.as_slice().ends_with(it.data.as_slice()));
    }
    Ok(())
}

/// The RRSIG is not one of the records of its section.
#[test]
fn records_of_each_type_are_signed(rt: HostRuntime) -> Result<(), Fail> {
    let alloc = rt.alloc();
    let all = samples(alloc)?;
    for it in &all {
        let records = [owned(alloc, it.octets.as_slice())?];
        let set = record_set(alloc, records.as_slice(), 0, 60)?;
        assert!(rt; set.as_slice() == it.octets.as_slice());
        let mut signature = Vec::new(alloc);
        signature.extend_from_slice(&it.code.to_be_bytes())?;
        signature.extend_from_slice(
            b"\x08\x00\x00\x00\x00\x3c\x00\x00\x00\x02\x00\x00\x00\x01\x00\x07\x00",
        )?;
        let bytes = record_octets(alloc, 46, signature.as_slice())?;
        let rrsig = RecordRef::from_bytes(alloc, bytes.as_slice())?;
        let items = [RecordRef::from_bytes(alloc, it.octets.as_slice())?];
        let mut out = Vec::new(alloc);
        signed_octets(alloc, &rrsig, &items, &mut out)?;
        signature.extend_from_slice(it.octets.as_slice())?;
        assert!(rt; out.as_slice() == signature.as_slice());
    }
    Ok(())
}

/// A digest of the zone is left out of what is hashed. What is hashed begins with the octet of the root, as for a DS record.
#[test]
fn zones_have_records_of_each_type(rt: HostRuntime) -> Result<(), Fail> {
    let alloc = rt.alloc();
    let root = Name::root(alloc);
    let all = samples(alloc)?;
    for it in &all {
        let records = [owned(alloc, it.octets.as_slice())?];
        let digest = zone_digest(alloc, &root, records.as_slice(), 1)?;
        let rest = it.octets.as_slice().get(1..).unwrap_or_default();
        let wanted = ds_digest(&root, rest, 4)?;
        assert!(rt; (digest.as_slice() == wanted.as_slice()) == (it.code != 63));
        let items = [RecordRef::from_bytes(alloc, it.octets.as_slice())?];
        let found = check_zone(alloc, &root, items.as_slice())?;
        let mut lacks_soa = false;
        let mut lacks_servers = false;
        for finding in found.as_slice() {
            lacks_soa = lacks_soa || finding.check == Check::NoSoa;
            lacks_servers = lacks_servers || finding.check == Check::NoNs;
        }
        assert!(rt; lacks_soa == (it.code != 6) && lacks_servers == (it.code != 2));
    }
    Ok(())
}

#[test]
fn texts_of_each_type_are_printed_and_parsed(rt: HostRuntime) -> Result<(), Fail> {
    let alloc = rt.alloc();
    let all = samples(alloc)?;
    for it in &all {
        let kind = RecordType::from(it.code);
        let item = RecordRef::from_bytes(alloc, it.octets.as_slice())?;
        let printed = data_text(alloc, &item)?;
        let parsed = parse(alloc, DNSClass::IN, kind, printed.as_str(), None)?;
        assert!(rt; parsed.as_slice() == it.data.as_slice());
        let generic = format!(in alloc; "{}", Generic(it.data.as_slice()))?;
        let parsed = parse(alloc, DNSClass::IN, kind, generic.as_str(), None)?;
        assert!(rt; parsed.as_slice() == it.data.as_slice());
        let line = record_text(alloc, &item)?;
        assert!(rt; line.as_str().starts_with(". 60 IN "));
        assert!(rt; line.as_str().ends_with(printed.as_str()));
        let parsed = parse_record(alloc, line.as_str(), None)?;
        assert!(rt; parsed.as_slice() == it.octets.as_slice());
        let parsed = parse_entry(alloc, line.as_bytes(), None)?;
        assert!(rt; parsed.as_slice() == it.octets.as_slice());
    }
    Ok(())
}

#[test]
fn zone_files_have_records_of_each_type(rt: HostRuntime) -> Result<(), Fail> {
    let alloc = rt.alloc();
    let all = samples(alloc)?;
    for it in &all {
        // Those of questions and of messages are no types of a zone (RFC 6895, section 3.1).
        if matches!(it.code, 41 | 128..=255) {
            continue;
        }
        let item = RecordRef::from_bytes(alloc, it.octets.as_slice())?;
        let mut line = Vec::new(alloc);
        line.extend_from_slice(record_text(alloc, &item)?.as_bytes())?;
        line.push(b'\n')?;
        let mut written = Vec::new(alloc);
        append_record(alloc, &item, &mut written)?;
        assert!(rt; written.as_slice() == line.as_slice());
        let mut short = Vec::new(alloc);
        let mut context = Context::new(Name::from_ascii(alloc, "a.")?);
        append_short_record(alloc, &mut context, &item, &mut short)?;
        assert!(rt; short.as_slice() == line.as_slice());
        let read = read_records(alloc, Name::root(alloc), written.as_slice())?;
        assert_eq!(rt; read.len(), 1);
        for found in &read {
            assert!(rt; found.body.wire.as_slice() == it.data.as_slice());
        }
        let mut scanned = Vec::new(alloc);
        scan(line.as_slice(), &mut scanned)?;
        let mut context = Context::new(Name::root(alloc));
        let entry = entry_of(alloc, &mut context, false, scanned.as_slice())?;
        assert!(rt;
            matches!(entry, Entry::Record(found) if found.wire.as_slice() == it.data.as_slice())
        );
    }
    Ok(())
}

/// Returns whether the first answer of a message has these data.
fn has_answer(alloc: Global, message: &[u8], wanted: &[u8]) -> Result<bool, Fail> {
    let message = MessageRef::read(message)?;
    let mut is_same = false;
    for record in message.answers() {
        is_same = RData::from_ref(alloc, &record)?.octets() == wanted;
    }
    Ok(is_same)
}

#[test]
fn messages_have_records_of_each_type(rt: HostRuntime) -> Result<(), Fail> {
    let alloc = rt.alloc();
    let all = samples(alloc)?;
    for it in &all {
        let mut bytes = Vec::new(alloc);
        bytes.extend_from_slice(b"\x00\x07\x84\x00\x00\x00\x00\x01\x00\x00\x00\x00")?;
        bytes.extend_from_slice(it.octets.as_slice())?;
        let message = MessageRef::read(bytes.as_slice())?;
        let mut room = [0; 600];
        let mut writer = WriterState::new();
        writer.copy(alloc, &mut room, &message, 600)?;
        let end = writer.end;
        let written = room.get(..end).unwrap_or_default();
        assert!(rt; has_answer(alloc, written, it.data.as_slice())?);
        writer.begin(&mut room, 7, 0x8400, 600)?;
        let item = RecordRef::from_bytes(alloc, it.octets.as_slice())?;
        writer.record_of(alloc, &mut room, Section::Answers, &item)?;
        let end = writer.end;
        let written = room.get(..end).unwrap_or_default();
        assert!(rt; has_answer(alloc, written, it.data.as_slice())?);
    }
    Ok(())
}
