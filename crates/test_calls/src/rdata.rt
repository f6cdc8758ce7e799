//! Data of any type, as they are read from messages.

use dns_names_wire::data_text::{parse_record, record_text};
use dns_names_wire::decoder::BinDecoder;
use dns_names_wire::dns_class::DNSClass;
use dns_names_wire::fields::Field;
use dns_names_wire::name::Name;
use dns_names_wire::rdata::{RData, RDataError, Record};
use dns_names_wire::record::RecordRef;
use dns_names_wire::record_type::RecordType;
use std::test::Fail;

#[test]
fn data_of_a_message_are_copied_whole(rt: HostRuntime) -> Result<(), Fail> {
    let alloc = rt.alloc();
    let message = b"\x01a\x00\xc0\x00\x00\x0f\x00\x01\x00\x00\x01\x2c\x00\x06\x00\x0a\x01B\xc0\x00";
    let mut decoder = BinDecoder::new(message.as_slice());
    decoder.skip(3)?;
    let found = RecordRef::read_next(&mut decoder)?;
    let Ok(data) = RData::from_ref(alloc, &found) else {
        return Err(Fail::from("data of the type"));
    };
    assert!(rt; data.record_type() == RecordType::MX);
    assert!(rt; data.octets() == b"\x00\x0a\x01B\x01a\x00".as_slice());
    let mut fields = data.fields();
    assert!(rt; matches!(fields.next(), Some(Ok(Field::U16(10)))));
    assert!(rt; matches!(fields.next(), Some(Ok(Field::Name(_)))));
    assert!(rt; fields.next().is_none());
    Ok(())
}

#[test]
fn a_record_of_a_message_is_copied_whole(rt: HostRuntime) -> Result<(), Fail> {
    let alloc = rt.alloc();
    let message = b"\x01a\x00\xc0\x00\x00\x0f\x00\x01\x00\x00\x01\x2c\x00\x06\x00\x0a\x01B\xc0\x00";
    let mut decoder = BinDecoder::new(message.as_slice());
    decoder.skip(3)?;
    let found = RecordRef::read_next(&mut decoder)?;
    let Ok(record) = Record::from_ref(alloc, &found) else {
        return Err(Fail::from("data of the type"));
    };
    assert!(rt; record.name == Name::from_ascii(alloc, "a.")?);
    assert!(rt; record.dns_class() == DNSClass::IN);
    assert_eq!(rt; record.ttl, 300);
    assert!(rt; record.data.octets() == b"\x00\x0a\x01B\x01a\x00".as_slice());
    Ok(())
}

#[test]
fn octets_that_are_no_data_are_refused(rt: HostRuntime) -> Result<(), Fail> {
    let alloc = rt.alloc();
    let Err(RDataError::Field(error)) = RData::new(
        alloc,
        DNSClass::IN,
        RecordType::A,
        b"\x01\x02\x03\x04\x05",
    ) else {
        return Err(Fail::from("an octet too many"));
    };
    assert_eq!(rt; error.field, 1);
    Ok(())
}

#[test]
fn a_record_with_an_octet_too_many_is_not_copied(rt: HostRuntime) -> Result<(), Fail> {
    let message = b"\x01a\x00\xc0\x00\x00\x01\x00\x01\x00\x00\x01\x2c\x00\x05\x7f\x00\x00\x01\x00";
    let mut decoder = BinDecoder::new(message.as_slice());
    decoder.skip(3)?;
    let item = RecordRef::read_next(&mut decoder)?;
    let Err(RDataError::Field(error)) = Record::from_ref(rt.alloc(), &item) else {
        return Err(Fail::from("an octet too many"));
    };
    assert_eq!(rt; error.field, 1);
    Ok(())
}

#[test]
fn data_have_the_form_of_their_class(rt: HostRuntime) -> Result<(), Fail> {
    let alloc = rt.alloc();
    // RFC 1035, section 3.6: a domain and an address of Chaosnet.
    let Ok(chaos) = RData::new(alloc, DNSClass::CH, RecordType::A, b"\x01a\x00\x00\x01") else {
        return Err(Fail::from("data of CH"));
    };
    assert!(rt; chaos.class() == DNSClass::CH);
    let mut fields = chaos.fields();
    assert!(rt; matches!(fields.next(), Some(Ok(Field::Name(_)))));
    assert!(rt; matches!(fields.next(), Some(Ok(Field::U16(1)))));
    assert!(rt; fields.next().is_none());
    assert!(rt; RData::new(alloc, DNSClass::CH, RecordType::A, b"\xc0\x00\x02\x01").is_err());
    // Only IN has AAAA, and any class has TXT.
    assert!(rt; RData::new(alloc, DNSClass::HS, RecordType::AAAA, b"\x01").is_ok());
    assert!(rt; RData::new(alloc, DNSClass::HS, RecordType::TXT, b"\x02a").is_err());
    Ok(())
}

#[test]
fn data_are_left_out_in_updates(rt: HostRuntime) -> Result<(), Fail> {
    let alloc = rt.alloc();
    // RFC 2136, sections 2.4 and 2.5.
    for record_type in [RecordType::A, RecordType::MX, RecordType::from(19)] {
        for class in [DNSClass::ANY, DNSClass::NONE] {
            let Ok(data) = RData::new(alloc, class, record_type, b"") else {
                return Err(Fail::from("no data"));
            };
            assert!(rt; data.octets().is_empty());
            assert!(rt; data.fields().next().is_none());
            assert!(rt; RData::from_fields(alloc, class, record_type, &[]).is_ok());
        }
        assert!(rt; RData::new(alloc, DNSClass::IN, record_type, b"").is_err());
    }
    // Under NONE there are data as in IN too.
    assert!(rt; RData::new(alloc, DNSClass::NONE, RecordType::A, b"\xc0\x00\x02\x01").is_ok());
    assert!(rt; RData::new(alloc, DNSClass::NONE, RecordType::A, b"\xc0").is_err());
    Ok(())
}

/// `x.b. ANY A` with no data, in an update (RFC 2136, section 2.5.2).
const NO_DATA: &[u8] = b"\x01x\x01b\x00\x00\x01\x00\xff\x00\x00\x00\x00\x00\x00";

#[test]
fn a_record_without_data_is_copied_and_printed(rt: HostRuntime) -> Result<(), Fail> {
    let alloc = rt.alloc();
    let found = RecordRef::read_next(&mut BinDecoder::new(NO_DATA))?;
    assert_eq!(rt; record_text(alloc, &found)?.as_str(), "x.b. 0 ANY A");
    assert!(rt; parse_record(alloc, "x.b. 0 ANY A", None)?.as_slice() == NO_DATA);
    assert!(rt; parse_record(alloc, "x.b. 0 ANY A \\# 0", None)?.as_slice() == NO_DATA);
    assert!(rt; parse_record(alloc, "x.b. 0 IN A", None).is_err());
    let Ok(record) = Record::from_ref(alloc, &found) else {
        return Err(Fail::from("a record"));
    };
    assert!(rt; record.data.octets().is_empty());
    Ok(())
}
