//! The texts of the data of records. The octets and the texts are dnspython's (`rdata.to_wire()`, `rdata.to_text()`), but for
//! digits in upper case, base 64 in one word, a port without quotes (RFC 9460, appendix D.2), and types that have no text of
//! their own here, which are in the form of RFC 3597, section 5.

use dns_names_wire::data_text::{
    DataTextError, Generic, RecordLineError, Wanted, data_text, parse, parse_record, record_text,
};
use dns_names_wire::decoder::BinDecoder;
use dns_names_wire::dns_class::DNSClass;
use dns_names_wire::field_text::parse_hexadecimal;
use dns_names_wire::name::Name;
use dns_names_wire::record::RecordRef;
use dns_names_wire::record_type::RecordType;
use std::alloc::Global;
use std::test::Fail;

/// Type codes, data and their texts.
pub(crate) const ROWS: &[(u16, &str, &str)] = &[
    (1, "C0000201", "192.0.2.1"),
    (2, "036E7331076578616D706C6503636F6D00", "ns1.example.com."),
    (5, "0161076578616D706C6500", "a.example."),
    (
        6,
        "026E73076578616D706C65000561646D696E076578616D706C650078A3F17500001C2000000E10001275000000012C",
        "ns.example. admin.example. 2024010101 7200 3600 1209600 300",
    ),
    (12, "04686F7374076578616D706C6500", "host.example."),
    (13, "025043074C696E75782035", "\"PC\" \"Linux 5\""),
    (
        15,
        "000A046D61696C076578616D706C6503636F6D00",
        "10 mail.example.com.",
    ),
    (
        16,
        "0B763D73706631202D616C6C056122625C6302C878",
        "\"v=spf1 -all\" \"a\\\"b\\\\c\" \"\\200x\"",
    ),
    (
        17,
        "046D626F78076578616D706C650003747874076578616D706C6500",
        "mbox.example. txt.example.",
    ),
    (18, "000103616673076578616D706C6500", "1 afs.example."),
    (36, "000A026B78076578616D706C6500", "10 kx.example."),
    (28, "20010DB8000000000000000000000001", "2001:db8::1"),
    (
        33,
        "0000000513C403736970076578616D706C6503636F6D00",
        "0 5 5060 sip.example.com.",
    ),
    (
        35,
        "0064000A0175074532552B7369701B215E2E2A24217369703A696E666F406578616D706C652E636F6D2100",
        "100 10 \"u\" \"E2U+sip\" \"!^.*$!sip:info@example.com!\" .",
    ),
    (39, "0164076578616D706C6500", "d.example."),
    (
        43,
        "EC4505012BB183AF5F22588179A53B0A98631FAD1A292118",
        "60485 5 1 2BB183AF5F22588179A53B0A98631FAD1A292118",
    ),
    (
        44,
        "0201123456789ABCDEF67890123456789ABCDEF67890",
        "2 1 123456789ABCDEF67890123456789ABCDEF67890",
    ),
    (
        48,
        "010003050103D22A6CA77F35B893206FD35E4C506D8378843709B97E041647E1BFF43D8D64C649AF1E371973C9E8",
        "256 3 5 AQPSKmynfzW4kyBv015MUG2DeIQ3Cbl+BBZH4b/0PY1kxkmvHjcZc8no",
    ),
    (
        46,
        "00010503000151803E7C9DD73E5510D70A52076578616D706C6503636F6D00A090755BA58D1AFFA576F4375831B4310920E481218D18A9F164EB",
        "A 5 3 86400 20030322173103 20030220173103 2642 example.com. oJB1W6WNGv+ldvQ3WDG0MQkg5IEhjRip8WTr",
    ),
    (52, "0301010123456789ABCDEF", "3 1 1 0123456789ABCDEF"),
    (53, "0301010123456789ABCDEF", "3 1 1 0123456789ABCDEF"),
    (
        59,
        "EC4505012BB183AF5F22588179A53B0A98631FAD1A292118",
        "60485 5 1 2BB183AF5F22588179A53B0A98631FAD1A292118",
    ),
    (
        60,
        "010003050103D22A6CA77F35B893206FD35E4C506D83",
        "256 3 5 AQPSKmynfzW4kyBv015MUG2D",
    ),
    (
        61,
        "0103D22A6CA77F35B893206FD35E4C506D83",
        "AQPSKmynfzW4kyBv015MUG2D",
    ),
    (
        63,
        "7848B91C0101C68090D90A7AED716BC459F9340E3D7C1370D4D24B7E2FC3A1DDC0B9A87153B9A9713B3C9AE5CC27777F98B8E730044C",
        "2018031900 1 1 C68090D90A7AED716BC459F9340E3D7C1370D4D24B7E2FC3A1DDC0B9A87153B9A9713B3C9AE5CC27777F98B8E730044C",
    ),
    (99, "0B763D73706631202D616C6C", "\"v=spf1 -all\""),
    (
        257,
        "000569737375656C657473656E63727970742E6F7267",
        "0 issue \"letsencrypt.org\"",
    ),
    (257, "8003746273556E6B6E6F776E", "128 tbs \"Unknown\""),
    (
        256,
        "000A00016674703A2F2F667470312E6578616D706C652E636F6D2F7075626C6963",
        "10 1 \"ftp://ftp1.example.com/public\"",
    ),
    (51, "0100000C04AABBCCDD", "1 0 12 AABBCCDD"),
    (51, "0100000000", "1 0 0 -"),
    (37, "00010002030103D22A6CA77F35B8", "1 2 3 AQPSKmynfzW4"),
    (
        2,
        "06612E622063C8076578616D706C6500",
        "a\\.b\\032c\\200.example.",
    ),
    (
        47,
        "04686F7374076578616D706C6503636F6D000006400100000003041B000000000000000000000000000000000000000000000000000020",
        "host.example.com. A MX RRSIG NSEC TYPE1234",
    ),
    (
        50,
        "0101000C04AABBCCDD14174EB2409FE28BCB4887A1836F957F0A8425E27B000722010000000290",
        "1 1 12 AABBCCDD 2T7B4G4VSA5SMI47K61MV5BV1A22BOJR NS SOA MX RRSIG DNSKEY NSEC3PARAM",
    ),
    (
        50,
        "01000000001417F3DF17B2B2ADAEF615257DE4D2020B80AC6C7C",
        "1 0 0 - 2VPTU5TIMAMQTTGL4LUU9KG21E0AOR3S",
    ),
    (62, "000000420003000460000008", "66 3 A NS AAAA"),
    (108, "00005E00532A", "00-00-5e-00-53-2a"),
    (109, "00005EEF1000002A", "00-00-5e-ef-10-00-00-2a"),
    (
        64,
        "000103666F6F076578616D706C6503636F6D00000300020035",
        "1 foo.example.com. port=53",
    ),
    (
        29,
        "002325238CE82360854A10A000989A68",
        "60 9 0.000 N 24 39 0.000 E 10.00m 20m 2000m 20m",
    ),
    (
        42,
        "00011503C0A82000011C83C0A826",
        "1:192.168.32.0/21 !1:192.168.38.0/28",
    ),
    (104, "000A00144FFFFF20EE64", "10 0014:4fff:ff20:ee64"),
    (22, "47000580005A00", "0x47000580005a00"),
];

/// Returns the octets of a record with the root as its owner, and these data.
fn record_octets(alloc: Global, code: u16, data: &[u8]) -> Result<Vec<u8>, Fail> {
    let mut octets = Vec::from_slice(alloc, &[0])?;
    octets.extend_from_slice(&code.to_be_bytes())?;
    octets.extend_from_slice(&[0, 1, 0, 0, 1, 44])?;
    let len = u16::try_from(data.len()).map_err(|_| "data of a record")?;
    octets.extend_from_slice(&len.to_be_bytes())?;
    octets.extend_from_slice(data)?;
    Ok(octets)
}

#[test]
fn data_have_the_texts_of_dnspython(rt: HostRuntime) -> Result<(), Fail> {
    let alloc = rt.alloc();
    for (code, digits, text) in ROWS {
        let mut data = Vec::new(alloc);
        parse_hexadecimal(digits, &mut data)?;
        let octets = record_octets(alloc, *code, data.as_slice())?;
        let record = RecordRef::read_next(&mut BinDecoder::new(octets.as_slice()))?;
        assert_eq!(rt; data_text(alloc, &record)?.as_str(), *text);
        let parsed = parse(alloc, DNSClass::IN, RecordType::from(*code), text, None)?;
        assert_eq!(rt; parsed.as_slice(), data.as_slice());
        let generic = format!(in alloc; "{}", Generic(data.as_slice()))?;
        let parsed = parse(
            alloc,
            DNSClass::IN,
            RecordType::from(*code),
            generic.as_str(),
            None,
        )?;
        assert_eq!(rt; parsed.as_slice(), data.as_slice());
    }
    Ok(())
}

/// RFC 3597, section 5, has the first two texts.
#[test]
fn any_data_are_parsed_as_octets(rt: HostRuntime) -> Result<(), Fail> {
    let alloc = rt.alloc();
    let unknown = RecordType::from(731);
    let parsed = parse(alloc, DNSClass::IN, unknown, "\\# 6 abcd ef 01 23 45", None)?;
    assert_eq!(rt; parsed.as_slice(), b"\xab\xcd\xef\x01\x23\x45".as_slice());
    let parsed = parse(alloc, DNSClass::IN, RecordType::A, "\\# 4 0A000001", None)?;
    assert_eq!(rt; parsed.as_slice(), b"\x0a\x00\x00\x01".as_slice());
    assert_eq!(rt;
        parse(alloc, DNSClass::IN, unknown, "\\# 0", None)?.len(),
        0
    );
    Ok(())
}

#[test]
fn names_are_completed_by_the_origin(rt: HostRuntime) -> Result<(), Fail> {
    let alloc = rt.alloc();
    let origin = Name::from_ascii(alloc, "example.")?;
    let parsed = parse(
        alloc,
        DNSClass::IN,
        RecordType::MX,
        "10 mail",
        Some(&origin),
    )?;
    assert_eq!(rt;
        parsed.as_slice(),
        b"\x00\x0a\x04mail\x07example\x00".as_slice()
    );
    let parsed = parse(alloc, DNSClass::IN, RecordType::MX, "10 @", Some(&origin))?;
    assert_eq!(rt; parsed.as_slice(), b"\x00\x0a\x07example\x00".as_slice());
    Ok(())
}

#[test]
fn a_wrong_text_has_its_field_and_offset(rt: HostRuntime) {
    for (record_type, text, (at_field, at_offset, what)) in [
        (RecordType::MX, "10  mail", (1, 4, Wanted::Name)),
        (RecordType::A, "192.0.2.1 x", (1, 10, Wanted::End)),
        (RecordType::A, "\\# 5 0A000001", (1, 5, Wanted::Octets(5))),
        (RecordType::NULL, "0A", (0, 0, Wanted::Generic)),
    ] {
        let outcome = parse(rt.alloc(), DNSClass::IN, record_type, text, None);
        assert!(rt;
            matches!(
                outcome,
                Err(DataTextError::Wanted {
                    field,
                    offset,
                    wanted
                }) if (field, offset, wanted) == (at_field, at_offset, what)
            )
        );
    }
}

/// RFC 1035, section 5.1, lets a time to live and a class stand in either order.
#[test]
fn a_line_is_parsed_as_a_record(rt: HostRuntime) -> Result<(), Fail> {
    let alloc = rt.alloc();
    let origin = Name::from_ascii(alloc, "example.")?;
    let wanted = b"\x01a\x07example\x00\x00\x01\x00\xfe\x00\x00\x0e\x10\x00\x04\xc0\x00\x02\x01";
    for line in &["a 3600 NONE A 192.0.2.1", "a.example. NONE 1h A 192.0.2.1"] {
        let octets = parse_record(alloc, line, Some(&origin))?;
        assert_eq!(rt; octets.as_slice(), wanted.as_slice());
    }
    Ok(())
}

#[test]
fn a_line_that_is_no_record_has_its_fault(rt: HostRuntime) {
    let alloc = rt.alloc();
    assert!(rt;
        matches!(
            parse_record(alloc, " 300 IN A 192.0.2.1", None),
            Err(RecordLineError::NoOwner)
        )
    );
    assert!(rt;
        matches!(
            parse_record(alloc, ". IN A 192.0.2.1", None),
            Err(RecordLineError::NoTimeToLive { offset: 2 })
        )
    );
    assert!(rt;
        matches!(
            parse_record(alloc, ". 300 IN B 192.0.2.1", None),
            Err(RecordLineError::NoType { offset: 9 })
        )
    );
    assert!(rt;
        matches!(
            parse_record(alloc, ". 300 A 192.0.2.1 x", None),
            Err(RecordLineError::Data(DataTextError::Wanted {
                field: 1,
                offset: 18,
                wanted: Wanted::End,
            }))
        )
    );
}

/// Data have at most 65535 octets (RFC 1035, section 3.2.1): here 255 strings of 255 octets, and one of 254.
#[test]
fn a_line_has_at_most_65535_octets_of_data(rt: HostRuntime) -> Result<(), Fail> {
    let alloc = rt.alloc();
    let mut line = String::new(alloc);
    line.push_str(". 0 TXT")?;
    for string in 0..256 {
        line.push(' ')?;
        for _ in 0..if string < 255 { 255 } else { 254 } {
            line.push('x')?;
        }
    }
    assert_eq!(rt;
        parse_record(alloc, line.as_str(), None)?.len(),
        1 + 10 + 65535
    );
    line.push('x')?;
    assert!(rt;
        matches!(
            parse_record(alloc, line.as_str(), None),
            Err(RecordLineError::Data(DataTextError::Wanted {
                field: 0,
                offset: 8,
                wanted: Wanted::FewerOctets,
            }))
        )
    );
    Ok(())
}

/// The data of the record point to its owner, and are printed as the whole name.
#[test]
fn a_record_is_one_line(rt: HostRuntime) -> Result<(), Fail> {
    let alloc = rt.alloc();
    let octets = b"\x01a\x00\x00\x0f\x00\x01\x00\x00\x01\x2c\x00\x04\x00\x0a\xc0\x00";
    let record = RecordRef::read_next(&mut BinDecoder::new(octets.as_slice()))?;
    assert_eq!(rt; record_text(alloc, &record)?.as_str(), "a. 300 IN MX 10 a.");
    let octets = b"\x00\xff\x00\x00\x01\x00\x00\x01\x2c\x00\x01\x07";
    let record = RecordRef::read_next(&mut BinDecoder::new(octets.as_slice()))?;
    assert_eq!(rt;
        record_text(alloc, &record)?.as_str(),
        ". 300 IN TYPE65280 \\# 1 07"
    );
    Ok(())
}

/// RFC 8659, section 4.1.1, and RFC 7553, section 4.4: a value or a target has no length octet.
#[test]
fn values_may_be_longer_than_a_string(rt: HostRuntime) -> Result<(), Fail> {
    let alloc = rt.alloc();
    let long = "v".repeat(alloc, 300)?;
    let text = format!(in alloc; "0 issue \"{long}\"")?;
    let parsed = parse(alloc, DNSClass::IN, RecordType::CAA, text.as_str(), None)?;
    assert_eq!(rt; parsed.len(), 307);
    let text = format!(in alloc; "10 1 \"{long}\"")?;
    assert_eq!(rt;
        parse(
            alloc,
            DNSClass::IN,
            RecordType::from(256),
            text.as_str(),
            None
        )?
        .len(),
        304
    );
    let text = format!(in alloc; "\"{long}\"")?;
    assert!(rt; parse(alloc, DNSClass::IN, RecordType::TXT, text.as_str(), None).is_err());
    Ok(())
}

/// The types of a bitmap may be in any order, and more than once; BIND and dnspython take them so. A bitmap that could be
/// shorter has no text of its own (RFC 4034, section 4.1.2), so that its octets round-trip.
#[test]
fn types_are_parsed_in_any_order(rt: HostRuntime) -> Result<(), Fail> {
    let alloc = rt.alloc();
    let parsed = parse(
        alloc,
        DNSClass::IN,
        RecordType::NSEC,
        ". RRSIG a NSEC MX TYPE1 A",
        None,
    )?;
    assert_eq!(rt;
        parsed.as_slice(),
        b"\x00\x00\x06\x40\x01\x00\x00\x00\x03".as_slice()
    );
    let parsed = parse(alloc, DNSClass::IN, RecordType::NSEC, ".", None)?;
    assert_eq!(rt; parsed.as_slice(), b"\x00".as_slice());
    assert!(rt; parse(alloc, DNSClass::IN, RecordType::NSEC, ". A NOTYPE", None).is_err());
    let octets = record_octets(alloc, 47, b"\x00\x00\x02\x40\x00")?;
    let record = RecordRef::read_next(&mut BinDecoder::new(octets.as_slice()))?;
    assert_eq!(rt; data_text(alloc, &record)?.as_str(), "\\# 5 0000024000");
    Ok(())
}

#[test]
fn texts_of_other_forms_are_rejected(rt: HostRuntime) {
    let alloc = rt.alloc();
    for (code, text) in &[
        (257, "0 \"issue\" \"ca.example\""),
        (257, "0 is-sue \"ca.example\""),
        (108, "00-00-5e-00-53"),
        (108, "00:00:5e:00:53:2a"),
        (108, "00-00-5e-00-53-2a-"),
        (109, "00-00-5e-00-53-2a"),
        (50, "1 0 0 - - A"),
        (50, "1 0 0 - 2vptu5timamqttgl4luu9kg21e0aor3w A"),
        (50, "1 0 0 - 2vp A"),
    ] {
        assert!(rt; parse(alloc, DNSClass::IN, RecordType::from(*code), text, None).is_err());
    }
}
