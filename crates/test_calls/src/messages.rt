//! Whole messages: they are written, by an encoder and by a script, and read back record by record.

use crate::scripts::message_of;
use crate::sections::{Data, HEADER, Row, has_rows, write_header, write_rows};
use dns_names_wire::encoder::{BinEncoder, RDataEncoding};
use dns_names_wire::record_type::RecordType;
use dns_names_wire::script::Step;
use std::test::Fail;

/// A name of standard data (RFC 1035, section 3.3).
fn standard(text: &str) -> Data<'_> {
    Data::Name(text, RDataEncoding::StandardRecord)
}

fn row<'d>(owner: &'d str, record_type: RecordType, data: Data<'d>) -> Row<'d> {
    Row {
        owner,
        record_type,
        data,
    }
}

#[test]
fn a_referral_with_glue(rt: HostRuntime) -> Result<(), Fail> {
    let rows = [
        row("example.com.", RecordType::NS, standard("ns1.example.com.")),
        row("example.com.", RecordType::NS, standard("ns2.example.com.")),
        row(
            "ns1.example.com.",
            RecordType::A,
            Data::Bytes(b"\xc0\x00\x02\x01"),
        ),
        row(
            "ns2.example.com.",
            RecordType::A,
            Data::Bytes(b"\xc0\x00\x02\x02"),
        ),
    ];
    let mut bytes = Vec::new(rt.alloc());
    let mut encoder = BinEncoder::new(&mut bytes);
    write_header(&mut encoder, 0x8000, [0, 2, 2])?;
    assert_eq!(rt; write_rows(rt.alloc(), &mut encoder, &rows)?, 4);
    drop(encoder);
    let scripted = message_of(rt.alloc(), Step::Max(u16::MAX), 0x8000, [0, 2, 2], &rows)?;
    assert_eq!(rt; scripted.as_slice(), bytes.as_slice());
    // Header; 13 + 10 + 6; 2 + 10 + 6; twice 2 + 10 + 4: only the first owner is whole.
    assert_eq!(rt; bytes.len(), 12 + 29 + 18 + 16 + 16);
    assert!(rt; has_rows(rt.alloc(), bytes.as_slice(), &rows)?);
    Ok(())
}

#[test]
fn a_chain_of_aliases(rt: HostRuntime) -> Result<(), Fail> {
    let rows = [
        row(
            "www.example.com.",
            RecordType::CNAME,
            standard("web.example.com."),
        ),
        row(
            "web.example.com.",
            RecordType::CNAME,
            standard("web.example.net."),
        ),
        row(
            "web.example.net.",
            RecordType::A,
            Data::Bytes(b"\xc6\x33\x64\x01"),
        ),
    ];
    let mut bytes = Vec::new(rt.alloc());
    let mut encoder = BinEncoder::new(&mut bytes);
    write_header(&mut encoder, 0x8400, [3, 0, 0])?;
    assert_eq!(rt; write_rows(rt.alloc(), &mut encoder, &rows)?, 3);
    drop(encoder);
    let scripted = message_of(rt.alloc(), Step::Max(u16::MAX), 0x8400, [3, 0, 0], &rows)?;
    assert_eq!(rt; scripted.as_slice(), bytes.as_slice());
    // Header; 17 + 10 + 6; 2 + 10 + 17; 2 + 10 + 4.
    assert_eq!(rt; bytes.len(), 12 + 33 + 29 + 16);
    assert!(rt; has_rows(rt.alloc(), bytes.as_slice(), &rows)?);
    Ok(())
}

#[test]
fn mail_exchanges_with_addresses(rt: HostRuntime) -> Result<(), Fail> {
    let rows = [
        row(
            "example.com.",
            RecordType::MX,
            Data::Bytes(b"\x00\x0a\x04mail\x07example\x03com\x00"),
        ),
        row(
            "example.com.",
            RecordType::MX,
            Data::Bytes(b"\x00\x14\x02mx\x07example\x03net\x00"),
        ),
        row(
            "mail.example.com.",
            RecordType::A,
            Data::Bytes(b"\xcb\x00\x71\x05"),
        ),
        row(
            "mx.example.net.",
            RecordType::A,
            Data::Bytes(b"\xcb\x00\x71\x06"),
        ),
    ];
    let mut bytes = Vec::new(rt.alloc());
    let mut encoder = BinEncoder::new(&mut bytes);
    write_header(&mut encoder, 0x8400, [2, 0, 2])?;
    assert_eq!(rt; write_rows(rt.alloc(), &mut encoder, &rows)?, 4);
    drop(encoder);
    let scripted = message_of(rt.alloc(), Step::Max(u16::MAX), 0x8400, [2, 0, 2], &rows)?;
    assert_eq!(rt; scripted.as_slice(), bytes.as_slice());
    assert!(rt; has_rows(rt.alloc(), bytes.as_slice(), &rows)?);
    Ok(())
}

#[test]
fn an_answer_is_truncated_at_512_octets(rt: HostRuntime) -> Result<(), Fail> {
    let text = [b'x'; 100];
    let rows = [row("example.com.", RecordType::TXT, Data::Bytes(&text)); 8];
    let mut bytes = Vec::new(rt.alloc());
    let mut encoder = BinEncoder::new(&mut bytes);
    encoder.set_max_size(512);
    write_header(&mut encoder, 0x8600, [4, 0, 0])?;
    // Header; 13 + 10 + 100; then 2 + 10 + 100 each: four records take 471 octets, and five would take 583.
    assert_eq!(rt; write_rows(rt.alloc(), &mut encoder, &rows)?, 4);
    drop(encoder);
    let scripted = message_of(rt.alloc(), Step::Max(512), 0x8600, [4, 0, 0], &rows)?;
    assert_eq!(rt; scripted.as_slice(), bytes.as_slice());
    assert_eq!(rt; bytes.len(), HEADER + 123 + 3 * 112);
    assert!(rt; has_rows(rt.alloc(), bytes.as_slice(), &rows[..4])?);
    Ok(())
}

#[test]
fn names_of_signed_data_are_whole_and_in_lower_case(rt: HostRuntime) -> Result<(), Fail> {
    let rows = [
        row("Example.COM.", RecordType::NS, standard("NS1.Example.COM.")),
        row(
            "Example.COM.",
            RecordType::SRV,
            Data::Name("H.Example.COM.", RDataEncoding::Canonical),
        ),
        row(
            "Example.COM.",
            RecordType::Unknown(65280),
            Data::Name("H.Example.COM.", RDataEncoding::Other),
        ),
    ];
    let mut bytes = Vec::new(rt.alloc());
    let mut encoder = BinEncoder::new(&mut bytes);
    write_header(&mut encoder, 0x8400, [3, 0, 0])?;
    encoder.set_canonical_form(true);
    assert_eq!(rt; write_rows(rt.alloc(), &mut encoder, &rows)?, 3);
    drop(encoder);
    let scripted = message_of(rt.alloc(), Step::Canonical(true), 0x8400, [3, 0, 0], &rows)?;
    assert_eq!(rt; scripted.as_slice(), bytes.as_slice());
    // Header; 13 + 10 + 17; 2 + 10 + 15; 2 + 10 + 15.
    assert_eq!(rt; bytes.len(), 12 + 40 + 27 + 27);
    assert!(rt; &bytes.as_slice()[35..52] == b"\x03ns1\x07example\x03com\x00".as_slice());
    assert!(rt; &bytes.as_slice()[64..79] == b"\x01h\x07example\x03com\x00".as_slice());
    assert!(rt; bytes.as_slice().ends_with(b"\x01H\x07Example\x03COM\x00"));
    assert!(rt; has_rows(rt.alloc(), bytes.as_slice(), &rows)?);
    Ok(())
}
