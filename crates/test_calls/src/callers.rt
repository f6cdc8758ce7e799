//! The callers in `crates/uses`, which README.md and CALLING.md show.

use crate::sections::{Data, Row, record_of};
use dns_names_wire::decoder::BinDecoder;
use dns_names_wire::encoder::BinEncoder;
use dns_names_wire::error::ProtoError;
use dns_names_wire::name::Name;
use dns_names_wire::record_type::RecordType;
use dns_names_wire::restrict::Restrict;
use std::test::Fail;
use uses::bitmap::lists_type;
use uses::copying::copy_name;
use uses::example::{host, is_in_zone, name_text};
use uses::question::names_of;
use uses::records::write_records;
use uses::referral::write_referral;
use uses::reply::write_reply;
use uses::reverse::net_of;
use uses::scripts::append_record;
use uses::zone::first_in_zone;
use uses::zone_file::{count_of, write_file};

#[test]
fn names_of_a_reply(rt: HostRuntime) -> Result<(), Fail> {
    let alloc = rt.alloc();
    // One question, `a.bc.`, and one answer, whose owner is a pointer to it.
    let message =
        b"\x00\x07\x84\x00\x00\x01\x00\x01\x00\x00\x00\x00\x01a\x02bc\x00\x00\x01\x00\x01\xc0\x0c\x00\x01\x00\x01\x00\x00\x00\x3c\x00\x04\x7f\x00\x00\x01";
    let names = names_of(alloc, message.as_slice())?;
    assert_eq!(rt; names.len(), 2);
    for name in names.as_slice() {
        assert_eq!(rt; name.as_wire(), b"\x01a\x02bc\x00".as_slice());
    }
    Ok(())
}

#[test]
fn owners_are_pointers_to_the_question(rt: HostRuntime) -> Result<(), Fail> {
    let alloc = rt.alloc();
    let name = Name::from_ascii(alloc, "a.bc.")?;
    let reply = write_reply(alloc, 7, &name, 60, &[0x7f00_0001])?;
    let wanted =
        b"\x00\x07\x84\x00\x00\x01\x00\x01\x00\x00\x00\x00\x01a\x02bc\x00\x00\x01\x00\x01\xc0\x0c\x00\x01\x00\x01\x00\x00\x00\x3c\x00\x04\x7f\x00\x00\x01";
    assert_eq!(rt; reply.as_slice(), wanted.as_slice());
    Ok(())
}

#[test]
fn answers_that_do_not_fit_are_left_out(rt: HostRuntime) -> Result<(), Fail> {
    let alloc = rt.alloc();
    let name = Name::from_ascii(alloc, "a.bc.")?;
    // A header of 12 bytes, a question of 10, and 16 for each answer: 30 answers fit.
    let addresses = [0_u32; 31];
    let whole = write_reply(alloc, 7, &name, 60, &addresses[..30])?;
    assert_eq!(rt; whole.len(), 502);
    assert_eq!(rt; &whole[..8], b"\x00\x07\x84\x00\x00\x01\x00\x1e".as_slice());
    // With the TC bit, and as many answers.
    let cut = write_reply(alloc, 7, &name, 60, addresses.as_slice())?;
    assert_eq!(rt; cut.len(), 502);
    assert_eq!(rt; &cut[..8], b"\x00\x07\x86\x00\x00\x01\x00\x1e".as_slice());
    assert_eq!(rt; &cut[8..], &whole[8..]);
    Ok(())
}

#[test]
fn a_name_is_copied_and_then_shared(rt: HostRuntime) -> Result<(), Fail> {
    let alloc = rt.alloc();
    // `b.a.` at offset 3, its last label by a pointer to 0.
    let question = b"\x01a\x00\x01b\xc0\x00";
    let mut answer = Vec::new(alloc);
    let mut encoder = BinEncoder::new(&mut answer);
    for _ in 0..2 {
        let mut decoder = BinDecoder::new(question.as_slice());
        decoder.skip(3).map_err(|_| "three bytes")?;
        copy_name(&mut decoder, &mut encoder)?;
        assert_eq!(rt; decoder.index(), 7);
    }
    drop(encoder);
    assert_eq!(rt; answer.as_slice(), b"\x01b\x01a\x00\xc0\x00".as_slice());
    Ok(())
}

#[test]
fn the_example_runs(rt: HostRuntime) -> Result<(), Fail> {
    let alloc = rt.alloc();
    let zone = Name::from_ascii(alloc, "Example.")?;
    let bytes = host(alloc, &zone, "www")?;
    assert_eq!(rt; bytes.as_slice(), b"\x03www\x07Example\x00".as_slice());
    let mut decoder = BinDecoder::new(bytes.as_slice());
    let text = name_text(alloc, &mut decoder)?;
    assert_eq!(rt; text.as_str(), "www.Example.");
    let mut decoder = BinDecoder::new(bytes.as_slice());
    assert!(rt; is_in_zone(&mut decoder, &zone).map_err(|_| "a name")?);
    Ok(())
}

#[test]
fn the_first_name_in_the_zone_is_found(rt: HostRuntime) -> Result<(), Fail> {
    let alloc = rt.alloc();
    let names = [
        Name::from_ascii(alloc, "example.org.")?,
        Name::from_ascii(alloc, "WWW.Example.COM.")?,
        Name::from_ascii(alloc, "example.com.")?,
    ];
    let zone = Name::from_ascii(alloc, "example.com.")?;
    assert_eq!(rt; first_in_zone(names.as_slice(), &zone), Some(1));
    assert_eq!(rt; first_in_zone(&names[..1], &zone), None);
    Ok(())
}

/// An address of the root, which takes 15 octets.
const ADDRESS: Row<'static> = Row {
    owner: ".",
    record_type: RecordType::A,
    data: Data::Bytes(b"\x01\x02\x03\x04"),
};

#[test]
fn records_are_written_as_many_as_fit(rt: HostRuntime) -> Result<(), Fail> {
    let alloc = rt.alloc();
    let records = [
        record_of(alloc, ADDRESS)?,
        record_of(alloc, ADDRESS)?,
        record_of(alloc, ADDRESS)?,
    ];
    for (max, wanted) in [(14, 0), (15, 1), (44, 2), (45, 3), (65_535, 3)] {
        let (message, count) = write_records(alloc, max, records.as_slice());
        assert_eq!(rt; count, wanted);
        assert_eq!(rt; message.len(), 15 * wanted);
    }
    Ok(())
}

#[test]
fn a_record_is_appended(rt: HostRuntime) -> Result<(), Fail> {
    let alloc = rt.alloc();
    let mut message = Vec::from_slice(alloc, b"\x00\x07")?;
    let end = append_record(alloc, &mut message, record_of(alloc, ADDRESS)?)?;
    assert_eq!(rt; end, 17);
    let wanted = b"\x00\x07\x00\x00\x01\x00\x01\x00\x00\x01\x2c\x00\x04\x01\x02\x03\x04";
    assert_eq!(rt; message.as_slice(), wanted.as_slice());
    // No record fits after the largest message.
    let mut full = vec![in alloc; 0; 65_535]?;
    let refused = append_record(alloc, &mut full, record_of(alloc, ADDRESS)?);
    assert!(rt; matches!(refused, Err(ProtoError::MaxBufferSizeExceeded(65_535))));
    assert_eq!(rt; full.len(), 65_535);
    Ok(())
}

#[test]
fn a_referral_has_a_server_and_its_address(rt: HostRuntime) -> Result<(), Fail> {
    let alloc = rt.alloc();
    // As dnspython writes it: one record of authority and one that is additional.
    let wanted =
        b"\x00\x07\x80\x00\x00\x00\x00\x00\x00\x01\x00\x01\x07example\x03com\x00\x00\x02\x00\x01\x00\x00\x0e\x10\x00\x05\x02ns\xc0\x0c\xc0\x23\x00\x01\x00\x01\x00\x00\x0e\x10\x00\x04\xc0\x00\x02\x01";
    let header = b"\x00\x07\x80\x00\x00\x00\x00\x00\x00\x01\x00\x01";
    let zone = Name::from_ascii(alloc, "example.com.")?;
    let server = Name::from_ascii(alloc, "ns.example.com.")?;
    let (message, glue) = write_referral(alloc, header, zone, server, &[192, 0, 2, 1], 3600)?;
    assert_eq!(rt; message.as_slice(), wanted.as_slice());
    assert_eq!(rt; glue, 40);
    Ok(())
}

#[test]
fn a_reverse_name_gives_its_net(rt: HostRuntime) -> Result<(), Fail> {
    let alloc = rt.alloc();
    // The names of the examples of RFC 1035, section 3.5.
    let gateway = Name::from_ascii(alloc, "52.0.2.10.IN-ADDR.ARPA.")?;
    let net = net_of(&gateway).ok_or("a net")?;
    assert_eq!(rt; net.to_string(alloc)?.as_str(), "10.2.0.52/32");
    let net = net_of(&Name::from_ascii(alloc, "10.IN-ADDR.ARPA.")?).ok_or("a net")?;
    assert_eq!(rt; net.to_string(alloc)?.as_str(), "10.0.0.0/8");
    assert!(rt; net_of(&Name::from_ascii(alloc, "www.example.com.")?).is_none());
    Ok(())
}

#[test]
fn a_bitmap_lists_its_types(rt: HostRuntime) -> Result<(), Fail> {
    let alloc = rt.alloc();
    // A, MX, RRSIG and NSEC, as the example of RFC 4034, section 4.3, has them in the window of the first 256 types.
    let bitmap = b"\x00\x06\x40\x01\x00\x00\x00\x03";
    for (record_type, wanted) in [
        (RecordType::A, true),
        (RecordType::MX, true),
        (RecordType::NSEC, true),
        (RecordType::AAAA, false),
        (RecordType::NS, false),
    ] {
        let mut decoder = BinDecoder::new(bitmap.as_slice());
        let listed = lists_type(alloc, &mut decoder, Restrict::new(8), record_type);
        assert_eq!(rt; listed.map_err(|_| "a bitmap")?, wanted);
    }
    Ok(())
}

#[test]
fn records_of_a_zone_file_are_counted(rt: HostRuntime) -> Result<(), Fail> {
    let alloc = rt.alloc();
    let text = b"@ 60 SOA a b 1 2 3 4 5\n  NS ns\nns A 192.0.2.1 ; one\n   A ( 192.0.2.2\n)\n";
    let origin = Name::from_ascii(alloc, "example.")?;
    assert_eq!(rt; count_of(alloc, origin, text.as_slice(), RecordType::A)?, 2);
    Ok(())
}

#[test]
fn a_record_is_written_as_a_zone_file(rt: HostRuntime) -> Result<(), Fail> {
    let alloc = rt.alloc();
    let origin = Name::from_ascii(alloc, "example.")?;
    let octets = b"\x01a\x07example\x00\x00\x10\x00\x01\x00\x00\x00\x3c\x00\x02\x01x";
    let text = write_file(alloc, &origin, 60, octets)?;
    assert_eq!(rt; text.as_slice(), b"$TTL 60\na IN TXT \"x\"\n".as_slice());
    assert_eq!(rt;
        count_of(alloc, origin, text.as_slice(), RecordType::TXT)?,
        1
    );
    assert!(rt; write_file(alloc, &Name::root(alloc), 60, b"\x01a").is_err());
    Ok(())
}
