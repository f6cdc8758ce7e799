//! What signatures cover of the records of a message. The octets are worked out by hand from RFC 4034, sections 3.1.8.1 and 6.

use dns_names_wire::canonical::{
    CanonicalError, canonical_octets, pointers_left, record_key, signed_octets,
};
use dns_names_wire::decoder::BinDecoder;
use dns_names_wire::dns_class::DNSClass;
use dns_names_wire::rdata::RData;
use dns_names_wire::record::RecordRef;
use dns_names_wire::record_type::RecordType;
use std::alloc::Global;
use std::test::Fail;

/// An RRSIG of `B.a.` over MX by `A.`, two MX records of `b.A.` with names that are compressed, one of them twice, and another
/// record.
const RECORDS: &[u8] = b"\x01B\x01a\x00\x00\x2e\x00\x01\x00\x00\x00\x3c\x00\x18\
\x00\x0f\x0d\x02\x00\x00\x0e\x10\x00\x00\x00\x02\x00\x00\x00\x01\x00\x07\x01A\x00sig\
\x01b\xc0\x02\x00\x0f\x00\x01\x00\x00\x00\x09\x00\x04\x00\x0a\xc0\x00\
\xc0\x00\x00\x0f\x00\x01\x00\x00\x00\x3c\x00\x06\x00\x0a\x01M\xc0\x00\
\xc0\x00\x00\x01\x00\x01\x00\x00\x00\x3c\x00\x04\xc0\x00\x02\x01\
\xc0\x00\x00\x0f\x00\x01\x00\x00\x00\x3c\x00\x04\x00\x0a\xc0\x00";

/// What the signature covers.
const SIGNED: &[u8] =
    b"\x00\x0f\x0d\x02\x00\x00\x0e\x10\x00\x00\x00\x02\x00\x00\x00\x01\x00\x07\x01a\x00\
\x01b\x01a\x00\x00\x0f\x00\x01\x00\x00\x0e\x10\x00\x07\x00\x0a\x01b\x01a\x00\
\x01b\x01a\x00\x00\x0f\x00\x01\x00\x00\x0e\x10\x00\x09\x00\x0a\x01m\x01b\x01a\x00";

/// Returns the records.
fn records(alloc: Global) -> Result<Vec<RecordRef<'static>>, Fail> {
    let mut reader = BinDecoder::new(RECORDS);
    let mut found = Vec::new(alloc);
    for _ in 0..5 {
        let Ok(item) = RecordRef::read_next(&mut reader) else {
            return Err(Fail::from("a record"));
        };
        found.push(item)?;
    }
    Ok(found)
}

#[test]
fn a_signature_covers_records_of_a_message(rt: HostRuntime) -> Result<(), Fail> {
    let alloc = rt.alloc();
    let found = records(alloc)?;
    let mut out = Vec::new(alloc);
    out.push(7)?;
    let all = found.as_slice();
    assert!(rt; signed_octets(alloc, &all[0], all, &mut out).is_ok());
    assert!(rt; out[0] == 7 && &out[1..] == SIGNED);
    let outcome = signed_octets(alloc, &all[0], &all[3..4], &mut out);
    assert!(rt; matches!(outcome, Err(CanonicalError::NoRecords)));
    let outcome = signed_octets(alloc, &all[1], all, &mut out);
    assert!(rt; matches!(outcome, Err(CanonicalError::NotRrsig)));
    assert!(rt; out.len() == 1 + SIGNED.len());
    Ok(())
}

#[test]
fn pointers_of_data_are_counted(rt: HostRuntime) -> Result<(), Fail> {
    let found = records(rt.alloc())?;
    let all = found.as_slice();
    // The name of an RRSIG is whole, and that of an MX record is a pointer.
    assert!(rt; pointers_left(&all[0], 0) == Some(0));
    assert!(rt; pointers_left(&all[1], 3) == Some(2));
    assert!(rt; pointers_left(&all[1], 1) == Some(0));
    assert!(rt; pointers_left(&all[1], 0).is_none());
    Ok(())
}

#[test]
fn data_have_a_canonical_form(rt: HostRuntime) -> Result<(), Fail> {
    let alloc = rt.alloc();
    for (code, given, wanted) in [
        (15, b"\x00\x0a\x01B\x00", b"\x00\x0a\x01b\x00"),
        (107, b"\x00\x0a\x01B\x00", b"\x00\x0a\x01B\x00"),
    ] {
        let Ok(data) = RData::new(alloc, DNSClass::IN, RecordType::from(code), given) else {
            return Err(Fail::from("data"));
        };
        let octets = canonical_octets(alloc, &data)?;
        assert!(rt; octets.as_slice() == wanted.as_slice());
    }
    Ok(())
}

#[test]
fn records_have_sort_keys(rt: HostRuntime) -> Result<(), Fail> {
    let alloc = rt.alloc();
    let found = records(alloc)?;
    let mut keys = Vec::new(alloc);
    for item in found.as_slice() {
        let Ok(key) = record_key(alloc, item) else {
            return Err(Fail::from("a key"));
        };
        keys.push(key)?;
    }
    // The MX records with another time to live, and without a name of their own, have the same key.
    let mail = b"a\x00b\x00\x00\x00\x0f\x00\x01\x00\x0a\x01b\x01a\x00";
    assert!(rt; keys[1].as_slice() == mail.as_slice() && keys[4].as_slice() == mail.as_slice());
    let address = b"a\x00b\x00\x00\x00\x01\x00\x01\xc0\x00\x02\x01";
    assert!(rt; keys[3].as_slice() == address.as_slice());
    assert!(rt; keys[3] < keys[1] && keys[1] < keys[2] && keys[2] < keys[0]);
    Ok(())
}
