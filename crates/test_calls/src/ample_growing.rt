//! Calls that append to what a caller has, with ample memory, after any number of octets or records: texts of values, zone files,
//! tokens, and records.

use crate::ample::{LIMITS, counts, octets, record_octets, sizes, text};
use dns_names_wire::binary::{BinDecodable, BinEncodable};
use dns_names_wire::decoder::BinDecoder;
use dns_names_wire::encoder::BinEncoder;
use dns_names_wire::field_text::{
    parse_base64, parse_hash, parse_hexadecimal, parse_nsap, parse_pairs, parse_prefix, parse_salt,
    parse_string, parse_tag, parse_text,
};
use dns_names_wire::name::Name;
use dns_names_wire::rdata::{RData, Record};
use dns_names_wire::record::{RecordRef, WireRecord};
use dns_names_wire::record_data::RecordDataDecodable;
use dns_names_wire::record_type_set::RecordTypeSet;
use dns_names_wire::restrict::Restrict;
use dns_names_wire::txt::{Lexer, Token, parse_ttl};
use dns_names_wire::zone::{
    Context, append_origin, append_record, append_short_record, append_ttl, read_records,
};
use std::alloc::Global;
use std::test::Fail;

/// An address of the root, as a record and as an entry of a zone file.
const ADDRESS: &[u8] = b"\x00\x00\x01\x00\x01\x00\x00\x00\x3c\x00\x04\xc0\x00\x02\x01";

const ENTRY: &[u8] = b". 60 IN A 192.0.2.1\n";

#[test]
fn values_are_appended_to_vectors_of_any_size(rt: HostRuntime) -> Result<(), Fail> {
    let alloc = rt.alloc();
    let all = sizes(alloc)?;
    for len in all.as_slice() {
        let len = *len;
        let mut long = octets(alloc, len)?;
        parse_hexadecimal("0A", &mut long)?;
        parse_base64("Zg==", &mut long)?;
        parse_hash("CO", &mut long)?;
        parse_salt("0b", &mut long)?;
        parse_pairs("01-02", &mut long)?;
        parse_prefix(b"1:192.0.2.0/24", &mut long)?;
        parse_nsap(alloc, b"0x47", &mut long)?;
        parse_string(b"s", &mut long)?;
        parse_text(b"t", &mut long)?;
        parse_tag("tag", &mut long)?;
        let added = long.as_slice().get(len..).unwrap_or_default();
        assert!(rt; added.starts_with(b"\x0aff\x0b\x01\x02"));
        assert!(rt; added.ends_with(b"tag"));
    }
    Ok(())
}

#[test]
fn texts_of_values_may_have_any_size(rt: HostRuntime) -> Result<(), Fail> {
    let alloc = rt.alloc();
    let all = sizes(alloc)?;
    for len in all.as_slice() {
        let len = *len;
        let mut parsed = Vec::new(alloc);
        parse_hexadecimal("0a".repeat(alloc, len)?.as_str(), &mut parsed)?;
        assert_eq!(rt; parsed.len(), len);
        let mut nsap = String::from_str(alloc, "0x")?;
        nsap.push_str("4.7".repeat(alloc, len)?.as_str())?;
        let mut address = Vec::new(alloc);
        parse_nsap(alloc, nsap.as_bytes(), &mut address)?;
        assert_eq!(rt; address.len(), len);
        parse_base64("Zm9v".repeat(alloc, len)?.as_str(), &mut parsed)?;
        assert_eq!(rt; parsed.len(), len.saturating_mul(4));
        parse_text(text(alloc, len)?.as_bytes(), &mut parsed)?;
        assert_eq!(rt; parsed.len(), len.saturating_mul(5));
    }
    Ok(())
}

#[test]
fn zone_files_grow_to_any_size(rt: HostRuntime) -> Result<(), Fail> {
    let alloc = rt.alloc();
    let record = RecordRef::from_bytes(alloc, ADDRESS)?;
    let root = Name::from_ascii(alloc, ".")?;
    let all = sizes(alloc)?;
    for len in all.as_slice() {
        let len = *len;
        let mut context = Context::new(root.copied());
        let mut long = octets(alloc, len)?;
        append_record(alloc, &record, &mut long)?;
        append_origin(alloc, &mut context, &root, &mut long)?;
        append_ttl(alloc, &mut context, 60, &mut long)?;
        append_short_record(alloc, &mut context, &record, &mut long)?;
        let added = long.as_slice().get(len..).unwrap_or_default();
        assert!(rt; added.starts_with(ENTRY));
        let records = read_records(alloc, root.copied(), added)?;
        assert_eq!(rt; records.len(), 2);
    }
    Ok(())
}

#[test]
fn zone_files_may_have_many_records(rt: HostRuntime) -> Result<(), Fail> {
    let alloc = rt.alloc();
    let all = counts(alloc, &LIMITS)?;
    for count in all.as_slice() {
        let count = *count;
        let mut zone = Vec::new(alloc);
        for _ in 0..count {
            zone.extend_from_slice(ENTRY)?;
        }
        let records = read_records(alloc, Name::from_ascii(alloc, ".")?, zone.as_slice())?;
        assert_eq!(rt; records.len(), count);
    }
    Ok(())
}

#[test]
fn tokens_may_have_any_size(rt: HostRuntime) -> Result<(), Fail> {
    let alloc = rt.alloc();
    let all = sizes(alloc)?;
    for len in all.as_slice() {
        let len = *len;
        let long = text(alloc, len)?;
        let mut lexer = Lexer::new(long.as_str());
        assert!(rt;
            matches!(lexer.next_token(alloc)?, Some(Token::CharData(data)) if data.len() == len)
        );
        let zeros = "0".repeat(alloc, len)?;
        assert_eq!(rt; parse_ttl(alloc, zeros.as_str())?, 0);
    }
    Ok(())
}

#[test]
fn records_of_any_size_are_owned_and_written(rt: HostRuntime) -> Result<(), Fail> {
    let alloc = rt.alloc();
    let all = sizes(alloc)?;
    for len in all.as_slice() {
        let len = *len;
        let own = octets(alloc, len)?;
        let bytes = record_octets(alloc, 10, own.as_slice())?;
        let record = RecordRef::from_bytes(alloc, bytes.as_slice())?;
        assert_eq!(rt; RData::from_ref(alloc, &record)?.octets(), own.as_slice());
        let owned = Record::from_ref(alloc, &record)?;
        let Some(wire) = WireRecord::from_record(alloc, &owned)? else {
            return Err(Fail::from("a record of bytes"));
        };
        assert_eq!(rt; wire.to_bytes(alloc)?.as_slice(), bytes.as_slice());
    }
    Ok(())
}

#[test]
fn items_may_be_many(rt: HostRuntime) -> Result<(), Fail> {
    let alloc = rt.alloc();
    let all = counts(alloc, &LIMITS)?;
    for count in all.as_slice() {
        let count = *count;
        let items = vec![in alloc; 7u16; count]?;
        let mut bytes = Vec::new(alloc);
        let mut encoder = BinEncoder::new(&mut bytes);
        let mut iter = items.iter();
        assert!(rt; matches!(encoder.emit_iter(&mut iter), Ok(written) if written == count));
        assert!(rt; matches!(encoder.emit_all_refs(items.iter()), Ok(written) if written == count));
        assert_eq!(rt; encoder.len(), count.saturating_mul(4));
    }
    Ok(())
}

#[test]
fn bitmaps_may_have_all_windows(rt: HostRuntime) -> Result<(), Fail> {
    let alloc = rt.alloc();
    let all = counts(alloc, &[0, 127, 128, 255, 256])?;
    for count in all.as_slice() {
        let windows = u16::try_from(*count).map_err(|_| "windows")?;
        let mut bitmap = Vec::new(alloc);
        for window in 0..windows {
            bitmap.push((window % 256) as u8)?;
            bitmap.push(32)?;
            bitmap.extend_from_slice(&[255; 32])?;
        }
        let len = Restrict::new(windows.saturating_mul(34));
        let mut decoder = BinDecoder::new(bitmap.as_slice());
        let set = RecordTypeSet::read_data(alloc, &mut decoder, len)?;
        assert_eq!(rt;
            set.iter().count(),
            usize::from(windows).saturating_mul(256)
        );
    }
    Ok(())
}
