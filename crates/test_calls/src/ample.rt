//! Calls that may report out of memory, with ample memory, at every size that a body could take for a limit: data, sets of records,
//! and texts. No contract refuses a body that reports out of memory past some size, so these tests have to.

use dns_names_wire::canonical::{
    canonical_octets, record_key, record_set, signed_fields, signed_octets,
};
use dns_names_wire::data_text::{data_text, parse, parse_record, record_text};
use dns_names_wire::decoder::BinDecoder;
use dns_names_wire::dns_class::DNSClass;
use dns_names_wire::dnssec::{ds_digest, zone_digest};
use dns_names_wire::edns_options::OptionData;
use dns_names_wire::error::DecodeError;
use dns_names_wire::fields::Field;
use dns_names_wire::name::Name;
use dns_names_wire::rdata::{RData, Record};
use dns_names_wire::record::{RecordRef, WireRecord};
use dns_names_wire::record_type::RecordType;
use dns_names_wire::zone::check_zone;
use std::alloc::Global;
use std::test::Fail;

/// Numbers of records and of words about limits.
pub(crate) const LIMITS: [usize; 8] = [127, 128, 255, 256, 511, 512, 1_024, 4_097];

/// The data of an RRSIG over NULL records of the root, up to the signature, which is empty.
const RRSIG: &[u8] =
    b"\x00\x0a\x08\x00\x00\x00\x0e\x10\x00\x00\x00\x02\x00\x00\x00\x01\x00\x07\x00";

/// Returns sizes of data and of texts: all that are usual, up to 600, and those about limits. The longest data are still those of
/// a record with other fields.
pub(crate) fn sizes(alloc: Global) -> Result<Vec<usize>, Fail> {
    let mut all = Vec::new(alloc);
    for len in 1usize..601 {
        all.push(len)?;
    }
    all.extend_from_slice(&[1_023, 1_024, 4_095, 4_096, 8_193, 65_500])?;
    Ok(all)
}

/// Returns the numbers from 1 to 40, 100, and these.
pub(crate) fn counts(alloc: Global, more: &[usize]) -> Result<Vec<usize>, Fail> {
    let mut all = Vec::new(alloc);
    for count in 1usize..41 {
        all.push(count)?;
    }
    all.push(100)?;
    all.extend_from_slice(more)?;
    Ok(all)
}

/// Returns so many octets, each `x`.
pub(crate) fn octets(alloc: Global, len: usize) -> Result<Vec<u8>, Fail> {
    let mut bytes = Vec::new(alloc);
    bytes.resize(len, b'x')?;
    Ok(bytes)
}

/// Returns a text of so many `x`.
pub(crate) fn text(alloc: Global, len: usize) -> Result<String, Fail> {
    Ok("x".repeat(alloc, len)?)
}

/// Returns the octets of a record of the root.
pub(crate) fn record_octets(alloc: Global, record_type: u16, own: &[u8]) -> Result<Vec<u8>, Fail> {
    let mut bytes = Vec::new(alloc);
    bytes.push(0)?;
    bytes.extend_from_slice(&record_type.to_be_bytes())?;
    bytes.extend_from_slice(b"\x00\x01\x00\x00\x00\x3c")?;
    let len = u16::try_from(own.len()).map_err(|_| "a length")?;
    bytes.extend_from_slice(&len.to_be_bytes())?;
    bytes.extend_from_slice(own)?;
    Ok(bytes)
}

/// Returns the data that these octets are.
fn data_of(alloc: Global, record_type: RecordType, own: &[u8]) -> Result<RData, Fail> {
    match RData::new(alloc, DNSClass::IN, record_type, own) {
        Ok(data) => Ok(data),
        Err(_) => Err(Fail::from("data")),
    }
}

#[test]
fn data_may_have_any_size(rt: HostRuntime) -> Result<(), Fail> {
    let alloc = rt.alloc();
    let all = sizes(alloc)?;
    for len in all.as_slice() {
        let len = *len;
        let own = octets(alloc, len)?;
        let data = data_of(alloc, RecordType::NULL, own.as_slice())?;
        assert_eq!(rt; data.octets().len(), len);
        assert_eq!(rt; canonical_octets(alloc, &data)?.len(), len);
        let fields = [Field::Octets(own.as_slice())];
        let Ok(made) = RData::from_fields(alloc, DNSClass::IN, RecordType::NULL, &fields) else {
            return Err(Fail::from("fields"));
        };
        assert_eq!(rt; made.octets().len(), len);
        let mut long = octets(alloc, len)?;
        assert!(rt; matches!(fields[0].append_to(&mut long), Ok(true)));
        assert_eq!(rt; long.len(), len.saturating_mul(2));
    }
    Ok(())
}

/// Options that may have any octets, among them those that are usual, and padding of any size.
#[test]
fn options_may_have_any_size(rt: HostRuntime) -> Result<(), Fail> {
    let alloc = rt.alloc();
    let all = sizes(alloc)?;
    for len in all.as_slice() {
        let own = octets(alloc, *len)?;
        let mut known = 0;
        for code in 0u16..40 {
            let Ok(option) = OptionData::read(code, own.as_slice()) else {
                continue;
            };
            let mut out = Vec::new(alloc);
            option.append_to(&mut out)?;
            assert!(rt; out.as_slice() == own.as_slice());
            option.append_to(&mut out)?;
            assert_eq!(rt; out.len(), len.saturating_mul(2));
            known = code;
        }
        assert_eq!(rt; known, 39);
    }
    Ok(())
}

#[test]
fn records_may_have_data_of_any_size(rt: HostRuntime) -> Result<(), Fail> {
    let alloc = rt.alloc();
    let all = sizes(alloc)?;
    for len in all.as_slice() {
        let len = *len;
        let bytes = record_octets(alloc, 10, octets(alloc, len)?.as_slice())?;
        let item = RecordRef::read_next(&mut BinDecoder::new(bytes.as_slice()))?;
        let Ok(own) = Record::from_ref(alloc, &item) else {
            return Err(Fail::from("a record"));
        };
        assert_eq!(rt; own.data.octets().len(), len);
        assert!(rt; matches!(record_key(alloc, &item), Ok(key) if len <= key.len()));
        let Some(wire) = WireRecord::from_record(alloc, &own)? else {
            return Err(Fail::from("a wire record"));
        };
        let Ok(back) = wire.to_record(alloc) else {
            return Err(Fail::from("a record of a wire record"));
        };
        assert_eq!(rt; back.data.octets().len(), len);
        let printed = data_text(alloc, &item)?;
        let line = record_text(alloc, &item)?;
        // `\# 65535 ` and two digits an octet.
        assert!(rt; printed.len() >= len.saturating_mul(2) && line.len() > printed.len());
        let parsed = parse(
            alloc,
            DNSClass::IN,
            RecordType::NULL,
            printed.as_str(),
            None,
        );
        assert!(rt; matches!(parsed, Ok(again) if again.len() == len));
        let parsed = parse_record(alloc, line.as_str(), None);
        assert!(rt; matches!(parsed, Ok(again) if again.as_slice() == bytes.as_slice()));
    }
    Ok(())
}

#[test]
fn a_signature_may_have_any_size(rt: HostRuntime) -> Result<(), Fail> {
    let alloc = rt.alloc();
    let all = sizes(alloc)?;
    for len in all.as_slice() {
        let len = *len;
        let mut own = Vec::new(alloc);
        own.extend_from_slice(RRSIG)?;
        own.extend_from_slice(octets(alloc, len)?.as_slice())?;
        let data = data_of(alloc, RecordType::RRSIG, own.as_slice())?;
        assert!(rt;
            matches!(signed_fields(alloc, &data), Ok(signed) if signed.as_slice() == RRSIG)
        );
        assert_eq!(rt; canonical_octets(alloc, &data)?.len(), own.len());
    }
    Ok(())
}

#[test]
fn a_set_may_have_many_records(rt: HostRuntime) -> Result<(), Fail> {
    let alloc = rt.alloc();
    let all = counts(alloc, &LIMITS)?;
    for count in all.as_slice() {
        let count = *count;
        let mut owned = Vec::new(alloc);
        let mut bytes = record_octets(alloc, 46, RRSIG)?;
        for number in 0..count {
            let own = u32::try_from(number).map_err(|_| "a number")?.to_be_bytes();
            bytes.extend_from_slice(record_octets(alloc, 10, &own)?.as_slice())?;
            owned.push(Record {
                name: Name::root(alloc),
                ttl: 60,
                data: data_of(alloc, RecordType::NULL, &own)?,
            })?;
        }
        // The owner, type, class, time to live, length and four octets of data.
        let wanted = count.saturating_mul(15);
        let set = record_set(alloc, owned.as_slice(), 0, 3_600);
        assert!(rt; matches!(set, Ok(made) if made.len() == wanted));
        let mut reader = BinDecoder::new(bytes.as_slice());
        let mut items = Vec::new(alloc);
        for _ in 0..=count {
            items.push(RecordRef::read_next(&mut reader)?)?;
        }
        let (Some(rrsig), mut out) = (items.as_slice().first(), Vec::new(alloc)) else {
            return Err(Fail::from("an RRSIG"));
        };
        assert!(rt; signed_octets(alloc, rrsig, items.as_slice(), &mut out).is_ok());
        assert_eq!(rt; out.len(), wanted.saturating_add(RRSIG.len()));
        // What is hashed of the zone begins with the octet of the root, as what is hashed for a DS record does.
        let whole = record_set(alloc, owned.as_slice(), 0, 60)?;
        let rest = whole.as_slice().get(1..).unwrap_or_default();
        let wanted = ds_digest(&Name::root(alloc), rest, 4)?;
        let digest = zone_digest(alloc, &Name::root(alloc), owned.as_slice(), 1)?;
        assert!(rt; digest.as_slice() == wanted.as_slice());
    }
    Ok(())
}

/// So many records of the root, which has no SOA and no NS. The second and later ones have another time to live.
#[test]
fn a_zone_may_have_many_findings(rt: HostRuntime) -> Result<(), Fail> {
    let alloc = rt.alloc();
    let all = counts(alloc, &LIMITS)?;
    for count in all.as_slice() {
        let count = *count;
        let mut bytes = record_octets(alloc, 10, b"x")?;
        let mut other = record_octets(alloc, 10, b"x")?;
        other[8] = 61;
        for _ in 1..count {
            bytes.extend_from_slice(other.as_slice())?;
        }
        let mut reader = BinDecoder::new(bytes.as_slice());
        let mut records = Vec::new(alloc);
        for _ in 0..count {
            records.push(RecordRef::read_next(&mut reader)?)?;
        }
        let found = check_zone(alloc, &Name::root(alloc), records.as_slice());
        assert!(rt; matches!(found, Ok(list) if list.len() == count.saturating_add(1)));
    }
    Ok(())
}

/// Returns the octets of the data that a text is, for a type.
fn parsed(alloc: Global, record_type: RecordType, words: &str) -> Result<usize, Fail> {
    match parse(alloc, DNSClass::IN, record_type, words, None) {
        Ok(own) => Ok(own.len()),
        Err(_) => Err(Fail::from("a text of data")),
    }
}

#[test]
fn texts_may_have_many_words(rt: HostRuntime) -> Result<(), Fail> {
    let alloc = rt.alloc();
    let all = counts(alloc, &LIMITS)?;
    for count in all.as_slice() {
        let count = *count;
        let mut strings = String::new(alloc);
        let mut types = String::new(alloc);
        let mut params = String::new(alloc);
        types.push('.')?;
        params.push_str("1 .")?;
        for number in 0..count {
            write!(strings, " \"s{number}\"")?;
            write!(types, " TYPE{}", 1_024usize.saturating_add(number))?;
            write!(params, " key{}", 1_024usize.saturating_add(number))?;
        }
        assert!(rt; parsed(alloc, RecordType::TXT, strings.as_str())? >= count.saturating_mul(3));
        assert!(rt; parsed(alloc, RecordType::NSEC, types.as_str())? > count / 8);
        let of_params = parsed(alloc, RecordType::SVCB, params.as_str())?;
        assert_eq!(rt; of_params, count.saturating_mul(4).saturating_add(3));
    }
    Ok(())
}

#[test]
fn values_of_texts_may_have_any_size(rt: HostRuntime) -> Result<(), Fail> {
    let alloc = rt.alloc();
    let all = sizes(alloc)?;
    for len in all.as_slice() {
        let len = *len;
        let long = text(alloc, len)?;
        let value = format!(in alloc; "1 . key65280={}", long.as_str())?;
        let given = parse(alloc, DNSClass::IN, RecordType::SVCB, value.as_str(), None);
        assert!(rt; matches!(given, Ok(own) if own.len() == len.saturating_add(7)));
        let value = format!(in alloc; "10 1 \"{}\"", long.as_str())?;
        let given = parse(
            alloc,
            DNSClass::IN,
            RecordType::from(256u16),
            value.as_str(),
            None,
        );
        assert!(rt; matches!(given, Ok(own) if own.len() == len.saturating_add(4)));
        // Four digits of base 64 are three octets.
        let digits = "AAAA".repeat(alloc, len / 4)?;
        let value = format!(in alloc; "256 3 8 {}", digits.as_str())?;
        let given = parse(
            alloc,
            DNSClass::IN,
            RecordType::DNSKEY,
            value.as_str(),
            None,
        );
        let wanted = (len / 4).saturating_mul(3).saturating_add(4);
        assert!(rt; len < 4 || matches!(given, Ok(own) if own.len() == wanted));
        let value = format!(in alloc; "1 . ech={}", digits.as_str())?;
        let given = parse(alloc, DNSClass::IN, RecordType::SVCB, value.as_str(), None);
        assert!(rt; len < 4 || matches!(given, Ok(own) if own.len() == wanted.saturating_add(3)));
    }
    Ok(())
}

#[test]
fn long_texts_that_are_wrong_are_copied(rt: HostRuntime) -> Result<(), Fail> {
    let alloc = rt.alloc();
    let all = sizes(alloc)?;
    for len in all.as_slice() {
        let len = *len;
        let long = text(alloc, len)?;
        let unknown = RecordType::from_str(alloc, long.as_str());
        let Err(error) = unknown else {
            return Err(Fail::from("a type"));
        };
        assert!(rt; matches!(&error, DecodeError::UnknownRecordTypeStr(own) if own.len() == len));
        assert!(rt; error.clone().is_ok());
        let unknown = DNSClass::from_str(alloc, long.as_str());
        assert!(rt;
            matches!(unknown, Err(DecodeError::UnknownDnsClassStr(own)) if own.len() == len)
        );
        let bytes = octets(alloc, len)?;
        let mut reader = BinDecoder::new(bytes.as_slice());
        assert_eq!(rt; reader.read_vec(alloc, len)?.unverified().len(), len);
    }
    Ok(())
}
