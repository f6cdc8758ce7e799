//! Sets of records, as a signature covers them.

use crate::notation::{BAD_LINE, first_word, hexadecimal, number, octets};
use dns_names_wire::canonical::{CanonicalError, record_set, signed_fields};
use dns_names_wire::dns_class::DNSClass;
use dns_names_wire::error::{ProtoError, ProtoResult};
use dns_names_wire::name::Name;
use dns_names_wire::rdata::{RData, Record};
use dns_names_wire::record_type::RecordType;
use std::alloc::Global;

/// Where the number of labels and the original time to live are in the data of an RRSIG (RFC 4034, section 3.1).
const LABELS: usize = 3;

const ORIGINAL_TTL: usize = 4;

/// Returns the octets that the signature of an RRSIG covers with some records; or the error.
pub(crate) fn answer(alloc: Global, words: &str) -> ProtoResult<String> {
    let (digits, words) = first_word(words)?;
    let given = octets(alloc, digits)?;
    let rrsig = data_of(alloc, DNSClass::IN, RecordType::RRSIG, given.as_slice())?;
    let mut records = Vec::new(alloc);
    for word in words.split(' ') {
        records.push(record(alloc, word)?)?;
    }
    match signed(alloc, &rrsig, records.as_slice()) {
        Ok(octets) => Ok(hexadecimal(alloc, octets.as_slice())?),
        Err(CanonicalError::NotInSet { record }) => Ok(format!(in alloc; "err:NotInSet:{record}")?),
        Err(CanonicalError::DataTooLong { record }) => {
            Ok(format!(in alloc; "err:DataTooLong:{record}")?)
        }
        Err(CanonicalError::TooFewLabels) => Ok(String::from_str(alloc, "err:TooFewLabels")?),
        Err(CanonicalError::Memory) => Err(ProtoError::Memory),
        Err(_) => Err(BAD_LINE),
    }
}

/// Returns all octets that a signature covers.
fn signed(alloc: Global, rrsig: &RData, records: &[Record]) -> Result<Vec<u8>, CanonicalError> {
    let mut octets = signed_fields(alloc, rrsig)?;
    let fields = rrsig.octets();
    let ttl = u32::from_be_bytes([
        fields[ORIGINAL_TTL],
        fields[ORIGINAL_TTL + 1],
        fields[ORIGINAL_TTL + 2],
        fields[ORIGINAL_TTL + 3],
    ]);
    let set = record_set(alloc, records, fields[LABELS], ttl)?;
    octets.extend_from_slice(set.as_slice())?;
    Ok(octets)
}

/// Returns the data of a class and a type that these octets are.
fn data_of(
    alloc: Global,
    class: DNSClass,
    record_type: RecordType,
    octets: &[u8],
) -> ProtoResult<RData> {
    match RData::new(alloc, class, record_type, octets) {
        Ok(data) => Ok(data),
        Err(_) => Err(BAD_LINE),
    }
}

/// Returns the record that is written as its owner, its class, its type, its time to live and its data, between commas.
pub(crate) fn record(alloc: Global, word: &str) -> ProtoResult<Record> {
    let (owner, rest) = word.split_once(',').ok_or(BAD_LINE)?;
    let (class, rest) = rest.split_once(',').ok_or(BAD_LINE)?;
    let (kind, rest) = rest.split_once(',').ok_or(BAD_LINE)?;
    let (ttl, digits) = rest.split_once(',').ok_or(BAD_LINE)?;
    let given = octets(alloc, digits)?;
    let class = DNSClass::from(number::<u16>(class)?);
    let kind = RecordType::from(number::<u16>(kind)?);
    Ok(Record {
        name: Name::from_ascii(alloc, owner)?,
        ttl: number::<u32>(ttl)?,
        data: data_of(alloc, class, kind, given.as_slice())?,
    })
}
