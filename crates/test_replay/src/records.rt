//! The data of records, as they are and in canonical form.

use crate::notation::{decode_error_word, first_word, hexadecimal, number, octets};
use dns_names_wire::canonical::canonical_octets;
use dns_names_wire::dns_class::DNSClass;
use dns_names_wire::error::{ProtoError, ProtoResult};
use dns_names_wire::rdata::{RData, RDataError};
use dns_names_wire::record_type::RecordType;
use std::alloc::Global;

/// Returns the octets of data of the type with a code, and those in canonical form; or the error, with the number of its field.
pub(crate) fn answer(alloc: Global, words: &str) -> ProtoResult<String> {
    let (code, data) = first_word(words)?;
    let octets = octets(alloc, data)?;
    let kind = RecordType::from(number::<u16>(code)?);
    match RData::new(alloc, DNSClass::IN, kind, octets.as_slice()) {
        Ok(data) => both(alloc, &data),
        Err(RDataError::Field(error)) => {
            let cause = decode_error_word(alloc, &error.cause)?;
            Ok(format!(in alloc; "err:{}:{cause}", error.field)?)
        }
        Err(RDataError::Memory) => Err(ProtoError::Memory),
    }
}

/// Returns the octets of data, and those in canonical form.
fn both(alloc: Global, data: &RData) -> ProtoResult<String> {
    let plain = hexadecimal(alloc, data.octets())?;
    let canonical = hexadecimal(alloc, canonical_octets(alloc, data)?.as_slice())?;
    Ok(format!(in alloc; "{plain} {canonical}")?)
}
