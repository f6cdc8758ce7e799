//! The texts of the data of records.

use crate::notation::{BAD_LINE, first_word, hexadecimal, number, octets};
use dns_names_wire::data_text::{DataTextError, data_text, parse};
use dns_names_wire::decoder::BinDecoder;
use dns_names_wire::dns_class::DNSClass;
use dns_names_wire::error::{ProtoError, ProtoResult};
use dns_names_wire::record::RecordRef;
use dns_names_wire::record_type::RecordType;
use std::alloc::Global;

/// Returns the text of data of the type with a code, or the octets of the data that a text is.
pub(crate) fn answer(alloc: Global, kind: &str, words: &str) -> ProtoResult<String> {
    let (code, words) = first_word(words)?;
    let code: u16 = number(code)?;
    match kind {
        "data-text" => printed(alloc, code, octets(alloc, words)?.as_slice()),
        _ => parsed(alloc, code, words),
    }
}

/// Returns the text of data, which must be parsed as the same data.
fn printed(alloc: Global, code: u16, data: &[u8]) -> ProtoResult<String> {
    let Ok(len) = u16::try_from(data.len()) else {
        return Err(BAD_LINE);
    };
    let mut message = Vec::from_slice(alloc, &[0])?;
    message.extend_from_slice(&code.to_be_bytes())?;
    message.extend_from_slice(&[0, 1, 0, 0, 0, 0])?;
    message.extend_from_slice(&len.to_be_bytes())?;
    message.extend_from_slice(data)?;
    let Ok(record) = RecordRef::read_next(&mut BinDecoder::new(message.as_slice())) else {
        return Err(BAD_LINE);
    };
    let text = data_text(alloc, &record)?;
    let back = parsed(alloc, code, text.as_str())?;
    if back.as_str() == hexadecimal(alloc, data)?.as_str() {
        Ok(text)
    } else {
        Ok(format!(in alloc; "{text}, but {back}")?)
    }
}

/// Returns the octets of the data that a text is, or the error.
fn parsed(alloc: Global, code: u16, text: &str) -> ProtoResult<String> {
    match parse(alloc, DNSClass::IN, RecordType::from(code), text, None) {
        Ok(data) => Ok(hexadecimal(alloc, data.as_slice())?),
        Err(DataTextError::Memory) => Err(ProtoError::Memory),
        Err(error) => Ok(format!(in alloc; "err: {error}")?),
    }
}
