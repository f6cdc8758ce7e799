//! The texts of errors, and of their copies.

use crate::notation::{BAD_LINE, first_word, number};
use dns_names_wire::error::{DecodeError, ProtoError, ProtoResult};
use std::alloc::{AllocError, Global};

/// Returns the text of an error, which is written as its type, its variant and the variant's values.
pub(crate) fn answer(alloc: Global, words: &str) -> ProtoResult<String> {
    let (kind, words) = first_word(words)?;
    let (variant, values) = words.split_once(' ').unwrap_or((words, ""));
    match kind {
        "proto" => shown(alloc, proto_error(alloc, variant, values)?),
        "decode" => shown_decode(alloc, decode_error(alloc, variant, values)?),
        "from" => shown(alloc, from(alloc, variant, values)?),
        "decode-from" => shown_decode(alloc, DecodeError::from(AllocError)),
        _ => Err(BAD_LINE),
    }
}

/// Returns an error's text, which is also that of its copy.
fn shown(alloc: Global, error: ProtoError) -> ProtoResult<String> {
    let text = error.to_string(alloc)?;
    if error.clone()?.to_string(alloc)?.as_str() == text.as_str() {
        Ok(text)
    } else {
        Err(ProtoError::Message("the copy has another text"))
    }
}

/// Returns an error's text, which is also that of its copy, and after other words that of the error that it becomes.
fn shown_decode(alloc: Global, error: DecodeError) -> ProtoResult<String> {
    let text = error.to_string(alloc)?;
    let copy = error.clone()?.to_string(alloc)?;
    let within = shown(alloc, ProtoError::from(error))?;
    if copy.as_str() == text.as_str()
        && within.as_str().strip_prefix("decoding error: ") == Some(text.as_str())
    {
        Ok(text)
    } else {
        Err(ProtoError::Message("the copy has another text"))
    }
}

/// Returns the error that a value becomes.
fn from(alloc: Global, kind: &str, text: &str) -> ProtoResult<ProtoError> {
    Ok(match kind {
        "String" => ProtoError::from(String::from_str(alloc, text)?),
        "str" => ProtoError::from("a fixed text"),
        "AllocError" => ProtoError::from(AllocError),
        _ => return Err(BAD_LINE),
    })
}

fn proto_error(alloc: Global, variant: &str, values: &str) -> ProtoResult<ProtoError> {
    Ok(match variant {
        "CharacterDataTooLong" => {
            let (max, len) = first_word(values)?;
            ProtoError::CharacterDataTooLong {
                max: number(max)?,
                len: number(len)?,
            }
        }
        "MaxBufferSizeExceeded" => ProtoError::MaxBufferSizeExceeded(number(values)?),
        "Msg" => ProtoError::Msg(String::from_str(alloc, values)?),
        "NotAllRecordsWritten" => ProtoError::NotAllRecordsWritten {
            count: number(values)?,
        },
        "NotAResponse" => ProtoError::NotAResponse,
        "Utf8" => ProtoError::Utf8,
        "FromUtf8" => ProtoError::FromUtf8,
        "ParseInt" => ProtoError::ParseInt,
        "Memory" => ProtoError::Memory,
        _ => return Err(BAD_LINE),
    })
}

fn decode_error(alloc: Global, variant: &str, values: &str) -> ProtoResult<DecodeError> {
    Ok(match variant {
        "InsufficientBytes" => DecodeError::InsufficientBytes,
        "InvalidEmptyRecord" => DecodeError::InvalidEmptyRecord,
        "InvalidPreviousIndex" => DecodeError::InvalidPreviousIndex,
        "RecordAfterSig" => DecodeError::RecordAfterSig,
        "DuplicateEdns" => DecodeError::DuplicateEdns,
        "SvcParamsOutOfOrder" => DecodeError::SvcParamsOutOfOrder,
        "SvcParamMissingValue" => DecodeError::SvcParamMissingValue,
        "NsecBitmapOutOfBounds" => DecodeError::NsecBitmapOutOfBounds,
        "CaaTagInvalid" => DecodeError::CaaTagInvalid,
        "NaptrFlagsInvalid" => DecodeError::NaptrFlagsInvalid,
        "Utf8" => DecodeError::Utf8,
        "Memory" => DecodeError::Memory,
        "UnknownDnsClassStr" => {
            DecodeError::UnknownDnsClassStr(String::from_str(alloc, values)?)
        }
        "UnknownRecordTypeStr" => {
            DecodeError::UnknownRecordTypeStr(String::from_str(alloc, values)?)
        }
        _ => return decode_error_with(variant, values),
    })
}

/// Returns an error with numbers.
fn decode_error_with(variant: &str, values: &str) -> ProtoResult<DecodeError> {
    Ok(match variant {
        "LabelBytesTooLong" => DecodeError::LabelBytesTooLong(number(values)?),
        "UnrecognizedLabelCode" => DecodeError::UnrecognizedLabelCode(number(values)?),
        "DomainNameTooLong" => DecodeError::DomainNameTooLong(number(values)?),
        "UnknownDigestAlgorithm" => DecodeError::UnknownDigestAlgorithm(number(values)?),
        "UnknownDnsClassValue" => DecodeError::UnknownDnsClassValue(number(values)?),
        "UnknownRecordTypeValue" => DecodeError::UnknownRecordTypeValue(number(values)?),
        "UnrecognizedNsec3Flags" => DecodeError::UnrecognizedNsec3Flags(number(values)?),
        "UnrecognizedCsyncFlags" => DecodeError::UnrecognizedCsyncFlags(number(values)?),
        "UnknownNsec3HashAlgorithm" => DecodeError::UnknownNsec3HashAlgorithm(number(values)?),
        "UnknownAddressFamily" => DecodeError::UnknownAddressFamily(number(values)?),
        _ => {
            let (first, second) = first_word(values)?;
            decode_error_with_two(variant, first, second)?
        }
    })
}

/// Returns an error with two numbers.
fn decode_error_with_two(variant: &str, first: &str, second: &str) -> ProtoResult<DecodeError> {
    Ok(match variant {
        "IncorrectRDataLengthRead" => DecodeError::IncorrectRDataLengthRead {
            read: number(first)?,
            len: number(second)?,
        },
        "PointerNotPriorToLabel" => DecodeError::PointerNotPriorToLabel {
            idx: number(first)?,
            ptr: number(second)?,
        },
        "LabelOverlapsWithOther" => DecodeError::LabelOverlapsWithOther {
            label: number(first)?,
            other: number(second)?,
        },
        _ => return Err(BAD_LINE),
    })
}
