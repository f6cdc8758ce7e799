//! A decoder, call by call.

use crate::notation::{
    BAD_LINE, decode_error_word, first_word, hexadecimal, number, octets, push_word,
};
use dns_names_wire::binary::BinDecodable;
use dns_names_wire::decoder::BinDecoder;
use dns_names_wire::error::{DecodeError, ProtoResult};
use dns_names_wire::lower_name::LowerName;
use dns_names_wire::name::Name;
use dns_names_wire::restrict::Restrict;
use std::alloc::Global;
use std::fmt::Display;

/// Returns the answer to a request about decoding.
pub(crate) fn answer(alloc: Global, kind: &str, words: &str) -> ProtoResult<String> {
    let (first, others) = first_word(words)?;
    match kind {
        "decode" => decode(alloc, octets(alloc, first)?.as_slice(), others),
        "from-bytes" => from_bytes(alloc, first, octets(alloc, others)?.as_slice()),
        _ => Err(BAD_LINE),
    }
}

/// Makes the calls, one a word, and returns what each returned, and the cursor.
fn decode(alloc: Global, message: &[u8], calls: &str) -> ProtoResult<String> {
    let mut decoder = BinDecoder::new(message);
    let mut answers = String::new(alloc);
    for call in calls.split(' ') {
        let (name, argument) = call.split_once(':').unwrap_or((call, ""));
        let answer = if argument.is_empty() {
            call_without(alloc, name, &mut decoder)?
        } else {
            call_with(alloc, name, number(argument)?, &mut decoder)?
        };
        push_word(&mut answers, answer.as_str())?;
    }
    push_word(
        &mut answers,
        format!(in alloc; "@{}", decoder.index())?.as_str(),
    )?;
    Ok(answers)
}

/// Makes a call without an argument.
fn call_without(alloc: Global, name: &str, decoder: &mut BinDecoder<'_>) -> ProtoResult<String> {
    match name {
        "pop" => shown(alloc, decoder.pop()),
        "u8" => shown(alloc, decoder.read_u8()),
        "u16" => shown(alloc, decoder.read_u16()),
        "i32" => shown(alloc, decoder.read_i32()),
        "u32" => shown(alloc, decoder.read_u32()),
        "char" => {
            let read = decoder.read_character_data().map(Restrict::unverified);
            shown_octets(alloc, read)
        }
        "name" => shown_name(alloc, Name::read(alloc, decoder)),
        "lower" => match LowerName::read(alloc, decoder) {
            Ok(name) => shown_name(alloc, Ok(name.into_name())),
            Err(error) => shown_error(alloc, error),
        },
        "peek" => Ok(match decoder.peek() {
            Some(octet) => format!(in alloc; "{}", octet.unverified())?,
            None => String::from_str(alloc, "none")?,
        }),
        "index" => Ok(format!(in alloc; "{}", decoder.index())?),
        "len" => Ok(format!(in alloc; "{}", decoder.len())?),
        "empty" => Ok(format!(in alloc; "{}", decoder.is_empty())?),
        "message" => Ok(hexadecimal(alloc, decoder.message())?),
        _ => Err(BAD_LINE),
    }
}

/// Makes a call with a number.
fn call_with(
    alloc: Global,
    name: &str,
    number: u16,
    decoder: &mut BinDecoder<'_>,
) -> ProtoResult<String> {
    let len = usize::from(number);
    match name {
        "slice" => {
            let read = decoder.read_slice(len).map(Restrict::unverified);
            shown_octets(alloc, read)
        }
        "vec" => match decoder.read_vec(alloc, len) {
            Ok(read) => Ok(hexadecimal(alloc, read.unverified().as_slice())?),
            Err(error) => shown_error(alloc, error),
        },
        "from" => shown_octets(alloc, decoder.slice_from(len)),
        "skip" => match decoder.skip(len) {
            Ok(()) => Ok(String::from_str(alloc, "ok")?),
            Err(error) => shown_error(alloc, error),
        },
        "clone" if len <= decoder.message().len() => {
            *decoder = decoder.clone(number);
            Ok(String::from_str(alloc, "ok")?)
        }
        "copy" if len <= decoder.message().len() => shown_decoder(alloc, &decoder.clone(number)),
        _ => Err(BAD_LINE),
    }
}

/// Returns a decoder's index, how many octets it has left, and the next one.
fn shown_decoder(alloc: Global, decoder: &BinDecoder<'_>) -> ProtoResult<String> {
    let (index, len) = (decoder.index(), decoder.len());
    Ok(match decoder.peek() {
        Some(octet) => format!(in alloc; "{index},{len},{}", octet.unverified())?,
        None => format!(in alloc; "{index},{len},none")?,
    })
}

/// Returns a number that was read, or the error.
fn shown<T: Display + Drop>(
    alloc: Global,
    read: Result<Restrict<T>, DecodeError>,
) -> ProtoResult<String> {
    match read {
        Ok(number) => Ok(format!(in alloc; "{}", number.unverified())?),
        Err(error) => shown_error(alloc, error),
    }
}

fn shown_octets(alloc: Global, read: Result<&[u8], DecodeError>) -> ProtoResult<String> {
    match read {
        Ok(octets) => Ok(hexadecimal(alloc, octets)?),
        Err(error) => shown_error(alloc, error),
    }
}

fn shown_error(alloc: Global, error: DecodeError) -> ProtoResult<String> {
    let error = decode_error_word(alloc, &error)?;
    Ok(format!(in alloc; "err:{error}")?)
}

/// Returns a name as its flag and its labels in hexadecimal, or the error.
fn shown_name(alloc: Global, name: Result<Name, DecodeError>) -> ProtoResult<String> {
    let name = match name {
        Ok(name) => name,
        Err(error) => return shown_error(alloc, error),
    };
    let mut labels = String::new(alloc);
    for label in name.iter() {
        if !labels.is_empty() {
            labels.push_str(",")?;
        }
        labels.push_str(hexadecimal(alloc, label)?.as_str())?;
    }
    if labels.is_empty() {
        labels.push_str("-")?;
    }
    let flag = if name.is_fqdn() { 1 } else { 0 };
    Ok(format!(in alloc; "{flag}:{labels}")?)
}

/// Reads a value of a type at the start of bytes.
fn from_bytes(alloc: Global, kind: &str, bytes: &[u8]) -> ProtoResult<String> {
    match kind {
        "u16" => shown(alloc, u16::from_bytes(alloc, bytes).map(Restrict::new)),
        "i32" => shown(alloc, i32::from_bytes(alloc, bytes).map(Restrict::new)),
        "u32" => shown(alloc, u32::from_bytes(alloc, bytes).map(Restrict::new)),
        "name" => shown_name(alloc, <Name as BinDecodable>::from_bytes(alloc, bytes)),
        _ => Err(BAD_LINE),
    }
}
