//! How lines write octets, numbers, names and ways to write names.

use dns_names_wire::encoder::NameEncoding;
use dns_names_wire::error::{DecodeError, ProtoError, ProtoResult};
use dns_names_wire::name::Name;
use hex::FromHexError;
use std::alloc::{AllocError, Global};
use std::str::FromStr;

/// The error of a line that is not a request.
pub(crate) const BAD_LINE: ProtoError = ProtoError::Message("not a request");

/// Writes out the parts of a line that are repeated: `<a.×3>` stands for `a.a.a.`.
pub(crate) fn repeated(alloc: Global, line: &str) -> ProtoResult<String> {
    let (before, others) = line.split_once('<').ok_or(BAD_LINE)?;
    let mut out = String::from_str(alloc, before)?;
    for part in others.split('<') {
        let (part, rest) = part.split_once('>').ok_or(BAD_LINE)?;
        let (part, times) = part.split_once('×').ok_or(BAD_LINE)?;
        for _ in 0..number::<u32>(times)? {
            out.push_str(part)?;
        }
        out.push_str(rest)?;
    }
    Ok(out)
}

/// Returns the octets that are written in hexadecimal; `-` stands for none.
pub(crate) fn octets(alloc: Global, text: &str) -> ProtoResult<Vec<u8>> {
    if text == "-" {
        return Ok(Vec::new(alloc));
    }
    hex::decode(alloc, text).map_err(|e| match e {
        FromHexError::OutOfMemory => ProtoError::Memory,
        _ => BAD_LINE,
    })
}

/// Returns octets in hexadecimal; `-` stands for none.
pub(crate) fn hexadecimal(alloc: Global, octets: &[u8]) -> Result<String, AllocError> {
    if octets.is_empty() {
        return String::from_str(alloc, "-");
    }
    hex::encode(alloc, octets)
}

/// Returns as many zero octets.
pub(crate) fn zeros(alloc: Global, count: &str) -> ProtoResult<Vec<u8>> {
    let mut octets = Vec::new(alloc);
    octets.resize(number(count)?, 0)?;
    Ok(octets)
}

/// Returns the number that is written in decimal.
pub(crate) fn number<T: FromStr>(digits: &str) -> ProtoResult<T>
where
    T::Err: Drop,
{
    digits.parse::<T>().map_err(|_| BAD_LINE)
}

/// Returns the first word and the others.
pub(crate) fn first_word(words: &str) -> ProtoResult<(&str, &str)> {
    words.split_once(' ').ok_or(BAD_LINE)
}

/// Returns the name that is written as a text, or as `1` (fully qualified) or `0` and after a colon its labels in
/// hexadecimal, between commas.
pub(crate) fn name(alloc: Global, text: &str) -> ProtoResult<Name> {
    let Some((flag, labels)) = text.split_once(':') else {
        return Name::from_ascii(alloc, text);
    };
    let mut name = Name::new(alloc);
    if labels != "-" {
        for label in labels.split(',') {
            name = name.append_label(alloc, octets(alloc, label)?)?;
        }
    }
    name.set_fqdn(flag == "1");
    Ok(name)
}

/// Returns the way to write names that a letter stands for.
pub(crate) fn mode(letter: &str) -> ProtoResult<NameEncoding> {
    Ok(match letter {
        "C" => NameEncoding::Compressed,
        "U" => NameEncoding::Uncompressed,
        "L" => NameEncoding::UncompressedLowercase,
        _ => return Err(BAD_LINE),
    })
}

/// Returns the letter of a way to write names.
pub(crate) fn letter(mode: NameEncoding) -> &'static str {
    match mode {
        NameEncoding::Compressed => "C",
        NameEncoding::Uncompressed => "U",
        NameEncoding::UncompressedLowercase => "L",
    }
}

/// Returns the word for an error: its Debug text without blanks.
pub(crate) fn error_word(alloc: Global, error: &ProtoError) -> Result<String, AllocError> {
    without_blanks(alloc, format!(in alloc; "{error:?}")?.as_str())
}

/// Returns the word for an error of reading.
pub(crate) fn decode_error_word(alloc: Global, error: &DecodeError) -> Result<String, AllocError> {
    without_blanks(alloc, format!(in alloc; "{error:?}")?.as_str())
}

fn without_blanks(alloc: Global, text: &str) -> Result<String, AllocError> {
    let mut word = String::new(alloc);
    for part in text.split(' ') {
        word.push_str(part)?;
    }
    Ok(word)
}

/// Adds a word to others, after a blank.
pub(crate) fn push_word(words: &mut String, word: &str) -> Result<(), AllocError> {
    if !words.is_empty() {
        words.push_str(" ")?;
    }
    words.push_str(word)
}
