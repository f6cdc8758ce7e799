//! The texts of names, both ways.

use crate::names::shown;
use crate::notation::{BAD_LINE, first_word, octets};
use crate::readings::code_of;
use dns_names_wire::decoder::BinDecoder;
use dns_names_wire::error::{ProtoError, ProtoResult};
use dns_names_wire::name::Name;
use std::alloc::{AllocError, Global};

/// Returns the answer to a request about texts.
pub(crate) fn answer(alloc: Global, kind: &str, words: &str) -> ProtoResult<String> {
    match kind {
        "text" => parsed(alloc, words),
        "print" => printed(alloc, words),
        "parse" => parse(alloc, words),
        "origin" => {
            let (origin, text) = words.split_once(' ').unwrap_or((words, ""));
            let origin = Name::from_ascii(alloc, origin)?;
            shown(alloc, Name::parse(alloc, text, Some(&origin)))
        }
        _ => Err(BAD_LINE),
    }
}

/// Parses a text by each call that does.
fn parse(alloc: Global, text: &str) -> ProtoResult<String> {
    let answer = shown(alloc, Name::from_ascii(alloc, text))?;
    for other in [
        shown(alloc, Name::from_str(alloc, text))?,
        shown(alloc, Name::from_str_relaxed(alloc, text))?,
        shown(alloc, Name::parse(alloc, text, None))?,
    ] {
        if other.as_str() != answer.as_str() {
            return Err(ProtoError::Message("the calls differ"));
        }
    }
    Ok(answer)
}

/// Prints the name with this flag and wire form.
fn printed(alloc: Global, words: &str) -> ProtoResult<String> {
    let (flag, form) = first_word(words)?;
    let form = octets(alloc, form)?;
    let mut decoder = BinDecoder::new(form.as_slice());
    let mut name = Name::read(alloc, &mut decoder)?;
    name.set_fqdn(flag == "1");
    name.to_ascii(alloc)
}

/// Parses a text in hexadecimal, and returns the answer in the words of the lists.
fn parsed(alloc: Global, text: &str) -> ProtoResult<String> {
    let text = octets(alloc, text)?;
    let Ok(text) = str::from_utf8(text.as_slice()) else {
        return Err(BAD_LINE);
    };
    let name = match Name::from_ascii(alloc, text) {
        Ok(name) => name,
        Err(error) => return Ok(code_of_failure(alloc, &error)?),
    };
    let flag = if name.is_fqdn() { 1 } else { 0 };
    let shown = name.to_ascii(alloc)?;
    if shown.as_str() == text {
        Ok(format!(in alloc; "{flag}=")?)
    } else {
        Ok(format!(in alloc; "{flag}{shown}")?)
    }
}

/// Returns the word of the lists for an error.
fn code_of_failure(alloc: Global, error: &ProtoError) -> Result<String, AllocError> {
    match error {
        ProtoError::Decode(cause) => {
            let code = code_of(alloc, cause)?;
            format!(in alloc; "!{code}")
        }
        ProtoError::Message("unfinished escape") => String::from_str(alloc, "!e"),
        ProtoError::Msg(text) => code_of_text(alloc, text.as_str()),
        other => format!(in alloc; "!{other}"),
    }
}

/// Returns the word for an error with a text of its own: which one, and the rest of the text.
fn code_of_text(alloc: Global, text: &str) -> Result<String, AllocError> {
    for (begin, code) in [
        ("Malformed label: ", "m"),
        ("unrecognized char: ", "u"),
        ("illegal char: ", "i"),
    ] {
        if let Some(rest) = text.strip_prefix(begin) {
            let rest = hex::encode(alloc, rest)?;
            return format!(in alloc; "!{code}:{rest}");
        }
    }
    format!(in alloc; "!{text}")
}
