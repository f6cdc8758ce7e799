//! Labels by their calls.

use crate::notation::{BAD_LINE, hexadecimal, octets};
use dns_names_wire::error::{ProtoError, ProtoResult};
use dns_names_wire::label::{IntoLabel, Label};
use std::alloc::Global;

/// Returns the answer to a request about labels.
pub(crate) fn answer(alloc: Global, kind: &str, words: &str) -> ProtoResult<String> {
    match kind {
        "label" => {
            let octets = octets(alloc, words)?;
            shown(alloc, Label::from_raw_bytes(alloc, octets.as_slice()))
        }
        "label-text" => octets_of(alloc, Label::from_ascii(alloc, words)),
        _ => {
            let (kind, value) = words.split_once(' ').unwrap_or((words, ""));
            octets_of(alloc, converted(alloc, kind, value))
        }
    }
}

/// Converts a value of a type into a label.
fn converted(alloc: Global, kind: &str, value: &str) -> ProtoResult<Label> {
    match kind {
        "str" => value.into_label(alloc),
        "String" => String::from_str(alloc, value)?.into_label(alloc),
        "bytes" => octets(alloc, value)?.as_slice().into_label(alloc),
        "Vec" => octets(alloc, value)?.into_label(alloc),
        "Label" => Label::from_ascii(alloc, value)?.into_label(alloc),
        "ref" => (&Label::from_ascii(alloc, value)?).into_label(alloc),
        _ => Err(BAD_LINE),
    }
}

fn octets_of(alloc: Global, label: ProtoResult<Label>) -> ProtoResult<String> {
    match label {
        Ok(label) => Ok(hexadecimal(alloc, label.as_bytes())?),
        Err(e) => Ok(format!(in alloc; "{e:?}")?),
    }
}

/// Returns a label's length and text, which each of its calls must give.
fn shown(alloc: Global, label: ProtoResult<Label>) -> ProtoResult<String> {
    let label = match label {
        Ok(label) => label.clone()?,
        Err(e) => return Ok(format!(in alloc; "{e:?}")?),
    };
    let ascii = label.to_ascii(alloc)?;
    let mut written = String::new(alloc);
    if label.write_ascii(&mut written).is_err() {
        return Err(ProtoError::Memory);
    }
    let printed = format!(in alloc; "{label} {label:?}")?;
    let twice = format!(in alloc; "{ascii} {ascii}")?;
    let same = written.as_str() == ascii.as_str() && printed.as_str() == twice.as_str();
    if !same || label.is_empty() {
        return Err(ProtoError::Message("the label's texts differ"));
    }
    Ok(format!(in alloc; "{} {ascii}", label.len())?)
}
