//! Names, call by call: their labels from both ends, and what is asked of a name where it stands in a message.

use crate::notation::{BAD_LINE, first_word, hexadecimal, name, number, octets, push_word};
use dns_names_wire::decoder::BinDecoder;
use dns_names_wire::error::ProtoResult;
use dns_names_wire::name::Name;
use dns_names_wire::name_ref::NameRef;
use std::alloc::Global;

/// Returns the answer to a request about the calls of one name.
pub(crate) fn answer(alloc: Global, kind: &str, words: &str) -> ProtoResult<String> {
    let (first, calls) = first_word(words)?;
    match kind {
        "walk" => walk(alloc, &name(alloc, first)?, calls),
        "borrowed" => {
            let (message, calls) = first_word(calls)?;
            let message = octets(alloc, message)?;
            borrowed(alloc, message.as_slice(), number(first)?, calls)
        }
        _ => Err(BAD_LINE),
    }
}

/// Makes the calls, one a word, of one iterator over the labels, and returns what each returned.
fn walk(alloc: Global, name: &Name, calls: &str) -> ProtoResult<String> {
    let mut labels = name.iter();
    let mut answers = String::new(alloc);
    for call in calls.split(' ') {
        let answer = match call {
            "next" => label_word(alloc, labels.next())?,
            "back" => label_word(alloc, labels.next_back())?,
            "len" => format!(in alloc; "{}", labels.len())?,
            "hint" => match labels.size_hint() {
                (lower, Some(upper)) => format!(in alloc; "{lower},{upper}")?,
                (lower, None) => format!(in alloc; "{lower},none")?,
            },
            _ => return Err(BAD_LINE),
        };
        push_word(&mut answers, answer.as_str())?;
    }
    Ok(answers)
}

fn label_word(alloc: Global, label: Option<&[u8]>) -> ProtoResult<String> {
    Ok(match label {
        Some(label) => hexadecimal(alloc, label)?,
        None => String::from_str(alloc, "none")?,
    })
}

/// Reads a name at an offset without a copy, makes the calls, one a word, and returns what each returned.
fn borrowed(alloc: Global, message: &[u8], start: usize, calls: &str) -> ProtoResult<String> {
    let mut decoder = BinDecoder::new(message);
    decoder.skip(start)?;
    let found = NameRef::read(&mut decoder)?;
    let mut answers = String::new(alloc);
    for call in calls.split(' ') {
        push_word(&mut answers, called(alloc, &found, call)?.as_str())?;
    }
    Ok(answers)
}

/// Makes a call, with the name after its colon if it takes one.
fn called(alloc: Global, found: &NameRef<'_>, call: &str) -> ProtoResult<String> {
    let (call, text) = call.split_once(':').unwrap_or((call, ""));
    Ok(match call {
        "labels" => label_words(alloc, found)?,
        "num_labels" => format!(in alloc; "{}", found.num_labels())?,
        "encoded_len" => format!(in alloc; "{}", found.encoded_len())?,
        "is_root" => format!(in alloc; "{}", found.is_root())?,
        "to_name" => format!(in alloc; "{:?}", found.to_name(alloc)?)?,
        "eq_name" => format!(in alloc; "{}", found.eq_name(&name(alloc, text)?))?,
        "zone_of" => format!(in alloc; "{}", found.zone_of(&name(alloc, text)?))?,
        _ => return Err(BAD_LINE),
    })
}

/// Returns the labels in hexadecimal, with commas between them.
fn label_words(alloc: Global, found: &NameRef<'_>) -> ProtoResult<String> {
    let mut words = String::new(alloc);
    for label in found.labels() {
        if !words.is_empty() {
            words.push_str(",")?;
        }
        words.push_str(hexadecimal(alloc, label)?.as_str())?;
    }
    if words.is_empty() {
        words.push_str("-")?;
    }
    Ok(words)
}
