//! Names read from messages, by each of the four readers.

use crate::messages;
use crate::notation::{BAD_LINE, first_word, number, octets, push_word};
use dns_names_wire::decoder::BinDecoder;
use dns_names_wire::error::{DecodeError, ProtoError, ProtoResult};
use dns_names_wire::name::Name;
use dns_names_wire::name_ref::{NameRef, ReadSteps};
use std::alloc::{AllocError, Global};

/// Returns the answer to a request about readings.
pub(crate) fn answer(alloc: Global, kind: &str, words: &str) -> ProtoResult<String> {
    match kind {
        "readings" => answer_each(alloc, words),
        "read" => {
            let (start, message) = first_word(words)?;
            read(alloc, octets(alloc, message)?.as_slice(), number(start)?)
        }
        "chain" | "blocks" => {
            let (start, count) = first_word(words)?;
            let message = match kind {
                "chain" => messages::chain(alloc, number(count)?)?,
                _ => messages::blocks(alloc, number(count)?)?,
            };
            read(alloc, message.as_slice(), number(start)?)
        }
        "cuts" => messages::cuts(alloc, octets(alloc, words)?.as_slice()),
        "octets" => {
            let (start, message) = first_word(words)?;
            messages::any_octet(alloc, octets(alloc, message)?, number(start)?)
        }
        "pairs" => messages::pairs(alloc),
        _ => Err(BAD_LINE),
    }
}

/// Reads at each offset of the message in turn, and returns the answers.
fn answer_each(alloc: Global, message: &str) -> ProtoResult<String> {
    let message = octets(alloc, message)?;
    let mut answers = String::new(alloc);
    for start in 0..message.len() + 1 {
        let answer = answer_at(alloc, message.as_slice(), start)?;
        push_word(&mut answers, answer.as_str())?;
    }
    Ok(answers)
}

/// Returns the answer to reading at an offset, in the word of the lists.
fn answer_at(alloc: Global, message: &[u8], start: usize) -> ProtoResult<String> {
    let mut decoder = BinDecoder::new(message);
    decoder.skip(start)?;
    match Name::read(alloc, &mut decoder) {
        Ok(name) => {
            let end = decoder.index();
            match decoder.slice_from(start) {
                Ok(own) if own == name.as_wire() => Ok(format!(in alloc; "{end}")?),
                _ => {
                    let form = hex::encode(alloc, name.as_wire())?;
                    Ok(format!(in alloc; "{end}:{form}")?)
                }
            }
        }
        Err(error) if decoder.index() == start => Ok(code_of(alloc, &error)?),
        Err(_) => Ok(String::from_str(alloc, "moved")?),
    }
}

/// Returns the word of the lists for an error.
pub(crate) fn code_of(alloc: Global, error: &DecodeError) -> Result<String, AllocError> {
    match error {
        DecodeError::InsufficientBytes => String::from_str(alloc, "c"),
        DecodeError::PointerNotPriorToLabel { idx, ptr } => format!(in alloc; "p{idx}.{ptr}"),
        DecodeError::LabelOverlapsWithOther { label, other } => {
            format!(in alloc; "o{label}.{other}")
        }
        DecodeError::UnrecognizedLabelCode(code) => format!(in alloc; "x{code}"),
        DecodeError::DomainNameTooLong(size) => format!(in alloc; "n{size}"),
        DecodeError::LabelBytesTooLong(size) => format!(in alloc; "b{size}"),
        other => format!(in alloc; "{other}"),
    }
}

/// Reads at an offset: the name or the error, the cursor then, and the numbers of pointers and labels.
fn read(alloc: Global, message: &[u8], start: usize) -> ProtoResult<String> {
    if agree(alloc, message, start)? {
        copied(alloc, message, start)
    } else {
        Err(ProtoError::Message("the readers differ"))
    }
}

/// Reads at an offset with a copy.
fn copied(alloc: Global, message: &[u8], start: usize) -> ProtoResult<String> {
    let mut decoder = BinDecoder::new(message);
    decoder.skip(start)?;
    let mut steps = ReadSteps::default();
    let name = Name::read_counted(alloc, &mut decoder, &mut steps);
    shown(alloc, name, &decoder, steps)
}

/// Reads at an offset without a copy.
fn borrowed(alloc: Global, message: &[u8], start: usize) -> ProtoResult<String> {
    let mut decoder = BinDecoder::new(message);
    decoder.skip(start)?;
    let mut steps = ReadSteps::default();
    let name = match NameRef::read_counted(&mut decoder, &mut steps) {
        Ok(name) => Ok(collected(alloc, &name)?),
        Err(error) => Err(error),
    };
    shown(alloc, name, &decoder, steps)
}

/// Collects the labels of a name one by one.
fn collected(alloc: Global, name: &NameRef<'_>) -> ProtoResult<Name> {
    let mut copy = Name::root(alloc);
    for label in name.labels() {
        copy = copy.append_label(alloc, label)?;
    }
    let same = name.eq_name(&copy)
        && name.zone_of(&copy)
        && name.is_in(&copy)
        && copy.as_wire() == name.to_name(alloc)?.as_wire()
        && copy.encoded_len() == name.encoded_len()
        && usize::from(name.num_labels()) == name.labels().len()
        && name.is_root() == copy.is_root();
    if same {
        Ok(copy)
    } else {
        Err(ProtoError::Message("a borrowed name is not its copy"))
    }
}

fn shown(
    alloc: Global,
    name: Result<Name, DecodeError>,
    decoder: &BinDecoder<'_>,
    steps: ReadSteps,
) -> ProtoResult<String> {
    let (cursor, pointers, labels) = (decoder.index(), steps.pointers, steps.labels);
    Ok(match name {
        Ok(name) => format!(in alloc; "{name} {cursor} {pointers} {labels}")?,
        Err(e) => format!(in alloc; "{e:?} {cursor} {pointers} {labels}")?,
    })
}

/// Returns `true` if the readers agree at an offset, in few steps, and a reader that fails leaves its cursor unchanged.
pub(crate) fn agree(alloc: Global, message: &[u8], start: usize) -> ProtoResult<bool> {
    let (first, second) = (
        copied(alloc, message, start)?,
        borrowed(alloc, message, start)?,
    );
    Ok(first.as_str() == second.as_str() && is_bounded(alloc, message, start)?)
}

/// Returns `true` if both readers find a name or neither does, in few steps, and a reader that fails leaves its cursor
/// unchanged.
pub(crate) fn is_bounded(alloc: Global, message: &[u8], start: usize) -> ProtoResult<bool> {
    let mut decoder = BinDecoder::new(message);
    decoder.skip(start)?;
    let mut steps = ReadSteps::default();
    let is_ok = NameRef::read_counted(&mut decoder, &mut steps).is_ok();
    let mut other = BinDecoder::new(message);
    other.skip(start)?;
    let is_same = Name::read(alloc, &mut other).is_ok() == is_ok
        && other.index() == decoder.index();
    let is_kept = is_ok || decoder.index() == start;
    Ok(is_same && is_kept && steps.pointers <= start.min(16384) && steps.labels <= 128)
}

/// Returns `true` if there is a name at an offset.
pub(crate) fn is_name(message: &[u8], start: usize) -> ProtoResult<bool> {
    let mut decoder = BinDecoder::new(message);
    decoder.skip(start)?;
    Ok(NameRef::read(&mut decoder).is_ok())
}
