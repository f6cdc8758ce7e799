//! Scripts, their replies, and what is read back of what they wrote.

use crate::buffer::{Buffer, is_setting};
use crate::notation::{
    BAD_LINE, error_word, hexadecimal, letter, mode, name, number, octets, push_word, zeros,
};
use crate::read_back::read_back;
use dns_names_wire::encoder::{BinEncoder, CANDIDATE_LIMIT, NAME_LIMIT};
use dns_names_wire::error::ProtoResult;
use dns_names_wire::script::{self, Item, Part, Reply, Step};
use std::alloc::Global;

/// Returns the answer to a request about scripts.
pub(crate) fn answer(alloc: Global, kind: &str, words: &str) -> ProtoResult<String> {
    match kind {
        "script" | "script-end" | "script-replies" | "script-done" => run(alloc, kind, words),
        "items" => emit_items(alloc, words),
        _ => Err(BAD_LINE),
    }
}

/// Runs the steps, one a word, after what the buffer has, and returns what this kind of request is about.
fn run(alloc: Global, kind: &str, words: &str) -> ProtoResult<String> {
    let mut buffer = Buffer::new(alloc, words)?;
    let start = buffer.bytes.len();
    if start > 65536 {
        return Err(BAD_LINE);
    }
    let steps = steps(alloc, words)?;
    let replies = if buffer.candidates == CANDIDATE_LIMIT && buffer.names == NAME_LIMIT {
        script::run(alloc, &mut buffer.bytes, steps.as_slice())?
    } else {
        let (candidates, names) = (buffer.candidates, buffer.names);
        script::run_limited(
            alloc,
            &mut buffer.bytes,
            steps.as_slice(),
            candidates,
            names,
        )?
    };
    let (steps, replies, message) = (
        steps.as_slice(),
        replies.as_slice(),
        buffer.bytes.as_slice(),
    );
    let names = read_back(alloc, message, start, steps, replies)?;
    shown(alloc, kind, replies, message, names.as_str())
}

/// Returns what a kind of request is about: the replies, the message and its names, or some of them.
fn shown(
    alloc: Global,
    kind: &str,
    replies: &[Reply],
    message: &[u8],
    names: &str,
) -> ProtoResult<String> {
    let last = message
        .get(message.len().saturating_sub(2)..)
        .unwrap_or(message);
    match kind {
        "script" => {
            let told = reply_words(alloc, replies)?;
            let message = hexadecimal(alloc, message)?;
            Ok(format!(in alloc; "{told} | {message} |{names}")?)
        }
        "script-replies" => {
            let told = reply_words(alloc, replies)?;
            Ok(format!(in alloc; "{told} | {}", hexadecimal(alloc, last)?)?)
        }
        "script-end" => {
            let told = reply_word(alloc, replies.last().ok_or(BAD_LINE)?)?;
            Ok(format!(in alloc; "{told} {}", hexadecimal(alloc, last)?)?)
        }
        _ => Ok(format!(in alloc; "{} {}", count_done(replies), message.len())?),
    }
}

fn reply_words(alloc: Global, replies: &[Reply]) -> ProtoResult<String> {
    let mut told = String::new(alloc);
    for reply in replies {
        push_word(&mut told, reply_word(alloc, reply)?.as_str())?;
    }
    Ok(told)
}

/// Returns how many steps were done.
fn count_done(replies: &[Reply]) -> usize {
    let mut count = 0usize;
    for reply in replies {
        if let Reply::Done { len: _ } = reply {
            count = count.saturating_add(1);
        }
    }
    count
}

fn reply_word(alloc: Global, reply: &Reply) -> ProtoResult<String> {
    Ok(match reply {
        Reply::Done { len } => format!(in alloc; "ok:{len}")?,
        Reply::Refused { error, len } => {
            format!(in alloc; "err:{}:{len}", error_word(alloc, error)?)?
        }
        Reply::NoPlace => String::from_str(alloc, "noplace")?,
        Reply::Items {
            count,
            error: None,
            len,
        } => format!(in alloc; "items:{count}:{len}")?,
        Reply::Items {
            count,
            error: Some(error),
            len,
        } => format!(in alloc; "items-err:{count}:{}:{len}", error_word(alloc, error)?)?,
    })
}

/// Returns the steps, one a word.
fn steps(alloc: Global, words: &str) -> ProtoResult<Vec<Step>> {
    let mut steps = Vec::new(alloc);
    for word in words.split(' ') {
        let (kind, rest) = word.split_once(':').unwrap_or((word, ""));
        if !is_setting(kind) {
            steps.push(step(alloc, kind, rest)?)?;
        }
    }
    Ok(steps)
}

fn step(alloc: Global, kind: &str, rest: &str) -> ProtoResult<Step> {
    Ok(match kind {
        "max" => Step::Max(number(rest)?),
        "enc" => Step::Encoding(mode(rest)?),
        "place" => Step::Reserve,
        "fill" => {
            let (place, value) = rest.split_once(':').ok_or(BAD_LINE)?;
            Step::Fill {
                place: number(place)?,
                value: number(value)?,
            }
        }
        "items" => Step::Items(items(alloc, rest)?),
        _ => match part(alloc, kind, rest)? {
            Part::Name(name) => Step::Name(name),
            Part::U8(number) => Step::U8(number),
            Part::U16(number) => Step::U16(number),
            Part::I32(number) => Step::I32(number),
            Part::U32(number) => Step::U32(number),
            Part::Bytes(bytes) => Step::Bytes(bytes),
            Part::Text(text) => Step::Text(text),
        },
    })
}

/// Returns the items, between bars.
fn items(alloc: Global, text: &str) -> ProtoResult<Vec<Item>> {
    let mut items = Vec::new(alloc);
    for text in text.split('|') {
        items.push(item(alloc, text)?)?;
    }
    Ok(items)
}

/// Returns the item, whose parts are between commas.
fn item(alloc: Global, text: &str) -> ProtoResult<Item> {
    let mut item = Item {
        encoding: None,
        parts: Vec::new(alloc),
    };
    for text in text.split(',') {
        let (kind, rest) = text.split_once(':').ok_or(BAD_LINE)?;
        match kind {
            "enc" => item.encoding = Some(mode(rest)?),
            _ => item.parts.push(part(alloc, kind, rest)?)?,
        }
    }
    Ok(item)
}

fn part(alloc: Global, kind: &str, rest: &str) -> ProtoResult<Part> {
    Ok(match kind {
        "n" => Part::Name(name(alloc, rest)?),
        "u8" => Part::U8(number(rest)?),
        "u16" => Part::U16(number(rest)?),
        "i32" => Part::I32(number(rest)?),
        "u32" => Part::U32(number(rest)?),
        "vec" => Part::Bytes(octets(alloc, rest)?),
        "zeros" => Part::Bytes(zeros(alloc, rest)?),
        "char" => Part::Text(octets(alloc, rest)?),
        "charzeros" => Part::Text(zeros(alloc, rest)?),
        _ => return Err(BAD_LINE),
    })
}

/// Writes items with an encoder, and returns how many it wrote, the way to write names then, and the bytes.
fn emit_items(alloc: Global, text: &str) -> ProtoResult<String> {
    let items = items(alloc, text)?;
    let mut message = Vec::new(alloc);
    let mut encoder = BinEncoder::new(&mut message);
    let outcome = encoder.emit_all(items.iter());
    let mode = letter(encoder.name_encoding());
    drop(encoder);
    let message = hexadecimal(alloc, message.as_slice())?;
    Ok(match outcome {
        Ok(count) => format!(in alloc; "items:{count} {mode} {message}")?,
        Err(e) => format!(in alloc; "items-err:{} {mode} {message}", error_word(alloc, &e)?)?,
    })
}
