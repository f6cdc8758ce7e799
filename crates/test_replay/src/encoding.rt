//! An encoder, step by step.

use crate::buffer::{Buffer, is_setting};
use crate::notation::{
    BAD_LINE, error_word, first_word, hexadecimal, letter, mode, name, number, octets, push_word,
    zeros,
};
use dns_names_wire::binary::BinEncodable;
use dns_names_wire::encoder::{BinEncoder, NameEncoding, Place, RDataEncoding};
use dns_names_wire::error::ProtoResult;
use dns_names_wire::name::Name;
use std::alloc::Global;

/// Returns the answer to a request about encoding.
pub(crate) fn answer(alloc: Global, kind: &str, words: &str) -> ProtoResult<String> {
    match kind {
        "encode" => encode(alloc, words),
        "encode-numbered" => encode_numbered(alloc, words),
        "to-bytes" => to_bytes(alloc, words),
        _ => Err(BAD_LINE),
    }
}

/// The guard that is in force.
#[derive(Clone, Copy)]
enum Guard {
    Mode(NameEncoding),
    RData(RDataEncoding),
}

/// What steps refer to.
#[derive(Drop)]
struct Steps {
    places: Vec<Option<Place<u16>>>,
    guard: Option<Guard>,
}

/// Takes the steps, one a word, and returns the reply to each, what the buffer has then, and the offset.
fn encode(alloc: Global, words: &str) -> ProtoResult<String> {
    let mut buffer = Buffer::new(alloc, words)?;
    let offset = buffer.offset;
    if offset as usize > buffer.bytes.len() {
        return Err(BAD_LINE);
    }
    let mut encoder = BinEncoder::with_offset(&mut buffer.bytes, offset).with_limits(
        buffer.candidates,
        buffer.names,
    );
    let mut steps = Steps {
        places: Vec::new(alloc),
        guard: None,
    };
    let mut replies = String::new(alloc);
    for word in words.split(' ') {
        let reply = take(alloc, word, &mut encoder, &mut steps)?;
        if !reply.is_empty() {
            push_word(&mut replies, reply.as_str())?;
        }
    }
    let offset = encoder.offset();
    drop(encoder);
    let bytes = hexadecimal(alloc, buffer.bytes.as_slice())?;
    Ok(format!(in alloc; "{replies} | {bytes} off={offset}")?)
}

/// Takes a step, in the guard that is in force, and returns its reply.
fn take(
    alloc: Global,
    word: &str,
    encoder: &mut BinEncoder<'_>,
    steps: &mut Steps,
) -> ProtoResult<String> {
    let (kind, rest) = word.split_once(':').unwrap_or((word, ""));
    match kind {
        _ if is_setting(kind) => Ok(String::new(alloc)),
        "with" => {
            steps.guard = Some(Guard::Mode(mode(rest)?));
            Ok(String::new(alloc))
        }
        "rdata" => {
            let kind = rdata(rest)?;
            steps.guard = Some(Guard::RData(kind));
            let guard = encoder.with_rdata_behavior(kind);
            Ok(format!(in alloc; "rdata:{}", letter(guard.name_encoding()))?)
        }
        "end" => {
            steps.guard = None;
            let letter = letter(encoder.name_encoding());
            Ok(format!(in alloc; "end:{letter}:{}", encoder.len())?)
        }
        _ => take_guarded(alloc, kind, rest, encoder, steps),
    }
}

fn rdata(letter: &str) -> ProtoResult<RDataEncoding> {
    Ok(match letter {
        "S" => RDataEncoding::StandardRecord,
        "C" => RDataEncoding::Canonical,
        "O" => RDataEncoding::Other,
        _ => return Err(BAD_LINE),
    })
}

fn take_guarded(
    alloc: Global,
    kind: &str,
    rest: &str,
    encoder: &mut BinEncoder<'_>,
    steps: &mut Steps,
) -> ProtoResult<String> {
    match steps.guard {
        None => step(alloc, kind, rest, encoder, &mut steps.places),
        Some(Guard::Mode(mode)) => {
            let mut guard = encoder.with_name_encoding(mode);
            step(alloc, kind, rest, &mut guard, &mut steps.places)
        }
        Some(Guard::RData(data)) => {
            let mut guard = encoder.with_rdata_behavior(data);
            step(alloc, kind, rest, &mut guard, &mut steps.places)
        }
    }
}

/// Takes a step of a kind.
fn step(
    alloc: Global,
    kind: &str,
    rest: &str,
    encoder: &mut BinEncoder<'_>,
    places: &mut Vec<Option<Place<u16>>>,
) -> ProtoResult<String> {
    match kind {
        "place" => {
            let outcome = match encoder.place() {
                Ok(place) => Ok(places.push(Some(place))?),
                Err(error) => Err(error),
            };
            reply(alloc, outcome, encoder)
        }
        "fill" => fill(alloc, rest, encoder, places),
        "since" => since(alloc, rest, encoder, places),
        "holds" => holds(alloc, rest, encoder, places),
        "all" => all(alloc, rest, encoder),
        "slp" | "glp" | "slice" => {
            let (start, end) = rest.split_once(':').ok_or(BAD_LINE)?;
            look(alloc, kind, number(start)?, number(end)?, encoder)
        }
        "state" => state(alloc, encoder),
        "max" | "enc" | "canon" | "off" | "trim" => {
            set(kind, rest, encoder)?;
            reply(alloc, Ok(()), encoder)
        }
        _ => {
            let outcome = write(alloc, kind, rest, encoder);
            reply(alloc, outcome, encoder)
        }
    }
}

/// Returns the reply to a write.
fn reply(alloc: Global, outcome: ProtoResult<()>, encoder: &BinEncoder<'_>) -> ProtoResult<String> {
    let len = encoder.len();
    Ok(match outcome {
        Ok(()) => format!(in alloc; "ok:{len}")?,
        Err(error) => format!(in alloc; "err:{}:{len}", error_word(alloc, &error)?)?,
    })
}

/// Fills a placeholder, which is used up then.
fn fill(
    alloc: Global,
    rest: &str,
    encoder: &mut BinEncoder<'_>,
    places: &mut Vec<Option<Place<u16>>>,
) -> ProtoResult<String> {
    let (index, value) = rest.split_once(':').ok_or(BAD_LINE)?;
    let place = match places.get_mut(number::<usize>(index)?) {
        Some(place) => place.take(),
        None => None,
    };
    match place {
        Some(place) if encoder.holds(&place) => {
            let outcome = place.replace(encoder, number(value)?);
            reply(alloc, outcome, encoder)
        }
        _ => Ok(String::from_str(alloc, "noplace")?),
    }
}

/// Returns the length since a placeholder.
fn since(
    alloc: Global,
    index: &str,
    encoder: &BinEncoder<'_>,
    places: &[Option<Place<u16>>],
) -> ProtoResult<String> {
    match places.get(number::<usize>(index)?) {
        Some(Some(place)) if encoder.holds(place) => {
            Ok(format!(in alloc; "since:{}", encoder.len_since_place(place))?)
        }
        _ => Ok(String::from_str(alloc, "noplace")?),
    }
}

/// Returns whether the encoder holds a placeholder.
fn holds(
    alloc: Global,
    index: &str,
    encoder: &BinEncoder<'_>,
    places: &[Option<Place<u16>>],
) -> ProtoResult<String> {
    match places.get(number::<usize>(index)?) {
        Some(Some(place)) => Ok(format!(in alloc; "holds:{}", encoder.holds(place))?),
        _ => Ok(String::from_str(alloc, "noplace")?),
    }
}

/// Writes the numbers of 16 bits between commas as a list of items, and returns how many were written.
fn all(alloc: Global, words: &str, encoder: &mut BinEncoder<'_>) -> ProtoResult<String> {
    let mut numbers = Vec::new(alloc);
    for word in words.split(',') {
        numbers.push(number::<u16>(word)?)?;
    }
    if encoder.offset() != encoder.len() {
        return Err(BAD_LINE);
    }
    match encoder.emit_all(numbers.iter()) {
        Ok(count) => Ok(format!(in alloc; "all:{count}:{}", encoder.len())?),
        Err(error) => reply(alloc, Err(error), encoder),
    }
}

/// Makes a call on the bytes from an offset to another.
fn look(
    alloc: Global,
    kind: &str,
    start: usize,
    end: usize,
    encoder: &mut BinEncoder<'_>,
) -> ProtoResult<String> {
    if start >= encoder.offset() || start > end || end > encoder.len() || end > 65535 {
        return Err(BAD_LINE);
    }
    match kind {
        "slp" => {
            let outcome = encoder.store_label_pointer(start, end);
            reply(alloc, outcome, encoder)
        }
        "glp" => Ok(match encoder.get_label_pointer(start, end) {
            Some(offset) => format!(in alloc; "some:{offset}")?,
            None => String::from_str(alloc, "none")?,
        }),
        _ => {
            let slice = hexadecimal(alloc, encoder.slice_of(start, end))?;
            Ok(format!(in alloc; "slice:{slice}")?)
        }
    }
}

/// Returns what the encoder's calls say of it.
fn state(alloc: Global, encoder: &BinEncoder<'_>) -> ProtoResult<String> {
    let (len, offset) = (encoder.len(), encoder.offset());
    let mode = letter(encoder.name_encoding());
    let canonical = u8::from(encoder.is_canonical_form());
    let empty = u8::from(encoder.is_empty());
    Ok(format!(in alloc;
        "state:len={len},off={offset},mode={mode},canon={canonical},empty={empty}"
    )?)
}

/// Sets what the encoder goes by.
fn set(kind: &str, rest: &str, encoder: &mut BinEncoder<'_>) -> ProtoResult<()> {
    match kind {
        "max" => encoder.set_max_size(number(rest)?),
        "enc" => encoder.set_name_encoding(mode(rest)?),
        "canon" => encoder.set_canonical_form(rest == "1"),
        "trim" => encoder.trim(),
        _ => {
            let offset = number(rest)?;
            if offset > encoder.len() {
                return Err(BAD_LINE);
            }
            encoder.set_offset(offset);
        }
    }
    Ok(())
}

/// Writes a value.
fn write(alloc: Global, kind: &str, rest: &str, encoder: &mut BinEncoder<'_>) -> ProtoResult<()> {
    match kind {
        "n" => name(alloc, rest)?.emit(encoder),
        "byte" => encoder.emit(number(rest)?),
        "u8" => encoder.emit_u8(number(rest)?),
        "u16" => encoder.emit_u16(number(rest)?),
        "i32" => encoder.emit_i32(number(rest)?),
        "u32" => encoder.emit_u32(number(rest)?),
        "vec" => encoder.emit_vec(octets(alloc, rest)?.as_slice()),
        "zeros" => encoder.emit_vec(zeros(alloc, rest)?.as_slice()),
        "char" => encoder.emit_character_data(octets(alloc, rest)?.as_slice()),
        "charzeros" => encoder.emit_character_data(zeros(alloc, rest)?.as_slice()),
        "charu" => encoder.emit_character_data_unrestricted(octets(alloc, rest)?.as_slice()),
        "charuzeros" => encoder.emit_character_data_unrestricted(zeros(alloc, rest)?.as_slice()),
        _ => Err(BAD_LINE),
    }
}

/// Writes names of which the first label is numbered until one fails, and returns how many were written, the error, and
/// the length.
fn encode_numbered(alloc: Global, words: &str) -> ProtoResult<String> {
    let (count, suffix) = first_word(words)?;
    let mut bytes = Vec::new(alloc);
    let mut encoder = BinEncoder::new(&mut bytes);
    for i in 0..number::<u32>(count)? {
        let text = format!(in alloc; "name{i}.{suffix}")?;
        let name = Name::from_ascii(alloc, text.as_str())?;
        let len = encoder.len();
        if let Err(error) = name.emit(&mut encoder) {
            return Ok(format!(in alloc; "{i} {error:?} {len}")?);
        }
    }
    Ok(format!(in alloc; "{count} {}", encoder.len())?)
}

/// Returns the bytes of a value of a type.
fn to_bytes(alloc: Global, words: &str) -> ProtoResult<String> {
    let (kind, value) = words.split_once(' ').ok_or(BAD_LINE)?;
    let bytes = match kind {
        "u16" => number::<u16>(value)?.to_bytes(alloc)?,
        "i32" => number::<i32>(value)?.to_bytes(alloc)?,
        "u32" => number::<u32>(value)?.to_bytes(alloc)?,
        "Vec" => octets(alloc, value)?.to_bytes(alloc)?,
        "name" => name(alloc, value)?.to_bytes(alloc)?,
        _ => return Err(BAD_LINE),
    };
    Ok(hexadecimal(alloc, bytes.as_slice())?)
}
