//! The lines for a call: its result, and what stands after it.

use crate::scenarios::Labels;
use crate::step::{Answer, Step};
use dns_names_wire::encoder::{BinEncoder, NameEncoding};
use dns_names_wire::error::ProtoResult;
use std::io;
use std::io::Write;

/// Writes the call and its answer, and no line's end.
pub(crate) fn show_call<W: Write>(
    out: &mut W,
    step: Step,
    answer: &ProtoResult<Answer>,
) -> io::Result<()> {
    show_step(out, step)?;
    match answer {
        Ok(Answer::Done) => write!(out, " -> done"),
        Ok(Answer::Written(count)) => write!(out, " -> wrote {count}"),
        Ok(Answer::Bytes(bytes)) => {
            write!(out, " -> ")?;
            show_bytes(out, bytes.as_slice())
        }
        Ok(Answer::Text(text)) => write!(out, " -> {text}"),
        Ok(Answer::LeftOut) => write!(out, " -> left out"),
        Err(e) => write!(out, " -> {e}"),
    }
}

/// Writes the encoder's bytes, its offset, its mode and which of the labels a candidate has, and ends the line.
pub(crate) fn show_encoder<W: Write>(
    out: &mut W,
    encoder: &mut BinEncoder<'_>,
    watched: &[Labels],
) -> io::Result<()> {
    write!(out, "; ")?;
    show_buffer(out, encoder)?;
    let offset = encoder.offset();
    let mode = mode_name(encoder.name_encoding());
    write!(out, "; offset {offset}; {mode}")?;
    for labels in watched {
        show_candidate(out, encoder, *labels)?;
    }
    writeln!(out, "")
}

/// Writes bytes in hexadecimal digits, and a dash for none.
pub(crate) fn show_bytes<W: Write>(out: &mut W, bytes: &[u8]) -> io::Result<()> {
    if bytes.is_empty() {
        return write!(out, "-");
    }
    for byte in bytes {
        write!(out, "{byte:02x}")?;
    }
    Ok(())
}

fn show_step<W: Write>(out: &mut W, step: Step) -> io::Result<()> {
    match step {
        Step::Mode(mode) => write!(out, "mode {}", mode_name(mode)),
        Step::Offset(offset) => write!(out, "offset {offset}"),
        Step::U8(number) => write!(out, "u8 {number}"),
        Step::U16(number) => write!(out, "u16 {number}"),
        Step::I32(number) => write!(out, "i32 {number}"),
        Step::U32(number) => write!(out, "u32 {number}"),
        Step::Bytes(bytes) => show_given(out, "bytes ", bytes),
        Step::Text(text) => show_given(out, "text ", text),
        Step::Place => write!(out, "place"),
        Step::Fill(number) => write!(out, "fill {number}"),
        Step::Store(labels) => write!(out, "store {labels}"),
        Step::Name(text) => write!(out, "name {text:?}"),
        Step::Record(owner, server) => write!(out, "record {owner:?} NS {server:?}"),
        Step::Items(numbers) => write!(out, "items {numbers:?}"),
        Step::ToBytes(text) => write!(out, "to_bytes {text:?}"),
        Step::ToAscii(text) => write!(out, "to_ascii {text:?}"),
    }
}

fn mode_name(mode: NameEncoding) -> &'static str {
    match mode {
        NameEncoding::Compressed => "compressed",
        NameEncoding::Uncompressed => "whole",
        NameEncoding::UncompressedLowercase => "lowered",
    }
}

fn show_given<W: Write>(out: &mut W, call: &str, bytes: &[u8]) -> io::Result<()> {
    write!(out, "{call}")?;
    show_bytes(out, bytes)
}

/// Writes all bytes of the buffer. The encoder lends only those that begin before its offset, so that goes to the end
/// meanwhile.
fn show_buffer<W: Write>(out: &mut W, encoder: &mut BinEncoder<'_>) -> io::Result<()> {
    let offset = encoder.offset();
    let len = encoder.len();
    if len == 0 {
        return show_bytes(out, &[]);
    }
    encoder.set_offset(len);
    let shown = show_bytes(out, encoder.slice_of(0, len));
    encoder.set_offset(offset);
    shown
}

fn show_candidate<W: Write>(
    out: &mut W,
    encoder: &BinEncoder<'_>,
    labels: Labels,
) -> io::Result<()> {
    if !labels.are_written(encoder) {
        return write!(out, "; {labels} not written");
    }
    match encoder.get_label_pointer(labels.start, labels.end) {
        Some(place) => write!(out, "; {labels} at {place}"),
        None => write!(out, "; {labels} not stored"),
    }
}
