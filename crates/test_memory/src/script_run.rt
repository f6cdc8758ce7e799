//! Scripts are run.

use crate::scripts::{Line, Script, steps};
use crate::show::show_bytes;
use dns_names_wire::binary::BinDecodable;
use dns_names_wire::decoder::BinDecoder;
use dns_names_wire::error::ProtoResult;
use dns_names_wire::name::Name;
use dns_names_wire::record::RecordRef;
use dns_names_wire::record_type::RecordType;
use dns_names_wire::script::{self, Reply};
use std::alloc::Global;
use std::io;
use std::io::Write;

/// Runs a script over no bytes. Shows the reply to each step, the bytes that are left, and each accepted name as it is
/// read at its place.
pub(crate) fn run_script<W: Write>(alloc: Global, script: &Script, out: &mut W) -> io::Result<()> {
    let steps = match steps(alloc, script.lines) {
        Ok(steps) => steps,
        Err(e) => return writeln!(out, "steps -> {e}; nothing is run"),
    };
    let mut message = Vec::new(alloc);
    match script::run(alloc, &mut message, steps.as_slice()) {
        Ok(replies) => {
            show_replies(out, script.lines, replies.as_slice())?;
            show_left(out, message.as_slice())?;
            show_readings(
                alloc,
                out,
                script.lines,
                replies.as_slice(),
                message.as_slice(),
            )
        }
        Err(e) => {
            writeln!(out, "run -> {e}; no step is done")?;
            show_left(out, message.as_slice())
        }
    }
}

fn show_left<W: Write>(out: &mut W, message: &[u8]) -> io::Result<()> {
    write!(out, "left: ")?;
    show_bytes(out, message)?;
    writeln!(out, "")
}

fn show_replies<W: Write>(out: &mut W, lines: &[Line], replies: &[Reply]) -> io::Result<()> {
    let mut rest = replies;
    for line in lines {
        let (own, others) = taken(rest, line.count());
        match line {
            Line::Roots(_) => show_roots(out, own)?,
            _ => {
                for reply in own {
                    show_line(out, *line)?;
                    show_reply(out, reply)?;
                }
            }
        }
        rest = others;
    }
    Ok(())
}

/// Returns the first replies, so many of them or all that there are, and those after them.
fn taken(replies: &[Reply], count: usize) -> (&[Reply], &[Reply]) {
    match (replies.get(..count), replies.get(count..)) {
        (Some(own), Some(others)) => (own, others),
        _ => (replies, &[]),
    }
}

/// Writes which roots were refused, how many were written, and the length after the last one.
fn show_roots<W: Write>(out: &mut W, replies: &[Reply]) -> io::Result<()> {
    let mut last = 0usize;
    for (i, reply) in replies.iter().enumerate() {
        match reply {
            Reply::Done { len } => last = *len,
            other => {
                write!(out, "root {i}")?;
                show_reply(out, other)?;
            }
        }
    }
    let count = count_done(replies);
    writeln!(out, "roots -> {count} done; len {last}")
}

fn count_done(replies: &[Reply]) -> usize {
    let mut count = 0usize;
    for reply in replies {
        if let Reply::Done { len: _ } = reply {
            count = count.saturating_add(1);
        }
    }
    count
}

fn show_line<W: Write>(out: &mut W, line: Line) -> io::Result<()> {
    match line {
        Line::Name(text) => write!(out, "name {text:?}"),
        Line::Roots(count) => write!(out, "roots {count}"),
        Line::Bytes(bytes) => {
            write!(out, "bytes ")?;
            show_bytes(out, bytes)
        }
        Line::Max(size) => write!(out, "max {size}"),
        Line::Reserve => write!(out, "reserve"),
        Line::Fill(place, value) => write!(out, "fill {place} {value}"),
        Line::Record(owner, server) => write!(out, "record {owner:?} NS {server:?}"),
        Line::Items(items) => write!(out, "items {items:?}"),
    }
}

fn show_reply<W: Write>(out: &mut W, reply: &Reply) -> io::Result<()> {
    match reply {
        Reply::Done { len } => writeln!(out, " -> done; len {len}"),
        Reply::Refused { error, len } => writeln!(out, " -> {error}; len {len}"),
        Reply::NoPlace => writeln!(out, " -> no place"),
        Reply::Items {
            count,
            error: Some(error),
            len,
        } => writeln!(out, " -> {error}; wrote {count}; len {len}"),
        Reply::Items {
            count,
            error: None,
            len,
        } => writeln!(out, " -> wrote {count}; len {len}"),
    }
}

/// Reads the names of each accepted step, or its record.
fn show_readings<W: Write>(
    alloc: Global,
    out: &mut W,
    lines: &[Line],
    replies: &[Reply],
    message: &[u8],
) -> io::Result<()> {
    let mut place = 0;
    let mut rest = replies;
    for line in lines {
        let (own, others) = taken(rest, line.count());
        if let Line::Roots(_) = line {
            check_roots(alloc, out, message, place, count_done(own))?;
        }
        for reply in own {
            show_reading(alloc, out, *line, reply, message, place)?;
            place = match reply {
                Reply::Done { len } | Reply::Refused { len, .. } | Reply::Items { len, .. } => *len,
                Reply::NoPlace => place,
            };
        }
        rest = others;
    }
    Ok(())
}

/// Reads the names of an accepted step, or its record. Roots are read together.
fn show_reading<W: Write>(
    alloc: Global,
    out: &mut W,
    line: Line,
    reply: &Reply,
    message: &[u8],
    place: usize,
) -> io::Result<()> {
    match (line, reply) {
        (Line::Roots(_), _) => Ok(()),
        (Line::Record(..), Reply::Done { .. }) => show_record(alloc, out, message, place),
        _ => show_names(alloc, out, message, place, accepted_names(line, reply)),
    }
}

/// How many names an accepted step or the accepted items of one have.
fn accepted_names(line: Line, reply: &Reply) -> usize {
    match (line, reply) {
        (Line::Name(_), Reply::Done { .. }) => 1,
        (Line::Items(items), Reply::Items { count, .. }) => {
            let mut names = 0usize;
            for item in items.iter().take(*count) {
                names = names.saturating_add(item.len());
            }
            names
        }
        _ => 0,
    }
}

/// Reads so many names, of which the first stands at the place, and each other one where the one before it ends.
fn show_names<W: Write>(
    alloc: Global,
    out: &mut W,
    message: &[u8],
    place: usize,
    count: usize,
) -> io::Result<()> {
    let mut decoder = BinDecoder::new(message);
    if decoder.read_slice(place).is_err() {
        return writeln!(out, "{place}: past the end");
    }
    for _ in 0..count {
        let place = decoder.index();
        match Name::read(alloc, &mut decoder) {
            Ok(name) => writeln!(out, "{place}: {name}")?,
            Err(e) => return writeln!(out, "{place}: {e}"),
        }
    }
    Ok(())
}

/// Reads so many roots, of which the first stands at the place, and writes how many they are.
fn check_roots<W: Write>(
    alloc: Global,
    out: &mut W,
    message: &[u8],
    place: usize,
    count: usize,
) -> io::Result<()> {
    let mut decoder = BinDecoder::new(message);
    if decoder.read_slice(place).is_err() {
        return writeln!(out, "{place}: past the end");
    }
    for _ in 0..count {
        let place = decoder.index();
        match Name::read(alloc, &mut decoder) {
            Ok(name) if name.is_root() => {}
            Ok(name) => return writeln!(out, "{place}: {name}"),
            Err(e) => return writeln!(out, "{place}: {e}"),
        }
    }
    writeln!(out, "{place}: {count} roots")
}

/// Reads the record at this offset.
fn show_record<W: Write>(
    alloc: Global,
    out: &mut W,
    message: &[u8],
    place: usize,
) -> io::Result<()> {
    let mut decoder = BinDecoder::new(message);
    if decoder.read_slice(place).is_err() {
        return writeln!(out, "{place}: past the end");
    }
    match read_record(alloc, &mut decoder) {
        Ok((owner, kind, server)) => writeln!(out, "{place}: {owner} {kind} {server}"),
        Err(e) => writeln!(out, "{place}: {e}"),
    }
}

/// Returns the owner of a record, its type and the name in its data.
fn read_record(
    alloc: Global,
    decoder: &mut BinDecoder<'_>,
) -> ProtoResult<(Name, RecordType, Name)> {
    let record = RecordRef::read(alloc, decoder)?;
    let owner = record.owner().to_name(alloc)?;
    let server = record.data_name(alloc)?;
    Ok((owner, record.record_type(), server))
}
