//! The names in the lines of files, each shown as soon as its line is there.

use crate::base::{Refusal, Sink, Stream, line_len, open, unread};
use crate::names::shown::{Shown, line};
use std::alloc::Global;
use std::io::Read;
use std::rt::Files;
use std::str;

/// The most octets of a line: those of the longest text of a name, with as much white space and more.
const MAX_LINE: usize = 65_536;

/// Shows a line for each name or address in the lines of a file, or of standard input if the file is `-`. One that is rejected has a
/// line that says why.
pub(crate) fn put_lines_of<E: Files, I: Read, O: Sink>(
    env: &E,
    alloc: Global,
    shown: Shown,
    file: &str,
    input: &mut I,
    out: &mut O,
) -> Result<(), Refusal> {
    let mut stream = open(env, alloc, file)?;
    for _ in 0..u64::MAX {
        let window = &mut stream.window;
        if let Some(len) = line_len(window.left()) {
            put_word(
                alloc,
                shown,
                window.left().get(..len).unwrap_or_default(),
                out,
            )?;
            window.take(len.saturating_add(1));
        } else if window.is_done() {
            return put_word(alloc, shown, window.left(), out);
        } else {
            more(alloc, file, &mut stream, input, out)?;
        }
    }
    Ok(())
}

/// Reads more of a file, whose next line does not end yet.
fn more<F: Read, I: Read, O: Sink>(
    alloc: Global,
    file: &str,
    stream: &mut Stream<F>,
    input: &mut I,
    out: &mut O,
) -> Result<(), Refusal> {
    if MAX_LINE < stream.window.left().len() {
        return Err(Refusal::TooLong(MAX_LINE));
    }
    out.flush()?;
    match stream.fill(input) {
        Ok(()) => Ok(()),
        Err(error) => Err(unread(alloc, file, error)),
    }
}

/// Shows the line of a name, or why it has none. An empty line has none.
fn put_word<O: Sink>(
    alloc: Global,
    shown: Shown,
    octets: &[u8],
    out: &mut O,
) -> Result<(), Refusal> {
    let octets = octets.trim_ascii();
    if octets.is_empty() {
        return Ok(());
    }
    match line_of(alloc, shown, octets) {
        Ok(line) => out.put_line(line.as_str()),
        Err(refusal) => {
            out.reject();
            out.put_line(format!(in alloc; "{refusal}")?.as_str())
        }
    }
}

/// Returns the line of a name.
fn line_of(alloc: Global, shown: Shown, octets: &[u8]) -> Result<String, Refusal> {
    match str::from_utf8(octets) {
        Ok(word) => line(alloc, shown, word),
        Err(_) => Err(Refusal::NoText),
    }
}
