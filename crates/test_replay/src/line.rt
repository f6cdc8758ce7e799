//! A line: a request, and the answer that is expected.

use crate::notation::repeated;
use crate::requests;
use crate::tally::{Tally, Verdict};
use std::alloc::Global;
use std::io;
use std::io::Write;

/// The most differences that are printed.
const MAX_PRINTED: u64 = 20;

/// The most characters that are printed of a request, and of each of its answers.
const MAX_CHARS: usize = 50;

/// The characters that two answers share and that are printed before the first that differs.
const SHARED_CHARS: usize = 10;

/// Makes the request of a line, compares the answer, and prints a line if it differs.
pub(crate) fn replay<W: Write>(
    alloc: Global,
    line: &str,
    tally: &mut Tally,
    out: &mut W,
) -> io::Result<()> {
    if line.is_empty() || line.starts_with('#') {
        return Ok(());
    }
    if line.contains('×') {
        return match repeated(alloc, line) {
            Ok(line) => compare(alloc, line.as_str(), tally, out),
            Err(error) => {
                tally.add(Verdict::Different);
                writeln!(out, "{error}: {}", cut(line))
            }
        };
    }
    compare(alloc, line, tally, out)
}

fn compare<W: Write>(alloc: Global, line: &str, tally: &mut Tally, out: &mut W) -> io::Result<()> {
    let (request, wanted) = parts(line);
    let (kind, words) = request.split_once(' ').unwrap_or((request, ""));
    let got = match requests::answer(alloc, kind, words, tally) {
        Ok(answer) => answer,
        Err(error) => format!(in alloc; "error: {error}")?,
    };
    let verdict = tally.count(alloc, kind, words, wanted, got.as_str());
    if let Verdict::Different = verdict
        && tally.different() <= MAX_PRINTED
    {
        let (wanted, got) = from_difference(wanted, got.as_str());
        let request = cut(request);
        writeln!(out, "{request} = {got} but expected {wanted}")?;
    }
    Ok(())
}

/// Returns the request and the answer, which may be empty.
fn parts(line: &str) -> (&str, &str) {
    match line.split_once(" = ") {
        Some(parts) => parts,
        None => (line.strip_suffix(" =").unwrap_or(line), ""),
    }
}

/// Returns two texts from where they differ on.
fn from_difference<'a>(wanted: &'a str, got: &'a str) -> (&'a str, &'a str) {
    let mut same = 0usize;
    for (a, b) in wanted.chars().zip(got.chars()) {
        if a != b {
            break;
        }
        same = same.saturating_add(1);
    }
    let start = same.saturating_sub(SHARED_CHARS);
    (cut(after(wanted, start)), cut(after(got, start)))
}

/// Returns a text after its first characters.
fn after(text: &str, chars: usize) -> &str {
    match text.char_indices().nth(chars) {
        Some((start, _)) => text.get(start..).unwrap_or(text),
        None => "",
    }
}

/// Returns the first characters of a text.
fn cut(text: &str) -> &str {
    match text.char_indices().nth(MAX_CHARS) {
        Some((end, _)) => text.get(..end).unwrap_or(text),
        None => text,
    }
}
