//! Errors of texts, as compilers show them.

use crate::base::{Refusal, push_octet};
use dns_names_wire::zone::{TextPlace, place_of};

/// How many octets of a line are shown on each side of an error, at most.
const SHOWN: usize = 100;

/// An entry of a file that has an error.
#[derive(Clone, Copy)]
pub(crate) struct Fault<'a> {
    /// The file, as it is named.
    pub(crate) file: &'a str,
    /// The rest of the file, which begins with the entry.
    pub(crate) text: &'a [u8],
    /// The place of the entry in the file.
    pub(crate) start: TextPlace,
    /// Whether lines of the file may be shown.
    pub(crate) shows_lines: bool,
}

impl Fault<'_> {
    /// Appends the file, the line and the column of an offset of the entry, what is wrong there, and, if it may be shown, that line with
    /// a mark below it.
    pub(crate) fn put(
        &self,
        offset: usize,
        reason: &str,
        errors: &mut String,
    ) -> Result<(), Refusal> {
        self.put_reason(offset, reason, errors)?;
        if !self.shows_lines {
            return Ok(());
        }
        let (before, after) = self.text.split_at(offset.min(self.text.len()));
        let width = put_octets(end_of_line(before), errors)?;
        put_octets(begin_of_line(after), errors)?;
        put_mark(width, errors)
    }

    /// Appends the line that says where an offset of the entry is, and what is wrong there.
    fn put_reason(&self, offset: usize, reason: &str, errors: &mut String) -> Result<(), Refusal> {
        let place = moved(self.start, self.text, offset);
        let (line, column) = (place.line.saturating_add(1), place.column.saturating_add(1));
        writeln!(errors, "{}:{line}:{column}: error: {reason}", self.file)?;
        Ok(())
    }
}

/// Ends a line, and appends one with a mark after so many spaces.
fn put_mark(width: usize, errors: &mut String) -> Result<(), Refusal> {
    errors.push('\n')?;
    for _ in 0..width {
        errors.push(' ')?;
    }
    errors.push_str("^\n")?;
    Ok(())
}

/// Returns the place, in a file, of an offset of a text that begins at a place there.
pub(crate) fn moved(start: TextPlace, text: &[u8], offset: usize) -> TextPlace {
    let own = place_of(text, offset);
    if own.line == 0 {
        return TextPlace {
            line: start.line,
            column: start.column.saturating_add(own.column),
        };
    }
    TextPlace {
        line: start.line.saturating_add(own.line),
        column: own.column,
    }
}

/// Returns what of a text is in its last line, or the end of that.
fn end_of_line(text: &[u8]) -> &[u8] {
    let mut len = 0usize;
    for octet in text.iter().rev().take(SHOWN) {
        if *octet == b'\n' {
            break;
        }
        len = len.saturating_add(1);
    }
    &text[text.len() - len.min(text.len())..]
}

/// Returns what of a text is in its first line, or the beginning of that.
fn begin_of_line(text: &[u8]) -> &[u8] {
    let text = &text[..SHOWN.min(text.len())];
    for (at, octet) in text.iter().enumerate() {
        if *octet == b'\n' {
            return &text[..at];
        }
    }
    text
}

/// Appends octets, and returns how many characters these are.
fn put_octets(octets: &[u8], errors: &mut String) -> Result<usize, Refusal> {
    let mut width = 0usize;
    for octet in octets {
        width = width.saturating_add(put_octet(*octet, errors)?);
    }
    Ok(width)
}

/// Appends an octet, a tab as a space and one that is not printable ASCII as `\DDD`, and returns how many characters that are.
fn put_octet(octet: u8, errors: &mut String) -> Result<usize, Refusal> {
    let shown = if octet == b'\t' { b' ' } else { octet };
    let before = errors.len();
    push_octet(shown, errors)?;
    Ok(errors.len().saturating_sub(before))
}
