//! Records as entries of master files, with comments and parentheses (RFC 1035, section 5.1).
ghost use Rattle.std.specs.Prelude.{◌≡◌, ◌≤◌, length, IfOk, IfErr};
ghost use Rattle.std.specs.Option.{option_copied};
ghost use Rattle.dnw_zone_record.specs.Lines.{line_of};
ghost use Rattle.dnw_zone_record.specs.RecordEntries.{FailsLine, FailsRecordEntry, IsLineRecord, IsRecordEntry, is_blank_rest, owner_on};

use crate::record_line::{RecordLineError, record_of};
use crate::scan::{Ending, fault_offset, is_indented, plain_line, scan};
use crate::word_error::WordRule;
use dnw_name::name::Name;
use dnw_zone_data::words::{after_spaces, split_word};
use std::alloc::Global;
use thiserror::Error;

/// Why a text is no record.
#[derive(Debug, Drop, Error)]
pub enum RecordEntryError {
    /// Quotes, escapes or parentheses are against a rule.
    #[error("at offset {offset}: {rule}")]
    Words {
        /// The offset, in bytes, of what is against the rule: of a quote or a parenthesis that is not closed, or of what does not
        /// stand there, or the length of the text if it ends after a backslash.
        offset: usize,
        /// The rule.
        rule: WordRule,
    },
    /// More than one entry is there.
    #[error("at offset {offset}: another entry is there")]
    MoreEntries {
        /// The offset, in bytes, of the end of the first one.
        offset: usize,
    },
    /// The entry is no record.
    #[error("{0}")]
    Line(RecordLineError),
    /// An allocation failed.
    #[error("out of memory")]
    Memory,
}

/// Returns the octets of the record that a text is, as `parse_record` does. The text may have comments, and parentheses in which the
/// ends of lines are white space. It is one entry: nothing but white space is after its line.
pub fn parse_entry(
    alloc: Global,
    text: &[u8],
    origin: Option<&Name>,
) -> Result<Vec<u8>, RecordEntryError>
    ensures ok { IfOk result (λ own. IsRecordEntry (option_copied origin.entry) text.now own.items) }
    ensures err { IfErr result (FailsRecordEntry (option_copied origin.entry) text.now) }
{
    if let Some((line, ending)) = plain_line(text) {
        return ended_record(alloc, text, line, ending, origin);
    }
    let mut line = Vec::new(alloc);
    let Ok(ending) = scan(text, &mut line) else {
        return Err(RecordEntryError::Memory);
    };
    ended_record(alloc, text, line.as_slice(), ending, origin)
}

/// Returns the octets of the record that a text is, of which this is the line and how it ends.
fn ended_record(
    alloc: Global,
    text: &[u8],
    line: &[u8],
    ending: Ending,
    origin: Option<&Name>,
) -> Result<Vec<u8>, RecordEntryError>
    requires line { line_of text.now ≡ (line.now, ending) }
    requires within { length line.now ≤ length text.now }
    ensures ok { IfOk result (λ own. IsRecordEntry (option_copied origin.entry) text.now own.items) }
    ensures err { IfErr result (FailsRecordEntry (option_copied origin.entry) text.now) }
{
    let offset = line.len();
    match ending {
        Ending::Cut(rule) | Ending::Wrong(rule) => Err(RecordEntryError::Words {
            offset: fault_offset(text, offset, rule),
            rule,
        }),
        Ending::Line if !is_blank_rest(&text[offset..]) => Err(RecordEntryError::MoreEntries {
            offset,
        }),
        Ending::Line | Ending::Text => line_record(alloc, text, line, origin),
    }
}

/// Returns the octets of the record that the line of a text is, in which no comments and parentheses are.
fn line_record(
    alloc: Global,
    text: &[u8],
    line: &[u8],
    origin: Option<&Name>,
) -> Result<Vec<u8>, RecordEntryError>
    ensures ok { IfOk result (λ own. IsLineRecord (option_copied origin.entry) text.now line.now own.items) }
    ensures err { IfErr result (FailsLine (option_copied origin.entry) text.now line.now) }
{
    let (word, rest) = split_word(owner_on(text, line));
    match record_of(alloc, line.len(), word, rest, origin) {
        Ok(octets) => Ok(octets),
        Err(error) => Err(RecordEntryError::Line(error)),
    }
}

/// Returns what the owner begins, of a text with this line.
fn owner_on<'l>(text: &[u8], line: &'l [u8]) -> &'l [u8]
    ensures is { result.now ≡ owner_on text.now line.now }
    ensures within { length result.now ≤ length line.now }
{
    if is_indented(text) {
        line
    } else {
        after_spaces(line)
    }
}

/// Returns `true` if a text is white space alone.
pub(crate) fn is_blank_rest(text: &[u8]) -> bool
    ensures { result ≡ is_blank_rest text.now }
{
    after_spaces(text).is_empty()
}
