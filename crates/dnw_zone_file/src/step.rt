//! Entries of a text, one after the other.
ghost use Rattle.std.specs.Prelude.{◌≡◌, ◌≤◌, ◌<◌, drop, length, IfOk, IfSome};
ghost use Rattle.dnw_zone_record.specs.declared.scan.Ending.TheVariants.{Line, Text};
ghost use Rattle.dnw_zone_record.specs.Lines.{is_indented, line_of};
ghost use Rattle.dnw_zone_file.specs.Steps.{IsStepAt, IsEntryFound, IsStep, Moves, after_feed, more_step, words_step, wrong_step};

use crate::context::Context;
use crate::entry::{Entry, entry_of};
use crate::error::{ZoneError, ZoneRule};
use dnw_zone_record::scan::{Ending, fault_offset, is_indented, plain_line, scan};
use dnw_zone_record::word_error::WordRule;
use std::alloc::{AllocError, Global};

/// What a text begins with.
#[derive(Drop)]
pub enum Found {
    /// An entry.
    Entry(Entry),
    /// Nothing: the text ends.
    End,
    /// A part of an entry: more of the text is wanted.
    More,
}

/// What a text begins with, and how many octets it takes.
#[derive(Drop)]
pub struct Step {
    /// The number of octets. The next step begins after them, also after an error.
    pub used: usize,
    /// What they are.
    pub found: Result<Found, ZoneError>,
}

/// Returns what a text begins with, after the entries that made the context: an entry, or why it is none, or that the text ends. If
/// there may be more text after this one, an entry that is not whole is `More`, and takes no octets: the next call has the same text
/// with more after it.
///
/// What the entry says for later ones goes into the context, which is unchanged if there is none. After an error the next entry is
/// at the next line. A line with comments or parentheses is put in place of `line`, whose memory is used again. Offsets in entries and
/// errors are counted from the beginning of the text.
pub fn take_entry(
    alloc: Global,
    context: &mut Context,
    text: &[u8],
    more: bool,
    line: &mut Vec<u8>,
) -> Step
    ensures is { IsStep context.old text.now more result context.new }
    ensures within { result.used ≤ length text.now }
    ensures moves { Moves result }
{
    if text.is_empty() {
        let found = if more { Found::More } else { Found::End };
        return Step {
            used: 0,
            found: Ok(found),
        };
    }
    match line_in(text, line) {
        Ok((own, ending)) => ended(alloc, context, text, more, own, ending),
        Err(_) => Step {
            used: 0,
            found: Err(ZoneError::Memory),
        },
    }
}

/// Returns the line of the entry that a text begins with, and how it ends. A line with comments or parentheses is put in place of `line`.
#[inline(always)]
pub(crate) fn line_in<'t>(
    text: &'t [u8],
    line: &'t mut Vec<u8>,
) -> Result<(&'t [u8], Ending), AllocError>
    ensures line { IfOk result (λ r. line_of text.now ≡ (r.0.now, r.1)) }
    ensures within { IfOk result (λ r. length r.0.now ≤ length text.now) }
    ensures ended { IfOk result (λ r. r.1 ≡ Line → length r.0.now < length text.now) }
    ensures all { IfOk result (λ r. r.1 ≡ Text → length r.0.now ≡ length text.now) }
{
    if let Some(found) = plain_line(text) {
        return Ok(found);
    }
    let ending = scan(text, line)?;
    Ok((line.as_slice(), ending))
}

/// Returns what a text begins with, of which this is the line and how it ends.
#[inline(always)]
fn ended(
    alloc: Global,
    context: &mut Context,
    text: &[u8],
    more: bool,
    line: &[u8],
    ending: Ending,
) -> Step
    requires within { length line.now ≤ length text.now }
    requires line { ending ≡ Line → length line.now < length text.now }
    requires all { ending ≡ Text → length line.now ≡ length text.now }
    requires some { 0 < length text.now }
    ensures is { IsStepAt context.old text.now more line.now ending result context.new }
    ensures within { result.used ≤ length text.now }
    ensures moves { Moves result }
{
    let used = match ending {
        Ending::Line => line.len() + 1,
        Ending::Text if more => return needs_more(),
        Ending::Text => line.len(),
        Ending::Cut(_) if more => return needs_more(),
        Ending::Cut(rule) => {
            return fails(fault_offset(text, line.len(), rule), rule, line.len());
        }
        Ending::Wrong(rule) => return wrong_words(text, more, line.len(), rule),
    };
    entry_found(alloc, context, is_indented(text), line, used)
}

/// Returns the step that is an error of words of a text whose line ends at an offset: the next entry is after the next line feed.
fn wrong_words(text: &[u8], more: bool, end: usize, rule: WordRule) -> Step
    requires { end ≤ length text.now }
    ensures is { result ≡ wrong_step more text.now end rule (after_feed (drop end text.now)) }
    ensures within { result.used ≤ length text.now }
    ensures moves { Moves result }
{
    match after_feed(&text[end..]) {
        Some(len) => fails(fault_offset(text, end, rule), rule, end + len),
        None if more => needs_more(),
        None => fails(fault_offset(text, end, rule), rule, text.len()),
    }
}

/// Returns that more of the text is wanted.
fn needs_more() -> Step
    ensures { result ≡ more_step }
{
    Step {
        used: 0,
        found: Ok(Found::More),
    }
}

/// Returns the step that is an error of words.
fn fails(offset: usize, rule: WordRule, used: usize) -> Step
    ensures { result ≡ words_step offset rule used }
{
    let rule = ZoneRule::Words(rule);
    Step {
        used,
        found: Err(ZoneError::Wrong { offset, rule }),
    }
}

/// Returns the step that is the entry with this line, which begins with white space or not, or why it is none.
#[inline(always)]
fn entry_found(
    alloc: Global,
    context: &mut Context,
    indented: bool,
    line: &[u8],
    used: usize,
) -> Step
    ensures is { IsEntryFound context.old indented line.now used result context.new }
    ensures used { result.used ≡ used }
    ensures moves { 0 < used → Moves result }
{
    match entry_of(alloc, context, indented, line) {
        Ok(entry) => Step {
            used,
            found: Ok(Found::Entry(entry)),
        },
        Err(error) => Step {
            used,
            found: Err(error),
        },
    }
}

/// Returns the number of octets up to and with the first line feed, if there is one.
fn after_feed(text: &[u8]) -> Option<usize>
    ensures is { result ≡ after_feed text.now }
    ensures within { IfSome result (λ len. len ≤ length text.now) }
{
    for (at, c) in text.iter().enumerate() {
        if *c == b'\n' {
            return Some(at + 1);
        }
    }
    None
}
