//! `$GENERATE` of BIND: entries that stand for a record for each number of a range.
ghost use Rattle.std.specs.Prelude.{◌≡◌, ◌≤◌, ◌-◌, ◌/◌, ◌++◌, IfOk, IfErr, IfSome, IfNone, MatchBool, Some, None, drop, length, take};
ghost use Rattle.dnw_zone_data.specs.Words.{after_spaces};
ghost use Rattle.dnw_zone_file.specs.Entries.{IsOwned, owner_at};
ghost use Rattle.dnw_zone_file.specs.Generates.{FailsGenerate, FailsGenerated, FailsGeneratedEntry, FailsGeneratedLine, IsGenerate, IsGenerated, IsGeneratedEntry, IsGeneratedStep, IsShort, is_generate, made_data, next_number, number_or_first, range_of, range_with, step_of};
ghost use Rattle.dnw_zone_file.specs.Inside.Making.{FailsMade, FailsOrMemory, IsMade, IsRange, template_error};

use crate::context::Context;
use crate::entry::{Entry, begins_with, own_owner, record_of};
use crate::error::{ZoneError, ZoneRule};
use crate::head::{head_of, wrong_at};
use crate::step::{Found, Step, line_in};
use crate::template::{TemplateError, number_of, put_made, split_before};
use dnw_base::limits::MAX_NAME;
use dnw_zone_data::words::after_spaces;
use dnw_zone_record::record_line::next_word;
use std::alloc::{AllocError, Global};

/// The numbers of a `$GENERATE`.
#[derive(Clone, Copy)]
pub struct Range {
    /// The first one.
    pub first: u32,
    /// The number after which there is none.
    pub last: u32,
    /// How much is between one and the next.
    pub step: u32,
}

/// The words of a `$GENERATE`, and where its templates are.
#[derive(Clone, Copy)]
pub struct Generate<'l> {
    /// The numbers for which it stands for a record.
    pub range: Range,
    /// The template of the owner.
    pub owner: &'l [u8],
    /// Its offset in the entry.
    pub owner_at: usize,
    /// What is between the owner and the data: a time to live, a class and the type.
    pub between: &'l [u8],
    /// The template of the data, maybe in quotes.
    pub data: &'l [u8],
    /// Its offset in the entry.
    pub data_at: usize,
}

/// What a `$GENERATE` makes for a number.
#[derive(Drop)]
pub struct Generated {
    /// The record, or why it is none. It takes no octets if there is a next one.
    pub step: Step,
    /// The next number, if there is one.
    pub next: Option<u32>,
}

/// Returns `true` if a step is a `$GENERATE`, which is read by `take_generated` if the caller wants it.
pub fn is_generate(step: &Step) -> bool
    ensures { result ≡ is_generate step.now.found }
{
    matches!(
        &step.found,
        Err(ZoneError::Wrong {
            rule: ZoneRule::Generate,
            ..
        })
    )
}

/// Returns what the `$GENERATE` that a text begins with makes for a number, or for the first one if none is given, after the entries
/// that made the context. What the record says for later ones goes into the context, which is unchanged if there is none. It takes so
/// many octets with its last record, or if there is an error.
///
/// An error is that the words of the entry are none of a `$GENERATE`, that this stands for more records than the limit, or that for this
/// number it makes none. What is wrong of a template is at its offset. A line with comments or parentheses is put in place of `line`.
pub fn take_generated(
    alloc: Global,
    context: &mut Context,
    text: &[u8],
    used: usize,
    limit: u32,
    number: Option<u32>,
    line: &mut Vec<u8>,
) -> Generated
    ensures { IsGeneratedStep context.old text.now used limit number result.step result.next context.new }
{
    match entry_and_next(alloc, context, text, limit, number, line) {
        Ok((entry, next)) => Generated {
            step: Step {
                used: if next.is_none() { used } else { 0 },
                found: Ok(Found::Entry(entry)),
            },
            next,
        },
        Err(error) => Generated {
            step: Step {
                used,
                found: Err(error),
            },
            next: None,
        },
    }
}

/// Returns what a `$GENERATE` makes for a number, or for the first one, and the next number.
fn entry_and_next(
    alloc: Global,
    context: &mut Context,
    text: &[u8],
    limit: u32,
    number: Option<u32>,
    line: &mut Vec<u8>,
) -> Result<(Entry, Option<u32>), ZoneError>
    ensures ok { IfOk result (λ r. IsGenerated context.old text.now limit number r.0 r.1 context.new) }
    ensures err { IfErr result (λ e. FailsGenerated context.old text.now limit number e × (context.new ≡ context.old)) }
{
    let Ok((own, _)) = line_in(text, line) else {
        return Err(ZoneError::Memory);
    };
    let (_, left) = next_word(own);
    let generate = match generate_of(own.len(), left) {
        Ok(generate) => generate,
        Err(error) => return Err(error),
    };
    if !is_within(limit, generate.range) {
        return Err(wrong_at(own.len(), left, ZoneRule::TooMany));
    }
    let number = number_or_first(number, generate.range);
    match entry_for(alloc, context, generate, number) {
        Ok(entry) => Ok((entry, next_number(generate.range, number))),
        Err(error) => Err(error),
    }
}

/// Returns `true` if a range has no more numbers than so many.
fn is_within(limit: u32, range: Range) -> bool
    requires { IsRange range }
    ensures { MatchBool result (IsShort limit range) (limit ≤ (range.last - range.first) / range.step) }
{
    (range.last - range.first) / range.step < limit
}

/// Returns a number that is given, or else the first one of a range.
fn number_or_first(number: Option<u32>, range: Range) -> u32
    ensures { result ≡ number_or_first number range }
{
    number.unwrap_or(range.first)
}

/// Returns the number of a range after one, if there is one.
fn next_number(range: Range, number: u32) -> Option<u32>
    ensures { result ≡ next_number range number }
{
    let next = u64::from(number) + u64::from(range.step);
    if next <= u64::from(range.last) {
        Some(next as u32)
    } else {
        None
    }
}

/// Returns the words of a `$GENERATE`, which are what is left of an entry of this length.
fn generate_of(len: usize, left: &[u8]) -> Result<Generate<'_>, ZoneError>
    requires { length left.now ≤ len }
    ensures ok { IfOk result (IsGenerate len left.now) }
    ensures range { IfOk result (λ g. IsRange g.range) }
    ensures within { IfOk result (λ g. length g.between.now ≤ g.data_at) }
    ensures err { IfErr result (FailsGenerate len left.now) }
{
    let (word, rest) = next_word(left);
    let Some(range) = range_of(word) else {
        return Err(wrong_at(len, left, ZoneRule::NoRange));
    };
    let (owner, after) = next_word(rest);
    let (_, text) = head_of(len, after)?;
    let (data, end) = next_word(text);
    if !after_spaces(end).is_empty() {
        return Err(wrong_at(len, end, ZoneRule::WordsLeft));
    }
    let data_len = after_spaces(text).len();
    Ok(Generate {
        range,
        owner,
        owner_at: len - after_spaces(rest).len(),
        between: &after[..after.len() - data_len],
        data,
        data_at: len - data_len,
    })
}

/// Returns the range that a word is.
fn range_of(word: &[u8]) -> Option<Range>
    ensures is { result ≡ range_of word.now }
    ensures range { IfSome result IsRange }
{
    let (first, rest) = split_before(b'-', word);
    let (_, rest) = rest.split_first()?;
    let (last, step) = split_before(b'/', rest);
    range_with(number_of(first), number_of(last), step_of(step))
}

/// Returns the range of these numbers.
fn range_with(first: Option<u32>, last: Option<u32>, step: Option<u32>) -> Option<Range>
    ensures is { result ≡ range_with first last step }
    ensures range { IfSome result IsRange }
{
    let (first, last, step) = (first?, last?, step?);
    if first <= last && 1 <= step {
        Some(Range { first, last, step })
    } else {
        None
    }
}

/// Returns the step that is after a slash, or 1 if nothing is there.
fn step_of(text: &[u8]) -> Option<u32>
    ensures { result ≡ step_of text.now }
{
    match text.split_first() {
        Some((_, text)) => number_of(text),
        None => Some(1),
    }
}

/// Returns what a `$GENERATE` makes for a number.
fn entry_for(
    alloc: Global,
    context: &mut Context,
    generate: Generate<'_>,
    number: u32,
) -> Result<Entry, ZoneError>
    requires { length generate.between.now ≤ generate.data_at }
    ensures ok { IfOk result (λ entry. IsGeneratedEntry context.old generate.entry number entry context.new) }
    ensures err { IfErr result (λ e. FailsGeneratedEntry context.old generate.entry number e × (context.new ≡ context.old)) }
{
    let mut owner = Vec::new(alloc);
    if let Err(error) = put_made(alloc, number, false, generate.owner, &mut owner) {
        return Err(template_error(generate.owner_at, error));
    }
    let mut own = Vec::new(alloc);
    if let Err(error) = put_made_data(alloc, number, generate.data, &mut own) {
        return Err(template_error(generate.data_at, error));
    }
    entry_with(alloc, context, generate, owner.as_slice(), own.as_slice())
}

/// Returns why a template at an offset makes nothing.
fn template_error(offset: usize, error: TemplateError) -> ZoneError
    ensures { result ≡ template_error offset error }
{
    match error {
        TemplateError::Modifier => ZoneError::Wrong {
            offset,
            rule: ZoneRule::BadTemplate,
        },
        TemplateError::Memory => ZoneError::Memory,
    }
}

/// Appends what the template of data makes for a number.
fn put_made_data(
    alloc: Global,
    number: u32,
    word: &[u8],
    out: &mut Vec<u8>,
) -> Result<(), TemplateError>
    ensures ok { IfOk result (λ _. IsMade (made_data number word.now) out.old.items out.new.items) }
    ensures err { IfErr result (FailsMade (made_data number word.now)) }
{
    if begins_with(word, b'"') {
        put_made(alloc, number, true, without_quotes(word), out)
    } else {
        put_made(alloc, number, false, word, out)
    }
}

/// Returns what is between the quotes of a word.
fn without_quotes(word: &[u8]) -> &[u8]
    ensures { result.now ≡ drop 1 (take (length word.now - 1) word.now) }
{
    let front = &word[..word.len().saturating_sub(1)];
    &front[front.len().min(1)..]
}

/// Returns the record of an owner and data that templates made.
fn entry_with(
    alloc: Global,
    context: &mut Context,
    generate: Generate<'_>,
    owner: &[u8],
    own: &[u8],
) -> Result<Entry, ZoneError>
    requires { length generate.between.now ≤ generate.data_at }
    ensures ok { IfOk result (λ entry. IsOwned (owner_at context.old.origin owner.now) context.old (generate.entry.between.now ++ own.now) entry context.new) }
    ensures err { IfErr result (λ e. FailsOrMemory (FailsGeneratedLine context.old generate.entry owner.now own.now) e × (context.new ≡ context.old)) }
{
    let Ok(line) = joined(alloc, generate.between, own) else {
        return Err(ZoneError::Memory);
    };
    let Some(len) = generate.data_at.checked_add(own.len()) else {
        return Err(ZoneError::Memory);
    };
    let mut room = [0; MAX_NAME];
    match own_owner(alloc, &mut room, &context.origin, owner) {
        Some(owner) => record_of(alloc, context, owner, len, line.as_slice()),
        None => Err(ZoneError::Wrong {
            offset: generate.owner_at,
            rule: ZoneRule::BadOwner,
        }),
    }
}

/// Returns two texts as one.
fn joined(alloc: Global, first: &[u8], second: &[u8]) -> Result<Vec<u8>, AllocError>
    ensures { IfOk result (λ text. text.items ≡ first.now ++ second.now) }
{
    let mut text = Vec::from_slice(alloc, first)?;
    text.extend_from_slice(second)?;
    Ok(text)
}
