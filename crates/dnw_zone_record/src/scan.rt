//! Entries of master files.
ghost use Rattle.std.specs.Prelude.{◌≡◌, ◌≢◌, ◌==◌, ◌+◌, ◌-◌, ◌≤◌, ◌<◌, length, take, drop, map, not, IfOk, IfSome};
ghost use Rattle.std.specs.Simd.Lanes.{mask_l};
ghost use Rattle.dnw_zone_data.specs.Words.{is_plain_octet};
ghost use Rattle.dnw_zone_record.specs.declared.scan.Ending.TheVariants.{Line, Text};
ghost use Rattle.dnw_zone_record.specs.Lines.{begins_string, end_at, fault_offset, is_kept, is_quoted, kept_len, at_line_end, is_indented, line_of, opened_in, of_quoted, of_special, on_octet};
ghost use Rattle.dnw_zone_record.specs.Inside.Stops.{is_listed, is_stop};

use crate::word_error::WordRule;
use dnw_zone_data::words::is_plain_octet;
use std::alloc::AllocError;
use std::simd::prelude::*;

/// How many parentheses may be open.
const MAX_OPEN: u8 = 255;

/// How many octets are looked at together.
const LANES: usize = 16;

// The octets that are not kept outside of quotes, each at the place that is its low four bits. At each other place is an octet that
// belongs elsewhere.
#[rattlefmt::skip]
const PLAIN_STOPS: [u8; 16] = [1, 0, b'"', 0, 0, 0, 0, 0, b'(', b')', b'\n', b';', b'\\', b'\r', 0, 0];

// The octets that are not kept in quotes, as `PLAIN_STOPS` has others.
#[rattlefmt::skip]
const QUOTED_STOPS: [u8; 16] = [1, 0, b'"', 0, 0, 0, 0, 0, 0, 0, b'\n', 0, b'\\', 0, 0, 0];

/// Where an octet of an entry is.
#[derive(Clone, Copy)]
pub enum Place {
    /// In a word without quotes, or between words.
    Words,
    /// After a backslash in a word without quotes.
    Escaped,
    /// In a quoted string.
    Quoted,
    /// After a backslash in a quoted string.
    QuotedEscaped,
    /// In a comment.
    Comment,
}

/// What an octet is.
#[derive(Clone, Copy)]
pub enum Octet {
    /// A part of a word, or white space. The next one is at this place.
    Kept(Place),
    /// A parenthesis, a part of a comment, or the end of a line in parentheses. The next one is at this place, with so many of them open.
    Blank(Place, u8),
    /// The end of the entry.
    End,
    /// Against a rule.
    Wrong(WordRule),
}

/// How the line of an entry ends.
#[derive(Debug, Clone, Copy, PartialEq, Eq)]
pub enum Ending {
    /// The octet after it ends the line: a carriage return or a line feed.
    Line,
    /// The text ends.
    Text,
    /// The text ends against a rule, which more text might be in keeping with.
    Cut(WordRule),
    /// The octet after it is against a rule.
    Wrong(WordRule),
}

/// Finds the entry that a text begins with, and puts it in place of a line: as many octets as the text has before the entry's end, the
/// same where they are of words or white space, and spaces where they are parentheses, comments or the ends of lines. Quotes and
/// escapes are left as they are. So an offset in the line is the offset in the text.
///
/// An entry ends at a carriage return or line feed outside quotes and parentheses, and a comment at a line feed. At most 255
/// parentheses are open.
#[tactic(auto, using(crate::proofs::Runs::kept_run))]
pub fn scan(text: &[u8], line: &mut Vec<u8>) -> Result<Ending, AllocError>
    ensures line { IfOk result (λ ending. line_of text.now ≡ (line.new.items, ending)) }
    ensures within { IfOk result (λ ending. length line.new.items ≤ length text.now) }
    ensures ended { IfOk result (λ ending. ending ≡ Line → length line.new.items < length text.now) }
    ensures all { IfOk result (λ ending. ending ≡ Text → length line.new.items ≡ length text.now) }
{
    line.clear();
    let mut place = Place::Words;
    let mut depth = 0;
    let mut left = text;
    loop {
        let (run, others) = split_kept(place, left);
        line.extend_from_slice(run)?;
        let Some((c, rest)) = others.split_first() else {
            return Ok(end_of(place, depth));
        };
        match octet_of(place, depth, *c) {
            Octet::Kept(next) => {
                line.push(*c)?;
                place = next;
            }
            Octet::Blank(next, within) => {
                line.push(b' ')?;
                place = next;
                depth = within;
            }
            Octet::End => return Ok(Ending::Line),
            Octet::Wrong(rule) => return Ok(Ending::Wrong(rule)),
        }
        left = rest;
    }
}

/// Returns the line of the entry that a text begins with, as `scan` puts it, if it is a part of the text: it has no comment and no
/// parenthesis. So most lines are not copied.
pub fn plain_line(text: &[u8]) -> Option<(&[u8], Ending)>
    ensures line { IfSome result (λ r. line_of text.now ≡ (r.0.now, r.1)) }
    ensures within { IfSome result (λ r. length r.0.now ≤ length text.now) }
    ensures ended { IfSome result (λ r. r.1 ≡ Line → length r.0.now < length text.now) }
    ensures all { IfSome result (λ r. r.1 ≡ Text → length r.0.now ≡ length text.now) }
{
    let mut place = Place::Words;
    let mut left = text;
    'runs: loop {
        let (_, others) = split_kept(place, left);
        let Some((c, rest)) = others.split_first() else {
            return Some((text, end_of(place, 0)));
        };
        match octet_of(place, 0, *c) {
            Octet::Kept(next) => place = next,
            Octet::Blank(..) => return None,
            Octet::End => return Some((up_to(text, others), Ending::Line)),
            Octet::Wrong(rule) => return Some((up_to(text, others), Ending::Wrong(rule))),
        }
        left = rest;
    }
}

/// Returns what is before the end of a text.
fn up_to<'t>(text: &'t [u8], end: &[u8]) -> &'t [u8]
    requires { length end.now ≤ length text.now }
    ensures { result.now ≡ take (length text.now - length end.now) text.now }
{
    &text[..text.len() - end.len()]
}

/// Splits a text after the octets that it begins with and that are kept with no change of place.
fn split_kept(place: Place, text: &[u8]) -> (&[u8], &[u8])
    ensures run { result.0.now ≡ take (kept_len place text.now) text.now }
    ensures others { result.1.now ≡ drop (kept_len place text.now) text.now }
    ensures whole { length result.0.now + length result.1.now ≡ length text.now }
{
    let others = match place {
        Place::Words => after_plain(text),
        Place::Quoted => after_quoted(text),
        _ => text,
    };
    text.split_at(text.len() - others.len())
}

/// Returns what is left of a text after the octets that it begins with and that are kept outside of quotes.
#[inline(always)]
#[tactic(auto, using(crate::proofs::Stops::passed, crate::proofs::Stops::stop_at, crate::proofs::Stops::stopped))]
fn after_plain(text: &[u8]) -> &[u8]
    ensures { kept_len Place.Words text.now + length result.now ≡ length text.now }
{
    let mut left = text;
    'lanes: while left.len() >= LANES {
        let stops = plain_stops(u8x16::from_slice(left));
        if stops != 0 {
            return &left[stops.trailing_zeros() as usize..];
        }
        left = &left[LANES..];
    }
    // Four octets a round take less than one.
    'fours: while let [a, b, c, d, rest @ ..] = left {
        if !is_plain_octet(*a)
            || !is_plain_octet(*b)
            || !is_plain_octet(*c)
            || !is_plain_octet(*d)
        {
            break;
        }
        left = rest;
    }
    while let Some((first, rest)) = left.split_first() {
        if !is_plain_octet(*first) {
            break;
        }
        left = rest;
    }
    left
}

/// Returns which octets are not kept outside of quotes: a bit for each, from the lowest on.
#[inline(always)]
#[tactic(auto, using(crate::proofs::Stops::all_listed))]
fn plain_stops(lanes: u8x16) -> u64
    ensures { result ≡ mask_l (map (is_stop Place.Words) lanes) }
{
    listed(u8x16::from_array(PLAIN_STOPS), lanes)
}

/// Returns what is left of a text after the octets that it begins with and that are kept in quotes.
#[inline(always)]
#[tactic(auto, using(crate::proofs::Stops::passed, crate::proofs::Stops::stop_at, crate::proofs::Stops::stopped))]
fn after_quoted(text: &[u8]) -> &[u8]
    ensures { kept_len Place.Quoted text.now + length result.now ≡ length text.now }
{
    let mut left = text;
    'lanes: while left.len() >= LANES {
        let stops = quoted_stops(u8x16::from_slice(left));
        if stops != 0 {
            return &left[stops.trailing_zeros() as usize..];
        }
        left = &left[LANES..];
    }
    while let Some((first, rest)) = left.split_first() {
        if !is_quoted(*first) {
            break;
        }
        left = rest;
    }
    left
}

/// Returns which octets are not kept in quotes: a bit for each, from the lowest on.
#[inline(always)]
#[tactic(auto, using(crate::proofs::Stops::all_listed))]
fn quoted_stops(lanes: u8x16) -> u64
    ensures { result ≡ mask_l (map (is_stop Place.Quoted) lanes) }
{
    listed(u8x16::from_array(QUOTED_STOPS), lanes)
}

/// Returns which octets a table has at their places: a bit for each, from the lowest on. The place of an octet is its low four bits.
#[inline(always)]
#[tactic(auto, using(crate::proofs::Stops::listed_mask, crate::proofs::Stops::places_fit))]
fn listed(table: u8x16, lanes: u8x16) -> u64
    ensures { result ≡ mask_l (map (is_listed table) lanes) }
{
    let places = lanes & u8x16::splat(15);
    lanes.simd_eq(table.swizzle_dyn(places)).to_bitmask()
}

/// Returns how the line ends if the text ends here.
fn end_of(place: Place, depth: u8) -> Ending
    ensures is { result ≡ end_at place depth }
    ensures text { result ≢ Line }
{
    match place {
        Place::Escaped => Ending::Cut(WordRule::UnfinishedEscape),
        Place::Quoted | Place::QuotedEscaped => Ending::Cut(WordRule::UnclosedQuote),
        Place::Words | Place::Comment => {
            if depth == 0 {
                Ending::Text
            } else {
                Ending::Cut(WordRule::UnclosedParenthesis)
            }
        }
    }
}

/// Returns what an octet is at a place, with so many open parentheses.
fn octet_of(place: Place, depth: u8, c: u8) -> Octet
    ensures { result ≡ on_octet place depth c }
{
    match place {
        Place::Words => {
            if is_plain_octet(c) {
                Octet::Kept(Place::Words)
            } else {
                of_special(depth, c)
            }
        }
        Place::Escaped => {
            if c == b'\n' || c == b'\r' {
                Octet::Wrong(WordRule::UnfinishedEscape)
            } else {
                Octet::Kept(Place::Words)
            }
        }
        Place::Quoted => of_quoted(c),
        Place::QuotedEscaped => Octet::Kept(Place::Quoted),
        Place::Comment => {
            if c == b'\n' {
                at_line_end(depth)
            } else {
                Octet::Blank(Place::Comment, depth)
            }
        }
    }
}

/// Returns what an octet that is not plain is outside of quotes, escapes and comments.
fn of_special(depth: u8, c: u8) -> Octet
    ensures { result ≡ of_special depth c }
{
    match c {
        b'\n' | b'\r' => at_line_end(depth),
        b';' => Octet::Blank(Place::Comment, depth),
        b'"' => Octet::Kept(Place::Quoted),
        b'\\' => Octet::Kept(Place::Escaped),
        b'(' if depth == MAX_OPEN => Octet::Wrong(WordRule::NestedParenthesis),
        b'(' => Octet::Blank(Place::Words, depth + 1),
        _ if depth == 0 => Octet::Wrong(WordRule::UnopenedParenthesis),
        _ => Octet::Blank(Place::Words, depth - 1),
    }
}

/// Returns `true` if an octet in a quoted string is nothing more than a part of it.
fn is_quoted(c: u8) -> bool
    ensures { result ≡ is_quoted c }
{
    !matches!(c, b'\n' | b'"' | b'\\')
}

/// Returns what an octet is in a quoted string.
fn of_quoted(c: u8) -> Octet
    ensures { result ≡ of_quoted c }
{
    match c {
        b'\n' => Octet::Wrong(WordRule::UnclosedQuote),
        b'"' => Octet::Kept(Place::Words),
        b'\\' => Octet::Kept(Place::QuotedEscaped),
        _ => Octet::Kept(Place::Quoted),
    }
}

/// Returns what the end of a line is.
fn at_line_end(depth: u8) -> Octet
    ensures { result ≡ at_line_end depth }
{
    if depth == 0 {
        Octet::End
    } else {
        Octet::Blank(Place::Words, depth)
    }
}

/// Returns the offset of what is against a rule, of a text whose line ends at an offset: of the quote or the parenthesis that is not
/// closed, or the end.
pub fn fault_offset(text: &[u8], end: usize, rule: WordRule) -> usize
    ensures { result ≡ fault_offset text.now end rule }
{
    match rule {
        WordRule::UnclosedQuote => opened_in(text).0,
        WordRule::UnclosedParenthesis => opened_in(text).1,
        _ => end,
    }
}

/// Returns the offsets, at the end of the line, of the last quote that begins a string, and of the parenthesis that is open.
fn opened_in(text: &[u8]) -> (usize, usize)
    ensures { result ≡ opened_in text.now }
{
    let mut place = Place::Words;
    let mut depth = 0;
    let mut quote = 0;
    let mut group = 0;
    let mut left = text;
    while let Some((c, rest)) = left.split_first() {
        let at = text.len() - left.len();
        match octet_of(place, depth, *c) {
            Octet::Kept(next) => {
                quote = if begins_string(place, *c) { at } else { quote };
                place = next;
            }
            Octet::Blank(next, within) => {
                group = if depth == 0 { at } else { group };
                place = next;
                depth = within;
            }
            Octet::End | Octet::Wrong(_) => return (quote, group),
        }
        left = rest;
    }
    (quote, group)
}

/// Returns `true` if an octet at a place is a quote that begins a string.
fn begins_string(place: Place, c: u8) -> bool
    ensures { result ≡ begins_string place c }
{
    match place {
        Place::Words => c == b'"',
        _ => false,
    }
}

/// Returns `true` if a text begins with white space, and so leaves out the owner. A parenthesis is none.
pub fn is_indented(text: &[u8]) -> bool
    ensures { result ≡ is_indented text.now }
{
    match text.first() {
        Some(first) => *first == b' ' || *first == b'\t',
        None => false,
    }
}
