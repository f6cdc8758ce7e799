//! How a text is split into words.
ghost use Rattle.std.specs.Prelude.{◌≡◌, ◌≤◌, ◌+◌, ◌-◌, drop, length, map, false, IfOk};
ghost use Rattle.std.specs.Simd.Lanes.{mask_l};
ghost use Rattle.std.specs.List.{filter, list_all, prefix_len};
ghost use Rattle.dnw_zone_data.specs.Inside.WordParts.{PassesMarks, is_low, is_mark, is_plain_stop, is_quoted_stop, is_word_part};
ghost use Rattle.dnw_zone_data.specs.Words.{after_param, after_spaces, after_word, begins_with_quote, is_asterisk, is_word_end, is_no_space, is_plain_octet, is_space, param_len, param_word, plain_len, quoted_len, word, word_len};

use std::alloc::{AllocError, Global};
use std::simd::prelude::*;

/// How many characters are looked at together.
const LANES: usize = 16;

/// How many are looked at together if a text has fewer.
const HALF_LANES: usize = 8;

// What each character is outside of quotes, escapes and comments: 1 for a part of a word, 2 for a space or a tab, and 0 for one that is
// more.
#[rattlefmt::skip]
static CLASSES: [u8; 256] = [
    1, 1, 1, 1, 1, 1, 1, 1, 1, 2, 0, 1, 1, 0, 1, 1,
    1, 1, 1, 1, 1, 1, 1, 1, 1, 1, 1, 1, 1, 1, 1, 1,
    2, 1, 0, 1, 1, 1, 1, 1, 0, 0, 1, 1, 1, 1, 1, 1,
    1, 1, 1, 1, 1, 1, 1, 1, 1, 1, 1, 0, 1, 1, 1, 1,
    1, 1, 1, 1, 1, 1, 1, 1, 1, 1, 1, 1, 1, 1, 1, 1,
    1, 1, 1, 1, 1, 1, 1, 1, 1, 1, 1, 1, 0, 1, 1, 1,
    1, 1, 1, 1, 1, 1, 1, 1, 1, 1, 1, 1, 1, 1, 1, 1,
    1, 1, 1, 1, 1, 1, 1, 1, 1, 1, 1, 1, 1, 1, 1, 1,
    1, 1, 1, 1, 1, 1, 1, 1, 1, 1, 1, 1, 1, 1, 1, 1,
    1, 1, 1, 1, 1, 1, 1, 1, 1, 1, 1, 1, 1, 1, 1, 1,
    1, 1, 1, 1, 1, 1, 1, 1, 1, 1, 1, 1, 1, 1, 1, 1,
    1, 1, 1, 1, 1, 1, 1, 1, 1, 1, 1, 1, 1, 1, 1, 1,
    1, 1, 1, 1, 1, 1, 1, 1, 1, 1, 1, 1, 1, 1, 1, 1,
    1, 1, 1, 1, 1, 1, 1, 1, 1, 1, 1, 1, 1, 1, 1, 1,
    1, 1, 1, 1, 1, 1, 1, 1, 1, 1, 1, 1, 1, 1, 1, 1,
    1, 1, 1, 1, 1, 1, 1, 1, 1, 1, 1, 1, 1, 1, 1, 1,
];

/// Returns `true` if a character is white space: a space, a tab, or the end of a line.
pub(crate) fn is_space(c: u8) -> bool
    ensures { result ≡ is_space c }
{
    c == b' ' || c == b'\t' || c == b'\r' || c == b'\n'
}

/// Returns the text from the first character on that is no white space.
pub fn after_spaces(text: &[u8]) -> &[u8]
    ensures rest { result.now ≡ after_spaces text.now }
    ensures within { length result.now ≤ length text.now }
{
    let mut left = text;
    while let Some((first, rest)) = left.split_first() {
        if !is_space(*first) {
            return left;
        }
        left = rest;
    }
    left
}

/// Splits a text after the word that it begins with: one in quotes, or one up to white space, a quote, a parenthesis or a semicolon.
pub fn split_word(text: &[u8]) -> (&[u8], &[u8])
    ensures word { result.0.now ≡ word text.now }
    ensures rest { result.1.now ≡ after_word text.now }
    ensures whole { length result.0.now + length result.1.now ≡ length text.now }
{
    text.split_at(word_len(text))
}

/// Splits a text after the service parameter that it begins with: a key up to the first `=`, and a word after that.
pub fn split_param(text: &[u8]) -> (&[u8], &[u8])
    ensures word { result.0.now ≡ param_word text.now }
    ensures rest { result.1.now ≡ after_param text.now }
    ensures whole { length result.0.now + length result.1.now ≡ length text.now }
{
    text.split_at(param_len(text))
}

/// Returns `true` if a text begins with a quote.
pub(crate) fn begins_with_quote(text: &[u8]) -> bool
    ensures { result ≡ begins_with_quote text.now }
{
    match text.first() {
        Some(first) => *first == b'"',
        None => false,
    }
}

/// Returns the length of the word that a text begins with. Most words are short and without quotes, and a space is after them.
#[inline(never)]
fn word_len(text: &[u8]) -> usize
    ensures is { result ≡ word_len text.now }
    ensures within { result ≤ length text.now }
{
    if text.len() < LANES {
        return any_word_len(text, 0);
    }
    let stops = plain_stops(u8x16::from_slice(text));
    if stops == 0 {
        return any_word_len(text, LANES);
    }
    let len = stops.trailing_zeros() as usize;
    if text[len] == b' ' {
        return len;
    }
    any_word_len(text, len)
}

/// Returns the length of the word that a text begins with. If the word is without quotes, so many characters are known to be a part of it.
#[inline(never)]
fn any_word_len(text: &[u8], passed: usize) -> usize
    requires within { passed ≤ length text.now }
    requires passed { plain_len false text.now ≡ passed + plain_len false (drop passed text.now) }
    ensures is { result ≡ word_len text.now }
    ensures within { result ≤ length text.now }
{
    if begins_with_quote(text) {
        return 1 + quoted_len(&text[1..]);
    }
    passed + plain_len(&text[passed..])
}

/// Returns which characters may end a word without quotes or escape the next one: a bit for each, from the lowest on. It is set for some
/// others too.
#[inline(always)]
fn plain_stops(lanes: u8x16) -> u64
    ensures { result ≡ mask_l (map is_plain_stop lanes) }
{
    (lanes.simd_le(u8x16::splat(b')'))
        | lanes.simd_eq(u8x16::splat(b';'))
        | lanes.simd_eq(u8x16::splat(b'\\'))).to_bitmask()
}

/// Returns which of eight characters may do so, as `plain_stops`.
#[inline(always)]
fn half_stops(lanes: u8x8) -> u64
    ensures { result ≡ mask_l (map is_plain_stop lanes) }
{
    (lanes.simd_le(u8x8::splat(b')'))
        | lanes.simd_eq(u8x8::splat(b';'))
        | lanes.simd_eq(u8x8::splat(b'\\'))).to_bitmask()
}

/// Returns the length of what is up to the quote at the end of a word, and with it.
fn quoted_len(text: &[u8]) -> usize
    ensures is { result ≡ quoted_len false text.now }
    ensures within { result ≤ length text.now }
{
    let mut left = after_quoted_lanes(text);
    while let Some((first, rest)) = left.split_first() {
        if *first == b'"' {
            return text.len() - rest.len();
        }
        if *first == b'\\' {
            let Some((_, others)) = rest.split_first() else {
                return text.len();
            };
            left = others;
        } else {
            left = rest;
        }
    }
    text.len()
}

/// Returns what is left of a quoted string after characters that are a part of it and nothing more, many at a time.
#[inline(always)]
fn after_quoted_lanes(text: &[u8]) -> &[u8]
    ensures within { length result.now ≤ length text.now }
    ensures left { (length text.now - length result.now) + quoted_len false result.now ≡ quoted_len false text.now }
{
    let mut left = text;
    'lanes: while left.len() >= LANES {
        let stops = quoted_stops(u8x16::from_slice(left));
        if stops != 0 {
            return &left[stops.trailing_zeros() as usize..];
        }
        left = &left[LANES..];
    }
    left
}

/// Returns which characters end a quoted string or escape the next one: a bit for each, from the lowest on.
#[inline(always)]
fn quoted_stops(lanes: u8x16) -> u64
    ensures { result ≡ mask_l (map is_quoted_stop lanes) }
{
    (lanes.simd_eq(u8x16::splat(b'"')) | lanes.simd_eq(u8x16::splat(b'\\'))).to_bitmask()
}

/// Returns the length of a word without quotes.
fn plain_len(text: &[u8]) -> usize
    ensures is { result ≡ plain_len false text.now }
    ensures within { result ≤ length text.now }
{
    let mut left = after_lanes(text);
    while let Some((first, rest)) = left.split_first() {
        if is_word_part(*first) {
            left = rest;
        } else if *first == b'\\' {
            let Some((_, after)) = rest.split_first() else {
                return text.len();
            };
            left = after;
        } else {
            return text.len() - left.len();
        }
    }
    text.len()
}

/// Returns what is left of a word without quotes after characters that are a part of it and nothing more, many at a time.
#[inline(always)]
fn after_lanes(text: &[u8]) -> &[u8]
    ensures within { length result.now ≤ length text.now }
    ensures left { (length text.now - length result.now) + plain_len false result.now ≡ plain_len false text.now }
{
    let mut left = text;
    'lanes: while left.len() >= LANES {
        let stops = plain_stops(u8x16::from_slice(left));
        if stops != 0 {
            return &left[stops.trailing_zeros() as usize..];
        }
        left = &left[LANES..];
    }
    after_half_lanes(left)
}

/// Returns what is left of a word without quotes after characters that are a part of it and nothing more, eight at most.
#[inline(always)]
fn after_half_lanes(text: &[u8]) -> &[u8]
    ensures within { length result.now ≤ length text.now }
    ensures left { (length text.now - length result.now) + plain_len false result.now ≡ plain_len false text.now }
{
    if text.len() < HALF_LANES {
        return text;
    }
    let stops = half_stops(u8x8::from_slice(text));
    if stops != 0 {
        return &text[stops.trailing_zeros() as usize..];
    }
    &text[HALF_LANES..]
}

/// Returns `true` if a character outside of quotes is a part of a word and nothing more. A table takes one comparison.
#[inline(always)]
fn is_word_part(c: u8) -> bool
    ensures { result ≡ is_word_part c }
{
    CLASSES[c as usize] == 1
}

/// Returns `true` if a character outside of quotes, escapes and comments is a part of a word or white space, and nothing more.
#[inline(always)]
pub fn is_plain_octet(c: u8) -> bool
    ensures { result ≡ is_plain_octet c }
{
    CLASSES[c as usize] != 0
}

/// Returns the length of the service parameter that a text begins with.
fn param_len(text: &[u8]) -> usize
    ensures is { result ≡ param_len text.now }
    ensures within { result ≤ length text.now }
{
    let mut left = text;
    while let Some((first, rest)) = left.split_first() {
        if is_word_end(*first) {
            return text.len() - left.len();
        }
        if *first == b'=' {
            return text.len() - rest.len() + word_len(rest);
        }
        left = rest;
    }
    text.len()
}

/// Returns `true` if a character ends a word that is not in quotes, unless it is after a backslash.
fn is_word_end(c: u8) -> bool
    ensures { result ≡ is_word_end c }
{
    is_space(c) || c == b'"' || c == b'(' || c == b')' || c == b';'
}

/// Returns `true` if a word is `*`, which asks for all types or classes, and is none.
pub fn is_asterisk(word: &[u8]) -> bool
    ensures { result ≡ is_asterisk word.now }
{
    match word {
        [c] => *c == b'*',
        _ => false,
    }
}

/// Returns `true` if no character of a text is white space.
#[tactic(auto, using(crate::proofs::Marks::no_spaces))]
pub(crate) fn has_no_spaces(text: &[u8]) -> bool
    ensures { result ≡ list_all is_no_space text.now }
{
    are_marks(text) || text.iter().all(|c| !is_space(*c))
}

/// Returns `true` if each character is after the space. It looks at all of them, so that the processor takes many at once.
#[inline(always)]
#[tactic(auto, using(std::proofs::lemmas::List::Folds::list_all_more))]
fn are_marks(text: &[u8]) -> bool
    ensures { result ≡ list_all is_mark text.now }
{
    let mut all = true;
    for c in text {
        if *c <= b' ' {
            all = false;
        }
    }
    all
}

/// Returns the characters of a text that are no white space.
pub fn without_spaces(alloc: Global, text: &[u8]) -> Result<Vec<u8>, AllocError>
    ensures { IfOk result (λ joined. joined.items ≡ filter is_no_space text.now) }
{
    let mut joined = Vec::with_capacity(alloc, text.len())?;
    let mut left = after_spaces(text);
    'runs: while !left.is_empty() {
        let others = from_space(left);
        joined.extend_from_slice(&left[..left.len() - others.len()])?;
        left = after_spaces(others);
    }
    Ok(joined)
}

/// Returns a text from the first white space on.
fn from_space(text: &[u8]) -> &[u8]
    ensures within { length result.now ≤ length text.now }
    ensures count { length text.now - length result.now ≡ prefix_len is_no_space text.now }
    ensures rest { result.now ≡ drop (prefix_len is_no_space text.now) text.now }
{
    let mut left = after_marks(text);
    while let Some((first, rest)) = left.split_first() {
        if is_space(*first) {
            return left;
        }
        left = rest;
    }
    left
}

/// Returns what is left of a text after characters that are after the space, many at a time.
#[inline(always)]
fn after_marks(text: &[u8]) -> &[u8]
    ensures { PassesMarks text.now result.now }
{
    let mut left = text;
    'lanes: while left.len() >= LANES {
        let stops = low_stops(u8x16::from_slice(left));
        if stops != 0 {
            return &left[stops.trailing_zeros() as usize..];
        }
        left = &left[LANES..];
    }
    left
}

/// Returns which characters are not after the space: a bit for each, from the lowest on.
#[inline(always)]
fn low_stops(lanes: u8x16) -> u64
    ensures { result ≡ mask_l (map is_low lanes) }
{
    lanes.simd_le(u8x16::splat(b' ')).to_bitmask()
}
