//! The form that any data have (RFC 3597, section 5).
ghost use Rattle.std.specs.Prelude.{◌≡◌, ◌≤◌, ℕ, List, [], true, length, Some, IfOk, OnErr, IfErr, MatchResult, MatchOption};
ghost use Rattle.dnw_zone_data.specs.Faults.{fault};
ghost use Rattle.dnw_zone_data.specs.Words.{without_spaces};
ghost use Rattle.dnw_zone_data.specs.Generic.{generic_text, has_even_words, hex_words, IsSize, AreHexWords, IsSized, FailsSized};

use crate::error::{DataTextError, Wanted};
use crate::words::{after_spaces, is_space, split_word, without_spaces};
use dnw_zone_values::error::FieldTextError;
use dnw_zone_values::number::number_up_to;
use dnw_zone_values::octets::{Hexadecimal, read_hexadecimal};
use std::alloc::{AllocError, Global};
use std::fmt;

/// The word that the form begins with.
pub(crate) const MARK: &[u8] = b"\\#";

/// Data in the form that any data have: `\#`, the number of octets, and the octets in hexadecimal.
#[derive(Clone, Copy, Debug)]
pub struct Generic<'a>(pub &'a [u8]);

impl fmt::Display for Generic<'_> {
    ghost output = { λ octets. Some (generic_text octets.0.now) };

    fn fmt<W: fmt::Write>(&self, f: &mut fmt::Formatter<W>) -> fmt::Result {
        write!(f, "\\# {}", self.0.len())?;
        if self.0.is_empty() {
            return Ok(());
        }
        write!(f, " {}", Hexadecimal(self.0))
    }
}

/// Parses the number and the octets after `\#`, in a text of this length.
pub(crate) fn parse_sized(alloc: Global, left: &[u8], len: usize) -> Result<Vec<u8>, DataTextError>
    requires within { length left.now ≤ len }
    ensures { MatchResult result (λ octets. IsSized left.now octets.items) (FailsSized len left.now) }
{
    let left = after_spaces(left);
    let (word, rest) = split_word(left);
    let Some(size) = size_of(word) else {
        return Err(DataTextError::Wanted {
            field: 0,
            offset: len - left.len(),
            wanted: Wanted::Size,
        });
    };
    let words = after_spaces(rest);
    match octets_of(alloc, size, words)? {
        Some(octets) => Ok(octets),
        None => Err(DataTextError::Wanted {
            field: 1,
            offset: len - words.len(),
            wanted: Wanted::Octets(size),
        }),
    }
}

/// Returns what is after the number that follows `\#`.
pub(crate) fn hex_words(left: &[u8]) -> &[u8]
    ensures words { result.now ≡ hex_words left.now }
    ensures within { length result.now ≤ length left.now }
{
    let (_, rest) = split_word(after_spaces(left));
    after_spaces(rest)
}

/// Returns the number that a word writes.
fn size_of(word: &[u8]) -> Option<u16>
    ensures { MatchOption result ((n : ℕ) → ¬ (IsSize word.now n)) (IsSize word.now) }
{
    Some(number_up_to(word, 65535)? as u16)
}

/// Returns what no words write: no octets, if there are to be none.
fn no_octets(alloc: Global, size: u16) -> Option<Vec<u8>>
    ensures { MatchOption result ((octets : List ℕ) → ¬ (AreHexWords size [] octets)) (λ octets. AreHexWords size [] octets.items) }
{
    if size == 0 {
        Some(Vec::new(alloc))
    } else {
        None
    }
}

/// Returns `true` if each word has an even number of digits.
fn has_even_words(words: &[u8]) -> bool
    ensures { result ≡ has_even_words true words.now }
{
    let mut is_even = true;
    let mut left = words;
    while let Some((c, rest)) = left.split_first() {
        if !is_space(*c) {
            is_even = !is_even;
        } else if !is_even {
            return false;
        }
        left = rest;
    }
    is_even
}

/// Returns the octets that words write in hexadecimal, if there are so many. Without words it takes no memory.
fn octets_of(alloc: Global, size: u16, words: &[u8]) -> Result<Option<Vec<u8>>, AllocError>
    ensures ok { IfOk result (λ x. MatchOption x ((octets : List ℕ) → ¬ (AreHexWords size words.now octets)) (λ octets. AreHexWords size words.now octets.items)) }
    ensures err { OnErr result (1 ≤ length words.now) }
{
    if words.is_empty() {
        return Ok(no_octets(alloc, size));
    }
    if !has_even_words(words) {
        return Ok(None);
    }
    let joined = without_spaces(alloc, words)?;
    let mut octets = Vec::new(alloc);
    match read_hexadecimal(joined.as_slice(), &mut octets) {
        Ok(()) if octets.len() == usize::from(size) => Ok(Some(octets)),
        Err(FieldTextError::Memory) => Err(AllocError),
        _ => Ok(None),
    }
}
