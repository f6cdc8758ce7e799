//! Lists of address prefixes (RFC 3123, section 5).
ghost use Rattle.std.specs.Prelude.{◌≡◌, IfOk, string_bytes};
ghost use Rattle.dnw_zone_data.specs.PrefixLists.{first_prefix_size, ArePrefixes, PrintsPrefixes};
ghost use Rattle.dnw_zone_data.specs.Appending.{Appended, AppendedInPart, AppendsOne};
ghost use Rattle.dnw_zone_values.specs.Inside.Steps.{PushesOne};
ghost use Rattle.dnw_zone_values.specs.Prefixes.{IsPrefixText};

use crate::words::{after_spaces, split_word};
use dnw_zone_values::error::FieldTextError;
use dnw_zone_values::prefix::{parse_prefix, write_prefix};
use std::alloc::AllocError;

/// The number of octets of a prefix before those of its address.
const HEAD: usize = 4;

/// The bit that negates a prefix, beside the number of octets of its address.
const NEGATION: u8 = 128;

/// Appends the octets of the prefixes that all words are. Returns `false` if one is none.
pub(crate) fn parse_prefixes(text: &[u8], out: &mut Vec<u8>) -> Result<bool, AllocError>
    ensures { IfOk result (AppendsOne (ArePrefixes text.now) out.old.items out.new.items) }
{
    let mut left = after_spaces(text);
    'prefixes: while !left.is_empty() {
        let (word, rest) = split_word(left);
        if !push_prefix(word, out)? {
            return Ok(false);
        }
        left = after_spaces(rest);
    }
    Ok(true)
}

/// Appends the octets of a prefix. Returns `false` if the word is none.
fn push_prefix(word: &[u8], out: &mut Vec<u8>) -> Result<bool, AllocError>
    ensures { IfOk result (PushesOne (IsPrefixText word.now) out.old.items out.new.items) }
{
    match parse_prefix(word, out) {
        Ok(()) => Ok(true),
        Err(FieldTextError::Prefix) => Ok(false),
        Err(_) => Err(AllocError),
    }
}

/// Appends the text of prefixes, each after a space. Returns `false` if the octets end within one, or one has no text; nothing is
/// changed then.
pub(crate) fn write_prefixes(octets: &[u8], out: &mut String) -> Result<bool, AllocError>
    ensures { IfOk result (Appended (PrintsPrefixes octets.now) (string_bytes out.old) (string_bytes out.new)) }
{
    let start = out.len();
    let is_whole = push_prefixes(octets, out)?;
    if !is_whole {
        out.truncate(start);
    }
    Ok(is_whole)
}

/// Appends the text of prefixes. Returns `false` if the octets end within one, or one has no text; some may be appended then.
fn push_prefixes(octets: &[u8], out: &mut String) -> Result<bool, AllocError>
    ensures { IfOk result (AppendedInPart (PrintsPrefixes octets.now) (string_bytes out.old) (string_bytes out.new)) }
{
    let mut left = octets;
    'prefixes: while !left.is_empty() {
        let Some((own, after)) = left.split_at_checked(first_prefix_size(left)) else {
            return Ok(false);
        };
        out.push_str(" ")?;
        if !write_prefix(own, out)? {
            return Ok(false);
        }
        left = after;
    }
    Ok(true)
}

/// Returns the number of octets of the first prefix.
fn first_prefix_size(octets: &[u8]) -> usize
    ensures { result ≡ first_prefix_size octets.now }
{
    match octets {
        [_, _, _, count, ..] => HEAD + usize::from(*count % NEGATION),
        _ => HEAD,
    }
}
