//! The octets that texts write.
ghost use Rattle.std.specs.Prelude.{◌≡◌, ◌≤◌, ◌+◌, ℕ, List, true, length, IfOk, MatchOption};
ghost use Rattle.dnw_data.specs.declared.kind.Shown.TheVariants.{Tag, Hex, Base32Hex};
ghost use Rattle.dnw_zone_values.specs.Inside.Steps.{PushesOne};
ghost use Rattle.dnw_zone_values.specs.Octets.{IsHexText, IsBase64Text};
ghost use Rattle.dnw_zone_values.specs.Strings.{IsStringText, IsLongText};
ghost use Rattle.dnw_zone_values.specs.Pairs.{IsPairsText};
ghost use Rattle.dnw_zone_data.specs.Parsing.{SpellsOctets, SpellsShown};

use dnw_data::kind::Shown;
use dnw_zone_values::base32::read_hash;
use dnw_zone_values::error::FieldTextError;
use dnw_zone_values::octets::{read_base64, read_hexadecimal, read_salt};
use dnw_zone_values::pairs::read_pairs;
use dnw_zone_values::string::{parse_string, parse_text};
use dnw_zone_values::tag::read_tag;
use std::alloc::{AllocError, Global};

/// Appends the octets that a word writes. Returns `false` if it writes none; some may be appended then.
pub(crate) fn push_spelled(shown: Shown, word: &[u8], out: &mut Vec<u8>) -> Result<bool, AllocError>
    ensures is { IfOk result (PushesOne (SpellsShown shown word.now) out.old.items out.new.items) }
    ensures few { IfOk result (λ is. is ≡ true → length out.new.items ≤ length out.old.items + 255) }
{
    match shown {
        Shown::Text => push_string(word, out),
        Shown::Tag => push_tag(word, out),
        Shown::Hex => push_salt(word, out),
        Shown::Base32Hex => push_hash(word, out),
        _ => Ok(false),
    }
}

/// Appends the octets of a string, if the word is one.
pub(crate) fn push_string(word: &[u8], out: &mut Vec<u8>) -> Result<bool, AllocError>
    ensures is { IfOk result (PushesOne (IsStringText word.now) out.old.items out.new.items) }
    ensures few { IfOk result (λ is. is ≡ true → length out.new.items ≤ length out.old.items + 255) }
{
    match parse_string(word, out) {
        Ok(()) => Ok(true),
        Err(FieldTextError::Memory) => Err(AllocError),
        Err(_) => Ok(false),
    }
}

/// Appends the octets of a tag, if the word is one.
fn push_tag(word: &[u8], out: &mut Vec<u8>) -> Result<bool, AllocError>
    ensures is { IfOk result (PushesOne (SpellsShown Tag word.now) out.old.items out.new.items) }
    ensures few { IfOk result (λ is. is ≡ true → length out.new.items ≤ length out.old.items + 255) }
{
    match read_tag(word, out) {
        Ok(()) => Ok(true),
        Err(FieldTextError::Memory) => Err(AllocError),
        Err(_) => Ok(false),
    }
}

/// Appends the octets of a salt, if the word is one.
fn push_salt(word: &[u8], out: &mut Vec<u8>) -> Result<bool, AllocError>
    ensures is { IfOk result (PushesOne (SpellsShown Hex word.now) out.old.items out.new.items) }
    ensures few { IfOk result (λ is. is ≡ true → length out.new.items ≤ length out.old.items + 255) }
{
    match read_salt(word, out) {
        Ok(()) => Ok(true),
        Err(FieldTextError::Memory) => Err(AllocError),
        Err(_) => Ok(false),
    }
}

/// Appends the octets of a hashed name, if the word is one.
fn push_hash(word: &[u8], out: &mut Vec<u8>) -> Result<bool, AllocError>
    ensures is { IfOk result (PushesOne (SpellsShown Base32Hex word.now) out.old.items out.new.items) }
    ensures few { IfOk result (λ is. is ≡ true → length out.new.items ≤ length out.old.items + 255) }
{
    match read_hash(word, out) {
        Ok(()) => Ok(true),
        Err(FieldTextError::Memory) => Err(AllocError),
        Err(_) => Ok(false),
    }
}

/// Appends the octets of a text of any length, if the word is one.
pub(crate) fn push_text(word: &[u8], out: &mut Vec<u8>) -> Result<bool, AllocError>
    ensures { IfOk result (PushesOne (IsLongText word.now) out.old.items out.new.items) }
{
    match parse_text(word, out) {
        Ok(()) => Ok(true),
        Err(FieldTextError::Memory) => Err(AllocError),
        Err(_) => Ok(false),
    }
}

/// Appends the octets that a text writes in a spelling of octets up to the end, if it does.
pub(crate) fn push_octets(shown: Shown, text: &[u8], out: &mut Vec<u8>) -> Result<bool, AllocError>
    ensures { IfOk result (PushesOne (SpellsOctets shown text.now) out.old.items out.new.items) }
{
    match shown {
        Shown::Hex => push_hexadecimal(text, out),
        Shown::Base64 => push_base64(text, out),
        _ => Ok(false),
    }
}

/// Appends the octets that a text writes in hexadecimal, if it does.
fn push_hexadecimal(text: &[u8], out: &mut Vec<u8>) -> Result<bool, AllocError>
    ensures { IfOk result (PushesOne (IsHexText text.now) out.old.items out.new.items) }
{
    match read_hexadecimal(text, out) {
        Ok(()) => Ok(true),
        Err(FieldTextError::Memory) => Err(AllocError),
        Err(_) => Ok(false),
    }
}

/// Appends the octets that a text writes in base 64, if it does.
fn push_base64(text: &[u8], out: &mut Vec<u8>) -> Result<bool, AllocError>
    ensures { IfOk result (PushesOne (IsBase64Text text.now) out.old.items out.new.items) }
{
    match read_base64(text, out) {
        Ok(()) => Ok(true),
        Err(FieldTextError::Memory) => Err(AllocError),
        Err(_) => Ok(false),
    }
}

/// Returns so many octets that a text writes as pairs of digits, if it does.
pub(crate) fn pairs_of(
    alloc: Global,
    size: usize,
    text: &[u8],
) -> Result<Option<Vec<u8>>, AllocError>
    ensures { IfOk result (λ x. MatchOption x ((own : List ℕ) → IsPairsText text.now own → ¬ (length own ≡ size)) (λ own. IsPairsText text.now own.items × (length own.items ≡ size))) }
{
    let mut own = Vec::new(alloc);
    match read_pairs(text, &mut own) {
        Ok(()) if own.len() == size => Ok(Some(own)),
        Err(FieldTextError::Memory) => Err(AllocError),
        _ => Ok(None),
    }
}
