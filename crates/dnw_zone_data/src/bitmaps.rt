//! Bitmaps without windows: the ports of WKS (RFC 1035, section 3.4.2), and the record types of NXT (RFC 2535, section 5.2).
ghost use Rattle.std.specs.Prelude.{◌≡◌, ℕ, List, nat_lt, slice_index, IfOk, MatchOption, string_bytes};
ghost use Rattle.dnw_data.specs.Values.{octets};
ghost use Rattle.dnw_zone_values.specs.Prefixes.{ends_in_no_zero, with_zeros};
ghost use Rattle.dnw_zone_data.specs.Appending.{Appended, AppendsOne};
ghost use Rattle.dnw_zone_data.specs.Bitmaps.{is_bitmap, with_number, AreBits, IsBitWord, IsOldTypeWord, IsPortWord, PrintsBits};

use crate::types::{type_of_word, write_octets};
use crate::words::{after_spaces, split_word};
use dnw_data::kind::Shown;
use dnw_zone_values::mnemonic::{begins_with_digit, service_named};
use dnw_zone_values::number::number_up_to;
use std::alloc::{AllocError, Global};

/// The greatest record type of a bitmap without windows.
const MAX_OLD_TYPE: u16 = 127;

/// The most octets of the bitmap of ports.
const MAX_PORT_OCTETS: usize = 8192;

/// The most octets of the bitmap of types.
const MAX_TYPE_OCTETS: usize = 16;

/// The values of the bits of an octet, from the highest.
const BIT_VALUES: [u8; 8] = [128, 64, 32, 16, 8, 4, 2, 1];

/// Appends the bitmap of the numbers that all words are. Returns `false` if one is none.
pub(crate) fn parse_bits(
    alloc: Global,
    shown: Shown,
    text: &[u8],
    out: &mut Vec<u8>,
) -> Result<bool, AllocError>
    ensures { IfOk result (AppendsOne (λ value. (own : List ℕ) × AreBits shown text.now own × (value ≡ octets own)) out.old.items out.new.items) }
{
    let mut own = Vec::new(alloc);
    let mut left = after_spaces(text);
    'numbers: while !left.is_empty() {
        let (word, rest) = split_word(left);
        let Some(number) = number_of_word(shown, word) else {
            return Ok(false);
        };
        set_bit(&mut own, number)?;
        left = after_spaces(rest);
    }
    out.extend_from_slice(own.as_slice())?;
    Ok(true)
}

/// Sets the bit of a number, after zeros if the octets end before it.
fn set_bit(octets: &mut Vec<u8>, number: u16) -> Result<(), AllocError>
    ensures { IfOk result (λ _. octets.new.items ≡ with_number number octets.old.items) }
{
    let offset = usize::from(number / 8);
    reach(octets, offset + 1)?;
    let octet = octets[offset];
    octets.as_mut_slice()[offset] = octet | BIT_VALUES[usize::from(number % 8)];
    Ok(())
}

/// Appends zeros up to a length, if there are fewer octets.
fn reach(octets: &mut Vec<u8>, len: usize) -> Result<(), AllocError>
    ensures { IfOk result (λ _. octets.new.items ≡ with_zeros len octets.old.items) }
{
    if octets.len() < len {
        octets.resize(len, 0)?;
    }
    Ok(())
}

/// Returns the number of a bitmap that a word is.
fn number_of_word(shown: Shown, word: &[u8]) -> Option<u16>
    ensures { MatchOption result ((n : ℕ) → ¬ (IsBitWord shown word.now n)) (IsBitWord shown word.now) }
{
    match shown {
        Shown::Ports => port_of_word(word),
        Shown::OldTypes => old_type_of_word(word),
        _ => None,
    }
}

/// Returns the port that a word is.
fn port_of_word(word: &[u8]) -> Option<u16>
    ensures { MatchOption result ((n : ℕ) → ¬ (IsPortWord word.now n)) (IsPortWord word.now) }
{
    if begins_with_digit(word) {
        return Some(number_up_to(word, 65535)? as u16);
    }
    service_named(word)
}

/// Returns the code of the type that a word is, if it is one of a bitmap without windows.
fn old_type_of_word(word: &[u8]) -> Option<u16>
    ensures { MatchOption result ((n : ℕ) → ¬ (IsOldTypeWord word.now n)) (IsOldTypeWord word.now) }
{
    let code = u16::from(type_of_word(word)?);
    if code >= 1 && code <= MAX_OLD_TYPE {
        return Some(code);
    }
    None
}

/// Appends the numbers whose bits are set, each after a space. Returns `false` if the octets are no bitmap, or could be fewer; nothing
/// is changed then.
pub(crate) fn write_bits(shown: Shown, octets: &[u8], out: &mut String) -> Result<bool, AllocError>
    ensures { IfOk result (Appended (PrintsBits shown octets.now) (string_bytes out.old) (string_bytes out.new)) }
{
    if !is_bitmap(shown, octets) {
        return Ok(false);
    }
    write_octets(shown, 0, octets, out)?;
    Ok(true)
}

/// Returns `true` if octets are a bitmap of the numbers, and could not be fewer.
fn is_bitmap(shown: Shown, octets: &[u8]) -> bool
    ensures { result ≡ is_bitmap shown octets.now }
{
    match shown {
        Shown::Ports => octets.len() <= MAX_PORT_OCTETS && ends_in_no_zero(octets),
        Shown::OldTypes => {
            octets.len() <= MAX_TYPE_OCTETS && has_no_type_zero(octets) && ends_in_no_zero(octets)
        }
        _ => false,
    }
}

/// Returns `true` if the bit of type 0 is not set, which stands for another format.
fn has_no_type_zero(octets: &[u8]) -> bool
    ensures { result ≡ nat_lt (slice_index octets.now 0) 128 }
{
    match octets.first() {
        Some(first) => *first < 128,
        None => true,
    }
}

/// Returns `true` if the last octet is not zero, or there is none.
fn ends_in_no_zero(octets: &[u8]) -> bool
    ensures { result ≡ ends_in_no_zero octets.now }
{
    match octets.last() {
        Some(last) => *last != 0,
        None => true,
    }
}
