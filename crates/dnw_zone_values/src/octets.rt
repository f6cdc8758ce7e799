//! Octets in hexadecimal and in base 64 (RFC 4648), and the salts of NSEC3 (RFC 5155).
//!
//! Several tokens that make one value are joined before they are parsed.
ghost use Rattle.std.specs.Prelude.{◌≡◌, ℕ, ◌*◌, ◌/◌, ◌<◌, ◌≤◌, true, false, List, [], ◌∷◌, ◌++◌, length, take, Some, IfOk, IfErr, IfSome, slice_index};
ghost use Rattle.hex.specs.Hex.{upper_digits};
ghost use Rattle.dnw_zone_values.specs.Spelling.{Appends};
ghost use Rattle.dnw_zone_values.specs.Octets.{hex_text, base64_text, salt_text, IsHexText, IsBase64Text, IsSaltText};
ghost use Rattle.dnw_zone_values.specs.Inside.Digits.{BeginsBase64};
ghost use Rattle.dnw_zone_values.specs.declared.error.FieldTextError.TheVariants.{Hexadecimal as HexWanted, Base64 as Base64Wanted, Salt as SaltWanted};

use crate::error::FieldTextError;
use crate::fours::{base64_number, hexadecimal_number};
use base64::DecodeAllocError;
use base64::display::Base64Display;
use base64::engine::general_purpose::STANDARD;
use std::alloc::AllocError;
use std::{fmt, str};

/// Octets that are printed in hexadecimal, as `49FD46E6` (RFC 4648, section 8).
#[derive(Clone, Copy, Debug)]
pub struct Hexadecimal<'a>(pub &'a [u8]);

impl fmt::Display for Hexadecimal<'_> {
    ghost output = { λ octets. Some (hex_text octets.0.now) };

    fn fmt<W: fmt::Write>(&self, f: &mut fmt::Formatter<W>) -> fmt::Result {
        for octet in self.0 {
            let digits = [hex_digit(*octet / 16), hex_digit(*octet % 16)];
            f.write_str(str::from_utf8(&digits).map_err(|_| fmt::Error)?)?;
        }
        Ok(())
    }
}

/// Octets that are printed in base 64 with its padding, as `Zm9vYg==` (RFC 4648, section 4).
#[derive(Clone, Copy, Debug)]
pub struct Base64<'a>(pub &'a [u8]);

impl fmt::Display for Base64<'_> {
    ghost output = { λ octets. Some (base64_text octets.0.now) };

    fn fmt<W: fmt::Write>(&self, f: &mut fmt::Formatter<W>) -> fmt::Result {
        f.write(Base64Display::new(self.0, &STANDARD))
    }
}

/// The salt of an NSEC3 record, printed in hexadecimal, or as `-` if it has no octets (RFC 5155, section 3.3).
#[derive(Clone, Copy, Debug)]
pub struct Salt<'a>(pub &'a [u8]);

impl fmt::Display for Salt<'_> {
    ghost output = { λ salt. Some (salt_text salt.0.now) };

    fn fmt<W: fmt::Write>(&self, f: &mut fmt::Formatter<W>) -> fmt::Result {
        if self.0.is_empty() {
            f.write_str("-")
        } else {
            f.write(Hexadecimal(self.0))
        }
    }
}

/// Appends the octets that a text writes in hexadecimal, two digits for each in either case.
///
/// Fails with `Hexadecimal` if the text is something else, and with `Memory`; `octets` is then unchanged.
///
/// ```
/// parse_hexadecimal("49fd46E6", &mut octets)?; // 0x49, 0xfd, 0x46, 0xe6
/// ```
pub fn parse_hexadecimal(text: &str, octets: &mut Vec<u8>) -> Result<(), FieldTextError>
    ensures { Appends HexWanted IsHexText text.now octets.old.items octets.new.items result }
{
    read_hexadecimal(text.as_bytes(), octets)
}

/// Appends the octets that characters write in hexadecimal, as `parse_hexadecimal` does.
pub fn read_hexadecimal(text: &[u8], octets: &mut Vec<u8>) -> Result<(), FieldTextError>
    ensures { Appends HexWanted IsHexText text.now octets.old.items octets.new.items result }
{
    append_digits(text, FieldTextError::Hexadecimal, octets)
}

/// Appends the octets that a text writes in base 64 with its padding.
///
/// Fails with `Base64` if the text is something else, and with `Memory`; `octets` is then unchanged.
///
/// ```
/// parse_base64("Zm9vYg==", &mut octets)?; // b"foob"
/// ```
pub fn parse_base64(text: &str, octets: &mut Vec<u8>) -> Result<(), FieldTextError>
    ensures { Appends Base64Wanted IsBase64Text text.now octets.old.items octets.new.items result }
{
    read_base64(text.as_bytes(), octets)
}

/// Appends the octets that characters write in base 64, as `parse_base64` does.
pub fn read_base64(text: &[u8], octets: &mut Vec<u8>) -> Result<(), FieldTextError>
    ensures { Appends Base64Wanted IsBase64Text text.now octets.old.items octets.new.items result }
{
    let start = octets.len();
    let left = push_groups(text, octets)?;
    if left.is_empty() {
        return Ok(());
    }
    if let Err(error) = push_last(left, octets) {
        octets.truncate(start);
        return Err(error);
    }
    Ok(())
}

/// Appends the octets of the groups of four digits that a text in base 64 begins with, and returns what is left of it.
fn push_groups<'t>(text: &'t [u8], octets: &mut Vec<u8>) -> Result<&'t [u8], AllocError>
    ensures ok { IfOk result (λ left. (own : List ℕ) × (octets.new.items ≡ octets.old.items ++ own) × BeginsBase64 text.now own left.now) }
    ensures err { IfErr result (λ e. (1 ≤ length text.now) × (octets.new.items ≡ octets.old.items)) }
{
    let start = octets.len();
    let Some(end) = start.checked_add(text.len() / 4 * 3) else {
        return Err(AllocError);
    };
    octets.resize(end, 0)?;
    let (len, left) = put_groups(text, &mut octets.as_mut_slice()[start..]);
    octets.truncate(start + len);
    Ok(left)
}

/// Puts the octets of the groups of four digits that a text in base 64 begins with into a room, and returns their number and what is
/// left of the text.
#[inline(always)]
fn put_groups<'t>(text: &'t [u8], room: &mut [u8]) -> (usize, &'t [u8])
    requires { length room.old ≡ length text.now / 4 * 3 }
    ensures within { result.0 ≤ length room.old }
    ensures begins { BeginsBase64 text.now (take result.0 room.new) result.1.now }
{
    let mut len = 0;
    let mut left = text;
    while let [a, b, c, d, rest @ ..] = left {
        let Some(number) = base64_number(*a, *b, *c, *d) else {
            break;
        };
        room[len] = (number / 65536) as u8;
        room[len + 1] = (number / 256 % 256) as u8;
        room[len + 2] = (number % 256) as u8;
        len += 3;
        left = rest;
    }
    (len, left)
}

/// Appends the octets of the last group of a text in base 64, which has padding if it is one.
fn push_last(text: &[u8], octets: &mut Vec<u8>) -> Result<(), FieldTextError>
    requires { 1 ≤ length text.now }
    ensures { Appends Base64Wanted IsBase64Text text.now octets.old.items octets.new.items result }
{
    if let [a, b, b'=', b'='] = text {
        if let Some(octet) = one_octet(*a, *b) {
            octets.extend_from_slice(&[octet])?;
            return Ok(());
        }
    }
    if let [a, b, c, b'='] = text {
        if let Some(own) = two_octets(*a, *b, *c) {
            octets.extend_from_slice(&own)?;
            return Ok(());
        }
    }
    decode_last(text, octets)
}

/// Returns the octet that two digits before two octets of padding write, if no bits are left.
fn one_octet(a: u8, b: u8) -> Option<u8>
    ensures { IfSome result (λ octet. IsBase64Text (a ∷ b ∷ 61 ∷ 61 ∷ []) (octet ∷ [])) }
{
    let number = base64_number(a, b, b'A', b'A')?;
    if number % 65536 != 0 {
        return None;
    }
    Some((number / 65536) as u8)
}

/// Returns the octets that three digits before one octet of padding write, if no bits are left.
fn two_octets(a: u8, b: u8, c: u8) -> Option<[u8; 2]>
    ensures { IfSome result (λ own. IsBase64Text (a ∷ b ∷ c ∷ 61 ∷ []) own) }
{
    let number = base64_number(a, b, c, b'A')?;
    if number % 256 != 0 {
        return None;
    }
    Some([(number / 65536) as u8, (number / 256 % 256) as u8])
}

/// Appends the octets of a text in base 64, or fails as `read_base64`: a last group that is none comes here.
// It is not inlined, since it puts the engine onto the stack.
#[inline(never)]
fn decode_last(text: &[u8], octets: &mut Vec<u8>) -> Result<(), FieldTextError>
    requires { 1 ≤ length text.now }
    ensures { Appends Base64Wanted IsBase64Text text.now octets.old.items octets.new.items result }
{
    match STANDARD.decode_vec(text, octets) {
        Ok(()) => Ok(()),
        Err(DecodeAllocError::OutOfMemory) => Err(FieldTextError::Memory),
        Err(DecodeAllocError::DecodeError(_)) => Err(FieldTextError::Base64),
    }
}

/// Appends the octets of a salt: at most 255 in hexadecimal, and none for `-`.
///
/// Fails with `Salt` if the text is something else, and with `Memory`; `octets` is then unchanged.
pub fn parse_salt(text: &str, octets: &mut Vec<u8>) -> Result<(), FieldTextError>
    ensures { Appends SaltWanted IsSaltText text.now octets.old.items octets.new.items result }
{
    read_salt(text.as_bytes(), octets)
}

/// Appends the octets of a salt that characters write, as `parse_salt` does.
pub fn read_salt(text: &[u8], octets: &mut Vec<u8>) -> Result<(), FieldTextError>
    ensures { Appends SaltWanted IsSaltText text.now octets.old.items octets.new.items result }
{
    if text == b"-".as_slice() {
        return Ok(());
    }
    match text.len() {
        1..=510 => append_digits(text, FieldTextError::Salt, octets),
        _ => Err(FieldTextError::Salt),
    }
}

/// Appends the octets that hexadecimal digits write. Fails with `wanted` if the characters are something else.
pub(crate) fn append_digits(
    text: &[u8],
    wanted: FieldTextError,
    octets: &mut Vec<u8>,
) -> Result<(), FieldTextError>
    ensures { Appends wanted IsHexText text.now octets.old.items octets.new.items result }
{
    if text.len() % 2 != 0 {
        return Err(wanted);
    }
    let start = octets.len();
    let Some(end) = start.checked_add(text.len() / 2) else {
        return Err(FieldTextError::Memory);
    };
    octets.resize(end, 0)?;
    if !put_digits(text, &mut octets.as_mut_slice()[start..]) {
        octets.truncate(start);
        return Err(wanted);
    }
    Ok(())
}

/// Puts the octets that hexadecimal digits write into a room. Returns `false` if the characters are something else.
#[inline(always)]
fn put_digits(text: &[u8], room: &mut [u8]) -> bool
    requires { length text.now ≡ 2 * length room.old }
    ensures yes { result ≡ true → IsHexText text.now room.new }
    ensures no { result ≡ false → (octets : List ℕ) → ¬ (IsHexText text.now octets) }
{
    let mut len = 0;
    let mut left = text;
    while let [a, b, c, d, rest @ ..] = left {
        let Some(number) = hexadecimal_number(*a, *b, *c, *d) else {
            return false;
        };
        room[len] = (number / 256) as u8;
        room[len + 1] = (number % 256) as u8;
        len += 2;
        left = rest;
    }
    let [a, b] = left else {
        return true;
    };
    let Some(number) = hexadecimal_number(b'0', b'0', *a, *b) else {
        return false;
    };
    room[len] = number as u8;
    true
}

/// Returns the digit of a number below 16.
fn hex_digit(number: u8) -> u8
    requires { number < 16 }
    ensures { result ≡ slice_index upper_digits number }
{
    if number < 10 {
        b'0' + number
    } else {
        b'A' + (number - 10)
    }
}
