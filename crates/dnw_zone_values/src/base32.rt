//! Hashed names, in base 32 with the extended hex alphabet and without padding (RFC 4648, section 7, and RFC 5155, section
//! 3.3).
ghost use Rattle.std.specs.Prelude.{◌≡◌, ◌<◌, ◌≤◌, true, false, [], map, Some, IfOk, IfErr, length};
ghost use Rattle.std.specs.List.{AllPass};
ghost use Rattle.std.specs.Fmt.{WritesOnOk};
ghost use Rattle.dnw_zone_values.specs.Spelling.{Appends};
ghost use Rattle.dnw_zone_values.specs.Base32.{base32_digit, base32_five, base32_text, base32_value, is_base32, base32_octets, if_zero, IsHashText};
ghost use Rattle.dnw_zone_values.specs.Inside.Digits.{digits_octets};
ghost use Rattle.dnw_zone_values.specs.Inside.Takes.{KeepsFront, PushesAll};
ghost use Rattle.dnw_zone_values.specs.declared.error.FieldTextError.TheVariants.{Hash as HashWanted};

use crate::error::FieldTextError;
use crate::fours::base32_number;
use crate::string::write_ascii;
use std::alloc::AllocError;
use std::fmt;

/// The most octets of a hashed name, since their number is written in one.
const MAX_HASH: usize = 255;

/// Octets that are printed in base 32 with the extended hex alphabet, as `CPNMU` for `foo`.
#[derive(Clone, Copy, Debug)]
pub struct Base32Hex<'a>(pub &'a [u8]);

impl fmt::Display for Base32Hex<'_> {
    ghost output = { λ octets. Some (base32_text octets.0.now) };

    fn fmt<W: fmt::Write>(&self, f: &mut fmt::Formatter<W>) -> fmt::Result {
        let mut left = self.0;
        while let [a, b, c, d, e, rest @ ..] = left {
            write_five(f, *a, *b, *c, *d, *e)?;
            left = rest;
        }
        write_last(f, left)
    }
}

/// Writes the digits of five octets.
fn write_five<W: fmt::Write>(
    f: &mut fmt::Formatter<W>,
    a: u8,
    b: u8,
    c: u8,
    d: u8,
    e: u8,
) -> fmt::Result
    ensures { WritesOnOk W.Write.write_str_gives f.old result (base32_five a b c d e) f.new }
{
    let digits = [
        digit(a / 8),
        digit(a % 8 * 4 + b / 64),
        digit(b / 2 % 32),
        digit(b % 2 * 16 + c / 16),
        digit(c % 16 * 2 + d / 128),
        digit(d / 4 % 32),
        digit(d % 4 * 8 + e / 32),
        digit(e % 32),
    ];
    write_ascii(f, &digits)
}

/// Writes the digits of fewer than five octets.
fn write_last<W: fmt::Write>(f: &mut fmt::Formatter<W>, octets: &[u8]) -> fmt::Result
    requires few { length octets.now < 5 }
    ensures { WritesOnOk W.Write.write_str_gives f.old result (base32_text octets.now) f.new }
{
    match octets {
        [a] => write_ascii(f, &[digit(*a / 8), digit(*a % 8 * 4)]),
        [a, b] => {
            let digits = [
                digit(*a / 8),
                digit(*a % 8 * 4 + *b / 64),
                digit(*b / 2 % 32),
                digit(*b % 2 * 16),
            ];
            write_ascii(f, &digits)
        }
        [a, b, c] => {
            let digits = [
                digit(*a / 8),
                digit(*a % 8 * 4 + *b / 64),
                digit(*b / 2 % 32),
                digit(*b % 2 * 16 + *c / 16),
                digit(*c % 16 * 2),
            ];
            write_ascii(f, &digits)
        }
        [a, b, c, d] => {
            let digits = [
                digit(*a / 8),
                digit(*a % 8 * 4 + *b / 64),
                digit(*b / 2 % 32),
                digit(*b % 2 * 16 + *c / 16),
                digit(*c % 16 * 2 + *d / 128),
                digit(*d / 4 % 32),
                digit(*d % 4 * 8),
            ];
            write_ascii(f, &digits)
        }
        _ => Ok(()),
    }
}

/// Returns the digit of a number below 32.
fn digit(number: u8) -> u8
    requires { number < 32 }
    ensures is { result ≡ base32_digit number }
    ensures ascii { result < 128 }
{
    if number < 10 {
        b'0' + number
    } else {
        b'A' + (number - 10)
    }
}

/// Appends the octets of a hashed name: 1 to 255 in base 32, in either case and without padding.
///
/// Fails with `Hash` if the text is something else, and with `Memory`; `octets` is then unchanged.
///
/// ```
/// parse_hash("CPNMUOG", &mut octets)?; // b"foob"
/// ```
pub fn parse_hash(text: &str, octets: &mut Vec<u8>) -> Result<(), FieldTextError>
    ensures { Appends HashWanted IsHashText text.now octets.old.items octets.new.items result }
{
    read_hash(text.as_bytes(), octets)
}

/// Appends the octets of a hashed name that characters write, as `parse_hash` does.
pub fn read_hash(digits: &[u8], octets: &mut Vec<u8>) -> Result<(), FieldTextError>
    ensures { Appends HashWanted IsHashText digits.now octets.old.items octets.new.items result }
{
    let start = octets.len();
    match push_base32(digits, octets) {
        Ok(whole) => {
            if whole && has_hash_size(octets.len() - start) {
                return Ok(());
            }
            octets.truncate(start);
            Err(FieldTextError::Hash)
        }
        Err(_) => {
            octets.truncate(start);
            Err(FieldTextError::Memory)
        }
    }
}

/// Returns `true` if a hashed name may have so many octets.
fn has_hash_size(count: usize) -> bool
    ensures yes { result ≡ true → (1 ≤ count) × (count ≤ 255) }
    ensures no { result ≡ false → ¬ ((1 ≤ count) × (count ≤ 255)) }
{
    1 <= count && count <= MAX_HASH
}

/// Returns `true` if each character is a digit.
fn is_base32(text: &[u8]) -> bool
    ensures yes { result ≡ true → AllPass is_base32 text.now }
    ensures no { result ≡ false → ¬ (AllPass is_base32 text.now) }
{
    for c in text {
        if !is_digit(*c) {
            return false;
        }
    }
    true
}

/// Returns `true` if a character is a digit.
fn is_digit(c: u8) -> bool
    ensures { result ≡ is_base32 c }
{
    matches!(c, b'0'..=b'9' | b'A'..=b'V' | b'a'..=b'v')
}

/// Appends the octets of a text in base 32. Returns `false` if it has none; some may be appended then.
fn push_base32(text: &[u8], octets: &mut Vec<u8>) -> Result<bool, AllocError>
    ensures ok { IfOk result (PushesAll (digits_octets text.now) octets.old.items octets.new.items) }
    ensures err { IfErr result (λ _. (1 ≤ length text.now) × KeepsFront octets.old.items octets.new.items) }
{
    let mut left = text;
    while let [a, b, c, d, e, f, g, h, rest @ ..] = left {
        let Some(first) = base32_number(*a, *b, *c, *d) else {
            return Ok(false);
        };
        let Some(last) = base32_number(*e, *f, *g, *h) else {
            return Ok(false);
        };
        octets.extend_from_slice(&[
            (first / 4096) as u8,
            (first / 16 % 256) as u8,
            (first % 16 * 16 + last / 65536) as u8,
            (last / 256 % 256) as u8,
            (last % 256) as u8,
        ])?;
        left = rest;
    }
    if !is_base32(left) {
        return Ok(false);
    }
    push_last(left, octets)
}

/// Appends the octets of fewer than eight digits. Returns `false` if there are none.
fn push_last(digits: &[u8], octets: &mut Vec<u8>) -> Result<bool, AllocError>
    requires few { length digits.now < 8 }
    ensures ok { IfOk result (PushesAll (base32_octets (map base32_value digits.now)) octets.old.items octets.new.items) }
    ensures err { IfErr result (λ _. (1 ≤ length digits.now) × KeepsFront octets.old.items octets.new.items) }
{
    match digits {
        [] => Ok(true),
        [a, b] => {
            let (a, b) = (value(*a), value(*b));
            push_if(b % 4, &[a * 8 + b / 4], octets)
        }
        [a, b, c, d] => {
            let (a, b, c, d) = (value(*a), value(*b), value(*c), value(*d));
            let own = [a * 8 + b / 4, b % 4 * 64 + c * 2 + d / 16];
            push_if(d % 16, &own, octets)
        }
        [a, b, c, d, e] => {
            let (a, b, c, d, e) = (value(*a), value(*b), value(*c), value(*d), value(*e));
            let own = [
                a * 8 + b / 4,
                b % 4 * 64 + c * 2 + d / 16,
                d % 16 * 16 + e / 2,
            ];
            push_if(e % 2, &own, octets)
        }
        [a, b, c, d, e, f, g] => {
            let (a, b, c, d) = (value(*a), value(*b), value(*c), value(*d));
            let (e, f, g) = (value(*e), value(*f), value(*g));
            let own = [
                a * 8 + b / 4,
                b % 4 * 64 + c * 2 + d / 16,
                d % 16 * 16 + e / 2,
                e % 2 * 128 + f * 4 + g / 8,
            ];
            push_if(g % 8, &own, octets)
        }
        _ => Ok(false),
    }
}

/// Appends octets if the bits that are left are zeros. Returns `false` if they are not.
fn push_if(left: u8, own: &[u8], octets: &mut Vec<u8>) -> Result<bool, AllocError>
    ensures ok { IfOk result (PushesAll (if_zero left own.now) octets.old.items octets.new.items) }
    ensures err { IfErr result (λ _. KeepsFront octets.old.items octets.new.items) }
{
    if left != 0 {
        return Ok(false);
    }
    octets.extend_from_slice(own)?;
    Ok(true)
}

/// Returns the number of a digit, which is below 32.
fn value(c: u8) -> u8
    ensures is { result ≡ base32_value c }
    ensures below { result < 32 }
{
    match c {
        0..=47 => 0,
        48..=57 => c - b'0',
        58..=86 => (c - 55) % 32,
        _ => (c - 87) % 32,
    }
}
