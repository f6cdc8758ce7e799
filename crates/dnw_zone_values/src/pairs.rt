//! Identifiers of hardware, as pairs of hexadecimal digits with hyphens between them (RFC 7043, sections 3.2 and 4.2).
ghost use Rattle.std.specs.Prelude.{◌≡◌, ◌<◌, ◌≤◌, Some, MatchOption, IfOk, IfErr, length};
ghost use Rattle.dnw_zone_values.specs.Spelling.{Appends};
ghost use Rattle.dnw_zone_values.specs.Pairs.{lower_digit, digit_of, pair_octet, pairs_text, pairs_octets, IsPairsText};
ghost use Rattle.dnw_zone_values.specs.Inside.Takes.{KeepsFront, PushesAll};
ghost use Rattle.dnw_zone_values.specs.declared.error.FieldTextError.TheVariants.{Pairs as PairsWanted};
ghost use Rattle.std.specs.Prelude.{true};
ghost use Rattle.std.specs.Char.{is_ascii_hexdigit};

use crate::error::FieldTextError;
use crate::string::write_ascii;
use std::alloc::AllocError;
use std::fmt;

/// Octets that are printed as pairs of hexadecimal digits, as `00-00-5e-00-53-2a`.
#[derive(Clone, Copy, Debug)]
pub struct Pairs<'a>(pub &'a [u8]);

impl fmt::Display for Pairs<'_> {
    ghost output = { λ octets. Some (pairs_text octets.0.now) };

    fn fmt<W: fmt::Write>(&self, f: &mut fmt::Formatter<W>) -> fmt::Result {
        let Some((first, others)) = self.0.split_first() else {
            return Ok(());
        };
        let mut octet = *first;
        let mut left = others;
        while let Some((next, rest)) = left.split_first() {
            write_ascii(f, &[lower_digit(octet / 16), lower_digit(octet % 16), b'-'])?;
            octet = *next;
            left = rest;
        }
        write_ascii(f, &[lower_digit(octet / 16), lower_digit(octet % 16)])
    }
}

/// Returns the digit of a number below 16.
pub(crate) fn lower_digit(number: u8) -> u8
    requires { number < 16 }
    ensures is { result ≡ lower_digit number }
    ensures ascii { result < 128 }
{
    if number < 10 {
        b'0' + number
    } else {
        b'a' + (number - 10)
    }
}

/// Appends the octets that pairs of hexadecimal digits write, in either case, with hyphens between the pairs.
///
/// Fails with `Pairs` if the text is something else, and with `Memory`; `octets` is then unchanged.
///
/// ```
/// parse_pairs("00-00-5E-00-53-2a", &mut octets)?; // 0, 0, 0x5e, 0, 0x53, 0x2a
/// ```
pub fn parse_pairs(text: &str, octets: &mut Vec<u8>) -> Result<(), FieldTextError>
    ensures { Appends PairsWanted IsPairsText text.now octets.old.items octets.new.items result }
{
    read_pairs(text.as_bytes(), octets)
}

/// Appends the octets that characters write as pairs of digits, as `parse_pairs` does.
pub fn read_pairs(text: &[u8], octets: &mut Vec<u8>) -> Result<(), FieldTextError>
    ensures { Appends PairsWanted IsPairsText text.now octets.old.items octets.new.items result }
{
    let start = octets.len();
    match push_pairs(text, octets) {
        Ok(true) => Ok(()),
        Ok(false) => {
            octets.truncate(start);
            Err(FieldTextError::Pairs)
        }
        Err(_) => {
            octets.truncate(start);
            Err(FieldTextError::Memory)
        }
    }
}

/// Appends the octets of pairs. Returns `false` if the text is something else; some may be appended then.
fn push_pairs(text: &[u8], octets: &mut Vec<u8>) -> Result<bool, AllocError>
    ensures ok { IfOk result (PushesAll (pairs_octets text.now) octets.old.items octets.new.items) }
    ensures err { IfErr result (λ _. (1 ≤ length text.now) × KeepsFront octets.old.items octets.new.items) }
{
    let mut left = text;
    while let [a, b, c, rest @ ..] = left {
        let Some(octet) = pair_octet(*a, *b) else {
            return Ok(false);
        };
        if *c != b'-' {
            return Ok(false);
        }
        octets.push(octet)?;
        left = rest;
    }
    let [a, b] = left else {
        return Ok(false);
    };
    let Some(octet) = pair_octet(*a, *b) else {
        return Ok(false);
    };
    octets.push(octet)?;
    Ok(true)
}

/// Returns the octet that two hexadecimal digits write.
fn pair_octet(a: u8, b: u8) -> Option<u8>
    ensures { result ≡ pair_octet a b }
{
    if a.is_ascii_hexdigit() && b.is_ascii_hexdigit() {
        Some(16 * digit_of(a) + digit_of(b))
    } else {
        None
    }
}

/// Returns the number of a hexadecimal digit.
fn digit_of(c: u8) -> u8
    requires { is_ascii_hexdigit c ≡ true }
    ensures is { result ≡ digit_of c }
    ensures below { result < 16 }
{
    match c {
        b'0'..=b'9' => c - b'0',
        b'A'..=b'F' => c - b'A' + 10,
        _ => c - b'a' + 10,
    }
}
