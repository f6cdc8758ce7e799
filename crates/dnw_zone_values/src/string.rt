//! Character strings (RFC 1035, sections 3.3 and 5.1).
ghost use Rattle.std.specs.Prelude.{◌≡◌, ◌<◌, ◌≤◌, ◌==◌, ◌&&◌, Bool, false, ◌∷◌, Some, None, length, IfOk, IfErr, IfSome, IfNone, IsTrue};
ghost use Rattle.std.specs.Char.{is_ascii_digit};
ghost use Rattle.std.specs.Fmt.{WritesOnOk};
ghost use Rattle.dnw_zone_values.specs.Spelling.{Appends};
ghost use Rattle.dnw_zone_values.specs.Strings.{quote, Plain, escape_text, octet_text, string_text, octets_from, with_octet, string_octets, IsTextWithin, IsStringText, IsLongText};
ghost use Rattle.dnw_zone_values.specs.Inside.Takes.{octets_at, decimal_octet, string_run_len, KeepsFront, Pushes};
ghost use Rattle.dnw_zone_values.specs.declared.error.FieldTextError.TheVariants.{CharacterString as StringWanted, Text as TextWanted};

use crate::error::FieldTextError;
use memchr::memchr2;
use std::alloc::AllocError;
use std::{fmt, str};

/// The most octets that a character string has.
const MAX_STRING: usize = 255;

/// The most octets that the data of a record have (RFC 1035, section 3.2.1).
const MAX_TEXT: usize = 65535;

/// A character string, printed in quotes: a quote and a backslash after a backslash, and octets that are not printable
/// ASCII as `\DDD` in decimal.
#[derive(Clone, Copy, Debug)]
pub struct CharacterString<'a>(pub &'a [u8]);

impl fmt::Display for CharacterString<'_> {
    ghost output = { λ string. Some (string_text string.0.now) };

    fn fmt<W: fmt::Write>(&self, f: &mut fmt::Formatter<W>) -> fmt::Result {
        f.write_str("\"")?;
        for octet in self.0 {
            f.write(StringOctet(*octet))?;
        }
        f.write_str("\"")
    }
}

/// One octet of a character string.
#[derive(Clone, Copy)]
struct StringOctet(u8);

impl fmt::Display for StringOctet {
    ghost output = { λ octet. Some (octet_text octet.0) };

    fn fmt<W: fmt::Write>(&self, f: &mut fmt::Formatter<W>) -> fmt::Result {
        let octet = self.0;
        if octet == b'"' || octet == b'\\' {
            return write_ascii(f, &[b'\\', octet]);
        }
        if b' ' <= octet && octet <= b'~' {
            return write_ascii(f, &[octet]);
        }
        write_escape(f, octet)
    }
}

/// Writes an octet as `\DDD`, in decimal.
pub fn write_escape<W: fmt::Write>(f: &mut fmt::Formatter<W>, octet: u8) -> fmt::Result
    ensures { WritesOnOk W.Write.write_str_gives f.old result (escape_text octet) f.new }
{
    let digits = [
        b'0' + octet / 100,
        b'0' + octet / 10 % 10,
        b'0' + octet % 10,
    ];
    write_ascii(f, &[b'\\', digits[0], digits[1], digits[2]])
}

/// Appends the octets of a character string, which is in quotes or not. `\DDD` with three decimal digits stands for
/// that octet, and a backslash and any other character for that character. Any octet may be there as it is, also one above
/// 127.
///
/// Fails with `CharacterString` if the text is no such string, or one of more than 255 octets, and with `Memory`;
/// `octets` is then unchanged.
///
/// ```
/// parse_string(b"\"a \\\"b\\\"\"", &mut octets)?; // b"a \"b\""
/// parse_string(b"a\\032b", &mut octets)?; // b"a b"
/// ```
pub fn parse_string(text: &[u8], octets: &mut Vec<u8>) -> Result<(), FieldTextError>
    ensures { Appends StringWanted IsStringText text.now octets.old.items octets.new.items result }
{
    append_text(text, MAX_STRING, FieldTextError::CharacterString, octets)
}

/// Appends the octets of a text that is written as a character string is, and may have up to 65535 octets: the value of
/// a CAA record (RFC 8659, section 4.1.1) or the target of a URI record (RFC 7553, section 4.4).
///
/// Fails with `Text` if the text is something else, and with `Memory`; `octets` is then unchanged.
pub fn parse_text(text: &[u8], octets: &mut Vec<u8>) -> Result<(), FieldTextError>
    ensures { Appends TextWanted IsLongText text.now octets.old.items octets.new.items result }
{
    append_text(text, MAX_TEXT, FieldTextError::Text, octets)
}

/// Appends the octets of a text, if there are at most so many. Fails with `wanted` if there are not.
fn append_text(
    text: &[u8],
    max: usize,
    wanted: FieldTextError,
    octets: &mut Vec<u8>,
) -> Result<(), FieldTextError>
    ensures { Appends wanted (IsTextWithin max) text.now octets.old.items octets.new.items result }
{
    let start = octets.len();
    match push_text(text, max, octets) {
        Ok(true) => Ok(()),
        Ok(false) => {
            octets.truncate(start);
            Err(wanted)
        }
        Err(_) => {
            octets.truncate(start);
            Err(FieldTextError::Memory)
        }
    }
}

/// Appends the octets of a text. Returns `false` if they are none, or more than so many; some may be appended then.
fn push_text(text: &[u8], max: usize, octets: &mut Vec<u8>) -> Result<bool, AllocError>
    ensures ok { IfOk result (Pushes max (string_octets text.now) octets.old.items octets.new.items) }
    ensures err { IfErr result (λ _. (1 ≤ length text.now) × KeepsFront octets.old.items octets.new.items) }
{
    let Some((first, rest)) = text.split_first() else {
        return Ok(false);
    };
    if *first == b'"' {
        push_octets(rest, true, max, octets)
    } else {
        push_octets(text, false, max, octets)
    }
}

/// Appends the octets of a text, after its opening quote if it is quoted. Returns `false` as `push_text` does.
///
/// Octets that stand for themselves are appended all at once.
fn push_octets(
    text: &[u8],
    quoted: bool,
    max: usize,
    octets: &mut Vec<u8>,
) -> Result<bool, AllocError>
    ensures ok { IfOk result (Pushes max (octets_from quoted Plain text.now) octets.old.items octets.new.items) }
    ensures err { IfErr result (λ _. KeepsFront octets.old.items octets.new.items) }
{
    let mut count = 0;
    let mut left = text;
    'runs: loop {
        let (run, others) = left.split_at(string_run_len(left));
        if run.len() > max - count {
            return Ok(false);
        }
        octets.extend_from_slice(run)?;
        count += run.len();
        let Some((first, rest)) = others.split_first() else {
            return Ok(!quoted);
        };
        if is_end(quoted, *first) {
            return Ok(rest.is_empty());
        }
        let Some((octet, rest)) = take_octet(*first, rest) else {
            return Ok(false);
        };
        if count == max {
            return Ok(false);
        }
        octets.push(octet)?;
        count += 1;
        left = rest;
    }
}

/// Returns the number of octets before the first quote or backslash: they stand for themselves, in quotes or not.
fn string_run_len(text: &[u8]) -> usize
    ensures is { result ≡ string_run_len text.now }
    ensures within { result ≤ length text.now }
{
    memchr2(b'"', b'\\', text).unwrap_or(text.len())
}

/// Returns `true` if a character is the quote that ends a quoted text.
fn is_end(quoted: bool, c: u8) -> bool
    ensures { result ≡ (quoted && (c == quote)) }
{
    quoted && c == b'"'
}

/// Takes the octet that the first character begins, which is no closing quote. Returns it, and what is after it.
fn take_octet(first: u8, rest: &[u8]) -> Option<(u8, &[u8])>
    ensures some { IfSome result (λ x. (quoted : Bool) → octets_at quoted first rest.now ≡ with_octet x.0 (octets_from quoted Plain x.1.now)) }
    ensures shorter { IfSome result (λ x. length x.1.now ≤ length rest.now) }
    ensures none { IfNone result ((quoted : Bool) → octets_at quoted first rest.now ≡ None) }
{
    if first != b'\\' {
        return Some((first, rest));
    }
    match rest {
        [c, after @ ..] if !c.is_ascii_digit() => Some((*c, after)),
        [a, b, c, after @ ..] => Some((decimal_octet(*a, *b, *c)?, after)),
        _ => None,
    }
}

/// Returns the octet that three characters write in decimal, of which the first is a digit.
fn decimal_octet(a: u8, b: u8, c: u8) -> Option<u8>
    requires { IsTrue (is_ascii_digit a) }
    ensures { result ≡ decimal_octet a b c }
{
    if !b.is_ascii_digit() || !c.is_ascii_digit() {
        return None;
    }
    let number = 100 * u16::from(a - b'0') + 10 * u16::from(b - b'0') + u16::from(c - b'0');
    if number < 256 {
        Some(number as u8)
    } else {
        None
    }
}

/// Writes ASCII characters.
pub fn write_ascii<W: fmt::Write>(f: &mut fmt::Formatter<W>, text: &[u8]) -> fmt::Result
    ensures { WritesOnOk W.Write.write_str_gives f.old result text.now f.new }
{
    f.write_str(str::from_utf8(text).map_err(|_| fmt::Error)?)
}
