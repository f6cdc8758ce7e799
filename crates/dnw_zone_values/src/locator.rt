//! Identifiers of nodes, and locators, of 64 bits (RFC 6742, sections 2.1.2 and 2.3.2).
ghost use Rattle.std.specs.Prelude.{◌≡◌, ℕ, ◌∷◌, [], Some, MatchOption};
ghost use Rattle.std.specs.Str.Parse.{AllDigits, digits_value};
ghost use Rattle.dnw_zone_values.specs.Spelling.{ReadsText};
ghost use Rattle.dnw_zone_values.specs.Locators.{group_text, locator_of, locator_text, AreGroups, IsGroupText, IsLocatorText};
ghost use Rattle.dnw_zone_values.specs.declared.error.FieldTextError.TheVariants.{Locator as LocatorWanted};

use crate::error::FieldTextError;
use crate::pairs::lower_digit;
use crate::prefix::split_first;
use crate::string::write_ascii;
use std::fmt;

/// An identifier of a node, or a locator, printed as `0014:4fff:ff20:ee64`.
#[derive(Clone, Copy, Debug)]
pub struct Locator(pub u64);

impl fmt::Display for Locator {
    ghost output = { λ locator. Some (locator_text locator.0) };

    fn fmt<W: fmt::Write>(&self, f: &mut fmt::Formatter<W>) -> fmt::Result {
        let number = self.0;
        write!(
            f,
            "{}:{}:{}:{}",
            Group((number / 281474976710656) as u16),
            Group((number / 4294967296 % 65536) as u16),
            Group((number / 65536 % 65536) as u16),
            Group((number % 65536) as u16)
        )
    }
}

/// Four digits of a locator.
#[derive(Clone, Copy)]
struct Group(u16);

impl fmt::Display for Group {
    ghost output = { λ group. Some (group_text group.0) };

    fn fmt<W: fmt::Write>(&self, f: &mut fmt::Formatter<W>) -> fmt::Result {
        let number = self.0;
        let digits = [
            lower_digit((number / 4096) as u8),
            lower_digit((number / 256 % 16) as u8),
            lower_digit((number / 16 % 16) as u8),
            lower_digit((number % 16) as u8),
        ];
        write_ascii(f, &digits)
    }
}

/// Parses an identifier of a node, or a locator: four groups of one to four hexadecimal digits in either case, with colons between them.
///
/// Fails with `Locator` if the text is something else.
pub fn parse_locator(text: &[u8]) -> Result<u64, FieldTextError>
    ensures { ReadsText LocatorWanted (IsLocatorText text.now) result }
{
    let (a, rest) = split_first(text, b':');
    let (b, rest) = split_first(rest, b':');
    let (c, d) = split_first(rest, b':');
    match number_of(a, b, c, d) {
        Some(number) => Ok(number),
        None => Err(FieldTextError::Locator),
    }
}

/// Returns the number of four groups of digits, if they are that.
fn number_of(first: &[u8], second: &[u8], third: &[u8], fourth: &[u8]) -> Option<u64>
    ensures { MatchOption result ((n : ℕ) → ¬ (AreGroups first.now second.now third.now fourth.now n)) (AreGroups first.now second.now third.now fourth.now) }
{
    let a = group_of(first)?;
    let b = group_of(second)?;
    let c = group_of(third)?;
    let d = group_of(fourth)?;
    Some(locator_of(a, b, c, d))
}

/// Returns the number of four groups, of 16 bits each.
fn locator_of(a: u16, b: u16, c: u16, d: u16) -> u64
    ensures { result ≡ locator_of a b c d }
{
    ((u64::from(a) * 65536 + u64::from(b)) * 65536 + u64::from(c)) * 65536 + u64::from(d)
}

/// Returns the number of one to four hexadecimal digits, if they are that.
fn group_of(text: &[u8]) -> Option<u16>
    ensures { MatchOption result ((n : ℕ) → ¬ (IsGroupText text.now n)) (IsGroupText text.now) }
{
    match text {
        [d] => digits_number(b'0', b'0', b'0', *d),
        [c, d] => digits_number(b'0', b'0', *c, *d),
        [b, c, d] => digits_number(b'0', *b, *c, *d),
        [a, b, c, d] => digits_number(*a, *b, *c, *d),
        _ => None,
    }
}

/// Returns the number of four hexadecimal digits, if they are that.
fn digits_number(a: u8, b: u8, c: u8, d: u8) -> Option<u16>
    ensures { MatchOption result (¬ (AllDigits 16 (a ∷ b ∷ c ∷ d ∷ []))) (λ n. AllDigits 16 (a ∷ b ∷ c ∷ d ∷ []) × (n ≡ digits_value 16 (a ∷ b ∷ c ∷ d ∷ []))) }
{
    let a = char::from(a).to_digit(16)?;
    let b = char::from(b).to_digit(16)?;
    let c = char::from(c).to_digit(16)?;
    let d = char::from(d).to_digit(16)?;
    Some((((a * 16 + b) * 16 + c) * 16 + d) as u16)
}
