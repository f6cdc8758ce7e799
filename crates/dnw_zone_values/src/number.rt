//! Numbers of one, two, four and six octets, in decimal (RFC 1035, section 5.1).
//!
//! A number is printed as std prints it, by `Display`.
ghost use Rattle.std.specs.Prelude.{◌≡◌, ◌≤◌, ℕ, ◌^◌, MatchOption};
ghost use Rattle.std.specs.Str.Parse.{AllDigits, digits_value};
ghost use Rattle.dnw_zone_values.specs.Spelling.{ReadsText};
ghost use Rattle.dnw_zone_values.specs.Numbers.{max_u8, max_u16, max_u32, max_u48, IsNumberText};
ghost use Rattle.dnw_zone_values.specs.declared.error.FieldTextError.TheVariants.{Number};

use crate::error::FieldTextError;

/// The greatest number of six octets.
const MAX_U48: u64 = 281474976710655;

/// Parses a number of one octet.
///
/// A number is one or more decimal digits and nothing else; zeros may stand before it. Fails with `Number` and the
/// greatest number of its size if the text is no such number, or a greater one.
///
/// ```
/// assert_eq!(rt; parse_u8("013")?, 13);
/// assert!(rt; parse_u8("256").is_err());
/// ```
pub fn parse_u8(text: &str) -> Result<u8, FieldTextError>
    ensures { ReadsText (Number max_u8) (IsNumberText max_u8 text.now) result }
{
    Ok(parse_up_to(text, 255)? as u8)
}

/// Parses a number of two octets, as `parse_u8` does one.
pub fn parse_u16(text: &str) -> Result<u16, FieldTextError>
    ensures { ReadsText (Number max_u16) (IsNumberText max_u16 text.now) result }
{
    Ok(parse_up_to(text, 65535)? as u16)
}

/// Parses a number of four octets, as `parse_u8` does one.
pub fn parse_u32(text: &str) -> Result<u32, FieldTextError>
    ensures { ReadsText (Number max_u32) (IsNumberText max_u32 text.now) result }
{
    Ok(parse_up_to(text, 4294967295)? as u32)
}

/// Parses a number of six octets, as `parse_u8` does one.
pub fn parse_u48(text: &str) -> Result<u64, FieldTextError>
    ensures { ReadsText (Number max_u48) (IsNumberText max_u48 text.now) result }
{
    parse_up_to(text, MAX_U48)
}

/// Parses a number up to `max`, as `parse_u8` does one.
pub fn parse_up_to(text: &str, max: u64) -> Result<u64, FieldTextError>
    ensures { ReadsText (Number max) (IsNumberText max text.now) result }
{
    match number_up_to(text.as_bytes(), max) {
        Some(number) => Ok(number),
        None => Err(FieldTextError::Number(max)),
    }
}

/// Returns the number up to `max` that a text is in decimal, as `parse_u8` parses one.
pub fn number_up_to(text: &[u8], max: u64) -> Option<u64>
    ensures { MatchOption result ((n : ℕ) → ¬ (IsNumberText max text.now n)) (IsNumberText max text.now) }
{
    if text.is_empty() {
        return None;
    }
    let number = digits_number(text)?;
    if number <= max { Some(number) } else { None }
}

/// Returns the number that digits write, if all characters are digits and it has 64 bits.
#[tactic(auto, using(crate::proofs::Digits::least))]
fn digits_number(text: &[u8]) -> Option<u64>
    ensures { MatchOption result (AllDigits 10 text.now → 2 ^ 64 ≤ digits_value 10 text.now) (λ n. AllDigits 10 text.now × (digits_value 10 text.now ≡ n)) }
{
    let mut number: u64 = 0;
    let mut left = text;
    while let Some((c, rest)) = left.split_first() {
        if !c.is_ascii_digit() {
            return None;
        }
        number = number.checked_mul(10)?.checked_add(u64::from(*c - b'0'))?;
        left = rest;
    }
    Some(number)
}
