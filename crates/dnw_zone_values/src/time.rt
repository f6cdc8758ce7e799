//! Times of signatures (RFC 4034, section 3.2): seconds since 1970-01-01 00:00:00 UTC, as a 32-bit number.
ghost use Rattle.std.specs.Prelude.{◌≡◌, ◌≤◌, ◌<◌, ◌+◌, ◌*◌, ◌++◌, ◌/◌, ◌%◌, ◌∷◌, ℕ, [], true, false, length, MatchOption};
ghost use Rattle.std.specs.List.{AllPass};
ghost use Rattle.std.specs.Char.{is_ascii_digit};
ghost use Rattle.arrayvec.specs.ArrayString.{array_string_len};
ghost use Rattle.dnw_zone_values.specs.Spelling.{ReadsText};
ghost use Rattle.dnw_zone_values.specs.Times.{IsDay, IsMoment, two_at, IsDateText, IsTimeText};
ghost use Rattle.dnw_zone_values.specs.declared.error.FieldTextError.TheVariants.{Time as TimeWanted};

use crate::error::FieldTextError;
use crate::number::number_up_to;
use arrayvec::ArrayString;
use jiff_core::civil::Date;

/// The characters of a date with a time of day.
const DATE_LEN: usize = 14;

/// How many times there are.
const TIME_COUNT: u64 = 4294967296;

/// The seconds of a day.
const DAY: u32 = 86400;

/// Returns the text of a time, as YYYYMMDDHHmmSS.
///
/// ```
/// time_text(1048354263); // 20030322173103
/// ```
pub fn time_text(seconds: u32) -> ArrayString<DATE_LEN>
    ensures { IsDateText result.bytes seconds }
{
    let (year, month, day) = date_of(seconds / DAY);
    let clock = seconds % DAY;
    let mut text = ArrayString::new();
    push_two(&mut text, (year / 100) as u8);
    push_two(&mut text, (year % 100) as u8);
    push_two(&mut text, month);
    push_two(&mut text, day);
    push_two(&mut text, (clock / 3600) as u8);
    push_two(&mut text, (clock / 60 % 60) as u8);
    push_two(&mut text, (clock % 60) as u8);
    text
}

/// Parses a time: 14 digits as YYYYMMDDHHmmSS, or else a decimal number of seconds.
///
/// Fails with `Time` if the text is no such time, or one before 1970. A date after 2106 has the seconds modulo 2^32 (RFC 4034,
/// section 3.1.5).
///
/// ```
/// parse_time("20030322173103")?; // 1048354263
/// parse_time("1048354263")?; // 1048354263
/// ```
pub fn parse_time(text: &str) -> Result<u32, FieldTextError>
    ensures { ReadsText TimeWanted (IsTimeText text.now) result }
{
    match read_time(text.as_bytes()) {
        Some(seconds) => Ok(seconds),
        None => Err(FieldTextError::Time),
    }
}

/// Returns the seconds of the time that characters write, as `parse_time` parses one.
pub fn read_time(text: &[u8]) -> Option<u32>
    ensures { MatchOption result ((seconds : ℕ) → ¬ (IsTimeText text.now seconds)) (IsTimeText text.now) }
{
    if text.len() == DATE_LEN {
        let seconds = date_seconds(text)?;
        return Some((seconds % TIME_COUNT) as u32);
    }
    let seconds = number_up_to(text, 4294967295)?;
    Some(seconds as u32)
}

/// Returns the seconds from 1970 to a date with a time of day.
fn date_seconds(text: &[u8]) -> Option<u64>
    requires { length text.now ≡ 14 }
    ensures { MatchOption result ((seconds : ℕ) → ¬ (IsDateText text.now seconds)) (IsDateText text.now) }
{
    if !is_digits(text) {
        return None;
    }
    let year = 100 * u16::from(two_at(text, 0)) + u16::from(two_at(text, 2));
    let (month, day) = (two_at(text, 4), two_at(text, 6));
    let days = day_number(year, month, day)?;
    moment_seconds(days, two_at(text, 8), two_at(text, 10), two_at(text, 12))
}

/// Returns the seconds to a time of day on the day with this number, if there is such a time.
fn moment_seconds(days: u32, hour: u8, minute: u8, second: u8) -> Option<u64>
    ensures { MatchOption result ((seconds : ℕ) → ¬ (IsMoment days hour minute second seconds)) (IsMoment days hour minute second) }
{
    if hour > 23 || minute > 59 || second > 59 {
        return None;
    }
    let clock = u64::from(hour) * 3600 + u64::from(minute) * 60 + u64::from(second);
    Some(u64::from(days) * 86400 + clock)
}

/// Returns `true` if each character is a digit.
fn is_digits(text: &[u8]) -> bool
    ensures yes { result ≡ true → AllPass is_ascii_digit text.now }
    ensures no { result ≡ false → ¬ (AllPass is_ascii_digit text.now) }
{
    for c in text {
        if !c.is_ascii_digit() {
            return false;
        }
    }
    true
}

/// Returns the number that the two digits at an index write.
fn two_at(text: &[u8], index: usize) -> u8
    requires digits { AllPass is_ascii_digit text.now }
    requires within { index + 1 < length text.now }
    ensures value { result ≡ two_at text.now index }
    ensures two { result < 100 }
{
    10 * (text[index] - b'0') + (text[index + 1] - b'0')
}

/// Appends the two digits of a number below 100.
fn push_two(text: &mut ArrayString<DATE_LEN>, number: u8)
    requires two { number < 100 }
    requires room { array_string_len text.old + 2 ≤ 14 }
    ensures digits { text.new.bytes ≡ text.old.bytes ++ (48 + number / 10) ∷ (48 + number % 10) ∷ [] }
    ensures len { array_string_len text.new ≡ array_string_len text.old + 2 }
{
    text.push(char::from(b'0' + number / 10));
    text.push(char::from(b'0' + number % 10));
}

/// Returns the days from 1970 to a date, if there is such a date from 1970 on.
fn day_number(year: u16, month: u8, day: u8) -> Option<u32>
    requires year { year < 10000 }
    requires month { month < 100 }
    requires day { day < 100 }
    ensures { MatchOption result ((days : ℕ) → ¬ (IsDay year month day days)) (IsDay year month day) }
{
    let Ok(date) = Date::new(year as i16, month as i8, day as i8) else {
        return None;
    };
    let days = date.to_unix_epoch_day();
    if days < 0 { None } else { Some(days as u32) }
}

/// Returns the date that is this many days after 1970 began: its year, month and day.
fn date_of(days: u32) -> (u16, u8, u8)
    requires { days < 50000 }
    ensures { IsDay result.0 result.1 result.2 days }
{
    let Ok(date) = Date::from_unix_epoch_day(days.into()) else {
        unreachable!();
    };
    (date.year.unsigned_abs(), date.month, date.day)
}
