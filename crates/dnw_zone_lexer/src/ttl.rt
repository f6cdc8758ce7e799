//! Times to live as text.
ghost use Rattle.std.specs.Prelude.{◌≡◌, ℕ, ◌+◌, ◌-◌, ◌*◌, ◌<◌, ◌≤◌, List, ◌∷◌, drop, length, Some, None, IfOk, IfErr, OnErr, IfSome, IfNone, MatchOption};
ghost use Rattle.dnw_zone_lexer.specs.Times.{max_ttl, unit_seconds, time_seconds, IsNoTtl, IsParseTime};
ghost use Rattle.dnw_zone_lexer.specs.Inside.Finds.{BeginsNoDigit, rest_from, seconds_after};

use crate::errors::{ParseError, ParseResult, copied};
use std::alloc::Global;

/// Reads a time to live: one or more groups of digits and a unit, of which the last may lack its unit. The units are `s`
/// for seconds, `m` for minutes, `h` for hours, `d` for days and `w` for weeks, in either case; without a unit a number
/// counts seconds. The value is the sum of the groups, in seconds.
///
/// Fails with `ParseTime` and the text if it is no such time, or if the sum is past 4294967295. Only this error's text
/// is allocated.
///
/// ```
/// parse_ttl(alloc, "1h30m")?; // 5400
/// parse_ttl(alloc, "300")?; // 300
/// ```
pub fn parse_ttl(alloc: Global, ttl_str: &str) -> ParseResult<u32>
    ensures ok { IfOk result (λ seconds. time_seconds ttl_str.now ≡ Some seconds) }
    ensures err { IfErr result (IsParseTime ttl_str.now) }
    ensures no_ttl { OnErr result (IsNoTtl (time_seconds ttl_str.now)) }
{
    match ttl_seconds(ttl_str.as_bytes()) {
        Some(seconds) => Ok(seconds),
        None => Err(ParseError::ParseTime(copied(alloc, ttl_str)?)),
    }
}

/// The greatest time to live, in seconds: its field has 32 bits.
const MAX_TTL: u64 = 4294967295;

/// Returns the seconds of a time, if the text is one and they are not too many, as `parse_ttl` reads it. It allocates nothing.
#[tactic(auto, using(crate::proofs::Sums::from_start, crate::proofs::Sums::too_many))]
pub fn ttl_seconds(text: &[u8]) -> Option<u32>
    ensures { MatchOption result (IsNoTtl (time_seconds text.now)) (λ seconds. time_seconds text.now ≡ Some seconds) }
{
    if text.is_empty() {
        return None;
    }
    let mut total = 0;
    let mut index = 0;
    loop {
        let (seconds, end) = take_group(text, index)?;
        total += seconds;
        if total > MAX_TTL {
            return None;
        }
        if end == text.len() {
            return Some(total as u32);
        }
        index = end;
    }
}

/// Reads the group that begins at `start`. Returns its seconds and where it ends.
#[inline(always)]
fn take_group(text: &[u8], start: usize) -> Option<(u64, usize)>
    requires { start < length text.now }
    ensures goes_on { IfSome result (λ x. (total : ℕ) → seconds_after total None (drop start text.now) ≡ seconds_after (total + x.0) None (drop x.1 text.now)) }
    ensures fits { IfSome result (λ x. x.0 ≤ 604800 * max_ttl) }
    ensures ends { IfSome result (λ x. (start < x.1) × (x.1 ≤ length text.now)) }
    ensures none { IfNone result ((total : ℕ) → IsNoTtl (seconds_after total None (drop start text.now))) }
{
    let (number, unit) = take_number(text, start)?;
    let Some(unit) = unit else {
        return Some((number, text.len()));
    };
    Some((number * unit_seconds(text[unit])?, unit + 1))
}

/// Reads the digits that begin at `start`. Returns their number, and where its unit is unless the text ends.
#[inline(always)]
fn take_number(text: &[u8], start: usize) -> Option<(u64, Option<usize>)>
    requires { start < length text.now }
    ensures goes_on { IfSome result (λ x. (total : ℕ) → seconds_after total None (drop start text.now) ≡ seconds_after total (Some x.0) (rest_from text.now x.1)) }
    ensures fits { IfSome result (λ x. x.0 ≤ max_ttl) }
    ensures unit { IfSome result (λ x. IfSome x.1 (λ unit. (start < unit) × (unit < length text.now))) }
    ensures ends { IfSome result (λ x. BeginsNoDigit (rest_from text.now x.1)) }
    ensures none { IfNone result ((total : ℕ) → IsNoTtl (seconds_after total None (drop start text.now))) }
{
    if !text[start].is_ascii_digit() {
        return None;
    }
    let mut number = u64::from(text[start] - b'0');
    let mut end = start + 1;
    while end < text.len() {
        if !text[end].is_ascii_digit() {
            return Some((number, Some(end)));
        }
        number = 10 * number + u64::from(text[end] - b'0');
        if number > MAX_TTL {
            return None;
        }
        end += 1;
    }
    Some((number, None))
}

/// Returns the seconds of a unit.
fn unit_seconds(byte: u8) -> Option<u64>
    ensures { result ≡ unit_seconds byte }
{
    match byte {
        b's' | b'S' => Some(1),
        b'm' | b'M' => Some(60),
        b'h' | b'H' => Some(3600),
        b'd' | b'D' => Some(86400),
        b'w' | b'W' => Some(604800),
        _ => None,
    }
}
