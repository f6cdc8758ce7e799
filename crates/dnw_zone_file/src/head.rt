//! What a record has between its owner and its data.
ghost use Rattle.std.specs.Prelude.{◌≡◌, ◌≢◌, ◌≤◌, ◌↔◌, ℕ, [], length, IfOk, IfErr, IsTrue, MatchBool, MatchOption};
ghost use Rattle.std.specs.Char.{is_ascii_digit};
ghost use Rattle.std.specs.List.{list_all};
ghost use Rattle.dnw_base.specs.declared.dns_class.DNSClass.{DNSClass};
ghost use Rattle.dnw_base.specs.declared.record_type.RecordType.{RecordType};
ghost use Rattle.dnw_zone_data.specs.TypeLists.{IsTypeWord};
ghost use Rattle.dnw_zone_file.specs.Heads.{LacksHead, IsClassNext, IsLargeTime, IsTimeFault, IsTtlAndClass, IsTtlNext, IsTypeFault, IsZoneClass, IsZoneHead, IsZoneTtl, IsZoneType, is_zone_class, is_zone_type, wrong_at};

use crate::error::{ZoneError, ZoneRule};
use dnw_base::dns_class::DNSClass;
use dnw_base::record_type::RecordType;
use dnw_base::type_codes::OPT;
use dnw_zone_data::types::type_of_word;
use dnw_zone_data::words::after_spaces;
use dnw_zone_record::record_line::{class_of, next_ttl, next_word, ttl_of};

/// The greatest time to live, in seconds (RFC 2181, section 8).
pub(crate) const MAX_ZONE_TTL: u32 = 0x7fff_ffff;

/// What a record has between its owner and its data. The time to live and the class may be left out.
#[derive(Clone, Copy)]
pub struct Head {
    /// The time to live, in seconds.
    pub ttl: Option<u32>,
    /// The class.
    pub class: Option<DNSClass>,
    /// The type.
    pub record_type: RecordType,
}

/// Returns what a record has between its owner and its data, and the text of the data. The text is what is left of an entry of
/// this length.
pub(crate) fn head_of(len: usize, text: &[u8]) -> Result<(Head, &[u8]), ZoneError>
    requires { length text.now ≤ len }
    ensures ok { IfOk result (λ r. IsZoneHead text.now r.0 r.1.now) }
    ensures within { IfOk result (λ r. length r.1.now ≤ length text.now) }
    ensures err { IfErr result (LacksHead len text.now) }
{
    let (ttl, class, left) = ttl_and_class(text);
    let (word, rest) = next_word(left);
    match zone_type(word) {
        Ok(record_type) => {
            let head = Head {
                ttl,
                class,
                record_type,
            };
            Ok((head, rest))
        }
        Err(rule) => Err(wrong_at(len, left, rule)),
    }
}

/// Returns the type of a record of a zone that a word is, or which rule the word is against.
fn zone_type(word: &[u8]) -> Result<RecordType, ZoneRule>
    ensures ok { IfOk result (IsZoneType word.now) }
    ensures err { IfErr result (IsTypeFault word.now) }
{
    match type_of_word(word) {
        Some(record_type) => {
            if is_zone_type(record_type) {
                Ok(record_type)
            } else {
                Err(ZoneRule::OtherType)
            }
        }
        None => Err(type_fault(word)),
    }
}

/// Returns `true` if records of a type may be in a zone.
#[inline(always)]
fn is_zone_type(record_type: RecordType) -> bool
    ensures { result ≡ is_zone_type record_type }
{
    let code = u16::from(record_type);
    !(code == OPT || (128 <= code && code <= 255))
}

/// Returns which rule a word is against that is no type.
fn type_fault(word: &[u8]) -> ZoneRule
    requires { (kind : RecordType) → ¬ (IsTypeWord word.now kind) }
    ensures { IsTypeFault word.now result }
{
    if word.is_empty() {
        ZoneRule::NoType
    } else if is_large_time(word) {
        ZoneRule::TimeTooLarge
    } else {
        ZoneRule::UnknownType
    }
}

/// Returns which rule a word is against that is no time to live.
pub(crate) fn time_fault(word: &[u8]) -> ZoneRule
    ensures { IsTimeFault word.now result }
{
    if is_large_time(word) {
        ZoneRule::TimeTooLarge
    } else {
        ZoneRule::NoTime
    }
}

/// Returns `true` if a word is digits, but no time to live.
fn is_large_time(word: &[u8]) -> bool
    ensures { MatchBool result (IsLargeTime word.now) (¬ (IsLargeTime word.now)) }
{
    if word.is_empty() || !are_digits(word) {
        return false;
    }
    match zone_ttl_of(word) {
        Some(_) => false,
        None => true,
    }
}

/// Returns `true` if all octets of a word are digits.
fn are_digits(word: &[u8]) -> bool
    ensures { result ≡ list_all is_ascii_digit word.now }
{
    word.iter().all(|c| c.is_ascii_digit())
}

/// Returns the time to live that a word is.
#[tactic(auto, using(crate::proofs::OneHead::too_large))]
pub(crate) fn zone_ttl_of(word: &[u8]) -> Option<u32>
    ensures { MatchOption result ((ttl : ℕ) → ¬ (IsZoneTtl word.now ttl)) (IsZoneTtl word.now) }
{
    let ttl = ttl_of(word)?;
    if ttl <= MAX_ZONE_TTL { Some(ttl) } else { None }
}

/// Returns the time to live and the class that a text begins with, in either order, and what is after them.
fn ttl_and_class(text: &[u8]) -> (Option<u32>, Option<DNSClass>, &[u8])
    ensures is { IsTtlAndClass text.now result.0 result.1 result.2.now }
    ensures within { length result.2.now ≤ length text.now }
{
    let (first, rest) = ttl_next(text);
    let (class, rest) = class_next(rest);
    match first {
        Some(ttl) => (Some(ttl), class, rest),
        None => {
            let (ttl, rest) = ttl_next(rest);
            (ttl, class, rest)
        }
    }
}

/// Returns the time to live that a text begins with, if any, and what is after it.
#[inline(always)]
#[tactic(auto, using(crate::proofs::OneHead::too_large))]
fn ttl_next(text: &[u8]) -> (Option<u32>, &[u8])
    ensures is { IsTtlNext text.now result.0 result.1.now }
    ensures within { length result.1.now ≤ length text.now }
{
    match next_ttl(text) {
        Some((ttl, rest)) => {
            if ttl <= MAX_ZONE_TTL {
                (Some(ttl), rest)
            } else {
                (None, text)
            }
        }
        None => (None, text),
    }
}

/// Returns the class that a text begins with, if any, and what is after it.
#[tactic(auto, using(crate::proofs::OneHead::no_zone_class))]
fn class_next(text: &[u8]) -> (Option<DNSClass>, &[u8])
    ensures is { IsClassNext text.now result.0 result.1.now }
    ensures within { length result.1.now ≤ length text.now }
{
    let (word, rest) = next_word(text);
    match class_of(word) {
        Some(class) => {
            if is_zone_class(class) {
                (Some(class), rest)
            } else {
                (None, text)
            }
        }
        None => (None, text),
    }
}

/// Returns `true` if records of a class may be in a zone.
#[inline(always)]
fn is_zone_class(class: DNSClass) -> bool
    ensures { result ≡ is_zone_class class }
{
    let code = class.code();
    !(code == 254 || code == 255)
}

/// Returns the error at the next word of what is left of an entry of this length.
pub(crate) fn wrong_at(len: usize, left: &[u8], rule: ZoneRule) -> ZoneError
    requires { length left.now ≤ len }
    ensures { result ≡ wrong_at len left.now rule }
{
    let offset = len - after_spaces(left).len();
    ZoneError::Wrong { offset, rule }
}
