//! Lists of record types: the types of a bitmap (RFC 4034, section 4.2).
ghost use Rattle.std.specs.Prelude.{◌≡◌, ◌≤◌, ◌<◌, ◌+◌, ◌*◌, ◌++◌, ℕ, List, true, false, length, IfOk, IfSome, MatchOption, string_bytes};
ghost use Rattle.dnw_base.specs.declared.record_type.RecordType.{RecordType};
ghost use Rattle.dnw_base.specs.RecordTypes.{type_code};
ghost use Rattle.dnw_data.specs.TypeSets.{bit_codes, octet_codes, octets_codes};
ghost use Rattle.dnw_zone_data.specs.Bitmaps.{number_text, numbers_text};
ghost use Rattle.dnw_zone_data.specs.TypeLists.{has_unread_name, is_window, shown_type, PrintsTypes, IsTypeField, IsTypeWord, AreTypeWords, AreBitmap, AreTypes};
ghost use Rattle.dnw_zone_data.specs.Appending.{Appended, AppendedInPart, AppendsOne};

use crate::words::{after_spaces, is_asterisk, split_word};
use dnw_base::limits::MAX_WINDOW;
use dnw_base::record_type::RecordType;
use dnw_data::kind::Shown;
use dnw_data::record_type_set::RecordTypeSet;
use std::alloc::{AllocError, Global};
use std::str;

/// The number of codes of a window.
const WINDOW_CODES: usize = 256;

/// Appends the types of a bitmap, each after a space. Returns `false` if a window could be shorter, or is cut; nothing is changed
/// then.
pub fn write_types(octets: &[u8], out: &mut String) -> Result<bool, AllocError>
    ensures { IfOk result (Appended (PrintsTypes octets.now) (string_bytes out.old) (string_bytes out.new)) }
{
    let start = out.len();
    let is_whole = push_windows(octets, out)?;
    if !is_whole {
        out.truncate(start);
    }
    Ok(is_whole)
}

/// Appends the types of a bitmap. Returns `false` if a window could be shorter, or is cut; some types may be appended then.
fn push_windows(octets: &[u8], out: &mut String) -> Result<bool, AllocError>
    ensures { IfOk result (AppendedInPart (PrintsTypes octets.now) (string_bytes out.old) (string_bytes out.new)) }
{
    let mut left = octets;
    while let Some((number, rest)) = left.split_first() {
        let Some((len, rest)) = rest.split_first() else {
            return Ok(false);
        };
        let Some((own, after)) = rest.split_at_checked(usize::from(*len)) else {
            return Ok(false);
        };
        if !is_window(own) {
            return Ok(false);
        }
        write_octets(Shown::OldTypes, 256 * u32::from(*number), own, out)?;
        left = after;
    }
    Ok(true)
}

/// Returns `true` if octets are those of a window that is as short as it can be.
fn is_window(octets: &[u8]) -> bool
    ensures { result ≡ is_window octets.now }
{
    match octets.last() {
        Some(last) => octets.len() <= MAX_WINDOW && *last != 0,
        None => false,
    }
}

/// Appends the numbers whose bits are set in octets, of which the highest bit stands for the number `first`.
pub(crate) fn write_octets(
    shown: Shown,
    first: u32,
    octets: &[u8],
    out: &mut String,
) -> Result<(), AllocError>
    requires { first + 8 * length octets.now ≤ 65536 }
    ensures { IfOk result (λ _. string_bytes out.new ≡ string_bytes out.old ++ numbers_text shown (octets_codes first octets.now)) }
{
    let mut code = first;
    let mut left = octets;
    while let Some((octet, rest)) = left.split_first() {
        write_octet(shown, code, *octet, out)?;
        code += 8;
        left = rest;
    }
    Ok(())
}

/// Appends the numbers whose bits are set in an octet, of which the highest bit stands for the number `first`.
fn write_octet(shown: Shown, first: u32, octet: u8, out: &mut String) -> Result<(), AllocError>
    requires { first + 8 ≤ 65536 }
    ensures { IfOk result (λ _. string_bytes out.new ≡ string_bytes out.old ++ numbers_text shown (octet_codes first octet)) }
{
    for bit in 0..8 {
        write_bit(shown, first, octet, bit, out)?;
    }
    Ok(())
}

/// Appends the number of a bit of an octet, if it is set.
fn write_bit(
    shown: Shown,
    first: u32,
    octet: u8,
    bit: u32,
    out: &mut String,
) -> Result<(), AllocError>
    requires bit { bit < 8 }
    requires fits { first + 8 ≤ 65536 }
    ensures { IfOk result (λ _. string_bytes out.new ≡ string_bytes out.old ++ numbers_text shown (bit_codes first octet bit)) }
{
    if (octet >> (7 - bit)) % 2 != 1 {
        return Ok(());
    }
    write_number(shown, (first + bit) as u16, out)
}

/// Appends a number after a space: as a record type, or in decimal.
fn write_number(shown: Shown, number: u16, out: &mut String) -> Result<(), AllocError>
    ensures { IfOk result (λ _. string_bytes out.new ≡ string_bytes out.old ++ number_text shown number) }
{
    match shown {
        Shown::OldTypes => {
            out.push(' ')?;
            push_type(RecordType::from(number), out)?;
        }
        _ => write!(out, " {number}")?,
    }
    Ok(())
}

/// Appends a type: its name, or `TYPE` and its code if few servers read its name.
pub(crate) fn push_type(record_type: RecordType, out: &mut String) -> Result<(), AllocError>
    ensures { IfOk result (λ _. string_bytes out.new ≡ string_bytes out.old ++ shown_type record_type) }
{
    if has_unread_name(record_type) {
        return write!(out, "TYPE{}", u16::from(record_type));
    }
    out.push_str(record_type.to_text().as_str())
}

/// Returns `true` for types whose names few servers read.
#[tactic(auto, unfolding(crate::specs::TypeLists::has_unread_name))]
fn has_unread_name(record_type: RecordType) -> bool
    ensures { result ≡ has_unread_name (type_code record_type) }
{
    matches!(
        u16::from(record_type),
        31 | 32 | 34 | 40 | 56..=58 | 66..=68 | 100..=103 | 128 | 258..=264 | 32768
    )
}

/// Appends the bitmap of the types that all words are. Returns `false` if one is no type.
pub fn parse_types(alloc: Global, text: &[u8], out: &mut Vec<u8>) -> Result<bool, AllocError>
    ensures { IfOk result (AppendsOne (AreTypes text.now) out.old.items out.new.items) }
{
    if parse_first_window(text, out)? {
        return Ok(true);
    }
    parse_any_types(alloc, text, out)
}

/// Appends the bitmap of the types that all words are, in any order. Returns `false` if one is no type.
#[inline(never)]
fn parse_any_types(alloc: Global, text: &[u8], out: &mut Vec<u8>) -> Result<bool, AllocError>
    ensures { IfOk result (AppendsOne (AreTypes text.now) out.old.items out.new.items) }
{
    let Some(listed) = types_of_words(alloc, text)? else {
        return Ok(false);
    };
    let set = set_of(alloc, listed)?;
    out.extend_from_slice(set.as_bytes())?;
    Ok(true)
}

/// Appends the bitmap of the types that all words are if they are types of the first window, each after the one before it: so most lists
/// are. Returns `false` if they are not, or there is none; nothing is changed then.
fn parse_first_window(text: &[u8], out: &mut Vec<u8>) -> Result<bool, AllocError>
    ensures types { IfOk result (λ read. read ≡ true → AppendsOne (AreTypes text.now) out.old.items out.new.items true) }
    ensures same { IfOk result (λ read. read ≡ false → out.new.items ≡ out.old.items) }
{
    let mut octets = [0; MAX_WINDOW];
    let mut next = 0;
    let mut left = after_spaces(text);
    'types: while !left.is_empty() {
        let (word, rest) = split_word(left);
        let Some(record_type) = type_of_word(word) else {
            return Ok(false);
        };
        let code = usize::from(u16::from(record_type));
        if code < next || code >= WINDOW_CODES {
            return Ok(false);
        }
        octets[code / 8] |= 1 << (7 - code % 8);
        next = code + 1;
        left = after_spaces(rest);
    }
    if next == 0 {
        return Ok(false);
    }
    let len = (next + 7) / 8;
    out.extend_from_slice(&[0, len as u8])?;
    out.extend_from_slice(&octets[..len])?;
    Ok(true)
}

/// Returns the set of types.
fn set_of(alloc: Global, listed: Vec<RecordType>) -> Result<RecordTypeSet, AllocError>
    ensures { IfOk result (λ set. AreBitmap listed.items set.encoding) }
{
    match RecordTypeSet::new(alloc, listed) {
        Ok(set) => Ok(set),
        Err(_) => Err(AllocError),
    }
}

/// Returns the types that all words are, or `None` if one is none.
fn types_of_words(alloc: Global, text: &[u8]) -> Result<Option<Vec<RecordType>>, AllocError>
    ensures { IfOk result (λ x. MatchOption x ((listed : List RecordType) → ¬ (AreTypeWords text.now listed)) (λ listed. AreTypeWords text.now listed.items)) }
{
    let mut listed = Vec::new(alloc);
    let mut left = after_spaces(text);
    'types: while !left.is_empty() {
        let (word, rest) = split_word(left);
        let Some(record_type) = type_of_word(word) else {
            return Ok(None);
        };
        listed.push(record_type)?;
        left = after_spaces(rest);
    }
    Ok(Some(listed))
}

/// Appends the code of the type that a word is. Returns `false` if it is none.
pub(crate) fn parse_type(word: &[u8], out: &mut Vec<u8>) -> Result<bool, AllocError>
    ensures { IfOk result (AppendsOne (IsTypeField word.now) out.old.items out.new.items) }
{
    let Some(code) = type_of_word(word) else {
        return Ok(false);
    };
    out.extend_from_slice(&u16::from(code).to_be_bytes())?;
    Ok(true)
}

/// Returns the type that a word is. `*` is none: it asks for all types.
pub fn type_of_word(word: &[u8]) -> Option<RecordType>
    ensures { MatchOption result ((record_type : RecordType) → ¬ (IsTypeWord word.now record_type)) (IsTypeWord word.now) }
{
    if let Some(record_type) = usual_type(word) {
        return Some(record_type);
    }
    any_type(word)
}

/// Returns the type that a word is, in upper or lower case, or by its code.
#[inline(never)]
fn any_type(word: &[u8]) -> Option<RecordType>
    ensures { MatchOption result ((record_type : RecordType) → ¬ (IsTypeWord word.now record_type)) (IsTypeWord word.now) }
{
    if is_asterisk(word) {
        return None;
    }
    let text = str::from_utf8(word).ok()?;
    RecordType::from_text(text)
}

/// Returns the record type that a word is, for those that most records of zone files have.
#[inline(always)]
fn usual_type(word: &[u8]) -> Option<RecordType>
    ensures { IfSome result (IsTypeWord word.now) }
{
    match word {
        [a] if *a == b'A' => Some(RecordType::A),
        [a, b] => match (*a, *b) {
            (b'N', b'S') => Some(RecordType::NS),
            (b'D', b'S') => Some(RecordType::DS),
            (b'M', b'X') => Some(RecordType::MX),
            _ => None,
        },
        [a, b, c] => match (*a, *b, *c) {
            (b'T', b'X', b'T') => Some(RecordType::TXT),
            (b'P', b'T', b'R') => Some(RecordType::PTR),
            (b'S', b'R', b'V') => Some(RecordType::SRV),
            (b'S', b'O', b'A') => Some(RecordType::SOA),
            (b'C', b'A', b'A') => Some(RecordType::CAA),
            _ => None,
        },
        [a, b, c, d] => match (*a, *b, *c, *d) {
            (b'A', b'A', b'A', b'A') => Some(RecordType::AAAA),
            (b'N', b'S', b'E', b'C') => Some(RecordType::NSEC),
            _ => None,
        },
        [a, b, c, d, e] => match (*a, *b, *c, *d, *e) {
            (b'R', b'R', b'S', b'I', b'G') => Some(RecordType::RRSIG),
            (b'N', b'S', b'E', b'C', b'3') => Some(RecordType::NSEC3),
            (b'C', b'N', b'A', b'M', b'E') => Some(RecordType::CNAME),
            _ => None,
        },
        _ => None,
    }
}
