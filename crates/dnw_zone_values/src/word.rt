//! Which word is which parameter (RFC 9460, section 2.1 and appendix A).
ghost use Rattle.std.specs.Prelude.{◌≡◌, ◌≤◌, ℕ, List, IfOk, OnErr, IfSome, MatchOption, length};
ghost use Rattle.std.specs.List.{position_or_len};
ghost use Rattle.std.specs.Option.{option_map};
ghost use Rattle.dnw_zone_values.specs.Params.{ParamValue};
ghost use Rattle.dnw_zone_values.specs.ParamWords.{is_equals, key_part, value_part, HasValue, IsValueText, IsParam, IsParamOf};

use crate::error::FieldTextError;
use crate::keys::{generic_key, named_form, named_key};
use crate::param::{MAX_VALUE, Param};
use crate::string::parse_text;
use crate::values::own_value;
use std::alloc::{AllocError, Global};
use std::str;

/// Returns the parameter that a word is, as `alpn=h2,h3` or `key667="hello"`, or `None` if it is none.
///
/// A key is written by its name in lower case, and its value has the form of its key; or as `key` and its number, and the value
/// is any octets, also above 127. It fails only if the word has a value and it runs out of memory.
pub fn parse_param(alloc: Global, word: &[u8]) -> Result<Option<Param>, AllocError>
    ensures ok { IfOk result (λ x. MatchOption x ((p : ParamValue) → ¬ (IsParam word.now p)) (IsParam word.now)) }
    ensures err { OnErr result (HasValue (value_part word.now)) }
{
    let (key, value) = parts(word);
    let Ok(name) = str::from_utf8(key) else {
        return Ok(None);
    };
    let Some(own) = value_octets(alloc, value)? else {
        return Ok(None);
    };
    param_of(alloc, name, own)
}

/// Returns what is before and after the first `=`.
fn parts(word: &[u8]) -> (&[u8], Option<&[u8]>)
    ensures key { result.0.now ≡ key_part word.now }
    ensures value { option_map (λ v. v.now) result.1 ≡ value_part word.now }
{
    let (key, rest) = word.split_at(key_len(word));
    match rest.split_first() {
        Some((_, value)) => (key, Some(value)),
        None => (key, None),
    }
}

/// Returns the number of octets before the first `=`, or of all if there is none.
fn key_len(word: &[u8]) -> usize
    ensures is { result ≡ position_or_len is_equals word.now }
    ensures within { result ≤ length word.now }
{
    let mut left = word;
    while let Some((first, rest)) = left.split_first() {
        if *first == b'=' {
            return word.len() - left.len();
        }
        left = rest;
    }
    word.len()
}

/// Returns the octets that a value writes.
fn value_octets(alloc: Global, value: Option<&[u8]>) -> Result<Option<Vec<u8>>, AllocError>
    ensures is { IfOk result (λ x. MatchOption x ((own : List ℕ) → ¬ (IsValueText (option_map (λ v. v.now) value.entry) own)) (λ own. IsValueText (option_map (λ v. v.now) value.entry) own.items)) }
    ensures few { IfOk result (λ x. IfSome x (λ own. length own.items ≤ 65535)) }
    ensures err { OnErr result (HasValue (option_map (λ v. v.now) value.entry)) }
{
    let mut own = Vec::new(alloc);
    let Some(text) = value else {
        return Ok(Some(own));
    };
    match parse_text(text, &mut own) {
        Ok(()) => Ok(Some(own)),
        Err(FieldTextError::Memory) => Err(AllocError),
        Err(_) => Ok(None),
    }
}

/// Returns the parameter with a key and a value.
fn param_of(alloc: Global, key: &str, own: Vec<u8>) -> Result<Option<Param>, AllocError>
    requires { length own.items ≤ 65535 }
    ensures ok { IfOk result (λ x. MatchOption x ((p : ParamValue) → ¬ (IsParamOf key.now own.items p)) (IsParamOf key.now own.items)) }
    ensures err { OnErr result (1 ≤ length own.items) }
{
    if let Some(number) = generic_key(key) {
        return Ok(Some(Param {
            key: number,
            octets: own,
        }));
    }
    let Some(number) = named_key(key) else {
        return Ok(None);
    };
    let Some(octets) = own_value(alloc, named_form(number), own.as_slice())? else {
        return Ok(None);
    };
    if octets.len() > MAX_VALUE {
        return Ok(None);
    }
    Ok(Some(Param {
        key: number,
        octets,
    }))
}
