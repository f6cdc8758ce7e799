//! Values in the form of their keys (RFC 9460, sections 7 and 8; RFC 9848 for ech; RFC 9461 for dohpath; RFC 9540 for ohttp).
ghost use Rattle.std.specs.Prelude.{◌≡◌, ◌≤◌, ◌++◌, ℕ, List, [], None, Some, IfOk, OnErr, MatchOption, length};
ghost use Rattle.dnw_zone_values.specs.Params.{in_key_order};
ghost use Rattle.dnw_zone_values.specs.ParamTexts.{own_text};
ghost use Rattle.dnw_zone_values.specs.ParamWords.{keys_of, keys_wire, AreMandatory, IsOwnValue};

use crate::error::FieldTextError;
use crate::keys::Form;
use crate::lists::{ListValue, is_ascending, list_text, parse_list, split_u16};
use crate::number::parse_u16;
use crate::octets::{Base64, parse_base64};
use crate::param::{Param, sort_params};
use std::alloc::{AllocError, Global};
use std::str;

/// Returns the octets that a value of this form stands for, if it has it. A value without characters takes no memory.
pub(crate) fn own_value(
    alloc: Global,
    form: Form,
    value: &[u8],
) -> Result<Option<Vec<u8>>, AllocError>
    ensures ok { IfOk result (λ x. MatchOption x ((own : List ℕ) → ¬ (IsOwnValue form value.now own)) (λ own. IsOwnValue form value.now own.items)) }
    ensures err { OnErr result (1 ≤ length value.now) }
{
    if value.is_empty() {
        return Ok(nothing_of(alloc, form));
    }
    match form {
        Form::Mandatory => mandatory_of(alloc, value),
        Form::Protocols => parse_list(alloc, ListValue::Protocols, value),
        Form::Port => port_of(alloc, value),
        Form::Ipv4 => parse_list(alloc, ListValue::Ipv4, value),
        Form::Ech => ech_of(alloc, value),
        Form::Ipv6 => parse_list(alloc, ListValue::Ipv6, value),
        Form::Template => template_of(alloc, value),
        Form::Nothing | Form::Any => Ok(None),
    }
}

/// Returns what a value without characters stands for: no octets, if the form is that of no value.
fn nothing_of(alloc: Global, form: Form) -> Option<Vec<u8>>
    ensures { MatchOption result ((own : List ℕ) → ¬ (IsOwnValue form [] own)) (λ own. IsOwnValue form [] own.items) }
{
    match form {
        Form::Nothing => Some(Vec::new(alloc)),
        _ => None,
    }
}

/// Returns the octets of the number of a port.
fn port_of(alloc: Global, value: &[u8]) -> Result<Option<Vec<u8>>, AllocError>
    ensures { IfOk result (λ x. MatchOption x ((own : List ℕ) → ¬ (IsOwnValue Form.Port value.now own)) (λ own. IsOwnValue Form.Port value.now own.items)) }
{
    let Ok(text) = str::from_utf8(value) else {
        return Ok(None);
    };
    let Ok(port) = parse_u16(text) else {
        return Ok(None);
    };
    Ok(Some(Vec::from_slice(alloc, &port.to_be_bytes())?))
}

/// Returns the octets that a text in base 64 writes, one or more.
fn ech_of(alloc: Global, value: &[u8]) -> Result<Option<Vec<u8>>, AllocError>
    ensures { IfOk result (λ x. MatchOption x ((own : List ℕ) → ¬ (IsOwnValue Form.Ech value.now own)) (λ own. IsOwnValue Form.Ech value.now own.items)) }
{
    let Ok(text) = str::from_utf8(value) else {
        return Ok(None);
    };
    if text.is_empty() {
        return Ok(None);
    }
    let mut own = Vec::new(alloc);
    match parse_base64(text, &mut own) {
        Ok(()) => Ok(Some(own)),
        Err(FieldTextError::Memory) => Err(AllocError),
        Err(_) => Ok(None),
    }
}

/// Returns the octets of a template, which are UTF-8, one or more.
fn template_of(alloc: Global, value: &[u8]) -> Result<Option<Vec<u8>>, AllocError>
    ensures { IfOk result (λ x. MatchOption x ((own : List ℕ) → ¬ (IsOwnValue Form.Template value.now own)) (λ own. IsOwnValue Form.Template value.now own.items)) }
{
    if value.is_empty() || str::from_utf8(value).is_err() {
        return Ok(None);
    }
    Ok(Some(Vec::from_slice(alloc, value)?))
}

/// Returns the octets of a list of keys, in their order, if none is there twice.
fn mandatory_of(alloc: Global, value: &[u8]) -> Result<Option<Vec<u8>>, AllocError>
    ensures { IfOk result (λ x. MatchOption x ((own : List ℕ) → ¬ (AreMandatory value.now own)) (λ own. AreMandatory value.now own.items)) }
{
    let Some(listed) = parse_list(alloc, ListValue::Keys, value)? else {
        return Ok(None);
    };
    let Some(keys) = sorted_keys(alloc, listed.as_slice())? else {
        return Ok(None);
    };
    let mut own = Vec::new(alloc);
    push_keys(keys.as_slice(), &mut own)?;
    Ok(Some(own))
}

/// Returns keys in their order, if none is there twice.
fn sorted_keys(alloc: Global, octets: &[u8]) -> Result<Option<Vec<Param>>, AllocError>
    ensures { IfOk result (λ x. MatchOption x (in_key_order [] (keys_of octets.now) ≡ None) (λ keys. in_key_order [] (keys_of octets.now) ≡ Some keys.items)) }
{
    let mut keys = keys_of(alloc, octets)?;
    if sort_params(&mut keys) {
        Ok(Some(keys))
    } else {
        Ok(None)
    }
}

/// Returns keys, of which each is two octets.
fn keys_of(alloc: Global, octets: &[u8]) -> Result<Vec<Param>, AllocError>
    ensures { IfOk result (λ keys. keys.items ≡ keys_of octets.now) }
{
    let mut keys = Vec::new(alloc);
    let mut left = octets;
    while let Some((key, rest)) = split_u16(left) {
        keys.push(key_alone(alloc, key))?;
        left = rest;
    }
    Ok(keys)
}

/// Returns a parameter that has a key alone.
fn key_alone(alloc: Global, key: u16) -> Param
    ensures { result ≡ record { key = key; octets = [] } }
{
    Param {
        key,
        octets: Vec::new(alloc),
    }
}

/// Appends the octets of keys.
fn push_keys(keys: &[Param], out: &mut Vec<u8>) -> Result<(), AllocError>
    ensures { IfOk result (λ _. out.new.items ≡ out.old.items ++ keys_wire keys.now) }
{
    for key in keys {
        out.extend_from_slice(&key.key.to_be_bytes())?;
    }
    Ok(())
}

/// Returns the text of a value, if the octets have this form.
pub(crate) fn own_text(
    alloc: Global,
    form: Form,
    octets: &[u8],
) -> Result<Option<Vec<u8>>, AllocError>
    ensures { IfOk result (λ x. MatchOption x (own_text form octets.now ≡ None) (λ text. own_text form octets.now ≡ Some text.items)) }
{
    match form {
        Form::Mandatory if is_ascending(octets) => list_text(alloc, ListValue::Keys, octets),
        Form::Protocols => list_text(alloc, ListValue::Protocols, octets),
        Form::Nothing if octets.is_empty() => Ok(Some(Vec::new(alloc))),
        Form::Port => port_text(alloc, octets),
        Form::Ipv4 => list_text(alloc, ListValue::Ipv4, octets),
        Form::Ech => ech_text(alloc, octets),
        Form::Ipv6 => list_text(alloc, ListValue::Ipv6, octets),
        _ => Ok(None),
    }
}

/// Returns the number of a port, if the octets are one.
fn port_text(alloc: Global, octets: &[u8]) -> Result<Option<Vec<u8>>, AllocError>
    ensures { IfOk result (λ x. MatchOption x (own_text Form.Port octets.now ≡ None) (λ text. own_text Form.Port octets.now ≡ Some text.items)) }
{
    let [a, b] = octets else {
        return Ok(None);
    };
    let text = format!(in alloc; "{}", u16::from_be_bytes([*a, *b]))?;
    Ok(Some(Vec::from_slice(alloc, text.as_bytes())?))
}

/// Returns octets in base 64, if there are any.
fn ech_text(alloc: Global, octets: &[u8]) -> Result<Option<Vec<u8>>, AllocError>
    ensures { IfOk result (λ x. MatchOption x (own_text Form.Ech octets.now ≡ None) (λ text. own_text Form.Ech octets.now ≡ Some text.items)) }
{
    if octets.is_empty() {
        return Ok(None);
    }
    let text = format!(in alloc; "{}", Base64(octets))?;
    Ok(Some(Vec::from_slice(alloc, text.as_bytes())?))
}
