//! Values that are lists: keys, identifiers of protocols and addresses (RFC 9460, sections 7.1, 7.3 and 8).
ghost use Rattle.std.specs.Prelude.{◌≡◌, ◌≤◌, ◌<◌, ◌∷◌, ◌++◌, ℕ, List, [], None, Some, IfOk, IfSome, IfNone, MatchOption, length};
ghost use Rattle.std.specs.Int.{w16, from_be_bytes};
ghost use Rattle.dnw_zone_values.specs.ParamValues.{octets_of_item, text_of_item, list_text, is_ascending, IsItem, IsListText};
ghost use Rattle.dnw_zone_values.specs.Inside.Steps.{PushesOne};

use crate::address::{parse_ipv4, parse_ipv6};
use crate::items::{After, next_item, push_escaped};
use crate::keys::{Key, key_of};
use std::alloc::{AllocError, Global};
use std::net::{Ipv4Addr, Ipv6Addr};
use std::str;

/// What the items of a list are.
#[derive(Clone, Copy, Debug, PartialEq, Eq)]
pub(crate) enum ListValue {
    /// Keys.
    Keys,
    /// Identifiers of protocols.
    Protocols,
    /// IPv4 addresses.
    Ipv4,
    /// IPv6 addresses.
    Ipv6,
}

/// Returns how many octets the first item has.
fn octets_of_item(list: ListValue, octets: &[u8]) -> usize
    requires { 1 ≤ length octets.now }
    ensures { result ≡ octets_of_item list octets.now }
{
    match list {
        ListValue::Keys => 2,
        ListValue::Protocols => 1 + usize::from(octets[0]),
        ListValue::Ipv4 => 4,
        ListValue::Ipv6 => 16,
    }
}

/// Appends the text of the item that these octets are.
fn push_text(
    alloc: Global,
    list: ListValue,
    own: &[u8],
    text: &mut Vec<u8>,
) -> Result<(), AllocError>
    requires size { length own.now ≡ octets_of_item list own.now }
    ensures { IfOk result (λ _. text.new.items ≡ text.old.items ++ text_of_item list own.now) }
{
    match list {
        ListValue::Keys => push_key_text(alloc, own, text),
        ListValue::Protocols => push_escaped(&own[1..], text),
        ListValue::Ipv4 => push_ipv4_text(alloc, own, text),
        ListValue::Ipv6 => push_ipv6_text(alloc, own, text),
    }
}

/// Appends the text of a key.
fn push_key_text(alloc: Global, own: &[u8], text: &mut Vec<u8>) -> Result<(), AllocError>
    requires { length own.now ≡ 2 }
    ensures { IfOk result (λ _. text.new.items ≡ text.old.items ++ text_of_item ListValue.Keys own.now) }
{
    let key = u16::from_be_bytes(*own.first_chunk::<2>().unwrap());
    let shown = format!(in alloc; "{}", Key(key))?;
    text.extend_from_slice(shown.as_bytes())
}

/// Appends the text of an IPv4 address.
fn push_ipv4_text(alloc: Global, own: &[u8], text: &mut Vec<u8>) -> Result<(), AllocError>
    requires { length own.now ≡ 4 }
    ensures { IfOk result (λ _. text.new.items ≡ text.old.items ++ text_of_item ListValue.Ipv4 own.now) }
{
    let address = Ipv4Addr::from(*own.first_chunk::<4>().unwrap());
    let shown = format!(in alloc; "{address}")?;
    text.extend_from_slice(shown.as_bytes())?;
    Ok(())
}

/// Appends the text of an IPv6 address.
fn push_ipv6_text(alloc: Global, own: &[u8], text: &mut Vec<u8>) -> Result<(), AllocError>
    requires { length own.now ≡ 16 }
    ensures { IfOk result (λ _. text.new.items ≡ text.old.items ++ text_of_item ListValue.Ipv6 own.now) }
{
    let address = Ipv6Addr::from(*own.first_chunk::<16>().unwrap());
    let shown = format!(in alloc; "{address}")?;
    text.extend_from_slice(shown.as_bytes())?;
    Ok(())
}

/// Returns the items of octets with commas between them, if there is one or more and they are whole.
pub(crate) fn list_text(
    alloc: Global,
    list: ListValue,
    octets: &[u8],
) -> Result<Option<Vec<u8>>, AllocError>
    ensures { IfOk result (λ x. MatchOption x (list_text list octets.now ≡ None) (λ text. list_text list octets.now ≡ Some text.items)) }
{
    let mut text = Vec::new(alloc);
    let mut left = octets;
    while !left.is_empty() {
        let size = octets_of_item(list, left);
        if size < 2 {
            return Ok(None);
        }
        let Some((own, rest)) = left.split_at_checked(size) else {
            return Ok(None);
        };
        text.push(b',')?;
        push_text(alloc, list, own, &mut text)?;
        left = rest;
    }
    match text.as_slice().split_first() {
        Some((_, rest)) => Ok(Some(Vec::from_slice(alloc, rest)?)),
        None => Ok(None),
    }
}

/// Returns `true` if octets are keys that ascend, and none is 0.
pub(crate) fn is_ascending(octets: &[u8]) -> bool
    ensures { result ≡ is_ascending 1 octets.now }
{
    let mut least = 1u32;
    let mut left = octets;
    while let Some((key, rest)) = split_u16(left) {
        if u32::from(key) < least {
            return false;
        }
        least = u32::from(key) + 1;
        left = rest;
    }
    left.is_empty()
}

/// Returns the number that the first two octets are, and what is after them.
pub(crate) fn split_u16(octets: &[u8]) -> Option<(u16, &[u8])>
    ensures some { IfSome result (λ x. (a : ℕ) × (b : ℕ) × (octets.now ≡ a ∷ b ∷ x.1.now) × (x.0 ≡ from_be_bytes w16 (a ∷ b ∷ []))) }
    ensures none { IfNone result (length octets.now < 2) }
{
    let (a, rest) = octets.split_first()?;
    let (b, rest) = rest.split_first()?;
    Some((u16::from_be_bytes([*a, *b]), rest))
}

/// Appends the octets of an item. Returns `false` if the text is none.
fn push_item(list: ListValue, item: &[u8], out: &mut Vec<u8>) -> Result<bool, AllocError>
    ensures { IfOk result (PushesOne (IsItem list item.now) out.old.items out.new.items) }
{
    match list {
        ListValue::Keys => push_key(item, out),
        ListValue::Protocols => push_protocol(item, out),
        ListValue::Ipv4 => push_ipv4(item, out),
        ListValue::Ipv6 => push_ipv6(item, out),
    }
}

/// Appends the octets of an IPv4 address. Returns `false` if the text is none.
fn push_ipv4(item: &[u8], out: &mut Vec<u8>) -> Result<bool, AllocError>
    ensures { IfOk result (PushesOne (IsItem ListValue.Ipv4 item.now) out.old.items out.new.items) }
{
    let Ok(text) = str::from_utf8(item) else {
        return Ok(false);
    };
    let Ok(address) = parse_ipv4(text) else {
        return Ok(false);
    };
    out.extend_from_slice(&address.octets())?;
    Ok(true)
}

/// Appends the octets of an IPv6 address. Returns `false` if the text is none.
fn push_ipv6(item: &[u8], out: &mut Vec<u8>) -> Result<bool, AllocError>
    ensures { IfOk result (PushesOne (IsItem ListValue.Ipv6 item.now) out.old.items out.new.items) }
{
    let Ok(text) = str::from_utf8(item) else {
        return Ok(false);
    };
    let Ok(address) = parse_ipv6(text) else {
        return Ok(false);
    };
    out.extend_from_slice(&address.octets())?;
    Ok(true)
}

/// Appends a length octet and an identifier. Returns `false` if it has no octets, or more than 255.
fn push_protocol(item: &[u8], out: &mut Vec<u8>) -> Result<bool, AllocError>
    ensures { IfOk result (PushesOne (IsItem ListValue.Protocols item.now) out.old.items out.new.items) }
{
    if item.is_empty() || item.len() > 255 {
        return Ok(false);
    }
    out.push(item.len() as u8)?;
    out.extend_from_slice(item)?;
    Ok(true)
}

/// Appends the octets of a key other than `mandatory`. Returns `false` if the text is none.
fn push_key(item: &[u8], out: &mut Vec<u8>) -> Result<bool, AllocError>
    ensures { IfOk result (PushesOne (IsItem ListValue.Keys item.now) out.old.items out.new.items) }
{
    let Ok(text) = str::from_utf8(item) else {
        return Ok(false);
    };
    let Some(key) = key_of(text) else {
        return Ok(false);
    };
    if key == 0 {
        return Ok(false);
    }
    out.extend_from_slice(&key.to_be_bytes())?;
    Ok(true)
}

/// Returns the octets of the items of a text, if it is a list of them.
pub(crate) fn parse_list(
    alloc: Global,
    list: ListValue,
    text: &[u8],
) -> Result<Option<Vec<u8>>, AllocError>
    ensures { IfOk result (λ x. MatchOption x ((own : List ℕ) → ¬ (IsListText list text.now own)) (λ own. IsListText list text.now own.items)) }
{
    let mut own = Vec::new(alloc);
    let mut left = text;
    'items: loop {
        let mut item = Vec::new(alloc);
        let after = next_item(left, &mut item)?;
        if let After::Fault = after {
            return Ok(None);
        }
        if !push_item(list, item.as_slice(), &mut own)? {
            return Ok(None);
        }
        let After::Items(rest) = after else {
            return Ok(Some(own));
        };
        left = rest;
    }
}
