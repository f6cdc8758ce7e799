//! Address prefixes (RFC 3123, sections 4 and 5).
ghost use Rattle.std.specs.Prelude.{◌≡◌, ◌≤◌, ◌==◌, ◌++◌, true, drop, IfOk, OnErr, length, string_bytes};
ghost use Rattle.std.specs.List.{position_or_len};
ghost use Rattle.std.specs.Net.Addr.{ipv4_octets, ipv6_segments, octets_of, segments_of};
ghost use Rattle.dnw_zone_values.specs.Spelling.{Appends};
ghost use Rattle.dnw_zone_values.specs.Prefixes.{after, after_negation, before, is_negation, is_shown, address_size, prefix_address_text, prefix_family, negation_text, negates, with_zeros, prefix_text, prefix_wire, without_zeros, ends_in_no_zero, shown_prefix_text, IsFamilyText, IsPrefixOf, IsPrefixText};
ghost use Rattle.dnw_zone_values.specs.Inside.Steps.{PushesOne, WritesValue};
ghost use Rattle.dnw_zone_values.specs.Inside.Takes.{KeepsFront};
ghost use Rattle.dnw_zone_values.specs.declared.error.FieldTextError.TheVariants.{Prefix as PrefixWanted};

use crate::address::{parse_ipv4, parse_ipv6};
use crate::error::FieldTextError;
use crate::number::number_up_to;
use std::alloc::AllocError;
use std::net::{Ipv4Addr, Ipv6Addr};
use std::str;

/// The family of IPv4 addresses (RFC 3123, section 4.1).
const IPV4: u8 = 1;

/// The family of IPv6 addresses (RFC 3123, section 4.2).
const IPV6: u8 = 2;

/// The bit that negates a prefix, beside the number of octets of its address.
const NEGATION: u8 = 128;

/// The number of octets before those of the address.
const HEAD: usize = 4;

/// Appends the octets of an address prefix: `!` if it negates, the number of the family (1 for IPv4, 2 for IPv6), `:`, an address, `/`
/// and the length of the prefix in bits. Bits of the address after the prefix are kept, and zeros at the end of its octets left out.
///
/// Fails with `Prefix` if the text is something else, and with `Memory`; `octets` is then unchanged.
///
/// ```
/// parse_prefix(b"!1:192.168.38.0/28", &mut octets)?; // 0, 1, 28, 0x83, 192, 168, 38
/// ```
pub fn parse_prefix(text: &[u8], octets: &mut Vec<u8>) -> Result<(), FieldTextError>
    ensures { Appends PrefixWanted IsPrefixText text.now octets.old.items octets.new.items result }
{
    let start = octets.len();
    match push_prefix(text, octets) {
        Ok(true) => Ok(()),
        Ok(false) => {
            octets.truncate(start);
            Err(FieldTextError::Prefix)
        }
        Err(_) => {
            octets.truncate(start);
            Err(FieldTextError::Memory)
        }
    }
}

/// Appends the octets of a prefix. Returns `false` if the text is none; some may be appended if it fails.
fn push_prefix(text: &[u8], octets: &mut Vec<u8>) -> Result<bool, AllocError>
    ensures ok { IfOk result (PushesOne (IsPrefixText text.now) octets.old.items octets.new.items) }
    ensures front { KeepsFront octets.old.items octets.new.items }
    ensures err { OnErr result (1 ≤ length text.now) }
{
    if text.is_empty() {
        return Ok(false);
    }
    let (negates, rest) = split_negation(text);
    push_family(negates, rest, octets)
}

/// Appends the octets of a prefix after `!`, or without it. Returns `false` if the text is none.
fn push_family(negates: bool, text: &[u8], octets: &mut Vec<u8>) -> Result<bool, AllocError>
    ensures ok { IfOk result (PushesOne (IsFamilyText negates text.now) octets.old.items octets.new.items) }
    ensures front { KeepsFront octets.old.items octets.new.items }
{
    let (number, rest) = split_first(text, b':');
    let (address, size) = split_first(rest, b'/');
    let Some(family) = number_up_to(number, 65535) else {
        return Ok(false);
    };
    push_of(family, negates, address, size, octets)
}

/// Appends the octets of a prefix of a family. Returns `false` if it is none.
fn push_of(
    family: u64,
    negates: bool,
    address: &[u8],
    size: &[u8],
    octets: &mut Vec<u8>,
) -> Result<bool, AllocError>
    ensures ok { IfOk result (PushesOne (IsPrefixOf family negates address.now size.now) octets.old.items octets.new.items) }
    ensures front { KeepsFront octets.old.items octets.new.items }
{
    if family == 1 {
        return push_ipv4(negates, address, size, octets);
    }
    if family == 2 {
        return push_ipv6(negates, address, size, octets);
    }
    Ok(false)
}

/// Returns `true` if a text begins with `!`, and what is after that.
fn split_negation(text: &[u8]) -> (bool, &[u8])
    ensures is { result.0 ≡ is_negation text.now }
    ensures rest { result.1.now ≡ after_negation text.now }
{
    match text.split_first() {
        Some((b'!', rest)) => (true, rest),
        _ => (false, text),
    }
}

/// Returns what is before and after the first of a character. Without one, nothing is after it.
pub(crate) fn split_first(text: &[u8], c: u8) -> (&[u8], &[u8])
    ensures front { result.0.now ≡ before c text.now }
    ensures back { result.1.now ≡ after c text.now }
{
    let (front, rest) = text.split_at(front_len(text, c));
    match rest.split_first() {
        Some((_, back)) => (front, back),
        None => (front, rest),
    }
}

/// Returns the number of octets before the first of a character, or of all if there is none.
fn front_len(text: &[u8], c: u8) -> usize
    ensures is { result ≡ position_or_len (λ x. x == c) text.now }
    ensures within { result ≤ length text.now }
{
    let mut left = text;
    while let Some((first, rest)) = left.split_first() {
        if *first == c {
            return text.len() - left.len();
        }
        left = rest;
    }
    text.len()
}

/// Appends the octets of a prefix of IPv4. Returns `false` if it is none.
fn push_ipv4(
    negates: bool,
    address: &[u8],
    size: &[u8],
    octets: &mut Vec<u8>,
) -> Result<bool, AllocError>
    ensures ok { IfOk result (PushesOne (IsPrefixOf 1 negates address.now size.now) octets.old.items octets.new.items) }
    ensures front { KeepsFront octets.old.items octets.new.items }
{
    let Some(bits) = number_up_to(size, 32) else {
        return Ok(false);
    };
    let Ok(text) = str::from_utf8(address) else {
        return Ok(false);
    };
    let Ok(address) = parse_ipv4(text) else {
        return Ok(false);
    };
    push_wire(IPV4, negates, bits as u8, &address.octets(), octets)?;
    Ok(true)
}

/// Appends the octets of a prefix of IPv6. Returns `false` if it is none.
fn push_ipv6(
    negates: bool,
    address: &[u8],
    size: &[u8],
    octets: &mut Vec<u8>,
) -> Result<bool, AllocError>
    ensures ok { IfOk result (PushesOne (IsPrefixOf 2 negates address.now size.now) octets.old.items octets.new.items) }
    ensures front { KeepsFront octets.old.items octets.new.items }
{
    let Some(bits) = number_up_to(size, 128) else {
        return Ok(false);
    };
    let Ok(text) = str::from_utf8(address) else {
        return Ok(false);
    };
    let Ok(address) = parse_ipv6(text) else {
        return Ok(false);
    };
    push_wire(IPV6, negates, bits as u8, &address.octets(), octets)?;
    Ok(true)
}

/// Appends the octets of a prefix with an address of these octets.
fn push_wire(
    family: u8,
    negates: bool,
    bits: u8,
    address: &[u8],
    octets: &mut Vec<u8>,
) -> Result<(), AllocError>
    requires few { length address.now ≤ 16 }
    ensures ok { IfOk result (λ _. octets.new.items ≡ octets.old.items ++ prefix_wire family negates bits (without_zeros address.now)) }
    ensures front { KeepsFront octets.old.items octets.new.items }
{
    let own = without_zeros(address);
    let count = if negates {
        NEGATION + own.len() as u8
    } else {
        own.len() as u8
    };
    octets.extend_from_slice(&[0, family, bits, count])?;
    octets.extend_from_slice(own)
}

/// Returns octets without the zeros at their end.
fn without_zeros(octets: &[u8]) -> &[u8]
    ensures is { result.now ≡ without_zeros octets.now }
    ensures within { length result.now ≤ length octets.now }
{
    let mut left = octets;
    while let Some((last, rest)) = left.split_last() {
        if *last != 0 {
            return left;
        }
        left = rest;
    }
    left
}

/// Appends the text of an address prefix, of which these are the octets. Returns `false` if they are none of IPv4 or IPv6; nothing is
/// changed then.
///
/// IPv6 addresses are printed as RFC 5952 has it.
pub fn write_prefix(octets: &[u8], out: &mut String) -> Result<bool, AllocError>
    ensures { IfOk result (WritesValue (prefix_text octets.now) (string_bytes out.old) (string_bytes out.new)) }
{
    if !is_shown(octets) {
        return Ok(false);
    }
    push_shown(octets, out)?;
    Ok(true)
}

/// Appends the text of a prefix.
fn push_shown(octets: &[u8], out: &mut String) -> Result<(), AllocError>
    requires { is_shown octets.now ≡ true }
    ensures { IfOk result (λ _. string_bytes out.new ≡ string_bytes out.old ++ shown_prefix_text octets.now) }
{
    push_negation(negates(octets), out)?;
    push_address(prefix_family(octets), address_of(octets), out)?;
    write!(out, "/{}", octets[2])?;
    Ok(())
}

/// Returns the octets of the address of a prefix.
fn address_of(octets: &[u8]) -> &[u8]
    requires { 4 ≤ length octets.now }
    ensures { result.now ≡ drop 4 octets.now }
{
    &octets[HEAD..]
}

/// Returns the number of the family of a prefix.
fn prefix_family(octets: &[u8]) -> u16
    requires { 4 ≤ length octets.now }
    ensures { result ≡ prefix_family octets.now }
{
    u16::from_be_bytes([octets[0], octets[1]])
}

/// Appends `!` for a prefix that negates.
fn push_negation(negates: bool, out: &mut String) -> Result<(), AllocError>
    ensures { IfOk result (λ _. string_bytes out.new ≡ string_bytes out.old ++ negation_text negates) }
{
    if negates {
        out.push('!')?;
    }
    Ok(())
}

/// Appends the number of a family, and an address of these octets and zeros after them.
fn push_address(family: u16, own: &[u8], out: &mut String) -> Result<(), AllocError>
    requires { length own.now ≤ address_size family }
    ensures { IfOk result (λ _. string_bytes out.new ≡ string_bytes out.old ++ prefix_address_text family own.now) }
{
    if family == 1 {
        write!(out, "1:{}", ipv4_of(own))?;
    } else {
        write!(out, "2:{}", ipv6_of(own))?;
    }
    Ok(())
}

/// Returns `true` if octets are a prefix of IPv4 or IPv6.
fn is_shown(octets: &[u8]) -> bool
    ensures { result ≡ is_shown octets.now }
{
    let [high, family, bits, count, own @ ..] = octets else {
        return false;
    };
    let (most, size) = match *family {
        IPV4 => (32, 4),
        _ => (128, 16),
    };
    *high == 0
        && (*family == IPV4 || *family == IPV6)
        && *bits <= most
        && usize::from(*count % NEGATION) == own.len()
        && own.len() <= size
        && ends_in_no_zero(own)
}

/// Returns `true` if a prefix negates.
fn negates(octets: &[u8]) -> bool
    requires { 4 ≤ length octets.now }
    ensures { result ≡ negates octets.now }
{
    octets[3] >= NEGATION
}

/// Returns `true` if the last octet is not zero, or there is none.
fn ends_in_no_zero(own: &[u8]) -> bool
    ensures { result ≡ ends_in_no_zero own.now }
{
    match own.last() {
        Some(last) => *last != 0,
        None => true,
    }
}

/// Returns the IPv4 address of octets and zeros after them.
fn ipv4_of(own: &[u8]) -> Ipv4Addr
    requires { length own.now ≤ 4 }
    ensures { ipv4_octets result ≡ with_zeros 4 own.now }
{
    let mut octets = [0u8; 4];
    octets[..own.len()].copy_from_slice(own);
    Ipv4Addr::from(octets)
}

/// Returns the IPv6 address of octets and zeros after them.
fn ipv6_of(own: &[u8]) -> Ipv6Addr
    requires { length own.now ≤ 16 }
    ensures { ipv6_segments result ≡ segments_of (with_zeros 16 own.now) }
{
    Ipv6Addr::from(with_zeros(own))
}

/// Returns octets and zeros after them.
fn with_zeros(own: &[u8]) -> [u8; 16]
    requires { length own.now ≤ 16 }
    ensures { result ≡ with_zeros 16 own.now }
{
    let mut octets = [0u8; 16];
    octets[..own.len()].copy_from_slice(own);
    octets
}
