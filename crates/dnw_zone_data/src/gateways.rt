//! Gateways, relays and host identities (RFC 4025, RFC 8777, RFC 8005).
ghost use Rattle.std.specs.Prelude.{◌≡◌, ◌≤◌, ◌+◌, ◌*◌, ◌%◌, ◌++◌, ◌∷◌, ℕ, List, [], decimal, length, IfOk, MatchBool, MatchOption, string_bytes};
ghost use Rattle.std.specs.Net.Addr.{octets_of, ipv4_octets, ipv6_segments, segments_of};
ghost use Rattle.std.specs.Net.Grammar.{IsIpv4Text, IsIpv6Text};
ghost use Rattle.std.specs.Net.Text.{ipv4_text, ipv6_text};
ghost use Rattle.std.specs.Option.{option_copied};
ghost use Rattle.std.specs.declared.net.Ipv4Addr.{Ipv4Addr};
ghost use Rattle.std.specs.declared.net.Ipv6Addr.{Ipv6Addr};
ghost use Rattle.dnw_base.specs.Names.{AreLabels, wire};
ghost use Rattle.dnw_name_text.specs.NameTexts.{full_name_text};
ghost use Rattle.dnw_zone_values.specs.Inside.Steps.{PushesOne};
ghost use Rattle.dnw_zone_values.specs.Numbers.{max_u8, IsNumberText};
ghost use Rattle.dnw_zone_data.specs.Appending.{Appended, AppendsOne};
ghost use Rattle.dnw_zone_data.specs.Gateways.{identity_wire, relay_flag, three_words, AreShape, AreTagAndKey, IsGatewayEnd, IsGateway, IsIdentity, IsRelay, IsShape, PrintsEnd, PrintsGateway, PrintsIdentity, PrintsRelay, PrintsShaped};
ghost use Rattle.dnw_zone_data.specs.Parsing.{SpellsOctets};

use crate::location::{parse_location, write_location};
use crate::name::{append_name, write_name};
use crate::name_lists::first_name;
use crate::spelling::push_octets;
use dnw_base::limits::MAX_DATA;
use dnw_data::kind::{Shape, Shown};
use dnw_name::name::Name;
use dnw_zone_values::number::number_up_to;
use dnw_zone_values::octets::{Base64, Hexadecimal};
use std::alloc::{AllocError, Global};
use std::net::{Ipv4Addr, Ipv6Addr};

/// The flag of a relay, in the octet of its type (RFC 8777, section 4.2.3).
const RELAY_FLAG: u8 = 128;

/// The word for no gateway.
const NONE: &[u8] = b".";

/// Appends the octets of a field of a shape. Returns `false` if the words are none.
pub(crate) fn parse_shape(
    alloc: Global,
    shape: Shape,
    first: &[u8],
    second: &[u8],
    third: &[u8],
    origin: Option<&Name>,
    out: &mut Vec<u8>,
) -> Result<bool, AllocError>
    ensures { IfOk result (AppendsOne (IsShape (option_copied origin.entry) shape first.now second.now third.now) out.old.items out.new.items) }
{
    match shape {
        Shape::Gateway => parse_gateway(alloc, first, second, third, origin, out),
        Shape::Relay => parse_relay(alloc, first, second, third, origin, out),
        Shape::HostIdentity => parse_identity(alloc, first, second, third, out),
        Shape::Location | Shape::AddressSuffix => Ok(false),
    }
}

/// Appends the octets of the field of a shape that all words are. Returns `false` if they are none.
pub(crate) fn parse_whole(shape: Shape, left: &[u8], out: &mut Vec<u8>) -> Result<bool, AllocError>
    ensures { IfOk result (AppendsOne (AreShape shape left.now) out.old.items out.new.items) }
{
    match shape {
        Shape::Location => parse_location(left, out),
        _ => Ok(false),
    }
}

/// Appends the octets of a gateway. Returns `false` if the words are none.
fn parse_gateway(
    alloc: Global,
    first: &[u8],
    second: &[u8],
    third: &[u8],
    origin: Option<&Name>,
    out: &mut Vec<u8>,
) -> Result<bool, AllocError>
    ensures { IfOk result (AppendsOne (IsGateway (option_copied origin.entry) first.now second.now third.now) out.old.items out.new.items) }
{
    let Some(gateway_type) = octet_of(first) else {
        return Ok(false);
    };
    let Some(algorithm) = octet_of(second) else {
        return Ok(false);
    };
    out.extend_from_slice(&gateway_head(gateway_type, algorithm))?;
    push_end(alloc, gateway_type, third, origin, out)
}

/// Returns the octets before a gateway.
fn gateway_head(gateway_type: u8, algorithm: u8) -> [u8; 2]
    ensures { result ≡ gateway_type ∷ algorithm ∷ [] }
{
    [gateway_type, algorithm]
}

/// Appends the octets of a relay. Returns `false` if the words are none.
fn parse_relay(
    alloc: Global,
    first: &[u8],
    second: &[u8],
    third: &[u8],
    origin: Option<&Name>,
    out: &mut Vec<u8>,
) -> Result<bool, AllocError>
    ensures { IfOk result (AppendsOne (IsRelay (option_copied origin.entry) first.now second.now third.now) out.old.items out.new.items) }
{
    let Some(flag) = number_up_to(first, 1) else {
        return Ok(false);
    };
    let Some(relay_type) = octet_of(second) else {
        return Ok(false);
    };
    if 3 < relay_type {
        return Ok(false);
    }
    out.push(relay_head(flag as u8, relay_type))?;
    push_end(alloc, relay_type, third, origin, out)
}

/// Returns the octet before a relay.
fn relay_head(flag: u8, relay_type: u8) -> u8
    requires once { flag ≤ 1 }
    requires few { relay_type ≤ 127 }
    ensures { result ≡ relay_flag * flag + relay_type }
{
    RELAY_FLAG * flag + relay_type
}

/// Returns the number of one octet that a word is in decimal.
fn octet_of(word: &[u8]) -> Option<u8>
    ensures { MatchOption result ((n : ℕ) → ¬ (IsNumberText max_u8 word.now n)) (IsNumberText max_u8 word.now) }
{
    let number = number_up_to(word, 255)?;
    Some(number as u8)
}

/// Appends the octets of a gateway or a relay of a type. Returns `false` if the word is none.
fn push_end(
    alloc: Global,
    end_type: u8,
    word: &[u8],
    origin: Option<&Name>,
    out: &mut Vec<u8>,
) -> Result<bool, AllocError>
    ensures { IfOk result (PushesOne (IsGatewayEnd (option_copied origin.entry) end_type word.now) out.old.items out.new.items) }
{
    match end_type {
        0 => Ok(word == NONE),
        1 => push_ipv4(word, out),
        2 => push_ipv6(word, out),
        3 => append_name(alloc, word, origin, out),
        _ => Ok(false),
    }
}

/// Appends the octets of an IPv4 address. Returns `false` if the word is none.
fn push_ipv4(word: &[u8], out: &mut Vec<u8>) -> Result<bool, AllocError>
    ensures { IfOk result (PushesOne (λ own. (a : Ipv4Addr) × IsIpv4Text word.now a × (own ≡ ipv4_octets a)) out.old.items out.new.items) }
{
    let Ok(address) = Ipv4Addr::parse_ascii(word) else {
        return Ok(false);
    };
    out.extend_from_slice(&address.octets())?;
    Ok(true)
}

/// Appends the octets of an IPv6 address. Returns `false` if the word is none.
fn push_ipv6(word: &[u8], out: &mut Vec<u8>) -> Result<bool, AllocError>
    ensures { IfOk result (PushesOne (λ own. (a : Ipv6Addr) × IsIpv6Text word.now a × (own ≡ octets_of (ipv6_segments a))) out.old.items out.new.items) }
{
    let Ok(address) = Ipv6Addr::parse_ascii(word) else {
        return Ok(false);
    };
    out.extend_from_slice(&address.octets())?;
    Ok(true)
}

/// Appends the octets of a host identity. Returns `false` if the words are none.
fn parse_identity(
    alloc: Global,
    first: &[u8],
    second: &[u8],
    third: &[u8],
    out: &mut Vec<u8>,
) -> Result<bool, AllocError>
    ensures { IfOk result (AppendsOne (IsIdentity first.now second.now third.now) out.old.items out.new.items) }
{
    let Some(algorithm) = octet_of(first) else {
        return Ok(false);
    };
    let mut tag = Vec::new(alloc);
    if !push_octets(Shown::Hex, second, &mut tag)? {
        return Ok(false);
    }
    let mut key = Vec::new(alloc);
    if !push_octets(Shown::Base64, third, &mut key)? {
        return Ok(false);
    }
    if !are_tag_and_key(tag.as_slice(), key.as_slice()) {
        return Ok(false);
    }
    append_identity(algorithm, tag.as_slice(), key.as_slice(), out)?;
    Ok(true)
}

/// Returns `true` if a tag and a key have an octet at least, and no more than their lengths can count.
fn are_tag_and_key(tag: &[u8], key: &[u8]) -> bool
    ensures { MatchBool result (AreTagAndKey tag.now key.now) (¬ (AreTagAndKey tag.now key.now)) }
{
    1 <= tag.len() && tag.len() <= 255 && 1 <= key.len() && key.len() <= MAX_DATA
}

/// Appends the octets of a host identity.
fn append_identity(
    algorithm: u8,
    tag: &[u8],
    key: &[u8],
    out: &mut Vec<u8>,
) -> Result<(), AllocError>
    requires { AreTagAndKey tag.now key.now }
    ensures { IfOk result (λ _. out.new.items ≡ out.old.items ++ identity_wire algorithm tag.now key.now) }
{
    out.push(tag.len() as u8)?;
    out.push(algorithm)?;
    out.extend_from_slice(&(key.len() as u16).to_be_bytes())?;
    out.extend_from_slice(tag)?;
    out.extend_from_slice(key)
}

/// Appends the text of octets of a shape. Returns `false` if they have none.
pub(crate) fn write_shaped(
    alloc: Global,
    shape: Shape,
    octets: &[u8],
    out: &mut String,
) -> Result<bool, AllocError>
    ensures { IfOk result (Appended (PrintsShaped shape octets.now) (string_bytes out.old) (string_bytes out.new)) }
{
    match shape {
        Shape::Gateway => write_gateway(alloc, octets, out),
        Shape::Relay => write_relay(alloc, octets, out),
        Shape::HostIdentity => write_identity(octets, out),
        Shape::Location => write_location(octets, out),
        Shape::AddressSuffix => Ok(false),
    }
}

/// Appends the text of a gateway. Returns `false` if it has none.
fn write_gateway(alloc: Global, octets: &[u8], out: &mut String) -> Result<bool, AllocError>
    ensures { IfOk result (Appended (PrintsGateway octets.now) (string_bytes out.old) (string_bytes out.new)) }
{
    let [gateway_type, algorithm, gateway @ ..] = octets else {
        return Ok(false);
    };
    let Some(shown) = end_text(alloc, *gateway_type, gateway)? else {
        return Ok(false);
    };
    push_gateway(*gateway_type, *algorithm, shown.as_str(), out)?;
    Ok(true)
}

/// Appends the text of a gateway.
fn push_gateway(
    gateway_type: u8,
    algorithm: u8,
    shown: &str,
    out: &mut String,
) -> Result<(), AllocError>
    ensures { IfOk result (λ _. string_bytes out.new ≡ string_bytes out.old ++ three_words (decimal gateway_type) (decimal algorithm) shown.now) }
{
    write!(out, " {gateway_type} {algorithm} {shown}")?;
    Ok(())
}

/// Appends the text of a relay. Returns `false` if it has none.
fn write_relay(alloc: Global, octets: &[u8], out: &mut String) -> Result<bool, AllocError>
    ensures { IfOk result (Appended (PrintsRelay octets.now) (string_bytes out.old) (string_bytes out.new)) }
{
    let [head, relay @ ..] = octets else {
        return Ok(false);
    };
    let flag = *head / RELAY_FLAG;
    let relay_type = relay_type_of(*head);
    let Some(shown) = end_text(alloc, relay_type, relay)? else {
        return Ok(false);
    };
    write!(out, " {flag} {relay_type} {shown}")?;
    Ok(true)
}

/// Returns the type of a relay by the octet before it.
fn relay_type_of(head: u8) -> u8
    ensures { result ≡ head % relay_flag }
{
    head % RELAY_FLAG
}

/// Appends the text of a host identity. Returns `false` if it has no tag or no key.
fn write_identity(octets: &[u8], out: &mut String) -> Result<bool, AllocError>
    ensures { IfOk result (Appended (PrintsIdentity octets.now) (string_bytes out.old) (string_bytes out.new)) }
{
    let [tag_len, algorithm, high, low, rest @ ..] = octets else {
        return Ok(false);
    };
    let Some((tag, key)) = rest.split_at_checked(usize::from(*tag_len)) else {
        return Ok(false);
    };
    let key_len = usize::from(u16::from_be_bytes([*high, *low]));
    if tag.is_empty() || key.is_empty() || key.len() != key_len {
        return Ok(false);
    }
    write!(out, " {algorithm} {} {}", Hexadecimal(tag), Base64(key))?;
    Ok(true)
}

/// Returns the text of a gateway or a relay of a type, if it has one.
fn end_text(alloc: Global, end_type: u8, own: &[u8]) -> Result<Option<String>, AllocError>
    ensures { IfOk result (λ text. MatchOption text ((shown : List ℕ) → ¬ (PrintsEnd end_type own.now shown)) (λ s. PrintsEnd end_type own.now (string_bytes s))) }
{
    match end_type {
        0 if own.is_empty() => Ok(Some(String::from_str(alloc, ".")?)),
        1 if own.len() == 4 => {
            let address = Ipv4Addr::from(*own.first_chunk::<4>().unwrap());
            Ok(Some(format!(in alloc; "{address}")?))
        }
        2 if own.len() == 16 => {
            let address = ipv6_of(own);
            Ok(Some(format!(in alloc; "{address}")?))
        }
        3 => name_text(alloc, own),
        _ => Ok(None),
    }
}

/// Returns the address that octets are.
fn ipv6_of(own: &[u8]) -> Ipv6Addr
    requires { length own.now ≡ 16 }
    ensures { ipv6_segments result ≡ segments_of own.now }
{
    Ipv6Addr::from(*own.first_chunk::<16>().unwrap())
}

/// Returns the text of a name that is not compressed, if octets are one.
fn name_text(alloc: Global, own: &[u8]) -> Result<Option<String>, AllocError>
    ensures { IfOk result (λ text. MatchOption text ((labels : List (List ℕ)) → AreLabels labels → ¬ (own.now ≡ wire labels))
        (λ s. (labels : List (List ℕ)) × AreLabels labels × (own.now ≡ wire labels) × (string_bytes s ≡ full_name_text labels))) }
{
    let Some((name, rest)) = first_name(own) else {
        return Ok(None);
    };
    if !rest.is_empty() {
        return Ok(None);
    }
    let mut text = String::new(alloc);
    write_name(&name, &mut text)?;
    Ok(Some(text))
}
