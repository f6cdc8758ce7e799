//! The nets that reverse names stand for.
ghost use Rattle.std.specs.Prelude.{◌≡◌, ◌≤◌, ◌<◌, ◌+◌, ◌*◌, ◌^◌, ℕ, true, false, [], ◌∷◌, ◌++◌, Ok, IfOk, IfErr, MatchOption, length, reverse};
ghost use Rattle.std.specs.List.{AllByRecursion};
ghost use Rattle.std.specs.Net.Addr.{ipv4_octets, ipv6_segments};
ghost use Rattle.std.specs.Str.{is_utf8};
ghost use Rattle.dnw_name_form.specs.LabelOrder.{label_eq};
ghost use Rattle.dnw_name_arpa.specs.Arpa.{TooManyLabels, prefix_from_end, prefix_below, prefix_of, octet_of, nibble_of, value_of, most_values, value_bits, nibbles, padded, IsNibble, IsArpaPrefix, FollowsArpa, FailsArpa, ReportsArpa};
ghost use Rattle.dnw_name_arpa.specs.ArpaNets.{ReadsNet};

use crate::net::{IpNet, Ipv4Net, Ipv6Net};
use arrayvec::ArrayVec;
use dnw_base::error::{ProtoError, ProtoResult};
use dnw_name_form::label_iter::LabelIter;
use std::net::{Ipv4Addr, Ipv6Addr};

/// The most octets or nibbles of an address.
const MAX_VALUES: usize = 32;

/// The family of an address.
#[derive(Clone, Copy)]
pub enum Family {
    /// IPv4: reverse names have its octets.
    Ipv4,
    /// IPv6: reverse names have its nibbles of four bits.
    Ipv6,
}

/// Reads the net that the labels of a fully qualified name stand for (RFC 1035, section 3.5; RFC 3596, section 2.5). It does
/// not allocate.
pub fn read_net(mut labels: LabelIter<'_>) -> ProtoResult<IpNet>
    ensures { ReadsNet (prefix_from_end (reverse labels.entry)) result }
{
    let Some(last) = next_label(&mut labels) else {
        return Err(ProtoError::Message("not an arpa address"));
    };
    let Some(text) = text_of(last) else {
        return Err(ProtoError::Utf8);
    };
    if !is_label(text, b"arpa") {
        return Err(ProtoError::Message("not an arpa address"));
    }
    read_below_arpa(labels)
}

/// Reads the net that the labels before `arpa` stand for.
fn read_below_arpa(mut labels: LabelIter<'_>) -> ProtoResult<IpNet>
    ensures { ReadsNet (prefix_below (reverse labels.entry)) result }
{
    let Some(second) = next_label(&mut labels) else {
        return Err(ProtoError::Message("invalid arpa address"));
    };
    let Some(text) = text_of(second) else {
        return Err(ProtoError::Utf8);
    };
    if is_label(text, b"in-addr") {
        read_family(Family::Ipv4, labels)
    } else if is_label(text, b"ip6") {
        read_family(Family::Ipv6, labels)
    } else {
        Err(ProtoError::Message("unrecognized arpa address"))
    }
}

/// Reads the net that the labels before those of a family stand for.
fn read_family(family: Family, labels: LabelIter<'_>) -> ProtoResult<IpNet>
    ensures { ReadsNet (prefix_of family (reverse labels.entry)) result }
{
    let values = read_values(family, labels)?;
    match family {
        Family::Ipv4 => Ok(IpNet::V4(ipv4_net(values.as_slice()))),
        Family::Ipv6 => Ok(IpNet::V6(ipv6_net(values.as_slice()))),
    }
}

/// Reads labels as octets or nibbles, the last one first.
fn read_values(family: Family, mut labels: LabelIter<'_>) -> ProtoResult<ArrayVec<u8, MAX_VALUES>>
    ensures ok { IfOk result (λ values. prefix_of family (reverse labels.entry) ≡ Ok (record { family = family; values = values.items })) }
    ensures prefix { IfOk result (λ values. IsArpaPrefix (record { family = family; values = values.items })) }
    ensures err { IfErr result (FailsArpa (prefix_of family (reverse labels.entry))) }
{
    let mut values = ArrayVec::new();
    'labels: while let Some(label) = next_label(&mut labels) {
        if values.len() == most_values(family) {
            return Err(too_many_labels(family));
        }
        values.push(read_value(family, label)?);
    }
    Ok(values)
}

/// Returns how many octets or nibbles an address has.
fn most_values(family: Family) -> usize
    ensures { result ≡ most_values family }
{
    match family {
        Family::Ipv4 => 4,
        Family::Ipv6 => MAX_VALUES,
    }
}

/// Returns the error of more labels than that.
fn too_many_labels(family: Family) -> ProtoError
    ensures { ReportsArpa (TooManyLabels family) result }
{
    match family {
        Family::Ipv4 => ProtoError::Message("unrecognized in-addr.arpa."),
        Family::Ipv6 => ProtoError::Message("unrecognized ip6.arpa."),
    }
}

/// Reads a label as an octet or a nibble.
fn read_value(family: Family, label: &[u8]) -> ProtoResult<u8>
    ensures follows { FollowsArpa (value_of family label.now) result }
    ensures fits { IfOk result (λ value. value < 2 ^ value_bits family) }
{
    match family {
        Family::Ipv4 => read_octet(label),
        Family::Ipv6 => read_nibble(label),
    }
}

/// Reads an octet: a decimal number, which a plus may precede.
fn read_octet(label: &[u8]) -> ProtoResult<u8>
    ensures follows { FollowsArpa (octet_of label.now) result }
{
    let Some(text) = text_of(label) else {
        return Err(ProtoError::Utf8);
    };
    match text.parse::<u8>() {
        Ok(octet) => Ok(octet),
        Err(_) => Err(ProtoError::ParseInt),
    }
}

/// Reads a nibble: one hexadecimal digit in either case.
fn read_nibble(label: &[u8]) -> ProtoResult<u8>
    ensures follows { FollowsArpa (nibble_of label.now) result }
    ensures fits { IfOk result IsNibble }
{
    if label.len() != 1 {
        return Err(ProtoError::Message("invalid label length for ip6.arpa"));
    }
    let Some(_) = text_of(label) else {
        return Err(ProtoError::Utf8);
    };
    match char::from(label[0]).to_digit(16) {
        Some(value) => Ok(value as u8),
        None => Err(ProtoError::ParseInt),
    }
}

/// Returns the last label, and leaves those before it.
fn next_label<'a>(labels: &mut LabelIter<'a>) -> Option<&'a [u8]>
    ensures { MatchOption result (reverse labels.old ≡ []) (λ label. reverse labels.old ≡ label.now ∷ reverse labels.new) }
{
    labels.next_back()
}

/// Returns a label as text, or `None` if it is not UTF-8.
fn text_of(label: &[u8]) -> Option<&str>
    ensures { MatchOption result (is_utf8 label.now ≡ false) (λ text. (text.now ≡ label.now) × (is_utf8 label.now ≡ true)) }
{
    match str::from_utf8(label) {
        Ok(text) => Some(text),
        Err(_) => None,
    }
}

/// Returns `true` if a text is this label, ignoring ASCII case (RFC 4343).
fn is_label(text: &str, label: &[u8]) -> bool
    ensures { result ≡ label_eq text.now label.now }
{
    text.as_bytes().eq_ignore_ascii_case(label)
}

/// Returns the net of the first octets of an IPv4 address.
fn ipv4_net(octets: &[u8]) -> Ipv4Net
    requires { length octets.now ≤ 4 }
    ensures addr { ipv4_octets result.addr ≡ padded 4 octets.now }
    ensures bits { result.prefix_len ≡ 8 * length octets.now }
{
    let (a, rest) = split_value(octets);
    let (b, rest) = split_value(rest);
    let (c, rest) = split_value(rest);
    let (d, _) = split_value(rest);
    Ipv4Net::new(Ipv4Addr::new(a, b, c, d), 8 * octets.len() as u8).unwrap()
}

/// Returns the net of the first nibbles of an IPv6 address.
fn ipv6_net(values: &[u8]) -> Ipv6Net
    requires few { length values.now ≤ 32 }
    requires fit { AllByRecursion IsNibble values.now }
    ensures addr { nibbles (ipv6_segments result.addr) ≡ padded 32 values.now }
    ensures bits { result.prefix_len ≡ 4 * length values.now }
{
    let (a, rest) = split_segment(values);
    let (b, rest) = split_segment(rest);
    let (c, rest) = split_segment(rest);
    let (d, rest) = split_segment(rest);
    let (e, rest) = split_segment(rest);
    let (f, rest) = split_segment(rest);
    let (g, rest) = split_segment(rest);
    let (h, _) = split_segment(rest);
    let addr = Ipv6Addr::new(a, b, c, d, e, f, g, h);
    Ipv6Net::new(addr, 4 * values.len() as u8).unwrap()
}

/// Returns the segment of the first four nibbles, and those after them. Nibbles that are not there are zero.
fn split_segment(values: &[u8]) -> (u16, &[u8])
    requires { AllByRecursion IsNibble values.now }
    ensures halves { (n : ℕ) → padded (4 + n) values.now ≡ nibbles (result.0 ∷ []) ++ padded n result.1.now }
    ensures fit { AllByRecursion IsNibble result.1.now }
{
    let (a, rest) = split_value(values);
    let (b, rest) = split_value(rest);
    let (c, rest) = split_value(rest);
    let (d, rest) = split_value(rest);
    let high = u16::from(a) * 16 + u16::from(b);
    let low = u16::from(c) * 16 + u16::from(d);
    (high * 256 + low, rest)
}

/// Returns the first number and those after it, or zero if there is none.
fn split_value(values: &[u8]) -> (u8, &[u8])
    ensures first { (n : ℕ) → padded (1 + n) values.now ≡ result.0 ∷ padded n result.1.now }
    ensures fit { AllByRecursion IsNibble values.now → IsNibble result.0 × AllByRecursion IsNibble result.1.now }
{
    match values.split_first() {
        Some((first, rest)) => (*first, rest),
        None => (0, values),
    }
}
