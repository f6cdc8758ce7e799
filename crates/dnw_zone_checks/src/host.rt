//! Names that hosts have.
ghost use Rattle.std.specs.Prelude.{◌≡◌};
ghost use Rattle.std.specs.Char.{is_ascii_digit};
ghost use Rattle.std.specs.List.{list_all};
ghost use Rattle.dnw_zone_checks.specs.HostNames.{are_host_labels, ends_as_host, after_address, after_number, has_host_octets, is_host_label, is_host_name, is_host_octet, is_star, is_wildcard};

use dnw_name_form::wire_labels::WireLabels;

/// Returns `true` if a name is one that hosts have, or a wildcard of such names.
pub(crate) fn is_host_name(name: &WireLabels<'_>) -> bool
    ensures { result ≡ is_host_name name.now }
{
    let mut rest = name.clone();
    match rest.next() {
        Some(first) => (is_star(first) || is_host_label(first)) && are_host_labels(rest),
        None => true,
    }
}

/// Returns `true` if each label is one of hosts' names.
fn are_host_labels(labels: WireLabels<'_>) -> bool
    ensures { result ≡ are_host_labels labels.entry }
{
    let mut rest = labels;
    'labels: while let Some(label) = rest.next() {
        if !is_host_label(label) {
            return false;
        }
    }
    true
}

/// Returns `true` for the label `*`.
fn is_star(label: &[u8]) -> bool
    ensures { result ≡ is_star label.now }
{
    matches!(label, [b'*'])
}

/// Returns `true` if a label is one of hosts' names.
fn is_host_label(label: &[u8]) -> bool
    ensures { result ≡ is_host_label label.now }
{
    match label.first() {
        Some(first) => *first != b'-' && has_host_octets(label),
        None => false,
    }
}

/// Returns `true` if octets are letters, digits and hyphens, and the last is no hyphen.
fn has_host_octets(octets: &[u8]) -> bool
    ensures { result ≡ has_host_octets octets.now }
{
    let mut left = octets;
    let mut last = b'-';
    'octets: while let Some((octet, others)) = left.split_first() {
        if !is_host_octet(*octet) {
            return false;
        }
        last = *octet;
        left = others;
    }
    last != b'-'
}

/// Returns `true` for letters, digits and the hyphen.
fn is_host_octet(octet: u8) -> bool
    ensures { result ≡ is_host_octet octet }
{
    octet.is_ascii_alphanumeric() || octet == b'-'
}

/// Returns `true` if a name begins with the label `*`.
pub(crate) fn is_wildcard(name: &WireLabels<'_>) -> bool
    ensures { result ≡ is_wildcard name.now }
{
    match name.clone().next() {
        Some(first) => is_star(first),
        None => false,
    }
}

/// Returns the labels after the text of an IPv4 address that a name begins with, if it does.
pub(crate) fn after_address<'a>(name: &WireLabels<'a>) -> Option<WireLabels<'a>>
    ensures { result ≡ after_address name.now }
{
    let first = after_number(name.clone())?;
    let second = after_number(first)?;
    let third = after_number(second)?;
    after_number(third)
}

/// Returns the labels after the first one, if that has digits alone.
fn after_number(name: WireLabels<'_>) -> Option<WireLabels<'_>>
    ensures { result ≡ after_number name.entry }
{
    let mut rest = name;
    let label = rest.next()?;
    if is_number(label) { Some(rest) } else { None }
}

/// Returns `true` if octets are digits.
fn is_number(octets: &[u8]) -> bool
    ensures { result ≡ list_all is_ascii_digit octets.now }
{
    octets.iter().all(|octet| octet.is_ascii_digit())
}
