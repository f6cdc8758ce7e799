//! Names and labels: from texts, octets and addresses and back, compared, and label by label. Names in lower case, keys, nets and zones.
ghost use Rattle.std.specs.Prelude.{◌≡◌, Ok, Contains, IsTrue, ◌↔◌, IfOk};
ghost use Rattle.dns_names_wire.specs.Words.{Follows, IsZoneOf, lowered};

use dns_names_wire::label::{CaseInsensitive, CaseSensitive};
use dns_names_wire::name::LabelIter;
use dns_names_wire::usage::{ResolverUsage, ZoneUsage};
use dns_names_wire::{
    IntoLabel, IntoName, IpNet, Label, LowerName, Name, ProtoResult, RecordType, RrKey,
};
use std::alloc::{AllocError, Global};
use std::cmp::Ordering;
use std::collections::HashSet;
use std::net::{IpAddr, Ipv4Addr, Ipv6Addr};

/// Returns the name that a value gives: a text, a name, or an address, which gives its reverse name.
pub fn name_of<N: IntoName>(alloc: Global, value: N) -> ProtoResult<Name>
    ensures { Follows (N.name_of value) (N.may_run_out value) result }
{
    value.into_name(alloc)
}

/// Returns the address that a text writes, or else the name that it gives, as the argument of a tool stands for either.
pub fn address_or_name(alloc: Global, text: String) -> ProtoResult<Result<IpAddr, Name>> {
    match text.to_ip() {
        Some(ip) => Ok(Ok(ip)),
        None => Ok(Err(name_of(alloc, text)?)),
    }
}

/// Returns the names that records of a host's addresses stand under: its own, and the reverse names of the addresses.
pub fn names_of_host(
    alloc: Global,
    host: &str,
    v4: Ipv4Addr,
    v6: Ipv6Addr,
) -> ProtoResult<Vec<Name>> {
    let mut names = Vec::new(alloc);
    names.push(name_of(alloc, host)?)?;
    names.push(name_of(alloc, v4)?)?;
    names.push(name_of(alloc, v6)?)?;
    names.push(name_of(alloc, IpAddr::from(v4))?)?;
    Ok(names)
}

/// Returns the name of a text three times: as it is given, by the text itself, and by its name in lower case.
pub fn three_ways(alloc: Global, text: String) -> ProtoResult<(Name, Name, Name)> {
    let name = name_of(alloc, &text)?;
    let lower = LowerName::from_str(alloc, text.as_str())?;
    Ok((
        name_of(alloc, name)?,
        name_of(alloc, &lower)?,
        name_of(alloc, lower)?,
    ))
}

/// Returns the label that a value gives: a label, a text or octets.
pub fn label_of<L: IntoLabel>(alloc: Global, value: L) -> ProtoResult<Label>
    ensures { Follows (L.label_of value) (L.may_run_out value) result }
{
    value.into_label(alloc)
}

/// Returns the relative name of four labels: two texts and two strings of octets.
pub fn joined(
    alloc: Global,
    first: &str,
    second: String,
    third: &[u8],
    fourth: Vec<u8>,
) -> ProtoResult<Name> {
    Name::new(alloc)
        .append_label(alloc, first)?
        .append_label(alloc, second)?
        .append_label(alloc, third)?
        .append_label(alloc, fourth)
}

/// Returns the name with a label before it and after it.
pub fn between(alloc: Global, name: &Name, label: Label) -> ProtoResult<Name> {
    name.prepend_label(alloc, &label)?
        .append_label(alloc, label)
}

/// Returns `true` if one of the labels is these octets, with capitals as they are.
pub fn has_label(name: &Name, octets: &[u8]) -> bool
    ensures { IsTrue result ↔ Contains name.now.labels octets.now }
{
    for label in name.iter() {
        if label == octets {
            return true;
        }
    }
    false
}

/// Returns the first label of a name and the last one, if it has two or more.
pub fn ends(name: &Name) -> Option<(&[u8], &[u8])> {
    let mut labels: LabelIter<'_> = name.iter();
    Some((labels.next()?, labels.next_back()?))
}

/// Returns how two labels compare ignoring ASCII case, and how they do with it. They are equal only in the first way.
pub fn label_orders(label: &Label, other: &Label) -> (Ordering, Ordering) {
    if label == other {
        return (Ordering::Equal, label.cmp_with_f::<CaseSensitive>(other));
    }
    (
        label.cmp_with_f::<CaseInsensitive>(other),
        label.cmp_with_f::<CaseSensitive>(other),
    )
}

/// Sorts names in canonical order (RFC 4034, section 6.1), and returns `true` if two of them are equal.
pub fn sort_names(names: &mut Vec<Name>) -> bool {
    names.sort_unstable();
    let count = names.len();
    names.dedup();
    names.len() < count
}

/// Returns `true` if two names are equal however one compares them: ignoring case or not, with the last dot or without it.
pub fn are_same(name: &Name, other: &Name) -> bool {
    name == other
        && name.cmp(other) == Ordering::Equal
        && name.eq_case(other)
        && name.cmp_case(other).is_eq()
        && name.eq_ignore_root(other)
        && name.eq_ignore_root_case(other)
}

/// Returns the key of the records of a name and a type.
pub fn key_of(name: &Name, record_type: RecordType) -> ProtoResult<RrKey>
    ensures { result ≡ Ok (record { name = lowered name.now; record_type = record_type }) }
{
    Ok(RrKey::new(LowerName::new(name)?, record_type))
}

/// Returns the number of different keys, and of different names among them.
pub fn count_different(alloc: Global, keys: &[RrKey]) -> ProtoResult<(usize, usize)> {
    let mut seen_keys = HashSet::new(alloc);
    let mut seen_names = HashSet::new(alloc);
    for key in keys {
        seen_keys.insert(key.clone()?)?;
        seen_names.insert(key.name().to_name()?)?;
    }
    Ok((seen_keys.len(), seen_names.len()))
}

/// Returns the greater of two keys, by name and then by type.
pub fn greater_key<'a>(key: &'a RrKey, other: &'a RrKey) -> &'a RrKey {
    if key < other { other } else { key }
}

/// Returns `true` if a name in lower case is the zone of another, ignoring case. Calls of `Name` are calls of `LowerName`.
pub fn is_zone_of(zone: &LowerName, name: &Name) -> bool
    ensures { IsTrue result ↔ IsZoneOf zone.now.labels name.now.labels }
{
    let zone: &Name = zone;
    zone.zone_of(name)
}

/// Returns a label, a name and a name in lower case as text.
pub fn printed(
    alloc: Global,
    label: &Label,
    name: &Name,
    lower: &LowerName,
) -> Result<String, AllocError> {
    Ok(format!(in alloc; "{label} {name} {lower} ({label:?} {name:?} {lower:?})")?)
}

/// Returns the names of a text: as it stands, and in the zone of an origin.
pub fn parsed(alloc: Global, text: &str, origin: &Name) -> ProtoResult<(Name, Name)> {
    Ok((
        Name::from_str(alloc, text)?,
        Name::parse(alloc, text, Some(origin))?,
    ))
}

/// Returns the nets of two reverse names as text, and whether they are equal.
pub fn nets(alloc: Global, name: &Name, other: &Name) -> ProtoResult<(String, bool)> {
    let (net, other): (IpNet, IpNet) = (name.parse_arpa_name()?, other.parse_arpa_name()?);
    Ok((format!(in alloc; "{net} {other}")?, net == other))
}

/// Returns `true` if a resolver answers for the names of a zone with a loopback address, and the name is in the zone.
pub fn is_loopback(zone: &ZoneUsage, name: &Name) -> bool {
    zone.resolver() == ResolverUsage::Loopback && zone.zone_of(name)
}
