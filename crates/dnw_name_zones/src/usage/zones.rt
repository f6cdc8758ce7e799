//! The special-use zones by name. None of the functions allocates or fails.
ghost use Rattle.std.specs.Prelude.{◌≡◌, ◌+◌, ◌≤◌, ◌++◌, ◌∷◌, [], codes, length, Ok};
ghost use Rattle.dnw_base.specs.Labels.{IsLabel};
ghost use Rattle.dnw_base.specs.Limits.{max_name};
ghost use Rattle.dnw_base.specs.Names.{encoded_size};
ghost use Rattle.dnw_name_zones.specs.Zones.{absolute, in_addr_arpa, ip6_arpa, default_value, localhost_value, in_addr_arpa_127_value, ip6_arpa_1_value, local_value, in_addr_arpa_169_254_value, ip6_arpa_fe_8_value, ip6_arpa_fe_9_value, ip6_arpa_fe_b_value, invalid_value, onion_value};

use crate::usage::ZoneUsage;
use crate::usage::kinds::{
    AppUsage, AuthUsage, CacheUsage, OpUsage, RegistryUsage, ResolverUsage, UserUsage,
};
use dnw_base::error::ProtoResult;
use dnw_name::name::Name;
use std::alloc::Global;
use std::net::Ipv6Addr;

/// The root, with no special use.
pub fn default(alloc: Global) -> ProtoResult<ZoneUsage>
    ensures { result ≡ Ok default_value }
{
    Ok(ZoneUsage::default(alloc))
}

/// `in-addr.arpa.`, which has the reverse names of IPv4 addresses (RFC 1035, section 3.5).
pub fn in_addr_arpa(alloc: Global) -> ProtoResult<Name>
    ensures { result ≡ Ok (absolute in_addr_arpa) }
{
    in_addr(alloc, Name::root(alloc))
}

/// `ip6.arpa.`, which has the reverse names of IPv6 addresses (RFC 3596, section 2.5).
pub fn ip6_arpa(alloc: Global) -> ProtoResult<Name>
    ensures { result ≡ Ok (absolute ip6_arpa) }
{
    ip6(alloc, Name::root(alloc))
}

/// `localhost.`, whose names stand for the loopback address (RFC 6761, section 6.3).
pub fn localhost(alloc: Global) -> ProtoResult<ZoneUsage>
    ensures { result ≡ Ok localhost_value }
{
    let name = with_label(alloc, Name::root(alloc), b"localhost")?;
    Ok(ZoneUsage::localhost(name))
}

/// `127.in-addr.arpa.`, the reverse names of the loopback addresses 127.0.0.0/8 (RFC 1122, section 3.2.1.3).
pub fn in_addr_arpa_127(alloc: Global) -> ProtoResult<ZoneUsage>
    ensures { result ≡ Ok in_addr_arpa_127_value }
{
    let first = with_label(alloc, Name::root(alloc), b"127")?;
    Ok(ZoneUsage::localhost(in_addr(alloc, first)?))
}

/// The reverse name of ::1, the loopback address (RFC 4291, section 2.5.3).
pub fn ip6_arpa_1(alloc: Global) -> ProtoResult<ZoneUsage>
    ensures { result ≡ Ok ip6_arpa_1_value }
{
    let loopback = Ipv6Addr::new(0, 0, 0, 0, 0, 0, 0, 1);
    Ok(ZoneUsage::localhost(Name::from_ipv6(alloc, loopback)?))
}

/// `local.`, whose names are those of the own link (RFC 6762, section 3).
pub fn local(alloc: Global) -> ProtoResult<ZoneUsage>
    ensures { result ≡ Ok local_value }
{
    let name = with_label(alloc, Name::root(alloc), b"local")?;
    Ok(ZoneUsage::local(name))
}

/// `254.169.in-addr.arpa.`, the reverse names of the link-local addresses 169.254.0.0/16 (RFC 6762, section 4).
pub fn in_addr_arpa_169_254(alloc: Global) -> ProtoResult<ZoneUsage>
    ensures { result ≡ Ok in_addr_arpa_169_254_value }
{
    let first = with_label(alloc, Name::root(alloc), b"254")?;
    let second = with_label(alloc, first, b"169")?;
    Ok(ZoneUsage::local(in_addr(alloc, second)?))
}

/// `8.e.f.ip6.arpa.`, the reverse names of the link-local addresses fe80::/12 (RFC 6762, section 4).
pub fn ip6_arpa_fe_8(alloc: Global) -> ProtoResult<ZoneUsage>
    ensures { result ≡ Ok ip6_arpa_fe_8_value }
{
    let first = with_label(alloc, Name::root(alloc), b"8")?;
    Ok(ZoneUsage::local(fe_ip6(alloc, first)?))
}

/// `9.e.f.ip6.arpa.`, the reverse names of the link-local addresses fe90::/12 (RFC 6762, section 4).
pub fn ip6_arpa_fe_9(alloc: Global) -> ProtoResult<ZoneUsage>
    ensures { result ≡ Ok ip6_arpa_fe_9_value }
{
    let first = with_label(alloc, Name::root(alloc), b"9")?;
    Ok(ZoneUsage::local(fe_ip6(alloc, first)?))
}

/// `b.e.f.ip6.arpa.`, the reverse names of the link-local addresses feb0::/12 (RFC 6762, section 4).
pub fn ip6_arpa_fe_b(alloc: Global) -> ProtoResult<ZoneUsage>
    ensures { result ≡ Ok ip6_arpa_fe_b_value }
{
    let first = with_label(alloc, Name::root(alloc), b"b")?;
    Ok(ZoneUsage::local(fe_ip6(alloc, first)?))
}

/// `invalid.`, whose names do not exist (RFC 6761, section 6.4).
pub fn invalid(alloc: Global) -> ProtoResult<ZoneUsage>
    ensures { result ≡ Ok invalid_value }
{
    let name = with_label(alloc, Name::root(alloc), b"invalid")?;
    Ok(ZoneUsage::invalid(name))
}

/// `onion.`, whose names are those of Tor. Users and applications may use them as others, and the DNS does not know them
/// (RFC 7686, section 2).
pub fn onion(alloc: Global) -> ProtoResult<ZoneUsage>
    ensures { result ≡ Ok onion_value }
{
    let name = with_label(alloc, Name::root(alloc), b"onion")?;
    Ok(ZoneUsage::new(
        name,
        UserUsage::Normal,
        AppUsage::Normal,
        ResolverUsage::NxDomain,
        CacheUsage::NxDomain,
        AuthUsage::NxDomain,
        OpUsage::NxDomain,
        RegistryUsage::Reserved,
    ))
}

/// Adds `e.f.ip6.arpa`.
fn fe_ip6(alloc: Global, name: Name) -> ProtoResult<Name>
    requires { encoded_size name.labels ≤ 100 }
    ensures { result ≡ Ok (record { is_fqdn = name.is_fqdn; labels = name.labels ++ codes "e" ∷ codes "f" ∷ ip6_arpa }) }
{
    let name = with_label(alloc, name, b"e")?;
    let name = with_label(alloc, name, b"f")?;
    ip6(alloc, name)
}

/// Adds `ip6.arpa`.
fn ip6(alloc: Global, name: Name) -> ProtoResult<Name>
    requires { encoded_size name.labels ≤ 200 }
    ensures { result ≡ Ok (record { is_fqdn = name.is_fqdn; labels = name.labels ++ ip6_arpa }) }
{
    let name = with_label(alloc, name, b"ip6")?;
    with_label(alloc, name, b"arpa")
}

/// Adds `in-addr.arpa`.
fn in_addr(alloc: Global, name: Name) -> ProtoResult<Name>
    requires { encoded_size name.labels ≤ 200 }
    ensures { result ≡ Ok (record { is_fqdn = name.is_fqdn; labels = name.labels ++ in_addr_arpa }) }
{
    let name = with_label(alloc, name, b"in-addr")?;
    with_label(alloc, name, b"arpa")
}

/// Adds a label at the end.
fn with_label(alloc: Global, name: Name, label: &[u8]) -> ProtoResult<Name>
    requires label { IsLabel label.now }
    requires room { encoded_size name.labels + 1 + length label.now ≤ max_name }
    ensures { result ≡ Ok (record { is_fqdn = name.is_fqdn; labels = name.labels ++ label.now ∷ [] }) }
{
    name.append_label(alloc, label)
}
