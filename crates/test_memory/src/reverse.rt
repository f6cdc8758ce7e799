//! Reverse names and special-use zones, none of which allocates.

use dns_names_wire::error::ProtoResult;
use dns_names_wire::name::Name;
use dns_names_wire::usage;
use dns_names_wire::usage::ZoneUsage;
use std::alloc::Global;
use std::io;
use std::io::Write;
use std::net::{IpAddr, Ipv4Addr, Ipv6Addr};

/// The name of this scenario.
pub(crate) const NAME: &str = "reverse";

/// Shows the reverse names of two addresses, the nets that are read from them, and two zones.
// reverse names are made and read while each growth is refused
pub(crate) fn run_reverse<W: Write>(alloc: Global, out: &mut W) -> io::Result<()> {
    let v4 = Ipv4Addr::new(26, 3, 0, 103);
    let v6 = Ipv6Addr::new(0x2001, 0xdb8, 0, 0, 0, 0, 0, 1);
    show_name("from_ipv4", &Name::from_ipv4(alloc, v4), out)?;
    show_name("from_ipv6", &Name::from_ipv6(alloc, v6), out)?;
    show_name("from_ip", &Name::from_ip(alloc, IpAddr::V4(v4)), out)?;
    show_name("from_ip", &Name::from_ip(alloc, IpAddr::V6(v6)), out)?;
    show_name("in_addr_arpa", &usage::in_addr_arpa(alloc), out)?;
    show_name("ip6_arpa", &usage::ip6_arpa(alloc), out)?;
    show_zone("ip6_arpa_1", &usage::ip6_arpa_1(alloc), out)?;
    show_zone("onion", &usage::onion(alloc), out)
}

fn show_name<W: Write>(call: &str, name: &ProtoResult<Name>, out: &mut W) -> io::Result<()> {
    match name {
        Ok(name) => {
            writeln!(out, "{call} -> {name};")?;
            match name.parse_arpa_name() {
                Ok(net) => writeln!(out, "parse_arpa_name -> {net};"),
                Err(error) => writeln!(out, "parse_arpa_name -> {error};"),
            }
        }
        Err(error) => writeln!(out, "{call} -> {error};"),
    }
}

fn show_zone<W: Write>(call: &str, zone: &ProtoResult<ZoneUsage>, out: &mut W) -> io::Result<()> {
    match zone {
        Ok(zone) => writeln!(out, "{call} -> {};", zone.name()),
        Err(error) => writeln!(out, "{call} -> {error};"),
    }
}
