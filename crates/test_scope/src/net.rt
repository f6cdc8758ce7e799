//! Module `net`: nets of addresses.

use crate::bounds::is_eq;
use dns_names_wire::error::{ProtoError, ProtoResult};
use dns_names_wire::net::{IpNet, Ipv4Net, Ipv6Net};
use std::net::{Ipv4Addr, Ipv6Addr};
use std::test::Fail;

#[test]
fn nets_have_an_address_and_a_prefix(rt: HostRuntime) -> Result<(), Fail> {
    is_eq::<IpNet>();
    is_eq::<Ipv4Net>();
    is_eq::<Ipv6Net>();
    let v4 = Ipv4Addr::new(192, 168, 0, 0);
    let v6 = Ipv6Addr::new(0x2001, 0xdb8, 0, 0, 0, 0, 0, 0);
    let short: ProtoResult<Ipv4Net> = Ipv4Net::new(v4, 16u8);
    let long: ProtoResult<Ipv6Net> = Ipv6Net::new(v6, 32u8);
    let (short, long) = (short?, long?);
    let (address, prefix): (Ipv4Addr, u8) = (short.addr(), short.prefix_len());
    assert!(rt; address == v4 && prefix == 16);
    let (address, prefix): (Ipv6Addr, u8) = (long.addr(), long.prefix_len());
    assert!(rt; address == v6 && prefix == 32);
    assert!(rt; IpNet::V4(short) == IpNet::V4(short));
    assert!(rt; IpNet::V4(short) != IpNet::V6(long));
    Ok(())
}

#[test]
fn prefixes_have_a_limit(rt: HostRuntime) {
    let short = Ipv4Net::new(Ipv4Addr::new(0, 0, 0, 0), 33);
    let long = Ipv6Net::new(Ipv6Addr::new(0, 0, 0, 0, 0, 0, 0, 0), 129);
    assert!(rt; matches!(short, Err(ProtoError::Message("invalid prefix length"))));
    assert!(rt; matches!(long, Err(ProtoError::Message("invalid prefix length"))));
}
