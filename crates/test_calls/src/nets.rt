//! Nets of IP addresses.

use dns_names_wire::error::ProtoError;
use dns_names_wire::net::{Ipv4Net, Ipv6Net};
use std::net::{Ipv4Addr, Ipv6Addr};
use std::test::Fail;

#[test]
fn a_net_is_shown_with_its_prefix(rt: HostRuntime) -> Result<(), Fail> {
    let net = Ipv4Net::new(Ipv4Addr::new(192, 0, 2, 0), 24).map_err(|_| "a net")?;
    assert_eq!(rt; format!(in rt.alloc(); "{net}")?.as_str(), "192.0.2.0/24");
    let net = Ipv6Net::new(Ipv6Addr::new(0x2001, 0xdb8, 0, 0, 0, 0, 0, 0), 128).map_err(
        |_| "a net",
    )?;
    assert_eq!(rt; format!(in rt.alloc(); "{net}")?.as_str(), "2001:db8::/128");
    Ok(())
}

#[test]
fn a_prefix_is_no_longer_than_the_address(rt: HostRuntime) {
    let address = Ipv4Addr::new(192, 0, 2, 0);
    let failed = Ipv4Net::new(address, 33);
    assert!(rt; matches!(failed, Err(ProtoError::Message("invalid prefix length"))));
    let address = Ipv6Addr::new(0, 0, 0, 0, 0, 0, 0, 1);
    let failed = Ipv6Net::new(address, 129);
    assert!(rt; matches!(failed, Err(ProtoError::Message("invalid prefix length"))));
}
