//! Module `name`: names of addresses, and what gives a name.

use dns_names_wire::error::{ProtoError, ProtoResult};
use dns_names_wire::lower_name::LowerName;
use dns_names_wire::name::{IntoName, Name};
use dns_names_wire::net::{IpNet, Ipv4Net, Ipv6Net};
use std::alloc::Global;
use std::net::{IpAddr, Ipv4Addr, Ipv6Addr};
use std::test::Fail;

const V4_NAME: &str = "103.0.3.26.in-addr.arpa.";

const V6_NAME: &str = "1.0.0.0.0.0.0.0.0.0.0.0.0.0.0.0.0.0.0.0.0.0.0.0.8.b.d.0.1.0.0.2.ip6.arpa.";

/// Returns 26.3.0.103.
fn v4() -> Ipv4Addr {
    Ipv4Addr::new(26, 3, 0, 103)
}

/// Returns 2001:db8::1.
fn v6() -> Ipv6Addr {
    Ipv6Addr::new(0x2001, 0xdb8, 0, 0, 0, 0, 0, 1)
}

#[test]
fn addresses_have_names(rt: HostRuntime) -> Result<(), Fail> {
    let alloc = rt.alloc();
    let of_ip: ProtoResult<Name> = Name::from_ip(alloc, IpAddr::V4(v4()));
    let of_v4: ProtoResult<Name> = Name::from_ipv4(alloc, v4());
    let of_v6: ProtoResult<Name> = Name::from_ipv6(alloc, v6());
    let (of_v4, of_v6) = (of_v4?, of_v6?);
    assert!(rt; of_ip? == of_v4);
    assert_eq!(rt; of_v4.to_ascii(alloc)?.as_str(), V4_NAME);
    assert_eq!(rt; of_v6.to_ascii(alloc)?.as_str(), V6_NAME);
    let short: ProtoResult<IpNet> = of_v4.parse_arpa_name();
    let long: ProtoResult<IpNet> = of_v6.parse_arpa_name();
    assert!(rt; short? == IpNet::V4(Ipv4Net::new(v4(), 32)?));
    assert!(rt; long? == IpNet::V6(Ipv6Net::new(v6(), 128)?));
    let relative = Name::from_ascii(alloc, "168.192.in-addr.arpa")?.parse_arpa_name();
    assert!(rt;
        matches!(
            relative,
            Err(ProtoError::Message("PQDN cannot be valid arpa name"))
        )
    );
    Ok(())
}

/// Returns the address that a value writes, and the text of the name that it gives.
fn given<N: IntoName>(alloc: Global, value: N) -> ProtoResult<(Option<IpAddr>, String)> {
    let address: Option<IpAddr> = value.to_ip();
    let name: ProtoResult<Name> = value.into_name(alloc);
    Ok((address, name?.to_ascii(alloc)?))
}

#[test]
fn texts_give_names_and_addresses(rt: HostRuntime) -> Result<(), Fail> {
    let alloc = rt.alloc();
    let text = String::from_str(alloc, "26.3.0.103")?;
    for (address, name) in [
        given::<&str>(alloc, "26.3.0.103")?,
        given::<&String>(alloc, &text)?,
        given::<String>(alloc, text.clone()?)?,
    ] {
        assert!(rt; address == Some(IpAddr::V4(v4())));
        assert_eq!(rt; name.as_str(), "26.3.0.103");
    }
    Ok(())
}

#[test]
fn names_and_addresses_give_names(rt: HostRuntime) -> Result<(), Fail> {
    let alloc = rt.alloc();
    let name = Name::from_ascii(alloc, V4_NAME)?;
    let lower = LowerName::new(&name)?;
    for (address, name) in [
        given::<&LowerName>(alloc, &lower)?,
        given::<LowerName>(alloc, lower.clone()?)?,
        given::<Name>(alloc, name)?,
        given::<Ipv4Addr>(alloc, v4())?,
        given::<IpAddr>(alloc, IpAddr::V4(v4()))?,
    ] {
        assert!(rt; address.is_none());
        assert_eq!(rt; name.as_str(), V4_NAME);
    }
    let (address, name) = given::<Ipv6Addr>(alloc, v6())?;
    assert!(rt; address.is_none());
    assert_eq!(rt; name.as_str(), V6_NAME);
    Ok(())
}
