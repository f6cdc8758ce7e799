//! Nets of IP addresses.
ghost use Rattle.std.specs.Prelude.{◌≡◌, ◌≤◌, Some, IfOk, IfErr};
ghost use Rattle.std.specs.Net.Addr.{ipv4_octets, ipv6_segments};
ghost use Rattle.std.specs.Net.Text.{ipv4_text, ipv6_text};
ghost use Rattle.dnw_name_arpa.specs.Nets.{ipv4_size, ipv6_size};
ghost use Rattle.dnw_name_arpa.specs.NetTexts.{net_addr, net_prefix_len, net_text, ip_net_text, ip_size, IsPastSize};

use dnw_base::error::{ProtoError, ProtoResult};
use std::fmt;
use std::marker::Model;
use std::net::{IpAddr, Ipv4Addr, Ipv6Addr};

/// An IPv4 or an IPv6 address, and how many of its first bits name the net.
#[derive(Clone, Copy, PartialEq, Eq)]
pub enum IpNet {
    /// A net of IPv4 addresses.
    V4(Ipv4Net),
    /// A net of IPv6 addresses.
    V6(Ipv6Net),
}

impl IpNet {
    /// Creates a net of an address and the length of its prefix in bits. It fails with a `Message` if the prefix is longer
    /// than the address: past 32 bits for IPv4, past 128 for IPv6.
    pub fn new(ip: IpAddr, prefix_len: u8) -> ProtoResult<Self>
        ensures addr { IfOk result (λ net. net_addr net ≡ ip) }
        ensures prefix { IfOk result (λ net. (net_prefix_len net ≡ prefix_len) × (prefix_len ≤ ip_size ip)) }
        ensures err { IfErr result (IsPastSize (ip_size ip) prefix_len) }
    {
        match ip {
            IpAddr::V4(addr) => Ok(IpNet::V4(Ipv4Net::new(addr, prefix_len)?)),
            IpAddr::V6(addr) => Ok(IpNet::V6(Ipv6Net::new(addr, prefix_len)?)),
        }
    }

    /// Returns the address. Its bits past the prefix are as they were given.
    pub fn addr(&self) -> IpAddr
        ensures { result ≡ net_addr self.now }
    {
        match self {
            IpNet::V4(net) => IpAddr::V4(net.addr()),
            IpNet::V6(net) => IpAddr::V6(net.addr()),
        }
    }

    /// Returns the length of the prefix in bits.
    pub fn prefix_len(&self) -> u8
        ensures len { result ≡ net_prefix_len self.now }
        ensures fits { result ≤ ip_size (net_addr self.now) }
    {
        match self {
            IpNet::V4(net) => net.prefix_len(),
            IpNet::V6(net) => net.prefix_len(),
        }
    }
}

/// An IPv4 address, and how many of its first bits name the net, at most 32 (RFC 4632, section 3.1).
///
/// A contract sees it as the address and the length of the prefix.
#[derive(Clone, Copy, PartialEq, Eq)]
pub struct Ipv4Net {
    addr: Ipv4Addr,
    prefix_len: u8,
}

impl Model for Ipv4Net {
    ghost use Rattle.std.specs.Prelude.{◌≤◌};
    ghost use Rattle.std.specs.declared.net.ipv4_addr.Ipv4Addr.{Ipv4Addr};
    ghost use Rattle.dnw_name_arpa.specs.Nets.{NetValue, ipv4_size};

    ghost Value = { NetValue Ipv4Addr };

    ghost view = { λ n. record { addr = n.addr; prefix_len = n.prefix_len } };

    ghost invariant = { λ n. n.prefix_len ≤ ipv4_size };

    ghost inverse = { λ v. record { addr = v.addr; prefix_len = v.prefix_len } };
}

impl Ipv4Net {
    /// Creates a net of an address and the length of its prefix in bits. It fails with a `Message` if that is past 32.
    ///
    /// ```text
    /// Ipv4Net::new(Ipv4Addr::new(192, 0, 2, 0), 24)    // 192.0.2.0/24
    /// ```
    pub fn new(ip: Ipv4Addr, prefix_len: u8) -> ProtoResult<Self>
        ensures ok { IfOk result (λ net. (net ≡ record { addr = ip; prefix_len = prefix_len }) × (prefix_len ≤ ipv4_size)) }
        ensures err { IfErr result (IsPastSize ipv4_size prefix_len) }
    {
        if prefix_len > Ipv4Addr::BITS as u8 {
            return Err(ProtoError::Message("invalid prefix length"));
        }
        Ok(Ipv4Net {
            addr: ip,
            prefix_len,
        })
    }

    /// Returns the address. Its bits past the prefix are as they were given.
    pub fn addr(&self) -> Ipv4Addr
        ensures { result ≡ self.now.addr }
    {
        self.addr
    }

    /// Returns the length of the prefix in bits, at most 32.
    pub fn prefix_len(&self) -> u8
        ensures len { result ≡ self.now.prefix_len }
        ensures fits { result ≤ ipv4_size }
    {
        self.prefix_len
    }
}

/// An IPv6 address, and how many of its first bits name the net, at most 128 (RFC 4291, section 2.3).
///
/// A contract sees it as the address and the length of the prefix.
#[derive(Clone, Copy, PartialEq, Eq)]
pub struct Ipv6Net {
    addr: Ipv6Addr,
    prefix_len: u8,
}

impl Model for Ipv6Net {
    ghost use Rattle.std.specs.Prelude.{◌≤◌};
    ghost use Rattle.std.specs.declared.net.ipv6_addr.Ipv6Addr.{Ipv6Addr};
    ghost use Rattle.dnw_name_arpa.specs.Nets.{NetValue, ipv6_size};

    ghost Value = { NetValue Ipv6Addr };

    ghost view = { λ n. record { addr = n.addr; prefix_len = n.prefix_len } };

    ghost invariant = { λ n. n.prefix_len ≤ ipv6_size };

    ghost inverse = { λ v. record { addr = v.addr; prefix_len = v.prefix_len } };
}

impl Ipv6Net {
    /// Creates a net of an address and the length of its prefix in bits. It fails with a `Message` if that is past 128.
    pub fn new(ip: Ipv6Addr, prefix_len: u8) -> ProtoResult<Self>
        ensures ok { IfOk result (λ net. (net ≡ record { addr = ip; prefix_len = prefix_len }) × (prefix_len ≤ ipv6_size)) }
        ensures err { IfErr result (IsPastSize ipv6_size prefix_len) }
    {
        if prefix_len > Ipv6Addr::BITS as u8 {
            return Err(ProtoError::Message("invalid prefix length"));
        }
        Ok(Ipv6Net {
            addr: ip,
            prefix_len,
        })
    }

    /// Returns the address. Its bits past the prefix are as they were given.
    pub fn addr(&self) -> Ipv6Addr
        ensures { result ≡ self.now.addr }
    {
        self.addr
    }

    /// Returns the length of the prefix in bits, at most 128.
    pub fn prefix_len(&self) -> u8
        ensures len { result ≡ self.now.prefix_len }
        ensures fits { result ≤ ipv6_size }
    {
        self.prefix_len
    }
}

impl fmt::Display for IpNet {
    ghost output = { λ net. Some (ip_net_text net) };

    fn fmt<W: fmt::Write>(&self, f: &mut fmt::Formatter<W>) -> fmt::Result {
        match self {
            IpNet::V4(net) => fmt::Display::fmt(net, f),
            IpNet::V6(net) => fmt::Display::fmt(net, f),
        }
    }
}

impl fmt::Display for Ipv4Net {
    ghost output = { λ net. Some (net_text (ipv4_text (ipv4_octets net.addr)) net.prefix_len) };

    fn fmt<W: fmt::Write>(&self, f: &mut fmt::Formatter<W>) -> fmt::Result {
        write!(f, "{}/{}", self.addr, self.prefix_len)
    }
}

impl fmt::Display for Ipv6Net {
    ghost output = { λ net. Some (net_text (ipv6_text (ipv6_segments net.addr)) net.prefix_len) };

    fn fmt<W: fmt::Write>(&self, f: &mut fmt::Formatter<W>) -> fmt::Result {
        write!(f, "{}/{}", self.addr, self.prefix_len)
    }
}

impl fmt::Debug for IpNet {
    fn fmt<W: fmt::Write>(&self, f: &mut fmt::Formatter<W>) -> fmt::Result {
        fmt::Display::fmt(self, f)
    }
}

impl fmt::Debug for Ipv4Net {
    fn fmt<W: fmt::Write>(&self, f: &mut fmt::Formatter<W>) -> fmt::Result {
        fmt::Display::fmt(self, f)
    }
}

impl fmt::Debug for Ipv6Net {
    fn fmt<W: fmt::Write>(&self, f: &mut fmt::Formatter<W>) -> fmt::Result {
        fmt::Display::fmt(self, f)
    }
}
