//! Reverse names.
ghost use Rattle.std.specs.Prelude.{◌≡◌, Ok};
ghost use Rattle.std.specs.declared.net.ip_addr.IpAddr.TheVariants.{V4, V6};
ghost use Rattle.dnw_name_arpa.specs.Arpa.{arpa_prefix, reverse_name};
ghost use Rattle.dnw_name_arpa.specs.ArpaNets.{ReadsNet};

use crate::name::Name;
use dnw_base::error::{ProtoError, ProtoResult};
use dnw_name_arpa::net::IpNet;
use dnw_name_arpa::reading::read_net;
use dnw_name_arpa::writing::{ipv4_form, ipv6_form};
use std::alloc::Global;
use std::net::{IpAddr, Ipv4Addr, Ipv6Addr};

impl Name {
    /// Creates the reverse name of an address, under which PTR queries find its domain names (RFC 1035, section 3.5; RFC
    /// 3596, section 2.5). It does not allocate and cannot fail.
    pub fn from_ip(alloc: Global, addr: IpAddr) -> ProtoResult<Self>
        ensures { result ≡ Ok (reverse_name addr) }
    {
        match addr {
            IpAddr::V4(addr) => Name::from_ipv4(alloc, addr),
            IpAddr::V6(addr) => Name::from_ipv6(alloc, addr),
        }
    }

    /// Creates the reverse name of an IPv4 address: that of 192.0.2.1 is `1.2.0.192.in-addr.arpa.` (RFC 1035, section
    /// 3.5). It does not allocate and cannot fail.
    pub fn from_ipv4(alloc: Global, addr: Ipv4Addr) -> ProtoResult<Self>
        ensures { result ≡ Ok (reverse_name (V4 addr)) }
    {
        Ok(Name::qualified(ipv4_form(alloc, addr)))
    }

    /// Creates the reverse name of an IPv6 address: its 32 nibbles as hexadecimal digits, the last one first, and
    /// `ip6.arpa.` (RFC 3596, section 2.5). It does not allocate and cannot fail.
    pub fn from_ipv6(alloc: Global, addr: Ipv6Addr) -> ProtoResult<Self>
        ensures { result ≡ Ok (reverse_name (V6 addr)) }
    {
        Ok(Name::qualified(ipv6_form(alloc, addr)))
    }

    /// Returns the net that a reverse name stands for: the octets or nibbles that its labels give, with zeros after
    /// them. So `168.192.in-addr.arpa.` is 192.168.0.0/16. ASCII case is ignored. It does not allocate.
    ///
    /// It fails with a `Message` if the name is relative, if it is not below `in-addr.arpa.` or `ip6.arpa.`, if it has more
    /// labels than an address, or if a label of an IPv6 address has not one byte; with `Utf8` if a label that is read is
    /// not UTF-8; with `ParseInt` if a label is no decimal number up to 255, or no hexadecimal digit.
    pub fn parse_arpa_name(&self) -> ProtoResult<IpNet>
        ensures { ReadsNet (arpa_prefix self.now) result }
    {
        if !self.is_fqdn {
            return Err(ProtoError::Message("PQDN cannot be valid arpa name"));
        }
        read_net(self.form.iter())
    }
}
