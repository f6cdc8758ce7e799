//! Numbers that have names: algorithms of DNSSEC, types of certificates, schemes of DSYNC, protocols and services.
//!
//! They are printed as numbers, as `dig` prints them.
ghost use Rattle.std.specs.Prelude.{◌≡◌};
ghost use Rattle.std.specs.Str.{str_eq_ignore_ascii_case};
ghost use Rattle.dnw_zone_values.specs.Mnemonics.{algorithm_named, begins_with_digit, certificate_type_named, protocol_named, scheme_named, service_named};

/// Returns the number of an algorithm of DNSSEC by its mnemonic, in upper or lower case (IANA's registry "DNS Security Algorithm
/// Numbers").
///
/// ```
/// assert_eq!(rt; algorithm_named(b"RSASHA256"), Some(8));
/// ```
pub fn algorithm_named(name: &[u8]) -> Option<u8>
    ensures { result ≡ algorithm_named name.now }
{
    match name {
        _ if is_alike(name, "RSAMD5") => Some(1),
        _ if is_alike(name, "DH") => Some(2),
        _ if is_alike(name, "DSA") => Some(3),
        _ if is_alike(name, "RSASHA1") => Some(5),
        _ if is_alike(name, "DSA-NSEC3-SHA1") => Some(6),
        _ if is_alike(name, "NSEC3DSA") => Some(6),
        _ if is_alike(name, "RSASHA1-NSEC3-SHA1") => Some(7),
        _ if is_alike(name, "NSEC3RSASHA1") => Some(7),
        _ if is_alike(name, "RSASHA256") => Some(8),
        _ if is_alike(name, "RSASHA512") => Some(10),
        _ if is_alike(name, "ECC-GOST") => Some(12),
        _ if is_alike(name, "ECCGOST") => Some(12),
        _ if is_alike(name, "ECDSAP256SHA256") => Some(13),
        _ if is_alike(name, "ECDSAP384SHA384") => Some(14),
        _ if is_alike(name, "ED25519") => Some(15),
        _ if is_alike(name, "ED448") => Some(16),
        _ if is_alike(name, "SM2SM3") => Some(17),
        _ if is_alike(name, "ECC-GOST12") => Some(23),
        _ if is_alike(name, "INDIRECT") => Some(252),
        _ if is_alike(name, "PRIVATEDNS") => Some(253),
        _ if is_alike(name, "PRIVATEOID") => Some(254),
        _ => None,
    }
}

/// Returns the number of a type of certificates by its mnemonic, in upper or lower case (RFC 4398, section 2.1).
pub fn certificate_type_named(name: &[u8]) -> Option<u8>
    ensures { result ≡ certificate_type_named name.now }
{
    match name {
        _ if is_alike(name, "PKIX") => Some(1),
        _ if is_alike(name, "SPKI") => Some(2),
        _ if is_alike(name, "PGP") => Some(3),
        _ if is_alike(name, "IPKIX") => Some(4),
        _ if is_alike(name, "ISPKI") => Some(5),
        _ if is_alike(name, "IPGP") => Some(6),
        _ if is_alike(name, "ACPKIX") => Some(7),
        _ if is_alike(name, "IACPKIX") => Some(8),
        _ if is_alike(name, "URI") => Some(253),
        _ if is_alike(name, "OID") => Some(254),
        _ => None,
    }
}

/// Returns the number of a scheme of DSYNC by its mnemonic, in upper or lower case (RFC 9859, section 2.1).
pub fn scheme_named(name: &[u8]) -> Option<u8>
    ensures { result ≡ scheme_named name.now }
{
    if is_alike(name, "NOTIFY") {
        Some(1)
    } else {
        None
    }
}

/// Returns the number of a protocol by its name, in upper or lower case (IANA's registry "Protocol Numbers").
pub fn protocol_named(name: &[u8]) -> Option<u8>
    ensures { result ≡ protocol_named name.now }
{
    match name {
        _ if is_alike(name, "ICMP") => Some(1),
        _ if is_alike(name, "IGMP") => Some(2),
        _ if is_alike(name, "GGP") => Some(3),
        _ if is_alike(name, "TCP") => Some(6),
        _ if is_alike(name, "EGP") => Some(8),
        _ if is_alike(name, "UDP") => Some(17),
        _ => None,
    }
}

/// Returns the port of a service by its name, in upper or lower case (IANA's registry "Service Name and Transport Protocol Port
/// Numbers"). It is the same for each protocol.
pub fn service_named(name: &[u8]) -> Option<u16>
    ensures { result ≡ service_named name.now }
{
    match name {
        _ if is_alike(name, "echo") => Some(7),
        _ if is_alike(name, "discard") => Some(9),
        _ if is_alike(name, "systat") => Some(11),
        _ if is_alike(name, "daytime") => Some(13),
        _ if is_alike(name, "netstat") => Some(15),
        _ if is_alike(name, "qotd") => Some(17),
        _ if is_alike(name, "chargen") => Some(19),
        _ if is_alike(name, "ftp-data") => Some(20),
        _ if is_alike(name, "ftp") => Some(21),
        _ if is_alike(name, "ssh") => Some(22),
        _ if is_alike(name, "telnet") => Some(23),
        _ if is_alike(name, "smtp") => Some(25),
        _ if is_alike(name, "time") => Some(37),
        _ if is_alike(name, "whois") => Some(43),
        _ if is_alike(name, "domain") => Some(53),
        _ if is_alike(name, "bootps") => Some(67),
        _ if is_alike(name, "bootpc") => Some(68),
        _ if is_alike(name, "tftp") => Some(69),
        _ if is_alike(name, "gopher") => Some(70),
        _ if is_alike(name, "finger") => Some(79),
        _ if is_alike(name, "http") => Some(80),
        _ if is_alike(name, "kerberos") => Some(88),
        _ if is_alike(name, "pop3") => Some(110),
        _ if is_alike(name, "sunrpc") => Some(111),
        _ if is_alike(name, "auth") => Some(113),
        _ if is_alike(name, "nntp") => Some(119),
        _ if is_alike(name, "ntp") => Some(123),
        _ if is_alike(name, "imap2") => Some(143),
        _ if is_alike(name, "snmp") => Some(161),
        _ if is_alike(name, "bgp") => Some(179),
        _ if is_alike(name, "ldap") => Some(389),
        _ if is_alike(name, "https") => Some(443),
        _ => None,
    }
}

/// Returns `true` if a text begins with a decimal digit.
pub fn begins_with_digit(text: &[u8]) -> bool
    ensures { result ≡ begins_with_digit text.now }
{
    match text.first() {
        Some(c) => c.is_ascii_digit(),
        None => false,
    }
}

/// Returns `true` if two texts are the same but for upper and lower case.
fn is_alike(text: &[u8], other: &str) -> bool
    ensures { result ≡ str_eq_ignore_ascii_case text.now other.now }
{
    text.eq_ignore_ascii_case(other.as_bytes())
}
