//! Addresses: IPv4 as four decimal numbers (RFC 1035, section 3.4.1), IPv6 as in RFC 4291, section 2.2.
//!
//! An address is printed as std prints it, by `Display`; IPv6 as RFC 5952 has it.
ghost use Rattle.std.specs.Net.Grammar.{IsIpv4Text, IsIpv6Text};
ghost use Rattle.dnw_zone_values.specs.Spelling.{ReadsText};
ghost use Rattle.dnw_zone_values.specs.declared.error.FieldTextError.TheVariants.{Ipv4, Ipv6};

use crate::error::FieldTextError;
use std::net::{Ipv4Addr, Ipv6Addr};

/// Parses an IPv4 address: four decimal numbers up to 255 without leading zeros, and dots between them.
///
/// Fails with `Ipv4` if the text is something else.
pub fn parse_ipv4(text: &str) -> Result<Ipv4Addr, FieldTextError>
    ensures { ReadsText Ipv4 (IsIpv4Text text.now) result }
{
    text.parse().map_err(|_| FieldTextError::Ipv4)
}

/// Parses an IPv6 address: groups of one to four hexadecimal digits in either case, with `::` at most once, and perhaps
/// an IPv4 address in place of the last two groups.
///
/// Fails with `Ipv6` if the text is something else.
pub fn parse_ipv6(text: &str) -> Result<Ipv6Addr, FieldTextError>
    ensures { ReadsText Ipv6 (IsIpv6Text text.now) result }
{
    text.parse().map_err(|_| FieldTextError::Ipv6)
}
