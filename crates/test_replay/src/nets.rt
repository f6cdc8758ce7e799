//! Reverse names, nets and special-use zones:
//!
//! - `ip ADDRESS`: the text of the address's reverse name. `moves` follows if another way to the name gives another one, or
//!   if the name is not read as the address with all of its bits.
//! - `arpa NAME`: the net that the name stands for, as `ADDRESS/BITS`, or `!` and the text of the error.
//! - `arpa-error NAME`: the Debug text of the error, or the net.
//! - `net ADDRESS BITS`: the net, or `!` and the text of the error.
//! - `zone ZONE`, `zone-made KIND`: a zone's name and its seven usages, of a function or a constructor of `usage`.
//! - `zone-has ZONE ADDRESS`: `true` if the address's reverse name is in the zone.
//! - `zone-is ZONE ADDRESS`: `true` if the address's reverse name is the zone's name.
//! - `to-ip TEXT`: the address that a text writes, or `none`.
//! - `into KIND TEXT`: the text of the name that `IntoName` makes of the text, as a `str`, `string`, `string-ref`, `name`,
//!   `lower` or `lower-ref`, or `!` and the text of the error.

mod notation;
mod zones;

use crate::notation::{BAD_LINE, first_word, number};
use dns_names_wire::error::ProtoResult;
use dns_names_wire::into_name::IntoName;
use dns_names_wire::lower_name::LowerName;
use dns_names_wire::name::Name;
use dns_names_wire::net::IpNet;
use std::alloc::Global;
use std::net::IpAddr;

/// Returns the answer to a request about reverse names, nets or zones.
pub(crate) fn answer(alloc: Global, kind: &str, rest: &str) -> ProtoResult<String> {
    match kind {
        "ip" => reverse_name(alloc, address_of(rest)?),
        "arpa" => net_text(alloc, notation::name_of(alloc, rest)?.parse_arpa_name()),
        "arpa-error" => match notation::name_of(alloc, rest)?.parse_arpa_name() {
            Ok(net) => Ok(format!(in alloc; "{net}")?),
            Err(error) => Ok(format!(in alloc; "{error:?}")?),
        },
        "net" => {
            let (address, bits) = first_word(rest)?;
            net_text(alloc, IpNet::new(address_of(address)?, number(bits)?))
        }
        "zone" => zones::zone(alloc, rest),
        "zone-made" => zones::made(alloc, rest),
        "zone-has" | "zone-is" => {
            let (zone, address) = first_word(rest)?;
            let name = Name::from_ip(alloc, address_of(address)?)?;
            zones::compared(alloc, zone, &name, kind)
        }
        "to-ip" => match rest.to_ip() {
            Some(address) => Ok(format!(in alloc; "{address}")?),
            None => Ok(String::from_str(alloc, "none")?),
        },
        "into" => {
            let (kind, text) = first_word(rest)?;
            name_text(alloc, made_into(alloc, kind, text))
        }
        _ => Err(BAD_LINE),
    }
}

fn reverse_name(alloc: Global, address: IpAddr) -> ProtoResult<String> {
    let name = Name::from_ip(alloc, address)?;
    let direct = match address {
        IpAddr::V4(address) => Name::from_ipv4(alloc, address)?,
        IpAddr::V6(address) => Name::from_ipv6(alloc, address)?,
    };
    let by_trait = address.into_name(alloc)?;
    let own = match address {
        IpAddr::V4(address) => address.into_name(alloc)?,
        IpAddr::V6(address) => address.into_name(alloc)?,
    };
    let net = name.parse_arpa_name()?;
    let bits = match address {
        IpAddr::V4(_) => 32,
        IpAddr::V6(_) => 128,
    };
    let mut text = name.to_ascii(alloc)?;
    let read = Name::from_ascii(alloc, text.as_str())?;
    let is_same = name.eq_case(&direct)
        && name.eq_case(&by_trait)
        && name.eq_case(&own)
        && name.eq_case(&read)
        && net == IpNet::new(address, bits)?
        && net.addr() == address
        && net.prefix_len() == bits;
    if !is_same {
        text.push_str(" moves")?;
    }
    Ok(text)
}

fn net_text(alloc: Global, net: ProtoResult<IpNet>) -> ProtoResult<String> {
    match net {
        Ok(net) => Ok(format!(in alloc; "{net}")?),
        Err(error) => Ok(format!(in alloc; "!{error}")?),
    }
}

fn name_text(alloc: Global, name: ProtoResult<Name>) -> ProtoResult<String> {
    match name {
        Ok(name) => name.to_ascii(alloc),
        Err(error) => Ok(format!(in alloc; "!{error}")?),
    }
}

fn made_into(alloc: Global, kind: &str, text: &str) -> ProtoResult<Name> {
    match kind {
        "str" => text.into_name(alloc),
        "string" => String::from_str(alloc, text)?.into_name(alloc),
        "string-ref" => {
            let text = String::from_str(alloc, text)?;
            (&text).into_name(alloc)
        }
        "name" => Name::from_ascii(alloc, text)?.into_name(alloc),
        "lower" => IntoName::into_name(LowerName::from_str(alloc, text)?, alloc),
        "lower-ref" => {
            let name = LowerName::from_str(alloc, text)?;
            IntoName::into_name(&name, alloc)
        }
        _ => Err(BAD_LINE),
    }
}

fn address_of(text: &str) -> ProtoResult<IpAddr> {
    text.parse::<IpAddr>().map_err(|_| BAD_LINE)
}
