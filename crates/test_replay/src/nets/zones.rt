//! Special-use zones.

use crate::notation::BAD_LINE;
use dns_names_wire::error::ProtoResult;
use dns_names_wire::name::Name;
use dns_names_wire::usage;
use dns_names_wire::usage::ZoneUsage;
use std::alloc::Global;

/// Returns the name and the usages of a zone, or the name alone if the function returns no more.
pub(crate) fn zone(alloc: Global, zone: &str) -> ProtoResult<String> {
    match zone {
        "in_addr_arpa" => usage::in_addr_arpa(alloc)?.to_ascii(alloc),
        "ip6_arpa" => usage::ip6_arpa(alloc)?.to_ascii(alloc),
        _ => shown(alloc, &named(alloc, zone)?),
    }
}

/// Returns the name and the usages of `x.` as a zone of this kind.
pub(crate) fn made(alloc: Global, kind: &str) -> ProtoResult<String> {
    let name = Name::from_ascii(alloc, "x.")?;
    let zone = match kind {
        "reverse" => ZoneUsage::reverse(name),
        "test" => ZoneUsage::test(name),
        "localhost" => ZoneUsage::localhost(name),
        "local" => ZoneUsage::local(name),
        "invalid" => ZoneUsage::invalid(name),
        "example" => ZoneUsage::example(name),
        "default" => ZoneUsage::default(alloc),
        _ => return Err(BAD_LINE),
    };
    shown(alloc, &zone)
}

/// Returns whether a name is in a zone, or is the zone's name.
pub(crate) fn compared(alloc: Global, zone: &str, name: &Name, kind: &str) -> ProtoResult<String> {
    let zone = named(alloc, zone)?;
    let is_so = match kind {
        "zone-has" => zone.zone_of(name),
        _ => zone.name() == name,
    };
    Ok(format!(in alloc; "{is_so}")?)
}

fn named(alloc: Global, zone: &str) -> ProtoResult<ZoneUsage> {
    match zone {
        "default" => usage::default(alloc),
        "localhost" => usage::localhost(alloc),
        "in_addr_arpa_127" => usage::in_addr_arpa_127(alloc),
        "ip6_arpa_1" => usage::ip6_arpa_1(alloc),
        "local" => usage::local(alloc),
        "in_addr_arpa_169_254" => usage::in_addr_arpa_169_254(alloc),
        "ip6_arpa_fe_8" => usage::ip6_arpa_fe_8(alloc),
        "ip6_arpa_fe_9" => usage::ip6_arpa_fe_9(alloc),
        "ip6_arpa_fe_b" => usage::ip6_arpa_fe_b(alloc),
        "invalid" => usage::invalid(alloc),
        "onion" => usage::onion(alloc),
        _ => Err(BAD_LINE),
    }
}

fn shown(alloc: Global, zone: &ZoneUsage) -> ProtoResult<String> {
    let name = zone.name().to_ascii(alloc)?;
    Ok(format!(in alloc;
        "{name} {:?} {:?} {:?} {:?} {:?} {:?} {:?}",
        zone.user(),
        zone.app(),
        zone.resolver(),
        zone.cache(),
        zone.auth(),
        zone.op(),
        zone.registry()
    )?)
}
