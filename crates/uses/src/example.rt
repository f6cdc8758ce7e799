//! The example of the README.

use dns_names_wire::{BinDecoder, BinEncodable, DecodeError, Name, NameRef, ProtoResult};
use std::alloc::Global;

/// Returns the name at the cursor of a message as text. If there is none, the cursor is unchanged.
pub fn name_text(alloc: Global, decoder: &mut BinDecoder<'_>) -> ProtoResult<String> {
    let name = Name::read(alloc, decoder)?;
    name.to_ascii(alloc)
}

/// Returns `true` if the name at the cursor is in a zone. It does not copy the name.
pub fn is_in_zone(decoder: &mut BinDecoder<'_>, zone: &Name) -> Result<bool, DecodeError> {
    Ok(NameRef::read(decoder)?.is_in(zone))
}

/// Returns the octets of a host's name in a zone.
pub fn host(alloc: Global, zone: &Name, label: &str) -> ProtoResult<Vec<u8>> {
    let name = Name::new(alloc)
        .append_label(alloc, label)?
        .append_domain(zone)?;
    name.to_bytes(alloc)
}
