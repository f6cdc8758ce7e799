//! Asks the bitmap of an NSEC record for a type.
ghost use Rattle.std.specs.Prelude.{◌↔◌, IsTrue, IfOk};
ghost use Rattle.dns_names_wire.specs.Words.{next_bytes};
ghost use Rattle.uses.specs.Bitmaps.{IsListed};

use dns_names_wire::record_data::RecordDataDecodable;
use dns_names_wire::record_type_set::bitmaps_list_bits;
use dns_names_wire::{BinDecoder, DecodeError, RecordType, RecordTypeSet, Restrict};
use std::alloc::Global;

/// Returns `true` if the bitmap at the cursor lists a type, as the one of an NSEC record does if its owner has records of the
/// type (RFC 4034, section 4.1.2). The bitmap has so many octets.
pub fn lists_type(
    alloc: Global,
    decoder: &mut BinDecoder<'_>,
    length: Restrict<u16>,
    record_type: RecordType,
) -> Result<bool, DecodeError>
    ensures { IfOk result (λ listed. IsTrue listed ↔ IsListed (next_bytes decoder.old length) record_type) }
{
    bitmaps_list_bits();
    let set = RecordTypeSet::read_data(alloc, decoder, length)?;
    Ok(set.contains(record_type))
}
