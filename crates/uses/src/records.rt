//! Writes as many records into a message as fit.
ghost use Rattle.std.specs.Prelude.{◌≡◌, Ok, take, OnOk, OnErr};
ghost use Rattle.dns_names_wire.specs.Words.{EmitsRecord, InTurn, value, lender};
ghost use Rattle.uses.specs.Records.{HoldsFirst, IsReady};

use dns_names_wire::encoder::laws;
use dns_names_wire::record::laws as record_laws;
use dns_names_wire::{BinEncodable, BinEncoder, ProtoResult, WireRecord};
use std::alloc::Global;

/// Returns a message of at most `max` bytes that has the first of the records, as many as fit, and their number. It is as if
/// the others had not been there: one that does not fit leaves nothing.
pub fn write_records(alloc: Global, max: u16, records: &[WireRecord]) -> (Vec<u8>, usize)
    ensures { HoldsFirst max records.now result.1 result.0.items }
{
    laws::candidates_precede();
    let mut message = Vec::new(alloc);
    let mut encoder = BinEncoder::new(&mut message);
    encoder.set_max_size(max);
    let count = write_first(&mut encoder, records);
    drop(encoder);
    (message, count)
}

/// Writes the records up to the first that does not fit, and returns their number.
fn write_first(encoder: &mut BinEncoder<'_>, records: &[WireRecord]) -> usize
    requires { IsReady (value encoder.old) }
    ensures written { InTurn EmitsRecord (value encoder.old) (take result records.now) (value encoder.new) }
    ensures lender { lender encoder.new ≡ lender encoder.old }
{
    let mut count = 0;
    'records: while count < records.len() {
        if let Err(_) = write_whole(encoder, &records[count]) {
            break;
        }
        count += 1;
    }
    count
}

/// Writes a record, or fails and leaves the encoder unchanged.
fn write_whole(encoder: &mut BinEncoder<'_>, item: &WireRecord) -> ProtoResult<()>
    requires { IsReady (value encoder.old) }
    ensures written { OnOk result (EmitsRecord item.now (value encoder.old) (Ok tt) (value encoder.new)) }
    ensures unchanged { OnErr result (value encoder.new ≡ value encoder.old) }
    ensures ready { IsReady (value encoder.new) }
    ensures lender { lender encoder.new ≡ lender encoder.old }
{
    record_laws::refused_records_undo();
    record_laws::candidates_precede();
    item.emit(encoder)
}
