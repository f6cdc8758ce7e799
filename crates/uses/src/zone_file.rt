//! Reads and writes zone files, and concludes what their records are.
ghost use Rattle.std.specs.Prelude.{◌≤◌, ◌≡◌, ◌⊎◌, ℕ, List, length, IfOk, IfErr, OnOk};
ghost use Rattle.dns_names_wire.specs.Words.{AppendsShort, AppendsTtl, Context, FailsRecord, FailsZoneText, IsZoneText, OwnedRecord, max_zone_ttl};
ghost use Rattle.uses.specs.ZoneFiles.{IsFileOf, of_type};

use dns_names_wire::binary::BinDecodable;
use dns_names_wire::record::RecordRef;
use dns_names_wire::zone::{
    Context, OwnedRecord, ZoneTextError, append_short_record, append_ttl, laws, read_records,
};
use dns_names_wire::{DecodeError, Name, RecordType};
use std::alloc::{AllocError, Global};

/// Returns the number of records of a type that a zone file has.
pub fn count_of(
    alloc: Global,
    origin: Name,
    text: &[u8],
    record_type: RecordType,
) -> Result<usize, ZoneTextError>
    ensures ok { IfOk result (λ count. (records : List OwnedRecord) × IsZoneText origin text.now records
        × (count ≡ length (of_type record_type records))) }
    ensures err { IfErr result (FailsZoneText origin text.now) }
{
    let records = read_records(alloc, origin, text)?;
    Ok(count_in(records.as_slice(), record_type))
}

/// Returns the number of records of a type.
fn count_in(records: &[OwnedRecord], record_type: RecordType) -> usize
    ensures { result ≡ length (of_type record_type records.now) }
{
    let mut count = 0;
    for found in records {
        if found.body.record_type.code() == record_type.code() {
            count += 1;
        }
    }
    count
}

/// Returns a zone file of the record that is at the start of these octets, after a `$TTL`. If the record's data are those of its class
/// and type, and those of a zone, this record is all that the file says.
pub fn write_file(
    alloc: Global,
    origin: &Name,
    ttl: u32,
    octets: &[u8],
) -> Result<Vec<u8>, DecodeError>
    requires { ttl ≤ max_zone_ttl }
    ensures ok { IfOk result (λ text. IsFileOf origin.now octets.now text.items) }
    ensures err { IfErr result (λ e. FailsRecord (record { bytes = octets.now; index = 0 }) e ⊎ (e ≡ DecodeError.Memory)) }
{
    laws::written_texts_are_records();
    let item = RecordRef::from_bytes(alloc, octets)?;
    let mut context = Context::new(origin.copied());
    let mut text = Vec::new(alloc);
    put_lines(alloc, &mut context, ttl, &item, &mut text)?;
    Ok(text)
}

/// Appends a `$TTL` and a record.
fn put_lines(
    alloc: Global,
    context: &mut Context,
    ttl: u32,
    item: &RecordRef<'_>,
    text: &mut Vec<u8>,
) -> Result<(), AllocError>
    ensures { OnOk result ((between : Context) × (first : List ℕ) × AppendsTtl context.old ttl text.old.items first between
        × AppendsShort between item.now first text.new.items context.new) }
{
    append_ttl(alloc, context, ttl, text)?;
    append_short_record(alloc, context, item, text)?;
    Ok(())
}
