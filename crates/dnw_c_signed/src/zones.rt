//! The digest of a zone.
ghost use Rattle.std.specs.Prelude.{◌≡◌, [], ◌∷◌, ◌++◌, ℕ, Some, IfOk, IfErr, OnOk};
ghost use Rattle.dnw_record.specs.Records.{RecordValue};
ghost use Rattle.dnw_record.specs.OwnedRecords.{IsCopyOf};
ghost use Rattle.dnw_record.specs.declared.record.Record.{Record};
ghost use Rattle.dnw_record.specs.DataPointers.{TakesDataPointers};
ghost use Rattle.dnw_c_base.specs.Results.{Returns};
ghost use Rattle.dnw_c_signed.specs.RecordCalls.{TakesNextRecord};
ghost use Rattle.dnw_c_signed.specs.ZoneCalls.{AreLimitedCopies, FailsToCopyAll, FailsToCopyNext, FailsToCopyTaken, FailsToDigestZone};
ghost use Rattle.dnw_c_signed.specs.ZoneCalls.{HasZoneDigest, PutsZoneDigest};

use crate::records::{copy_of, next_record};
use crate::sums::{name_of, of_dnssec};
use dnw_base::decoder::BinDecoder;
use dnw_base::limits::MAX_POINTERS;
use dnw_c_base::buffer::put;
use dnw_c_base::failure::Failure;
use dnw_c_base::results::report;
use dnw_record::pointers::pointers_left;
use dnw_record::record::Record;
use dnw_record::record_ref::RecordRef;
use dnw_signed::ds::Digest;
use dnw_signed::zone_digest::zone_digest;
use std::alloc::Global;

/// Puts the digest of a zone, whose records are these octets, one after another. Their owners and the names in their data may follow
/// 65,536 pointers in all.
#[unsafe(no_mangle)]
pub extern "C" fn dnw_zone_digest(
    alloc: Global,
    apex: &[u8],
    records: &[u8],
    algorithm: u8,
    digest: &mut [u8],
    len: &mut usize,
) -> u32
    ensures { Returns (PutsZoneDigest apex.now records.now algorithm digest.old digest.new) len.old len.new result }
{
    report(put_zone(alloc, apex, records, algorithm, digest), len)
}

/// Puts the digest of a zone, and returns its length.
fn put_zone(
    alloc: Global,
    apex: &[u8],
    records: &[u8],
    algorithm: u8,
    digest: &mut [u8],
) -> Result<usize, Failure>
    ensures { PutsZoneDigest apex.now records.now algorithm digest.old digest.new result }
{
    let own = digest_of(alloc, apex, records, algorithm)?;
    put(digest, own.as_slice())
}

/// Returns the digest of a zone.
fn digest_of(alloc: Global, apex: &[u8], records: &[u8], algorithm: u8) -> Result<Digest, Failure>
    ensures ok { IfOk result (λ own. HasZoneDigest apex.now records.now algorithm own.items) }
    ensures err { IfErr result (FailsToDigestZone apex.now records.now algorithm) }
{
    let apex = match name_of(alloc, apex) {
        Ok(apex) => apex,
        Err(failure) => return Err(failure),
    };
    let copies = copies_of(alloc, records)?;
    match zone_digest(alloc, &apex, copies.as_slice(), algorithm) {
        Ok(own) => Ok(own),
        Err(error) => Err(of_dnssec(&error)),
    }
}

/// Returns copies of all records of these octets.
fn copies_of(alloc: Global, records: &[u8]) -> Result<Vec<Record>, Failure>
    ensures ok { IfOk result (λ copies. AreLimitedCopies records.now copies.items) }
    ensures err { IfErr result (FailsToCopyAll records.now) }
{
    let mut reader = BinDecoder::new(records);
    let mut left = MAX_POINTERS;
    let mut copies = Vec::new(alloc);
    'records: while !reader.is_empty() {
        copy_next(alloc, &mut reader, &mut left, &mut copies)?;
    }
    Ok(copies)
}

/// Appends a copy of the record at the cursor. The pointers of its names are taken from those that are `left`.
fn copy_next(
    alloc: Global,
    reader: &mut BinDecoder<'_>,
    left: &mut usize,
    copies: &mut Vec<Record>,
) -> Result<(), Failure>
    ensures ok { OnOk result ((r : RecordValue) × (copy : Record) × (middle : ℕ) × TakesNextRecord reader.old left.old r reader.new middle
        × TakesDataPointers r middle (Some left.new) × IsCopyOf r copy × (copies.new.items ≡ copies.old.items ++ copy ∷ [])) }
    ensures err { IfErr result (FailsToCopyNext reader.old left.old) }
{
    let item = match next_record(reader, left) {
        Ok(item) => item,
        Err(failure) => return Err(failure),
    };
    let copy = match copy_within(alloc, &item, left) {
        Ok(copy) => copy,
        Err(failure) => return Err(failure),
    };
    if copies.push(copy).is_err() {
        return Err(Failure::NoMemory);
    }
    Ok(())
}

/// Returns a copy of a record. The pointers of the names in its data are taken from those that are `left`.
fn copy_within(alloc: Global, item: &RecordRef<'_>, left: &mut usize) -> Result<Record, Failure>
    ensures ok { IfOk result (λ copy. TakesDataPointers item.now left.old (Some left.new) × IsCopyOf item.now copy) }
    ensures err { IfErr result (FailsToCopyTaken item.now left.old) }
{
    let Some(rest) = pointers_left(item, *left) else {
        return Err(Failure::TooManyPointers);
    };
    *left = rest;
    match copy_of(alloc, item) {
        Ok(copy) => Ok(copy),
        Err(failure) => Err(failure),
    }
}
