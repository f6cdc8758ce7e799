//! Records that are kept one after another in wire form, each found by its number.
ghost use Rattle.std.specs.Prelude.{◌≡◌, ◌↔◌, ◌<◌, ◌≤◌, ◌^◌, ℕ, length, slice_index_or, IfOk, IfErr, IsTrue};
ghost use Rattle.dns_names_wire.specs.Words.{AreLabels, FailsRecord, RecordAt};
ghost use Rattle.ans_store.specs.Stored.{AreRecordsFrom, FailsToStore, FailsToTake, HasWholeOwner, IsTaken};

use crate::error::StoreError;
use dns_names_wire::limits::MAX_NAME;
use dns_names_wire::{BinDecoder, DecodeError, RecordRef};
use std::alloc::Global;
use std::marker::Model;

/// The most octets of the records of a store, so that an offset takes four octets.
pub(crate) const MAX_OCTETS: usize = 0xffff_ffff;

/// How many octets are between a record's owner and its data: type, class, time to live and length (RFC 1035, section 3.2.1).
const FIXED_SIZE: usize = 10;

/// Records that are kept one after another in wire form, their owners without a pointer. The octets are the caller's, and are not
/// copied; four octets a record are kept beside them.
///
/// A contract sees it as the list of the records.
#[derive(Drop)]
pub(crate) struct Records<'a> {
    octets: &'a [u8],
    offsets: Vec<u32>,
}

impl<'a> Model for Records<'a> {
    ghost use Rattle.std.specs.Prelude.{List, map};
    ghost use Rattle.dns_names_wire.specs.Words.{RecordValue};
    ghost use Rattle.ans_store.specs.Stored.{AreStoredAt, stored_record};

    ghost Value = { List RecordValue };

    ghost view = { λ s. map (stored_record s.octets.now) s.offsets.items };

    ghost invariant = { λ s. AreStoredAt s.octets.now s.offsets.items };
}

impl<'a> Records<'a> {
    /// Finds the records that these octets are, one after another.
    ///
    /// It fails with `TooLong` if there are more octets than `MAX_OCTETS`, with `NoRecord` if no record is read after those before,
    /// with `PointerInOwner` if the record's owner has a pointer, and with `Memory` if an allocation fails.
    pub(crate) fn read(alloc: Global, octets: &'a [u8]) -> Result<Self, StoreError>
        ensures ok { IfOk result (λ records. AreRecordsFrom octets.now 0 records (length octets.now)) }
        ensures err { IfErr result (FailsToStore octets.now) }
    {
        if octets.len() > MAX_OCTETS {
            return Err(StoreError::TooLong);
        }
        let mut offsets = Vec::new(alloc);
        let mut start = 0;
        'records: while start < octets.len() {
            let end = take_record(octets, start, offsets.len())?;
            if offsets.push(start as u32).is_err() {
                return Err(StoreError::Memory);
            }
            start = end;
        }
        Ok(Records { octets, offsets })
    }

    /// Returns the number of records.
    #[inline(always)]
    pub(crate) fn len(&self) -> usize
        ensures { result ≡ length self.now }
    {
        self.offsets.len()
    }

    /// Returns the record of this number, from 0.
    pub(crate) fn get(&self, number: usize) -> RecordRef<'a>
        requires { number < length self.now }
        ensures { result ≡ slice_index_or self.now number result }
    {
        let mut reader = reader_at(self.octets, self.offsets[number] as usize);
        RecordRef::read_next(&mut reader).unwrap()
    }
}

/// Returns the offset after the record at this one, which has this number.
fn take_record(octets: &[u8], start: usize, number: usize) -> Result<usize, StoreError>
    requires few { length octets.now < 2 ^ 32 }
    requires within { start < length octets.now }
    ensures ok { IfOk result (IsTaken octets.now start) }
    ensures err { IfErr result (FailsToTake octets.now start number) }
{
    let record = match record_at(octets, start) {
        Ok(record) => record,
        Err(_) => return Err(StoreError::NoRecord { number }),
    };
    if !has_whole_owner(octets, start, &record) {
        return Err(StoreError::PointerInOwner { number });
    }
    Ok(record.rdata_offset() + record.rdata().len())
}

/// Reads the record at an offset.
fn record_at(octets: &[u8], start: usize) -> Result<RecordRef<'_>, DecodeError>
    requires { start ≤ length octets.now }
    ensures ok { IfOk result (λ r. (e : ℕ) × RecordAt octets.now start r e) }
    ensures err { IfErr result (FailsRecord (record { bytes = octets.now; index = start })) }
{
    let mut reader = reader_at(octets, start);
    RecordRef::read_next(&mut reader)
}

/// Returns a decoder of these octets at an offset.
#[inline(always)]
fn reader_at(octets: &[u8], offset: usize) -> BinDecoder<'_>
    requires { offset ≤ length octets.now }
    ensures { result ≡ record { bytes = octets.now; index = offset } }
{
    let mut reader = BinDecoder::new(octets);
    reader.skip(offset).unwrap();
    reader
}

/// Returns `true` if the owner of the record at an offset has no pointer.
fn has_whole_owner(octets: &[u8], start: usize, record: &RecordRef<'_>) -> bool
    requires few { length octets.now < 2 ^ 32 }
    requires within { start < length octets.now }
    requires stands { (e : ℕ) × RecordAt octets.now start record.now e }
    ensures whole { IsTrue result ↔ HasWholeOwner octets.now start record.now }
    ensures labels { AreLabels record.now.owner }
{
    let owner = record.owner();
    let size = owner.encoded_len();
    if record.rdata_offset() != start + size + FIXED_SIZE {
        return false;
    }
    let mut room = [0; MAX_NAME];
    let Some(len) = owner.copy_wire(&mut room) else {
        return false;
    };
    octets[start..start + size] == room[..len]
}
