//! Records of a message.
ghost use Rattle.std.specs.Prelude.{◌≡◌, ◌≤◌, ℕ, List, length, IfOk, IfErr};
ghost use Rattle.dnw_name_read.specs.Reading.{NameAt};
ghost use Rattle.dnw_record.specs.OwnedRecords.{IsCopyOf};
ghost use Rattle.dnw_record.specs.Records.{FailsRecord};
ghost use Rattle.dnw_c_signed.specs.RecordCalls.{AreLimitedRecords, FailsRecordAt, FailsToCopyRecord, FailsToRead, HasRecordAt};
ghost use Rattle.dnw_c_signed.specs.Inside.Held.{records_held};
ghost use Rattle.dnw_c_signed.specs.RecordCalls.{IsNoNextRecord, TakesNextRecord, at_offset, of_rdata};

use dnw_base::decoder::BinDecoder;
use dnw_base::error::DecodeError;
use dnw_base::limits::MAX_POINTERS;
use dnw_c_base::failure::{Failure, of_decode};
use dnw_name::name_ref::NameRef;
use dnw_name_read::walk::ReadSteps;
use dnw_record::rdata::RDataError;
use dnw_record::record::Record;
use dnw_record::record_ref::{FIXED_SIZE, RecordRef};
use std::alloc::Global;
use std::slice;

// What returns records is inlined, since LLVM takes a large result that is returned through memory apart, octet by octet.

/// Records, in turn. One alone is held without an allocation.
#[derive(Drop)]
pub(crate) enum Records<'r> {
    One(RecordRef<'r>),
    More(Vec<RecordRef<'r>>),
}

impl<'r> Records<'r> {
    /// Returns the records, in turn.
    #[inline(always)]
    pub(crate) fn as_slice(&self) -> &[RecordRef<'r>]
        ensures { result.now ≡ records_held self.now }
    {
        match self {
            Records::One(one) => slice::from_ref(one),
            Records::More(list) => list.as_slice(),
        }
    }
}

/// Returns the records from an offset up to the end of the octets. Their owners may follow 65,536 pointers in all.
#[inline(always)]
pub(crate) fn records_from(
    alloc: Global,
    message: &[u8],
    start: usize,
) -> Result<Records<'_>, Failure>
    ensures ok { IfOk result (λ records. AreLimitedRecords message.now start (records_held records)) }
    ensures err { IfErr result (FailsToRead message.now start) }
{
    if message.len() < start {
        return Err(Failure::MessageCut);
    }
    let mut reader = BinDecoder::new(message);
    reader.skip(start).unwrap();
    let mut left = MAX_POINTERS;
    let mut records = Vec::new(alloc);
    'records: while !reader.is_empty() {
        let item = next_record(&mut reader, &mut left)?;
        if records.is_empty() && reader.is_empty() {
            return Ok(Records::One(item));
        }
        records.push(item)?;
    }
    Ok(Records::More(records))
}

/// Reads the record at the cursor. The pointers of its owner are taken from those that are `left`.
#[inline(always)]
pub(crate) fn next_record<'r>(
    reader: &mut BinDecoder<'r>,
    left: &mut usize,
) -> Result<RecordRef<'r>, Failure>
    ensures ok { IfOk result (λ r. TakesNextRecord reader.old left.old r reader.new left.new) }
    ensures err { IfErr result (IsNoNextRecord reader.old left.old) }
{
    let message = reader.message();
    let start = reader.index();
    let item = RecordRef::read_next(reader)?;
    let followed = owner_pointers(message, start, &item)?;
    if followed > *left {
        return Err(Failure::TooManyPointers);
    }
    *left -= followed;
    Ok(item)
}

/// Returns how many pointers the owner of the record at an offset follows. An owner that takes as many octets there as its wire form
/// does is not read again.
fn owner_pointers(message: &[u8], start: usize, item: &RecordRef<'_>) -> Result<usize, DecodeError>
    requires within { start ≤ length message.now }
    requires there { HasRecordAt message.now start item.now }
    ensures ok { IfOk result (λ k. (labels : List (List ℕ)) × (end : ℕ) × NameAt message.now start labels end k) }
    ensures err { IfErr result (FailsRecord (at_offset message.now start)) }
{
    if item.rdata_offset() == start + item.owner().encoded_len() + FIXED_SIZE {
        return Ok(0);
    }
    let mut steps = ReadSteps::default();
    let mut reader = BinDecoder::new(message);
    reader.skip(start).unwrap();
    NameRef::read_counted(&mut reader, &mut steps)?;
    Ok(steps.pointers)
}

/// Returns the record at an offset.
#[inline(always)]
pub(crate) fn record_at(message: &[u8], start: usize) -> Result<RecordRef<'_>, Failure>
    ensures ok { IfOk result (HasRecordAt message.now start) }
    ensures err { IfErr result (FailsRecordAt message.now start) }
{
    if message.len() < start {
        return Err(Failure::MessageCut);
    }
    Ok(read_at(message, start)?)
}

/// Reads the record at an offset that is not past the octets.
#[inline(always)]
fn read_at(message: &[u8], start: usize) -> Result<RecordRef<'_>, DecodeError>
    requires { start ≤ length message.now }
    ensures ok { IfOk result (HasRecordAt message.now start) }
    ensures err { IfErr result (FailsRecord (at_offset message.now start)) }
{
    let mut reader = BinDecoder::new(message);
    reader.skip(start).unwrap();
    RecordRef::read_next(&mut reader)
}

/// Returns a copy of a record, in which every name has its wire form.
pub(crate) fn copy_of(alloc: Global, item: &RecordRef<'_>) -> Result<Record, Failure>
    ensures ok { IfOk result (IsCopyOf item.now) }
    ensures err { IfErr result (FailsToCopyRecord item.now) }
{
    match Record::from_ref(alloc, item) {
        Ok(record) => Ok(record),
        Err(error) => Err(of_rdata(&error)),
    }
}

/// Returns the failure that stands for why the data of a record are not copied.
pub(crate) fn of_rdata(error: &RDataError) -> Failure
    ensures { result ≡ of_rdata error.now }
{
    match error {
        RDataError::Field(error) => of_decode(&error.cause),
        RDataError::Memory => Failure::NoMemory,
    }
}
