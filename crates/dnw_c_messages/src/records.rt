//! The records of messages.
ghost use Rattle.std.specs.Prelude.{◌≡◌, IfOk, IfErr};
ghost use Rattle.dnw_base.specs.declared.error.DecodeError.{DecodeError};
ghost use Rattle.dnw_record.specs.Records.{FailsRecord, HasRest, RecordAt};
ghost use Rattle.dnw_c_base.specs.Offsets.{at_offset};
ghost use Rattle.dnw_c_base.specs.Results.{Returns};
ghost use Rattle.dnw_record.specs.DataCopies.{Copies, data_start, record_kinds};
ghost use Rattle.dnw_c_messages.specs.RecordCalls.{HasNoData, PutsWholeData, PutsDataName, ReadsRecord, failure_of_rdata};
ghost use Rattle.dnw_c_messages.specs.Inside.RecordRests.{rest_at};

use dnw_base::decoder::BinDecoder;
use dnw_base::error::DecodeError;
use dnw_base::limits::MAX_MESSAGE;
use dnw_c_base::buffer::put;
use dnw_c_base::failure::{Failure, of_decode};
use dnw_c_base::names::{name_ref_at, put_name};
use dnw_c_base::results::report;
use dnw_name::binary::BinDecodable;
use dnw_name::name_ref::NameRef;
use dnw_record::rdata::{RData, RDataError};
use dnw_record::record_ref::{FIXED_SIZE, RecordRef};
use std::alloc::Global;

/// A record that was read: the number of bytes of its owner that were put, its type, class and time to live, the offset and
/// the number of octets of its data, and the offset after it.
#[repr(C)]
#[derive(Clone, Copy)]
pub struct ReadRecord {
    pub owner_len: usize,
    pub record_type: u16,
    pub record_class: u16,
    pub ttl: u32,
    pub data_offset: usize,
    pub data_len: usize,
    pub end: usize,
}

/// Reads the record at an offset of a message, and puts its owner's wire form. It does not allocate.
#[unsafe(no_mangle)]
pub extern "C" fn dnw_record_read(
    message: &[u8],
    start: usize,
    owner: &mut [u8],
    found: &mut ReadRecord,
) -> u32
    ensures { Returns (ReadsRecord message.now start owner.old owner.new) found.old found.new result }
{
    report(read(message, start, owner), found)
}

/// Reads the octets of a record's data, or the last ones of them, as a name, and puts its wire form and its length. It does
/// not allocate.
#[unsafe(no_mangle)]
pub extern "C" fn dnw_record_data_name(
    message: &[u8],
    data_offset: usize,
    data_len: usize,
    form: &mut [u8],
    len: &mut usize,
) -> u32
    ensures { Returns (PutsDataName message.now data_offset data_len form.old form.new) len.old len.new result }
{
    report(data_name(message, data_offset, data_len, form), len)
}

/// Puts the data of the record at an offset of a message with every name in its wire form, and their length, which is at most
/// 65,535.
#[unsafe(no_mangle)]
pub extern "C" fn dnw_record_data(
    alloc: Global,
    message: &[u8],
    start: usize,
    octets: &mut [u8],
    len: &mut usize,
) -> u32
    ensures { Returns (PutsWholeData message.now start octets.old octets.new) len.old len.new result }
{
    report(whole_data(alloc, message, start, octets), len)
}

/// Reads the record at an offset, and puts its owner's wire form.
#[inline(always)]
fn read(message: &[u8], start: usize, form: &mut [u8]) -> Result<ReadRecord, Failure>
    ensures { ReadsRecord message.now start form.old form.new result }
{
    let mut reader = BinDecoder::new(message);
    reader.skip(start)?;
    let owner = NameRef::read(&mut reader)?;
    let mut found = read_rest(&mut reader)?;
    found.owner_len = put_name(form, &owner)?;
    Ok(found)
}

/// Reads the fields of a record after its owner, and moves past the data. Returns what C learns, but of the owner.
#[inline(always)]
fn read_rest(reader: &mut BinDecoder<'_>) -> Result<ReadRecord, DecodeError>
    ensures ok { IfOk result (λ found. HasRest reader.old.bytes reader.old.index × (found ≡ rest_at reader.old.bytes reader.old.index)) }
    ensures err { IfErr result (λ e. (¬ (HasRest reader.old.bytes reader.old.index)) × (e ≡ DecodeError.InsufficientBytes)) }
{
    let fixed = reader.read_slice(FIXED_SIZE)?.unverified();
    let data_offset = reader.index();
    let data_len = u16::from_be_bytes([fixed[8], fixed[9]]) as usize;
    reader.skip(data_len)?;
    Ok(ReadRecord {
        owner_len: 0,
        record_type: u16::from_be_bytes([fixed[0], fixed[1]]),
        record_class: u16::from_be_bytes([fixed[2], fixed[3]]),
        ttl: u32::from_be_bytes([fixed[4], fixed[5], fixed[6], fixed[7]]),
        data_offset,
        data_len,
        end: reader.index(),
    })
}

/// Returns the record at an offset, and the offset after it.
fn record_at<'r>(
    alloc: Global,
    message: &'r [u8],
    start: usize,
) -> Result<(RecordRef<'r>, usize), DecodeError>
    ensures ok { IfOk result (λ r. RecordAt message.now start r.0 r.1) }
    ensures err { IfErr result (FailsRecord (at_offset message.now start)) }
{
    let mut decoder = BinDecoder::new(message);
    decoder.skip(start)?;
    let record = RecordRef::read(alloc, &mut decoder)?;
    Ok((record, decoder.index()))
}

/// Puts the name that so many octets from an offset on are, and returns its length.
fn data_name(
    message: &[u8],
    start: usize,
    data_len: usize,
    form: &mut [u8],
) -> Result<usize, Failure>
    ensures { PutsDataName message.now start data_len form.old form.new result }
{
    let (name, end) = name_ref_at(message, start)?;
    if end - start != data_len {
        return Err(Failure::WrongDataLength);
    }
    put_name(form, &name)
}

/// Puts the data of the record at an offset with every name in its wire form, and returns their length.
fn whole_data(
    alloc: Global,
    message: &[u8],
    start: usize,
    octets: &mut [u8],
) -> Result<usize, Failure>
    ensures { PutsWholeData message.now start octets.old octets.new result }
{
    let (record, _) = record_at(alloc, message, start)?;
    let data = copied(alloc, &record)?;
    if data.octets().len() > MAX_MESSAGE as usize {
        return Err(Failure::DataTooLong);
    }
    put(octets, data.octets())
}

/// Returns the data of a record with every name in its wire form.
fn copied(alloc: Global, item: &RecordRef<'_>) -> Result<RData, Failure>
    ensures ok { IfOk result (λ r. Copies (record_kinds item.now) (data_start item.now) r.octets) }
    ensures err { IfErr result (HasNoData item.now) }
{
    match RData::from_ref(alloc, item) {
        Ok(data) => Ok(data),
        Err(error) => Err(failure_of_rdata(&error)),
    }
}

/// Returns the failure that stands for why data are not copied.
fn failure_of_rdata(error: &RDataError) -> Failure
    ensures { result ≡ failure_of_rdata error.now }
{
    match error {
        RDataError::Field(field) => of_decode(&field.cause),
        RDataError::Memory => Failure::NoMemory,
    }
}
