//! Records as text.
ghost use Rattle.std.specs.Prelude.{◌≤◌, length, IfOk, IfErr};
ghost use Rattle.dnw_c_base.specs.Offsets.{at_offset};
ghost use Rattle.dnw_c_base.specs.Results.{Returns};
ghost use Rattle.dnw_record.specs.Records.{FailsRecord, RecordAt};
ghost use Rattle.dnw_c_zone.specs.PrintCalls.{HasNoRecordAt, PutsRecordLine};

use dnw_base::decoder::BinDecoder;
use dnw_base::error::DecodeError;
use dnw_c_base::buffer::put;
use dnw_c_base::failure::Failure;
use dnw_c_base::results::report;
use dnw_record::record_ref::RecordRef;
use dnw_zone_record::record_line::record_text;
use std::alloc::Global;

/// A record that was printed: the number of bytes that were put, and the offset after the record.
#[repr(C)]
#[derive(Clone, Copy)]
pub struct PrintedRecord {
    pub len: usize,
    pub end: usize,
}

/// Puts the record at an offset of a message as one line of a master file.
#[unsafe(no_mangle)]
pub extern "C" fn dnw_record_print(
    alloc: Global,
    message: &[u8],
    start: usize,
    text: &mut [u8],
    printed: &mut PrintedRecord,
) -> u32
    ensures { Returns (PutsRecordLine message.now start text.old text.new) printed.old printed.new result }
{
    report(print(alloc, message, start, text), printed)
}

/// Puts the record at an offset as a line.
fn print(
    alloc: Global,
    message: &[u8],
    start: usize,
    text: &mut [u8],
) -> Result<PrintedRecord, Failure>
    ensures { PutsRecordLine message.now start text.old text.new result }
{
    let (item, end) = record_at(message, start)?;
    let line = record_text(alloc, &item)?;
    let len = put(text, line.as_bytes())?;
    Ok(PrintedRecord { len, end })
}

/// Returns the record at an offset, and the offset after it.
pub(crate) fn record_at(message: &[u8], start: usize) -> Result<(RecordRef<'_>, usize), Failure>
    ensures ok { IfOk result (λ r. RecordAt message.now start r.0 r.1) }
    ensures err { IfErr result (HasNoRecordAt message.now start) }
{
    if message.len() < start {
        return Err(Failure::MessageCut);
    }
    Ok(read_at(message, start)?)
}

/// Reads the record at an offset that is not past the message.
fn read_at(message: &[u8], start: usize) -> Result<(RecordRef<'_>, usize), DecodeError>
    requires { start ≤ length message.now }
    ensures ok { IfOk result (λ r. RecordAt message.now start r.0 r.1) }
    ensures err { IfErr result (FailsRecord (at_offset message.now start)) }
{
    let mut reader = BinDecoder::new(message);
    reader.skip(start).unwrap();
    let record = RecordRef::read_next(&mut reader)?;
    Ok((record, reader.index()))
}
