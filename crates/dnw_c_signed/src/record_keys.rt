//! Sort keys of records.
ghost use Rattle.std.specs.Prelude.{IfOk, IfErr};
ghost use Rattle.dnw_c_base.specs.Results.{Returns};
ghost use Rattle.dnw_c_signed.specs.RecordKeyCalls.{FailsToKeyAt, IsRecordKeyAt, PutsRecordKey};

use crate::records::{of_rdata, record_at};
use dnw_c_base::buffer::put;
use dnw_c_base::failure::Failure;
use dnw_c_base::results::report;
use dnw_signed::record_key::record_key;
use std::alloc::Global;

/// Puts the sort key of the record at an offset.
#[unsafe(no_mangle)]
pub extern "C" fn dnw_record_sort_key(
    alloc: Global,
    message: &[u8],
    start: usize,
    key: &mut [u8],
    len: &mut usize,
) -> u32
    ensures { Returns (PutsRecordKey message.now start key.old key.new) len.old len.new result }
{
    report(put_key(alloc, message, start, key), len)
}

/// Puts the sort key of a record, and returns the number of octets.
fn put_key(alloc: Global, message: &[u8], start: usize, key: &mut [u8]) -> Result<usize, Failure>
    ensures { PutsRecordKey message.now start key.old key.new result }
{
    let own = key_at(alloc, message, start)?;
    put(key, own.as_slice())
}

/// Returns the sort key of the record at an offset.
fn key_at(alloc: Global, message: &[u8], start: usize) -> Result<Vec<u8>, Failure>
    ensures ok { IfOk result (λ own. IsRecordKeyAt message.now start own.items) }
    ensures err { IfErr result (FailsToKeyAt message.now start) }
{
    let item = record_at(message, start)?;
    match record_key(alloc, &item) {
        Ok(own) => Ok(own),
        Err(error) => Err(of_rdata(&error)),
    }
}
