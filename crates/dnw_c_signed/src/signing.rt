//! The octets that a signature covers.
ghost use Rattle.std.specs.Prelude.{◌≡◌, IfOk, IfErr};
ghost use Rattle.dnw_c_base.specs.Results.{Returns};
ghost use Rattle.dnw_c_signed.specs.SigningCalls.{FailsToSignAt, IsSignedAt, PutsSigned, of_canonical};

use crate::records::{record_at, records_from};
use dnw_c_base::buffer::put;
use dnw_c_base::failure::{Failure, of_decode};
use dnw_c_base::results::report;
use dnw_signed::covering::signed_octets;
use dnw_signed::error::CanonicalError;
use std::alloc::Global;

/// Puts the octets that the signature of the RRSIG at an offset covers. The records are those from `start` up to the end of the
/// octets, one after another. Their owners may follow 65,536 pointers in all, and so may the names in the data of those that are
/// covered.
#[unsafe(no_mangle)]
pub extern "C" fn dnw_signed_octets(
    alloc: Global,
    message: &[u8],
    start: usize,
    rrsig: usize,
    octets: &mut [u8],
    len: &mut usize,
) -> u32
    ensures { Returns (PutsSigned message.now start rrsig octets.old octets.new) len.old len.new result }
{
    report(put_signed(alloc, message, start, rrsig, octets), len)
}

/// Puts what an RRSIG covers, and returns the number of octets.
fn put_signed(
    alloc: Global,
    message: &[u8],
    start: usize,
    rrsig: usize,
    octets: &mut [u8],
) -> Result<usize, Failure>
    ensures { PutsSigned message.now start rrsig octets.old octets.new result }
{
    let own = signed(alloc, message, start, rrsig)?;
    put(octets, own.as_slice())
}

/// Returns the octets that an RRSIG covers.
fn signed(alloc: Global, message: &[u8], start: usize, at: usize) -> Result<Vec<u8>, Failure>
    ensures ok { IfOk result (λ own. IsSignedAt message.now start at own.items) }
    ensures err { IfErr result (FailsToSignAt message.now start at) }
{
    let rrsig = record_at(message, at)?;
    let records = records_from(alloc, message, start)?;
    let mut own = Vec::new(alloc);
    match signed_octets(alloc, &rrsig, records.as_slice(), &mut own) {
        Ok(()) => Ok(own),
        Err(error) => Err(of_canonical(&error)),
    }
}

/// Returns the failure that stands for why there are no octets.
fn of_canonical(error: &CanonicalError) -> Failure
    ensures { result ≡ of_canonical error.now }
{
    match error {
        CanonicalError::NoRecords => Failure::NotCovered,
        CanonicalError::TooFewLabels => Failure::TooFewLabels,
        CanonicalError::NotInSet { record: _ } => Failure::Other,
        CanonicalError::DataTooLong { record: _ } => Failure::DataTooLong,
        CanonicalError::TooManyPointers { record: _ } => Failure::TooManyPointers,
        CanonicalError::NotRrsig => Failure::NotRrsig,
        CanonicalError::RrsigField(error) | CanonicalError::Field { record: _, error } => {
            of_decode(&error.cause)
        }
        CanonicalError::Memory => Failure::NoMemory,
    }
}
