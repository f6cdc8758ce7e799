//! Checks of zones.
ghost use Rattle.std.specs.Prelude.{◌≡◌, map, IfOk, IfErr};
ghost use Rattle.dnw_c_base.specs.Results.{Returns};
ghost use Rattle.dnw_c_signed.specs.CheckCalls.{FailsToCheck, HasFindings, PutsFindings, PutsRows, row_of};

use crate::records::records_from;
use crate::sums::name_of;
use dnw_c_base::failure::Failure;
use dnw_c_base::results::report;
use dnw_zone_checks::checks::{CheckError, check_zone};
use dnw_zone_checks::finding::Finding;
use std::alloc::{AllocError, Global};

/// A finding, as C learns it. Numbers that are not there are the greatest ones.
#[repr(C)]
#[derive(Clone, Copy)]
pub struct ZoneFinding {
    /// The number of the check.
    pub check: u32,
    /// Whether it is an error.
    pub is_error: bool,
    /// The number of the record.
    pub number: usize,
    /// The number of another record.
    pub other: usize,
}

/// Puts what a zone is found to have that the standards forbid or advise against. Its records are these octets, one after another, in
/// canonical order of their owners, which may follow 65,536 pointers in all.
#[unsafe(no_mangle)]
pub extern "C" fn dnw_zone_check(
    alloc: Global,
    zone: &[u8],
    records: &[u8],
    findings: &mut [ZoneFinding],
    count: &mut usize,
) -> u32
    ensures { Returns (PutsFindings zone.now records.now findings.old findings.new) count.old count.new result }
{
    report(put_findings(alloc, zone, records, findings), count)
}

/// Puts what is found of a zone, and returns how much that is.
fn put_findings(
    alloc: Global,
    zone: &[u8],
    records: &[u8],
    findings: &mut [ZoneFinding],
) -> Result<usize, Failure>
    ensures { PutsFindings zone.now records.now findings.old findings.new result }
{
    let found = findings_of(alloc, zone, records)?;
    let rows = rows_of(alloc, found.as_slice())?;
    put_rows(findings, rows.as_slice())
}

/// Returns what is found of a zone.
fn findings_of(alloc: Global, zone: &[u8], records: &[u8]) -> Result<Vec<Finding>, Failure>
    ensures ok { IfOk result (λ found. HasFindings zone.now records.now found.items) }
    ensures err { IfErr result (FailsToCheck zone.now records.now) }
{
    let zone = match name_of(alloc, zone) {
        Ok(zone) => zone,
        Err(failure) => return Err(failure),
    };
    let list = records_from(alloc, records, 0)?;
    match check_zone(alloc, &zone, list.as_slice()) {
        Ok(found) => Ok(found),
        Err(CheckError::NotInOrder { number: _ }) => Err(Failure::BadItem),
        Err(CheckError::Memory) => Err(Failure::NoMemory),
    }
}

/// Returns findings as C learns them.
fn rows_of(alloc: Global, found: &[Finding]) -> Result<Vec<ZoneFinding>, AllocError>
    ensures { IfOk result (λ rows. rows.items ≡ map row_of found.now) }
{
    let mut rows = Vec::new(alloc);
    for one in found {
        rows.push(row_of(one))?;
    }
    Ok(rows)
}

/// Returns a finding as C learns it.
fn row_of(one: &Finding) -> ZoneFinding
    ensures { result ≡ row_of one.now }
{
    ZoneFinding {
        check: u32::from(one.check.number()),
        is_error: one.check.is_error(),
        number: one.number.unwrap_or(usize::MAX),
        other: one.other.unwrap_or(usize::MAX),
    }
}

/// Puts rows at the front of a buffer if they fit, and returns their number.
fn put_rows(buffer: &mut [ZoneFinding], rows: &[ZoneFinding]) -> Result<usize, Failure>
    ensures { PutsRows rows.now buffer.old buffer.new result }
{
    if rows.len() > buffer.len() {
        return Err(Failure::NoRoom);
    }
    buffer[..rows.len()].copy_from_slice(rows);
    Ok(rows.len())
}
