//! Checks of zones, by the list of their records.
ghost use Rattle.std.specs.Prelude.{◌≡◌, ◌<◌, ◌++◌, List, Some, length, IfOk, IfErr, OnOk};
ghost use Rattle.dnw_zone_checks.specs.Checks.{AreFindings, OwnersAreInOrder, FailsCheck, IsRecordFindings, apex_findings, first_of_set};
ghost use Rattle.dnw_zone_checks.specs.Inside.Seeking.{IsZoneListed};
ghost use Rattle.dnw_zone_checks.specs.declared.finding.Finding.{Finding};

use crate::finding::{Check, Finding, add, apex_lack, if_so};
use crate::lookup::{Sought, is_in, out_of_order};
use crate::own_checks::check_owner;
use crate::servers::check_server;
use crate::sets::Firsts;
use crate::zone::Zone;
use dnw_base::limits::MAX_NAME;
use dnw_name::name::Name;
use dnw_record::record_ref::RecordRef;
use std::alloc::{AllocError, Global};
use thiserror::Error;

/// Why a zone is not checked.
#[derive(Debug, Clone, Copy, PartialEq, Eq, Error)]
pub enum CheckError {
    /// The owner of a record is before that of the record before it.
    #[error("the owner of record {number} is before that of the record before it")]
    NotInOrder {
        /// The number of the record, from 0.
        number: usize,
    },
    /// An allocation failed.
    #[error("out of memory")]
    Memory,
}

/// Returns what a zone is found to have that the standards forbid or advise against, by the list of its records, which are in
/// canonical order of their owners (RFC 4034, section 6.1): first what its apex lacks, and then what is found of each record: by the
/// records of its type, by the others of its owner, by the names above that, by its own data, and by the name of a server in them. Of
/// a record whose owner is not in the zone nothing else is said.
///
/// The time is that of some searches for each record, by halves, of lists of the records that are looked for.
///
/// It fails with `NotInOrder` if the owner of a record is before that of the record before it, and with `Memory` if an allocation
/// fails.
pub fn check_zone(
    alloc: Global,
    zone: &Name,
    records: &[RecordRef<'_>],
) -> Result<Vec<Finding>, CheckError>
    ensures order { IfOk result (λ found. OwnersAreInOrder records.now) }
    ensures ok { IfOk result (λ found. AreFindings zone.now.labels records.now found.items) }
    ensures err { IfErr result (FailsCheck records.now) }
{
    if let Some(number) = out_of_order(records) {
        return Err(CheckError::NotInOrder { number });
    }
    match findings(alloc, zone, records) {
        Ok(found) => Ok(found),
        Err(_) => Err(CheckError::Memory),
    }
}

/// Returns what is found of a zone.
fn findings(
    alloc: Global,
    apex: &Name,
    records: &[RecordRef<'_>],
) -> Result<Vec<Finding>, AllocError>
    requires { OwnersAreInOrder records.now }
    ensures { IfOk result (λ found. AreFindings apex.now.labels records.now found.items) }
{
    let zone = Zone::new(alloc, apex, records)?;
    let mut firsts = Firsts::new(alloc)?;
    let mut found = Vec::new(alloc);
    check_apex(&zone, &mut found)?;
    let mut number = 0;
    'records: for record in records {
        let first = firsts.take(records, number);
        check_record(alloc, &zone, number, record, first, &mut found)?;
        number += 1;
    }
    Ok(found)
}

/// Adds what the apex lacks.
#[tactic(auto, using(std::proofs::Common::append_assoc))]
fn check_apex(zone: &Zone<'_, '_>, found: &mut Vec<Finding>) -> Result<(), AllocError>
    requires { IsZoneListed zone.now }
    ensures { OnOk result (found.new.items ≡ found.old.items ++ apex_findings zone.now.apex.now.labels zone.now.records.now) }
{
    let apex = zone.apex.wire_labels();
    let soa = zone.first_at(&apex, Sought::Soa);
    let ns = zone.first_at(&apex, Sought::Ns);
    add(found, apex_lack(Check::NoSoa, soa))?;
    add(found, apex_lack(Check::NoNs, ns))?;
    Ok(())
}

/// Adds what is found of a record, whose set this one is the first of.
fn check_record(
    alloc: Global,
    zone: &Zone<'_, '_>,
    number: usize,
    record: &RecordRef<'_>,
    first: usize,
    found: &mut Vec<Finding>,
) -> Result<(), AllocError>
    requires checked { IsZoneListed zone.now }
    requires first { first_of_set zone.now.records.now record.now ≡ Some first }
    requires within { first < length zone.now.records.now }
    ensures { OnOk result ((own : List Finding) × IsRecordFindings zone.now.apex.now.labels zone.now.records.now number record.now own × (found.new.items ≡ found.old.items ++ own)) }
{
    let mut room = [0; MAX_NAME];
    let owner = record.owner().wire_labels(&mut room);
    if !is_in(&zone.apex.wire_labels(), &owner) {
        return add(found, if_so(Check::OutOfZone, number, true));
    }
    check_owner(zone, number, record, &owner, first, found)?;
    check_server(alloc, zone, number, record, &owner, found)?;
    Ok(())
}
