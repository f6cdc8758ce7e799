//! What is found of a record whose data have the name of a server.
ghost use Rattle.std.specs.Prelude.{◌≡◌, ◌++◌, ℕ, List, IfErr, IfOk, OnOk};
ghost use Rattle.dnw_base.specs.RecordTypes.{type_code};
ghost use Rattle.dnw_zone_checks.specs.Checks.{AreOfServer, IsNameAfter, ends_with_address, first_alias, has_type, in_zone_findings, is_address, is_address_text, no_address, server_findings, server_offset};
ghost use Rattle.dnw_zone_checks.specs.HostNames.{after_address};
ghost use Rattle.dnw_zone_checks.specs.Inside.Seeking.{IsZoneListed};
ghost use Rattle.dnw_zone_checks.specs.declared.finding.Finding.{Finding};

use crate::finding::{Check, Finding, add, if_so, with_other};
use crate::host::after_address;
use crate::lookup::{Sought, is_apex, is_in, label_count};
use crate::zone::Zone;
use dnw_base::decoder::BinDecoder;
use dnw_base::error::DecodeError;
use dnw_base::limits::MAX_NAME;
use dnw_base::type_codes::{MX, NS, SRV};
use dnw_name::name::Name;
use dnw_name::name_ref::NameRef;
use dnw_name_form::wire_labels::WireLabels;
use dnw_record::record_ref::RecordRef;
use std::alloc::{AllocError, Global};

/// Adds what is found of the name of a server in the data of a record with this owner.
pub(crate) fn check_server(
    alloc: Global,
    zone: &Zone<'_, '_>,
    number: usize,
    record: &RecordRef<'_>,
    owner: &WireLabels<'_>,
    found: &mut Vec<Finding>,
) -> Result<(), AllocError>
    requires checked { IsZoneListed zone.now }
    requires owner { owner.now ≡ record.now.owner }
    ensures { OnOk result ((own : List Finding) × AreOfServer zone.now.apex.now.labels zone.now.records.now number record.now own × (found.new.items ≡ found.old.items ++ own)) }
{
    let code = u16::from(record.record_type());
    let Some(offset) = server_offset(code) else {
        return Ok(());
    };
    let mut reader = record.data_decoder();
    let Ok(server) = name_after(&mut reader, offset) else {
        return Ok(());
    };
    let mut room = [0; MAX_NAME];
    let name = server.wire_labels(&mut room);
    check_name(alloc, zone, number, code, owner, &name, found)
}

/// Returns the name that is read after so many octets.
fn name_after<'r>(reader: &mut BinDecoder<'r>, offset: usize) -> Result<NameRef<'r>, DecodeError>
    ensures ok { IfOk result (IsNameAfter reader.old offset) }
    ensures err { IfErr result (λ error. (name : List (List ℕ)) → ¬ (IsNameAfter reader.old offset name)) }
{
    reader.skip(offset)?;
    NameRef::read(reader)
}

/// Returns how many octets of data are before the name of a server, if data of this type have one.
fn server_offset(code: u16) -> Option<usize>
    ensures { result ≡ server_offset code }
{
    match code {
        NS => Some(0),
        MX => Some(2),
        SRV => Some(6),
        _ => None,
    }
}

/// Adds what is found of the name of a server that a record of this type and owner has.
#[tactic(auto, using(std::proofs::Common::append_assoc))]
fn check_name(
    alloc: Global,
    zone: &Zone<'_, '_>,
    number: usize,
    code: u16,
    owner: &WireLabels<'_>,
    name: &WireLabels<'_>,
    found: &mut Vec<Finding>,
) -> Result<(), AllocError>
    requires { IsZoneListed zone.now }
    ensures { OnOk result (found.new.items ≡ found.old.items ++ server_findings zone.now.apex.now.labels zone.now.records.now number code owner.now name.now) }
{
    if name.len() == 0 {
        return Ok(());
    }
    let is_text = is_address_text(zone.apex, name);
    add(found, if_so(Check::ServerIsAddress, number, is_text))?;
    if !is_in(&zone.apex.wire_labels(), name) {
        return Ok(());
    }
    add(found, in_zone(alloc, zone, number, code, owner, name))?;
    Ok(())
}

/// Returns `true` if a name is the text of an address, and after it nothing, or the name of the zone.
fn is_address_text(zone: &Name, name: &WireLabels<'_>) -> bool
    ensures { result ≡ is_address_text zone.now.labels name.now }
{
    match after_address(name) {
        Some(rest) => rest.len() == 0 || is_apex(&rest, zone),
        None => false,
    }
}

/// Returns what is found of the name of a server that is in the zone.
fn in_zone(
    alloc: Global,
    zone: &Zone<'_, '_>,
    number: usize,
    code: u16,
    owner: &WireLabels<'_>,
    name: &WireLabels<'_>,
) -> Option<Finding>
    requires { IsZoneListed zone.now }
    ensures { result ≡ in_zone_findings zone.now.apex.now.labels zone.now.records.now number code owner.now name.now (first_alias zone.now.apex.now.labels zone.now.records.now name.now) }
{
    let alias = first_alias(alloc, zone, name);
    if alias.is_some() {
        return with_other(Check::ServerIsAlias, number, alias);
    }
    if zone.first_found(alloc, name, Sought::Address).is_some() {
        return None;
    }
    let check = no_address(zone, code, owner, name)?;
    if_so(check, number, true)
}

/// Returns the number of the record by which a name is an alias.
fn first_alias(alloc: Global, zone: &Zone<'_, '_>, name: &WireLabels<'_>) -> Option<usize>
    requires { IsZoneListed zone.now }
    ensures { result ≡ first_alias zone.now.apex.now.labels zone.now.records.now name.now }
{
    let alias = zone.first_found(alloc, name, Sought::Cname);
    if alias.is_some() {
        return alias;
    }
    zone.first_above(name, label_count(zone.apex), Sought::Dname)
}

/// Returns what a name of the zone is against that has no address.
fn no_address(
    zone: &Zone<'_, '_>,
    code: u16,
    owner: &WireLabels<'_>,
    name: &WireLabels<'_>,
) -> Option<Check>
    requires { IsZoneListed zone.now }
    ensures { result ≡ no_address zone.now.apex.now.labels zone.now.records.now code owner.now name.now }
{
    let is_delegated = zone.is_delegated(name);
    if code != NS {
        return if is_delegated {
            None
        } else {
            Some(Check::NoServerAddress)
        };
    }
    if is_delegated && (is_apex(owner, zone.apex) || !is_in(owner, name)) {
        Some(Check::NoSiblingGlue)
    } else {
        Some(Check::NoAddress)
    }
}
