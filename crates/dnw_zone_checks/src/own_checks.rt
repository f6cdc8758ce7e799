//! What is found of a record, by its owner, its type and the other records of the zone.
ghost use Rattle.std.specs.Prelude.{◌≡◌, ◌<◌, ◌++◌, ℕ, Some, length, OnOk};
ghost use Rattle.dnw_base.specs.DnsClasses.{class_code};
ghost use Rattle.dnw_base.specs.RecordTypes.{type_code};
ghost use Rattle.dnw_zone_checks.specs.Inside.Seeking.{IsZoneListed, is_sought};
ghost use Rattle.dnw_zone_checks.specs.Checks.{below_delegation, below_dname, caa_tag, cname_and_other, data_findings, digest_length, ds_elsewhere, first_of_set, has_class, has_type, has_host_owner, is_address, is_one_for_a_name, no_host_name, ns_and_dname, other_class, other_ttl, own_findings, set_findings, kind_findings, place_findings, soa_elsewhere, two_of_one, wildcard_ns};

use crate::checked_data::{are_same_data, has_caa_tag, has_whole_digest};
use crate::finding::{Check, Finding, add, if_so, with_other};
use crate::host::{is_host_name, is_wildcard};
use crate::lookup::{Sought, is_address, is_apex, label_count};
use crate::zone::Zone;
use dnw_base::type_codes::{CNAME, DNAME, DS, MX, NS, NSEC3, RRSIG, SOA};
use dnw_name_form::wire_labels::WireLabels;
use dnw_record::record_ref::RecordRef;
use std::alloc::AllocError;

/// Adds what is found of a record with this owner, whose set this one is the first of, but for the name of a server in its data.
#[tactic(auto, using(crate::proofs::Adding::four))]
pub(crate) fn check_owner(
    zone: &Zone<'_, '_>,
    number: usize,
    record: &RecordRef<'_>,
    owner: &WireLabels<'_>,
    first: usize,
    found: &mut Vec<Finding>,
) -> Result<(), AllocError>
    requires checked { IsZoneListed zone.now }
    requires owner { owner.now ≡ record.now.owner }
    requires first { first_of_set zone.now.records.now record.now ≡ Some first }
    requires within { first < length zone.now.records.now }
    ensures { OnOk result (found.new.items ≡ found.old.items ++ own_findings zone.now.apex.now.labels zone.now.records.now number record.now) }
{
    let code = u16::from(record.record_type());
    check_set(zone.records, number, record, first, found)?;
    check_kind(zone, number, code, owner, found)?;
    check_place(zone, number, code, owner, found)?;
    check_data(number, code, record, found)?;
    Ok(())
}

/// Adds what is found of a record by those of its name, type and class, of which this one is the first.
#[tactic(auto, using(crate::proofs::Adding::three))]
fn check_set(
    records: &[RecordRef<'_>],
    number: usize,
    record: &RecordRef<'_>,
    first: usize,
    found: &mut Vec<Finding>,
) -> Result<(), AllocError>
    requires first { first_of_set records.now record.now ≡ Some first }
    requires within { first < length records.now }
    ensures { OnOk result (found.new.items ≡ found.old.items ++ set_findings records.now number record.now) }
{
    let code = u16::from(record.record_type());
    add(found, other_class(records, number, record))?;
    add(found, two_of_one(records, number, code, record, first))?;
    add(found, other_ttl(records, number, code, record, first))?;
    Ok(())
}

/// Adds what is found of a record of this type by the records of its owner.
#[tactic(auto, using(crate::proofs::Adding::four))]
fn check_kind(
    zone: &Zone<'_, '_>,
    number: usize,
    code: u16,
    owner: &WireLabels<'_>,
    found: &mut Vec<Finding>,
) -> Result<(), AllocError>
    requires { IsZoneListed zone.now }
    ensures { OnOk result (found.new.items ≡ found.old.items ++ kind_findings zone.now.apex.now.labels zone.now.records.now number code owner.now) }
{
    add(found, soa_elsewhere(zone, number, code, owner))?;
    add(found, cname_and_other(zone, number, code, owner))?;
    add(found, ds_elsewhere(zone, number, code, owner))?;
    add(found, ns_and_dname(zone, number, code, owner))?;
    Ok(())
}

/// Adds what is found of a record of this type by its owner, and the names above that.
#[tactic(auto, using(crate::proofs::Adding::four))]
fn check_place(
    zone: &Zone<'_, '_>,
    number: usize,
    code: u16,
    owner: &WireLabels<'_>,
    found: &mut Vec<Finding>,
) -> Result<(), AllocError>
    requires { IsZoneListed zone.now }
    ensures { OnOk result (found.new.items ≡ found.old.items ++ place_findings zone.now.apex.now.labels zone.now.records.now number code owner.now) }
{
    add(found, below_dname(zone, number, code, owner))?;
    add(found, below_delegation(zone, number, code, owner))?;
    add(found, no_host_name(number, code, owner))?;
    add(found, wildcard_ns(number, code, owner))?;
    Ok(())
}

/// Adds what is found of the data of a record of this type.
#[tactic(auto, using(std::proofs::Common::append_assoc))]
fn check_data(
    number: usize,
    code: u16,
    record: &RecordRef<'_>,
    found: &mut Vec<Finding>,
) -> Result<(), AllocError>
    ensures { OnOk result (found.new.items ≡ found.old.items ++ data_findings number code record.now) }
{
    add(found, digest_length(number, code, record))?;
    add(found, caa_tag(number, code, record))?;
    Ok(())
}

/// Returns that the class of a record is not that of the first one.
fn other_class(records: &[RecordRef<'_>], number: usize, record: &RecordRef<'_>) -> Option<Finding>
    ensures { result ≡ other_class records.now number record.now }
{
    if_so(Check::OtherClass, number, !has_class(records, record))
}

/// Returns `true` if the class of a record is that of the first one.
fn has_class(records: &[RecordRef<'_>], record: &RecordRef<'_>) -> bool
    ensures { result ≡ has_class records.now record.now }
{
    match records.first() {
        Some(first) => u16::from(first.class()) == u16::from(record.class()),
        None => true,
    }
}

/// Returns that a SOA record is not at the apex.
fn soa_elsewhere(
    zone: &Zone<'_, '_>,
    number: usize,
    code: u16,
    owner: &WireLabels<'_>,
) -> Option<Finding>
    ensures { result ≡ soa_elsewhere zone.now.apex.now.labels number code owner.now }
{
    if_so(
        Check::SoaElsewhere,
        number,
        code == SOA && !is_apex(owner, zone.apex),
    )
}

/// Returns that the first record of a set of this type, of which there is one for a name, has other data than a record.
fn two_of_one(
    records: &[RecordRef<'_>],
    number: usize,
    code: u16,
    record: &RecordRef<'_>,
    first: usize,
) -> Option<Finding>
    requires { first < length records.now }
    ensures { result ≡ two_of_one records.now number code record.now (Some first) }
{
    if is_one_for_a_name(code) && !are_same_data(code, records[first].rdata(), record.rdata()) {
        return with_other(Check::TwoOfOne, number, Some(first));
    }
    None
}

/// Returns `true` for the types of which there is one record for a name.
fn is_one_for_a_name(code: u16) -> bool
    ensures { result ≡ is_one_for_a_name code }
{
    code == SOA || code == CNAME || code == DNAME
}

/// Returns that the first record of a set of this type has another time to live than a record.
fn other_ttl(
    records: &[RecordRef<'_>],
    number: usize,
    code: u16,
    record: &RecordRef<'_>,
    first: usize,
) -> Option<Finding>
    requires { first < length records.now }
    ensures { result ≡ other_ttl records.now number code record.now (Some first) }
{
    if code != RRSIG && records[first].ttl() != record.ttl() {
        return with_other(Check::OtherTtl, number, Some(first));
    }
    None
}

/// Returns that the owner of a CNAME record has other data.
fn cname_and_other(
    zone: &Zone<'_, '_>,
    number: usize,
    code: u16,
    owner: &WireLabels<'_>,
) -> Option<Finding>
    requires { IsZoneListed zone.now }
    ensures { result ≡ cname_and_other zone.now.records.now number code owner.now }
{
    if code != CNAME {
        return None;
    }
    let other = zone.first_at(owner, Sought::NotBesideAlias);
    with_other(Check::CnameAndOther, number, other)
}

/// Returns that a DS record is at the apex or at a name without NS records.
fn ds_elsewhere(
    zone: &Zone<'_, '_>,
    number: usize,
    code: u16,
    owner: &WireLabels<'_>,
) -> Option<Finding>
    requires { IsZoneListed zone.now }
    ensures { result ≡ ds_elsewhere zone.now.apex.now.labels zone.now.records.now number code owner.now }
{
    if code != DS {
        return None;
    }
    let at_delegation = !is_apex(owner, zone.apex) && zone.first_at(owner, Sought::Ns).is_some();
    if_so(Check::DsElsewhere, number, !at_delegation)
}

/// Returns that a DNAME record that is not at the apex is beside NS records.
fn ns_and_dname(
    zone: &Zone<'_, '_>,
    number: usize,
    code: u16,
    owner: &WireLabels<'_>,
) -> Option<Finding>
    requires { IsZoneListed zone.now }
    ensures { result ≡ ns_and_dname zone.now.apex.now.labels zone.now.records.now number code owner.now }
{
    if code == DNAME && !is_apex(owner, zone.apex) {
        return with_other(Check::NsAndDname, number, zone.first_at(owner, Sought::Ns));
    }
    None
}

/// Returns that a record is below the owner of a DNAME record.
fn below_dname(
    zone: &Zone<'_, '_>,
    number: usize,
    code: u16,
    owner: &WireLabels<'_>,
) -> Option<Finding>
    requires { IsZoneListed zone.now }
    ensures { result ≡ below_dname zone.now.apex.now.labels zone.now.records.now number code owner.now }
{
    if code == RRSIG || code == NSEC3 {
        return None;
    }
    let least = label_count(zone.apex);
    let other = zone.first_above(owner, least, Sought::Dname);
    with_other(Check::BelowDname, number, other)
}

/// Returns that a record that is no address is below a delegation.
fn below_delegation(
    zone: &Zone<'_, '_>,
    number: usize,
    code: u16,
    owner: &WireLabels<'_>,
) -> Option<Finding>
    requires { IsZoneListed zone.now }
    ensures { result ≡ below_delegation zone.now.apex.now.labels zone.now.records.now number code owner.now }
{
    if is_address(code) {
        return None;
    }
    let least = label_count(zone.apex) + 1;
    let other = zone.first_above(owner, least, Sought::Ns);
    with_other(Check::BelowDelegation, number, other)
}

/// Returns that the owner of an address or an MX record is no name that hosts have.
fn no_host_name(number: usize, code: u16, owner: &WireLabels<'_>) -> Option<Finding>
    ensures { result ≡ no_host_name number code owner.now }
{
    if_so(
        Check::NoHostName,
        number,
        has_host_owner(code) && !is_host_name(owner),
    )
}

/// Returns `true` for the types whose owners are names of hosts.
fn has_host_owner(code: u16) -> bool
    ensures { result ≡ has_host_owner code }
{
    is_address(code) || code == MX
}

/// Returns that the owner of an NS record is a wildcard.
fn wildcard_ns(number: usize, code: u16, owner: &WireLabels<'_>) -> Option<Finding>
    ensures { result ≡ wildcard_ns number code owner.now }
{
    if_so(Check::WildcardNs, number, code == NS && is_wildcard(owner))
}

/// Returns that a digest has another length than its type has.
fn digest_length(number: usize, code: u16, record: &RecordRef<'_>) -> Option<Finding>
    ensures { result ≡ digest_length number code record.now }
{
    if_so(
        Check::DigestLength,
        number,
        !has_whole_digest(code, record.rdata()),
    )
}

/// Returns that the tag of a CAA record is none.
fn caa_tag(number: usize, code: u16, record: &RecordRef<'_>) -> Option<Finding>
    ensures { result ≡ caa_tag number code record.now }
{
    if_so(Check::CaaTag, number, !has_caa_tag(code, record.rdata()))
}
