//! Digests of zones, as ZONEMD records have them.
ghost use Rattle.std.specs.Prelude.{◌≡◌, ℕ, List, ◌↔◌, ◌≤◌, ◌++◌, length, IfOk, IfErr, OnOk, IsTrue};
ghost use Rattle.std.specs.List.{AllByRecursion, flat_map};
ghost use Rattle.dnw_base.specs.Limits.{max_message};
ghost use Rattle.dnw_base.specs.Names.{lower};
ghost use Rattle.dnw_base.specs.RecordTypes.{type_code};
ghost use Rattle.dnw_signed.specs.ZoneDigests.{AreDigested, FailsZoneDigest, FirstTooLong, HasShortData, HoldsDigest, IsDigested, IsZoneDigest, IsZoneHash, IsZoneOrder};
ghost use Rattle.dnw_signed.specs.ZoneDigests.{covers_zonemd, is_duplicate, is_of_zonemd, place_cmp, zone_cmp, zone_record};
ghost use Rattle.dnw_signed.specs.Inside.Measuring.{HaveShortData};
ghost use Rattle.dnw_signed.specs.declared.error.DnssecError.TheVariants.{DataTooLong};

use crate::ds::{Digest, digest_of};
use crate::error::DnssecError;
use crate::fields::canonical_octets;
use dnw_base::limits::MAX_MESSAGE;
use dnw_base::type_codes::{RRSIG, ZONEMD};
use dnw_name::name::Name;
use dnw_record::rdata::RData;
use dnw_record::record::Record;
use sha2::{Digest as HashFunction, Sha384, Sha512};
use std::alloc::{AllocError, Global};
use std::cmp::Ordering;
use std::marker::Model;

/// A record with its data in canonical form.
#[derive(Drop)]
struct ZoneRecord<'a> {
    record: &'a Record,
    octets: Vec<u8>,
}

impl<'a> Model for ZoneRecord<'a> {
    ghost use Rattle.dnw_base.specs.RecordTypes.{type_code};
    ghost use Rattle.dnw_base.specs.DnsClasses.{class_code};
    ghost use Rattle.dnw_signed.specs.ZoneDigests.{CanonicalRecord};

    ghost Value = { CanonicalRecord };

    ghost view = { λ z. record {
      owner = z.record.now.name.labels;
      record_type = type_code z.record.now.data.record_type;
      class = class_code z.record.now.data.class;
      ttl = z.record.now.ttl;
      octets = z.octets.items;
    } };
}

/// Returns the digest of a zone by the scheme SIMPLE (RFC 8976, section 3.3.1): the hash of all its records in canonical form, in
/// canonical order of their owners, types and data.
///
/// The records may be in any order. Those that are the same but for their time to live are one, with the least one. Those whose owner
/// is neither the apex nor below it are out of the zone, and left out. So are the ZONEMD records at the apex, and the RRSIG records
/// there that cover them: a zone may be given with its digest. All others are hashed, glue records and those below a delegation too.
/// The caller gives records of one class.
///
/// Hash algorithm 1 is SHA-384, and 2 is SHA-512. It fails with `UnknownHash` for any other, with `DataTooLong` if the data of a
/// record have more than 65,535 octets, and with `Memory` if an allocation fails.
pub fn zone_digest(
    alloc: Global,
    apex: &Name,
    records: &[Record],
    algorithm: u8,
) -> Result<Digest, DnssecError>
    ensures ok { IfOk result (λ digest. IsZoneDigest apex.now.labels records.now algorithm digest.items) }
    ensures err { IfErr result (FailsZoneDigest records.now algorithm) }
{
    if !is_zone_hash(algorithm) {
        return Err(DnssecError::UnknownHash(algorithm));
    }
    check_lengths(records)?;
    let mut zone = digested(alloc, apex, records)?;
    put_in_order(&mut zone);
    if algorithm == 1 {
        Ok(digest_of(&hash_of_records::<Sha384>(zone.as_slice())))
    } else {
        Ok(digest_of(&hash_of_records::<Sha512>(zone.as_slice())))
    }
}

/// Returns `true` if the hash algorithm is known.
fn is_zone_hash(algorithm: u8) -> bool
    ensures { IsTrue result ↔ IsZoneHash algorithm }
{
    algorithm == 1 || algorithm == 2
}

/// Checks that two octets can say how long the data of each record are.
#[tactic(auto, using(crate::proofs::Zones::measured_on, crate::proofs::Zones::all_measured, crate::proofs::Zones::first_too_long))]
fn check_lengths(records: &[Record]) -> Result<(), DnssecError>
    ensures ok { OnOk result (AllByRecursion HasShortData records.now) }
    ensures err { IfErr result (λ e. (number : ℕ) × FirstTooLong records.now number × (e ≡ DataTooLong number)) }
{
    let mut left = records;
    'records: while let Some((item, others)) = left.split_first() {
        if item.data.octets().len() > MAX_MESSAGE as usize {
            let record = records.len() - left.len();
            return Err(DnssecError::DataTooLong { record });
        }
        left = others;
    }
    Ok(())
}

/// Returns the records that are digested, each with its data in canonical form.
#[tactic(auto, using(crate::proofs::Zones::none_before, crate::proofs::Zones::one_digested, crate::proofs::Zones::one_left_out, crate::proofs::Zones::all_digested))]
fn digested<'a>(
    alloc: Global,
    apex: &Name,
    records: &'a [Record],
) -> Result<Vec<ZoneRecord<'a>>, AllocError>
    requires { AllByRecursion HasShortData records.now }
    ensures zone { IfOk result (λ zone. AreDigested apex.now.labels records.now zone.items) }
    ensures short { IfOk result (λ zone. HaveShortData zone.items) }
{
    let mut zone = Vec::new(alloc);
    let mut left = records;
    'records: while let Some((record, others)) = left.split_first() {
        if is_digested(apex, record) {
            let octets = canonical_octets(alloc, &record.data)?;
            if zone.push(ZoneRecord { record, octets }).is_err() {
                return Err(AllocError);
            }
        }
        left = others;
    }
    Ok(zone)
}

/// Puts records in order, and removes duplicates.
fn put_in_order(zone: &mut Vec<ZoneRecord<'_>>)
    requires { HaveShortData zone.old.items }
    ensures order { IsZoneOrder zone.old.items zone.new.items }
    ensures short { HaveShortData zone.new.items }
{
    zone.sort_unstable_by(|left, right| zone_order(left, right));
    zone.dedup_by(|later, kept| is_duplicate(later, kept));
}

/// Returns `true` if a record is digested: it is in the zone, and the digest does not go into it.
fn is_digested(apex: &Name, record: &Record) -> bool
    ensures { IsTrue result ↔ IsDigested apex.now.labels «record».now }
{
    record.name.is_in(apex) && !holds_digest(apex, record)
}

/// Returns `true` for a record that the digest goes into: one at the apex that is of ZONEMD.
fn holds_digest(apex: &Name, record: &Record) -> bool
    ensures { IsTrue result ↔ HoldsDigest apex.now.labels «record».now }
{
    is_of_zonemd(&record.data) && record.name.as_name_ref().eq_name(apex)
}

/// Returns `true` for the data of a ZONEMD record, and of an RRSIG that covers such ones.
fn is_of_zonemd(data: &RData) -> bool
    ensures { result ≡ is_of_zonemd (type_code «data».now.record_type) «data».now.octets }
{
    let code = u16::from(data.record_type());
    code == ZONEMD || (code == RRSIG && covers_zonemd(data.octets()))
}

/// Returns `true` if the data of an RRSIG cover ZONEMD: they begin with its code (RFC 4034, section 3.1.1).
fn covers_zonemd(octets: &[u8]) -> bool
    ensures { result ≡ covers_zonemd octets.now }
{
    matches!(octets, [0, 63, ..])
}

/// Returns `true` if records are one: they have the same owner, type and data.
fn is_duplicate(later: &ZoneRecord<'_>, kept: &ZoneRecord<'_>) -> bool
    ensures { result ≡ is_duplicate later.now kept.now }
{
    place_order(later, kept).is_eq()
}

/// Compares records by their owner, type and data.
fn place_order(left: &ZoneRecord<'_>, right: &ZoneRecord<'_>) -> Ordering
    ensures { result ≡ place_cmp left.now right.now }
{
    let (record, other) = (left.record, right.record);
    let order = record.name.as_name_ref().cmp_name(&other.name);
    if order.is_ne() {
        return order;
    }
    let code = u16::from(record.data.record_type());
    let order = code.cmp(&u16::from(other.data.record_type()));
    if order.is_ne() {
        return order;
    }
    left.octets.as_slice().cmp(right.octets.as_slice())
}

/// Compares records by their owner, type, data and time to live.
fn zone_order(left: &ZoneRecord<'_>, right: &ZoneRecord<'_>) -> Ordering
    ensures { result ≡ zone_cmp left.now right.now }
{
    let order = place_order(left, right);
    if order.is_ne() {
        return order;
    }
    left.record.ttl.cmp(&right.record.ttl)
}

/// Returns the hash of records, one after another.
fn hash_of_records<H: HashFunction>(zone: &[ZoneRecord<'_>]) -> H::Output
    requires { HaveShortData zone.now }
    ensures { H.digest_of (flat_map zone_record zone.now) result }
{
    let mut hasher = H::new();
    'records: for item in zone {
        hash_record(&mut hasher, item);
    }
    hasher.finalize()
}

/// Feeds a record to a hasher.
fn hash_record<H: HashFunction>(hasher: &mut H, item: &ZoneRecord<'_>)
    requires { length item.now.octets ≤ max_message }
    ensures { (m : List ℕ) → H.holds hasher.old m → H.holds hasher.new (m ++ zone_record item.now) }
{
    let owner = canonical_owner(item.record);
    hasher.update(owner.as_wire());
    hasher.update(&u16::to_be_bytes(u16::from(item.record.data.record_type())));
    hasher.update(&u16::to_be_bytes(u16::from(item.record.dns_class())));
    hasher.update(&u32::to_be_bytes(item.record.ttl));
    hasher.update(&u16::to_be_bytes(item.octets.len() as u16));
    hasher.update(item.octets.as_slice());
}

/// Returns the owner of a record in lower case.
fn canonical_owner(record: &Record) -> Name
    ensures { result.labels ≡ lower «record».now.name.labels }
{
    record.name.to_lowercase().unwrap()
}
