//! Where records lead.
ghost use Rattle.std.specs.Prelude.{◌≡◌, ◌==◌, if◌then◌else◌};
ghost use Rattle.dns_names_wire.specs.Words.{is_in, is_same, type_code, soa_code};
ghost use Rattle.ans_transfer.specs.Places.{after_first, after_second, after_step, at_other, at_soa, by_owner, is_newer, passed, passed_one};
ghost use Rattle.ans_transfer.specs.Transfers.{serial_of};

use crate::error::TransferError;
use crate::place::Place;
use crate::request::{Kind, Request};
use dns_names_wire::codes::SerialNumber;
use dns_names_wire::message::Records;
use dns_names_wire::type_codes::SOA;
use dns_names_wire::{Name, NameRef, RecordRef};
use std::cmp::Ordering;

/// The fewest octets of the data of SOA, and those after the serial number (RFC 1035, section 3.3.13).
const LEAST_SOA: usize = 22;

const AFTER_SERIAL: usize = 16;

/// Returns where records lead from a place.
pub(crate) fn passed(
    request: &Request<'_>,
    place: Place,
    mut records: Records<'_>,
) -> Result<Place, TransferError>
    ensures { result ≡ passed request.now place records.entry }
{
    let mut at = place;
    'records: loop {
        let Some(record) = records.next() else {
            return Ok(at);
        };
        match passed_one(request, at, &record) {
            Err(why) => return Err(why),
            Ok(next) => at = next,
        }
    }
}

/// Returns where a record leads from a place.
#[tactic(auto, unfolding(crate::specs::Places::passed_one))]
pub(crate) fn passed_one(
    request: &Request<'_>,
    place: Place,
    record: &RecordRef<'_>,
) -> Result<Place, TransferError>
    ensures { result ≡ passed_one request.now place record.now }
{
    if record.class().code() != request.class() {
        return Err(TransferError::OtherClass);
    }
    if !is_in(request.zone(), record.owner()) {
        return Err(TransferError::OutOfZone);
    }
    if !is_soa(record) {
        return at_other(place);
    }
    at_any_soa(request, place, record)
}

/// Returns `true` for an SOA record.
pub(crate) fn is_soa(record: &RecordRef<'_>) -> bool
    ensures { result ≡ (type_code record.now.record_type == soa_code) }
{
    record.record_type().code() == SOA
}

/// Returns where an SOA record leads from a place.
fn at_any_soa(
    request: &Request<'_>,
    place: Place,
    record: &RecordRef<'_>,
) -> Result<Place, TransferError>
    ensures { result ≡ by_owner (is_same record.now.owner request.now.zone) request.now.kind place (serial_of record.now) }
{
    if !is_same(record.owner(), request.zone()) {
        return Err(TransferError::SoaBelow);
    }
    match serial_of(record) {
        None => Err(TransferError::ShortSoa),
        Some(serial) => at_soa(request.kind(), place, serial),
    }
}

/// Returns `true` if names are the same, ignoring ASCII case.
#[tactic(auto, unfolding(dns_names_wire::specs::Words::is_same))]
pub(crate) fn is_same(name: &NameRef<'_>, other: &Name) -> bool
    ensures { result ≡ is_same name.now other.now.labels }
{
    name.cmp_name(other).is_eq()
}

/// Returns `true` if a name is in a zone.
fn is_in(zone: &Name, name: &NameRef<'_>) -> bool
    ensures { result ≡ is_in zone.now.labels name.now }
{
    name.zone_of(zone)
}

/// Returns the serial number that the data of an SOA record have, if they are long enough.
#[tactic(auto, unfolding(crate::specs::Transfers::serial_of))]
pub(crate) fn serial_of(soa: &RecordRef<'_>) -> Option<u32>
    ensures { result ≡ serial_of soa.now }
{
    let octets = soa.rdata();
    if octets.len() < LEAST_SOA {
        return None;
    }
    let front = &octets[..octets.len() - AFTER_SERIAL];
    let number = front.last_chunk()?;
    Some(u32::from_be_bytes(*number))
}

/// Returns where the zone's SOA record with this serial number leads.
#[tactic(auto, unfolding(crate::specs::Places::at_soa))]
fn at_soa(kind: Kind, place: Place, serial: u32) -> Result<Place, TransferError>
    ensures { result ≡ at_soa kind place serial }
{
    match place {
        Place::Start => Ok(after_first(kind, serial)),
        Place::Begun { new } => after_second(kind, new, serial),
        Place::InZone { new } => after_zone(new, serial),
        Place::InDeleted { new } => Ok(Place::InAdded { new, to: serial }),
        Place::InAdded { new, to } => after_step(new, to, serial),
        Place::EndOfZone { .. } | Place::EndOfChanges { .. } | Place::UpToDate => {
            Err(TransferError::AfterEnd)
        }
    }
}

/// Returns where the first SOA record leads.
#[tactic(auto, unfolding(crate::specs::Places::after_first))]
fn after_first(kind: Kind, serial: u32) -> Place
    ensures { result ≡ after_first kind serial }
{
    match kind {
        Kind::Axfr => Place::Begun { new: serial },
        Kind::Ixfr { serial: own } => {
            if is_newer(serial, own) {
                Place::Begun { new: serial }
            } else {
                Place::UpToDate
            }
        }
    }
}

/// Returns `true` if a serial number comes after another.
#[tactic(auto, unfolding(crate::specs::Places::is_newer))]
fn is_newer(serial: u32, other: SerialNumber) -> bool
    ensures { result ≡ is_newer serial other }
{
    matches!(
        other.partial_cmp(&SerialNumber::new(serial)),
        Some(Ordering::Less)
    )
}

/// Returns where an SOA record leads that follows the first one.
#[tactic(auto, unfolding(crate::specs::Places::after_second))]
fn after_second(kind: Kind, new: u32, serial: u32) -> Result<Place, TransferError>
    ensures { result ≡ after_second kind new serial }
{
    if serial == new {
        return Ok(Place::EndOfZone { new });
    }
    match kind {
        Kind::Axfr => Err(TransferError::OtherSerial),
        Kind::Ixfr { serial: own } => after_own(new, own.get(), serial),
    }
}

/// Returns where an SOA record leads that follows the first one, if it has to have the client's version.
fn after_own(new: u32, own: u32, serial: u32) -> Result<Place, TransferError>
    ensures { result ≡ (if serial == own then Ok (Place.InDeleted new) else Err TransferError.OtherSerial) }
{
    if serial == own {
        Ok(Place::InDeleted { new })
    } else {
        Err(TransferError::OtherSerial)
    }
}

/// Returns where an SOA record leads that follows other records of a whole zone.
fn after_zone(new: u32, serial: u32) -> Result<Place, TransferError>
    ensures { result ≡ (if serial == new then Ok (Place.EndOfZone new) else Err TransferError.OtherSerial) }
{
    if serial == new {
        Ok(Place::EndOfZone { new })
    } else {
        Err(TransferError::OtherSerial)
    }
}

/// Returns where an SOA record leads that follows what a step adds.
#[tactic(auto, unfolding(crate::specs::Places::after_step))]
fn after_step(new: u32, to: u32, serial: u32) -> Result<Place, TransferError>
    ensures { result ≡ after_step new to serial }
{
    if serial != to {
        Err(TransferError::OtherSerial)
    } else if to == new {
        Ok(Place::EndOfChanges { new })
    } else {
        Ok(Place::InDeleted { new })
    }
}

/// Returns where a record leads that is no SOA record.
#[tactic(auto, unfolding(crate::specs::Places::at_other))]
fn at_other(place: Place) -> Result<Place, TransferError>
    ensures { result ≡ at_other place }
{
    match place {
        Place::Start => Err(TransferError::NoSoa),
        Place::Begun { new } | Place::InZone { new } => Ok(Place::InZone { new }),
        Place::InDeleted { .. } | Place::InAdded { .. } => Ok(place),
        Place::EndOfZone { .. } | Place::EndOfChanges { .. } | Place::UpToDate => {
            Err(TransferError::AfterEnd)
        }
    }
}
