//! A zone in memory.
ghost use Rattle.std.specs.Prelude.{◌≡◌, ◌≤◌, ◌<◌, true, length, IfOk, IfErr, slice_index_or, slice_range};
ghost use Rattle.ans_store.specs.Loading.{FailsToLoad};
ghost use Rattle.ans_store.specs.Stored.{AreRecordsFrom};
ghost use Rattle.ans_store.specs.Zones.{IsNode, IsZone, name_exists, have_type};

use crate::error::StoreError;
use crate::lookup::{self, Node, first_outside, out_of_order};
use crate::records::Records;
use dns_names_wire::type_codes::SOA;
use dns_names_wire::{Name, RecordRef};
use std::alloc::Global;
use std::marker::Model;

/// A zone in memory: its apex, and its records in canonical order of their owners (RFC 4034, section 6.1). The octets of the records are
/// the caller's, and are not copied; four octets a record are kept beside them. No look-up allocates.
///
/// A contract sees it as a zone: the name of its apex, and its records.
#[derive(Drop)]
pub struct ZoneStore<'a> {
    apex: Name,
    records: Records<'a>,
}

impl<'a> Model for ZoneStore<'a> {
    ghost use Rattle.ans_store.specs.Zones.{IsZone, ZoneValue};

    ghost Value = { ZoneValue };

    ghost view = { λ s. record { apex = s.apex.labels; records = s.records } };

    ghost invariant = { λ s. IsZone (record { apex = s.apex.labels; records = s.records }) };
}

impl<'a> ZoneStore<'a> {
    /// Takes the zone that these octets are: its records in wire form, one after another, in canonical order of their owners, which have
    /// no pointer.
    ///
    /// It fails as `Records::read` does; with `NotInOrder` if an owner is before that of the record before it; with `OutOfZone` if
    /// an owner is not in the zone; with `NoSoa` if the apex has no SOA record; and with `Memory` if an allocation fails.
    pub fn load(alloc: Global, apex: Name, octets: &'a [u8]) -> Result<Self, StoreError>
        ensures ok { IfOk result (λ zone. (zone.apex ≡ apex.labels) × AreRecordsFrom octets.now 0 zone.records (length octets.now)) }
        ensures zone { IfOk result IsZone }
        ensures err { IfErr result (FailsToLoad apex.labels octets.now) }
    {
        let records = Records::read(alloc, octets)?;
        if let Some(number) = out_of_order(alloc, &records) {
            return Err(StoreError::NotInOrder { number });
        }
        if let Some(number) = first_outside(&records, &apex) {
            return Err(StoreError::OutOfZone { number });
        }
        let node = lookup::node_of(&records, &apex);
        if !lookup::have_type(&records, node.start, node.end, SOA) {
            return Err(StoreError::NoSoa);
        }
        Ok(ZoneStore { apex, records })
    }

    /// Returns the name of the apex.
    #[inline(always)]
    #[tactic(auto, using(crate::proofs::Search::owner_exists))]
    pub fn apex(&self) -> &Name
        ensures apex { result.now.labels ≡ self.now.apex }
        ensures zone { IsZone self.now }
        ensures there { name_exists self.now.apex self.now.records ≡ true }
    {
        &self.apex
    }

    /// Returns the number of records.
    #[inline(always)]
    pub fn len(&self) -> usize
        ensures { result ≡ length self.now.records }
    {
        self.records.len()
    }

    /// Returns the record of this number, from 0.
    #[inline(always)]
    pub fn get(&self, number: usize) -> RecordRef<'a>
        requires { number < length self.now.records }
        ensures { result ≡ slice_index_or self.now.records number result }
    {
        self.records.get(number)
    }

    /// Returns which records a name owns, and whether it exists. The time is that of two searches among all records, and of those that
    /// the name owns.
    pub fn node(&self, name: &Name) -> Node
        ensures { IsNode self.now.records name.now.labels result }
    {
        lookup::node_of(&self.records, name)
    }

    /// Returns `true` if one of the records that a name owns has this type.
    pub fn have_type(&self, node: Node, code: u16) -> bool
        requires ordered { node.start ≤ node.end }
        requires within { node.end ≤ length self.now.records }
        ensures { result ≡ have_type code (slice_range self.now.records node.start node.end) }
    {
        lookup::have_type(&self.records, node.start, node.end, code)
    }
}
