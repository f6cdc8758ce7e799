//! Records that are kept until all of a zone are there.

use crate::base::Refusal;
use crate::zones::sorting::order_of;
use dns_names_wire::binary::BinDecodable;
use dns_names_wire::canonical::record_key;
use dns_names_wire::rdata::Record;
use dns_names_wire::record::RecordRef;
use std::alloc::Global;

/// Where an entry of a zone file begins.
#[derive(Clone, Copy)]
pub(crate) struct Place {
    /// How many files were opened before its file.
    pub(crate) file: usize,
    /// The line, from 0.
    pub(crate) line: usize,
}

/// Runs of octets. They stand one after the other, since a zone has many.
#[derive(Drop)]
struct Runs {
    octets: Vec<u8>,
    /// Where each run ends.
    ends: Vec<usize>,
}

impl Runs {
    /// Creates a list without runs.
    fn new(alloc: Global) -> Self {
        Runs {
            octets: Vec::new(alloc),
            ends: Vec::new(alloc),
        }
    }

    /// Adds a run.
    fn add(&mut self, run: &[u8]) -> Result<(), Refusal> {
        self.octets.extend_from_slice(run)?;
        self.ends.push(self.octets.len())?;
        Ok(())
    }

    /// Returns a run, by how many came before it.
    fn get(&self, number: usize) -> &[u8] {
        let start = match number.checked_sub(1) {
            Some(before) => self.ends.get(before).copied().unwrap_or_default(),
            None => 0,
        };
        let end = self.ends.get(number).copied().unwrap_or_default();
        self.octets.as_slice().get(start..end).unwrap_or_default()
    }
}

/// The records of a zone, as they came.
#[derive(Drop)]
pub(crate) struct Kept {
    /// The sort keys of the records.
    keys: Runs,
    /// The wire forms of the records.
    wires: Runs,
    places: Vec<Place>,
}

impl Kept {
    /// Creates a list without records.
    pub(crate) fn new(alloc: Global) -> Self {
        Kept {
            keys: Runs::new(alloc),
            wires: Runs::new(alloc),
            places: Vec::new(alloc),
        }
    }

    /// Adds the record that has this wire form, and is at this place.
    pub(crate) fn add(&mut self, alloc: Global, wire: &[u8], place: Place) -> Result<(), Refusal> {
        let key = record_key(alloc, &RecordRef::from_bytes(alloc, wire)?)?;
        self.keys.add(key.as_slice())?;
        self.wires.add(wire)?;
        self.places.push(place)?;
        Ok(())
    }

    /// Returns the records, as they came.
    pub(crate) fn records(&self, alloc: Global) -> Result<Vec<Record>, Refusal> {
        let mut records = Vec::with_capacity(alloc, self.len())?;
        for number in 0..self.len() {
            let record = RecordRef::from_bytes(alloc, self.wires.get(number))?;
            records.push(Record::from_ref(alloc, &record)?)?;
        }
        Ok(records)
    }

    /// Returns how many records there are.
    pub(crate) fn len(&self) -> usize {
        self.places.len()
    }

    /// Returns the records in canonical order (RFC 4034, section 6), and those that are equal as they came.
    pub(crate) fn in_order(self, alloc: Global) -> Result<InOrder, Refusal> {
        let order = order_of(
            alloc,
            self.keys.octets.as_slice(),
            self.keys.ends.as_slice(),
        )?;
        Ok(InOrder {
            order,
            wires: self.wires,
            places: self.places,
        })
    }
}

/// The records of a zone in canonical order.
#[derive(Drop)]
pub(crate) struct InOrder {
    /// How many records came before each.
    order: Vec<usize>,
    /// The wire forms of the records, as they came.
    wires: Runs,
    /// The places of the records, as they came.
    places: Vec<Place>,
}

impl InOrder {
    /// Returns how many records came before each.
    pub(crate) fn order(&self) -> &[usize] {
        self.order.as_slice()
    }

    /// Returns the wire form of a record, by how many came before it.
    pub(crate) fn wire(&self, number: usize) -> &[u8] {
        self.wires.get(number)
    }

    /// Returns the place of a record, by how many came before it.
    pub(crate) fn place(&self, number: usize) -> Option<Place> {
        self.places.get(number).copied()
    }
}
