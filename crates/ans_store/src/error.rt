//! Why octets are no zone.

use thiserror::Error;

/// Why octets are no zone. Records are numbered from 0.
#[derive(Debug, Clone, Copy, PartialEq, Eq, Error)]
pub enum StoreError {
    /// There are more octets than a store holds.
    #[error("the octets are more than a store holds")]
    TooLong,
    /// No record is read after so many.
    #[error("no record is read after {number} records")]
    NoRecord {
        /// The number of the record.
        number: usize,
    },
    /// The owner of a record has a pointer.
    #[error("the owner of record {number} has a pointer")]
    PointerInOwner {
        /// The number of the record.
        number: usize,
    },
    /// The owner of a record is before that of the record before it.
    #[error("the owner of record {number} is before that of the record before it")]
    NotInOrder {
        /// The number of the record.
        number: usize,
    },
    /// The owner of a record is not in the zone.
    #[error("the owner of record {number} is not in the zone")]
    OutOfZone {
        /// The number of the record.
        number: usize,
    },
    /// The apex has no SOA record.
    #[error("the apex has no SOA record")]
    NoSoa,
    /// An allocation failed.
    #[error("out of memory")]
    Memory,
}
