//! Why there are no octets that a signature covers, and why there is no sum.

use dnw_base::error::DecodeError;
use dnw_data::fields::FieldError;
use std::alloc::{AllocError, AllocFailed};
use thiserror::Error;

/// Why there are no octets that a signature covers.
#[derive(Debug, Drop, Error)]
pub enum CanonicalError {
    /// There are no records.
    #[error("no records")]
    NoRecords,
    /// The owner has fewer labels than the signature's number of labels says (RFC 4035, section 5.3.2).
    #[error("the owner has fewer labels than the signature says")]
    TooFewLabels,
    /// A record has another owner, type or class than the first one, so they are no set.
    #[error("record {record} has another owner, type or class than the first one")]
    NotInSet {
        /// The number of the record, from 0.
        record: usize,
    },
    /// The data of a record are longer than their length of two octets can say.
    #[error("the data of record {record} are too long")]
    DataTooLong {
        /// The number of the record, from 0.
        record: usize,
    },
    /// The data are not those of an RRSIG.
    #[error("no data of an RRSIG")]
    NotRrsig,
    /// A field of an RRSIG is none of its kind, or octets are left after the last one.
    #[error("the RRSIG: {0}")]
    RrsigField(FieldError),
    /// A field of a record is none of its kind, or octets are left after the last one.
    #[error("record {record}: {error}")]
    Field {
        /// The number of the record, from 0.
        record: usize,
        /// Why there is no such field.
        error: FieldError,
    },
    /// The names in the data of a record, with those of the records before it, follow more than 65,536 compression pointers.
    #[error("record {record}: too many compression pointers")]
    TooManyPointers {
        /// The number of the record, from 0.
        record: usize,
    },
    /// An allocation failed.
    #[error("out of memory")]
    Memory,
}

impl From<AllocError> for CanonicalError {
    ghost use Rattle.std.specs.Prelude.{◌≡◌};
    ghost use Rattle.dnw_signed.specs.declared.error.CanonicalError.TheVariants.{Memory};

    ghost from_gives = { λ _ e. e ≡ Memory };

    fn from(_: AllocError) -> Self {
        CanonicalError::Memory
    }
}

impl<T: Drop> From<AllocFailed<T>> for CanonicalError {
    ghost use Rattle.std.specs.Prelude.{◌≡◌};
    ghost use Rattle.dnw_signed.specs.declared.error.CanonicalError.TheVariants.{Memory};

    ghost from_gives = { λ _ e. e ≡ Memory };

    fn from(_: AllocFailed<T>) -> Self {
        CanonicalError::Memory
    }
}

/// Why there is no sum.
#[derive(Debug, Drop, Error)]
pub enum DnssecError {
    /// The octets are not the data of a DNSKEY: they have fewer than 4 octets or more than 65,535, or, for the key tag under
    /// algorithm 1, a key of fewer than 3.
    #[error("no data of a DNSKEY")]
    NotDnskey,
    /// The digest type of a DS record or the hash algorithm of an NSEC3 record is none that is known.
    #[error("{0}")]
    Decode(DecodeError),
    /// The hash algorithm of a ZONEMD record is none that is known.
    #[error("hash algorithm {0} is not known")]
    UnknownHash(u8),
    /// A name would be hashed more often than the caller allows.
    #[error("more iterations than are allowed")]
    TooManyIterations,
    /// The data of a record are longer than their length of two octets can say.
    #[error("the data of record {record} are too long")]
    DataTooLong {
        /// The number of the record, from 0.
        record: usize,
    },
    /// An allocation failed.
    #[error("out of memory")]
    Memory,
}

impl From<AllocError> for DnssecError {
    ghost use Rattle.std.specs.Prelude.{◌≡◌};
    ghost use Rattle.dnw_signed.specs.declared.error.DnssecError.TheVariants.{Memory};

    ghost from_gives = { λ _ e. e ≡ Memory };

    fn from(_: AllocError) -> Self {
        DnssecError::Memory
    }
}
