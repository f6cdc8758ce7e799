//! The base of the DNS wire layer: record types and classes, with one table of each, serial numbers, the errors, the limits,
//! untrusted values and the decoder.
//!
//! It stands on no other crate of the library. Read `specs/RecordTypes.antt` first: the table of types. `specs/Fault.antt` says why a
//! call fails, and `specs/Names.antt` what a name is.
#![tactic(auto)]

pub mod code_text;
pub mod decoder;
pub mod dns_class;
pub mod error;
pub mod limits;
pub mod record_type;
pub mod restrict;
pub mod serial_number;
mod table;
pub mod type_codes;
mod type_names;
