//! Resource records: read from messages without a copy, and owned; their data by the table of fields.
//!
//! It stands on `dnw_data`. Read `specs/Records.antt` first: what a record in a message is; then `specs/DataPieces.antt`: what the
//! octets of data are made of.
#![tactic(auto)]

pub mod from_fields;
pub mod laws;
pub mod pointers;
pub mod rdata;
pub mod record;
pub mod record_ref;
