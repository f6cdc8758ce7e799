//! The records of a zone in memory, found by their owners.
//!
//! Read `specs/Zones.antt` first: what a zone is, which records a name owns, and which names exist.
#![tactic(auto)]

pub mod error;
pub mod lookup;
mod records;
pub mod store;
