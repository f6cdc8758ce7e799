//! Names that stand in a message, found by a walk that copies nothing (RFC 1035, section 4.1.4).
//!
//! It stands on the base. Read `specs/Reading.antt` first: which names are read, and where reading stops.
#![tactic(auto)]

pub mod copy;
pub mod laws;
pub mod ref_labels;
pub mod walk;
