//! What a response means to who asked.
//!
//! Read `specs/Meanings.antt` first: the definition, by the records of the zone that was asked. `specs/Counted.antt` says which these
//! are.
#![tactic(auto)]

mod aliases;
pub mod asked;
pub mod laws;
pub mod meaning;
mod names;
pub mod reason;
pub mod sought;
