//! Messages, written item by item into a buffer of the caller (RFC 1035, section 4). Nothing is allocated.
//!
//! It stands on the wire form and on reading. Read `specs/CompressedNames.antt` first: how a name is written.
#![tactic(auto)]

pub mod copying;
pub mod data;
pub mod edns;
pub mod halves;
pub mod hints;
mod items;
mod last;
pub mod laws;
pub mod list;
pub mod listed;
mod missing;
pub mod names;
pub mod needs;
pub mod padded;
pub mod pieces;
pub mod query;
pub mod reply;
pub mod section;
pub mod set;
pub mod standing;
pub mod state;
mod taking;
mod whole;
