//! What an encoder remembers of the names that it wrote, so that later names can point to them (RFC 1035, section
//! 4.1.4).
//!
//! It stands on reading and on the wire form. Read `specs/Candidates.antt` first: what a candidate is, and which one is
//! usable.
#![tactic(auto)]

pub mod candidates;
mod links;
mod octets;
mod store;
mod tag_table;
pub mod usable;
