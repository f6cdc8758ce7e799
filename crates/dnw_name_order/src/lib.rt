//! The order, equality, hash and sort keys of names over their labels, without regard to whether a name is fully qualified.
//!
//! It stands on the wire form. Read `specs/Order.antt` first: the order of names.
#![tactic(auto)]

pub mod from_last;
mod octets;
pub mod order;
pub mod sort_key;
pub mod sorting;
