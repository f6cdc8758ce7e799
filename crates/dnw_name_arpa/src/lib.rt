//! Nets, which are addresses with the length of a prefix, and reverse names, under which the domain names of an address
//! are found.
//!
//! It stands on the wire form. Read `specs/Arpa.antt` first: the reverse name of an address, and back.
#![tactic(auto)]

pub mod laws;
pub mod net;
pub mod reading;
pub mod writing;
