//! TSIG: messages that are signed with a shared key (RFC 8945). Here are its algorithms, and the MACs that they make of octets.
//!
//! Read `specs/Hmac.antt` first: HMAC, by the hash functions of the kit.
#![tactic(auto)]

pub mod algorithm;
pub mod hash;
mod hasher;
pub mod hmac;
pub mod mac;
mod names;
