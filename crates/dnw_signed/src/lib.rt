//! What DNSSEC computes: records in canonical form, which are the octets that a signature covers (RFC 4034, sections 3.1.8.1, 6.2 and
//! 6.3); key tags and digests of keys (RFC 4034, section 5.1.4 and appendix B); hashed names (RFC 5155, section 5); which names and
//! hashed names a record covers; and digests of zones (RFC 8976).
//!
//! It stands on `dnw_record`, and on the hash functions of the kit. Read `specs/RecordSets.antt` first: what the octets of a set of
//! records are; and `specs/HashedNames.antt`: the iterated hash of a name.
#![tactic(auto)]

pub mod canonical;
pub mod covering;
pub mod covers;
mod data_list;
pub mod ds;
pub mod error;
pub mod fields;
pub mod key_tag;
pub mod laws;
pub mod nsec3;
pub mod record_key;
mod set;
pub mod zone_digest;
