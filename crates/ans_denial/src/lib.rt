//! What NSEC and NSEC3 records prove of a zone: that it has no such name, or no records of a type.
//!
//! Read `specs/Nsecs.antt` and `specs/Denials.antt` first: what NSEC records say of names, and what that proves; `specs/Hashes.antt` says the
//! same of NSEC3. `specs/Chains.antt` and `specs/HashedChains.antt` say which records a zone has, and with `specs/Soundness.antt` that what
//! those prove is what the zone says.
#![tactic(auto)]

pub mod denial;
pub mod laws;
pub mod nsec;
pub mod nsec3;
mod types;
