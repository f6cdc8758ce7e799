//! Names in lower case, as zones and caches are keyed, and the types that give a name; the keys of sets of records; special-use zones.
//!
//! It stands on names. Read `specs/LowerNames.antt` first: what a name in lower case is. `specs/Zones.antt` has the
//! special-use zones, a line each.
#![tactic(auto)]

pub mod into_name;
pub mod lower_name;
pub mod rr_key;
pub mod usage;
