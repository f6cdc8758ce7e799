//! Checks of zones: what they have that the standards forbid or advise against, by the list of their records.
//!
//! Read `specs/Checks.antt` first: which findings a list of records has. `specs/HostNames.antt` has the names of hosts, and
//! `specs/CheckedData.antt` which data are the same, or forbidden.
#![tactic(auto)]

/// What zones are found to have.
pub mod finding;
/// Checks of zones.
pub mod checks;
/// Names that hosts have.
mod host;
/// Names and types, as checks compare them.
mod lookup;
/// Records of a zone, by their owners.
mod zone;
/// The first records of sets.
mod sets;
/// Data that are the same, and data that are forbidden.
mod checked_data;
/// What is found of single records.
mod own_checks;
/// What is found of the names of servers.
mod servers;
