//! Transfers of zones, whole (AXFR, RFC 5936) and by their changes (IXFR, RFC 1995).
//!
//! Read `specs/Transfers.antt` first: which records are a whole zone, and which are changes of one. `specs/Places.antt` says how far a
//! transfer has come after each record and message, and why one does not belong there; `specs/Laws.antt` that what came to its end is
//! what the first file says.
#![tactic(auto)]

pub mod changes;
pub mod error;
pub mod laws;
mod passing;
pub mod place;
mod reply;
pub mod request;
pub mod transfer_in;
