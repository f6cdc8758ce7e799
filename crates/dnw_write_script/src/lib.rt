//! Records whose data are bytes or one name, and scripts: messages that are written step by step, with a reply to each step.
//!
//! It stands on the encoder. Read `specs/WrittenRecords.antt` first: how a record is written; then `specs/Pieces.antt`: what a script
//! writes, as its steps and replies alone say.
#![tactic(auto)]

mod conversions;
mod emitting;
pub mod record_laws;
pub mod script;
pub mod wire_record;
