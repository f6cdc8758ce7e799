//! Messages as text: in the layout of `dig`, and as JSON (RFC 8427).
//!
//! It stands on what is read of messages and on the texts of records: each name, record and option is printed by its proved call.
//! Read `specs/MessageTexts.antt` first: which lines a section has.
#![tactic(auto)]

/// What a message says by EDNS.
mod edns;
/// Headers.
mod header;
/// Messages as JSON.
pub mod json;
/// What a message says by EDNS, as JSON.
mod json_edns;
/// Questions and records as JSON.
mod json_items;
/// JSON strings.
mod json_string;
/// The questions and the records of a message.
mod sections;
/// Messages in the layout of `dig`.
pub mod text;
