//! The text of a record: a line of a master file, with the owner, the time to live, the class, the type and the data
//! (RFC 1035, section 5.1); and how an entry is found in a text: where it ends, what of it are words, and what is a comment, a
//! parenthesis or white space.
//!
//! It stands on the texts of data. Read `specs/Lines.antt` first: which line a text begins with; then `specs/RecordLines.antt`: which
//! line is which record.
#![tactic(auto)]

pub mod data_entry;
pub mod entry;
pub mod laws;
pub mod record_line;
/// Entries found.
pub mod scan;
/// Rules that a text may be against.
pub mod word_error;
/// What follows from the definition of lines.
pub mod word_laws;
