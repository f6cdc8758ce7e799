//! Zone files, entry by entry (RFC 1035, section 5; RFC 2308, section 4): records, `$ORIGIN`, `$TTL` and `$INCLUDE`, with the place of
//! each error.
//!
//! Read `specs/Entries.antt` first: what an entry is, after those before it. `specs/Steps.antt` has what a text begins with,
//! `specs/ZoneTexts.antt` what a whole text means, and `specs/Written.antt` what is written of a record.
#![tactic(auto)]

/// What earlier entries say for later ones.
pub mod context;
/// Single entries.
pub mod entry;
/// Why an entry is none.
pub mod error;
/// Words of entries that begin with `$`.
pub mod directive;
/// The time to live, the class and the type of a record.
pub mod head;
/// What the templates of `$GENERATE` make.
pub mod template;
/// `$GENERATE`, which stands for many records.
pub mod generate;
/// Entries of a text, one after the other.
pub mod step;
/// Lines and columns of texts.
pub mod place;
/// Whole texts of zone files.
pub mod zone_text;
/// Records written as entries.
pub mod writer;
/// Records written after others, whose owners and times to live are left out.
pub mod short_line;
/// Records that are written are read as the same.
pub mod laws;
