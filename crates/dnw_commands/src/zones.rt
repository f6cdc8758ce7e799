//! Zone files as `dnw zone` and `dnw zone-digest` read them, with the files that they include: as lines of their records, as what
//! they are found to have, or as their errors.
//!
//! Read `src/zones/command.rt` first: what the words ask for.

/// What a zone is found to have, as compilers show it.
mod checked;
/// What the words after `dnw zone` and `dnw zone-digest` ask for.
mod command;
/// Errors of texts, as compilers show them.
mod faults;
/// Files that zone files include (RFC 1035, section 5.1).
mod includes;
/// Records that are kept until all of a zone are there.
mod kept;
/// What is read of zone files: their records, and the lines of their errors.
mod lines;
/// Zone files, as lines of their records.
mod listing;
/// The records of a zone, as they are shown.
mod shown;
/// The order of sort keys.
mod sorting;
/// Single zone files, entry by entry.
mod source;

pub(crate) use command::{digest, zone};
