//! Names as `dnw name` shows them, and the sums of DNSSEC over single records and names.
//!
//! Read `src/names/command.rt` first: what the words ask for.

/// What the words after `dnw name`, `dnw key-tag`, `dnw ds` and `dnw nsec3` ask for.
mod command;
/// The names in the lines of files.
mod listed;
/// Names: their wire forms and sort keys, reverse names, and canonical order.
mod shown;
/// The sums that DNSSEC makes, over records as entries of master files and over names.
mod sums;

pub(crate) use command::{ds, key_tag, names, nsec3};
