//! The text of the data of records in master files (RFC 1035, section 5.1): how it is split into words, and the texts of names, of
//! lists of record types, of service parameters and of whole data by the table of fields; and the form that any data have (RFC 3597,
//! section 5).
//!
//! It stands on records and on the texts of single values. Read `specs/Words.antt` first: what a word is. `specs/Printing.antt` has the
//! text of each kind of field.
#![tactic(auto)]

mod bitmaps;
pub mod data_text;
pub mod error;
pub mod extent;
mod gateways;
pub mod generic;
pub mod laws;
mod location;
mod locators;
pub mod name;
mod name_lists;
pub mod number_form;
pub mod params;
mod parsing;
mod prefixes;
mod printing;
mod spelling;
pub mod string_lists;
pub mod types;
pub mod words;
