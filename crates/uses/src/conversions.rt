//! The small calls between the larger ones: conversions, comparisons, texts and iterations of every type that callers meet, each
//! with `dns_names_wire` as the one crate that is listed.
//!
//! Rattle finds an impl through the type that it is for, or through its trait. Those of std's traits for std's types and for
//! references are out of reach of a crate that lists `dns_names_wire` alone: `u16::from(record_type)`, `<&str>::from(record_type)`
//! and `for label in &name`. The calls `record_type.code()`, `record_type.name()` and `name.iter()` do the same.

pub mod codes;
pub mod errors;
pub mod names;
pub mod wires;
