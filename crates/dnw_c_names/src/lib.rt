//! The functions of the C library for names. `include/dns_names_wire.h` says what each function takes and returns, and
//! `tools/c-library` joins them with those of the crates for messages, texts and signatures.
//!
//! A slice is passed as a pointer and then a length, and results are put into buffers of the caller. Every input is
//! tested, whatever the caller promises, and nothing is kept from one call to the next. Read `specs/NameCalls.antt` first: why a
//! call that takes a name fails.
#![tactic(auto)]

/// Names changed, by their wire forms.
pub mod edits;
/// Names of a list, read one after another.
mod list;
/// Names read, written, parsed and printed.
pub mod names;
/// Names compared, and in lower case.
pub mod order;
/// Reverse names.
pub mod reverse;
/// Sort keys of names.
pub mod sort_key;
/// Lists of names, sorted.
pub mod sorting;
/// Where the texts of names go wrong.
pub mod text_faults;
/// The version of the library.
pub mod version;
/// Octets that are the wire form of a name.
pub mod wire_form;
