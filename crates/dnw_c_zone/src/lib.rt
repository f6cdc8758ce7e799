//! The functions of the C library for the texts of master files: records, tokens, times to live, and the codes of types and
//! classes; for messages as text; and for serial numbers. `include/dns_names_wire.h` says what each takes and returns, and
//! `tools/c-library` joins them with those of `dnw_c_names`.
//!
//! A slice is passed as a pointer and then a length, and results are put into structs and buffers of the caller. Every input is
//! tested, whatever the caller promises, and nothing is kept from one call to the next. Read `specs/PrintCalls.antt` first: what
//! a call puts of a record, and `specs/MessagePrintCalls.antt`: what it puts of a message; and then `specs/ParseCalls.antt`: what it
//! puts of a text, and `specs/FaultCalls.antt`: where a text goes wrong.
#![tactic(auto)]

/// Codes of types and classes, and serial numbers.
pub mod codes;
/// Messages as text.
pub mod message_printing;
/// Records and data that are texts.
pub mod parsing;
/// Records as text.
pub mod printing;
/// What is wrong with texts, in numbers and sentences.
pub mod reason;
/// Where the texts of records and data go wrong.
pub mod text_faults;
/// The tokens of master files.
pub mod tokens;
/// Times to live.
pub mod ttl;
/// What C learns of the entries of zone files.
pub mod zone_entry;
/// Zone files, entry by entry.
pub mod zone_file;
/// Places in zone files.
pub mod zone_place;
/// Many entries of zone files in one call.
pub mod zone_rows;
/// What is known of a zone file that is read.
pub mod zone_state;
/// Zone files that are written.
pub mod zone_writing;
