//! The functions of the C library that read whole messages and write them, at once or item by item, and those for records and the types
//! that bitmaps list. `include/dns_names_wire.h` says what each takes and returns, and `tools/c-library` joins them with those of
//! `dnw_c_names`.
//!
//! A slice is passed as a pointer and then a length, and results are put into structs and buffers of the caller. What is known of a message
//! that is written item by item is in a struct of the caller's. Every input is tested, whatever the caller promises, nothing is kept from
//! one call to the next, and only what copies data or lists types allocates. Read `specs/MessageCalls.antt` first: what a call puts of a
//! message; `specs/Listings.antt`: the rows of its table; `specs/WriterCalls.antt`: what a call adds of an item, and why it adds nothing;
//! and `specs/ListCalls.antt`: a message from a list.
#![tactic(auto)]
/// What messages say by EDNS.
pub mod edns;
/// The fields of the data of records.
pub mod fields;
/// Whole messages.
pub mod message;
/// What EDNS options say.
pub mod option_parts;
/// EDNS options as text.
pub mod options;
/// Names that are given by their wire forms.
pub mod owners;
/// Messages, written again.
pub mod packing;
/// Queries, as they begin.
pub mod querying;
/// The records of messages.
pub mod records;
/// Whether messages reply to requests.
pub mod replies;
/// The fields of data in the table of a message.
pub mod row_fields;
/// The rows of the table of a message.
pub mod rows;
/// All items of a message and the fields of their data as a flat table.
pub mod table;
/// Replies, as they begin.
pub mod replying;
/// Sets of records, and `OPT` records, added to messages.
pub mod sets;
/// Bitmaps of types, and lists of their codes.
pub mod type_sets;
/// Messages, written item by item.
pub mod writer;
/// Messages, written from lists of items, and records of lists, as many as a message has room for.
pub mod writing;
