//! Writing messages, and what can be written into them.
//!
//! It stands on names and candidates. Read `specs/Encoder.antt` first: the encoder as a value.
//!
//! A name that is written:
//!
//! ```text
//! Name::emit, NameRef::emit                                         dnw_write
//!     |  WireLabels: the labels over the name's own octets
//!     v
//! BinEncoder::emit_labels -- write_labels
//!     |-- no candidate, or `compresses` is false ------------------> emit_whole -- keep_suffixes -- emit_vec
//!     |-- find_suffix: for each suffix, from the longest on,
//!     |       find_usable -- Candidates::find_usable                dnw_write_suffixes: tag_table.rt leads from one candidate
//!     |                         |-- stands_at                       that may have the suffix to the next, and what it
//!     |                         |                                   points to is read in the message first
//!     |                         `-- find_among_many                 past 255 candidates links.rt leads on
//!     |-- none -----------------------------------------------------> emit_whole
//!     `-- a suffix ------------------------------------------------> emit_shared -- keep_suffixes -- write_front
//! ```
#![tactic(auto)]

pub mod binary;
pub mod encoder;
