//! Whole messages (RFC 1035, section 4): their sections, which are read without a copy, and what they say by EDNS; and EDNS options,
//! typed (IANA's registry "DNS EDNS0 Option Codes (OPT)"). The header and its codes (RFC 1035, section 4.1.1, and RFC 6895) are here too.
//!
//! It stands on names and records. Read `specs/Headers.antt` first: what a header is, and then `specs/Messages.antt`: what a message
//! is. Of options, `specs/Rules.antt` says what each may say, and the octets that say it.
//!
//! A message that is read:
//!
//! ```text
//! MessageRef::read, read_limited                                    dnw_message_read
//!     |-- read_header -- Header::from_octets
//!     |-- pass_section, for each of the four: each item is passed over, and its name is walked once, or not at all if it points
//!     |       to the name of the item before; pointers are counted, and OPT records are noticed
//!     v
//! MessageRef { header, where sections begin, end, two flags }        lends its items
//!     |-- queries -- QueryRef::read_next                            each iterator reads again what was checked
//!     |-- answers, authorities, additionals -- RecordRef::read_next
//!     |       `-- RecordRef::fields -- Fields::next -- Field::read  dnw_data: by the table of the type's fields
//!     `-- edns -- EdnsRef                                           the OPT record, among the additionals alone
//! ```
#![tactic(auto)]

pub mod code;
pub mod edns;
pub mod error;
pub mod header;
pub mod items;
pub mod laws;
pub mod message;
pub mod op_code;
pub mod option;
pub mod option_error;
pub mod option_laws;
mod passing;
pub mod pointers;
pub mod query;
pub mod response_code;
mod text;
