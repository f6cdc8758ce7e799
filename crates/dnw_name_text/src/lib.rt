//! The texts of names (RFC 1035, section 5.1): any octets, of which some are written after a backslash or as `\DDD` in decimal. BIND,
//! NSD, Knot, ldns and dnspython print and read them so.
//!
//! hickory-proto's texts, with octal escapes, are those of the modules `ascii` and `ascii_fault`, which nothing else uses but calls of
//! these names.
//!
//! It stands on labels and the wire form. Read `specs/NameTexts.antt` first: what is printed. `specs/NameReading.antt` has what is read,
//! and `specs/AsciiText.antt` hickory-proto's text of a name, both ways.
#![tactic(auto)]

/// Names as hickory-proto reads and prints them.
pub mod ascii;
/// Where and why such a text gives no name.
pub mod ascii_fault;
/// Where and why a text gives no name.
pub mod error;
/// What is printed of a name is read as the same name.
pub mod laws;
mod plain;
/// Names printed.
pub mod printing;
/// Names read.
pub mod reading;
