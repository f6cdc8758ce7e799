//! The text of single values in master files (RFC 1035, section 5.1): how a number, octets, a time, an address or a
//! character string of a record's data is printed, and how it is parsed from a token's text; hashed names in base 32 (RFC 5155,
//! section 3.3), and EUI-48 and EUI-64 as pairs of hexadecimal digits (RFC 7043); and the parameters of SVCB and HTTPS records
//! (RFC 9460, section 2.1 and appendix A).
//!
//! Each kind of value has a word in `specs/` that says which texts spell which values, and what is printed is parsed as
//! the same value. It stands on std and the kit alone. Read `specs/Spelling.antt` first: what a call that parses returns.
//! `specs/ParamWords.antt` says which word is which parameter.
#![tactic(auto)]

pub mod address;
pub mod base32;
pub mod error;
mod fours;
mod items;
mod keys;
pub mod laws;
mod lists;
pub mod location;
pub mod location_laws;
pub mod locator;
pub mod mandatory;
pub mod mnemonic;
pub mod nsap;
pub mod number;
pub mod octets;
pub mod pairs;
pub mod param;
pub mod param_laws;
pub mod prefix;
pub mod printing;
pub mod string;
pub mod tag;
pub mod time;
mod values;
pub mod word;
