//! The text of master files (RFC 1035, section 5): its tokens, and times to live.
//!
//! It stands on the base. Read `specs/Tokens.antt` first: the tokens of a text.
#![tactic(auto)]

pub mod errors;
pub mod ttl;
pub mod zone_lex;
