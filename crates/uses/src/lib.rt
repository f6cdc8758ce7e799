//! Callers of the library, each proved: how it is called, and how its contracts are used. They name `dns_names_wire` and
//! no crate below it. README.md and CALLING.md show them.
#![tactic(auto)]

pub mod bitmap;
pub mod conversions;
pub mod copying;
pub mod denial;
pub mod example;
pub mod hashed_denial;
pub mod mail;
pub mod messages;
pub mod question;
pub mod records;
pub mod referral;
pub mod reply;
pub mod reverse;
pub mod scripts;
pub mod table;
pub mod texts;
pub mod zone;
pub mod zone_file;
