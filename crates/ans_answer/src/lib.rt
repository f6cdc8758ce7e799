//! What a zone says of a name and a type.
//!
//! Read `specs/Outcomes.antt` first: which outcome a zone has for one name; then `specs/Answers.antt`: what a server says.
//! Both are by the list of the zone's records.
#![tactic(auto)]

pub mod additional;
pub mod answer;
pub mod denial;
pub mod kind;
pub mod lead;
pub mod outcome;
pub mod target;
