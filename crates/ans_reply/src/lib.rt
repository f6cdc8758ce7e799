//! What a server replies to a request by its zone, as the list of items of which the message is written.
//!
//! Read `specs/Replies.antt` first: what a reply says; then `specs/Sections.antt`: which records its sections have; then
//! `specs/Lists.antt`: the list.
#![tactic(auto)]

pub mod head;
mod helping;
mod item;
pub mod message;
mod record;
pub mod reply;
mod section;
mod seen;
