//! Whole messages as `dnw message` shows them: of digits, of a file or of standard input, one or many, in the layout of `dig` or as
//! JSON.
//!
//! Read `src/messages/command.rt` first: what the words ask for.

/// What the words after `dnw message` ask for.
mod command;
/// Many messages, one after the other.
mod page;

pub(crate) use command::messages;
