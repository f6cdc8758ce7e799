//! Queries as `dnw query` makes them.
//!
//! Read `src/queries/command.rt` first: what the words ask for.

/// What the words after `dnw query` ask for.
mod command;
/// Queries.
mod written;

pub(crate) use command::query_of;
