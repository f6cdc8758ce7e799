//! What the archives of the C library share: why its functions fail, in one table of the failures, with their numbers and texts; how
//! results are put into the buffers of callers; names at offsets of messages; and orders as numbers.
//!
//! It stands on the errors, on names in messages, and on what a buffer has that bytes are put into. Read `specs/Failures.antt`
//! first: the table, and which failure stands for which error.
#![tactic(auto)]

pub mod buffer;
pub mod failure;
pub mod names;
pub mod results;
pub mod sign;
