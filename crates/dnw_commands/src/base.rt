//! What the commands share: why there is no answer, the octets that they are given, and how far long work is.

/// What commands are given: files, standard input, and hexadecimal digits.
mod given;
/// Why words ask for nothing that the program does.
mod misuse;
/// Where answers are written, and what is wrong.
mod output;
/// Words and names of files, as they are printed.
mod plain;
/// A line on a terminal that says how far long work is.
mod progress;
/// Why there is no answer.
pub(crate) mod refusal;
/// Octets that are read in parts.
mod window;
/// The words after a command: its options, in any order, and the others.
mod words;

pub(crate) use given::{Stream, all_of, contents, octets_of, open, unread, word_octets};
pub(crate) use misuse::Misuse;
pub(crate) use output::{Output, Sink, said_of};
pub(crate) use plain::{plain, push_octet};
pub(crate) use progress::{Progress, Watch};
pub(crate) use refusal::Refusal;
pub(crate) use window::line_len;
pub(crate) use words::{Given, Known};
