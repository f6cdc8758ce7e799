//! Why octets are no message.

use dnw_base::error::DecodeError;
use thiserror::Error;

/// A part of a message (RFC 1035, section 4.1).
#[derive(Debug, Clone, Copy, PartialEq, Eq)]
pub enum Section {
    /// The header.
    Header,
    /// The questions.
    Queries,
    /// The records that answer.
    Answers,
    /// The records that lead to an authority.
    Authorities,
    /// The records that help.
    Additionals,
}

/// What is wrong with an item of a message.
#[derive(Debug, Drop, Error)]
pub enum MessageErrorKind {
    /// It could not be read.
    #[error("{0}")]
    Decode(DecodeError),
    /// Its name, with those before it, follows more pointers than the reader allows.
    #[error("too many compression pointers")]
    TooManyPointers,
}

/// Why octets are no message, and where.
#[derive(Debug, Drop, Error)]
#[error("{section:?} {item} at offset {offset}: {kind}")]
pub struct MessageError {
    /// The section of the item that could not be read.
    pub section: Section,
    /// The number of the item in its section, from 0 on.
    pub item: u16,
    /// The offset at which the item begins.
    pub offset: usize,
    /// What is wrong with it.
    pub kind: MessageErrorKind,
}
