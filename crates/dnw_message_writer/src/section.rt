//! Sections of a message that is written.
ghost use Rattle.std.specs.Prelude.{◌≡◌, ◌≤◌, ◌+◌};
ghost use Rattle.dnw_message_writer.specs.Sections.{offset_of_count, rank};

use thiserror::Error;

/// A section of a message (RFC 1035, section 4.1).
#[derive(Debug, Clone, Copy, PartialEq, Eq)]
pub enum Section {
    /// The questions.
    Queries,
    /// The records that answer.
    Answers,
    /// The records that lead to an authority.
    Authorities,
    /// The records that help.
    Additionals,
}

impl Section {
    /// Returns the number of sections before this one.
    #[inline(always)]
    pub fn rank(self) -> u8
        ensures value { result ≡ rank self }
        ensures few { result ≤ 3 }
    {
        match self {
            Section::Queries => 0,
            Section::Answers => 1,
            Section::Authorities => 2,
            Section::Additionals => 3,
        }
    }

    /// Returns the offset of the section's count in the header (RFC 1035, section 4.1.1).
    #[inline(always)]
    pub(crate) fn offset_of_count(self) -> usize
        ensures value { result ≡ offset_of_count self }
        ensures few { result ≤ 10 }
    {
        4 + 2 * self.rank() as usize
    }
}

/// Why an item was not added to a message.
#[derive(Debug, Drop, Error, PartialEq, Eq)]
pub enum WriteError {
    /// The state is that of no message: it ends within its header, or a section has all items that its count can say.
    #[error("the state of the writer is that of no message")]
    NoMessage,
    /// A later section of the message has items already.
    #[error("a later section of the message has items already")]
    OutOfOrder,
    /// The item, as it would be written, does not fit.
    #[error("the message has no room for the item")]
    NoRoom,
    /// The message has an `OPT` record already (RFC 6891, section 6.1.1).
    #[error("the message has an OPT record already")]
    SecondOpt,
    /// The options of an `OPT` record end within an option (RFC 6891, section 6.1.2).
    #[error("an option of the OPT record is cut")]
    CutOption,
}
