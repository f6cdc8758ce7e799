//! Messages from lists of items: which sets of records are left out if they have no room, whether TC says so, and what comes last.
//!
//! A list has an octet for each item, and then the item as it stands in a message, with its names whole (RFC 1035, sections 4.1.2 and
//! 4.1.3): a question, or a record. `push` has what makes lists. Read `specs/Lists.antt` first: what a list says, and the message that is written
//! of it.
ghost use Rattle.std.specs.Prelude.{◌≡◌, ◌≤◌, length};
ghost use Rattle.dnw_message_read.specs.Headers.{header_size};
ghost use Rattle.dnw_message_writer.specs.ListResults.{error_of_data, error_of_write, is_cut};

use crate::listed::DataError;
use crate::section::WriteError;
use dnw_message_read::header::Header;
use thiserror::Error;

/// The records of a list that come last in its message.
mod ends;
/// Records of a list, as many as a message has room for.
pub mod fill;
/// Sets of records of a list, of which a part is left out.
mod halves;
/// The items of lists.
mod items;
/// Lists, made item by item.
pub mod push;
/// Messages, written from lists.
pub mod writing;

/// Why a list of items was not written.
#[derive(Debug, Clone, Copy, PartialEq, Eq, Error)]
pub enum ListError {
    /// An item is of no kind, is cut, comes before one of an earlier section or is a second signature, or the message has no `OPT` record
    /// for its response code.
    #[error("an item of the list is malformed or out of order")]
    BadItem,
    /// The data of a record are none of its class and type.
    #[error("the data of a record are none of its class and type")]
    BadData,
    /// The buffer has no room for a header.
    #[error("the buffer has no room for a header")]
    NoRoom,
    /// The message would be longer than its maximum or the buffer, and may not leave out what has no room.
    #[error("the message would be longer than its maximum")]
    TooLong,
    /// There is more than one `OPT` record (RFC 6891, section 6.1.1).
    #[error("the message has more than one OPT record")]
    SecondOpt,
    /// The `OPT` record is not owned by the root (RFC 6891, section 6.1.2).
    #[error("the OPT record is not owned by the root")]
    OwnerNotRoot,
    /// The options of the `OPT` record end within an option (RFC 6891, section 6.1.2).
    #[error("an option of the OPT record is cut")]
    CutOption,
    /// The state of the writer is that of no message, or a section has all items that its count can say.
    #[error("the state of the writer is that of no message")]
    NoMessage,
}

/// A message that was written: the number of its octets, and the bit TC of its header.
#[repr(C)]
#[derive(Debug, Clone, Copy, PartialEq, Eq)]
pub struct Written {
    /// How many octets the message has.
    pub len: usize,
    /// Whether something is left out that the message was to have.
    pub truncated: bool,
}

/// Returns `true` if the bit TC of a message is set.
pub fn is_cut(message: &[u8]) -> bool
    requires { header_size ≤ length message.now }
    ensures { result ≡ is_cut message.now }
{
    let header = Header::from_octets(message.first_chunk().unwrap());
    header.metadata.truncation
}

/// Returns why an item of a list is not added.
pub(crate) fn of_write(error: &WriteError) -> ListError
    ensures { result ≡ error_of_write error.now }
{
    match error {
        WriteError::NoMessage => ListError::NoMessage,
        WriteError::OutOfOrder => ListError::BadItem,
        WriteError::NoRoom => ListError::TooLong,
        WriteError::SecondOpt => ListError::SecondOpt,
        WriteError::CutOption => ListError::CutOption,
    }
}

/// Returns why a record of a list is not added.
pub(crate) fn of_data(error: &DataError) -> ListError
    ensures { result ≡ error_of_data error.now }
{
    match error {
        DataError::List => ListError::BadItem,
        DataError::Data => ListError::BadData,
        DataError::Write(error) => of_write(error),
    }
}
