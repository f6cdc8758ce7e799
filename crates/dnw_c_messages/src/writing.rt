//! Messages that are written from a list of items.
ghost use Rattle.std.specs.Prelude.{◌≡◌};
ghost use Rattle.dnw_c_base.specs.Results.{Returns};
ghost use Rattle.dnw_c_messages.specs.ListCalls.{FillsListOr, WritesMessageOr, of_list};

use dnw_c_base::failure::Failure;
use dnw_c_base::results::report;
use dnw_message_writer::list::fill::fill_list;
use dnw_message_writer::list::writing::write_list;
use dnw_message_writer::list::{ListError, Written};
use dnw_message_writer::state::WriterState;

/// Puts a message of the items of a list, with a response code, of which the header has the low four bits and the `OPT` record the
/// others. Sets of records that have no room are left out of a response, but for one to a transfer. `OPT`, and then TSIG or SIG(0), come
/// last. A reply with FORMERR, NOTIMP or BADVERS has no other records, if `is_reply` is true. If `block` is not 0, the `OPT` record pads
/// the message to a multiple of so many octets.
#[unsafe(no_mangle)]
pub extern "C" fn dnw_message_write(
    items: &[u8],
    max_size: usize,
    id: u16,
    flags: u16,
    response_code: u16,
    is_reply: bool,
    block: u16,
    message: &mut [u8],
    written: &mut Written,
) -> u32
    ensures { Returns (WritesMessageOr items.now max_size id flags response_code is_reply block message.old message.new) written.old written.new result }
{
    let put = write(
        items,
        max_size,
        id,
        flags,
        response_code,
        is_reply,
        block,
        message,
    );
    report(put, written)
}

/// Adds records of a list from an offset on, up to the first that has no room, and puts the offset of the one that is next.
#[unsafe(no_mangle)]
pub extern "C" fn dnw_writer_fill(
    message: &mut [u8],
    items: &[u8],
    start: usize,
    writer: &mut WriterState,
    next: &mut usize,
) -> u32
    ensures { Returns (FillsListOr items.now start writer.old message.old writer.new message.new) next.old next.new result }
{
    report(fill(message, items, start, writer), next)
}

/// Puts a message of the items of a list.
fn write(
    items: &[u8],
    max_size: usize,
    id: u16,
    flags: u16,
    code: u16,
    is_reply: bool,
    block: u16,
    message: &mut [u8],
) -> Result<Written, Failure>
    ensures { WritesMessageOr items.now max_size id flags code is_reply block message.old message.new result }
{
    match write_list(items, max_size, id, flags, code, is_reply, block, message) {
        Ok(written) => Ok(written),
        Err(error) => Err(of_list(error)),
    }
}

/// Adds records of a list from an offset on, up to the first that fails.
fn fill(
    message: &mut [u8],
    items: &[u8],
    start: usize,
    writer: &mut WriterState,
) -> Result<usize, Failure>
    ensures { FillsListOr items.now start writer.old message.old writer.new message.new result }
{
    match fill_list(message, items, start, writer) {
        Ok(next) => Ok(next),
        Err(error) => Err(of_list(error)),
    }
}

/// Returns the failure that stands for why a list is not written.
fn of_list(error: ListError) -> Failure
    ensures { result ≡ of_list error }
{
    match error {
        ListError::BadItem => Failure::BadItem,
        ListError::BadData => Failure::BadData,
        ListError::NoRoom => Failure::NoRoom,
        ListError::TooLong => Failure::MessageTooLong,
        ListError::SecondOpt => Failure::DuplicateEdns,
        ListError::OwnerNotRoot => Failure::OwnerNotRoot,
        ListError::CutOption => Failure::CutOption,
        ListError::NoMessage => Failure::MessageCut,
    }
}
