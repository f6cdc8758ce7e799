//! Messages, written again in fewer octets.
ghost use Rattle.std.specs.Prelude.{◌≡◌};
ghost use Rattle.dnw_c_base.specs.Results.{Returns};
ghost use Rattle.dnw_c_messages.specs.PackCalls.{PacksMessage, of_copy};

use crate::edns::of_edns;
use crate::message::of_message;
use crate::writer::of_write;
use dnw_c_base::failure::{Failure, of_decode};
use dnw_c_base::results::report;
use dnw_message_read::message::MessageRef;
use dnw_message_writer::copying::CopyError;
use dnw_message_writer::list::{Written, is_cut};
use dnw_message_writer::standing::FIRST_ITEM;
use dnw_message_writer::state::WriterState;
use std::alloc::Global;

/// Puts a copy of the message at the start of these octets, with compression, in at most `max_size` octets. A set of records that has
/// no room is left out, and the later ones of its section; then TC is set, unless it only goes with answers. If `block` is not 0, its
/// `OPT` record pads it to a multiple of so many octets.
#[unsafe(no_mangle)]
pub extern "C" fn dnw_message_pack(
    alloc: Global,
    message: &[u8],
    max_size: u16,
    block: u16,
    packed: &mut [u8],
    found: &mut Written,
) -> u32
    ensures { Returns (PacksMessage message.now max_size block packed.old packed.new) found.old found.new result }
{
    let copied = pack(
        alloc,
        message,
        usize::from(max_size),
        usize::from(block),
        packed,
    );
    report(copied, found)
}

/// Puts a copy of a message.
fn pack(
    alloc: Global,
    octets: &[u8],
    max_size: usize,
    block: usize,
    packed: &mut [u8],
) -> Result<Written, Failure>
    ensures { PacksMessage octets.now max_size block packed.old packed.new result }
{
    let message = match MessageRef::read(octets) {
        Ok(message) => message,
        Err(error) => return Err(of_message(&error.kind)),
    };
    if packed.len() < FIRST_ITEM {
        return Err(Failure::NoRoom);
    }
    let mut writer = WriterState::new();
    if let Err(error) = writer.copy_padded(alloc, packed, &message, max_size, block) {
        return Err(of_copy(&error));
    }
    Ok(Written {
        len: writer.end,
        truncated: is_cut(packed),
    })
}

/// Returns the failure that stands for why a message is not copied.
fn of_copy(error: &CopyError) -> Failure
    ensures { result ≡ of_copy error.now }
{
    match error {
        CopyError::Data { offset: _, error } => of_decode(&error.cause),
        CopyError::Edns(error) => of_edns(error),
        CopyError::Write(error) => of_write(error),
        CopyError::TooManyPointers => Failure::TooManyPointers,
        CopyError::Memory => Failure::NoMemory,
    }
}
