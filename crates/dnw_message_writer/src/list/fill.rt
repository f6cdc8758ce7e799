//! Records of a list, as many as a message has room for.
ghost use Rattle.std.specs.Prelude.{◌≡◌, ◌<◌, length, IfErr, OnErr, OnOk};
ghost use Rattle.dnw_message_writer.specs.ListFills.{AddsNext, FailsToAddNext, FillsOr};
ghost use Rattle.dnw_message_writer.specs.ListResults.{StaysAsItWas};

use crate::list::ListError;
use crate::list::items::{again, list_at, octet_at, read_record, section_after};
use crate::list::writing::add_listed;
use crate::state::WriterState;
use dnw_base::decoder::BinDecoder;

/// Adds records of a list from an offset on, up to the first that is not added, and returns the offset of that one: so a transfer is split
/// into messages (RFC 5936, section 2.2).
///
/// If the first of all is not added, it fails as that one, and the message is unchanged.
pub fn fill_list(
    message: &mut [u8],
    items: &[u8],
    start: usize,
    writer: &mut WriterState,
) -> Result<usize, ListError>
    ensures { FillsOr items.now start writer.old message.old writer.new message.new result }
{
    let Some(mut decoder) = list_at(items, start) else {
        return Err(ListError::BadItem);
    };
    'items: while !decoder.is_empty() {
        let added = add_next(&mut decoder, message, writer);
        if let Err(failure) = added {
            let next = decoder.index();
            if next == start {
                return Err(failure);
            }
            return Ok(next);
        }
    }
    Ok(decoder.index())
}

/// Adds the next record of a list.
fn add_next(
    decoder: &mut BinDecoder<'_>,
    message: &mut [u8],
    writer: &mut WriterState,
) -> Result<(), ListError>
    requires { decoder.old.index < length decoder.old.bytes }
    ensures ok { OnOk result (AddsNext decoder.old writer.old message.old decoder.new writer.new message.new) }
    ensures err { IfErr result (FailsToAddNext decoder.old writer.old message.old) }
    ensures same { OnErr result ((decoder.new ≡ decoder.old) × StaysAsItWas writer.old message.old writer.new message.new) }
{
    let octet = octet_at(decoder);
    let Some(section) = section_after(octet) else {
        return Err(ListError::BadItem);
    };
    let mut ahead = again(decoder);
    let record = read_record(&mut ahead)?;
    match add_listed(section, &record, message, writer) {
        Ok(()) => {
            *decoder = ahead;
            Ok(())
        }
        Err(failure) => Err(failure),
    }
}
