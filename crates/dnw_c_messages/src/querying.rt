//! Queries, as they begin.
ghost use Rattle.std.specs.Prelude.{◌≡◌};
ghost use Rattle.dnw_c_base.specs.Results.{ReturnsNumber};
ghost use Rattle.dnw_c_messages.specs.BegunQueries.{QueriesOr, size_said};

use crate::owners::labels_of;
use crate::writer::of_write;
use dnw_base::limits::MIN_PAYLOAD;
use dnw_c_base::failure::Failure;
use dnw_c_base::results::report;
use dnw_message_writer::state::WriterState;

/// Begins a query: puts its header and its question, and an `OPT` record if it says a size of messages.
#[unsafe(no_mangle)]
pub extern "C" fn dnw_writer_query(
    message: &mut [u8],
    max_size: usize,
    id: u16,
    recursion_desired: bool,
    name: &[u8],
    query_type: u16,
    class: u16,
    max_payload: u16,
    writer: &mut WriterState,
) -> u32
    ensures { ReturnsNumber (QueriesOr id recursion_desired name.now query_type class max_payload max_size
        writer.old message.old writer.new message.new) result }
{
    let begun = query(
        message,
        max_size,
        id,
        recursion_desired,
        name,
        query_type,
        class,
        max_payload,
        writer,
    );
    report(begun, &mut ())
}

/// Begins a query.
fn query(
    message: &mut [u8],
    max_size: usize,
    id: u16,
    recursion_desired: bool,
    form: &[u8],
    query_type: u16,
    class: u16,
    max_payload: u16,
    writer: &mut WriterState,
) -> Result<(), Failure>
    ensures { QueriesOr id recursion_desired form.now query_type class max_payload max_size
        writer.old message.old writer.new message.new result }
{
    let name = labels_of(form)?;
    let size = size_said(max_payload);
    match writer.query(
        message,
        id,
        recursion_desired,
        name,
        query_type,
        class,
        size,
        max_size,
    ) {
        Ok(()) => Ok(()),
        Err(error) => Err(of_write(&error)),
    }
}

/// Returns the size of messages that a query says.
fn size_said(max_payload: u16) -> Option<u16>
    ensures { result ≡ size_said max_payload }
{
    if max_payload == 0 {
        return None;
    }
    Some(max_payload.max(MIN_PAYLOAD))
}
