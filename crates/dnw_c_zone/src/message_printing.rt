//! Messages as text, in parts.
ghost use Rattle.std.specs.Prelude.{◌≡◌, ◌≤◌, ℕ, drop, IfOk, IfErr};
ghost use Rattle.dnw_c_base.specs.Results.{Returns};
ghost use Rattle.dnw_message_read.specs.Messages.{MessageAt};
ghost use Rattle.dnw_c_zone.specs.MessagePrintCalls.{HasNoMessage, IsPart, PutsMessage, PutsText, of_message};

use dnw_c_base::failure::{Failure, of_decode};
use dnw_c_base::results::report;
use dnw_message_read::error::MessageErrorKind;
use dnw_message_read::message::MessageRef;
use dnw_message_text::json::message_json;
use dnw_message_text::text::message_text;
use std::alloc::{AllocError, Global};

/// A part of a text that was put: its number of bytes, and that of the whole text.
#[repr(C)]
#[derive(Clone, Copy)]
pub struct PrintedPart {
    pub len: usize,
    pub total: usize,
}

/// Puts the text of a message in the layout of `dig`, from an offset in the text on, as far as there is room.
#[unsafe(no_mangle)]
pub extern "C" fn dnw_message_print(
    alloc: Global,
    message: &[u8],
    max_pointers: usize,
    start: usize,
    text: &mut [u8],
    printed: &mut PrintedPart,
) -> u32
    ensures { Returns (PutsMessage message.now max_pointers start text.old text.new) printed.old printed.new result }
{
    report(print(alloc, message, max_pointers, start, text), printed)
}

/// Puts the text of a message as JSON, from an offset in the text on, as far as there is room.
#[unsafe(no_mangle)]
pub extern "C" fn dnw_message_json(
    alloc: Global,
    message: &[u8],
    max_pointers: usize,
    start: usize,
    text: &mut [u8],
    printed: &mut PrintedPart,
) -> u32
    ensures { Returns (PutsMessage message.now max_pointers start text.old text.new) printed.old printed.new result }
{
    report(
        print_json(alloc, message, max_pointers, start, text),
        printed,
    )
}

/// Puts a part of the text of a message.
fn print(
    alloc: Global,
    octets: &[u8],
    max_pointers: usize,
    start: usize,
    text: &mut [u8],
) -> Result<PrintedPart, Failure>
    ensures { PutsMessage octets.now max_pointers start text.old text.new result }
{
    let message = read(octets, max_pointers)?;
    put_whole(text, message_text(alloc, &message), start)
}

/// Puts a part of a message as JSON.
fn print_json(
    alloc: Global,
    octets: &[u8],
    max_pointers: usize,
    start: usize,
    text: &mut [u8],
) -> Result<PrintedPart, Failure>
    ensures { PutsMessage octets.now max_pointers start text.old text.new result }
{
    let message = read(octets, max_pointers)?;
    put_whole(text, message_json(alloc, &message), start)
}

/// Reads the message that octets begin with.
fn read(octets: &[u8], max_pointers: usize) -> Result<MessageRef<'_>, Failure>
    ensures ok { IfOk result (λ m. (k : ℕ) × MessageAt octets.now m k × (k ≤ max_pointers)) }
    ensures err { IfErr result (HasNoMessage octets.now max_pointers) }
{
    match MessageRef::read_limited(octets, max_pointers) {
        Ok(message) => Ok(message),
        Err(error) => Err(of_message(&error.kind)),
    }
}

/// Returns the failure that stands for what is wrong with an item.
fn of_message(kind: &MessageErrorKind) -> Failure
    ensures { result ≡ of_message kind.now }
{
    match kind {
        MessageErrorKind::Decode(error) => of_decode(error),
        MessageErrorKind::TooManyPointers => Failure::TooManyPointers,
    }
}

/// Puts a part of a text, if memory did not run out.
fn put_whole(
    buffer: &mut [u8],
    whole: Result<String, AllocError>,
    start: usize,
) -> Result<PrintedPart, Failure>
    ensures { PutsText start buffer.old buffer.new result }
{
    let whole = whole?;
    Ok(put_part(buffer, whole.as_bytes(), start))
}

/// Puts as much of a text, from an offset on, as there is room for.
fn put_part(buffer: &mut [u8], whole: &[u8], start: usize) -> PrintedPart
    ensures { IsPart whole.now start buffer.old buffer.new result }
{
    let rest = rest_from(whole, start);
    let len = rest.len().min(buffer.len());
    buffer[..len].copy_from_slice(&rest[..len]);
    PrintedPart {
        len,
        total: whole.len(),
    }
}

/// Returns what a text has from an offset on.
#[tactic(auto, using(std::proofs::lemmas::List::drop_all))]
fn rest_from(whole: &[u8], start: usize) -> &[u8]
    ensures { result.now ≡ drop start whole.now }
{
    if start < whole.len() {
        &whole[start..]
    } else {
        &[]
    }
}
