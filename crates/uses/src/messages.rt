//! Writes a message, and reads it.
ghost use Rattle.std.specs.Prelude.{◌≡◌, ◌≤◌, ◌+◌, length, IfErr, IfOk};
ghost use Rattle.dns_names_wire.specs.Words.{encoded_size};
ghost use Rattle.uses.specs.Messages.{FailsResponse, IsResponse};

use dns_names_wire::Name;
use dns_names_wire::message::{HeaderCounts, MessageRef};
use dns_names_wire::message_writer::{Piece, Section, WriteError, WriterState, laws};

/// The most bytes of a message over UDP without EDNS (RFC 1035, section 4.2.1).
const MAX_MESSAGE: usize = 512;

/// The flags of a response of an authority: QR and AA (RFC 1035, section 4.1.1).
const RESPONSE: u16 = 0x8400;

/// The type TSIG (RFC 8945, section 4.2), and the class of its records.
const TSIG: u16 = 250;

const ANY: u16 = 255;

/// The type A, the class IN, and an hour.
const A: u16 = 1;

const IN: u16 = 1;

const HOUR: u32 = 3600;

/// Writes the response that a name has an address, reads it, and returns how many items each section has. What is read is what was
/// written: the header, the question and the answer.
pub fn write_and_read(
    message: &mut [u8],
    id: u16,
    name: &Name,
    address: &[u8; 4],
) -> Result<HeaderCounts, WriteError>
    ensures ok { IfOk result (IsResponse id name.now.labels address.entry message.new) }
    ensures err { IfErr result (FailsResponse id name.now.labels address.entry message.old) }
{
    laws::messages_hold_their_items();
    laws::held_items_are_read();
    let mut writer = WriterState::new();
    writer.begin(message, id, RESPONSE, MAX_MESSAGE)?;
    writer.question(message, name.wire_labels(), A, IN)?;
    let data = [Piece::Octets(address)];
    writer.record(
        message,
        Section::Answers,
        name.wire_labels(),
        A,
        IN,
        HOUR,
        &data,
    )?;
    let read = MessageRef::read(message).unwrap();
    Ok(read.header().counts)
}

/// Adds a TSIG record with these data, with as many of the octets that are held back as it has with its owner whole, and returns how
/// many it has: just so many.
pub fn add_tsig(
    writer: &mut WriterState,
    message: &mut [u8],
    key: &Name,
    data: &[u8],
) -> Result<usize, WriteError>
    requires { length data.now ≤ 65535 }
    ensures { IfOk result (λ size. (size ≡ encoded_size key.now.labels + 10 + length data.now) × (writer.new.end ≡ writer.old.end + size)) }
{
    laws::last_records_are_whole();
    let size = key.encoded_len() + 10 + data.len();
    let pieces = [Piece::Octets(data)];
    writer.last_record(message, size, key.wire_labels(), TSIG, ANY, 0, &pieces)?;
    Ok(size)
}
