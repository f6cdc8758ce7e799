//! Whole messages: their headers, where their sections are, and where they go wrong.
ghost use Rattle.std.specs.Prelude.{◌≡◌};
ghost use Rattle.dnw_message_read.specs.declared.message.SectionOffsets.{SectionOffsets};
ghost use Rattle.dnw_message_read.specs.Messages.{SectionsBegin};
ghost use Rattle.dnw_c_base.specs.Results.{Returns};
ghost use Rattle.dnw_c_messages.specs.MessageCalls.{ReadsMessage, fault_of, of_message, read_message, section_number};

use dnw_base::error::DecodeError;
use dnw_c_base::failure::{Failure, of_decode};
use dnw_c_base::results::report;
use dnw_message_read::error::{MessageError, MessageErrorKind, Section};
use dnw_message_read::header::MessageType;
use dnw_message_read::message::MessageRef;

/// A message that was read: the fields of its header, the offsets at which its sections of records begin, and the offset
/// after it.
#[repr(C)]
#[derive(Clone, Copy)]
pub struct ReadMessage {
    pub id: u16,
    pub is_response: bool,
    pub op_code: u8,
    pub authoritative: bool,
    pub truncation: bool,
    pub recursion_desired: bool,
    pub recursion_available: bool,
    pub authentic_data: bool,
    pub checking_disabled: bool,
    pub response_code: u16,
    pub question_count: u16,
    pub answer_count: u16,
    pub authority_count: u16,
    pub additional_count: u16,
    pub answers: usize,
    pub authorities: usize,
    pub additionals: usize,
    pub end: usize,
}

/// Where a message goes wrong: the number of the section, of the item in it, and the offset at which the item begins.
#[repr(C)]
#[derive(Clone, Copy)]
pub struct MessageFault {
    pub section: u32,
    pub item: u16,
    pub offset: usize,
}

/// Checks a whole message, whose names may follow no more than `max_pointers` in all, and puts its header and where its
/// sections are. If it fails, it puts where the message goes wrong. It does not allocate.
#[unsafe(no_mangle)]
pub extern "C" fn dnw_message_read(
    message: &[u8],
    max_pointers: usize,
    found: &mut ReadMessage,
    fault: &mut MessageFault,
) -> u32
    ensures { Returns (ReadsMessage message.now max_pointers fault.old fault.new) found.old found.new result }
{
    report(read(message, max_pointers, fault), found)
}

/// Reads a message, and returns what C learns of it. If that fails, it puts where the message goes wrong.
#[inline(always)]
fn read(
    octets: &[u8],
    max_pointers: usize,
    fault: &mut MessageFault,
) -> Result<ReadMessage, Failure>
    ensures { ReadsMessage octets.now max_pointers fault.old fault.new result }
{
    match MessageRef::read_limited(octets, max_pointers) {
        Ok(message) => Ok(found_in(&message)),
        Err(error) => {
            *fault = fault_of(&error);
            Err(of_message(&error.kind))
        }
    }
}

/// Returns what C learns of a message.
#[inline(always)]
fn found_in(message: &MessageRef<'_>) -> ReadMessage
    ensures { (offsets : SectionOffsets) × SectionsBegin message.now offsets × (result ≡ read_message message.now offsets) }
{
    let metadata = message.header().metadata;
    let counts = message.header().counts;
    let offsets = message.section_offsets();
    ReadMessage {
        id: metadata.id,
        is_response: metadata.message_type == MessageType::Response,
        op_code: u8::from(metadata.op_code),
        authoritative: metadata.authoritative,
        truncation: metadata.truncation,
        recursion_desired: metadata.recursion_desired,
        recursion_available: metadata.recursion_available,
        authentic_data: metadata.authentic_data,
        checking_disabled: metadata.checking_disabled,
        response_code: u16::from(metadata.response_code),
        question_count: counts.queries,
        answer_count: counts.answers,
        authority_count: counts.authorities,
        additional_count: counts.additionals,
        answers: offsets.answers,
        authorities: offsets.authorities,
        additionals: offsets.additionals,
        end: message.end(),
    }
}

/// Returns where a message goes wrong.
fn fault_of(error: &MessageError) -> MessageFault
    ensures { result ≡ fault_of error.now }
{
    MessageFault {
        section: section_number(error.section),
        item: error.item,
        offset: error.offset,
    }
}

/// Returns the number of a section in C.
pub(crate) fn section_number(section: Section) -> u32
    ensures { result ≡ section_number section }
{
    match section {
        Section::Header => 0,
        Section::Queries => 1,
        Section::Answers => 2,
        Section::Authorities => 3,
        Section::Additionals => 4,
    }
}

/// Returns the failure that stands for what is wrong with an item.
pub(crate) fn of_message(kind: &MessageErrorKind) -> Failure
    ensures { result ≡ of_message kind.now }
{
    match kind {
        MessageErrorKind::Decode(error) => of_decode(error),
        MessageErrorKind::TooManyPointers => Failure::TooManyPointers,
    }
}
