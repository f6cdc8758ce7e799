//! The two lines that `dig` shows of a header.
ghost use Rattle.std.specs.Prelude.{◌≡◌, ◌++◌, IfOk, string_bytes};
ghost use Rattle.dnw_message_text.specs.Headers.{IsShownCode, capitals, counts_text, head_codes, is_response, op_text, reserved_text, response_text};
ghost use Rattle.dnw_message_text.specs.Parts.{text_if};

use dnw_message_read::header::{HeaderCounts, MessageType, Metadata};
use dnw_message_read::message::MessageRef;
use dnw_message_read::op_code::OpCode;
use dnw_message_read::response_code::ResponseCode;
use std::alloc::{AllocError, Global};

/// Appends the header of a message.
pub(crate) fn push_header(
    alloc: Global,
    text: &mut String,
    message: &MessageRef<'_>,
) -> Result<(), AllocError> {
    let header = message.header();
    push_codes(alloc, text, &header.metadata, shown_code(message))?;
    text.push_str("\n;; flags:")?;
    push_flags(text, &header.metadata)?;
    push_counts(text, &header.counts)
}

/// Returns the response code that is shown: that of EDNS too, or of the header alone if the message breaks a rule of EDNS.
fn shown_code(message: &MessageRef<'_>) -> ResponseCode
    ensures { IsShownCode message.now result }
{
    match message.response_code() {
        Ok(response) => response,
        Err(_) => message.header().metadata.response_code,
    }
}

/// Appends the operation, this response code and the id.
fn push_codes(
    alloc: Global,
    text: &mut String,
    metadata: &Metadata,
    response: ResponseCode,
) -> Result<(), AllocError>
    ensures { IfOk result (λ _. string_bytes text.new ≡ string_bytes text.old ++ head_codes metadata.now response) }
{
    text.push_str(";; ->>HEADER<<- opcode: ")?;
    push_op(alloc, text, metadata.op_code)?;
    text.push_str(", status: ")?;
    push_response(alloc, text, response)?;
    let id = metadata.id;
    write!(text, ", id: {id}")
}

/// Appends the name of an operation in capitals, or `RESERVED` with its code.
fn push_op(alloc: Global, text: &mut String, op: OpCode) -> Result<(), AllocError>
    ensures { IfOk result (λ _. string_bytes text.new ≡ string_bytes text.old ++ op_text op) }
{
    match op {
        OpCode::Unknown(code) => push_reserved(text, u16::from(code)),
        _ => push_capitals(alloc, text, op.name()),
    }
}

/// Appends the name of a response code in capitals, or `RESERVED` with the code.
fn push_response(alloc: Global, text: &mut String, response: ResponseCode) -> Result<(), AllocError>
    ensures { IfOk result (λ _. string_bytes text.new ≡ string_bytes text.old ++ response_text response) }
{
    match response {
        ResponseCode::Unknown(code) => push_reserved(text, code),
        _ => push_capitals(alloc, text, response.name()),
    }
}

/// Appends a code that has no name.
fn push_reserved(text: &mut String, code: u16) -> Result<(), AllocError>
    ensures { IfOk result (λ _. string_bytes text.new ≡ string_bytes text.old ++ reserved_text code) }
{
    write!(text, "RESERVED{code}")
}

/// Appends a name in capitals.
fn push_capitals(alloc: Global, text: &mut String, name: &str) -> Result<(), AllocError>
    ensures { IfOk result (λ _. string_bytes text.new ≡ string_bytes text.old ++ capitals name.now) }
{
    text.push_str(name.to_ascii_uppercase(alloc)?.as_str())
}

/// Appends the flags that are set.
fn push_flags(text: &mut String, metadata: &Metadata) -> Result<(), AllocError> {
    push_if(text, is_response(metadata.message_type), " qr")?;
    push_if(text, metadata.authoritative, " aa")?;
    push_if(text, metadata.truncation, " tc")?;
    push_if(text, metadata.recursion_desired, " rd")?;
    push_if(text, metadata.recursion_available, " ra")?;
    push_if(text, metadata.authentic_data, " ad")?;
    push_if(text, metadata.checking_disabled, " cd")
}

pub(crate) fn is_response(message_type: MessageType) -> bool
    ensures { result ≡ is_response message_type }
{
    match message_type {
        MessageType::Query => false,
        MessageType::Response => true,
    }
}

/// Appends a text if it is there.
pub(crate) fn push_if(text: &mut String, is_there: bool, own: &str) -> Result<(), AllocError>
    ensures { IfOk result (λ _. string_bytes text.new ≡ string_bytes text.old ++ text_if is_there own.now) }
{
    if is_there { text.push_str(own) } else { Ok(()) }
}

/// Appends how many items the sections have.
fn push_counts(text: &mut String, counts: &HeaderCounts) -> Result<(), AllocError>
    ensures { IfOk result (λ _. string_bytes text.new ≡ string_bytes text.old ++ counts_text counts.now) }
{
    let HeaderCounts {
        queries,
        answers,
        authorities,
        additionals,
    } = *counts;
    write!(
        text,
        "; QUERY: {queries}, ANSWER: {answers}, AUTHORITY: {authorities}, ADDITIONAL: {additionals}"
    )
}
