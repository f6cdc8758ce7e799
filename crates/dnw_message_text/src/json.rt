//! Messages as JSON (RFC 8427).

use crate::header::is_response;
use crate::json_edns::push_edns;
use crate::json_items::{push_only, push_query_list, push_record_list};
use dnw_message_read::header::{HeaderCounts, Metadata};
use dnw_message_read::message::MessageRef;
use std::alloc::{AllocError, Global};

/// Returns a message as a JSON object, in one line (RFC 8427): the numbers of the header, the question, or `questionRRs` if there is not
/// one alone, and the records of each section. A name and the text of data are those of master files, and `RDATAHEX` has the octets
/// of the data, in which no name is compressed. `EDNS` has what the message says by EDNS, each option as `dig` shows it, or as `error`
/// the rule that it breaks.
///
/// It fails only if it runs out of memory.
pub fn message_json(alloc: Global, message: &MessageRef<'_>) -> Result<String, AllocError> {
    let header = message.header();
    let mut text = String::new(alloc);
    push_metadata(&mut text, &header.metadata)?;
    push_counts(&mut text, &header.counts)?;
    push_questions(alloc, &mut text, message)?;
    push_record_list(alloc, &mut text, ",\"answerRRs\":[", message.answers())?;
    push_record_list(
        alloc,
        &mut text,
        ",\"authorityRRs\":[",
        message.authorities(),
    )?;
    push_record_list(
        alloc,
        &mut text,
        ",\"additionalRRs\":[",
        message.additionals(),
    )?;
    push_edns(alloc, &mut text, message)?;
    text.push_str("}")?;
    Ok(text)
}

/// Appends the id, the flags and the codes of a header. A flag is the number that its bit is.
fn push_metadata(text: &mut String, metadata: &Metadata) -> Result<(), AllocError> {
    push_number(text, "{\"ID\":", metadata.id)?;
    push_flag(text, ",\"QR\":", is_response(metadata.message_type))?;
    push_number(text, ",\"Opcode\":", u16::from(metadata.op_code.code()))?;
    push_flag(text, ",\"AA\":", metadata.authoritative)?;
    push_flag(text, ",\"TC\":", metadata.truncation)?;
    push_flag(text, ",\"RD\":", metadata.recursion_desired)?;
    push_flag(text, ",\"RA\":", metadata.recursion_available)?;
    push_flag(text, ",\"AD\":", metadata.authentic_data)?;
    push_flag(text, ",\"CD\":", metadata.checking_disabled)?;
    push_number(text, ",\"RCODE\":", metadata.response_code.code())
}

/// Appends how many items the sections have.
fn push_counts(text: &mut String, counts: &HeaderCounts) -> Result<(), AllocError> {
    push_number(text, ",\"QDCOUNT\":", counts.queries)?;
    push_number(text, ",\"ANCOUNT\":", counts.answers)?;
    push_number(text, ",\"NSCOUNT\":", counts.authorities)?;
    push_number(text, ",\"ARCOUNT\":", counts.additionals)
}

/// Appends a number, and what is before it.
pub(crate) fn push_number(text: &mut String, before: &str, value: u16) -> Result<(), AllocError> {
    write!(text, "{before}{value}")
}

/// Appends a flag as a number, and what is before it.
pub(crate) fn push_flag(text: &mut String, before: &str, is_set: bool) -> Result<(), AllocError> {
    push_number(text, before, u16::from(is_set))
}

/// Appends the question, or the list of all if there is not one alone.
fn push_questions(
    alloc: Global,
    text: &mut String,
    message: &MessageRef<'_>,
) -> Result<(), AllocError> {
    let mut queries = message.queries();
    match (queries.next(), queries.next()) {
        (Some(only), None) => push_only(alloc, text, &only),
        _ => push_query_list(alloc, text, message.queries()),
    }
}
