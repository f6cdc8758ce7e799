//! Messages in the layout of `dig`.

use crate::edns::push_edns;
use crate::header::push_header;
use crate::sections::{
    push_additionals, push_answers, push_authorities, push_questions, push_rest,
};
use dnw_message_read::message::MessageRef;
use std::alloc::{AllocError, Global};

/// Returns a message in the layout of `dig`: the header, what it says by EDNS, and under a title each question and each record of a
/// section. Those of an UPDATE have titles of their own (RFC 2136, section 2). A record is a line of a master file, as `record_text`
/// returns it. A last line says how many octets follow the message, if any do. The text does not end with a line feed.
///
/// If the message breaks a rule of EDNS, a line says which, the response code is that of the header alone, and its `OPT` records are
/// among the others.
///
/// All octets of names, data and options that are not printable ASCII are escaped, or a dot is in their place. Only the text of an
/// extended DNS error may have other characters, but none for control and none that changes the direction of text.
///
/// It fails only if it runs out of memory.
pub fn message_text(alloc: Global, message: &MessageRef<'_>) -> Result<String, AllocError> {
    let mut text = String::new(alloc);
    push_header(alloc, &mut text, message)?;
    let shows_edns = push_edns(alloc, &mut text, message)?;
    push_questions(&mut text, message, shows_edns)?;
    push_answers(alloc, &mut text, message, shows_edns)?;
    push_authorities(alloc, &mut text, message, shows_edns)?;
    push_additionals(alloc, &mut text, message, shows_edns)?;
    push_rest(&mut text, message, shows_edns)?;
    Ok(text)
}
