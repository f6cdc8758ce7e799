//! What a message says by EDNS (RFC 6891), as a member of its JSON object.

use crate::json::{push_flag, push_number};
use crate::json_string::push_string;
use dnw_message_read::edns::{EdnsError, EdnsOption, EdnsOptions, EdnsRef};
use dnw_message_read::message::MessageRef;
use dnw_message_read::option::OptionData;
use std::alloc::{AllocError, Global};

/// Appends what a message says by EDNS, if it says anything, or the rule that it breaks.
pub(crate) fn push_edns(
    alloc: Global,
    text: &mut String,
    message: &MessageRef<'_>,
) -> Result<(), AllocError> {
    match message.edns() {
        Ok(Some(edns)) => {
            push_fields(text, &edns)?;
            push_options(alloc, text, edns.options())?;
            text.push_str("]}")
        }
        Ok(None) => Ok(()),
        Err(error) => push_rule(alloc, text, &error),
    }
}

/// Appends the version, the flags, the size of the messages that are accepted, and the beginning of the options.
fn push_fields(text: &mut String, edns: &EdnsRef<'_>) -> Result<(), AllocError> {
    push_number(text, ",\"EDNS\":{\"version\":", u16::from(edns.version()))?;
    push_flag(text, ",\"DO\":", edns.dnssec_ok())?;
    push_number(text, ",\"payload\":", edns.max_payload())?;
    text.push_str(",\"options\":[")
}

/// Appends the options, with a comma between them.
fn push_options(
    alloc: Global,
    text: &mut String,
    options: EdnsOptions<'_>,
) -> Result<(), AllocError> {
    let mut is_first = true;
    for option in options {
        if !is_first {
            text.push_str(",")?;
        }
        push_option(alloc, text, &option)?;
        is_first = false;
    }
    Ok(())
}

/// Appends an option as a string. One that breaks a rule is shown by its octets.
fn push_option(
    alloc: Global,
    text: &mut String,
    option: &EdnsOption<'_>,
) -> Result<(), AllocError> {
    let option = OptionData::read_any(option.code(), option.octets());
    let shown = format!(in alloc; "{option}")?;
    push_string(text, shown.as_str())
}

/// Appends the rule that a message breaks.
fn push_rule(alloc: Global, text: &mut String, error: &EdnsError) -> Result<(), AllocError> {
    let rule = format!(in alloc; "{error}")?;
    text.push_str(",\"EDNS\":{\"error\":")?;
    push_string(text, rule.as_str())?;
    text.push_str("}")
}
