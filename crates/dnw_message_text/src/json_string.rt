//! JSON strings (RFC 8259, section 7).
ghost use Rattle.std.specs.Prelude.{◌≡◌, ◌++◌, IfOk, string_bytes};
ghost use Rattle.dnw_message_text.specs.JsonStrings.{json_char};

use std::alloc::AllocError;

/// Appends a text as a JSON string.
pub(crate) fn push_string(text: &mut String, value: &str) -> Result<(), AllocError> {
    text.push('"')?;
    push_chars(text, value)?;
    text.push('"')
}

/// Appends the characters of a text.
fn push_chars(text: &mut String, value: &str) -> Result<(), AllocError> {
    for c in value.chars() {
        push_char(text, c)?;
    }
    Ok(())
}

/// Appends a character: a quote and a backslash after a backslash, and one that is for control by its number.
fn push_char(text: &mut String, c: char) -> Result<(), AllocError>
    ensures { IfOk result (λ _. string_bytes text.new ≡ string_bytes text.old ++ json_char c) }
{
    match c {
        '"' => text.push_str("\\\""),
        '\\' => text.push_str("\\\\"),
        _ if c.is_control() => write!(text, "\\u{:04x}", u32::from(c)),
        _ => text.push(c),
    }
}
