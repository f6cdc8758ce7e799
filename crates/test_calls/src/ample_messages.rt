//! Messages as text and as JSON: at every size that a body could take for a limit, with ample memory; and without characters that no
//! text may have.

use crate::ample::{LIMITS, counts, sizes};
use dns_names_wire::message::MessageRef;
use dns_names_wire::message_text::{message_json, message_text};
use std::alloc::Global;
use std::test::Fail;

/// Returns a response with so many questions and answers, which are these octets.
fn message_of(
    alloc: Global,
    questions: usize,
    answers: usize,
    items: &[u8],
) -> Result<Vec<u8>, Fail> {
    let mut octets = Vec::new(alloc);
    octets.extend_from_slice(b"\x00\x07\x84\x00")?;
    for count in [questions, answers, 0, 0] {
        let count = u16::try_from(count).map_err(|_| "a count")?;
        octets.extend_from_slice(&count.to_be_bytes())?;
    }
    octets.extend_from_slice(items)?;
    Ok(octets)
}

/// Returns whether the texts of a message have so many bytes at least.
fn is_long(alloc: Global, octets: &[u8], least: usize) -> Result<bool, Fail> {
    let message = MessageRef::read(octets)?;
    let text = message_text(alloc, &message)?;
    let json = message_json(alloc, &message)?;
    Ok(least <= text.len() && least <= json.len())
}

#[test]
fn messages_of_any_size_have_texts(rt: HostRuntime) -> Result<(), Fail> {
    let alloc = rt.alloc();
    let all = counts(alloc, &LIMITS)?;
    for count in all.as_slice() {
        let (mut questions, mut answers) = (Vec::new(alloc), Vec::new(alloc));
        for _ in 0..*count {
            questions.extend_from_slice(b"\x00\x00\x01\x00\x01")?;
            answers.extend_from_slice(
                b"\x00\x00\x01\x00\x01\x00\x00\x00\x00\x00\x04\xc0\x00\x02\x01",
            )?;
        }
        let asked = message_of(alloc, *count, 0, questions.as_slice())?;
        assert!(rt; is_long(alloc, asked.as_slice(), *count * 8)?);
        let answered = message_of(alloc, 0, *count, answers.as_slice())?;
        assert!(rt; is_long(alloc, answered.as_slice(), *count * 19)?);
    }
    Ok(())
}

#[test]
fn data_of_any_size_have_texts(rt: HostRuntime) -> Result<(), Fail> {
    let alloc = rt.alloc();
    let all = sizes(alloc)?;
    for len in all.as_slice() {
        let mut record = Vec::new(alloc);
        record.extend_from_slice(b"\x00\x00\x0a\x00\x01\x00\x00\x00\x00")?;
        let data_len = u16::try_from(*len).map_err(|_| "a length")?;
        record.extend_from_slice(&data_len.to_be_bytes())?;
        record.resize(record.len() + *len, b'x')?;
        let octets = message_of(alloc, 0, 1, record.as_slice())?;
        assert!(rt; is_long(alloc, octets.as_slice(), *len * 2)?);
    }
    Ok(())
}

/// Returns `true` for characters that are for control, but not a line feed or a tab, and for those that turn the direction of text.
fn is_hidden(c: char) -> bool {
    (c.is_control() && c != '\n' && c != '\t')
        || matches!(
            c,
            '\u{61C}' | '\u{200E}'..='\u{200F}' | '\u{2028}'..='\u{202E}' | '\u{2066}'..='\u{2069}'
        )
}

#[test]
fn no_text_has_hidden_characters(rt: HostRuntime) -> Result<(), Fail> {
    let alloc = rt.alloc();
    for hidden in [
        "\u{202E}",
        "\u{61C}\u{200E}\u{2028}",
        "\u{2069}\u{1B}[31m\u{7F}\u{9B}",
    ] {
        // an answer whose owner and string have the same octets, and an OPT record with them as an NSID and as the text of an error
        let own = hidden.as_bytes();
        let len = u8::try_from(own.len()).map_err(|_| "a length")?;
        let mut octets = Vec::new(alloc);
        octets.extend_from_slice(b"\x00\x07\x84\x00\x00\x00\x00\x01\x00\x00\x00\x01")?;
        octets.push(len)?;
        octets.extend_from_slice(own)?;
        octets.extend_from_slice(b"\x00\x00\x10\x00\x01\x00\x00\x00\x00\x00")?;
        octets.extend_from_slice(&[len.saturating_add(1), len])?;
        octets.extend_from_slice(own)?;
        octets.extend_from_slice(b"\x00\x00\x29\x02\x00\x00\x00\x00\x00\x00")?;
        octets.extend_from_slice(&[len.saturating_mul(2).saturating_add(10), 0, 3, 0, len])?;
        octets.extend_from_slice(own)?;
        octets.extend_from_slice(&[0, 15, 0, len.saturating_add(2), 0, 6])?;
        octets.extend_from_slice(own)?;
        let message = MessageRef::read(octets.as_slice())?;
        let text = message_text(alloc, &message)?;
        let json = message_json(alloc, &message)?;
        assert!(rt; text.as_str().contains("EDE: 6 (DNSSEC Bogus): (."));
        assert!(rt; !text.as_str().chars().any(is_hidden) && !json.as_str().chars().any(is_hidden));
    }
    Ok(())
}
