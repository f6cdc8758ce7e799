//! What the words after `dnw message` ask for.

use crate::base::{Given, Known, Refusal, Sink, Stream, all_of, octets_of, open, said_of};
use crate::messages::page::Page;
use dns_names_wire::message::MessageRef;
use dns_names_wire::message_text::{message_json, message_text};
use std::alloc::Global;
use std::io::Read;
use std::rt::Files;

/// How messages are given.
#[derive(Clone, Copy, PartialEq, Eq)]
enum Form {
    /// One, as it is or as hexadecimal digits.
    One,
    /// Each as a line of hexadecimal digits.
    Lines,
    /// Each after two octets with its length, as over TCP (RFC 1035, section 4.2.2).
    Framed,
}

/// How messages are shown.
#[derive(Clone, Copy, PartialEq, Eq)]
pub(crate) enum Layout {
    /// As `dig` shows them.
    Dig,
    /// Each as a JSON object in a line (RFC 8427).
    Json,
}

/// The options of the command.
const OPTIONS: [Known; 3] = [
    Known::Flag("--lines"),
    Known::Flag("--framed"),
    Known::Flag("--json"),
];

/// The most octets of a text or a file that has one message, and of a line: the digits of the greatest message, with as much white
/// space and more.
pub(crate) const MAX_TEXT: usize = 1_048_576;

/// What the options ask for.
#[derive(Clone, Copy)]
struct Wanted {
    form: Form,
    layout: Layout,
}

/// Shows the messages of the sources that the words name, as they ask for: each as soon as it is there. If there are many in a source,
/// each that is rejected has a line that says why.
pub(crate) fn messages<E: Files, I: Read, O: Sink>(
    env: &E,
    alloc: Global,
    words: &[String],
    input: &mut I,
    out: &mut O,
) -> Result<(), Refusal> {
    let given = Given::of(alloc, words, &OPTIONS)?;
    let wanted = wanted_of(&given)?;
    let sources = given.some("HEX, FILE or -")?;
    let mut page = Page::new(wanted.layout);
    for source in sources {
        let shown = show(env, alloc, source, wanted.form, input, &mut page, out);
        said_of(alloc, source, 1 < sources.len(), shown, out)?;
    }
    Ok(())
}

/// What the options ask for.
fn wanted_of(given: &Given<'_>) -> Result<Wanted, Refusal> {
    let form = match given.one_of(&["--lines", "--framed"])? {
        Some("--lines") => Form::Lines,
        Some(_) => Form::Framed,
        None => Form::One,
    };
    let layout = if given.has("--json") {
        Layout::Json
    } else {
        Layout::Dig
    };
    Ok(Wanted { form, layout })
}

/// Shows the messages of a source.
fn show<E: Files, I: Read, O: Sink>(
    env: &E,
    alloc: Global,
    source: &str,
    form: Form,
    input: &mut I,
    page: &mut Page,
    out: &mut O,
) -> Result<(), Refusal> {
    let mut stream = opened(env, alloc, source)?;
    match form {
        Form::One => {
            let given = all_of(alloc, source, &mut stream, MAX_TEXT, input)?;
            let message = message_octets(alloc, given)?;
            let text = shown(alloc, message.as_slice(), page.layout)?;
            page.add(alloc, Ok(text), out)
        }
        Form::Lines => page.add_lines(alloc, source, &mut stream, input, out),
        Form::Framed => page.add_frames(alloc, source, &mut stream, input, out),
    }
}

/// Opens a source: a word of hexadecimal digits alone has itself, and another is the name of a file, or `-`.
fn opened<E: Files>(env: &E, alloc: Global, source: &str) -> Result<Stream<E::File>, Refusal> {
    for byte in source.as_bytes() {
        if !byte.is_ascii_hexdigit() {
            return open(env, alloc, source);
        }
    }
    Ok(Stream::whole(alloc, source.as_bytes())?)
}

/// The octets of a message. If all that is given is hexadecimal digits, spaces and ends of lines, the digits are the octets; else
/// it is the octets.
fn message_octets(alloc: Global, given: Vec<u8>) -> Result<Vec<u8>, Refusal> {
    match digits_of(alloc, given.as_slice())? {
        Some(digits) => octets_of(alloc, digits.as_str()),
        None => Ok(given),
    }
}

/// Returns octets without spaces and ends of lines, if all others are hexadecimal digits.
fn digits_of(alloc: Global, given: &[u8]) -> Result<Option<String>, Refusal> {
    let mut digits = String::new(alloc);
    for byte in given {
        if byte.is_ascii_hexdigit() {
            digits.push(char::from(*byte))?;
        } else if !byte.is_ascii_whitespace() {
            return Ok(None);
        }
    }
    Ok(Some(digits))
}

/// Returns a message as it is to be shown.
pub(crate) fn shown(alloc: Global, octets: &[u8], layout: Layout) -> Result<String, Refusal> {
    let message = MessageRef::read(octets)?;
    let text = match layout {
        Layout::Dig => message_text(alloc, &message),
        Layout::Json => message_json(alloc, &message),
    };
    Ok(text?)
}
