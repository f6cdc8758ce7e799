//! Many messages, one after the other.

use crate::base::{Refusal, Sink, Stream, line_len, octets_of, unread};
use crate::messages::command::{Layout, MAX_TEXT, shown};
use std::alloc::Global;
use std::io::{ErrorKind, Read};

/// How many octets a stream of messages begins with at least: a length, and a header (RFC 1035, section 4.1.1).
const FRONT: usize = 14;

/// Messages that are shown, one after the other.
#[derive(Clone, Copy)]
pub(crate) struct Page {
    pub(crate) layout: Layout,
    /// How many messages there were.
    count: u64,
    /// Whether what comes is the rest of a line that is too long.
    is_cut: bool,
}

impl Page {
    /// Creates a page without a message.
    pub(crate) fn new(layout: Layout) -> Self {
        Page {
            layout,
            count: 0,
            is_cut: false,
        }
    }

    /// Adds the messages of a text that has each as a line of hexadecimal digits, in which white space says nothing.
    pub(crate) fn add_lines<F: Read, I: Read, O: Sink>(
        &mut self,
        alloc: Global,
        source: &str,
        stream: &mut Stream<F>,
        input: &mut I,
        out: &mut O,
    ) -> Result<(), Refusal> {
        for _ in 0..u64::MAX {
            let text = &mut stream.window;
            if let Some(len) = line_len(text.left()) {
                self.add_line(alloc, text.left().get(..len).unwrap_or_default(), out)?;
                text.take(len.saturating_add(1));
            } else if MAX_TEXT < text.left().len() {
                self.cut_line(alloc, out)?;
                text.take(usize::MAX);
            } else if text.is_done() {
                return self.add_line(alloc, text.left(), out);
            } else {
                out.flush()?;
                filled(alloc, source, stream, input)?;
            }
        }
        Ok(())
    }

    /// Adds a line that says that one is too long, if that is its beginning.
    fn cut_line<O: Sink>(&mut self, alloc: Global, out: &mut O) -> Result<(), Refusal> {
        if self.is_cut {
            return Ok(());
        }
        self.is_cut = true;
        self.add(alloc, Err(Refusal::TooLong(MAX_TEXT)), out)
    }

    /// Adds the message of a line, or of its rest if it was too long.
    fn add_line<O: Sink>(
        &mut self,
        alloc: Global,
        line: &[u8],
        out: &mut O,
    ) -> Result<(), Refusal> {
        if self.is_cut {
            self.is_cut = false;
            return Ok(());
        }
        let digits = digits_of(alloc, line)?;
        if digits.is_empty() {
            return Ok(());
        }
        let message = octets_of(alloc, digits.as_str());
        self.add_octets(alloc, message, out)
    }

    /// Adds a message by its octets, or by why these are not there.
    fn add_octets<O: Sink>(
        &mut self,
        alloc: Global,
        message: Result<Vec<u8>, Refusal>,
        out: &mut O,
    ) -> Result<(), Refusal> {
        match message {
            Ok(message) => self.add(alloc, shown(alloc, message.as_slice(), self.layout), out),
            Err(Refusal::Digits) => self.add(alloc, Err(Refusal::Digits), out),
            Err(refusal) => Err(refusal),
        }
    }

    /// Adds the messages of a stream that has the length of each in two octets before it. If it begins with hexadecimal digits and
    /// white space alone, so many as a length and a header have, these stand for its octets.
    pub(crate) fn add_frames<F: Read, I: Read, O: Sink>(
        &mut self,
        alloc: Global,
        source: &str,
        stream: &mut Stream<F>,
        input: &mut I,
        out: &mut O,
    ) -> Result<(), Refusal> {
        if let Err(error) = stream.fill_to(input, FRONT) {
            return Err(unread(alloc, source, error));
        }
        if are_digits(stream.window.left()) && stream.window.decode().is_err() {
            return Err(Refusal::Digits);
        }
        self.add_binary(alloc, source, stream, input, out)
    }

    /// Adds the messages of a stream, and a line if it ends within one.
    fn add_binary<F: Read, I: Read, O: Sink>(
        &mut self,
        alloc: Global,
        source: &str,
        stream: &mut Stream<F>,
        input: &mut I,
        out: &mut O,
    ) -> Result<(), Refusal> {
        for _ in 0..u64::MAX {
            let window = &mut stream.window;
            if let Some(message) = frame_of(window.left()) {
                let len = message.len();
                self.add(alloc, shown(alloc, message, self.layout), out)?;
                window.take(len.saturating_add(2));
            } else if window.is_done() {
                break;
            } else {
                out.flush()?;
                filled(alloc, source, stream, input)?;
            }
        }
        match cut_of(stream.window.left()) {
            Some(cut) => self.add(alloc, Err(cut), out),
            None => Ok(()),
        }
    }

    /// Adds a message, or a line that says why there is none.
    pub(crate) fn add<O: Sink>(
        &mut self,
        alloc: Global,
        shown: Result<String, Refusal>,
        out: &mut O,
    ) -> Result<(), Refusal> {
        self.count = self.count.saturating_add(1);
        if self.layout == Layout::Dig && self.count > 1 {
            out.put_line("")?;
        }
        match shown {
            Ok(text) => out.put_line(text.as_str()),
            Err(refusal) => self.add_refusal(alloc, &refusal, out),
        }
    }

    fn add_refusal<O: Sink>(
        &self,
        alloc: Global,
        refusal: &Refusal,
        out: &mut O,
    ) -> Result<(), Refusal> {
        let count = self.count;
        let line = match self.layout {
            Layout::Dig => format!(in alloc; "message {count}: {refusal}")?,
            Layout::Json => {
                format!(in alloc; "{{\"message\":{count},\"error\":\"{refusal}\"}}")?
            }
        };
        out.reject();
        out.put_line(line.as_str())
    }
}

/// Reads more of a source.
fn filled<F: Read, I: Read>(
    alloc: Global,
    source: &str,
    stream: &mut Stream<F>,
    input: &mut I,
) -> Result<(), Refusal> {
    match stream.fill(input) {
        Ok(()) => Ok(()),
        Err(error) if error.kind() == ErrorKind::InvalidData => Err(Refusal::Digits),
        Err(error) => Err(unread(alloc, source, error)),
    }
}

/// Returns the characters of a line without white space.
fn digits_of(alloc: Global, line: &[u8]) -> Result<String, Refusal> {
    let mut digits = String::new(alloc);
    for byte in line {
        if !byte.is_ascii_whitespace() {
            digits.push(char::from(*byte))?;
        }
    }
    Ok(digits)
}

/// Returns whether the front of a stream is hexadecimal digits and white space alone.
fn are_digits(stream: &[u8]) -> bool {
    for byte in stream.iter().take(FRONT) {
        if !byte.is_ascii_hexdigit() && !byte.is_ascii_whitespace() {
            return false;
        }
    }
    true
}

/// Returns the first message of a stream.
fn frame_of(stream: &[u8]) -> Option<&[u8]> {
    let [high, low, rest @ ..] = stream else {
        return None;
    };
    rest.get(..usize::from(u16::from_be_bytes([*high, *low])))
}

/// Returns why what is left of a stream has no message, if anything is left.
fn cut_of(left: &[u8]) -> Option<Refusal> {
    let (wanted, found) = match left {
        [] => return None,
        [_] => (2, 1),
        [high, low, rest @ ..] => (usize::from(u16::from_be_bytes([*high, *low])), rest.len()),
    };
    Some(Refusal::Cut { wanted, found })
}
