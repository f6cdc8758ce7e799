//! Octets that are read in parts, of which only what is wanted is kept.
ghost use Rattle.std.specs.Prelude.{◌≡◌, drop};

use std::alloc::{AllocError, Global};
use std::io;
use std::io::{ErrorKind, Read};

/// How many octets are read at once, at most.
const PART: usize = 65_536;

/// Octets that are read in parts: what is read and not taken yet.
#[derive(Drop)]
pub(crate) struct Window {
    /// What is read, and then taken up to `start`.
    octets: Vec<u8>,
    start: usize,
    /// Whether all is read.
    is_done: bool,
    /// Whether two hexadecimal digits are read for each octet, and white space says nothing.
    is_text: bool,
    /// The first digit of an octet, if its second one is not read yet.
    high: Option<u8>,
}

impl Window {
    /// Creates a window of which nothing is read.
    pub(crate) fn new(alloc: Global) -> Self {
        Window {
            octets: Vec::new(alloc),
            start: 0,
            is_done: false,
            is_text: false,
            high: None,
        }
    }

    /// Creates one of these octets, which are all.
    pub(crate) fn whole(alloc: Global, octets: &[u8]) -> Result<Self, AllocError> {
        let mut window = Window::new(alloc);
        window.octets.extend_from_slice(octets)?;
        window.is_done = true;
        Ok(window)
    }

    /// Returns what is read and not taken.
    pub(crate) fn left(&self) -> &[u8]
        ensures { result.now ≡ drop self.now.start self.now.octets.items }
    {
        self.octets.as_slice().get(self.start..).unwrap_or_default()
    }

    /// Returns whether all is read.
    pub(crate) fn is_done(&self) -> bool {
        self.is_done
    }

    /// Takes so many octets, or all that are read if these are fewer.
    pub(crate) fn take(&mut self, len: usize) {
        self.start = self.start.saturating_add(len).min(self.octets.len());
    }

    /// Takes what is read, and what will be, as hexadecimal digits, of which two stand for an octet. It fails if other characters than
    /// digits and white space are read.
    pub(crate) fn decode(&mut self) -> io::Result<()> {
        self.is_text = true;
        self.decode_from(self.start)
    }

    /// Reads more of these octets, if not all is read. It fails with `InvalidData` if that is no text of hexadecimal digits, and should be one.
    pub(crate) fn fill<R: Read>(&mut self, from: &mut R) -> io::Result<()> {
        let taken = self.start.min(self.octets.len());
        self.octets.drain(..taken);
        self.start = 0;
        let len = self.octets.len();
        self.octets.resize(len.saturating_add(PART), 0)?;
        let found = match self.octets.as_mut_slice().get_mut(len..) {
            Some(room) => from.read(room),
            None => Ok(0),
        };
        let count = match &found {
            Ok(count) => *count,
            Err(_) => 0,
        };
        self.octets.truncate(len.saturating_add(count));
        match found {
            Ok(0) => self.end(),
            Ok(_) if self.is_text => self.decode_from(len),
            Ok(_) => Ok(()),
            Err(error) if error.kind() == ErrorKind::Interrupted => Ok(()),
            Err(error) => Err(error),
        }
    }

    /// Reads on until so many octets are there, or all is read.
    pub(crate) fn fill_to<R: Read>(&mut self, from: &mut R, len: usize) -> io::Result<()> {
        for _ in 0..u64::MAX {
            if self.is_done || len <= self.left().len() {
                break;
            }
            self.fill(from)?;
        }
        Ok(())
    }

    /// Remembers that all is read. It fails if one digit of an octet is missing.
    fn end(&mut self) -> io::Result<()> {
        self.is_done = true;
        match self.high.take() {
            Some(_) => Err(ErrorKind::InvalidData.into()),
            None => Ok(()),
        }
    }

    /// Puts the octets that digits stand for in place of these, from an offset on.
    fn decode_from(&mut self, start: usize) -> io::Result<()> {
        let mut end = start;
        for at in start..self.octets.len() {
            let character = self.octets.as_slice().get(at).copied().unwrap_or_default();
            if let Some(octet) = self.octet_after(character)?
                && let Some(place) = self.octets.as_mut_slice().get_mut(end)
            {
                *place = octet;
                end = end.saturating_add(1);
            }
        }
        self.octets.truncate(end);
        Ok(())
    }

    /// Takes a character, and returns the octet whose digits end with it, if one ends there.
    fn octet_after(&mut self, character: u8) -> io::Result<Option<u8>> {
        let Some(digit) = digit_of(character) else {
            return if character.is_ascii_whitespace() {
                Ok(None)
            } else {
                Err(ErrorKind::InvalidData.into())
            };
        };
        if let Some(high) = self.high.take() {
            return Ok(Some(high << 4 | digit));
        }
        self.high = Some(digit);
        Ok(None)
    }
}

/// Returns the value of a hexadecimal digit.
fn digit_of(character: u8) -> Option<u8> {
    match character {
        b'0'..=b'9' => Some(character - b'0'),
        b'a'..=b'f' => Some(character - b'a' + 10),
        b'A'..=b'F' => Some(character - b'A' + 10),
        _ => None,
    }
}

/// Returns how many octets are before the first line feed, if there is one.
pub(crate) fn line_len(text: &[u8]) -> Option<usize> {
    for (at, octet) in text.iter().enumerate() {
        if *octet == b'\n' {
            return Some(at);
        }
    }
    None
}
