//! What the program answers to its words.

mod names;

use dns_names_wire::{BinDecoder, DecodeError, Name, ProtoError};
use hex::FromHexError;
use std::alloc::{AllocError, AllocFailed, Global};
use std::io;
use std::io::Write;
use thiserror::Error;

/// Why there is no answer.
#[derive(Debug, Drop, Error)]
enum Refusal {
    /// The words ask for nothing that the program does.
    #[error("usage: dnswire whole NAME | read START HEX | names NAME..")]
    Usage,
    /// A name was refused, or memory ran out.
    #[error("refused: {0}")]
    Proto(ProtoError),
    /// A name within a message was refused.
    #[error("refused: {0}")]
    Decode(DecodeError),
}

impl From<ProtoError> for Refusal {
    fn from(e: ProtoError) -> Self {
        Refusal::Proto(e)
    }
}

impl From<DecodeError> for Refusal {
    fn from(e: DecodeError) -> Self {
        Refusal::Decode(e)
    }
}

impl<T: Drop> From<AllocFailed<T>> for Refusal {
    fn from(_: AllocFailed<T>) -> Self {
        Refusal::Proto(ProtoError::Memory)
    }
}

impl From<AllocError> for Refusal {
    fn from(_: AllocError) -> Self {
        Refusal::Proto(ProtoError::Memory)
    }
}

/// Writes the answer to the words, the program's own name not among them, and returns the exit status: 0 for an
/// answer, 1 for a refusal, 2 for words that ask for nothing. It fails if the answer cannot be written.
pub fn answer<W: Write>(alloc: Global, words: &[String], out: &mut W) -> io::Result<u8> {
    match reply(alloc, words) {
        Ok(text) => {
            writeln!(out, "{text}")?;
            Ok(0)
        }
        Err(refusal) => {
            writeln!(out, "{refusal}")?;
            Ok(match refusal {
                Refusal::Usage => 2,
                _ => 1,
            })
        }
    }
}

fn reply(alloc: Global, words: &[String]) -> Result<String, Refusal> {
    match words {
        [command, name] if command.as_str() == "whole" => whole(alloc, name.as_str()),
        [command, start, message] if command.as_str() == "read" => {
            read(alloc, start.as_str(), message.as_str())
        }
        [command, _, ..] if command.as_str() == "names" => names::shared(alloc, &words[1..]),
        _ => Err(Refusal::Usage),
    }
}

/// A name's uncompressed form in hexadecimal.
fn whole(alloc: Global, name: &str) -> Result<String, Refusal> {
    let name = Name::from_ascii(alloc, name)?;
    Ok(hex::encode(alloc, name.as_wire())?)
}

/// The name at a place of a message, and where the name's own octets end.
fn read(alloc: Global, start: &str, message: &str) -> Result<String, Refusal> {
    let start = place(start)?;
    let message = octets(alloc, message)?;
    let mut decoder = BinDecoder::new(message.as_slice());
    if decoder.read_slice(start).is_err() {
        return Err(Refusal::Usage);
    }
    let name = Name::read(alloc, &mut decoder)?;
    let end = decoder.index();
    Ok(format!(in alloc; "{name} {end}")?)
}

/// A place in decimal digits.
fn place(text: &str) -> Result<usize, Refusal> {
    if !text.bytes().all(|b| b.is_ascii_digit()) {
        return Err(Refusal::Usage);
    }
    text.parse::<usize>().map_err(|_| Refusal::Usage)
}

/// Octets in hexadecimal digits of either case.
fn octets(alloc: Global, text: &str) -> Result<Vec<u8>, Refusal> {
    hex::decode(alloc, text).map_err(|e| match e {
        FromHexError::OutOfMemory => Refusal::Proto(ProtoError::Memory),
        _ => Refusal::Usage,
    })
}
