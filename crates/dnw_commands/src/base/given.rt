//! What commands are given: files, standard input, and hexadecimal digits.
ghost use Rattle.std.specs.Prelude.{◌≡◌, ◌⊎◌, codes, Ok, IfOk, IfErr, IsErr};
ghost use Rattle.hex.specs.Hex.{decode_of};
ghost use Rattle.dnw_commands.specs.Refusals.{IsMemory, SaysWrong};
ghost use Rattle.dnw_commands.specs.declared.base.refusal.Refusal.TheVariants.{Digits};

use crate::base::misuse::Misuse;
use crate::base::plain::plain;
use crate::base::refusal::Refusal;
use crate::base::window::Window;
use dns_names_wire::ProtoError;
use hex::FromHexError;
use std::alloc::{AllocError, Global};
use std::io::Read;
use std::rt::Files;
use std::{fs, io};

/// A file that is open, or standard input, and what of it is read and not taken yet.
#[derive(Drop)]
pub(crate) struct Stream<F> {
    /// The file, or `None` for standard input, which whoever reads gives to each call.
    file: Option<F>,
    /// What is read.
    pub(crate) window: Window,
}

impl<F: Read> Stream<F> {
    /// Creates one of a file of which nothing is read.
    pub(crate) fn of_file(alloc: Global, file: F) -> Self {
        Stream {
            file: Some(file),
            window: Window::new(alloc),
        }
    }

    /// Creates one of these octets, which are all.
    pub(crate) fn whole(alloc: Global, octets: &[u8]) -> Result<Self, AllocError> {
        let window = Window::whole(alloc, octets)?;
        Ok(Stream { file: None, window })
    }

    /// Reads more, as [`Window::fill`] does.
    pub(crate) fn fill<I: Read>(&mut self, input: &mut I) -> io::Result<()> {
        match &mut self.file {
            Some(file) => self.window.fill(file),
            None => self.window.fill(input),
        }
    }

    /// Reads on until so many octets are there, or all is read.
    pub(crate) fn fill_to<I: Read>(&mut self, input: &mut I, len: usize) -> io::Result<()> {
        match &mut self.file {
            Some(file) => self.window.fill_to(file, len),
            None => self.window.fill_to(input, len),
        }
    }
}

/// Opens a file, or standard input if the file is `-`.
pub(crate) fn open<E: Files>(
    env: &E,
    alloc: Global,
    file: &str,
) -> Result<Stream<E::File>, Refusal> {
    if file == "-" {
        let window = Window::new(alloc);
        return Ok(Stream { file: None, window });
    }
    match fs::open(env, file) {
        Ok(opened) => Ok(Stream::of_file(alloc, opened)),
        Err(error) => Err(unread(alloc, file, error)),
    }
}

/// Why a file, or standard input if it is `-`, is not read.
pub(crate) fn unread(alloc: Global, file: &str, error: io::Error) -> Refusal {
    let file = if file == "-" { "standard input" } else { file };
    match plain(alloc, file) {
        Ok(file) => Refusal::File { file, error },
        Err(e) => e.into(),
    }
}

/// All octets of a file, or of standard input if the file is `-`.
pub(crate) fn contents<E: Files, I: Read>(
    env: &E,
    alloc: Global,
    file: &str,
    input: &mut I,
) -> Result<Vec<u8>, Refusal> {
    let mut stream = open(env, alloc, file)?;
    all_of(alloc, file, &mut stream, usize::MAX, input)
}

/// All octets of a file, if these are at most so many.
pub(crate) fn all_of<F: Read, I: Read>(
    alloc: Global,
    file: &str,
    stream: &mut Stream<F>,
    most: usize,
    input: &mut I,
) -> Result<Vec<u8>, Refusal> {
    if let Err(error) = stream.fill_to(input, most.saturating_add(1)) {
        return Err(unread(alloc, file, error));
    }
    let octets = stream.window.left();
    if most < octets.len() {
        return Err(Refusal::TooLong(most));
    }
    Ok(Vec::from_slice(alloc, octets)?)
}

/// Returns the octets that a word of hexadecimal digits stands for.
pub(crate) fn word_octets(alloc: Global, word: &str) -> Result<Vec<u8>, Refusal>
    ensures ok { IfOk result (λ octets. decode_of word.now ≡ Ok octets.items) }
    ensures err { IfErr result (λ e. IsMemory e
        ⊎ (IsErr (decode_of word.now) × SaysWrong (codes "hexadecimal digits, two for each octet") word.now e)) }
{
    match octets_of(alloc, word) {
        Err(Refusal::Digits) => Err(Misuse::wrong(
            alloc,
            "hexadecimal digits, two for each octet",
            word,
        )),
        other => other,
    }
}

/// Returns the octets that hexadecimal digits of either case stand for, two each. It fails with `Digits` if the text is not of such
/// digits, and else only if an allocation fails.
pub(crate) fn octets_of(alloc: Global, text: &str) -> Result<Vec<u8>, Refusal>
    ensures ok { IfOk result (λ octets. decode_of text.now ≡ Ok octets.items) }
    ensures err { IfErr result (λ e. IsMemory e ⊎ ((e ≡ Digits) × IsErr (decode_of text.now))) }
{
    hex::decode(alloc, text).map_err(|e| match e {
        FromHexError::OutOfMemory => Refusal::Proto(ProtoError::Memory),
        _ => Refusal::Digits,
    })
}
