//! Where answers are written, as soon as they are there, and where it is said what is wrong.

use crate::base::plain::plain;
use crate::base::refusal::Refusal;
use std::alloc::Global;
use std::io;
use std::io::Write;

/// How many octets are kept before they are written.
const ROOM: usize = 65_536;

/// Where answers are written, and what is wrong.
pub(crate) trait Sink {
    /// Writes a line of the answer.
    fn put_line(&mut self, line: &str) -> Result<(), Refusal>;

    /// Writes octets of the answer.
    fn put(&mut self, octets: &[u8]) -> Result<(), Refusal>;

    /// Writes out what was kept, before more input is awaited.
    fn flush(&mut self) -> Result<(), Refusal>;

    /// Writes lines that say what is wrong, after all of the answer that is there.
    fn say(&mut self, lines: &str) -> Result<(), Refusal>;

    /// Remembers that something that was given is rejected.
    fn reject(&mut self);
}

/// Standard output and standard error, or what is in their place.
#[derive(Drop)]
pub(crate) struct Output<W, X> {
    out: W,
    errors: X,
    /// What of the answer is not written yet.
    kept: Vec<u8>,
    has_rejected: bool,
}

impl<W: Write + Drop, X: Write + Drop> Output<W, X> {
    /// Creates an output to which nothing is written.
    pub(crate) fn new(alloc: Global, out: W, errors: X) -> Self {
        Output {
            out,
            errors,
            kept: Vec::new(alloc),
            has_rejected: false,
        }
    }

    /// Writes out what was kept, and returns the exit status: 0 after an answer, 1 if something is rejected, 2 if the words ask for
    /// nothing, and 3 if the answer cannot be written.
    pub(crate) fn finish(mut self, done: Result<(), Refusal>) -> u8 {
        let done = match self.flush() {
            Ok(()) => done,
            Err(refusal) => Err(refusal),
        };
        match done {
            Ok(()) if self.has_rejected => 1,
            Ok(()) => 0,
            Err(refusal) => self.end(&refusal),
        }
    }

    /// Says why there is no answer, but not that nobody reads it, and returns the exit status.
    fn end(&mut self, refusal: &Refusal) -> u8 {
        let said = match refusal {
            Refusal::Output(error) if error.kind() == io::ErrorKind::BrokenPipe => Ok(()),
            Refusal::Usage(misuse) => writeln!(self.errors, "dnw: {misuse} (see dnw --help)"),
            refusal => writeln!(self.errors, "dnw: {refusal}"),
        };
        match (refusal, said) {
            (Refusal::Output(_), _) | (_, Err(_)) => 3,
            (Refusal::Usage(_), Ok(())) => 2,
            _ => 1,
        }
    }

    /// Writes out what was kept.
    fn write_kept(&mut self) -> io::Result<()> {
        self.out.write_all(self.kept.as_slice())?;
        self.out.flush()
    }
}

impl<W: Write + Drop, X: Write + Drop> Sink for Output<W, X> {
    fn put_line(&mut self, line: &str) -> Result<(), Refusal> {
        self.put(line.as_bytes())?;
        self.put(b"\n")
    }

    fn put(&mut self, octets: &[u8]) -> Result<(), Refusal> {
        self.kept.extend_from_slice(octets)?;
        if ROOM <= self.kept.len() {
            self.flush()?;
        }
        Ok(())
    }

    fn flush(&mut self) -> Result<(), Refusal> {
        let written = self.write_kept();
        self.kept.clear();
        match written {
            Ok(()) => Ok(()),
            Err(error) => Err(Refusal::Output(error)),
        }
    }

    fn say(&mut self, lines: &str) -> Result<(), Refusal> {
        self.flush()?;
        match self.errors.write_all(lines.as_bytes()) {
            Ok(()) => Ok(()),
            Err(error) => Err(Refusal::Output(error)),
        }
    }

    fn reject(&mut self) {
        self.has_rejected = true;
    }
}

/// Says why a source is rejected, if there are others. It fails if there are none, or if the answer cannot be written.
pub(crate) fn said_of<O: Sink>(
    alloc: Global,
    source: &str,
    has_many: bool,
    shown: Result<(), Refusal>,
    out: &mut O,
) -> Result<(), Refusal> {
    match shown {
        Err(Refusal::Output(error)) => Err(Refusal::Output(error)),
        Err(refusal) if has_many => {
            let source = plain(alloc, source)?;
            let line = format!(in alloc; "dnw: {source}: {refusal}\n")?;
            out.reject();
            out.say(line.as_str())
        }
        other => other,
    }
}
