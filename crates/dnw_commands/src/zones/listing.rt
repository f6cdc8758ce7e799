//! Zone files, with the files that they include, entry by entry.

use crate::base::{Refusal, Sink, Watch, open, plain};
use crate::zones::includes::Inclusions;
use crate::zones::kept::Kept;
use crate::zones::lines::Lines;
use crate::zones::shown::{Listed, Wanted};
use crate::zones::source::{Generating, Next, Source};
use dns_names_wire::name::Name;
use dns_names_wire::zone::{Context, TextPlace};
use std::alloc::Global;
use std::fs;
use std::io::Read;
use std::rt::Files;

/// A zone file that is to be read.
#[derive(Clone, Copy)]
pub(crate) struct ZoneFile<'a> {
    /// The file, or `-` for standard input.
    pub(crate) file: &'a str,
    /// The text of the name that is the origin.
    pub(crate) origin: &'a str,
    /// The folders that files may be included from, beside its own.
    pub(crate) folders: &'a [&'a str],
    /// What of it is asked for.
    pub(crate) wanted: Wanted,
}

impl ZoneFile<'_> {
    /// Shows the records of the zone file, and of the files that it includes, as they are wanted, and says each error, as compilers do.
    pub(crate) fn show<E: Files + AllocGlobal, I: Read, O: Sink, P: Watch>(
        &self,
        env: &E,
        alloc: Global,
        input: &mut I,
        out: &mut O,
        watch: &mut P,
    ) -> Result<(), Refusal> {
        let reading = self.read(env, alloc, input, out, watch)?;
        reading
            .lines
            .finish(alloc, reading.files.as_slice(), out, watch)
    }

    /// Returns the records of the zone file, and of the files that it includes, or else says each error.
    pub(crate) fn kept<E: Files + AllocGlobal, I: Read, O: Sink, P: Watch>(
        &self,
        env: &E,
        alloc: Global,
        input: &mut I,
        out: &mut O,
        watch: &mut P,
    ) -> Result<Option<Kept>, Refusal> {
        let reading = self.read(env, alloc, input, out, watch)?;
        Ok(reading.lines.into_kept())
    }

    /// Reads all of the zone file, and of the files that it includes.
    fn read<E: Files + AllocGlobal, I: Read, O: Sink, P: Watch>(
        &self,
        env: &E,
        alloc: Global,
        input: &mut I,
        out: &mut O,
        watch: &mut P,
    ) -> Result<Reading<E::File>, Refusal> {
        let origin = Name::from_text(alloc, self.origin, None)?;
        let records = Listed::new(alloc, self.wanted, Context::new(origin.copied()));
        let mut reading = Reading {
            sources: Vec::new(alloc),
            files: Vec::new(alloc),
            lines: Lines::new(alloc, records),
            inclusions: Inclusions::new(env, alloc, self.file, self.folders)?,
            generating: self.wanted.generating(),
        };
        let first = self.first(env, alloc, origin)?;
        reading.open(first)?;
        for _ in 0..u64::MAX {
            if !reading.step(env, alloc, input, out, watch)? {
                break;
            }
        }
        Ok(reading)
    }

    /// Opens the zone file.
    fn first<E: Files>(
        &self,
        env: &E,
        alloc: Global,
        origin: Name,
    ) -> Result<Source<E::File>, Refusal> {
        let mut context = Context::new(origin);
        context.fallback_ttl = self.wanted.ttl;
        Ok(Source {
            name: plain(alloc, self.file)?,
            number: 0,
            path: self.base(env, alloc)?,
            text: open(env, alloc, self.file)?,
            used: 0,
            len: len_of(env, self.file),
            place: TextPlace { line: 0, column: 0 },
            context,
            generating: self.wanted.generating(),
            shows_lines: true,
        })
    }

    /// Returns the path in whose folder relative paths of the zone file begin: its own, if it is a plain file, or else one in the first
    /// folder that is given.
    fn base<E: Files>(&self, env: &E, alloc: Global) -> Result<Option<String>, Refusal> {
        if self.file != "-" && is_plain(env, self.file) {
            return Ok(Some(String::from_str(alloc, self.file)?));
        }
        match self.folders.first() {
            Some(folder) => Ok(Some(format!(in alloc; "{folder}/-")?)),
            None => Ok(None),
        }
    }
}

/// Returns whether a file is a plain one.
fn is_plain<E: Files>(env: &E, file: &str) -> bool {
    match fs::metadata(env, file) {
        Ok(metadata) => metadata.is_file(),
        Err(_) => false,
    }
}

/// Returns how many octets a file has, or 0 if that is not known.
fn len_of<E: Files>(env: &E, file: &str) -> u64 {
    match fs::metadata(env, file) {
        Ok(metadata) => metadata.len(),
        Err(_) => 0,
    }
}

/// Zone files that are being read, and what was read of them.
#[derive(Drop)]
struct Reading<F> {
    /// The files that are open, each but the first included by the one before it.
    sources: Vec<Source<F>>,
    /// The names of all files that were opened.
    files: Vec<String>,
    lines: Lines,
    inclusions: Inclusions,
    /// How `$GENERATE` is read in files that are included.
    generating: Generating,
}

impl<F: Read + Drop> Reading<F> {
    /// Opens a file, whose entries come next.
    fn open(&mut self, mut source: Source<F>) -> Result<(), Refusal> {
        source.number = self.files.len();
        self.files.push(source.name.clone()?)?;
        self.sources.push(source)?;
        Ok(())
    }

    /// Reads the next entry, if a file is open, and returns whether one is.
    fn step<E: Files<File = F> + AllocGlobal, I: Read, O: Sink, P: Watch>(
        &mut self,
        env: &E,
        alloc: Global,
        input: &mut I,
        out: &mut O,
        watch: &mut P,
    ) -> Result<bool, Refusal> {
        let Some(source) = self.sources.last_mut() else {
            return Ok(false);
        };
        let next = source.next(env, alloc, &mut self.inclusions, &mut self.lines, out)?;
        self.lines.say_errors(out, watch)?;
        self.go_on(alloc, next, input, out, watch)?;
        Ok(true)
    }

    /// Goes on to what comes next.
    fn go_on<I: Read, O: Sink, P: Watch>(
        &mut self,
        alloc: Global,
        next: Next<F>,
        input: &mut I,
        out: &mut O,
        watch: &mut P,
    ) -> Result<(), Refusal> {
        match next {
            Next::Entry => Ok(()),
            Next::File(included, context) => {
                self.open(Source::included(alloc, included, context, self.generating))
            }
            Next::More => self.read_on(alloc, input, out, watch),
            Next::End => {
                self.sources.pop();
                self.inclusions.close();
                Ok(())
            }
        }
    }

    /// Reads more of the file that is read.
    fn read_on<I: Read, O: Sink, P: Watch>(
        &mut self,
        alloc: Global,
        input: &mut I,
        out: &mut O,
        watch: &mut P,
    ) -> Result<(), Refusal> {
        let Some(source) = self.sources.last_mut() else {
            return Ok(());
        };
        source.read_on(alloc, input, out)?;
        if self.lines.are_kept() {
            watch.is_at(source.used, source.len);
        }
        Ok(())
    }
}
