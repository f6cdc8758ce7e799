//! Single zone files, entry by entry.

use crate::base::{Refusal, Sink, Stream, unread};
use crate::zones::faults::{Fault, moved};
use crate::zones::includes::{IncludeError, Included, Inclusions, word_of};
use crate::zones::kept::Place;
use crate::zones::lines::Lines;
use dns_names_wire::ProtoError;
use dns_names_wire::zone::{
    Context, Entry, Found, Include, Step, TextPlace, ZoneError, is_generate, take_entry,
    take_generated,
};
use std::alloc::Global;
use std::io::Read;
use std::rt::Files;

/// The most octets of an entry.
const MAX_ENTRY: usize = 16_777_216;

/// An entry of at most so many octets is looked at again with each part of it that is read, and a longer one if it is twice as long.
const SHORT: usize = 65_536;

/// How `$GENERATE` is read.
#[derive(Clone, Copy)]
pub(crate) struct Generating {
    /// How many records one may stand for, or 0 if it is an error.
    pub(crate) limit: u32,
    /// Within one, the number of its next record.
    pub(crate) next: Option<u32>,
}

/// A zone file, and how far it is read.
#[derive(Drop)]
pub(crate) struct Source<F> {
    /// The file, as its errors name it.
    pub(crate) name: String,
    /// How many files were opened before it.
    pub(crate) number: usize,
    /// The path in whose folder relative paths of `$INCLUDE` begin, if files may be included.
    pub(crate) path: Option<String>,
    /// The octets of the file that are not read yet.
    pub(crate) text: Stream<F>,
    /// The number of octets that are read.
    pub(crate) used: u64,
    /// How many octets there are, or 0 if that is not known.
    pub(crate) len: u64,
    /// The place of the next octet.
    pub(crate) place: TextPlace,
    /// What the entries that are read say for the next one.
    pub(crate) context: Context,
    pub(crate) generating: Generating,
    /// Whether lines are shown: of an included file only after a record of it.
    pub(crate) shows_lines: bool,
}

/// What comes next.
#[derive(Drop)]
pub(crate) enum Next<F> {
    /// The next entry of the same file.
    Entry,
    /// The entries of an included file, with what is known before them.
    File(Included<F>, Context),
    /// What is after the `$INCLUDE` of the file, which ends.
    End,
    /// More of the file, in which an entry is not whole.
    More,
}

impl<F: Read + Drop> Source<F> {
    /// Creates an included file of which nothing is read.
    pub(crate) fn included(
        alloc: Global,
        included: Included<F>,
        context: Context,
        generating: Generating,
    ) -> Self {
        Source {
            name: included.name,
            number: 0,
            path: Some(included.path),
            text: Stream::of_file(alloc, included.file),
            used: 0,
            len: included.len,
            place: TextPlace { line: 0, column: 0 },
            context,
            generating,
            shows_lines: false,
        }
    }

    /// Reads the next entry, adds its line or lines, and returns what comes next.
    pub(crate) fn next<E: Files<File = F> + AllocGlobal, O: Sink>(
        &mut self,
        env: &E,
        alloc: Global,
        inclusions: &mut Inclusions,
        lines: &mut Lines,
        out: &mut O,
    ) -> Result<Next<F>, Refusal> {
        let text = self.text.window.left();
        let is_part = !self.text.window.is_done();
        let path = match &self.path {
            Some(path) => Some(path.as_str()),
            None => None,
        };
        let generating = &mut self.generating;
        let step = step_of(
            alloc,
            &mut self.context,
            text,
            is_part,
            generating,
            &mut lines.line,
        );
        let at = At {
            context: &self.context,
            fault: Fault {
                file: self.name.as_str(),
                text,
                start: self.place,
                shows_lines: self.shows_lines,
            },
            number: self.number,
            path,
        };
        let next = match &step.found {
            Ok(found) => at.add(env, alloc, found, inclusions, lines, out),
            Err(error) => at.add_error(alloc, error, lines),
        };
        self.shows_lines = self.shows_lines
            || matches!(step.found, Ok(Found::Entry(Entry::Record(_))));
        self.place = moved(self.place, text, step.used);
        self.used = self.used.saturating_add(step.used as u64);
        self.text.window.take(step.used);
        next
    }

    /// Reads more of the file, in which an entry is not whole.
    pub(crate) fn read_on<I: Read, O: Sink>(
        &mut self,
        alloc: Global,
        input: &mut I,
        out: &mut O,
    ) -> Result<(), Refusal> {
        out.flush()?;
        let len = self.text.window.left().len();
        if MAX_ENTRY < len {
            return Err(Refusal::TooLong(MAX_ENTRY));
        }
        let wanted = if len < SHORT {
            len
        } else {
            len.saturating_mul(2)
        };
        match self.text.fill_to(input, wanted.saturating_add(1)) {
            Ok(()) => Ok(()),
            Err(error) => Err(unread(alloc, self.name.as_str(), error)),
        }
    }
}

/// Takes the entry that a text begins with, or the next record of the `$GENERATE` that it begins with.
fn step_of(
    alloc: Global,
    context: &mut Context,
    text: &[u8],
    is_part: bool,
    generating: &mut Generating,
    line: &mut Vec<u8>,
) -> Step {
    let step = take_entry(alloc, context, text, is_part, line);
    if generating.limit == 0 || !is_generate(&step) {
        return step;
    }
    let Generating { limit, next } = *generating;
    let made = take_generated(alloc, context, text, step.used, limit, next, line);
    generating.next = made.next;
    made.step
}

/// Where an entry is.
#[derive(Clone, Copy)]
struct At<'a> {
    /// What it and the entries before it say.
    context: &'a Context,
    /// What its errors are shown with.
    fault: Fault<'a>,
    /// How many files were opened before its file.
    number: usize,
    /// The path in whose folder relative paths begin.
    path: Option<&'a str>,
}

impl At<'_> {
    /// Adds the line or lines of the entry, and returns what comes next.
    fn add<E: Files + AllocGlobal, O: Sink>(
        &self,
        env: &E,
        alloc: Global,
        found: &Found,
        inclusions: &mut Inclusions,
        lines: &mut Lines,
        out: &mut O,
    ) -> Result<Next<E::File>, Refusal> {
        match found {
            Found::Entry(Entry::Record(found)) => {
                let place = Place {
                    file: self.number,
                    line: self.fault.start.line,
                };
                lines.add_record(alloc, self.context, found, place, out)?;
                Ok(Next::Entry)
            }
            Found::Entry(Entry::Include(include)) => {
                self.include(env, alloc, include, inclusions, &mut lines.errors)
            }
            Found::Entry(Entry::Nothing) => Ok(Next::Entry),
            Found::More => Ok(Next::More),
            _ => Ok(Next::End),
        }
    }

    /// Adds why the entry is none.
    fn add_error<F>(
        &self,
        alloc: Global,
        error: &ZoneError,
        lines: &mut Lines,
    ) -> Result<Next<F>, Refusal> {
        lines.add_error(alloc, &self.fault, error)?;
        Ok(Next::Entry)
    }

    /// Opens the file of an `$INCLUDE`, or appends why it cannot be read.
    fn include<E: Files + AllocGlobal>(
        &self,
        env: &E,
        alloc: Global,
        include: &Include,
        inclusions: &mut Inclusions,
        errors: &mut String,
    ) -> Result<Next<E::File>, Refusal> {
        let word = word_of(self.fault.text, include);
        match inclusions.open(env, alloc, self.path, word) {
            Ok(included) => Ok(Next::File(included, context_of(self.context, include))),
            Err(IncludeError::Memory) => Err(Refusal::Proto(ProtoError::Memory)),
            Err(error) => {
                let reason = format!(in alloc; "{error}")?;
                self.fault.put(include.file, reason.as_str(), errors)?;
                Ok(Next::Entry)
            }
        }
    }
}

/// Returns what the entries before a file say for its entries.
fn context_of(context: &Context, include: &Include) -> Context {
    let owner = match &context.owner {
        Some(owner) => Some(owner.clone()),
        None => None,
    };
    Context {
        origin: include.origin.copied(),
        owner,
        default_ttl: context.default_ttl,
        last_ttl: context.last_ttl,
        fallback_ttl: context.fallback_ttl,
        class: context.class,
    }
}
