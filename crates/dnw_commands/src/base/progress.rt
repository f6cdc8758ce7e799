//! A line on a terminal that says how far long work is.
ghost use Rattle.std.specs.Prelude.{◌≡◌, ◌*◌, ◌/◌, ◌<◌, None, false};

use std::alloc::Global;
use std::io;
use std::io::Write;
use std::time::{Clock, Instant};

/// How long work takes before a line says how far it is, in milliseconds.
const PATIENCE: u128 = 1_000;

/// How long the reading takes, in milliseconds, if a line is to say that the step after it begins. Such a step takes so much longer
/// that all of it is more than [`PATIENCE`].
const STEP_PATIENCE: u128 = 300;

/// How long a line stands before it is written anew, in milliseconds.
const PAUSE: u128 = 200;

/// Who is told how far long work is.
pub(crate) trait Watch {
    /// Says that so many octets are read, of so many, or of 0 if it is not known how many they are.
    fn is_at(&mut self, done: u64, all: u64);

    /// Says that the reading has ended, and which step begins, over so many records.
    fn begins(&mut self, step: &str, records: usize);

    /// Says that the work has ended.
    fn ends(&mut self);
}

/// Shows how far work is that takes long, as a line on a terminal. It is rewritten in place, and gone when the work ends.
#[derive(Drop)]
pub(crate) struct Progress<'a, C, W> {
    alloc: Global,
    clock: &'a C,
    terminal: W,
    /// When the work began, or `None` if nothing is shown.
    began: Option<Instant>,
    /// How many milliseconds after the beginning the next line may be written.
    next: u128,
    /// Whether a line stands there.
    is_shown: bool,
}

impl<'a, C: Clock, W: Write> Progress<'a, C, W> {
    /// Begins the work now. If what is given is no terminal, or the clock cannot be read, nothing will be written.
    pub(crate) fn new(alloc: Global, clock: &'a C, terminal: W, is_terminal: bool) -> Self
        ensures { is_terminal ≡ false → result.began ≡ None }
    {
        let began = if is_terminal {
            Instant::now(clock).ok()
        } else {
            None
        };
        Progress {
            alloc,
            clock,
            terminal,
            began,
            next: PATIENCE,
            is_shown: false,
        }
    }

    /// Writes a line over the one that stands there, if the work has taken so many milliseconds. What cannot be written is left out,
    /// and so is all after it.
    fn show_after(&mut self, patience: u128, line: &str)
        ensures { self.old.began ≡ None → self.new ≡ self.old }
    {
        let Some(began) = self.began else {
            return;
        };
        let Ok(elapsed) = began.elapsed(self.clock) else {
            return;
        };
        if elapsed.as_millis() < patience {
            return;
        }
        self.next = elapsed.as_millis().saturating_add(PAUSE);
        self.is_shown = true;
        if self.write_line(line).is_err() {
            self.began = None;
        }
    }

    /// Writes a line over the one that stands there.
    fn write_line(&mut self, line: &str) -> io::Result<()> {
        let text = format!(in self.alloc; "\rdnw: {line:<48}")?;
        self.terminal.write_all(text.as_bytes())
    }

    /// Writes spaces over the line that stands there.
    fn clear(&mut self) -> io::Result<()> {
        let text = format!(in self.alloc; "\r{:<53}\r", "")?;
        self.terminal.write_all(text.as_bytes())
    }
}

impl<'a, C: Clock, W: Write> Watch for Progress<'a, C, W> {
    fn is_at(&mut self, done: u64, all: u64)
        ensures { self.old.began ≡ None → self.new ≡ self.old }
    {
        let line = match all {
            0 => format!(in self.alloc; "read {done} octets"),
            _ => format!(in self.alloc; "read {} %", percent(done, all)),
        };
        if let Ok(line) = line {
            self.show_after(self.next, line.as_str());
        }
    }

    fn begins(&mut self, step: &str, records: usize)
        ensures { self.old.began ≡ None → self.new ≡ self.old }
    {
        if let Ok(line) = format!(in self.alloc; "{step} {records} records") {
            self.show_after(STEP_PATIENCE, line.as_str());
        }
    }

    fn ends(&mut self)
        ensures { self.old.is_shown ≡ false → self.new ≡ self.old }
    {
        if self.is_shown {
            self.is_shown = false;
            if self.clear().is_err() {
                self.began = None;
            }
        }
    }
}

/// Returns how many hundredths of all are done, rounded down. Of nothing all is done.
fn percent(done: u64, all: u64) -> u128
    ensures { 0 < all → result ≡ done * 100 / all }
{
    if all == 0 {
        return 100;
    }
    u128::from(done) * 100 / u128::from(all)
}
