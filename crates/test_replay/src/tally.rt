//! Answers that are compared and counted.

use crate::notation::octets;
use std::alloc::Global;
use std::io;
use std::io::Write;

/// How an answer compares with the one that is expected.
#[derive(Clone, Copy)]
pub(crate) enum Verdict {
    /// It is the same.
    Same,
    /// The Rust moves the cursor although it fails to read.
    CursorStays,
    /// The Rust drops a backslash at the end of a text.
    UnfinishedEscape,
    /// A character is numeric since Unicode 18.0.
    NumericCharacter,
    /// It is another, and not on purpose.
    Different,
}

/// How many answers there were of each kind.
#[derive(Drop)]
pub(crate) struct Tally {
    compared: u64,
    cursor_stays: u64,
    unfinished_escape: u64,
    numeric_character: u64,
    open_list: u64,
    dollar_word: u64,
    different: u64,
}

impl Tally {
    /// Creates a tally of no answers.
    pub(crate) fn new() -> Self {
        Tally {
            compared: 0,
            cursor_stays: 0,
            unfinished_escape: 0,
            numeric_character: 0,
            open_list: 0,
            dollar_word: 0,
            different: 0,
        }
    }

    /// Compares an answer with the one that is expected, and counts it. A request may have several answers, one a word.
    pub(crate) fn count(
        &mut self,
        alloc: Global,
        kind: &str,
        request: &str,
        wanted: &str,
        got: &str,
    ) -> Verdict {
        if matches!(
            kind,
            "readings" | "order" | "label-order" | "lower-order" | "edits"
        ) {
            return self.count_words(wanted, got);
        }
        let verdict = judge(alloc, kind, request, wanted, got);
        self.add(verdict);
        verdict
    }

    /// Compares answers word by word. Returns `Different` if one differs, and not on purpose.
    fn count_words(&mut self, wanted: &str, got: &str) -> Verdict {
        let mut worst = Verdict::Same;
        let mut answers = got.split(' ');
        for want in wanted.split(' ') {
            let verdict = judge_reading(want, answers.next().unwrap_or(""));
            self.add(verdict);
            if let Verdict::Different = verdict {
                worst = verdict;
            }
        }
        if answers.next().is_some() {
            self.add(Verdict::Different);
            worst = Verdict::Different;
        }
        worst
    }

    /// Counts an answer.
    pub(crate) fn add(&mut self, verdict: Verdict) {
        self.compared = self.compared.saturating_add(1);
        let count = match verdict {
            Verdict::Same => return,
            Verdict::CursorStays => &mut self.cursor_stays,
            Verdict::UnfinishedEscape => &mut self.unfinished_escape,
            Verdict::NumericCharacter => &mut self.numeric_character,
            Verdict::Different => &mut self.different,
        };
        *count = count.saturating_add(1);
    }

    /// Counts the texts that an answer covers beyond one.
    pub(crate) fn add_texts(&mut self, texts: u64) {
        self.compared = self.compared.saturating_add(texts);
    }

    /// Counts a text that ends in an open list, for which the Rust may return a word or nothing.
    pub(crate) fn add_open_list(&mut self) {
        self.open_list = self.open_list.saturating_add(1);
    }

    /// Counts a text with an unrecognized word after a `$`, which the Rust leaves out of its error.
    pub(crate) fn add_dollar_word(&mut self) {
        self.dollar_word = self.dollar_word.saturating_add(1);
    }

    /// Returns the number of answers that differ, and not on purpose.
    pub(crate) fn different(&self) -> u64 {
        self.different
    }

    /// Returns `true` if answers were compared, and none differs but on purpose.
    pub(crate) fn is_clean(&self) -> bool {
        self.compared > 0 && self.different == 0
    }

    /// Prints the counts.
    pub(crate) fn print<W: Write>(&self, out: &mut W) -> io::Result<()> {
        writeln!(out, "answers compared: {}", self.compared)?;
        for (why, count) in [
            (
                "the cursor is unchanged if reading fails",
                self.cursor_stays,
            ),
            ("an unfinished escape is rejected", self.unfinished_escape),
            ("numeric characters of Unicode 18.0", self.numeric_character),
            ("an open list is an error", self.open_list),
            ("an error has the word after a $", self.dollar_word),
        ] {
            writeln!(out, "different on purpose, {why}: {count}")?;
        }
        writeln!(out, "different: {}", self.different)
    }
}

fn judge(alloc: Global, kind: &str, request: &str, wanted: &str, got: &str) -> Verdict {
    if wanted == got {
        Verdict::Same
    } else if kind == "text" {
        judge_parsed(alloc, request, wanted, got)
    } else {
        Verdict::Different
    }
}

/// Compares a reading, whose expected error may have the Rust's cursor after it.
fn judge_reading(want: &str, got: &str) -> Verdict {
    if want == got {
        return Verdict::Same;
    }
    match want.split_once('@') {
        Some((code, _)) if code == got => Verdict::CursorStays,
        _ => Verdict::Different,
    }
}

/// Compares a parsed text. The list leaves out the rest of an error's text if it has control characters.
fn judge_parsed(alloc: Global, text: &str, wanted: &str, got: &str) -> Verdict {
    let code = got.split_once(':').map_or(got, |parts| parts.0);
    if wanted == code {
        Verdict::Same
    } else if got == "!e" {
        Verdict::UnfinishedEscape
    } else if code == "!i" && has_newly_numeric(alloc, text) {
        Verdict::NumericCharacter
    } else {
        Verdict::Different
    }
}

/// Returns `true` if a text in hexadecimal has a character that is numeric in Unicode 18.0 and was not before.
fn has_newly_numeric(alloc: Global, text: &str) -> bool {
    let Ok(octets) = octets(alloc, text) else {
        return false;
    };
    match str::from_utf8(octets.as_slice()) {
        Ok(text) => text.chars().any(is_newly_numeric),
        Err(_) => false,
    }
}

fn is_newly_numeric(c: char) -> bool {
    matches!(c, '\u{1246F}' | '\u{12475}'..='\u{1247F}' | '\u{12550}'..='\u{12686}')
}
