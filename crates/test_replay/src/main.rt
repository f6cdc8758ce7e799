//! `test_replay` makes requests of the library and compares the answers with those that are expected: worked examples by
//! hand, and what hickory-proto 0.26.3 answered. It reads lines from standard input; `diff/README.md` has their format.
//!
//! It prints each line with another answer, up to a limit, and then how many answers there were, how many of them differ
//! on purpose, by reason, and how many not on purpose. It exits with 1 if there is one of these.
#![tactic(auto)]

mod bounds;
mod buffer;
mod codes;
mod data_texts;
mod decoding;
mod dnssec;
mod encoding;
mod errors;
mod fields;
mod labels;
mod line;
mod messages;
mod names;
mod nets;
mod notation;
mod ordering;
mod read_back;
mod readings;
mod record_sets;
mod records;
mod requests;
mod restrict;
mod scripts;
mod tally;
mod texts;
mod tokens;
mod walking;

use std::io;
use std::io::{BufRead, BufReader};
use std::process::ExitCode;
use tally::Tally;

fn run<R: Input + Print + AllocGlobal>(rt: &R) -> io::Result<bool> {
    let alloc = rt.alloc();
    let mut tally = Tally::new();
    let mut out = io::writer(rt);
    for line in BufReader::new(alloc, rt.reader())?.lines(alloc) {
        line::replay(alloc, line?.as_str(), &mut tally, &mut out)?;
    }
    tally.print(&mut out)?;
    Ok(tally.is_clean())
}

fn main(rt: HostRuntime) -> ExitCode {
    match run(&rt) {
        Ok(true) => ExitCode::SUCCESS,
        _ => ExitCode::FAILURE,
    }
}
