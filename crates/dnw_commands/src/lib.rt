//! The commands of the program `dnw`: they show whole messages, make queries, list zone files, and compute the sums of DNSSEC.
//!
//! The program itself, `crates/dnw`, passes its streams to `run`, and no more. The check of a program reads the code of all that it
//! stands on, in each of its processes, and that of a library only what these show: so the commands are a library.
#![tactic(auto)]

mod answer;
/// What the commands share.
mod base;
/// What `--help` and `--version` show.
mod help;
/// Whole messages.
mod messages;
/// Names, and the sums of DNSSEC over single records and names.
mod names;
/// Queries.
mod queries;
/// Zone files.
mod zones;

use answer::answer;
use base::{Misuse, Output, Progress, Refusal, Watch};
use std::io::{Read, Write};
use std::random::RandomSource;
use std::rt::{Env, Files};
use std::time::Clock;
use std::{env, io};

/// Does what the program's words ask for, and returns the exit status: 0 for an answer, 1 if something that is given is rejected, 2 for
/// words that ask for nothing that the program does, and 3 if the answer cannot be written. If it is not 0, lines in `errors` say why.
///
/// If `is_terminal`, a line on `terminal` says how far long work is.
pub fn run<
    E: Env + Files + RandomSource + Clock + AllocGlobal,
    I: Read,
    W: Write + Drop,
    X: Write + Drop,
    T: Write + Drop,
>(env: &E, input: &mut I, out: W, errors: X, terminal: T, is_terminal: bool) -> u8 {
    let mut progress = Progress::new(env.alloc(), env, terminal, is_terminal);
    let out = Output::new(env.alloc(), out, errors);
    status_of(env, input, out, &mut progress)
}

/// Does what the program's words ask for, and returns the exit status.
fn status_of<
    E: Env + Files + RandomSource + AllocGlobal,
    I: Read,
    W: Write + Drop,
    X: Write + Drop,
    P: Watch,
>(env: &E, input: &mut I, mut out: Output<W, X>, watch: &mut P) -> u8 {
    let answered = match words(env) {
        Ok(words) => answer(env, words.as_slice(), input, &mut out, watch),
        Err(refusal) => Err(refusal),
    };
    watch.ends();
    out.finish(answered)
}

/// The words after the program's name. It fails if they cannot be read, or if one of them is not UTF-8.
fn words<E: Env + AllocGlobal>(env: &E) -> Result<Vec<String>, Refusal> {
    let mut words = Vec::new(env.alloc());
    match env::args(env) {
        Ok(given) => {
            for word in given.skip(1) {
                words.push(word)?;
            }
            Ok(words)
        }
        Err(error) if error.kind() == io::ErrorKind::InvalidData => Err(Misuse::NotText.into()),
        Err(error) => Err(Refusal::Words(error)),
    }
}
