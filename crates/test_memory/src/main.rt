//! `test_memory SCENARIO COUNT` makes and frees as many allocations, and then runs a scenario on the encoder and on names, on
//! edits of names, scripts, or texts of master files, and prints what is there after each call or step. `all` runs all of
//! them.
//!
//! The program's words and lines allocate nothing. So each allocation after these is one of the library, or one for the
//! steps that a script is made of. `tools/test` runs each scenario after ever fewer of them while always the same
//! allocation fails, and so makes every one of the scenario fail in turn.
#![tactic(auto)]

mod edits;
mod reverse;
mod scenario_run;
mod scenarios;
mod script_run;
mod scripts;
mod show;
mod step;
mod texts;

use std::alloc::Global;
use std::io;
use std::process::ExitCode;
use std::rt::Env;

/// The longest word that the program reads.
const LONGEST: usize = 32;

/// Runs the scenario that the first word names, after as many allocations as the second says. Returns the exit status: 2 if
/// there is no such scenario.
fn run<R: Env + Print + AllocGlobal>(rt: &R) -> io::Result<u8> {
    let mut name = [0u8; LONGEST];
    let mut count = [0u8; LONGEST];
    let name_len = rt.arg(1, &mut name).unwrap_or(0);
    let count_len = rt.arg(2, &mut count).unwrap_or(0);
    allocate(rt.alloc(), number(&count[..count_len]));
    match scenario_run::run_named(rt.alloc(), &name[..name_len], &mut io::writer(rt))? {
        true => Ok(0),
        false => Ok(2),
    }
}

/// Makes as many allocations, and frees each.
fn allocate(alloc: Global, count: u32) {
    for _ in 0..count {
        let _ = Vec::<u8>::with_capacity(alloc, 1);
    }
}

/// Returns the number that a word writes, or 0.
fn number(word: &[u8]) -> u32 {
    match str::from_utf8(word) {
        Ok(text) => text.parse::<u32>().unwrap_or(0),
        Err(_) => 0,
    }
}

fn main(rt: HostRuntime) -> ExitCode {
    match run(&rt) {
        Ok(status) => ExitCode::from(status),
        Err(_) => ExitCode::FAILURE,
    }
}
