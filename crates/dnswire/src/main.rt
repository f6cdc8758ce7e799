//! `dnswire` writes names as octets, each alone or all in one message, and reads one from a message.
#![tactic(auto)]

mod answer;
#[cfg(test)]
mod tests;

use answer::answer;
use std::io::Write;
use std::process::ExitCode;
use std::rt::Env;
use std::{env, io};

/// The words after the program's name. It fails with `InvalidData` if one of them is not UTF-8.
fn words<E: Env + AllocGlobal>(env: &E) -> io::Result<Vec<String>> {
    let mut words = Vec::new(env.alloc());
    for word in env::args(env)?.skip(1) {
        words.push(word)?;
    }
    Ok(words)
}

fn run<E: Env + AllocGlobal, W: Write>(env: &E, out: &mut W) -> io::Result<u8> {
    match words(env) {
        Ok(words) => answer(env.alloc(), words.as_slice(), out),
        // Words that are not text ask for nothing that the program does, as no words do.
        Err(e) if e.kind() == io::ErrorKind::InvalidData => answer(env.alloc(), &[], out),
        Err(e) => Err(e),
    }
}

fn main(rt: HostRuntime) -> ExitCode {
    match run(&rt, &mut io::writer(&rt)) {
        Ok(status) => ExitCode::from(status),
        Err(_) => ExitCode::FAILURE,
    }
}
