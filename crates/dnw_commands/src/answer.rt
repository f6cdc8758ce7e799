//! What the program answers to its words.

use crate::base::{Misuse, Refusal, Sink, Watch, plain};
use crate::help::{HELP, VERSION};
use crate::messages::messages;
use crate::names::{ds, key_tag, names, nsec3};
use crate::queries::query_of;
use crate::zones::{digest, zone};
use std::alloc::Global;
use std::io::Read;
use std::random::RandomSource;
use std::rt::Files;

/// Writes the answer to the words, the program's own name not among them. What watches long work is told when it ends. It fails if the
/// words ask for nothing, if all that was given is rejected, or if the answer cannot be written.
pub(crate) fn answer<E: Files + RandomSource + AllocGlobal, I: Read, O: Sink, P: Watch>(
    env: &E,
    words: &[String],
    input: &mut I,
    out: &mut O,
    watch: &mut P,
) -> Result<(), Refusal> {
    let alloc = env.alloc();
    let [command, words @ ..] = words else {
        return Err(Misuse::NoCommand.into());
    };
    match command.as_str() {
        "message" => messages(env, alloc, words, input, out),
        "query" => query_of(env, alloc, words, out),
        "name" => names(env, alloc, words, input, out),
        "key-tag" => key_tag(alloc, words, out),
        "ds" => ds(alloc, words, out),
        "nsec3" => nsec3(alloc, words, out),
        "zone-digest" => digest(env, alloc, words, input, out, watch),
        "zone" => zone(env, alloc, words, input, out, watch),
        "--help" | "-h" => out.put_line(HELP),
        "--version" => out.put_line(VERSION),
        other => Err(no_command(alloc, other)),
    }
}

/// Why a word is no command.
fn no_command(alloc: Global, word: &str) -> Refusal {
    match plain(alloc, word) {
        Ok(word) => Misuse::Command(word).into(),
        Err(e) => e.into(),
    }
}
