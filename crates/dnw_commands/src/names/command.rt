//! What the words after `dnw name`, `dnw key-tag`, `dnw ds` and `dnw nsec3` ask for.

use crate::base::{Given, Known, Refusal, Sink, contents};
use crate::names::listed::put_lines_of;
use crate::names::shown::{Shown, lines, sorted};
use crate::names::sums::{ds_text, key_tag_text, nsec3_text};
use std::alloc::Global;
use std::io::Read;
use std::rt::Files;

/// The options of `dnw name`.
const OPTIONS: [Known; 4] = [
    Known::Flag("--key"),
    Known::Flag("--reverse"),
    Known::Flag("--sort"),
    Known::Flag("--lines"),
];

/// Shows what the words after `dnw name` ask for: a line for each name or address.
pub(crate) fn names<E: Files, I: Read, O: Sink>(
    env: &E,
    alloc: Global,
    words: &[String],
    input: &mut I,
    out: &mut O,
) -> Result<(), Refusal> {
    let given = Given::of(alloc, words, &OPTIONS)?;
    let shown = match given.one_of(&["--key", "--reverse", "--sort"])? {
        Some("--sort") => return sort(env, alloc, &given, input, out),
        Some("--key") => Shown::Key,
        Some(_) => Shown::Reverse,
        None => Shown::Wire,
    };
    if !given.has("--lines") {
        let text = lines(alloc, shown, given.some("NAME")?)?;
        return out.put(text.as_bytes());
    }
    for file in given.some("FILE or -")? {
        put_lines_of(env, alloc, shown, file, input, out)?;
    }
    Ok(())
}

/// Shows the names in the lines of files in canonical order.
fn sort<E: Files, I: Read, O: Sink>(
    env: &E,
    alloc: Global,
    given: &Given<'_>,
    input: &mut I,
    out: &mut O,
) -> Result<(), Refusal> {
    given.one_of(&["--lines", "--sort"])?;
    let mut names = Vec::new(alloc);
    for file in given.some("FILE or -")? {
        names.extend_from_slice(contents(env, alloc, file, input)?.as_slice())?;
        names.push(b'\n')?;
    }
    let text = sorted(alloc, names.as_slice())?;
    out.put(text.as_bytes())
}

/// Shows the key tag of each DNSKEY record that is a word after `dnw key-tag`.
pub(crate) fn key_tag<O: Sink>(
    alloc: Global,
    words: &[String],
    out: &mut O,
) -> Result<(), Refusal> {
    let given = Given::of(alloc, words, &[])?;
    for record in given.some("RECORD")? {
        out.put_line(key_tag_text(alloc, record)?.as_str())?;
    }
    Ok(())
}

/// Shows the DS record of each DNSKEY record that is a word after `dnw ds`.
pub(crate) fn ds<O: Sink>(alloc: Global, words: &[String], out: &mut O) -> Result<(), Refusal> {
    let given = Given::of(alloc, words, &[])?;
    for record in given.some("RECORD")? {
        out.put_line(ds_text(alloc, record)?.as_str())?;
    }
    Ok(())
}

/// Shows what the words after `dnw nsec3` ask for: the label of a hashed name.
pub(crate) fn nsec3<O: Sink>(alloc: Global, words: &[String], out: &mut O) -> Result<(), Refusal> {
    let given = Given::of(alloc, words, &[])?;
    let [name, iterations, salt] = given.plain.as_slice() else {
        return Err(given.wrong_count(alloc, &["NAME", "ITERATIONS", "SALT"]));
    };
    out.put_line(nsec3_text(alloc, name, iterations, salt)?.as_str())
}
