//! Tests of what the program writes, and of its status.

use crate::{answer, run};
use std::alloc::Global;
use std::env::FillError;
use std::io;
use std::process::Abort;
use std::rt::Env;
use std::test::Fail;

/// What the program writes for words that ask for nothing.
const USAGE: &str = "usage: dnswire whole NAME | read START HEX | names NAME..\n";

/// Words with a space between each two, what the program writes for them, and its status.
type Row<'a> = (&'a str, &'a str, u8);

/// Returns what the program writes for words, and its status.
fn told(alloc: Global, line: &str) -> io::Result<(Vec<u8>, u8)> {
    let mut words = Vec::new(alloc);
    for word in line.split(' ') {
        words.push(String::from_str(alloc, word)?)?;
    }
    let mut out = Vec::new(alloc);
    let status = answer(alloc, words.as_slice(), &mut out)?;
    Ok((out, status))
}

fn compare<R: AllocGlobal + Abort>(rt: &R, rows: &[Row<'_>]) -> Result<(), Fail> {
    for (line, text, status) in rows {
        let (out, ended) = told(rt.alloc(), line)?;
        assert_eq!(rt; out.as_slice(), text.as_bytes(), "{line}");
        assert_eq!(rt; ended, *status, "{line}");
    }
    Ok(())
}

#[test]
fn whole_writes_a_name(rt: HostRuntime) -> Result<(), Fail> {
    let rows = [
        ("whole a.bc.", "016102626300\n", 0),
        ("whole a.bc", "016102626300\n", 0),
        ("whole \\", "refused: unfinished escape\n", 1),
        ("whole", USAGE, 2),
        ("whole a. a.", USAGE, 2),
    ];
    compare(&rt, &rows)
}

#[test]
fn read_shows_a_name_and_its_end(rt: HostRuntime) -> Result<(), Fail> {
    let rows = [
        ("read 0 016102626300", "a.bc. 6\n", 0),
        ("read 0 022d2100", "\\-\\!. 4\n", 0),
        ("read 5 01620161000162c002", "b.a. 9\n", 0),
        ("read 00 00", ". 1\n", 0),
        ("read 1 00", "refused: unexpected end of input reached\n", 1),
        ("read 0 ", "refused: unexpected end of input reached\n", 1),
        (
            "read 0 40",
            "refused: unrecognized label code: 1000000\n",
            1,
        ),
        (
            "read 0 0141C000",
            "refused: label points to data not prior to idx: 2 ptr: 0\n",
            1,
        ),
    ];
    compare(&rt, &rows)
}

#[test]
fn read_judges_its_words_first(rt: HostRuntime) -> Result<(), Fail> {
    let rows = [
        ("read 2 00", USAGE, 2),
        ("read 0 0", USAGE, 2),
        ("read +0 00", USAGE, 2),
        ("read  00", USAGE, 2),
        ("read 99999999999999999999999999 00", USAGE, 2),
    ];
    compare(&rt, &rows)
}

#[test]
fn names_share_a_message(rt: HostRuntime) -> Result<(), Fail> {
    let rows = [
        ("names a", "016100\n0 a.\n", 0),
        (
            "names a.bc. a.bc.",
            "016102626300c000\n0 a.bc.\n6 a.bc.\n",
            0,
        ),
        ("names a. \\", "refused: unfinished escape\n", 1),
        ("names", USAGE, 2),
    ];
    compare(&rt, &rows)
}

/// A program's arguments, its own name first.
#[derive(Drop)]
struct Arguments<'a>(&'a [&'a [u8]]);

impl Env for Arguments<'_> {
    fn arg(&self, i: usize, buf: &mut [u8]) -> Result<usize, FillError> {
        let Some(word) = self.0.get(i) else {
            return Err(FillError::NotPresent);
        };
        let Some(front) = buf.get_mut(..word.len()) else {
            return Err(FillError::TooLong);
        };
        front.copy_from_slice(word);
        Ok(word.len())
    }

    fn var(&self, _: &str, _: &mut [u8]) -> Result<usize, FillError> {
        Err(FillError::NotPresent)
    }

    fn var_at(&self, _: usize, _: &mut [u8]) -> Result<usize, FillError> {
        Err(FillError::NotPresent)
    }
}

#[test]
fn words_come_after_the_name_of_the_program(rt: HostRuntime) -> Result<(), Fail> {
    let words = [b"dnswire".as_slice(), b"whole", b"a."];
    let mut out = Vec::new(rt.alloc());
    assert_eq!(rt; run(&(Arguments(&words), rt.alloc()), &mut out)?, 0);
    assert_eq!(rt; out.as_slice(), b"016100\n".as_slice());
    Ok(())
}

#[test]
fn words_that_are_not_text_ask_for_nothing(rt: HostRuntime) -> Result<(), Fail> {
    let no_words = [b"dnswire".as_slice()];
    let no_text = [b"dnswire".as_slice(), b"whole", b"\xff"];
    for words in [no_words.as_slice(), no_text.as_slice()] {
        let mut out = Vec::new(rt.alloc());
        assert_eq!(rt; run(&(Arguments(words), rt.alloc()), &mut out)?, 2);
        assert_eq!(rt; out.as_slice(), USAGE.as_bytes());
    }
    Ok(())
}

#[test]
fn an_answer_that_cannot_be_written_is_an_error(rt: HostRuntime) {
    let words = [b"dnswire".as_slice(), b"whole", b"a."];
    let mut room = [0; 6];
    let mut out = room.as_mut_slice();
    assert!(rt; run(&(Arguments(&words), rt.alloc()), &mut out).is_err());
}
