//! Texts of master files, and times to live.

use dns_names_wire::txt::{Lexer, LexerError, ParseError, Token, parse_ttl};
use std::alloc::Global;
use std::io;
use std::io::Write;

/// A text, by a name.
pub(crate) struct Text {
    pub(crate) name: &'static str,
    pub(crate) text: &'static str,
}

/// The texts of which the tokens are shown.
pub(crate) const LEXED: &[Text] = &[
    Text {
        name: "lex_bare",
        text: " @\r\n$TTL $ORIGIN$INCLUDE;a",
    },
    Text {
        name: "lex_words",
        text: "a;c\nb",
    },
    Text {
        name: "lex_list",
        text: "(a b;c\nd)",
    },
    Text {
        name: "lex_many",
        text: "(a b c d e f)",
    },
    Text {
        name: "lex_quoted",
        text: "\"a\\077\" \"\\999\"",
    },
    Text {
        name: "lex_long",
        text: "\"12345678\\a9\"",
    },
    Text {
        name: "lex_dollar",
        text: "$FOO",
    },
    Text {
        name: "lex_open_list",
        text: "(a;c",
    },
    Text {
        name: "lex_open_quote",
        text: "\"a\\\"",
    },
    Text {
        name: "lex_illegal",
        text: "a)",
    },
];

/// The texts that are read as times.
pub(crate) const TIMES: &[Text] = &[
    Text {
        name: "time",
        text: "1s2d3w4h2m",
    },
    Text {
        name: "time_wrong",
        text: "1x",
    },
    Text {
        name: "time_too_long",
        text: "7102w",
    },
];

/// Shows the tokens of a text, with a copy of each, and what a call returns after the last one.
pub(crate) fn run_lexed<W: Write>(alloc: Global, text: &Text, out: &mut W) -> io::Result<()> {
    let mut lexer = Lexer::new(text.text);
    for _ in 0..=text.text.len() {
        let is_token = show_next(lexer.next_token(alloc), out)?;
        if !is_token {
            break;
        }
    }
    let _ = show_next(lexer.next_token(alloc), out)?;
    Ok(())
}

/// Shows what a call returned, and a copy of it. Returns `true` if it is a token.
fn show_next<W: Write>(answer: Result<Option<Token>, LexerError>, out: &mut W) -> io::Result<bool> {
    match answer {
        Ok(Some(token)) => {
            show_token("next", &token, out)?;
            match token.clone() {
                Ok(copy) => show_token("copy", &copy, out)?,
                Err(error) => writeln!(out, "copy -> {error};")?,
            }
            return Ok(true);
        }
        Ok(None) => writeln!(out, "next -> none;")?,
        Err(LexerError::Memory) => writeln!(out, "next -> out of memory;")?,
        Err(error) => {
            writeln!(out, "next -> {error};")?;
            match error.clone() {
                Ok(copy) => writeln!(out, "copy -> {copy};")?,
                Err(error) => writeln!(out, "copy -> {error};")?,
            }
        }
    }
    Ok(false)
}

fn show_token<W: Write>(call: &str, token: &Token, out: &mut W) -> io::Result<()> {
    write!(out, "{call} -> ")?;
    match token {
        Token::Blank => write!(out, "blank")?,
        Token::At => write!(out, "at")?,
        Token::Include => write!(out, "include")?,
        Token::Origin => write!(out, "origin")?,
        Token::Ttl => write!(out, "ttl")?,
        Token::EOL => write!(out, "end of line")?,
        Token::CharData(text) => write!(out, "word {text}")?,
        Token::List(words) => {
            write!(out, "list")?;
            for word in words {
                write!(out, " {word}")?;
            }
        }
    }
    writeln!(out, ";")
}

/// Shows the seconds of a time, or the error and a copy of it.
pub(crate) fn run_time<W: Write>(alloc: Global, text: &Text, out: &mut W) -> io::Result<()> {
    match parse_ttl(alloc, text.text) {
        Ok(seconds) => writeln!(out, "time -> {seconds};"),
        Err(ParseError::Memory) => writeln!(out, "time -> out of memory;"),
        Err(error) => {
            writeln!(out, "time -> {error};")?;
            match error.clone() {
                Ok(copy) => writeln!(out, "copy -> {copy};"),
                Err(error) => writeln!(out, "copy -> {error};"),
            }
        }
    }
}
