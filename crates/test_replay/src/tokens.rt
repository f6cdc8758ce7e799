//! Tokens of master files, and times to live.
//!
//! - `lex TEXT`: the tokens of a text, as words: `blank`, `at`, `include`, `origin`, `ttl` and `eol`, `c:` and the
//!   characters of a word, `l:` and the words of a list with commas between them. Then `none`, or the error: `!eof`,
//!   `!illegal:` or `!char:` and the character, `!list`, `!quote`, `!dollar:` and the word. `moves` follows if the lexer
//!   does not stay there.
//! - `lex-cuts TEXT`: the text cut after each of its characters, from the empty text on, in one checksum.
//! - `lex-texts LETTERS LENGTH`: all texts of so many letters, in one checksum. The first letter changes fastest.
//! - `lex-zone TEXT`: how many tokens of each kind a text has, the word after the last one, and a checksum of all words.
//! - `time TEXT`: the seconds of a time, or `!time`. `times LETTERS LENGTH`: those of all texts, in one checksum.
//!
//! A text is written as the hexadecimal of its UTF-8, `-` for the empty one, and so is a character. A checksum is the
//! 64-bit FNV-1a of the answers, each with a line feed.

use crate::notation::{BAD_LINE, first_word, number, octets};
use crate::tally::Tally;
use dns_names_wire::error::{ProtoError, ProtoResult};
use dns_names_wire::txt::{Lexer, LexerError, ParseError, Token, parse_ttl};
use std::alloc::Global;
use std::fmt::Write;

/// Returns the answer to a request about tokens or times. The tally counts the texts that it is about.
pub(crate) fn answer(
    alloc: Global,
    kind: &str,
    words: &str,
    tally: &mut Tally,
) -> ProtoResult<String> {
    let mut reading = Reading::new(alloc);
    match kind {
        "lex" => reading.lex(text_of(alloc, words)?.as_str())?,
        "time" => reading.time(text_of(alloc, words)?.as_str())?,
        "lex-zone" => reading.zone(text_of(alloc, words)?.as_str())?,
        "lex-cuts" => reading.cuts(text_of(alloc, words)?.as_str())?,
        "lex-texts" => reading.all_texts(words, Kind::Tokens)?,
        "times" => reading.all_texts(words, Kind::Time)?,
        _ => return Err(BAD_LINE),
    }
    tally.add_texts(reading.texts.saturating_sub(1));
    for _ in 0..reading.open_lists {
        tally.add_open_list();
    }
    for _ in 0..reading.dollar_words {
        tally.add_dollar_word();
    }
    match kind {
        "lex" | "time" | "lex-zone" => Ok(reading.out),
        _ => reading.into_checksum(),
    }
}

/// What the words of tokens begin with, by which they are counted.
const KINDS: &[&str] = &["blank", "l:", "c:", "at", "include", "origin", "ttl", "eol"];

/// Whether texts are read as tokens or as times.
#[derive(Clone, Copy)]
enum Kind {
    Tokens,
    Time,
}

/// The answer that is being written, and the checksum of those before it.
#[derive(Drop)]
struct Reading {
    alloc: Global,
    out: String,
    checksum: u64,
    texts: u64,
    open_lists: u64,
    dollar_words: u64,
}

impl Reading {
    fn new(alloc: Global) -> Self {
        Reading {
            alloc,
            out: String::new(alloc),
            checksum: 0xcbf2_9ce4_8422_2325,
            texts: 0,
            open_lists: 0,
            dollar_words: 0,
        }
    }

    /// Writes the tokens of a text.
    fn lex(&mut self, text: &str) -> ProtoResult<()> {
        self.texts = self.texts.saturating_add(1);
        let mut lexer = Lexer::new(text);
        for _ in 0..=text.chars().count() {
            match lexer.next_token(self.alloc) {
                Ok(Some(token)) => self.token(&token)?,
                Ok(None) => {
                    self.out.push_str("none")?;
                    if !matches!(lexer.next_token(self.alloc), Ok(None)) {
                        self.out.push_str(" moves")?;
                    }
                    return Ok(());
                }
                Err(error) => {
                    self.error(&error)?;
                    if !has_failed(&lexer.next_token(self.alloc)) {
                        self.out.push_str(" moves")?;
                    }
                    return Ok(());
                }
            }
        }
        self.out.push_str("more tokens than characters")?;
        Ok(())
    }

    fn token(&mut self, token: &Token) -> ProtoResult<()> {
        match token {
            Token::Blank => self.out.push_str("blank ")?,
            Token::At => self.out.push_str("at ")?,
            Token::Include => self.out.push_str("include ")?,
            Token::Origin => self.out.push_str("origin ")?,
            Token::Ttl => self.out.push_str("ttl ")?,
            Token::EOL => self.out.push_str("eol ")?,
            Token::CharData(text) => {
                self.out.push_str("c:")?;
                self.hex(text.as_str())?;
                self.out.push(' ')?;
            }
            Token::List(words) => {
                let mut before = "l:";
                for word in words {
                    self.out.push_str(before)?;
                    self.hex(word.as_str())?;
                    before = ",";
                }
                self.out
                    .push_str(if words.is_empty() { "l: " } else { " " })?;
            }
        }
        Ok(())
    }

    fn error(&mut self, error: &LexerError) -> ProtoResult<()> {
        match error {
            LexerError::EOF => self.out.push_str("!eof")?,
            LexerError::IllegalCharacter(c) => {
                self.out.push_str("!illegal:")?;
                self.character(*c)?;
            }
            LexerError::UnrecognizedChar(c) => {
                self.out.push_str("!char:")?;
                self.character(*c)?;
            }
            LexerError::UnclosedList => {
                self.open_lists = self.open_lists.saturating_add(1);
                self.out.push_str("!list")?;
            }
            LexerError::UnclosedQuotedString => self.out.push_str("!quote")?,
            LexerError::UnrecognizedDollar(word) => {
                self.dollar_words = self.dollar_words.saturating_add(1);
                self.out.push_str("!dollar:")?;
                self.hex(word.as_str())?;
            }
            LexerError::Memory => return Err(ProtoError::Memory),
            other => write!(self.out, "!{other}")?,
        }
        Ok(())
    }

    /// Counts the tokens of a text.
    fn zone(&mut self, text: &str) -> ProtoResult<()> {
        self.lex(text)?;
        let mut counts = [0u32; KINDS.len()];
        for word in self.out.split(' ') {
            for (count, kind) in counts.iter_mut().zip(KINDS) {
                if word.starts_with(*kind) {
                    *count = count.saturating_add(1);
                }
            }
        }
        let mut shown = String::new(self.alloc);
        for (count, kind) in counts.iter().zip(KINDS) {
            write!(shown, "{kind}{count} ")?;
        }
        match self.out.rsplit_once(' ') {
            Some((_, last)) => shown.push_str(last)?,
            None => shown.push_str(self.out.as_str())?,
        }
        self.fold();
        let checksum = self.checksum;
        write!(shown, " {checksum:016x}")?;
        self.out = shown;
        Ok(())
    }

    /// Writes the seconds of a time.
    fn time(&mut self, text: &str) -> ProtoResult<()> {
        self.texts = self.texts.saturating_add(1);
        match parse_ttl(self.alloc, text) {
            Ok(seconds) => write!(self.out, "{seconds}")?,
            Err(error) => self.time_error(&error, text)?,
        }
        Ok(())
    }

    fn time_error(&mut self, error: &ParseError, text: &str) -> ProtoResult<()> {
        match error {
            ParseError::ParseTime(own) if own.as_str() == text => self.out.push_str("!time")?,
            ParseError::Memory => return Err(ProtoError::Memory),
            other => write!(self.out, "!{other}")?,
        }
        Ok(())
    }

    /// Reads a text that is cut after each of its characters.
    fn cuts(&mut self, text: &str) -> ProtoResult<()> {
        let mut front = String::new(self.alloc);
        self.lex(front.as_str())?;
        self.fold();
        for c in text.chars() {
            front.push(c)?;
            self.lex(front.as_str())?;
            self.fold();
        }
        Ok(())
    }

    /// Reads all texts of so many letters, which two words say.
    fn all_texts(&mut self, words: &str, kind: Kind) -> ProtoResult<()> {
        let (letters, length) = first_word(words)?;
        let letters = text_of(self.alloc, letters)?;
        let length = number::<u32>(length)?;
        let mut alphabet = Vec::new(self.alloc);
        let mut all: u64 = 1;
        for letter in letters.chars() {
            alphabet.push(letter)?;
        }
        for _ in 0..length {
            all = all.saturating_mul(alphabet.len() as u64);
        }
        for index in 0..all {
            let text = nth_text(self.alloc, alphabet.as_slice(), length, index)?;
            match kind {
                Kind::Tokens => self.lex(text.as_str())?,
                Kind::Time => self.time(text.as_str())?,
            }
            self.fold();
        }
        Ok(())
    }

    /// Takes the answer into the checksum.
    fn fold(&mut self) {
        for byte in self.out.as_bytes() {
            self.checksum = fnv(self.checksum, *byte);
        }
        self.checksum = fnv(self.checksum, b'\n');
        self.out.clear();
    }

    fn hex(&mut self, text: &str) -> ProtoResult<()> {
        let digits = hex::encode(self.alloc, text)?;
        self.out.push_str(digits.as_str())?;
        Ok(())
    }

    fn character(&mut self, c: char) -> ProtoResult<()> {
        let mut text = String::new(self.alloc);
        text.push(c)?;
        self.hex(text.as_str())
    }

    fn into_checksum(self) -> ProtoResult<String> {
        let checksum = self.checksum;
        Ok(format!(in self.alloc; "{checksum:016x}")?)
    }
}

/// One step of FNV-1a of 64 bits.
fn fnv(checksum: u64, byte: u8) -> u64 {
    (checksum ^ u64::from(byte)).wrapping_mul(0x100_0000_01b3)
}

fn has_failed(outcome: &Result<Option<Token>, LexerError>) -> bool {
    matches!(
        outcome,
        Err(LexerError::IllegalState("the lexer has failed"))
    )
}

/// The text of so many letters with this number.
fn nth_text(alloc: Global, alphabet: &[char], length: u32, index: u64) -> ProtoResult<String> {
    let mut text = String::new(alloc);
    let mut rest = index;
    for _ in 0..length {
        let count = alphabet.len() as u64;
        if count == 0 {
            return Ok(text);
        }
        if let Some(letter) = alphabet.get((rest % count) as usize) {
            text.push(*letter)?;
        }
        rest /= count;
    }
    Ok(text)
}

/// The text that is written in hexadecimal.
fn text_of(alloc: Global, hex: &str) -> ProtoResult<String> {
    let octets = octets(alloc, hex)?;
    match str::from_utf8(octets.as_slice()) {
        Ok(text) => Ok(String::from_str(alloc, text)?),
        Err(_) => Err(ProtoError::Utf8),
    }
}
