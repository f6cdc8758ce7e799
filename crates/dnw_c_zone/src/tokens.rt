//! The tokens of master files, one after another, of which the caller keeps an offset.
ghost use Rattle.std.specs.Prelude.{◌≡◌, ◌≤◌, ◌||◌, ℕ, List, ◌++◌, length, map, drop, IsUtf8, IfOk, IfErr, IfSome, IfNone, OnErr, MatchOption};
ghost use Rattle.dnw_zone_lexer.specs.Lexing.{characters, line_state, token_value};
ghost use Rattle.dnw_c_base.specs.Results.{Returns};
ghost use Rattle.dnw_c_zone.specs.TokenCalls.{is_decided, Advances, Decides, FailsToLex, HasError, HasNoToken, IsAtTextEnd, PutsToken, TakesToken, kind_number, list_bytes, of_lexer, read_token};
ghost use Rattle.dnw_c_zone.specs.Inside.TokenParts.{FindsIn, settles};

use dnw_c_base::buffer::put;
use dnw_c_base::failure::Failure;
use dnw_c_base::results::report_both;
use dnw_zone_lexer::errors::LexerError;
use dnw_zone_lexer::zone_lex::{Lexer, Token};
use std::alloc::{AllocError, Global};

/// Where a lexer is: the offset of the next byte, and `true` if that is the start of a line.
#[repr(C)]
#[derive(Clone, Copy)]
pub struct LexerState {
    pub offset: usize,
    pub at_line_start: bool,
}

/// A token: its kind, the number of bytes that were put, and the number of texts that these are.
#[repr(C)]
#[derive(Clone, Copy)]
pub struct ReadToken {
    pub kind: u32,
    pub len: usize,
    pub count: usize,
}

/// Puts the next token of a text, and moves past it. Its kind is 0 at the end of the text.
#[unsafe(no_mangle)]
pub extern "C" fn dnw_token_next(
    alloc: Global,
    text: &[u8],
    lexer: &mut LexerState,
    words: &mut [u8],
    token: &mut ReadToken,
) -> u32
    ensures { Returns (TakesToken text.now lexer.old words.old words.new) (token.old, lexer.old) (token.new, lexer.new) result }
{
    report_both(take(alloc, text, *lexer, words), token, lexer)
}

/// Puts the next token of a text. Returns what C learns of it, and where the lexer is after it.
fn take(
    alloc: Global,
    text: &[u8],
    at: LexerState,
    words: &mut [u8],
) -> Result<(ReadToken, LexerState), Failure>
    ensures { TakesToken text.now at words.old words.new result }
{
    let (found, after) = advance(alloc, text, at)?;
    match found {
        Some(token) => {
            let read = put_token(alloc, words, &token)?;
            Ok((read, after))
        }
        None => {
            let end = ReadToken {
                kind: 0,
                len: 0,
                count: 0,
            };
            Ok((end, after))
        }
    }
}

/// A token that stands next: the number of its bytes, and `true` if the start of a line is after it.
#[derive(Drop)]
struct Taken {
    token: Token,
    len: usize,
    at_line_start: bool,
}

/// The size of the first part of a text in which a token is looked for. Parts double until one has it, so that each byte is
/// tested a few times, however long the text is.
const FIRST_PART: usize = 64;

/// Returns the next token of a text, and where the lexer is after it.
fn advance(
    alloc: Global,
    text: &[u8],
    at: LexerState,
) -> Result<(Option<Token>, LexerState), Failure>
    ensures ok { IfOk result (λ r. MatchOption r.0 (IsAtTextEnd text.now at r.1) (λ token. Advances text.now at (token_value token) r.1)) }
    ensures err { IfErr result (FailsToLex text.now at) }
{
    match take_next(alloc, left_of(text, at.offset), at.at_line_start)? {
        Some(taken) => {
            let after = LexerState {
                offset: at.offset + taken.len,
                at_line_start: taken.at_line_start,
            };
            Ok((Some(taken.token), after))
        }
        None => {
            let after = LexerState {
                offset: text.len(),
                at_line_start: false,
            };
            Ok((None, after))
        }
    }
}

/// Returns what is left of a text from an offset on, which is nothing past the end.
fn left_of(text: &[u8], offset: usize) -> &[u8]
    ensures { result.now ≡ drop offset text.now }
{
    &text[offset.min(text.len())..]
}

/// Returns the token that stands next in what is left of a text.
fn take_next(alloc: Global, left: &[u8], at_line_start: bool) -> Result<Option<Taken>, Failure>
    ensures ok { IfOk result (λ found. FindsIn left.now at_line_start found) }
    ensures err { IfErr result (HasNoToken left.now (line_state at_line_start)) }
{
    let mut size = left.len().min(FIRST_PART);
    'parts: loop {
        if let Some(found) = take_within(alloc, left, size, at_line_start) {
            return found;
        }
        if size == left.len() {
            return Err(Failure::NotUtf8);
        }
        size += size.min(left.len() - size);
    }
}

/// Returns what stands next in what is left of a text, if its first `size` bytes decide that.
fn take_within(
    alloc: Global,
    left: &[u8],
    size: usize,
    at_line_start: bool,
) -> Option<Result<Option<Taken>, Failure>>
    requires { size ≤ length left.now }
    ensures ok { IfSome result (λ found. IfOk found (λ taken. FindsIn left.now at_line_start taken)) }
    ensures err { IfSome result (λ found. IfErr found (HasError left.now (line_state at_line_start))) }
    ensures none { IfNone result ((front : List ℕ) → length front ≤ size → ¬ (Decides left.now (line_state at_line_start) front)) }
{
    let part = valid_part(left, size);
    let is_whole = part.len() == left.len();
    let mut lexer = Lexer::resume(part, at_line_start);
    let found = lexer.next_token(alloc);
    let rest = lexer.rest();
    if !is_decided(is_whole, &found, rest) {
        return None;
    }
    match found {
        Ok(Some(token)) => Some(Ok(Some(Taken {
            token,
            len: part.len() - rest.len(),
            at_line_start: lexer.is_at_line_start(),
        }))),
        Ok(None) => Some(Ok(None)),
        Err(error) => Some(Err(of_lexer(&error))),
    }
}

/// Returns the longest text that begins a text and ends in its first `size` bytes.
fn valid_part(left: &[u8], size: usize) -> &str
    requires { size ≤ length left.now }
    ensures begins { (rest : List ℕ) × (left.now ≡ result.now ++ rest) }
    ensures text { IsUtf8 result.now }
    ensures longest { (front rest : List ℕ) → left.now ≡ front ++ rest → length front ≤ size → IsUtf8 front → length front ≤ length result.now }
{
    let part = &left[..size];
    match str::from_utf8(part) {
        Ok(text) => text,
        Err(error) => str::from_utf8(&part[..error.valid_up_to()]).unwrap(),
    }
}

/// Returns `true` if what was found is that of the whole text: it is the same whatever follows, or nothing does.
fn is_decided(is_whole: bool, found: &Result<Option<Token>, LexerError>, rest: &str) -> bool
    ensures { result ≡ (is_whole || settles found.now (length rest.now)) }
{
    is_whole
        || match found {
            Ok(Some(_)) => !rest.is_empty(),
            Ok(None) => false,
            Err(error) => is_same(error),
        }
}

/// Returns `true` if an error is the same whatever follows after the text.
fn is_same(error: &LexerError) -> bool
    ensures { result ≡ is_decided error.now }
{
    matches!(
        error,
        LexerError::IllegalCharacter(_) | LexerError::UnrecognizedChar(_) | LexerError::Memory
    )
}

/// Puts the texts of a token. Returns what C learns of it.
fn put_token(alloc: Global, words: &mut [u8], token: &Token) -> Result<ReadToken, Failure>
    ensures { PutsToken (token_value token.now) (read_token (token_value token.now)) words.old words.new result }
{
    let kind = kind_of(token);
    match token {
        Token::CharData(text) => {
            let len = put(words, text.as_bytes())?;
            let count = 1;
            Ok(ReadToken { kind, len, count })
        }
        Token::List(list) => {
            let bytes = bytes_of(alloc, list)?;
            let len = put(words, bytes.as_slice())?;
            let count = list.len();
            Ok(ReadToken { kind, len, count })
        }
        _ => Ok(ReadToken {
            kind,
            len: 0,
            count: 0,
        }),
    }
}

/// Returns the number of a token's kind.
fn kind_of(token: &Token) -> u32
    ensures { result ≡ kind_number (token_value token.now) }
{
    match token {
        Token::Blank => 1,
        Token::List(_) => 2,
        Token::CharData(_) => 3,
        Token::At => 4,
        Token::Include => 5,
        Token::Origin => 6,
        Token::Ttl => 7,
        Token::EOL => 8,
    }
}

/// Returns the words of a list, each with a zero byte after it.
fn bytes_of(alloc: Global, words: &Vec<String>) -> Result<Vec<u8>, AllocError>
    ensures ok { IfOk result (λ bytes. bytes.items ≡ list_bytes (map characters words.now.items)) }
    ensures err { OnErr result (1 ≤ length words.now.items) }
{
    let mut bytes = Vec::new(alloc);
    for word in words {
        bytes.extend_from_slice(word.as_bytes())?;
        bytes.push(0)?;
    }
    Ok(bytes)
}

/// Returns why there is no token.
fn of_lexer(error: &LexerError) -> Failure
    ensures { result ≡ of_lexer error.now }
{
    match error {
        LexerError::EOF => Failure::TextCut,
        LexerError::IllegalCharacter(_) => Failure::IllegalCharacter,
        LexerError::UnrecognizedChar(_) => Failure::ControlCharacter,
        LexerError::UnclosedList => Failure::UnclosedList,
        LexerError::UnclosedQuotedString => Failure::UnclosedQuote,
        LexerError::UnrecognizedDollar(_) => Failure::UnknownEntry,
        LexerError::Memory => Failure::NoMemory,
        _ => Failure::Other,
    }
}
