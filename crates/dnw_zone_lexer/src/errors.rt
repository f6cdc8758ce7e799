//! The errors of reading master files.
ghost use Rattle.std.specs.Prelude.{◌≡◌, ◌≤◌, length, string_bytes, IfOk, IfErr, OnErr};
ghost use Rattle.std.specs.Str.{chars};

use crate::zone_lex::Token;
use dnw_base::error::{DecodeError, ProtoError};
use dnw_base::record_type::RecordType;
use std::alloc::{AllocError, AllocFailed, Global};
use thiserror::Error;

/// What calls return that read a text.
pub type ParseResult<T> = Result<T, ParseError>;

/// Why a text could not be read.
#[derive(Debug, Drop, Error)]
pub enum ParseError {
    /// A character that is no digit of a number.
    #[error("invalid numerical character: {0}")]
    CharToInt(char),
    /// Any other cause, as a fixed text.
    #[error("{0}")]
    Message(&'static str),
    /// A token is missing. The text says which one.
    #[error("token is missing: {0}")]
    MissingToken(String),
    /// Any other cause, as an allocated text.
    #[error("{0}")]
    Msg(String),
    /// A text that is no time, or one past 4294967295 seconds.
    #[error("invalid time string: {0}")]
    ParseTime(String),
    /// A token that may not stand where it was found.
    #[error("unrecognized token in stream: {0:?}")]
    UnexpectedToken(Token),
    /// A text that has no tokens where they were expected.
    #[error("lexer error: {0}")]
    Lexer(LexerError),
    /// A text that is not a number of its type.
    #[error("error parsing number")]
    ParseInt,
    /// An error of the wire layer.
    #[error("proto error: {0}")]
    Proto(ProtoError),
    /// The code of no record type.
    #[error("unknown RecordType: {0}")]
    UnknownRecordType(u16),
    /// A record type whose data cannot be read from text.
    #[error("unsupported RecordType: {0}")]
    UnsupportedRecordType(RecordType),
    /// An allocation failed.
    #[error("out of memory")]
    Memory,
}

/// Why a lexer found no token.
#[derive(Debug, Drop, PartialEq, Eq, Error)]
pub enum LexerError {
    /// The text ends inside an escape, or after a carriage return.
    #[error("unexpected end of input")]
    EOF,
    /// A character that may not stand where it was found.
    #[error("illegal character input: {0}")]
    IllegalCharacter(char),
    /// The call cannot be made now: the lexer has failed before.
    #[error("illegal state: {0}")]
    IllegalState(&'static str),
    /// Any other cause, as a fixed text.
    #[error("{0}")]
    Message(&'static str),
    /// The text ends in a list, before its `)`.
    #[error("unclosed list, missing ')'")]
    UnclosedList,
    /// The text ends in a quoted text, before its closing quote.
    #[error("unclosed quoted string")]
    UnclosedQuotedString,
    /// A control character that is not white space.
    #[error("unrecognized character input: {0}")]
    UnrecognizedChar(char),
    /// A `$` that begins none of `$INCLUDE`, `$ORIGIN` and `$TTL`. The text has the capital letters after it.
    #[error("unrecognized dollar content: {0}")]
    UnrecognizedDollar(String),
    /// A number that is no character.
    #[error("unrecognized octet: {0:x}")]
    UnrecognizedOctet(u32),
    /// An allocation failed.
    #[error("out of memory")]
    Memory,
}

impl From<String> for ParseError {
    ghost use Rattle.std.specs.Prelude.{◌≡◌};
    ghost use Rattle.dnw_zone_lexer.specs.declared.errors.ParseError.TheVariants.{Msg};

    ghost from_gives = { λ text e. e ≡ Msg text };

    fn from(text: String) -> Self {
        ParseError::Msg(text)
    }
}

impl From<&'static str> for ParseError {
    ghost use Rattle.std.specs.Prelude.{◌≡◌};
    ghost use Rattle.dnw_zone_lexer.specs.declared.errors.ParseError.TheVariants.{Message};

    ghost from_gives = { λ text e. e ≡ Message text };

    fn from(text: &'static str) -> Self {
        ParseError::Message(text)
    }
}

impl From<LexerError> for ParseError {
    ghost use Rattle.std.specs.Prelude.{◌≡◌};
    ghost use Rattle.dnw_zone_lexer.specs.declared.errors.ParseError.TheVariants.{Lexer};

    ghost from_gives = { λ cause e. e ≡ Lexer cause };

    fn from(cause: LexerError) -> Self {
        ParseError::Lexer(cause)
    }
}

impl From<ProtoError> for ParseError {
    ghost use Rattle.std.specs.Prelude.{◌≡◌};
    ghost use Rattle.dnw_zone_lexer.specs.declared.errors.ParseError.TheVariants.{Proto};

    ghost from_gives = { λ cause e. e ≡ Proto cause };

    fn from(cause: ProtoError) -> Self {
        ParseError::Proto(cause)
    }
}

impl From<DecodeError> for ParseError {
    ghost use Rattle.std.specs.Prelude.{◌≡◌};
    ghost use Rattle.dnw_base.specs.declared.error.ProtoError.TheVariants.{Decode};
    ghost use Rattle.dnw_zone_lexer.specs.declared.errors.ParseError.TheVariants.{Proto};

    ghost from_gives = { λ cause e. e ≡ Proto (Decode cause) };

    fn from(cause: DecodeError) -> Self {
        ParseError::Proto(ProtoError::Decode(cause))
    }
}

impl From<AllocError> for ParseError {
    ghost use Rattle.std.specs.Prelude.{◌≡◌};
    ghost use Rattle.dnw_zone_lexer.specs.declared.errors.ParseError.TheVariants.{Memory};

    ghost from_gives = { λ _ e. e ≡ Memory };

    fn from(_: AllocError) -> Self {
        ParseError::Memory
    }
}

impl From<AllocError> for LexerError {
    ghost use Rattle.std.specs.Prelude.{◌≡◌};
    ghost use Rattle.dnw_zone_lexer.specs.declared.errors.LexerError.TheVariants.{Memory};

    ghost from_gives = { λ _ e. e ≡ Memory };

    fn from(_: AllocError) -> Self {
        LexerError::Memory
    }
}

impl<T: Drop> From<AllocFailed<T>> for LexerError {
    ghost use Rattle.std.specs.Prelude.{◌≡◌};
    ghost use Rattle.dnw_zone_lexer.specs.declared.errors.LexerError.TheVariants.{Memory};

    ghost from_gives = { λ _ e. e ≡ Memory };

    fn from(_: AllocFailed<T>) -> Self {
        LexerError::Memory
    }
}

impl ParseError {
    ghost use Rattle.dnw_zone_lexer.specs.Copies.{IsParseCopyOf, OwnsParseText};
    ghost use Rattle.dnw_zone_lexer.specs.declared.errors.ParseError.TheVariants.{Memory};

    /// Copies the error. It allocates only if the error has an allocated text or token, and then may fail with `Memory`.
    pub fn clone(&self) -> Result<Self, Self>
        ensures ok { IfOk result (IsParseCopyOf self.now) }
        ensures err { IfErr result (λ e. (e ≡ Memory) × OwnsParseText self.now) }
    {
        match self {
            ParseError::CharToInt(char) => Ok(ParseError::CharToInt(*char)),
            ParseError::Message(text) => Ok(ParseError::Message(text)),
            ParseError::MissingToken(text) => Ok(ParseError::MissingToken(text.clone()?)),
            ParseError::Msg(text) => Ok(ParseError::Msg(text.clone()?)),
            ParseError::ParseTime(text) => Ok(ParseError::ParseTime(text.clone()?)),
            ParseError::UnexpectedToken(token) => match token.clone() {
                Ok(token) => Ok(ParseError::UnexpectedToken(token)),
                Err(_) => Err(ParseError::Memory),
            },
            ParseError::Lexer(cause) => match cause.clone() {
                Ok(cause) => Ok(ParseError::Lexer(cause)),
                Err(_) => Err(ParseError::Memory),
            },
            ParseError::ParseInt => Ok(ParseError::ParseInt),
            ParseError::Proto(cause) => match cause.clone() {
                Ok(cause) => Ok(ParseError::Proto(cause)),
                Err(_) => Err(ParseError::Memory),
            },
            ParseError::UnknownRecordType(code) => Ok(ParseError::UnknownRecordType(*code)),
            ParseError::UnsupportedRecordType(code) => {
                Ok(ParseError::UnsupportedRecordType(*code))
            }
            ParseError::Memory => Ok(ParseError::Memory),
        }
    }
}

impl LexerError {
    ghost use Rattle.dnw_zone_lexer.specs.Copies.{IsLexerCopyOf, OwnsLexerText};
    ghost use Rattle.dnw_zone_lexer.specs.declared.errors.LexerError.TheVariants.{Memory};

    /// Copies the error. It allocates only if the error has an allocated text, and then may fail with `Memory`.
    pub fn clone(&self) -> Result<Self, Self>
        ensures ok { IfOk result (IsLexerCopyOf self.now) }
        ensures err { IfErr result (λ e. (e ≡ Memory) × OwnsLexerText self.now) }
    {
        match self {
            LexerError::EOF => Ok(LexerError::EOF),
            LexerError::IllegalCharacter(char) => Ok(LexerError::IllegalCharacter(*char)),
            LexerError::IllegalState(text) => Ok(LexerError::IllegalState(text)),
            LexerError::Message(text) => Ok(LexerError::Message(text)),
            LexerError::UnclosedList => Ok(LexerError::UnclosedList),
            LexerError::UnclosedQuotedString => Ok(LexerError::UnclosedQuotedString),
            LexerError::UnrecognizedChar(char) => Ok(LexerError::UnrecognizedChar(*char)),
            LexerError::UnrecognizedDollar(text) => {
                Ok(LexerError::UnrecognizedDollar(text.clone()?))
            }
            LexerError::UnrecognizedOctet(octet) => Ok(LexerError::UnrecognizedOctet(*octet)),
            LexerError::Memory => Ok(LexerError::Memory),
        }
    }
}

/// Copies a text. An empty one takes no memory.
#[tactic(auto, using(crate::proofs::Steps::some_chars))]
pub(crate) fn copied(alloc: Global, text: &str) -> Result<String, AllocError>
    ensures ok { IfOk result (λ copy. string_bytes copy ≡ text.now) }
    ensures err { OnErr result ((1 ≤ length text.now) × (1 ≤ length (chars text.now))) }
{
    let mut copy = String::new(alloc);
    copy.push_str(text)?;
    Ok(copy)
}
