//! Errors: of which others they are made, by `?` or by a call, and how they are copied, compared and printed.
ghost use Rattle.std.specs.Prelude.{◌≡◌};

use dns_names_wire::error::{
    DecodeError, LexerError, ParseError, ParseResult, ProtoError, ProtoResult,
};
use dns_names_wire::txt::{Lexer, Token, parse_ttl};
use dns_names_wire::{BinDecoder, Name};
use std::alloc::{AllocError, Global};

/// Returns the name that octets begin with, as text. An error of reading becomes one of the wire layer.
pub fn name_text(alloc: Global, octets: &[u8]) -> ProtoResult<String> {
    let name = Name::read(alloc, &mut BinDecoder::new(octets))?;
    name.to_ascii(alloc)
}

/// Returns the token that a text begins with as a name, or `None` if the text is empty. Errors of the lexer and of the wire
/// layer become errors of parsing.
pub fn first_name(alloc: Global, text: &str) -> ParseResult<Option<Name>> {
    match Lexer::new(text).next_token(alloc)? {
        Some(Token::CharData(word)) => Ok(Some(Name::from_ascii(alloc, word.as_str())?)),
        Some(token) => Err(ParseError::UnexpectedToken(token)),
        None => Ok(None),
    }
}

/// Returns the name that octets begin with, and the time to live that a text writes. An error of reading becomes one of
/// parsing.
pub fn name_and_ttl(alloc: Global, octets: &[u8], ttl: &str) -> ParseResult<(Name, u32)> {
    let name = Name::read(alloc, &mut BinDecoder::new(octets))?;
    Ok((name, parse_ttl(alloc, ttl)?))
}

/// Returns the error of parsing that an error of reading becomes: the same by way of the wire layer.
pub fn parse_error(cause: DecodeError) -> ParseError
    ensures { result ≡ ParseError.Proto (ProtoError.Decode cause) }
{
    ProtoError::from(cause).into()
}

/// Returns the errors that a text makes: of the wire layer, and of parsing.
pub fn fixed_errors(text: &'static str) -> (ProtoError, ParseError)
    ensures wire { result.0 ≡ ProtoError.Message text.entry }
    ensures parsing { result.1 ≡ ParseError.Message text.entry }
{
    (text.into(), text.into())
}

/// Returns the errors that two allocated texts make: of the wire layer, and of parsing.
pub fn own_errors(wire: String, parsing: String) -> (ProtoError, ParseError)
    ensures wire { result.0 ≡ ProtoError.Msg wire }
    ensures parsing { result.1 ≡ ParseError.Msg parsing }
{
    (ProtoError::from(wire), ParseError::from(parsing))
}

/// Copies an error of each kind. If memory runs out, that is the error.
pub fn copies(
    reading: &DecodeError,
    wire: &ProtoError,
    lexing: &LexerError,
    parsing: &ParseError,
) -> ParseResult<(DecodeError, ProtoError, LexerError, ParseError)> {
    Ok((
        reading.clone()?,
        wire.clone()?,
        lexing.clone()?,
        parsing.clone()?,
    ))
}

/// Returns an error of each kind as text, in a line each.
pub fn texts(
    alloc: Global,
    reading: &DecodeError,
    wire: &ProtoError,
    lexing: &LexerError,
    parsing: &ParseError,
) -> Result<String, AllocError> {
    Ok(format!(in alloc;
        "{reading} ({reading:?})\n{wire} ({wire:?})\n{lexing} ({lexing:?})\n{parsing} ({parsing:?})"
    )?)
}

/// Returns `true` if a text has a token that a lexer finds, and it is this one.
pub fn begins_with(alloc: Global, text: &str, token: &Token) -> ParseResult<bool> {
    match Lexer::new(text).next_token(alloc) {
        Ok(found) => Ok(found.as_ref() == Some(token)),
        Err(error) if error == LexerError::EOF => Ok(false),
        Err(error) => Err(error.into()),
    }
}
