//! Module `txt`: tokens of master files, and times.

use crate::bounds::{is_debug, is_eq};
use dns_names_wire::error::{LexerError, ParseError, ParseResult};
use dns_names_wire::txt::{Lexer, Token, parse_ttl};
use std::alloc::Global;
use std::test::Fail;

#[test]
fn times_are_parsed(rt: HostRuntime) -> Result<(), Fail> {
    let time: ParseResult<u32> = parse_ttl(rt.alloc(), "1s2d3w4h2m");
    assert_eq!(rt; time?, 2001721);
    let refused: ParseResult<u32> = parse_ttl(rt.alloc(), "7102w");
    assert!(rt; matches!(refused, Err(ParseError::ParseTime(_))));
    Ok(())
}

/// Returns the tokens of a text.
fn tokens<'a>(alloc: Global, text: &'a str) -> Result<Vec<Token>, LexerError> {
    let mut lexer: Lexer<'a> = Lexer::new(text);
    let mut tokens = Vec::new(alloc);
    for _ in 0..text.len() {
        let token: Result<Option<Token>, LexerError> = lexer.next_token(alloc);
        match token? {
            Some(token) => tokens.push(token)?,
            None => return Ok(tokens),
        }
    }
    Ok(tokens)
}

/// Returns the text of a token.
fn shown(alloc: Global, token: &Token) -> Result<String, LexerError> {
    Ok(match token {
        Token::Blank => String::from_str(alloc, "Blank")?,
        Token::List(words) => format!(in alloc; "List {}", words.len())?,
        Token::CharData(text) => text.clone()?,
        Token::At => String::from_str(alloc, "At")?,
        Token::Include => String::from_str(alloc, "Include")?,
        Token::Origin => String::from_str(alloc, "Origin")?,
        Token::Ttl => String::from_str(alloc, "Ttl")?,
        Token::EOL => String::from_str(alloc, "EOL")?,
    })
}

#[test]
fn each_token_is_found(rt: HostRuntime) -> Result<(), Fail> {
    let alloc = rt.alloc();
    is_debug::<Token>();
    is_eq::<Token>();
    let tokens = tokens(alloc, " (a b) c @ $INCLUDE $ORIGIN $TTL \n")?;
    let wanted = [
        "Blank", "List 2", "c", "At", "Include", "Origin", "Ttl", "EOL",
    ];
    assert_eq!(rt; tokens.len(), wanted.len());
    for at in 0..wanted.len().min(tokens.len()) {
        let copy: Result<Token, LexerError> = tokens[at].clone();
        let copy = copy?;
        assert!(rt; copy == tokens[at]);
        assert_eq!(rt; shown(alloc, &copy)?.as_str(), wanted[at]);
    }
    Ok(())
}

#[test]
fn a_lexer_that_failed_stays_so(rt: HostRuntime) {
    let mut lexer = Lexer::new("(abc");
    let first = lexer.next_token(rt.alloc());
    let again = lexer.next_token(rt.alloc());
    assert!(rt; matches!(first, Err(LexerError::UnclosedList)));
    assert!(rt; matches!(again, Err(LexerError::IllegalState("the lexer has failed"))));
}
