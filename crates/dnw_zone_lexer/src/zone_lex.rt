//! The tokens of a master file (RFC 1035, section 5.1).
ghost use Rattle.std.specs.Prelude.{◌≡◌, not, true, false, slice_index, ℕ, ◌+◌, ◌-◌, ◌*◌, ◌<◌, ◌≤◌, ⊤, Bool, List, [], ◌∷◌, ◌++◌, length, take, Some, None, Ok, Err, IfOk, IfErr, IfSome, MatchOption, MatchResult};
ghost use Rattle.std.specs.Char.{IsScalar, is_whitespace};
ghost use Rattle.std.specs.Str.{chars, IsUtf8};
ghost use Rattle.std.specs.List.{list_all};
ghost use Rattle.dnw_zone_lexer.specs.Tokens.{Step, Gives, CharData, StartLine, RestOfLine, Between, Plain, Escaped, AfterOne, is_numeric, is_line_end, ends_word, line_end, start_line, rest_of_line, line_entry, word_before, list_after, quoted_after, control_entry, after_comment, front_until, from, is_no_capital, next, next_from};
ghost use Rattle.dnw_zone_lexer.specs.Lexing.{characters, token_value, Lexes, EndsInTime, MayRunOut, ReportsCause, IsToken, opens, opens_from};
ghost use Rattle.dnw_zone_lexer.specs.Inside.Finds.{lex_state_of, FindsToken, CutsBefore, TakesChar, StopsRun, IsShorter, Escapes, EscapesFrom, ReadsDigit, is_plain_char, is_either, ends_run};
ghost use Rattle.dnw_zone_lexer.specs.declared.errors.LexerError.TheVariants.{Memory};

use crate::errors::{LexerError, copied};
use std::alloc::Global;
use std::marker::Model;
use unicode::properties::GeneralCategory;

mod resume;

/// What stands next in a master file.
#[derive(Debug, Drop, PartialEq, Eq)]
pub enum Token {
    /// White space that a line begins with. The line's record is for the last owner that was stated.
    Blank,
    /// What stands in parentheses, by its words. It may go on over the ends of lines.
    List(Vec<String>),
    /// A word, or a text in quotes without its quotes and escapes.
    CharData(String),
    /// `@`, the current origin.
    At,
    /// `$INCLUDE`
    Include,
    /// `$ORIGIN`
    Origin,
    /// `$TTL`
    Ttl,
    /// The end of a line.
    EOL,
}

impl Token {
    ghost use Rattle.dnw_zone_lexer.specs.Copies.{IsTokenCopyOf, OwnsTokenText};
    ghost use Rattle.dnw_zone_lexer.specs.declared.errors.LexerError.TheVariants.{Memory};

    /// Copies the token. It allocates only if the token has a text or a list, and then may fail with `Memory`.
    #[tactic(auto, using(crate::proofs::Steps::same_characters))]
    pub fn clone(&self) -> Result<Self, LexerError>
        ensures ok { IfOk result (IsTokenCopyOf self.now) }
        ensures err { IfErr result (λ e. (e ≡ Memory) × OwnsTokenText self.now) }
    {
        match self {
            Token::Blank => Ok(Token::Blank),
            Token::List(words) => Ok(Token::List(words.clone()?)),
            Token::CharData(text) => Ok(Token::CharData(text.clone()?)),
            Token::At => Ok(Token::At),
            Token::Include => Ok(Token::Include),
            Token::Origin => Ok(Token::Origin),
            Token::Ttl => Ok(Token::Ttl),
            Token::EOL => Ok(Token::EOL),
        }
    }
}

/// Where a lexer is: at the start of a line, in the rest of one, or past an error.
#[derive(Clone, Copy)]
enum State {
    StartLine,
    RestOfLine,
    Failed,
}

/// Gives the tokens of a master file, one after the other.
///
/// ```
/// let mut lexer = Lexer::new("@ IN SOA ns (1 2)\n");
/// while let Some(token) = lexer.next_token(alloc)? { .. }
/// ```
///
/// A contract sees a lexer as the characters that are left and where it is: at the start of a line, in the rest of one,
/// or past an error.
#[derive(Drop)]
pub struct Lexer<'a> {
    rest: &'a str,
    state: State,
}

impl<'a> Model for Lexer<'a> {
    ghost use Rattle.std.specs.Str.{chars};
    ghost use Rattle.dnw_zone_lexer.specs.Tokens.{LexerValue};
    ghost use Rattle.dnw_zone_lexer.specs.Inside.Finds.{lex_state_of};

    ghost Value = { LexerValue };

    ghost view = { λ l. record { rest = chars l.rest.now; state = lex_state_of l.state } };
}

impl<'a> Lexer<'a> {
    /// Creates a lexer at the start of a text.
    #[tactic(auto, using(crate::proofs::Settled::ends_in_time))]
    pub fn new(txt: &'a str) -> Self
        ensures value { result ≡ record { rest = chars txt.now; state = StartLine } }
        ensures ends { EndsInTime result }
    {
        Lexer {
            rest: txt,
            state: State::StartLine,
        }
    }

    /// Returns the next token, or `None` at the end of the text. After the end each call returns `None`. A text of n
    /// characters has at most n tokens, since each takes at least one character.
    ///
    /// Fails with the fault that stands next in the text, or with `Memory` if a text that is kept could not be allocated: of a
    /// token, of an unrecognized word after a `$`, or of what a list or a quoted text begins with.
    /// After any error each call fails with `IllegalState("the lexer has failed")`.
    pub fn next_token(&mut self, alloc: Global) -> Result<Option<Token>, LexerError>
        ensures lexes { Lexes self.old result self.new }
        ensures takes { IsToken result → length self.new.rest < length self.old.rest }
    {
        match find(alloc, self.state, self.rest) {
            Ok(Some(found)) => {
                self.rest = found.rest;
                self.state = found.state;
                Ok(Some(found.token))
            }
            Ok(None) => {
                self.rest = "";
                self.state = State::RestOfLine;
                Ok(None)
            }
            Err(error) => {
                self.state = State::Failed;
                Err(error)
            }
        }
    }
}

/// What the parts of a lexer return.
type LexerResult<T> = Result<T, LexerError>;

/// A token, what is left of the text after it, and where the lexer then is.
#[derive(Drop)]
struct Found<'t> {
    token: Token,
    rest: &'t str,
    state: State,
}

/// Returns a token after which the rest of a line follows.
fn on_line(token: Token, rest: &str) -> LexerResult<Option<Found<'_>>>
    ensures { FindsToken false (Gives (token_value token) (chars rest.now) RestOfLine) result }
{
    Ok(Some(Found {
        token,
        rest,
        state: State::RestOfLine,
    }))
}

/// Finds what stands next in a text.
fn find<'t>(alloc: Global, state: State, text: &'t str) -> LexerResult<Option<Found<'t>>>
    ensures { FindsToken (opens_from (lex_state_of state) (chars text.now)) (next_from (lex_state_of state) (chars text.now)) result }
{
    match state {
        State::StartLine => start_line(alloc, text),
        State::RestOfLine => rest_of_line(alloc, text),
        State::Failed => Err(LexerError::IllegalState("the lexer has failed")),
    }
}

/// Finds the token at the start of a line.
fn start_line<'t>(alloc: Global, text: &'t str) -> LexerResult<Option<Found<'t>>>
    ensures { FindsToken (opens_from StartLine (chars text.now)) (start_line (chars text.now)) result }
{
    let Some((c, rest)) = split_first_char(text) else {
        return Ok(None);
    };
    if is_line_end(c) {
        return line_end(text);
    }
    if c.is_whitespace() {
        return on_line(Token::Blank, rest);
    }
    entry(alloc, text, c, rest)
}

/// Finds the token in the rest of a line.
fn rest_of_line<'t>(alloc: Global, text: &'t str) -> LexerResult<Option<Found<'t>>>
    ensures { FindsToken (opens_from RestOfLine (chars text.now)) (rest_of_line (chars text.now)) result }
{
    let mut text = text;
    while let Some((c, rest)) = split_first_char(text) {
        if is_line_end(c) {
            return line_end(text);
        }
        if !is_space(c) {
            return entry(alloc, text, c, rest);
        }
        text = rest;
    }
    Ok(None)
}

/// Finds what a text begins with that begins with neither white space nor the end of a line: its first character, and
/// what is after it.
fn entry<'t>(
    alloc: Global,
    text: &'t str,
    first: char,
    rest: &'t str,
) -> LexerResult<Option<Found<'t>>>
    requires { chars text.now ≡ first ∷ chars rest.now }
    ensures { FindsToken (opens first) (line_entry first (chars rest.now)) result }
{
    match first {
        '@' => on_line(Token::At, rest),
        '(' => list(alloc, rest),
        ')' => Err(LexerError::IllegalCharacter(first)),
        '$' => control_entry(alloc, rest),
        '"' => quoted(alloc, rest),
        ';' => comment(rest),
        _ if first.is_control() => Err(LexerError::UnrecognizedChar(first)),
        _ => word(alloc, text),
    }
}

/// Finds the end of a line.
fn line_end<'t>(text: &'t str) -> LexerResult<Option<Found<'t>>>
    ensures { FindsToken false (line_end (chars text.now)) result }
{
    let mut text = text;
    while let Some((c, rest)) = split_first_char(text) {
        if c == '\n' {
            return Ok(Some(Found {
                token: Token::EOL,
                rest,
                state: State::StartLine,
            }));
        }
        if c != '\r' {
            return Err(LexerError::IllegalCharacter(c));
        }
        text = rest;
    }
    Err(LexerError::EOF)
}

/// Finds what is after a comment: the end of its line, or of the text.
fn comment<'t>(text: &'t str) -> LexerResult<Option<Found<'t>>>
    ensures { FindsToken false (after_comment (from is_line_end (chars text.now))) result }
{
    let rest = &text[comment_len(text)..];
    let Some(_) = split_first_char(rest) else {
        return Ok(None);
    };
    line_end(rest)
}

/// Finds a word.
fn word<'t>(alloc: Global, text: &'t str) -> LexerResult<Option<Found<'t>>>
    ensures { FindsToken false (word_before (front_until ends_word (chars text.now)) (from ends_word (chars text.now))) result }
{
    let len = word_len(text);
    let word = &text[..len];
    let rest = &text[len..];
    match split_first_char(rest) {
        None => char_data(alloc, word, rest),
        Some((c, _)) if c.is_whitespace() || c == ';' => char_data(alloc, word, rest),
        Some((c, _)) if c == ')' => Err(LexerError::IllegalCharacter(c)),
        Some((c, _)) => Err(LexerError::UnrecognizedChar(c)),
    }
}

/// Returns a word as a token.
fn char_data<'t>(alloc: Global, word: &str, rest: &'t str) -> LexerResult<Option<Found<'t>>>
    ensures { FindsToken false (Gives (CharData (chars word.now)) (chars rest.now) RestOfLine) result }
{
    on_line(Token::CharData(copied(alloc, word)?), rest)
}

/// Finds what a `$` and the capital letters after it stand for.
#[tactic(auto, using(crate::proofs::Cuts::capitals_are_bytes))]
fn control_entry<'t>(alloc: Global, text: &'t str) -> LexerResult<Option<Found<'t>>>
    ensures { FindsToken false (control_entry (front_until is_no_capital (chars text.now)) (from is_no_capital (chars text.now))) result }
{
    let len = capitals_len(text);
    control_word(alloc, &text[..len], &text[len..])
}

/// Finds what the capital letters after a `$` stand for.
#[inline(always)]
fn control_word<'t>(alloc: Global, word: &str, rest: &'t str) -> LexerResult<Option<Found<'t>>>
    requires { chars word.now ≡ word.now }
    ensures { FindsToken false (control_entry word.now (chars rest.now)) result }
{
    if word == "INCLUDE" {
        return on_line(Token::Include, rest);
    }
    if word == "ORIGIN" {
        return on_line(Token::Origin, rest);
    }
    if word == "TTL" {
        return on_line(Token::Ttl, rest);
    }
    Err(LexerError::UnrecognizedDollar(copied(alloc, word)?))
}

/// Finds a list, after its `(`.
#[tactic(auto, using(crate::proofs::Steps::list_after_remark))]
fn list<'t>(alloc: Global, text: &'t str) -> LexerResult<Option<Found<'t>>>
    ensures { FindsToken true (list_after [] Between (chars text.now)) result }
{
    let mut words = Vec::new(alloc);
    let mut left = text;
    while let Some((c, rest)) = split_first_char(left) {
        if c.is_whitespace() {
            left = rest;
        } else if c == ')' {
            return on_line(Token::List(words), rest);
        } else if c == ';' {
            left = &rest[comment_len(rest)..];
        } else if c.is_control() {
            return Err(LexerError::UnrecognizedChar(c));
        } else {
            let len = word_len(left);
            words.push(copied(alloc, &left[..len])?)?;
            left = &left[len..];
        }
    }
    Err(LexerError::UnclosedList)
}

/// Finds a quoted text, after its opening quote.
fn quoted<'t>(alloc: Global, text: &'t str) -> LexerResult<Option<Found<'t>>>
    ensures { FindsToken true (quoted_after [] Plain (chars text.now)) result }
{
    let mut collected = String::new(alloc);
    let mut left = text;
    'runs: loop {
        let rest = take_run(&mut collected, left)?;
        match split_first_char(rest) {
            None => return Err(LexerError::UnclosedQuotedString),
            Some(('"', rest)) => return on_line(Token::CharData(collected), rest),
            Some((_, rest)) => {
                let (c, rest) = escape(rest)?;
                collected.push(c)?;
                left = rest;
            }
        }
    }
}

/// Appends the characters before the next quote or backslash to a text. Returns what is after them.
#[inline(always)]
#[tactic(auto, using(crate::proofs::Steps::stops_run))]
fn take_run<'t>(collected: &mut String, left: &'t str) -> LexerResult<&'t str>
    ensures goes_on { IfOk result (λ rest. quoted_after (characters collected.new) Plain (chars rest.now) ≡ quoted_after (characters collected.old) Plain (chars left.now)) }
    ensures stops { IfOk result (λ rest. StopsRun (chars rest.now)) }
    ensures rest { IfOk result (λ rest. (length rest.now ≤ length left.now) × IsUtf8 rest.now) }
    ensures err { IfErr result (λ e. (e ≡ Memory) × MayRunOut true (quoted_after (characters collected.old) Plain (chars left.now))) }
{
    let len = quoted_len(left);
    collected.push_str(&left[..len])?;
    Ok(&left[len..])
}

/// Reads an escape, after its backslash. Returns the character that it stands for, and what is after it.
fn escape(text: &str) -> LexerResult<(char, &str)>
    ensures escapes { Escapes (chars text.now) result }
    ensures scalar { IfOk result (λ x. IsScalar x.0) }
    ensures rest { IfOk result (λ x. IsShorter x.1.now text.now) }
{
    let Some((c, rest)) = split_first_char(text) else {
        return Err(LexerError::EOF);
    };
    if c.is_control() {
        return Err(LexerError::IllegalCharacter(c));
    }
    if !is_numeric(c) {
        return Ok((c, rest));
    }
    let (a, _) = decimal_digit(text)?;
    escape_after(a, rest)
}

/// Reads the second and the third digit of an escape, after the first. Returns the character that they stand for, and what
/// is after them.
#[inline(always)]
fn escape_after(a: u32, text: &str) -> LexerResult<(char, &str)>
    requires { a < 10 }
    ensures escapes { EscapesFrom (AfterOne a) (chars text.now) result }
    ensures scalar { IfOk result (λ x. IsScalar x.0) }
    ensures rest { IfOk result (λ x. IsShorter x.1.now text.now) }
{
    let (b, rest) = decimal_digit(text)?;
    let (c, rest) = decimal_digit(rest)?;
    Ok((char::from_u32(65536 * a + 256 * b + c).unwrap(), rest))
}

/// Reads a decimal digit. Returns its value, and what is after it.
fn decimal_digit(text: &str) -> LexerResult<(u32, &str)>
    ensures reads { ReadsDigit (chars text.now) result }
    ensures rest { IfOk result (λ x. IsShorter x.1.now text.now) }
{
    let Some((c, rest)) = split_first_char(text) else {
        return Err(LexerError::EOF);
    };
    if c.is_ascii_digit() {
        Ok((u32::from(c) - u32::from('0'), rest))
    } else {
        Err(LexerError::IllegalCharacter(c))
    }
}

/// Returns `true` if a character has the general category Nd, Nl or No.
fn is_numeric(c: char) -> bool
    ensures { result ≡ is_numeric c }
{
    let category = GeneralCategory::for_char(c);
    category == GeneralCategory::DecimalNumber
        || category == GeneralCategory::LetterNumber
        || category == GeneralCategory::OtherNumber
}

/// Returns the first character of a text, and what is after it.
#[inline(always)]
#[tactic(auto, using(crate::proofs::Cuts::begins))]
fn split_first_char(text: &str) -> Option<(char, &str)>
    ensures { TakesChar text.now result }
{
    let mut chars = text.chars();
    let first = chars.next()?;
    Some((first, chars.as_str()))
}

/// Returns the number of bytes of the word that a text begins with.
#[tactic(auto, using(crate::proofs::Cuts::scanned_plain, crate::proofs::Cuts::cut_at, crate::proofs::Cuts::cut_at_byte, crate::proofs::Cuts::cut_at_end))]
fn word_len(text: &str) -> usize
    ensures { CutsBefore ends_word text.now result }
{
    let bytes = text.as_bytes();
    let mut len = 0;
    while len < bytes.len() {
        if is_plain(bytes[len]) {
            len += 1;
            continue;
        }
        if bytes[len] < 128 {
            return len;
        }
        let Some((c, _)) = split_first_char(&text[len..]) else {
            return len;
        };
        if ends_word(c) {
            return len;
        }
        len += c.len_utf8();
    }
    len
}

/// Returns `true` if a character ends a word.
fn ends_word(c: char) -> bool
    ensures { result ≡ ends_word c }
{
    c.is_whitespace() || c.is_control() || c == ';' || c == ')'
}

/// Returns `true` if a byte is a plain one of a word: printable, and neither `;` nor `)`.
#[inline(always)]
fn is_plain(byte: u8) -> bool
    ensures { result ≡ is_plain_char byte }
{
    b' ' < byte && byte < 127 && byte != b';' && byte != b')'
}

/// Returns `true` if a character is white space.
fn is_space(c: char) -> bool
    ensures { result ≡ is_whitespace c }
{
    if ' ' < c && c <= '~' {
        return false;
    }
    c.is_whitespace()
}

/// Returns the number of capital letters that a text begins with.
#[tactic(auto, using(crate::proofs::Cuts::scanned_capital, crate::proofs::Cuts::cut_at))]
fn capitals_len(text: &str) -> usize
    ensures { CutsBefore is_no_capital text.now result }
{
    let mut len = 0;
    while let Some((c, _)) = split_first_char(&text[len..]) {
        if !c.is_ascii_uppercase() {
            return len;
        }
        len += 1;
    }
    len
}

/// Returns the number of bytes before the end of the line.
#[inline(always)]
fn comment_len(text: &str) -> usize
    ensures { CutsBefore is_line_end text.now result }
{
    len_before(text, b'\r', b'\n')
}

/// Returns the number of bytes before a quote or a backslash.
#[inline(always)]
fn quoted_len(text: &str) -> usize
    ensures { CutsBefore ends_run text.now result }
{
    len_before(text, b'"', b'\\')
}

/// Returns the number of bytes before the first of two ASCII characters.
#[inline(always)]
#[tactic(auto, using(crate::proofs::Cuts::cut_at_either))]
fn len_before(text: &str, a: u8, b: u8) -> usize
    requires ascii { (a < 128) × (b < 128) }
    ensures { CutsBefore (is_either a b) text.now result }
{
    let bytes = text.as_bytes();
    let mut len = 0;
    while len < bytes.len() && !is_either(a, b, bytes[len]) {
        len += 1;
    }
    len
}

/// Returns `true` if a byte is one of the two.
#[inline(always)]
fn is_either(a: u8, b: u8, byte: u8) -> bool
    ensures { result ≡ is_either a b byte }
{
    byte == a || byte == b
}

/// Returns `true` if a character is a carriage return or a line feed.
#[inline(always)]
fn is_line_end(c: char) -> bool
    ensures { result ≡ is_line_end c }
{
    c == '\r' || c == '\n'
}
