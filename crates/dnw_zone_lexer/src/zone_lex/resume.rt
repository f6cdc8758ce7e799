//! Lexers that go on in the middle of a text, for callers that keep an offset in place of a lexer.
ghost use Rattle.std.specs.Prelude.{◌≡◌, ◌↔◌, IsTrue};
ghost use Rattle.std.specs.Str.{chars};
ghost use Rattle.dnw_zone_lexer.specs.Tokens.{StartLine};
ghost use Rattle.dnw_zone_lexer.specs.Lexing.{line_state};

use crate::zone_lex::{Lexer, State};

impl<'a> Lexer<'a> {
    /// Creates a lexer at the rest of a text, which is at the start of a line or in the rest of one.
    ///
    /// ```
    /// let mut lexer = Lexer::resume(" ns\n", false); // after `@` of `@ ns`
    /// ```
    pub fn resume(rest: &'a str, at_line_start: bool) -> Self
        ensures { result ≡ record { rest = chars rest.now; state = line_state at_line_start } }
    {
        Lexer {
            rest,
            state: if at_line_start {
                State::StartLine
            } else {
                State::RestOfLine
            },
        }
    }

    /// Returns what is left of the text.
    pub fn rest(&self) -> &'a str
        ensures { chars result.now ≡ self.now.rest }
    {
        self.rest
    }

    /// Returns `true` if the lexer is at the start of a line.
    pub fn is_at_line_start(&self) -> bool
        ensures { IsTrue result ↔ (self.now.state ≡ StartLine) }
    {
        matches!(self.state, State::StartLine)
    }
}
