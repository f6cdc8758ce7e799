//! What a text may be against.
use thiserror::Error;

/// A rule for the text of a master file (RFC 1035, section 5.1).
#[derive(Debug, Clone, Copy, PartialEq, Eq, Error)]
pub enum WordRule {
    /// At most 255 parentheses are open.
    #[error("more than 255 parentheses are open")]
    NestedParenthesis,
    /// A closing parenthesis has an opening one.
    #[error("no parenthesis is open")]
    UnopenedParenthesis,
    /// An opening parenthesis has a closing one.
    #[error("the text ends within parentheses")]
    UnclosedParenthesis,
    /// A quoted string is closed in the line that it begins in.
    #[error("the line ends within a quoted string")]
    UnclosedQuote,
    /// A character is after a backslash.
    #[error("the line ends after a backslash")]
    UnfinishedEscape,
}
