//! Where and why a text gives no name.
use thiserror::Error;

/// Why a text gives no name, and where.
#[derive(Debug, Clone, Copy, PartialEq, Eq, Error)]
#[error("at offset {offset}: {rule}")]
pub struct NameTextError {
    /// The offset, in octets, of the first octet of the text that is against a rule, or the length of the text if it ends too early.
    pub offset: usize,
    /// The rule.
    pub rule: NameTextRule,
}

/// A rule for the text of a name (RFC 1035, sections 2.3.4 and 5.1).
#[derive(Debug, Clone, Copy, PartialEq, Eq, Error)]
pub enum NameTextRule {
    /// A label has an octet, and a text has a label, a dot or an `@`.
    #[error("a label is empty")]
    EmptyLabel,
    /// A label has at most 63 octets.
    #[error("a label has more than 63 octets")]
    LabelTooLong,
    /// A name has at most 255 octets, with those of the origin that completes it.
    #[error("the name has more than 255 octets")]
    NameTooLong,
    /// A backslash and a digit are followed by two more digits, and the number is at most 255.
    #[error("an escape is not three digits up to 255")]
    BadEscape,
    /// An escape is whole before the text ends.
    #[error("the text ends within an escape")]
    UnfinishedEscape,
}
