//! Where a text that gives no name goes wrong.
ghost use Rattle.std.specs.Prelude.{◌≡◌, ℕ, ◌+◌, ◌<◌, ◌≤◌, List, ◌==◌, length, get_or, encode_utf8, MatchOption, OnOk, IfOk, IfErr, if◌then◌else◌};
ghost use Rattle.std.specs.Str.{chars};
ghost use Rattle.dnw_name_form.specs.LabelText.{dot, may_begin, may_follow};
ghost use Rattle.dnw_name_text.specs.AsciiText.{Char, Dot};
ghost use Rattle.dnw_name_text.specs.AsciiFaults.{GoesWrong, GoesWrongBy, Gives, IsNameText};
ghost use Rattle.dnw_name_text.specs.Inside.TextProgress.{BeginsWithChar, BeginsWithUnit, BreaksAt, GoesOnWith, GoesWrongNext, HoldsLabels, IsSmall, ReadsTextOn, from_start};

use crate::ascii::{Move, State, step};
use dnw_base::limits::{MAX_LABEL, MAX_NAME};
use thiserror::Error;

/// Where a text that gives no name goes wrong, and the rule that it breaks there.
#[derive(Debug, Clone, Copy, PartialEq, Eq, Error)]
#[error("at offset {offset}: {rule}")]
pub struct TextFault {
    /// The offset in bytes of the character or escape with which the text is no name, whatever follows. What is before it
    /// is one.
    pub offset: usize,
    /// The rule that is broken there.
    pub rule: TextRule,
}

/// A rule for the text of a name.
#[derive(Debug, Clone, Copy, PartialEq, Eq, Error)]
pub enum TextRule {
    /// A label has a character.
    #[error("a label is empty")]
    EmptyLabel,
    /// A label has at most 63 octets (RFC 1035, section 2.3.4).
    #[error("a label has more than 63 octets")]
    LabelTooLong,
    /// A name has at most 255 octets (RFC 1035, section 2.3.4).
    #[error("the name has more than 255 octets")]
    NameTooLong,
    /// A label begins with a letter, a digit, `_` or `*`, and goes on with letters, digits, `_` and `-`. A dot in it is escaped.
    #[error("a character stands where it may not")]
    Character,
    /// An escape of digits has three, from 0 to 7.
    #[error("an escape has a number that is no octal digit")]
    Digit,
    /// An escape is whole before the text ends.
    #[error("the text ends within an escape")]
    UnfinishedEscape,
}

/// Returns where a text goes wrong, or `None` if it gives a name.
///
/// What is before the offset is a name by itself, and no longer beginning of the text is one. An escape counts as one
/// character. It does not allocate.
///
/// ```
/// fault_of("www.example."); // None
/// fault_of("a..b"); // Some(TextFault { offset: 2, rule: TextRule::EmptyLabel })
/// fault_of("exa mple"); // Some(TextFault { offset: 3, rule: TextRule::Character })
/// ```
pub fn fault_of(text: &str) -> Option<TextFault>
    ensures { MatchOption result (IsNameText (chars text.now)) (GoesWrong (chars text.now)) }
{
    if !begins_with_dot(text) {
        return first_fault(text);
    }
    if text.len() == 1 {
        return None;
    }
    Some(TextFault {
        offset: 1,
        rule: TextRule::EmptyLabel,
    })
}

/// Returns `true` if a text begins with a dot.
fn begins_with_dot(text: &str) -> bool
    ensures { result ≡ (get_or text.now 0 0 == dot) }
{
    let bytes = text.as_bytes();
    !bytes.is_empty() && bytes[0] == b'.'
}

/// The same of a text that begins with no dot.
fn first_fault(text: &str) -> Option<TextFault>
    ensures { MatchOption result (Gives from_start (chars text.now)) (GoesWrongBy from_start (chars text.now)) }
{
    let mut progress = Progress { size: 1, label: 0 };
    let mut rest = text;
    while !rest.is_empty() {
        match progress.advance(rest) {
            Ok(after) => rest = after,
            Err(rule) => {
                return Some(TextFault {
                    offset: text.len() - rest.len(),
                    rule,
                });
            }
        }
    }
    None
}

/// What was read of a text, in octets: the encoded size of its whole labels, and the length of the label after them.
#[derive(Drop)]
struct Progress {
    size: usize,
    label: usize,
}

/// What a text begins with: a dot that ends a label, a character of a label, which may be written as an escape, or what is
/// neither. What is left after it.
enum Unit<'t> {
    Dot(&'t str),
    Char(char, &'t str),
    Stop(TextRule),
}

impl Progress {
    /// Reads a character or an escape, and returns what is left after it, or the rule that it breaks.
    fn advance<'t>(&mut self, text: &'t str) -> Result<&'t str, TextRule>
        requires some { 0 < length text.now }
        requires small { IsSmall self.old }
        ensures ok { IfOk result (λ rest. ReadsTextOn self.old self.new text.now rest.now) }
        ensures err { IfErr result (λ rule. (ls : List (List ℕ)) → (label : List ℕ) → HoldsLabels self.old ls label → GoesWrongNext ls label (chars text.now) rule) }
    {
        match unit_of(text) {
            Unit::Dot(rest) => {
                self.end_label()?;
                Ok(rest)
            }
            Unit::Char(c, rest) => {
                self.push(c)?;
                Ok(rest)
            }
            Unit::Stop(rule) => Err(rule),
        }
    }

    /// Adds a character to the label.
    fn push(&mut self, c: char) -> Result<(), TextRule>
        requires { IsSmall self.old }
        ensures ok { OnOk result (GoesOnWith (Char c) self.old self.new) }
        ensures err { IfErr result (BreaksAt (Char c) self.old) }
    {
        let label = self.label + c.len_utf8();
        if label > MAX_LABEL {
            return Err(TextRule::LabelTooLong);
        }
        if !may_stand(c, self.label == 0) {
            return Err(TextRule::Character);
        }
        if self.size + 1 + label > MAX_NAME {
            return Err(TextRule::NameTooLong);
        }
        self.label = label;
        Ok(())
    }

    /// Ends the label.
    fn end_label(&mut self) -> Result<(), TextRule>
        requires { IsSmall self.old }
        ensures ok { OnOk result (GoesOnWith Dot self.old self.new) }
        ensures err { IfErr result (BreaksAt Dot self.old) }
    {
        if self.label == 0 {
            return Err(TextRule::EmptyLabel);
        }
        self.size += 1 + self.label;
        self.label = 0;
        Ok(())
    }
}

/// Returns what a text begins with.
fn unit_of(text: &str) -> Unit<'_>
    requires { 0 < length text.now }
    ensures { BeginsWithUnit text.now result }
{
    let mut state = State::Outside;
    let mut rest = text;
    while let Some((c, after)) = split_first_char(rest) {
        match step(state, c) {
            Move::Enter(next) => state = next,
            Move::Char(c) => return Unit::Char(c, after),
            Move::Dot => return Unit::Dot(after),
            Move::Unrecognized => return Unit::Stop(TextRule::Character),
            Move::Illegal => return Unit::Stop(TextRule::Digit),
        }
        rest = after;
    }
    Unit::Stop(TextRule::UnfinishedEscape)
}

/// Returns the first character of a text, and what is after it.
fn split_first_char(text: &str) -> Option<(char, &str)>
    ensures { BeginsWithChar text.now result }
{
    let mut chars = text.chars();
    let first = chars.next()?;
    Some((first, chars.as_str()))
}

/// Returns `true` if a character may stand in a label: as its first, or after that.
fn may_stand(c: char, is_first: bool) -> bool
    ensures { result ≡ (if is_first then may_begin c else may_follow c) }
{
    let is_safe = c.is_ascii_alphanumeric() || c == '_' || c == '.';
    if is_first {
        is_safe || c == '*'
    } else {
        is_safe || c == '-'
    }
}
