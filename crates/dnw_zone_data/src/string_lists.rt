//! Character strings up to the end of data (RFC 1035, section 3.3.14).
ghost use Rattle.std.specs.Prelude.{◌≡◌, IfOk};
ghost use Rattle.dnw_zone_data.specs.Appending.{AppendsOne};
ghost use Rattle.dnw_zone_data.specs.Inside.StringWords.{AppendsStrings};
ghost use Rattle.dnw_zone_data.specs.StringLists.{AreTexts, IsTextsWanted};

use crate::error::Wanted;
use crate::parsing::parse_counted;
use crate::words::{after_spaces, split_word};
use dnw_base::limits::MAX_DATA;
use dnw_data::kind::Shown;
use std::alloc::{AllocError, Global};

/// What the words of a text are as character strings.
#[derive(Clone, Copy, Debug, PartialEq, Eq)]
pub enum Listed {
    /// One string or more.
    Strings,
    /// The first of them are strings with more octets than data may have.
    TooMany,
    /// No strings.
    Others,
}

/// Appends the octets of the strings that all words are. Returns `false` if one is no string, if there is none, or if they have more
/// octets than data may have.
pub(crate) fn parse_texts(text: &[u8], out: &mut Vec<u8>) -> Result<bool, AllocError>
    ensures { IfOk result (AppendsOne (AreTexts text.now) out.old.items out.new.items) }
{
    match append_strings(text, out)? {
        Listed::Strings => Ok(true),
        Listed::TooMany | Listed::Others => Ok(false),
    }
}

/// Returns what is wanted in place of a text that is no field of strings: fewer octets, or else strings.
pub(crate) fn texts_wanted(alloc: Global, text: &[u8]) -> Result<Wanted, AllocError>
    ensures { IfOk result (IsTextsWanted text.now) }
{
    let mut own = Vec::new(alloc);
    match append_strings(text, &mut own)? {
        Listed::TooMany => Ok(Wanted::FewerOctets),
        Listed::Strings | Listed::Others => Ok(Wanted::Strings),
    }
}

/// Appends the octets of the strings that words are, up to the first that are more than data may have.
fn append_strings(text: &[u8], out: &mut Vec<u8>) -> Result<Listed, AllocError>
    ensures { IfOk result (AppendsStrings text.now out.old.items out.new.items) }
{
    let mut left = after_spaces(text);
    if left.is_empty() {
        return Ok(Listed::Others);
    }
    let first = out.len();
    'strings: while !left.is_empty() {
        let (word, rest) = split_word(left);
        if !parse_counted(Shown::Text, word, out)? {
            return Ok(Listed::Others);
        }
        if out.len() - first > MAX_DATA {
            return Ok(Listed::TooMany);
        }
        left = after_spaces(rest);
    }
    Ok(Listed::Strings)
}
