//! The tag of a CAA record (RFC 8659, section 4.1.1): letters and digits.
ghost use Rattle.std.specs.Prelude.{◌≡◌, true, false, MatchOption};
ghost use Rattle.std.specs.List.{AllPass};
ghost use Rattle.std.specs.Char.{is_ascii_alphanumeric};
ghost use Rattle.dnw_zone_values.specs.Spelling.{Appends};
ghost use Rattle.dnw_zone_values.specs.Tags.{IsTag, IsTagText};
ghost use Rattle.dnw_zone_values.specs.declared.error.FieldTextError.TheVariants.{Tag as TagWanted};

use crate::error::FieldTextError;
use std::str;

/// The most octets of a tag, since their number is written in one.
const MAX_TAG: usize = 255;

/// Returns the text of a tag, which is its octets. There is none if they are no tag: 1 to 255 letters and digits.
pub fn tag_text(tag: &[u8]) -> Option<&str>
    ensures { MatchOption result (¬ (IsTag tag.now)) (λ text. IsTag tag.now × (text.now ≡ tag.now)) }
{
    if is_tag(tag) {
        str::from_utf8(tag).ok()
    } else {
        None
    }
}

/// Appends the octets of a tag, which is 1 to 255 letters and digits.
///
/// Fails with `Tag` if the text is something else, and with `Memory`; `octets` is then unchanged.
pub fn parse_tag(text: &str, octets: &mut Vec<u8>) -> Result<(), FieldTextError>
    ensures { Appends TagWanted IsTagText text.now octets.old.items octets.new.items result }
{
    read_tag(text.as_bytes(), octets)
}

/// Appends the octets of a tag that characters are, as `parse_tag` does.
pub fn read_tag(tag: &[u8], octets: &mut Vec<u8>) -> Result<(), FieldTextError>
    ensures { Appends TagWanted IsTagText tag.now octets.old.items octets.new.items result }
{
    if !is_tag(tag) {
        return Err(FieldTextError::Tag);
    }
    octets.extend_from_slice(tag)?;
    Ok(())
}

/// Returns `true` if octets are a tag.
fn is_tag(tag: &[u8]) -> bool
    ensures yes { result ≡ true → IsTag tag.now }
    ensures no { result ≡ false → ¬ (IsTag tag.now) }
{
    !tag.is_empty() && tag.len() <= MAX_TAG && is_alphanumeric(tag)
}

/// Returns `true` if each octet is a letter or a digit.
fn is_alphanumeric(octets: &[u8]) -> bool
    ensures yes { result ≡ true → AllPass is_ascii_alphanumeric octets.now }
    ensures no { result ≡ false → ¬ (AllPass is_ascii_alphanumeric octets.now) }
{
    for c in octets {
        if !c.is_ascii_alphanumeric() {
            return false;
        }
    }
    true
}
