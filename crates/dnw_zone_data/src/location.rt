//! Words of a text that are a location (RFC 1876, section 3).
ghost use Rattle.std.specs.Prelude.{◌≡◌, ◌<◌, ◌++◌, ℕ, List, length, map, IfOk, MatchOption, string_bytes};
ghost use Rattle.dnw_zone_values.specs.Locations.{location_wire, PrintsLocation};
ghost use Rattle.dnw_zone_data.specs.Appending.{Appended, AppendsOne};
ghost use Rattle.dnw_zone_data.specs.Locations.{AreLocation, AreWords};

use crate::words::{after_spaces, split_word};
use arrayvec::ArrayVec;
use dnw_zone_values::location::{Location, append_location, location_octets, location_of};
use std::alloc::AllocError;

/// The most words of a location: four of each angle, the altitude, and three sizes.
const MAX_WORDS: usize = 12;

/// Appends the octets of the location that all words are. Returns `false` if they are none.
pub(crate) fn parse_location(left: &[u8], out: &mut Vec<u8>) -> Result<bool, AllocError>
    ensures { IfOk result (AppendsOne (AreLocation left.now) out.old.items out.new.items) }
{
    let Some(words) = words_of(left) else {
        return Ok(false);
    };
    let Some(location) = location_of(words.as_slice()) else {
        return Ok(false);
    };
    push_location(&location, out)?;
    Ok(true)
}

/// Appends the octets of a location.
fn push_location(location: &Location, out: &mut Vec<u8>) -> Result<(), AllocError>
    ensures { IfOk result (λ _. out.new.items ≡ out.old.items ++ location_wire location.now) }
{
    out.extend_from_slice(&location_octets(location))
}

/// Returns the words of a text, if there are no more than a location has.
fn words_of(text: &[u8]) -> Option<ArrayVec<&[u8], MAX_WORDS>>
    ensures { MatchOption result ((words : List (List ℕ)) → AreWords text.now words → 12 < length words)
        (λ found. AreWords text.now (map (λ w. w.now) found.items)) }
{
    let mut words = ArrayVec::new();
    let mut left = after_spaces(text);
    'words: while !left.is_empty() {
        if words.is_full() {
            return None;
        }
        let (word, rest) = split_word(left);
        words.push(word);
        left = after_spaces(rest);
    }
    Some(words)
}

/// Appends the text of a location, each word after a space. Returns `false` if its octets have none.
pub(crate) fn write_location(octets: &[u8], out: &mut String) -> Result<bool, AllocError>
    ensures { IfOk result (Appended (PrintsLocation octets.now) (string_bytes out.old) (string_bytes out.new)) }
{
    append_location(octets, out)
}
