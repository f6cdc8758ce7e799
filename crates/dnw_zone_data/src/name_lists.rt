//! Lists of names (RFC 8005, section 6).
ghost use Rattle.std.specs.Prelude.{◌≡◌, ◌≤◌, ◌++◌, ℕ, List, [], length, IfOk, MatchBool, MatchOption, string_bytes};
ghost use Rattle.std.specs.Option.{option_copied};
ghost use Rattle.dnw_base.specs.Names.{AreLabels, wire};
ghost use Rattle.dnw_zone_data.specs.Appending.{Appended, AppendedInPart, AppendsOne};
ghost use Rattle.dnw_zone_data.specs.NameLists.{AreListedNames, PrintsNames};

use crate::name::{append_name, write_name};
use crate::words::{after_spaces, split_word};
use dnw_base::decoder::BinDecoder;
use dnw_base::limits::MAX_NAME;
use dnw_name::name::Name;
use dnw_name::name_ref::NameRef;
use std::alloc::{AllocError, Global};

/// Appends the octets of the names that all words are, completed by the origin. Returns `false` if one is no name.
pub(crate) fn parse_names(
    alloc: Global,
    text: &[u8],
    origin: Option<&Name>,
    out: &mut Vec<u8>,
) -> Result<bool, AllocError>
    ensures { IfOk result (AppendsOne (AreListedNames (option_copied origin.entry) text.now) out.old.items out.new.items) }
{
    let mut left = after_spaces(text);
    'names: while !left.is_empty() {
        let (word, rest) = split_word(left);
        if !append_name(alloc, word, origin, out)? {
            return Ok(false);
        }
        left = after_spaces(rest);
    }
    Ok(true)
}

/// Appends the text of names, each after a space. Returns `false` if the octets are no names; nothing is changed then.
pub(crate) fn write_names(octets: &[u8], out: &mut String) -> Result<bool, AllocError>
    ensures { IfOk result (Appended (PrintsNames octets.now) (string_bytes out.old) (string_bytes out.new)) }
{
    let start = out.len();
    let is_whole = push_names(octets, out)?;
    if !is_whole {
        out.truncate(start);
    }
    Ok(is_whole)
}

/// Appends the text of names. Returns `false` if the octets are no names; some may be appended then.
fn push_names(octets: &[u8], out: &mut String) -> Result<bool, AllocError>
    ensures { IfOk result (AppendedInPart (PrintsNames octets.now) (string_bytes out.old) (string_bytes out.new)) }
{
    let mut left = octets;
    'names: while !left.is_empty() {
        let Some((name, rest)) = first_name(left) else {
            return Ok(false);
        };
        out.push(' ')?;
        write_name(&name, out)?;
        left = rest;
    }
    Ok(true)
}

/// Returns the name that octets begin with, and what is after it, if it is not compressed.
pub(crate) fn first_name(octets: &[u8]) -> Option<(NameRef<'_>, &[u8])>
    ensures { MatchOption result ((labels : List (List ℕ)) (rest : List ℕ) → AreLabels labels → ¬ (octets.now ≡ wire labels ++ rest))
        (λ both. AreLabels both.0 × (octets.now ≡ wire both.0 ++ both.1.now)) }
{
    let mut reader = BinDecoder::new(octets);
    let Ok(name) = NameRef::read(&mut reader) else {
        return None;
    };
    let mut room = [0; MAX_NAME];
    let form = name.wire_labels(&mut room).as_wire();
    let Some((head, rest)) = octets.split_at_checked(form.len()) else {
        return None;
    };
    if !is_same(head, form) {
        return None;
    }
    Some((name, rest))
}

/// Returns `true` if octets are the same.
fn is_same(octets: &[u8], other: &[u8]) -> bool
    ensures { MatchBool result (octets.now ≡ other.now) (¬ (octets.now ≡ other.now)) }
{
    octets == other
}
