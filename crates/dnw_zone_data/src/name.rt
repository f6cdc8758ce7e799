//! Names (RFC 1035, section 5.1).
ghost use Rattle.std.specs.Prelude.{◌≡◌, ◌≤◌, ◌++◌, ℕ, List, [], Some, None, take, IfOk, IsTrue, MatchBool, MatchOption, string_bytes};
ghost use Rattle.dnw_base.specs.Limits.{max_name};
ghost use Rattle.dnw_base.specs.Names.{AreLabels};
ghost use Rattle.std.specs.Option.{option_copied};
ghost use Rattle.dnw_name_text.specs.NameTexts.{full_name_text};
ghost use Rattle.dnw_name_text.specs.PlainNames.{is_plain_name};
ghost use Rattle.dnw_zone_data.specs.NameReading.{AppendsName, IsNamedInFull, named_at};

use crate::words::begins_with_quote;
use arrayvec::ArrayString;
use dnw_base::limits::MAX_NAME;
use dnw_name::name::Name;
use dnw_name::name_ref::NameRef;
use dnw_name_form::form::WireForm;
use dnw_name_text::printing::{MAX_TEXT, push_name};
use dnw_name_text::reading::{put_plain_form, read_into};
use std::alloc::{AllocError, Global};

/// Appends the text of a name, fully qualified.
pub fn write_name(name: &NameRef<'_>, out: &mut String) -> Result<(), AllocError>
    ensures { IfOk result (λ _. string_bytes out.new ≡ string_bytes out.old ++ full_name_text name.now) }
{
    let mut text = ArrayString::<MAX_TEXT>::new();
    push_name(&mut text, name.wire_labels(&mut [0; MAX_NAME]), true);
    out.push_str(text.as_str())
}

/// Returns the wire form of the fully qualified name that a word gives, if any. An origin completes it if no dot is at its end. A word
/// in quotes is no name.
pub fn read_name(alloc: Global, text: &[u8], origin: Option<&Name>) -> Option<WireForm>
    ensures { result ≡ named_at (option_copied origin.entry) text.now }
{
    let mut form = WireForm::new(alloc);
    if fill_name(&mut form, text, origin) {
        Some(form)
    } else {
        None
    }
}

/// Appends the wire form of the name that a word gives, as `read_name` returns it. Returns `false` if it gives none; nothing is
/// changed then.
pub fn append_name(
    alloc: Global,
    text: &[u8],
    origin: Option<&Name>,
    out: &mut Vec<u8>,
) -> Result<bool, AllocError>
    ensures { IfOk result (AppendsName (named_at (option_copied origin.entry) text.now) out.old.items out.new.items) }
{
    let mut room = [0; MAX_NAME];
    if let Some(len) = put_plain(&mut room, text) {
        out.extend_from_slice(&room[..len])?;
        return Ok(true);
    }
    append_other(alloc, text, origin, out)
}

/// Appends the wire form of any name that a word gives, as `append_name`.
fn append_other(
    alloc: Global,
    text: &[u8],
    origin: Option<&Name>,
    out: &mut Vec<u8>,
) -> Result<bool, AllocError>
    ensures { IfOk result (AppendsName (named_at (option_copied origin.entry) text.now) out.old.items out.new.items) }
{
    let mut form = WireForm::new(alloc);
    if !fill_other(&mut form, text, origin) {
        return Ok(false);
    }
    out.extend_from_slice(form.as_bytes())?;
    Ok(true)
}

/// Puts the wire form of the fully qualified name that a word gives at the front of a room, and returns its length, if a dot is at the
/// word's end and the octets of its labels stand for themselves, as most do. It does so for the text of each such name but the root.
/// Else it may return `None`, and the room has any octets then.
#[inline(always)]
pub fn put_plain(room: &mut [u8; MAX_NAME], text: &[u8]) -> Option<usize>
    ensures { MatchOption result ((labels : List (List ℕ)) → AreLabels labels → IsTrue (is_plain_name labels) → text.now ≡ full_name_text labels → ⊥)
        (λ len. (len ≤ max_name) × IsNamedInFull text.now (take len room.new)) }
{
    let last = text.last()?;
    if *last != b'.' {
        return None;
    }
    if begins_with_quote(text) {
        return None;
    }
    put_plain_form(room, text)
}

/// Reads the name that a word gives into a form without labels, as `read_name` returns it. Returns `false` if it gives none; some labels
/// may be there then.
pub fn fill_name(form: &mut WireForm, text: &[u8], origin: Option<&Name>) -> bool
    requires { form.old ≡ [] }
    ensures { MatchBool result (named_at (option_copied origin.entry) text.now ≡ Some form.new) (named_at (option_copied origin.entry) text.now ≡ None) }
{
    let mut room = [0; MAX_NAME];
    if let Some(len) = put_plain(&mut room, text) {
        form.copy_octets(&room[..len]);
        return true;
    }
    fill_other(form, text, origin)
}

/// Reads any name that a word gives, as `fill_name`. It does not look first whether its octets stand for themselves.
#[tactic(auto, using(crate::proofs::NamesRead::is_named, crate::proofs::NamesRead::is_relative, crate::proofs::NamesRead::is_none))]
pub fn fill_other(form: &mut WireForm, text: &[u8], origin: Option<&Name>) -> bool
    requires { form.old ≡ [] }
    ensures { MatchBool result (named_at (option_copied origin.entry) text.now ≡ Some form.new) (named_at (option_copied origin.entry) text.now ≡ None) }
{
    if begins_with_quote(text) {
        return false;
    }
    let labels = match origin {
        Some(name) => Some(name.wire_labels()),
        None => None,
    };
    matches!(read_into(form, text, labels), Ok(true))
}
