//! Lists with commas between their items (RFC 9460, appendix A.1).
ghost use Rattle.std.specs.Prelude.{◌≡◌, ◌++◌, [], IfOk};
ghost use Rattle.dnw_zone_values.specs.CommaLists.{is_escaped, item_text};
ghost use Rattle.dnw_zone_values.specs.Inside.Steps.{TakesListItem};

use std::alloc::AllocError;

/// What is after an item of a list.
#[derive(Clone, Copy)]
pub(crate) enum After<'t> {
    /// Nothing: the list ends.
    End,
    /// Other items.
    Items(&'t [u8]),
    /// A backslash before something else than a comma or a backslash, so that the text is no list.
    Fault,
}

/// Returns `true` for a comma and a backslash.
fn is_escaped(c: u8) -> bool
    ensures { result ≡ is_escaped c }
{
    c == b',' || c == b'\\'
}

/// Takes the first item of a list, and appends its octets. Returns what is after it.
pub(crate) fn next_item<'t>(text: &'t [u8], item: &mut Vec<u8>) -> Result<After<'t>, AllocError>
    requires { item.old.items ≡ [] }
    ensures { IfOk result (TakesListItem text.now item.new.items) }
{
    let mut escaped = false;
    let mut left = text;
    while let Some((first, rest)) = left.split_first() {
        if escaped {
            if !is_escaped(*first) {
                return Ok(After::Fault);
            }
            item.push(*first)?;
            escaped = false;
        } else if *first == b',' {
            return Ok(After::Items(rest));
        } else if *first == b'\\' {
            escaped = true;
        } else {
            item.push(*first)?;
        }
        left = rest;
    }
    if escaped {
        Ok(After::Fault)
    } else {
        Ok(After::End)
    }
}

/// Appends an item of a list, with a backslash before a comma and a backslash.
pub(crate) fn push_escaped(item: &[u8], text: &mut Vec<u8>) -> Result<(), AllocError>
    ensures { IfOk result (λ _. text.new.items ≡ text.old.items ++ item_text item.now) }
{
    for c in item {
        if is_escaped(*c) {
            text.push(b'\\')?;
        }
        text.push(*c)?;
    }
    Ok(())
}
