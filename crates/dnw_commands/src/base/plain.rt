//! Words and names of files, as they are printed.
ghost use Rattle.std.specs.Prelude.{◌≡◌, ◌++◌, IfOk};
ghost use Rattle.std.specs.String.{string_bytes};
ghost use Rattle.dnw_commands.specs.Plain.{escaped_octet, escaped_text};

use std::alloc::{AllocError, Global};

/// Returns a text in which three decimal digits after a backslash stand for each octet that is not printable ASCII, so that it has no
/// character for control, none that changes the direction of text, and no end of a line.
pub(crate) fn plain(alloc: Global, text: &str) -> Result<String, AllocError>
    ensures { IfOk result (λ shown. string_bytes shown ≡ escaped_text text.now) }
{
    let mut shown = String::new(alloc);
    push_plain(text.as_bytes(), &mut shown)?;
    Ok(shown)
}

/// Appends octets, each as it is printed.
#[tactic(auto, using(crate::proofs::Plain::one_octet, crate::proofs::Plain::no_octet))]
fn push_plain(octets: &[u8], shown: &mut String) -> Result<(), AllocError>
    ensures { IfOk result (λ _. string_bytes shown.new ≡ string_bytes shown.old ++ escaped_text octets.now) }
{
    let mut left = octets;
    'octets: while let [octet, rest @ ..] = left {
        push_octet(*octet, shown)?;
        left = rest;
    }
    Ok(())
}

/// Appends an octet, and three decimal digits after a backslash if it is not printable ASCII.
pub(crate) fn push_octet(octet: u8, shown: &mut String) -> Result<(), AllocError>
    ensures { IfOk result (λ _. string_bytes shown.new ≡ string_bytes shown.old ++ escaped_octet octet) }
{
    if b' ' <= octet && octet <= b'~' {
        return shown.push(char::from(octet));
    }
    shown.push('\\')?;
    shown.push(char::from(b'0' + octet / 100))?;
    shown.push(char::from(b'0' + octet / 10 % 10))?;
    shown.push(char::from(b'0' + octet % 10))
}
