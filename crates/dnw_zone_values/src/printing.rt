//! The text of parameters (RFC 9460, section 2.1).
ghost use Rattle.std.specs.Prelude.{◌≡◌, ◌≤◌, ◌++◌, IfOk, OnErr, length, string_bytes, Some};
ghost use Rattle.dnw_zone_values.specs.ParamTexts.{param_text, params_text, own_part, any_part};
ghost use Rattle.dnw_zone_values.specs.Inside.Steps.{PushesValue, WritesValue};

use crate::keys::{Form, Key, form_of};
use crate::lists::split_u16;
use crate::param::MAX_VALUE;
use crate::string::CharacterString;
use crate::values::own_text;
use std::alloc::{AllocError, Global};
use std::{fmt, str};

/// Appends the text of parameters, each after a space, in the order of their octets. Returns `false` if the octets end within
/// one; nothing is changed then. It fails only if there are octets and it runs out of memory.
///
/// A value that does not have the form of its key is printed as that of any key is, as `key3="\000"`.
pub fn write_params(alloc: Global, octets: &[u8], out: &mut String) -> Result<bool, AllocError>
    ensures ok { IfOk result (WritesValue (params_text octets.now) (string_bytes out.old) (string_bytes out.new)) }
    ensures err { OnErr result (1 ≤ length octets.now) }
{
    let start = out.len();
    let is_whole = push_each(alloc, octets, out)?;
    if !is_whole {
        out.truncate(start);
    }
    Ok(is_whole)
}

/// Appends the text of parameters. Returns `false` if the octets end within one; some text may be appended then.
fn push_each(alloc: Global, octets: &[u8], out: &mut String) -> Result<bool, AllocError>
    ensures ok { IfOk result (PushesValue (params_text octets.now) (string_bytes out.old) (string_bytes out.new)) }
    ensures err { OnErr result (1 ≤ length octets.now) }
{
    let mut left = octets;
    while let Some((key, rest)) = split_u16(left) {
        let Some((len, rest)) = split_u16(rest) else {
            return Ok(false);
        };
        let Some((own, after)) = rest.split_at_checked(usize::from(len)) else {
            return Ok(false);
        };
        out.push(' ')?;
        write_param(alloc, key, own, out)?;
        left = after;
    }
    Ok(left.is_empty())
}

/// Appends the text of a parameter.
fn write_param(alloc: Global, key: u16, octets: &[u8], out: &mut String) -> Result<(), AllocError>
    ensures { IfOk result (λ _. string_bytes out.new ≡ string_bytes out.old ++ param_text key octets.now) }
{
    let form = form_of(key);
    match own_text(alloc, form, octets)? {
        Some(text) if text.len() <= MAX_VALUE => {
            write!(out, "{}", Key(key))?;
            write_own(form, text.as_slice(), out)
        }
        _ => {
            write!(out, "key{key}")?;
            write_any(octets, out)
        }
    }
}

/// Appends a value of a form.
fn write_own(form: Form, text: &[u8], out: &mut String) -> Result<(), AllocError>
    ensures { IfOk result (λ _. string_bytes out.new ≡ string_bytes out.old ++ own_part form text.now) }
{
    match form {
        Form::Protocols => write_any(text, out),
        Form::Nothing => Ok(()),
        _ => write!(out, "={}", Plain(text)),
    }
}

/// Appends a value of any octets, in quotes. It appends nothing if there are none.
fn write_any(octets: &[u8], out: &mut String) -> Result<(), AllocError>
    ensures { IfOk result (λ _. string_bytes out.new ≡ string_bytes out.old ++ any_part octets.now) }
{
    if octets.is_empty() {
        return Ok(());
    }
    write!(out, "={}", CharacterString(octets))
}

/// Octets that are text.
#[derive(Clone, Copy)]
struct Plain<'a>(&'a [u8]);

impl fmt::Display for Plain<'_> {
    ghost output = { λ text. Some text.0.now };

    fn fmt<W: fmt::Write>(&self, f: &mut fmt::Formatter<W>) -> fmt::Result {
        f.write_str(str::from_utf8(self.0).map_err(|_| fmt::Error)?)
    }
}
