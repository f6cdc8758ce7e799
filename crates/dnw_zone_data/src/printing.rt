//! The text of fields.
ghost use Rattle.std.specs.Prelude.{◌≡◌, ◌++◌, ℕ, List, Bool, true, false, [], IfOk, MatchBool, string_bytes};
ghost use Rattle.dnw_data.specs.Values.{seen};
ghost use Rattle.std.specs.Option.{option_map};
ghost use Rattle.dnw_data.specs.Walks.{IsAtEnd};
ghost use Rattle.dnw_zone_data.specs.Inside.Steps.{ReadsNext};
ghost use Rattle.dnw_zone_data.specs.Printing.{Prints, PrintsU16, PrintsU48, PrintsU64, PrintsTime, PrintsCounted, PrintsOctets, PrintsStrings, AppendsFields};
ghost use Rattle.dnw_zone_data.specs.Appending.{Appended, AppendedInPart};

use crate::bitmaps::write_bits;
use crate::gateways::write_shaped;
use crate::name::write_name;
use crate::name_lists::write_names;
use crate::params::write_param_list;
use crate::prefixes::write_prefixes;
use crate::types::{push_type, write_types};
use dnw_data::field::Field;
use dnw_data::fields::Fields;
use dnw_data::kind::{Kind, Shown};
use dnw_zone_values::base32::Base32Hex;
use dnw_zone_values::locator::Locator;
use dnw_zone_values::nsap::Nsap;
use dnw_zone_values::octets::{Base64, Hexadecimal, Salt};
use dnw_zone_values::pairs::Pairs;
use dnw_zone_values::string::CharacterString;
use dnw_zone_values::tag::tag_text;
use dnw_zone_values::time::time_text;
use std::alloc::{AllocError, Global};

/// Appends the text of fields, each after a space. Returns `false` if one cannot be read or has no text.
pub(crate) fn write_fields<'r>(
    alloc: Global,
    kinds: &[Kind],
    fields: &mut Fields<'r>,
    out: &mut String,
) -> Result<bool, AllocError>
    requires kinds { fields.old.kinds ≡ kinds.now }
    ensures { IfOk result (AppendsFields kinds.now fields.old.reader (string_bytes out.old) (string_bytes out.new)) }
{
    let Some((kind, others)) = kinds.split_first() else {
        return Ok(is_ended(fields));
    };
    let Some(field) = next_field(fields) else {
        return Ok(false);
    };
    if !write_field(alloc, *kind, &field, out)? {
        return Ok(false);
    }
    write_fields(alloc, others, fields, out)
}

/// Returns the next field, if it can be read.
pub(crate) fn next_field<'r>(fields: &mut Fields<'r>) -> Option<Field<'r>>
    ensures { ReadsNext fields.old (option_map seen result) fields.new }
{
    let read = fields.next()?;
    read.ok()
}

/// Returns `true` if no octets are left after the last field.
pub(crate) fn is_ended(fields: &mut Fields<'_>) -> bool
    requires kinds { fields.old.kinds ≡ [] }
    ensures { MatchBool result (IsAtEnd fields.old.reader) (¬ (IsAtEnd fields.old.reader)) }
{
    fields.next().is_none()
}

/// Appends the text of a field after a space. Returns `false` if it has none.
fn write_field(
    alloc: Global,
    kind: Kind,
    field: &Field<'_>,
    out: &mut String,
) -> Result<bool, AllocError>
    ensures { IfOk result (Appended (Prints kind (seen field.now)) (string_bytes out.old) (string_bytes out.new)) }
{
    match field {
        Field::Name(name) => {
            out.push(' ')?;
            write_name(name, out)?;
        }
        Field::U8(number) => write!(out, " {number}")?,
        Field::U16(number) => return write_u16(kind, *number, out),
        Field::U32(number) => write!(out, " {number}")?,
        Field::U48(number) => return write_u48(kind, *number, out),
        Field::U64(number) => return write_u64(kind, *number, out),
        Field::Ipv4(address) => write!(out, " {address}")?,
        Field::Ipv6(address) => write!(out, " {address}")?,
        Field::TypeCode(code) => {
            out.push(' ')?;
            push_type(*code, out)?;
        }
        Field::Time(seconds) => write_time(seconds.get(), out)?,
        Field::Counted(octets) => return write_counted(kind, octets, out),
        Field::Octets(octets) => return write_octets(kind, octets, out),
        Field::Texts(items) => return write_strings(items.as_bytes(), out),
        Field::Types(items) => return write_types(items.as_bytes(), out),
        Field::Params(items) => return write_param_list(alloc, items.as_bytes(), out),
        Field::Names(items) => return write_names(items.as_bytes(), out),
        Field::Shaped(own) => return write_shaped(alloc, own.shape(), own.as_bytes(), out),
        Field::Prefixes(items) => return write_prefixes(items.as_bytes(), out),
        Field::LongCounted(_) => return Ok(false),
    }
    Ok(true)
}

/// Appends the text of a number of two octets. Returns `false` if it is an address of Chaosnet.
fn write_u16(kind: Kind, number: u16, out: &mut String) -> Result<bool, AllocError>
    ensures { IfOk result (Appended (PrintsU16 kind number) (string_bytes out.old) (string_bytes out.new)) }
{
    match kind {
        Kind::U16 => write!(out, " {number}")?,
        _ => return Ok(false),
    }
    Ok(true)
}

/// Appends the text of an identifier of six octets. Returns `false` if the number is no identifier.
fn write_u48(kind: Kind, number: u64, out: &mut String) -> Result<bool, AllocError>
    ensures { IfOk result (Appended (PrintsU48 kind number) (string_bytes out.old) (string_bytes out.new)) }
{
    match kind {
        Kind::U48 => write!(out, " {}", Pairs(&number.to_be_bytes()[2..]))?,
        _ => return Ok(false),
    }
    Ok(true)
}

/// Appends the text of a number of eight octets. Returns `false` if it has none.
fn write_u64(kind: Kind, number: u64, out: &mut String) -> Result<bool, AllocError>
    ensures { IfOk result (Appended (PrintsU64 kind number) (string_bytes out.old) (string_bytes out.new)) }
{
    match kind {
        Kind::U64 => write!(out, " {}", Pairs(&number.to_be_bytes()))?,
        Kind::Locator => write!(out, " {}", Locator(number))?,
        Kind::NodeNumber => write!(out, " {number}")?,
        _ => return Ok(false),
    }
    Ok(true)
}

/// Appends the text of a time after a space.
fn write_time(seconds: u32, out: &mut String) -> Result<(), AllocError>
    ensures { IfOk result (λ _. (text : List ℕ) × PrintsTime seconds text × (string_bytes out.new ≡ string_bytes out.old ++ text)) }
{
    out.push(' ')?;
    out.push_str(time_text(seconds).as_str())?;
    Ok(())
}

/// Appends the text of octets that have a length octet before them.
fn write_counted(kind: Kind, octets: &[u8], out: &mut String) -> Result<bool, AllocError>
    ensures { IfOk result (Appended (PrintsCounted kind octets.now) (string_bytes out.old) (string_bytes out.new)) }
{
    match kind {
        Kind::Counted(Shown::Text) => write!(out, " {}", CharacterString(octets))?,
        Kind::Counted(Shown::Hex) => write!(out, " {}", Salt(octets))?,
        Kind::Counted(Shown::Tag) => return write_tag(octets, out),
        Kind::Counted(Shown::Base32Hex) if !octets.is_empty() => {
            write!(out, " {}", Base32Hex(octets))?;
        }
        _ => return Ok(false),
    }
    Ok(true)
}

/// Appends a tag after a space. Returns `false` if the octets are none.
fn write_tag(octets: &[u8], out: &mut String) -> Result<bool, AllocError>
    ensures { IfOk result (Appended (PrintsCounted (Kind.Counted Shown.Tag) octets.now) (string_bytes out.old) (string_bytes out.new)) }
{
    let Some(tag) = tag_text(octets) else {
        return Ok(false);
    };
    write!(out, " {tag}")?;
    Ok(true)
}

/// Appends the text of octets up to the end. Returns `false` if they have none.
fn write_octets(kind: Kind, octets: &[u8], out: &mut String) -> Result<bool, AllocError>
    ensures { IfOk result (Appended (PrintsOctets kind octets.now) (string_bytes out.old) (string_bytes out.new)) }
{
    match kind {
        Kind::Octets(Shown::Text) => write!(out, " {}", CharacterString(octets))?,
        Kind::Octets(Shown::Hex) if !octets.is_empty() => write!(out, " {}", Hexadecimal(octets))?,
        Kind::Octets(Shown::Base64) if !octets.is_empty() => write!(out, " {}", Base64(octets))?,
        Kind::Octets(Shown::Nsap) => write!(out, " {}", Nsap(octets))?,
        Kind::Octets(Shown::Ports) => return write_bits(Shown::Ports, octets, out),
        Kind::Octets(Shown::OldTypes) => return write_bits(Shown::OldTypes, octets, out),
        _ => return Ok(false),
    }
    Ok(true)
}

/// Appends the text of strings, each after a space. Returns `false` if the octets end within one; nothing is changed then.
fn write_strings(octets: &[u8], out: &mut String) -> Result<bool, AllocError>
    ensures { IfOk result (Appended (PrintsStrings octets.now) (string_bytes out.old) (string_bytes out.new)) }
{
    let start = out.len();
    let is_whole = push_strings(octets, out)?;
    if !is_whole {
        out.truncate(start);
    }
    Ok(is_whole)
}

/// Appends the text of strings. Returns `false` if the octets end within one; some may be appended then.
fn push_strings(octets: &[u8], out: &mut String) -> Result<bool, AllocError>
    ensures { IfOk result (AppendedInPart (PrintsStrings octets.now) (string_bytes out.old) (string_bytes out.new)) }
{
    let mut left = octets;
    while let Some((len, rest)) = left.split_first() {
        let Some((string, after)) = rest.split_at_checked(usize::from(*len)) else {
            return Ok(false);
        };
        write!(out, " {}", CharacterString(string))?;
        left = after;
    }
    Ok(true)
}
