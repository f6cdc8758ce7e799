//! Copies and edits of labels and names, and names that are read, none of which allocates.

use dns_names_wire::decoder::BinDecoder;
use dns_names_wire::error::{DecodeError, ProtoError, ProtoResult};
use dns_names_wire::label::{IntoLabel, Label};
use dns_names_wire::lower_name::LowerName;
use dns_names_wire::name::Name;
use dns_names_wire::name_ref::{NameRef, ReadSteps};
use std::alloc::Global;
use std::fmt::Display;
use std::io;
use std::io::Write;

/// The scenario of labels.
pub(crate) const LABELS: &str = "labels";

/// The scenario of copies and edits of a `Name`.
pub(crate) const EDITS: &str = "edits";

/// The scenario of copies and edits of a `LowerName`.
pub(crate) const LOWER_EDITS: &str = "edits_lower";

/// The scenario of names that are read.
pub(crate) const READINGS: &str = "readings";

/// `a.`, and `Bb.` before a pointer to it.
const MESSAGE: &[u8] = b"\x01a\x00\x02Bb\xc0\x00";

/// Shows labels that are made, and what copies and edits of `Mail` return.
// labels are made, copied and put in lower case while each growth is refused
pub(crate) fn run_labels<W: Write>(alloc: Global, out: &mut W) -> io::Result<()> {
    let bytes = b"Mail".as_slice();
    let Ok(label) = Label::from_raw_bytes(alloc, bytes) else {
        return writeln!(out, "no label");
    };
    show(out, "from_raw_bytes", Label::from_raw_bytes(alloc, bytes))?;
    show(out, "from_ascii", Label::from_ascii(alloc, "Mail"))?;
    show(out, "clone", label.clone())?;
    show(out, "to_lowercase", label.to_lowercase())?;
    show(out, "into_label of bytes", bytes.into_label(alloc))?;
    show(out, "into_label of a &Label", (&label).into_label(alloc))?;
    show(out, "into_label of a Label", label.into_label(alloc))
}

/// Shows what copies and edits of `Www.Example.Com.` return.
// names are copied and edited while each growth is refused
pub(crate) fn run_edits<W: Write>(alloc: Global, out: &mut W) -> io::Result<()> {
    let Ok(name) = Name::from_ascii(alloc, "Www.Example.Com.") else {
        return writeln!(out, "no name");
    };
    let Ok(other) = Name::from_ascii(alloc, "a.b") else {
        return writeln!(out, "no name");
    };
    run_label_edits(alloc, &name, &other, out)?;
    let label = b"mail".as_slice();
    show(out, "from_labels", Name::from_labels(alloc, [label, label]))?;
    show(
        out,
        "append_name",
        name.clone().and_then(|it| it.append_name(&other)),
    )?;
    show(
        out,
        "append_domain",
        other.clone().and_then(|it| it.append_domain(&name)),
    )?;
    show(out, "clone", name.clone())?;
    show(out, "base_name", name.base_name())?;
    show(out, "trim_to", name.trim_to(1))?;
    show(out, "to_lowercase", name.to_lowercase())?;
    show(out, "into_wildcard", name.into_wildcard())
}

/// Shows two names with the label `mail` after and before them: as bytes, as a label that is lent, and as one that is given.
// labels are put before and after names while each growth is refused
fn run_label_edits<W: Write>(
    alloc: Global,
    name: &Name,
    other: &Name,
    out: &mut W,
) -> io::Result<()> {
    let bytes = b"mail".as_slice();
    let (Ok(label), Ok(given)) = (
        Label::from_raw_bytes(alloc, bytes),
        Label::from_raw_bytes(alloc, bytes),
    ) else {
        return writeln!(out, "no label");
    };
    let longer = other.clone().and_then(|it| it.append_label(alloc, bytes));
    show(out, "append_label of bytes", longer)?;
    let longer = other.clone().and_then(|it| it.append_label(alloc, &label));
    show(out, "append_label of a &Label", longer)?;
    let longer = other.clone().and_then(|it| it.append_label(alloc, given));
    show(out, "append_label of a Label", longer)?;
    let longer = name.prepend_label(alloc, bytes);
    show(out, "prepend_label of bytes", longer)?;
    let longer = name.prepend_label(alloc, &label);
    show(out, "prepend_label of a &Label", longer)?;
    let longer = name.prepend_label(alloc, label);
    show(out, "prepend_label of a Label", longer)
}

/// Shows what copies and edits of `Www.Example.Com.` as a `LowerName` return.
// names in lower case are made, copied and edited while each growth is refused
pub(crate) fn run_lower_edits<W: Write>(alloc: Global, out: &mut W) -> io::Result<()> {
    let Ok(upper) = Name::from_ascii(alloc, "Www.Example.Com.") else {
        return writeln!(out, "no name");
    };
    let Ok(name) = LowerName::from_str(alloc, "Www.Example.Com.") else {
        return writeln!(out, "no name");
    };
    show(out, "new", LowerName::new(&upper))?;
    show(out, "from_name", LowerName::from_name(upper))?;
    show(out, "clone", name.clone())?;
    show(out, "to_name", name.to_name())?;
    show(out, "into_name", name.clone().map(LowerName::into_name))?;
    show(out, "base_name", name.base_name())?;
    show(out, "into_wildcard", name.into_wildcard())
}

/// Shows the name at offset 3 of a message by each call that reads it.
// names are read while each growth is refused
pub(crate) fn run_readings<W: Write>(alloc: Global, out: &mut W) -> io::Result<()> {
    let mut steps = ReadSteps::default();
    let mut decoder = at_name();
    show_read(out, "Name::read", Name::read(alloc, &mut decoder))?;
    let mut decoder = at_name();
    show_read(
        out,
        "Name::read_counted",
        Name::read_counted(alloc, &mut decoder, &mut steps),
    )?;
    let mut decoder = at_name();
    show_read(out, "LowerName::read", LowerName::read(alloc, &mut decoder))?;
    let mut decoder = at_name();
    match NameRef::read(&mut decoder) {
        Ok(name) => show(out, "NameRef::to_name", name.to_name(alloc)),
        Err(error) => writeln!(out, "NameRef::read -> {error};"),
    }
}

/// Returns a decoder of the message at the offset of its second name.
fn at_name() -> BinDecoder<'static> {
    let mut decoder = BinDecoder::new(MESSAGE);
    let _ = decoder.skip(3);
    decoder
}

/// Writes the name that was read, or the error.
fn show_read<T: Display + Drop, W: Write>(
    out: &mut W,
    call: &str,
    read: Result<T, DecodeError>,
) -> io::Result<()> {
    match read {
        Ok(name) => show(out, call, Ok(name)),
        Err(error) => show::<T, W>(out, call, Err(ProtoError::from(error))),
    }
}

/// Writes the label or the name that a call returned, or its error.
fn show<T: Display + Drop, W: Write>(
    out: &mut W,
    call: &str,
    answer: ProtoResult<T>,
) -> io::Result<()> {
    match answer {
        Ok(name) => writeln!(out, "{call} -> {name};"),
        Err(error) => writeln!(out, "{call} -> {error};"),
    }
}
