//! Names changed, by their wire forms.
ghost use Rattle.dnw_name_form.specs.Edits.{into_wildcard, prepend_label, trim_to};
ghost use Rattle.dnw_name_form.specs.LabelText.{label_from_bytes};
ghost use Rattle.dnw_c_base.specs.Results.{Returns};
ghost use Rattle.dnw_c_names.specs.NameEdits.{PutsAppended, PutsEdited, PutsName, PutsOfName};

use crate::names::put_form;
use crate::order::{both_names, name_of};
use dnw_c_base::failure::Failure;
use dnw_c_base::results::report;
use std::alloc::Global;

/// Puts the wire form of a name with the labels of another after its own, and its length.
#[unsafe(no_mangle)]
pub extern "C" fn dnw_name_append(
    alloc: Global,
    name: &[u8],
    suffix: &[u8],
    form: &mut [u8],
    len: &mut usize,
) -> u32
    ensures { Returns (PutsAppended name.now suffix.now form.old form.new) len.old len.new result }
{
    report(append(alloc, name, suffix, form), len)
}

/// Puts the wire form of a name with a label before its own, and its length.
#[unsafe(no_mangle)]
pub extern "C" fn dnw_name_prepend_label(
    alloc: Global,
    label: &[u8],
    name: &[u8],
    form: &mut [u8],
    len: &mut usize,
) -> u32
    ensures { Returns (PutsOfName (λ n. PutsEdited (prepend_label n (label_from_bytes label.now))) name.now form.old form.new)
        len.old len.new result }
{
    report(prepend(alloc, label, name, form), len)
}

/// Puts the wire form of the last labels of a name, so many of them, and its length. If there are fewer, it puts the name.
#[unsafe(no_mangle)]
pub extern "C" fn dnw_name_trim(
    alloc: Global,
    name: &[u8],
    labels: usize,
    form: &mut [u8],
    len: &mut usize,
) -> u32
    ensures { Returns (PutsOfName (λ n. PutsName (trim_to n labels)) name.now form.old form.new) len.old len.new result }
{
    report(trim(alloc, name, labels, form), len)
}

/// Puts the wire form of a name with `*` in place of its first label, and its length. The root stays the root.
#[unsafe(no_mangle)]
pub extern "C" fn dnw_name_to_wildcard(
    alloc: Global,
    name: &[u8],
    form: &mut [u8],
    len: &mut usize,
) -> u32
    ensures { Returns (PutsOfName (λ n. PutsName (into_wildcard n)) name.now form.old form.new) len.old len.new result }
{
    report(wildcard(alloc, name, form), len)
}

/// Puts a name with the labels of another after its own.
fn append(alloc: Global, name: &[u8], suffix: &[u8], form: &mut [u8]) -> Result<usize, Failure>
    ensures { PutsAppended name.now suffix.now form.old form.new result }
{
    let (name, suffix) = both_names(alloc, name, suffix)?;
    put_form(form, &name.append_name(&suffix)?)
}

/// Puts a name with a label before its own.
fn prepend(alloc: Global, label: &[u8], name: &[u8], form: &mut [u8]) -> Result<usize, Failure>
    ensures { PutsOfName (λ n. PutsEdited (prepend_label n (label_from_bytes label.now))) name.now form.old form.new result }
{
    let name = name_of(alloc, name)?;
    put_form(form, &name.prepend_label(alloc, label)?)
}

/// Puts the last labels of a name.
fn trim(alloc: Global, name: &[u8], labels: usize, form: &mut [u8]) -> Result<usize, Failure>
    ensures { PutsOfName (λ n. PutsName (trim_to n labels)) name.now form.old form.new result }
{
    let name = name_of(alloc, name)?;
    put_form(form, &name.trim_to(labels)?)
}

/// Puts a name with `*` in place of its first label.
fn wildcard(alloc: Global, name: &[u8], form: &mut [u8]) -> Result<usize, Failure>
    ensures { PutsOfName (λ n. PutsName (into_wildcard n)) name.now form.old form.new result }
{
    let name = name_of(alloc, name)?;
    put_form(form, &name.into_wildcard()?)
}
