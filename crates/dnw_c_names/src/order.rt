//! Names compared, by their wire forms.
ghost use Rattle.std.specs.Prelude.{◌≡◌, ◌↔◌, reverse, IsTrue, IfOk, IfErr};
ghost use Rattle.dnw_base.specs.Limits.{max_name};
ghost use Rattle.dnw_base.specs.Names.{lower, wire};
ghost use Rattle.dnw_name_order.specs.Order.{labels_cmp, IsZoneOf};
ghost use Rattle.dnw_c_base.specs.Results.{Returns};
ghost use Rattle.dnw_c_base.specs.Signs.{sign};
ghost use Rattle.dnw_c_base.specs.WireForms.{IsFormOf, IsNoForm};
ghost use Rattle.dnw_c_names.specs.NameCalls.{FailsAsForms, OfForms, PutsOfForm};

use crate::names::put_form;
use crate::wire_form::{labels_from_last, labels_of};
use dnw_c_base::failure::Failure;
use dnw_c_base::names::name_ref_at;
use dnw_c_base::results::report;
use dnw_c_base::sign::sign_of;
use dnw_name::name::Name;
use dnw_name_form::wire_labels::WireLabels;
use dnw_name_order::from_last::FromLast;
use dnw_name_order::order;
use std::alloc::Global;

/// Compares two names in canonical order, and puts -1, 0 or 1.
#[unsafe(no_mangle)]
pub extern "C" fn dnw_name_compare(left: &[u8], right: &[u8], order: &mut i32) -> u32
    ensures { Returns (OfForms (λ a b order. order ≡ sign (labels_cmp a b)) left.now right.now) order.old order.new result }
{
    let both = both_from_last(left, right);
    let sign = both.map(|(left, right)| sign_of(order::cmp_labels_from_last(left, right)));
    report(sign, order)
}

/// Puts whether two names are equal, ignoring ASCII case.
#[unsafe(no_mangle)]
pub extern "C" fn dnw_name_equal(left: &[u8], right: &[u8], is_equal: &mut bool) -> u32
    ensures { Returns (OfForms (λ a b is_equal. IsTrue is_equal ↔ (lower a ≡ lower b)) left.now right.now) is_equal.old is_equal.new result }
{
    let equal = both_labels(left, right).map(|(left, right)| order::eq_labels(left, right));
    report(equal, is_equal)
}

/// Puts whether a name is in a zone, ignoring ASCII case.
#[unsafe(no_mangle)]
pub extern "C" fn dnw_name_in_zone(name: &[u8], zone: &[u8], is_in_zone: &mut bool) -> u32
    ensures { Returns (OfForms (λ a b is_in. IsTrue is_in ↔ IsZoneOf b a) name.now zone.now) is_in_zone.old is_in_zone.new result }
{
    let is_in = both_labels(name, zone).map(|(name, zone)| order::is_zone_of(zone, name));
    report(is_in, is_in_zone)
}

/// Puts the wire form of a name in lower case, and its length.
#[unsafe(no_mangle)]
pub extern "C" fn dnw_name_to_lowercase(
    alloc: Global,
    form: &[u8],
    lowered: &mut [u8],
    len: &mut usize,
) -> u32
    ensures { Returns (PutsOfForm max_name (λ labels. wire (lower labels)) form.now lowered.old lowered.new) len.old len.new result }
{
    report(lower_form(alloc, form, lowered), len)
}

/// Puts the wire form of a name in lower case.
fn lower_form(alloc: Global, form: &[u8], lowered: &mut [u8]) -> Result<usize, Failure>
    ensures { PutsOfForm max_name (λ labels. wire (lower labels)) form.now lowered.old lowered.new result }
{
    let name = name_of(alloc, form)?;
    put_form(lowered, &name.to_lowercase()?)
}

/// Returns the name with a wire form.
#[inline(always)]
pub(crate) fn name_of(alloc: Global, form: &[u8]) -> Result<Name, Failure>
    ensures ok { IfOk result (λ name. IsTrue name.is_fqdn × IsFormOf form.now name.labels) }
    ensures err { IfErr result (IsNoForm form.now) }
{
    let (name, end) = name_ref_at(form, 0)?;
    if end != form.len() {
        return Err(Failure::BytesLeft);
    }
    Ok(name.to_name(alloc).unwrap())
}

/// Returns the labels of two wire forms.
#[inline(always)]
fn both_labels<'a>(
    left: &'a [u8],
    right: &'a [u8],
) -> Result<(WireLabels<'a>, WireLabels<'a>), Failure>
    ensures ok { IfOk result (λ both. IsFormOf left.now both.0 × IsFormOf right.now both.1) }
    ensures err { IfErr result (FailsAsForms left.now right.now) }
{
    let left = labels_of(left)?;
    let right = labels_of(right)?;
    Ok((left, right))
}

/// Returns the labels of two wire forms from the last one.
#[inline(always)]
fn both_from_last<'a>(
    left: &'a [u8],
    right: &'a [u8],
) -> Result<(FromLast<'a>, FromLast<'a>), Failure>
    ensures ok { IfOk result (λ both. IsFormOf left.now (reverse both.0) × IsFormOf right.now (reverse both.1)) }
    ensures err { IfErr result (FailsAsForms left.now right.now) }
{
    let left = labels_from_last(left)?;
    let right = labels_from_last(right)?;
    Ok((left, right))
}

/// Returns the names with two wire forms.
#[inline(always)]
pub(crate) fn both_names(alloc: Global, left: &[u8], right: &[u8]) -> Result<(Name, Name), Failure>
    ensures ok { IfOk result (λ names. IsTrue names.0.is_fqdn × IsTrue names.1.is_fqdn × IsFormOf left.now names.0.labels × IsFormOf right.now names.1.labels) }
    ensures err { IfErr result (FailsAsForms left.now right.now) }
{
    let left = name_of(alloc, left)?;
    let right = name_of(alloc, right)?;
    Ok((left, right))
}
