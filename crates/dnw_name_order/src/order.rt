//! The order, equality and hash of the labels of names, and which are the last ones of others.
ghost use Rattle.std.specs.Prelude.{◌≡◌, ℕ, ◌↔◌, if◌then◌else◌, List, [], ◌∷◌, ◌++◌, ◌≤◌, min, length, reverse, take, fold, IsTrue};
ghost use Rattle.std.specs.Cmp.Lexicographic.{slice_cmp};
ghost use Rattle.std.specs.Ordering.{nat_cmp};
ghost use Rattle.dnw_base.specs.Names.{encoded_size, lower, wire};
ghost use Rattle.dnw_name_order.specs.Order.{labels_cmp, labels_cmp_by, labels_cmp_case, name_hash_input, IsZoneOfCase, IsZoneOf};

use crate::from_last::FromLast;
use arrayvec::ArrayVec;
use dnw_base::limits::MAX_NAME;
use dnw_name_form::form::WireForm;
use dnw_name_form::fours::has_same_four;
use dnw_name_form::label::{CaseInsensitive, CaseSensitive, LabelCmp};
use dnw_name_form::wire_labels::WireLabels;
use std::cmp::Ordering;
use std::hash::Hasher;

/// The most bytes that a name is hashed as: its wire form and its flag.
const HASHED: usize = MAX_NAME + 1;

/// Compares labels from the last one, ignoring ASCII case (RFC 4034, section 6.1).
pub fn cmp_labels(left: WireLabels<'_>, right: WireLabels<'_>) -> Ordering
    ensures { result ≡ labels_cmp left.entry right.entry }
{
    cmp_labels_by::<CaseInsensitive>(left, right)
}

/// Compares labels from the last one, with capitals as they are.
pub fn cmp_labels_case(left: WireLabels<'_>, right: WireLabels<'_>) -> Ordering
    ensures { result ≡ labels_cmp_case left.entry right.entry }
{
    cmp_labels_by::<CaseSensitive>(left, right)
}

/// Compares the labels of two forms as `cmp_labels` does. There is no walk while the lengths of the last labels are known to both.
pub fn cmp_forms(left: &WireForm, right: &WireForm) -> Ordering
    ensures { result ≡ labels_cmp left.now right.now }
{
    cmp_from_last::<CaseInsensitive>(FromLast::of_form(left), FromLast::of_form(right))
}

/// Compares the labels of two forms as `cmp_labels_case` does. There is no walk while the lengths of the last labels are known to
/// both.
pub fn cmp_forms_case(left: &WireForm, right: &WireForm) -> Ordering
    ensures { result ≡ labels_cmp_case left.now right.now }
{
    cmp_from_last::<CaseSensitive>(FromLast::of_form(left), FromLast::of_form(right))
}

/// Compares labels, which stand from the last one on, as `cmp_labels` does. There is no walk while the lengths of the last ones are
/// known to both.
#[inline(always)]
pub fn cmp_labels_from_last(left: FromLast<'_>, right: FromLast<'_>) -> Ordering
    ensures { result ≡ labels_cmp (reverse left.entry) (reverse right.entry) }
{
    cmp_from_last::<CaseInsensitive>(left, right)
}

/// Compares labels from the last one, and their bytes as `F` does. Labels come before those that end in them.
fn cmp_labels_by<F: LabelCmp>(left: WireLabels<'_>, right: WireLabels<'_>) -> Ordering
    requires { (n : ℕ) → F.order n n ≡ Ordering.Equal }
    ensures { result ≡ labels_cmp_by F.order left.entry right.entry }
{
    let lefts = FromLast::new(left.as_wire());
    let rights = FromLast::new(right.as_wire());
    cmp_from_last::<F>(lefts, rights)
}

/// Compares labels as `cmp_labels_by` does, without a walk as long as the lengths of the last ones are known.
#[inline(always)]
fn cmp_from_last<F: LabelCmp>(mut lefts: FromLast<'_>, mut rights: FromLast<'_>) -> Ordering
    requires { (n : ℕ) → F.order n n ≡ Ordering.Equal }
    ensures { result ≡ slice_cmp (slice_cmp F.order) lefts.entry rights.entry }
{
    'labels: while lefts.is_known() && rights.is_known() {
        let Some(left) = lefts.next() else { break };
        let Some(right) = rights.next() else {
            return Ordering::Greater;
        };
        let order = cmp_label::<F>(left, right);
        if order.is_ne() {
            return order;
        }
    }
    cmp_others::<F>(lefts, rights)
}

/// Compares labels as `cmp_labels_by` does. It is a call of its own, since most names differ in labels whose lengths are known.
#[inline(never)]
fn cmp_others<F: LabelCmp>(mut lefts: FromLast<'_>, mut rights: FromLast<'_>) -> Ordering
    requires { (n : ℕ) → F.order n n ≡ Ordering.Equal }
    ensures { result ≡ slice_cmp (slice_cmp F.order) lefts.entry rights.entry }
{
    'labels: while let Some(left) = lefts.next() {
        let Some(right) = rights.next() else {
            return Ordering::Greater;
        };
        let order = cmp_label::<F>(left, right);
        if order.is_ne() {
            return order;
        }
    }
    if rights.next().is_none() {
        Ordering::Equal
    } else {
        Ordering::Less
    }
}

/// Compares the bytes of two labels, or of two wire forms, as `F` does. Those of one length are often the same.
#[inline(always)]
fn cmp_label<F: LabelCmp>(left: &[u8], right: &[u8]) -> Ordering
    requires { (n : ℕ) → F.order n n ≡ Ordering.Equal }
    ensures { result ≡ slice_cmp F.order left.now right.now }
{
    if left.len() == right.len() {
        cmp_from::<F>(left, right, same_fours(left, right))
    } else {
        cmp_from::<F>(left, right, 0)
    }
}

/// Returns a number of octets at the front of labels of one length which are the same, found four at a time.
#[inline(always)]
fn same_fours(left: &[u8], right: &[u8]) -> usize
    requires { length left.now ≡ length right.now }
    ensures within { result ≤ length left.now }
    ensures same { take result left.now ≡ take result right.now }
{
    let mut end = 0;
    'fours: while left.len() - end >= 4 && has_same_four(left, right, end) {
        end += 4;
    }
    end
}

/// Compares the bytes of two labels as `F` does. The first ones are the same, so many.
#[inline(always)]
fn cmp_from<F: LabelCmp>(left: &[u8], right: &[u8], start: usize) -> Ordering
    requires same { take start left.now ≡ take start right.now }
    requires within { start ≤ min (length left.now) (length right.now) }
    requires reflexive { (n : ℕ) → F.order n n ≡ Ordering.Equal }
    ensures { result ≡ slice_cmp F.order left.now right.now }
{
    for i in start..left.len().min(right.len()) {
        let order = F::cmp_u8(left[i], right[i]);
        if order.is_ne() {
            return order;
        }
    }
    cmp_lengths(left.len(), right.len())
}

/// Compares two lengths. Each result is a branch of its own, so that a caller that asks for it asks no second time.
#[inline(always)]
pub(crate) fn cmp_lengths(left: usize, right: usize) -> Ordering
    ensures { result ≡ nat_cmp left right }
{
    if left == right {
        Ordering::Equal
    } else if left < right {
        Ordering::Less
    } else {
        Ordering::Greater
    }
}

/// Returns `true` if the labels are equal, ignoring ASCII case (RFC 4343).
pub fn eq_labels(left: WireLabels<'_>, right: WireLabels<'_>) -> bool
    ensures { IsTrue result ↔ (lower left.entry ≡ lower right.entry) }
{
    let left = left.as_wire();
    let right = right.as_wire();
    if left.len() != right.len() {
        return false;
    }
    // Length octets are no letters.
    cmp_label::<CaseInsensitive>(left, right).is_eq()
}

/// Returns `true` if the labels are equal, with capitals as they are.
pub fn eq_labels_case(left: WireLabels<'_>, right: WireLabels<'_>) -> bool
    ensures { IsTrue result ↔ (left.entry ≡ right.entry) }
{
    left.as_wire() == right.as_wire()
}

/// Returns `true` if the last labels are those of the zone, ignoring ASCII case (RFC 1034, section 4.2, and RFC 4343).
pub fn is_zone_of(zone: WireLabels<'_>, labels: WireLabels<'_>) -> bool
    ensures { IsTrue result ↔ IsZoneOf zone.entry labels.entry }
{
    eq_labels(last_octets(labels, zone.as_wire().len()), zone)
}

/// Returns `true` if the last labels are those of the zone, with capitals as they are.
pub fn is_zone_of_case(zone: WireLabels<'_>, labels: WireLabels<'_>) -> bool
    ensures { IsTrue result ↔ IsZoneOfCase zone.entry labels.entry }
{
    eq_labels_case(last_octets(labels, zone.as_wire().len()), zone)
}

/// Returns the last labels whose wire form has `size` octets, or fewer if there are none.
fn last_octets(mut labels: WireLabels<'_>, size: usize) -> WireLabels<'_>
    ensures last { (front : List (List ℕ)) × (labels.entry ≡ front ++ result) }
    ensures size { (front rest : List (List ℕ)) → labels.entry ≡ front ++ rest → encoded_size rest ≡ size → result ≡ rest }
{
    'passed: while labels.as_wire().len() > size {
        let Some(_) = labels.next() else {
            return labels;
        };
    }
    labels
}

/// Feeds a name to a hasher: its wire form in lower case, and whether it is fully qualified.
pub fn hash_name<H: Hasher>(is_fqdn: bool, labels: WireLabels<'_>, state: &mut H)
    ensures { state.new ≡ fold H.write state.old (name_hash_input (record { is_fqdn = is_fqdn; labels = labels.entry })) }
{
    state.write(hashed(is_fqdn, labels).as_slice());
}

/// Returns the bytes that a name is hashed as.
#[inline(always)]
fn hashed(is_fqdn: bool, labels: WireLabels<'_>) -> ArrayVec<u8, HASHED>
    ensures { result.items ≡ wire (lower labels.entry) ++ (if is_fqdn then 1 else 0) ∷ [] }
{
    let mut bytes = ArrayVec::new();
    bytes.try_extend_from_slice(labels.as_wire()).unwrap();
    // Length octets are no letters.
    bytes.as_mut_slice().make_ascii_lowercase();
    bytes.push(u8::from(is_fqdn));
    bytes
}
