//! The labels of a wire form from the left, and the wire form of those that are left.
ghost use Rattle.std.specs.Prelude.{◌≡◌, ◌-◌, [], length, drop, Some, IfSome, MatchOption};
ghost use Rattle.std.specs.Iterator.{UpTo, YieldsFirstRef, at_most, item_count};
ghost use Rattle.std.specs.Iterator.SizeHint.{IsWithinCount};
ghost use Rattle.dnw_name_form.specs.Inside.WireBytes.{labels_of, IsWire, SplitsLabel};
ghost use Rattle.dnw_base.specs.Names.{AreLabels, wire};

use std::marker::Model;

/// An iterator over the labels of a wire form, from the left, as their bytes. It returns the wire form of what is left, too.
/// Its length is exact.
///
/// A contract sees it as the list of the labels that are left.
#[derive(Drop)]
pub struct WireLabels<'a> {
    // The wire form of what is left.
    rest: &'a [u8],
}

impl<'a> Model for WireLabels<'a> {
    ghost use Rattle.std.specs.Prelude.{ℕ, List};
    ghost use Rattle.dnw_name_form.specs.Inside.WireBytes.{labels_of, IsWire};

    ghost Value = { List (List ℕ) };

    ghost view = { λ it. labels_of it.rest.now };

    ghost invariant = { λ it. IsWire it.rest.now };
}

impl<'a> WireLabels<'a> {
    /// Creates an iterator over the labels of a wire form.
    #[inline(always)]
    pub fn new(wire: &'a [u8]) -> Self
        requires { IsWire wire.now }
        ensures { result ≡ labels_of wire.now }
    {
        WireLabels { rest: wire }
    }

    /// Returns the wire form of the labels that are left, with its closing zero (RFC 1035, section 3.1).
    #[inline(always)]
    pub fn as_wire(&self) -> &'a [u8]
        ensures form { result.now ≡ wire self.now }
        ensures labels { AreLabels self.now }
    {
        self.rest
    }

    /// Copies the iterator.
    #[inline(always)]
    pub fn clone(&self) -> Self
        ensures same { result ≡ self.now }
        ensures labels { AreLabels self.now }
    {
        WireLabels { rest: self.rest }
    }
}

impl<'a> Iterator for WireLabels<'a> {
    type Item = &'a [u8];

    ghost next_gives = { YieldsFirstRef (λ labels. labels) };

    ghost remaining = { item_count (λ labels. labels) };

    fn size_hint(&self) -> (usize, Option<usize>)
        ensures lower { IsWithinCount result.0 (at_most (length self.now)) }
        ensures upper { IfSome result.1 (UpTo (at_most (length self.now))) }
        ensures exact { result ≡ (length self.now, Some (length self.now)) }
    {
        let left = count_labels(self.rest);
        (left, Some(left))
    }

    #[inline]
    fn next(&mut self) -> Option<&'a [u8]> {
        let (label, rest) = split_label(self.rest)?;
        self.rest = rest;
        Some(label)
    }
}

impl<'a> ExactSizeIterator for WireLabels<'a> {
    fn len(&self) -> usize {
        count_labels(self.rest)
    }
}

/// Returns the last `count` labels, or all if there are fewer.
pub fn last_labels(labels: WireLabels<'_>, count: usize) -> WireLabels<'_>
    ensures { result ≡ drop (length labels.entry - count) labels.entry }
{
    let passed = labels.len().saturating_sub(count);
    without_first(labels, passed)
}

/// Returns the labels after the first `count`.
pub(crate) fn without_first(mut labels: WireLabels<'_>, count: usize) -> WireLabels<'_>
    ensures { result ≡ drop count labels.entry }
{
    'passed: for _ in 0..count {
        let _passed = labels.next();
    }
    labels
}

/// Returns the number of labels of a wire form.
#[tactic(auto, using(crate::proofs::Wires::few_labels_of))]
fn count_labels(wire: &[u8]) -> usize
    requires { IsWire wire.now }
    ensures { result ≡ length (labels_of wire.now) }
{
    let mut count = 0;
    let mut rest = wire;
    while let Some((_, others)) = split_label(rest) {
        count += 1;
        rest = others;
    }
    count
}

/// Returns the first label of a wire form, and the wire form of the others. There is a first octet, so no length is tested.
#[inline(always)]
fn split_label(wire: &[u8]) -> Option<(&[u8], &[u8])>
    requires { IsWire wire.now }
    ensures { MatchOption result (labels_of wire.now ≡ []) (λ split. SplitsLabel wire.now split.0.now split.1.now) }
{
    let len = wire[0] as usize;
    if len == 0 {
        return None;
    }
    let (_, rest) = wire.split_at(1);
    Some(rest.split_at(len))
}
