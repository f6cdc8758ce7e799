//! The labels of a wire form from the last one.
ghost use Rattle.std.specs.Prelude.{◌≡◌, ◌≤◌, ◌/◌, length, reverse, IsTrue};
ghost use Rattle.std.specs.Iterator.{YieldsFirstRef};
ghost use Rattle.dnw_name_form.specs.Inside.Lengths.{HasLengths};
ghost use Rattle.dnw_name_form.specs.Inside.WireBytes.{closed, labels_of, IsWire};
ghost use Rattle.dnw_name_order.specs.Inside.Lengths.{SplitsBack};

use dnw_name_form::form::WireForm;
use dnw_name_form::lengths::last_lengths;
use dnw_name_form::wire_labels::WireLabels;
use std::marker::Model;

/// Labels from the last one. The lengths of eight are known at a time, so each of these is found at once.
///
/// A contract sees them as the list of the labels that are left, from the last one.
#[derive(Drop)]
pub struct FromLast<'a> {
    // The wire form of what is left, without a closing zero.
    rest: &'a [u8],
    // The lengths of the last labels, the last one in the low octet, or 0 if they are not known.
    lengths: u64,
}

impl<'a> Model for FromLast<'a> {
    ghost use Rattle.std.specs.Prelude.{ℕ, List, reverse};
    ghost use Rattle.dnw_name_form.specs.Inside.Lengths.{HasLengths};
    ghost use Rattle.dnw_name_form.specs.Inside.WireBytes.{closed, labels_of, IsWire};

    ghost Value = { List (List ℕ) };

    ghost view = { λ it. reverse (labels_of (closed it.rest.now)) };

    ghost invariant = { λ it. IsWire (closed it.rest.now) × HasLengths (reverse (labels_of (closed it.rest.now))) it.lengths };
}

impl<'a> FromLast<'a> {
    /// Finds the labels of a wire form.
    #[inline(always)]
    pub(crate) fn new(wire: &'a [u8]) -> Self
        requires { IsWire wire.now }
        ensures { result ≡ reverse (labels_of wire.now) }
    {
        let rest = &wire[..wire.len() - 1];
        FromLast {
            rest,
            lengths: last_lengths(rest),
        }
    }

    /// Finds labels of which the last lengths are known, in the octets of a number as `WireForm::lengths` returns them.
    #[inline(always)]
    pub fn with_lengths(labels: WireLabels<'a>, lengths: u64) -> Self
        requires { HasLengths (reverse labels) lengths }
        ensures { result ≡ reverse labels.entry }
    {
        let wire = labels.as_wire();
        FromLast {
            rest: &wire[..wire.len() - 1],
            lengths,
        }
    }

    /// Finds the labels of a form, most of which are known to it.
    #[inline(always)]
    pub(crate) fn of_form(form: &'a WireForm) -> Self
        ensures { result ≡ reverse form.now }
    {
        FromLast::with_lengths(form.labels(), form.lengths())
    }

    /// Returns `true` if there is a label whose length is known, so that `next` does not walk.
    #[inline(always)]
    pub(crate) fn is_known(&self) -> bool
        ensures { IsTrue result → 1 ≤ length self.now }
    {
        self.lengths != 0
    }

    /// Takes the last label of those that are left.
    #[inline(always)]
    pub(crate) fn next(&mut self) -> Option<&'a [u8]>
        ensures { YieldsFirstRef (λ labels. labels) self.old result self.new }
    {
        let mut lengths = self.lengths;
        if lengths == 0 {
            if self.rest.is_empty() {
                return None;
            }
            lengths = more_lengths(self.rest);
        }
        let (rest, label) = split_last(self.rest, lengths);
        self.rest = rest;
        self.lengths = lengths / 256;
        Some(label)
    }
}

/// Returns the labels before the last one, and the last one, whose length is known.
#[inline(always)]
fn split_last(labels: &[u8], lengths: u64) -> (&[u8], &[u8])
    requires wire { IsWire (closed labels.now) }
    requires lengths { HasLengths (reverse (labels_of (closed labels.now))) lengths }
    requires known { 1 ≤ lengths }
    ensures { SplitsBack labels.now result.0.now result.1.now (lengths / 256) }
{
    let end = labels.len() - (lengths % 256) as usize;
    let (_, label) = labels.split_at(end);
    (&labels[..end - 1], label)
}

/// Returns the lengths as `last_lengths` does. It is a call of its own, since few names have more than eight labels.
#[inline(never)]
fn more_lengths(labels: &[u8]) -> u64
    requires { IsWire (closed labels.now) }
    ensures lengths { HasLengths (reverse (labels_of (closed labels.now))) result }
    ensures some { 1 ≤ length labels.now → 1 ≤ result }
{
    last_lengths(labels)
}
