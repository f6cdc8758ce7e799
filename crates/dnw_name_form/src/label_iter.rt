//! The labels of a name, from both ends.
ghost use Rattle.std.specs.Prelude.{◌≡◌, length, Some, IfSome};
ghost use Rattle.std.specs.Iterator.{UpTo, YieldsFirstRef, YieldsLastRef, at_most, item_count};
ghost use Rattle.std.specs.Iterator.SizeHint.{IsWithinCount};
ghost use Rattle.dnw_name_form.specs.Inside.WireBytes.{labels_of, IsWire};

use crate::wire_labels::{WireLabels, without_first};
use std::marker::Model;

/// An iterator over the labels of a name, from the left or from the right, as their bytes. Its length is exact.
///
/// The next label from the left is found at once. One from the right takes a walk over the labels that are left, and so
/// does the iterator's creation.
///
/// A contract sees it as the list of the labels that are left.
#[derive(Drop)]
pub struct LabelIter<'a> {
    labels: WireLabels<'a>,
    // How many of them are left: the first ones.
    left: usize,
}

impl<'a> Model for LabelIter<'a> {
    ghost use Rattle.std.specs.Prelude.{ℕ, ◌≤◌, List, length, take};

    ghost Value = { List (List ℕ) };

    ghost view = { λ it. take it.left it.labels };

    ghost invariant = { λ it. it.left ≤ length it.labels };
}

impl<'a> LabelIter<'a> {
    /// Creates an iterator over the labels of a wire form.
    #[inline(always)]
    pub fn new(wire: &'a [u8]) -> Self
        requires { IsWire wire.now }
        ensures { result ≡ labels_of wire.now }
    {
        let labels = WireLabels::new(wire);
        let left = labels.len();
        LabelIter { labels, left }
    }

    /// Copies the iterator.
    #[inline(always)]
    pub fn clone(&self) -> Self
        ensures { result ≡ self.now }
    {
        LabelIter {
            labels: self.labels.clone(),
            left: self.left,
        }
    }
}

impl<'a> Iterator for LabelIter<'a> {
    type Item = &'a [u8];

    ghost next_gives = { YieldsFirstRef (λ labels. labels) };

    ghost remaining = { item_count (λ labels. labels) };

    fn size_hint(&self) -> (usize, Option<usize>)
        ensures lower { IsWithinCount result.0 (at_most (length self.now)) }
        ensures upper { IfSome result.1 (UpTo (at_most (length self.now))) }
        ensures exact { result ≡ (length self.now, Some (length self.now)) }
    {
        (self.left, Some(self.left))
    }

    #[inline]
    fn next(&mut self) -> Option<&'a [u8]> {
        if self.left == 0 {
            return None;
        }
        self.left -= 1;
        self.labels.next()
    }
}

impl<'a> DoubleEndedIterator for LabelIter<'a> {
    ghost next_back_gives = { YieldsLastRef (λ labels. labels) };

    fn next_back(&mut self) -> Option<&'a [u8]> {
        if self.left == 0 {
            return None;
        }
        self.left -= 1;
        without_first(self.labels.clone(), self.left).next()
    }
}

impl<'a> ExactSizeIterator for LabelIter<'a> {
    #[inline(always)]
    fn len(&self) -> usize {
        self.left
    }
}
