//! The labels of a name in a message, one after another.
ghost use Rattle.std.specs.Prelude.{◌≡◌, length, Some, IfSome};
ghost use Rattle.std.specs.Iterator.{UpTo, YieldsFirstRef, at_most, item_count};
ghost use Rattle.std.specs.Iterator.SizeHint.{IsWithinCount};
ghost use Rattle.dnw_name_read.specs.Inside.Found.{labels_at, MoreAt, LeadsTo, IsLeftAt};

use crate::walk;
use dnw_base::limits::POINTER_BITS;
use std::marker::Model;

/// An iterator over the labels of a name in a message, from the left (RFC 1035, section 4.1.4). Its length is exact.
/// The labels are lent from the message.
///
/// A contract sees it as the list of the labels that are left.
#[derive(Drop)]
pub struct RefLabels<'a> {
    message: &'a [u8],
    // The offset of the next label, or of a pointer to it.
    position: usize,
    // How many labels are left.
    left: usize,
}

impl<'a> Model for RefLabels<'a> {
    ghost use Rattle.std.specs.Prelude.{List, ℕ};
    ghost use Rattle.dnw_name_read.specs.Inside.Found.{labels_at, IsLeftAt};

    ghost Value = { List (List ℕ) };

    ghost view = { λ it. labels_at it.message.now it.position };

    ghost invariant = { λ it. IsLeftAt it.message.now it.position it.left };
}

impl<'a> RefLabels<'a> {
    /// Creates an iterator over the labels that are read at `start`, `count` of them.
    #[inline(always)]
    pub fn new(message: &'a [u8], start: usize, count: usize) -> Self
        requires { IsLeftAt message.now start count }
        ensures { result ≡ labels_at message.now start }
    {
        RefLabels {
            message,
            position: start,
            left: count,
        }
    }
}

impl<'a> Iterator for RefLabels<'a> {
    type Item = &'a [u8];

    ghost next_gives = { YieldsFirstRef (λ labels. labels) };

    ghost remaining = { item_count (λ labels. labels) };

    fn size_hint(&self) -> (usize, Option<usize>)
        ensures lower { IsWithinCount result.0 (at_most (length self.now)) }
        ensures upper { IfSome result.1 (UpTo (at_most (length self.now))) }
        ensures exact { result ≡ (length self.now, Some (length self.now)) }
    {
        (self.left, Some(self.left))
    }

    #[inline]
    #[tactic(auto, using(crate::proofs::Found::end_more, crate::proofs::Found::label_more))]
    fn next(&mut self) -> Option<&'a [u8]> {
        if self.left == 0 {
            return None;
        }
        let start = follow_pointers(self.message, self.position);
        let end = start + 1 + self.message[start] as usize;
        let label = &self.message[start + 1..end];
        self.position = end;
        self.left -= 1;
        Some(label)
    }
}

impl<'a> ExactSizeIterator for RefLabels<'a> {
    #[inline(always)]
    fn len(&self) -> usize {
        self.left
    }
}

/// Returns the offset that the pointers at `start` lead to: that of a label, or of the end of the name.
#[tactic(auto, using(crate::proofs::Found::pointer_more))]
fn follow_pointers(message: &[u8], start: usize) -> usize
    requires { MoreAt message.now start }
    ensures { LeadsTo message.now start result }
{
    let mut position = start;
    'pointers: while message[position] >= POINTER_BITS {
        position = walk::pointer_target(message[position], message[position + 1]);
    }
    position
}
