//! Lists of items.
ghost use Rattle.std.specs.Prelude.{◌≡◌, ℕ, ◌+◌, ◌<◌, ◌≤◌, ◌^◌, List, length, OnOk, OnErr};
ghost use Rattle.std.specs.Iterator.{IsFinite, size};
ghost use Rattle.dnw_base.specs.declared.error.ProtoError.{ProtoError};
ghost use Rattle.dnw_write.specs.Emitting.{EmitsItem, EmitsItems, list_error};

use super::BinEncoder;
use crate::binary::BinEncodable;
use dnw_base::error::{ProtoError, ProtoResult};

/// Returns the error of a list whose next item failed after `count` were written.
fn list_error(count: usize, error: ProtoError) -> ProtoError
    ensures { result ≡ list_error count error }
{
    match error {
        ProtoError::MaxBufferSizeExceeded(_) => ProtoError::NotAllRecordsWritten { count },
        other => other,
    }
}

impl<'a> BinEncoder<'a> {
    ghost use Rattle.dnw_write.specs.EncoderValue.{value, lender};

    /// Writes the items in turn, and returns their number. The first one that fails is rolled back, whatever the error,
    /// and those after it stay in the iterator. The items may be values or references.
    ///
    /// If an item goes past the maximum size, the error is `NotAllRecordsWritten` with the number of the items before it.
    /// The offset must be the buffer's end, and the iterator must end.
    pub fn emit_iter<I: Iterator<Item = E>, E: BinEncodable + Drop>(
        &mut self,
        iter: &mut I,
    ) -> ProtoResult<usize>
        requires at_end { (value self.old).offset ≡ length (value self.old).bytes }
        requires can { I.can_next iter.old }
        requires ends { IsFinite (I.remaining iter.old) }
        requires fits { size (I.remaining iter.old) < 2 ^ 64 }
        ensures items { EmitsItems E.emits I.next_gives iter.old (value self.old) result (value self.new) iter.new }
        ensures at_end { (value self.new).offset ≡ length (value self.new).bytes }
        ensures lender { lender self.new ≡ lender self.old }
    {
        let mut count = 0;
        while let Some(item) = iter.next() {
            self.emit_item(&item, count)?;
            count += 1;
        }
        Ok(count)
    }

    /// Writes the items in turn, as `emit_iter` does.
    pub fn emit_all<I: Iterator<Item = E>, E: BinEncodable + Drop>(
        &mut self,
        mut iter: I,
    ) -> ProtoResult<usize>
        requires at_end { (value self.old).offset ≡ length (value self.old).bytes }
        requires can { I.can_next iter }
        requires ends { IsFinite (I.remaining iter) }
        requires fits { size (I.remaining iter) < 2 ^ 64 }
        ensures items { (rest : I) × EmitsItems E.emits I.next_gives iter (value self.old) result (value self.new) rest }
        ensures at_end { (value self.new).offset ≡ length (value self.new).bytes }
        ensures lender { lender self.new ≡ lender self.old }
    {
        self.emit_iter(&mut iter)
    }

    /// Writes the items in turn, as `emit_iter` does: for items that are references to references.
    pub fn emit_all_refs<I: Iterator<Item = E>, E: BinEncodable + Drop>(
        &mut self,
        iter: I,
    ) -> ProtoResult<usize>
        requires at_end { (value self.old).offset ≡ length (value self.old).bytes }
        requires can { I.can_next iter }
        requires ends { IsFinite (I.remaining iter) }
        requires fits { size (I.remaining iter) < 2 ^ 64 }
        ensures items { (rest : I) × EmitsItems E.emits I.next_gives iter (value self.old) result (value self.new) rest }
        ensures at_end { (value self.new).offset ≡ length (value self.new).bytes }
        ensures lender { lender self.new ≡ lender self.old }
    {
        self.emit_all(iter)
    }

    /// Writes one more item after `count` others, or rolls it back.
    fn emit_item<E: BinEncodable>(&mut self, item: &E, count: usize) -> ProtoResult<()>
        requires at_end { (value self.old).offset ≡ length (value self.old).bytes }
        ensures item { EmitsItem E.emits item.now count (value self.old) result (value self.new) }
        ensures at_end { (value self.new).offset ≡ length (value self.new).bytes }
        ensures lender { lender self.new ≡ lender self.old }
    {
        let start = self.offset;
        if let Err(error) = item.emit(self) {
            self.set_offset(start);
            self.trim();
            return Err(list_error(count, error));
        }
        Ok(())
    }
}
