//! Marks, to which an encoder is put back.
ghost use Rattle.std.specs.Prelude.{◌≡◌, ◌≤◌, length};
ghost use Rattle.dnw_write.specs.Marks.{mark_of, rewound, RewindingUndoes};

use super::BinEncoder;
use std::marker::Model;

/// Where an encoder was, and how many names it had counted: what `BinEncoder::rewind` puts back.
///
/// A contract sees it as these two numbers.
#[derive(Clone, Copy, Debug)]
pub struct Mark {
    offset: usize,
    names: usize,
}

impl Model for Mark {
    ghost use Rattle.dnw_write.specs.Marks.{MarkValue};

    ghost Value = { MarkValue };

    ghost view = { λ m. record { offset = m.offset; names = m.names } };

    ghost inverse = { λ mark. record { offset = mark.offset; names = mark.names } };
}

impl<'a> BinEncoder<'a> {
    ghost use Rattle.dnw_write.specs.EncoderValue.{value, lender};

    /// Returns a mark of the offset and of the number of names that are counted. It does not allocate.
    pub fn mark(&self) -> Mark
        ensures { result ≡ mark_of (value self.now) }
    {
        Mark {
            offset: self.offset,
            names: self.names,
        }
    }

    /// Puts the encoder back to a mark: it removes the bytes and the candidates from the mark's offset on, moves there,
    /// and puts the number of counted names back. It does not allocate. The maximum size, the modes and the limits stay.
    ///
    /// The mark's offset must not be past the buffer's end. If the mark was set at the buffer's end, this undoes what was
    /// written since; see `laws::rewinding_undoes`.
    pub fn rewind(&mut self, mark: Mark)
        requires within { mark.offset ≤ length (value self.old).bytes }
        ensures value { value self.new ≡ rewound (value self.old) mark }
        ensures lender { lender self.new ≡ lender self.old }
    {
        self.buffer.truncate(mark.offset);
        self.candidates.trim(mark.offset);
        self.offset = mark.offset;
        self.names = mark.names;
    }
}

/// Rewinding to a mark that was set at the buffer's end, with every candidate before it, leaves the whole encoder as it
/// was there, whatever was written by `emit`.
///
/// The function does nothing: it is there for its clause.
#[tactic(auto, using(crate::proofs::Preceding::rewinding_undoes))]
pub fn rewinding_undoes()
    ensures { RewindingUndoes }
{}
