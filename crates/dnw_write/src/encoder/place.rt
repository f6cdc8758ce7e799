//! Placeholders, for fields whose value is known later.
ghost use Rattle.std.specs.Prelude.{◌≡◌, ℕ, ◌+◌, ◌≤◌, ◌↔◌, List, length, IsTrue, IfOk, OnOk, OnErr};
ghost use Rattle.dnw_write.specs.Encoder.{HoldsOctets, TakesRoom, reserved};
ghost use Rattle.dnw_write.specs.Emitting.{EmitsAt, FillsPlace};

use super::BinEncoder;
use crate::binary::EncodedSize;
use dnw_base::error::ProtoResult;
use std::marker::{Model, PhantomData};

/// A placeholder: a field of a message that is reserved for a value, and written once with `replace` or `emit_at`.
///
/// A contract sees it as the offset of its first byte.
#[derive(Debug, Drop)]
pub struct Place<T: EncodedSize> {
    start_index: usize,
    phantom: PhantomData<T>,
}

impl<T: EncodedSize> Model for Place<T> {
    ghost use Rattle.std.specs.Prelude.{ℕ};

    ghost Value = { ℕ };

    ghost view = { λ p. p.start_index };
}

impl<T: EncodedSize> Place<T> {
    ghost use Rattle.dnw_write.specs.EncoderValue.{value, lender};

    /// Writes the value into the placeholder, which is used up also if this fails.
    pub fn replace(self, encoder: &mut BinEncoder<'_>, number: T) -> ProtoResult<()>
        requires { HoldsOctets (value encoder.old) self T.LEN }
        ensures emits { EmitsAt T.emits self number (value encoder.old) result (value encoder.new) }
        ensures ok { OnOk result (FillsPlace self T.LEN (value encoder.old) (value encoder.new)) }
        ensures err { OnErr result (value encoder.new ≡ value encoder.old) }
        ensures lender { lender encoder.new ≡ lender encoder.old }
    {
        encoder.emit_at(self, number)
    }
}

impl<'a> BinEncoder<'a> {
    ghost use Rattle.dnw_write.specs.EncoderValue.{value, lender};

    /// Reserves a placeholder at the offset. Bytes that are missing there are zero, and the buffer ends after it.
    pub fn place<T: EncodedSize>(&mut self) -> ProtoResult<Place<T>>
        ensures value { TakesRoom (value self.old) T.LEN (reserved (value self.old) T.LEN) result (value self.new) }
        ensures place { IfOk result (λ place. place ≡ (value self.old).offset) }
        ensures lender { lender self.new ≡ lender self.old }
    {
        self.test_room(T::LEN)?;
        let start_index = self.offset;
        let end = start_index + T::LEN;
        let len = self.buffer.len();
        if start_index == len {
            // LLVM then knows how few zeros there are.
            self.buffer.resize(len + T::LEN, 0)?;
        } else {
            self.buffer.resize(end, 0)?;
        }
        self.offset = end;
        Ok(Place {
            start_index,
            phantom: PhantomData,
        })
    }

    /// Returns `true` if the placeholder ends no later than the offset.
    pub fn holds<T: EncodedSize>(&self, place: &Place<T>) -> bool
        ensures { IsTrue result ↔ HoldsOctets (value self.now) place.now T.LEN }
    {
        T::LEN <= self.offset && place.start_index <= self.offset - T::LEN
    }

    /// Returns the number of bytes from the placeholder's end to the offset.
    pub fn len_since_place<T: EncodedSize>(&self, place: &Place<T>) -> usize
        requires { HoldsOctets (value self.now) place.now T.LEN }
        ensures { place.now + T.LEN + result ≡ (value self.now).offset }
    {
        self.offset - place.start_index - T::LEN
    }

    /// Writes the value into the placeholder, which is used up also if this fails.
    pub fn emit_at<T: EncodedSize>(&mut self, place: Place<T>, number: T) -> ProtoResult<()>
        requires { HoldsOctets (value self.old) place T.LEN }
        ensures emits { EmitsAt T.emits place number (value self.old) result (value self.new) }
        ensures ok { OnOk result (FillsPlace place T.LEN (value self.old) (value self.new)) }
        ensures err { OnErr result (value self.new ≡ value self.old) }
        ensures lender { lender self.new ≡ lender self.old }
    {
        let offset = self.offset;
        self.offset = place.start_index;
        let outcome = number.emit(self);
        self.offset = offset;
        outcome
    }
}
