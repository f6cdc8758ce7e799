//! Types that are written into messages.
ghost use Rattle.std.specs.Prelude.{◌≡◌, ◌≢◌, ℕ, ◌≤◌, List, [], length, Ok, Err, Result, IfOk, IfErr, refl};
ghost use Rattle.std.specs.Int.{w16, w32, to_be_bytes};
ghost use Rattle.std.specs.Int.{cast_unsigned as unsigned};
ghost use Rattle.dnw_base.specs.declared.error.ProtoError.{ProtoError};
ghost use Rattle.dnw_base.specs.RecordTypes.{type_code};
ghost use Rattle.dnw_base.specs.DnsClasses.{class_code};
ghost use Rattle.dnw_write.specs.Encoder.{Encoder, fresh, Writes};
ghost use Rattle.dnw_write.specs.EncoderValue.{value, lender};
ghost use Rattle.dnw_write.specs.Emitting.{Outcome, Frame, WritesLen, FailsUnchanged};
ghost use Rattle.dnw_write.specs.EmittingLaws.{frame, fails_unchanged};
ghost use Rattle.std.proofs.Common.{lit≤};

use crate::encoder::BinEncoder;
use dnw_base::dns_class::DNSClass;
use dnw_base::error::{ProtoError, ProtoResult};
use dnw_base::record_type::RecordType;
use std::alloc::Global;

mod name;
mod rooms;

/// A type that can be written into messages.
///
/// `emits` says how: which outcomes and which encoders may come of a value and an encoder. `keeps_frame` shows that a
/// write at the buffer's end keeps what is before it.
pub trait BinEncodable {
    ghost emits: { Self → Encoder → Outcome → Encoder → Type 0 };

    /// Writes the value at the encoder's offset.
    fn emit(&self, encoder: &mut BinEncoder<'_>) -> ProtoResult<()>
        ensures emits { emits self.now (value encoder.old) result (value encoder.new) }
        ensures lender { lender encoder.new ≡ lender encoder.old };

    /// Returns the value's bytes, as a new encoder writes them into an empty buffer.
    fn to_bytes(&self, alloc: Global) -> ProtoResult<Vec<u8>>
        ensures ok { IfOk result (λ bytes. (w : Encoder) × emits self.now (fresh [] 0) (Ok tt) w × (bytes.items ≡ w.bytes)) }
        ensures err { IfErr result (λ e. (w : Encoder) × emits self.now (fresh [] 0) (Err e) w) }
    {
        let mut bytes = Vec::new(alloc);
        let mut encoder = BinEncoder::new(&mut bytes);
        self.emit(&mut encoder)?;
        drop(encoder);
        Ok(bytes)
    }

    ghost keeps_frame: { (x : Self) (v : Encoder) (outcome : Outcome) (w : Encoder)
        → v.offset ≡ length v.bytes → emits x v outcome w → Frame v outcome w };
}

impl<E: BinEncodable> BinEncodable for &E {
    ghost emits = { λ item. E.emits item.now };

    ghost keeps_frame = { λ item. E.keeps_frame item.now };

    fn emit(&self, encoder: &mut BinEncoder<'_>) -> ProtoResult<()> {
        (**self).emit(encoder)
    }
}

/// A type that is always written with the same number of bytes.
pub trait EncodedSize: BinEncodable + Drop {
    /// The number of bytes.
    const LEN: usize;

    ghost LEN: { ℕ };

    ghost at_least_one: { 1 ≤ LEN };

    ghost writes_len: { WritesLen Self.emits LEN };

    ghost fails_unchanged: { FailsUnchanged Self.emits };
}

impl BinEncodable for u16 {
    ghost emits = { λ number v. Writes v (to_be_bytes w16 number) };

    ghost keeps_frame = { λ number v outcome w. frame v (to_be_bytes w16 number) outcome w };

    fn emit(&self, encoder: &mut BinEncoder<'_>) -> ProtoResult<()> {
        encoder.emit_u16(*self)
    }
}

impl EncodedSize for u16 {
    const LEN: usize = 2;

    ghost LEN = { 2 };

    ghost at_least_one = { lit≤ tt };

    ghost writes_len = { λ number v w h. (to_be_bytes w16 number, refl, h.1) };

    ghost fails_unchanged = { λ number v w error h. fails_unchanged v (to_be_bytes w16 number) error w h };
}

impl BinEncodable for i32 {
    ghost emits = { λ number v. Writes v (to_be_bytes w32 (unsigned w32 number)) };

    ghost keeps_frame = { λ number v outcome w. frame v (to_be_bytes w32 (unsigned w32 number)) outcome w };

    fn emit(&self, encoder: &mut BinEncoder<'_>) -> ProtoResult<()> {
        encoder.emit_i32(*self)
    }
}

impl BinEncodable for u32 {
    ghost emits = { λ number v. Writes v (to_be_bytes w32 number) };

    ghost keeps_frame = { λ number v outcome w. frame v (to_be_bytes w32 number) outcome w };

    fn emit(&self, encoder: &mut BinEncoder<'_>) -> ProtoResult<()> {
        encoder.emit_u32(*self)
    }
}

/// A record type is written as its code.
impl BinEncodable for RecordType {
    ghost emits = { λ record_type v. Writes v (to_be_bytes w16 (type_code record_type)) };

    ghost keeps_frame = { λ record_type v outcome w. frame v (to_be_bytes w16 (type_code record_type)) outcome w };

    fn emit(&self, encoder: &mut BinEncoder<'_>) -> ProtoResult<()> {
        let record_type = u16::from(*self);
        encoder.emit_u16(record_type)
    }
}

/// A class is written as its code.
impl BinEncodable for DNSClass {
    ghost emits = { λ class v. Writes v (to_be_bytes w16 (class_code class)) };

    ghost keeps_frame = { λ class v outcome w. frame v (to_be_bytes w16 (class_code class)) outcome w };

    fn emit(&self, encoder: &mut BinEncoder<'_>) -> ProtoResult<()> {
        let class = u16::from(*self);
        encoder.emit_u16(class)
    }
}

impl BinEncodable for Vec<u8> {
    ghost emits = { λ bytes v. Writes v bytes.items };

    ghost keeps_frame = { λ bytes v outcome w. frame v bytes.items outcome w };

    fn emit(&self, encoder: &mut BinEncoder<'_>) -> ProtoResult<()> {
        encoder.emit_vec(self.as_slice())
    }
}
