//! How types of the rooms below are written: names in lower case, sets of record types, and headers of messages.
ghost use Rattle.std.specs.Prelude.{refl};
ghost use Rattle.std.proofs.Common.{lit≤};
ghost use Rattle.dnw_message_read.specs.Headers.{header_wire};
ghost use Rattle.dnw_write.specs.Encoder.{Writes};
ghost use Rattle.dnw_write.specs.EmittedName.{EmitsName};
ghost use Rattle.dnw_write.specs.EmittingLaws.{frame, fails_unchanged};
ghost use Rattle.dnw_write.specs.NameFrames.{frame_name};

use super::{BinEncodable, EncodedSize};
use crate::encoder::BinEncoder;
use dnw_base::error::ProtoResult;
use dnw_data::record_type_set::RecordTypeSet;
use dnw_message_read::header::Header;
use dnw_name_zones::lower_name::LowerName;

impl BinEncodable for LowerName {
    ghost emits = { EmitsName };

    ghost keeps_frame = { frame_name };

    fn emit(&self, encoder: &mut BinEncoder<'_>) -> ProtoResult<()> {
        (**self).emit(encoder)
    }
}

/// A set is written as its bytes.
impl BinEncodable for RecordTypeSet {
    ghost emits = { λ set v. Writes v set.encoding };

    ghost keeps_frame = { λ set v outcome w. frame v set.encoding outcome w };

    fn emit(&self, encoder: &mut BinEncoder<'_>) -> ProtoResult<()> {
        encoder.emit_vec(self.as_bytes())
    }
}

impl BinEncodable for Header {
    ghost emits = { λ header v. Writes v (header_wire header) };

    ghost keeps_frame = { λ header v outcome w. frame v (header_wire header) outcome w };

    /// Writes the twelve octets.
    fn emit(&self, encoder: &mut BinEncoder<'_>) -> ProtoResult<()> {
        encoder.emit_vec(&self.to_octets())
    }
}

/// So a header can be a placeholder, and be filled in once the sections are written.
impl EncodedSize for Header {
    const LEN: usize = 12;

    ghost LEN = { 12 };

    ghost at_least_one = { lit≤ tt };

    ghost writes_len = { λ header v w h. (header_wire header, refl, h.1) };

    ghost fails_unchanged = { λ header v w error h. fails_unchanged v (header_wire header) error w h };
}
