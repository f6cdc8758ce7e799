//! What the parts and items of a script write.
ghost use Rattle.std.specs.Prelude.{◌≡◌};
ghost use Rattle.dnw_write.specs.EncoderValue.{value, lender};
ghost use Rattle.dnw_write_script.specs.Script.{EmitsPart, EmitsParts, EmitsScriptItem};
ghost use Rattle.dnw_write_script.specs.ItemFrames.{frame_part, frame_item};

use super::{Item, Part};
use dnw_base::error::ProtoResult;
use dnw_write::binary::BinEncodable;
use dnw_write::encoder::BinEncoder;

impl BinEncodable for Part {
    ghost emits = { EmitsPart };

    ghost keeps_frame = { frame_part };

    /// Writes the part; a name in the encoder's mode.
    fn emit(&self, encoder: &mut BinEncoder<'_>) -> ProtoResult<()> {
        match self {
            Part::Name(name) => name.emit(encoder),
            Part::U8(number) => encoder.emit_u8(*number),
            Part::U16(number) => encoder.emit_u16(*number),
            Part::I32(number) => encoder.emit_i32(*number),
            Part::U32(number) => encoder.emit_u32(*number),
            Part::Bytes(bytes) => encoder.emit_vec(bytes.as_slice()),
            Part::Text(text) => encoder.emit_character_data(text.as_slice()),
        }
    }
}

impl BinEncodable for Item {
    ghost emits = { EmitsScriptItem };

    ghost keeps_frame = { frame_item };

    /// Writes the parts in turn, in the item's mode, and puts the former mode back in any case. If a part fails, those
    /// before it stay written; a list of items rolls them back.
    fn emit(&self, encoder: &mut BinEncoder<'_>) -> ProtoResult<()> {
        let former = encoder.name_encoding();
        encoder.set_name_encoding(self.encoding.unwrap_or(former));
        let outcome = emit_parts(self.parts.as_slice(), encoder);
        encoder.set_name_encoding(former);
        outcome
    }
}

/// Writes the parts in turn, up to the first that fails.
#[tactic(auto, using(crate::proofs::Lists::part_written, crate::proofs::Lists::part_refused))]
fn emit_parts(parts: &[Part], encoder: &mut BinEncoder<'_>) -> ProtoResult<()>
    ensures writes { EmitsParts parts.now (value encoder.old) result (value encoder.new) }
    ensures lender { lender encoder.new ≡ lender encoder.old }
{
    for part in parts {
        part.emit(encoder)?;
    }
    Ok(())
}
