//! Names that are read at offsets of messages, and whose wire forms are put into buffers.
ghost use Rattle.std.specs.Prelude.{ℕ, length, IfOk, IfErr};
ghost use Rattle.dnw_base.specs.Limits.{max_name};
ghost use Rattle.dnw_base.specs.Names.{wire};
ghost use Rattle.dnw_name_read.specs.Reading.{NameAt};
ghost use Rattle.dnw_c_base.specs.Offsets.{HasNoName};
ghost use Rattle.dnw_c_base.specs.Results.{PutsWithin};

use crate::failure::Failure;
use dnw_base::decoder::BinDecoder;
use dnw_name::name_ref::NameRef;

/// Returns the name at an offset, without a copy, and the offset after its own octets.
#[inline(always)]
pub fn name_ref_at(message: &[u8], start: usize) -> Result<(NameRef<'_>, usize), Failure>
    ensures ok { IfOk result (λ r. (k : ℕ) × NameAt message.now start r.0 r.1 k) }
    ensures err { IfErr result (HasNoName message.now start) }
{
    let mut decoder = BinDecoder::new(message);
    decoder.skip(start)?;
    let name = NameRef::read(&mut decoder)?;
    Ok((name, decoder.index()))
}

/// Puts the wire form of a name of a message, and returns its length.
#[tactic(auto, using(crate::proofs::Starts::form_size))]
#[inline(always)]
pub fn put_name(form: &mut [u8], name: &NameRef<'_>) -> Result<usize, Failure>
    ensures { PutsWithin max_name (wire name.now) (length (wire name.now)) form.old form.new result }
{
    if name.encoded_len() > form.len() {
        return Err(Failure::NoRoom);
    }
    Ok(name.copy_wire(form).unwrap())
}
