//! Names of a list, read one after another.
ghost use Rattle.std.specs.Prelude.{◌≡◌, ◌<◌, ◌≤◌, length, IfOk, IfErr, OnOk};
ghost use Rattle.dnw_c_names.specs.NameLists.{IsNoNextName, TakesNextName};

use dnw_base::decoder::BinDecoder;
use dnw_c_base::failure::Failure;
use dnw_name::name_ref::NameRef;
use dnw_name_read::walk::ReadSteps;

/// Reads the name at the cursor of a list. The pointers that it follows are taken from those that are `left`.
// Inlined, since LLVM takes a large result that is returned through memory apart, octet by octet.
#[inline(always)]
pub(crate) fn next_name<'l>(
    decoder: &mut BinDecoder<'l>,
    left: &mut usize,
) -> Result<NameRef<'l>, Failure>
    ensures ok { IfOk result (λ name. TakesNextName decoder.old left.old name decoder.new left.new) }
    ensures err { IfErr result (IsNoNextName decoder.old left.old) }
    ensures onward { OnOk result (decoder.old.index < decoder.new.index) }
    ensures within { OnOk result (decoder.new.index ≤ length decoder.new.bytes) }
    ensures bytes { decoder.new.bytes ≡ decoder.old.bytes }
{
    let mut steps = ReadSteps::default();
    let name = NameRef::read_counted(decoder, &mut steps)?;
    if steps.pointers > *left {
        return Err(Failure::TooManyPointers);
    }
    *left -= steps.pointers;
    Ok(name)
}
