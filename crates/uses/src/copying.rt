//! Copies a name from one message to another.
ghost use Rattle.std.specs.Prelude.{◌≡◌, ℕ, List, true, Ok, OnOk, OnErr};
ghost use Rattle.dns_names_wire.specs.Words.{TakesName, EmitsName, value, lender};

use dns_names_wire::{BinDecoder, BinEncodable, BinEncoder, NameRef, ProtoResult};

/// Copies the name at the cursor of one message to the offset of another, as a server does with a question's name. No
/// `Name` is made between them. If it fails, the other message is unchanged.
pub fn copy_name(from: &mut BinDecoder<'_>, to: &mut BinEncoder<'_>) -> ProtoResult<()>
    ensures copied { OnOk result ((ls : List (List ℕ)) × (k : ℕ) × TakesName from.old from.new ls k
        × EmitsName (record { is_fqdn = true; labels = ls }) (value to.old) (Ok tt) (value to.new)) }
    ensures kept { OnErr result (value to.new ≡ value to.old) }
    ensures lender { lender to.new ≡ lender to.old }
{
    let name = NameRef::read(from)?;
    name.emit(to)?;
    Ok(())
}
