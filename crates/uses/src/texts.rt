//! Prints the data of a record as text, and parses the text.
ghost use Rattle.std.specs.Prelude.{◌≡◌, ◌⊎◌, IfErr};
ghost use Rattle.uses.specs.Texts.{HasLongData, HasNoFields};

use dns_names_wire::BinDecoder;
use dns_names_wire::data_text::{DataTextError, data_text, laws, parse};
use dns_names_wire::record::RecordRef;
use std::alloc::Global;

/// Prints the data of the record that the octets begin with, and returns the octets that the text is parsed as. If there is no
/// record, it returns `None`.
///
/// What is printed is parsed. So it fails only if memory runs out, if the data have more octets than data may have once their
/// names are whole, or if they are no data of the record's class and type.
pub fn print_and_parse(alloc: Global, octets: &[u8]) -> Result<Option<Vec<u8>>, DataTextError>
    ensures { IfErr result (λ e. (e ≡ DataTextError.Memory) ⊎ HasLongData octets.now ⊎ HasNoFields octets.now) }
{
    laws::data_come_back();
    let Ok(record) = RecordRef::read_next(&mut BinDecoder::new(octets)) else {
        return Ok(None);
    };
    let text = data_text(alloc, &record)?;
    match parse(
        alloc,
        record.class(),
        record.record_type(),
        text.as_str(),
        None,
    ) {
        Ok(own) => Ok(Some(own)),
        Err(error) => Err(error),
    }
}
