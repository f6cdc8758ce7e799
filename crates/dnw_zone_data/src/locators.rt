//! Words that are identifiers of nodes, locators, numbers of nodes and addresses of NSAP.
ghost use Rattle.std.specs.Prelude.{◌≡◌, ◌++◌, ◌∷◌, IfOk, string_bytes};
ghost use Rattle.dnw_zone_data.specs.Appending.{AppendsOne};
ghost use Rattle.dnw_zone_data.specs.Locators.{IsLocatorField, IsNodeNumber, IsNsapField};

use dnw_zone_values::error::FieldTextError;
use dnw_zone_values::number::number_up_to;
use dnw_zone_values::{locator, nsap};
use std::alloc::{AllocError, Global};

/// Appends the octets of an identifier of a node, or of a locator. Returns `false` if the text is none.
pub(crate) fn parse_locator(text: &[u8], out: &mut Vec<u8>) -> Result<bool, AllocError>
    ensures { IfOk result (AppendsOne (IsLocatorField text.now) out.old.items out.new.items) }
{
    let Ok(number) = locator::parse_locator(text) else {
        return Ok(false);
    };
    out.extend_from_slice(&number.to_be_bytes())?;
    Ok(true)
}

/// Appends the octets of the number of a node. Returns `false` if the text is none.
pub(crate) fn parse_node_number(text: &[u8], out: &mut Vec<u8>) -> Result<bool, AllocError>
    ensures { IfOk result (AppendsOne (IsNodeNumber text.now) out.old.items out.new.items) }
{
    let Some(number) = number_up_to(text, 18446744073709551615) else {
        return Ok(false);
    };
    out.extend_from_slice(&number.to_be_bytes())?;
    Ok(true)
}

/// Appends the octets of an address of NSAP. Returns `false` if the word is none.
pub(crate) fn parse_nsap(alloc: Global, word: &[u8], out: &mut Vec<u8>) -> Result<bool, AllocError>
    ensures { IfOk result (AppendsOne (IsNsapField word.now) out.old.items out.new.items) }
{
    match nsap::parse_nsap(alloc, word, out) {
        Ok(()) => Ok(true),
        Err(FieldTextError::Memory) => Err(AllocError),
        Err(_) => Ok(false),
    }
}
