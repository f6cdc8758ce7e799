//! Names that share one message.
ghost use Rattle.std.specs.Prelude.{◌<◌, ◌^◌, length};

use super::Refusal;
use dns_names_wire::decoder::BinDecoder;
use dns_names_wire::error::ProtoResult;
use dns_names_wire::name::Name;
use dns_names_wire::script::{self, Reply, Step};
use std::alloc::Global;

/// The message that the texts' names make, in hexadecimal, and a line for each name: its place, and the text that is
/// read back there.
pub(super) fn shared(alloc: Global, texts: &[String]) -> Result<String, Refusal> {
    let mut message = Vec::new(alloc);
    write(alloc, steps(alloc, texts)?.as_slice(), &mut message)?;
    let mut listing = hex::encode(alloc, message.as_slice())?;
    let mut decoder = BinDecoder::new(message.as_slice());
    for _ in texts {
        // A name begins where the one before it ends.
        let place = decoder.index();
        let name = Name::read(alloc, &mut decoder)?;
        listing.push_str(format!(in alloc; "\n{place} {name}")?.as_str())?;
    }
    Ok(listing)
}

/// A step for each name.
fn steps(alloc: Global, texts: &[String]) -> ProtoResult<Vec<Step>> {
    let mut steps = Vec::new(alloc);
    for text in texts {
        steps.push(Step::Name(Name::from_ascii(alloc, text.as_str())?))?;
    }
    Ok(steps)
}

/// Writes the message of the steps, or returns the error of the first one that is refused.
fn write(alloc: Global, steps: &[Step], message: &mut Vec<u8>) -> ProtoResult<()>
    requires { length message.old.items < 2 ^ 32 }
{
    for reply in script::run(alloc, message, steps)? {
        if let Reply::Refused { error, len: _ } = reply {
            return Err(error);
        }
    }
    Ok(())
}
