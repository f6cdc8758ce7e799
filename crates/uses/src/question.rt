//! Reads the names of a message's questions and the owners of its answers (RFC 1035, section 4.1).
ghost use Rattle.std.specs.Prelude.{◌≡◌, IfOk};
ghost use Rattle.std.specs.List.{AllByRecursion};
ghost use Rattle.uses.specs.Standing.{StandsIn};

use dns_names_wire::{BinDecoder, Name, ProtoResult};
use std::alloc::Global;

/// Returns the names of the questions, and after them the owners of the answers. Each stands in the message.
pub fn names_of(alloc: Global, message: &[u8]) -> ProtoResult<Vec<Name>>
    ensures { IfOk result (λ names. AllByRecursion (StandsIn message.now) names.items) }
{
    let mut decoder = BinDecoder::new(message);
    decoder.skip(4)?;
    let questions = decoder.read_u16()?.unverified();
    let answers = decoder.read_u16()?.unverified();
    decoder.skip(4)?;
    let mut names = Vec::new(alloc);
    for _ in 0..questions {
        read_question(alloc, &mut decoder, &mut names)?;
    }
    for _ in 0..answers {
        read_answer(alloc, &mut decoder, &mut names)?;
    }
    Ok(names)
}

/// Reads a question: a name, a type and a class.
fn read_question(
    alloc: Global,
    decoder: &mut BinDecoder<'_>,
    names: &mut Vec<Name>,
) -> ProtoResult<()>
    requires { AllByRecursion (StandsIn decoder.old.bytes) names.old.items }
    ensures names { AllByRecursion (StandsIn decoder.old.bytes) names.new.items }
    ensures message { decoder.new.bytes ≡ decoder.old.bytes }
{
    let name = Name::read(alloc, decoder)?;
    names.push(name)?;
    decoder.skip(4)?;
    Ok(())
}

/// Reads an answer: a name, a type, a class, a TTL, and its data, which is passed over.
fn read_answer(
    alloc: Global,
    decoder: &mut BinDecoder<'_>,
    names: &mut Vec<Name>,
) -> ProtoResult<()>
    requires { AllByRecursion (StandsIn decoder.old.bytes) names.old.items }
    ensures names { AllByRecursion (StandsIn decoder.old.bytes) names.new.items }
    ensures message { decoder.new.bytes ≡ decoder.old.bytes }
{
    let name = Name::read(alloc, decoder)?;
    names.push(name)?;
    decoder.skip(8)?;
    let len = decoder.read_u16()?.unverified();
    decoder.skip(len as usize)?;
    Ok(())
}
