//! What is read back of what a script wrote.

use dns_names_wire::decoder::BinDecoder;
use dns_names_wire::error::{ProtoError, ProtoResult};
use dns_names_wire::name::Name;
use dns_names_wire::name_ref::NameRef;
use dns_names_wire::script::{Item, Part, Reply, Step};
use std::alloc::Global;

/// Reads each name that was written, at its offset, and returns the offsets and texts. Each has to be the name of its
/// step but for the case, and to end where the next piece begins.
pub(crate) fn read_back(
    alloc: Global,
    message: &[u8],
    start: usize,
    steps: &[Step],
    replies: &[Reply],
) -> ProtoResult<String> {
    let mut names = String::new(alloc);
    let mut decoder = BinDecoder::new(message);
    decoder.skip(start)?;
    for (step, reply) in steps.iter().zip(replies.iter()) {
        let end = match (step, reply) {
            (Step::Name(name), Reply::Done { len }) => {
                names = read_name(alloc, name, &mut decoder, names)?;
                *len
            }
            (_, Reply::Done { len }) => {
                decoder.skip(len.saturating_sub(decoder.index()))?;
                *len
            }
            (Step::Items(items), Reply::Items { count, len, .. }) => {
                let written = items.get(..*count).unwrap_or(items.as_slice());
                names = read_items(alloc, written, &mut decoder, names)?;
                *len
            }
            (_, Reply::Refused { len, .. }) => *len,
            _ => decoder.index(),
        };
        if end != decoder.index() {
            return Err(NOT_READ_BACK);
        }
    }
    Ok(names)
}

/// The error of a piece that is not what was written.
const NOT_READ_BACK: ProtoError = ProtoError::Message("a piece is not read back");

/// Reads a name, and adds its offset and text.
fn read_name(
    alloc: Global,
    name: &Name,
    decoder: &mut BinDecoder<'_>,
    mut names: String,
) -> ProtoResult<String> {
    let start = decoder.index();
    let read = NameRef::read(decoder)?;
    if !read.eq_name(name) {
        return Err(NOT_READ_BACK);
    }
    let text = read.to_name(alloc)?;
    names.push_str(format!(in alloc; " {start} {text}")?.as_str())?;
    Ok(names)
}

fn read_items(
    alloc: Global,
    items: &[Item],
    decoder: &mut BinDecoder<'_>,
    mut names: String,
) -> ProtoResult<String> {
    for item in items {
        for part in item.parts.iter() {
            match part {
                Part::Name(name) => names = read_name(alloc, name, decoder, names)?,
                Part::U8(_) => decoder.skip(1)?,
                Part::U16(_) => decoder.skip(2)?,
                Part::I32(_) | Part::U32(_) => decoder.skip(4)?,
                Part::Bytes(bytes) => decoder.skip(bytes.len())?,
                Part::Text(text) => decoder.skip(text.len().saturating_add(1))?,
            }
        }
    }
    Ok(names)
}
