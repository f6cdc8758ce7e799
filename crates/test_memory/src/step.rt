//! The calls of a scenario.

use crate::scenarios::Labels;
use dns_names_wire::binary::BinEncodable;
use dns_names_wire::dns_class::DNSClass;
use dns_names_wire::encoder::{BinEncoder, NameEncoding, Place, RDataEncoding};
use dns_names_wire::error::ProtoResult;
use dns_names_wire::name::Name;
use dns_names_wire::record::{WireData, WireRecord};
use dns_names_wire::record_type::RecordType;
use std::alloc::Global;

/// One call of a scenario, on its encoder or on a name.
#[derive(Clone, Copy)]
pub enum Step {
    /// Sets how names are written.
    Mode(NameEncoding),
    /// Sets where the next byte is written.
    Offset(usize),
    /// Writes a byte.
    U8(u8),
    /// Writes a number.
    U16(u16),
    /// Writes a number.
    I32(i32),
    /// Writes a number.
    U32(u32),
    /// Writes bytes.
    Bytes(&'static [u8]),
    /// Writes character data.
    Text(&'static [u8]),
    /// Keeps a place for a `u16`.
    Place,
    /// Writes a number over the place that was kept last.
    Fill(u16),
    /// Stores the labels between two places as a candidate.
    Store(Labels),
    /// Writes the name with this text.
    Name(&'static str),
    /// Writes an NS record of this owner, with this name as its data.
    Record(&'static str, &'static str),
    /// Writes numbers as a list of items.
    Items(&'static [u16]),
    /// The bytes of the name with this text.
    ToBytes(&'static str),
    /// The text of the name with this text.
    ToAscii(&'static str),
}

/// What an accepted call answers.
#[derive(Drop)]
pub enum Answer {
    /// Nothing more.
    Done,
    /// How many items were written.
    Written(usize),
    /// A name's bytes.
    Bytes(Vec<u8>),
    /// A name's text.
    Text(String),
    /// The call was left out: what it asks of its caller does not hold.
    LeftOut,
}

/// Makes the call. A place that it keeps is put into `place`, and one that it fills is taken from there.
pub(crate) fn take(
    alloc: Global,
    step: Step,
    encoder: &mut BinEncoder<'_>,
    place: &mut Option<Place<u16>>,
) -> ProtoResult<Answer> {
    match step {
        Step::Mode(mode) => encoder.set_name_encoding(mode),
        Step::Offset(offset) => {
            if offset > encoder.len() {
                return Ok(Answer::LeftOut);
            }
            encoder.set_offset(offset);
        }
        Step::U8(number) => encoder.emit_u8(number)?,
        Step::U16(number) => encoder.emit_u16(number)?,
        Step::I32(number) => encoder.emit_i32(number)?,
        Step::U32(number) => encoder.emit_u32(number)?,
        Step::Bytes(bytes) => encoder.emit_vec(bytes)?,
        Step::Text(text) => encoder.emit_character_data(text)?,
        Step::Place => *place = Some(encoder.place()?),
        Step::Fill(number) => return fill(encoder, place, number),
        Step::Store(labels) => return store(encoder, labels),
        Step::Items(numbers) => return emit_items(encoder, numbers),
        Step::Name(text) => Name::from_ascii(alloc, text)?.emit(encoder)?,
        Step::Record(owner, server) => record_of(alloc, owner, server)?.emit(encoder)?,
        Step::ToBytes(text) => {
            let name = Name::from_ascii(alloc, text)?;
            return Ok(Answer::Bytes(name.to_bytes(alloc)?));
        }
        Step::ToAscii(text) => {
            let name = Name::from_ascii(alloc, text)?;
            return Ok(Answer::Text(name.to_ascii(alloc)?));
        }
    }
    Ok(Answer::Done)
}

/// Returns the NS record of an owner, with this name as its data.
pub(crate) fn record_of(
    alloc: Global,
    owner: &'static str,
    server: &'static str,
) -> ProtoResult<WireRecord> {
    Ok(WireRecord {
        owner: Name::from_ascii(alloc, owner)?,
        record_type: RecordType::NS,
        class: DNSClass::IN,
        ttl: 300,
        rdata: WireData::Name {
            name: Name::from_ascii(alloc, server)?,
            encoding: RDataEncoding::StandardRecord,
        },
    })
}

fn fill(
    encoder: &mut BinEncoder<'_>,
    place: &mut Option<Place<u16>>,
    number: u16,
) -> ProtoResult<Answer> {
    match place.take() {
        Some(place) if encoder.holds(&place) => {
            place.replace(encoder, number)?;
            Ok(Answer::Done)
        }
        _ => Ok(Answer::LeftOut),
    }
}

fn store(encoder: &mut BinEncoder<'_>, labels: Labels) -> ProtoResult<Answer> {
    if !labels.are_written(encoder) {
        return Ok(Answer::LeftOut);
    }
    encoder.store_label_pointer(labels.start, labels.end)?;
    Ok(Answer::Done)
}

fn emit_items(encoder: &mut BinEncoder<'_>, numbers: &'static [u16]) -> ProtoResult<Answer> {
    if encoder.offset() != encoder.len() {
        return Ok(Answer::LeftOut);
    }
    let count = encoder.emit_all(numbers.iter())?;
    Ok(Answer::Written(count))
}
