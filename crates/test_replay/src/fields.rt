//! The fields of the data of records.

use crate::notation::{
    BAD_LINE, decode_error_word, first_word, hexadecimal, number, octets, push_word,
};
use dns_names_wire::decoder::BinDecoder;
use dns_names_wire::dns_class::DNSClass;
use dns_names_wire::error::ProtoResult;
use dns_names_wire::fields::{
    Field, FieldError, Fields, Items, ListKind, Shape, Shaped, fields_of,
};
use dns_names_wire::name_ref::NameRef;
use dns_names_wire::record_type::RecordType;
use std::alloc::{AllocError, Global};

/// Returns the fields of data of the type with a code, which start at an offset of a message and end where it does: each a
/// word, and then the error, if there is one. `Fields` and `Field::read` must agree.
pub(crate) fn answer(alloc: Global, words: &str) -> ProtoResult<String> {
    let (code, others) = first_word(words)?;
    let (start, message) = first_word(others)?;
    let start: usize = number(start)?;
    let message = octets(alloc, message)?;
    let kind = RecordType::from(number::<u16>(code)?);
    let walked = walked(alloc, message.as_slice(), start, kind)?;
    let read = read_in_turn(alloc, message.as_slice(), start, kind)?;
    if walked.as_str().starts_with(read.as_str()) {
        Ok(walked)
    } else {
        Ok(format!(in alloc; "{walked}, but {read}")?)
    }
}

/// Returns the words of the fields that `Field::read` returns for the kinds of the type, up to the first that fails.
fn read_in_turn(
    alloc: Global,
    message: &[u8],
    start: usize,
    record_type: RecordType,
) -> ProtoResult<String> {
    let mut answer = String::new(alloc);
    let mut reader = BinDecoder::new(message);
    reader.skip(start)?;
    let left = message.get(start..).ok_or(BAD_LINE)?;
    for kind in fields_of(DNSClass::IN, record_type, left) {
        let Ok(field) = Field::read(*kind, &mut reader) else {
            return Ok(answer);
        };
        push_word(&mut answer, field_word(alloc, &field)?.as_str())?;
    }
    Ok(answer)
}

/// Returns the words of the fields that `Fields` returns.
fn walked(
    alloc: Global,
    message: &[u8],
    start: usize,
    record_type: RecordType,
) -> ProtoResult<String> {
    if start > message.len() {
        return Err(BAD_LINE);
    }
    let mut answer = String::new(alloc);
    for field in Fields::new(message, start, DNSClass::IN, record_type) {
        let word = match field {
            Ok(field) => field_word(alloc, &field)?,
            Err(error) => error_word(alloc, &error)?,
        };
        push_word(&mut answer, word.as_str())?;
    }
    Ok(answer)
}

/// Returns the word for a field: its kind, and its value.
fn field_word(alloc: Global, field: &Field<'_>) -> Result<String, AllocError> {
    match field {
        Field::Name(name) => name_word(alloc, name),
        Field::U8(number) => format!(in alloc; "u8={number}"),
        Field::U16(number) => format!(in alloc; "u16={number}"),
        Field::U32(number) => format!(in alloc; "u32={number}"),
        Field::U48(number) => format!(in alloc; "u48={number}"),
        Field::U64(number) => format!(in alloc; "u64={number}"),
        Field::Ipv4(address) => format!(in alloc; "ipv4={address}"),
        Field::Ipv6(address) => format!(in alloc; "ipv6={address}"),
        Field::TypeCode(record_type) => format!(in alloc; "type={}", record_type.code()),
        Field::Time(time) => format!(in alloc; "time={}", time.get()),
        Field::Counted(octets) => octets_word(alloc, "counted", octets),
        Field::Octets(octets) => octets_word(alloc, "octets", octets),
        Field::Texts(items) => items_word(alloc, "texts", ListKind::Texts, items),
        Field::Types(items) => items_word(alloc, "types", ListKind::Types, items),
        Field::Params(items) => items_word(alloc, "params", ListKind::Params, items),
        Field::Prefixes(items) => items_word(alloc, "prefixes", ListKind::Prefixes, items),
        Field::Names(items) => items_word(alloc, "names", ListKind::Names, items),
        Field::LongCounted(octets) => octets_word(alloc, "long", octets),
        Field::Shaped(shaped) => shaped_word(alloc, shaped),
    }
}

/// Returns the word for octets of a shape. They must have it alone.
fn shaped_word(alloc: Global, shaped: &Shaped<'_>) -> Result<String, AllocError> {
    let name = match shaped.shape() {
        Shape::Location => "location",
        Shape::Gateway => "gateway",
        Shape::Relay => "relay",
        Shape::HostIdentity => "identity",
        Shape::AddressSuffix => "suffix",
    };
    match Shaped::new(shaped.shape(), shaped.as_bytes()) {
        Ok(_) => octets_word(alloc, name, shaped.as_bytes()),
        Err(_) => octets_word(alloc, "differs", shaped.as_bytes()),
    }
}

fn octets_word(alloc: Global, kind: &str, octets: &[u8]) -> Result<String, AllocError> {
    let octets = hexadecimal(alloc, octets)?;
    format!(in alloc; "{kind}={octets}")
}

/// Returns the word for a name: its labels in hexadecimal.
fn name_word(alloc: Global, name: &NameRef<'_>) -> Result<String, AllocError> {
    let mut word = String::from_str(alloc, "name=")?;
    for label in name.labels() {
        word.push_str(hexadecimal(alloc, label)?.as_str())?;
        word.push_str(".")?;
    }
    Ok(word)
}

/// Returns the word for a list: the number of each item and its octets. The list that its octets are must be the same.
fn items_word(
    alloc: Global,
    name: &str,
    kind: ListKind,
    items: &Items<'_>,
) -> Result<String, AllocError> {
    let mut word = format!(in alloc; "{name}=")?;
    let count = Items::new(kind, items.as_bytes()).map_or(0, Iterator::count);
    if count != items.iter().count() {
        word.push_str("differs,")?;
    }
    for item in items.iter() {
        let octets = hexadecimal(alloc, item.octets)?;
        word.push_str(format!(in alloc; "{}:{octets},", item.tag)?.as_str())?;
    }
    Ok(word)
}

/// Returns the word for an error: the number of the field, and why.
fn error_word(alloc: Global, error: &FieldError) -> Result<String, AllocError> {
    let cause = decode_error_word(alloc, &error.cause)?;
    format!(in alloc; "err:{}:{cause}", error.field)
}
