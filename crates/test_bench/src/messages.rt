//! Whole messages, read and written.

use crate::FAILURE;
use dns_names_wire::fields::{Field, Fields, Items};
use dns_names_wire::message::{Header, MessageError, MessageRef, QueryRef, Records};
use dns_names_wire::message_writer::{DataError, Section, WriteError, WriterState};
use dns_names_wire::name::Name;
use dns_names_wire::name_ref::NameRef;
use dns_names_wire::rdata::Record;
use dns_names_wire::record::RecordRef;
use dns_names_wire::record_type::RecordType;
use std::alloc::Global;

/// More than the fields that the data of any type have.
const MAX_FIELDS: usize = 16;

/// Reads a message, and looks at all that it has but an `OPT` record.
pub(crate) fn read_whole(msg: &[u8]) -> Result<u64, MessageError> {
    let message = MessageRef::read(msg)?;
    let mut sum = header_size(message.header());
    for query in message.queries() {
        sum = sum.wrapping_add(query_size(&query));
    }
    Ok(
        sum.wrapping_add(records_size(message.answers()))
            .wrapping_add(records_size(message.authorities()))
            .wrapping_add(records_size(message.additionals())),
    )
}

/// Returns the id of a header, and its counts of questions, answers and authority records.
fn header_size(header: &Header) -> u64 {
    u64::from(header.metadata.id)
        .wrapping_add(u64::from(header.counts.queries))
        .wrapping_add(u64::from(header.counts.answers))
        .wrapping_add(u64::from(header.counts.authorities))
}

fn query_size(query: &QueryRef<'_>) -> u64 {
    name_size(query.name())
        .wrapping_add(u64::from(query.query_type().code()))
        .wrapping_add(u64::from(query.query_class().code()))
}

fn records_size(records: Records<'_>) -> u64 {
    let mut sum = 0u64;
    for record in records {
        sum = sum.wrapping_add(record_size(&record));
    }
    sum
}

fn record_size(record: &RecordRef<'_>) -> u64 {
    if matches!(record.record_type(), RecordType::OPT) {
        return 0;
    }
    name_size(record.owner())
        .wrapping_add(u64::from(record.record_type().code()))
        .wrapping_add(u64::from(record.class().code()))
        .wrapping_add(u64::from(record.ttl()))
        .wrapping_add(fields_size(&mut record.fields()))
}

/// Reads a message, and walks over its records but `OPT`: the lengths of their owners and of their data, both with names whole,
/// their types and their times to live.
pub(crate) fn walk_whole(msg: &[u8]) -> Result<u64, MessageError> {
    let message = MessageRef::read(msg)?;
    Ok(
        walk_records(message.answers())
            .wrapping_add(walk_records(message.authorities()))
            .wrapping_add(walk_records(message.additionals())),
    )
}

fn walk_records(records: Records<'_>) -> u64 {
    let mut sum = 0u64;
    for record in records {
        if matches!(record.record_type(), RecordType::OPT) {
            continue;
        }
        sum = sum
            .wrapping_add(record.owner().encoded_len() as u64)
            .wrapping_add(u64::from(record.record_type().code()))
            .wrapping_add(u64::from(record.ttl()))
            .wrapping_add(data_len(&record));
    }
    sum
}

/// Returns how many octets the fields of the data have, with names whole, up to the first that is none.
#[inline(always)]
fn data_len(record: &RecordRef<'_>) -> u64 {
    let mut sum = 0u64;
    for field in record.fields() {
        let Ok(field) = field else {
            break;
        };
        sum = sum.wrapping_add(field_len(&field) as u64);
    }
    sum
}

#[inline(always)]
fn field_len(field: &Field<'_>) -> usize {
    match field {
        Field::Name(name) => name.encoded_len(),
        Field::U8(_) => 1,
        Field::U16(_) | Field::TypeCode(_) => 2,
        Field::U32(_) | Field::Time(_) | Field::Ipv4(_) => 4,
        Field::U48(_) => 6,
        Field::U64(_) => 8,
        Field::Ipv6(_) => 16,
        Field::Counted(octets) | Field::LongCounted(octets) | Field::Octets(octets) => octets.len(),
        Field::Texts(items)
        | Field::Types(items)
        | Field::Params(items)
        | Field::Prefixes(items)
        | Field::Names(items) => items.as_bytes().len(),
        Field::Shaped(shaped) => shaped.as_bytes().len(),
    }
}

/// Returns the records of a message, section by section, or `None` if it can't be read.
pub(crate) fn records_of<'m>(alloc: Global, msg: &'m [u8]) -> Option<Vec<RecordRef<'m>>> {
    let Ok(message) = MessageRef::read(msg) else {
        return None;
    };
    let mut found = Vec::new(alloc);
    for section in [
        message.answers(),
        message.authorities(),
        message.additionals(),
    ] {
        for record in section {
            if found.push(record).is_err() {
                return None;
            }
        }
    }
    Some(found)
}

/// Reads the fields of the data of these records, and looks at each.
pub(crate) fn read_fields(records: &[RecordRef<'_>]) -> u64 {
    let mut sum = 0u64;
    for record in records {
        sum = sum.wrapping_add(fields_size(&mut record.fields()));
    }
    sum
}

fn fields_size<'r>(fields: &mut Fields<'r>) -> u64 {
    let mut sum = 0u64;
    for _ in 0..MAX_FIELDS {
        let Some(field) = next_field(fields) else {
            break;
        };
        sum = sum.wrapping_add(field_size(&field));
    }
    sum
}

/// Returns the next field, or `None` after the last one, or if it can't be read.
fn next_field<'r>(fields: &mut Fields<'r>) -> Option<Field<'r>> {
    let read = fields.next()?;
    read.ok()
}

/// Returns a number, an address as one, or what names, texts and octets have.
fn field_size(field: &Field<'_>) -> u64 {
    match field {
        Field::Name(name) => name_size(name),
        Field::U8(number) => u64::from(*number),
        Field::U16(number) => u64::from(*number),
        Field::U32(number) => u64::from(*number),
        Field::U48(number) | Field::U64(number) => *number,
        Field::Ipv4(address) => {
            let octets = address.octets();
            u64::from(u32::from_be_bytes(octets))
        }
        Field::Ipv6(address) => {
            let octets = address.octets();
            u64::from(octets[0]).wrapping_add(u64::from(octets[15]))
        }
        Field::TypeCode(record_type) => u64::from(record_type.code()),
        Field::Time(time) => u64::from(time.get()),
        Field::Counted(octets) | Field::LongCounted(octets) | Field::Octets(octets) => {
            octets_size(octets)
        }
        Field::Texts(items)
        | Field::Types(items)
        | Field::Params(items)
        | Field::Prefixes(items)
        | Field::Names(items) => items_size(items),
        Field::Shaped(shaped) => octets_size(shaped.as_bytes()),
    }
}

fn items_size(items: &Items<'_>) -> u64 {
    let mut sum = 0u64;
    for item in items.iter() {
        sum = sum.wrapping_add(octets_size(item.octets));
    }
    sum
}

/// Returns for each label of a name its last octet, and one more than its length; and one.
fn name_size(name: &NameRef<'_>) -> u64 {
    let mut sum = 1u64;
    for label in name.labels() {
        sum = sum.wrapping_add(octets_size(label));
    }
    sum
}

/// Returns one more than the number of octets, and the last octet.
#[inline]
fn octets_size(octets: &[u8]) -> u64 {
    let len = (octets.len() as u64).wrapping_add(1);
    match octets.last() {
        Some(octet) => len.wrapping_add(u64::from(*octet)),
        None => len,
    }
}

/// A question of a message.
#[derive(Drop)]
struct Question {
    name: Name,
    query_type: u16,
    class: u16,
}

/// What a message is written of.
#[derive(Drop)]
pub(crate) struct Parts {
    id: u16,
    flags: u16,
    queries: Vec<Question>,
    answers: Vec<Record>,
    authorities: Vec<Record>,
    additionals: Vec<Record>,
    room: Vec<u8>,
}

/// Copies what a message has. Returns `None` if the octets are none, or if the data of a record are no fields of its type.
pub(crate) fn parts_of(alloc: Global, msg: &[u8]) -> Option<Parts> {
    let Ok(message) = MessageRef::read(msg) else {
        return None;
    };
    let mut queries = Vec::new(alloc);
    for query in message.queries() {
        let Ok(name) = query.name().to_name(alloc) else {
            return None;
        };
        let question = Question {
            name,
            query_type: query.query_type().code(),
            class: query.query_class().code(),
        };
        if queries.push(question).is_err() {
            return None;
        }
    }
    let head = message.header().to_octets();
    let mut room = Vec::new(alloc);
    if room.resize(65535, 0).is_err() {
        return None;
    }
    Some(Parts {
        id: message.header().metadata.id,
        flags: u16::from_be_bytes([head[2], head[3]]),
        queries,
        answers: copies_of(alloc, message.answers())?,
        authorities: copies_of(alloc, message.authorities())?,
        additionals: copies_of(alloc, message.additionals())?,
        room,
    })
}

fn copies_of(alloc: Global, records: Records<'_>) -> Option<Vec<Record>> {
    let mut copies = Vec::new(alloc);
    for record in records {
        let Ok(copy) = Record::from_ref(alloc, &record) else {
            return None;
        };
        if copies.push(copy).is_err() {
            return None;
        }
    }
    Some(copies)
}

/// Writes a message of at most so many octets: its length.
pub(crate) fn write_parts(parts: &mut Parts, max_size: u16) -> u64 {
    let room = parts.room.as_mut_slice();
    let mut writer = WriterState::new();
    if writer
        .begin(room, parts.id, parts.flags, usize::from(max_size))
        .is_err()
    {
        return FAILURE;
    }
    let mut failed = 0u64;
    for query in parts.queries.as_slice() {
        let added = writer.question(
            room,
            query.name.wire_labels(),
            query.query_type,
            query.class,
        );
        failed = failed.wrapping_add(match added {
            Ok(()) | Err(WriteError::NoRoom) => 0,
            Err(_) => FAILURE,
        });
    }
    let sections = [
        (Section::Answers, &parts.answers),
        (Section::Authorities, &parts.authorities),
        (Section::Additionals, &parts.additionals),
    ];
    for (section, records) in sections {
        let missed = write_records(&mut writer, room, section, records.as_slice());
        failed = failed.wrapping_add(missed);
    }
    failed.wrapping_add(writer.end as u64)
}

/// Writes records. Returns what those add that were not written for another reason than want of space.
fn write_records(
    writer: &mut WriterState,
    room: &mut [u8],
    section: Section,
    records: &[Record],
) -> u64 {
    let mut failed = 0u64;
    for record in records {
        let added = writer.record_data(
            room,
            section,
            record.name.wire_labels(),
            record.data.record_type().code(),
            record.data.class().code(),
            record.ttl,
            record.data.octets(),
        );
        failed = failed.wrapping_add(match added {
            Ok(()) | Err(DataError::Write(WriteError::NoRoom)) => 0,
            Err(_) => FAILURE,
        });
    }
    failed
}
