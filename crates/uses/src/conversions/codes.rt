//! Types, classes and other codes: from numbers and texts and back, compared, and in sets. Serial numbers.
ghost use Rattle.std.specs.Prelude.{◌≡◌, ◌≤◌, ◌↔◌, Some, IsTrue};
ghost use Rattle.std.specs.Ordering.{eq_by_cmp};
ghost use Rattle.std.specs.declared.cmp.Ordering.TheVariants.{Less};
ghost use Rattle.dns_names_wire.specs.Words.{ReportsClass, ReportsType, class_code, class_name, class_of_code, class_of_name, class_of_text, op_code, op_entry, op_of_code, response_code, response_entry, response_of_code, serial_cmp, serial_sum, type_cmp, type_code, type_name, type_of_code, type_of_name, type_of_text, Looks};

use dns_names_wire::codes::{CodeText, TypeIter};
use dns_names_wire::error::{DecodeError, ProtoResult};
use dns_names_wire::message::{Header, OpCode, ResponseCode};
use dns_names_wire::{DNSClass, RecordType, RecordTypeSet, SerialNumber};
use std::alloc::{AllocError, Global};
use std::cmp::Ordering;
use std::collections::HashSet;

/// Returns the type with a code: the one with a name, or `Unknown`.
pub fn type_with(code: u16) -> RecordType
    ensures { result ≡ type_of_code code }
{
    code.into()
}

/// Returns the class with a code: the one with a name, or `Unknown`.
pub fn class_with(code: u16) -> DNSClass
    ensures { result ≡ class_of_code code }
{
    DNSClass::from(code)
}

/// Returns `true` if only questions and messages of their own have the type, and no zone: its code is from 128 to 255
/// (RFC 6895, section 3.1).
pub fn is_meta(record_type: RecordType) -> bool
    ensures { IsTrue result ↔ ((128 ≤ type_code record_type) × (type_code record_type ≤ 255)) }
{
    (128..=255).contains(&record_type.code())
}

/// Returns `true` if two classes have the same code, as `OPT(1024)` and `Unknown(1024)`, which are not equal.
pub fn have_one_code(class: DNSClass, other: DNSClass) -> bool
    ensures { IsTrue result ↔ (class_code class ≡ class_code other) }
{
    class.code() == other.code()
}

/// Returns the names of a class and a type in capitals, as they are printed.
pub fn names_of(class: DNSClass, record_type: RecordType) -> (&'static str, &'static str)
    ensures class { result.0.now ≡ class_name class }
    ensures record_type { result.1.now ≡ type_name record_type }
{
    (class.name(), record_type.name())
}

/// Returns a class and a type as a line of a dump has them.
pub fn printed(
    alloc: Global,
    class: DNSClass,
    record_type: RecordType,
) -> Result<String, AllocError> {
    Ok(format!(in alloc; "{class} {record_type} ({class:?} {record_type:?})")?)
}

/// Returns the type that a text names, in capitals.
pub fn named_type(alloc: Global, text: &str) -> Result<RecordType, DecodeError>
    ensures { Looks (type_of_name text.now) (ReportsType text.now) result }
{
    RecordType::from_str(alloc, text)
}

/// Returns the class that a text names, in capitals.
pub fn named_class(alloc: Global, text: &str) -> Result<DNSClass, DecodeError>
    ensures { Looks (class_of_name text.now) (ReportsClass text.now) result }
{
    DNSClass::from_str(alloc, text)
}

/// Returns the class and the type that words of a master file give, by their names or by their codes.
pub fn written(class: &str, record_type: &str) -> Option<(DNSClass, RecordType)>
    ensures class { (x : _) → result ≡ Some x → class_of_text class.now ≡ Some x.0 }
    ensures record_type { (x : _) → result ≡ Some x → type_of_text record_type.now ≡ Some x.1 }
{
    Some((
        DNSClass::from_text(class)?,
        RecordType::from_text(record_type)?,
    ))
}

/// Returns the words of a master file for a class and a type.
pub fn words(class: DNSClass, record_type: RecordType) -> (CodeText, CodeText) {
    (class.to_text(), record_type.to_text())
}

/// Returns the lesser of two types. By codes, and the type with a name before `Unknown` of its code.
pub fn lesser(record_type: RecordType, other: RecordType) -> RecordType {
    if other < record_type {
        other
    } else {
        record_type
    }
}

/// Returns the greater of two classes, or `None` if they are equal.
pub fn greater(class: DNSClass, other: DNSClass) -> Option<DNSClass> {
    match class.cmp(&other) {
        Ordering::Less => Some(other),
        Ordering::Equal => None,
        Ordering::Greater => Some(class),
    }
}

/// Returns the number of different types and of different classes.
pub fn count_different(
    alloc: Global,
    kinds: &[RecordType],
    classes: &[DNSClass],
) -> Result<(usize, usize), AllocError> {
    let mut seen_kinds = HashSet::new(alloc);
    for record_type in kinds {
        seen_kinds.insert(*record_type)?;
    }
    let mut seen_classes = HashSet::new(alloc);
    for class in classes {
        seen_classes.insert(*class)?;
    }
    Ok((seen_kinds.len(), seen_classes.len()))
}

/// Returns the codes of an operation and of a response, and their names as a log has them.
pub fn header_codes(op: OpCode, response: ResponseCode) -> ((u8, &'static str), (u16, &'static str))
    ensures op { (result.0.0 ≡ op_code op) × (result.0.1.now ≡ (op_entry op).name) }
    ensures response { (result.1.0 ≡ response_code response) × (result.1.1.now ≡ (response_entry response).name) }
{
    ((op.code(), op.name()), (response.code(), response.name()))
}

/// Returns the operation and the response with these codes.
pub fn header_values(op: u8, response: u16) -> (OpCode, ResponseCode)
    ensures op { result.0 ≡ op_of_code op }
    ensures response { result.1 ≡ response_of_code response }
{
    (OpCode::from(op), ResponseCode::from(response))
}

/// Returns `true` if a zone's serial number has gone past ours, so that the zone is to be transferred (RFC 1996, section 4.5).
pub fn is_newer(theirs: u32, ours: u32) -> bool
    ensures { IsTrue result ↔ (serial_cmp ours theirs ≡ Some Less) }
{
    SerialNumber::new(ours).partial_cmp(&theirs.into()) == Some(Ordering::Less)
}

/// Returns the serial number of a zone after a change.
pub fn next_serial(serial: SerialNumber) -> u32
    ensures { result ≡ serial_sum serial 1 }
{
    (serial + SerialNumber::from(1)).get()
}

/// Returns the set of a zone's own types and `NSEC`, as the record of a signed owner lists them (RFC 4034, section 4.1.2).
pub fn listed_types(alloc: Global, own: &[RecordType]) -> ProtoResult<RecordTypeSet> {
    let mut kinds = Vec::new(alloc);
    kinds.extend_from_slice(own)?;
    kinds.push(RecordType::NSEC)?;
    RecordTypeSet::new(alloc, kinds)
}

/// Returns the words of the types of a set, in ascending order, with a blank before each.
pub fn set_text(alloc: Global, set: &RecordTypeSet) -> Result<String, AllocError> {
    let mut text = String::new(alloc);
    let kinds: TypeIter<'_> = set.iter();
    for record_type in kinds {
        text.push(' ')?;
        text.push_str(record_type.to_text().as_str())?;
    }
    Ok(text)
}
