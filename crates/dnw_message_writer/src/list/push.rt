//! Lists of items, made item by item for `writing::write_list`.
ghost use Rattle.std.specs.Prelude.{◌≡◌, ◌<◌, ◌≤◌, ◌⊎◌, ◌∷◌, ◌++◌, length, IfErr, OnErr, OnOk};
ghost use Rattle.dnw_base.specs.DnsClasses.{class_code};
ghost use Rattle.dnw_base.specs.Limits.{max_data};
ghost use Rattle.dnw_base.specs.RecordTypes.{type_code};
ghost use Rattle.dnw_record.specs.Records.{data_octets};
ghost use Rattle.dnw_message_writer.specs.Items.{question_fields};
ghost use Rattle.dnw_message_writer.specs.ListItems.{need_octet, question_item, head_of_record, record_item};
ghost use Rattle.dnw_message_writer.specs.Sections.{rank};
ghost use Rattle.dnw_message_writer.specs.declared.list.push.PushError.TheVariants.{Memory, TooLong};

use crate::items::question_fields;
use crate::list::items::{OPTIONAL, QUESTION, REQUIRED};
use crate::section::Section;
use dnw_base::limits::{MAX_DATA, MAX_NAME};
use dnw_name_form::wire_labels::WireLabels;
use dnw_record::record_ref::RecordRef;
use std::alloc::AllocError;
use thiserror::Error;

/// What the caller says of a record: whether the message has to have it.
#[derive(Debug, Clone, Copy, PartialEq, Eq)]
pub enum Need {
    /// Nothing: what the message is for decides, as `Purpose::is_required` says.
    Usual,
    /// The message has to have the record.
    Required,
    /// The record may be left out.
    Optional,
}

/// Why an item was not added to a list.
#[derive(Debug, Clone, Copy, PartialEq, Eq, Error)]
pub enum PushError {
    /// The data of the record have more than 65,535 octets.
    #[error("the data of the record have more than 65,535 octets")]
    TooLong,
    /// Memory ran out.
    #[error("out of memory")]
    Memory,
}

impl From<AllocError> for PushError {
    ghost use Rattle.std.specs.Prelude.{◌≡◌};
    ghost use Rattle.dnw_message_writer.specs.declared.list.push.PushError.TheVariants.{Memory};

    ghost from_gives = { λ _ error. error ≡ Memory };

    fn from(_error: AllocError) -> Self {
        PushError::Memory
    }
}

/// Adds a question to a list. It fails if an allocation fails, and then the list is unchanged.
pub fn push_question(
    list: &mut Vec<u8>,
    name: WireLabels<'_>,
    query_type: u16,
    class: u16,
) -> Result<(), AllocError>
    ensures ok { OnOk result (list.new.items ≡ list.old.items ++ question_item name.entry query_type class) }
    ensures same { OnErr result (list.new.items ≡ list.old.items) }
{
    let fields = question_fields(query_type, class);
    push_parts(list, QUESTION, name.as_wire(), &[], &fields)
}

/// Adds a record to a list, with data in which each name is in its wire form.
///
/// It fails with `TooLong` if the data have more than 65,535 octets, and with `Memory` if an allocation fails. Then the list is unchanged.
pub fn push_data(
    list: &mut Vec<u8>,
    section: Section,
    need: Need,
    owner: WireLabels<'_>,
    record_type: u16,
    class: u16,
    ttl: u32,
    octets: &[u8],
) -> Result<(), PushError>
    requires { 1 ≤ rank section }
    ensures ok { OnOk result ((length octets.now ≤ max_data) × (list.new.items ≡ list.old.items ++ record_item section need owner.entry record_type class ttl octets.now)) }
    ensures err { IfErr result (λ error. (error ≡ Memory) ⊎ ((error ≡ TooLong) × (max_data < length octets.now))) }
    ensures same { OnErr result (list.new.items ≡ list.old.items) }
{
    if octets.len() > MAX_DATA {
        return Err(PushError::TooLong);
    }
    let octet = section.rank() + need_octet(need);
    let head = head_of_record(record_type, class, ttl, octets.len() as u16);
    push_parts(list, octet, owner.as_wire(), &head, octets)?;
    Ok(())
}

/// Adds a record that was read to a list, as `push_data` does. Its data go into the list as they stand, so they have no pointers if the
/// list is to be written.
pub fn push_record(
    list: &mut Vec<u8>,
    section: Section,
    need: Need,
    item: &RecordRef<'_>,
) -> Result<(), PushError>
    requires { 1 ≤ rank section }
    ensures ok { OnOk result (list.new.items ≡ list.old.items
        ++ record_item section need item.now.owner (type_code item.now.record_type) (class_code item.now.class) item.now.ttl (data_octets item.now)) }
    ensures err { IfErr result (λ error. (error ≡ Memory) ⊎ ((error ≡ TooLong) × (max_data < length (data_octets item.now)))) }
    ensures same { OnErr result (list.new.items ≡ list.old.items) }
{
    let mut room = [0; MAX_NAME];
    let owner = item.owner().wire_labels(&mut room);
    let record_type = item.record_type().code();
    let class = u16::from(item.class());
    match push_data(
        list,
        section,
        need,
        owner,
        record_type,
        class,
        item.ttl(),
        item.rdata(),
    ) {
        Ok(()) => Ok(()),
        Err(error) => Err(error),
    }
}

/// Returns what the octet before a record has besides its section.
fn need_octet(need: Need) -> u8
    ensures value { result ≡ need_octet need }
    ensures few { result ≤ 128 }
{
    match need {
        Need::Usual => 0,
        Need::Required => REQUIRED,
        Need::Optional => OPTIONAL,
    }
}

/// Returns the fields of a record between its owner and its data, of which there are so many octets.
fn head_of_record(record_type: u16, class: u16, ttl: u32, size: u16) -> [u8; 10]
    ensures { result ≡ head_of_record record_type class ttl size }
{
    let record_type = record_type.to_be_bytes();
    let class = class.to_be_bytes();
    let ttl = ttl.to_be_bytes();
    let size = size.to_be_bytes();
    [
        record_type[0],
        record_type[1],
        class[0],
        class[1],
        ttl[0],
        ttl[1],
        ttl[2],
        ttl[3],
        size[0],
        size[1],
    ]
}

/// Appends an octet and three runs of octets, or nothing if it fails.
fn push_parts(
    list: &mut Vec<u8>,
    octet: u8,
    name: &[u8],
    fields: &[u8],
    octets: &[u8],
) -> Result<(), AllocError>
    ensures ok { OnOk result (list.new.items ≡ list.old.items ++ octet ∷ (name.now ++ (fields.now ++ octets.now))) }
    ensures same { OnErr result (list.new.items ≡ list.old.items) }
{
    let start = list.len();
    list.push(octet)?;
    if let Err(error) = append_three(list, name, fields, octets) {
        list.truncate(start);
        return Err(error);
    }
    Ok(())
}

/// Appends three runs of octets, or nothing if it fails.
fn append_three(
    list: &mut Vec<u8>,
    first: &[u8],
    second: &[u8],
    third: &[u8],
) -> Result<(), AllocError>
    ensures ok { OnOk result (list.new.items ≡ list.old.items ++ (first.now ++ (second.now ++ third.now))) }
    ensures same { OnErr result (list.new.items ≡ list.old.items) }
{
    let before = list.len();
    list.extend_from_slice(first)?;
    if let Err(error) = append_both(list, second, third) {
        list.truncate(before);
        return Err(error);
    }
    Ok(())
}

/// Appends two runs of octets, or nothing if it fails.
fn append_both(list: &mut Vec<u8>, first: &[u8], second: &[u8]) -> Result<(), AllocError>
    ensures ok { OnOk result (list.new.items ≡ list.old.items ++ (first.now ++ second.now)) }
    ensures same { OnErr result (list.new.items ≡ list.old.items) }
{
    let before = list.len();
    list.extend_from_slice(first)?;
    if let Err(error) = list.extend_from_slice(second) {
        list.truncate(before);
        return Err(error);
    }
    Ok(())
}
