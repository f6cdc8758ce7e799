//! The items of a list of which a message is written.
ghost use Rattle.std.specs.Prelude.{◌≡◌, ◌∷◌, ◌++◌, ◌^◌, if◌then◌else◌, Some, OnOk};
ghost use Rattle.std.specs.Int.{w16, to_be_bytes};
ghost use Rattle.dns_names_wire.specs.Words.{class_code, type_code};
ghost use Rattle.ans_reply.specs.Lists.{opt_item, opt_octets, item_of_question, item_of_record, section_items};

use crate::record::Listed;
use dns_names_wire::limits::MAX_NAME;
use dns_names_wire::message::QueryRef;
use dns_names_wire::message_writer::Asked;
use dns_names_wire::type_codes::OPT;
use std::alloc::AllocError;

/// The size of the messages that a server accepts, in octets, as its `OPT` records say. Larger ones may be split on their way, and such
/// ones get lost.
pub(crate) const PAYLOAD: u16 = 1232;

/// DO among the flags of an `OPT` record, which are in its time to live (RFC 6891, section 6.1.4).
const DNSSEC_OK: u32 = 0x8000;

/// Appends an item: its octet, the wire form of its name, its fields and its data.
fn append_item(
    list: &mut Vec<u8>,
    octet: u8,
    name: &[u8],
    fields: &[u8],
    data: &[u8],
) -> Result<(), AllocError>
    ensures { OnOk result (list.new.items ≡ list.old.items ++ octet ∷ (name.now ++ (fields.now ++ data.now))) }
{
    list.push(octet)?;
    list.extend_from_slice(name)?;
    list.extend_from_slice(fields)?;
    list.extend_from_slice(data)
}

/// Appends a question as it was asked.
pub(crate) fn append_question(list: &mut Vec<u8>, query: &QueryRef<'_>) -> Result<(), AllocError>
    ensures { OnOk result (list.new.items ≡ list.old.items ++ item_of_question (Some query.now)) }
{
    let mut room = [0; MAX_NAME];
    let name = query.name().wire_labels(&mut room);
    append_item(list, 0, name.as_wire(), &question_fields(query), &[])
}

/// Returns the type and the class of a question as octets (RFC 1035, section 4.1.2).
fn question_fields(query: &QueryRef<'_>) -> [u8; 4]
    ensures { result ≡ to_be_bytes w16 (type_code query.now.query_type) ++ to_be_bytes w16 (class_code query.now.query_class) }
{
    let code = query.query_type().code().to_be_bytes();
    let class = query.query_class().code().to_be_bytes();
    [code[0], code[1], class[0], class[1]]
}

/// Appends a record of a section.
fn append_record(list: &mut Vec<u8>, section: u8, record: &Listed<'_>) -> Result<(), AllocError>
    ensures { OnOk result (list.new.items ≡ list.old.items ++ item_of_record section record.now) }
{
    append_item(
        list,
        section,
        record.owner_wire(),
        &record.fields(),
        record.data(),
    )
}

/// Appends the records of a section.
pub(crate) fn append_section(
    list: &mut Vec<u8>,
    section: u8,
    records: &[Listed<'_>],
) -> Result<(), AllocError>
    ensures { OnOk result (list.new.items ≡ list.old.items ++ section_items section records.now) }
{
    'records: for record in records {
        append_record(list, section, record)?;
    }
    Ok(())
}

/// Appends the `OPT` record of a reply, if the request has one.
pub(crate) fn append_opt(list: &mut Vec<u8>, asked: Asked) -> Result<(), AllocError>
    ensures { OnOk result (list.new.items ≡ list.old.items ++ opt_item asked) }
{
    if !asked.has_edns {
        return Ok(());
    }
    list.extend_from_slice(&opt_octets(asked.dnssec_ok))
}

/// Returns the octets of an `OPT` record without options, after the octet for its section.
fn opt_octets(dnssec_ok: bool) -> [u8; 12]
    ensures { result ≡ opt_octets dnssec_ok }
{
    let code = OPT.to_be_bytes();
    let payload = PAYLOAD.to_be_bytes();
    let flags = opt_flags(dnssec_ok).to_be_bytes();
    [
        3, 0, code[0], code[1], payload[0], payload[1], flags[0], flags[1], flags[2], flags[3], 0,
        0,
    ]
}

/// Returns the flags of an `OPT` record.
fn opt_flags(dnssec_ok: bool) -> u32
    ensures { result ≡ (if dnssec_ok then 2 ^ 15 else 0) }
{
    if dnssec_ok { DNSSEC_OK } else { 0 }
}
