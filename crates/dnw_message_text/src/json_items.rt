//! Questions and records as JSON objects (RFC 8427, sections 2.2 and 2.3).
ghost use Rattle.std.specs.Prelude.{IfOk};
ghost use Rattle.dnw_message_text.specs.JsonTexts.{AreOwnOctets};

use crate::json_string::push_string;
use dnw_base::dns_class::DNSClass;
use dnw_base::record_type::RecordType;
use dnw_message_read::items::{Queries, Records};
use dnw_message_read::query::QueryRef;
use dnw_name::name_ref::NameRef;
use dnw_record::rdata::{RData, RDataError};
use dnw_record::record_ref::RecordRef;
use dnw_zone_data::data_text::data_text;
use dnw_zone_data::name::write_name;
use std::alloc::{AllocError, Global};

/// Appends the members of the only question.
pub(crate) fn push_only(
    alloc: Global,
    text: &mut String,
    query: &QueryRef<'_>,
) -> Result<(), AllocError> {
    text.push_str(",")?;
    push_item(
        alloc,
        text,
        "Q",
        query.name(),
        query.query_type(),
        query.query_class(),
    )
}

/// Appends the list of the questions.
pub(crate) fn push_query_list(
    alloc: Global,
    text: &mut String,
    queries: Queries<'_>,
) -> Result<(), AllocError> {
    text.push_str(",\"questionRRs\":[")?;
    push_queries(alloc, text, queries)?;
    text.push_str("]")
}

/// Appends questions, with a comma between them.
fn push_queries(alloc: Global, text: &mut String, queries: Queries<'_>) -> Result<(), AllocError> {
    let mut is_first = true;
    for query in queries {
        if !is_first {
            text.push_str(",")?;
        }
        push_query(alloc, text, &query)?;
        is_first = false;
    }
    Ok(())
}

/// Appends a question as an object.
fn push_query(alloc: Global, text: &mut String, query: &QueryRef<'_>) -> Result<(), AllocError> {
    text.push_str("{")?;
    push_item(
        alloc,
        text,
        "",
        query.name(),
        query.query_type(),
        query.query_class(),
    )?;
    text.push_str("}")
}

/// Appends a list of records, after its name.
pub(crate) fn push_record_list(
    alloc: Global,
    text: &mut String,
    name: &str,
    records: Records<'_>,
) -> Result<(), AllocError> {
    text.push_str(name)?;
    push_records(alloc, text, records)?;
    text.push_str("]")
}

/// Appends records, with a comma between them.
fn push_records(alloc: Global, text: &mut String, records: Records<'_>) -> Result<(), AllocError> {
    let mut is_first = true;
    for record in records {
        if !is_first {
            text.push_str(",")?;
        }
        push_record(alloc, text, &record)?;
        is_first = false;
    }
    Ok(())
}

/// Appends a record as an object.
fn push_record(alloc: Global, text: &mut String, record: &RecordRef<'_>) -> Result<(), AllocError> {
    let data = data_text(alloc, record)?;
    let octets = own_octets(alloc, record)?;
    text.push_str("{")?;
    push_item(
        alloc,
        text,
        "",
        record.owner(),
        record.record_type(),
        record.class(),
    )?;
    push_text(text, record, data.as_str())?;
    push_octets(alloc, text, octets.as_slice())
}

/// Appends the name of an item, its type and its class, as members whose names begin with a mark.
fn push_item(
    alloc: Global,
    text: &mut String,
    mark: &str,
    name: &NameRef<'_>,
    record_type: RecordType,
    class: DNSClass,
) -> Result<(), AllocError> {
    write!(text, "\"{mark}NAME\":")?;
    push_name(alloc, text, name)?;
    push_codes(text, mark, record_type, class)
}

/// Appends a name as a string.
fn push_name(alloc: Global, text: &mut String, name: &NameRef<'_>) -> Result<(), AllocError> {
    let mut own = String::new(alloc);
    write_name(name, &mut own)?;
    push_string(text, own.as_str())
}

/// Appends a type and a class, by their numbers and their texts. These have no character that is escaped.
fn push_codes(
    text: &mut String,
    mark: &str,
    record_type: RecordType,
    class: DNSClass,
) -> Result<(), AllocError> {
    let (type_code, class_code) = (record_type.code(), class.code());
    let (type_text, class_text) = (record_type.to_text(), class.to_text());
    write!(
        text,
        ",\"{mark}TYPE\":{type_code},\"{mark}TYPEname\":\"{}\"",
        type_text.as_str()
    )?;
    write!(
        text,
        ",\"{mark}CLASS\":{class_code},\"{mark}CLASSname\":\"{}\"",
        class_text.as_str()
    )
}

/// Appends the time to live of a record and the text of its data, as a member that its type names.
fn push_text(text: &mut String, record: &RecordRef<'_>, own: &str) -> Result<(), AllocError> {
    let (ttl, record_type) = (record.ttl(), record.record_type().to_text());
    write!(text, ",\"TTL\":{ttl},\"rdata{}\":", record_type.as_str())?;
    push_string(text, own)
}

/// Returns the octets of the data of a record, with whole names, since a pointer says nothing outside of its message. Data that are
/// not of their type are as they stand.
fn own_octets(alloc: Global, record: &RecordRef<'_>) -> Result<Vec<u8>, AllocError>
    ensures { IfOk result (λ own. AreOwnOctets «record».now own.items) }
{
    match RData::from_ref(alloc, record) {
        Ok(data) => Vec::from_slice(alloc, data.octets()),
        Err(RDataError::Memory) => Err(AllocError),
        Err(RDataError::Field(_)) => Vec::from_slice(alloc, record.rdata()),
    }
}

/// Appends the octets of data, which ends an object.
fn push_octets(alloc: Global, text: &mut String, octets: &[u8]) -> Result<(), AllocError> {
    let digits = hex::encode_upper(alloc, octets)?;
    let len = octets.len();
    write!(
        text,
        ",\"RDLENGTH\":{len},\"RDATAHEX\":\"{}\"}}",
        digits.as_str()
    )
}
