//! Sections of a message, as the tests write them and expect them back.

use dns_names_wire::binary::{BinDecodable, BinEncodable};
use dns_names_wire::decoder::BinDecoder;
use dns_names_wire::dns_class::DNSClass;
use dns_names_wire::encoder::{BinEncoder, RDataEncoding};
use dns_names_wire::error::ProtoResult;
use dns_names_wire::name::Name;
use dns_names_wire::record::{RecordRef, WireData, WireRecord};
use dns_names_wire::record_type::RecordType;
use std::alloc::Global;

/// The octets of a message's header (RFC 1035, section 4.1.1).
pub const HEADER: usize = 12;

/// The time to live of each row.
const TTL: u32 = 300;

/// The data of a row.
#[derive(Clone, Copy)]
pub enum Data<'d> {
    /// These bytes.
    Bytes(&'d [u8]),
    /// A name of this text.
    Name(&'d str, RDataEncoding),
}

/// A record of a section, of class IN.
#[derive(Clone, Copy)]
pub(crate) struct Row<'d> {
    /// The text of its owner.
    pub owner: &'d str,
    /// Its type.
    pub record_type: RecordType,
    /// Its data.
    pub data: Data<'d>,
}

/// Returns the record of a row.
pub(crate) fn record_of(alloc: Global, row: Row<'_>) -> ProtoResult<WireRecord> {
    let rdata = match row.data {
        Data::Bytes(bytes) => WireData::Bytes(Vec::from_slice(alloc, bytes)?),
        Data::Name(text, encoding) => WireData::Name {
            name: Name::from_ascii(alloc, text)?,
            encoding,
        },
    };
    Ok(WireRecord {
        owner: Name::from_ascii(alloc, row.owner)?,
        record_type: row.record_type,
        class: DNSClass::IN,
        ttl: TTL,
        rdata,
    })
}

/// Writes a header with these flags and counts, of one question and of the records of three sections.
pub(crate) fn write_header(
    encoder: &mut BinEncoder<'_>,
    flags: u16,
    counts: [u16; 3],
) -> ProtoResult<()> {
    encoder.emit_u16(0x1234)?;
    encoder.emit_u16(flags)?;
    encoder.emit_u16(0)?;
    encoder.emit_u16(counts[0])?;
    encoder.emit_u16(counts[1])?;
    encoder.emit_u16(counts[2])
}

/// Writes the rows in turn, up to the first that is refused, and returns how many were written.
pub(crate) fn write_rows(
    alloc: Global,
    encoder: &mut BinEncoder<'_>,
    rows: &[Row<'_>],
) -> ProtoResult<usize> {
    let mut count = 0usize;
    for row in rows {
        if record_of(alloc, *row)?.emit(encoder).is_err() {
            return Ok(count);
        }
        count = count.saturating_add(1);
    }
    Ok(count)
}

/// Returns `true` if the message has these rows after its header, and nothing after them.
pub(crate) fn has_rows(alloc: Global, message: &[u8], rows: &[Row<'_>]) -> ProtoResult<bool> {
    let mut decoder = BinDecoder::new(message);
    decoder.skip(HEADER)?;
    for row in rows {
        let record = RecordRef::read(alloc, &mut decoder)?;
        if !is_row(alloc, &record, *row)? {
            return Ok(false);
        }
    }
    Ok(decoder.is_empty())
}

/// Returns `true` if the record is that of the row, ignoring the case of its names.
fn is_row(alloc: Global, record: &RecordRef<'_>, row: Row<'_>) -> ProtoResult<bool> {
    let owner = Name::from_ascii(alloc, row.owner)?;
    let head = record.owner().eq_name(&owner)
        && record.record_type().code() == row.record_type.code()
        && record.class().code() == DNSClass::IN.code()
        && record.ttl() == TTL;
    match row.data {
        Data::Bytes(bytes) => Ok(head && record.rdata() == bytes),
        Data::Name(text, _) => {
            let name = Name::from_ascii(alloc, text)?;
            Ok(head && record.data_name(alloc)? == name)
        }
    }
}
