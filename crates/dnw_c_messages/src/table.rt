//! All items of a message and the fields of their data as a flat table.
ghost use Rattle.std.specs.Prelude.{◌≡◌, ◌≢◌, ◌≤◌, ◌<◌, ◌+◌, ◌∷◌, [], drop, length, slice_range, IfOk, IfErr, OnOk};
ghost use Rattle.dnw_base.specs.Decoder.{HasLeft, advanced};
ghost use Rattle.dnw_base.specs.declared.error.DecodeError.{DecodeError};
ghost use Rattle.dnw_base.specs.DnsClasses.{class_code, class_of_code};
ghost use Rattle.dnw_base.specs.RecordTypes.{type_code, type_of_code};
ghost use Rattle.dnw_data.specs.Table.{fields_of};
ghost use Rattle.dnw_message_read.specs.Messages.{record_rest};
ghost use Rattle.dnw_message_read.specs.declared.error.Section.TheVariants.{Queries};
ghost use Rattle.dnw_message_read.specs.Headers.{header_of, header_size};
ghost use Rattle.dnw_c_base.specs.Results.{Returns};
ghost use Rattle.dnw_c_base.specs.declared.failure.Failure.TheVariants.{MessageCut};
ghost use Rattle.dnw_c_messages.specs.Listings.{item_row, items, question_row, record_row};
ghost use Rattle.dnw_c_messages.specs.MessageCalls.{section_number};
ghost use Rattle.dnw_c_messages.specs.TableCalls.{PutsTable};
ghost use Rattle.dnw_c_messages.specs.Inside.Sheets.{Fits, Goes, GoesByOne, HaltsAtOne, HaltsOn, section_tasks, sheet};

use crate::message::section_number;
use crate::row_fields::list_fields;
use crate::rows::{Listed, TableRow, list_name};
use dnw_base::decoder::BinDecoder;
use dnw_base::dns_class::DNSClass;
use dnw_base::error::DecodeError;
use dnw_base::record_type::RecordType;
use dnw_c_base::failure::Failure;
use dnw_c_base::results::report;
use dnw_data::kind::Kind;
use dnw_data::table::fields_of;
use dnw_message_read::error::Section;
use dnw_message_read::header::{Header, HeaderCounts};
use dnw_name::name_ref::NameRef;
use dnw_name_read::walk::ReadSteps;
use dnw_record::record_ref::FIXED_SIZE;

/// How many octets of a question are after its name (RFC 1035, section 4.1.2).
const QUESTION_SIZE: usize = 4;

/// How many rows of a table were put, and how many octets of names.
#[repr(C)]
#[derive(Clone, Copy)]
pub struct Table {
    pub row_count: usize,
    pub names_len: usize,
}

/// Checks a whole message, and puts a row for each of its questions and records, each followed by rows for the fields of its data. All
/// names together, also those of data, may follow no more than `max_pointers`. It does not allocate.
#[unsafe(no_mangle)]
pub extern "C" fn dnw_message_table(
    message: &[u8],
    max_pointers: usize,
    rows: &mut [TableRow],
    names: &mut [u8],
    table: &mut Table,
) -> u32
    ensures { Returns (PutsTable message.now max_pointers rows.old rows.new names.old names.new) table.old table.new result }
{
    report(list(message, max_pointers, rows, names), table)
}

/// Puts the rows of a message and its names.
#[inline(always)]
fn list(
    message: &[u8],
    max_pointers: usize,
    rows: &mut [TableRow],
    names: &mut [u8],
) -> Result<Table, Failure>
    ensures { PutsTable message.now max_pointers rows.old rows.new names.old names.new result }
{
    let counts = read_counts(message)?;
    let mut reader = after_header(message);
    let mut at = Listed {
        row_count: 0,
        names_len: 0,
        left: max_pointers,
    };
    list_sections(counts, &mut reader, rows, names, &mut at)?;
    Ok(Table {
        row_count: at.row_count,
        names_len: at.names_len,
    })
}

/// Returns how many items the sections of a message have.
#[inline(always)]
fn read_counts(message: &[u8]) -> Result<HeaderCounts, Failure>
    ensures ok { IfOk result (λ counts. (header_size ≤ length message.now) × (counts ≡ (header_of (slice_range message.now 0 header_size)).counts)) }
    ensures err { IfErr result (λ failure. (length message.now < header_size) × (failure ≡ MessageCut)) }
{
    match message.first_chunk() {
        Some(head) => Ok(Header::from_octets(head).counts),
        None => Err(Failure::MessageCut),
    }
}

/// Returns a decoder of a message after the header.
#[inline(always)]
fn after_header(message: &[u8]) -> BinDecoder<'_>
    requires { header_size ≤ length message.now }
    ensures { result ≡ record { bytes = message.now; index = header_size } }
{
    let mut reader = BinDecoder::new(message);
    reader.skip(Header::LEN).unwrap();
    reader
}

/// Puts rows of the items of all sections.
fn list_sections(
    counts: HeaderCounts,
    reader: &mut BinDecoder<'_>,
    rows: &mut [TableRow],
    names: &mut [u8],
    at: &mut Listed,
) -> Result<(), Failure>
    requires { Fits (sheet rows.old names.old at.old) }
    ensures ok { OnOk result (Goes reader.old.bytes (section_tasks counts) reader.old.index (sheet rows.old names.old at.old) []
        reader.new.index (sheet rows.new names.new at.new)) }
    ensures err { IfErr result (HaltsOn reader.old.bytes (section_tasks counts) reader.old.index (sheet rows.old names.old at.old)) }
{
    list_items(Section::Queries, counts.queries, reader, rows, names, at)?;
    list_items(Section::Answers, counts.answers, reader, rows, names, at)?;
    list_items(
        Section::Authorities,
        counts.authorities,
        reader,
        rows,
        names,
        at,
    )?;
    list_items(
        Section::Additionals,
        counts.additionals,
        reader,
        rows,
        names,
        at,
    )
}

/// Puts rows of so many items of a section, which are read from the cursor on.
fn list_items(
    section: Section,
    count: u16,
    reader: &mut BinDecoder<'_>,
    rows: &mut [TableRow],
    names: &mut [u8],
    at: &mut Listed,
) -> Result<(), Failure>
    requires { Fits (sheet rows.old names.old at.old) }
    ensures ok { OnOk result (Goes reader.old.bytes (items section count ∷ []) reader.old.index (sheet rows.old names.old at.old) []
        reader.new.index (sheet rows.new names.new at.new)) }
    ensures same { OnOk result (reader.new.bytes ≡ reader.old.bytes) }
    ensures err { IfErr result (HaltsOn reader.old.bytes (items section count ∷ []) reader.old.index (sheet rows.old names.old at.old)) }
{
    let mut left = count;
    'items: while left > 0 {
        list_item(section, reader, rows, names, at)?;
        left -= 1;
    }
    Ok(())
}

/// Puts rows of the first of the items that are left of a section.
#[inline(always)]
fn list_item(
    section: Section,
    reader: &mut BinDecoder<'_>,
    rows: &mut [TableRow],
    names: &mut [u8],
    at: &mut Listed,
) -> Result<(), Failure>
    requires { Fits (sheet rows.old names.old at.old) }
    ensures ok { OnOk result (GoesByOne section reader.old.bytes reader.old.index (sheet rows.old names.old at.old) reader.new.index
        (sheet rows.new names.new at.new)) }
    ensures same { OnOk result (reader.new.bytes ≡ reader.old.bytes) }
    ensures err { IfErr result (HaltsAtOne section reader.old.bytes reader.old.index (sheet rows.old names.old at.old)) }
{
    match section {
        Section::Queries => list_question(reader, rows, names, at),
        _ => list_record(section, reader, rows, names, at),
    }
}

/// Puts the row of the question at the cursor.
#[inline(always)]
fn list_question(
    reader: &mut BinDecoder<'_>,
    rows: &mut [TableRow],
    names: &mut [u8],
    at: &mut Listed,
) -> Result<(), Failure>
    requires { Fits (sheet rows.old names.old at.old) }
    ensures ok { OnOk result (GoesByOne Queries reader.old.bytes reader.old.index (sheet rows.old names.old at.old) reader.new.index
        (sheet rows.new names.new at.new)) }
    ensures same { OnOk result (reader.new.bytes ≡ reader.old.bytes) }
    ensures err { IfErr result (HaltsAtOne Queries reader.old.bytes reader.old.index (sheet rows.old names.old at.old)) }
{
    let mut steps = ReadSteps::default();
    let name = NameRef::read_counted(reader, &mut steps)?;
    let row = read_question(reader)?;
    list_name(&name, steps.pointers, row, rows, names, at)
}

/// Puts the rows of the record at the cursor, and of the fields of its data.
#[inline(always)]
fn list_record(
    section: Section,
    reader: &mut BinDecoder<'_>,
    rows: &mut [TableRow],
    names: &mut [u8],
    at: &mut Listed,
) -> Result<(), Failure>
    requires other { section ≢ Queries }
    requires fits { Fits (sheet rows.old names.old at.old) }
    ensures ok { OnOk result (GoesByOne section reader.old.bytes reader.old.index (sheet rows.old names.old at.old) reader.new.index
        (sheet rows.new names.new at.new)) }
    ensures same { OnOk result (reader.new.bytes ≡ reader.old.bytes) }
    ensures err { IfErr result (HaltsAtOne section reader.old.bytes reader.old.index (sheet rows.old names.old at.old)) }
{
    let mut steps = ReadSteps::default();
    let name = NameRef::read_counted(reader, &mut steps)?;
    let row = read_record(section, reader)?;
    list_name(&name, steps.pointers, row, rows, names, at)?;
    let octets = reader.message();
    let own = data_of(row, octets);
    list_fields(kinds_of(row, octets), own, rows, names, at)
}

/// Reads the fields of a question after its name, and returns its row.
#[inline(always)]
fn read_question(reader: &mut BinDecoder<'_>) -> Result<TableRow, DecodeError>
    ensures ok { IfOk result (λ row. HasLeft reader.old 4 × (reader.new ≡ advanced reader.old 4) × (row ≡ question_row reader.old.bytes reader.old.index)) }
    ensures err { IfErr result (λ e. (¬ (HasLeft reader.old 4)) × (e ≡ DecodeError.InsufficientBytes)) }
{
    let fixed = reader.read_slice(QUESTION_SIZE)?.unverified();
    Ok(item_row(1, fixed, 0, reader.index(), 0))
}

/// Reads the fields of a record after its owner, moves past the data, and returns its row.
#[inline(always)]
fn read_record(section: Section, reader: &mut BinDecoder<'_>) -> Result<TableRow, DecodeError>
    ensures ok { IfOk result (λ row. HasLeft reader.old (record_rest reader.old.bytes reader.old.index)
        × (reader.new ≡ advanced reader.old (record_rest reader.old.bytes reader.old.index))
        × (row ≡ record_row (section_number section) reader.old.bytes reader.old.index)) }
    ensures err { IfErr result (λ e. (¬ (HasLeft reader.old (record_rest reader.old.bytes reader.old.index))) × (e ≡ DecodeError.InsufficientBytes)) }
{
    let fixed = reader.read_slice(FIXED_SIZE)?.unverified();
    let ttl = u32::from_be_bytes([fixed[4], fixed[5], fixed[6], fixed[7]]);
    let len = u16::from_be_bytes([fixed[8], fixed[9]]) as usize;
    let row = item_row(section_number(section), fixed, ttl, reader.index(), len);
    reader.skip(len)?;
    Ok(row)
}

/// Returns the row of an item with these fields after its name.
#[inline(always)]
fn item_row(section: u32, fixed: &[u8], ttl: u32, offset: usize, len: usize) -> TableRow
    requires { 4 ≤ length fixed.now }
    ensures { result ≡ item_row section fixed.now ttl offset len }
{
    TableRow {
        section,
        kind: 0,
        record_type: u16::from_be_bytes([fixed[0], fixed[1]]),
        record_class: u16::from_be_bytes([fixed[2], fixed[3]]),
        number: ttl,
        offset,
        len,
        name: 0,
        name_len: 0,
    }
}

/// Returns a decoder at the data of a record, which ends with them.
#[inline(always)]
fn data_of(row: TableRow, message: &[u8]) -> BinDecoder<'_>
    requires { row.offset + row.len ≤ length message.now }
    ensures { result ≡ record { bytes = slice_range message.now 0 (row.offset + row.len); index = row.offset } }
{
    let mut reader = BinDecoder::new(&message[..row.offset + row.len]);
    reader.skip(row.offset).unwrap();
    reader
}

/// Returns the kinds of the fields of the data of a record.
#[inline(always)]
fn kinds_of(row: TableRow, message: &[u8]) -> &'static [Kind]
    requires { row.offset + row.len ≤ length message.now }
    ensures { result.now ≡ fields_of (class_code (class_of_code row.record_class)) (type_code (type_of_code row.record_type))
        (drop row.offset (slice_range message.now 0 (row.offset + row.len))) }
{
    let own = &message[..row.offset + row.len][row.offset..];
    let class = DNSClass::from(row.record_class);
    fields_of(class, RecordType::from(row.record_type), own)
}
