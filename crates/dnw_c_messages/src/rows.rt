//! The rows of the table of a message, and the names beside them.
ghost use Rattle.std.specs.Prelude.{◌≡◌, ◌≤◌, ◌<◌, ◌⊎◌, ◌-◌, ◌+◌, ℕ, List, length, drop, OnOk, IfErr};
ghost use Rattle.dnw_base.specs.Decoder.{Decoder};
ghost use Rattle.dnw_c_messages.specs.Listings.{Exceeds, data_row, fault_row, field_row, named, with_name, with_row};
ghost use Rattle.dnw_c_messages.specs.FieldCalls.{head_of};
ghost use Rattle.dnw_c_messages.specs.Inside.Sheets.{FillsTo, Fits, RowsAdvance, listing, sheet};
ghost use Rattle.dnw_c_base.specs.declared.failure.Failure.TheVariants.{NoRoom, TooManyPointers};

use crate::fields::{field_kind, head_of};
use dnw_base::decoder::BinDecoder;
use dnw_c_base::failure::Failure;
use dnw_c_base::names::put_name;
use dnw_data::kind::Kind;
use dnw_name::name_ref::NameRef;

/// The kind of the row of an entry of a list.
pub(crate) const ENTRY: u32 = 19;

/// The kind of the row of data that are not the fields of their type from an offset on.
pub(crate) const FAULT: u32 = 20;

/// A row of the table of a message: of a question or a record, whose section is not 0, or of a field of its data. `name` is where
/// the wire form of its name is among the names.
#[repr(C)]
#[derive(Clone, Copy)]
pub struct TableRow {
    pub section: u32,
    pub kind: u32,
    pub record_type: u16,
    pub record_class: u16,
    pub number: u32,
    pub offset: usize,
    pub len: usize,
    pub name: usize,
    pub name_len: usize,
}

/// How many rows and octets of names are put, and how many pointers more the names may follow.
#[derive(Clone, Copy)]
pub struct Listed {
    pub row_count: usize,
    pub names_len: usize,
    pub left: usize,
}

/// Puts a row.
#[inline(always)]
pub(crate) fn list_row(row: TableRow, rows: &mut [TableRow], at: &mut Listed) -> Result<(), Failure>
    requires { at.old.row_count ≤ length rows.old }
    ensures ok { OnOk result (RowsAdvance rows.old rows.new at.old at.new (λ l. with_row l row)) }
    ensures fits { OnOk result (at.new.row_count ≤ length rows.new) }
    ensures err { IfErr result (λ failure. (failure ≡ NoRoom) × (at.old.row_count ≡ length rows.old)) }
{
    if at.row_count == rows.len() {
        return Err(Failure::NoRoom);
    }
    rows[at.row_count] = row;
    at.row_count += 1;
    Ok(())
}

/// Puts a name that followed so many pointers, and a row with its place.
#[inline(always)]
pub(crate) fn list_name(
    name: &NameRef<'_>,
    pointers: usize,
    row: TableRow,
    rows: &mut [TableRow],
    names: &mut [u8],
    at: &mut Listed,
) -> Result<(), Failure>
    requires { Fits (sheet rows.old names.old at.old) }
    ensures ok { OnOk result ((pointers ≤ at.old.left) × FillsTo (sheet rows.old names.old at.old) (sheet rows.new names.new at.new)
        (with_name (listing (sheet rows.old names.old at.old)) name.now pointers row)) }
    ensures err { IfErr result (λ failure. ((failure ≡ TooManyPointers) × (at.old.left < pointers)) ⊎ ((failure ≡ NoRoom) × (pointers ≤ at.old.left)
        × Exceeds (length rows.old) (length names.old) (with_name (listing (sheet rows.old names.old at.old)) name.now pointers row))) }
{
    if pointers > at.left {
        return Err(Failure::TooManyPointers);
    }
    let name_len = put_name(&mut names[at.names_len..], name)?;
    let named = TableRow {
        name: at.names_len,
        name_len,
        ..row
    };
    at.names_len += name_len;
    at.left -= pointers;
    list_row(named, rows, at)
}

/// Returns a row of data, of this kind and with this number.
#[inline(always)]
pub(crate) fn data_row(kind: u32, number: u32, offset: usize, len: usize) -> TableRow
    ensures { result ≡ data_row kind number offset len }
{
    TableRow {
        section: 0,
        kind,
        record_type: 0,
        record_class: 0,
        number,
        offset,
        len,
        name: 0,
        name_len: 0,
    }
}

/// Returns the row of a field that goes from `start` to `end`.
#[inline(always)]
pub(crate) fn field_row(kind: Kind, start: usize, end: usize) -> TableRow
    requires { start + head_of kind ≤ end }
    ensures { result ≡ field_row kind start end }
{
    let offset = start + head_of(kind);
    data_row(field_kind(kind), 0, offset, end - offset)
}

/// Puts a row that says why there is no field at the cursor.
pub(crate) fn list_fault(
    why: Failure,
    data: &BinDecoder<'_>,
    rows: &mut [TableRow],
    at: &mut Listed,
) -> Result<(), Failure>
    requires { at.old.row_count ≤ length rows.old }
    ensures ok { OnOk result (RowsAdvance rows.old rows.new at.old at.new (λ l. with_row l (fault_row why «data».now))) }
    ensures err { IfErr result (λ failure. (failure ≡ NoRoom) × (at.old.row_count ≡ length rows.old)) }
{
    let row = data_row(FAULT, why.number(), data.index(), data.len());
    list_row(row, rows, at)
}
