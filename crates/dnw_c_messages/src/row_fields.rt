//! The fields of the data of a record, and the entries of lists among them, as rows of the table of a message.
ghost use Rattle.std.specs.Prelude.{◌≡◌, ◌-◌, ◌≤◌, ◌∷◌, [], ◌++◌, ℕ, List, length, OnOk, OnErr, IfOk, IfErr, MatchOption};
ghost use Rattle.dnw_base.specs.declared.error.DecodeError.{DecodeError};
ghost use Rattle.dnw_name_read.specs.Reading.{TakesName};
ghost use Rattle.dnw_c_base.specs.Failures.{of_decode};
ghost use Rattle.dnw_data.specs.Fields.{FailsField, FailsName, TakesField};
ghost use Rattle.dnw_data.specs.Lists.{ItemsValue};
ghost use Rattle.dnw_data.specs.Values.{seen};
ghost use Rattle.dnw_data.specs.declared.kind.Kind.{Kind};
ghost use Rattle.dnw_c_messages.specs.Listings.{IsOwnKind, Task, entries, entries_of, fields};
ghost use Rattle.dnw_c_messages.specs.Inside.PlainFields.{IsPlainSize};
ghost use Rattle.dnw_c_messages.specs.Inside.Sheets.{Fits, Goes, HaltsOn, left_of, sheet};

use crate::fields::plain_size;
use crate::rows::{ENTRY, Listed, TableRow, data_row, field_row, list_fault, list_name, list_row};
use dnw_base::decoder::BinDecoder;
use dnw_c_base::failure::Failure;
use dnw_data::field::Field;
use dnw_data::kind::Kind;
use dnw_data::lists::Items;
use dnw_name::name_ref::NameRef;
use dnw_name_read::walk::ReadSteps;

/// Puts rows of the fields of these kinds, which are read from the cursor up to the end, and of a fault if they do not end there.
#[inline(always)]
pub(crate) fn list_fields(
    kinds: &[Kind],
    mut reader: BinDecoder<'_>,
    rows: &mut [TableRow],
    names: &mut [u8],
    at: &mut Listed,
) -> Result<(), Failure>
    requires { Fits (sheet rows.old names.old at.old) }
    ensures ok { OnOk result ((b : List ℕ) (p : ℕ) → Goes b (fields kinds.now reader.entry ∷ []) p (sheet rows.old names.old at.old) [] p
        (sheet rows.new names.new at.new)) }
    ensures err { IfErr result (λ failure. (b : List ℕ) (p : ℕ) → HaltsOn b (fields kinds.now reader.entry ∷ []) p
        (sheet rows.old names.old at.old) failure) }
{
    let mut left = kinds;
    'fields: while let Some((kind, others)) = left.split_first() {
        if !list_field(*kind, &mut reader, rows, names, at)? {
            return Ok(());
        }
        left = others;
    }
    if reader.is_empty() {
        return Ok(());
    }
    list_fault(Failure::WrongDataLength, &reader, rows, at)
}

/// Puts rows of the field of this kind that is read at the cursor, and of its entries if it is a list. Returns `false` if there is none,
/// for which it puts a row too.
#[inline(always)]
fn list_field(
    kind: Kind,
    reader: &mut BinDecoder<'_>,
    rows: &mut [TableRow],
    names: &mut [u8],
    at: &mut Listed,
) -> Result<bool, Failure>
    requires { Fits (sheet rows.old names.old at.old) }
    ensures ok { IfOk result (λ goes_on. (kinds : List Kind) (b : List ℕ) (p : ℕ) → Goes b (fields (kind ∷ kinds) reader.old ∷ []) p
        (sheet rows.old names.old at.old) (left_of goes_on kinds reader.new) p (sheet rows.new names.new at.new)) }
    ensures err { IfErr result (λ failure. (kinds : List Kind) (b : List ℕ) (p : ℕ) → HaltsOn b (fields (kind ∷ kinds) reader.old ∷ []) p
        (sheet rows.old names.old at.old) failure) }
{
    match kind {
        Kind::Name(_) => list_name_field(kind, reader, rows, names, at),
        _ => list_own_field(kind, reader, rows, names, at),
    }
}

/// Does so for a name.
#[inline(always)]
fn list_name_field(
    kind: Kind,
    reader: &mut BinDecoder<'_>,
    rows: &mut [TableRow],
    names: &mut [u8],
    at: &mut Listed,
) -> Result<bool, Failure>
    requires name { ¬ (IsOwnKind kind) }
    requires fits { Fits (sheet rows.old names.old at.old) }
    ensures ok { IfOk result (λ goes_on. (kinds : List Kind) (b : List ℕ) (p : ℕ) → Goes b (fields (kind ∷ kinds) reader.old ∷ []) p
        (sheet rows.old names.old at.old) (left_of goes_on kinds reader.new) p (sheet rows.new names.new at.new)) }
    ensures err { IfErr result (λ failure. (kinds : List Kind) (b : List ℕ) (p : ℕ) → HaltsOn b (fields (kind ∷ kinds) reader.old ∷ []) p
        (sheet rows.old names.old at.old) failure) }
{
    let start = reader.index();
    let mut steps = ReadSteps::default();
    let name = match read_name(reader, &mut steps) {
        Ok(name) => name,
        Err(why) => {
            list_fault(why, reader, rows, at)?;
            return Ok(false);
        }
    };
    let row = field_row(kind, start, reader.index());
    list_name(&name, steps.pointers, row, rows, names, at)?;
    Ok(true)
}

/// Does so for another field.
#[inline(always)]
fn list_own_field(
    kind: Kind,
    reader: &mut BinDecoder<'_>,
    rows: &mut [TableRow],
    names: &mut [u8],
    at: &mut Listed,
) -> Result<bool, Failure>
    requires own { IsOwnKind kind }
    requires fits { Fits (sheet rows.old names.old at.old) }
    ensures ok { IfOk result (λ goes_on. (kinds : List Kind) (b : List ℕ) (p : ℕ) → Goes b (fields (kind ∷ kinds) reader.old ∷ []) p
        (sheet rows.old names.old at.old) (left_of goes_on kinds reader.new) p (sheet rows.new names.new at.new)) }
    ensures err { IfErr result (λ failure. (kinds : List Kind) (b : List ℕ) (p : ℕ) → HaltsOn b (fields (kind ∷ kinds) reader.old ∷ []) p
        (sheet rows.old names.old at.old) failure) }
{
    match plain_size(kind, reader.message().len() - reader.index()) {
        Some(size) => list_plain_field(kind, size, reader, rows, names, at),
        None => list_read_field(kind, reader, rows, names, at),
    }
}

/// Does so for a field of so many octets, whatever they are.
#[inline(always)]
fn list_plain_field(
    kind: Kind,
    size: usize,
    reader: &mut BinDecoder<'_>,
    rows: &mut [TableRow],
    names: &mut [u8],
    at: &mut Listed,
) -> Result<bool, Failure>
    requires plain { IsPlainSize kind (length reader.old.bytes - reader.old.index) size }
    requires fits { Fits (sheet rows.old names.old at.old) }
    ensures ok { IfOk result (λ goes_on. (kinds : List Kind) (b : List ℕ) (p : ℕ) → Goes b (fields (kind ∷ kinds) reader.old ∷ []) p
        (sheet rows.old names.old at.old) (left_of goes_on kinds reader.new) p (sheet rows.new names.new at.new)) }
    ensures err { IfErr result (λ failure. (kinds : List Kind) (b : List ℕ) (p : ℕ) → HaltsOn b (fields (kind ∷ kinds) reader.old ∷ []) p
        (sheet rows.old names.old at.old) failure) }
{
    let start = reader.index();
    if reader.len() < size {
        list_fault(Failure::MessageCut, reader, rows, at)?;
        return Ok(false);
    }
    reader.skip(size).unwrap();
    list_row(field_row(kind, start, reader.index()), rows, at)?;
    Ok(true)
}

/// Does so for a field that is read.
fn list_read_field(
    kind: Kind,
    reader: &mut BinDecoder<'_>,
    rows: &mut [TableRow],
    names: &mut [u8],
    at: &mut Listed,
) -> Result<bool, Failure>
    requires own { IsOwnKind kind }
    requires fits { Fits (sheet rows.old names.old at.old) }
    ensures ok { IfOk result (λ goes_on. (kinds : List Kind) (b : List ℕ) (p : ℕ) → Goes b (fields (kind ∷ kinds) reader.old ∷ []) p
        (sheet rows.old names.old at.old) (left_of goes_on kinds reader.new) p (sheet rows.new names.new at.new)) }
    ensures err { IfErr result (λ failure. (kinds : List Kind) (b : List ℕ) (p : ℕ) → HaltsOn b (fields (kind ∷ kinds) reader.old ∷ []) p
        (sheet rows.old names.old at.old) failure) }
{
    let start = reader.index();
    let field = match read_field(kind, reader) {
        Ok(field) => field,
        Err(why) => {
            list_fault(why, reader, rows, at)?;
            return Ok(false);
        }
    };
    let end = reader.index();
    list_row(field_row(kind, start, end), rows, at)?;
    list_value(&field, end, rows, at)?;
    Ok(true)
}

/// Reads a name, and counts the pointers that it follows.
#[inline(always)]
fn read_name<'r>(reader: &mut BinDecoder<'r>, steps: &mut ReadSteps) -> Result<NameRef<'r>, Failure>
    ensures ok { IfOk result (λ name. TakesName reader.old reader.new name steps.new.pointers) }
    ensures err { IfErr result (λ failure. (error : DecodeError) × FailsName reader.old error × (failure ≡ of_decode error)) }
    ensures same { OnErr result (reader.new ≡ reader.old) }
{
    Ok(NameRef::read_counted(reader, steps)?)
}

/// Reads a field.
#[inline(always)]
fn read_field<'r>(kind: Kind, reader: &mut BinDecoder<'r>) -> Result<Field<'r>, Failure>
    ensures ok { IfOk result (λ field. TakesField kind reader.old (seen field) reader.new) }
    ensures err { IfErr result (λ failure. (error : DecodeError) × FailsField kind reader.old error × (failure ≡ of_decode error)) }
    ensures same { OnErr result (reader.new ≡ reader.old) }
{
    Ok(Field::read(kind, reader)?)
}

/// Puts rows of the entries of a field that ends at an offset, if it is a list.
#[inline(always)]
fn list_value(
    field: &Field<'_>,
    end: usize,
    rows: &mut [TableRow],
    at: &mut Listed,
) -> Result<(), Failure>
    requires within { (list : ItemsValue) → entries_of (seen field.now) end ≡ entries list end ∷ [] → length list.octets ≤ end }
    requires fits { at.old.row_count ≤ length rows.old }
    ensures ok { OnOk result ((names : List ℕ) → at.old.names_len ≤ length names → (b : List ℕ) (p : ℕ) (more : List Task) →
        Goes b (entries_of (seen field.now) end ++ more) p (sheet rows.old names at.old) more p (sheet rows.new names at.new)) }
    ensures err { IfErr result (λ failure. (names : List ℕ) → at.old.names_len ≤ length names → (b : List ℕ) (p : ℕ) (more : List Task) →
        HaltsOn b (entries_of (seen field.now) end ++ more) p (sheet rows.old names at.old) failure) }
{
    match items_of(field) {
        Some(items) => list_entries(items, end, rows, at),
        None => Ok(()),
    }
}

/// Returns the list that a field is, if it is one.
#[inline(always)]
fn items_of<'r>(field: &Field<'r>) -> Option<Items<'r>>
    ensures { (end : ℕ) → MatchOption result (entries_of (seen field.now) end ≡ [])
        (λ items. entries_of (seen field.now) end ≡ entries items end ∷ []) }
{
    match field {
        Field::Texts(items)
        | Field::Types(items)
        | Field::Params(items)
        | Field::Prefixes(items)
        | Field::Names(items) => Some(items.iter()),
        _ => None,
    }
}

/// Puts rows of the entries of a list that ends at an offset.
fn list_entries(
    mut items: Items<'_>,
    end: usize,
    rows: &mut [TableRow],
    at: &mut Listed,
) -> Result<(), Failure>
    requires within { length items.octets ≤ end }
    requires fits { at.old.row_count ≤ length rows.old }
    ensures ok { OnOk result ((names : List ℕ) → at.old.names_len ≤ length names → (b : List ℕ) (p : ℕ) →
        Goes b (entries items.entry end ∷ []) p (sheet rows.old names at.old) [] p (sheet rows.new names at.new)) }
    ensures err { IfErr result (λ failure. (names : List ℕ) → at.old.names_len ≤ length names → (b : List ℕ) (p : ℕ) →
        HaltsOn b (entries items.entry end ∷ []) p (sheet rows.old names at.old) failure) }
{
    'entries: while let Some(entry) = items.next() {
        let entry_end = end - items.as_bytes().len();
        let len = entry.octets.len();
        let offset = entry_end - len;
        list_row(data_row(ENTRY, entry.tag as u32, offset, len), rows, at)?;
    }
    Ok(())
}
