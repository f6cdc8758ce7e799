//! The fields of the data of records in canonical form.
ghost use Rattle.std.specs.Prelude.{◌≡◌, ◌≤◌, ◌<◌, ◌+◌, ◌-◌, ℕ, List, Some, ◌++◌, length, IfOk, IfErr, OnOk};
ghost use Rattle.dnw_base.specs.Names.{lower, wire};
ghost use Rattle.dnw_name_read.specs.Reading.{TakesName};
ghost use Rattle.dnw_data.specs.Walks.{IsAtEnd};
ghost use Rattle.dnw_record.specs.DataPieces.{DataPiece, name_piece, piece_octets};
ghost use Rattle.dnw_record.specs.DataCopies.{FailsPiece, FailsToCopy, TakesNamePiece, TakesOwnPiece, TakesPiece};
ghost use Rattle.dnw_record.specs.Inside.Copying.{IsNoName};
ghost use Rattle.dnw_signed.specs.CanonicalData.{FailsCanonical, IsCanonical, IsCanonicalOf, ReadsCanonical, canonical_labels, canonical_piece};
ghost use Rattle.dnw_record.specs.DataPointers.{FieldFollows, TakesDataPointers, TakesPointers};
ghost use Rattle.dnw_signed.specs.Inside.Putting.{FailsFew, of_data};
ghost use Rattle.dnw_signed.specs.Inside.Selecting.{FailsSelected};

use crate::error::CanonicalError;
use dnw_base::decoder::BinDecoder;
use dnw_base::error::DecodeError;
use dnw_base::limits::MAX_NAME;
use dnw_data::field::Field;
use dnw_data::fields::FieldError;
use dnw_data::kind::{Kind, NameForm};
use dnw_data::table;
use dnw_name::name_ref::NameRef;
use dnw_name_form::wire_labels::WireLabels;
use dnw_name_read::walk::ReadSteps;
use dnw_record::rdata::{RData, RDataError};
use dnw_record::record_ref::RecordRef;
use std::alloc::{AllocError, Global};

/// Returns the octets of data in canonical form (RFC 4034, section 6.2). They are as many as those of the data.
///
/// It fails if an allocation fails.
#[tactic(auto, using(crate::proofs::Putting::canonical_of))]
pub fn canonical_octets(alloc: Global, data: &RData) -> Result<Vec<u8>, AllocError>
    ensures canonical { IfOk result (λ octets. IsCanonical «data».now octets.items) }
    ensures size { IfOk result (λ octets. length octets.items ≡ length «data».now.octets) }
{
    let own = data.octets();
    let mut octets = Vec::with_capacity(alloc, own.len())?;
    match put_data(data, &mut octets) {
        Ok(()) => Ok(octets),
        Err(_) => Err(AllocError),
    }
}

/// Appends data in canonical form.
pub(crate) fn put_data(data: &RData, out: &mut Vec<u8>) -> Result<(), RDataError>
    ensures { OnOk result ((more : List ℕ) × IsCanonical «data».now more × (length more ≡ length «data».now.octets)
        × (out.new.items ≡ out.old.items ++ more)) }
{
    let octets = data.octets();
    let kinds = table::fields_of(data.class(), data.record_type(), octets);
    put_fields(kinds, BinDecoder::new(octets), out)?;
    Ok(())
}

/// Appends the data of a record of a message in canonical form.
pub(crate) fn put_record_data(item: &RecordRef<'_>, out: &mut Vec<u8>) -> Result<(), RDataError>
    ensures ok { OnOk result ((more : List ℕ) × IsCanonicalOf item.now more
        × (out.new.items ≡ out.old.items ++ more)) }
    ensures err { IfErr result (FailsCanonical item.now) }
{
    put_fields(item.kinds(), item.data_decoder(), out)
}

/// Appends the data in canonical form of the record with this number, and takes the pointers that its names follow from those that
/// are `left`. If it fails, a part may be appended.
#[inline(always)]
pub(crate) fn put_limited(
    item: &RecordRef<'_>,
    record: usize,
    left: &mut usize,
    out: &mut Vec<u8>,
) -> Result<(), CanonicalError>
    ensures ok { OnOk result ((more : List ℕ) × TakesDataPointers item.now left.old (Some left.new) × IsCanonicalOf item.now more
        × (out.new.items ≡ out.old.items ++ more)) }
    ensures err { IfErr result (FailsSelected item.now left.old «record») }
    ensures grows { (more : List ℕ) × (out.new.items ≡ out.old.items ++ more) }
{
    put_few(item.kinds(), item.data_decoder(), record, left, out)
}

/// Appends the fields of these kinds that are read from the cursor up to the end, in canonical form.
fn put_fields(kinds: &[Kind], start: BinDecoder<'_>, out: &mut Vec<u8>) -> Result<(), RDataError>
    ensures ok { OnOk result ((more : List ℕ) × ReadsCanonical kinds.now start.entry more × (out.new.items ≡ out.old.items ++ more)) }
    ensures err { IfErr result (FailsToCopy kinds.now start.entry) }
{
    let first = start.index();
    let mut reader = start;
    let mut left = kinds;
    'fields: while let Some((kind, others)) = left.split_first() {
        let field = kinds.len() - left.len();
        put_field(*kind, field, &mut reader, out)?;
        left = others;
    }
    check_end(&reader, first, kinds.len())?;
    Ok(())
}

/// Appends the fields of these kinds that are read from the cursor up to the end, in canonical form, and takes the pointers that
/// names follow from those that are `left`. They are data of the record with this number. If it fails, a part may be appended.
fn put_few(
    kinds: &[Kind],
    start: BinDecoder<'_>,
    record: usize,
    left: &mut usize,
    out: &mut Vec<u8>,
) -> Result<(), CanonicalError>
    ensures ok { OnOk result ((more : List ℕ) × TakesPointers kinds.now start.entry left.old (Some left.new)
        × ReadsCanonical kinds.now start.entry more × (out.new.items ≡ out.old.items ++ more)) }
    ensures err { IfErr result (FailsFew kinds.now start.entry left.old «record») }
    ensures grows { (more : List ℕ) × (out.new.items ≡ out.old.items ++ more) }
{
    let first = start.index();
    let mut reader = start;
    let mut later = kinds;
    'fields: while let Some((kind, others)) = later.split_first() {
        let field = kinds.len() - later.len();
        let followed = match put_field(*kind, field, &mut reader, out) {
            Ok(followed) => followed,
            Err(error) => return Err(of_data(record, error)),
        };
        take_pointers(record, followed, left)?;
        later = others;
    }
    match check_end(&reader, first, kinds.len()) {
        Ok(()) => Ok(()),
        Err(error) => Err(CanonicalError::Field { record, error }),
    }
}

/// Takes so many pointers from those that are `left`. The data of the record with this number follow them.
fn take_pointers(record: usize, followed: usize, left: &mut usize) -> Result<(), CanonicalError>
    ensures ok { OnOk result (left.new + followed ≡ left.old) }
    ensures err { IfErr result (λ error. (left.old < followed) × (error ≡ CanonicalError.TooManyPointers «record»)) }
{
    if followed > *left {
        return Err(CanonicalError::TooManyPointers { record });
    }
    *left -= followed;
    Ok(())
}

/// Returns the error that says why there are no data of the record with this number.
fn of_data(record: usize, error: RDataError) -> CanonicalError
    ensures { result ≡ of_data «record» error }
{
    match error {
        RDataError::Field(error) => CanonicalError::Field { record, error },
        RDataError::Memory => CanonicalError::Memory,
    }
}

/// Checks that fields, of which there are `count`, end where the octets do. They begin at an offset, `first`.
fn check_end(reader: &BinDecoder<'_>, first: usize, count: usize) -> Result<(), FieldError>
    requires { first ≤ reader.now.index }
    ensures ok { OnOk result (IsAtEnd reader.now) }
    ensures err { IfErr result (λ error. (¬ (IsAtEnd reader.now)) × (error.field ≡ count)
        × (error.cause ≡ DecodeError.IncorrectRDataLengthRead (reader.now.index - first) (length reader.now.bytes - first))) }
{
    if reader.is_empty() {
        return Ok(());
    }
    let cause = DecodeError::IncorrectRDataLengthRead {
        read: reader.index() - first,
        len: reader.message().len() - first,
    };
    Err(FieldError {
        field: count,
        cause,
    })
}

/// Appends the field of this kind and number that is read at the cursor, and returns how many pointers it follows. If it fails, a
/// part may be appended.
// Inlined, since LLVM takes a large result that is returned through memory apart, octet by octet.
#[inline(always)]
fn put_field(
    kind: Kind,
    field: usize,
    reader: &mut BinDecoder<'_>,
    out: &mut Vec<u8>,
) -> Result<usize, RDataError>
    ensures ok { OnOk result ((piece : DataPiece) × TakesPiece kind reader.old piece reader.new
        × (out.new.items ≡ out.old.items ++ piece_octets (canonical_piece piece))) }
    ensures follows { IfOk result (FieldFollows kind reader.old reader.new) }
    ensures err { IfErr result (FailsPiece kind field reader.old) }
    ensures grows { (more : List ℕ) × (out.new.items ≡ out.old.items ++ more) }
{
    match kind {
        Kind::Name(form) => put_name(form, field, reader, out),
        _ => put_own(kind, field, reader, out),
    }
}

/// Appends the wire form of the name that is read at the cursor, in lower case if names of its form are lowered, and returns how many
/// pointers it follows. If it fails, a part may be appended.
fn put_name(
    form: NameForm,
    field: usize,
    reader: &mut BinDecoder<'_>,
    out: &mut Vec<u8>,
) -> Result<usize, RDataError>
    ensures ok { OnOk result ((piece : DataPiece) × TakesNamePiece form reader.old piece reader.new
        × (out.new.items ≡ out.old.items ++ piece_octets (canonical_piece piece))) }
    ensures follows { IfOk result (λ k. (labels : List (List ℕ)) × TakesName reader.old reader.new labels k) }
    ensures err { IfErr result (FailsPiece (Kind.Name form) field reader.old) }
    ensures grows { (more : List ℕ) × (out.new.items ≡ out.old.items ++ more) }
{
    let mut steps = ReadSteps::default();
    let name = match NameRef::read_counted(reader, &mut steps) {
        Ok(name) => name,
        Err(cause) => return Err(RDataError::Field(FieldError { field, cause })),
    };
    append_name(form, &name, out)?;
    Ok(steps.pointers)
}

/// Appends the wire form of a name of data in canonical form. If it fails, nothing is appended.
pub(crate) fn append_name(
    form: NameForm,
    name: &NameRef<'_>,
    out: &mut Vec<u8>,
) -> Result<(), AllocError>
    ensures ok { OnOk result (out.new.items ≡ out.old.items ++ wire (canonical_labels form name.now)) }
    ensures grows { (more : List ℕ) × (out.new.items ≡ out.old.items ++ more) }
{
    // Room is cleared for those names alone that are not in one piece.
    match name.labels_in_place() {
        Some(labels) => append_canonical(form, labels, out),
        None => append_canonical(form, name.wire_labels(&mut [0; MAX_NAME]), out),
    }
}

/// Appends the wire form of labels of data in canonical form. If it fails, nothing is appended.
fn append_canonical(
    form: NameForm,
    labels: WireLabels<'_>,
    out: &mut Vec<u8>,
) -> Result<(), AllocError>
    ensures ok { OnOk result (out.new.items ≡ out.old.items ++ wire (canonical_labels form labels.entry)) }
    ensures grows { (more : List ℕ) × (out.new.items ≡ out.old.items ++ more) }
{
    match form {
        NameForm::Plain => out.extend_from_slice(labels.as_wire()),
        _ => append_lowered(labels, out),
    }
}

/// Appends the wire form of a name in lower case.
pub(crate) fn append_lowered(labels: WireLabels<'_>, out: &mut Vec<u8>) -> Result<(), AllocError>
    ensures ok { OnOk result (out.new.items ≡ out.old.items ++ wire (lower labels.entry)) }
    ensures grows { (more : List ℕ) × (out.new.items ≡ out.old.items ++ more) }
{
    let start = out.len();
    out.extend_from_slice(labels.as_wire())?;
    // Length octets are no letters.
    out.as_mut_slice()[start..].make_ascii_lowercase();
    Ok(())
}

/// Appends the octets of the field that is read at the cursor and is no name. It follows no pointer, so the result is 0. If it fails,
/// a part may be appended.
fn put_own(
    kind: Kind,
    field: usize,
    reader: &mut BinDecoder<'_>,
    out: &mut Vec<u8>,
) -> Result<usize, RDataError>
    requires { IsNoName kind }
    ensures ok { OnOk result ((piece : DataPiece) × TakesOwnPiece kind reader.old piece reader.new
        × (out.new.items ≡ out.old.items ++ piece_octets piece)) }
    ensures follows { IfOk result (FieldFollows kind reader.old reader.new) }
    ensures err { IfErr result (FailsPiece kind field reader.old) }
    ensures grows { (more : List ℕ) × (out.new.items ≡ out.old.items ++ more) }
{
    let start = reader.index();
    let message = reader.message();
    match Field::read(kind, reader) {
        Ok(_) => {}
        Err(cause) => return Err(RDataError::Field(FieldError { field, cause })),
    }
    out.extend_from_slice(&message[start..reader.index()])?;
    Ok(0)
}
