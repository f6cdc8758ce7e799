//! The data of a record of any type.
ghost use Rattle.std.specs.Prelude.{◌≡◌, ℕ, ◌≤◌, List, ◌++◌, length, IfOk, IfErr, MatchResult, OnOk};
ghost use Rattle.dnw_record.specs.DataPieces.{IsData, DataPiece, data_kinds, kinds_of, piece_octets};
ghost use Rattle.dnw_record.specs.Inside.Copying.{IsNoName};
ghost use Rattle.dnw_record.specs.DataCopies.{Copies, FailsPiece, FailsToCopy, TakesNamePiece, TakesOwnPiece, TakesPiece, alone, kinds_at};

use crate::record_ref::RecordRef;
use dnw_base::decoder::BinDecoder;
use dnw_base::dns_class::DNSClass;
use dnw_base::error::DecodeError;
use dnw_base::record_type::RecordType;
use dnw_data::field::Field;
use dnw_data::fields::{FieldError, Fields};
use dnw_data::kind::{Kind, NameForm};
use dnw_data::table;
use dnw_name::name_ref::NameRef;
use std::alloc::{AllocError, Global};
use std::marker::Model;
use thiserror::Error;

/// Why there are no data of a class and a type.
#[derive(Debug, Drop, Error)]
pub enum RDataError {
    /// A field is none of its kind, or octets are left after the last one.
    #[error("{0}")]
    Field(FieldError),
    /// An allocation failed.
    #[error("out of memory")]
    Memory,
}

impl From<FieldError> for RDataError {
    ghost use Rattle.std.specs.Prelude.{◌≡◌};
    ghost use Rattle.dnw_record.specs.declared.rdata.RDataError.TheVariants.{Field};

    ghost from_gives = { λ error e. e ≡ Field error };

    fn from(error: FieldError) -> Self {
        RDataError::Field(error)
    }
}

impl From<AllocError> for RDataError {
    ghost use Rattle.std.specs.Prelude.{◌≡◌};
    ghost use Rattle.dnw_record.specs.declared.rdata.RDataError.TheVariants.{Memory};

    ghost from_gives = { λ _ e. e ≡ Memory };

    fn from(_: AllocError) -> Self {
        RDataError::Memory
    }
}

/// The data of a record of any type: the class, the type, and the octets, with every name in its wire form (RFC 1035, section
/// 3.1).
///
/// They are always data of their class and type, by the table of `dnw_data::table`. A contract sees them as class, type and
/// octets.
#[derive(Debug, Drop)]
pub struct RData {
    class: DNSClass,
    record_type: RecordType,
    octets: Vec<u8>,
}

impl Model for RData {
    ghost use Rattle.dnw_record.specs.DataPieces.{DataValue, IsDataOfType};

    ghost Value = { DataValue };

    ghost view = { λ r. record { class = r.class; record_type = r.record_type; octets = r.octets.items } };

    ghost invariant = { λ r. IsDataOfType (record { class = r.class; record_type = r.record_type; octets = r.octets.items }) };
}

impl RData {
    ghost use Rattle.dnw_data.specs.Walks.{fields_at};
    ghost use Rattle.dnw_record.specs.DataCopies.{data_start, record_kinds};
    ghost use Rattle.dnw_record.specs.DataPieces.{IsDataOfType, data_kinds, kinds_of};

    /// Creates the data that these octets are, which are read as a message that holds nothing else: a name may have pointers
    /// to what is before it there.
    ///
    /// No octets are data of any type under NONE and ANY. It fails with `Field` if they are not fields of the kinds of the
    /// class and type up to their end, and with `Memory` if an allocation fails.
    pub fn new(
        alloc: Global,
        class: DNSClass,
        record_type: RecordType,
        octets: &[u8],
    ) -> Result<Self, RDataError>
        ensures ok { IfOk result (λ r. (r.class ≡ class) × (r.record_type ≡ record_type)
            × Copies (kinds_of class record_type octets.now) (alone octets.now) r.octets) }
        ensures err { IfErr result (FailsToCopy (kinds_of class record_type octets.now) (alone octets.now)) }

        // Octets that are such data with every name in its wire form are accepted, and stay as they are.
        ensures kept { IsData (kinds_of class record_type octets.now) octets.now
            → MatchResult result (λ r. r.octets ≡ octets.now) (λ e. e ≡ RDataError.Memory) }
    {
        let kinds = table::fields_of(class, record_type, octets);
        RData::copied(alloc, class, record_type, kinds, BinDecoder::new(octets))
    }

    /// Copies the data of a record of a message, in which names may have pointers.
    ///
    /// It fails with `Field` if they are not fields of the kinds of the class and type up to their end, and with `Memory` if
    /// an allocation fails.
    pub fn from_ref(alloc: Global, item: &RecordRef<'_>) -> Result<Self, RDataError>
        ensures ok { IfOk result (λ r. (r.class ≡ item.now.class) × (r.record_type ≡ item.now.record_type)
            × Copies (record_kinds item.now) (data_start item.now) r.octets) }
        ensures err { IfErr result (FailsToCopy (record_kinds item.now) (data_start item.now)) }
    {
        let record_type = item.record_type();
        let start = item.data_decoder();
        RData::copied(alloc, item.class(), record_type, item.kinds(), start)
    }

    /// Returns the class.
    #[inline(always)]
    pub fn class(&self) -> DNSClass
        ensures { result ≡ self.now.class }
    {
        self.class
    }

    /// Returns the type.
    #[inline(always)]
    pub fn record_type(&self) -> RecordType
        ensures { result ≡ self.now.record_type }
    {
        self.record_type
    }

    /// Returns the octets, in which no name has a pointer.
    #[inline(always)]
    pub fn octets(&self) -> &[u8]
        ensures octets { result.now ≡ self.now.octets }
        ensures of_type { IsDataOfType self.now }
    {
        self.octets.as_slice()
    }

    /// Returns an iterator over the fields. No error comes.
    #[inline(always)]
    pub fn fields(&self) -> Fields<'_>
        ensures { result ≡ fields_at self.now.octets 0 (data_kinds self.now) }
    {
        Fields::new(self.octets.as_slice(), 0, self.class, self.record_type)
    }

    /// Creates the data that these octets are.
    pub(crate) fn of_octets(class: DNSClass, record_type: RecordType, octets: Vec<u8>) -> Self
        requires { IsData (kinds_of class record_type octets.items) octets.items }
        ensures { result ≡ record { class = class; record_type = record_type; octets = octets.items } }
    {
        RData {
            class,
            record_type,
            octets,
        }
    }

    /// Copies data of this class and type, which have these kinds of field, from the cursor up to the end of the reader's
    /// message.
    fn copied(
        alloc: Global,
        class: DNSClass,
        record_type: RecordType,
        kinds: &[Kind],
        mut reader: BinDecoder<'_>,
    ) -> Result<Self, RDataError>
        requires { kinds.now ≡ kinds_at class record_type reader }
        ensures ok { IfOk result (λ r. (r.class ≡ class) × (r.record_type ≡ record_type) × Copies kinds.now reader.entry r.octets) }
        ensures err { IfErr result (FailsToCopy kinds.now reader.entry) }
    {
        let mut octets = Vec::with_capacity(alloc, reader.len())?;
        copy_fields(kinds, &mut reader, &mut octets)?;
        Ok(RData {
            class,
            record_type,
            octets,
        })
    }
}

/// Appends the octets of the fields of these kinds, which are read from the cursor up to the end.
fn copy_fields(
    kinds: &[Kind],
    reader: &mut BinDecoder<'_>,
    octets: &mut Vec<u8>,
) -> Result<(), RDataError>
    ensures ok { OnOk result ((more : List ℕ) × Copies kinds.now reader.old more × (octets.new.items ≡ octets.old.items ++ more)) }
    ensures err { IfErr result (FailsToCopy kinds.now reader.old) }
{
    let start = reader.index();
    let mut left = kinds;
    'fields: while let Some((kind, others)) = left.split_first() {
        let field = kinds.len() - left.len();
        copy_field(*kind, field, reader, octets)?;
        left = others;
    }
    if !reader.is_empty() {
        let cause = DecodeError::IncorrectRDataLengthRead {
            read: reader.index() - start,
            len: reader.message().len() - start,
        };
        let field = kinds.len();
        return Err(RDataError::Field(FieldError { field, cause }));
    }
    Ok(())
}

/// Appends the octets of the field of this kind and number that is read at the cursor.
fn copy_field(
    kind: Kind,
    field: usize,
    reader: &mut BinDecoder<'_>,
    octets: &mut Vec<u8>,
) -> Result<(), RDataError>
    ensures ok { OnOk result ((piece : DataPiece) × TakesPiece kind reader.old piece reader.new
        × (octets.new.items ≡ octets.old.items ++ piece_octets piece)) }
    ensures err { IfErr result (FailsPiece kind field reader.old) }
{
    match kind {
        Kind::Name(form) => copy_name(form, field, reader, octets),
        _ => copy_own(kind, field, reader, octets),
    }
}

/// Appends the wire form of the name that is read at the cursor.
fn copy_name(
    form: NameForm,
    field: usize,
    reader: &mut BinDecoder<'_>,
    octets: &mut Vec<u8>,
) -> Result<(), RDataError>
    ensures ok { OnOk result ((piece : DataPiece) × TakesNamePiece form reader.old piece reader.new
        × (octets.new.items ≡ octets.old.items ++ piece_octets piece)) }
    ensures err { IfErr result (FailsPiece (Kind.Name form) field reader.old) }
{
    let name = match NameRef::read(reader) {
        Ok(name) => name,
        Err(cause) => return Err(RDataError::Field(FieldError { field, cause })),
    };
    Field::Name(name).append_to(octets)?;
    Ok(())
}

/// Appends the octets of the field that is read at the cursor and is no name.
fn copy_own(
    kind: Kind,
    field: usize,
    reader: &mut BinDecoder<'_>,
    octets: &mut Vec<u8>,
) -> Result<(), RDataError>
    requires { IsNoName kind }
    ensures ok { OnOk result ((piece : DataPiece) × TakesOwnPiece kind reader.old piece reader.new
        × (octets.new.items ≡ octets.old.items ++ piece_octets piece)) }
    ensures err { IfErr result (FailsPiece kind field reader.old) }
{
    let start = reader.index();
    let message = reader.message();
    match Field::read(kind, reader) {
        Ok(_) => {}
        Err(cause) => return Err(RDataError::Field(FieldError { field, cause })),
    }
    octets.extend_from_slice(&message[start..reader.index()])?;
    Ok(())
}
