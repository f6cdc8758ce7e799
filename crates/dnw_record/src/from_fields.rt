//! The data of a record from typed fields.
ghost use Rattle.std.specs.Prelude.{◌≡◌, ◌+◌, ◌<◌, ◌^◌, ◌++◌, ◌⊎◌, ◌↔◌, IfErr, IsTrue, OnOk, length, map};
ghost use Rattle.std.specs.List.{AllByRecursion, flat_map};
ghost use Rattle.dnw_data.specs.Values.{seen};
ghost use Rattle.dnw_data.specs.FieldWires.{IsFieldValue, field_wire};
ghost use Rattle.dnw_record.specs.GivenFields.{AreFieldsOf, FailsGivenFields, IsFieldOf, front, front_of};

use crate::rdata::RData;
use dnw_base::dns_class::DNSClass;
use dnw_base::limits::MAX_DATA;
use dnw_base::record_type::RecordType;
use dnw_data::field::Field;
use dnw_data::kind::{Kind, ListKind};
use dnw_data::table;
use std::alloc::{AllocError, Global};
use thiserror::Error;

/// Why fields are not the data of a type.
#[derive(Debug, Drop, Error)]
pub enum FromFieldsError {
    /// A field is not what the type has there.
    #[error("field {field} is not a field of kind {wanted:?}")]
    Mismatch {
        /// The number of the field, from 0.
        field: usize,
        /// What the type has there.
        wanted: Kind,
    },
    /// There are too few fields.
    #[error("field {field} of kind {wanted:?} is missing")]
    Missing {
        /// The number of the first field that is missing.
        field: usize,
        /// What the type has there.
        wanted: Kind,
    },
    /// There are too many fields.
    #[error("there is no field {field}")]
    TooMany {
        /// The number of the first field that the type does not have.
        field: usize,
    },
    /// An allocation failed.
    #[error("out of memory")]
    Memory,
}

impl From<AllocError> for FromFieldsError {
    ghost use Rattle.std.specs.Prelude.{◌≡◌};
    ghost use Rattle.dnw_record.specs.declared.from_fields.FromFieldsError.TheVariants.{Memory};

    ghost from_gives = { λ _ e. e ≡ Memory };

    fn from(_: AllocError) -> Self {
        FromFieldsError::Memory
    }
}

impl RData {
    ghost use Rattle.std.specs.Prelude.{◌≡◌, ◌⊎◌, None, IfOk, IfErr, MatchResult, OnOk, map};
    ghost use Rattle.dnw_data.specs.Values.{seen};
    ghost use Rattle.dnw_data.specs.Walks.{FieldsAre};
    ghost use Rattle.dnw_record.specs.declared.from_fields.FromFieldsError.TheVariants.{Memory};
    ghost use Rattle.dnw_record.specs.DataCopies.{alone};
    ghost use Rattle.dnw_record.specs.DataPieces.{data_kinds};
    ghost use Rattle.dnw_record.specs.GivenFields.{AreFieldsOf, FailsGivenFields, given_kinds};

    /// Creates data of these fields, which an iterator over the data yields again. They must be those of the class and type,
    /// by the table of `dnw_data::table`. Which fields A6 has depends on the first of them: no name follows a prefix without
    /// bits. No fields are data of any type under NONE and ANY.
    ///
    /// ```
    /// let fields = [Field::U16(10), Field::Name(exchange.as_name_ref())];
    /// let mail = RData::from_fields(alloc, DNSClass::IN, RecordType::MX, &fields)?;
    /// ```
    ///
    /// It fails with `Mismatch` for the first field that is of another kind, or that no octets of its kind are: a `Counted`
    /// of more than 255 octets, a `LongCounted` of more than 65535, a `U48` of 2^48 or more, `Texts` without a string, a list
    /// of another kind or octets of another shape, or a `TypeCode` that is `Unknown` with the code of a named type. It fails
    /// with `Missing` or `TooMany` if there are too few fields or
    /// too many, and with `Memory` if an allocation fails.
    pub fn from_fields(
        alloc: Global,
        class: DNSClass,
        record_type: RecordType,
        fields: &[Field<'_>],
    ) -> Result<Self, FromFieldsError>
        ensures ok { IfOk result (λ r. (r.class ≡ class) × (r.record_type ≡ record_type)
            × FieldsAre 0 (data_kinds r) (alone r.octets) (map seen fields.now) None) }
        ensures err { IfErr result (λ e. (e ≡ Memory)
            ⊎ FailsGivenFields 0 (given_kinds class record_type (map seen fields.now)) (map seen fields.now) e) }

        // It accepts the fields of the type, and no others; then it fails only for memory.
        ensures only { OnOk result (AreFieldsOf (given_kinds class record_type (map seen fields.now)) (map seen fields.now)) }
        ensures accepts { AreFieldsOf (given_kinds class record_type (map seen fields.now)) (map seen fields.now)
            → MatchResult result (λ r. Unit {0}) (λ e. e ≡ Memory) }
    {
        let mut octets = Vec::new(alloc);
        let kinds = table::fields_of(class, record_type, front_of(fields));
        append_fields(0, kinds, fields, &mut octets)?;
        Ok(RData::of_octets(class, record_type, octets))
    }
}

/// Returns octets that the data of these fields begin with, as far as the table looks at them.
fn front_of<'f>(fields: &'f [Field<'_>]) -> &'f [u8]
    ensures { result.now ≡ front_of (map seen fields.now) }
{
    match fields {
        [] => &[],
        [field, ..] => front(field),
    }
}

/// Returns the octets of a field that may have none, or whose first one says what follows it; and one in place of those of
/// another.
fn front<'f>(field: &'f Field<'_>) -> &'f [u8]
    ensures { result.now ≡ front (seen field.now) }
{
    match field {
        Field::Octets(octets) => octets,
        Field::Texts(items)
        | Field::Types(items)
        | Field::Params(items)
        | Field::Prefixes(items)
        | Field::Names(items) => items.as_bytes(),
        Field::Shaped(shaped) => shaped.as_bytes(),
        _ => &[1],
    }
}

/// Appends the octets of fields of these kinds, which are numbered from `number`.
fn append_fields(
    number: usize,
    kinds: &[Kind],
    fields: &[Field<'_>],
    octets: &mut Vec<u8>,
) -> Result<(), FromFieldsError>
    requires small { number + length kinds.now < 2 ^ 64 }
    ensures are { OnOk result (AreFieldsOf kinds.now (map seen fields.now)) }
    ensures values { OnOk result (AllByRecursion IsFieldValue (map seen fields.now)) }
    ensures octets { OnOk result (octets.new.items ≡ octets.old.items ++ flat_map field_wire (map seen fields.now)) }
    ensures err { IfErr result (λ e. (e ≡ FromFieldsError.Memory) ⊎ FailsGivenFields number kinds.now (map seen fields.now) e) }
{
    match (kinds, fields) {
        ([], []) => Ok(()),
        ([wanted, ..], []) => Err(FromFieldsError::Missing {
            field: number,
            wanted: *wanted,
        }),
        ([], [_, ..]) => Err(FromFieldsError::TooMany { field: number }),
        ([wanted, kinds @ ..], [field, fields @ ..]) => {
            if !is_field_of(*wanted, field) || !field.append_to(octets)? {
                return Err(FromFieldsError::Mismatch {
                    field: number,
                    wanted: *wanted,
                });
            }
            append_fields(number + 1, kinds, fields, octets)
        }
    }
}

/// Returns `true` if a field is one of this kind.
fn is_field_of(kind: Kind, field: &Field<'_>) -> bool
    ensures { IsTrue result ↔ IsFieldOf kind (seen field.now) }
{
    match (kind, field) {
        (Kind::Name(_), Field::Name(_)) => true,
        (Kind::U8, Field::U8(_)) => true,
        (Kind::U16 | Kind::ChaosAddress, Field::U16(_)) => true,
        (Kind::U32, Field::U32(_)) => true,
        (Kind::U48 | Kind::LongTime, Field::U48(number)) => *number < 1 << 48,
        (Kind::U64 | Kind::Locator | Kind::NodeNumber, Field::U64(_)) => true,
        (Kind::Ipv4, Field::Ipv4(_)) => true,
        (Kind::Ipv6, Field::Ipv6(_)) => true,
        (Kind::TypeCode, Field::TypeCode(code)) => RecordType::from(u16::from(*code)) == *code,
        (Kind::Time, Field::Time(_)) => true,
        (Kind::Counted(_), Field::Counted(octets)) => octets.len() <= 255,
        (Kind::LongCounted(_), Field::LongCounted(octets)) => octets.len() <= MAX_DATA,
        (Kind::Shaped(shape), Field::Shaped(shaped)) => shaped.shape() == shape,
        (Kind::Octets(_), Field::Octets(_)) => true,
        (Kind::List(ListKind::Texts), Field::Texts(items)) => {
            matches!(items.kind(), ListKind::Texts) && !items.as_bytes().is_empty()
        }
        (Kind::List(ListKind::Types), Field::Types(items)) => matches!(
            items.kind(),
            ListKind::Types
        ),
        (Kind::List(ListKind::Params), Field::Params(items)) => matches!(
            items.kind(),
            ListKind::Params
        ),
        (Kind::List(ListKind::Prefixes), Field::Prefixes(items)) => matches!(
            items.kind(),
            ListKind::Prefixes
        ),
        (Kind::List(ListKind::Names), Field::Names(items)) => matches!(
            items.kind(),
            ListKind::Names
        ),
        _ => false,
    }
}
