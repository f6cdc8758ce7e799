//! The fields of the data of records, of which the caller keeps an offset and a number.
ghost use Rattle.std.specs.Prelude.{◌≡◌, ◌≤◌, ◌+◌, ◌-◌, ◌^◌, length, IfOk, IfErr, IfSome};
ghost use Rattle.dnw_data.specs.Fields.{FailsField};
ghost use Rattle.dnw_c_base.specs.Offsets.{at_offset};
ghost use Rattle.dnw_c_base.specs.Results.{Returns};
ghost use Rattle.dnw_c_messages.specs.Inside.PlainFields.{IsPlainSize};
ghost use Rattle.dnw_c_messages.specs.FieldCalls.{EndsAt, FailsToTakeField, ReadsNextField, TakesAs, field_kind, head_of};

use dnw_base::decoder::BinDecoder;
use dnw_base::dns_class::DNSClass;
use dnw_base::error::DecodeError;
use dnw_base::record_type::RecordType;
use dnw_c_base::failure::Failure;
use dnw_c_base::results::report_both;
use dnw_data::field::Field;
use dnw_data::kind::{Kind, ListKind, Shape, Shown};
use dnw_data::table::fields_of;

/// Where the next field of the data of a record is: its offset in the message, and the number of the fields before it.
#[repr(C)]
#[derive(Clone, Copy)]
pub struct FieldCursor {
    pub offset: usize,
    pub number: usize,
}

/// A field: its kind, and the offset and number of its octets.
#[repr(C)]
#[derive(Clone, Copy)]
pub struct ReadField {
    pub kind: u32,
    pub offset: usize,
    pub len: usize,
}

/// Puts the next field of the data of a record of this type and class, which begin at `start` and end where the message does,
/// and moves the cursor past it. Its kind is 0 if there are no more. It does not allocate.
#[unsafe(no_mangle)]
pub extern "C" fn dnw_field_next(
    message: &[u8],
    start: usize,
    record_type: u16,
    class: u16,
    cursor: &mut FieldCursor,
    field: &mut ReadField,
) -> u32
    ensures { Returns (ReadsNextField message.now start record_type class cursor.old) (field.old, cursor.old)
        (field.new, cursor.new) result }
{
    let next = next(message, start, record_type, class, *cursor);
    report_both(next, field, cursor)
}

/// Returns the next field, and where the one after it is.
#[inline(always)]
fn next(
    message: &[u8],
    start: usize,
    record_type: u16,
    class: u16,
    at: FieldCursor,
) -> Result<(ReadField, FieldCursor), Failure>
    ensures { ReadsNextField message.now start record_type class at result }
{
    if message.len() < at.offset || message.len() < start {
        return Err(Failure::MessageCut);
    }
    let class = DNSClass::from(class);
    let record_type = RecordType::from(record_type);
    let kinds = fields_of(class, record_type, &message[start..]);
    match kinds.get(at.number) {
        Some(kind) => take(*kind, message, at),
        None if at.offset < message.len() => Err(Failure::WrongDataLength),
        None => {
            let end = ReadField {
                kind: 0,
                offset: at.offset,
                len: 0,
            };
            Ok((end, at))
        }
    }
}

/// Returns the field of a kind, and where the one after it is.
#[inline(always)]
fn take(kind: Kind, message: &[u8], at: FieldCursor) -> Result<(ReadField, FieldCursor), Failure>
    requires within { at.offset ≤ length message.now }
    requires few { at.number + 1 ≤ 2 ^ 64 - 1 }
    ensures ok { IfOk result (λ r. TakesAs kind message.now at r.1 r.0) }
    ensures err { IfErr result (FailsToTakeField kind message.now at.offset) }
{
    let end = end_of(kind, message, at.offset)?;
    let offset = at.offset + head_of(kind);
    let field = ReadField {
        kind: field_kind(kind),
        offset,
        len: end - offset,
    };
    let after = FieldCursor {
        offset: end,
        number: at.number + 1,
    };
    Ok((field, after))
}

/// Returns where the field of a kind ends that begins at an offset.
#[inline(always)]
fn end_of(kind: Kind, message: &[u8], offset: usize) -> Result<usize, DecodeError>
    requires { offset ≤ length message.now }
    ensures ok { IfOk result (EndsAt kind message.now offset) }
    ensures head { IfOk result (λ end. offset + head_of kind ≤ end) }
    ensures err { IfErr result (FailsField kind (at_offset message.now offset)) }
{
    let left = message.len() - offset;
    match plain_size(kind, left) {
        Some(size) if left < size => Err(DecodeError::InsufficientBytes),
        Some(size) => Ok(offset + size),
        None => read_end(kind, message, offset),
    }
}

/// Returns how many octets a field takes of so many that are left, if any octets of that number are one.
#[inline(always)]
pub(crate) fn plain_size(kind: Kind, left: usize) -> Option<usize>
    ensures { IfSome result (IsPlainSize kind left) }
{
    match kind {
        Kind::U8 => Some(1),
        Kind::U16 | Kind::TypeCode | Kind::ChaosAddress => Some(2),
        Kind::U32 | Kind::Ipv4 | Kind::Time => Some(4),
        Kind::U48 | Kind::LongTime => Some(6),
        Kind::U64 | Kind::Locator | Kind::NodeNumber => Some(8),
        Kind::Ipv6 => Some(16),
        Kind::Octets(_) => Some(left),
        _ => None,
    }
}

/// Reads the field of a kind at an offset, and returns where it ends.
fn read_end(kind: Kind, message: &[u8], offset: usize) -> Result<usize, DecodeError>
    requires { offset ≤ length message.now }
    ensures ok { IfOk result (EndsAt kind message.now offset) }
    ensures head { IfOk result (λ end. offset + head_of kind ≤ end) }
    ensures err { IfErr result (FailsField kind (at_offset message.now offset)) }
{
    let mut reader = BinDecoder::new(message);
    reader.skip(offset).unwrap();
    Field::read(kind, &mut reader)?;
    Ok(reader.index())
}

/// Returns how many octets of a field are before its value.
pub(crate) fn head_of(kind: Kind) -> usize
    ensures { result ≡ head_of kind }
{
    match kind {
        Kind::Counted(_) => 1,
        Kind::LongCounted(_) => 2,
        _ => 0,
    }
}

/// Returns the number of a kind in C.
pub(crate) fn field_kind(kind: Kind) -> u32
    ensures { result ≡ field_kind kind }
{
    match kind {
        Kind::Name(_) => 1,
        Kind::U8 | Kind::U16 | Kind::U32 | Kind::U48 | Kind::U64 => 2,
        Kind::LongTime | Kind::Locator | Kind::NodeNumber | Kind::ChaosAddress => 2,
        Kind::Ipv4 => 3,
        Kind::Ipv6 => 4,
        Kind::TypeCode => 5,
        Kind::Time => 6,
        Kind::Counted(Shown::Text | Shown::Tag) | Kind::Octets(Shown::Text) => 7,
        Kind::Counted(_) | Kind::LongCounted(_) | Kind::Octets(_) => 8,
        Kind::List(ListKind::Texts) => 9,
        Kind::List(ListKind::Types) => 10,
        Kind::List(ListKind::Params) => 11,
        Kind::Shaped(Shape::Location) => 12,
        Kind::Shaped(Shape::Gateway) => 13,
        Kind::Shaped(Shape::Relay) => 14,
        Kind::Shaped(Shape::HostIdentity) => 15,
        Kind::List(ListKind::Prefixes) => 16,
        Kind::List(ListKind::Names) => 17,
        Kind::Shaped(Shape::AddressSuffix) => 18,
    }
}
