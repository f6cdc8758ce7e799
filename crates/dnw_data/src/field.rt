//! Fields of the data of a record.
ghost use Rattle.std.specs.Prelude.{◌≡◌, ◌++◌, length, None, Some, IfOk, IfErr, OnErr, OnOk, IsErrOf, IsOkAnd};
ghost use Rattle.std.specs.Int.{w16, w32, from_be_bytes};
ghost use Rattle.dnw_base.specs.declared.error.DecodeError.{DecodeError};
ghost use Rattle.dnw_base.specs.Decoder.{Decoder, HasLeft};
ghost use Rattle.dnw_base.specs.Names.{AreLabels, wire};
ghost use Rattle.dnw_data.specs.Lists.{list_fault};
ghost use Rattle.dnw_data.specs.FieldWires.{AppendsWire};
ghost use Rattle.dnw_data.specs.Values.{own_size, counted, counted_size, long_counted, long_counted_size, own_fault, own_value, seen};
ghost use Rattle.dnw_data.specs.Fields.{TakesNameField, FailsName, TakesOwn, FailsOwn, own_at, size_at};

use crate::kind::{Kind, ListKind};
use crate::lists::Items;
use crate::shapes::{Shaped, shape_size};
use dnw_base::decoder::BinDecoder;
use dnw_base::error::DecodeError;
use dnw_base::limits::{MAX_DATA, MAX_NAME};
use dnw_base::record_type::RecordType;
use dnw_base::serial_number::SerialNumber;
use dnw_name::name_ref::NameRef;
use std::alloc::AllocError;
use std::net::{Ipv4Addr, Ipv6Addr};

/// A field of the data of a record. It borrows from the message, and nothing here allocates.
#[derive(Drop)]
pub enum Field<'r> {
    /// A name.
    Name(NameRef<'r>),
    /// A number of one octet.
    U8(u8),
    /// A number of two octets.
    U16(u16),
    /// A number of four octets.
    U32(u32),
    /// A number of six octets.
    U48(u64),
    /// A number of eight octets.
    U64(u64),
    /// An IPv4 address.
    Ipv4(Ipv4Addr),
    /// An IPv6 address.
    Ipv6(Ipv6Addr),
    /// A record type.
    TypeCode(RecordType),
    /// A time, in seconds since 1970, as a serial number.
    Time(SerialNumber),
    /// Octets, without the length octet that is before them.
    Counted(&'r [u8]),
    /// All octets that were left.
    Octets(&'r [u8]),
    /// Character strings.
    Texts(Items<'r>),
    /// Windows of record types.
    Types(Items<'r>),
    /// Service parameters.
    Params(Items<'r>),
    /// Address prefixes.
    Prefixes(Items<'r>),
    /// Names in their wire form.
    Names(Items<'r>),
    /// Octets, without the length of two octets that is before them.
    LongCounted(&'r [u8]),
    /// Octets whose first ones say what follows them.
    Shaped(Shaped<'r>),
}

impl<'r> Field<'r> {
    ghost use Rattle.dnw_data.specs.Values.{FieldValue, seen};
    ghost use Rattle.dnw_data.specs.Fields.{TakesField, FailsField};
    ghost use Rattle.dnw_data.specs.FieldWires.{AppendsWire, IsFieldValue};

    /// Reads a field of this kind at the cursor, and leaves the cursor after it. The reader's message must end where the
    /// data do. If it fails, the cursor is unchanged. It does not allocate.
    ///
    /// It fails with the error of reading a name there, or with `InsufficientBytes` if the data end within the field.
    // Inlined with all that it calls, since LLVM takes a large result that is returned through memory apart, octet by octet.
    #[inline(always)]
    pub fn read(kind: Kind, reader: &mut BinDecoder<'r>) -> Result<Self, DecodeError>
        ensures ok { IfOk result (λ field. TakesField kind reader.old (seen field) reader.new) }
        ensures err { IfErr result (FailsField kind reader.old) }
        ensures same { OnErr result (reader.new ≡ reader.old) }

        // It accepts what the definition accepts, and fails where the definition does.
        ensures accepts { (value : FieldValue) (after : Decoder) → TakesField kind reader.old value after
            → IsOkAnd result (λ field. seen field ≡ value) × (reader.new ≡ after) }
        ensures fails { (error : DecodeError) → FailsField kind reader.old error → IsErrOf result error }
    {
        match kind {
            Kind::Name(_) => read_name(reader),
            _ => read_own(kind, reader),
        }
    }

    /// Appends the octets of the field, a name in its wire form (RFC 1035, section 3.1). Returns `false` if it is `Counted`
    /// and has more than 255 octets, or `LongCounted` and has more than 65535, which its length does not count; then nothing
    /// is appended.
    ///
    /// It fails if an allocation fails, and then nothing is appended either.
    pub fn append_to(&self, out: &mut Vec<u8>) -> Result<bool, AllocError>
        ensures appends { IfOk result (AppendsWire (seen self.now) out.old.items out.new.items) }
        ensures same { OnErr result (out.new.items ≡ out.old.items) }
        ensures of_type { OnOk result (IsFieldValue (seen self.now)) }
    {
        match self {
            Field::Name(name) => append_name(name, out)?,
            Field::U8(number) => out.push(*number)?,
            Field::U16(number) => out.extend_from_slice(&number.to_be_bytes())?,
            Field::U32(number) => out.extend_from_slice(&number.to_be_bytes())?,
            Field::U48(number) => out.extend_from_slice(&number.to_be_bytes()[2..])?,
            Field::U64(number) => out.extend_from_slice(&number.to_be_bytes())?,
            Field::Ipv4(address) => out.extend_from_slice(&address.octets())?,
            Field::Ipv6(address) => out.extend_from_slice(&address.octets())?,
            Field::TypeCode(code) => out.extend_from_slice(&u16::from(*code).to_be_bytes())?,
            Field::Time(seconds) => out.extend_from_slice(&seconds.get().to_be_bytes())?,
            Field::Counted(octets) => return append_counted(octets, out),
            Field::Octets(octets) => out.extend_from_slice(octets)?,
            Field::Texts(items)
            | Field::Types(items)
            | Field::Params(items)
            | Field::Prefixes(items)
            | Field::Names(items) => append_items(items, out)?,
            Field::LongCounted(octets) => return append_long_counted(octets, out),
            Field::Shaped(shaped) => out.extend_from_slice(shaped.as_bytes())?,
        }
        Ok(true)
    }
}

/// Appends the wire form of a name.
fn append_name(name: &NameRef<'_>, out: &mut Vec<u8>) -> Result<(), AllocError>
    ensures appends { OnOk result (out.new.items ≡ out.old.items ++ wire name.now) }
    ensures same { OnErr result (out.new.items ≡ out.old.items) }
    ensures labels { AreLabels name.now }
{
    let size = name.encoded_len();
    let mut room = [0; MAX_NAME];
    name.copy_wire(&mut room).unwrap();
    out.extend_from_slice(&room[..size])
}

/// Appends octets after their number. Returns `false` if they are too many.
fn append_counted(octets: &[u8], out: &mut Vec<u8>) -> Result<bool, AllocError>
    ensures appends { IfOk result (AppendsWire (counted octets.now) out.old.items out.new.items) }
    ensures same { OnErr result (out.new.items ≡ out.old.items) }
{
    if octets.len() > 255 {
        return Ok(false);
    }
    let start = out.len();
    out.push(octets.len() as u8)?;
    if let Err(error) = out.extend_from_slice(octets) {
        out.truncate(start);
        return Err(error);
    }
    Ok(true)
}

/// Appends octets after their number, in two octets. Returns `false` if they are too many.
fn append_long_counted(octets: &[u8], out: &mut Vec<u8>) -> Result<bool, AllocError>
    ensures appends { IfOk result (AppendsWire (long_counted octets.now) out.old.items out.new.items) }
    ensures same { OnErr result (out.new.items ≡ out.old.items) }
{
    if octets.len() > MAX_DATA {
        return Ok(false);
    }
    let before = out.len();
    out.extend_from_slice(&(octets.len() as u16).to_be_bytes())?;
    if let Err(error) = out.extend_from_slice(octets) {
        out.truncate(before);
        return Err(error);
    }
    Ok(true)
}

/// Appends the octets of items.
fn append_items(items: &Items<'_>, out: &mut Vec<u8>) -> Result<(), AllocError>
    ensures appends { OnOk result (out.new.items ≡ out.old.items ++ items.now.octets) }
    ensures same { OnErr result (out.new.items ≡ out.old.items) }
    ensures right { list_fault items.now.kind items.now.octets ≡ None }
{
    out.extend_from_slice(items.as_bytes())
}

/// Reads a field that is a name.
#[inline(always)]
fn read_name<'r>(reader: &mut BinDecoder<'r>) -> Result<Field<'r>, DecodeError>
    ensures ok { IfOk result (λ field. TakesNameField reader.old (seen field) reader.new) }
    ensures err { IfErr result (FailsName reader.old) }
    ensures same { OnErr result (reader.new ≡ reader.old) }
{
    let name = NameRef::read(reader)?;
    Ok(Field::Name(name))
}

/// Reads a field that is no name: it is its own octets.
#[inline(always)]
fn read_own<'r>(kind: Kind, reader: &mut BinDecoder<'r>) -> Result<Field<'r>, DecodeError>
    ensures ok { IfOk result (λ field. TakesOwn kind reader.old (seen field) reader.new) }
    ensures err { IfErr result (FailsOwn kind reader.old) }
    ensures same { OnErr result (reader.new ≡ reader.old) }
{
    let own = own_at(kind, reader)?;
    let field = of_octets(kind, own)?;
    reader.skip(own.len()).unwrap();
    Ok(field)
}

/// Returns the octets of the field at the cursor that is no name. It fails if they are not all left.
#[inline(always)]
fn own_at<'r>(kind: Kind, reader: &BinDecoder<'r>) -> Result<&'r [u8], DecodeError>
    ensures ok { IfOk result (λ own. HasLeft reader.now (size_at kind reader.now) × (own.now ≡ own_at kind reader.now)) }
    ensures size { IfOk result (λ own. (length own.now ≡ size_at kind reader.now) × (length own.now ≡ own_size kind own.now)) }
    ensures err { IfErr result (λ e. (¬ (HasLeft reader.now (size_at kind reader.now))) × (e ≡ DecodeError.InsufficientBytes)) }
{
    let left = &reader.message()[reader.index()..];
    let size = own_size(kind, left);
    if left.len() < size {
        return Err(DecodeError::InsufficientBytes);
    }
    Ok(&left[..size])
}

/// Returns how many octets a field takes of those that are left. It is more than there are if the data end within it.
#[inline(always)]
fn own_size(kind: Kind, left: &[u8]) -> usize
    ensures { result ≡ own_size kind left.now }
{
    match kind {
        Kind::U8 => 1,
        Kind::U16 | Kind::TypeCode | Kind::ChaosAddress => 2,
        Kind::U32 | Kind::Ipv4 | Kind::Time => 4,
        Kind::U48 | Kind::LongTime => 6,
        Kind::U64 | Kind::Locator | Kind::NodeNumber => 8,
        Kind::Ipv6 => 16,
        Kind::Counted(_) => counted_size(left),
        Kind::LongCounted(_) => long_counted_size(left),
        Kind::Shaped(shape) => shape_size(shape, left),
        Kind::List(ListKind::Texts) => left.len().max(1),
        Kind::Name(_) | Kind::Octets(_) | Kind::List(_) => left.len(),
    }
}

/// Returns the size of a length octet and what it counts.
fn counted_size(left: &[u8]) -> usize
    ensures { result ≡ counted_size left.now }
{
    match left.first() {
        Some(len) => 1 + *len as usize,
        None => 1,
    }
}

/// Returns the size of a length of two octets and what it counts.
fn long_counted_size(left: &[u8]) -> usize
    ensures { result ≡ long_counted_size left.now }
{
    match left {
        [a, b, ..] => 2 + usize::from(u16::from_be_bytes([*a, *b])),
        _ => 2,
    }
}

/// Returns the field that these octets are. Only a list and a shape may fail.
#[inline(always)]
fn of_octets<'r>(kind: Kind, own: &'r [u8]) -> Result<Field<'r>, DecodeError>
    requires size { length own.now ≡ own_size kind own.now }
    ensures ok { IfOk result (λ field. (own_fault kind own.now ≡ None) × (seen field ≡ own_value kind own.now)) }
    ensures err { IfErr result (λ e. own_fault kind own.now ≡ Some e) }
{
    match kind {
        Kind::U8 => Ok(Field::U8(own[0])),
        Kind::U16 | Kind::ChaosAddress => Ok(Field::U16(u16_of(own))),
        Kind::U32 => Ok(Field::U32(u32_of(own))),
        Kind::U48 | Kind::LongTime => Ok(Field::U48(u64::from_be_bytes([
            0, 0, own[0], own[1], own[2], own[3], own[4], own[5],
        ]))),
        Kind::U64 | Kind::Locator | Kind::NodeNumber => Ok(Field::U64(u64::from_be_bytes(
            *own.first_chunk::<8>().unwrap(),
        ))),
        Kind::Ipv4 => Ok(Field::Ipv4(Ipv4Addr::from(*own.first_chunk::<4>().unwrap()))),
        Kind::Ipv6 => Ok(Field::Ipv6(Ipv6Addr::from(*own.first_chunk::<16>().unwrap()))),
        Kind::TypeCode => Ok(Field::TypeCode(RecordType::from(u16_of(own)))),
        Kind::Time => Ok(Field::Time(SerialNumber::new(u32_of(own)))),
        Kind::Counted(_) => Ok(Field::Counted(&own[1..])),
        Kind::LongCounted(_) => Ok(Field::LongCounted(&own[2..])),
        Kind::Shaped(shape) => Ok(Field::Shaped(Shaped::of_octets(shape, own)?)),
        Kind::List(ListKind::Texts) => Ok(Field::Texts(Items::new(ListKind::Texts, own)?)),
        Kind::List(ListKind::Types) => Ok(Field::Types(Items::new(ListKind::Types, own)?)),
        Kind::List(ListKind::Params) => Ok(Field::Params(Items::new(ListKind::Params, own)?)),
        Kind::List(ListKind::Prefixes) => Ok(Field::Prefixes(Items::new(ListKind::Prefixes, own)?)),
        Kind::List(ListKind::Names) => Ok(Field::Names(Items::new(ListKind::Names, own)?)),
        Kind::Name(_) | Kind::Octets(_) => Ok(Field::Octets(own)),
    }
}

/// Returns the number that two octets are.
fn u16_of(own: &[u8]) -> u16
    requires { length own.now ≡ 2 }
    ensures { result ≡ from_be_bytes w16 own.now }
{
    u16::from_be_bytes([own[0], own[1]])
}

/// Returns the number that four octets are.
fn u32_of(own: &[u8]) -> u32
    requires { length own.now ≡ 4 }
    ensures { result ≡ from_be_bytes w32 own.now }
{
    u32::from_be_bytes([own[0], own[1], own[2], own[3]])
}
