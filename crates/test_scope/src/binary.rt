//! Module `binary`: types that are written and read.

use dns_names_wire::binary::{BinDecodable, BinEncodable, EncodedSize};
use dns_names_wire::codes::{DNSClass, RecordType, RecordTypeSet};
use dns_names_wire::decoder::BinDecoder;
use dns_names_wire::encoder::BinEncoder;
use dns_names_wire::error::{DecodeError, ProtoResult};
use dns_names_wire::lower_name::LowerName;
use dns_names_wire::name::Name;
use std::alloc::Global;
use std::test::Fail;

/// Returns a value's bytes after two others.
fn written<E: BinEncodable>(alloc: Global, value: &E) -> ProtoResult<Vec<u8>> {
    let mut bytes = Vec::new(alloc);
    let mut encoder = BinEncoder::new(&mut bytes);
    let result: ProtoResult<()> = value.emit(&mut encoder);
    result?;
    drop(encoder);
    let alone: ProtoResult<Vec<u8>> = value.to_bytes(alloc);
    bytes.extend_from_slice(alone?.as_slice())?;
    Ok(bytes)
}

#[test]
fn values_of_nine_types_are_written(rt: HostRuntime) -> Result<(), Fail> {
    let alloc = rt.alloc();
    let name = Name::from_ascii(alloc, "A.")?;
    let lower = LowerName::new(&name)?;
    let types = [RecordType::A, RecordType::NS];
    let set = RecordTypeSet::new(alloc, types)?;
    let bytes = Vec::from_slice(alloc, b"ab")?;
    for (written, wanted) in [
        (written::<u16>(alloc, &1)?, b"\x00\x01\x00\x01".as_slice()),
        (written::<i32>(alloc, &-1)?, &[255; 8]),
        (
            written::<u32>(alloc, &1)?,
            b"\x00\x00\x00\x01\x00\x00\x00\x01",
        ),
        (written::<Vec<u8>>(alloc, &bytes)?, b"abab"),
        (written::<Name>(alloc, &name)?, b"\x01A\x00\x01A\x00"),
        (written::<LowerName>(alloc, &lower)?, b"\x01a\x00\x01a\x00"),
        (
            written::<RecordType>(alloc, &types[1])?,
            b"\x00\x02\x00\x02",
        ),
        (
            written::<DNSClass>(alloc, &DNSClass::IN)?,
            b"\x00\x01\x00\x01",
        ),
        (
            written::<RecordTypeSet>(alloc, &set)?,
            b"\x00\x01\x60\x00\x01\x60",
        ),
    ] {
        assert_eq!(rt; written.as_slice(), wanted);
    }
    Ok(())
}

/// Reads a value twice.
fn read<'r, D: BinDecodable<'r> + Drop>(
    alloc: Global,
    bytes: &'r [u8],
) -> Result<[D; 2], DecodeError> {
    let mut decoder = BinDecoder::new(bytes);
    let read: Result<D, DecodeError> = D::read(alloc, &mut decoder);
    let whole: Result<D, DecodeError> = D::from_bytes(alloc, bytes);
    Ok([read?, whole?])
}

#[test]
fn values_of_seven_types_are_read(rt: HostRuntime) -> Result<(), Fail> {
    let alloc = rt.alloc();
    assert_eq!(rt; read::<u16>(alloc, b"\x00\x01")?, [1, 1]);
    assert_eq!(rt; read::<i32>(alloc, &[255; 4])?, [-1, -1]);
    assert_eq!(rt; read::<u32>(alloc, b"\x00\x00\x00\x01")?, [1, 1]);
    assert_eq!(rt;
        read::<RecordType>(alloc, b"\x00\x02")?,
        [RecordType::NS, RecordType::NS]
    );
    assert_eq!(rt;
        read::<DNSClass>(alloc, b"\x00\x01")?,
        [DNSClass::IN, DNSClass::IN]
    );
    let names = read::<Name>(alloc, b"\x01A\x00")?;
    let lower = read::<LowerName>(alloc, b"\x01A\x00")?;
    assert!(rt; names[0] == Name::from_ascii(alloc, "A.")? && names[0] == names[1]);
    assert!(rt; lower[0] == LowerName::new(&names[0])? && lower[0] == lower[1]);
    Ok(())
}

/// Returns how many bytes each value of a type takes.
fn len_of<E: EncodedSize>() -> usize {
    E::LEN
}

#[test]
fn a_number_has_its_size(rt: HostRuntime) {
    let len: usize = <u16 as EncodedSize>::LEN;
    assert_eq!(rt; (len, len_of::<u16>()), (2, 2));
}
