//! Module `encoder`: bounded writes, candidates for compression, modes with their guards, lists and places.

use crate::bounds::{is_copy, is_debug};
use dns_names_wire::binary::BinEncodable;
use dns_names_wire::encoder::{BinEncoder, ModalEncoder, NameEncoding, Place, RDataEncoding};
use dns_names_wire::error::{ProtoError, ProtoResult};
use dns_names_wire::name::Name;
use std::test::Fail;

#[test]
fn an_encoder_has_an_offset_and_a_mode(rt: HostRuntime) -> Result<(), Fail> {
    let mut bytes = Vec::from_slice(rt.alloc(), b"\x01\x02\x03")?;
    let mut encoder: BinEncoder<'_> = BinEncoder::with_offset(&mut bytes, 1u32);
    let (len, offset, is_empty): (usize, usize, bool) = (
        encoder.len(),
        encoder.offset(),
        encoder.is_empty(),
    );
    assert_eq!(rt; (len, offset, is_empty), (3, 1, false));
    encoder.set_offset(2usize);
    encoder.trim();
    encoder.set_max_size(2u16);
    let refused: ProtoResult<()> = encoder.emit_u8(7);
    assert!(rt; matches!(refused, Err(ProtoError::MaxBufferSizeExceeded(2))));
    encoder.set_canonical_form(true);
    let is_canonical: bool = encoder.is_canonical_form();
    assert!(rt; is_canonical);
    let at_first: NameEncoding = encoder.name_encoding();
    encoder.set_name_encoding(NameEncoding::Uncompressed);
    assert!(rt; matches!(at_first, NameEncoding::Compressed));
    assert!(rt; matches!(encoder.name_encoding(), NameEncoding::Uncompressed));
    let written: &Vec<u8> = encoder.into_bytes();
    assert_eq!(rt; written.as_slice(), b"\x01\x02".as_slice());
    Ok(())
}

#[test]
fn numbers_and_bytes_are_written(rt: HostRuntime) -> Result<(), Fail> {
    let mut bytes = Vec::new(rt.alloc());
    let mut encoder: BinEncoder<'_> = BinEncoder::new(&mut bytes);
    let results: [ProtoResult<()>; 8] = [
        encoder.emit(1u8),
        encoder.emit_u8(2u8),
        encoder.emit_u16(3u16),
        encoder.emit_i32(-2i32),
        encoder.emit_u32(4u32),
        encoder.emit_vec(b"\x05\x06"),
        encoder.emit_character_data(b"abc"),
        encoder.emit_character_data_unrestricted(b"d"),
    ];
    assert!(rt; results.iter().all(|it| it.is_ok()));
    let long: ProtoResult<()> = encoder.emit_character_data(&[0; 256]);
    assert!(rt;
        matches!(
            long,
            Err(ProtoError::CharacterDataTooLong { max: 255, len: 256 })
        )
    );
    drop(encoder);
    assert_eq!(rt;
        bytes.as_slice(),
        b"\x01\x02\x00\x03\xff\xff\xff\xfe\x00\x00\x00\x04\x05\x06\x03abc\x01d".as_slice()
    );
    Ok(())
}

#[test]
fn candidates_are_stored_and_found(rt: HostRuntime) -> Result<(), Fail> {
    let mut bytes = Vec::new(rt.alloc());
    let mut encoder = BinEncoder::new(&mut bytes);
    encoder.emit_vec(b"\x01a\x00\x01a\x00")?;
    let lent: &[u8] = encoder.slice_of(0usize, 2usize);
    assert_eq!(rt; lent, b"\x01a".as_slice());
    let stored: ProtoResult<()> = encoder.store_label_pointer(0usize, 2usize);
    stored?;
    let found: Option<u16> = encoder.get_label_pointer(3usize, 5usize);
    let missing: Option<u16> = encoder.get_label_pointer(3, 6);
    assert_eq!(rt; (found, missing), (Some(0), None));
    Ok(())
}

#[test]
fn limits_are_set(rt: HostRuntime) -> Result<(), Fail> {
    let name = Name::from_ascii(rt.alloc(), "a.")?;
    let mut bytes = Vec::new(rt.alloc());
    let mut encoder: BinEncoder<'_> = BinEncoder::new(&mut bytes).with_limits(64usize, 0usize);
    name.emit(&mut encoder)?;
    name.emit(&mut encoder)?;
    drop(encoder);
    assert_eq!(rt; bytes.as_slice(), b"\x01a\x00\x01a\x00".as_slice());
    Ok(())
}

#[test]
fn guards_set_a_mode(rt: HostRuntime) -> Result<(), Fail> {
    is_copy::<NameEncoding>();
    is_copy::<RDataEncoding>();
    let name = Name::from_ascii(rt.alloc(), "A.")?;
    let mut bytes = Vec::new(rt.alloc());
    let mut encoder = BinEncoder::new(&mut bytes);
    let mut guard: ModalEncoder<'_, '_> = encoder.with_name_encoding(
        NameEncoding::UncompressedLowercase,
    );
    let lent: &BinEncoder<'_> = &guard;
    assert!(rt; lent.is_empty());
    let lent: &mut BinEncoder<'_> = &mut guard;
    name.emit(lent)?;
    drop(guard);
    assert!(rt; matches!(encoder.name_encoding(), NameEncoding::Compressed));
    assert_eq!(rt; encoder.into_bytes().as_slice(), b"\x01a\x00".as_slice());
    Ok(())
}

/// Returns the mode within a guard of the data of a record.
fn mode_within(encoder: &mut BinEncoder<'_>, behavior: RDataEncoding) -> NameEncoding {
    let guard: ModalEncoder<'_, '_> = encoder.with_rdata_behavior(behavior);
    guard.name_encoding()
}

#[test]
fn guards_set_the_mode_of_data(rt: HostRuntime) {
    let mut bytes = Vec::new(rt.alloc());
    let mut encoder = BinEncoder::new(&mut bytes);
    let standard = mode_within(&mut encoder, RDataEncoding::StandardRecord);
    let canonical = mode_within(&mut encoder, RDataEncoding::Canonical);
    let other = mode_within(&mut encoder, RDataEncoding::Other);
    assert!(rt; matches!(standard, NameEncoding::Compressed));
    assert!(rt; matches!(canonical, NameEncoding::Uncompressed));
    assert!(rt; matches!(other, NameEncoding::Uncompressed));
    encoder.set_canonical_form(true);
    let standard = mode_within(&mut encoder, RDataEncoding::StandardRecord);
    let canonical = mode_within(&mut encoder, RDataEncoding::Canonical);
    let other = mode_within(&mut encoder, RDataEncoding::Other);
    assert!(rt; matches!(standard, NameEncoding::UncompressedLowercase));
    assert!(rt; matches!(canonical, NameEncoding::UncompressedLowercase));
    assert!(rt; matches!(other, NameEncoding::Uncompressed));
}

#[test]
fn lists_are_written(rt: HostRuntime) {
    let mut bytes = Vec::new(rt.alloc());
    let mut encoder = BinEncoder::new(&mut bytes);
    let numbers = [1u16, 2, 3];
    let mut items = numbers.iter();
    let count: ProtoResult<usize> = encoder.emit_iter(&mut items);
    assert!(rt; matches!(count, Ok(3)));
    encoder.set_max_size(10);
    let count: ProtoResult<usize> = encoder.emit_all(numbers.iter());
    assert!(rt; matches!(count, Err(ProtoError::NotAllRecordsWritten { count: 2 })));
    let count: ProtoResult<usize> = encoder.emit_all_refs(numbers[..0].iter());
    assert!(rt; matches!(count, Ok(0)));
    drop(encoder);
    assert_eq!(rt; bytes.as_slice(), [0, 1, 0, 2, 0, 3, 0, 1, 0, 2].as_slice());
}

#[test]
fn places_are_filled(rt: HostRuntime) -> Result<(), Fail> {
    is_debug::<Place<u16>>();
    let mut bytes = Vec::new(rt.alloc());
    let mut encoder = BinEncoder::new(&mut bytes);
    let first: ProtoResult<Place<u16>> = encoder.place::<u16>();
    let second: ProtoResult<Place<u16>> = encoder.place::<u16>();
    let (first, second) = (first?, second?);
    encoder.emit_u8(42)?;
    let holds: bool = encoder.holds(&first);
    let since: usize = encoder.len_since_place(&first);
    assert_eq!(rt; (holds, since), (true, 3));
    let filled: ProtoResult<()> = encoder.emit_at(first, 7u16);
    let replaced: ProtoResult<()> = second.replace(&mut encoder, 8u16);
    filled?;
    replaced?;
    assert_eq!(rt;
        encoder.into_bytes().as_slice(),
        b"\x00\x07\x00\x08\x2a".as_slice()
    );
    Ok(())
}
