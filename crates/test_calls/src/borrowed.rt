//! What is borrowed from a message, and not from the decoder that read it.

use dns_names_wire::binary::BinEncodable;
use dns_names_wire::decoder::BinDecoder;
use dns_names_wire::encoder::{BinEncoder, NameEncoding};
use dns_names_wire::error::DecodeError;
use dns_names_wire::name::Name;
use dns_names_wire::name_ref::NameRef;
use dns_names_wire::restrict::Restrict;
use std::test::Fail;

/// Reads character data, and returns it after the decoder is gone.
fn character_data<'a>(message: &'a [u8]) -> Result<&'a [u8], DecodeError> {
    let mut decoder = BinDecoder::new(message);
    decoder.read_character_data().map(Restrict::unverified)
}

#[test]
fn a_lent_slice_outlives_its_decoder(rt: HostRuntime) {
    assert!(rt; matches!(character_data(&[3, 0x61, 0x62, 0x63, 0xff]), Ok(b"abc")));
}

/// Reads a name at an offset, and returns it after the decoder is gone.
fn name_at<'a>(message: &'a [u8], start: usize) -> Result<NameRef<'a>, DecodeError> {
    let mut decoder = BinDecoder::new(message);
    decoder.skip(start)?;
    NameRef::read(&mut decoder)
}

#[test]
fn a_borrowed_name_outlives_its_decoder(rt: HostRuntime) -> Result<(), Fail> {
    let message = hex::decode(rt.alloc(), "01620161000162c002")?;
    let name = name_at(message.as_slice(), 5).map_err(|_| "a name")?;
    let mut labels = name.labels();
    assert_eq!(rt; labels.len(), 2);
    assert_eq!(rt; labels.next(), Some(b"b".as_slice()));
    assert_eq!(rt; labels.len(), 1);
    assert_eq!(rt; labels.next(), Some(b"a".as_slice()));
    assert_eq!(rt; labels.next(), None);
    Ok(())
}

#[test]
fn a_borrowed_name_is_copied_into_a_buffer(rt: HostRuntime) -> Result<(), Fail> {
    let message = hex::decode(rt.alloc(), "0162000161c000")?;
    let name = name_at(message.as_slice(), 3).map_err(|_| "a name")?;
    let mut buffer = [0xff; 6];
    assert_eq!(rt; name.copy_wire(&mut buffer[..4]), None);
    assert_eq!(rt; buffer, [0xff; 6]);
    assert_eq!(rt; name.copy_wire(&mut buffer[..5]), Some(5));
    assert_eq!(rt; buffer, *b"\x01a\x01b\x00\xff");
    Ok(())
}

#[test]
fn names_are_read_in_the_place_of_others(rt: HostRuntime) -> Result<(), Fail> {
    // The names of RFC 1035, section 4.1.4, and a pointer to itself.
    let message = hex::decode(rt.alloc(), "01460349534904415250410003464f4fc000c00600c015")?;
    let names = [
        b"\x01F\x03ISI\x04ARPA\x00".as_slice(),
        b"\x03FOO\x01F\x03ISI\x04ARPA\x00".as_slice(),
        b"\x04ARPA\x00".as_slice(),
        b"\x00".as_slice(),
    ];
    let mut decoder = BinDecoder::new(message.as_slice());
    let mut name = Name::from_ascii(rt.alloc(), "relative")?;
    for wire in names {
        name.read_into(&mut decoder).map_err(|_| "a name")?;
        assert_eq!(rt; name.as_wire(), wire);
        assert!(rt; name.is_fqdn());
    }
    assert!(rt;
        matches!(
            name.read_into(&mut decoder),
            Err(DecodeError::PointerNotPriorToLabel { idx: 21, ptr: 21 })
        )
    );
    assert_eq!(rt; decoder.index(), 21);
    assert!(rt; name.is_root());
    Ok(())
}

#[test]
fn a_name_is_copied_in_the_place_of_another(rt: HostRuntime) -> Result<(), Fail> {
    // The most labels.
    let mut long = Name::root(rt.alloc());
    for _ in 0..127 {
        long = long.append_label(rt.alloc(), b"a".as_slice())?;
    }
    let short = Name::from_ascii(rt.alloc(), "b")?;
    let mut name = Name::root(rt.alloc());
    name.clone_from(&long);
    assert_eq!(rt; name.encoded_len(), 255);
    assert!(rt; name == long);
    name.clone_from(&short);
    assert_eq!(rt; name.as_wire(), b"\x01b\x00".as_slice());
    assert!(rt; name == short && !name.is_fqdn());
    Ok(())
}

#[test]
fn a_name_in_one_piece_lends_its_octets(rt: HostRuntime) -> Result<(), Fail> {
    // b., a.b. by a pointer after its label, and b. by a pointer alone.
    let message = hex::decode(rt.alloc(), "0162000161c000c000")?;
    for (start, octets) in [(0, Some(b"\x01b\x00")), (3, None), (7, Some(b"\x01b\x00"))] {
        let name = name_at(message.as_slice(), start).map_err(|_| "a name")?;
        let found = name.labels_in_place();
        assert_eq!(rt; found.is_some(), octets.is_some());
        if let (Some(found), Some(octets)) = (found, octets) {
            assert_eq!(rt; found.as_wire(), octets.as_slice());
        }
    }
    Ok(())
}

#[test]
fn a_borrowed_name_is_written(rt: HostRuntime) -> Result<(), Fail> {
    let message = hex::decode(rt.alloc(), "0142000161c000")?;
    let name = name_at(message.as_slice(), 3).map_err(|_| "a name")?;
    let mut bytes = Vec::new(rt.alloc());
    let mut encoder = BinEncoder::new(&mut bytes);
    name_at(message.as_slice(), 0)
        .map_err(|_| "a name")?
        .emit(&mut encoder)?;
    name.emit(&mut encoder)?;
    encoder.set_name_encoding(NameEncoding::UncompressedLowercase);
    name.emit(&mut encoder)?;
    assert_eq!(rt;
        encoder.into_bytes().as_slice(),
        b"\x01B\x00\x01a\xc0\x00\x01a\x01b\x00".as_slice()
    );
    Ok(())
}
