//! Module `decoder`: a cursor over borrowed bytes.

use dns_names_wire::decoder::BinDecoder;
use dns_names_wire::error::DecodeError;
use dns_names_wire::restrict::Restrict;
use std::test::Fail;

#[test]
fn a_cursor_moves_and_copies(rt: HostRuntime) -> Result<(), Fail> {
    let mut decoder: BinDecoder<'_> = BinDecoder::new(b"\x00\x01\x02");
    let first: Result<Restrict<u8>, DecodeError> = decoder.pop();
    assert_eq!(rt; first?.unverified(), 0);
    let next: Option<Restrict<u8>> = decoder.peek();
    assert_eq!(rt; next.map(Restrict::unverified), Some(1));
    let (len, index): (usize, usize) = (decoder.len(), decoder.index());
    let is_empty: bool = decoder.is_empty();
    assert_eq!(rt; (len, index, is_empty), (2, 1, false));
    let at_end: BinDecoder<'_> = decoder.clone(3u16);
    assert_eq!(rt; (at_end.len(), at_end.index()), (0, 3));
    assert!(rt; at_end.is_empty());
    assert!(rt; at_end.peek().is_none());
    assert_eq!(rt; decoder.index(), 1);
    Ok(())
}

#[test]
fn numbers_are_read(rt: HostRuntime) -> Result<(), Fail> {
    let mut decoder = BinDecoder::new(b"\x07\x01\x02\xff\xff\xff\xfe\xff\xff\xff\xfe\x09");
    let octet: Result<Restrict<u8>, DecodeError> = decoder.read_u8();
    let short: Result<Restrict<u16>, DecodeError> = decoder.read_u16();
    let signed: Result<Restrict<i32>, DecodeError> = decoder.read_i32();
    let long: Result<Restrict<u32>, DecodeError> = decoder.read_u32();
    assert_eq!(rt; octet?.unverified(), 7);
    assert_eq!(rt; short?.unverified(), 258);
    assert_eq!(rt; signed?.unverified(), -2);
    assert_eq!(rt; long?.unverified(), 4294967294);
    let missing: Result<Restrict<u16>, DecodeError> = decoder.read_u16();
    assert!(rt; matches!(missing, Err(DecodeError::InsufficientBytes)));
    assert_eq!(rt; decoder.index(), 11);
    Ok(())
}

/// Returns what is lent by a decoder that is then gone.
fn lent<'a>(message: &'a [u8]) -> Result<[&'a [u8]; 3], DecodeError> {
    let mut decoder = BinDecoder::new(message);
    let text: Result<Restrict<&'a [u8]>, DecodeError> = decoder.read_character_data();
    let slice: Result<Restrict<&'a [u8]>, DecodeError> = decoder.read_slice(1usize);
    let from: Result<&'a [u8], DecodeError> = decoder.slice_from(1usize);
    Ok([text?.unverified(), slice?.unverified(), from?])
}

#[test]
fn bytes_are_lent_and_copied(rt: HostRuntime) -> Result<(), Fail> {
    let message = b"\x03abc\xff";
    let lent = lent(message)?;
    assert_eq!(rt; lent[0], b"abc".as_slice());
    assert_eq!(rt; lent[1], b"\xff".as_slice());
    assert_eq!(rt; lent[2], b"abc\xff".as_slice());
    let mut decoder = BinDecoder::new(message);
    let copied: Result<Restrict<Vec<u8>>, DecodeError> = decoder.read_vec(rt.alloc(), 4usize);
    assert_eq!(rt; copied?.unverified().as_slice(), b"\x03abc".as_slice());
    let after: Result<&[u8], DecodeError> = decoder.slice_from(5);
    assert!(rt; matches!(after, Err(DecodeError::InvalidPreviousIndex)));
    let mut cut = BinDecoder::new(b"\x05a");
    assert!(rt;
        matches!(
            cut.read_character_data(),
            Err(DecodeError::InsufficientBytes)
        )
    );
    assert_eq!(rt; cut.index(), 0);
    Ok(())
}
