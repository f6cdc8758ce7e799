//! Guards, which set how names are written until they are dropped.

use dns_names_wire::binary::BinEncodable;
use dns_names_wire::encoder::{BinEncoder, NameEncoding, RDataEncoding};
use dns_names_wire::name::Name;
use std::test::Fail;

#[test]
fn a_guard_restores_the_former_mode(rt: HostRuntime) -> Result<(), Fail> {
    let name = Name::from_ascii(rt.alloc(), "A.")?;
    let mut bytes = Vec::new(rt.alloc());
    let mut encoder = BinEncoder::new(&mut bytes);
    encoder.set_name_encoding(NameEncoding::Uncompressed);
    let mut guard = encoder.with_name_encoding(NameEncoding::UncompressedLowercase);
    name.emit(&mut guard)?;
    drop(guard);
    name.emit(&mut encoder)?;
    assert!(rt; matches!(encoder.name_encoding(), NameEncoding::Uncompressed));
    assert_eq!(rt;
        encoder.into_bytes().as_slice(),
        b"\x01a\x00\x01A\x00".as_slice()
    );
    Ok(())
}

#[test]
fn a_guard_within_a_guard(rt: HostRuntime) {
    let mut bytes = Vec::new(rt.alloc());
    let mut encoder = BinEncoder::new(&mut bytes);
    let mut outer = encoder.with_rdata_behavior(RDataEncoding::Other);
    let inner = outer.with_name_encoding(NameEncoding::UncompressedLowercase);
    assert!(rt; matches!(inner.name_encoding(), NameEncoding::UncompressedLowercase));
    drop(inner);
    assert!(rt; matches!(outer.name_encoding(), NameEncoding::Uncompressed));
    drop(outer);
    assert!(rt; matches!(encoder.name_encoding(), NameEncoding::Compressed));
}
