//! Module `encoder`: marks, to which an encoder is put back.

use dns_names_wire::binary::BinEncodable;
use dns_names_wire::encoder::{BinEncoder, Mark};
use dns_names_wire::name::Name;
use std::test::Fail;

#[test]
fn an_encoder_is_put_back_to_a_mark(rt: HostRuntime) -> Result<(), Fail> {
    let name = Name::from_ascii(rt.alloc(), "a.")?;
    let mut bytes = Vec::new(rt.alloc());
    let mut encoder = BinEncoder::new(&mut bytes).with_limits(64, 2);
    name.emit(&mut encoder)?;
    let mark: Mark = encoder.mark();
    name.emit(&mut encoder)?;
    assert_eq!(rt; encoder.len(), 5);
    encoder.rewind(mark);
    assert_eq!(rt; (encoder.len(), encoder.offset()), (3, 3));
    // The name that was undone is not counted.
    name.emit(&mut encoder)?;
    assert_eq!(rt;
        encoder.into_bytes().as_slice(),
        b"\x01a\x00\xc0\x00".as_slice()
    );
    Ok(())
}
