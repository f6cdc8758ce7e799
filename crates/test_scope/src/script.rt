//! Module `script`: messages that are written step by step.

use dns_names_wire::binary::BinEncodable;
use dns_names_wire::encoder::NameEncoding;
use dns_names_wire::error::{ProtoError, ProtoResult};
use dns_names_wire::name::Name;
use dns_names_wire::script::{Item, Part, Reply, Step, run, run_limited};
use std::alloc::Global;
use std::test::Fail;

/// Returns an item of every part.
fn item(alloc: Global, encoding: Option<NameEncoding>) -> Result<Item, Fail> {
    Ok(Item {
        encoding,
        parts: vec![in alloc;
            Part::Name(Name::from_ascii(alloc, "A.")?),
            Part::U8(1u8),
            Part::U16(2u16),
            Part::I32(-1i32),
            Part::U32(3u32),
            Part::Bytes(Vec::from_slice(alloc, b"b")?),
            Part::Text(Vec::from_slice(alloc, b"t")?),
        ]?,
    })
}

/// The bytes of that item, with its name in lower case.
const ITEM: &[u8] = b"\x01a\x00\x01\x00\x02\xff\xff\xff\xff\x00\x00\x00\x03b\x01t";

#[test]
fn an_item_is_written(rt: HostRuntime) -> Result<(), Fail> {
    let made: Item = item(rt.alloc(), Some(NameEncoding::UncompressedLowercase))?;
    let bytes: ProtoResult<Vec<u8>> = made.to_bytes(rt.alloc());
    assert_eq!(rt; bytes?.as_slice(), ITEM);
    Ok(())
}

/// Returns how long a buffer was after each step, or the fixed replies as text.
fn lens(alloc: Global, replies: &[Reply]) -> Result<Vec<usize>, Fail> {
    let mut lens = Vec::new(alloc);
    for reply in replies {
        lens.push(match reply {
            Reply::Done { len } => *len,
            Reply::Refused { error: _, len } => 100 + *len,
            Reply::NoPlace => 200,
            Reply::Items { count, error, len } => {
                assert_none(error)?;
                300 + count.min(&9) * 100 + *len
            }
        })?;
    }
    Ok(lens)
}

/// Fails if there is an error.
fn assert_none(error: &Option<ProtoError>) -> Result<(), Fail> {
    match error {
        None => Ok(()),
        Some(_) => Err(Fail::from("an error")),
    }
}

#[test]
fn each_step_has_a_reply(rt: HostRuntime) -> Result<(), Fail> {
    let alloc = rt.alloc();
    let steps: [Step; 13] = [
        Step::Reserve,
        Step::Name(Name::from_ascii(alloc, "a.")?),
        Step::U8(1u8),
        Step::U16(2u16),
        Step::I32(-1i32),
        Step::U32(3u32),
        Step::Bytes(Vec::from_slice(alloc, b"b")?),
        Step::Text(Vec::from_slice(alloc, b"t")?),
        Step::Encoding(NameEncoding::Uncompressed),
        Step::Items(vec![in alloc; item(alloc, Some(NameEncoding::UncompressedLowercase))?]?),
        Step::Fill {
            place: 0usize,
            value: 7u16,
        },
        Step::Fill { place: 0, value: 8 },
        Step::Max(0u16),
    ];
    let mut buffer: Vec<u8> = Vec::new(alloc);
    let replies: ProtoResult<Vec<Reply>> = run(alloc, &mut buffer, &steps);
    let found = lens(alloc, replies?.as_slice())?;
    let wanted = [2, 5, 6, 8, 12, 16, 17, 19, 19, 436, 36, 200, 36];
    assert_eq!(rt; found.as_slice(), wanted.as_slice());
    assert_eq!(rt; buffer.len(), 36);
    assert!(rt; buffer.as_slice().starts_with(b"\x00\x07\x01a\x00"));
    assert!(rt; buffer.as_slice().ends_with(ITEM));
    Ok(())
}

#[test]
fn a_step_is_refused(rt: HostRuntime) -> Result<(), Fail> {
    let alloc = rt.alloc();
    let steps = [
        Step::Max(10),
        Step::Name(Name::from_ascii(alloc, "abcdefghij.")?),
    ];
    let mut buffer = Vec::new(alloc);
    let replies = run(alloc, &mut buffer, &steps)?;
    let [Reply::Done { len: 0 }, Reply::Refused { error, len }] = replies.as_slice() else {
        return Err(Fail::from("replies"));
    };
    let (error, len): (&ProtoError, &usize) = (error, len);
    assert!(rt; matches!(error, ProtoError::MaxBufferSizeExceeded(10)));
    assert_eq!(rt; *len, 0);
    Ok(())
}

#[test]
fn limits_are_given(rt: HostRuntime) -> Result<(), Fail> {
    let alloc = rt.alloc();
    let steps = [
        Step::Name(Name::from_ascii(alloc, "a.")?),
        Step::Name(Name::from_ascii(alloc, "a.")?),
    ];
    let mut buffer: Vec<u8> = Vec::new(alloc);
    let replies: ProtoResult<Vec<Reply>> = run_limited(alloc, &mut buffer, &steps, 64usize, 0usize);
    assert_eq!(rt;
        lens(alloc, replies?.as_slice())?.as_slice(),
        [3, 6].as_slice()
    );
    Ok(())
}
