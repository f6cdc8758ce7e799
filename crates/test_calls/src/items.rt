//! Lists of items of a caller's own type.

use dns_names_wire::binary::BinEncodable;
use dns_names_wire::encoder::BinEncoder;
use dns_names_wire::error::{ProtoError, ProtoResult};
use std::alloc::{AllocError, Global};
use std::test::Fail;

/// A byte, and a text after it as character data.
#[derive(Drop)]
struct TestItem {
    byte: u8,
    text: Vec<u8>,
}

impl BinEncodable for TestItem {
    ghost use Rattle.test_calls.specs.TestItems.{WritesBoth, keeps_frame};

    ghost emits = { λ item. WritesBoth item.byte item.text.items };

    ghost keeps_frame = { λ item. keeps_frame item.byte item.text.items };

    fn emit(&self, encoder: &mut BinEncoder<'_>) -> ProtoResult<()> {
        encoder.emit_u8(self.byte)?;
        encoder.emit_character_data(self.text.as_slice())
    }
}

/// Returns an item with a text of `len` zeros, 256 at most.
fn item(alloc: Global, byte: u8, len: usize) -> Result<TestItem, AllocError> {
    let zeros = [0u8; 256];
    let text = Vec::from_slice(alloc, &zeros[..len.min(256)])?;
    Ok(TestItem { byte, text })
}

#[test]
fn an_item_that_fails_is_rolled_back_whatever_the_error(rt: HostRuntime) -> Result<(), Fail> {
    let alloc = rt.alloc();
    let mut bytes = Vec::new(alloc);
    let mut encoder = BinEncoder::new(&mut bytes);
    let items = [item(alloc, 1, 0)?, item(alloc, 7, 256)?, item(alloc, 1, 0)?];
    assert!(rt;
        matches!(
            encoder.emit_all(items.iter()),
            Err(ProtoError::CharacterDataTooLong { max: 255, len: 256 })
        )
    );
    encoder.set_max_size(5);
    let items = [item(alloc, 1, 0)?, item(alloc, 9, 2)?, item(alloc, 1, 0)?];
    assert!(rt;
        matches!(
            encoder.emit_all(items.iter()),
            Err(ProtoError::NotAllRecordsWritten { count: 1 })
        )
    );
    drop(encoder);
    assert_eq!(rt; bytes.as_slice(), [1, 0, 1, 0].as_slice());
    Ok(())
}

#[test]
fn the_items_after_one_that_fails_stay_in_the_iterator(rt: HostRuntime) {
    let mut bytes = Vec::new(rt.alloc());
    let mut encoder = BinEncoder::new(&mut bytes);
    encoder.set_max_size(3);
    let items = [1u16, 2, 3];
    let mut iter = items.iter();
    assert!(rt;
        matches!(
            encoder.emit_iter(&mut iter),
            Err(ProtoError::NotAllRecordsWritten { count: 1 })
        )
    );
    assert_eq!(rt; iter.next(), Some(&3));
    encoder.set_max_size(100);
    let more = [7u16, 7];
    assert!(rt; matches!(encoder.emit_all_refs(more.iter()), Ok(2)));
    drop(encoder);
    assert_eq!(rt; bytes.as_slice(), [0, 1, 0, 7, 0, 7].as_slice());
}
