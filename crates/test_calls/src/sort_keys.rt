//! Sort keys of names.

use dns_names_wire::decoder::BinDecoder;
use dns_names_wire::lower_name::LowerName;
use dns_names_wire::name::Name;
use dns_names_wire::name_ref::NameRef;
use dns_names_wire::sort_key::MAX_SORT_KEY_LENGTH;
use std::alloc::Global;
use std::test::Fail;

/// The names of RFC 4034, section 6.1, in their order. The RFC writes octets in decimal, so `\200` is 0xC8.
pub(crate) const IN_ORDER: [&[u8]; 9] = [
    b"\x07example\x00",
    b"\x01a\x07example\x00",
    b"\x08yljkjljk\x01a\x07example\x00",
    b"\x01Z\x01a\x07example\x00",
    b"\x04zABC\x01a\x07EXAMPLE\x00",
    b"\x01z\x07example\x00",
    b"\x01\x01\x01z\x07example\x00",
    b"\x01*\x01z\x07example\x00",
    b"\x01\xc8\x01z\x07example\x00",
];

/// Reads the name with a wire form.
pub(crate) fn name_of(alloc: Global, wire: &[u8]) -> Result<Name, Fail> {
    Ok(Name::read(alloc, &mut BinDecoder::new(wire)).map_err(|_| "a name")?)
}

#[test]
fn keys_are_in_the_order_of_the_rfc(rt: HostRuntime) -> Result<(), Fail> {
    for pair in IN_ORDER.windows(2) {
        let [before, after] = pair else {
            return Err("two names")?;
        };
        let before = name_of(rt.alloc(), before)?;
        let after = name_of(rt.alloc(), after)?;
        let mut before_key = [0; MAX_SORT_KEY_LENGTH];
        let mut after_key = [0; MAX_SORT_KEY_LENGTH];
        assert!(rt; before.sort_key(&mut before_key) < after.sort_key(&mut after_key));
    }
    Ok(())
}

#[test]
fn labels_are_written_from_the_last_one(rt: HostRuntime) -> Result<(), Fail> {
    let mut buffer = [0xff; MAX_SORT_KEY_LENGTH];
    let name = name_of(rt.alloc(), b"\x04zABC\x01a\x07EXAMPLE\x00")?;
    assert_eq!(rt;
        name.sort_key(&mut buffer),
        b"example\x00a\x00zabc\x00".as_slice()
    );
    Ok(())
}

#[test]
fn octets_0_and_1_are_written_as_two(rt: HostRuntime) -> Result<(), Fail> {
    let mut buffer = [0xff; MAX_SORT_KEY_LENGTH];
    let name = name_of(rt.alloc(), b"\x04\x00\x01\x02\xff\x01a\x00")?;
    assert_eq!(rt;
        name.sort_key(&mut buffer),
        b"a\x00\x01\x01\x01\x02\x02\xff\x00".as_slice()
    );
    Ok(())
}

#[test]
fn the_root_has_the_empty_key(rt: HostRuntime) {
    let mut buffer = [0xff; MAX_SORT_KEY_LENGTH];
    assert_eq!(rt;
        Name::root(rt.alloc()).sort_key(&mut buffer),
        b"".as_slice()
    );
}

#[test]
fn whether_a_name_is_fully_qualified_is_ignored(rt: HostRuntime) -> Result<(), Fail> {
    let mut buffer = [0xff; MAX_SORT_KEY_LENGTH];
    let mut name = name_of(rt.alloc(), b"\x01b\x01a\x00")?;
    name.set_fqdn(false);
    assert_eq!(rt; name.sort_key(&mut buffer), b"a\x00b\x00".as_slice());
    Ok(())
}

/// The longest key: a name of 255 octets, whose labels are all zeros.
#[test]
fn the_longest_key_fills_the_buffer(rt: HostRuntime) -> Result<(), Fail> {
    let mut wire = [0; 255];
    wire[0] = 63;
    wire[64] = 63;
    wire[128] = 63;
    wire[192] = 61;
    let mut expected = [1; MAX_SORT_KEY_LENGTH];
    expected[122] = 0;
    expected[249] = 0;
    expected[376] = 0;
    expected[503] = 0;
    let mut buffer = [0xff; MAX_SORT_KEY_LENGTH];
    let name = name_of(rt.alloc(), &wire)?;
    assert_eq!(rt; name.sort_key(&mut buffer), expected.as_slice());
    Ok(())
}

#[test]
fn a_name_of_a_message_has_the_same_key(rt: HostRuntime) -> Result<(), Fail> {
    let mut buffer = [0xff; MAX_SORT_KEY_LENGTH];
    let mut decoder = BinDecoder::new(b"\x07EXAMPLE\x00\x03WWW\xc0\x00");
    let zone = NameRef::read(&mut decoder).map_err(|_| "a name")?;
    assert_eq!(rt; zone.sort_key(&mut buffer), b"example\x00".as_slice());
    let host = NameRef::read(&mut decoder).map_err(|_| "a name")?;
    assert_eq!(rt;
        host.sort_key(&mut buffer),
        b"example\x00www\x00".as_slice()
    );
    Ok(())
}

#[test]
fn a_name_in_lower_case_has_the_same_key(rt: HostRuntime) -> Result<(), Fail> {
    let mut buffer = [0xff; MAX_SORT_KEY_LENGTH];
    let name = LowerName::from_str(rt.alloc(), "B.A.")?;
    assert_eq!(rt; name.sort_key(&mut buffer), b"a\x00b\x00".as_slice());
    Ok(())
}

#[test]
fn names_are_denied_in_the_order_of_their_keys(rt: HostRuntime) -> Result<(), Fail> {
    let denied = name_of(rt.alloc(), b"\x01b\x07example\x00")?;
    assert!(rt; uses::denial::denies(b"example\x00a\x00", b"example\x00z\x00", &denied));
    assert!(rt; !uses::denial::denies(b"example\x00b\x00", b"example\x00z\x00", &denied));
    assert!(rt; !uses::denial::denies(b"example\x00a\x00", b"example\x00b\x00", &denied));
    // The last record of a zone leads back to its apex.
    assert!(rt; uses::denial::denies(b"example\x00a\x00", b"example\x00", &denied));
    assert!(rt; !uses::denial::denies(b"example\x00z\x00", b"example\x00", &denied));
    Ok(())
}

#[test]
fn names_are_sorted_by_their_keys(rt: HostRuntime) -> Result<(), Fail> {
    let alloc = rt.alloc();
    // From the last one to the first, and the fifth once more, in lower case.
    let mut names = Vec::new(alloc);
    for wire in IN_ORDER.iter().rev() {
        names.push(name_of(alloc, wire)?)?;
    }
    names.push(name_of(alloc, b"\x04zabc\x01a\x07example\x00")?)?;
    let order = Name::canonical_order(alloc, names.as_slice())?;
    let expected = [8, 7, 6, 5, 4, 9, 3, 2, 1, 0];
    assert_eq!(rt; order.len(), expected.len());
    for (place, number) in expected.iter().enumerate() {
        assert_eq!(rt; order.get(place), Some(*number));
    }
    assert_eq!(rt; order.get(expected.len()), None);
    assert_eq!(rt; Name::canonical_order(alloc, &[])?.len(), 0);
    Ok(())
}

/// Names of two octets, the last of which is the first in order: with ample memory, at sizes that a body could take for a limit.
#[test]
fn many_borrowed_names_are_sorted(rt: HostRuntime) -> Result<(), Fail> {
    let alloc = rt.alloc();
    for count in [
        1,
        2,
        127,
        128,
        255,
        256,
        511,
        512,
        1_024,
        4_097,
        65_536usize,
    ] {
        let mut list = Vec::new(alloc);
        for number in 0..count {
            let [high, low] = ((65_535usize.saturating_sub(number)) as u16).to_be_bytes();
            list.extend_from_slice(&[2, high, low, 0])?;
        }
        let mut decoder = BinDecoder::new(list.as_slice());
        let mut names = Vec::new(alloc);
        for _ in 0..count {
            names.push(NameRef::read(&mut decoder).map_err(|_| "a name")?)?;
        }
        let order = NameRef::canonical_order(alloc, names.as_slice())?;
        assert_eq!(rt; order.len(), count);
        assert_eq!(rt; order.get(0), Some(count.saturating_sub(1)));
        assert_eq!(rt; order.get(count.saturating_sub(1)), Some(0));
    }
    Ok(())
}
