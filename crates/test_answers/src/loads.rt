//! Zones that are loaded, and octets that are none.

use crate::outcomes::octets_of;
use ans_store::error::StoreError;
use ans_store::store::ZoneStore;
use dns_names_wire::Name;
use std::alloc::Global;
use std::test::Fail;

/// The SOA record of the zone `a.`.
const SOA: &str = "a. 60 SOA ns.a. h.a. 1 2 3 4 5";

/// Returns why octets are no zone `a.`.
fn refused(alloc: Global, octets: &[u8]) -> Result<Option<StoreError>, Fail> {
    let apex = Name::from_ascii(alloc, "a.")?;
    Ok(ZoneStore::load(alloc, apex, octets).err())
}

#[test]
fn each_error_has_its_record(rt: HostRuntime) -> Result<(), Fail> {
    let alloc = rt.alloc();
    let unordered = octets_of(alloc, &[SOA, "c.a. 60 TXT x", "b.a. 60 TXT x"])?;
    assert!(rt;
        refused(alloc, unordered.as_slice())? == Some(StoreError::NotInOrder { number: 2 })
    );
    let outside = octets_of(alloc, &[SOA, "b. 60 TXT x"])?;
    assert!(rt; refused(alloc, outside.as_slice())? == Some(StoreError::OutOfZone { number: 1 }));
    let without = octets_of(alloc, &["a. 60 NS ns.a."])?;
    assert!(rt; refused(alloc, without.as_slice())? == Some(StoreError::NoSoa));
    assert!(rt; refused(alloc, b"")? == Some(StoreError::NoSoa));
    assert!(rt; refused(alloc, b"\0")? == Some(StoreError::NoRecord { number: 0 }));
    let mut pointer = octets_of(alloc, &[SOA])?;
    pointer.extend_from_slice(b"\xc0\x00\x00\x10\x00\x01\x00\x00\x00\x3c\x00\x02\x01x")?;
    assert!(rt;
        refused(alloc, pointer.as_slice())? == Some(StoreError::PointerInOwner { number: 1 })
    );
    Ok(())
}

/// Numbers of records about which a body might take memory to have run out.
const SIZES: [usize; 7] = [1, 2, 17, 65, 129, 257, 300];

#[test]
fn zones_of_many_sizes_load(rt: HostRuntime) -> Result<(), Fail> {
    let alloc = rt.alloc();
    let more = octets_of(alloc, &["b.a. 60 TXT x"])?;
    for size in SIZES {
        let mut octets = octets_of(alloc, &[SOA])?;
        for _ in 1..size {
            octets.extend_from_slice(more.as_slice())?;
        }
        let apex = Name::from_ascii(alloc, "a.")?;
        let zone = ZoneStore::load(alloc, apex, octets.as_slice())?;
        assert_eq!(rt; zone.len(), size);
    }
    Ok(())
}
