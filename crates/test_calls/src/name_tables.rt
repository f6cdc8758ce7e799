//! Tables of many names.

use crate::sort_keys::{IN_ORDER, name_of};
use dns_names_wire::name::Name;
use dns_names_wire::name_ref::NameRef;
use std::alloc::Global;
use std::mem::size_of;
use std::test::Fail;
use uses::table::{NameTable, PushError};

/// Makes a table of the names of RFC 4034, section 6.1, of all or of every second one.
fn table_of(alloc: Global, all: bool) -> Result<NameTable, Fail> {
    let mut table = NameTable::new(alloc);
    for (i, wire) in IN_ORDER.iter().enumerate() {
        if all || i % 2 == 0 {
            let name = name_of(alloc, wire)?;
            table.push(&name).map_err(|_| "a name in order")?;
        }
    }
    Ok(table)
}

#[test]
fn names_in_the_order_of_the_rfc_are_kept(rt: HostRuntime) -> Result<(), Fail> {
    let alloc = rt.alloc();
    let table = table_of(alloc, true)?;
    assert_eq!(rt; table.len(), 9);
    for (i, wire) in IN_ORDER.iter().enumerate() {
        let name = name_of(alloc, wire)?;
        let Some(kept) = table.get(i) else {
            return Err("a name")?;
        };
        assert_eq!(rt; kept.to_name(alloc)?.as_wire(), *wire);
        assert_eq!(rt; table.find(&name), Ok(i));
    }
    assert!(rt; table.get(9).is_none());
    Ok(())
}

#[test]
fn names_that_are_not_there_have_their_place(rt: HostRuntime) -> Result<(), Fail> {
    let alloc = rt.alloc();
    let table = table_of(alloc, false)?;
    assert_eq!(rt; table.len(), 5);
    for (i, wire) in IN_ORDER.iter().enumerate() {
        let name = name_of(alloc, wire)?;
        let wanted = if i % 2 == 0 {
            Ok(i / 2)
        } else {
            Err(i / 2 + 1)
        };
        assert_eq!(rt; table.find(&name), wanted);
    }
    assert_eq!(rt; table.find(&Name::root(alloc)), Err(0));
    let other_case = name_of(alloc, b"\x04ZaBc\x01A\x07example\x00")?;
    assert_eq!(rt; table.find(&other_case), Ok(2));
    Ok(())
}

#[test]
fn names_out_of_order_are_refused(rt: HostRuntime) -> Result<(), Fail> {
    let alloc = rt.alloc();
    let mut table = table_of(alloc, true)?;
    for wire in IN_ORDER {
        let name = name_of(alloc, wire)?;
        assert_eq!(rt; table.push(&name), Err(PushError::NotLast));
    }
    let other_case = name_of(alloc, b"\x01\xc8\x01Z\x07EXAMPLE\x00")?;
    assert_eq!(rt; table.push(&other_case), Err(PushError::NotLast));
    assert_eq!(rt; table.len(), 9);
    Ok(())
}

/// What docs/PERFORMANCE.md says of names in bulk.
#[test]
fn names_take_these_bytes(rt: HostRuntime) {
    assert_eq!(rt; size_of::<Name>(), 272);
    assert_eq!(rt; size_of::<NameRef<'_>>(), 56);
}
