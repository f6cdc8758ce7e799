//! Module `rr_key`: keys of sets of records.

use crate::bounds::{compared, is_debug, is_eq, is_hash, is_ord};
use dns_names_wire::codes::RecordType;
use dns_names_wire::error::ProtoResult;
use dns_names_wire::lower_name::LowerName;
use dns_names_wire::rr_key::RrKey;
use std::alloc::Global;
use std::cmp::Ordering;
use std::test::Fail;

/// Returns the key of a name and a type.
fn key(alloc: Global, name: &str, record_type: RecordType) -> ProtoResult<RrKey> {
    let made: RrKey = RrKey::new(LowerName::from_str(alloc, name)?, record_type);
    Ok(made)
}

#[test]
fn keys_have_a_name_and_a_type(rt: HostRuntime) -> Result<(), Fail> {
    is_debug::<RrKey>();
    let made = key(rt.alloc(), "A.", RecordType::NS)?;
    let lent: &LowerName = made.name();
    assert_eq!(rt; lent.num_labels(), 1);
    let copy: ProtoResult<RrKey> = made.clone();
    assert!(rt; copy? == made);
    let RrKey { name, record_type }: RrKey = made;
    let (name, record_type): (LowerName, RecordType) = (name, record_type);
    assert_eq!(rt; name.to_ascii(rt.alloc())?.as_str(), "a.");
    assert_eq!(rt; record_type, RecordType::NS);
    Ok(())
}

#[test]
fn keys_are_compared(rt: HostRuntime) -> Result<(), Fail> {
    let alloc = rt.alloc();
    is_eq::<RrKey>();
    is_ord::<RrKey>();
    is_hash::<RrKey>();
    let keys = [
        key(alloc, "a.", RecordType::A)?,
        key(alloc, "a.", RecordType::NS)?,
        key(alloc, "b.", RecordType::A)?,
    ];
    let less = (false, true, Some(Ordering::Less), Ordering::Less);
    assert!(rt; compared(&keys[0], &keys[1]) == less);
    assert!(rt; compared(&keys[1], &keys[2]) == less);
    Ok(())
}
