//! Module `lower_name`: names in lower case.

use crate::bounds::{compared, is_debug, is_display, is_eq, is_hash, is_ord};
use dns_names_wire::binary::BinDecodable;
use dns_names_wire::decoder::BinDecoder;
use dns_names_wire::error::{DecodeError, ProtoResult};
use dns_names_wire::lower_name::LowerName;
use dns_names_wire::name::Name;
use std::cmp::Ordering;
use std::test::Fail;

#[test]
fn names_are_lowered(rt: HostRuntime) -> Result<(), Fail> {
    let alloc = rt.alloc();
    let name = Name::from_ascii(alloc, "A.b.")?;
    let copied: ProtoResult<LowerName> = LowerName::new(&name);
    let moved: ProtoResult<LowerName> = LowerName::from_name(name);
    let parsed: ProtoResult<LowerName> = LowerName::from_str(alloc, "A.B.");
    let none: LowerName = LowerName::default(alloc);
    let copied = copied?;
    let again: ProtoResult<LowerName> = copied.clone();
    assert!(rt; copied == moved? && copied == parsed? && copied == again?);
    let owned: ProtoResult<Name> = copied.to_name();
    let taken: Name = copied.into_name();
    assert!(rt; owned? == taken);
    assert_eq!(rt; taken.to_ascii(alloc)?.as_str(), "a.b.");
    let lent: &Name = &none;
    assert!(rt; !lent.is_fqdn());
    let mut decoder = BinDecoder::new(b"\x01A\x00");
    let read: Result<LowerName, DecodeError> = LowerName::read(alloc, &mut decoder);
    assert_eq!(rt; read?.to_ascii(alloc)?.as_str(), "a.");
    let whole: Result<LowerName, DecodeError> = LowerName::from_bytes(alloc, b"\x01A\x00");
    assert_eq!(rt; whole?.num_labels(), 1);
    Ok(())
}

#[test]
fn lowered_names_are_looked_at(rt: HostRuntime) -> Result<(), Fail> {
    let alloc = rt.alloc();
    is_debug::<LowerName>();
    is_display::<LowerName>();
    let mut name = LowerName::from_str(alloc, "*.Example.com.")?;
    let labels: u8 = name.num_labels();
    let len: usize = name.len();
    assert_eq!(rt; (labels, len), (2, 14));
    let (is_root, is_fqdn, is_empty, is_wildcard): (bool, bool, bool, bool) = (
        name.is_root(),
        name.is_fqdn(),
        name.is_empty(),
        name.is_wildcard(),
    );
    assert!(rt; !is_root && is_fqdn && !is_empty && is_wildcard);
    let base: ProtoResult<LowerName> = name.base_name();
    let base = base?;
    assert_eq!(rt; format!(in alloc; "{base}")?.as_str(), "example.com.");
    let is_zone: bool = base.zone_of(&name);
    assert!(rt; is_zone);
    name.set_fqdn(false);
    assert!(rt; !name.is_fqdn());
    let wildcard: ProtoResult<LowerName> = base.into_wildcard();
    assert_eq!(rt; format!(in alloc; "{}", wildcard?)?.as_str(), "*.com.");
    Ok(())
}

#[test]
fn lowered_names_are_compared(rt: HostRuntime) -> Result<(), Fail> {
    is_eq::<LowerName>();
    is_ord::<LowerName>();
    is_hash::<LowerName>();
    let (first, second) = (
        LowerName::from_str(rt.alloc(), "A.")?,
        LowerName::from_str(rt.alloc(), "b.")?,
    );
    let less = (false, true, Some(Ordering::Less), Ordering::Less);
    assert!(rt; compared(&first, &second) == less);
    Ok(())
}
