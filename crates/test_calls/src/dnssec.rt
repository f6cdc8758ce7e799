//! A name that an NSEC3 record denies.

use crate::sort_keys::name_of;
use std::test::Fail;
use uses::hashed_denial::denies_hash;

#[test]
fn a_record_denies_hashes_after_its_own(rt: HostRuntime) -> Result<(), Fail> {
    // The hash of `example.` in RFC 5155, appendix A, begins with 0x06 0x53.
    let name = name_of(rt.alloc(), b"\x07Example\x00")?;
    let salt = b"\xaa\xbb\xcc\xdd";
    let denied = denies_hash(&name, 12, salt, 12, b"\x06\x52", b"\x06\x54");
    assert!(rt; matches!(denied, Ok(true)));
    let present = denies_hash(&name, 12, salt, 12, b"\x06\x54", b"\xff");
    assert!(rt; matches!(present, Ok(false)));
    let last = denies_hash(&name, 12, salt, 12, b"\xff", b"\x07");
    assert!(rt; matches!(last, Ok(true)));
    assert!(rt; denies_hash(&name, 12, salt, 11, b"\x06\x52", b"\x06\x54").is_err());
    Ok(())
}
