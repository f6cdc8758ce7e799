//! Module `label`: labels, how they compare, and what gives one.

use crate::bounds::{compared, is_debug, is_display, is_eq, is_hash, is_ord};
use dns_names_wire::error::{DecodeError, ProtoError, ProtoResult};
use dns_names_wire::label::{CaseInsensitive, CaseSensitive, IntoLabel, Label, LabelCmp};
use std::alloc::Global;
use std::cmp::Ordering;
use std::fmt;
use std::test::Fail;

#[test]
fn labels_are_made(rt: HostRuntime) -> Result<(), Fail> {
    let alloc = rt.alloc();
    let raw: ProtoResult<Label> = Label::from_raw_bytes(alloc, b"\x80");
    let text: ProtoResult<Label> = Label::from_ascii(alloc, "*a");
    let wildcard: ProtoResult<Label> = Label::wildcard(alloc);
    assert_eq!(rt; raw?.as_bytes(), b"\x80".as_slice());
    assert!(rt; !text?.is_wildcard());
    assert!(rt; wildcard?.is_wildcard());
    assert!(rt; matches!(Label::from_ascii(alloc, "-a"), Err(ProtoError::Msg(_))));
    assert!(rt;
        matches!(
            Label::from_raw_bytes(alloc, b""),
            Err(ProtoError::Message("Label requires a minimum length of 1"))
        )
    );
    assert!(rt;
        matches!(
            Label::from_raw_bytes(alloc, &[0; 64]),
            Err(ProtoError::Decode(DecodeError::LabelBytesTooLong(64)))
        )
    );
    Ok(())
}

#[test]
fn labels_are_looked_at_and_printed(rt: HostRuntime) -> Result<(), Fail> {
    let alloc = rt.alloc();
    is_debug::<Label>();
    is_display::<Label>();
    let label = Label::from_raw_bytes(alloc, b"-A")?;
    let (len, is_empty, is_wildcard): (usize, bool, bool) = (
        label.len(),
        label.is_empty(),
        label.is_wildcard(),
    );
    let bytes: &[u8] = label.as_bytes();
    assert_eq!(rt; (len, is_empty, is_wildcard), (2, false, false));
    assert_eq!(rt; bytes, b"-A".as_slice());
    let text: ProtoResult<String> = label.to_ascii(alloc);
    assert_eq!(rt; text?.as_str(), "\\-A");
    let mut written = String::new(alloc);
    let result: fmt::Result = label.write_ascii(&mut written);
    assert!(rt; result.is_ok());
    assert_eq!(rt; written.as_str(), "\\-A");
    assert_eq!(rt; format!(in alloc; "{label}")?.as_str(), "\\-A");
    let lower: ProtoResult<Label> = label.to_lowercase();
    let copy: ProtoResult<Label> = label.clone();
    assert_eq!(rt; lower?.as_bytes(), b"-a".as_slice());
    assert_eq!(rt; copy?.as_bytes(), b"-A".as_slice());
    Ok(())
}

#[test]
fn labels_are_compared(rt: HostRuntime) -> Result<(), Fail> {
    is_eq::<Label>();
    is_ord::<Label>();
    is_hash::<Label>();
    let (small, capital) = (
        Label::from_ascii(rt.alloc(), "b")?,
        Label::from_ascii(rt.alloc(), "B")?,
    );
    let is_same: bool = small.eq_ignore_ascii_case(&capital);
    let by_octets: Ordering = small.cmp_with_f::<CaseSensitive>(&capital);
    let by_letters: Ordering = small.cmp_with_f::<CaseInsensitive>(&capital);
    assert!(rt; is_same);
    assert_eq!(rt;
        (by_octets, by_letters),
        (Ordering::Greater, Ordering::Equal)
    );
    let equal = (true, false, Some(Ordering::Equal), Ordering::Equal);
    assert!(rt; compared(&small, &capital) == equal);
    Ok(())
}

/// Returns how a capital and a small letter compare.
fn order_of<F: LabelCmp>() -> Ordering {
    F::cmp_u8(b'B', b'b')
}

#[test]
fn octets_are_compared(rt: HostRuntime) {
    assert_eq!(rt; order_of::<CaseSensitive>(), Ordering::Less);
    assert_eq!(rt; order_of::<CaseInsensitive>(), Ordering::Equal);
}

/// Returns the length of the label that a value gives.
fn label_len<L: IntoLabel>(alloc: Global, value: L) -> ProtoResult<usize> {
    let label: ProtoResult<Label> = value.into_label(alloc);
    Ok(label?.len())
}

#[test]
fn labels_come_from_six_types(rt: HostRuntime) -> Result<(), Fail> {
    let alloc = rt.alloc();
    let label = Label::from_ascii(alloc, "a")?;
    assert_eq!(rt; label_len::<&Label>(alloc, &label)?, 1);
    assert_eq!(rt; label_len::<Label>(alloc, label)?, 1);
    assert_eq!(rt; label_len::<&str>(alloc, "ab")?, 2);
    assert_eq!(rt;
        label_len::<String>(alloc, String::from_str(alloc, "abc")?)?,
        3
    );
    assert_eq!(rt; label_len::<&[u8]>(alloc, b"a.b.")?, 4);
    assert_eq!(rt;
        label_len::<Vec<u8>>(alloc, Vec::from_slice(alloc, b"a.b.c")?)?,
        5
    );
    Ok(())
}
