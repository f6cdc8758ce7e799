//! Module `name`: names, their texts, their order, and how they are read.

use crate::bounds::{compared, is_debug, is_display, is_eq, is_hash, is_ord};
use dns_names_wire::decoder::BinDecoder;
use dns_names_wire::error::{DecodeError, ProtoError, ProtoResult};
use dns_names_wire::name::{LabelIter, Name, ReadSteps};
use std::alloc::Global;
use std::cmp::Ordering;
use std::test::Fail;

/// Returns the name that a text gives.
fn name(alloc: Global, text: &str) -> ProtoResult<Name> {
    Name::from_ascii(alloc, text)
}

/// Returns a name's text.
fn text(alloc: Global, name: &Name) -> ProtoResult<String> {
    name.to_ascii(alloc)
}

#[test]
fn names_without_labels(rt: HostRuntime) {
    let alloc = rt.alloc();
    let max: usize = Name::MAX_LENGTH;
    assert_eq!(rt; max, 255);
    let new: Name = Name::new(alloc);
    let default: Name = Name::default(alloc);
    let mut root: Name = Name::root(alloc);
    let (is_root, is_fqdn): (bool, bool) = (root.is_root(), root.is_fqdn());
    assert!(rt; is_root && is_fqdn);
    assert!(rt; !new.is_root() && !default.is_fqdn());
    root.set_fqdn(false);
    assert!(rt; root == new);
    let is_empty: bool = root.is_empty();
    assert!(rt; !is_empty);
}

/// Returns the first label and the last one, which the name lends.
fn ends<'a>(name: &'a Name) -> (Option<&'a [u8]>, Option<&'a [u8]>) {
    let mut labels: LabelIter<'a> = name.iter();
    (labels.next(), labels.next_back())
}

#[test]
fn labels_go_both_ways(rt: HostRuntime) -> Result<(), Fail> {
    let name = name(rt.alloc(), "www.example.com")?;
    let (first, last) = ends(&name);
    assert_eq!(rt; first, Some(b"www".as_slice()));
    assert_eq!(rt; last, Some(b"com".as_slice()));
    let count: usize = name.iter().len();
    assert_eq!(rt; count, 3);
    let mut size = 0;
    for label in &name {
        let label: &[u8] = label;
        size += label.len();
    }
    assert_eq!(rt; size, 13);
    Ok(())
}

#[test]
fn names_are_joined(rt: HostRuntime) -> Result<(), Fail> {
    let alloc = rt.alloc();
    let made: ProtoResult<Name> = Name::from_labels(alloc, ["a", "b"]);
    let longer: ProtoResult<Name> = made?.append_label(alloc, b"c".as_slice());
    let longer = longer?;
    assert_eq!(rt; text(alloc, &longer)?.as_str(), "a.b.c.");
    let before: ProtoResult<Name> = longer.prepend_label(alloc, "z");
    assert_eq!(rt; text(alloc, &before?)?.as_str(), "z.a.b.c.");
    let other = name(alloc, "x.y")?;
    let joined: ProtoResult<Name> = longer.append_name(&other);
    let joined = joined?;
    assert_eq!(rt; text(alloc, &joined)?.as_str(), "a.b.c.x.y");
    let within: ProtoResult<Name> = joined.append_domain(&other);
    assert_eq!(rt; text(alloc, &within?)?.as_str(), "a.b.c.x.y.x.y.");
    Ok(())
}

#[test]
fn names_are_cut_and_lowered(rt: HostRuntime) -> Result<(), Fail> {
    let alloc = rt.alloc();
    let name = name(alloc, "www.Example.com.")?;
    let lower: ProtoResult<Name> = name.to_lowercase();
    let trimmed: ProtoResult<Name> = name.trim_to(1usize);
    let base: ProtoResult<Name> = name.base_name();
    let copy: ProtoResult<Name> = name.clone();
    assert_eq!(rt; text(alloc, &lower?)?.as_str(), "www.example.com.");
    assert_eq!(rt; text(alloc, &trimmed?)?.as_str(), "com.");
    assert_eq!(rt; text(alloc, &base?)?.as_str(), "Example.com.");
    let wildcard: ProtoResult<Name> = copy?.into_wildcard();
    let wildcard = wildcard?;
    assert_eq!(rt; text(alloc, &wildcard)?.as_str(), "*.Example.com.");
    let (is_wildcard, is_localhost): (bool, bool) = (
        wildcard.is_wildcard(),
        wildcard.is_localhost(),
    );
    assert!(rt; is_wildcard && !is_localhost);
    Ok(())
}

#[test]
fn sizes_of_names(rt: HostRuntime) -> Result<(), Fail> {
    let name = name(rt.alloc(), "*.a.bc.")?;
    let labels: u8 = name.num_labels();
    let (len, encoded_len): (usize, usize) = (name.len(), name.encoded_len());
    let wire: &[u8] = name.as_wire();
    assert_eq!(rt; (labels, len, encoded_len), (2, 7, 8));
    assert_eq!(rt; wire, b"\x01*\x01a\x02bc\x00".as_slice());
    Ok(())
}

#[test]
fn texts_of_names(rt: HostRuntime) -> Result<(), Fail> {
    let alloc = rt.alloc();
    is_debug::<Name>();
    is_display::<Name>();
    let origin = name(alloc, "example.com.")?;
    let parsed: ProtoResult<Name> = Name::parse(alloc, "www", Some(&origin));
    let alone: ProtoResult<Name> = Name::parse(alloc, "a\\.b.c.", None);
    let ascii: ProtoResult<Name> = Name::from_ascii(alloc, "A.b");
    let relaxed: ProtoResult<Name> = Name::from_str_relaxed(alloc, "A.b");
    let strict: ProtoResult<Name> = Name::from_str(alloc, "A.b");
    let (parsed, ascii) = (parsed?, ascii?);
    let printed: ProtoResult<String> = parsed.to_ascii(alloc);
    assert_eq!(rt; printed?.as_str(), "www.example.com.");
    assert_eq!(rt; format!(in alloc; "{}", alone?)?.as_str(), "a\\.b.c.");
    assert_eq!(rt; format!(in alloc; "{ascii:?}")?.as_str(), "Name(\"A.b\")");
    assert!(rt; ascii == relaxed? && ascii == strict?);
    assert!(rt;
        matches!(
            name(alloc, "\\"),
            Err(ProtoError::Message("unfinished escape"))
        )
    );
    Ok(())
}

#[test]
fn names_are_compared(rt: HostRuntime) -> Result<(), Fail> {
    let alloc = rt.alloc();
    is_eq::<Name>();
    is_ord::<Name>();
    is_hash::<Name>();
    let (small, capital) = (name(alloc, "a.b.")?, name(alloc, "a.B")?);
    let by_octets: Ordering = small.cmp_case(&capital);
    let by_case: bool = small.eq_case(&capital);
    let without_root: bool = small.eq_ignore_root(&capital);
    let with_case: bool = small.eq_ignore_root_case(&capital);
    assert_eq!(rt; by_octets, Ordering::Greater);
    assert_eq!(rt; (by_case, without_root, with_case), (false, true, false));
    let greater = (false, false, Some(Ordering::Greater), Ordering::Greater);
    assert!(rt; compared(&small, &capital) == greater);
    let zone = name(alloc, "B.")?;
    let (is_zone, is_zone_by_case): (bool, bool) = (
        zone.zone_of(&small),
        zone.zone_of_case(&small),
    );
    assert!(rt; is_zone && !is_zone_by_case);
    Ok(())
}

#[test]
fn names_are_read(rt: HostRuntime) -> Result<(), Fail> {
    let alloc = rt.alloc();
    let mut decoder = BinDecoder::new(b"\x02bc\x00\x01a\xc0\x00");
    let read: Result<Name, DecodeError> = Name::read(alloc, &mut decoder);
    assert_eq!(rt; text(alloc, &read?)?.as_str(), "bc.");
    let mut steps = ReadSteps {
        pointers: 9usize,
        labels: 9usize,
    };
    let counted: Result<Name, DecodeError> = Name::read_counted(alloc, &mut decoder, &mut steps);
    assert_eq!(rt; text(alloc, &counted?)?.as_str(), "a.bc.");
    let ReadSteps { pointers, labels } = steps;
    assert_eq!(rt; (pointers, labels), (1, 2));
    Ok(())
}

#[test]
fn names_are_refused(rt: HostRuntime) {
    for (message, idx, ptr) in [
        (b"\xc0\x01".as_slice(), 0, 1),
        (b"\xc0\x00", 0, 0),
        (b"\x01A\xc0\x00", 2, 0),
        (b"\xc0\x02\xc0\x00", 0, 2),
    ] {
        let mut decoder = BinDecoder::new(message);
        let read: Result<Name, DecodeError> = Name::read(rt.alloc(), &mut decoder);
        let Err(DecodeError::PointerNotPriorToLabel { idx: at, ptr: to }) = read else {
            assert!(rt; false);
            return;
        };
        assert_eq!(rt; (at, to, decoder.index()), (idx, ptr, 0));
    }
}
