//! Module `name`: names that stay in their message.

use dns_names_wire::decoder::BinDecoder;
use dns_names_wire::error::{DecodeError, ProtoResult};
use dns_names_wire::name::{Name, NameRef, ReadSteps, RefLabels};
use std::alloc::Global;
use std::test::Fail;

/// `ra.rb.rc.`, `rb.rc.`, `rc.` and `z.ra.rb.rc.`, the last at 14.
const MESSAGE: &[u8] = b"\x02ra\x02rb\x02rc\x00\xc0\x03\xc0\x06\x01z\xc0\x00";

/// Reads the last name, by a decoder that is then gone.
fn last<'a>(message: &'a [u8], steps: &mut ReadSteps) -> Result<NameRef<'a>, DecodeError> {
    let mut decoder = BinDecoder::new(message).clone(14);
    let counted: Result<NameRef<'a>, DecodeError> = NameRef::read_counted(&mut decoder, steps);
    counted
}

#[test]
fn borrowed_names_are_read(rt: HostRuntime) -> Result<(), Fail> {
    let mut decoder = BinDecoder::new(MESSAGE);
    let first: Result<NameRef<'_>, DecodeError> = NameRef::read(&mut decoder);
    assert_eq!(rt; first?.encoded_len(), 10);
    let mut steps = ReadSteps::default();
    let name = last(MESSAGE, &mut steps)?;
    assert_eq!(rt; (steps.pointers, steps.labels), (1, 4));
    let count: usize = name.labels().len();
    assert_eq!(rt; count, 4);
    assert_eq!(rt; first_label(MESSAGE)?, Some(b"ra".as_slice()));
    Ok(())
}

/// Returns the first label of the first name, which its message lends.
fn first_label<'a>(message: &'a [u8]) -> Result<Option<&'a [u8]>, DecodeError> {
    let name = NameRef::read(&mut BinDecoder::new(message))?;
    let mut labels: RefLabels<'a> = name.labels();
    Ok(labels.next())
}

/// Returns the name that a text gives.
fn name(alloc: Global, text: &str) -> ProtoResult<Name> {
    Name::from_ascii(alloc, text)
}

#[test]
fn borrowed_names_are_looked_at_and_copied(rt: HostRuntime) -> Result<(), Fail> {
    let alloc = rt.alloc();
    let own = last(MESSAGE, &mut ReadSteps::default())?;
    let labels: u8 = own.num_labels();
    let size: usize = own.encoded_len();
    let is_root: bool = own.is_root();
    assert_eq!(rt; (labels, size, is_root), (4, 12, false));
    let is_same: bool = own.eq_name(&name(alloc, "Z.RA.rb.rc")?);
    let is_below: bool = own.zone_of(&name(alloc, "RC.")?);
    assert!(rt; is_same && is_below);
    let copy: ProtoResult<Name> = own.to_name(alloc);
    assert_eq!(rt; copy?.to_ascii(alloc)?.as_str(), "z.ra.rb.rc.");
    Ok(())
}
