//! Sets of data, and the records that they are written as.
ghost use Rattle.std.specs.Prelude.{◌≡◌, ℕ, ◌≤◌, ◌++◌, List, length, map, IfOk, OnOk, OnErr};
ghost use Rattle.std.specs.Int.{w16, to_be_bytes};
ghost use Rattle.std.specs.List.{All, flat_map};
ghost use Rattle.dnw_base.specs.Limits.{max_message};
ghost use Rattle.dnw_base.specs.Names.{lower, wire};
ghost use Rattle.dnw_signed.specs.RecordSets.{IsInOrder, set_record, signed_owner};
ghost use Rattle.dnw_signed.specs.Inside.Going.{AreShort, all_octets};
ghost use Rattle.dnw_signed.specs.Inside.Heads.{head_with};

use crate::fields::append_lowered;
use dnw_base::limits::MAX_NAME;
use dnw_name::name_ref::NameRef;
use dnw_name_form::wire_labels::{WireLabels, last_labels};
use std::alloc::AllocError;

/// The octets of a record between its owner and the length of its data.
pub(crate) const TYPE_CLASS_TTL: usize = 8;

/// The wire form of the label `*`.
const WILDCARD: &[u8] = b"\x01*";

/// What the records of a set begin with, after their owner, and the labels of the owner that a signature counts.
#[derive(Clone, Copy)]
pub(crate) struct SetHead {
    pub(crate) code: u16,
    pub(crate) class: u16,
    pub(crate) labels: u8,
    pub(crate) original_ttl: u32,
}

/// Appends what each record begins with. If it fails, a part may be appended.
#[inline(always)]
pub(crate) fn append_head(
    owner: &NameRef<'_>,
    head: &SetHead,
    out: &mut Vec<u8>,
) -> Result<(), AllocError>
    ensures ok { OnOk result (out.new.items ≡ out.old.items ++ head_with owner.now head.now) }
    ensures grows { (more : List ℕ) × (out.new.items ≡ out.old.items ++ more) }
{
    append_owner(owner, head.labels, out)?;
    out.extend_from_slice(&u16::to_be_bytes(head.code))?;
    out.extend_from_slice(&u16::to_be_bytes(head.class))?;
    out.extend_from_slice(&u32::to_be_bytes(head.original_ttl))
}

/// Appends the owner as it was signed: in lower case, and if it has more than `labels` labels, the last of them after `*`. If it
/// fails, a part may be appended.
fn append_owner(owner: &NameRef<'_>, labels: u8, out: &mut Vec<u8>) -> Result<(), AllocError>
    ensures ok { OnOk result (out.new.items ≡ out.old.items ++ wire (signed_owner (lower owner.now) labels)) }
    ensures grows { (more : List ℕ) × (out.new.items ≡ out.old.items ++ more) }
{
    let count = owner.num_labels();
    match owner.labels_in_place() {
        Some(own) => append_last(own, count, labels, out),
        None => append_last(owner.wire_labels(&mut [0; MAX_NAME]), count, labels, out),
    }
}

/// Appends the owner with these labels, of which there are `count`, as it was signed. If it fails, a part may be appended.
#[inline(always)]
fn append_last(
    own: WireLabels<'_>,
    count: u8,
    labels: u8,
    out: &mut Vec<u8>,
) -> Result<(), AllocError>
    requires { length own ≡ count }
    ensures ok { OnOk result (out.new.items ≡ out.old.items ++ wire (signed_owner (lower own.entry) labels)) }
    ensures grows { (more : List ℕ) × (out.new.items ≡ out.old.items ++ more) }
{
    if count <= labels {
        return append_lowered(own, out);
    }
    out.extend_from_slice(WILDCARD)?;
    append_lowered(last_labels(own, labels as usize), out)
}

/// Puts octets in ascending order, and removes duplicates.
pub(crate) fn make_set(all: &mut Vec<&[u8]>)
    requires { AreShort all.old.items }
    ensures set { IsInOrder (all_octets all.old.items) (all_octets all.new.items) }
    ensures short { AreShort all.new.items }
{
    all.sort_unstable();
    all.dedup();
}

/// Appends the records: each begins with these octets, and its data follow after their length.
pub(crate) fn append_set(head: &[u8], all: &[&[u8]], out: &mut Vec<u8>) -> Result<(), AllocError>
    requires { AreShort all.now }
    ensures ok { OnOk result (out.new.items ≡ out.old.items ++ flat_map (set_record head.now) (all_octets all.now)) }
    ensures grows { (more : List ℕ) × (out.new.items ≡ out.old.items ++ more) }
{
    'records: for item in all {
        append_record(head, item, out)?;
    }
    Ok(())
}

/// Appends a record.
fn append_record(head: &[u8], own: &[u8], out: &mut Vec<u8>) -> Result<(), AllocError>
    requires { length own.now ≤ max_message }
    ensures ok { OnOk result (out.new.items ≡ out.old.items ++ set_record head.now own.now) }
    ensures grows { (more : List ℕ) × (out.new.items ≡ out.old.items ++ more) }
{
    out.extend_from_slice(head)?;
    append_data(own, out)
}

/// Appends data after their length.
pub(crate) fn append_data(own: &[u8], out: &mut Vec<u8>) -> Result<(), AllocError>
    requires { length own.now ≤ max_message }
    ensures ok { OnOk result (out.new.items ≡ out.old.items ++ (to_be_bytes w16 (length own.now) ++ own.now)) }
    ensures grows { (more : List ℕ) × (out.new.items ≡ out.old.items ++ more) }
{
    out.extend_from_slice(&u16::to_be_bytes(own.len() as u16))?;
    out.extend_from_slice(own)
}
