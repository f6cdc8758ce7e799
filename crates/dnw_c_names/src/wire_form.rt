//! Octets that are the wire form of a name, and nothing but it.
ghost use Rattle.std.specs.Prelude.{◌<◌, length, reverse, IfOk, IfErr, MatchOption};
ghost use Rattle.dnw_base.specs.Limits.{max_name};
ghost use Rattle.dnw_name_form.specs.Inside.WireBytes.{closed, IsWire};
ghost use Rattle.dnw_c_base.specs.WireForms.{IsFormOf, IsNoForm};
ghost use Rattle.dnw_c_names.specs.Inside.LastLengths.{HasLastLengths};

use dnw_base::decoder::BinDecoder;
use dnw_base::limits::{MAX_LABEL, MAX_NAME};
use dnw_c_base::failure::{Failure, of_decode};
use dnw_name::name_ref::NameRef;
use dnw_name_form::wire_labels::WireLabels;
use dnw_name_order::from_last::FromLast;

/// Lengths below this are kept when another one comes: seven, of eight bits each.
const KEPT: u64 = 1 << 56;

/// Returns the labels of a wire form, without a copy.
#[inline(always)]
pub(crate) fn labels_of(form: &[u8]) -> Result<WireLabels<'_>, Failure>
    ensures ok { IfOk result (λ labels. IsFormOf form.now labels) }
    ensures err { IfErr result (IsNoForm form.now) }
{
    match lengths_of(form) {
        Some(_) => Ok(WireLabels::new(form)),
        None => Err(why_no_form(form)),
    }
}

/// Returns the labels of a wire form from the last one, without a copy. The walk that tests the form finds their lengths.
#[inline(always)]
pub(crate) fn labels_from_last(form: &[u8]) -> Result<FromLast<'_>, Failure>
    ensures ok { IfOk result (λ labels. IsFormOf form.now (reverse labels)) }
    ensures err { IfErr result (IsNoForm form.now) }
{
    match lengths_of(form) {
        Some(lengths) => Ok(FromLast::with_lengths(WireLabels::new(form), lengths)),
        None => Err(why_no_form(form)),
    }
}

/// Returns the lengths of the last labels as `WireForm::lengths` does, or `None` if the octets are not the wire form of a name: labels
/// of 1 to 63 octets, each after its length, a zero octet that ends them and the octets, and at most 255 octets in all (RFC 1035,
/// sections 2.3.4 and 3.1).
#[inline(always)]
fn lengths_of(octets: &[u8]) -> Option<u64>
    ensures { MatchOption result (IsWire octets.now → ⊥) (HasLastLengths octets.now) }
{
    if octets.len() > MAX_NAME {
        return None;
    }
    let (last, labels) = octets.split_last()?;
    if *last != 0 {
        return None;
    }
    open_lengths(labels)
}

/// Returns the lengths as `lengths_of` does, of octets without the closing zero. The first ones are left out if there are more
/// than eight.
#[inline(always)]
fn open_lengths(labels: &[u8]) -> Option<u64>
    requires { length labels.now < max_name }
    ensures { MatchOption result (IsWire (closed labels.now) → ⊥) (HasLastLengths (closed labels.now)) }
{
    let mut at = 0;
    let mut lengths: u64 = 0;
    'labels: while at < labels.len() {
        let len = labels[at];
        if len == 0 || len as usize > MAX_LABEL {
            return None;
        }
        lengths = lengths % KEPT * 256 + u64::from(len);
        at += 1 + len as usize;
    }
    // A label that is cut leads past the end.
    if at == labels.len() {
        Some(lengths)
    } else {
        None
    }
}

/// Returns why octets are no wire form: there is no name at their start, or octets follow after it. A name at offset 0 has no pointer,
/// which would have to point before it.
#[inline(never)]
fn why_no_form(octets: &[u8]) -> Failure
    requires { IsWire octets.now → ⊥ }
    ensures { IsNoForm octets.now result }
{
    match NameRef::read(&mut BinDecoder::new(octets)) {
        Ok(_) => Failure::BytesLeft,
        Err(error) => of_decode(&error),
    }
}
