//! The walk over the elements of a name in a message, which copies nothing (RFC 1035, section 4.1.4).
ghost use Rattle.std.specs.Prelude.{◌≡◌, ℕ, ◌+◌, ◌<◌, ◌≤◌, min, length, slice_get, Some, None, unwrap_or, IfOk, IfErr, IfSome, IfNone, OnOk};
ghost use Rattle.dnw_name_read.specs.Reading.{IsWithin, Stops, FaultAt, target};
ghost use Rattle.dnw_base.specs.Limits.{max_label, max_labels, pointer_bits, pointer_offsets};
ghost use Rattle.dnw_name_read.specs.Inside.Walking.{IsElement, IsFirstPiece, IsNoElement, once_followed};
ghost use Rattle.dnw_name_read.specs.Inside.Found.{IsFound};

use dnw_base::error::DecodeError;
use dnw_base::limits::{MAX_LABEL, MAX_NAME, POINTER_BITS};

/// The number of steps that a reading took, also if it failed.
#[derive(Clone, Copy, Debug, Default, PartialEq, Eq)]
pub struct ReadSteps {
    /// The pointers that were followed, at most min(start, 16384).
    pub pointers: usize,
    /// The labels whose octets were there, at most 128: one that makes the name too long counts too.
    pub labels: usize,
}

/// An element of a name.
#[derive(Clone, Copy)]
pub enum Element {
    /// The zero octet that ends the name.
    End,
    /// A label of so many octets after its length octet.
    Label(usize),
    /// A pointer to this offset.
    Pointer(usize),
}

/// What a walk to the end of a name found.
#[derive(Clone, Copy)]
pub struct Walked {
    /// The offset of its first label, or of its closing zero if it has none: after the pointers before them.
    pub first: usize,
    /// The offset at which the name's own octets end.
    pub end: usize,
    /// The octets of its wire form.
    pub size: usize,
    /// How many of these are at `first` in one piece: all if no pointer is followed from there on, and those before the pointer if it is
    /// the only one. It is 0 only if more are followed.
    pub head: usize,
    /// The offset of the others, in one piece, unless `head` is 0.
    pub tail: usize,
}

/// Walks over the name at `start`, and counts the pointers followed and the labels found.
#[inline(always)]
#[tactic(auto, using(crate::proofs::Counts::name_steps, crate::proofs::Counts::fault_steps))]
pub fn walk(message: &[u8], start: usize, steps: &mut ReadSteps) -> Result<Walked, DecodeError>
    ensures ok { IfOk result (λ walked. IsFound message.now start walked steps.new.labels steps.new.pointers) }
    ensures err { IfErr result (λ e. FaultAt message.now start e steps.new.pointers steps.new.labels) }
    ensures few_pointers { steps.new.pointers ≤ min start pointer_offsets }
    ensures few_labels { steps.new.labels ≤ max_labels + 1 }
{
    let mut fault = DecodeError::InsufficientBytes;
    match walk_elements(message, start, steps, &mut fault) {
        Some(walked) => Ok(walked),
        None => Err(fault),
    }
}

/// Walks over the name at `start`. If it returns `None`, `fault` says why there is no name.
// The error is not part of the result, and all is inlined, since LLVM takes a large result apart, octet by octet.
#[inline(always)]
#[tactic(auto, using(crate::proofs::Walking::walking))]
fn walk_elements(
    message: &[u8],
    start: usize,
    steps: &mut ReadSteps,
    fault: &mut DecodeError,
) -> Option<Walked>
    ensures some { IfSome result (λ walked. IsFound message.now start walked steps.new.labels steps.new.pointers) }
    ensures none { IfNone result (FaultAt message.now start fault.new steps.new.pointers steps.new.labels) }
{
    *steps = ReadSteps::default();
    let (mut position, mut segment, mut first) = (start, start, start);
    let (mut limit, mut end, mut size) = (message.len(), start, 1);
    'elements: loop {
        match next_element(message, position, segment, limit, steps.pointers) {
            Err(error) => return failed(fault, error),
            Ok(Element::End) => {
                return Some(Walked {
                    first,
                    end: own_end(steps.pointers, end, position + 1),
                    size,
                    head: head_len(first, segment, limit, size, position + 1 - segment),
                    tail: segment,
                });
            }
            Ok(Element::Label(len)) => {
                steps.labels += 1;
                size = size + 1 + len;
                if size > MAX_NAME {
                    return failed(fault, DecodeError::DomainNameTooLong(len));
                }
                position = position + 1 + len;
            }
            Ok(Element::Pointer(target)) => {
                end = own_end(steps.pointers, end, position + 2);
                steps.pointers += 1;
                first = if size == 1 { target } else { first };
                limit = segment;
                segment = target;
                position = target;
            }
        }
    }
}

/// Says why there is no name.
#[inline(always)]
fn failed(fault: &mut DecodeError, error: DecodeError) -> Option<Walked>
    ensures none { result ≡ None }
    ensures fault { fault.new ≡ error }
{
    *fault = error;
    None
}

/// Returns how many octets of a wire form are at `first` in one piece, or 0 if the others are in more than one. Its last octets, so many,
/// are in the segment that began at `segment`, and the limit is where the segment before began.
#[inline(always)]
fn head_len(first: usize, segment: usize, limit: usize, size: usize, last: usize) -> usize
    requires { last ≤ size }
    ensures { IsFirstPiece first segment limit size last result }
{
    if segment == first {
        size
    } else if limit == first {
        size - last
    } else {
        0
    }
}

/// Returns where the name's own octets end: after the first pointer if one was followed, else here.
#[inline(always)]
fn own_end(pointers: usize, end: usize, here: usize) -> usize
    ensures { result ≡ unwrap_or (once_followed pointers end) here }
{
    if pointers == 0 { here } else { end }
}

/// Returns the element at an offset, in a segment that began at `segment`, if one may begin there. `limit` is the end of
/// the message until a pointer is followed, and then the start of the segment before.
#[inline(always)]
#[tactic(auto, using(crate::proofs::Unique::stopping))]
fn next_element(
    message: &[u8],
    position: usize,
    segment: usize,
    limit: usize,
    pointers: usize,
) -> Result<Element, DecodeError>
    requires inside { limit ≤ length message.now }
    requires whole { pointers ≡ 0 → limit ≡ length message.now }
    ensures within { OnOk result (IsWithin position (once_followed pointers limit)) }
    ensures there { OnOk result (position < length message.now) }
    ensures ok { IfOk result (IsElement message.now position segment) }
    ensures err { IfErr result (λ e. (n : ℕ) → Stops message.now position segment (once_followed pointers limit) n e 0 0) }
{
    if position < limit {
        return element_at(message, position, segment);
    }
    if pointers == 0 {
        return Err(DecodeError::InsufficientBytes);
    }
    Err(DecodeError::LabelOverlapsWithOther {
        label: segment,
        other: limit,
    })
}

/// Returns the element at an offset, in a segment that began at `segment`.
#[inline(always)]
#[tactic(auto, using(crate::proofs::Unique::stopping))]
pub fn element_at(message: &[u8], position: usize, segment: usize) -> Result<Element, DecodeError>
    requires { position < length message.now }
    ensures ok { IfOk result (IsElement message.now position segment) }
    ensures err { IfErr result (IsNoElement message.now position segment) }
{
    let octet = message[position];
    if octet == 0 {
        return Ok(Element::End);
    }
    if octet as usize <= MAX_LABEL {
        return label_at(message, position, segment, octet as usize);
    }
    if octet >= POINTER_BITS {
        return pointer_at(message, position, segment, octet);
    }
    Err(DecodeError::UnrecognizedLabelCode(octet))
}

/// Returns the label of `len` octets, 1 to 63, whose length octet is at `position`.
#[inline(always)]
#[tactic(auto, using(crate::proofs::Unique::stopping))]
fn label_at(
    message: &[u8],
    position: usize,
    segment: usize,
    len: usize,
) -> Result<Element, DecodeError>
    requires inside { position < length message.now }
    requires octet { slice_get message.now position ≡ Some len }
    requires some { 1 ≤ len }
    requires few { len ≤ max_label }
    ensures ok { IfOk result (IsElement message.now position segment) }
    ensures err { IfErr result (IsNoElement message.now position segment) }
{
    if position + 1 + len > message.len() {
        return Err(DecodeError::InsufficientBytes);
    }
    Ok(Element::Label(len))
}

/// Returns the pointer whose first octet is at `position`. It must point before the start of its segment.
#[inline(always)]
#[tactic(auto, using(crate::proofs::Unique::stopping))]
fn pointer_at(
    message: &[u8],
    position: usize,
    segment: usize,
    high: u8,
) -> Result<Element, DecodeError>
    requires inside { position < length message.now }
    requires octet { slice_get message.now position ≡ Some high }
    requires marked { pointer_bits ≤ high }
    ensures ok { IfOk result (IsElement message.now position segment) }
    ensures err { IfErr result (IsNoElement message.now position segment) }
{
    if position + 1 >= message.len() {
        return Err(DecodeError::InsufficientBytes);
    }
    let target = pointer_target(high, message[position + 1]);
    if target >= segment {
        return Err(DecodeError::PointerNotPriorToLabel {
            idx: position,
            ptr: target as u16,
        });
    }
    Ok(Element::Pointer(target))
}

/// Returns the offset that these two octets point to: their low 14 bits.
#[inline(always)]
pub fn pointer_target(high: u8, low: u8) -> usize
    requires { pointer_bits ≤ high }
    ensures { result ≡ target high low }
{
    (high - POINTER_BITS) as usize * 256 + low as usize
}
