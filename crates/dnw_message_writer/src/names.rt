//! Names, written with pointers to where their suffixes stand (RFC 1035, section 4.1.4).
ghost use Rattle.std.specs.Prelude.{◌≡◌, ◌↔◌, ◌<◌, ◌≤◌, ◌+◌, ◌/◌, ◌%◌, ◌++◌, ◌∷◌, [], ℕ, List, length, take, IsTrue, IfSome, IfNone, false};
ghost use Rattle.dnw_base.specs.Limits.{pointer_offsets};
ghost use Rattle.dnw_base.specs.Names.{AreLabels, encoded_size, wire};
ghost use Rattle.dnw_message_writer.specs.CompressedNames.{Compresses, FindsHint, FindsNoHint, MayPointTo, PutsForm, PutsPast, kept_hints, put_at, pointer_octets, spelled};
ghost use Rattle.dnw_message_writer.specs.Hints.{slot_of};
ghost use Rattle.dnw_message_writer.specs.Standing.{StandsSettled};

use crate::hints::{FORMER, SLOTS, slot_of};
use crate::standing::{FIRST_ITEM, stands_at, stands_before};
use dnw_base::limits::{POINTER_BITS, POINTER_OFFSETS};
use dnw_name_form::wire_labels::WireLabels;

/// How a name is written.
#[derive(Clone, Copy)]
pub(crate) struct Spelling {
    /// How many octets of its wire form are written, from its start.
    pub(crate) front: usize,
    /// The offset that a pointer after them points to. If there is none, the closing zero is written.
    pub(crate) pointer: Option<u16>,
}

/// Writes a name at `at`, where the message ends so far, up to `limit` at most, and returns where it ends now. The longest suffix
/// that the hints find is written as a pointer. If there is no room, it returns `None`, and the message is unchanged.
#[inline(always)]
pub(crate) fn put_name(
    message: &mut [u8],
    at: usize,
    gap: usize,
    limit: usize,
    hints: &mut [u16; SLOTS],
    labels: WireLabels<'_>,
) -> Option<usize>
    requires gap { gap ≤ at }
    requires at { at ≤ limit }
    requires limit { limit ≤ length message.old }
    ensures some { IfSome result (λ end. PutsForm (λ octets. Compresses slot_of (take at message.old) gap at hints.old labels.entry octets hints.new) message.old at message.new end × (end ≤ limit)) }
    ensures none { IfNone result (PutsPast (λ octets. Compresses slot_of (take at message.old) gap at hints.old labels.entry octets hints.new) at limit × (message.new ≡ message.old)) }
{
    let name = labels.as_wire();
    let spelling = spell(&message[..at], gap, hints, labels);
    let front = &name[..spelling.front];
    match spelling.pointer {
        None => put_parts(message, at, limit, front, &[0]),
        Some(target) => put_parts(message, at, limit, front, &pointer_octets(target)),
    }
}

/// Finds how a name is written after a message, and puts the offsets of its labels among the hints.
#[inline(always)]
fn spell(message: &[u8], gap: usize, hints: &mut [u16; SLOTS], labels: WireLabels<'_>) -> Spelling
    requires { gap ≤ length message.now }
    ensures spells { Compresses slot_of message.now gap (length message.now) hints.old labels.entry (spelled labels.entry result) hints.new }
    ensures front { result.front ≤ encoded_size labels.entry }
    ensures reached { IfSome result.pointer (λ target. target < pointer_offsets) }
{
    let at = message.len();
    let mut rest = labels;
    let mut front = 0;
    'suffixes: loop {
        let suffix = rest.clone();
        let form = suffix.as_wire();
        let Some(label) = rest.next() else {
            return Spelling {
                front,
                pointer: None,
            };
        };
        let slot = slot_of(form);
        if let Some(hint) = found(message, gap, hints, slot, suffix) {
            return Spelling {
                front,
                pointer: Some(hint),
            };
        }
        keep(hints, slot, at + front);
        front += label.len() + 1;
    }
}

/// Returns the hint of a slot to which a pointer may stand for the labels: the later one, or else the former.
#[inline(always)]
fn found(
    message: &[u8],
    gap: usize,
    hints: &[u16; SLOTS],
    slot: usize,
    labels: WireLabels<'_>,
) -> Option<u16>
    requires gap { gap ≤ length message.now }
    requires slot { slot < 256 }
    ensures some { IfSome result (λ hint. FindsHint message.now gap hints.now slot labels.entry hint) }
    ensures none { IfNone result (FindsNoHint message.now gap hints.now slot labels.entry) }
{
    let later = hints[slot];
    if is_usable(message, gap, later, labels.clone()) {
        return Some(later);
    }
    let former = hints[slot + FORMER];
    if is_usable(message, gap, former, labels) {
        return Some(former);
    }
    None
}

/// Returns `true` if a pointer to this offset may stand for the labels.
#[inline(always)]
pub(crate) fn is_usable(message: &[u8], gap: usize, hint: u16, labels: WireLabels<'_>) -> bool
    requires { gap ≤ length message.now }
    ensures { IsTrue result ↔ MayPointTo message.now gap hint labels.entry }
{
    let start = hint as usize;
    if start < FIRST_ITEM {
        // Mostly the slot is empty.
        return false;
    }
    if !may_stand(message, start, labels.as_wire()) {
        return false;
    }
    start < POINTER_OFFSETS && stands(message, gap, start, labels)
}

/// Returns `true` if labels stand at an offset. Mostly they do before the gap, which takes fewer steps to see.
#[inline(always)]
fn stands(message: &[u8], gap: usize, start: usize, labels: WireLabels<'_>) -> bool
    requires gap { gap ≤ length message.now }
    requires header { 12 ≤ start }
    ensures { IsTrue result ↔ StandsSettled message.now gap start labels.entry }
{
    stands_before(message, gap, start, labels.clone()) || stands_at(message, gap, start, labels)
}

/// Returns `false` if other octets than the first two of this wire form show that it does not stand at an offset.
#[inline(always)]
fn may_stand(message: &[u8], start: usize, form: &[u8]) -> bool
    requires { start < 65536 }
    ensures { result ≡ false → (gap : ℕ) (ls : List (List ℕ)) → AreLabels ls → form.now ≡ wire ls → StandsSettled message.now gap start ls → ⊥ }
{
    if form.len() < 2 || message.len() < start + 2 || message[start] >= POINTER_BITS {
        return true;
    }
    if message[start] != form[0] {
        return false;
    }
    message[start + 1] == form[1]
}

/// Puts the offset of a suffix into its slot as the later hint, and that one as the former.
#[inline(always)]
fn keep(hints: &mut [u16; SLOTS], slot: usize, offset: usize)
    requires { slot < 256 }
    ensures { hints.new ≡ kept_hints hints.old slot offset }
{
    if offset < POINTER_OFFSETS {
        hints[slot + FORMER] = hints[slot];
        hints[slot] = offset as u16;
    }
}

/// Returns the octets of a pointer.
#[inline(always)]
pub(crate) fn pointer_octets(offset: u16) -> [u8; 2]
    requires { offset < pointer_offsets }
    ensures { result ≡ pointer_octets offset }
{
    [POINTER_BITS + (offset / 256) as u8, (offset % 256) as u8]
}

/// Puts two runs of octets at an offset, one after the other, or nothing if they do not end up to `limit`.
#[inline(always)]
#[tactic(auto, using(crate::proofs::Puts::put_at_put_at, crate::proofs::Puts::length_put_at))]
fn put_parts(
    message: &mut [u8],
    at: usize,
    limit: usize,
    front: &[u8],
    last: &[u8],
) -> Option<usize>
    requires at { at ≤ limit }
    requires limit { limit ≤ length message.old }
    ensures some { IfSome result (λ end. (message.new ≡ put_at message.old at (front.now ++ last.now)) × (end ≡ at + length (front.now ++ last.now)) × (end ≤ limit)) }
    ensures none { IfNone result ((message.new ≡ message.old) × (limit < at + length (front.now ++ last.now))) }
{
    let room = limit - at;
    if front.len() > room || last.len() > room - front.len() {
        return None;
    }
    let middle = at + front.len();
    let end = middle + last.len();
    put_front(message, at, front);
    put_at(message, middle, last);
    Some(end)
}

/// Puts octets at an offset. Often there are none, and nothing is copied.
#[inline(always)]
fn put_front(message: &mut [u8], at: usize, octets: &[u8])
    requires { at + length octets.now ≤ length message.old }
    ensures { message.new ≡ put_at message.old at octets.now }
{
    if octets.is_empty() {
        return;
    }
    put_at(message, at, octets);
}

/// Puts octets at an offset.
#[inline(always)]
#[tactic(auto, using(crate::proofs::Puts::is_mid))]
pub(crate) fn put_at(message: &mut [u8], at: usize, octets: &[u8])
    requires { at + length octets.now ≤ length message.old }
    ensures { message.new ≡ put_at message.old at octets.now }
{
    message[at..at + octets.len()].copy_from_slice(octets);
}
