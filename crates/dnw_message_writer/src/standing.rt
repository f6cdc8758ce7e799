//! Labels that stand in a message while it is written, so that a pointer may stand for them.
ghost use Rattle.std.specs.Prelude.{◌≡◌, ◌↔◌, ◌<◌, ◌≤◌, ◌+◌, ◌∷◌, length, slice_range, IfSome, IsTrue};
ghost use Rattle.dnw_message_writer.specs.Inside.Standing.{FollowsBefore, AreNextBefore};
ghost use Rattle.dnw_message_writer.specs.Standing.{FollowsPointer, AreSettled, IsThere, LeadsBack, StandsSettled};

use dnw_base::limits::POINTER_BITS;
use dnw_name_form::wire_labels::WireLabels;
use dnw_name_read::walk::pointer_target;

/// The offset of the first item of a message, after the header (RFC 1035, section 4.1.1).
pub const FIRST_ITEM: usize = 12;

/// So many octets, or fewer, are compared one by one.
const FEW: usize = 8;

/// So many octets are compared at a time.
const EIGHT: usize = 8;

/// How far a reading has come.
#[derive(Clone, Copy)]
pub struct Spot {
    /// The offset of the next element of the name.
    pub position: usize,
    /// The start of the segment that it is in: the last target of a pointer.
    pub segment: usize,
    /// The offset before which each element of the segment begins.
    pub limit: usize,
}

/// Returns `true` if these labels are read at `start`, in octets of the message that are settled: not in the header, and not
/// in the two octets at `gap`, which will say how long the data are that are being written.
///
/// At most one pointer is followed before each label, so this takes few steps, whatever the octets are.
#[inline(never)]
pub fn stands_at(message: &[u8], gap: usize, start: usize, labels: WireLabels<'_>) -> bool
    requires { gap ≤ length message.now }
    ensures { IsTrue result ↔ StandsSettled message.now gap start labels.entry }
{
    let mut rest = labels;
    let mut spot = Spot {
        position: start,
        segment: start,
        limit: message.len(),
    };
    'labels: loop {
        let here = followed(message, gap, spot);
        let suffix = rest.as_wire();
        if is_whole(message, gap, here, suffix) {
            return true;
        }
        let Some(label) = rest.next() else {
            return is_there(message, gap, here, suffix);
        };
        let size = label.len() + 1;
        if !is_there(message, gap, here, &suffix[..size]) {
            return false;
        }
        spot = Spot {
            position: here.position + size,
            segment: here.segment,
            limit: here.limit,
        };
    }
}

/// Returns `true` only if these labels are read at `start`, in octets between the header and the gap, and mostly if they are: it takes
/// fewer steps than `stands_at`.
#[inline(always)]
pub(crate) fn stands_before(
    message: &[u8],
    gap: usize,
    start: usize,
    labels: WireLabels<'_>,
) -> bool
    requires gap { gap ≤ length message.now }
    requires header { 12 ≤ start }
    ensures { IsTrue result → StandsSettled message.now gap start labels.entry }
{
    if start > gap {
        return false;
    }
    let mut rest = labels;
    let mut spot = Spot {
        position: start,
        segment: start,
        limit: gap,
    };
    'labels: loop {
        let Some(here) = followed_before(message, spot) else {
            return false;
        };
        let suffix = rest.as_wire();
        if is_whole_before(message, here, suffix) {
            return true;
        }
        let Some(label) = rest.next() else {
            return false;
        };
        let size = label.len() + 1;
        if !begins_before(message, here, &suffix[..size]) {
            return false;
        }
        spot = Spot {
            position: here.position + size,
            segment: here.segment,
            limit: here.limit,
        };
    }
}

/// Follows the pointer that is next, if there is one, if the two octets that are next are before the limit.
#[inline(always)]
fn followed_before(message: &[u8], spot: Spot) -> Option<Spot>
    requires here { spot.position ≤ spot.limit }
    requires limit { spot.limit ≤ length message.now }
    ensures { IfSome result (FollowsBefore message.now spot) }
{
    if spot.limit - spot.position < 2 {
        return None;
    }
    if message[spot.position] < POINTER_BITS {
        return Some(spot);
    }
    let target = pointer_target(message[spot.position], message[spot.position + 1]);
    let limit = spot.segment;
    if target >= limit || target < FIRST_ITEM {
        return None;
    }
    Some(Spot {
        position: target,
        segment: target,
        limit,
    })
}

/// Returns `true` only if a segment begins with these octets, up to its limit.
#[inline(always)]
fn is_whole_before(message: &[u8], spot: Spot, octets: &[u8]) -> bool
    requires some { 1 ≤ length octets.now }
    requires before { spot.position < spot.limit }
    requires limit { spot.limit ≤ length message.now }
    ensures { IsTrue result → AreNextBefore message.now spot octets.now }
{
    let size = octets.len();
    if spot.position != spot.segment || size > spot.limit - spot.position {
        return false;
    }
    // Mostly another last octet shows that they are others.
    octets[size - 1] == message[spot.position + size - 1] && are_at(message, spot.position, octets)
}

/// Returns `true` only if the next octets are these, up to the limit.
#[inline(always)]
fn begins_before(message: &[u8], spot: Spot, octets: &[u8]) -> bool
    requires before { spot.position < spot.limit }
    requires limit { spot.limit ≤ length message.now }
    ensures { IsTrue result → AreNextBefore message.now spot octets.now }
{
    octets.len() <= spot.limit - spot.position && is_at(message, spot.position, octets)
}

/// Returns `true` only if these octets stand at an offset. Mostly they are few.
#[inline(always)]
fn is_at(message: &[u8], at: usize, octets: &[u8]) -> bool
    requires { at + length octets.now ≤ length message.now }
    ensures { IsTrue result → slice_range message.now at (at + length octets.now) ≡ octets.now }
{
    if octets.len() > FEW {
        return &message[at..at + octets.len()] == octets;
    }
    let mut index = 0;
    'octets: while index < octets.len() {
        if message[at + index] != octets[index] {
            return false;
        }
        index += 1;
    }
    true
}

/// Returns `true` only if these octets stand at an offset. They are compared from the last to the first, eight at a time.
#[inline(always)]
fn are_at(message: &[u8], at: usize, octets: &[u8]) -> bool
    requires { at + length octets.now ≤ length message.now }
    ensures { IsTrue result → slice_range message.now at (at + length octets.now) ≡ octets.now }
{
    let mut left = octets.len();
    'eights: while left >= EIGHT {
        left -= EIGHT;
        if eight_at(message, at + left) != eight_at(octets, left) {
            return false;
        }
    }
    if left > 0 && octets.len() >= EIGHT {
        return eight_at(message, at) == eight_at(octets, 0);
    }
    'octets: while left > 0 {
        left -= 1;
        if message[at + left] != octets[left] {
            return false;
        }
    }
    true
}

/// Returns eight octets.
#[inline(always)]
fn eight_at(octets: &[u8], at: usize) -> [u8; EIGHT]
    requires { at + 8 ≤ length octets.now }
    ensures { result ≡ slice_range octets.now at (at + 8) }
{
    *octets[at..at + EIGHT].first_chunk::<EIGHT>().unwrap()
}

/// Returns `true` if a segment begins with these octets, and they are settled: a wire form that stands in one piece.
#[inline(always)]
fn is_whole(message: &[u8], gap: usize, spot: Spot, octets: &[u8]) -> bool
    requires gap { gap ≤ length message.now }
    requires limit { spot.limit ≤ length message.now }
    ensures { IsTrue result → IsThere message.now gap spot octets.now × (spot.position + length octets.now ≤ spot.limit) }
{
    let size = octets.len();
    if spot.position != spot.segment || spot.position >= spot.limit {
        return false;
    }
    if size == 0 || size > spot.limit - spot.position {
        return false;
    }
    // Mostly other octets show at their ends.
    octets[0] == message[spot.position]
        && octets[size - 1] == message[spot.position + size - 1]
        && is_there(message, gap, spot, octets)
}

/// Follows the pointer that is next, if there is one that leads back.
#[inline(always)]
fn followed(message: &[u8], gap: usize, spot: Spot) -> Spot
    requires gap { gap ≤ length message.now }
    requires limit { spot.limit ≤ length message.now }
    ensures { FollowsPointer message.now gap spot result }
{
    if !leads_back(message, gap, spot) {
        return spot;
    }
    let target = pointer_target(message[spot.position], message[spot.position + 1]);
    Spot {
        position: target,
        segment: target,
        limit: spot.segment,
    }
}

/// Returns `true` if a pointer is next, and points before its segment.
#[inline(always)]
fn leads_back(message: &[u8], gap: usize, spot: Spot) -> bool
    requires gap { gap ≤ length message.now }
    requires limit { spot.limit ≤ length message.now }
    ensures { IsTrue result ↔ LeadsBack message.now gap spot }
{
    if spot.position >= spot.limit || message[spot.position] < POINTER_BITS {
        // Mostly a label is next.
        return false;
    }
    is_settled(message, gap, spot.position, 2)
        && pointer_target(message[spot.position], message[spot.position + 1]) < spot.segment
}

/// Returns `true` if the next octets are these, and are settled.
#[inline(always)]
fn is_there(message: &[u8], gap: usize, spot: Spot, octets: &[u8]) -> bool
    requires gap { gap ≤ length message.now }
    requires limit { spot.limit ≤ length message.now }
    ensures { IsTrue result ↔ IsThere message.now gap spot octets.now }
{
    if spot.position >= spot.limit || !is_settled(message, gap, spot.position, octets.len()) {
        return false;
    }
    &message[spot.position..spot.position + octets.len()] == octets
}

/// Returns `true` if the message has so many octets from an offset on, and they are settled.
#[inline(always)]
fn is_settled(message: &[u8], gap: usize, position: usize, count: usize) -> bool
    requires gap { gap ≤ length message.now }
    requires position { position ≤ length message.now }
    ensures { IsTrue result ↔ AreSettled message.now gap position count }
{
    if count > message.len() - position || position < FIRST_ITEM {
        return false;
    }
    position + count <= gap || position >= gap + 2
}
