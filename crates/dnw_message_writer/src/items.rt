//! Questions and records, written after what a message has (RFC 1035, sections 4.1.2 and 4.1.3).
ghost use Rattle.std.specs.Prelude.{◌≡◌, ◌<◌, ◌≤◌, ◌+◌, ◌↔◌, ◌++◌, ◌^◌, length, take, IfSome, IfNone, IsTrue};
ghost use Rattle.std.specs.Int.{w16, w32, to_be_bytes};
ghost use Rattle.dnw_base.specs.Limits.{max_message};
ghost use Rattle.dnw_message_writer.specs.CompressedNames.{PutsForm, PutsPast};
ghost use Rattle.dnw_message_writer.specs.Hints.{slot_of};
ghost use Rattle.dnw_message_writer.specs.Items.{IsNear, IsOwner, IsQuestion, IsRecord, QuestionGoesPast, RecordGoesPast, place_at, question_fields, fields_of_record};

use crate::hints::SLOTS;
use crate::names::{is_usable, pointer_octets, put_at, put_name};
use crate::pieces::{Piece, put_octets, put_pieces};
use dnw_base::limits::POINTER_BITS;
use dnw_name_form::wire_labels::WireLabels;
use dnw_name_read::walk::pointer_target;

/// Writes a question at `at`, where the message ends so far, up to `limit` at most, and returns where it ends. If there is no room,
/// it returns `None`, and the message is unchanged up to `at`.
pub(crate) fn put_question(
    message: &mut [u8],
    at: usize,
    limit: usize,
    near: u16,
    hints: &mut [u16; SLOTS],
    name: WireLabels<'_>,
    query_type: u16,
    class: u16,
) -> Option<usize>
    requires at { at ≤ limit }
    requires limit { limit ≤ length message.old }
    ensures some { IfSome result (λ end. PutsForm (λ octets. IsQuestion slot_of (take at message.old) near hints.old name.entry query_type class octets hints.new) message.old at message.new end × (end ≤ limit)) }
    ensures none { IfNone result (QuestionGoesPast slot_of limit (take at message.old) near hints.old name.entry) }
    ensures before { take at message.new ≡ take at message.old }
    ensures size { length message.new ≡ length message.old }
{
    let end = put_owner(message, at, limit, near, hints, name)?;
    put_octets(message, end, limit, &question_fields(query_type, class))
}

/// Writes a record at `at`, where the message ends so far, up to `limit` at most, and returns where it ends. If there is no room,
/// it returns `None`, and the message is unchanged up to `at`.
#[inline(always)]
pub(crate) fn put_record(
    message: &mut [u8],
    at: usize,
    limit: usize,
    near: u16,
    hints: &mut [u16; SLOTS],
    owner: WireLabels<'_>,
    fields: &[u8; 10],
    pieces: &[Piece<'_>],
) -> Option<usize>
    requires at { at ≤ limit }
    requires limit { limit ≤ length message.old }
    requires small { limit ≤ max_message }
    ensures some { IfSome result (λ end. PutsForm (λ octets. IsRecord slot_of (take at message.old) near hints.old owner.entry fields.now pieces.now octets hints.new) message.old at message.new end × (end ≤ limit)) }
    ensures none { IfNone result (RecordGoesPast slot_of limit (take at message.old) near hints.old owner.entry fields.now pieces.now) }
    ensures before { take at message.new ≡ take at message.old }
    ensures size { length message.new ≡ length message.old }
{
    let end = put_owner(message, at, limit, near, hints, owner)?;
    let start = put_octets(message, end, limit, fields)?;
    let end = put_pieces(message, start, start - 2, limit, hints, pieces)?;
    put_at(message, start - 2, &u16::to_be_bytes((end - start) as u16));
    Some(end)
}

/// Writes an owner. Mostly it is that of the item before, so the place of that is tried first.
#[inline(always)]
fn put_owner(
    message: &mut [u8],
    at: usize,
    limit: usize,
    near: u16,
    hints: &mut [u16; SLOTS],
    owner: WireLabels<'_>,
) -> Option<usize>
    requires at { at ≤ limit }
    requires limit { limit ≤ length message.old }
    ensures some { IfSome result (λ end. PutsForm (λ octets. IsOwner slot_of (take at message.old) near hints.old owner.entry octets hints.new) message.old at message.new end × (end ≤ limit)) }
    ensures none { IfNone result (PutsPast (λ octets. IsOwner slot_of (take at message.old) near hints.old owner.entry octets hints.new) at limit × (message.new ≡ message.old)) }
{
    if is_near(&message[..at], near, owner.clone()) {
        return put_octets(message, at, limit, &pointer_octets(near));
    }
    put_name(message, at, at, limit, hints, owner)
}

/// Returns `true` if the owner is not the root, and stands at this offset.
#[inline(always)]
fn is_near(message: &[u8], near: u16, owner: WireLabels<'_>) -> bool
    ensures { IsTrue result ↔ IsNear message.now near owner.entry }
{
    owner.as_wire().len() > 1 && is_usable(message, message.len(), near, owner)
}

/// Returns the offset where the name that was written at `at` stands: that which it points to, if it is a pointer alone.
#[inline(always)]
pub(crate) fn place_at(message: &[u8], at: usize) -> u16
    requires { at ≤ max_message }
    ensures { result ≡ place_at message.now at }
{
    if at + 1 < message.len() && message[at] >= POINTER_BITS {
        return pointer_target(message[at], message[at + 1]) as u16;
    }
    at as u16
}

/// Returns the fields of a question after its name.
#[inline(always)]
pub(crate) fn question_fields(query_type: u16, class: u16) -> [u8; 4]
    ensures { result ≡ question_fields query_type class }
{
    let query_type = query_type.to_be_bytes();
    let class = class.to_be_bytes();
    [query_type[0], query_type[1], class[0], class[1]]
}

/// Returns the fields of a record after its owner, with a length of zero.
#[inline(always)]
pub(crate) fn record_fields(record_type: u16, class: u16, ttl: u32) -> [u8; 10]
    ensures { result ≡ fields_of_record record_type class ttl }
{
    let mut fields = [0; 10];
    put_at(&mut fields, 0, &record_type.to_be_bytes());
    put_at(&mut fields, 2, &class.to_be_bytes());
    put_at(&mut fields, 4, &ttl.to_be_bytes());
    fields
}
