//! Items that are written whole, or change nothing but octets after the message.
ghost use Rattle.std.specs.Prelude.{◌≡◌, ◌≤◌, ◌+◌, length, take, IfSome, IfNone, IsTrue};
ghost use Rattle.dnw_base.specs.Limits.{max_message};
ghost use Rattle.dnw_message_writer.specs.CompressedNames.{PutsForm};
ghost use Rattle.dnw_message_writer.specs.Hints.{slot_of};
ghost use Rattle.dnw_message_writer.specs.Inside.Fitting.{FitWhole};
ghost use Rattle.dnw_message_writer.specs.Items.{IsQuestion, IsRecord, QuestionGoesPast, RecordGoesPast, fields_of_record};

use crate::hints::SLOTS;
use crate::items::{put_question, put_record, record_fields};
use crate::pieces::Piece;
use dnw_name_form::wire_labels::WireLabels;

/// Writes a question as `put_question` does. If there is no room, the hints are unchanged.
#[inline(always)]
pub(crate) fn add_question(
    message: &mut [u8],
    at: usize,
    limit: usize,
    near: u16,
    hints: &mut [u16; SLOTS],
    name: WireLabels<'_>,
    query_type: u16,
    class: u16,
) -> Option<usize>
    requires at { at ≤ limit }
    requires limit { limit ≤ length message.old }
    ensures some { IfSome result (λ end. PutsForm (λ octets. IsQuestion slot_of (take at message.old) near hints.old name.entry query_type class octets hints.new) message.old at message.new end × (end ≤ limit)) }
    ensures none { IfNone result (QuestionGoesPast slot_of limit (take at message.old) near hints.old name.entry × (hints.new ≡ hints.old)) }
    ensures before { take at message.new ≡ take at message.old }
    ensures size { length message.new ≡ length message.old }
{
    if name.as_wire().len() + 4 <= limit - at {
        return put_question(message, at, limit, near, hints, name, query_type, class);
    }
    let saved = *hints;
    let end = put_question(message, at, limit, near, hints, name, query_type, class);
    if end.is_none() {
        *hints = saved;
    }
    end
}

/// Writes a record as `put_record` does, with a type, a class and a time to live. If there is no room, the hints are unchanged.
// Most records fit even with their names whole. For these no copy of the hints is kept.
#[inline(always)]
pub(crate) fn add_record(
    message: &mut [u8],
    at: usize,
    limit: usize,
    near: u16,
    hints: &mut [u16; SLOTS],
    owner: WireLabels<'_>,
    record_type: u16,
    class: u16,
    ttl: u32,
    pieces: &[Piece<'_>],
) -> Option<usize>
    requires at { at ≤ limit }
    requires limit { limit ≤ length message.old }
    requires small { limit ≤ max_message }
    ensures some { IfSome result (λ end. PutsForm (λ octets. IsRecord slot_of (take at message.old) near hints.old owner.entry (fields_of_record record_type class ttl) pieces.now octets hints.new) message.old at message.new end × (end ≤ limit)) }
    ensures none { IfNone result (RecordGoesPast slot_of limit (take at message.old) near hints.old owner.entry (fields_of_record record_type class ttl) pieces.now × (hints.new ≡ hints.old)) }
    ensures before { take at message.new ≡ take at message.old }
    ensures size { length message.new ≡ length message.old }
{
    let whole = owner.as_wire().len() + 10;
    if whole <= limit - at && fit_whole(limit - at - whole, pieces) {
        let fields = record_fields(record_type, class, ttl);
        return put_record(message, at, limit, near, hints, owner, &fields, pieces);
    }
    add_close_record(
        message,
        at,
        limit,
        near,
        hints,
        owner,
        record_type,
        class,
        ttl,
        pieces,
    )
}

/// Writes a record that may not fit, as `add_record` does.
#[inline(never)]
fn add_close_record(
    message: &mut [u8],
    at: usize,
    limit: usize,
    near: u16,
    hints: &mut [u16; SLOTS],
    owner: WireLabels<'_>,
    record_type: u16,
    class: u16,
    ttl: u32,
    pieces: &[Piece<'_>],
) -> Option<usize>
    requires at { at ≤ limit }
    requires limit { limit ≤ length message.old }
    requires small { limit ≤ max_message }
    ensures some { IfSome result (λ end. PutsForm (λ octets. IsRecord slot_of (take at message.old) near hints.old owner.entry (fields_of_record record_type class ttl) pieces.now octets hints.new) message.old at message.new end × (end ≤ limit)) }
    ensures none { IfNone result (RecordGoesPast slot_of limit (take at message.old) near hints.old owner.entry (fields_of_record record_type class ttl) pieces.now × (hints.new ≡ hints.old)) }
    ensures before { take at message.new ≡ take at message.old }
    ensures size { length message.new ≡ length message.old }
{
    let saved = *hints;
    let fields = record_fields(record_type, class, ttl);
    let end = put_record(message, at, limit, near, hints, owner, &fields, pieces);
    if end.is_none() {
        *hints = saved;
    }
    end
}

/// Returns `true` if the pieces have room for all of their octets.
#[inline(always)]
fn fit_whole(room: usize, pieces: &[Piece<'_>]) -> bool
    ensures { IsTrue result → FitWhole room pieces.now }
{
    let mut left = room;
    for piece in pieces {
        let size = piece.whole_size();
        if size > left {
            return false;
        }
        left -= size;
    }
    true
}
