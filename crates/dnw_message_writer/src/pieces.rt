//! Pieces of an item, one after the other: octets as they are, and names.
ghost use Rattle.std.specs.Prelude.{◌≡◌, ◌<◌, ◌≤◌, ◌+◌, length, take, IfSome, IfNone};
ghost use Rattle.dnw_message_writer.specs.CompressedNames.{PutsForm, PutsPast, put_at};
ghost use Rattle.dnw_message_writer.specs.Hints.{slot_of};
ghost use Rattle.dnw_message_writer.specs.Inside.Fitting.{HasLabels, whole_size};
ghost use Rattle.dnw_message_writer.specs.Pieces.{ArePieces, GoesPast, IsPiece};

use crate::hints::SLOTS;
use crate::names::{put_at, put_name};
use dnw_name_form::wire_labels::WireLabels;

/// A piece of the data of a record (RFC 1035, section 3.3).
#[derive(Drop)]
pub enum Piece<'a> {
    /// Octets, written as they are.
    Octets(&'a [u8]),
    /// A name that may be compressed: of the types of RFC 1035 alone (RFC 3597, section 4).
    Name(WireLabels<'a>),
}

impl<'a> Piece<'a> {
    /// Returns the number of its octets, if a name is written whole.
    #[inline(always)]
    pub(crate) fn whole_size(&self) -> usize
        ensures size { result ≡ whole_size self.now }
        ensures labels { HasLabels self.now }
    {
        match self {
            Piece::Octets(octets) => octets.len(),
            Piece::Name(labels) => labels.as_wire().len(),
        }
    }
}

/// No octets.
impl Default for Piece<'_> {
    fn default() -> Self {
        Piece::Octets(&[])
    }
}

/// Writes pieces at `at`, one after the other, up to `limit` at most, and returns where they end. If there is no room, it returns
/// `None`, and the message is unchanged up to `at`.
#[inline(always)]
pub(crate) fn put_pieces(
    message: &mut [u8],
    at: usize,
    gap: usize,
    limit: usize,
    hints: &mut [u16; SLOTS],
    pieces: &[Piece<'_>],
) -> Option<usize>
    requires gap { gap ≤ at }
    requires at { at ≤ limit }
    requires limit { limit ≤ length message.old }
    ensures some { IfSome result (λ end. PutsForm (λ octets. ArePieces slot_of (take at message.old) gap hints.old pieces.now octets hints.new) message.old at message.new end × (end ≤ limit)) }
    ensures none { IfNone result (GoesPast slot_of limit (take at message.old) gap hints.old pieces.now) }
    ensures before { take at message.new ≡ take at message.old }
    ensures size { length message.new ≡ length message.old }
{
    let mut end = at;
    for piece in pieces {
        end = put_piece(message, end, gap, limit, hints, piece)?;
    }
    Some(end)
}

/// Writes a piece at `at`, up to `limit` at most, and returns where it ends, or `None` if there is no room.
#[inline(always)]
fn put_piece(
    message: &mut [u8],
    at: usize,
    gap: usize,
    limit: usize,
    hints: &mut [u16; SLOTS],
    piece: &Piece<'_>,
) -> Option<usize>
    requires gap { gap ≤ at }
    requires at { at ≤ limit }
    requires limit { limit ≤ length message.old }
    ensures some { IfSome result (λ end. PutsForm (λ octets. IsPiece slot_of (take at message.old) gap hints.old piece.now octets hints.new) message.old at message.new end × (end ≤ limit)) }
    ensures none { IfNone result (PutsPast (λ octets. IsPiece slot_of (take at message.old) gap hints.old piece.now octets hints.new) at limit × (message.new ≡ message.old)) }
{
    match piece {
        Piece::Octets(octets) => put_octets(message, at, limit, octets),
        Piece::Name(labels) => put_name(message, at, gap, limit, hints, labels.clone()),
    }
}

/// Writes octets at `at`, up to `limit` at most, and returns where they end, or `None` if there is no room.
#[inline(always)]
pub(crate) fn put_octets(
    message: &mut [u8],
    at: usize,
    limit: usize,
    octets: &[u8],
) -> Option<usize>
    requires at { at ≤ limit }
    requires limit { limit ≤ length message.old }
    ensures some { IfSome result (λ end. (message.new ≡ put_at message.old at octets.now) × (end ≡ at + length octets.now) × (end ≤ limit)) }
    ensures none { IfNone result ((limit < at + length octets.now) × (message.new ≡ message.old)) }
{
    if octets.len() > limit - at {
        return None;
    }
    put_at(message, at, octets);
    Some(at + octets.len())
}
