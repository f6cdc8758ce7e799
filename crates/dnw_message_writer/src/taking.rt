//! The data of records of other messages as pieces, without a copy of them.
ghost use Rattle.std.specs.Prelude.{◌≡◌, ◌+◌, ◌≤◌, ◌∷◌, ◌++◌, [], List, length, IfNone, IfSome, IsTrue};
ghost use Rattle.dnw_record.specs.DataCopies.{Copies, data_start, record_kinds};
ghost use Rattle.dnw_message_writer.specs.Copying.{StandWhole};
ghost use Rattle.dnw_message_writer.specs.Inside.Splitting.{most_pieces};
ghost use Rattle.dnw_message_writer.specs.Inside.Taken.{IsCopiedIn, TakesAsPieces};
ghost use Rattle.dnw_message_writer.specs.declared.pieces.Piece.{Piece};

use crate::data::{Pieces, are_data, are_to_compress, first_field, is_to_compress, split};
use crate::pieces::Piece;
use dnw_base::decoder::BinDecoder;
use dnw_base::limits::MAX_NAME;
use dnw_data::kind::Kind;
use dnw_name::name_ref::NameRef;
use dnw_record::record_ref::RecordRef;

/// No data have more names that may be compressed: those of SOA are two.
pub(crate) const MOST_NAMES: usize = 2;

/// Returns the data of a record, if they are fields of its class and type and no name among them has a pointer.
pub(crate) fn whole_data<'m>(item: &RecordRef<'m>) -> Option<&'m [u8]>
    ensures some { IfSome result (λ octets. Copies (record_kinds item.now) (data_start item.now) octets.now) }
    ensures none { IfNone result (StandWhole item.now → ⊥) }
{
    let reader = item.data_decoder();
    let octets = &reader.message()[reader.index()..];
    if are_data(item.kinds(), octets) {
        Some(octets)
    } else {
        None
    }
}

/// Returns the piece that the data of a record are, if no name among them may be compressed: octets of its message.
///
/// It returns `None` for others, and if they are no fields of their class and type, or if a name has a pointer.
#[inline(always)]
pub(crate) fn octets_in<'m>(item: &RecordRef<'m>) -> Option<Piece<'m>>
    ensures { IfSome result (λ piece. IsCopiedIn item.now (piece ∷ [])) }
{
    let kinds = item.kinds();
    let reader = item.data_decoder();
    let octets = &reader.message()[reader.index()..];
    if are_to_compress(kinds) || !are_data(kinds, octets) {
        return None;
    }
    Some(Piece::Octets(octets))
}

/// Returns the data of a record as pieces: octets of its message, and the names that may be compressed. Names that have pointers are
/// put into `rooms`.
///
/// It returns `None` if the data are no fields of their class and type, or if a name that may not be compressed has a pointer: then
/// they are to be copied. It does not if the data stand whole. Nothing is allocated.
#[inline(always)]
pub(crate) fn pieces_in<'m, 'a>(
    item: &RecordRef<'m>,
    rooms: &'a mut [[u8; MAX_NAME]; MOST_NAMES],
) -> Option<Pieces<'a>>
where
    'm: 'a,
    ensures some { IfSome result (λ xs. IsCopiedIn item.now xs) }
    ensures none { IfNone result (StandWhole item.now → ⊥) }
{
    let kinds = item.kinds();
    let reader = item.data_decoder();
    let octets = &reader.message()[reader.index()..];
    let mut whole = Pieces::new();
    if split(kinds, octets, &mut whole) {
        return Some(whole);
    }
    let mut pieces = Pieces::new();
    if take(kinds, reader, rooms.as_mut_slice(), &mut pieces) {
        Some(pieces)
    } else {
        None
    }
}

/// Adds the pieces of data with fields of these kinds, which are read from the cursor up to the end. If it returns `false`, some may
/// be added.
fn take<'m, 'a>(
    kinds: &[Kind],
    mut reader: BinDecoder<'m>,
    rooms: &'a mut [[u8; MAX_NAME]],
    pieces: &mut Pieces<'a>,
) -> bool
where
    'm: 'a,
    requires few { length pieces.old + most_pieces kinds.now ≤ 3 }
    ensures { IsTrue result → (xs : List Piece) × (pieces.new ≡ pieces.old ++ xs) × TakesAsPieces kinds.now reader.entry xs }
{
    let octets = &reader.message()[reader.index()..];
    if !are_to_compress(kinds) {
        return split(kinds, octets, pieces);
    }
    let Some((kind, others)) = kinds.split_first() else {
        return false;
    };
    if is_to_compress(*kind) {
        let Some((room, left)) = rooms.split_first_mut() else {
            return false;
        };
        let Ok(name) = NameRef::read(&mut reader) else {
            return false;
        };
        pieces.push(Piece::Name(name.wire_labels(room)));
        return take(others, reader, left, pieces);
    }
    let Some(own) = first_field(*kind, octets) else {
        return false;
    };
    pieces.push(Piece::Octets(own));
    reader.skip(own.len()).unwrap();
    take(others, reader, rooms, pieces)
}
