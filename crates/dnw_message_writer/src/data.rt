//! The data of records as pieces, by the table of the fields of each type.
ghost use Rattle.std.specs.Prelude.{◌≡◌, ◌≢◌, ◌↔◌, ◌+◌, ◌<◌, ◌≤◌, ◌∷◌, ◌++◌, [], ℕ, List, length, drop, take, IfSome, IfNone, IsTrue, true, false};
ghost use Rattle.dnw_base.specs.Names.{AreLabels, wire};
ghost use Rattle.dnw_base.specs.TypeCodes.{rrsig_code};
ghost use Rattle.dnw_data.specs.Table.{fields_of};
ghost use Rattle.dnw_data.specs.Values.{counted_size, own_size};
ghost use Rattle.dnw_message_writer.specs.Data.{AreOfData, StartsNoName, are_to_compress, is_to_compress};
ghost use Rattle.dnw_message_writer.specs.Inside.Splitting.{HasField, HasNoField, HasSigner, IsPlain, is_usual_name, last_compressed, most_pieces};
ghost use Rattle.dnw_message_writer.specs.declared.pieces.Piece.{Piece};
ghost use Rattle.dnw_record.specs.DataPieces.{IsData};
ghost use Rattle.dnw_record.specs.Inside.Copying.{IsNoName};

use crate::pieces::Piece;
use arrayvec::ArrayVec;
use dnw_base::decoder::BinDecoder;
use dnw_base::dns_class::DNSClass;
use dnw_base::limits::{MAX_LABEL, MAX_NAME};
use dnw_base::record_type::RecordType;
use dnw_base::type_codes::{A, AAAA, CNAME, MX, NS, PTR, RRSIG};
use dnw_data::field::Field;
use dnw_data::kind::{Kind, NameForm};
use dnw_data::signature::BEFORE_SIGNER;
use dnw_data::table::fields_of;
use dnw_name_form::wire_labels::WireLabels;
use std::marker::Model;

/// No data have more pieces: those of SOA are two names and octets.
const MOST_PIECES: usize = 3;

/// The code of MX: no later type has a name that may be compressed (RFC 3597, section 4).
const LAST_COMPRESSED: u16 = MX;

/// The code of the class IN.
const IN: u16 = 1;

/// The pieces of the data of a record.
///
/// A contract sees them as their list.
#[derive(Drop)]
pub struct Pieces<'a> {
    all: ArrayVec<Piece<'a>, MOST_PIECES>,
}

impl<'a> Model for Pieces<'a> {
    ghost use Rattle.std.specs.Prelude.{List};
    ghost use Rattle.dnw_message_writer.specs.declared.pieces.Piece.{Piece};

    ghost Value = { List Piece };

    ghost view = { λ it. it.all.items };
}

impl<'a> Pieces<'a> {
    /// Returns them one after the other.
    #[inline(always)]
    pub fn as_slice(&self) -> &[Piece<'a>]
        ensures { result.now ≡ self.now }
    {
        self.all.as_slice()
    }

    /// Creates none.
    #[inline(always)]
    pub(crate) fn new() -> Self
        ensures { result ≡ [] }
    {
        Pieces {
            all: ArrayVec::new(),
        }
    }

    /// Adds one at the end.
    #[inline(always)]
    pub(crate) fn push(&mut self, piece: Piece<'a>)
        requires { length self.old < 3 }
        ensures { self.new ≡ self.old ++ piece.entry ∷ [] }
    {
        self.all.push(piece);
    }
}

/// Returns the pieces of data of a class and a type, by their codes: the names that may be compressed, which are those of the types of
/// RFC 1035 (RFC 3597, section 4), and the octets between them. Returns `None` if the octets are not data of the class and type, with
/// every name in its wire form. Nothing is allocated.
pub fn pieces_of(class: u16, record_type: u16, octets: &[u8]) -> Option<Pieces<'_>>
    ensures some { IfSome result (AreOfData (fields_of class record_type octets.now) octets.now) }
    ensures none { IfNone result (IsData (fields_of class record_type octets.now) octets.now → ⊥) }
{
    let mut pieces = Pieces::new();
    let class = DNSClass::from(class);
    let kinds = fields_of(class, RecordType::from(record_type), octets);
    if put_data(record_type, kinds, octets, &mut pieces) {
        Some(pieces)
    } else {
        None
    }
}

/// Returns the piece that data of a class and a type are, by their codes: a name that may be compressed, or octets without one. Mostly
/// data are one, for which the table need not be asked. Returns `None` if they are more, or if the octets are no data of the class and
/// type; and it may for others, so then `pieces_of` decides. Nothing is allocated.
#[inline(always)]
pub fn only_piece_of(class: u16, record_type: u16, octets: &[u8]) -> Option<Piece<'_>>
    ensures { IfSome result (λ piece. AreOfData (fields_of class record_type octets.now) octets.now (piece ∷ [])) }
{
    if octets.is_empty() {
        return None;
    }
    if let Some(kind) = usual_kind(class, record_type) {
        return only_field(kind, octets);
    }
    if record_type == RRSIG {
        return signature(octets);
    }
    let class = DNSClass::from(class);
    let kinds = fields_of(class, RecordType::from(record_type), octets);
    only_piece(record_type, kinds, octets)
}

/// Returns the piece that data of RRSIG are, in any class (RFC 4034, section 3.1): octets, of which no name is compressed.
#[inline(always)]
fn signature(octets: &[u8]) -> Option<Piece<'_>>
    ensures { IfSome result (λ piece. (class : ℕ) → AreOfData (fields_of class rrsig_code octets.now) octets.now (piece ∷ [])) }
{
    if has_signer(octets) {
        return Some(Piece::Octets(octets));
    }
    None
}

/// Returns `true` only if the name of a signer is where data of RRSIG have it. What follows is the signature, of any octets.
#[inline(always)]
fn has_signer(octets: &[u8]) -> bool
    ensures { IsTrue result → HasSigner octets.now }
{
    if octets.len() < BEFORE_SIGNER {
        return false;
    }
    match whole_name(&octets[BEFORE_SIGNER..]) {
        Some(_) => true,
        None => false,
    }
}

/// Returns the kind of the only field that data of a class and a type have, if they are an address or a name: mostly they are.
#[inline(always)]
#[tactic(auto, using(crate::proofs::Splitting::named_alone, crate::proofs::Splitting::four_alone, crate::proofs::Splitting::six_alone))]
fn usual_kind(class: u16, record_type: u16) -> Option<Kind>
    ensures { IfSome result (λ kind. (octets : List ℕ) → octets ≢ [] → fields_of class record_type octets ≡ kind ∷ []) }
{
    if is_usual_name(record_type) {
        return Some(Kind::Name(NameForm::Compressible));
    }
    if class != IN {
        return None;
    }
    match record_type {
        A => Some(Kind::Ipv4),
        AAAA => Some(Kind::Ipv6),
        _ => None,
    }
}

/// Returns `true` for the types whose data are a name alone, and are mostly written.
#[inline(always)]
fn is_usual_name(record_type: u16) -> bool
    ensures { result ≡ is_usual_name record_type }
{
    record_type == NS || record_type == CNAME || record_type == PTR
}

/// Returns the piece that data of a type, by its code, with fields of these kinds are, as `only_piece_of` does.
#[inline(always)]
fn only_piece<'a>(record_type: u16, kinds: &[Kind], octets: &'a [u8]) -> Option<Piece<'a>>
    requires { last_compressed < record_type → are_to_compress kinds.now ≡ false }
    ensures { IfSome result (λ piece. AreOfData kinds.now octets.now (piece ∷ [])) }
{
    let (kind, others) = kinds.split_first()?;
    if others.is_empty() {
        return only_field(*kind, octets);
    }
    if record_type > LAST_COMPRESSED && are_data(kinds, octets) {
        return Some(Piece::Octets(octets));
    }
    None
}

/// Returns the piece that data of one field are.
#[inline(always)]
fn only_field(kind: Kind, octets: &[u8]) -> Option<Piece<'_>>
    ensures { IfSome result (λ piece. AreOfData (kind ∷ []) octets.now (piece ∷ [])) }
{
    if is_to_compress(kind) {
        let labels = whole_name(octets)?;
        if labels.as_wire().len() != octets.len() {
            return None;
        }
        return Some(Piece::Name(labels));
    }
    let own = first_field(kind, octets)?;
    if own.len() != octets.len() {
        return None;
    }
    Some(Piece::Octets(own))
}

/// Adds the pieces of data of a type, by its code, with fields of these kinds, or returns `false` if the octets are no such data.
#[inline(always)]
fn put_data<'a>(record_type: u16, kinds: &[Kind], octets: &'a [u8], pieces: &mut Pieces<'a>) -> bool
    requires few { length pieces.old + most_pieces kinds.now ≤ 3 }
    requires late { last_compressed < record_type → are_to_compress kinds.now ≡ false }
    ensures are { IsTrue result → (xs : List Piece) × (pieces.new ≡ pieces.old ++ xs) × AreOfData kinds.now octets.now xs }
    ensures none { result ≡ false → IsData kinds.now octets.now → ⊥ }
{
    if record_type > LAST_COMPRESSED {
        return put_whole(kinds, octets, pieces);
    }
    split(kinds, octets, pieces)
}

/// Adds data without a name that may be compressed, as one piece, or returns `false` if the octets are no data with fields of these
/// kinds.
#[inline(always)]
fn put_whole<'a>(kinds: &[Kind], octets: &'a [u8], pieces: &mut Pieces<'a>) -> bool
    requires few { length pieces.old + most_pieces kinds.now ≤ 3 }
    requires whole { are_to_compress kinds.now ≡ false }
    ensures are { IsTrue result → (xs : List Piece) × (pieces.new ≡ pieces.old ++ xs) × AreOfData kinds.now octets.now xs }
    ensures none { result ≡ false → IsData kinds.now octets.now → ⊥ }
{
    if !are_data(kinds, octets) {
        return false;
    }
    if !octets.is_empty() {
        pieces.push(Piece::Octets(octets));
    }
    true
}

/// Adds the pieces of data with fields of these kinds, or returns `false` if the octets are no such data.
pub(crate) fn split<'a>(kinds: &[Kind], octets: &'a [u8], pieces: &mut Pieces<'a>) -> bool
    requires few { length pieces.old + most_pieces kinds.now ≤ 3 }
    ensures are { IsTrue result → (xs : List Piece) × (pieces.new ≡ pieces.old ++ xs) × AreOfData kinds.now octets.now xs }
    ensures none { result ≡ false → IsData kinds.now octets.now → ⊥ }
{
    if !are_to_compress(kinds) {
        return put_whole(kinds, octets, pieces);
    }
    let Some((kind, others)) = kinds.split_first() else {
        return false;
    };
    if is_to_compress(*kind) {
        let Some(labels) = whole_name(octets) else {
            return false;
        };
        let rest = &octets[labels.as_wire().len()..];
        pieces.push(Piece::Name(labels));
        return split(others, rest, pieces);
    }
    let Some(own) = first_field(*kind, octets) else {
        return false;
    };
    let rest = &octets[own.len()..];
    pieces.push(Piece::Octets(own));
    split(others, rest, pieces)
}

/// Returns `true` if a field of this kind is a name that may be compressed.
pub(crate) fn is_to_compress(kind: Kind) -> bool
    ensures { result ≡ is_to_compress kind }
{
    matches!(kind, Kind::Name(NameForm::Compressible))
}

/// Returns `true` if one of the kinds is that of a name that may be compressed.
pub(crate) fn are_to_compress(kinds: &[Kind]) -> bool
    ensures { result ≡ are_to_compress kinds.now }
{
    let Some((kind, others)) = kinds.split_first() else {
        return false;
    };
    is_to_compress(*kind) || are_to_compress(others)
}

/// Returns `true` if the octets are data with fields of these kinds.
pub(crate) fn are_data(kinds: &[Kind], octets: &[u8]) -> bool
    ensures { IsTrue result ↔ IsData kinds.now octets.now }
{
    let Some((kind, others)) = kinds.split_first() else {
        return octets.is_empty();
    };
    let Some(own) = first_field(*kind, octets) else {
        return false;
    };
    let rest = &octets[own.len()..];
    are_data(others, rest)
}

/// Returns the octets of the field of this kind that the octets begin with.
#[inline(always)]
pub(crate) fn first_field(kind: Kind, octets: &[u8]) -> Option<&[u8]>
    ensures some { IfSome result (λ own. HasField kind octets.now own.now) }
    ensures none { IfNone result (HasNoField kind octets.now) }
{
    match kind {
        Kind::Name(_) => {
            let labels = whole_name(octets)?;
            Some(labels.as_wire())
        }
        _ => own_field(kind, octets),
    }
}

/// Returns the octets of the field of this kind, no name, that the octets begin with.
#[inline(always)]
fn own_field(kind: Kind, octets: &[u8]) -> Option<&[u8]>
    requires { IsNoName kind }
    ensures some { IfSome result (λ own. HasField kind octets.now own.now) }
    ensures none { IfNone result (HasNoField kind octets.now) }
{
    let Some(size) = plain_size(kind, octets) else {
        let size = checked_size(kind, octets)?;
        return Some(&octets[..size]);
    };
    if octets.len() < size {
        return None;
    }
    Some(&octets[..size])
}

/// Returns how many octets the field of this kind takes, if it may be any octets of that size.
#[inline(always)]
fn plain_size(kind: Kind, octets: &[u8]) -> Option<usize>
    ensures { IfSome result (λ size. (size ≡ own_size kind octets.now) × IsPlain kind) }
{
    match kind {
        Kind::U8 => Some(1),
        Kind::U16 | Kind::TypeCode | Kind::ChaosAddress => Some(2),
        Kind::U32 | Kind::Ipv4 | Kind::Time => Some(4),
        Kind::U48 | Kind::LongTime => Some(6),
        Kind::U64 | Kind::Locator | Kind::NodeNumber => Some(8),
        Kind::Ipv6 => Some(16),
        Kind::Octets(_) => Some(octets.len()),
        Kind::Counted(_) => Some(counted_size(octets)),
        _ => None,
    }
}

/// Returns the size of a length octet and what it counts.
#[inline(always)]
fn counted_size(octets: &[u8]) -> usize
    ensures { result ≡ counted_size octets.now }
{
    match octets.first() {
        Some(len) => 1 + *len as usize,
        None => 1,
    }
}

/// Returns how many octets the field of this kind takes, whose octets are checked, that the octets begin with.
#[inline(never)]
fn checked_size(kind: Kind, octets: &[u8]) -> Option<usize>
    requires { IsNoName kind }
    ensures inside { IfSome result (λ size. size ≤ length octets.now) }
    ensures some { IfSome result (λ size. HasField kind octets.now (take size octets.now)) }
    ensures none { IfNone result (HasNoField kind octets.now) }
{
    let mut reader = BinDecoder::new(octets);
    let Ok(_) = Field::read(kind, &mut reader) else {
        return None;
    };
    Some(reader.index())
}

/// Returns the labels of the name whose wire form the octets begin with, or `None` if they begin with none (RFC 1035, section 3.1).
#[inline(always)]
pub fn whole_name(octets: &[u8]) -> Option<WireLabels<'_>>
    ensures some { IfSome result (λ labels. AreLabels labels × (octets.now ≡ wire labels ++ drop (length (wire labels)) octets.now)) }
    ensures none { IfNone result (StartsNoName octets.now) }
{
    let mut at = 0;
    'labels: while at < octets.len() && at < MAX_NAME {
        let len = octets[at] as usize;
        if len == 0 {
            return Some(WireLabels::new(&octets[..at + 1]));
        }
        if len > MAX_LABEL {
            return None;
        }
        at += 1 + len;
    }
    None
}
