//! Sets of record types, which NSEC, NSEC3 and CSYNC records list as bitmaps (RFC 4034, section 4.1.2).
ghost use Rattle.std.specs.Prelude.{◌≡◌, ◌≤◌, ◌↔◌, ℕ, List, map, length, Contains, IsTrue, IfOk, IfErr, OnErr};
ghost use Rattle.std.specs.List.Sorted.{IsStrictlySortedBy};
ghost use Rattle.std.specs.Cmp.Lexicographic.{pointwise};
ghost use Rattle.std.specs.Iterator.{IsFinite, Drains};
ghost use Rattle.std.specs.Ordering.{eq_by_cmp, on};
ghost use Rattle.dnw_base.specs.RecordTypes.{type_cmp, type_code, type_of_code};
ghost use Rattle.dnw_base.specs.declared.record_type.RecordType.{RecordType};
ghost use Rattle.dnw_base.specs.declared.error.DecodeError.{DecodeError};
ghost use Rattle.dnw_data.specs.TypeSets.{HasOwnMemory, YieldsSome, IsSetOf, Encodes, set_codes, windows_of, windows_codes, in_bounds, bitmap_types};
ghost use Rattle.dnw_data.specs.Inside.Bitmaps.{Above};
ghost use Rattle.dnw_data.specs.RecordData.{TakesTypeSet, FailsTypeSet, TypeSetRunsOut};
ghost use Rattle.dnw_data.specs.Inside.SetLaws.{sets_equal, sets_per, sets_hash, sets_hash_alike};

use crate::record_data::RecordDataDecodable;
use dnw_base::decoder::BinDecoder;
use dnw_base::error::{DecodeError, ProtoError, ProtoResult};
use dnw_base::record_type::RecordType;
use dnw_base::restrict::Restrict;
use smallvec::SmallVec;
use std::alloc::{AllocError, Global};
use std::fmt;
use std::hash::{Hash, Hasher};
use std::marker::Model;

/// For how many types memory is taken at first: few sets have more.
const USUAL_TYPES: usize = 16;

/// How many bytes are kept in the set itself: few sets are written as more.
const INLINE_BYTES: usize = 32;

/// The bytes that a set is written as.
type Encoding = SmallVec<u8, INLINE_BYTES>;

mod bitmap;
mod laws;
mod octets;
mod type_iter;
mod writing;

pub use laws::{bitmaps_list_bits, sets_come_back};
pub use type_iter::TypeIter;

/// A set of record types.
///
/// A set that was read is written as the bytes that it was read from, even if they are not the shortest. Equality and
/// hashes go by the types alone.
///
/// A contract sees it as its types, in ascending order, and the bytes that it is written as.
#[derive(Drop)]
pub struct RecordTypeSet {
    types: Vec<RecordType>,
    encoding: Encoding,
}

impl Model for RecordTypeSet {
    ghost use Rattle.std.specs.List.Sorted.{IsStrictlySortedBy};
    ghost use Rattle.dnw_base.specs.RecordTypes.{type_cmp};
    ghost use Rattle.dnw_data.specs.TypeSets.{TypeSet};

    ghost Value = { TypeSet };

    ghost view = { λ s. record { types = s.types.items; encoding = s.encoding.items } };

    ghost invariant = { λ s. IsStrictlySortedBy type_cmp s.types.items };
}

impl RecordTypeSet {
    /// Creates the set of these types, in any order and any number of times. It is written as ascending windows without
    /// trailing zeros; types with the same code share its bit.
    ///
    /// It fails only with `Memory`, and only if there is a type. The iterator must end.
    pub fn new<I: IntoIterator<Item = RecordType>>(alloc: Global, types: I) -> ProtoResult<Self>
        requires { (it : I.IntoIter) → I.into_iter_gives types it
            → I.IntoIter.can_next it × IsFinite (I.IntoIter.remaining it) }
        ensures ok { IfOk result (λ set. (it : I.IntoIter) × (listed : List RecordType) × I.into_iter_gives types it
            × Drains I.IntoIter.next_gives it listed × IsSetOf listed set.types × Encodes (set_codes set.types) set.encoding) }
        ensures err { IfErr result (λ e. (e ≡ ProtoError.Memory)
            × (it : I.IntoIter) × I.into_iter_gives types it × YieldsSome I.IntoIter.next_gives it) }
    {
        let mut listed = Vec::new(alloc);
        for record_type in types {
            listed.push(record_type)?;
        }
        settle(&mut listed);
        let codes = codes(alloc, listed.as_slice())?;
        let encoding = writing::write_windows(alloc, codes.as_slice())?;
        Ok(RecordTypeSet {
            types: listed,
            encoding,
        })
    }

    /// Copies the set. It fails only with `Memory`, and only if the set has a type or is written as some bytes.
    pub fn clone(&self) -> ProtoResult<Self>
        ensures ok { IfOk result (λ set. set ≡ self.now) }
        ensures err { IfErr result (λ e. (e ≡ ProtoError.Memory) × HasOwnMemory self.now) }
    {
        let alloc = *self.types.allocator();
        Ok(RecordTypeSet {
            types: copied(alloc, self.types.as_slice())?,
            encoding: kept(alloc, self.encoding.as_slice())?,
        })
    }

    /// Returns an iterator over the types, in ascending order.
    pub fn iter(&self) -> TypeIter<'_>
        ensures types { result ≡ self.now.types }
        ensures ascending { IsStrictlySortedBy type_cmp self.now.types }
    {
        TypeIter::new(self.types.as_slice())
    }

    /// Returns the bytes that the set is written as.
    pub fn as_bytes(&self) -> &[u8]
        ensures { result.now ≡ self.now.encoding }
    {
        self.encoding.as_slice()
    }

    /// Returns `true` if the set has this type.
    pub fn contains(&self, record_type: RecordType) -> bool
        ensures { IsTrue result ↔ Contains self.now.types record_type }
    {
        self.types.as_slice().binary_search(&record_type).is_ok()
    }
}

/// Copies items. No items take no memory.
fn copied<T: Copy>(alloc: Global, items: &[T]) -> Result<Vec<T>, AllocError>
    ensures ok { IfOk result (λ copy. copy.items ≡ items.now) }
    ensures err { OnErr result (1 ≤ length items.now) }
{
    let mut copy = Vec::with_capacity(alloc, items.len())?;
    copy.extend_from_slice(items)?;
    Ok(copy)
}

/// Copies the bytes that a set is written as. No bytes take no memory.
fn kept(alloc: Global, bytes: &[u8]) -> Result<Encoding, AllocError>
    ensures ok { IfOk result (λ encoding. encoding.items ≡ bytes.now) }
    ensures err { OnErr result (1 ≤ length bytes.now) }
{
    let mut encoding = Encoding::new(alloc);
    encoding.extend_from_slice(bytes)?;
    Ok(encoding)
}

/// Makes the list of a set: each type once, in ascending order. Mostly they are listed so.
fn settle(types: &mut Vec<RecordType>)
    ensures { IsSetOf types.old.items types.new.items }
{
    if is_ascending(types.as_slice()) {
        return;
    }
    types.sort_unstable();
    types.dedup();
}

/// Returns `true` if the codes of the types ascend.
#[tactic(auto, using(std::proofs::lemmas::List::nil_from_length, crate::proofs::Sets::ascending_steps))]
fn is_ascending(types: &[RecordType]) -> bool
    ensures { IsTrue result → IsStrictlySortedBy type_cmp types.now }
{
    let Some((first, others)) = types.split_first() else {
        return true;
    };
    let mut last = *first;
    for record_type in others {
        if u16::from(last) >= u16::from(*record_type) {
            return false;
        }
        last = *record_type;
    }
    true
}

/// Returns the codes of the types of a set, each once.
fn codes(alloc: Global, types: &[RecordType]) -> Result<Vec<u16>, AllocError>
    requires { IsStrictlySortedBy type_cmp types.now }
    ensures codes { IfOk result (λ codes. codes.items ≡ set_codes types.now) }
    ensures above { IfOk result (λ codes. Above 0 codes.items) }
    ensures err { OnErr result (1 ≤ length types.now) }
{
    let mut codes = Vec::new(alloc);
    for record_type in types {
        codes.push(u16::from(*record_type))?;
    }
    codes.dedup();
    Ok(codes)
}

/// Returns the set of the types that a bitmap lists, which must be in bounds.
fn read_bitmap(alloc: Global, bitmap: &[u8]) -> Result<RecordTypeSet, AllocError>
    ensures types { IfOk result (λ set. IsSetOf (bitmap_types bitmap.now) set.types) }
    ensures encoding { IfOk result (λ set. set.encoding ≡ bitmap.now) }
    ensures err { OnErr result (1 ≤ length bitmap.now) }
{
    if bitmap.is_empty() {
        return Ok(RecordTypeSet {
            types: Vec::new(alloc),
            encoding: Encoding::new(alloc),
        });
    }
    let mut types = Vec::with_capacity(alloc, USUAL_TYPES)?;
    bitmap::push_windows(&mut types, bitmap)?;
    settle(&mut types);
    let encoding = kept(alloc, bitmap)?;
    Ok(RecordTypeSet { types, encoding })
}

/// The set that a bitmap lists: windows of one octet for the number, one for the length, and that many octets, of which
/// the last may be cut anywhere. Bits that are set twice count once.
///
/// It fails with `NsecBitmapOutOfBounds` if an octet follows a window of length 0, or a bit is set after the 32nd octet
/// of its window. The bytes are kept, since the set is written as them.
impl<'r> RecordDataDecodable<'r> for RecordTypeSet {
    ghost stands = { TakesTypeSet };

    ghost fails = { FailsTypeSet };

    ghost runs_out = { TypeSetRunsOut };

    fn read_data(
        alloc: Global,
        decoder: &mut BinDecoder<'r>,
        length: Restrict<u16>,
    ) -> Result<Self, DecodeError> {
        let len = length.unverified() as usize;
        if decoder.len() < len {
            return Err(DecodeError::InsufficientBytes);
        }
        let start = decoder.index();
        let bitmap = &decoder.message()[start..start + len];
        if !bitmap::is_in_bounds(bitmap) {
            return Err(DecodeError::NsecBitmapOutOfBounds);
        }
        let set = read_bitmap(alloc, bitmap)?;
        decoder.skip(len)?;
        Ok(set)
    }
}

/// Sets are equal if they have the same types, however they are written.
impl PartialEq for RecordTypeSet {
    ghost eq = { λ a b. pointwise (eq_by_cmp type_cmp) a.types b.types };

    ghost laws = { sets_per };

    fn eq(&self, other: &Self) -> bool {
        self.types == other.types
    }
}

impl Eq for RecordTypeSet {
    ghost laws = { sets_equal };
}

impl Hash for RecordTypeSet {
    ghost hash_input = { sets_hash };

    ghost respects_eq = { sets_hash_alike };

    fn hash<H: Hasher>(&self, state: &mut H) {
        self.types.hash(state);
    }
}

impl fmt::Debug for RecordTypeSet {
    fn fmt<W: fmt::Write>(&self, f: &mut fmt::Formatter<W>) -> fmt::Result {
        write!(f, "RecordTypeSet({:?})", self.types.as_slice())
    }
}
