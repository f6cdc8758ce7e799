//! Bitmaps of types, as NSEC, NSEC3 and CSYNC records have them, and lists of their codes.
ghost use Rattle.std.specs.Prelude.{◌≡◌, ◌≤◌, length, map, IfOk, IfErr, OnErr};
ghost use Rattle.dnw_base.specs.RecordTypes.{type_code, type_of_code};
ghost use Rattle.dnw_data.specs.TypeSets.{Encodes, IsSetOf, bitmap_types, set_codes};
ghost use Rattle.dnw_c_base.specs.Results.{Puts, Returns};
ghost use Rattle.dnw_c_messages.specs.TypeLists.{AreListed, FailsToList, IsBitmap, PutsBitmap, PutsTypes};
ghost use Rattle.dnw_c_base.specs.declared.failure.Failure.TheVariants.{NoMemory};

use dnw_base::decoder::BinDecoder;
use dnw_base::error::DecodeError;
use dnw_base::record_type::RecordType;
use dnw_base::restrict::Restrict;
use dnw_c_base::buffer::put;
use dnw_c_base::failure::Failure;
use dnw_c_base::results::report;
use dnw_data::record_data::RecordDataDecodable;
use dnw_data::record_type_set::RecordTypeSet;
use std::alloc::{AllocError, Global};

/// Puts the codes that a bitmap lists, in ascending order, and their number.
#[unsafe(no_mangle)]
pub extern "C" fn dnw_types_read(
    alloc: Global,
    bitmap: &[u8],
    codes: &mut [u16],
    count: &mut usize,
) -> u32
    ensures { Returns (PutsTypes bitmap.now codes.old codes.new) count.old count.new result }
{
    report(read(alloc, bitmap, codes), count)
}

/// Puts the bitmap of the types with these codes, and its length.
#[unsafe(no_mangle)]
pub extern "C" fn dnw_types_write(
    alloc: Global,
    codes: &[u16],
    bitmap: &mut [u8],
    len: &mut usize,
) -> u32
    ensures { Returns (PutsBitmap codes.now bitmap.old bitmap.new) len.old len.new result }
{
    report(write(alloc, codes, bitmap), len)
}

/// Puts the codes that a bitmap lists.
fn read(alloc: Global, bitmap: &[u8], codes: &mut [u16]) -> Result<usize, Failure>
    ensures { PutsTypes bitmap.now codes.old codes.new result }
{
    let listed = listed(alloc, bitmap)?;
    put_codes(codes, listed.as_slice())
}

/// Puts the bitmap of the types with these codes.
fn write(alloc: Global, codes: &[u16], bitmap: &mut [u8]) -> Result<usize, Failure>
    ensures { PutsBitmap codes.now bitmap.old bitmap.new result }
{
    let set = set_of(alloc, codes)?;
    put(bitmap, set.as_wire())
}

/// Returns the codes that a bitmap lists, in ascending order.
#[tactic(auto, using(crate::proofs::TypeCodes::listed_some))]
fn listed(alloc: Global, bitmap: &[u8]) -> Result<Vec<u16>, Failure>
    ensures ok { IfOk result (λ codes. IsBitmap bitmap.now × AreListed bitmap.now codes.items) }
    ensures err { IfErr result (FailsToList bitmap.now) }
{
    let set = read_set(alloc, bitmap)?;
    Ok(codes_of(alloc, &set)?)
}

/// Returns the set of the types that a bitmap lists.
fn read_set(alloc: Global, bitmap: &[u8]) -> Result<RecordTypeSet, Failure>
    ensures ok { IfOk result (λ set. IsBitmap bitmap.now × IsSetOf (bitmap_types bitmap.now) set.types) }
    ensures err { IfErr result (FailsToList bitmap.now) }
{
    let Ok(len) = u16::try_from(bitmap.len()) else {
        return Err(Failure::BadBitmap);
    };
    let mut decoder = BinDecoder::new(bitmap);
    match RecordTypeSet::read_data(alloc, &mut decoder, Restrict::new(len)) {
        Ok(set) => Ok(set),
        Err(DecodeError::Memory) => Err(Failure::NoMemory),
        Err(_) => Err(Failure::BadBitmap),
    }
}

/// Returns the codes of the types of a set.
fn codes_of(alloc: Global, set: &RecordTypeSet) -> Result<Vec<u16>, AllocError>
    ensures ok { IfOk result (λ codes. codes.items ≡ map type_code set.now.types) }
    ensures err { OnErr result (1 ≤ length set.now.types) }
{
    let mut codes = Vec::new(alloc);
    let mut types = set.iter();
    'types: while let Some(kind) = types.next() {
        codes.push(u16::from(kind))?;
    }
    Ok(codes)
}

/// Returns the set of the types with these codes.
fn set_of(alloc: Global, codes: &[u16]) -> Result<RecordTypeSet, Failure>
    ensures ok { IfOk result (λ set. IsSetOf (map type_of_code codes.now) set.types × Encodes (set_codes set.types) set.encoding) }
    ensures err { IfErr result (λ failure. (1 ≤ length codes.now) × (failure ≡ NoMemory)) }
{
    let types = types_of(alloc, codes)?;
    match RecordTypeSet::new(alloc, types) {
        Ok(set) => Ok(set),
        Err(_) => Err(Failure::NoMemory),
    }
}

/// Returns the types with these codes.
fn types_of(alloc: Global, codes: &[u16]) -> Result<Vec<RecordType>, AllocError>
    ensures ok { IfOk result (λ types. types.items ≡ map type_of_code codes.now) }
    ensures err { OnErr result (1 ≤ length codes.now) }
{
    let mut types = Vec::new(alloc);
    for code in codes {
        types.push(RecordType::from(*code))?;
    }
    Ok(types)
}

/// Puts codes at the front of a list if they fit.
fn put_codes(list: &mut [u16], codes: &[u16]) -> Result<usize, Failure>
    ensures { Puts codes.now (length codes.now) list.old list.new result }
{
    if codes.len() > list.len() {
        return Err(Failure::NoRoom);
    }
    list[..codes.len()].copy_from_slice(codes);
    Ok(codes.len())
}
