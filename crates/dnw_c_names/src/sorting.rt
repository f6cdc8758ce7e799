//! Lists of names, sorted.
ghost use Rattle.std.specs.Prelude.{◌≡◌, ◌≤◌, ◌<◌, ◌⊎◌, ◌++◌, ◌∷◌, [], List, ℕ, length, map, IfOk, IfErr, OnOk};
ghost use Rattle.dnw_base.specs.Limits.{max_pointers};
ghost use Rattle.dnw_name_order.specs.SortKeys.{sort_key};
ghost use Rattle.dnw_name_read.specs.Buffers.{put};
ghost use Rattle.dnw_c_names.specs.NameLists.{IsNoNextName, TakesNextName, at_first};
ghost use Rattle.dnw_c_names.specs.SortCalls.{FailsToName, HasNames, PutsOrder};
ghost use Rattle.dnw_c_base.specs.Results.{ReturnsNumber};
ghost use Rattle.dnw_c_base.specs.declared.failure.Failure.TheVariants.{NoMemory};

use crate::list::next_name;
use dnw_base::decoder::BinDecoder;
use dnw_base::limits::{MAX_NAME, MAX_POINTERS};
use dnw_c_base::failure::Failure;
use dnw_c_base::results::report;
use dnw_name_order::sorting::{CanonicalOrder, SortKeys};
use std::alloc::Global;

/// Puts the numbers of the names of a list, from 0, in canonical order of the names. They may follow 65,536 pointers in all.
#[unsafe(no_mangle)]
pub extern "C" fn dnw_names_sort(alloc: Global, names: &[u8], order: &mut [usize]) -> u32
    ensures { ReturnsNumber (PutsOrder names.now order.old order.new) result }
{
    report(sort(alloc, names, order), &mut ())
}

/// Puts the numbers of the names of a list in canonical order of the names.
fn sort(alloc: Global, names: &[u8], order: &mut [usize]) -> Result<(), Failure>
    ensures { PutsOrder names.now order.old order.new result }
{
    let keys = keyed(alloc, names)?;
    if keys.len() > order.len() {
        return Err(Failure::NoRoom);
    }
    put_order(order, &keys.sorted());
    Ok(())
}

/// Returns the sort keys of the names of a list.
fn keyed(alloc: Global, names: &[u8]) -> Result<SortKeys, Failure>
    ensures ok { IfOk result (λ keys. (all : List (List (List ℕ))) × HasNames (at_first names.now) max_pointers all × (keys ≡ map sort_key all)) }
    ensures err { IfErr result (FailsToName names.now) }
{
    let mut decoder = BinDecoder::new(names);
    let mut left = MAX_POINTERS;
    let mut keys = SortKeys::new(alloc);
    let mut room = [0; MAX_NAME];
    'list: while !decoder.is_empty() {
        push_next(&mut decoder, &mut left, &mut keys, &mut room)?;
    }
    Ok(keys)
}

/// Adds the sort key of the name at the cursor of a list. The pointers that it follows are taken from those that are `left`. A name in
/// more than one piece is copied into the room.
fn push_next(
    decoder: &mut BinDecoder<'_>,
    left: &mut usize,
    keys: &mut SortKeys,
    room: &mut [u8; MAX_NAME],
) -> Result<(), Failure>
    ensures ok { OnOk result ((labels : List (List ℕ)) × TakesNextName decoder.old left.old labels decoder.new left.new
        × (keys.new ≡ keys.old ++ sort_key labels ∷ [])) }
    ensures err { IfErr result (λ failure. IsNoNextName decoder.old left.old failure ⊎ (failure ≡ NoMemory)) }
    ensures onward { OnOk result (decoder.old.index < decoder.new.index) }
    ensures within { OnOk result (decoder.new.index ≤ length decoder.new.bytes) }
    ensures bytes { decoder.new.bytes ≡ decoder.old.bytes }
{
    let name = next_name(decoder, left)?;
    keys.push(name.wire_labels(room))?;
    Ok(())
}

/// Puts numbers at the front of a list, in turn.
fn put_order(order: &mut [usize], sorted: &CanonicalOrder)
    requires { length sorted.now ≤ length order.old }
    ensures { order.new ≡ put order.old sorted.now }
{
    for i in 0..sorted.len() {
        if let Some(number) = sorted.get(i) {
            order[i] = number;
        }
    }
}
