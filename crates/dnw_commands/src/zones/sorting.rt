//! The order of sort keys.
ghost use Rattle.std.specs.Prelude.{◌≡◌, length, IfOk};
ghost use Rattle.std.specs.List.{range_with_len};
ghost use Rattle.std.specs.List.Sorted.{IsPermutation};
ghost use Rattle.dnw_commands.specs.Inside.Rows.{numbers};

use crate::base::Refusal;
use std::alloc::Global;

/// How many octets of a sort key are compared as one number.
const HEAD: usize = 16;

/// A record, by its sort key. Rows compare as their keys do, and those of equal keys as their numbers.
#[derive(Clone, Copy, PartialEq, Eq, PartialOrd, Ord)]
struct Row<'k> {
    /// What of the key follows the octets that all keys begin with, as a number, which compares faster.
    head: u128,
    key: &'k [u8],
    /// How many records came before.
    number: usize,
}

/// Returns the numbers of keys, each once, in the order of the keys, and those of equal keys as they came. The keys stand one after
/// the other, and each has its end.
#[tactic(auto, using(crate::proofs::Numbered::taken_more, crate::proofs::Numbered::numbers_moved))]
pub(crate) fn order_of(alloc: Global, keys: &[u8], ends: &[usize]) -> Result<Vec<usize>, Refusal>
    ensures { IfOk result (λ order. IsPermutation (range_with_len 0 (length ends.now)) order.items) }
{
    let mut rows = rows_of(alloc, keys, ends)?;
    rows.sort_unstable();
    let mut order = Vec::with_capacity(alloc, rows.len())?;
    for row in &rows {
        order.push(row.number)?;
    }
    Ok(order)
}

/// Returns the keys with their numbers, as they came.
#[tactic(auto, using(crate::proofs::Numbered::row_more))]
fn rows_of<'k>(alloc: Global, keys: &'k [u8], ends: &[usize]) -> Result<Vec<Row<'k>>, Refusal>
    ensures { IfOk result (λ rows. numbers rows.items ≡ range_with_len 0 (length ends.now)) }
{
    let shared = shared_len(keys, ends);
    let mut rows = Vec::with_capacity(alloc, ends.len())?;
    let mut start = 0;
    for (number, end) in ends.iter().enumerate() {
        let key = keys.get(start..*end).unwrap_or_default();
        rows.push(Row {
            head: head_of(key, shared),
            key,
            number,
        })?;
        start = *end;
    }
    Ok(rows)
}

/// Returns how many octets all keys begin with.
fn shared_len(keys: &[u8], ends: &[usize]) -> usize {
    let Some(end) = ends.first() else {
        return 0;
    };
    let mut shared = keys.get(..*end).unwrap_or_default();
    let mut start = 0;
    for end in ends {
        shared = shared_front(shared, keys.get(start..*end).unwrap_or_default());
        start = *end;
    }
    shared.len()
}

/// Returns the octets that two keys begin with.
fn shared_front<'a>(one: &'a [u8], other: &[u8]) -> &'a [u8] {
    for (at, (octet, its)) in one.iter().zip(other).enumerate() {
        if *octet != *its {
            return one.get(..at).unwrap_or_default();
        }
    }
    one.get(..other.len()).unwrap_or(one)
}

/// Returns the octets of a key from an offset on as a number, with zeros after the end of the key. Of two keys that are alike before
/// the offset, the one with the lower number is before the other.
fn head_of(key: &[u8], start: usize) -> u128 {
    let mut head = 0;
    for at in 0..HEAD {
        let octet = key
            .get(start.saturating_add(at))
            .copied()
            .unwrap_or_default();
        head = head << 8 | u128::from(octet);
    }
    head
}
