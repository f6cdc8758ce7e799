//! Octets compared eight at a time.
ghost use Rattle.std.specs.Prelude.{◌≡◌, ◌+◌, ◌≤◌, length};
ghost use Rattle.std.specs.Cmp.Lexicographic.{slice_cmp};
ghost use Rattle.std.specs.Ordering.{nat_cmp};
ghost use Rattle.dnw_name_order.specs.Inside.Numbers.{number_from};

use crate::order::cmp_lengths;
use dnw_name_form::fours::four;
use std::cmp::Ordering;

/// Compares octets from the first one on, as `Ord` does for slices. Eight at a time are compared as one number.
#[inline(always)]
pub(crate) fn cmp_octets(left: &[u8], right: &[u8]) -> Ordering
    ensures { result ≡ slice_cmp nat_cmp left.now right.now }
{
    let both = left.len().min(right.len());
    let mut end = 0;
    'eights: while both - end >= 8 {
        let (own, other) = (eight_at(left, end), eight_at(right, end));
        if own != other {
            return own.cmp(&other);
        }
        end += 8;
    }
    for i in end..both {
        let order = left[i].cmp(&right[i]);
        if order.is_ne() {
            return order;
        }
    }
    cmp_lengths(left.len(), right.len())
}

/// Returns the eight octets from an index on as one number, of which the first is the highest one. LLVM reads it by one load.
#[inline(always)]
fn eight_at(octets: &[u8], index: usize) -> usize
    requires { index + 8 ≤ length octets.now }
    ensures { result ≡ number_from octets.now index 8 }
{
    let high = four(
        octets[index + 3],
        octets[index + 2],
        octets[index + 1],
        octets[index],
    );
    let low = four(
        octets[index + 7],
        octets[index + 6],
        octets[index + 5],
        octets[index + 4],
    );
    high * 4_294_967_296 + low
}
