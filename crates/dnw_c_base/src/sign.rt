//! Orders as numbers.
ghost use Rattle.std.specs.Prelude.{◌≡◌};
ghost use Rattle.dnw_c_base.specs.Signs.{sign};

use std::cmp::Ordering;

/// Returns an order as -1, 0 or 1.
pub fn sign_of(order: Ordering) -> i32
    ensures { result ≡ sign order }
{
    match order {
        Ordering::Less => -1,
        Ordering::Equal => 0,
        Ordering::Greater => 1,
    }
}
