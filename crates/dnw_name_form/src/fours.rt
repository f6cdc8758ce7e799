//! Four octets at a time, which LLVM reads by one load.
ghost use Rattle.std.specs.Prelude.{◌≡◌, ℕ, ◌+◌, ◌<◌, ◌≤◌, ◌↔◌, ◌^◌, get_or, length, IsTrue};
ghost use Rattle.dnw_name_form.specs.Inside.Fours.{four};

/// Returns four octets as one number.
#[inline(always)]
pub fn four(a: u8, b: u8, c: u8, d: u8) -> usize
    ensures value { result ≡ four a b c d }
    ensures small { result < 2 ^ 32 }
{
    a as usize + b as usize * 256 + c as usize * 65536 + d as usize * 16_777_216
}

/// Returns `true` if both have the same four octets from an index on.
#[inline(always)]
pub fn has_same_four(own: &[u8], other: &[u8], index: usize) -> bool
    requires own { index + 4 ≤ length own.now }
    requires other { index + 4 ≤ length other.now }
    ensures { IsTrue result ↔ ((k : ℕ) → index ≤ k → k < index + 4 → get_or own.now k 0 ≡ get_or other.now k 0) }
{
    four(own[index], own[index + 1], own[index + 2], own[index + 3])
        == four(
            other[index],
            other[index + 1],
            other[index + 2],
            other[index + 3],
        )
}
