//! Numbers of four digits of a text at once, in hexadecimal, in base 32 and in base 64 (RFC 4648).
//!
//! A digit has its number in the table of its place, and what is no digit has a number there that four digits do not make. So one sum
//! gives the number of all four, and shows whether they are digits.
ghost use Rattle.std.specs.Prelude.{◌≡◌, ◌<◌, ◌≤◌, nat_lt, if◌then◌else◌, slice_index};
ghost use Rattle.hex.specs.Hex.{hex_digit_value};
ghost use Rattle.dnw_zone_values.specs.Inside.Digits.{base32_digit_value, base32_places, base64_digit_value, base64_places, hexadecimal_places, in_place, number_of_four};

/// The number of what is no digit.
const N: u32 = 1 << 24;

macro_rules! hexadecimal_table {
    ($at:expr) => {
        [
            N, N, N, N, N, N, N, N,
            N, N, N, N, N, N, N, N,
            N, N, N, N, N, N, N, N,
            N, N, N, N, N, N, N, N,
            N, N, N, N, N, N, N, N,
            N, N, N, N, N, N, N, N,
            0 << $at, 1 << $at, 2 << $at, 3 << $at, 4 << $at, 5 << $at, 6 << $at, 7 << $at,
            8 << $at, 9 << $at, N, N, N, N, N, N,
            N, 10 << $at, 11 << $at, 12 << $at, 13 << $at, 14 << $at, 15 << $at, N,
            N, N, N, N, N, N, N, N,
            N, N, N, N, N, N, N, N,
            N, N, N, N, N, N, N, N,
            N, 10 << $at, 11 << $at, 12 << $at, 13 << $at, 14 << $at, 15 << $at, N,
            N, N, N, N, N, N, N, N,
            N, N, N, N, N, N, N, N,
            N, N, N, N, N, N, N, N,
            N, N, N, N, N, N, N, N,
            N, N, N, N, N, N, N, N,
            N, N, N, N, N, N, N, N,
            N, N, N, N, N, N, N, N,
            N, N, N, N, N, N, N, N,
            N, N, N, N, N, N, N, N,
            N, N, N, N, N, N, N, N,
            N, N, N, N, N, N, N, N,
            N, N, N, N, N, N, N, N,
            N, N, N, N, N, N, N, N,
            N, N, N, N, N, N, N, N,
            N, N, N, N, N, N, N, N,
            N, N, N, N, N, N, N, N,
            N, N, N, N, N, N, N, N,
            N, N, N, N, N, N, N, N,
            N, N, N, N, N, N, N, N,
        ]
    };
}

macro_rules! base32_table {
    ($at:expr) => {
        [
            N, N, N, N, N, N, N, N,
            N, N, N, N, N, N, N, N,
            N, N, N, N, N, N, N, N,
            N, N, N, N, N, N, N, N,
            N, N, N, N, N, N, N, N,
            N, N, N, N, N, N, N, N,
            0 << $at, 1 << $at, 2 << $at, 3 << $at, 4 << $at, 5 << $at, 6 << $at, 7 << $at,
            8 << $at, 9 << $at, N, N, N, N, N, N,
            N, 10 << $at, 11 << $at, 12 << $at, 13 << $at, 14 << $at, 15 << $at, 16 << $at,
            17 << $at, 18 << $at, 19 << $at, 20 << $at, 21 << $at, 22 << $at, 23 << $at, 24 << $at,
            25 << $at, 26 << $at, 27 << $at, 28 << $at, 29 << $at, 30 << $at, 31 << $at, N,
            N, N, N, N, N, N, N, N,
            N, 10 << $at, 11 << $at, 12 << $at, 13 << $at, 14 << $at, 15 << $at, 16 << $at,
            17 << $at, 18 << $at, 19 << $at, 20 << $at, 21 << $at, 22 << $at, 23 << $at, 24 << $at,
            25 << $at, 26 << $at, 27 << $at, 28 << $at, 29 << $at, 30 << $at, 31 << $at, N,
            N, N, N, N, N, N, N, N,
            N, N, N, N, N, N, N, N,
            N, N, N, N, N, N, N, N,
            N, N, N, N, N, N, N, N,
            N, N, N, N, N, N, N, N,
            N, N, N, N, N, N, N, N,
            N, N, N, N, N, N, N, N,
            N, N, N, N, N, N, N, N,
            N, N, N, N, N, N, N, N,
            N, N, N, N, N, N, N, N,
            N, N, N, N, N, N, N, N,
            N, N, N, N, N, N, N, N,
            N, N, N, N, N, N, N, N,
            N, N, N, N, N, N, N, N,
            N, N, N, N, N, N, N, N,
            N, N, N, N, N, N, N, N,
            N, N, N, N, N, N, N, N,
        ]
    };
}

macro_rules! base64_table {
    ($at:expr) => {
        [
            N, N, N, N, N, N, N, N,
            N, N, N, N, N, N, N, N,
            N, N, N, N, N, N, N, N,
            N, N, N, N, N, N, N, N,
            N, N, N, N, N, N, N, N,
            N, N, N, 62 << $at, N, N, N, 63 << $at,
            52 << $at, 53 << $at, 54 << $at, 55 << $at, 56 << $at, 57 << $at, 58 << $at, 59 << $at,
            60 << $at, 61 << $at, N, N, N, N, N, N,
            N, 0 << $at, 1 << $at, 2 << $at, 3 << $at, 4 << $at, 5 << $at, 6 << $at,
            7 << $at, 8 << $at, 9 << $at, 10 << $at, 11 << $at, 12 << $at, 13 << $at, 14 << $at,
            15 << $at, 16 << $at, 17 << $at, 18 << $at, 19 << $at, 20 << $at, 21 << $at, 22 << $at,
            23 << $at, 24 << $at, 25 << $at, N, N, N, N, N,
            N, 26 << $at, 27 << $at, 28 << $at, 29 << $at, 30 << $at, 31 << $at, 32 << $at,
            33 << $at, 34 << $at, 35 << $at, 36 << $at, 37 << $at, 38 << $at, 39 << $at, 40 << $at,
            41 << $at, 42 << $at, 43 << $at, 44 << $at, 45 << $at, 46 << $at, 47 << $at, 48 << $at,
            49 << $at, 50 << $at, 51 << $at, N, N, N, N, N,
            N, N, N, N, N, N, N, N,
            N, N, N, N, N, N, N, N,
            N, N, N, N, N, N, N, N,
            N, N, N, N, N, N, N, N,
            N, N, N, N, N, N, N, N,
            N, N, N, N, N, N, N, N,
            N, N, N, N, N, N, N, N,
            N, N, N, N, N, N, N, N,
            N, N, N, N, N, N, N, N,
            N, N, N, N, N, N, N, N,
            N, N, N, N, N, N, N, N,
            N, N, N, N, N, N, N, N,
            N, N, N, N, N, N, N, N,
            N, N, N, N, N, N, N, N,
            N, N, N, N, N, N, N, N,
            N, N, N, N, N, N, N, N,
        ]
    };
}

static HEXADECIMAL: [[u32; 256]; 4] = [
    hexadecimal_table!(12),
    hexadecimal_table!(8),
    hexadecimal_table!(4),
    hexadecimal_table!(0),
];

static BASE32: [[u32; 256]; 4] = [
    base32_table!(15),
    base32_table!(10),
    base32_table!(5),
    base32_table!(0),
];

static BASE64: [[u32; 256]; 4] = [
    base64_table!(18),
    base64_table!(12),
    base64_table!(6),
    base64_table!(0),
];

/// Returns the number of four hexadecimal digits, if each is one.
#[inline(always)]
pub(crate) fn hexadecimal_number(a: u8, b: u8, c: u8, d: u8) -> Option<u32>
    ensures { result ≡ number_of_four 4096 256 16 (hex_digit_value a) (hex_digit_value b) (hex_digit_value c) (hex_digit_value d) }
{
    number_of(
        placed_hexadecimal(0, a)
            + placed_hexadecimal(1, b)
            + placed_hexadecimal(2, c)
            + placed_hexadecimal(3, d),
    )
}

/// Returns the number of four digits of base 32 with the extended hex alphabet, if each is one.
#[inline(always)]
pub(crate) fn base32_number(a: u8, b: u8, c: u8, d: u8) -> Option<u32>
    ensures { result ≡ number_of_four 32768 1024 32 (base32_digit_value a) (base32_digit_value b) (base32_digit_value c) (base32_digit_value d) }
{
    number_of(placed_base32(0, a) + placed_base32(1, b) + placed_base32(2, c) + placed_base32(3, d))
}

/// Returns the number of four digits of base 64, if each is one.
#[inline(always)]
pub(crate) fn base64_number(a: u8, b: u8, c: u8, d: u8) -> Option<u32>
    ensures { result ≡ number_of_four 262144 4096 64 (base64_digit_value a) (base64_digit_value b) (base64_digit_value c) (base64_digit_value d) }
{
    number_of(placed_base64(0, a) + placed_base64(1, b) + placed_base64(2, c) + placed_base64(3, d))
}

/// Returns the number of a hexadecimal digit in one of four places, or `N` if it is none.
#[inline(always)]
fn placed_hexadecimal(place: usize, c: u8) -> u32
    requires { place < 4 }
    ensures is { result ≡ in_place (slice_index hexadecimal_places place) (hex_digit_value c) }
    ensures most { result ≤ 16777216 }
{
    HEXADECIMAL[place][c as usize]
}

/// Returns the number of a digit of base 32 in one of four places, or `N` if it is none.
#[inline(always)]
fn placed_base32(place: usize, c: u8) -> u32
    requires { place < 4 }
    ensures is { result ≡ in_place (slice_index base32_places place) (base32_digit_value c) }
    ensures most { result ≤ 16777216 }
{
    BASE32[place][c as usize]
}

/// Returns the number of a digit of base 64 in one of four places, or `N` if it is none.
#[inline(always)]
fn placed_base64(place: usize, c: u8) -> u32
    requires { place < 4 }
    ensures is { result ≡ in_place (slice_index base64_places place) (base64_digit_value c) }
    ensures most { result ≤ 16777216 }
{
    BASE64[place][c as usize]
}

/// Returns a sum of four numbers, if it is of digits.
#[inline(always)]
fn number_of(sum: u32) -> Option<u32>
    ensures { result ≡ (if nat_lt sum 16777216 then Some sum else None) }
{
    if sum < N { Some(sum) } else { None }
}
