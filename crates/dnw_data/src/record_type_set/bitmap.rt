//! Reading type bitmaps (RFC 4034, section 4.1.2).
ghost use Rattle.std.specs.Prelude.{◌≡◌, [], MatchOption, ◌+◌, ◌*◌, ◌≤◌, ◌<◌, ◌++◌, length, map, take, drop, ◌==◌, ◌-◌, OnOk, vec_len, vec_capacity};
ghost use Rattle.dnw_base.specs.RecordTypes.{type_of_code};
ghost use Rattle.dnw_data.specs.TypeSets.{windows_of, in_bounds, ends_in_zeros, bit_codes, octet_codes, octets_codes, windows_codes};
ghost use Rattle.dnw_data.specs.Inside.Bitmaps.{SplitsWindow, window_fits};

use dnw_base::limits::MAX_WINDOW;
use dnw_base::record_type::RecordType;
use std::alloc::AllocError;

/// Appends the type of a bit of an octet, if it is set. There is room for it.
#[inline(always)]
fn push_bit(types: &mut Vec<RecordType>, first: u16, octet: u8, bit: u16)
    requires bit { bit < 8 }
    requires fits { first + 7 < 65536 }
    requires room { vec_len types.old < vec_capacity types.old }
    ensures items { types.new.items ≡ types.old.items ++ map type_of_code (bit_codes first octet bit) }
    ensures len { vec_len types.new ≤ vec_len types.old + 1 }
    ensures capacity { vec_capacity types.new ≡ vec_capacity types.old }
{
    if (octet >> (7 - bit)) % 2 == 1 {
        types.push_reserved(RecordType::from(first + bit));
    }
}

/// Appends the types whose bits are set in an octet, of which the highest bit stands for the code `first`.
#[tactic(auto, using(crate::proofs::Windows::bits_steps))]
fn push_octet(types: &mut Vec<RecordType>, first: u16, octet: u8) -> Result<(), AllocError>
    requires { first + 7 < 65536 }
    ensures ok { OnOk result (types.new.items ≡ types.old.items ++ map type_of_code (octet_codes first octet)) }
{
    if octet == 0 {
        return Ok(());
    }
    types.reserve(8)?;
    for bit in 0..8 {
        push_bit(types, first, octet, bit);
    }
    Ok(())
}

/// Appends the types of a window.
fn push_octets(types: &mut Vec<RecordType>, first: u16, octets: &[u8]) -> Result<(), AllocError>
    requires { first + 8 * length octets.now ≤ 65536 }
    ensures ok { OnOk result (types.new.items ≡ types.old.items ++ map type_of_code (octets_codes first octets.now)) }
{
    for (index, octet) in octets.iter().enumerate() {
        push_octet(types, first + 8 * index as u16, *octet)?;
    }
    Ok(())
}

/// Returns the first `len` bytes and the others, or all bytes if there are fewer.
fn split_at_most(bytes: &[u8], len: usize) -> (&[u8], &[u8])
    ensures front { result.0.now ≡ take len bytes.now }
    ensures back { result.1.now ≡ drop len bytes.now }
{
    if bytes.len() <= len {
        return (bytes, &[]);
    }
    bytes.split_at(len)
}

/// Returns the number of the first window of a bitmap, its octets, and what follows it.
fn split_window(bitmap: &[u8]) -> Option<(u8, &[u8], &[u8])>
    ensures { MatchOption result (bitmap.now ≡ []) (λ split. SplitsWindow bitmap.now split.0 split.1.now split.2.now) }
{
    let (number, bytes) = bitmap.split_first()?;
    let Some((len, bytes)) = bytes.split_first() else {
        return Some((*number, bytes, bytes));
    };
    let (octets, others) = split_at_most(bytes, *len as usize);
    Some((*number, octets, others))
}

/// Appends the types of a bitmap, window by window.
pub fn push_windows(types: &mut Vec<RecordType>, bitmap: &[u8]) -> Result<(), AllocError>
    ensures ok { OnOk result (types.new.items ≡ types.old.items ++ map type_of_code (windows_codes (windows_of bitmap.now))) }
{
    let mut rest = bitmap;
    while let Some((number, octets, others)) = split_window(rest) {
        let (octets, _) = split_at_most(octets, MAX_WINDOW);
        push_octets(types, 256 * number as u16, octets)?;
        rest = others;
    }
    Ok(())
}

/// Returns `true` if no window but the last is without octets, and none has a bit after its codes.
pub fn is_in_bounds(bitmap: &[u8]) -> bool
    ensures { result ≡ in_bounds (windows_of bitmap.now) }
{
    let mut rest = bitmap;
    while let Some((_, octets, others)) = split_window(rest) {
        if !window_fits(octets, others) {
            return false;
        }
        rest = others;
    }
    true
}

/// Returns `true` if a window has octets or nothing follows it, and no bit is set after its codes.
fn window_fits(octets: &[u8], others: &[u8]) -> bool
    ensures { result ≡ window_fits octets.now others.now }
{
    (octets.len() >= 1 || others.len() == 0) && ends_in_zeros(octets)
}

fn ends_in_zeros(octets: &[u8]) -> bool
    ensures { result ≡ ends_in_zeros octets.now }
{
    let (_, others) = split_at_most(octets, MAX_WINDOW);
    others.iter().all(|octet| *octet == 0)
}
