//! Writing type bitmaps (RFC 4034, section 4.1.2).
ghost use Rattle.std.specs.Prelude.{◌≡◌, ℕ, ◌+◌, ◌*◌, ◌≤◌, ◌<◌, ◌++◌, [], take, length, OnOk, OnErr, IfOk};
ghost use Rattle.smallvec.specs.SmallVec.{small_vec_len};
ghost use Rattle.dnw_data.specs.TypeSets.{octet_codes, octets_codes, EndsInBit, Encodes};
ghost use Rattle.dnw_base.specs.Limits.{max_window};
ghost use Rattle.dnw_data.specs.Inside.Bitmaps.{Above, code_if, with_bit, PushesWindow};

use super::Encoding;
use dnw_base::limits::MAX_WINDOW;
use smallvec::SmallVec;
use std::alloc::{AllocError, Global};

/// The octets of a window.
type Octets = SmallVec<u8, MAX_WINDOW>;

/// Takes the codes of an octet, of which the highest bit stands for the code `first`. Returns the octet and the codes
/// that are left.
fn take_octet(codes: &[u16], first: u16) -> (u8, &[u16])
    requires fits { first + 7 < 65536 }
    requires above { Above first codes.now }
    ensures codes { octet_codes first result.0 ++ result.1.now ≡ codes.now }
    ensures above { Above (first + 8) result.1.now }
{
    let mut octet = 0;
    let mut rest = codes;
    for bit in 0..8 {
        let (set, others) = take_code(rest, first + bit);
        octet = with_bit(set, octet, bit);
        rest = others;
    }
    (octet, rest)
}

/// Sets a bit of an octet, or leaves it.
fn with_bit(set: bool, octet: u8, bit: u16) -> u8
    requires { bit < 8 }
    ensures { result ≡ with_bit set octet bit }
{
    if set { octet | 1 << (7 - bit) } else { octet }
}

/// Takes a code if it is the first one.
fn take_code(codes: &[u16], code: u16) -> (bool, &[u16])
    requires { Above code codes.now }
    ensures codes { code_if result.0 code ++ result.1.now ≡ codes.now }
    ensures above { Above (code + 1) result.1.now }
{
    match codes.split_first() {
        Some((first, others)) if *first == code => (true, others),
        _ => (false, codes),
    }
}

/// Takes the codes of a window, and appends all its octets. Returns the codes that are left.
fn take_octets<'a>(
    octets: &mut Octets,
    codes: &'a [u16],
    first: u16,
) -> Result<&'a [u16], AllocError>
    requires fits { first + 255 < 65536 }
    requires above { Above first codes.now }
    requires none { octets.old.items ≡ [] }
    ensures codes { IfOk result (λ rest. octets_codes first octets.new.items ++ rest.now ≡ codes.now) }
    ensures above { IfOk result (λ rest. Above (first + 256) rest.now) }
    ensures len { OnOk result (small_vec_len octets.new ≡ 32) }
{
    let mut rest = codes;
    for index in 0..32 {
        let (octet, others) = take_octet(rest, first + 8 * index);
        octets.push(octet)?;
        rest = others;
    }
    Ok(rest)
}

/// Returns how many octets there are up to the last one that has a bit.
#[tactic(auto, using(crate::proofs::Writing::used_steps))]
fn used_len(octets: &[u8]) -> usize
    ensures within { result ≤ length octets.now }
    ensures codes { (first : ℕ) → octets_codes first (take result octets.now) ≡ octets_codes first octets.now }
    ensures ends { EndsInBit (take result octets.now) }
{
    let mut len = octets.len();
    while len > 0 && octets[len - 1] == 0 {
        len -= 1;
    }
    len
}

/// Writes ascending codes as windows.
pub fn write_windows(alloc: Global, codes: &[u16]) -> Result<Encoding, AllocError>
    requires { Above 0 codes.now }
    ensures ok { IfOk result (λ bytes. Encodes codes.now bytes.items) }
    ensures err { OnErr result (1 ≤ length codes.now) }
{
    let mut bytes = Encoding::new(alloc);
    let mut rest = codes;
    while let Some((code, _)) = rest.split_first() {
        let number = *code / 256;
        let mut octets = Octets::new(alloc);
        rest = take_octets(&mut octets, rest, 256 * number)?;
        push_window(&mut bytes, number as u8, octets.as_slice())?;
    }
    Ok(bytes)
}

/// Appends a window without the octets after its last bit.
fn push_window(bytes: &mut Encoding, number: u8, octets: &[u8]) -> Result<(), AllocError>
    requires { length octets.now ≤ max_window }
    ensures { OnOk result (PushesWindow number octets.now bytes.old.items bytes.new.items) }
{
    let len = used_len(octets);
    bytes.push(number)?;
    bytes.push(len as u8)?;
    bytes.extend_from_slice(&octets[..len])?;
    Ok(())
}
