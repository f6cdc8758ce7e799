//! Whether the keys that `mandatory` lists are there (RFC 9460, section 8).
ghost use Rattle.std.specs.Prelude.{◌≡◌, ◌<◌, ◌∷◌, ℕ, List, [], length, take, drop, IfSome, MatchOption};
ghost use Rattle.dnw_zone_values.specs.Mandatory.{listed_keys, keys_after, are_among, is_list_of_keys, keeps_mandatory};

use crate::lists::{is_ascending, split_u16};

/// Returns `true` if parameters on the wire, in the order of their keys, have no `mandatory`, or one that lists keys of the others:
/// one or more, in their order.
///
/// ```
/// keeps_mandatory(b"\0\0\0\x02\0\x01\0\x01\0\x03\x02h2"); // true: `mandatory=alpn alpn=h2`
/// keeps_mandatory(b"\0\0\0\x02\0\x01"); // false: `mandatory=alpn`
/// ```
pub fn keeps_mandatory(octets: &[u8]) -> bool
    ensures { result ≡ keeps_mandatory octets.now }
{
    let Some((key, rest)) = split_u16(octets) else {
        return true;
    };
    let Some((len, rest)) = split_u16(rest) else {
        return true;
    };
    if key != 0 {
        return true;
    }
    let (own, others) = split_most(usize::from(len), rest);
    is_list_of_keys(own) && are_among(own, others)
}

/// Splits octets after so many, or after all if there are fewer.
fn split_most(len: usize, octets: &[u8]) -> (&[u8], &[u8])
    ensures own { result.0.now ≡ take len octets.now }
    ensures rest { result.1.now ≡ drop len octets.now }
{
    match octets.split_at_checked(len) {
        Some(parts) => parts,
        None => (octets, &[]),
    }
}

/// Returns `true` if octets are a list of keys: one or more, which ascend, and none is 0.
fn is_list_of_keys(own: &[u8]) -> bool
    ensures { result ≡ is_list_of_keys own.now }
{
    !own.is_empty() && is_ascending(own)
}

/// Returns `true` if each key that is listed is that of a parameter. Both ascend.
fn are_among(listed: &[u8], octets: &[u8]) -> bool
    ensures { result ≡ are_among (listed_keys listed.now) (keys_after 0 octets.now) }
{
    let mut wanted = listed;
    let mut left = octets;
    while let Some((key, rest)) = next_key(left) {
        wanted = after_key(key, wanted);
        left = rest;
    }
    split_u16(wanted).is_none()
}

/// Returns the key of the first parameter, and what is after that.
fn next_key(octets: &[u8]) -> Option<(u16, &[u8])>
    ensures is { MatchOption result (keys_after 0 octets.now ≡ []) (λ x. keys_after 0 octets.now ≡ x.0 ∷ keys_after 0 x.1.now) }
    ensures shorter { IfSome result (λ x. length x.1.now < length octets.now) }
{
    let (key, rest) = split_u16(octets)?;
    let (len, rest) = split_u16(rest)?;
    let (_, others) = split_most(usize::from(len), rest);
    Some((key, others))
}

/// Returns the keys that are listed without a key, if it is the first.
fn after_key(key: u16, listed: &[u8]) -> &[u8]
    ensures { (keys : List ℕ) → are_among (listed_keys result.now) keys ≡ are_among (listed_keys listed.now) (key ∷ keys) }
{
    match split_u16(listed) {
        Some((first, rest)) if first == key => rest,
        _ => listed,
    }
}
