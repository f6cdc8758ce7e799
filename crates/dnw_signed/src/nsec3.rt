//! Hashed names, as NSEC3 records have them.
ghost use Rattle.std.specs.Prelude.{◌≡◌, ◌<◌, map, IfOk, IfErr};
ghost use Rattle.std.specs.Char.{to_ascii_lowercase};
ghost use Rattle.dnw_zone_values.specs.Base32.{base32_digit, base32_five};
ghost use Rattle.dnw_signed.specs.HashedNames.{FailsToHash, MayHash, nsec3_hash, nsec3_label};

use crate::ds::sha1_of_two;
use crate::error::DnssecError;
use dnw_base::error::DecodeError;
use dnw_name::name::Name;

/// The octets of a hashed name.
pub const NSEC3_HASH_LENGTH: usize = 20;

/// The octets of a hashed name as a label.
pub const NSEC3_LABEL_LENGTH: usize = 32;

/// The hash algorithm SHA-1, the only one that NSEC3 has (RFC 5155, section 11).
const SHA1: u8 = 1;

/// Returns a name as NSEC3 hashes it (RFC 5155, section 5): the SHA-1 hash of its wire form in lower case and the salt, and then
/// `iterations` times the hash of the hash and the salt.
///
/// `algorithm`, `iterations` and `salt` are fields of an NSEC3 or NSEC3PARAM record. `most` is how many iterations the caller
/// allows, since each takes time (RFC 9276, section 3.2).
///
/// It fails with `Decode` and `UnknownNsec3HashAlgorithm` if the algorithm is not 1, and with `TooManyIterations` if there are more
/// than `most`.
pub fn nsec3_hash(
    name: &Name,
    algorithm: u8,
    iterations: u16,
    salt: &[u8],
    most: u16,
) -> Result<[u8; NSEC3_HASH_LENGTH], DnssecError>
    ensures ok { IfOk result (λ hash. MayHash algorithm iterations most × (hash ≡ nsec3_hash name.now.labels iterations salt.now)) }
    ensures err { IfErr result (FailsToHash algorithm iterations most) }
{
    if algorithm != SHA1 {
        return Err(DnssecError::Decode(DecodeError::UnknownNsec3HashAlgorithm(algorithm)));
    }
    if most < iterations {
        return Err(DnssecError::TooManyIterations);
    }
    let lowered = name.to_lowercase().unwrap();
    let mut hash = sha1_of_two(lowered.as_wire(), salt);
    'iterations: for i in 0..iterations {
        hash = sha1_of_two(&hash, salt);
    }
    Ok(hash)
}

/// Returns the first label of the owner of the NSEC3 record with this hashed name: its octets in base 32 with the extended hex
/// alphabet, in lower case and without padding (RFC 5155, section 3).
pub fn nsec3_label(hash: &[u8; NSEC3_HASH_LENGTH]) -> [u8; NSEC3_LABEL_LENGTH]
    ensures { result ≡ nsec3_label hash.now }
{
    let [a, b, c, d, e, f, g, h, i, j, k, l, m, n, o, p, q, r, s, t] = *hash;
    let mut label = [0; NSEC3_LABEL_LENGTH];
    label[..8].copy_from_slice(&digits(a, b, c, d, e));
    label[8..16].copy_from_slice(&digits(f, g, h, i, j));
    label[16..24].copy_from_slice(&digits(k, l, m, n, o));
    label[24..].copy_from_slice(&digits(p, q, r, s, t));
    label
}

/// Returns the digits of five octets.
fn digits(a: u8, b: u8, c: u8, d: u8, e: u8) -> [u8; 8]
    ensures { result ≡ map to_ascii_lowercase (base32_five a b c d e) }
{
    [
        digit(a / 8),
        digit(a % 8 * 4 + b / 64),
        digit(b / 2 % 32),
        digit(b % 2 * 16 + c / 16),
        digit(c % 16 * 2 + d / 128),
        digit(d / 4 % 32),
        digit(d % 4 * 8 + e / 32),
        digit(e % 32),
    ]
}

/// Returns the digit of a number below 32.
fn digit(number: u8) -> u8
    requires { number < 32 }
    ensures { result ≡ to_ascii_lowercase (base32_digit number) }
{
    if number < 10 {
        b'0' + number
    } else {
        b'a' + (number - 10)
    }
}
