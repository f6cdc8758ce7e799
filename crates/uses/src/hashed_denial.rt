//! Denies names by NSEC3 records.
ghost use Rattle.std.specs.Prelude.{◌↔◌, IfOk, IfErr, IsTrue};
ghost use Rattle.dns_names_wire.specs.Words.{FailsToHash, Nsec3Covers, nsec3_hash};

use dns_names_wire::Name;
use dns_names_wire::dnssec::{DnssecError, nsec3_covers, nsec3_hash};

/// The hash algorithm SHA-1 (RFC 5155, section 11).
const SHA1: u8 = 1;

/// Returns `true` if the NSEC3 record with the hash `own` and the next hash `next` denies a name of its zone, which is hashed with
/// this salt and so many iterations, at most `most`.
pub fn denies_hash(
    name: &Name,
    iterations: u16,
    salt: &[u8],
    most: u16,
    own: &[u8],
    next: &[u8],
) -> Result<bool, DnssecError>
    ensures ok { IfOk result (λ denied. IsTrue denied ↔ Nsec3Covers own.now next.now (nsec3_hash name.now.labels iterations salt.now)) }
    ensures err { IfErr result (FailsToHash 1 iterations most) }
{
    match nsec3_hash(name, SHA1, iterations, salt, most) {
        Ok(hash) => Ok(nsec3_covers(own, next, &hash)),
        Err(error) => Err(error),
    }
}
