//! Digests of keys, as DS records have them.
ghost use Rattle.std.specs.Prelude.{◌≡◌, ◌≤◌, ◌++◌, length, IfOk, IfErr};
ghost use Rattle.sha1.specs.Sha1.{sha1};
ghost use Rattle.dnw_signed.specs.Digests.{FailsDsDigest, IsDsDigest};

use crate::error::DnssecError;
use crate::key_tag::is_dnskey;
use arrayvec::ArrayVec;
use dnw_base::error::DecodeError;
use dnw_name::name::Name;
use sha1::Sha1;
use sha2::{Digest as HashFunction, Sha256, Sha384};

/// The most octets of a digest.
pub const MAX_DIGEST_LENGTH: usize = 64;

/// The octets of a digest. They do not allocate.
pub type Digest = ArrayVec<u8, MAX_DIGEST_LENGTH>;

/// Returns the digest of a DNSKEY that a DS record has: the hash of its owner's wire form in lower case and of its data (RFC 4034,
/// section 5.1.4).
///
/// Digest type 1 is SHA-1, 2 is SHA-256 (RFC 4509) and 4 is SHA-384 (RFC 6605). It fails with `NotDnskey` if the data have fewer
/// than 4 octets or more than 65,535, and with `Decode` and
/// `UnknownDigestAlgorithm` for any other digest type.
pub fn ds_digest(owner: &Name, dnskey: &[u8], digest_type: u8) -> Result<Digest, DnssecError>
    ensures ok { IfOk result (λ digest. IsDsDigest owner.now.labels dnskey.now digest_type digest.items) }
    ensures err { IfErr result (FailsDsDigest dnskey.now digest_type) }
{
    if !is_dnskey(dnskey) {
        return Err(DnssecError::NotDnskey);
    }
    let lowered = owner.to_lowercase().unwrap();
    let owner = lowered.as_wire();
    match digest_type {
        1 => Ok(digest_of(&sha1_of_two(owner, dnskey))),
        2 => Ok(digest_of(&hash_of_two::<Sha256>(owner, dnskey))),
        4 => Ok(digest_of(&hash_of_two::<Sha384>(owner, dnskey))),
        other => Err(DnssecError::Decode(DecodeError::UnknownDigestAlgorithm(other))),
    }
}

/// Returns octets as a digest.
pub(crate) fn digest_of(octets: &[u8]) -> Digest
    requires { length octets.now ≤ 64 }
    ensures { result.items ≡ octets.now }
{
    let mut digest = Digest::new();
    digest.try_extend_from_slice(octets).unwrap();
    digest
}

/// Returns the SHA-1 hash of octets and others after them.
pub(crate) fn sha1_of_two(first: &[u8], second: &[u8]) -> [u8; 20]
    ensures { result ≡ sha1 (first.now ++ second.now) }
{
    let mut hasher = Sha1::new();
    hasher.update(first);
    hasher.update(second);
    hasher.finalize()
}

/// Returns the hash of octets and others after them.
fn hash_of_two<H: HashFunction>(first: &[u8], second: &[u8]) -> H::Output
    ensures { H.digest_of (first.now ++ second.now) result }
{
    let mut hasher = H::new();
    hasher.update(first);
    hasher.update(second);
    hasher.finalize()
}
