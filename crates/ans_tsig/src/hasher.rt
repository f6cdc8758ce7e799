//! Hashers: octets that are hashed part by part.
ghost use Rattle.std.specs.Prelude.{◌≡◌, ℕ, [], List, ◌++◌, length};
ghost use Rattle.ans_tsig.specs.Hmac.{hashed, hash_octets};
ghost use Rattle.ans_tsig.specs.Feeding.{Hashes, hash_kind};

use crate::hash::Hash;
use crate::mac::{Mac, mac_from};
use md5::{Digest as Md5Digest, Md5};
use sha1::Sha1;
use sha2::{Digest, Sha224, Sha256, Sha384, Sha512};

/// A hash function that was fed with octets.
#[derive(Drop)]
pub(crate) enum Hasher {
    Md5(Md5),
    Sha1(Sha1),
    Sha224(Sha224),
    Sha256(Sha256),
    Sha384(Sha384),
    Sha512(Sha512),
}

impl Hasher {
    /// Creates a hasher that was fed with nothing.
    pub(crate) fn new(hash: Hash) -> Self
        ensures kind { hash_kind result ≡ hash }
        ensures fed { Hashes result [] }
    {
        match hash {
            Hash::Md5 => Hasher::Md5(Md5::new()),
            Hash::Sha1 => Hasher::Sha1(Sha1::new()),
            Hash::Sha224 => Hasher::Sha224(Sha224::new()),
            Hash::Sha256 => Hasher::Sha256(Sha256::new()),
            Hash::Sha384 => Hasher::Sha384(Sha384::new()),
            Hash::Sha512 => Hasher::Sha512(Sha512::new()),
        }
    }

    /// Feeds it with more octets.
    pub(crate) fn update(&mut self, octets: &[u8])
        ensures kind { hash_kind self.new ≡ hash_kind self.old }
        ensures fed { (text : List ℕ) → Hashes self.old text → Hashes self.new (text ++ octets.now) }
    {
        match self {
            Hasher::Md5(hasher) => hasher.update(octets),
            Hasher::Sha1(hasher) => hasher.update(octets),
            Hasher::Sha224(hasher) => hasher.update(octets),
            Hasher::Sha256(hasher) => hasher.update(octets),
            Hasher::Sha384(hasher) => hasher.update(octets),
            Hasher::Sha512(hasher) => hasher.update(octets),
        }
    }

    /// Returns the hash of the octets that it was fed with.
    pub(crate) fn finish(self) -> Mac
        ensures hash { (text : List ℕ) → Hashes self text → result.items ≡ hashed (hash_kind self) text }
        ensures size { length result.items ≡ hash_octets (hash_kind self) }
    {
        match self {
            Hasher::Md5(hasher) => mac_from(&hasher.finalize()),
            Hasher::Sha1(hasher) => mac_from(&hasher.finalize()),
            Hasher::Sha224(hasher) => mac_from(&hasher.finalize()),
            Hasher::Sha256(hasher) => mac_from(&hasher.finalize()),
            Hasher::Sha384(hasher) => mac_from(&hasher.finalize()),
            Hasher::Sha512(hasher) => mac_from(&hasher.finalize()),
        }
    }
}

/// Returns the hash of octets.
pub(crate) fn hashed(hash: Hash, octets: &[u8]) -> Mac
    ensures hash { result.items ≡ hashed hash octets.now }
    ensures size { length result.items ≡ hash_octets hash }
{
    let mut hasher = Hasher::new(hash);
    hasher.update(octets);
    hasher.finish()
}
