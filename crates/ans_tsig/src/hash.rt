//! The hash functions of TSIG.
ghost use Rattle.std.specs.Prelude.{◌≡◌};
ghost use Rattle.ans_tsig.specs.Hmac.{block_octets, hash_octets};

/// The most octets of a hash.
pub const MAX_HASH: usize = 64;

/// The most octets of a block of a hash function.
pub const MAX_BLOCK: usize = 128;

/// A hash function, by which HMAC makes a MAC (RFC 8945, section 6).
#[derive(Debug, Clone, Copy, PartialEq, Eq)]
pub enum Hash {
    /// MD5 (RFC 1321).
    Md5,
    /// SHA-1 (FIPS 180-4).
    Sha1,
    /// SHA-224 (FIPS 180-4).
    Sha224,
    /// SHA-256 (FIPS 180-4).
    Sha256,
    /// SHA-384 (FIPS 180-4).
    Sha384,
    /// SHA-512 (FIPS 180-4).
    Sha512,
}

impl Hash {
    /// Returns the number of octets of a hash.
    pub fn size(self) -> usize
        ensures { result ≡ hash_octets self }
    {
        match self {
            Hash::Md5 => 16,
            Hash::Sha1 => 20,
            Hash::Sha224 => 28,
            Hash::Sha256 => 32,
            Hash::Sha384 => 48,
            Hash::Sha512 => 64,
        }
    }

    /// Returns the number of octets of a block, into which the hash function cuts what it hashes.
    pub fn block_size(self) -> usize
        ensures { result ≡ block_octets self }
    {
        match self {
            Hash::Md5 | Hash::Sha1 | Hash::Sha224 | Hash::Sha256 => 64,
            Hash::Sha384 | Hash::Sha512 => 128,
        }
    }
}
