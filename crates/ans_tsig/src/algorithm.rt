//! The algorithms of TSIG, and their names.
ghost use Rattle.std.specs.Prelude.{◌≡◌};
ghost use Rattle.dns_names_wire.specs.Words.{is_same, wire};
ghost use Rattle.ans_tsig.specs.Algorithms.{algorithm_hash, algorithm_labels, algorithm_by_name, algorithms, least_octets, mac_octets};

use crate::hash::Hash;
use crate::names::is_same;
use dns_names_wire::name::laws;
use dns_names_wire::{BinDecoder, Name, NameRef};

/// The fewest octets to which a MAC may be cut (RFC 8945, section 5.2.2.1).
const LEAST_MAC: usize = 10;

/// An algorithm, by which a MAC is made (RFC 8945, section 6). All are HMAC by a hash function. Of those with a number at the end a MAC is
/// cut to that many bits.
#[derive(Debug, Clone, Copy, PartialEq, Eq)]
#[allow(non_camel_case_types)]
pub enum Algorithm {
    /// `hmac-md5.sig-alg.reg.int.`, which must not be used any more.
    HmacMd5,
    /// `hmac-sha1.`, which is not recommended.
    HmacSha1,
    /// `hmac-sha224.`
    HmacSha224,
    /// `hmac-sha256.`, which all have.
    HmacSha256,
    /// `hmac-sha256-128.`
    HmacSha256_128,
    /// `hmac-sha384.`
    HmacSha384,
    /// `hmac-sha384-192.`
    HmacSha384_192,
    /// `hmac-sha512.`
    HmacSha512,
    /// `hmac-sha512-256.`
    HmacSha512_256,
}

impl Algorithm {
    /// All of them.
    pub const ALL: [Algorithm; 9] = [
        Algorithm::HmacMd5,
        Algorithm::HmacSha1,
        Algorithm::HmacSha224,
        Algorithm::HmacSha256,
        Algorithm::HmacSha256_128,
        Algorithm::HmacSha384,
        Algorithm::HmacSha384_192,
        Algorithm::HmacSha512,
        Algorithm::HmacSha512_256,
    ];

    /// Returns the algorithm with a name, ignoring ASCII case. A relative name is taken as fully qualified.
    pub fn from_name(name: &Name) -> Option<Self>
        ensures { result ≡ algorithm_by_name name.now.labels }
    {
        let all = Algorithm::ALL;
        'all: for algorithm in all {
            if algorithm.is_named(name) {
                return Some(algorithm);
            }
        }
        None
    }

    /// Returns `true` if this is its name, ignoring ASCII case.
    pub fn is_named(self, name: &Name) -> bool
        ensures { result ≡ is_same (algorithm_labels self) name.now.labels }
    {
        is_same(&self.name(), name)
    }

    /// Returns its name.
    pub fn name(self) -> NameRef<'static>
        ensures { result ≡ algorithm_labels self }
    {
        laws::reads_back();
        let mut reader = BinDecoder::new(self.wire());
        NameRef::read(&mut reader).unwrap()
    }

    /// Returns the wire form of its name, in lower case.
    pub fn wire(self) -> &'static [u8]
        ensures { result.now ≡ wire (algorithm_labels self) }
    {
        match self {
            Algorithm::HmacMd5 => b"\x08hmac-md5\x07sig-alg\x03reg\x03int\x00",
            Algorithm::HmacSha1 => b"\x09hmac-sha1\x00",
            Algorithm::HmacSha224 => b"\x0bhmac-sha224\x00",
            Algorithm::HmacSha256 => b"\x0bhmac-sha256\x00",
            Algorithm::HmacSha256_128 => b"\x0fhmac-sha256-128\x00",
            Algorithm::HmacSha384 => b"\x0bhmac-sha384\x00",
            Algorithm::HmacSha384_192 => b"\x0fhmac-sha384-192\x00",
            Algorithm::HmacSha512 => b"\x0bhmac-sha512\x00",
            Algorithm::HmacSha512_256 => b"\x0fhmac-sha512-256\x00",
        }
    }

    /// Returns its hash function.
    pub fn hash(self) -> Hash
        ensures { result ≡ algorithm_hash self }
    {
        match self {
            Algorithm::HmacMd5 => Hash::Md5,
            Algorithm::HmacSha1 => Hash::Sha1,
            Algorithm::HmacSha224 => Hash::Sha224,
            Algorithm::HmacSha256 | Algorithm::HmacSha256_128 => Hash::Sha256,
            Algorithm::HmacSha384 | Algorithm::HmacSha384_192 => Hash::Sha384,
            Algorithm::HmacSha512 | Algorithm::HmacSha512_256 => Hash::Sha512,
        }
    }

    /// Returns the number of octets of its MACs, if they are not cut.
    pub fn mac_size(self) -> usize
        ensures { result ≡ mac_octets self }
    {
        match self {
            Algorithm::HmacSha256_128 => 16,
            Algorithm::HmacSha384_192 => 24,
            Algorithm::HmacSha512_256 => 32,
            other => other.hash().size(),
        }
    }

    /// Returns the fewest octets to which its MACs may be cut: half of the hash, and 10 (RFC 8945, section 5.2.2.1).
    pub fn least_mac_size(self) -> usize
        ensures { result ≡ least_octets self }
    {
        LEAST_MAC.max(self.hash().size() / 2)
    }
}
