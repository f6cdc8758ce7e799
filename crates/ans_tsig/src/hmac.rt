//! HMAC: a hash of octets with a secret key (RFC 2104).
ghost use Rattle.std.specs.Prelude.{◌≡◌, ◌≤◌, ℕ, [], List, ◌++◌, length, map, bit_xor};
ghost use Rattle.ans_tsig.specs.Hmac.{block_key, block_octets, hash_octets, hmac, short_key, with_pad};
ghost use Rattle.ans_tsig.specs.Feeding.{FeedsHmac, hash_kind};

use crate::hash::{Hash, MAX_BLOCK};
use crate::hasher::{Hasher, hashed};
use crate::mac::Mac;
use arrayvec::ArrayVec;

/// What is combined with each octet of the key for the inner and the outer hash (RFC 2104, section 2).
const INNER: u8 = 0x36;

const OUTER: u8 = 0x5c;

/// A key of one block.
type Block = ArrayVec<u8, MAX_BLOCK>;

/// A MAC in the making: it is fed with octets part by part.
#[derive(Drop)]
pub struct Hmac {
    inner: Hasher,
    outer: Hasher,
}

impl Hmac {
    /// Begins a MAC by a hash function and a key of any length.
    pub fn new(hash: Hash, key: &[u8]) -> Self
        ensures { FeedsHmac result hash key.now [] }
    {
        let block = block_key(hash, key);
        let mut inner = Hasher::new(hash);
        inner.update(&with_pad(&block, INNER));
        let mut outer = Hasher::new(hash);
        outer.update(&with_pad(&block, OUTER));
        Hmac { inner, outer }
    }

    /// Feeds it with more octets.
    pub fn update(&mut self, octets: &[u8])
        ensures { (hash : Hash) (key text : List ℕ) → FeedsHmac self.old hash key text → FeedsHmac self.new hash key (text ++ octets.now) }
    {
        self.inner.update(octets);
    }

    /// Returns the MAC of the octets that it was fed with, whole.
    pub fn finish(self) -> Mac
        ensures mac { (hash : Hash) (key text : List ℕ) → FeedsHmac self hash key text → result.items ≡ hmac hash key text }
        ensures size { (hash : Hash) (key text : List ℕ) → FeedsHmac self hash key text → length result.items ≡ hash_octets hash }
    {
        let Hmac { inner, mut outer } = self;
        outer.update(&inner.finish());
        outer.finish()
    }
}

/// Returns the MAC of octets by a hash function and a key of any length (RFC 2104, section 2).
pub fn hmac_of(hash: Hash, key: &[u8], octets: &[u8]) -> Mac
    ensures { result.items ≡ hmac hash key.now octets.now }
{
    let mut hmac = Hmac::new(hash, key);
    hmac.update(octets);
    hmac.finish()
}

/// Returns a key of one block: a key that is longer is hashed, and zeros follow.
fn block_key(hash: Hash, key: &[u8]) -> Block
    ensures { result.items ≡ block_key hash key.now }
{
    let mut block = short_key(hash, key);
    let zeros = [0; MAX_BLOCK];
    let missing = hash.block_size() - block.len();
    block.try_extend_from_slice(&zeros[..missing]).unwrap();
    block
}

/// Returns a key that is no longer than a block, or else its hash.
fn short_key(hash: Hash, key: &[u8]) -> Block
    ensures key { result.items ≡ short_key hash key.now }
    ensures fits { length result.items ≤ block_octets hash }
{
    let mut block = Block::new();
    if key.len() <= hash.block_size() {
        block.try_extend_from_slice(key).unwrap();
    } else {
        block.try_extend_from_slice(&hashed(hash, key)).unwrap();
    }
    block
}

/// Returns the exclusive or of each octet of a key with this one.
fn with_pad(key: &[u8], octet: u8) -> Block
    requires { length key.now ≤ 128 }
    ensures { result.items ≡ with_pad octet key.now }
{
    let mut block = Block::new();
    'octets: for x in key {
        block.push(*x ^ octet);
    }
    block
}
