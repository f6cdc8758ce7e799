//! Octets that are kept inline.
ghost use Rattle.std.specs.Prelude.{◌≡◌, ◌+◌, ◌-◌, ◌<◌, ◌≤◌, [], ◌∷◌, ◌++◌, length, map, slice_set, take};
ghost use Rattle.std.specs.Char.{to_ascii_lowercase};
ghost use Rattle.dnw_base.specs.Limits.{max_name};

use dnw_base::limits::MAX_NAME;
use std::marker::Model;

/// At most 255 octets, which are kept inline.
///
/// They have a room of a fixed size, so that a copy is one move, whatever their number. A contract sees them as their list.
pub struct Octets {
    room: [u8; MAX_NAME],
    // How many of them there are: the first ones of the room.
    len: u8,
}

impl Model for Octets {
    ghost use Rattle.std.specs.Prelude.{◌≡◌, ◌≤◌, ℕ, List, length, take};
    ghost use Rattle.dnw_base.specs.Limits.{max_name};

    ghost Value = { List ℕ };

    ghost view = { λ it. take it.len it.room };

    ghost invariant = { λ it. (length it.room ≡ max_name) × (it.len ≤ max_name) };
}

/// Nothing is left to do. If a type needs no drop at all, the prover does not cover a caller's `match` whose arms are `Ok(name)`
/// and `Err(_)`.
impl Drop for Octets {
    fn drop(self) {
        let Octets { room: _, len: _ } = self;
    }
}

impl Octets {
    /// Creates no octets.
    #[inline(always)]
    pub fn new() -> Self
        ensures { result ≡ [] }
    {
        Octets {
            room: [0; MAX_NAME],
            len: 0,
        }
    }

    /// Takes the first octets of an array.
    #[inline(always)]
    pub fn from_array(room: [u8; MAX_NAME], len: usize) -> Self
        requires { len ≤ max_name }
        ensures { result ≡ take len room }
    {
        Octets {
            room,
            len: len as u8,
        }
    }

    /// Copies octets.
    #[inline(always)]
    pub fn from_slice(octets: &[u8]) -> Self
        requires { length octets.now ≤ max_name }
        ensures { result ≡ octets.now }
    {
        let mut room = [0; MAX_NAME];
        put_at(&mut room, 0, octets);
        Octets::from_array(room, octets.len())
    }

    /// Returns the octets.
    #[inline(always)]
    pub fn as_slice(&self) -> &[u8]
        ensures { result.now ≡ self.now }
    {
        &self.room[..self.len as usize]
    }

    /// Returns the number of octets.
    #[inline(always)]
    pub fn len(&self) -> usize
        ensures size { result ≡ length self.now }
        ensures few { result ≤ max_name }
    {
        self.len as usize
    }

    /// Adds an octet.
    #[inline(always)]
    pub fn push(&mut self, octet: u8)
        requires { length self.old < max_name }
        ensures { self.new ≡ self.old ++ octet ∷ [] }
    {
        self.extend(&[octet]);
    }

    /// Adds octets.
    #[inline(always)]
    pub fn extend(&mut self, octets: &[u8])
        requires { length self.old + length octets.now ≤ max_name }
        ensures { self.new ≡ self.old ++ octets.now }
    {
        let len = self.len as usize;
        put_at(&mut self.room, len, octets);
        self.len = (len + octets.len()) as u8;
    }

    /// Copies octets in the place of these.
    #[inline(always)]
    pub fn copy_from(&mut self, octets: &[u8])
        requires { length octets.now ≤ max_name }
        ensures { self.new ≡ octets.now }
    {
        put_at(&mut self.room, 0, octets);
        self.len = octets.len() as u8;
    }

    /// Puts an octet in the place of another.
    #[inline(always)]
    pub fn set(&mut self, index: usize, octet: u8)
        requires { index < length self.old }
        ensures { self.new ≡ slice_set self.old index octet }
    {
        self.room[index] = octet;
    }

    /// Leaves out the last octet, if there is one.
    #[inline(always)]
    pub fn pop(&mut self)
        ensures { self.new ≡ take (length self.old - 1) self.old }
    {
        self.len = self.len.saturating_sub(1);
    }

    /// Copies the octets.
    #[inline(always)]
    pub fn clone(&self) -> Self
        ensures { result ≡ self.now }
    {
        Octets {
            room: self.room,
            len: self.len,
        }
    }

    /// Makes the ASCII letters lower case.
    pub fn make_ascii_lowercase(&mut self)
        ensures { self.new ≡ map to_ascii_lowercase self.old }
    {
        let len = self.len as usize;
        self.room[..len].make_ascii_lowercase();
    }
}

/// Puts octets into a room.
#[inline(always)]
fn put_at(room: &mut [u8; MAX_NAME], start: usize, octets: &[u8])
    requires { start + length octets.now ≤ max_name }
    ensures front { take (start + length octets.now) room.new ≡ take start room.old ++ octets.now }
    ensures size { length room.new ≡ max_name }
{
    room[start..start + octets.len()].copy_from_slice(octets);
}
