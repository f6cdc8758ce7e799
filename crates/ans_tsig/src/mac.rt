//! MACs, and how they are compared.
ghost use Rattle.std.specs.Prelude.{◌≡◌, ◌≤◌, ◌↔◌, length, IsTrue};

use crate::hash::MAX_HASH;
use arrayvec::ArrayVec;

/// The octets of a MAC. They do not allocate.
pub type Mac = ArrayVec<u8, MAX_HASH>;

/// Returns octets as a MAC.
pub(crate) fn mac_from(octets: &[u8]) -> Mac
    requires { length octets.now ≤ 64 }
    ensures { result.items ≡ octets.now }
{
    let mut mac = Mac::new();
    mac.try_extend_from_slice(octets).unwrap();
    mac
}

/// Returns `true` if octets are the same.
///
/// It looks at each of them, so that the time it takes does not depend on which octet differs (RFC 8945, section 10). No contract says
/// how long code takes.
pub fn is_same_mac(left: &[u8], right: &[u8]) -> bool
    ensures { IsTrue result ↔ (left.now ≡ right.now) }
{
    if left.len() != right.len() {
        return false;
    }
    let mut difference = 0;
    'octets: for i in 0..left.len() {
        difference |= left[i] ^ right[i];
    }
    difference == 0
}
