//! Octets that are compared eight at a time.
ghost use Rattle.std.specs.Prelude.{◌≡◌, ◌↔◌, IsTrue};

use dnw_name_form::fours::has_same_four;

/// So many octets are compared in fewer steps here than by `==`.
const FEW: usize = 48;

/// Returns `true` if both have the same octets.
#[inline(never)]
pub(crate) fn are_same(own: &[u8], other: &[u8]) -> bool
    ensures { IsTrue result ↔ (own.now ≡ other.now) }
{
    if own.len() != other.len() {
        return false;
    }
    if own.len() > FEW {
        // Candidates that share a tag mostly differ after the octets that the tag comes of.
        let last = own.len() - 4;
        return has_same_four(own, other, last) && own == other;
    }
    let mut index = 0;
    'eights: while own.len() - index >= 8 {
        if !has_same_four(own, other, index) || !has_same_four(own, other, index + 4) {
            return false;
        }
        index += 8;
    }
    'fours: while own.len() - index >= 4 {
        if !has_same_four(own, other, index) {
            return false;
        }
        index += 4;
    }
    'rest: while index < own.len() {
        if own[index] != other[index] {
            return false;
        }
        index += 1;
    }
    true
}
