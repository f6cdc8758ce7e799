//! Denies names by NSEC records that are kept by sort keys.
ghost use Rattle.std.specs.Prelude.{◌≡◌, ◌↔◌, ℕ, List, IsTrue};
ghost use Rattle.dns_names_wire.specs.Words.{sort_key};
ghost use Rattle.uses.specs.Denial.{Denies};

use dns_names_wire::Name;
use dns_names_wire::sort_key::{MAX_SORT_KEY_LENGTH, laws};

/// Returns `true` if an NSEC record denies a name of its zone. The record's owner and its next name are given by their sort
/// keys, as a store has them.
pub fn denies(owner: &[u8], next: &[u8], name: &Name) -> bool
    ensures { (first last : List (List ℕ)) → owner.now ≡ sort_key first → next.now ≡ sort_key last
        → IsTrue result ↔ Denies first last name.now.labels }
{
    laws::keys_compare();
    let mut buffer = [0; MAX_SORT_KEY_LENGTH];
    let key = name.sort_key(&mut buffer);
    owner.cmp(key).is_lt() && (key.cmp(next).is_lt() || owner.cmp(next).is_ge())
}
