//! Names of a message beside those of a key.
ghost use Rattle.std.specs.Prelude.{◌≡◌};
ghost use Rattle.dns_names_wire.specs.Words.{is_same};

use dns_names_wire::{Name, NameRef};

/// Returns `true` if names are the same, ignoring ASCII case.
#[tactic(auto, unfolding(dns_names_wire::specs::Words::is_same))]
pub(crate) fn is_same(name: &NameRef<'_>, other: &Name) -> bool
    ensures { result ≡ is_same name.now other.now.labels }
{
    name.cmp_name(other).is_eq()
}
