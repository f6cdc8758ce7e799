//! Names of a message beside names that were asked.
ghost use Rattle.std.specs.Prelude.{◌≡◌, true};
ghost use Rattle.dns_names_wire.specs.Words.{is_in, is_same};
ghost use Rattle.ans_response.specs.Meanings.{is_strictly_below};

use dns_names_wire::{Name, NameRef};

/// Returns `true` if names are the same, ignoring ASCII case.
#[tactic(auto, unfolding(dns_names_wire::specs::Words::is_same))]
pub(crate) fn is_same(name: &NameRef<'_>, other: &Name) -> bool
    ensures { result ≡ is_same name.now other.now.labels }
{
    name.cmp_name(other).is_eq()
}

/// Returns `true` if a name is in a zone.
pub(crate) fn is_in(zone: &Name, name: &NameRef<'_>) -> bool
    ensures { result ≡ is_in zone.now.labels name.now }
{
    name.zone_of(zone)
}

/// Returns `true` if a name is in a zone whose name is in a message.
pub(crate) fn is_within(zone: &NameRef<'_>, name: &Name) -> bool
    ensures { result ≡ is_in zone.now name.now.labels }
{
    is_in(&copy_of(zone, name), &name.as_name_ref())
}

/// Returns `true` if a name is below another one.
#[tactic(auto, unfolding(crate::specs::Meanings::is_strictly_below))]
pub(crate) fn is_below(above: &Name, name: &NameRef<'_>) -> bool
    ensures { result ≡ is_strictly_below above.now.labels name.now }
{
    is_in(above, name) && above.as_name_ref().num_labels() < name.num_labels()
}

/// Returns `true` if a name is below another one, which is in a message.
#[tactic(auto, unfolding(crate::specs::Meanings::is_strictly_below))]
pub(crate) fn is_above(above: &NameRef<'_>, name: &Name) -> bool
    ensures { result ≡ is_strictly_below above.now name.now.labels }
{
    is_within(above, name) && above.num_labels() < name.as_name_ref().num_labels()
}

/// Copies a name of a message. It allocates nothing, as any other name has the room.
pub(crate) fn copy_of(name: &NameRef<'_>, other: &Name) -> Name
    ensures { result.labels ≡ name.now }
{
    let mut copy = other.copied();
    name.clone_into(&mut copy);
    copy
}
