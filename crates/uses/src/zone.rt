//! Finds names in a zone.
ghost use Rattle.std.specs.Prelude.{◌≡◌, ℕ, IfSome, IfNone, Some, slice_get};
ghost use Rattle.std.specs.List.{AllByRecursion};
ghost use Rattle.dns_names_wire.specs.Words.{NameValue, IsZoneOf};

use dns_names_wire::Name;

/// Returns the index of the first name in a zone, if there is one (RFC 1034, section 4.2).
pub fn first_in_zone(names: &[Name], zone: &Name) -> Option<usize>
    ensures some { IfSome result (λ index. (name : NameValue) × (slice_get names.now index ≡ Some name)
        × IsZoneOf zone.now.labels name.labels) }
    ensures none { IfNone result (AllByRecursion (λ name. ¬ (IsZoneOf zone.now.labels name.labels)) names.now) }
{
    for (index, name) in names.iter().enumerate() {
        if name.as_name_ref().is_in(zone) {
            return Some(index);
        }
    }
    None
}
