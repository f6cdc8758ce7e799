//! What is printed of a location is parsed as the same octets.
//!
//! The function does nothing. It is there for its clauses.
ghost use Rattle.std.specs.Prelude.{◌≡◌, ℕ, List};
ghost use Rattle.dnw_zone_values.specs.declared.location.Location.{Location};
ghost use Rattle.dnw_zone_values.specs.Locations.{AreLocationWords};
ghost use Rattle.dnw_zone_values.specs.LocationLaws.{LocationsComeBack};

/// Locations round-trip, and words are one location at most.
pub fn locations_come_back()
    ensures back { LocationsComeBack }
    ensures one { (words : List (List ℕ)) (a b : Location) → AreLocationWords words a → AreLocationWords words b → a ≡ b }
{}
