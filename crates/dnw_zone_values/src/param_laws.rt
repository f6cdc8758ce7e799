//! What is printed of service parameters is parsed as the same.
//!
//! The function does nothing. It is there for its clause.
ghost use Rattle.dnw_zone_values.specs.ParamLaws.{ParamsComeBack};

/// Parameters round-trip.
pub fn params_come_back()
    ensures { ParamsComeBack }
{}
