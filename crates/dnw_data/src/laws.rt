//! What follows from the definitions of fields, for callers' proofs.
//!
//! The functions do nothing. Each is there for its clauses.
ghost use Rattle.dnw_data.specs.DataLaws.{SomeReading, OneReading, FieldsAreWalked};

/// Octets are fields of any kinds in exactly one way: their values, and the first error if there is one.
pub fn one_reading()
    ensures some { SomeReading }
    ensures one { OneReading }
{}

/// The iterator over fields yields the values of the fields that the data are, and then the first error, with the number of
/// its field.
pub fn fields_are_walked()
    ensures { FieldsAreWalked }
{}
