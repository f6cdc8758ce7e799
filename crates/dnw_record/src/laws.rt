//! What follows from the definition of the data of records, for callers' proofs.
//!
//! The function does nothing. It is there for its clause.
ghost use Rattle.dnw_record.specs.PieceLaws.{DataHaveFields};

/// The octets of data have pieces in one way, and their fields are the values of these, with no error.
pub fn data_have_fields()
    ensures { DataHaveFields }
{}
