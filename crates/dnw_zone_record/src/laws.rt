//! What is printed of a record is parsed as the same, and no text is two.
//!
//! The functions do nothing. Each is there for its clauses. Those of data and of service parameters are passed on.
ghost use Rattle.dnw_zone_data.specs.DataTextLaws.{DataAreUnambiguous, PrintedDataAreSame};
ghost use Rattle.dnw_zone_record.specs.RecordTextLaws.{LinesAreUnambiguous, LinesComeBack, PrintedLinesAreSame};

pub use dnw_zone_data::laws::{data_come_back, fields_come_back, generic_comes_back};
pub use dnw_zone_values::param_laws::params_come_back;

/// A record that is printed as a line round-trips.
pub fn lines_come_back()
    ensures { LinesComeBack }
{}

/// No text is two lists of octets, and no line is two records. So what is printed of data or of a record is parsed as the same,
/// unless the data have more octets than data may have.
pub fn texts_are_unambiguous()
    ensures data { DataAreUnambiguous }
    ensures printed { PrintedDataAreSame }
    ensures lines { LinesAreUnambiguous }
    ensures printed_lines { PrintedLinesAreSame }
{}
