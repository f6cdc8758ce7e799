//! What follows from the definitions of records, for callers' proofs: of those whose data are bytes or one name, and of data of any
//! type.
//!
//! The functions do nothing. Each is there for its clauses.
ghost use Rattle.dnw_write_script.specs.RecordLaws.{RefusedRecordsUndo, RefusedDataUndo, RecordsFit, RecordsLie, RecordsAreRead};
ghost use Rattle.dnw_write_script.specs.RecordLaws.{PartPrecedes, PartsPrecede, CountedPrecede, DataPrecede, RecordsPrecede};
ghost use Rattle.dnw_write_script.specs.RecordLaws.{PartStaysBounded, PartsStayBounded, CountedStayBounded, DataStayBounded, RecordsStayBounded};

pub use dnw_record::laws::data_have_fields;

/// A record that is refused leaves the whole encoder unchanged, the count of names included, if it began at the buffer's
/// end with every candidate before it. So do refused data on any encoder.
pub fn refused_records_undo()
    ensures record { RefusedRecordsUndo }
    ensures data { RefusedDataUndo }
{}

/// Parts, data and records keep every candidate before the offset, whether they are written or refused; see
/// `dnw_write::encoder::laws::candidates_precede` for a new encoder and other writes.
pub fn candidates_precede()
    ensures part { PartPrecedes }
    ensures parts { PartsPrecede }
    ensures counted { CountedPrecede }
    ensures data { DataPrecede }
    ensures records { RecordsPrecede }
{}

/// Parts, data and records leave the buffer no longer than it was, or than the maximum, and the offset within it.
pub fn records_stay_bounded()
    ensures part { PartStaysBounded }
    ensures parts { PartsStayBounded }
    ensures counted { CountedStayBounded }
    ensures data { DataStayBounded }
    ensures records { RecordsStayBounded }
{}

/// A record is refused for its size only if it would go past the maximum size with its names whole: the size of its owner,
/// ten octets, and the size of its data. It takes no more bytes than that.
pub fn records_fit()
    ensures records { RecordsFit }
{}

/// A record that is written at the buffer's end is there at once: its owner, its fields with the number of octets of its
/// data, and its data if they are bytes. What is there is read as a record.
pub fn records_come_back()
    ensures lie { RecordsLie }
    ensures read { RecordsAreRead }
{}
