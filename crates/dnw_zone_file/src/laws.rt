//! What is written of records is read as the same records.
//!
//! The functions do nothing. Each is there for its clauses. That of lines is passed on.
ghost use Rattle.dnw_zone_file.specs.WriterLaws.{LinesAreEntries, LinesAreReadBack, NothingIsWritten, OriginsAreAdded, OriginsAreEntries, ZoneRecordsAreAdded, ShortLinesAreEntries, ShortLinesAreReadBack, TtlsAreAdded, TtlsAreEntries, WrittenTextsAreRecords};

pub use dnw_zone_record::word_laws::windows_agree;

/// A record that is written begins a text whose first entry is that record, and no other.
pub fn written_records_are_entries()
    ensures entries { LinesAreEntries }
    ensures back { LinesAreReadBack }
{}

/// A record that is written after other entries, by what they say, begins a text whose first entry is that record, and no other.
pub fn short_records_are_entries()
    ensures entries { ShortLinesAreEntries }
    ensures back { ShortLinesAreReadBack }
    ensures origins { OriginsAreEntries }
    ensures ttls { TtlsAreEntries }
{}

/// A text that is written record by record is a zone file of these records.
pub fn written_texts_are_records()
    ensures empty { NothingIsWritten }
    ensures records { ZoneRecordsAreAdded }
    ensures origins { OriginsAreAdded }
    ensures ttls { TtlsAreAdded }
    ensures whole { WrittenTextsAreRecords }
{}
