//! Data as they stand in entries of master files, with comments and parentheses (RFC 1035, section 5.1).
ghost use Rattle.std.specs.Prelude.{◌≡◌, ◌≤◌, length, IfOk, IfErr};
ghost use Rattle.std.specs.Option.{option_copied};
ghost use Rattle.dnw_zone_record.specs.DataEntries.{FailsDataEntry, FailsDataLine, IsDataEntry};
ghost use Rattle.dnw_zone_record.specs.Lines.{line_of};
ghost use Rattle.dnw_zone_record.specs.RecordLines.{IsDataOf};

use crate::entry::{RecordEntryError, is_blank_rest};
use crate::record_line::data_of;
use crate::scan::{Ending, plain_line, scan};
use dnw_base::dns_class::DNSClass;
use dnw_base::record_type::RecordType;
use dnw_name::name::Name;
use std::alloc::Global;

/// Returns the octets of the data that a text is, for a class and a type, as `data_of` returns those of a line. The text may have
/// comments, and parentheses in which the ends of lines are white space. It is one entry: nothing but white space is after its line.
pub fn parse_data(
    alloc: Global,
    class: DNSClass,
    record_type: RecordType,
    text: &[u8],
    origin: Option<&Name>,
) -> Result<Vec<u8>, RecordEntryError>
    ensures ok { IfOk result (λ own. IsDataEntry (option_copied origin.entry) class record_type text.now own.items) }
    ensures err { IfErr result (FailsDataEntry (option_copied origin.entry) class record_type text.now) }
{
    if let Some((line, ending)) = plain_line(text) {
        return ended_data(alloc, class, record_type, text, line, ending, origin);
    }
    let mut line = Vec::new(alloc);
    let Ok(ending) = scan(text, &mut line) else {
        return Err(RecordEntryError::Memory);
    };
    ended_data(
        alloc,
        class,
        record_type,
        text,
        line.as_slice(),
        ending,
        origin,
    )
}

/// Returns the octets of the data that a text is, of which this is the line and how it ends.
fn ended_data(
    alloc: Global,
    class: DNSClass,
    record_type: RecordType,
    text: &[u8],
    line: &[u8],
    ending: Ending,
    origin: Option<&Name>,
) -> Result<Vec<u8>, RecordEntryError>
    requires line { line_of text.now ≡ (line.now, ending) }
    requires within { length line.now ≤ length text.now }
    ensures ok { IfOk result (λ own. IsDataEntry (option_copied origin.entry) class record_type text.now own.items) }
    ensures err { IfErr result (FailsDataEntry (option_copied origin.entry) class record_type text.now) }
{
    let offset = line.len();
    match ending {
        Ending::Cut(rule) | Ending::Wrong(rule) => Err(RecordEntryError::Words { offset, rule }),
        Ending::Line if !is_blank_rest(&text[offset..]) => Err(RecordEntryError::MoreEntries {
            offset,
        }),
        Ending::Line | Ending::Text => line_data(alloc, class, record_type, line, origin),
    }
}

/// Returns the octets of the data that a line is, in which no comments and parentheses are.
fn line_data(
    alloc: Global,
    class: DNSClass,
    record_type: RecordType,
    line: &[u8],
    origin: Option<&Name>,
) -> Result<Vec<u8>, RecordEntryError>
    ensures ok { IfOk result (λ own. IsDataOf (option_copied origin.entry) class record_type line.now own.items) }
    ensures err { IfErr result (FailsDataLine (option_copied origin.entry) class record_type line.now) }
{
    match data_of(alloc, class, record_type, line.len(), line, origin) {
        Ok(octets) => Ok(octets),
        Err(error) => Err(RecordEntryError::Line(error)),
    }
}
