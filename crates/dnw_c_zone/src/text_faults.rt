//! Where the texts of records and data go wrong.
ghost use Rattle.std.specs.Prelude.{◌≡◌, ◌≤◌, IfOk, IfErr, length, drop};
ghost use Rattle.dnw_c_base.specs.Results.{Returns};
ghost use Rattle.dnw_zone_data.specs.Words.{word};
ghost use Rattle.dnw_c_zone.specs.FaultCalls.{FindsDataFault, FindsRecordFault, PutsSentence, fault_at, fault_of_data, fault_of_entry, fault_of_line, no_fault, reason_of_rule, reason_of_wanted};

use crate::parsing::origin_of;
use crate::reason::{Reason, sentence_of};
use dnw_base::dns_class::DNSClass;
use dnw_base::record_type::RecordType;
use dnw_c_base::buffer::put;
use dnw_c_base::failure::Failure;
use dnw_c_base::results::report;
use dnw_zone_data::error::{DataTextError, Wanted};
use dnw_zone_data::words::split_word;
use dnw_zone_record::data_entry::parse_data;
use dnw_zone_record::entry::{RecordEntryError, parse_entry};
use dnw_zone_record::record_line::RecordLineError;
use dnw_zone_record::word_error::WordRule;
use std::alloc::Global;

/// Where a text goes wrong: the offset, the number of octets of the word there, the number of the field of data, and the number
/// of the reason, which is 0 if nothing is wrong.
#[repr(C)]
#[derive(Clone, Copy)]
pub struct TextFault {
    pub offset: usize,
    pub len: usize,
    pub field: usize,
    pub reason: u32,
}

/// Stores where a text goes wrong that is to be a record, as `dnw_record_parse` takes it.
#[unsafe(no_mangle)]
pub extern "C" fn dnw_record_text_fault(
    alloc: Global,
    text: &[u8],
    origin: &[u8],
    fault: &mut TextFault,
) -> u32
    ensures { Returns (FindsRecordFault text.now origin.now) fault.old fault.new result }
{
    report(record_fault(alloc, text, origin), fault)
}

/// Stores where a text goes wrong that is to be data, as `dnw_data_parse` takes it.
#[unsafe(no_mangle)]
pub extern "C" fn dnw_data_text_fault(
    alloc: Global,
    record_type: u16,
    class: u16,
    text: &[u8],
    origin: &[u8],
    fault: &mut TextFault,
) -> u32
    ensures { Returns (FindsDataFault record_type class text.now origin.now) fault.old fault.new result }
{
    report(data_fault(alloc, record_type, class, text, origin), fault)
}

/// Puts a sentence about where a text goes wrong. It is empty if nothing is wrong.
#[unsafe(no_mangle)]
pub extern "C" fn dnw_text_fault_print(
    alloc: Global,
    fault: &TextFault,
    text: &mut [u8],
    len: &mut usize,
) -> u32
    ensures { Returns (PutsSentence fault.now text.old text.new) len.old len.new result }
{
    report(put_sentence(alloc, *fault, text), len)
}

/// Puts the sentence about a fault, and returns its length.
fn put_sentence(alloc: Global, fault: TextFault, text: &mut [u8]) -> Result<usize, Failure>
    ensures { PutsSentence fault text.old text.new result }
{
    match sentence_of(alloc, fault.offset, fault.field, fault.reason) {
        Ok(sentence) => put(text, sentence.as_bytes()),
        Err(_) => Err(Failure::NoMemory),
    }
}

/// Returns where a text goes wrong that is to be a record.
fn record_fault(alloc: Global, text: &[u8], form: &[u8]) -> Result<TextFault, Failure>
    ensures { FindsRecordFault text.now form.now result }
{
    let origin = match origin_of(alloc, form) {
        Ok(origin) => origin,
        Err(failure) => return Err(failure),
    };
    match parse_entry(alloc, text, origin.as_ref()) {
        Ok(_) => Ok(no_fault()),
        Err(error) => fault_of_entry(text, &error),
    }
}

/// Returns where a text goes wrong that is to be data.
fn data_fault(
    alloc: Global,
    record_type: u16,
    class: u16,
    text: &[u8],
    form: &[u8],
) -> Result<TextFault, Failure>
    ensures { FindsDataFault record_type class text.now form.now result }
{
    let origin = match origin_of(alloc, form) {
        Ok(origin) => origin,
        Err(failure) => return Err(failure),
    };
    let class = DNSClass::from(class);
    let record_type = RecordType::from(record_type);
    match parse_data(alloc, class, record_type, text, origin.as_ref()) {
        Ok(_) => Ok(no_fault()),
        Err(error) => fault_of_entry(text, &error),
    }
}

/// Returns what is stored if nothing is wrong.
pub(crate) fn no_fault() -> TextFault
    ensures { result ≡ no_fault }
{
    TextFault {
        offset: 0,
        len: 0,
        field: 0,
        reason: 0,
    }
}

/// Returns the fault of a text at an offset.
pub(crate) fn fault_at(text: &[u8], offset: usize, field: usize, reason: Reason) -> TextFault
    ensures { result ≡ fault_at text.now offset field reason }
{
    let (word, _) = split_word(left_of(text, offset));
    TextFault {
        offset,
        len: word.len(),
        field,
        reason: reason.number(),
    }
}

/// Returns what is left of a text from an offset on, which is nothing past the end.
pub(crate) fn left_of(text: &[u8], offset: usize) -> &[u8]
    ensures { result.now ≡ drop offset text.now }
{
    &text[offset.min(text.len())..]
}

/// Returns where a text goes wrong by why it is no record.
fn fault_of_entry(text: &[u8], error: &RecordEntryError) -> Result<TextFault, Failure>
    ensures { result ≡ fault_of_entry text.now error.now }
{
    match error {
        RecordEntryError::Words { offset, rule } => {
            Ok(fault_at(text, *offset, 0, reason_of_rule(*rule)))
        }
        RecordEntryError::MoreEntries { offset } => {
            Ok(fault_at(text, *offset, 0, Reason::MoreEntries))
        }
        RecordEntryError::Line(error) => fault_of_line(text, error),
        RecordEntryError::Memory => Err(Failure::NoMemory),
    }
}

/// Returns where a text goes wrong by why its line is no record.
pub(crate) fn fault_of_line(text: &[u8], error: &RecordLineError) -> Result<TextFault, Failure>
    ensures { result ≡ fault_of_line text.now error.now }
{
    match error {
        RecordLineError::NoOwner => Ok(fault_at(text, 0, 0, Reason::NoOwner)),
        RecordLineError::NoTimeToLive { offset } => {
            Ok(fault_at(text, *offset, 0, Reason::NoTimeToLive))
        }
        RecordLineError::NoType { offset } => Ok(fault_at(text, *offset, 0, Reason::NoType)),
        RecordLineError::Data(error) => fault_of_data(text, error),
        RecordLineError::TooLong { offset } => Ok(fault_at(text, *offset, 0, Reason::TooLong)),
        RecordLineError::Memory => Err(Failure::NoMemory),
    }
}

/// Returns where a text goes wrong by why it is no data.
fn fault_of_data(text: &[u8], error: &DataTextError) -> Result<TextFault, Failure>
    ensures { result ≡ fault_of_data text.now error.now }
{
    match error {
        DataTextError::Wanted {
            field,
            offset,
            wanted,
        } => Ok(fault_at(text, *offset, *field, reason_of_wanted(*wanted))),
        DataTextError::Memory => Err(Failure::NoMemory),
    }
}

/// Returns the reason for a rule that a text is against.
pub(crate) fn reason_of_rule(rule: WordRule) -> Reason
    ensures { result ≡ reason_of_rule rule }
{
    match rule {
        WordRule::NestedParenthesis => Reason::NestedParenthesis,
        WordRule::UnopenedParenthesis => Reason::UnopenedParenthesis,
        WordRule::UnclosedParenthesis => Reason::UnclosedParenthesis,
        WordRule::UnclosedQuote => Reason::UnclosedQuote,
        WordRule::UnfinishedEscape => Reason::UnfinishedEscape,
    }
}

/// Returns the reason for what was wanted of a field.
pub(crate) fn reason_of_wanted(wanted: Wanted) -> Reason
    ensures { result ≡ reason_of_wanted wanted }
{
    match wanted {
        Wanted::Name => Reason::Name,
        Wanted::U8 => Reason::U8,
        Wanted::U16 => Reason::U16,
        Wanted::U32 => Reason::U32,
        Wanted::Period => Reason::Period,
        Wanted::Algorithm => Reason::Algorithm,
        Wanted::CertificateType => Reason::CertificateType,
        Wanted::Time => Reason::Time,
        Wanted::Ipv4 => Reason::Ipv4,
        Wanted::Ipv6 => Reason::Ipv6,
        Wanted::Eui48 => Reason::Eui48,
        Wanted::Eui64 => Reason::Eui64,
        Wanted::TypeCode => Reason::TypeCode,
        Wanted::CharacterString => Reason::CharacterString,
        Wanted::Tag => Reason::Tag,
        Wanted::Salt => Reason::Salt,
        Wanted::Hash => Reason::Hash,
        Wanted::Text => Reason::Text,
        Wanted::Hexadecimal => Reason::Hexadecimal,
        Wanted::Base64 => Reason::Base64,
        Wanted::Strings => Reason::Strings,
        Wanted::Types => Reason::Types,
        Wanted::Params => Reason::Params,
        Wanted::Scheme => Reason::Scheme,
        Wanted::Names => Reason::Names,
        Wanted::Gateway => Reason::Gateway,
        Wanted::Relay => Reason::Relay,
        Wanted::HostIdentity => Reason::HostIdentity,
        Wanted::Location => Reason::Location,
        Wanted::Locator => Reason::Locator,
        Wanted::NodeNumber => Reason::NodeNumber,
        Wanted::Nsap => Reason::Nsap,
        Wanted::Prefixes => Reason::Prefixes,
        Wanted::Protocol => Reason::Protocol,
        Wanted::Ports => Reason::Ports,
        Wanted::OldTypes => Reason::OldTypes,
        Wanted::Mandatory => Reason::Mandatory,
        Wanted::FewerOctets => Reason::TooLong,
        Wanted::Generic => Reason::Generic,
        Wanted::Size => Reason::Size,
        Wanted::Octets(_) => Reason::Octets,
        Wanted::Data => Reason::Data,
        Wanted::End => Reason::End,
    }
}
