//! Records and data that are texts.
ghost use Rattle.std.specs.Prelude.{◌≡◌, IfOk, IfErr};
ghost use Rattle.dnw_base.specs.DnsClasses.{class_of_code};
ghost use Rattle.dnw_base.specs.RecordTypes.{type_of_code};
ghost use Rattle.dnw_c_base.specs.WireForms.{IsFormOf, IsNoForm};
ghost use Rattle.dnw_c_base.specs.Results.{Returns};
ghost use Rattle.dnw_zone_record.specs.RecordEntries.{IsRecordEntry};
ghost use Rattle.dnw_zone_record.specs.DataEntries.{IsDataEntry};
ghost use Rattle.dnw_c_zone.specs.ParseCalls.{IsNoOrigin, IsOrigin, LacksDataText, LacksRecordText, PutsData, PutsParsedRecord, of_entry, of_line, failure_of_rule};

use dnw_base::dns_class::DNSClass;
use dnw_base::record_type::RecordType;
use dnw_c_base::buffer::put;
use dnw_c_base::failure::Failure;
use dnw_c_base::names::name_ref_at;
use dnw_c_base::results::report;
use dnw_name::name::Name;
use dnw_name::name_ref::NameRef;
use dnw_zone_record::data_entry::parse_data;
use dnw_zone_record::entry::{RecordEntryError, parse_entry};
use dnw_zone_record::record_line::RecordLineError;
use dnw_zone_record::word_error::WordRule;
use std::alloc::Global;

/// Puts the octets of the data that a text is, with comments and parentheses, for the type and the class with these codes. The origin is a wire form, or no octets for none.
#[unsafe(no_mangle)]
pub extern "C" fn dnw_data_parse(
    alloc: Global,
    record_type: u16,
    class: u16,
    text: &[u8],
    origin: &[u8],
    octets: &mut [u8],
    len: &mut usize,
) -> u32
    ensures { Returns (PutsData record_type class text.now origin.now octets.old octets.new) len.old len.new result }
{
    let put = put_data(alloc, record_type, class, text, origin, octets);
    report(put, len)
}

/// Puts the octets of the record that a text of a master file is, with comments and parentheses. The origin is a wire form, or no octets for none.
#[unsafe(no_mangle)]
pub extern "C" fn dnw_record_parse(
    alloc: Global,
    text: &[u8],
    origin: &[u8],
    octets: &mut [u8],
    len: &mut usize,
) -> u32
    ensures { Returns (PutsParsedRecord text.now origin.now octets.old octets.new) len.old len.new result }
{
    report(put_record(alloc, text, origin, octets), len)
}

/// Puts data, and returns the number of their octets.
fn put_data(
    alloc: Global,
    record_type: u16,
    class: u16,
    text: &[u8],
    form: &[u8],
    octets: &mut [u8],
) -> Result<usize, Failure>
    ensures { PutsData record_type class text.now form.now octets.old octets.new result }
{
    let origin = origin_of(alloc, form)?;
    let own = own_data(alloc, record_type, class, text, &origin)?;
    put(octets, own.as_slice())
}

/// Puts a record, and returns the number of its octets.
fn put_record(alloc: Global, text: &[u8], form: &[u8], octets: &mut [u8]) -> Result<usize, Failure>
    ensures { PutsParsedRecord text.now form.now octets.old octets.new result }
{
    let origin = origin_of(alloc, form)?;
    let own = record_of(alloc, text, &origin)?;
    put(octets, own.as_slice())
}

/// Returns the name that a wire form is, or none for no octets.
pub(crate) fn origin_of(alloc: Global, form: &[u8]) -> Result<Option<Name>, Failure>
    ensures ok { IfOk result (IsOrigin form.now) }
    ensures err { IfErr result (IsNoOrigin form.now) }
{
    if form.is_empty() {
        return Ok(None);
    }
    let name = ref_of(form)?;
    Ok(Some(name.to_name(alloc).unwrap()))
}

/// Returns the name that a wire form is, without a copy.
pub(crate) fn ref_of(form: &[u8]) -> Result<NameRef<'_>, Failure>
    ensures ok { IfOk result (λ name. IsFormOf form.now name) }
    ensures err { IfErr result (IsNoForm form.now) }
{
    let (name, end) = name_ref_at(form, 0)?;
    if end != form.len() {
        return Err(Failure::BytesLeft);
    }
    Ok(name)
}

/// Returns the octets of data of the type and the class with these codes.
fn own_data(
    alloc: Global,
    record_type: u16,
    class: u16,
    text: &[u8],
    origin: &Option<Name>,
) -> Result<Vec<u8>, Failure>
    ensures ok { IfOk result (λ own. IsDataEntry origin.now (class_of_code class) (type_of_code record_type) text.now own.items) }
    ensures err { IfErr result (LacksDataText origin.now (class_of_code class) (type_of_code record_type) text.now) }
{
    let class = DNSClass::from(class);
    let record_type = RecordType::from(record_type);
    match parse_data(alloc, class, record_type, text, origin.as_ref()) {
        Ok(own) => Ok(own),
        Err(error) => Err(of_entry(&error)),
    }
}

/// Returns the octets of a record.
fn record_of(alloc: Global, text: &[u8], origin: &Option<Name>) -> Result<Vec<u8>, Failure>
    ensures ok { IfOk result (λ own. IsRecordEntry origin.now text.now own.items) }
    ensures err { IfErr result (LacksRecordText origin.now text.now) }
{
    match parse_entry(alloc, text, origin.as_ref()) {
        Ok(own) => Ok(own),
        Err(error) => Err(of_entry(&error)),
    }
}

/// Returns the failure that stands for why a text is no record.
fn of_entry(error: &RecordEntryError) -> Failure
    ensures { result ≡ of_entry error.now }
{
    match error {
        RecordEntryError::Words { offset: _, rule } => failure_of_rule(*rule),
        RecordEntryError::MoreEntries { offset: _ } => Failure::BadData,
        RecordEntryError::Line(error) => of_line(error),
        RecordEntryError::Memory => Failure::NoMemory,
    }
}

/// Returns the failure that stands for a rule that a text is against.
fn failure_of_rule(rule: WordRule) -> Failure
    ensures { result ≡ failure_of_rule rule }
{
    match rule {
        WordRule::NestedParenthesis | WordRule::UnopenedParenthesis => Failure::IllegalCharacter,
        WordRule::UnclosedParenthesis => Failure::UnclosedList,
        WordRule::UnclosedQuote => Failure::UnclosedQuote,
        WordRule::UnfinishedEscape => Failure::TextCut,
    }
}

/// Returns the failure that stands for why a line is no record.
fn of_line(error: &RecordLineError) -> Failure
    ensures { result ≡ of_line error.now }
{
    match error {
        RecordLineError::NoOwner => Failure::BadText,
        RecordLineError::NoTimeToLive { offset: _ } => Failure::BadTime,
        RecordLineError::NoType { offset: _ } => Failure::UnknownText,
        RecordLineError::Data(_) | RecordLineError::TooLong { offset: _ } => Failure::BadData,
        RecordLineError::Memory => Failure::NoMemory,
    }
}
