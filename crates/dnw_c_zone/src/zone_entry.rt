//! What C learns of an entry of a zone file.
ghost use Rattle.std.specs.Prelude.{◌≡◌, ◌≤◌, ◌++◌, ℕ, ◌+◌, List, length, take, drop, IfOk, IfErr, IfSome, IfNone};
ghost use Rattle.dnw_base.specs.Limits.{max_data, max_name};
ghost use Rattle.dnw_c_zone.specs.Inside.RecordHeads.{record_head};
ghost use Rattle.dnw_c_zone.specs.Inside.StateResults.{with_entry};
ghost use Rattle.dnw_name_read.specs.Buffers.{put};
ghost use Rattle.dnw_c_base.specs.declared.failure.Failure.TheVariants.{NoMemory};
ghost use Rattle.dnw_c_zone.specs.ZoneStates.{owner_form};
ghost use Rattle.dnw_c_zone.specs.ZoneEntries.{IsFile, PutsFile, PutsFound, PutsInclude, PutsRecord, fault_entry, fault_in, has_zero, is_file_name, no_file, plain_entry, reason_of_zone_rule, zone_record_octets};

use crate::reason::Reason;
use crate::text_faults::{TextFault, fault_at, fault_of_line, left_of, no_fault, reason_of_rule};
use crate::zone_place::{FilePlace, moved};
use crate::zone_state::owner_form;
use dnw_base::limits::MAX_DATA;
use dnw_c_base::buffer::put;
use dnw_c_base::failure::Failure;
use dnw_zone_file::context::Context;
use dnw_zone_file::entry::{Entry, Include, ZoneRecord};
use dnw_zone_file::error::{ZoneError, ZoneRule};
use dnw_zone_file::step::{Found, Step};
use dnw_zone_values::error::FieldTextError;
use dnw_zone_values::string::parse_text;
use std::alloc::{AllocError, Global};
use std::str;

/// The number of octets of a record between its owner and its data (RFC 1035, section 3.2.1).
const HEAD: usize = 10;

/// What the text of a zone file begins with, as C learns it.
#[repr(C)]
#[derive(Clone, Copy)]
pub struct ZoneEntry {
    /// What it is: 0 for the end of the text, 1 for a part of an entry, 2 for an entry without a record, 3 for a record, 4 for an
    /// `$INCLUDE`, and 5 for an error.
    pub kind: u32,
    /// How many octets of the text it takes.
    pub used: usize,
    /// The offset of the entry in the file, or of what is wrong in it.
    pub offset: usize,
    /// Its line, from 1.
    pub line: usize,
    /// Its column in octets, from 1.
    pub column: usize,
    /// Where the text goes wrong, and why.
    pub fault: TextFault,
    /// How many octets are put.
    pub len: usize,
    /// How many of them are the owner's, or the origin's of an `$INCLUDE`.
    pub name_len: usize,
    /// How many of them, at their end, are the data, or the name of a file.
    pub data_len: usize,
    /// The time to live of a record.
    pub ttl: u32,
    /// The type of a record.
    pub record_type: u16,
    /// The class of a record.
    pub record_class: u16,
}

/// Puts what a text begins with that begins at a place, and stores what C learns of it. It is not made elsewhere and moved.
pub(crate) fn put_found(
    alloc: Global,
    at: FilePlace,
    text: &[u8],
    context: &Context,
    step: &Step,
    octets: &mut [u8],
    entry: &mut ZoneEntry,
) -> Result<(), Failure>
    ensures puts { PutsFound at text.now context.now step.now.used step.now.found octets.old octets.new (with_entry result entry.new) }
    ensures same { IfErr result (λ _. entry.new ≡ entry.old) }
{
    let used = step.used;
    match &step.found {
        Ok(Found::End) => put_plain(entry, at, 0, used),
        Ok(Found::More) => put_plain(entry, at, 1, used),
        Ok(Found::Entry(Entry::Nothing)) => put_plain(entry, at, 2, used),
        Ok(Found::Entry(Entry::Record(found))) => {
            return put_record(at, used, context, found, octets, entry);
        }
        Ok(Found::Entry(Entry::Include(include))) => {
            *entry = put_include(alloc, at, used, text, include, octets)?;
        }
        Err(error) => {
            let fault = fault_in(text, error)?;
            *entry = fault_entry(at, text, used, fault);
        }
    }
    Ok(())
}

/// Stores what C learns of what puts nothing.
fn put_plain(entry: &mut ZoneEntry, at: FilePlace, kind: u32, used: usize)
    ensures { entry.new ≡ plain_entry at kind used }
{
    *entry = plain_entry(at, kind, used);
}

/// Returns what C learns of what puts nothing.
fn plain_entry(at: FilePlace, kind: u32, used: usize) -> ZoneEntry
    ensures { result ≡ plain_entry at kind used }
{
    ZoneEntry {
        kind,
        used,
        offset: at.offset,
        line: at.line.saturating_add(1),
        column: at.column.saturating_add(1),
        fault: no_fault(),
        len: 0,
        name_len: 0,
        data_len: 0,
        ttl: 0,
        record_type: 0,
        record_class: 0,
    }
}

/// Puts a record: its owner, type, class, time to live, and data after their length.
fn put_record(
    at: FilePlace,
    used: usize,
    context: &Context,
    found: &ZoneRecord,
    octets: &mut [u8],
    entry: &mut ZoneEntry,
) -> Result<(), Failure>
    ensures puts { PutsRecord at used (owner_form context.now.owner) found.now octets.old octets.new (with_entry result entry.new) }
    ensures same { IfErr result (λ _. entry.new ≡ entry.old) }
{
    let owner = owner_form(context);
    if found.wire.len() > MAX_DATA {
        return Err(Failure::DataTooLong);
    }
    let len = owner.len() + HEAD + found.wire.len();
    if octets.len() < len {
        return Err(Failure::NoRoom);
    }
    put_pieces(octets, owner, &record_head(found), found.wire.as_slice());
    put_plain(entry, at, 3, used);
    entry.len = len;
    entry.name_len = owner.len();
    entry.data_len = found.wire.len();
    entry.ttl = found.ttl;
    entry.record_type = found.record_type.code();
    entry.record_class = found.class.code();
    Ok(())
}

/// Returns the octets of a record between its owner and its data.
pub(crate) fn record_head(found: &ZoneRecord) -> [u8; HEAD]
    requires data { length found.now.wire.items ≤ max_data }
    ensures { result ≡ record_head found.now }
{
    let [a, b] = found.record_type.code().to_be_bytes();
    let [c, d] = found.class.code().to_be_bytes();
    let [e, f, g, h] = found.ttl.to_be_bytes();
    let [i, j] = (found.wire.len() as u16).to_be_bytes();
    [a, b, c, d, e, f, g, h, i, j]
}

/// Puts three pieces, one after another, at the front of a buffer.
pub(crate) fn put_pieces(buffer: &mut [u8], first: &[u8], second: &[u8], third: &[u8])
    requires { length first.now + length second.now + length third.now ≤ length buffer.old }
    ensures { buffer.new ≡ put buffer.old (first.now ++ second.now ++ third.now) }
{
    put_at(buffer, 0, first);
    put_at(buffer, first.len(), second);
    put_at(buffer, first.len() + second.len(), third);
}

/// Puts octets at an offset of a buffer.
fn put_at(buffer: &mut [u8], start: usize, octets: &[u8])
    requires { start + length octets.now ≤ length buffer.old }
    ensures { buffer.new ≡ take start buffer.old ++ octets.now ++ drop (start + length octets.now) buffer.old }
{
    buffer[start..start + octets.len()].copy_from_slice(octets);
}

/// Puts an `$INCLUDE`: its origin, and the name of its file.
fn put_include(
    alloc: Global,
    at: FilePlace,
    used: usize,
    text: &[u8],
    include: &Include,
    octets: &mut [u8],
) -> Result<ZoneEntry, Failure>
    ensures { PutsInclude at used text.now include.now octets.old octets.new result }
{
    match file_of(alloc, part_of(text, include.file, include.file_len)) {
        Ok(Some(file)) => put_file(alloc, at, used, include, &file, octets),
        Ok(None) => Ok(fault_entry(at, text, used, no_file(text, include.file))),
        Err(failure) => Err(failure),
    }
}

/// Puts the origin of an `$INCLUDE`, and the name of its file.
fn put_file(
    alloc: Global,
    at: FilePlace,
    used: usize,
    include: &Include,
    file: &Vec<u8>,
    octets: &mut [u8],
) -> Result<ZoneEntry, Failure>
    ensures { PutsFile at used include.now file.now.items octets.old octets.new result }
{
    let origin = include.origin.as_wire();
    let Ok(own) = joined(alloc, origin, file.as_slice()) else {
        return Err(Failure::NoMemory);
    };
    let len = put(octets, own.as_slice())?;
    Ok(ZoneEntry {
        len,
        name_len: origin.len(),
        data_len: file.len(),
        ..plain_entry(at, 4, used)
    })
}

/// Returns octets and then others.
fn joined(alloc: Global, first: &[u8], second: &[u8]) -> Result<Vec<u8>, AllocError>
    ensures { IfOk result (λ own. own.items ≡ first.now ++ second.now) }
{
    let mut own = Vec::from_slice(alloc, first)?;
    own.extend_from_slice(second)?;
    Ok(own)
}

/// Returns the name of a file that a word is, without quotes and escapes, or none if it is no text, or has no octet or a zero.
fn file_of(alloc: Global, word: &[u8]) -> Result<Option<Vec<u8>>, Failure>
    ensures some { IfOk result (λ found. IfSome found (λ name. IsFile word.now name.items)) }
    ensures none { IfOk result (λ found. IfNone found ((name : List ℕ) → ¬ (IsFile word.now name))) }
    ensures err { IfErr result (λ failure. failure ≡ NoMemory) }
{
    let Ok(text) = str::from_utf8(word) else {
        return Ok(None);
    };
    let mut name = Vec::new(alloc);
    match parse_text(text.as_bytes(), &mut name) {
        Ok(()) => Ok(if is_file_name(name.as_slice()) {
            Some(name)
        } else {
            None
        }),
        Err(FieldTextError::Memory) => Err(Failure::NoMemory),
        Err(_) => Ok(None),
    }
}

/// Returns `true` if there is an octet, and none of them is zero.
fn is_file_name(name: &[u8]) -> bool
    ensures { result ≡ is_file_name name.now }
{
    !name.is_empty() && !has_zero(name)
}

/// Returns `true` if an octet is zero.
fn has_zero(name: &[u8]) -> bool
    ensures { result ≡ has_zero name.now }
{
    for octet in name {
        if *octet == 0 {
            return true;
        }
    }
    false
}

/// Returns so many octets of a text from an offset on, or fewer where it ends.
fn part_of(text: &[u8], start: usize, len: usize) -> &[u8]
    ensures { result.now ≡ take len (drop start text.now) }
{
    let left = left_of(text, start);
    &left[..len.min(left.len())]
}

/// Returns that a word at an offset of a text is no name of a file.
fn no_file(text: &[u8], offset: usize) -> TextFault
    ensures { result ≡ no_file text.now offset }
{
    fault_at(text, offset, 0, Reason::NoFile)
}

/// Returns what C learns of what is wrong in a text that begins at a place.
fn fault_entry(at: FilePlace, text: &[u8], used: usize, fault: TextFault) -> ZoneEntry
    ensures { result ≡ fault_entry at text.now used fault }
{
    ZoneEntry {
        fault,
        ..plain_entry(moved(at, text, fault.offset), 5, used)
    }
}

/// Returns where a text goes wrong by an error, or the failure if memory ran out.
fn fault_in(text: &[u8], error: &ZoneError) -> Result<TextFault, Failure>
    ensures { result ≡ fault_in text.now error.now }
{
    match error {
        ZoneError::Wrong { offset, rule } => {
            Ok(fault_at(text, *offset, 0, reason_of_zone_rule(*rule)))
        }
        ZoneError::Data(error) => fault_of_line(text, error),
        ZoneError::Memory => Err(Failure::NoMemory),
    }
}

/// Returns the reason for a rule that an entry is against.
fn reason_of_zone_rule(rule: ZoneRule) -> Reason
    ensures { result ≡ reason_of_zone_rule rule }
{
    match rule {
        ZoneRule::Words(rule) => reason_of_rule(rule),
        ZoneRule::NoOwner => Reason::NoOwnerBefore,
        ZoneRule::BadOwner => Reason::BadOwner,
        ZoneRule::NoTimeToLive => Reason::NoTimeToLiveBefore,
        ZoneRule::NoType => Reason::NoType,
        ZoneRule::UnknownType => Reason::UnknownType,
        ZoneRule::OtherType => Reason::OtherType,
        ZoneRule::TimeTooLarge => Reason::TimeTooLarge,
        ZoneRule::UnknownDirective => Reason::UnknownDirective,
        ZoneRule::Generate => Reason::Generate,
        ZoneRule::NoName => Reason::NoName,
        ZoneRule::NoTime => Reason::NoTime,
        ZoneRule::NoFile => Reason::NoFile,
        ZoneRule::WordsLeft => Reason::WordsLeft,
        ZoneRule::NoRange => Reason::NoRange,
        ZoneRule::TooMany => Reason::TooMany,
        ZoneRule::BadTemplate => Reason::BadTemplate,
    }
}
