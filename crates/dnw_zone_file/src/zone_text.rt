//! Whole texts of zone files.
ghost use Rattle.std.specs.Prelude.{◌≡◌, ◌≢◌, ◌≤◌, ◌<◌, ◌++◌, [], drop, length, IfOk, IfErr, OnOk};
ghost use Rattle.dnw_zone_file.specs.declared.entry.Entry.{Entry};
ghost use Rattle.dnw_zone_file.specs.Inside.Adding.{FailsToAddEntry};
ghost use Rattle.dnw_zone_file.specs.ZoneTexts.{FailsNextEntry, FailsZoneText, IsOfText, IsZoneText, LacksEntry, TakesEntry, records_of_entry};

use crate::context::Context;
use crate::entry::{Entry, ZoneRecord, owner_before};
use crate::error::ZoneError;
use crate::step::{Found, take_entry};
use dnw_name::name::Name;
use dnw_name_form::form::WireForm;
use std::alloc::Global;
use thiserror::Error;

/// A record of a zone file, with its owner.
#[derive(Drop)]
pub struct OwnedRecord {
    /// The owner.
    pub owner: WireForm,
    /// The type, the class, the time to live and the data.
    pub body: ZoneRecord,
}

/// Why a text is no list of records, and where.
#[derive(Debug, Drop, Error)]
pub enum ZoneTextError {
    /// The entry is none. The offset of the error is counted in the entry.
    #[error("in the entry at offset {offset}: {error}")]
    NoEntry {
        /// The offset of the entry in the text.
        offset: usize,
        /// Why it is none, or that memory ran out.
        error: ZoneError,
    },
    /// The entry is an `$INCLUDE`: `take_entry` hands it to a caller who has the files.
    #[error("the entry at offset {offset} includes a file")]
    HasInclude {
        /// The offset of the entry in the text.
        offset: usize,
    },
}

/// Returns the records of a zone file, in their order (RFC 1035, section 5; RFC 2308, section 4). The origin completes names without a
/// dot at their end, up to an `$ORIGIN`.
///
/// It fails with the first entry that is none, or that includes a file. `take_entry` reads on after errors, and without a list.
pub fn read_records(
    alloc: Global,
    origin: Name,
    text: &[u8],
) -> Result<Vec<OwnedRecord>, ZoneTextError>
    ensures ok { IfOk result (λ records. IsZoneText origin text.now records.items) }
    ensures err { IfErr result (FailsZoneText origin text.now) }
{
    let mut context = Context::new(origin);
    let mut line = Vec::new(alloc);
    let mut records = Vec::new(alloc);
    let mut left = text;
    'entries: while !left.is_empty() {
        let offset = text.len() - left.len();
        match take_record(alloc, &mut context, left, offset, &mut line, &mut records) {
            Ok(used) => left = rest_of(left, used),
            Err(error) => return Err(error),
        }
    }
    Ok(records)
}

/// Takes the entry that is left of a text at an offset, adds its record, and returns how many octets it takes.
#[tactic(auto, using(crate::proofs::Decided::add_fails))]
fn take_record(
    alloc: Global,
    context: &mut Context,
    left: &[u8],
    offset: usize,
    line: &mut Vec<u8>,
    records: &mut Vec<OwnedRecord>,
) -> Result<usize, ZoneTextError>
    requires { 0 < length left.now }
    ensures ok { IfOk result (λ used. (entry : Entry) × TakesEntry context.old left.now entry used context.new × IsOfText entry
        × (records.new.items ≡ records.old.items ++ records_of_entry entry context.new.owner)) }
    ensures moves { IfOk result (λ used. 0 < used) }
    ensures within { IfOk result (λ used. used ≤ length left.now) }
    ensures err { IfErr result (FailsNextEntry context.old left.now offset) }
{
    match next_entry(alloc, context, left, line) {
        Ok((entry, used)) => match add_entry(records, context, entry, offset) {
            Ok(()) => Ok(used),
            Err(error) => Err(error),
        },
        Err(error) => Err(ZoneTextError::NoEntry { offset, error }),
    }
}

/// Returns what is left of a text after so many octets.
fn rest_of(text: &[u8], used: usize) -> &[u8]
    requires { used ≤ length text.now }
    ensures { result.now ≡ drop used text.now }
{
    &text[used..]
}

/// Returns the entry that a text begins with, which has no part elsewhere, and how many octets it takes.
fn next_entry(
    alloc: Global,
    context: &mut Context,
    text: &[u8],
    line: &mut Vec<u8>,
) -> Result<(Entry, usize), ZoneError>
    requires { 0 < length text.now }
    ensures ok { IfOk result (λ r. TakesEntry context.old text.now r.0 r.1 context.new) }
    ensures moves { IfOk result (λ r. 0 < r.1) }
    ensures within { IfOk result (λ r. r.1 ≤ length text.now) }
    ensures err { IfErr result (LacksEntry context.old text.now) }
{
    let step = take_entry(alloc, context, text, false, line);
    let used = step.used;
    match step.found {
        Ok(found) => match found {
            Found::Entry(entry) => Ok((entry, used)),
            Found::End | Found::More => unreachable!(),
        },
        Err(error) => Err(error),
    }
}

/// Adds the record that an entry at an offset is, with the owner that is known after it.
fn add_entry(
    records: &mut Vec<OwnedRecord>,
    context: &Context,
    entry: Entry,
    offset: usize,
) -> Result<(), ZoneTextError>
    ensures ok { OnOk result (IsOfText entry × (records.new.items ≡ records.old.items ++ records_of_entry entry context.now.owner)) }
    ensures err { IfErr result (FailsToAddEntry entry offset) }
{
    match entry {
        Entry::Nothing => Ok(()),
        Entry::Include(_) => Err(ZoneTextError::HasInclude { offset }),
        Entry::Record(body) => add_record(records, owner_before(context), body, offset),
    }
}

/// Adds the record of an owner.
fn add_record(
    records: &mut Vec<OwnedRecord>,
    owner: Option<WireForm>,
    body: ZoneRecord,
    offset: usize,
) -> Result<(), ZoneTextError>
    ensures ok { OnOk result (records.new.items ≡ records.old.items ++ records_of_entry (Entry.Record body) owner) }
    ensures err { IfErr result (λ e. e ≡ ZoneTextError.NoEntry offset ZoneError.Memory) }
{
    let Some(owner) = owner else {
        return Ok(());
    };
    match records.push(OwnedRecord { owner, body }) {
        Ok(()) => Ok(()),
        Err(_) => Err(ZoneTextError::NoEntry {
            offset,
            error: ZoneError::Memory,
        }),
    }
}
