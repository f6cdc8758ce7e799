//! Many entries of a zone file in one call: a row for each record.
ghost use Rattle.std.specs.Prelude.{◌≡◌, ◌≤◌, ◌+◌, length, IfErr, MatchBool};
ghost use Rattle.dnw_base.specs.Limits.{max_data, max_name};
ghost use Rattle.dnw_c_base.specs.Results.{Returns};
ghost use Rattle.dnw_c_zone.specs.Inside.RowSteps.{AddsEntry, AddsRow, FitsData, IsRunTo, with_read};
ghost use Rattle.dnw_c_zone.specs.ZoneRows.{HasNoRow, HasRecordRoom, LacksRecordRoom, ReadsZone, kind_of_found};

use crate::text_faults::left_of;
use crate::zone_entry::{put_pieces, record_head};
use crate::zone_place::moved;
use crate::zone_state::{ZoneState, fill_context, owner_form, place_of_state, zone_state_of};
use dnw_base::limits::{MAX_DATA, MAX_NAME};
use dnw_c_base::failure::Failure;
use dnw_c_base::results::report;
use dnw_name::name::Name;
use dnw_record::record_ref::FIXED_SIZE;
use dnw_zone_file::context::Context;
use dnw_zone_file::entry::{Entry, ZoneRecord};
use dnw_zone_file::error::ZoneError;
use dnw_zone_file::step::{Found, Step, take_entry};
use std::alloc::Global;

/// The most octets of a record: of its owner, its data, and what is between them (RFC 1035, section 3.2.1).
const MAX_RECORD: usize = MAX_NAME + FIXED_SIZE + MAX_DATA;

/// A record of a zone file among others, as C learns it.
#[repr(C)]
#[derive(Clone, Copy)]
pub struct ZoneRow {
    /// The offset of its entry in the text.
    pub offset: usize,
    /// The offset of its octets in the buffer.
    pub start: usize,
    /// How many octets it has.
    pub len: usize,
    /// How many of them, at their start, are the owner.
    pub name_len: usize,
    /// How many of them, at their end, are the data.
    pub data_len: usize,
    /// The time to live.
    pub ttl: u32,
    /// The type.
    pub record_type: u16,
    /// The class.
    pub record_class: u16,
}

/// How much of the text of a zone file was read.
#[repr(C)]
#[derive(Clone, Copy)]
pub struct ZoneRead {
    /// How many octets of the text were read.
    pub used: usize,
    /// How many rows are put.
    pub row_count: usize,
    /// How many octets are put.
    pub octets_len: usize,
    /// What comes next, as the kind of a `ZoneEntry`: 0 for the end of the text, 1 for a part of an entry, 3 if there is no room for a
    /// record more, 4 for an `$INCLUDE`, and 5 for an error.
    pub next: u32,
}

/// Puts the records that a text begins with, after the entries that made the state, and moves past them: a row for each, and its octets.
/// It stops if there is no room for a record more, or at what has no row. If there may be more of the text, an entry that is not whole
/// is none.
#[unsafe(no_mangle)]
pub extern "C" fn dnw_zone_read(
    alloc: Global,
    text: &[u8],
    more: bool,
    zone: &mut ZoneState,
    rows: &mut [ZoneRow],
    octets: &mut [u8],
    read: &mut ZoneRead,
) -> u32
    ensures { Returns (ReadsZone text.now more zone.old rows.old rows.new octets.old octets.new) (read.old, zone.old) (read.new, zone.new) result }
{
    report(read_zone(alloc, text, more, zone, rows, octets), read)
}

/// Puts the records that a text begins with, and moves past them. If it fails, the state is unchanged.
fn read_zone(
    alloc: Global,
    text: &[u8],
    more: bool,
    zone: &mut ZoneState,
    rows: &mut [ZoneRow],
    octets: &mut [u8],
) -> Result<ZoneRead, Failure>
    ensures reads { ReadsZone text.now more zone.old rows.old rows.new octets.old octets.new (with_read result zone.new) }
    ensures same { IfErr result (λ _. zone.new ≡ zone.old) }
{
    if octets.len() < MAX_RECORD {
        return Err(Failure::NoRoom);
    }
    let mut context = Context::new(Name::root(alloc));
    if !fill_context(alloc, &mut context, zone) {
        return Err(Failure::BadItem);
    }
    let read = read_run(alloc, text, more, &mut context, rows, octets);
    let at = moved(place_of_state(zone), text, read.used);
    *zone = zone_state_of(zone, &context, at);
    Ok(read)
}

/// Puts the records that a text begins with, after the entries that made the context.
fn read_run(
    alloc: Global,
    text: &[u8],
    more: bool,
    context: &mut Context,
    rows: &mut [ZoneRow],
    octets: &mut [u8],
) -> ZoneRead
    ensures { IsRunTo text.now more context.old rows.old rows.new octets.old octets.new result context.new }
{
    let mut line = Vec::new(alloc);
    let mut read = ZoneRead {
        used: 0,
        row_count: 0,
        octets_len: 0,
        next: 3,
    };
    'entries: while has_room(rows, octets, &read) {
        let left = left_of(text, read.used);
        let step = take_entry(alloc, context, left, more, &mut line);
        if !put_step(context, step, rows, octets, &mut read) {
            return read;
        }
    }
    read
}

/// Returns `true` if there is a row for one record more, and room for any record.
fn has_room(rows: &[ZoneRow], octets: &[u8], read: &ZoneRead) -> bool
    requires { read.now.octets_len ≤ length octets.now }
    ensures { MatchBool result (HasRecordRoom (length rows.now) (length octets.now) read.now.row_count read.now.octets_len)
        (LacksRecordRoom (length rows.now) (length octets.now) read.now.row_count read.now.octets_len) }
{
    read.row_count < rows.len() && octets.len() - read.octets_len >= MAX_RECORD
}

/// Puts what a text begins with. Returns `false` if it has no row; its kind is put then.
fn put_step(
    context: &Context,
    step: Step,
    rows: &mut [ZoneRow],
    octets: &mut [u8],
    read: &mut ZoneRead,
) -> bool
    requires room { HasRecordRoom (length rows.old) (length octets.old) read.old.row_count read.old.octets_len }
    requires data { FitsData step.found }
    requires within { read.old.used + step.used ≤ usize.MAX }
    ensures { MatchBool result (AddsEntry step.found step.used context.now rows.old rows.new octets.old octets.new read.old read.new)
        (HasNoRow step.found × (rows.new ≡ rows.old) × (octets.new ≡ octets.old) × (read.new ≡ record read.old { next = kind_of_found step.found })) }
{
    match &step.found {
        Ok(Found::Entry(Entry::Nothing)) => {}
        Ok(Found::Entry(Entry::Record(found))) => {
            put_row(owner_form(context), found, rows, octets, read);
        }
        stop => {
            read.next = kind_of_found(stop);
            return false;
        }
    }
    read.used += step.used;
    true
}

/// Puts the octets of a record of this owner after those that are there, and its row.
fn put_row(
    owner: &[u8],
    found: &ZoneRecord,
    rows: &mut [ZoneRow],
    octets: &mut [u8],
    read: &mut ZoneRead,
)
    requires room { HasRecordRoom (length rows.old) (length octets.old) read.old.row_count read.old.octets_len }
    requires name { length owner.now ≤ max_name }
    requires data { length found.now.wire.items ≤ max_data }
    ensures { AddsRow owner.now found.now rows.old rows.new octets.old octets.new read.old read.new }
{
    let len = owner.len() + FIXED_SIZE + found.wire.len();
    put_pieces(
        &mut octets[read.octets_len..],
        owner,
        &record_head(found),
        found.wire.as_slice(),
    );
    rows[read.row_count] = ZoneRow {
        offset: read.used,
        start: read.octets_len,
        len,
        name_len: owner.len(),
        data_len: found.wire.len(),
        ttl: found.ttl,
        record_type: found.record_type.code(),
        record_class: found.class.code(),
    };
    read.row_count += 1;
    read.octets_len += len;
}

/// Returns the kind of what a text begins with.
fn kind_of_found(found: &Result<Found, ZoneError>) -> u32
    ensures { result ≡ kind_of_found found.now }
{
    match found {
        Ok(Found::End) => 0,
        Ok(Found::More) => 1,
        Ok(Found::Entry(Entry::Nothing)) => 2,
        Ok(Found::Entry(Entry::Record(_))) => 3,
        Ok(Found::Entry(Entry::Include(_))) => 4,
        Err(_) => 5,
    }
}
