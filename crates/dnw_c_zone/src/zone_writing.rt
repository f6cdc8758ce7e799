//! Zone files that are written, of which the caller keeps the state.
ghost use Rattle.std.specs.Prelude.{◌≡◌, IfOk, IfErr};
ghost use Rattle.dnw_c_base.specs.Results.{Returns};
ghost use Rattle.dnw_c_zone.specs.ZoneStates.{IsContextOf};
ghost use Rattle.dnw_c_zone.specs.ZoneWriting.{LacksState, PutsOrigin, PutsShort, PutsZoneOrigin, PutsZoneRecord, PutsZoneTtl, state_after};

use crate::printing::{PrintedRecord, record_at};
use crate::zone_file::name_of;
use crate::zone_place::moved;
use crate::zone_state::{ZoneState, context_of, place_of_state, zone_state_of};
use dnw_c_base::buffer::put;
use dnw_c_base::failure::Failure;
use dnw_c_base::results::report_both;
use dnw_name::name::Name;
use dnw_record::record_ref::RecordRef;
use dnw_zone_file::context::Context;
use dnw_zone_file::short_line::{append_origin, append_short_record, append_ttl};
use std::alloc::Global;

/// Puts the record at an offset of a message as a line of a zone file, without what the state says of the entries before, and moves
/// the state after it.
#[unsafe(no_mangle)]
pub extern "C" fn dnw_zone_put_record(
    alloc: Global,
    message: &[u8],
    start: usize,
    zone: &mut ZoneState,
    text: &mut [u8],
    printed: &mut PrintedRecord,
) -> u32
    ensures { Returns (PutsZoneRecord message.now start zone.old text.old text.new) (printed.old, zone.old) (printed.new, zone.new) result }
{
    report_both(put_record(alloc, message, start, zone, text), printed, zone)
}

/// Puts `$ORIGIN` and a name, and moves the state after it. The name is a wire form.
#[unsafe(no_mangle)]
pub extern "C" fn dnw_zone_put_origin(
    alloc: Global,
    origin: &[u8],
    zone: &mut ZoneState,
    text: &mut [u8],
    len: &mut usize,
) -> u32
    ensures { Returns (PutsZoneOrigin origin.now zone.old text.old text.new) (len.old, zone.old) (len.new, zone.new) result }
{
    report_both(put_origin(alloc, origin, zone, text), len, zone)
}

/// Puts `$TTL` and a time to live, and moves the state after it.
#[unsafe(no_mangle)]
pub extern "C" fn dnw_zone_put_ttl(
    alloc: Global,
    ttl: u32,
    zone: &mut ZoneState,
    text: &mut [u8],
    len: &mut usize,
) -> u32
    ensures { Returns (PutsZoneTtl ttl zone.old text.old text.new) (len.old, zone.old) (len.new, zone.new) result }
{
    report_both(put_ttl(alloc, ttl, zone, text), len, zone)
}

/// Puts the record at an offset. Returns what C learns of it, and the state after it.
fn put_record(
    alloc: Global,
    message: &[u8],
    start: usize,
    zone: &ZoneState,
    text: &mut [u8],
) -> Result<(PrintedRecord, ZoneState), Failure>
    ensures { PutsZoneRecord message.now start zone.now text.old text.new result }
{
    let (item, end) = record_at(message, start)?;
    put_short(alloc, &item, end, zone, text)
}

/// Puts a record that ends at an offset.
fn put_short(
    alloc: Global,
    item: &RecordRef<'_>,
    end: usize,
    zone: &ZoneState,
    text: &mut [u8],
) -> Result<(PrintedRecord, ZoneState), Failure>
    ensures { PutsShort zone.now item.now end text.old text.new result }
{
    let mut context = known(alloc, zone)?;
    let mut line = Vec::new(alloc);
    append_short_record(alloc, &mut context, item, &mut line)?;
    let len = put(text, line.as_slice())?;
    let after = state_after(zone, &context, line.as_slice());
    Ok((PrintedRecord { len, end }, after))
}

/// Puts `$ORIGIN` and the name of a wire form. Returns its length, and the state after it.
fn put_origin(
    alloc: Global,
    form: &[u8],
    zone: &ZoneState,
    text: &mut [u8],
) -> Result<(usize, ZoneState), Failure>
    ensures { PutsZoneOrigin form.now zone.now text.old text.new result }
{
    let origin = name_of(alloc, form)?;
    put_name(alloc, &origin, zone, text)
}

/// Puts `$ORIGIN` and a name.
fn put_name(
    alloc: Global,
    origin: &Name,
    zone: &ZoneState,
    text: &mut [u8],
) -> Result<(usize, ZoneState), Failure>
    ensures { PutsOrigin zone.now origin.now text.old text.new result }
{
    let mut context = known(alloc, zone)?;
    let mut line = Vec::new(alloc);
    append_origin(alloc, &mut context, origin, &mut line)?;
    let len = put(text, line.as_slice())?;
    Ok((len, state_after(zone, &context, line.as_slice())))
}

/// Puts `$TTL`. Returns its length, and the state after it.
fn put_ttl(
    alloc: Global,
    ttl: u32,
    zone: &ZoneState,
    text: &mut [u8],
) -> Result<(usize, ZoneState), Failure>
    ensures { PutsZoneTtl ttl zone.now text.old text.new result }
{
    let mut context = known(alloc, zone)?;
    let mut line = Vec::new(alloc);
    append_ttl(alloc, &mut context, ttl, &mut line)?;
    let len = put(text, line.as_slice())?;
    Ok((len, state_after(zone, &context, line.as_slice())))
}

/// Returns what a state says of the entries before.
fn known(alloc: Global, zone: &ZoneState) -> Result<Context, Failure>
    ensures ok { IfOk result (IsContextOf zone.now) }
    ensures err { IfErr result (LacksState zone.now) }
{
    match context_of(alloc, zone) {
        Some(context) => Ok(context),
        None => Err(Failure::BadItem),
    }
}

/// Returns the state after a text, which says what the context says.
fn state_after(zone: &ZoneState, context: &Context, text: &[u8]) -> ZoneState
    ensures { result ≡ state_after zone.now context.now text.now }
{
    zone_state_of(zone, context, moved(place_of_state(zone), text, text.len()))
}
