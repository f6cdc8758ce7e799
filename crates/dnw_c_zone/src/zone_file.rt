//! Zone files, entry by entry, of which the caller keeps the state and has the text in parts.
ghost use Rattle.std.specs.Prelude.{◌≡◌, IfOk, IfErr};
ghost use Rattle.dnw_c_base.specs.Results.{Returns};
ghost use Rattle.dnw_c_zone.specs.Inside.StateNames.{KeepsNames};
ghost use Rattle.dnw_c_zone.specs.Inside.StateResults.{with_entry, with_state};
ghost use Rattle.dnw_c_zone.specs.ZoneFileCalls.{BeginsZone, IncludesFile, IsGivenOrigin, LacksOrigin, TakesGenerated, TakesZoneEntry, is_generated};
ghost use Rattle.dnw_c_zone.specs.ZoneStates.{time_of};
ghost use Rattle.dnw_zone_file.specs.Generates.{IsGeneratedStep};
ghost use Rattle.dnw_zone_file.specs.Steps.{IsStep};

use crate::parsing::origin_of;
use crate::zone_entry::{ZoneEntry, put_found};
use crate::zone_place::{FilePlace, moved};
use crate::zone_state::{
    ZoneState, context_of, fill_context, move_state, no_state, place_of_state, put_next, time_of,
    zone_state_of,
};
use dnw_c_base::failure::Failure;
use dnw_c_base::results::report;
use dnw_name::name::Name;
use dnw_zone_file::context::Context;
use dnw_zone_file::generate::{Generated, is_generate, take_generated};
use dnw_zone_file::step::{Step, take_entry};
use std::alloc::Global;

/// The place before the first octet of a file.
const START: FilePlace = FilePlace {
    offset: 0,
    line: 0,
    column: 0,
};

/// Stores what is known before the first entry of a zone file. The origin is a wire form.
#[unsafe(no_mangle)]
pub extern "C" fn dnw_zone_begin(alloc: Global, origin: &[u8], zone: &mut ZoneState) -> u32
    ensures { Returns (BeginsZone origin.now) zone.old zone.new result }
{
    report(begun(alloc, origin), zone)
}

/// Changes a state, which is that after an `$INCLUDE`, into that before the first entry of its file. The origin is a wire form.
#[unsafe(no_mangle)]
pub extern "C" fn dnw_zone_include(alloc: Global, origin: &[u8], zone: &mut ZoneState) -> u32
    ensures { Returns (IncludesFile origin.now zone.old) zone.old zone.new result }
{
    report(included(alloc, origin, zone), zone)
}

/// Puts what a text begins with, after the entries that made the state, and moves past it. If there may be more of the text, an entry
/// that is not whole is none.
#[unsafe(no_mangle)]
pub extern "C" fn dnw_zone_next(
    alloc: Global,
    text: &[u8],
    more: bool,
    zone: &mut ZoneState,
    octets: &mut [u8],
    entry: &mut ZoneEntry,
) -> u32
    ensures { Returns (TakesZoneEntry text.now more zone.old octets.old octets.new) (entry.old, zone.old) (entry.new, zone.new) result }
{
    report(next(alloc, text, more, zone, octets, entry), &mut ())
}

/// Returns the state before the first entry.
fn begun(alloc: Global, origin: &[u8]) -> Result<ZoneState, Failure>
    ensures { BeginsZone origin.now result }
{
    let origin = name_of(alloc, origin)?;
    Ok(zone_state_of(&no_state(), &Context::new(origin), START))
}

/// Returns the state before the first entry of a file that is included after this one.
fn included(alloc: Global, origin: &[u8], zone: &ZoneState) -> Result<ZoneState, Failure>
    ensures { IncludesFile origin.now zone.now result }
{
    let origin = name_of(alloc, origin)?;
    let Some(mut context) = context_of(alloc, zone) else {
        return Err(Failure::BadItem);
    };
    context.origin = origin;
    Ok(zone_state_of(zone, &context, START))
}

/// Returns the name that a wire form is.
pub(crate) fn name_of(alloc: Global, form: &[u8]) -> Result<Name, Failure>
    ensures ok { IfOk result (IsGivenOrigin form.now) }
    ensures err { IfErr result (LacksOrigin form.now) }
{
    match origin_of(alloc, form) {
        Ok(Some(name)) => Ok(name),
        Ok(None) => Err(Failure::MessageCut),
        Err(failure) => Err(failure),
    }
}

/// Puts what a text begins with, stores what C learns of it, and moves past it. If it fails, the entry and the state are unchanged.
fn next(
    alloc: Global,
    text: &[u8],
    more: bool,
    zone: &mut ZoneState,
    octets: &mut [u8],
    entry: &mut ZoneEntry,
) -> Result<(), Failure>
    ensures takes { TakesZoneEntry text.now more zone.old octets.old octets.new (with_state (with_entry result entry.new) zone.new) }
    ensures same { IfErr result (λ _. (entry.new ≡ entry.old) × (zone.new ≡ zone.old)) }
{
    let mut context = Context::new(Name::root(alloc));
    if !fill_context(alloc, &mut context, zone) {
        return Err(Failure::BadItem);
    }
    let at = place_of_state(zone);
    let step = step_of(alloc, &mut context, text, more);
    if is_generated(zone, &step) {
        return next_generated(alloc, &mut context, text, step.used, zone, octets, entry);
    }
    match put_found(alloc, at, text, &context, &step, octets, entry) {
        Ok(()) => {
            move_state(zone, &context, moved(at, text, step.used), &step.found);
            Ok(())
        }
        Err(failure) => Err(failure),
    }
}

/// Returns `true` if a step is a `$GENERATE`, and the caller wants it to be read.
fn is_generated(zone: &ZoneState, step: &Step) -> bool
    ensures { result ≡ is_generated zone.now step.now }
{
    0 < zone.generate_limit && is_generate(step)
}

/// Puts the next record of the `$GENERATE` that a text begins with, which takes so many octets, stores what C learns of it, and moves on.
/// If it fails, the entry and the state are unchanged.
fn next_generated(
    alloc: Global,
    context: &mut Context,
    text: &[u8],
    used: usize,
    zone: &mut ZoneState,
    octets: &mut [u8],
    entry: &mut ZoneEntry,
) -> Result<(), Failure>
    ensures takes { TakesGenerated zone.old context.old text.now used octets.old octets.new (with_state (with_entry result entry.new) zone.new) }
    ensures same { IfErr result (λ _. (entry.new ≡ entry.old) × (zone.new ≡ zone.old)) }
{
    let at = place_of_state(zone);
    let made = next_of(alloc, context, text, used, zone);
    match put_found(alloc, at, text, context, &made.step, octets, entry) {
        Ok(()) => {
            *zone = zone_state_of(zone, context, moved(at, text, made.step.used));
            put_next(zone, made.next);
            Ok(())
        }
        Err(failure) => Err(failure),
    }
}

/// Takes the next record of the `$GENERATE` that a text begins with.
fn next_of(
    alloc: Global,
    context: &mut Context,
    text: &[u8],
    used: usize,
    zone: &ZoneState,
) -> Generated
    ensures { IsGeneratedStep context.old text.now used zone.now.generate_limit (time_of zone.now.has_generate_next zone.now.generate_next) result.step result.next context.new }
{
    let number = time_of(zone.has_generate_next, zone.generate_next);
    let mut line = Vec::new(alloc);
    take_generated(
        alloc,
        context,
        text,
        used,
        zone.generate_limit,
        number,
        &mut line,
    )
}

/// Takes what a text begins with, after the entries that made the context. What it does not change of the names stays in the context.
#[inline(always)]
#[tactic(auto, using(crate::proofs::StepNames::step_keeps))]
fn step_of(alloc: Global, context: &mut Context, text: &[u8], more: bool) -> Step
    ensures is { IsStep context.old text.now more result context.new }
    ensures keeps { KeepsNames result.found context.old context.new }
{
    let mut line = Vec::new(alloc);
    take_entry(alloc, context, text, more, &mut line)
}
