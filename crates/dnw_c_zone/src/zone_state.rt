//! What is known of a zone file that is read, as plain data of a caller.
ghost use Rattle.std.specs.Prelude.{◌≡◌, ◌≤◌, true, Some, length, take, IfSome, IfNone, MatchBool};
ghost use Rattle.dnw_base.specs.Limits.{max_name};
ghost use Rattle.dnw_base.specs.Names.{wire};
ghost use Rattle.dnw_c_zone.specs.Inside.StateNames.{IsNoStateName, IsOwnerForm, KeepsNames, LacksStateName, NamesFit, changes_origin, changes_owner, with_state_numbers, with_origin_form, with_owner_form};
ghost use Rattle.dnw_c_zone.specs.ParseCalls.{IsOrigin};
ghost use Rattle.dnw_c_zone.specs.ZoneStates.{IsContextOf, LacksContext, has_number, no_state, or_zero, owner_form, place_of_state, with_next, zone_state_of, time_of};
ghost use Rattle.dnw_name_read.specs.Buffers.{put};
ghost use Rattle.dnw_zone_file.specs.declared.context.Context.{Context};

use crate::parsing::ref_of;
use crate::zone_place::FilePlace;
use dnw_base::dns_class::DNSClass;
use dnw_base::limits::MAX_NAME;
use dnw_name::name::Name;
use dnw_name::name_ref::NameRef;
use dnw_name_form::form::WireForm;
use dnw_name_form::wire_labels::WireLabels;
use dnw_zone_file::context::Context;
use dnw_zone_file::entry::Entry;
use dnw_zone_file::error::ZoneError;
use dnw_zone_file::step::Found;
use std::alloc::Global;

/// What the entries of a zone file so far say for later ones, and how much of it was read: plain data without an invariant.
///
/// A state that was spoiled makes a call fail, or gives other names, times and places. It does no other harm.
#[repr(C)]
#[derive(Clone, Copy)]
pub struct ZoneState {
    /// The number of octets that were read.
    pub offset: usize,
    /// The number of line feeds among them.
    pub line: usize,
    /// The number of octets after the last line feed.
    pub column: usize,
    /// The time to live of the last `$TTL`, or the minimum of an SOA record before which no time to live was stated.
    pub default_ttl: u32,
    /// The last time to live of a record that has one of its own.
    pub last_ttl: u32,
    /// The time to live of records for which the file states none. The caller may set it.
    pub fallback_ttl: u32,
    /// How many records a `$GENERATE` may stand for, or 0 if it is not read. The caller may set it.
    pub generate_limit: u32,
    /// Within a `$GENERATE`, the number of its next record.
    pub generate_next: u32,
    /// The last class of a record that has one of its own, or else `IN`.
    pub record_class: u16,
    /// 0 if there is no `default_ttl`.
    pub has_default_ttl: u8,
    /// 0 if there is no `last_ttl`.
    pub has_last_ttl: u8,
    /// 0 if there is no `fallback_ttl`.
    pub has_fallback_ttl: u8,
    /// 0 outside of a `$GENERATE`.
    pub has_generate_next: u8,
    /// The number of octets of the origin.
    pub origin_len: u8,
    /// The number of octets of the owner of the last record, or 0 if there is none.
    pub owner_len: u8,
    /// The origin's wire form, at the front.
    pub origin: [u8; MAX_NAME],
    /// The wire form of the owner of the last record, at the front.
    pub owner: [u8; MAX_NAME],
}

/// Returns a state that says nothing, with zeros in its rooms.
pub(crate) fn no_state() -> ZoneState
    ensures { result ≡ no_state }
{
    ZoneState {
        offset: 0,
        line: 0,
        column: 0,
        default_ttl: 0,
        last_ttl: 0,
        fallback_ttl: 0,
        generate_limit: 0,
        generate_next: 0,
        record_class: 0,
        has_default_ttl: 0,
        has_last_ttl: 0,
        has_fallback_ttl: 0,
        has_generate_next: 0,
        origin_len: 0,
        owner_len: 0,
        origin: [0; MAX_NAME],
        owner: [0; MAX_NAME],
    }
}

/// Returns the state at a place, after the entries that made the context. The octets after a name in its room are those of the state
/// before.
pub(crate) fn zone_state_of(before: &ZoneState, context: &Context, at: FilePlace) -> ZoneState
    ensures { result ≡ zone_state_of before.now context.now at }
{
    let mut zone = *before;
    put_numbers(&mut zone, context, at);
    put_origin(&mut zone, context);
    put_owner(&mut zone, context);
    zone
}

/// Changes a state into that at a place, after the entry that made the context. A name that the entry leaves as it was is not written.
pub(crate) fn move_state(
    zone: &mut ZoneState,
    context: &Context,
    at: FilePlace,
    found: &Result<Found, ZoneError>,
)
    requires { NamesFit zone.old }
    ensures { (before : Context) → IsContextOf zone.old before → KeepsNames found.now before context.now
        → zone.new ≡ zone_state_of zone.old context.now at }
{
    put_numbers(zone, context, at);
    if changes_origin(found) {
        put_origin(zone, context);
        return;
    }
    if changes_owner(found) {
        put_owner(zone, context);
    }
}

/// Returns `true` if a text begins with an entry that may change the origin.
fn changes_origin(found: &Result<Found, ZoneError>) -> bool
    ensures { result ≡ changes_origin found.now }
{
    matches!(found, Ok(Found::Entry(Entry::Nothing)))
}

/// Returns `true` if a text begins with an entry that may change the owner of the last record.
fn changes_owner(found: &Result<Found, ZoneError>) -> bool
    ensures { result ≡ changes_owner found.now }
{
    matches!(found, Ok(Found::Entry(Entry::Record(_))))
}

/// Puts a place, and what else is known than names.
fn put_numbers(zone: &mut ZoneState, context: &Context, at: FilePlace)
    ensures { zone.new ≡ with_state_numbers zone.old context.now at }
{
    zone.offset = at.offset;
    zone.line = at.line;
    zone.column = at.column;
    zone.default_ttl = or_zero(context.default_ttl);
    zone.last_ttl = or_zero(context.last_ttl);
    zone.fallback_ttl = or_zero(context.fallback_ttl);
    zone.record_class = context.class.code();
    zone.has_default_ttl = has_number(context.default_ttl);
    zone.has_last_ttl = has_number(context.last_ttl);
    zone.has_fallback_ttl = has_number(context.fallback_ttl);
}

/// Puts the origin at the front of its room.
fn put_origin(zone: &mut ZoneState, context: &Context)
    ensures { zone.new ≡ with_origin_form zone.old (wire context.now.origin.labels) }
{
    let form = origin_form(context);
    zone.origin_len = form.len() as u8;
    put_in_room(&mut zone.origin, form);
}

/// Puts the owner of the last record at the front of its room.
fn put_owner(zone: &mut ZoneState, context: &Context)
    ensures { zone.new ≡ with_owner_form zone.old (owner_form context.now.owner) }
{
    let form = owner_form(context);
    zone.owner_len = form.len() as u8;
    put_in_room(&mut zone.owner, form);
}

/// Returns the place up to which a state has read.
pub(crate) fn place_of_state(zone: &ZoneState) -> FilePlace
    ensures { result ≡ place_of_state zone.now }
{
    FilePlace {
        offset: zone.offset,
        line: zone.line,
        column: zone.column,
    }
}

/// Returns what the entries so far say by a state, or `None` if its origin or owner is no wire form.
pub(crate) fn context_of(alloc: Global, zone: &ZoneState) -> Option<Context>
    ensures some { IfSome result (IsContextOf zone.now) }
    ensures none { IfNone result (LacksContext zone.now) }
{
    let mut context = Context::new(Name::root(alloc));
    if fill_context(alloc, &mut context, zone) {
        Some(context)
    } else {
        None
    }
}

/// Changes a context into what the entries so far say by a state, so that it is not moved. Returns `false` if the state's origin or
/// owner is no wire form; the context may be changed then.
pub(crate) fn fill_context(alloc: Global, context: &mut Context, zone: &ZoneState) -> bool
    ensures is { MatchBool result (IsContextOf zone.now context.new) (LacksContext zone.now) }
    ensures fit { result ≡ true → NamesFit zone.now }
{
    if !fill_origin(&mut context.origin, front_of(&zone.origin, zone.origin_len)) {
        return false;
    }
    let owner = front_of(&zone.owner, zone.owner_len);
    if !fill_owner(alloc, &mut context.owner, owner) {
        return false;
    }
    context.default_ttl = time_of(zone.has_default_ttl, zone.default_ttl);
    context.last_ttl = time_of(zone.has_last_ttl, zone.last_ttl);
    context.fallback_ttl = time_of(zone.has_fallback_ttl, zone.fallback_ttl);
    context.class = DNSClass::from(zone.record_class);
    true
}

/// Changes a name into that of which this is the wire form. Returns `false` if it is the wire form of none.
fn fill_origin(name: &mut Name, form: &[u8]) -> bool
    ensures { MatchBool result (IsOrigin form.now (Some name.new)) (LacksStateName form.now) }
{
    if form.is_empty() {
        return false;
    }
    match ref_of(form) {
        Ok(found) => {
            found.clone_into(name);
            true
        }
        Err(_) => false,
    }
}

/// Changes an owner into the labels of the name of which this is the wire form, or into none for no octets. Returns `false` if it is
/// the wire form of none.
fn fill_owner(alloc: Global, owner: &mut Option<WireForm>, form: &[u8]) -> bool
    ensures { MatchBool result (IsOwnerForm form.now owner.new) (IsNoStateName form.now) }
{
    if form.is_empty() {
        *owner = None;
        return true;
    }
    match ref_of(form) {
        Ok(found) => {
            keep_owner(alloc, owner, &found);
            true
        }
        Err(_) => false,
    }
}

/// Changes an owner into the labels of a name. The form is made in its place, so that it is not moved.
fn keep_owner(alloc: Global, owner: &mut Option<WireForm>, name: &NameRef<'_>)
    ensures { owner.new ≡ Some name.now }
{
    *owner = Some(WireForm::new(alloc));
    if let Some(form) = owner {
        copy_labels(form, name);
    }
}

/// Changes a form into the labels of a name, which are mostly in one piece.
fn copy_labels(form: &mut WireForm, name: &NameRef<'_>)
    ensures { form.new ≡ name.now }
{
    match name.labels_in_place() {
        Some(labels) => form.copy_octets(labels.as_wire()),
        None => form.copy_octets(name.wire_labels(&mut [0; MAX_NAME]).as_wire()),
    }
}

/// Returns the wire form of the origin.
fn origin_form(context: &Context) -> &[u8]
    ensures form { result.now ≡ wire context.now.origin.labels }
    ensures few { length result.now ≤ max_name }
{
    bounded(context.origin.wire_labels())
}

/// Returns the wire form of the last owner, or no octets if there is none.
pub(crate) fn owner_form(context: &Context) -> &[u8]
    ensures form { result.now ≡ owner_form context.now.owner }
    ensures few { length result.now ≤ max_name }
{
    match &context.owner {
        Some(owner) => bounded(owner.labels()),
        None => &[],
    }
}

/// Returns the wire form of labels.
#[tactic(auto, using(crate::proofs::ZoneForms::few_octets))]
fn bounded(labels: WireLabels<'_>) -> &[u8]
    ensures form { result.now ≡ wire labels.entry }
    ensures few { length result.now ≤ max_name }
{
    labels.as_wire()
}

/// Puts octets at the front of room for a name.
fn put_in_room(room: &mut [u8; MAX_NAME], octets: &[u8])
    requires { length octets.now ≤ max_name }
    ensures { room.new ≡ put room.old octets.now }
{
    room[..octets.len()].copy_from_slice(octets);
}

/// Returns so many octets of room for a name.
fn front_of(room: &[u8; MAX_NAME], len: u8) -> &[u8]
    ensures is { result.now ≡ take len room.now }
    ensures fits { len ≤ length room.now }
{
    &room[..usize::from(len)]
}

/// Returns a number, or 0 for none.
fn or_zero(number: Option<u32>) -> u32
    ensures { result ≡ or_zero number }
{
    match number {
        Some(number) => number,
        None => 0,
    }
}

/// Puts the number of the next record of a `$GENERATE`, or none.
pub(crate) fn put_next(zone: &mut ZoneState, next: Option<u32>)
    ensures { zone.new ≡ with_next zone.old next }
{
    zone.generate_next = or_zero(next);
    zone.has_generate_next = has_number(next);
}

/// Returns 1 if there is a number, and else 0.
fn has_number(number: Option<u32>) -> u8
    ensures { result ≡ has_number number }
{
    match number {
        Some(_) => 1,
        None => 0,
    }
}

/// Returns a number, or none if a flag is 0.
pub(crate) fn time_of(flag: u8, number: u32) -> Option<u32>
    ensures { result ≡ time_of flag number }
{
    if flag == 0 { None } else { Some(number) }
}
