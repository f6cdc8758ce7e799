//! Single entries of zone files.
ghost use Rattle.std.specs.Prelude.{◌≡◌, ◌≢◌, ◌≤◌, ℕ, List, [], Some, None, length, take, IfOk, IfErr, MatchBool, MatchOption};
ghost use Rattle.dnw_base.specs.Limits.{max_name};
ghost use Rattle.dnw_base.specs.Names.{NameValue};
ghost use Rattle.dnw_zone_data.specs.NameReading.{named_at};
ghost use Rattle.dnw_zone_file.specs.Inside.OwnOwners.{IsNamed};
ghost use Rattle.dnw_zone_data.specs.Words.{after_spaces};
ghost use Rattle.dnw_zone_file.specs.declared.error.ZoneRule.TheVariants.{BadOwner, NoOwner, NoTimeToLive};
ghost use Rattle.dnw_zone_file.specs.Heads.{IsZoneHead, wrong_at};
ghost use Rattle.dnw_zone_file.specs.Contexts.{class_after, last_number, minimum_after, record_ttl, soa_minimum, ttl_after, ttl_at_end, with_minimum, with_record};
ghost use Rattle.dnw_zone_file.specs.Entries.{FailsData, FailsDirectiveEntry, FailsEntry, FailsEntryBy, FailsInclude, FailsOnlyName, FailsOwned, FailsZoneRecord, FailsTtl, IsDirectiveEntry, IsEntry, IsEntryBy, IsInclude, IsIncludeOrigin, IsNameWord, IsOnlyName, IsOnlyTtl, IsOwned, IsRecordData, IsZoneRecord, begins_with, line_kind, owner_at};
ghost use Rattle.dnw_zone_record.specs.RecordLines.{IsDataOf};

use crate::context::Context;
use crate::directive::{Directive, directive_of};
use crate::error::{ZoneError, ZoneRule};
use crate::head::{Head, MAX_ZONE_TTL, head_of, time_fault, wrong_at, zone_ttl_of};
use dnw_base::dns_class::DNSClass;
use dnw_base::limits::MAX_NAME;
use dnw_base::record_type::RecordType;
use dnw_name::name::Name;
use dnw_name_form::form::WireForm;
use dnw_name_form::wire_labels::WireLabels;
use dnw_zone_data::name::{fill_other, put_plain};
use dnw_zone_data::words::{after_spaces, split_word};
use dnw_zone_record::record_line::{data_of, next_word};
use std::alloc::Global;

/// A record of a zone file. Its owner is the context's, after the entry.
#[derive(Drop)]
pub struct ZoneRecord {
    /// The type.
    pub record_type: RecordType,
    /// The class.
    pub class: DNSClass,
    /// The time to live, in seconds.
    pub ttl: u32,
    /// The octets of the data, with names that are not compressed.
    pub wire: Vec<u8>,
}

/// An `$INCLUDE`, which the caller follows: the file's entries come next, with the owner as it stands and this origin.
#[derive(Drop)]
pub struct Include {
    /// The offset, in the entry, of the file as it stands there, with quotes and escapes.
    pub file: usize,
    /// The number of octets of the file as it stands there.
    pub file_len: usize,
    /// The origin of the file's entries. It is boxed, so that other entries are small.
    pub origin: Box<Name>,
}

/// What an entry is.
#[derive(Drop)]
pub enum Entry {
    /// No word, or `$ORIGIN` or `$TTL`.
    Nothing,
    /// A record.
    Record(ZoneRecord),
    /// An `$INCLUDE`.
    Include(Include),
}

/// How an entry begins.
#[derive(Clone, Copy)]
pub enum LineKind {
    /// It has no word.
    Blank,
    /// With white space: the owner is that of the last record.
    OwnerBefore,
    /// With `$`.
    Dollar,
    /// With the owner.
    OwnerFirst,
}

/// Returns what an entry is, of which this is the line that `dnw_zone_record` scans, after the entries that made the context. It is
/// indented if its text begins with white space. What it says for later ones goes into the context, which is unchanged if it fails.
pub fn entry_of(
    alloc: Global,
    context: &mut Context,
    indented: bool,
    line: &[u8],
) -> Result<Entry, ZoneError>
    ensures ok { IfOk result (λ entry. IsEntry context.old indented line.now entry context.new) }
    ensures err { IfErr result (λ e. FailsEntry context.old indented line.now e × (context.new ≡ context.old)) }
{
    let start = after_spaces(line);
    let kind = line_kind(indented, start);
    let (word, rest) = split_word(start);
    entry_by(alloc, context, kind, line, word, rest)
}

/// Returns how an entry begins, of which this is the first word and what is after it.
fn line_kind(indented: bool, start: &[u8]) -> LineKind
    ensures { result ≡ line_kind indented start.now }
{
    if start.is_empty() {
        LineKind::Blank
    } else if indented {
        LineKind::OwnerBefore
    } else if begins_with(start, b'$') {
        LineKind::Dollar
    } else {
        LineKind::OwnerFirst
    }
}

/// Returns what an entry is that begins so, of which this is the line, its first word and the rest.
fn entry_by(
    alloc: Global,
    context: &mut Context,
    kind: LineKind,
    line: &[u8],
    word: &[u8],
    rest: &[u8],
) -> Result<Entry, ZoneError>
    requires { length rest.now ≤ length line.now }
    ensures ok { IfOk result (λ entry. IsEntryBy kind context.old line.now word.now rest.now entry context.new) }
    ensures err { IfErr result (λ e. FailsEntryBy kind context.old line.now word.now rest.now e × (context.new ≡ context.old)) }
{
    match kind {
        LineKind::Blank => Ok(Entry::Nothing),
        LineKind::OwnerBefore => owned_before(alloc, context, line),
        LineKind::Dollar => directive_entry(alloc, context, word, line, rest),
        LineKind::OwnerFirst => owned_first(alloc, context, line, word, rest),
    }
}

/// Returns the record of the last owner, of which this is the line, or that there is none.
fn owned_before(alloc: Global, context: &mut Context, line: &[u8]) -> Result<Entry, ZoneError>
    ensures ok { IfOk result (λ entry. IsOwned context.old.owner context.old line.now entry context.new) }
    ensures err { IfErr result (λ e. FailsOwned context.old.owner context.old line.now line.now NoOwner e × (context.new ≡ context.old)) }
{
    match &context.owner {
        Some(_) => record_of_last(alloc, context, line.len(), line),
        None => Err(wrong_at(line.len(), line, ZoneRule::NoOwner)),
    }
}

/// Returns the record of the owner that a word is, of which a line has the rest, or that the word is no owner. The owner is read beside
/// the last one, which is kept if there is no record.
fn owned_first(
    alloc: Global,
    context: &mut Context,
    line: &[u8],
    word: &[u8],
    rest: &[u8],
) -> Result<Entry, ZoneError>
    requires { length rest.now ≤ length line.now }
    ensures ok { IfOk result (λ entry. IsOwned (owner_at context.old.origin word.now) context.old rest.now entry context.new) }
    ensures err { IfErr result (λ e. FailsOwned (owner_at context.old.origin word.now) context.old line.now rest.now BadOwner e × (context.new ≡ context.old)) }
{
    let mut room = [0; MAX_NAME];
    match own_owner(alloc, &mut room, &context.origin, word) {
        Some(owner) => record_of(alloc, context, owner, line.len(), rest),
        None => Err(wrong_at(line.len(), line, ZoneRule::BadOwner)),
    }
}

/// Returns `true` if a text begins with an octet.
pub(crate) fn begins_with(text: &[u8], octet: u8) -> bool
    ensures { result ≡ begins_with octet text.now }
{
    match text.first() {
        Some(first) => *first == octet,
        None => false,
    }
}

/// Returns the owner of the last record.
pub(crate) fn owner_before(context: &Context) -> Option<WireForm>
    ensures { result ≡ context.now.owner }
{
    match &context.owner {
        Some(owner) => Some(owner.clone()),
        None => None,
    }
}

/// Returns the owner that a word is, if it is one. Its wire form is put in a room. A quoted string is none.
#[tactic(auto, using(crate::proofs::OwnOwners::form_of_name, crate::proofs::OwnOwners::owner_named))]
pub(crate) fn own_owner<'r>(
    alloc: Global,
    room: &'r mut [u8; MAX_NAME],
    origin: &Name,
    word: &[u8],
) -> Option<WireLabels<'r>>
    ensures { MatchOption result (owner_at origin.now word.now ≡ None) (λ owner. owner_at origin.now word.now ≡ Some owner) }
{
    if begins_with(word, b'"') {
        return None;
    }
    let len = put_named(alloc, room, origin, word)?;
    Some(WireLabels::new(&room[..len]))
}

/// Puts the wire form of the name that a word gives, completed by the origin, at the front of a room, and returns its length, if the
/// word gives one.
fn put_named(alloc: Global, room: &mut [u8; MAX_NAME], origin: &Name, word: &[u8]) -> Option<usize>
    ensures { MatchOption result (named_at (Some origin.now) word.now ≡ None)
        (λ len. (len ≤ max_name) × IsNamed origin.now word.now (take len room.new)) }
{
    match put_plain(room, word) {
        Some(len) => Some(len),
        None => put_other(alloc, room, origin, word),
    }
}

/// Puts the wire form of any name, as `put_named`, without a look whether its octets stand for themselves.
#[tactic(auto, using(crate::proofs::OwnOwners::few_octets))]
fn put_other(alloc: Global, room: &mut [u8; MAX_NAME], origin: &Name, word: &[u8]) -> Option<usize>
    ensures { MatchOption result (named_at (Some origin.now) word.now ≡ None)
        (λ len. (len ≤ max_name) × IsNamed origin.now word.now (take len room.new)) }
{
    let mut form = WireForm::new(alloc);
    if !fill_other(&mut form, word, Some(origin)) {
        return None;
    }
    let octets = form.as_bytes();
    room[..octets.len()].copy_from_slice(octets);
    Some(octets.len())
}

/// Returns the record of an owner, of which the text has the rest, and which is what is left of an entry of this length.
pub(crate) fn record_of(
    alloc: Global,
    context: &mut Context,
    owner: WireLabels<'_>,
    len: usize,
    left: &[u8],
) -> Result<Entry, ZoneError>
    requires { length left.now ≤ len }
    ensures ok { IfOk result (λ entry. IsZoneRecord context.old owner.entry left.now entry context.new) }
    ensures err { IfErr result (λ e. FailsZoneRecord context.old len left.now e × (context.new ≡ context.old)) }
{
    match record_data(alloc, context, len, left) {
        Ok((head, found)) => {
            note_minimum(context, head, &found);
            note(alloc, context, owner, head);
            Ok(Entry::Record(found))
        }
        Err(error) => Err(error),
    }
}

/// Returns the record of the last owner, as `record_of` returns that of another. The owner is not copied.
fn record_of_last(
    alloc: Global,
    context: &mut Context,
    len: usize,
    left: &[u8],
) -> Result<Entry, ZoneError>
    requires { length left.now ≤ len }
    ensures ok { IfOk result (λ entry. (owner : List (List ℕ)) → context.old.owner ≡ Some owner → IsZoneRecord context.old owner left.now entry context.new) }
    ensures err { IfErr result (λ e. FailsZoneRecord context.old len left.now e × (context.new ≡ context.old)) }
{
    match record_data(alloc, context, len, left) {
        Ok((head, found)) => {
            note_minimum(context, head, &found);
            note_head(context, head);
            Ok(Entry::Record(found))
        }
        Err(error) => Err(error),
    }
}

/// Keeps the minimum of a record that stands for its time to live.
fn note_minimum(context: &mut Context, head: Head, found: &ZoneRecord)
    ensures { context.new ≡ with_minimum context.old (minimum_after context.old head found.now.wire.items) }
{
    let minimum = minimum_after(context, head, found.wire.as_slice());
    context.default_ttl = minimum.or(context.default_ttl);
}

/// Keeps what a record says for later ones.
pub(crate) fn note(alloc: Global, context: &mut Context, owner: WireLabels<'_>, head: Head)
    ensures { context.new ≡ with_record context.old owner.entry head }
{
    put_owner(alloc, &mut context.owner, owner);
    note_head(context, head);
}

/// Keeps an owner in the place of the last one.
#[tactic(auto, using(dnw_name_form::proofs::Wires::IsWire_wire, dnw_name_form::proofs::Wires::labels_of_wire))]
fn put_owner(alloc: Global, last: &mut Option<WireForm>, owner: WireLabels<'_>)
    ensures { last.new ≡ Some owner.entry }
{
    if last.is_none() {
        *last = Some(WireForm::new(alloc));
    }
    if let Some(form) = last {
        form.copy_octets(owner.as_wire());
    }
}

/// Keeps what a record of the last owner says for later ones.
fn note_head(context: &mut Context, head: Head)
    ensures { (owner : List (List ℕ)) → context.old.owner ≡ Some owner → context.new ≡ with_record context.old owner head }
{
    context.last_ttl = head.ttl.or(context.last_ttl);
    if let Some(class) = head.class {
        context.class = class;
    }
}

/// Returns what is between the owner and the data, and the record.
fn record_data(
    alloc: Global,
    context: &Context,
    len: usize,
    left: &[u8],
) -> Result<(Head, ZoneRecord), ZoneError>
    requires { length left.now ≤ len }
    ensures ok { IfOk result (λ r. IsRecordData context.now left.now r.0 r.1) }
    ensures err { IfErr result (FailsZoneRecord context.now len left.now) }
{
    match head_of(len, left) {
        Ok((head, text)) => data_after(alloc, context, len, left, head, text),
        Err(error) => Err(error),
    }
}

/// Returns what is between the owner and the data, which this is, and the record, of which the text has the data.
fn data_after(
    alloc: Global,
    context: &Context,
    len: usize,
    left: &[u8],
    head: Head,
    text: &[u8],
) -> Result<(Head, ZoneRecord), ZoneError>
    requires left { length left.now ≤ len }
    requires text { length text.now ≤ length left.now }
    requires head { IsZoneHead left.now head text.now }
    ensures ok { IfOk result (λ r. IsRecordData context.now left.now r.0 r.1) }
    ensures err { IfErr result (FailsZoneRecord context.now len left.now) }
{
    let class = class_after(context, head.class);
    let record_type = head.record_type;
    let wire = wire_of(alloc, class, record_type, len, text, &context.origin)?;
    let Some(ttl) = record_ttl(context, head, wire.as_slice()) else {
        return Err(wrong_at(len, left, ZoneRule::NoTimeToLive));
    };
    let found = ZoneRecord {
        record_type,
        class,
        ttl,
        wire,
    };
    Ok((head, found))
}

/// Returns the time to live of a record with these data.
fn record_ttl(context: &Context, head: Head, wire: &[u8]) -> Option<u32>
    ensures { result ≡ record_ttl context.now head wire.now }
{
    let minimum = minimum_after(context, head, wire);
    ttl_after(context, head.ttl).or(minimum.or(context.fallback_ttl))
}

/// Returns the minimum of a record with these data that stands for its time to live.
fn minimum_after(context: &Context, head: Head, wire: &[u8]) -> Option<u32>
    ensures { result ≡ minimum_after context.now head wire.now }
{
    match ttl_after(context, head.ttl) {
        Some(_) => None,
        None => soa_minimum(head.record_type, wire),
    }
}

/// Returns the minimum of an SOA record with these data. Other records have none.
fn soa_minimum(record_type: RecordType, wire: &[u8]) -> Option<u32>
    ensures { result ≡ soa_minimum record_type wire.now }
{
    match record_type {
        RecordType::SOA => ttl_at_end(wire),
        _ => None,
    }
}

/// Returns the last four octets as a time to live.
fn ttl_at_end(octets: &[u8]) -> Option<u32>
    ensures { result ≡ ttl_at_end octets.now }
{
    if octets.len() < 4 {
        return None;
    }
    let ttl = last_number(octets);
    if ttl <= MAX_ZONE_TTL { Some(ttl) } else { None }
}

/// Returns the number that is the last four octets.
fn last_number(octets: &[u8]) -> u32
    requires { 4 ≤ length octets.now }
    ensures { result ≡ last_number octets.now }
{
    let last = &octets[octets.len() - 4..];
    u32::from_be_bytes([last[0], last[1], last[2], last[3]])
}

/// Returns what is stated of the time to live of a record.
fn ttl_after(context: &Context, own: Option<u32>) -> Option<u32>
    ensures { result ≡ ttl_after context.now own }
{
    own.or(context.default_ttl.or(context.last_ttl))
}

/// Returns the class of a record.
fn class_after(context: &Context, own: Option<DNSClass>) -> DNSClass
    ensures { result ≡ class_after context.now own }
{
    match own {
        Some(class) => class,
        None => context.class,
    }
}

/// Returns the octets of the data that a text is, which is at the end of an entry of this length.
fn wire_of(
    alloc: Global,
    class: DNSClass,
    record_type: RecordType,
    len: usize,
    text: &[u8],
    origin: &Name,
) -> Result<Vec<u8>, ZoneError>
    requires { length text.now ≤ len }
    ensures ok { IfOk result (λ wire. IsDataOf (Some origin.now) class record_type text.now wire.items) }
    ensures err { IfErr result (FailsData origin.now class record_type len text.now) }
{
    match data_of(alloc, class, record_type, len, text, Some(origin)) {
        Ok(wire) => Ok(wire),
        Err(error) => Err(ZoneError::Data(error)),
    }
}

/// Returns what an entry is whose line begins with this word, which begins with `$`.
fn directive_entry(
    alloc: Global,
    context: &mut Context,
    word: &[u8],
    line: &[u8],
    rest: &[u8],
) -> Result<Entry, ZoneError>
    requires { length rest.now ≤ length line.now }
    ensures ok { IfOk result (λ entry. IsDirectiveEntry context.old word.now line.now rest.now entry context.new) }
    ensures err { IfErr result (λ e. FailsDirectiveEntry context.old word.now line.now rest.now e × (context.new ≡ context.old)) }
{
    let len = line.len();
    match directive_of(word) {
        Some(Directive::Origin) => {
            let origin = only_name(alloc, &context.origin, len, rest)?;
            context.origin = origin;
            Ok(Entry::Nothing)
        }
        Some(Directive::Ttl) => {
            let ttl = only_ttl(len, rest)?;
            context.default_ttl = Some(ttl);
            Ok(Entry::Nothing)
        }
        Some(Directive::Include) => {
            let include = include_of(alloc, &context.origin, len, rest)?;
            Ok(Entry::Include(include))
        }
        Some(Directive::Generate) => Err(wrong_at(len, line, ZoneRule::Generate)),
        None => Err(wrong_at(len, line, ZoneRule::UnknownDirective)),
    }
}

/// Returns the time that is all that is left.
fn only_ttl(len: usize, left: &[u8]) -> Result<u32, ZoneError>
    requires { length left.now ≤ len }
    ensures ok { IfOk result (IsOnlyTtl left.now) }
    ensures err { IfErr result (FailsTtl len left.now) }
{
    let (word, rest) = next_word(left);
    let Some(ttl) = zone_ttl_of(word) else {
        return Err(wrong_at(len, left, time_fault(word)));
    };
    if after_spaces(rest).is_empty() {
        return Ok(ttl);
    }
    Err(wrong_at(len, rest, ZoneRule::WordsLeft))
}

/// Returns the name that is all that is left.
fn only_name(alloc: Global, origin: &Name, len: usize, left: &[u8]) -> Result<Name, ZoneError>
    requires { length left.now ≤ len }
    ensures ok { IfOk result (IsOnlyName origin.now left.now) }
    ensures err { IfErr result (FailsOnlyName origin.now len left.now) }
{
    let (word, rest) = next_word(left);
    let Some(name) = name_at(alloc, origin, word) else {
        return Err(wrong_at(len, left, ZoneRule::NoName));
    };
    if after_spaces(rest).is_empty() {
        return Ok(name);
    }
    Err(wrong_at(len, rest, ZoneRule::WordsLeft))
}

/// Returns the name that a word is, completed by the origin. A quoted string is none.
fn name_at(alloc: Global, origin: &Name, word: &[u8]) -> Option<Name>
    ensures { MatchOption result ((name : NameValue) → ¬ (IsNameWord origin.now word.now name)) (IsNameWord origin.now word.now) }
{
    if begins_with(word, b'"') {
        return None;
    }
    match Name::from_text_bytes(alloc, word, Some(origin)) {
        Ok(name) => Some(name),
        Err(_) => None,
    }
}

/// Returns the `$INCLUDE` of which the text has the file, and maybe an origin.
fn include_of(alloc: Global, origin: &Name, len: usize, left: &[u8]) -> Result<Include, ZoneError>
    requires { length left.now ≤ len }
    ensures ok { IfOk result (IsInclude origin.now len left.now) }
    ensures err { IfErr result (FailsInclude origin.now len left.now) }
{
    let (word, rest) = next_word(left);
    if word.is_empty() {
        return Err(wrong_at(len, left, ZoneRule::NoFile));
    }
    let file = len - after_spaces(left).len();
    let file_len = word.len();
    let name = match include_origin(alloc, origin, len, rest) {
        Ok(name) => name,
        Err(error) => return Err(error),
    };
    match Box::new(alloc, name) {
        Ok(origin) => Ok(Include {
            file,
            file_len,
            origin,
        }),
        Err(_) => Err(ZoneError::Memory),
    }
}

/// Returns the origin of a file that is included: the name that is left, or the origin so far.
fn include_origin(alloc: Global, origin: &Name, len: usize, left: &[u8]) -> Result<Name, ZoneError>
    requires { length left.now ≤ len }
    ensures ok { IfOk result (IsIncludeOrigin origin.now left.now) }
    ensures err { IfErr result (λ e. (after_spaces left.now ≢ []) × FailsOnlyName origin.now len left.now e) }
{
    if after_spaces(left).is_empty() {
        return Ok(origin.copied());
    }
    only_name(alloc, origin, len, left)
}
