//! Messages that are written from a list of items.
ghost use Rattle.std.specs.Prelude.{◌≡◌, ◌≢◌, ◌<◌, ◌≤◌, ◌⊎◌, ℕ, List, length, take, if◌then◌else◌, Bool, IfOk, IfErr, OnOk, OnErr};
ghost use Rattle.dnw_base.specs.Decoder.{Decoder};
ghost use Rattle.dnw_record.specs.Records.{RecordValue};
ghost use Rattle.dnw_message_writer.specs.CompressedNames.{put_at};
ghost use Rattle.dnw_message_writer.specs.Hints.{slot_of};
ghost use Rattle.dnw_message_writer.specs.Inside.Turns.{KeptCount};
ghost use Rattle.dnw_message_writer.specs.Items.{question_form, question_past};
ghost use Rattle.dnw_message_writer.specs.Sections.{offset_of_count, rank};
ghost use Rattle.dnw_message_writer.specs.Sets.{cut_off};
ghost use Rattle.dnw_message_writer.specs.Standing.{first_item};
ghost use Rattle.dnw_message_writer.specs.States.{AddsItem, BeginsMessage};
ghost use Rattle.dnw_message_writer.specs.declared.section.Section.TheVariants as Sections;
ghost use Rattle.dnw_message_writer.specs.declared.state.WriterState.{WriterState};
ghost use Rattle.dnw_message_writer.specs.declared.list.ListError.TheVariants.{BadItem};
ghost use Rattle.dnw_message_writer.specs.Lists.{AddsRecords, BeginsWithOctet, FailsToAddRecords, FailsToBegin, FailsToWriteNext, WritesNext, WritesFrom, IsHalved, IsNoEnd, IsNoItem, IsOctetOf, LacksListed, Progress, TakesListed, TakesQuestion, WritesListOr, has_to_be_there, is_bare, is_server_out, left_with, pairs_left, progress, progress_at, question_octet, what_is_there, with_code};
ghost use Rattle.dnw_message_writer.specs.ListEnds.{AddsListed, FailsToAddListed};
ghost use Rattle.dnw_message_writer.specs.ListResults.{FailsToAddForm, StaysAsItWas};
ghost use Rattle.dnw_message_writer.specs.declared.list.writing.LeftOut.{LeftOut};

use crate::halves::MOST_PAIRS;
use crate::list::halves::{There, is_halved};
use crate::list::items::{
    OPTIONAL, QUESTION, REQUIRED, again, next_of_set, octet_at, pass_end, read_question,
    read_record, scan_list, section_after,
};
use crate::list::{ListError, Written, is_cut, of_data, of_write};
use crate::needs::{Purpose, is_server};
use crate::reply::{most_code, takes_records};
use crate::section::Section;
use crate::set::{cut_off, two_at};
use crate::standing::FIRST_ITEM;
use crate::state::{WriterState, count_of};
use dnw_base::decoder::BinDecoder;
use dnw_base::limits::MAX_NAME;
use dnw_record::record_ref::RecordRef;

/// What is left out of a message: how many sections are before that of the last set that had no room, or 0 if each had; if something
/// is missing that the message has to have; if a server of that section is left out; and how many pairs of its records may still be
/// compared. And the offset in the list at which the records of the section begin that is being written.
#[derive(Clone, Copy)]
pub(crate) struct LeftOut {
    closed: u8,
    missing: bool,
    servers: bool,
    pairs: u16,
    start: usize,
}

/// Writes the message of a list of items into a buffer, and returns its size and whether TC is set.
///
/// It has this id, these flags, and a response code, of which the header has the low four bits and the `OPT` record the others. The
/// message has at most `max_size` octets, and never more than the buffer or 65,535.
///
/// Sets of records that have no room are left out of a response, but for one to a transfer: with the first of a section that has none
/// the later records of that section. TC is set if the message has to have one of them, which is decided as `Purpose` says, or by the
/// octet before the record. `OPT`, and then TSIG or SIG(0), come last, and are never left out.
///
/// If `is_reply` is true, a message with FORMERR, NOTIMP or BADVERS has no other records. If `block` is not 0, the `OPT` record pads the
/// message to a multiple of so many octets.
///
/// The octets of the buffer are those of no message if it fails.
pub fn write_list(
    items: &[u8],
    max_size: usize,
    id: u16,
    flags: u16,
    code: u16,
    is_reply: bool,
    block: u16,
    message: &mut [u8],
) -> Result<Written, ListError>
    ensures { WritesListOr items.now max_size id flags code is_reply block message.old message.new result }
{
    let scan = scan_list(items, flags)?;
    if code > most_code(scan.ends.opt.is_some()) {
        return Err(ListError::BadItem);
    }
    let mut writer = WriterState::new();
    begin(message, max_size, id, with_code(flags, code), &mut writer)?;
    writer.reserved = scan.ends.held();
    let bare = is_bare(is_reply, code);
    let missing = write_items(items, bare, &scan.purpose, message, &mut writer)?;
    scan.ends.write(code, block, message, &mut writer)?;
    finish(message, missing);
    let truncated = is_cut(message);
    Ok(Written {
        len: writer.end,
        truncated,
    })
}

/// Begins a message, if the buffer and the maximum have room for its header.
fn begin(
    message: &mut [u8],
    max_size: usize,
    id: u16,
    flags: u16,
    writer: &mut WriterState,
) -> Result<(), ListError>
    ensures ok { OnOk result (BeginsMessage id flags max_size message.old writer.new message.new) }
    ensures err { IfErr result (FailsToBegin max_size message.old) }
{
    if message.len() < FIRST_ITEM {
        return Err(ListError::NoRoom);
    }
    match writer.begin(message, id, flags, max_size) {
        Ok(()) => Ok(()),
        Err(_) => Err(ListError::TooLong),
    }
}

/// Returns `true` if a message has no records but those that come last.
fn is_bare(is_reply: bool, code: u16) -> bool
    ensures { result ≡ is_bare is_reply code }
{
    is_reply && !takes_records(code)
}

/// Returns flags with the low four bits of a response code.
fn with_code(flags: u16, code: u16) -> u16
    ensures { result ≡ with_code flags code }
{
    flags / 16 * 16 + code % 16
}

/// Writes the items of a list. Returns `true` if a record is left out that the message has to have.
fn write_items(
    items: &[u8],
    bare: bool,
    purpose: &Purpose<'_>,
    message: &mut [u8],
    writer: &mut WriterState,
) -> Result<bool, ListError>
    requires { first_item ≤ length message.old }
    ensures ok { IfOk result (λ missing. (d : Decoder) × (left : LeftOut)
        × WritesFrom bare purpose.now (progress_at items.now writer.old message.old) (progress d writer.new message.new left)
        × (missing ≡ left.missing) × (d.index ≡ length items.now)) }
    ensures err { IfErr result (λ failure. (p : Progress) × WritesFrom bare purpose.now (progress_at items.now writer.old message.old) p
        × FailsToWriteNext purpose.now p failure) }
{
    let mut decoder = BinDecoder::new(items);
    let mut left = LeftOut {
        closed: 0,
        missing: false,
        servers: false,
        pairs: 0,
        start: 0,
    };
    'list: while !decoder.is_empty() {
        write_next(bare, purpose, &mut decoder, message, writer, &mut left)?;
    }
    Ok(left.missing)
}

/// Writes the next items of a list: a question, or the records of a set. What comes last is passed, and each record of a
/// bare message.
fn write_next(
    bare: bool,
    purpose: &Purpose<'_>,
    decoder: &mut BinDecoder<'_>,
    message: &mut [u8],
    writer: &mut WriterState,
    left: &mut LeftOut,
) -> Result<(), ListError>
    requires left { decoder.old.index < length decoder.old.bytes }
    requires long { first_item ≤ length message.old }
    ensures ok { OnOk result (WritesNext bare purpose.now (progress decoder.old writer.old message.old left.old) (progress decoder.new writer.new message.new left.new)) }
    ensures err { IfErr result (FailsToWriteNext purpose.now (progress decoder.old writer.old message.old left.old)) }
{
    let octet = octet_at(decoder);
    if octet == QUESTION {
        return write_question(decoder, message, writer);
    }
    let Some(section) = section_after(octet) else {
        return Err(ListError::BadItem);
    };
    let passed = pass_end(bare, octet, decoder)?;
    if passed {
        return Ok(());
    }
    let there = what_is_there(section, decoder, message, writer, *left);
    if section.rank() != left.closed {
        return write_set(
            bare, purpose, octet, section, there, decoder, message, writer, left,
        );
    }
    leave_out(purpose, octet, section, there, decoder, left)
}

/// Returns what of a section is there.
fn what_is_there(
    section: Section,
    decoder: &BinDecoder<'_>,
    message: &[u8],
    writer: &WriterState,
    left: LeftOut,
) -> There
    requires { first_item ≤ length message.now }
    ensures { result ≡ what_is_there section (progress decoder.now writer.now message.now left) }
{
    let start = if writer.rank == section.rank() {
        left.start
    } else {
        decoder.index()
    };
    let count = count_of(message, section);
    There { start, count }
}

/// Passes a record of a list, which is left out. Something is missing if it has to be there, or if half of its set is.
fn leave_out(
    purpose: &Purpose<'_>,
    octet: u8,
    section: Section,
    there: There,
    decoder: &mut BinDecoder<'_>,
    left: &mut LeftOut,
) -> Result<(), ListError>
    requires { BeginsWithOctet decoder.old octet }
    ensures ok { OnOk result ((x : RecordValue) × (half : Bool) × TakesListed decoder.old octet x decoder.new
        × IsHalved (pairs_left section left.old) there decoder.old.bytes x half
        × (left.new ≡ left_with purpose.now section octet there half x left.old)) }
    ensures err { IfErr result (λ failure. LacksListed decoder.old × (failure ≡ BadItem)) }
{
    let list = decoder.message();
    let record = read_record(decoder)?;
    let half = is_halved(pairs_left(section, *left), there, list, &record);
    *left = left_with(purpose, section, octet, there, half, &record, *left);
    Ok(())
}

/// Returns how many pairs of records of a section may be compared once more.
fn pairs_left(section: Section, left: LeftOut) -> u16
    ensures { result ≡ pairs_left section left }
{
    if left.closed == section.rank() {
        left.pairs
    } else {
        MOST_PAIRS
    }
}

/// Writes a question.
fn write_question(
    decoder: &mut BinDecoder<'_>,
    message: &mut [u8],
    writer: &mut WriterState,
) -> Result<(), ListError>
    requires { BeginsWithOctet decoder.old question_octet }
    ensures ok { OnOk result ((name : List (List ℕ)) × (query_type : ℕ) × (class : ℕ)
        × TakesQuestion decoder.old name query_type class decoder.new
        × AddsItem Sections.Queries (question_form slot_of name query_type class) writer.old message.old writer.new message.new) }
    ensures err { IfErr result (λ failure. (IsNoItem decoder.old × (failure ≡ BadItem))
        ⊎ ((name : List (List ℕ)) × (query_type : ℕ) × (class : ℕ) × (after : Decoder)
        × TakesQuestion decoder.old name query_type class after
        × FailsToAddForm Sections.Queries (question_past slot_of name) writer.old message.old failure)) }
{
    let question = read_question(decoder)?;
    let mut room = [0; MAX_NAME];
    let name = question.name.wire_labels(&mut room);
    match writer.question(message, name, question.query_type, question.class) {
        Ok(()) => Ok(()),
        Err(error) => Err(of_write(&error)),
    }
}

/// Writes the records of a set. If they have no room, those that were written are taken back, as if the set had not been tried, and
/// the first is left out, and with it the later records of its section; or it fails if the message is never cut.
fn write_set(
    bare: bool,
    purpose: &Purpose<'_>,
    octet: u8,
    section: Section,
    there: There,
    decoder: &mut BinDecoder<'_>,
    message: &mut [u8],
    writer: &mut WriterState,
    left: &mut LeftOut,
) -> Result<(), ListError>
    requires there { there ≡ what_is_there section (progress decoder.old writer.old message.old left.old) }
    requires begins { BeginsWithOctet decoder.old octet }
    requires octet { IsOctetOf octet section }
    requires open { rank section ≢ left.old.closed }
    requires no_end { IsNoEnd octet decoder.old }
    ensures ok { OnOk result (WritesNext bare purpose.now (progress decoder.old writer.old message.old left.old) (progress decoder.new writer.new message.new left.new)) }
    ensures err { IfErr result (FailsToWriteNext purpose.now (progress decoder.old writer.old message.old left.old)) }
{
    let saved = *writer;
    let count = two_at(message, section.offset_of_count());
    let mut ahead = again(decoder);
    match add_records(octet, section, &mut ahead, message, writer) {
        Ok(()) => {
            *decoder = ahead;
            left.start = there.start;
            Ok(())
        }
        Err(ListError::TooLong) => {
            if purpose.is_uncut() {
                return Err(ListError::TooLong);
            }
            take_back(section, count, &saved, message, writer);
            leave_out(purpose, octet, section, there, decoder, left)
        }
        Err(failure) => Err(failure),
    }
}

/// Adds the records of the set that is next, up to the first that fails.
fn add_records(
    octet: u8,
    section: Section,
    decoder: &mut BinDecoder<'_>,
    message: &mut [u8],
    writer: &mut WriterState,
) -> Result<(), ListError>
    requires begins { BeginsWithOctet decoder.old octet }
    requires no_end { IsNoEnd octet decoder.old }
    ensures ok { OnOk result (AddsRecords decoder.old octet section writer.old message.old decoder.new writer.new message.new) }
    ensures err { IfErr result (λ failure.
        FailsToAddRecords decoder.old octet section writer.old message.old failure
        ⊎ ((failure ≡ BadItem) × LacksListed decoder.old)) }
    ensures kept { OnErr result (KeptCount section (take writer.old.end message.old) (take writer.old.end message.new)) }
{
    let first = read_record(decoder)?;
    let added = add_listed(section, &first, message, writer);
    if let Err(failure) = added {
        return Err(failure);
    }
    'set: while let Some(record) = next_of_set(octet, &first, decoder) {
        let added = add_listed(section, &record, message, writer);
        if let Err(failure) = added {
            return Err(failure);
        }
    }
    Ok(())
}

/// Adds a record of a list to a section.
#[inline(always)]
pub(crate) fn add_listed(
    section: Section,
    item: &RecordRef<'_>,
    message: &mut [u8],
    writer: &mut WriterState,
) -> Result<(), ListError>
    ensures ok { OnOk result (AddsListed section item.now writer.old message.old writer.new message.new) }
    ensures err { IfErr result (FailsToAddListed section item.now writer.old message.old) }
    ensures same { OnErr result (StaysAsItWas writer.old message.old writer.new message.new) }
{
    let mut room = [0; MAX_NAME];
    let owner = item.owner().wire_labels(&mut room);
    let record_type = u16::from(item.record_type());
    let class = u16::from(item.class());
    match writer.record_data(
        message,
        section,
        owner,
        record_type,
        class,
        item.ttl(),
        item.rdata(),
    ) {
        Ok(()) => Ok(()),
        Err(error) => Err(of_data(&error)),
    }
}

/// Takes back what was added of a set to a message that had this state and this count.
fn take_back(
    section: Section,
    count: [u8; 2],
    saved: &WriterState,
    message: &mut [u8],
    writer: &mut WriterState,
)
    ensures state { writer.new ≡ saved.now }
    ensures count { ((first_item ≤ saved.now.end) × (first_item ≤ length message.old) × (message.new ≡ put_at message.old (offset_of_count section) count))
        ⊎ (((saved.now.end < first_item) ⊎ (length message.old < first_item)) × (message.new ≡ message.old)) }
{
    *writer = *saved;
    if saved.end >= FIRST_ITEM && message.len() >= FIRST_ITEM {
        let at = section.offset_of_count();
        message[at..at + 2].copy_from_slice(&count);
    }
}

/// Returns what is left out, with a record of a section, after which nothing of the section is written.
fn left_with(
    purpose: &Purpose<'_>,
    section: Section,
    octet: u8,
    there: There,
    half: bool,
    item: &RecordRef<'_>,
    left: LeftOut,
) -> LeftOut
    ensures { result ≡ left_with purpose.now section octet there half item.now left }
{
    let out = is_server_out(section, left);
    LeftOut {
        closed: section.rank(),
        missing: left.missing || (has_to_be_there(purpose, section, octet, out, item) || half),
        servers: out || is_server(item),
        pairs: pairs_left(section, left).saturating_sub(there.count),
        start: there.start,
    }
}

/// Returns `true` if a server of a section is left out so far.
fn is_server_out(section: Section, left: LeftOut) -> bool
    ensures { result ≡ is_server_out section left }
{
    left.closed == section.rank() && left.servers
}

/// Returns `true` if the message has to have a record: by the word of the caller, or else by what the message is for.
fn has_to_be_there(
    purpose: &Purpose<'_>,
    section: Section,
    octet: u8,
    out: bool,
    item: &RecordRef<'_>,
) -> bool
    ensures { result ≡ has_to_be_there purpose.now section octet out item.now }
{
    if octet < REQUIRED {
        return purpose.is_required(section, out, item);
    }
    octet < OPTIONAL
}

/// Says in the header if something is missing.
fn finish(message: &mut [u8], missing: bool)
    ensures { message.new ≡ (if missing then cut_off message.old else message.old) }
{
    if missing {
        cut_off(message);
    }
}
