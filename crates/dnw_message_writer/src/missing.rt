//! What is left out of a message that is written again, and whether it has to have it.
ghost use Rattle.std.specs.Prelude.{◌≡◌, ◌≤◌, ◌&&◌, drop, false, length, IfErr, IfOk};
ghost use Rattle.dnw_message_writer.specs.Copying.{MayNotMiss, Misses, lacks_of, lacks_some, sets_of};
ghost use Rattle.dnw_message_writer.specs.Needs.{with_all_asked, has_required, purpose_of, holding_all};
ghost use Rattle.dnw_message_writer.specs.Sections.{rank};

use crate::copying::{CopyError, flags_of, next_of};
use crate::halves::{lacks_half_of, section_records};
use crate::needs::{Purpose, is_server};
use crate::section::{Section, WriteError};
use crate::state::count_of;
use dnw_message_read::items::{Queries, Records};
use dnw_message_read::message::MessageRef;

/// Returns `true` if all records of the three sections are added.
pub(crate) fn are_all(answers: bool, authorities: bool, additionals: bool) -> bool
    ensures { result ≡ (answers && (authorities && additionals)) }
{
    answers && (authorities && additionals)
}

/// Returns `true` if a record is left out that the message has to have. If any is left out of a message that is never cut, it fails.
pub(crate) fn what_is_missing(
    source: &MessageRef<'_>,
    message: &[u8],
    all: bool,
) -> Result<bool, CopyError>
    requires { 12 ≤ length message.now }
    ensures ok { IfOk result (Misses source.now message.now all) }
    ensures err { IfErr result (MayNotMiss source.now all) }
{
    if all {
        return Ok(false);
    }
    let purpose = purpose_of(source);
    if purpose.is_uncut() {
        return Err(CopyError::Write(WriteError::NoRoom));
    }
    Ok(lacks_some(&purpose, source, message))
}

/// Returns what a message is for.
fn purpose_of<'m>(source: &MessageRef<'m>) -> Purpose<'m>
    ensures { result ≡ purpose_of source.now }
{
    let mut purpose = Purpose::new(flags_of(source));
    ask_all(&mut purpose, source.queries());
    take_all(&mut purpose, Section::Answers, source.answers());
    take_all(&mut purpose, Section::Authorities, source.authorities());
    purpose
}

/// Takes questions of a message.
fn ask_all(purpose: &mut Purpose<'_>, mut queries: Queries<'_>)
    ensures { purpose.new ≡ with_all_asked queries.entry purpose.old }
{
    'queries: while let Some(query) = queries.next() {
        purpose.ask(query.query_type().code());
    }
}

/// Takes records of a section of a message.
fn take_all<'m>(purpose: &mut Purpose<'m>, section: Section, mut records: Records<'m>)
    ensures { purpose.new ≡ holding_all section records.entry purpose.old }
{
    'records: while let Some(record) = records.next() {
        purpose.take(section, record);
    }
}

/// Returns `true` if something is missing of one of the sections.
fn lacks_some(purpose: &Purpose<'_>, source: &MessageRef<'_>, message: &[u8]) -> bool
    requires long { 12 ≤ length message.now }
    requires purpose { purpose.now ≡ purpose_of source.now }
    ensures { result ≡ lacks_some source.now message.now }
{
    lacks(purpose, Section::Answers, source, message)
        || (lacks(purpose, Section::Authorities, source, message)
            || lacks(purpose, Section::Additionals, source, message))
}

/// Returns `true` if something is missing of a section: a record that the message has to have, or half of a set.
fn lacks(purpose: &Purpose<'_>, section: Section, source: &MessageRef<'_>, message: &[u8]) -> bool
    requires long { 12 ≤ length message.now }
    requires records { 1 ≤ rank section }
    requires purpose { purpose.now ≡ purpose_of source.now }
    ensures { result ≡ lacks_of section source.now message.now }
{
    let mut records = section_records(section, source);
    pass(section, &mut records, count_of(message, section));
    has_required(purpose, section, records) || lacks_half_of(section, source, message)
}

/// Passes so many records of a section.
pub(crate) fn pass(section: Section, records: &mut Records<'_>, count: u16)
    ensures { sets_of section records.new ≡ drop count (sets_of section records.old) }
{
    let mut left = count;
    'records: while left > 0 {
        match next_of(section, records) {
            Some(_) => left -= 1,
            None => return,
        }
    }
}

/// Returns `true` if a message has to have one of these records of a section.
fn has_required(purpose: &Purpose<'_>, section: Section, mut records: Records<'_>) -> bool
    ensures { result ≡ has_required section purpose.now false (sets_of section records.entry) }
{
    let mut out = false;
    'records: while let Some(record) = next_of(section, &mut records) {
        if purpose.is_required(section, out, &record) {
            return true;
        }
        out = out || is_server(&record);
    }
    false
}
