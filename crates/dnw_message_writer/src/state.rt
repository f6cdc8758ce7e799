//! Messages, written item by item.
ghost use Rattle.std.specs.Prelude.{◌≡◌, ◌<◌, ◌≤◌, ◌⊎◌, ◌+◌, length, take, IfOk, IfErr, OnOk, OnErr};
ghost use Rattle.dnw_base.specs.Limits.{max_message};
ghost use Rattle.dnw_message_writer.specs.CompressedNames.{put_at};
ghost use Rattle.dnw_message_writer.specs.Hints.{slot_of};
ghost use Rattle.dnw_message_writer.specs.Items.{question_form, question_past, record_form, record_past};
ghost use Rattle.dnw_message_writer.specs.States.{AddsItem, BeginsMessage, FailsToAdd, FailsToTakeLimit, IsLimit, added, with_one_more, room_of, count_in_header};
ghost use Rattle.dnw_message_writer.specs.declared.section.Section.TheVariants as Sections;
ghost use Rattle.dnw_message_writer.specs.declared.section.WriteError.TheVariants.{NoRoom};

use crate::hints::SLOTS;
use crate::items::place_at;
use crate::names::put_at;
use crate::pieces::Piece;
use crate::section::{Section, WriteError};
use crate::standing::FIRST_ITEM;
use crate::whole::{add_question, add_record};
use dnw_base::limits::MAX_MESSAGE;
use dnw_base::record_type::RecordType;
use dnw_name_form::wire_labels::WireLabels;

/// What a writer knows of the message that it writes into a buffer: plain data without an invariant.
///
/// The octets of the buffer up to `end` are a message after each call. A state that was spoiled can make a message longer, or make
/// calls fail, and never makes a name wrong: each hint is checked by reading.
#[repr(C)]
#[derive(Clone, Copy)]
pub struct WriterState {
    /// Where the message ends.
    pub end: usize,
    /// The most octets that it may have. It never has more than 65,535, nor more than the buffer.
    pub max_size: usize,
    /// How many of these are held back for items that come last.
    pub reserved: usize,
    /// The place of the last owner or name of a question.
    pub owner: u16,
    /// How many sections are before that of the last item.
    pub rank: u8,
    /// 1 if the message has an `OPT` record, and else 0.
    pub has_opt: u8,
    /// Where suffixes of names may stand.
    pub hints: [u16; SLOTS],
}

impl WriterState {
    /// Begins a message: puts a header without items at the start of the buffer (RFC 1035, section 4.1.1). It fails with `NoRoom` if the
    /// buffer or the maximum has none for a header.
    pub fn begin(
        &mut self,
        message: &mut [u8],
        id: u16,
        flags: u16,
        max_size: usize,
    ) -> Result<(), WriteError>
        ensures ok { OnOk result (BeginsMessage id flags max_size message.old self.new message.new) }
        ensures err { IfErr result (λ e. (e ≡ NoRoom) × ((length message.old < 12) ⊎ (max_size < 12))) }
        ensures same { OnErr result ((self.new ≡ self.old) × (message.new ≡ message.old)) }
    {
        if message.len() < FIRST_ITEM || max_size < FIRST_ITEM {
            return Err(WriteError::NoRoom);
        }
        let id = id.to_be_bytes();
        let flags = flags.to_be_bytes();
        put_at(
            message,
            0,
            &[id[0], id[1], flags[0], flags[1], 0, 0, 0, 0, 0, 0, 0, 0],
        );
        *self = WriterState {
            end: FIRST_ITEM,
            max_size,
            reserved: 0,
            owner: 0,
            rank: 0,
            has_opt: 0,
            hints: [0; SLOTS],
        };
        Ok(())
    }

    /// Adds a question, or nothing of it (RFC 1035, section 4.1.2).
    pub fn question(
        &mut self,
        message: &mut [u8],
        name: WireLabels<'_>,
        query_type: u16,
        class: u16,
    ) -> Result<(), WriteError>
        ensures ok { OnOk result (AddsItem Sections.Queries (question_form slot_of name.entry query_type class) self.old message.old self.new message.new) }
        ensures err { IfErr result (FailsToAdd Sections.Queries (question_past slot_of name.entry) self.old message.old) }
        ensures same { OnErr result ((self.new ≡ self.old) × (take self.old.end message.new ≡ take self.old.end message.old)) }
    {
        let limit = self.limit_for(message, Section::Queries, false)?;
        match add_question(
            message,
            self.end,
            limit,
            self.owner,
            &mut self.hints,
            name,
            query_type,
            class,
        ) {
            Some(end) => {
                self.close(message, Section::Queries, false, end);
                Ok(())
            }
            None => Err(WriteError::NoRoom),
        }
    }

    /// Adds a record to a section, or nothing of it (RFC 1035, section 4.1.3). A message has one `OPT` record at most (RFC 6891,
    /// section 6.1.1).
    #[inline(always)]
    pub fn record(
        &mut self,
        message: &mut [u8],
        section: Section,
        owner: WireLabels<'_>,
        record_type: u16,
        class: u16,
        ttl: u32,
        pieces: &[Piece<'_>],
    ) -> Result<(), WriteError>
        ensures ok { OnOk result (AddsItem section (record_form slot_of owner.entry record_type class ttl pieces.now) self.old message.old self.new message.new) }
        ensures err { IfErr result (FailsToAdd section (record_past slot_of owner.entry record_type class ttl pieces.now) self.old message.old) }
        ensures same { OnErr result ((self.new ≡ self.old) × (take self.old.end message.new ≡ take self.old.end message.old)) }
    {
        let is_opt = record_type == RecordType::OPT.code();
        let limit = self.limit_for(message, section, is_opt)?;
        match add_record(
            message,
            self.end,
            limit,
            self.owner,
            &mut self.hints,
            owner,
            record_type,
            class,
            ttl,
            pieces,
        ) {
            Some(end) => {
                self.close(message, section, is_opt, end);
                Ok(())
            }
            None => Err(WriteError::NoRoom),
        }
    }

    /// Returns the offset up to which an item of this section, an `OPT` record or another, may go.
    #[inline(always)]
    fn limit_for(&self, message: &[u8], section: Section, is_opt: bool) -> Result<usize, WriteError>
        ensures ok { IfOk result (IsLimit section is_opt self.now message.now) }
        ensures err { IfErr result (FailsToTakeLimit section is_opt self.now message.now) }
    {
        if self.end < FIRST_ITEM
            || message.len() < FIRST_ITEM
            || count_of(message, section) == u16::MAX
        {
            return Err(WriteError::NoMessage);
        }
        if section.rank() < self.rank {
            return Err(WriteError::OutOfOrder);
        }
        if is_opt && self.has_opt != 0 {
            return Err(WriteError::SecondOpt);
        }
        let limit = self.room_of(message);
        if limit < self.end {
            return Err(WriteError::NoRoom);
        }
        Ok(limit)
    }

    /// Returns the offset up to which items may go.
    #[inline(always)]
    pub(crate) fn room_of(&self, message: &[u8]) -> usize
        ensures { result ≡ room_of self.now message.now }
    {
        let most = usize::from(MAX_MESSAGE)
            .min(message.len())
            .min(self.max_size);
        most.saturating_sub(self.reserved)
    }

    /// Takes an item as added, which ends here: counts it, and keeps the place of its owner.
    #[inline(always)]
    fn close(&mut self, message: &mut [u8], section: Section, is_opt: bool, end: usize)
        requires header { 12 ≤ length message.old }
        requires few { count_in_header section message.old < 65535 }
        requires at { self.old.end ≤ max_message }
        ensures state { self.new ≡ added section is_opt message.old end self.old }
        ensures message { message.new ≡ with_one_more section message.old }
    {
        self.owner = place_at(message, self.end);
        self.end = end;
        self.rank = section.rank();
        if is_opt {
            self.has_opt = 1;
        }
        let count = count_of(message, section) + 1;
        put_at(message, section.offset_of_count(), &count.to_be_bytes());
    }
}

/// Returns how many items the header says that a section has.
#[inline(always)]
pub(crate) fn count_of(message: &[u8], section: Section) -> u16
    requires { 12 ≤ length message.now }
    ensures { result ≡ count_in_header section message.now }
{
    let at = section.offset_of_count();
    u16::from_be_bytes([message[at], message[at + 1]])
}
