//! Records and messages that were read, written again.
ghost use Rattle.std.specs.Prelude.{◌≡◌, ◌∷◌, ◌<◌, ◌≤◌, ◌^◌, ◌↔◌, [], length, replicate, take, IfErr, IfNone, IfOk, IfSome, IsTrue, MatchOption, OnErr, OnOk};
ghost use Rattle.dnw_base.specs.Names.{AreLabels, lower};
ghost use Rattle.dnw_record.specs.DataCopies.{Copies, data_start, record_kinds};
ghost use Rattle.dnw_message_read.specs.Headers.{flags_of};
ghost use Rattle.dnw_message_writer.specs.Copying.{AreOfOneKind, AreOfOneSet, CopiesBody, CopiesHeld, CopiesMessage, CopiesQuestions, CopiesSections, CopiesSets, FailsBody, FailsHeld, FailsQuestions, FailsSections, FailsSets, FailsToAddCopy, FailsToHold, HoldsFor, IsWholeSize, FailsToAddQuery, FailsToCopyMessage, StandWhole, StopsAmong, StopsInSet, copied_form, covers_no_type, copied_past, held_in, is_held, query_form, sets_of, signs_message, size_with};
ghost use Rattle.dnw_message_writer.specs.Inside.CopiedSets.{AddsFirstSet, first_of};
ghost use Rattle.dnw_message_writer.specs.Inside.Taken.{IsCopiedIn};
ghost use Rattle.dnw_message_writer.specs.Inside.Turns.{KeptCount};
ghost use Rattle.dnw_message_writer.specs.Hints.{slot_of};
ghost use Rattle.dnw_message_writer.specs.Items.{question_form, question_past, record_form, record_past};
ghost use Rattle.dnw_message_writer.specs.Sets.{AddsSet};
ghost use Rattle.dnw_message_writer.specs.States.{AddsItem, BeginsMessage, FailsToAdd};
ghost use Rattle.dnw_message_writer.specs.declared.copying.CopyError.TheVariants.{Memory};
ghost use Rattle.dnw_message_writer.specs.declared.section.Section.TheVariants as Sections;

use crate::data::pieces_of;
use crate::hints::SLOTS;
use crate::missing::{are_all, what_is_missing};
use crate::names::put_at;
use crate::needs::{is_server, signs_servers};
use crate::pieces::Piece;
use crate::reply::field_at;
use crate::section::{Section, WriteError};
use crate::set::{cut_off, two_at};
use crate::standing::FIRST_ITEM;
use crate::state::WriterState;
use crate::taking::{MOST_NAMES, octets_in, pieces_in, whole_data};
use dnw_base::limits::{MAX_NAME, MAX_POINTERS};
use dnw_base::record_type::RecordType;
use dnw_data::fields::FieldError;
use dnw_message_read::edns::EdnsError;
use dnw_message_read::items::{Queries, Records};
use dnw_message_read::message::MessageRef;
use dnw_name::name_ref::NameRef;
use dnw_name_order::order::eq_labels;
use dnw_record::rdata::{RData, RDataError};
use dnw_record::record_ref::{FIXED_SIZE, RecordRef};
use std::alloc::Global;
use thiserror::Error;

/// Why a record or a message is not written again.
#[derive(Debug, Drop, Error)]
pub enum CopyError {
    /// The data of a record are no fields of its class and type.
    #[error("data at offset {offset}: {error}")]
    Data {
        /// The offset in the message at which the data begin.
        offset: usize,
        /// The field, and what is wrong with it.
        error: FieldError,
    },
    /// What the message says by EDNS breaks a rule.
    #[error("{0}")]
    Edns(EdnsError),
    /// An item was not added.
    #[error("{0}")]
    Write(WriteError),
    /// The names in the data of the records follow more pointers than are allowed.
    #[error("the names in the data follow too many pointers")]
    TooManyPointers,
    /// An allocation failed.
    #[error("out of memory")]
    Memory,
}

impl WriterState {
    /// Creates a state of no message: it is for `begin`, `reply_to` or `copy`.
    #[inline(always)]
    pub fn new() -> Self
        ensures { result ≡ record { end = 0; max_size = 0; reserved = 0; owner = 0; rank = 0; has_opt = 0; hints = replicate 512 0 } }
    {
        WriterState {
            end: 0,
            max_size: 0,
            reserved: 0,
            owner: 0,
            rank: 0,
            has_opt: 0,
            hints: [0; SLOTS],
        }
    }

    /// Adds a record of another message to a section, or nothing of it. Names in its data are followed through their pointers, and
    /// those that may be compressed are (RFC 3597, section 4).
    ///
    /// It fails with `Data` if its data are no fields of its class and type, and with `Memory` if an allocation fails. It allocates
    /// only if a name in the data that may not be compressed has a pointer, and so never fails with `Memory` if no name has one.
    #[inline(always)]
    pub fn record_of(
        &mut self,
        alloc: Global,
        message: &mut [u8],
        section: Section,
        item: &RecordRef<'_>,
    ) -> Result<(), CopyError>
        ensures ok { OnOk result (AddsItem section (copied_form item.now) self.old message.old self.new message.new) }
        ensures err { IfErr result (FailsToAddCopy section item.now self.old message.old) }
        ensures same { OnErr result ((self.new ≡ self.old) × (take self.old.end message.new ≡ take self.old.end message.old)) }
    {
        let Some(piece) = octets_in(item) else {
            return self.record_named(alloc, message, section, item);
        };
        match self.add_pieces(message, section, item, &[piece]) {
            Ok(()) => Ok(()),
            Err(error) => Err(CopyError::Write(error)),
        }
    }

    /// Adds a record of another message, as `record_of` does. Mostly its data have a name that may be compressed.
    #[inline(never)]
    fn record_named(
        &mut self,
        alloc: Global,
        message: &mut [u8],
        section: Section,
        item: &RecordRef<'_>,
    ) -> Result<(), CopyError>
        ensures ok { OnOk result (AddsItem section (copied_form item.now) self.old message.old self.new message.new) }
        ensures err { IfErr result (FailsToAddCopy section item.now self.old message.old) }
        ensures same { OnErr result ((self.new ≡ self.old) × (take self.old.end message.new ≡ take self.old.end message.old)) }
    {
        let mut rooms = [[0; MAX_NAME]; MOST_NAMES];
        let Some(pieces) = pieces_in(item, &mut rooms) else {
            return self.copy_of(alloc, message, section, item);
        };
        match self.add_pieces(message, section, item, pieces.as_slice()) {
            Ok(()) => Ok(()),
            Err(error) => Err(CopyError::Write(error)),
        }
    }

    /// Adds a record of another message, with a copy of its data, or nothing of it.
    #[inline(never)]
    fn copy_of(
        &mut self,
        alloc: Global,
        message: &mut [u8],
        section: Section,
        item: &RecordRef<'_>,
    ) -> Result<(), CopyError>
        requires { StandWhole item.now → ⊥ }
        ensures ok { OnOk result (AddsItem section (copied_form item.now) self.old message.old self.new message.new) }
        ensures err { IfErr result (FailsToAddCopy section item.now self.old message.old) }
        ensures same { OnErr result ((self.new ≡ self.old) × (take self.old.end message.new ≡ take self.old.end message.old)) }
    {
        let data = match RData::from_ref(alloc, item) {
            Ok(data) => data,
            Err(RDataError::Field(error)) => {
                let offset = item.rdata_offset();
                return Err(CopyError::Data { offset, error });
            }
            Err(RDataError::Memory) => return Err(CopyError::Memory),
        };
        match self.add_copy(message, section, item, &data) {
            Ok(()) => Ok(()),
            Err(error) => Err(CopyError::Write(error)),
        }
    }

    /// Adds a record whose data have this copy, or nothing of it.
    fn add_copy(
        &mut self,
        message: &mut [u8],
        section: Section,
        item: &RecordRef<'_>,
        data: &RData,
    ) -> Result<(), WriteError>
        requires { (data.now.class ≡ item.now.class) × (data.now.record_type ≡ item.now.record_type)
            × Copies (record_kinds item.now) (data_start item.now) data.now.octets }
        ensures ok { OnOk result (AddsItem section (copied_form item.now) self.old message.old self.new message.new) }
        ensures err { IfErr result (FailsToAdd section (copied_past item.now) self.old message.old) }
        ensures same { OnErr result ((self.new ≡ self.old) × (take self.old.end message.new ≡ take self.old.end message.old)) }
    {
        let class = u16::from(data.class());
        let record_type = u16::from(data.record_type());
        let Some(pieces) = pieces_of(class, record_type, data.octets()) else {
            unreachable!();
        };
        self.add_pieces(message, section, item, pieces.as_slice())
    }

    /// Adds a record whose data are these pieces, or nothing of it.
    fn add_pieces(
        &mut self,
        message: &mut [u8],
        section: Section,
        item: &RecordRef<'_>,
        pieces: &[Piece<'_>],
    ) -> Result<(), WriteError>
        requires { IsCopiedIn item.now pieces.now }
        ensures ok { OnOk result (AddsItem section (copied_form item.now) self.old message.old self.new message.new) }
        ensures err { IfErr result (FailsToAdd section (copied_past item.now) self.old message.old) }
        ensures same { OnErr result ((self.new ≡ self.old) × (take self.old.end message.new ≡ take self.old.end message.old)) }
    {
        let record_type = u16::from(item.record_type());
        let class = u16::from(item.class());
        let ttl = item.ttl();
        self.add_owned(
            message,
            section,
            item.owner(),
            record_type,
            class,
            ttl,
            pieces,
        )
    }

    /// Adds a record with this owner and these pieces, or nothing of it.
    #[inline(always)]
    fn add_owned(
        &mut self,
        message: &mut [u8],
        section: Section,
        owner: &NameRef<'_>,
        record_type: u16,
        class: u16,
        ttl: u32,
        pieces: &[Piece<'_>],
    ) -> Result<(), WriteError>
        ensures ok { OnOk result (AddsItem section (record_form slot_of owner.now record_type class ttl pieces.now) self.old message.old self.new message.new) }
        ensures err { IfErr result (FailsToAdd section (record_past slot_of owner.now record_type class ttl pieces.now) self.old message.old) }
        ensures same { OnErr result ((self.new ≡ self.old) × (take self.old.end message.new ≡ take self.old.end message.old)) }
        ensures fit { (record_type < 2 ^ 16) × (class < 2 ^ 16) × (ttl < 2 ^ 32) × AreLabels owner.now }
    {
        let _len = owner.encoded_len();
        let Some(labels) = owner.labels_in_place() else {
            return self.add_gathered(message, section, owner, record_type, class, ttl, pieces);
        };
        self.record(message, section, labels, record_type, class, ttl, pieces)
    }

    /// Adds a record, as `add_owned` does, whose owner does not stand in one piece.
    #[inline(never)]
    fn add_gathered(
        &mut self,
        message: &mut [u8],
        section: Section,
        owner: &NameRef<'_>,
        record_type: u16,
        class: u16,
        ttl: u32,
        pieces: &[Piece<'_>],
    ) -> Result<(), WriteError>
        ensures ok { OnOk result (AddsItem section (record_form slot_of owner.now record_type class ttl pieces.now) self.old message.old self.new message.new) }
        ensures err { IfErr result (FailsToAdd section (record_past slot_of owner.now record_type class ttl pieces.now) self.old message.old) }
        ensures same { OnErr result ((self.new ≡ self.old) × (take self.old.end message.new ≡ take self.old.end message.old)) }
    {
        let mut room = [0; MAX_NAME];
        let labels = owner.wire_labels(&mut room);
        self.record(message, section, labels, record_type, class, ttl, pieces)
    }

    /// Writes a message that was read again, with compression, in at most `max_size` octets: its header, its questions, and its
    /// records, section by section and set by set.
    ///
    /// A set that has no room is left out whole, and so are the later ones of its section. If a record is left out that the message
    /// has to have, TC is set (RFC 2181, section 9): any answer; what denies or refers in the authority section, with its signatures;
    /// and the addresses of servers below a cut. `specs/Needs.antt` has each case. A request, or part of a transfer, is never cut.
    /// Octets are held back for an `OPT` record, and for a signature of the message, TSIG or SIG(0). These come last, and are never
    /// left out.
    ///
    /// It fails with `Edns` if the message breaks a rule of EDNS, as `MessageRef::edns` reports it; with `TooManyPointers` if the names in
    /// the data of its records follow more than 65,536 pointers in all; with `Data` if the data of a record are no fields of its class
    /// and type; and with `Write` if the header, the questions and the records that come last have no room, or any record of a message
    /// that is never cut. If it fails, the state is unchanged, but the octets of the message may have changed.
    pub fn copy(
        &mut self,
        alloc: Global,
        message: &mut [u8],
        source: &MessageRef<'_>,
        max_size: usize,
    ) -> Result<(), CopyError>
        ensures ok { OnOk result (CopiesMessage source.now max_size message.old self.new message.new) }
        ensures err { IfErr result (FailsToCopyMessage source.now max_size message.old) }
        ensures same { OnErr result (self.new ≡ self.old) }
    {
        let saved = *self;
        let copied = self.copy_items(alloc, message, source, max_size);
        if copied.is_err() {
            *self = saved;
        }
        copied
    }

    /// Writes a message again.
    pub(crate) fn copy_items(
        &mut self,
        alloc: Global,
        message: &mut [u8],
        source: &MessageRef<'_>,
        max_size: usize,
    ) -> Result<(), CopyError>
        ensures ok { OnOk result (CopiesMessage source.now max_size message.old self.new message.new) }
        ensures err { IfErr result (FailsToCopyMessage source.now max_size message.old) }
    {
        match source.opt() {
            Ok(_) => {}
            Err(error) => return Err(CopyError::Edns(error)),
        }
        let missing = match self.copy_body(alloc, message, source, max_size) {
            Ok(missing) => missing,
            Err(error) => return Err(error),
        };
        match self.copy_held(alloc, message, source) {
            Ok(()) => {}
            Err(error) => return Err(error),
        }
        if missing {
            cut_off(message);
        }
        Ok(())
    }

    /// Writes a message again, but for the records that come last. Returns `true` if a record is left out that the message has to have.
    pub(crate) fn copy_body(
        &mut self,
        alloc: Global,
        message: &mut [u8],
        source: &MessageRef<'_>,
        max_size: usize,
    ) -> Result<bool, CopyError>
        ensures ok { IfOk result (CopiesBody source.now max_size message.old self.new message.new) }
        ensures err { IfErr result (FailsBody source.now max_size message.old) }
    {
        if !source.data_follow_few(MAX_POINTERS) {
            return Err(CopyError::TooManyPointers);
        }
        if max_size < FIRST_ITEM || message.len() < FIRST_ITEM {
            return Err(CopyError::Write(WriteError::NoRoom));
        }
        match self.copy_questions(alloc, message, source, max_size) {
            Ok(()) => {}
            Err(error) => return Err(error),
        }
        match self.copy_sections(alloc, message, source) {
            Ok(missing) => Ok(missing),
            Err(error) => Err(error),
        }
    }

    /// Begins with the header and the questions of a message.
    fn copy_questions(
        &mut self,
        alloc: Global,
        message: &mut [u8],
        source: &MessageRef<'_>,
        max_size: usize,
    ) -> Result<(), CopyError>
        requires enough { 12 ≤ max_size }
        requires room { 12 ≤ length message.old }
        ensures ok { OnOk result (CopiesQuestions source.now max_size message.old self.new message.new) }
        ensures err { IfErr result (FailsQuestions source.now max_size message.old) }
    {
        let id = source.header().metadata.id;
        let flags = flags_of(source);
        let held = match held_octets(alloc, source.additionals()) {
            Ok(held) => held,
            Err(error) => return Err(error),
        };
        self.begin_copy(message, id, flags, max_size);
        self.reserved = held;
        self.copy_queries(message, source.queries())
    }

    /// Begins a message in a buffer that has room for a header.
    fn begin_copy(&mut self, message: &mut [u8], id: u16, flags: u16, max_size: usize)
        requires enough { 12 ≤ max_size }
        requires room { 12 ≤ length message.old }
        ensures begins { BeginsMessage id flags max_size message.old self.new message.new }
        ensures fit { (id < 2 ^ 16) × (flags < 2 ^ 16) }
    {
        self.begin(message, id, flags, max_size).unwrap();
    }

    /// Adds questions.
    fn copy_queries(
        &mut self,
        message: &mut [u8],
        mut queries: Queries<'_>,
    ) -> Result<(), CopyError>
        ensures ok { OnOk result (AddsSet Sections.Queries query_form queries.entry self.old message.old self.new message.new) }
        ensures err { IfErr result (StopsAmong Sections.Queries query_form FailsToAddQuery queries.entry self.old message.old) }
    {
        'queries: while let Some(query) = queries.next() {
            let query_type = u16::from(query.query_type());
            let class = u16::from(query.query_class());
            let added = self.add_query(message, query.name(), query_type, class);
            if let Err(error) = added {
                return Err(CopyError::Write(error));
            }
        }
        Ok(())
    }

    /// Adds a question with this name, or nothing of it.
    fn add_query(
        &mut self,
        message: &mut [u8],
        name: &NameRef<'_>,
        query_type: u16,
        class: u16,
    ) -> Result<(), WriteError>
        ensures ok { OnOk result (AddsItem Sections.Queries (question_form slot_of name.now query_type class) self.old message.old self.new message.new) }
        ensures err { IfErr result (FailsToAdd Sections.Queries (question_past slot_of name.now) self.old message.old) }
        ensures fit { (query_type < 2 ^ 16) × (class < 2 ^ 16) × AreLabels name.now }
    {
        let mut room = [0; MAX_NAME];
        let _len = name.encoded_len();
        self.question(message, name.wire_labels(&mut room), query_type, class)
    }

    /// Adds the records of a message, but for those that come last. Returns `true` if one is left out that the message has to have.
    fn copy_sections(
        &mut self,
        alloc: Global,
        message: &mut [u8],
        source: &MessageRef<'_>,
    ) -> Result<bool, CopyError>
        requires { 12 ≤ length message.old }
        ensures ok { IfOk result (CopiesSections source.now self.old message.old self.new message.new) }
        ensures err { IfErr result (FailsSections source.now self.old message.old) }
    {
        let answers = match self.copy_sets(alloc, message, Section::Answers, source.answers()) {
            Ok(all) => all,
            Err(error) => return Err(error),
        };
        let authorities = match self.copy_sets(
            alloc,
            message,
            Section::Authorities,
            source.authorities(),
        ) {
            Ok(all) => all,
            Err(error) => return Err(error),
        };
        let additionals = match self.copy_sets(
            alloc,
            message,
            Section::Additionals,
            source.additionals(),
        ) {
            Ok(all) => all,
            Err(error) => return Err(error),
        };
        what_is_missing(source, message, are_all(answers, authorities, additionals))
    }

    /// Adds records to a section, set by set, up to the first set that has no room. Returns `true` if all are added.
    fn copy_sets(
        &mut self,
        alloc: Global,
        message: &mut [u8],
        section: Section,
        mut records: Records<'_>,
    ) -> Result<bool, CopyError>
        ensures ok { IfOk result (CopiesSets section (sets_of section records.entry) self.old message.old self.new message.new) }
        ensures err { IfErr result (λ e. FailsSets section e (sets_of section records.entry) self.old message.old) }
    {
        let mut first = next_of(section, &mut records);
        'sets: while let Some(record) = first {
            match self.copy_set(alloc, message, section, &record, &mut records) {
                Ok(next) => first = next,
                Err(CopyError::Write(WriteError::NoRoom)) => return Ok(false),
                Err(error) => return Err(error),
            }
        }
        Ok(true)
    }

    /// Adds the records of a set, or nothing of them: the first, and those after it. Returns the record after the set.
    #[inline(always)]
    fn copy_set<'m>(
        &mut self,
        alloc: Global,
        message: &mut [u8],
        section: Section,
        first: &RecordRef<'m>,
        records: &mut Records<'m>,
    ) -> Result<Option<RecordRef<'m>>, CopyError>
        ensures ok { IfOk result (λ next. AddsFirstSet section (first.now ∷ sets_of section records.old) (first_of next (sets_of section records.new)) self.old message.old self.new message.new) }
        ensures err { IfErr result (StopsInSet section (first.now ∷ sets_of section records.old) self.old message.old) }
        ensures same { OnErr result ((self.new ≡ self.old) × (take self.old.end message.new ≡ take self.old.end message.old)) }
    {
        let saved = *self;
        let at = section.offset_of_count();
        let count = two_at(message, at);
        let added = self.add_set(alloc, message, section, first, records);
        if added.is_err() {
            *self = saved;
            if saved.end >= FIRST_ITEM && message.len() >= FIRST_ITEM {
                put_at(message, at, &count);
            }
        }
        added
    }

    /// Adds the records of a set in turn, up to the first that fails.
    #[inline(always)]
    fn add_set<'m>(
        &mut self,
        alloc: Global,
        message: &mut [u8],
        section: Section,
        first: &RecordRef<'m>,
        records: &mut Records<'m>,
    ) -> Result<Option<RecordRef<'m>>, CopyError>
        ensures ok { IfOk result (λ next. AddsFirstSet section (first.now ∷ sets_of section records.old) (first_of next (sets_of section records.new)) self.old message.old self.new message.new) }
        ensures err { IfErr result (StopsInSet section (first.now ∷ sets_of section records.old) self.old message.old) }
        ensures kept { KeptCount section (take self.old.end message.old) (take self.old.end message.new) }
        ensures size { length message.new ≡ length message.old }
    {
        let begun = self.record_of(alloc, message, section, first);
        if let Err(error) = begun {
            return Err(error);
        }
        'set: while let Some(record) = next_of(section, records) {
            if !is_of_set(first, &record) {
                return Ok(Some(record));
            }
            let added = self.record_of(alloc, message, section, &record);
            if let Err(error) = added {
                return Err(error);
            }
        }
        Ok(None)
    }

    /// Adds the records that come last.
    fn copy_held(
        &mut self,
        alloc: Global,
        message: &mut [u8],
        source: &MessageRef<'_>,
    ) -> Result<(), CopyError>
        ensures ok { OnOk result (CopiesHeld source.now self.old message.old self.new message.new) }
        ensures err { IfErr result (FailsHeld source.now self.old message.old) }
    {
        self.forget_names(self.reserved);
        let mut records = source.additionals();
        'records: while let Some(record) = records.next() {
            if is_held(&record) {
                let added = self.record_of(alloc, message, Section::Additionals, &record);
                if let Err(error) = added {
                    return Err(error);
                }
            }
        }
        Ok(())
    }
}

/// Returns the next record of a section that is added set by set.
#[inline(always)]
pub(crate) fn next_of<'m>(section: Section, records: &mut Records<'m>) -> Option<RecordRef<'m>>
    ensures next { MatchOption result (sets_of section records.old ≡ []) (λ x. sets_of section records.old ≡ x ∷ sets_of section records.new) }
    ensures fewer { IfSome result (λ x. length records.new < length records.old) }
    ensures over { IfNone result (sets_of section records.new ≡ []) }
{
    if section != Section::Additionals {
        return records.next();
    }
    'records: loop {
        let record = records.next()?;
        if !is_held(&record) {
            return Some(record);
        }
    }
}

/// Returns `true` if a record is of the set of the first one. The signatures of servers are of their set.
#[inline(always)]
pub fn is_of_set(first: &RecordRef<'_>, item: &RecordRef<'_>) -> bool
    ensures { IsTrue result ↔ AreOfOneSet first.now item.now }
{
    is_of_kind(first, item)
        && u16::from(first.class()) == u16::from(item.class())
        && are_alike(first.owner(), item.owner())
}

/// Returns `true` if a record has the type of the first one, or signs servers, of which the first one is.
#[inline(always)]
fn is_of_kind(first: &RecordRef<'_>, item: &RecordRef<'_>) -> bool
    ensures { IsTrue result ↔ AreOfOneKind first.now item.now }
{
    u16::from(first.record_type()) == u16::from(item.record_type())
        || (is_server(first) && signs_servers(item))
}

/// Returns `true` if two names are the same, ignoring case. Mostly their wire forms are.
pub(crate) fn are_alike(some: &NameRef<'_>, other: &NameRef<'_>) -> bool
    ensures { IsTrue result ↔ (lower some.now ≡ lower other.now) }
{
    if has_form_of(some, other) {
        return true;
    }
    are_alike_but_for_case(some, other)
}

/// Returns `true` if two names are the same, ignoring case.
#[inline(never)]
fn are_alike_but_for_case(some: &NameRef<'_>, other: &NameRef<'_>) -> bool
    ensures { IsTrue result ↔ (lower some.now ≡ lower other.now) }
{
    let mut room = [0; MAX_NAME];
    let mut other_room = [0; MAX_NAME];
    eq_labels(
        some.wire_labels(&mut room),
        other.wire_labels(&mut other_room),
    )
}

/// Returns `true` if two names have the same wire form. Mostly both stand in one piece.
#[inline(always)]
fn has_form_of(some: &NameRef<'_>, other: &NameRef<'_>) -> bool
    ensures { IsTrue result → some.now ≡ other.now }
{
    let Some(labels) = some.labels_in_place() else {
        return has_gathered_form_of(some, other);
    };
    let Some(others) = other.labels_in_place() else {
        return has_gathered_form_of(some, other);
    };
    are_same(labels.as_wire(), others.as_wire())
}

/// Returns `true` if two names have the same wire form, wherever they stand.
#[inline(never)]
fn has_gathered_form_of(some: &NameRef<'_>, other: &NameRef<'_>) -> bool
    ensures { IsTrue result → some.now ≡ other.now }
{
    let mut room = [0; MAX_NAME];
    let mut other_room = [0; MAX_NAME];
    let form = some.wire_labels(&mut room).as_wire();
    are_same(form, other.wire_labels(&mut other_room).as_wire())
}

/// Returns `true` if two runs of octets are the same.
#[inline(always)]
fn are_same(some: &[u8], others: &[u8]) -> bool
    ensures { IsTrue result → some.now ≡ others.now }
{
    some == others
}

/// Returns `true` for a record that comes after the others: what a message says by EDNS (RFC 6891), or a signature of it.
#[inline(always)]
pub fn is_held(item: &RecordRef<'_>) -> bool
    ensures { result ≡ is_held item.now }
{
    item.record_type().code() == RecordType::OPT.code() || signs_message(item)
}

/// Returns `true` for a signature of a message: TSIG (RFC 8945), or SIG(0), which is a SIG that covers no type (RFC 2931, section 3).
/// A SIG that covers a type is a record like others.
#[inline(always)]
pub(crate) fn signs_message(item: &RecordRef<'_>) -> bool
    ensures { result ≡ signs_message item.now }
{
    let code = item.record_type().code();
    code == RecordType::TSIG.code()
        || (code == RecordType::SIG.code() && covers_no_type(item.rdata()))
}

/// Returns `true` if the type that the data of a SIG cover, which their first two octets are, is 0.
#[inline(always)]
fn covers_no_type(octets: &[u8]) -> bool
    ensures { result ≡ covers_no_type octets.now }
{
    octets.len() >= 2 && field_at(octets, 0) == 0
}

/// Returns how many octets are held back for the records that come last: as many as they are written with.
fn held_octets(alloc: Global, mut records: Records<'_>) -> Result<usize, CopyError>
    ensures ok { IfOk result (HoldsFor 0 (held_in records.entry)) }
    ensures err { IfErr result (FailsToHold (held_in records.entry)) }
{
    let mut held = 0usize;
    'records: while let Some(record) = records.next() {
        if is_held(&record) {
            let size = match whole_size(alloc, &record) {
                Ok(size) => size,
                Err(error) => return Err(error),
            };
            held = held.saturating_add(size);
        }
    }
    Ok(held)
}

/// Returns how many octets a record is written with if every name is whole.
fn whole_size(alloc: Global, item: &RecordRef<'_>) -> Result<usize, CopyError>
    ensures ok { IfOk result (IsWholeSize item.now) }
    ensures err { IfErr result (λ e. (e ≡ Memory) × (StandWhole item.now → ⊥)) }
{
    if let Some(octets) = whole_data(item) {
        return Ok(size_with(item, octets));
    }
    match RData::from_ref(alloc, item) {
        Ok(data) => Ok(size_with(item, data.octets())),
        Err(RDataError::Field(_)) => Ok(size_with(item, item.rdata())),
        Err(RDataError::Memory) => Err(CopyError::Memory),
    }
}

/// Returns how many octets a record with these data has, if its owner is whole.
#[inline(always)]
pub(crate) fn size_with(item: &RecordRef<'_>, octets: &[u8]) -> usize
    ensures { result ≡ size_with item.now octets.now }
{
    let before = item.owner().encoded_len() + FIXED_SIZE;
    before.saturating_add(octets.len())
}

/// Returns the flags of a message, with the reserved one clear.
pub(crate) fn flags_of(source: &MessageRef<'_>) -> u16
    ensures { result ≡ flags_of source.now.header.metadata }
{
    let octets = source.header().to_octets();
    u16::from_be_bytes([octets[2], octets[3]])
}
