//! Records whose data are given as octets, and sets of them.
ghost use Rattle.std.specs.Prelude.{◌≡◌, ◌≤◌, List, ℕ, drop, length, take, slice_range, IfErr, MatchOption, OnErr, OnOk};
ghost use Rattle.dnw_message_writer.specs.Inside.Turns.{KeptCount};
ghost use Rattle.dnw_message_writer.specs.Listed.{FailsListed, FailsToAddData, HasListed, ListsData, data_form, first_listed, listed_size};
ghost use Rattle.dnw_message_writer.specs.Sets.{AddsSet};
ghost use Rattle.dnw_message_writer.specs.States.{AddsItem};

use crate::data::{only_piece_of, pieces_of};
use crate::names::put_at;
use crate::section::{Section, WriteError};
use crate::set::two_at;
use crate::standing::FIRST_ITEM;
use crate::state::WriterState;
use dnw_name_form::wire_labels::WireLabels;
use thiserror::Error;

/// Why data that are given as octets were not added to a message.
#[derive(Debug, Drop, Error, PartialEq, Eq)]
pub enum DataError {
    /// The octets are not, for each record, two octets of length and so many of data.
    #[error("the octets are no list of data")]
    List,
    /// The data are none of their class and type, with every name in its wire form.
    #[error("the data are none of their class and type")]
    Data,
    /// A record was not added.
    #[error("{0}")]
    Write(WriteError),
}

impl From<WriteError> for DataError {
    ghost use Rattle.std.specs.Prelude.{◌≡◌};
    ghost use Rattle.dnw_message_writer.specs.declared.listed.DataError.TheVariants.{Write};

    ghost from_gives = { λ error e. e ≡ Write error };

    fn from(error: WriteError) -> Self {
        DataError::Write(error)
    }
}

impl WriterState {
    /// Adds a record whose data are these octets, with every name in its wire form, or nothing of it. The names that may be compressed
    /// are (RFC 3597, section 4).
    #[inline(always)]
    pub fn record_data(
        &mut self,
        message: &mut [u8],
        section: Section,
        owner: WireLabels<'_>,
        record_type: u16,
        class: u16,
        ttl: u32,
        octets: &[u8],
    ) -> Result<(), DataError>
        ensures ok { OnOk result (AddsItem section (data_form owner.entry record_type class ttl octets.now) self.old message.old self.new message.new) }
        ensures err { IfErr result (FailsToAddData section owner.entry record_type class ttl octets.now self.old message.old) }
        ensures same { OnErr result ((self.new ≡ self.old) × (take self.old.end message.new ≡ take self.old.end message.old)) }
    {
        let Some(piece) = only_piece_of(class, record_type, octets) else {
            return self.record_pieces(message, section, owner, record_type, class, ttl, octets);
        };
        self.record(message, section, owner, record_type, class, ttl, &[piece])?;
        Ok(())
    }

    /// Adds a record, as `record_data` does, whose data may be several pieces.
    #[inline(never)]
    fn record_pieces(
        &mut self,
        message: &mut [u8],
        section: Section,
        owner: WireLabels<'_>,
        record_type: u16,
        class: u16,
        ttl: u32,
        octets: &[u8],
    ) -> Result<(), DataError>
        ensures ok { OnOk result (AddsItem section (data_form owner.entry record_type class ttl octets.now) self.old message.old self.new message.new) }
        ensures err { IfErr result (FailsToAddData section owner.entry record_type class ttl octets.now self.old message.old) }
        ensures same { OnErr result ((self.new ≡ self.old) × (take self.old.end message.new ≡ take self.old.end message.old)) }
    {
        let Some(pieces) = pieces_of(class, record_type, octets) else {
            return Err(DataError::Data);
        };
        self.record(
            message,
            section,
            owner,
            record_type,
            class,
            ttl,
            pieces.as_slice(),
        )?;
        Ok(())
    }

    /// Adds the records of a set to a section, or nothing of them: one for each data of a list, which has two octets of length before
    /// each. All have this owner, type, class and time to live.
    pub fn set_data(
        &mut self,
        message: &mut [u8],
        section: Section,
        owner: WireLabels<'_>,
        record_type: u16,
        class: u16,
        ttl: u32,
        set: &[u8],
    ) -> Result<(), DataError>
        ensures ok { OnOk result ((ds : List (List ℕ)) × ListsData set.now ds × AddsSet section (data_form owner.entry record_type class ttl) ds self.old message.old self.new message.new) }
        ensures err { IfErr result (FailsListed section owner.entry record_type class ttl set.now self.old message.old) }
        ensures same { OnErr result ((self.new ≡ self.old) × (take self.old.end message.new ≡ take self.old.end message.old)) }
    {
        let saved = *self;
        let at = section.offset_of_count();
        let count = two_at(message, at);
        let added = self.add_listed(message, section, owner, record_type, class, ttl, set);
        if added.is_err() {
            *self = saved;
            if saved.end >= FIRST_ITEM && message.len() >= FIRST_ITEM {
                put_at(message, at, &count);
            }
        }
        added
    }

    /// Adds records in turn, up to the first that fails.
    fn add_listed(
        &mut self,
        message: &mut [u8],
        section: Section,
        owner: WireLabels<'_>,
        record_type: u16,
        class: u16,
        ttl: u32,
        set: &[u8],
    ) -> Result<(), DataError>
        ensures ok { OnOk result ((ds : List (List ℕ)) × ListsData set.now ds × AddsSet section (data_form owner.entry record_type class ttl) ds self.old message.old self.new message.new) }
        ensures err { IfErr result (FailsListed section owner.entry record_type class ttl set.now self.old message.old) }
        ensures kept { KeptCount section (take self.old.end message.old) (take self.old.end message.new) }
        ensures size { length message.new ≡ length message.old }
    {
        let mut left = set;
        'records: while !left.is_empty() {
            let Some((data, rest)) = first_listed(left) else {
                return Err(DataError::List);
            };
            let added = self.record_data(
                message,
                section,
                owner.clone(),
                record_type,
                class,
                ttl,
                data,
            );
            if let Err(error) = added {
                return Err(error);
            }
            left = rest;
        }
        Ok(())
    }
}

/// Returns the data that a list begins with, and what is after them.
#[inline(always)]
fn first_listed(list: &[u8]) -> Option<(&[u8], &[u8])>
    ensures { MatchOption result (HasListed list.now → ⊥) (λ x. HasListed list.now × (x.0.now ≡ first_listed list.now) × (x.1.now ≡ drop (listed_size list.now) list.now)) }
{
    if list.len() < 2 {
        return None;
    }
    let end = 2 + u16::from_be_bytes([list[0], list[1]]) as usize;
    if list.len() < end {
        return None;
    }
    Some((&list[2..end], &list[end..]))
}
