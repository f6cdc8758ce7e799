//! Sets of records, which are added whole or not at all (RFC 2181, section 5).
ghost use Rattle.std.specs.Prelude.{◌≡◌, ◌≢◌, ◌≤◌, Err, length, take, OnOk, IfErr, OnErr};
ghost use Rattle.dnw_message_writer.specs.Hints.{slot_of};
ghost use Rattle.dnw_message_writer.specs.Inside.Turns.{KeptCount, count_octets};
ghost use Rattle.dnw_message_writer.specs.Items.{record_form, record_past};
ghost use Rattle.dnw_message_writer.specs.Sets.{AddsSet, CutsOff, FailsToAddSet, cut_off};
ghost use Rattle.dnw_message_writer.specs.declared.section.WriteError.TheVariants.{NoRoom};

use crate::names::put_at;
use crate::pieces::Piece;
use crate::section::{Section, WriteError};
use crate::standing::FIRST_ITEM;
use crate::state::WriterState;
use dnw_name_form::wire_labels::WireLabels;

/// The data of a record of a set.
#[derive(Clone, Copy)]
pub struct Data<'a> {
    /// Its pieces, one after the other.
    pub pieces: &'a [Piece<'a>],
}

impl WriterState {
    /// Adds the records of a set to a section, or nothing of them: one for each data, which all have this owner, type, class and
    /// time to live.
    pub fn record_set(
        &mut self,
        message: &mut [u8],
        section: Section,
        owner: WireLabels<'_>,
        record_type: u16,
        class: u16,
        ttl: u32,
        set: &[Data<'_>],
    ) -> Result<(), WriteError>
        ensures ok { OnOk result (AddsSet section (λ d. record_form slot_of owner.entry record_type class ttl d.pieces.now) set.now self.old message.old self.new message.new) }
        ensures err { IfErr result (FailsToAddSet section (λ d. record_form slot_of owner.entry record_type class ttl d.pieces.now) (λ d. record_past slot_of owner.entry record_type class ttl d.pieces.now) set.now self.old message.old) }
        ensures same { OnErr result ((self.new ≡ self.old) × (take self.old.end message.new ≡ take self.old.end message.old)) }
    {
        let saved = *self;
        let at = section.offset_of_count();
        let count = two_at(message, at);
        let added = self.add_in_turn(message, section, owner, record_type, class, ttl, set);
        if added.is_err() {
            *self = saved;
            if saved.end >= FIRST_ITEM && message.len() >= FIRST_ITEM {
                put_at(message, at, &count);
            }
        }
        added
    }

    /// Adds a set of records that the message has to have: if it has no room, TC says that it is missing.
    pub fn require_set(
        &mut self,
        message: &mut [u8],
        section: Section,
        owner: WireLabels<'_>,
        record_type: u16,
        class: u16,
        ttl: u32,
        set: &[Data<'_>],
    ) -> Result<(), WriteError>
        ensures ok { OnOk result (AddsSet section (λ d. record_form slot_of owner.entry record_type class ttl d.pieces.now) set.now self.old message.old self.new message.new) }
        ensures err { IfErr result (FailsToAddSet section (λ d. record_form slot_of owner.entry record_type class ttl d.pieces.now) (λ d. record_past slot_of owner.entry record_type class ttl d.pieces.now) set.now self.old message.old) }
        ensures same { OnErr result (self.new ≡ self.old) }
        ensures cut { result ≡ Err NoRoom → CutsOff self.old.end message.old message.new }
        ensures uncut { IfErr result (λ e. e ≢ NoRoom → take self.old.end message.new ≡ take self.old.end message.old) }
    {
        let added = self.record_set(message, section, owner, record_type, class, ttl, set);
        if added == Err(WriteError::NoRoom) {
            cut_off(message);
        }
        added
    }

    /// Adds records in turn, up to the first that fails.
    fn add_in_turn(
        &mut self,
        message: &mut [u8],
        section: Section,
        owner: WireLabels<'_>,
        record_type: u16,
        class: u16,
        ttl: u32,
        set: &[Data<'_>],
    ) -> Result<(), WriteError>
        ensures ok { OnOk result (AddsSet section (λ d. record_form slot_of owner.entry record_type class ttl d.pieces.now) set.now self.old message.old self.new message.new) }
        ensures err { IfErr result (FailsToAddSet section (λ d. record_form slot_of owner.entry record_type class ttl d.pieces.now) (λ d. record_past slot_of owner.entry record_type class ttl d.pieces.now) set.now self.old message.old) }
        ensures kept { KeptCount section (take self.old.end message.old) (take self.old.end message.new) }
        ensures size { length message.new ≡ length message.old }
    {
        for data in set {
            let added = self.record(
                message,
                section,
                owner.clone(),
                record_type,
                class,
                ttl,
                data.pieces,
            );
            if let Err(error) = added {
                return Err(error);
            }
        }
        Ok(())
    }
}

/// Returns two octets, or zeros if there are none.
pub(crate) fn two_at(message: &[u8], at: usize) -> [u8; 2]
    requires { at ≤ 10 }
    ensures { 12 ≤ length message.now → result ≡ count_octets message.now at }
{
    if message.len() < FIRST_ITEM {
        return [0, 0];
    }
    [message[at], message[at + 1]]
}

/// Says in the header that something is missing that the message was to have: TC (RFC 2181, section 9).
#[inline(always)]
pub fn cut_off(message: &mut [u8])
    ensures { message.new ≡ cut_off message.old }
{
    if message.len() >= FIRST_ITEM && message[2] / 2 % 2 == 0 {
        message[2] += 2;
    }
}
