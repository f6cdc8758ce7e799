//! Octets that are held back, and a last record (RFC 8945, section 5.1; RFC 2931, section 3).
ghost use Rattle.std.specs.Prelude.{◌≡◌, ◌+◌, ◌-◌, min, take, OnOk, IfErr, OnErr};
ghost use Rattle.dnw_message_writer.specs.Hints.{slot_of};
ghost use Rattle.dnw_message_writer.specs.Items.{record_form, record_past};
ghost use Rattle.dnw_message_writer.specs.States.{AddsLastItem, FailsToAdd, for_last, released};
ghost use Rattle.dnw_message_writer.specs.declared.section.Section.TheVariants as Sections;

use crate::hints::SLOTS;
use crate::pieces::Piece;
use crate::section::{Section, WriteError};
use crate::state::WriterState;
use dnw_name_form::wire_labels::WireLabels;

/// A rank after that of every section: no item may follow.
const AFTER_ALL: u8 = 4;

impl WriterState {
    /// Holds back so many more octets of the maximum, for items that come last: an `OPT` record, a signature.
    #[inline(always)]
    pub fn hold_back(&mut self, octets: usize)
        ensures { self.new ≡ record self.old { reserved = min (self.old.reserved + octets) 18446744073709551615 } }
    {
        self.reserved = self.reserved.saturating_add(octets);
    }

    /// Gives back so many of the octets that are held back, or all if there are fewer.
    #[inline(always)]
    pub fn give_back(&mut self, octets: usize)
        ensures { self.new ≡ released octets self.old }
    {
        self.reserved = self.reserved.saturating_sub(octets);
    }

    /// Gives back so many of the octets that are held back, and forgets the names of the message, so that the next item has its names
    /// whole: as many octets as were held back for it.
    pub fn forget_names(&mut self, held: usize)
        ensures { self.new ≡ for_last held self.old }
    {
        self.give_back(held);
        self.owner = 0;
        self.hints = [0; SLOTS];
    }

    /// Adds the last record of a message, to the additional section, or nothing of it. It has so many of the octets that are held
    /// back, and no item may follow it. Its names are not compressed, so that it has as many octets as were held back for it. Which
    /// record is the last, TSIG or SIG(0), is for the caller to say: any type is taken here.
    pub fn last_record(
        &mut self,
        message: &mut [u8],
        held: usize,
        owner: WireLabels<'_>,
        record_type: u16,
        class: u16,
        ttl: u32,
        pieces: &[Piece<'_>],
    ) -> Result<(), WriteError>
        ensures ok { OnOk result (AddsLastItem (record_form slot_of owner.entry record_type class ttl pieces.now) (for_last held self.old) message.old self.new message.new) }
        ensures err { IfErr result (FailsToAdd Sections.Additionals (record_past slot_of owner.entry record_type class ttl pieces.now) (for_last held self.old) message.old) }
        ensures same { OnErr result ((self.new ≡ self.old) × (take self.old.end message.new ≡ take self.old.end message.old)) }
    {
        let mut state = *self;
        state.forget_names(held);
        let added = state.record(
            message,
            Section::Additionals,
            owner,
            record_type,
            class,
            ttl,
            pieces,
        );
        match added {
            Ok(()) => {
                *self = state;
                self.rank = AFTER_ALL;
                Ok(())
            }
            Err(error) => Err(error),
        }
    }
}
