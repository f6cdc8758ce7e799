//! Transfers that come in, message by message.
ghost use Rattle.std.specs.Prelude.{◌≡◌, OnErr, OnOk, IfOk, IfErr, IsOk};
ghost use Rattle.dns_names_wire.specs.Words.{class_code, response_of_code};
ghost use Rattle.ans_transfer.specs.Places.{begun, changes_from, message_fault, passed, status_of, taken};
ghost use Rattle.ans_transfer.specs.declared.place.Place.{Place};

use crate::changes::Changes;
use crate::error::TransferError;
use crate::passing::passed;
use crate::place::{Place, Step};
use crate::reply::{code_of_reply, has_question, is_reply};
use crate::request::{Kind, Request};
use dns_names_wire::message::{MessageRef, ResponseCode};
use dns_names_wire::{DNSClass, Name};
use std::marker::Model;

/// A transfer that comes in. It keeps of the records no more than two serial numbers.
///
/// A contract sees it as what was asked, and how far it has come.
#[derive(Drop)]
pub struct TransferIn<'a> {
    request: Request<'a>,
    place: Place,
}

impl<'a> Model for TransferIn<'a> {
    ghost use Rattle.ans_transfer.specs.Places.{TransferValue};

    ghost Value = { TransferValue };

    ghost view = { λ t. record { asked = t.request; place = t.place } };
}

impl<'a> TransferIn<'a> {
    /// Creates a transfer of the zone with this name and class, of which nothing came.
    pub fn new(zone: &'a Name, class: DNSClass, kind: Kind, id: u16) -> Self
        ensures { result ≡ record { asked = record { zone = zone.now.labels; class = class_code class; kind = kind; id = id }; place = Place.Start } }
    {
        TransferIn {
            request: Request::new(zone, class, kind, id),
            place: Place::Start,
        }
    }

    /// Returns how far the transfer has come.
    #[inline(always)]
    pub fn place(&self) -> Place
        ensures { result ≡ self.now.place }
    {
        self.place
    }

    /// Takes the next message, and returns what has come. [`changes`](TransferIn::changes) returns what its records do.
    ///
    /// It fails with the first of these that is so: `OtherId`, `NotAResponse`, `Failed`, `Truncated`, `OtherQuestion`, and `AfterEnd` if
    /// the transfer is over; or else with the error of the first answer that does not belong there: `OtherClass`, `OutOfZone`, `NoSoa`,
    /// `SoaBelow`, `ShortSoa`, `OtherSerial` or `AfterEnd`; or with `NoSoa` if the first message has no answer. Then the transfer is
    /// unchanged. The other sections count for nothing (RFC 5936, sections 2.2.4 and 2.2.5).
    pub fn take(&mut self, message: &MessageRef<'_>) -> Result<Step, TransferError>
        ensures ok { OnOk result (taken self.old.asked self.old.place message.now ≡ Ok self.new.place) }
        ensures step { IfOk result (λ step. step ≡ status_of self.new.place) }
        ensures err { IfErr result (λ e. taken self.old.asked self.old.place message.now ≡ Err e) }
        ensures asked { self.new.asked ≡ self.old.asked }
        ensures same { OnErr result (self.new ≡ self.old) }
    {
        let next = self.taken(message)?;
        self.place = next;
        Ok(next.step())
    }

    /// Returns where a message leads.
    #[tactic(auto, unfolding(crate::specs::Places::taken))]
    fn taken(&self, message: &MessageRef<'_>) -> Result<Place, TransferError>
        ensures { result ≡ taken self.now.asked self.now.place message.now }
    {
        match self.message_fault(message) {
            Some(why) => Err(why),
            None => self.passed(message),
        }
    }

    /// Returns why a message is no part of the transfer, whatever its records.
    #[tactic(auto, unfolding(crate::specs::Places::message_fault))]
    fn message_fault(&self, message: &MessageRef<'_>) -> Option<TransferError>
        ensures { result ≡ message_fault self.now.asked self.now.place message.now }
    {
        let metadata = &message.header().metadata;
        if metadata.id != self.request.id() {
            return Some(TransferError::OtherId);
        }
        if !is_reply(metadata.message_type) {
            return Some(TransferError::NotAResponse);
        }
        let code = code_of_reply(message);
        if code != 0 {
            return Some(failed(code));
        }
        if metadata.truncation {
            return Some(TransferError::Truncated);
        }
        if !has_question(&self.request, self.place, message) {
            return Some(TransferError::OtherQuestion);
        }
        if self.place.is_over() {
            return Some(TransferError::AfterEnd);
        }
        None
    }

    /// Returns where the answers of a message lead.
    fn passed(&self, message: &MessageRef<'_>) -> Result<Place, TransferError>
        ensures { result ≡ begun (passed self.now.asked self.now.place message.now.answers) }
    {
        let place = passed(&self.request, self.place, message.answers())?;
        if place.has_begun() {
            Ok(place)
        } else {
            Err(TransferError::NoSoa)
        }
    }

    /// Returns what the answers of the next message do, one after another, before it is taken. It fails as [`take`](TransferIn::take)
    /// does.
    pub fn changes<'t, 'm>(
        &'t self,
        message: &MessageRef<'m>,
    ) -> Result<Changes<'t, 'm>, TransferError>
        ensures ok { IfOk result (λ it. it ≡ changes_from self.now.asked self.now.place message.now.answers) }
        ensures taken { IsOk result → ((p : Place) × (taken self.now.asked self.now.place message.now ≡ Ok p)) }
        ensures err { IfErr result (λ e. taken self.now.asked self.now.place message.now ≡ Err e) }
    {
        let _ = self.taken(message)?;
        Ok(Changes::new(&self.request, self.place, message.answers()))
    }
}

/// Returns the error of a message that reports one.
fn failed(code: u16) -> TransferError
    ensures { result ≡ TransferError.Failed (response_of_code code) }
{
    TransferError::Failed {
        code: ResponseCode::from(code),
    }
}
