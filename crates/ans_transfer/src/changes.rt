//! What the records of a transfer do to the zone that is kept.
ghost use Rattle.std.specs.Prelude.{◌≡◌, Some, length};
ghost use Rattle.std.specs.Iterator.{UpTo, YieldsFirst, at_most, item_count};
ghost use Rattle.ans_transfer.specs.Places.{by_place, change_at, next_place};

use crate::passing::{is_soa, passed_one};
use crate::place::Place;
use crate::request::Request;
use dns_names_wire::RecordRef;
use dns_names_wire::message::Records;
use std::marker::Model;

/// What a record does to the zone that is kept.
#[derive(Debug, Clone, Copy, PartialEq, Eq)]
pub enum Change {
    /// It is the SOA record of a version. The one that came last is the zone's.
    Soa,
    /// It is added.
    Add,
    /// It is deleted.
    Delete,
}

/// A record, and what it does.
#[derive(Drop)]
pub struct Changed<'m> {
    /// What it does.
    pub change: Change,
    /// The record.
    pub item: RecordRef<'m>,
}

/// An iterator over the records of a message, and what each does.
///
/// A contract sees it as the list of what is left.
#[derive(Drop)]
pub struct Changes<'t, 'm> {
    request: &'t Request<'t>,
    place: Place,
    records: Records<'m>,
}

impl<'t, 'm> Model for Changes<'t, 'm> {
    ghost use Rattle.std.specs.Prelude.{List};
    ghost use Rattle.ans_transfer.specs.Places.{changes_from};
    ghost use Rattle.ans_transfer.specs.declared.changes.Changed.{Changed};

    ghost Value = { List Changed };

    ghost view = { λ it. changes_from it.request.now it.place it.records };
}

impl<'t, 'm> Changes<'t, 'm> {
    ghost use Rattle.std.specs.Prelude.{◌≡◌};
    ghost use Rattle.ans_transfer.specs.Places.{changes_from};

    /// Creates an iterator over records that follow a place.
    pub(crate) fn new(request: &'t Request<'t>, place: Place, records: Records<'m>) -> Self
        ensures { result ≡ changes_from request.now place records.entry }
    {
        Changes {
            request,
            place,
            records,
        }
    }
}

impl<'t, 'm> Iterator for Changes<'t, 'm> {
    type Item = Changed<'m>;

    ghost next_gives = { YieldsFirst (λ changes. changes) };

    ghost remaining = { item_count (λ changes. changes) };

    fn next(&mut self) -> Option<Changed<'m>> {
        let item = self.records.next()?;
        let change = change_at(self.place, &item);
        self.place = next_place(self.request, self.place, &item);
        Some(Changed { change, item })
    }
}

/// Returns where a record leads that belongs to the transfer.
#[tactic(auto, unfolding(crate::specs::Places::next_place))]
fn next_place(request: &Request<'_>, place: Place, record: &RecordRef<'_>) -> Place
    ensures { result ≡ next_place request.now place record.now }
{
    match passed_one(request, place, record) {
        Ok(next) => next,
        Err(_) => place,
    }
}

/// Returns what a record does at a place.
#[tactic(auto, unfolding(crate::specs::Places::change_at))]
fn change_at(place: Place, record: &RecordRef<'_>) -> Change
    ensures { result ≡ change_at place record.now }
{
    if is_soa(record) {
        Change::Soa
    } else {
        by_place(place)
    }
}

/// Returns what a record does at a place that is no SOA record.
fn by_place(place: Place) -> Change
    ensures { result ≡ by_place place }
{
    match place {
        Place::InDeleted { .. } => Change::Delete,
        _ => Change::Add,
    }
}
