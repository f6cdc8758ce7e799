//! The candidates of an encoder.
ghost use Rattle.std.specs.Prelude.{◌≡◌, ◌≢◌, ℕ, ◌+◌, ◌<◌, ◌≤◌, ◌↔◌, List, [], ◌∷◌, ◌++◌, length, take, None, IfSome, IsTrue, OnOk, OnErr};
ghost use Rattle.dnw_base.specs.Limits.{max_message, pointer_reach};
ghost use Rattle.dnw_write_suffixes.specs.Candidates.{Finds, FindsUsable, IsFirstUsable, candidates_before, suffixes};
ghost use Rattle.dnw_write_suffixes.specs.Inside.Links.{AreChained};
ghost use Rattle.dnw_write_suffixes.specs.Inside.TagTable.{NoneBefore};
ghost use Rattle.dnw_base.specs.Names.{labels_wire};
ghost use Rattle.dnw_name_read.specs.Reading.{NameAt};

use crate::links::{Links, wide_tag};
use crate::octets::are_same;
use crate::store::{Store, labels_bytes};
use crate::tag_table::{TagTable, tag};
use crate::usable::stands_at;
use dnw_name_form::wire_labels::WireLabels;
use std::alloc::{AllocError, Global};
use std::marker::Model;

/// How many candidates are few: these have tags. If there are more, all have links, too.
const FEW: usize = 255;

/// Returns `true` if the bytes are equal.
#[inline(always)]
fn is_same(own: &[u8], labels: &[u8]) -> bool
    ensures { IsTrue result ↔ (own.now ≡ labels.now) }
{
    are_same(own, labels)
}

/// Returns `true` if the bytes are equal, and reading the message at `start` gives the labels.
#[inline(always)]
fn is_usable(start: u16, own: &[u8], bytes: &[u8], message: &[u8], labels: WireLabels<'_>) -> bool
    ensures { IsTrue result ↔ ((own.now ≡ bytes.now) × (end : ℕ) × (pointers : ℕ) × NameAt message.now start labels.entry end pointers) }
{
    is_same(own, bytes) && stands_at(message, start as usize, labels)
}

/// Returns the offset of this candidate if it is usable, when none before it is.
#[inline(always)]
fn usable_at(
    held: &Store,
    index: usize,
    message: &[u8],
    bytes: &[u8],
    labels: WireLabels<'_>,
) -> Option<u16>
    requires index { index < length held.now }
    requires bytes { bytes.now ≡ labels_wire labels }
    requires passed { NoneBefore message.now labels held.now index }
    ensures none { result ≡ None → NoneBefore message.now labels.entry held.now (index + 1) }
    ensures finds { IfSome result (λ offset. IsFirstUsable message.now held.now labels.entry offset) }
    ensures reached { IfSome result (λ offset. offset < pointer_reach) }
{
    let (start, own) = held.get(index);
    if is_usable(start, own, bytes, message, labels) {
        return Some(start);
    }
    None
}

/// Returns the offset of the first usable candidate from this index on, if none before it is usable.
#[inline(always)]
fn find_from(held: &Store, from: usize, message: &[u8], labels: WireLabels<'_>) -> Option<u16>
    requires { NoneBefore message.now labels held.now from }
    ensures finds { FindsUsable message.now labels.entry held.now result }
    ensures reached { IfSome result (λ offset. offset < pointer_reach) }
{
    let bytes = labels_bytes(&labels);
    'search: for index in from..held.len() {
        if let Some(start) = usable_at(held, index, message, bytes, labels.clone()) {
            return Some(start);
        }
    }
    None
}

/// Returns the offset of the first usable candidate: those that share the labels' tag are tried, and those that are not
/// linked.
#[inline(always)]
fn find_linked(held: &Store, links: &Links, message: &[u8], labels: WireLabels<'_>) -> Option<u16>
    requires { AreChained links.now.last.items links.now.next.items links.now.count held.now }
    ensures finds { FindsUsable message.now labels.entry held.now result }
    ensures reached { IfSome result (λ offset. offset < pointer_reach) }
{
    let bytes = labels_bytes(&labels);
    let tag = wide_tag(bytes);
    let mut next = links.first(tag);
    'search: while let Some(index) = next {
        if let Some(start) = usable_at(held, index, message, bytes, labels.clone()) {
            return Some(start);
        }
        next = links.after(tag, index);
    }
    find_from(held, links.len(), message, labels)
}

/// Candidates for compression, in the order in which they were added.
///
/// A contract sees them as the list of their offsets and labels.
#[derive(Drop)]
pub struct Candidates {
    held: Store,
    tag_table: TagTable,
    links: Links,
}

impl Model for Candidates {
    ghost use Rattle.std.specs.Prelude.{ℕ, List};
    ghost use Rattle.dnw_write_suffixes.specs.Inside.Links.{AreIndexed};

    ghost Value = { List (ℕ × List ℕ) };

    ghost view = { λ c. c.held };

    ghost invariant = { λ c. AreIndexed c.tag_table.last c.tag_table.next c.tag_table.count c.links.last.items c.links.next.items c.links.count c.held };
}

impl Candidates {
    /// Creates an empty list. It does not allocate.
    pub fn new(alloc: Global) -> Self
        ensures { result ≡ [] }
    {
        Candidates {
            held: Store::new(alloc),
            tag_table: TagTable::new(),
            links: Links::new(alloc),
        }
    }

    /// Returns the number of candidates.
    pub fn len(&self) -> usize
        ensures { result ≡ length self.now }
    {
        self.held.len()
    }

    /// Adds a candidate at the end.
    pub fn push(&mut self, start: u16, labels: &[u8]) -> Result<(), AllocError>
        requires reached { start < pointer_reach }
        requires size { length labels.now ≤ max_message }
        ensures ok { OnOk result (self.new ≡ self.old ++ (start, labels.now) ∷ []) }
        ensures err { OnErr result (self.new ≡ self.old) }
    {
        let stored = self.held.len();
        self.held.push(start, labels)?;
        self.link_new(stored)
    }

    /// Returns the offset of the first candidate with these labels.
    pub fn find(&self, labels: &[u8]) -> Option<u16>
        ensures finds { Finds labels.now self.now result }
        ensures reached { IfSome result (λ offset. offset < pointer_reach) }
    {
        'search: for index in 0..self.held.len() {
            let (start, own) = self.held.get(index);
            if is_same(own, labels) {
                return Some(start);
            }
        }
        None
    }

    /// Returns the offset of the first candidate that is usable for the labels in this message.
    pub fn find_usable(&self, message: &[u8], labels: WireLabels<'_>) -> Option<u16>
        ensures finds { FindsUsable message.now labels.entry self.now result }
        ensures reached { IfSome result (λ offset. offset < pointer_reach) }
    {
        let bytes = labels_bytes(&labels);
        let tag = tag(bytes);
        let mut next = self.tag_table.first(tag);
        'search: while let Some(index) = next {
            if let Some(start) = usable_at(&self.held, index, message, bytes, labels.clone()) {
                return Some(start);
            }
            next = self.tag_table.after(tag, index);
        }
        if self.tag_table.len() < self.held.len() {
            return self.find_among_many(message, labels);
        }
        None
    }

    /// Returns what [`Candidates::find_usable`] does, by links. It is apart, so that a search among few is short.
    #[cold]
    #[inline(never)]
    fn find_among_many(&self, message: &[u8], labels: WireLabels<'_>) -> Option<u16>
        ensures finds { FindsUsable message.now labels.entry self.now result }
        ensures reached { IfSome result (λ offset. offset < pointer_reach) }
    {
        find_linked(&self.held, &self.links, message, labels)
    }

    /// Adds the first `most` suffixes of labels that are written at `start`, the longest first. If memory runs out, none
    /// is added.
    pub fn push_suffixes(
        &mut self,
        start: usize,
        labels: WireLabels<'_>,
        most: usize,
    ) -> Result<(), AllocError>
        requires reached { start + length (labels_wire labels) < pointer_reach }
        ensures ok { OnOk result (self.new ≡ self.old ++ take most (suffixes start labels.entry)) }
        ensures err { OnErr result (self.new ≡ self.old) }
        ensures needed { OnErr result (take most (suffixes start labels.entry) ≢ []) }
    {
        let stored = self.held.len();
        self.held.push_suffixes(start, labels, most)?;
        self.link_new(stored)
    }

    /// Links the candidates after the first `stored` if there are many. If memory runs out, they are removed.
    #[inline(always)]
    fn link_new(&mut self, stored: usize) -> Result<(), AllocError>
        requires { stored ≤ length self.old }
        ensures ok { OnOk result (self.new ≡ self.old) }
        ensures err { OnErr result (self.new ≡ take stored self.old) }
        ensures needed { OnErr result (stored < length self.old) }
    {
        if self.held.len() > FEW {
            return self.link_among_many(stored);
        }
        Ok(())
    }

    /// Does what `link_new` does if there are many. It is apart, so that a name is kept among few in few steps.
    #[cold]
    #[inline(never)]
    fn link_among_many(&mut self, stored: usize) -> Result<(), AllocError>
        requires { stored ≤ length self.old }
        ensures ok { OnOk result (self.new ≡ self.old) }
        ensures err { OnErr result (self.new ≡ take stored self.old) }
        ensures needed { OnErr result (stored < length self.old) }
    {
        if self.held.len() == stored {
            return Ok(());
        }
        if let Err(error) = self.make_room() {
            self.truncate(stored);
            return Err(error);
        }
        self.links.add_all(&self.held);
        Ok(())
    }

    /// Makes room for the links of all candidates, and of as many more.
    fn make_room(&mut self) -> Result<(), AllocError>
        ensures same { self.new ≡ self.old }
    {
        let len = self.held.len();
        if len.min(Links::MOST) > self.links.room() {
            let room = len.saturating_mul(2).min(Links::MOST);
            self.links = Links::with_room(self.links.allocator(), room)?;
        }
        Ok(())
    }

    /// Links the candidates that have no tags yet, so that the next search passes over most of them. They are not linked
    /// as they are added, since no search may follow. A search finds the same candidate without it, only later.
    #[inline(always)]
    pub fn link(&mut self)
        ensures { self.new ≡ self.old }
    {
        self.tag_table.add_all(&self.held);
    }

    /// Keeps the first `len` candidates.
    pub fn truncate(&mut self, len: usize)
        ensures { self.new ≡ take len self.old }
    {
        self.held.truncate(len);
        self.tag_table = TagTable::new();
        self.links.add_anew(&self.held);
    }

    /// Keeps the candidates before an offset.
    #[inline(always)]
    pub fn trim(&mut self, offset: usize)
        ensures { self.new ≡ candidates_before offset self.old }
    {
        if self.held.end() > offset {
            self.remove_from(offset);
        }
    }

    /// Removes the candidates from an offset on. It is apart, since mostly there are none.
    #[cold]
    #[inline(never)]
    #[tactic(auto, using(crate::proofs::CandidateLists::kept_same))]
    fn remove_from(&mut self, offset: usize)
        ensures { self.new ≡ candidates_before offset self.old }
    {
        let held = self.held.len();
        self.held.retain_before(offset);
        if self.held.len() < held {
            self.tag_table = TagTable::new();
            self.links.add_anew(&self.held);
        }
    }
}
