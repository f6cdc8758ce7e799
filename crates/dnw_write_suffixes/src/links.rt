//! Links, by which a search passes over almost all of many candidates.
ghost use Rattle.std.specs.Prelude.{◌≡◌, ℕ, ◌+◌, ◌*◌, ◌^◌, ◌<◌, ◌≤◌, min, List, length, IfOk};
ghost use Rattle.std.specs.List.{All};
ghost use Rattle.dnw_write_suffixes.specs.Inside.TagTable.{AreRinged, FindsNext};
ghost use Rattle.dnw_write_suffixes.specs.Inside.Links.{AreChained, few, mix, stir, wide_tag};

use crate::store::Store;
use crate::tag_table::octet_at;
use dnw_name_form::fours::four;
use std::alloc::{AllocError, Global};

/// How many tags there are.
const TAGS: usize = 4096;

/// How many bytes of labels a tag comes of, besides their number.
const SEEN: usize = 64;

/// Returns a number below 4,096 that few labels share: it comes of the number of their bytes, the last, and the first 64.
#[inline(always)]
pub(crate) fn wide_tag(labels: &[u8]) -> usize
    ensures value { result ≡ wide_tag labels.now }
    ensures below { result < 4096 }
{
    let last = octet_at(labels, labels.len().saturating_sub(1));
    let seen = &labels[..labels.len().min(SEEN)];
    mix(labels.len() % 256 + last * 256, seen) / 4096 % 4096
}

/// Returns a number below 2³² that octets make, eight at a time, after another one.
#[inline(always)]
fn mix(first: usize, octets: &[u8]) -> usize
    requires { first < 2 ^ 32 }
    ensures value { result ≡ mix first octets.now }
    ensures small { result < 2 ^ 32 }
{
    let mut mixed = first;
    let mut left = octets;
    while let [a, b, c, d, e, f, g, h, rest @ ..] = left {
        mixed = stir(mixed, four(*a, *b, *c, *d), four(*e, *f, *g, *h));
        left = rest;
    }
    match left {
        [a, b, c, d, rest @ ..] => stir(mixed, four(*a, *b, *c, *d), few(rest)),
        _ => stir(mixed, few(left), 0),
    }
}

/// Returns a number below 2³² that another one and twice four octets make.
#[inline(always)]
fn stir(mixed: usize, first: usize, second: usize) -> usize
    requires mixed { mixed < 2 ^ 32 }
    requires first { first < 2 ^ 32 }
    requires second { second < 2 ^ 32 }
    ensures value { result ≡ stir mixed first second }
    ensures small { result < 2 ^ 32 }
{
    ((mixed + first) * 1_013_904_223 + second * 2_146_121_005) / 65536 % 4_294_967_296
}

/// Returns up to three octets as one number.
#[inline(always)]
fn few(octets: &[u8]) -> usize
    ensures value { result ≡ few octets.now }
    ensures small { result < 2 ^ 32 }
{
    match octets {
        [a, b, c] => four(*a, *b, *c, 0),
        [a, b] => four(*a, *b, 0, 0),
        [a] => four(*a, 0, 0, 0),
        _ => 0,
    }
}

/// The candidates that share a tag are linked, each to the next one and the last to the first.
#[derive(Drop)]
pub(crate) struct Links {
    // For each tag the last candidate that has it, counted from 1, or 0 if there is none.
    last: Vec<u16>,
    // For each candidate the next one of its tag, or the first.
    next: Vec<u16>,
    // The candidates that are linked.
    count: usize,
    ghost room: { length next.items ≤ 65535 },
    ghost few: { count ≤ length next.items },
    ghost tags: { 0 < length next.items → length last.items ≡ 4096 },
    ghost within: { All (λ n. n ≤ length next.items) last.items },
}

impl Links {
    /// How many candidates can have links: the first ones. The number of each, counted from 1, fits in two bytes.
    pub(crate) const MOST: usize = 65535;

    /// Creates links without room. It does not allocate.
    pub(crate) fn new(alloc: Global) -> Self
        ensures { (candidates : List (ℕ × List ℕ)) → AreChained result.last.items result.next.items result.count candidates }
    {
        Links {
            last: Vec::new(alloc),
            next: Vec::new(alloc),
            count: 0,
        }
    }

    /// Creates links with room for so many candidates.
    pub(crate) fn with_room(alloc: Global, room: usize) -> Result<Self, AllocError>
        requires { room ≤ 65535 }
        ensures chained { IfOk result (λ links. (candidates : List (ℕ × List ℕ)) → AreChained links.last.items links.next.items links.count candidates) }
        ensures room { IfOk result (λ links. length links.next.items ≡ room) }
    {
        Ok(Links {
            last: vec![in alloc; 0; TAGS]?,
            next: vec![in alloc; 0; room]?,
            count: 0,
        })
    }

    /// Returns the number of candidates that are linked.
    #[inline(always)]
    pub(crate) fn len(&self) -> usize
        ensures { result ≡ self.now.count }
    {
        self.count
    }

    /// Returns the number of candidates for which there is room.
    #[inline(always)]
    pub(crate) fn room(&self) -> usize
        ensures { result ≡ length self.now.next.items }
    {
        self.next.len()
    }

    /// Returns the allocator.
    pub(crate) fn allocator(&self) -> Global {
        *self.last.allocator()
    }

    /// Removes all links.
    fn clear(&mut self)
        ensures { (candidates : List (ℕ × List ℕ)) → AreChained self.new.last.items self.new.next.items self.new.count candidates }
    {
        self.last.fill(0);
        self.count = 0;
    }

    /// Adds the candidates that have no links yet, as far as there is room.
    pub(crate) fn add_all(&mut self, candidates: &Store)
        requires { AreChained self.old.last.items self.old.next.items self.old.count candidates.now }
        ensures chained { AreChained self.new.last.items self.new.next.items self.new.count candidates.now }
        ensures count { self.new.count ≡ min (length candidates.now) (length self.old.next.items) }
    {
        'links: while self.count < candidates.len() && self.count < self.next.len() {
            let (_, labels) = candidates.get(self.count);
            self.add(wide_tag(labels));
        }
    }

    /// Links candidates anew, as far as there is room.
    pub(crate) fn add_anew(&mut self, candidates: &Store)
        ensures { AreChained self.new.last.items self.new.next.items self.new.count candidates.now }
    {
        self.clear();
        self.add_all(candidates);
    }

    /// Adds the next candidate, which has this tag.
    #[inline(always)]
    #[tactic(auto, using(crate::proofs::Rings::linked_more, crate::proofs::Rings::begins, crate::proofs::Rings::grows))]
    fn add(&mut self, tag: usize)
        requires tag { tag < 4096 }
        requires room { self.old.count < length self.old.next.items }
        ensures count { self.new.count ≡ self.old.count + 1 }
        ensures room { length self.new.next.items ≡ length self.old.next.items }
        ensures linked { (T : ℕ → ℕ) → T self.old.count ≡ tag
            → AreRinged 4096 self.old.last.items self.old.next.items self.old.count T
            → AreRinged 4096 self.new.last.items self.new.next.items self.new.count T }
    {
        let index = self.count;
        let last = self.last[tag] as usize;
        if last == 0 {
            self.next[index] = index as u16;
        } else {
            self.next[index] = self.next[last - 1];
            self.next[last - 1] = index as u16;
        }
        self.last[tag] = (index + 1) as u16;
        self.count = index + 1;
    }

    /// Returns the index of the first candidate with the tag.
    #[inline(always)]
    pub(crate) fn first(&self, tag: usize) -> Option<usize>
        requires { tag < 4096 }
        ensures { (T : ℕ → ℕ) → AreRinged 4096 self.now.last.items self.now.next.items self.now.count T
            → FindsNext T self.now.count tag 0 result }
    {
        if self.count == 0 {
            return None;
        }
        let last = self.last[tag] as usize;
        if last == 0 {
            return None;
        }
        Some(self.next[last - 1] as usize)
    }

    /// Returns the index of the next candidate with the tag after one that has it.
    #[inline(always)]
    pub(crate) fn after(&self, tag: usize, index: usize) -> Option<usize>
        requires tag { tag < 4096 }
        requires index { index < self.now.count }
        ensures { (T : ℕ → ℕ) → AreRinged 4096 self.now.last.items self.now.next.items self.now.count T → T index ≡ tag
            → FindsNext T self.now.count tag (index + 1) result }
    {
        if self.last[tag] as usize <= index + 1 {
            return None;
        }
        Some(self.next[index] as usize)
    }
}
