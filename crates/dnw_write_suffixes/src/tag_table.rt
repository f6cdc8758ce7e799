//! Tags, by which a search passes over most candidates.
ghost use Rattle.std.specs.Prelude.{◌≡◌, ℕ, ◌+◌, ◌*◌, ◌^◌, ◌<◌, ◌≤◌, min, true, false, List, get_or, length};
ghost use Rattle.dnw_write_suffixes.specs.Inside.TagTable.{AreLinked, AreTaggedByFront, FindsNext, label_end, pair, tag};

use crate::store::Store;

/// How many candidates have tags: the first ones. The number of each, counted from 1, fits a byte.
const ROOM: usize = 255;

/// Returns a number below 256 that few labels share: it comes of their length, the first two octets of the first label,
/// and the last two of the first and the second.
#[inline(always)]
pub(crate) fn tag(labels: &[u8]) -> usize
    ensures value { result ≡ tag labels.now }
    ensures below { result < 256 }
{
    match labels {
        [len, first, second, ..] => {
            let len = *len as usize;
            let front = pair(*first, *second) * 18191;
            let ends = label_end(labels, 0, len)
                + label_end(labels, len + 1, octet_at(labels, len + 1)) * 5;
            (labels.len() % 256 * 51 + (front + ends) / 256) % 256
        }
        _ => labels.len() % 256,
    }
}

/// Returns a number that comes of the last two octets of the label at `start`, which has this length.
#[inline(always)]
fn label_end(labels: &[u8], start: usize, len: usize) -> usize
    requires { start + len < 2 ^ 64 }
    ensures value { result ≡ label_end labels.now start len }
    ensures few { result ≤ 65535 * 801 }
{
    if 0 < len && start + len < labels.len() {
        pair(labels[start + len - 1], labels[start + len]) * 801
    } else {
        0
    }
}

/// Returns two octets as one number, so that one multiplication mixes both.
#[inline(always)]
fn pair(first: u8, second: u8) -> usize
    ensures value { result ≡ pair first second }
    ensures few { result < 65536 }
{
    first as usize + second as usize * 256
}

/// Returns the octet at an index, or 0 past the end.
#[inline(always)]
pub(crate) fn octet_at(labels: &[u8], index: usize) -> usize
    ensures value { result ≡ get_or labels.now index 0 }
    ensures octet { result < 256 }
{
    match labels.get(index) {
        Some(octet) => *octet as usize,
        None => 0,
    }
}

/// The candidates that share a tag are linked, each to the next one and the last to the first.
#[derive(Drop)]
pub(crate) struct TagTable {
    // For each tag the last candidate that has it, counted from 1, or 0 if there is none.
    last: [u8; 256],
    // For each candidate the next one of its tag, or the first.
    next: [u8; 256],
    // The candidates that are linked.
    count: usize,
    ghost few: { count ≤ 255 },
}

impl TagTable {
    /// Creates tags of no candidates.
    #[inline(always)]
    pub(crate) fn new() -> Self
        ensures { (candidates : List (ℕ × List ℕ)) → AreTaggedByFront result.last result.next result.count candidates }
    {
        TagTable {
            last: [0; 256],
            next: [0; 256],
            count: 0,
        }
    }

    /// Returns the number of candidates that are linked.
    #[inline(always)]
    pub(crate) fn len(&self) -> usize
        ensures { result ≡ self.now.count }
    {
        self.count
    }

    /// Adds the candidates that have no tags yet, as far as there is room.
    #[inline(always)]
    pub(crate) fn add_all(&mut self, candidates: &Store)
        requires { AreTaggedByFront self.old.last self.old.next self.old.count candidates.now }
        ensures marked { AreTaggedByFront self.new.last self.new.next self.new.count candidates.now }
        ensures count { self.new.count ≡ min (length candidates.now) 255 }
    {
        'tag_table: while self.count < candidates.len() && self.count < ROOM {
            let (_, labels) = candidates.get(self.count);
            self.add(tag(labels));
        }
    }

    /// Adds the next candidate, which has this tag.
    #[inline(always)]
    #[tactic(auto, using(crate::proofs::Rings::linked_more, crate::proofs::Rings::begins, crate::proofs::Rings::grows))]
    fn add(&mut self, tag: usize)
        requires tag { tag < 256 }
        requires room { self.old.count < 255 }
        ensures count { self.new.count ≡ self.old.count + 1 }
        ensures linked { (T : ℕ → ℕ) → T self.old.count ≡ tag → AreLinked self.old.last self.old.next self.old.count T
            → AreLinked self.new.last self.new.next self.new.count T }
    {
        let index = self.count;
        let last = self.last[tag] as usize;
        if last == 0 {
            self.next[index] = index as u8;
        } else {
            self.next[index] = self.next[last - 1];
            self.next[last - 1] = index as u8;
        }
        self.last[tag] = (index + 1) as u8;
        self.count = index + 1;
    }

    /// Returns the index of the first candidate with the tag.
    #[inline(always)]
    pub(crate) fn first(&self, tag: usize) -> Option<usize>
        requires { tag < 256 }
        ensures { (T : ℕ → ℕ) → AreLinked self.now.last self.now.next self.now.count T → FindsNext T self.now.count tag 0 result }
    {
        let last = self.last[tag] as usize;
        if last == 0 {
            return None;
        }
        Some(self.next[last - 1] as usize)
    }

    /// Returns the index of the next candidate with the tag after one that has it.
    #[inline(always)]
    pub(crate) fn after(&self, tag: usize, index: usize) -> Option<usize>
        requires tag { tag < 256 }
        requires index { index < self.now.count }
        ensures { (T : ℕ → ℕ) → AreLinked self.now.last self.now.next self.now.count T → T index ≡ tag
            → FindsNext T self.now.count tag (index + 1) result }
    {
        if self.last[tag] as usize <= index + 1 {
            return None;
        }
        Some(self.next[index] as usize)
    }
}
