//! The store of the candidates' labels: the bytes of all of them, to which a name adds once.
ghost use Rattle.std.specs.Prelude.{◌≡◌, ◌≢◌, ℕ, ◌+◌, ◌^◌, ◌<◌, ◌≤◌, vec_len, vec_capacity, List, [], ◌∷◌, ◌++◌, length, take, drop, get_or, IsTrue, OnOk, OnErr};
ghost use Rattle.dnw_base.specs.Limits.{max_message, pointer_reach};
ghost use Rattle.dnw_write_suffixes.specs.Candidates.{candidates_before, suffixes};
ghost use Rattle.dnw_write_suffixes.specs.Inside.Store.{AreHeld, AreWithin, held};
ghost use Rattle.dnw_base.specs.Names.{labels_wire};

use dnw_name_form::wire_labels::WireLabels;
use smallvec::SmallVec;
use std::alloc::{AllocError, Global};
use std::marker::Model;

/// How many bytes of labels are inline.
const INLINE_SIZE: usize = 64;

/// For how many bytes of labels there is more room once they have none: the first allocation is then 512 bytes, and not 128,
/// 256 and 512 in turn.
const USUAL_SIZE: usize = 448;

/// Where the bytes of a candidate's labels are in the store, and where the message has these labels.
#[derive(Clone, Copy)]
struct Entry {
    from: usize,
    size: u16,
    // Before the reach of pointers.
    start: u16,
}

/// Candidates in the order in which they were added.
///
/// A contract sees them as the list of their offsets and labels.
#[derive(Drop)]
pub(crate) struct Store {
    // Of one name after another. Those of the first names are inline.
    bytes: SmallVec<u8, INLINE_SIZE>,
    entries: Vec<Entry>,
    // All candidates are before this offset.
    end: usize,
}

impl Model for Store {
    ghost use Rattle.std.specs.Prelude.{ℕ, List, length};
    ghost use Rattle.dnw_write_suffixes.specs.Inside.Store.{AreHeld, held};

    ghost Value = { List (ℕ × List ℕ) };

    ghost view = { λ s. held s.bytes.items s.entries.items };

    ghost invariant = { λ s. AreHeld (length s.bytes.items) s.end s.entries.items };
}

/// Returns the bytes of the labels that are left, without a closing zero.
#[inline(always)]
#[tactic(auto, using(dnw_name_form::proofs::Wires::front_of))]
pub(crate) fn labels_bytes<'a>(labels: &WireLabels<'a>) -> &'a [u8]
    ensures { result.now ≡ labels_wire labels.now }
{
    let wire = labels.as_wire();
    &wire[..wire.len() - 1]
}

/// Returns the end of these entries' bytes.
fn bytes_used(entries: &[Entry], len: usize) -> usize
    requires { AreWithin len entries.now }
    ensures within { AreWithin result entries.now }
    ensures some { result ≤ len }
{
    let mut used = 0;
    for entry in entries {
        used = used.max(entry.from + entry.size as usize);
    }
    used
}

/// Adds the entries of the first `most` suffixes of labels that are written at `start` and whose bytes are the last ones
/// from `from` on. All entries are before `end`; returns the offset that all are before then.
#[inline(always)]
fn push_entries(
    entries: &mut Vec<Entry>,
    bytes: &[u8],
    from: usize,
    start: usize,
    end: usize,
    mut labels: WireLabels<'_>,
    most: usize,
) -> usize
    requires room { vec_len entries.old + most ≤ vec_capacity entries.old }
    requires from { from ≤ length bytes.now }
    requires bytes { drop from bytes.now ≡ labels_wire labels }
    requires reached { start + length (labels_wire labels) < pointer_reach }
    requires held { (to : ℕ) → end ≤ to → AreHeld (length bytes.now) to entries.old.items }
    ensures items { held bytes.now entries.new.items ≡ held bytes.now entries.old.items ++ take most (suffixes start labels.entry) }
    ensures held { AreHeld (length bytes.now) result entries.new.items }
{
    let mut from = from;
    let mut start = start;
    let mut left = most;
    'suffixes: while left > 0 {
        let Some(label) = labels.next() else {
            break;
        };
        entries.push_reserved(Entry {
            from,
            size: (bytes.len() - from) as u16,
            start: start as u16,
        });
        from += 1 + label.len();
        start += 1 + label.len();
        left -= 1;
    }
    end.max(start)
}

/// Appends bytes of labels. If they have no room, there is room for [`USUAL_SIZE`] more afterwards.
#[inline(always)]
fn append(bytes: &mut SmallVec<u8, INLINE_SIZE>, labels: &[u8]) -> Result<(), AllocError>
    ensures ok { OnOk result (bytes.new.items ≡ bytes.old.items ++ labels.now) }
    ensures err { OnErr result (bytes.new.items ≡ bytes.old.items) }
{
    if labels.len() > bytes.capacity() - bytes.len() {
        bytes.reserve(labels.len().max(USUAL_SIZE))?;
    }
    bytes.extend_from_slice(labels)
}

impl Store {
    /// Creates an empty store. It does not allocate.
    pub(crate) fn new(alloc: Global) -> Self
        ensures { result ≡ [] }
    {
        Store {
            bytes: SmallVec::new(alloc),
            entries: Vec::new(alloc),
            end: 0,
        }
    }

    /// Returns the number of candidates.
    #[inline(always)]
    pub(crate) fn len(&self) -> usize
        ensures { result ≡ length self.now }
    {
        self.entries.len()
    }

    /// Returns the offset and the labels of a candidate.
    #[inline(always)]
    pub(crate) fn get(&self, index: usize) -> (u16, &[u8])
        requires { index < length self.now }
        ensures item { (result.0, result.1.now) ≡ get_or self.now index (result.0, result.1.now) }
        ensures reached { result.0 < pointer_reach }
    {
        let entry = self.entries[index];
        let rest = &self.bytes.as_slice()[entry.from..];
        (entry.start, &rest[..entry.size as usize])
    }

    /// Adds a candidate at the end.
    #[tactic(auto, using(crate::proofs::Held::held_one_more))]
    pub(crate) fn push(&mut self, start: u16, labels: &[u8]) -> Result<(), AllocError>
        requires reached { start < pointer_reach }
        requires size { length labels.now ≤ max_message }
        ensures ok { OnOk result (self.new ≡ self.old ++ (start, labels.now) ∷ []) }
        ensures err { OnErr result (self.new ≡ self.old) }
    {
        self.entries.reserve(1)?;
        let from = self.bytes.len();
        append(&mut self.bytes, labels)?;
        self.entries.push_reserved(Entry {
            from,
            size: labels.len() as u16,
            start,
        });
        self.end = self.end.max(start as usize + 1);
        Ok(())
    }

    /// Adds the first `most` suffixes of labels that are written at `start`, the longest first. If memory runs out, none
    /// is added.
    #[tactic(auto, using(crate::proofs::Held::no_suffix, crate::proofs::Held::some_suffix))]
    pub(crate) fn push_suffixes(
        &mut self,
        start: usize,
        labels: WireLabels<'_>,
        most: usize,
    ) -> Result<(), AllocError>
        requires reached { start + length (labels_wire labels) < pointer_reach }
        ensures ok { OnOk result (self.new ≡ self.old ++ take most (suffixes start labels.entry)) }
        ensures err { OnErr result (self.new ≡ self.old) }
        ensures needed { OnErr result (take most (suffixes start labels.entry) ≢ []) }
    {
        let bytes = labels_bytes(&labels);
        if most == 0 {
            return Ok(());
        }
        // The root has no suffix.
        if bytes.len() == 0 {
            return Ok(());
        }
        self.push_some(start, bytes, labels, most)
    }

    /// Adds the first `most` suffixes of labels that have these bytes.
    #[inline(always)]
    #[tactic(auto, using(crate::proofs::Held::held_more))]
    fn push_some(
        &mut self,
        start: usize,
        bytes: &[u8],
        labels: WireLabels<'_>,
        most: usize,
    ) -> Result<(), AllocError>
        requires bytes { bytes.now ≡ labels_wire labels }
        requires reached { start + length (labels_wire labels) < pointer_reach }
        ensures ok { OnOk result (self.new ≡ self.old ++ take most (suffixes start labels.entry)) }
        ensures err { OnErr result (self.new ≡ self.old) }
    {
        // At once for as many as are allowed: with the usual limit the entries grow only here.
        self.entries.reserve(most)?;
        let from = self.bytes.len();
        append(&mut self.bytes, bytes)?;
        self.end = push_entries(
            &mut self.entries,
            self.bytes.as_slice(),
            from,
            start,
            self.end,
            labels,
            most,
        );
        Ok(())
    }

    /// Keeps the first `len` candidates.
    #[tactic(auto, using(crate::proofs::Held::held_first))]
    pub(crate) fn truncate(&mut self, len: usize)
        ensures { self.new ≡ take len self.old }
    {
        self.entries.truncate(len);
        self.cut();
    }

    /// Keeps the candidates before an offset.
    pub(crate) fn retain_before(&mut self, offset: usize)
        ensures { self.new ≡ candidates_before offset self.old }
    {
        self.entries.retain(|entry| (entry.start as usize) < offset);
        self.end = offset;
        self.cut();
    }

    /// Returns an offset that all candidates are before.
    #[inline(always)]
    #[tactic(auto, using(crate::proofs::Held::all_before))]
    pub(crate) fn end(&self) -> usize
        ensures { (offset : ℕ) → result ≤ offset → candidates_before offset self.now ≡ self.now }
    {
        self.end
    }

    /// Removes the bytes after those of the last entry.
    #[tactic(auto, using(crate::proofs::Held::held_cut))]
    fn cut(&mut self)
        ensures { self.new ≡ self.old }
    {
        let used = bytes_used(self.entries.as_slice(), self.bytes.len());
        self.bytes.truncate(used);
    }
}
