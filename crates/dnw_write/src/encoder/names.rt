//! Names, written whole or with a pointer (RFC 1035, section 4.1.4).
ghost use Rattle.std.specs.Prelude.{◌≡◌, ◌≢◌, ℕ, ◌+◌, ◌<◌, ◌≤◌, List, [], ◌++◌, length, MatchOption, IfSome, OnOk, OnErr, Some, None};
ghost use Rattle.dnw_base.specs.Limits.{max_message, pointer_offsets, pointer_reach};
ghost use Rattle.dnw_base.specs.Names.{AreLabels};
ghost use Rattle.dnw_write.specs.Encoder.{Grows, written};
ghost use Rattle.dnw_write.specs.EmittedName.{EmitsLabels, EmitsAs, PointsNowhere, compresses, counted, kept, pointer_to, so_far};
ghost use Rattle.dnw_write.specs.Inside.Sharing.{IsSuffix, share_of};
ghost use Rattle.dnw_write.specs.Inside.Unwritten.{reported};
ghost use Rattle.dnw_write_suffixes.specs.Candidates.{FindsUsable};

use super::{BinEncoder, NameEncoding};
use dnw_base::error::{ProtoError, ProtoResult};
use dnw_base::limits::{POINTER_BITS, POINTER_REACH};
use dnw_name::name::Name;
use dnw_name_form::wire_labels::WireLabels;
use std::alloc::{AllocError, Global};

/// A suffix of a name that a pointer can stand for.
#[derive(Clone, Copy)]
struct Suffix {
    /// The number of labels before it.
    labels: usize,
    /// The number of bytes of these labels, length octets included.
    size: usize,
    /// The offset at which the message has it.
    target: u16,
}

/// Why a name is not written.
// A `ProtoError` does not fit in a register.
#[derive(Clone, Copy)]
enum Unwritten {
    /// It does not fit into the maximum size.
    Full,
    /// Memory ran out.
    Memory,
}

/// Returns the two octets of a pointer: 14 bits after two that are set.
#[inline(always)]
fn pointer_octets(target: u16) -> [u8; 2]
    requires { target < pointer_offsets }
    ensures { result ≡ pointer_to target }
{
    [POINTER_BITS + (target / 256) as u8, (target % 256) as u8]
}

impl<'a> BinEncoder<'a> {
    ghost use Rattle.dnw_write.specs.EncoderValue.{value, lender};

    /// Writes labels in their own case: with a pointer if the mode allows one and a suffix is found.
    #[inline(always)]
    pub(crate) fn emit_labels(&mut self, name: &WireLabels<'_>) -> ProtoResult<()>
        ensures writes { EmitsLabels (value self.old) name.now result (value self.new) }
        ensures lender { lender self.new ≡ lender self.old }
    {
        match self.write_labels(name) {
            Ok(()) => Ok(()),
            Err(Unwritten::Full) => {
                Err(ProtoError::MaxBufferSizeExceeded(self.max_size as usize))
            }
            Err(Unwritten::Memory) => Err(ProtoError::Memory),
        }
    }

    /// Does what `emit_labels` does, by a result that fits in a register.
    #[inline(never)]
    fn write_labels(&mut self, name: &WireLabels<'_>) -> Result<(), Unwritten>
        ensures writes { EmitsLabels (value self.old) name.now (reported (value self.old).max_size result) (value self.new) }
        ensures lender { lender self.new ≡ lender self.old }
    {
        if self.candidates.len() == 0 || !self.compresses() {
            return self.emit_whole(name);
        }
        self.link_candidates();
        match self.find_suffix(name) {
            Some(suffix) => self.emit_shared(name, suffix),
            None => self.emit_whole(name),
        }
    }

    /// Returns the allocator of the buffer.
    #[inline(always)]
    pub(crate) fn allocator(&self) -> Global {
        *self.buffer.allocator()
    }

    /// Prepares the candidates for a search.
    #[inline(always)]
    fn link_candidates(&mut self)
        ensures value { value self.new ≡ value self.old }
        ensures lender { lender self.new ≡ lender self.old }
    {
        self.candidates.link();
    }

    /// Returns `true` if the next name is compressed.
    fn compresses(&self) -> bool
        ensures { result ≡ compresses (value self.now) }
    {
        match self.encoding {
            NameEncoding::Compressed => self.names < self.name_limit,
            _ => false,
        }
    }

    /// Returns the number of names that are counted once the next one is written.
    fn counted(&self) -> usize
        ensures { result ≡ counted (value self.now) }
    {
        if self.compresses() {
            self.names + 1
        } else {
            self.names
        }
    }

    /// Returns the longest suffix of the name that a pointer can stand for.
    fn find_suffix(&self, name: &WireLabels<'_>) -> Option<Suffix>
        ensures finds { MatchOption result (PointsNowhere (value self.now) name.now)
            (λ suffix. IsSuffix (value self.now) name.now suffix.labels suffix.size suffix.target) }
        ensures reached { IfSome result (λ suffix. suffix.target < pointer_reach) }
    {
        let mut rest = name.clone();
        let mut labels = 0;
        let mut size = 0;
        'suffixes: loop {
            let suffix = rest.clone();
            let label = rest.next()?;
            if let Some(target) = self.find_usable(suffix) {
                return Some(Suffix {
                    labels,
                    size,
                    target,
                });
            }
            labels += 1;
            size = size + 1 + label.len();
        }
    }

    /// Returns the offset of the first candidate that is usable for the labels.
    fn find_usable(&self, labels: WireLabels<'_>) -> Option<u16>
        ensures finds { FindsUsable (so_far (value self.now)) labels.entry (value self.now).candidates result }
        ensures reached { IfSome result (λ offset. offset < pointer_reach) }
    {
        self.candidates
            .find_usable(&self.buffer[..self.offset], labels)
    }

    /// Writes a name whole.
    fn emit_whole(&mut self, name: &WireLabels<'_>) -> Result<(), Unwritten>
        ensures labels { AreLabels name.now }
        ensures writes { EmitsAs (value self.old) name.now None (reported (value self.old).max_size result) (value self.new) }
        ensures lender { lender self.new ≡ lender self.old }
    {
        let wire = name.as_wire();
        if !self.has_room(wire.len()) {
            return Err(Unwritten::Full);
        }
        let names = self.counted();
        let stored = self.candidates.len();
        let Ok(()) = self.keep_suffixes(name, Name::MAX_LENGTH) else {
            return Err(Unwritten::Memory);
        };
        let Ok(()) = self.emit_vec(wire) else {
            self.candidates.truncate(stored);
            return Err(Unwritten::Memory);
        };
        self.names = names;
        Ok(())
    }

    /// Writes the labels before a suffix, and a pointer for the suffix.
    fn emit_shared(&mut self, name: &WireLabels<'_>, suffix: Suffix) -> Result<(), Unwritten>
        requires suffix { IsSuffix (value self.old) name.now suffix.labels suffix.size suffix.target }
        requires reached { suffix.target < pointer_reach }
        ensures labels { AreLabels name.now }
        ensures writes { EmitsAs (value self.old) name.now (Some (share_of name.now suffix.labels suffix.target)) (reported (value self.old).max_size result) (value self.new) }
        ensures lender { lender self.new ≡ lender self.old }
    {
        let wire = name.as_wire();
        if !self.has_room(wire.len() - 1) {
            return Err(Unwritten::Full);
        }
        let names = self.counted();
        let held = self.candidates.len();
        let Ok(()) = self.keep_suffixes(name, suffix.labels) else {
            return Err(Unwritten::Memory);
        };
        let pointer = self.offset + suffix.size;
        let Ok(()) = self.write_front(&wire[..suffix.size], suffix.target) else {
            self.candidates.truncate(held);
            return Err(Unwritten::Memory);
        };
        self.candidates.trim(pointer);
        self.names = names;
        Ok(())
    }

    /// Keeps the first `count` suffixes of a name that is about to be written, or as many as are allowed.
    #[inline(always)]
    fn keep_suffixes(&mut self, name: &WireLabels<'_>, count: usize) -> Result<(), AllocError>
        ensures ok { OnOk result (value self.new ≡ record (value self.old) { candidates = (value self.old).candidates ++ kept (value self.old) name.now count }) }
        ensures needed { OnErr result (kept (value self.old) name.now count ≢ []) }
        ensures same { OnErr result (value self.new ≡ value self.old) }
        ensures lender { lender self.new ≡ lender self.old }
    {
        if count == 0 {
            return Ok(());
        }
        self.keep_some(name, count)
    }

    /// Does what `keep_suffixes` does. It is a call of its own, since a name that is a pointer keeps none.
    #[inline(never)]
    fn keep_some(&mut self, name: &WireLabels<'_>, count: usize) -> Result<(), AllocError>
        ensures ok { OnOk result (value self.new ≡ record (value self.old) { candidates = (value self.old).candidates ++ kept (value self.old) name.now count }) }
        ensures needed { OnErr result (kept (value self.old) name.now count ≢ []) }
        ensures same { OnErr result (value self.new ≡ value self.old) }
        ensures lender { lender self.new ≡ lender self.old }
    {
        if name.as_wire().len() - 1 >= POINTER_REACH - self.offset.min(POINTER_REACH) {
            return Ok(());
        }
        let allowed = self.candidate_limit.saturating_sub(self.candidates.len());
        self.candidates
            .push_suffixes(self.offset, name.clone(), count.min(allowed))?;
        Ok(())
    }

    /// Writes the labels before a pointer, and the pointer, and ends the buffer there.
    #[inline(always)]
    fn write_front(&mut self, front: &[u8], target: u16) -> Result<(), AllocError>
        requires reached { target < pointer_offsets }
        requires fits { (value self.old).offset + length front.now ≤ max_message }
        ensures ok { OnOk result (value self.new ≡ record (value self.old) {
          bytes = so_far (value self.old) ++ (front.now ++ pointer_to target);
          offset = (value self.old).offset + length (front.now ++ pointer_to target);
        }) }
        ensures needed { OnErr result (Grows (value self.old) (length (front.now ++ pointer_to target))) }
        ensures same { OnErr result (value self.new ≡ value self.old) }
        ensures lender { lender self.new ≡ lender self.old }
    {
        if front.is_empty() && self.offset == self.buffer.len() {
            self.buffer.extend_from_slice(&pointer_octets(target))?;
            self.offset += 2;
            return Ok(());
        }
        self.buffer.resize(self.offset + front.len() + 2, 0)?;
        self.put(front);
        self.put(&pointer_octets(target));
        Ok(())
    }

    /// Writes bytes over as many at the offset.
    #[inline(always)]
    fn put(&mut self, bytes: &[u8])
        requires { (value self.old).offset + length bytes.now ≤ length (value self.old).bytes }
        ensures value { value self.new ≡ written (value self.old) bytes.now }
        ensures lender { lender self.new ≡ lender self.old }
    {
        let end = self.offset + bytes.len();
        self.buffer[self.offset..end].copy_from_slice(bytes);
        self.offset = end;
    }
}
