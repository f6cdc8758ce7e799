//! Writing messages of a bounded size.
ghost use Rattle.std.specs.Prelude.{◌≡◌, ℕ, ◌+◌, ◌%◌, ◌<◌, ◌≤◌, ◌↔◌, Bool, false, ◌==◌, List, [], ◌∷◌, ◌++◌, length, slice_range, IsTrue, take, IfSome, OnOk, OnErr, IfErr, vec_len};
ghost use Rattle.std.specs.Int.{w16, w32, to_be_bytes};
ghost use Rattle.std.specs.Int.{cast_unsigned as unsigned};
ghost use Rattle.dnw_base.specs.Limits.{max_message, pointer_reach};
ghost use Rattle.dnw_write.specs.Encoder.{fresh, trimmed, HasRoom, Writes, WritesText, Stores};
ghost use Rattle.dnw_write_suffixes.specs.Candidates.{Finds};

use dnw_base::error::{ProtoError, ProtoResult};
use dnw_base::limits::{MAX_CHARACTER_DATA, MAX_MESSAGE, POINTER_REACH};
use dnw_write_suffixes::candidates::Candidates;
use std::alloc::AllocError;

mod items;
pub mod laws;
mod marks;
mod modal;
mod modes;
mod names;
mod place;

pub use marks::Mark;
pub use modal::ModalEncoder;
pub use modes::{NameEncoding, RDataEncoding};
pub use place::Place;

/// How many candidates for compression an encoder keeps unless another limit is set.
pub const CANDIDATE_LIMIT: usize = 64;

/// How many names an encoder compresses unless another limit is set.
pub const NAME_LIMIT: usize = 120;

/// How many bytes an empty buffer without room grows to at first, if the maximum size allows as many: most messages then
/// allocate once.
const FIRST_ROOM: usize = 512;

/// Writes a message into a buffer, up to a maximum size. A call that fails leaves the encoder unchanged.
///
/// Names are compressed (RFC 1035, section 4.1.4): the encoder keeps the suffixes of the first names as candidates, to
/// which later names point.
///
/// A contract sees it as an encoder value: the buffer's bytes, the offset of the next one, the maximum, and how names
/// are written. The parameter stands for what the encoder owns; write `BinEncoder<'a>`.
pub struct BinEncoder<'a, C = Candidates> {
    buffer: &'a mut Vec<u8>,
    offset: usize,
    max_size: u16,
    encoding: NameEncoding,
    canonical: bool,
    candidates: C,
    names: usize,
    candidate_limit: usize,
    name_limit: usize,
    ghost within: { offset ≤ vec_len buffer.now },
}

impl<C: Drop> Drop for BinEncoder<'_, C> {
    ghost use Rattle.dnw_write.specs.EncoderValue.{buffer_bytes};

    // The buffer stays with its owner.
    fn drop(self)
        ensures { self.exit.0.now.items ≡ buffer_bytes self.entry }
    {
        let BinEncoder {
            buffer: _,
            offset: _,
            max_size: _,
            encoding: _,
            canonical: _,
            candidates: _,
            names: _,
            candidate_limit: _,
            name_limit: _,
        } = self;
    }
}

impl<'a> BinEncoder<'a> {
    ghost use Rattle.dnw_write.specs.EncoderValue.{value, lender};

    /// Creates an encoder that writes from the buffer's first byte on. It does not allocate.
    pub fn new(buf: &'a mut Vec<u8>) -> Self
        ensures value { value result ≡ fresh buf.old.items 0 }
        ensures lender { lender result ≡ buf.entry.ghost_name }
    {
        BinEncoder::with_offset(buf, 0)
    }

    /// Creates an encoder that writes from `offset` on, which must not be past the buffer's end. It does not allocate.
    pub fn with_offset(buf: &'a mut Vec<u8>, offset: u32) -> Self
        requires { offset ≤ vec_len buf.old }
        ensures value { value result ≡ fresh buf.old.items offset }
        ensures lender { lender result ≡ buf.entry.ghost_name }
    {
        let alloc = *buf.allocator();
        BinEncoder {
            buffer: buf,
            offset: offset as usize,
            max_size: MAX_MESSAGE,
            encoding: NameEncoding::Compressed,
            canonical: false,
            candidates: Candidates::new(alloc),
            names: 0,
            candidate_limit: CANDIDATE_LIMIT,
            name_limit: NAME_LIMIT,
        }
    }

    /// Sets how many candidates the encoder keeps and how many names it compresses. Candidates above the new limit
    /// stay.
    pub fn with_limits(mut self, candidates: usize, names: usize) -> Self
        ensures value { value result ≡ record (value self.entry) { candidate_limit = candidates; name_limit = names } }
        ensures lender { lender result ≡ lender self.entry }
    {
        self.candidate_limit = candidates;
        self.name_limit = names;
        self
    }

    /// Sets the maximum size, in bytes: a write that would go past it fails.
    pub fn set_max_size(&mut self, max: u16)
        ensures value { value self.new ≡ record (value self.old) { max_size = max } }
        ensures lender { lender self.new ≡ lender self.old }
    {
        self.max_size = max;
    }

    /// Returns the maximum size, in bytes.
    #[inline(always)]
    pub fn max_size(&self) -> u16
        ensures { result ≡ (value self.now).max_size }
    {
        self.max_size
    }

    /// Ends the encoder and returns the buffer.
    pub fn into_bytes(self) -> &'a Vec<u8>
        ensures { result.now.items ≡ (value self.entry).bytes }
    {
        let BinEncoder {
            buffer,
            offset: _,
            max_size: _,
            encoding: _,
            canonical: _,
            candidates: _,
            names: _,
            candidate_limit: _,
            name_limit: _,
        } = self;
        buffer
    }

    /// Returns the number of bytes in the buffer.
    #[inline(always)]
    pub fn len(&self) -> usize
        ensures { result ≡ length (value self.now).bytes }
    {
        self.buffer.len()
    }

    /// Returns `true` if the buffer has no bytes.
    #[inline(always)]
    pub fn is_empty(&self) -> bool
        ensures { IsTrue result ↔ ((value self.now).bytes ≡ []) }
    {
        self.buffer.is_empty()
    }

    /// Returns the offset at which the next byte is written.
    #[inline(always)]
    pub fn offset(&self) -> usize
        ensures offset { result ≡ (value self.now).offset }
        ensures within { result ≤ length (value self.now).bytes }
    {
        self.offset
    }

    /// Sets the offset at which the next byte is written, which must not be past the buffer's end.
    #[inline(always)]
    pub fn set_offset(&mut self, offset: usize)
        requires { offset ≤ length (value self.old).bytes }
        ensures value { value self.new ≡ record (value self.old) { offset = offset } }
        ensures lender { lender self.new ≡ lender self.old }
    {
        self.offset = offset;
    }

    /// Sets whether record data is written in canonical form (RFC 4034, section 6.2).
    pub fn set_canonical_form(&mut self, canonical_form: bool)
        ensures value { value self.new ≡ record (value self.old) { canonical = canonical_form } }
        ensures lender { lender self.new ≡ lender self.old }
    {
        self.canonical = canonical_form;
    }

    /// Returns `true` if record data is written in canonical form.
    pub fn is_canonical_form(&self) -> bool
        ensures { result ≡ (value self.now).canonical }
    {
        self.canonical
    }

    /// Sets how names are written.
    pub fn set_name_encoding(&mut self, name_encoding: NameEncoding)
        ensures value { value self.new ≡ record (value self.old) { encoding = name_encoding } }
        ensures lender { lender self.new ≡ lender self.old }
    {
        self.encoding = name_encoding;
    }

    /// Returns how names are written.
    pub fn name_encoding(&self) -> NameEncoding
        ensures { result ≡ (value self.now).encoding }
    {
        self.encoding
    }

    /// Removes the bytes and the candidates from the offset on.
    pub fn trim(&mut self)
        ensures value { value self.new ≡ trimmed (value self.old) }
        ensures lender { lender self.new ≡ lender self.old }
    {
        self.buffer.truncate(self.offset);
        self.candidates.trim(self.offset);
    }

    /// Returns the bytes from `start` to `end`.
    pub fn slice_of(&self, start: usize, end: usize) -> &[u8]
        requires written { start < (value self.now).offset }
        requires order { start ≤ end }
        requires within { end ≤ length (value self.now).bytes }
        ensures { result.now ≡ slice_range (value self.now).bytes start end }
    {
        let bytes: &[u8] = self.buffer;
        &bytes[start..end]
    }

    /// Keeps the labels from `start` to `end` as a candidate for compression, if one more is allowed and pointers reach
    /// as far as the offset.
    pub fn store_label_pointer(&mut self, start: usize, end: usize) -> ProtoResult<()>
        requires written { start < (value self.old).offset }
        requires order { start ≤ end }
        requires within { end ≤ length (value self.old).bytes }
        requires reached { end ≤ max_message }
        ensures stores { Stores (value self.old) (start, slice_range (value self.old).bytes start end) result (value self.new) }
        ensures lender { lender self.new ≡ lender self.old }
    {
        if self.offset >= POINTER_REACH || self.candidates.len() >= self.candidate_limit {
            return Ok(());
        }
        self.candidates
            .push(start as u16, &self.buffer[start..end])?;
        Ok(())
    }

    /// Returns the offset of the first candidate whose labels are those from `start` to `end`.
    pub fn get_label_pointer(&self, start: usize, end: usize) -> Option<u16>
        requires written { start < (value self.now).offset }
        requires order { start ≤ end }
        requires within { end ≤ length (value self.now).bytes }
        requires reached { end ≤ max_message }
        ensures finds { Finds (slice_range (value self.now).bytes start end) (value self.now).candidates result }
        ensures reached { IfSome result (λ offset. offset < pointer_reach) }
    {
        self.candidates.find(self.slice_of(start, end))
    }

    /// Writes one byte.
    pub fn emit(&mut self, b: u8) -> ProtoResult<()>
        ensures writes { Writes (value self.old) (b ∷ []) result (value self.new) }
        ensures lender { lender self.new ≡ lender self.old }
    {
        self.emit_vec(&[b])
    }

    /// Writes one byte, as `emit` does.
    pub fn emit_u8(&mut self, number: u8) -> ProtoResult<()>
        ensures writes { Writes (value self.old) (number ∷ []) result (value self.new) }
        ensures lender { lender self.new ≡ lender self.old }
    {
        self.emit(number)
    }

    /// Writes a number in network byte order.
    pub fn emit_u16(&mut self, number: u16) -> ProtoResult<()>
        ensures writes { Writes (value self.old) (to_be_bytes w16 number) result (value self.new) }
        ensures lender { lender self.new ≡ lender self.old }
    {
        self.emit_vec(&u16::to_be_bytes(number))
    }

    /// Writes a number in network byte order, as its two's complement.
    pub fn emit_i32(&mut self, number: i32) -> ProtoResult<()>
        ensures writes { Writes (value self.old) (to_be_bytes w32 (unsigned w32 number)) result (value self.new) }
        ensures lender { lender self.new ≡ lender self.old }
    {
        self.emit_vec(&i32::to_be_bytes(number))
    }

    /// Writes a number in network byte order.
    pub fn emit_u32(&mut self, number: u32) -> ProtoResult<()>
        ensures writes { Writes (value self.old) (to_be_bytes w32 number) result (value self.new) }
        ensures lender { lender self.new ≡ lender self.old }
    {
        self.emit_vec(&u32::to_be_bytes(number))
    }

    /// Writes bytes.
    #[inline(always)]
    pub fn emit_vec(&mut self, bytes: &[u8]) -> ProtoResult<()>
        ensures writes { Writes (value self.old) bytes.now result (value self.new) }
        ensures lender { lender self.new ≡ lender self.old }
    {
        self.test_room(bytes.len())?;
        let end = self.offset + bytes.len();
        let len = self.buffer.len();
        if end <= len {
            self.buffer[self.offset..end].copy_from_slice(bytes);
        } else if self.offset == len && bytes.len() <= self.buffer.capacity() - len {
            self.buffer.extend_from_slice(bytes)?;
        } else {
            put_grown(self.buffer, self.offset, bytes, self.max_size)?;
        }
        self.offset = end;
        Ok(())
    }

    /// Writes character data: a length octet, and at most 255 bytes (RFC 1035, section 3.3).
    pub fn emit_character_data(&mut self, char_data: &[u8]) -> ProtoResult<()>
        ensures writes { WritesText (value self.old) char_data.now result (value self.new) }
        ensures lender { lender self.new ≡ lender self.old }
    {
        if char_data.len() > MAX_CHARACTER_DATA {
            return Err(ProtoError::CharacterDataTooLong {
                max: MAX_CHARACTER_DATA,
                len: char_data.len(),
            });
        }
        self.emit_character_data_unrestricted(char_data)
    }

    /// Writes the low eight bits of the length of some bytes, and these bytes.
    ///
    /// A reader of more than 255 bytes does not find their end; see `emit_character_data`.
    pub fn emit_character_data_unrestricted(&mut self, char_data: &[u8]) -> ProtoResult<()>
        ensures writes { Writes (value self.old) (length char_data.now % 256 ∷ char_data.now) result (value self.new) }
        ensures lender { lender self.new ≡ lender self.old }
    {
        self.test_room(1 + char_data.len())?;
        let end = self.offset + 1 + char_data.len();
        if end > self.buffer.len() {
            self.buffer.resize(end, 0)?;
        }
        self.buffer[self.offset] = (char_data.len() % 256) as u8;
        self.buffer[self.offset + 1..end].copy_from_slice(char_data);
        self.offset = end;
        Ok(())
    }

    /// Fails if `len` more bytes go past the maximum.
    #[inline(always)]
    fn test_room(&self, len: usize) -> ProtoResult<()>
        ensures ok { OnOk result (HasRoom (value self.now) len) }
        ensures err { IfErr result (λ e. ((value self.now).max_size < (value self.now).offset + len) × (e ≡ ProtoError.MaxBufferSizeExceeded (value self.now).max_size)) }
    {
        if !self.has_room(len) {
            return Err(ProtoError::MaxBufferSizeExceeded(self.max_size as usize));
        }
        Ok(())
    }

    /// Returns `true` if `len` more bytes do not go past the maximum.
    #[inline(always)]
    fn has_room(&self, len: usize) -> bool
        ensures yes { IsTrue result → HasRoom (value self.now) len }
        ensures no { result ≡ false → (value self.now).max_size < (value self.now).offset + len }
    {
        let max = self.max_size as usize;
        len <= max && self.offset <= max - len
    }
}

/// Puts bytes at an offset of a buffer that has to grow for them. It takes the buffer alone, and not the encoder, so that LLVM keeps
/// an encoder that writes little in registers.
#[inline(never)]
fn put_grown(
    buffer: &mut Vec<u8>,
    offset: usize,
    bytes: &[u8],
    max_size: u16,
) -> Result<(), AllocError>
    requires within { offset ≤ vec_len buffer.old }
    requires room { offset + length bytes.now ≤ max_size }
    requires grows { vec_len buffer.old < offset + length bytes.now }
    ensures ok { OnOk result (buffer.new.items ≡ take offset buffer.old.items ++ bytes.now) }
    ensures err { OnErr result (buffer.new.items ≡ buffer.old.items) }
{
    let end = offset + bytes.len();
    let len = buffer.len();
    if offset < len {
        buffer.resize(end, 0)?;
        buffer[offset..end].copy_from_slice(bytes);
        return Ok(());
    }
    if len == 0 {
        buffer.reserve(bytes.len().max(FIRST_ROOM.min(max_size as usize)))?;
    }
    buffer.extend_from_slice(bytes)
}
