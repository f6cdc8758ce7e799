//! A cursor over the bytes of a message.
ghost use Rattle.std.specs.Prelude.{◌≡◌, ℕ, ◌+◌, ◌-◌, ◌≤◌, ◌↔◌, ⊤, List, length, IsTrue, IsOk, IfOk, IfErr, Some, slice_get, slice_index, slice_range};
ghost use Rattle.std.specs.Int.{w16, w32, from_be_bytes, cast_signed};
ghost use Rattle.dnw_base.specs.Decoder.{Decoder, Takes, TakesCopy, next_bytes, advanced};

use crate::error::DecodeError;
use crate::restrict::Restrict;
use std::alloc::Global;
use std::marker::Model;

/// Reads a message from the left. The slices that it lends live as long as the message.
///
/// A read fails with `InsufficientBytes` if the message has too few bytes left. A call that fails leaves the decoder
/// unchanged. Only `read_vec` allocates.
///
/// A contract sees a decoder as the message's bytes and the index of the next one.
#[derive(Drop)]
pub struct BinDecoder<'a> {
    buffer: &'a [u8],
    index: usize,
}

impl<'a> Model for BinDecoder<'a> {
    ghost use Rattle.std.specs.Prelude.{◌≤◌, length};
    ghost use Rattle.dnw_base.specs.Decoder.{Decoder};

    ghost Value = { Decoder };

    ghost view = { λ d. record { bytes = d.buffer.now; index = d.index } };

    ghost invariant = { λ d. d.index ≤ length d.buffer.now };
}

impl<'a> BinDecoder<'a> {
    /// Creates a decoder at the first byte of a message.
    #[inline(always)]
    pub fn new(buffer: &'a [u8]) -> Self
        ensures { result ≡ record { bytes = buffer.now; index = 0 } }
    {
        BinDecoder { buffer, index: 0 }
    }

    /// Reads one byte.
    #[inline(always)]
    pub fn pop(&mut self) -> Result<Restrict<u8>, DecodeError>
        ensures takes { Takes self.old 1 (λ byte. slice_get self.old.bytes self.old.index ≡ Some byte) result self.new }
    {
        if self.index == self.buffer.len() {
            return Err(DecodeError::InsufficientBytes);
        }
        let byte = self.buffer[self.index];
        self.index += 1;
        Ok(Restrict::new(byte))
    }

    /// Returns the number of bytes that are left.
    #[inline(always)]
    pub fn len(&self) -> usize
        ensures { self.now.index + result ≡ length self.now.bytes }
    {
        self.buffer.len() - self.index
    }

    /// Returns `true` if no byte is left.
    #[inline(always)]
    pub fn is_empty(&self) -> bool
        ensures { IsTrue result ↔ (self.now.index ≡ length self.now.bytes) }
    {
        self.index == self.buffer.len()
    }

    /// Returns the next byte without moving past it, or `None` at the end of the message.
    #[inline(always)]
    pub fn peek(&self) -> Option<Restrict<u8>>
        ensures { result ≡ slice_get self.now.bytes self.now.index }
    {
        if self.index == self.buffer.len() {
            return None;
        }
        Some(Restrict::new(self.buffer[self.index]))
    }

    /// Returns the index of the next byte in the message.
    #[inline(always)]
    pub fn index(&self) -> usize
        ensures index { result ≡ self.now.index }
        ensures within { result ≤ length self.now.bytes }
    {
        self.index
    }

    /// Returns the whole message, whatever was read of it.
    #[inline(always)]
    pub fn message(&self) -> &'a [u8]
        ensures { result.now ≡ self.now.bytes }
    {
        self.buffer
    }

    /// Creates a decoder of the same message at another index, which must be within the message.
    ///
    /// `BinDecoder::new(decoder.message())` and then `skip` reach any index, and test it.
    #[inline(always)]
    pub fn clone(&self, index_at: u16) -> Self
        requires { index_at ≤ length self.now.bytes }
        ensures { result ≡ record { bytes = self.now.bytes; index = index_at } }
    {
        BinDecoder {
            buffer: self.buffer,
            index: index_at as usize,
        }
    }

    /// Reads character data: a length octet and that many bytes (RFC 1035, section 3.3).
    pub fn read_character_data(&mut self) -> Result<Restrict<&'a [u8]>, DecodeError>
        ensures takes { Takes self.old (1 + slice_index self.old.bytes self.old.index)
            (λ read. read.now ≡ next_bytes (advanced self.old 1) (slice_index self.old.bytes self.old.index)) result self.new }
    {
        if self.index == self.buffer.len() {
            return Err(DecodeError::InsufficientBytes);
        }
        let len = self.buffer[self.index] as usize;
        if self.buffer.len() - self.index <= len {
            return Err(DecodeError::InsufficientBytes);
        }
        let start = self.index + 1;
        let read = &self.buffer[start..start + len];
        self.index = start + len;
        Ok(Restrict::new(read))
    }

    /// Moves past `len` bytes.
    #[inline(always)]
    pub fn skip(&mut self, len: usize) -> Result<(), DecodeError>
        ensures takes { Takes self.old len (λ _. ⊤) result self.new }
    {
        if self.buffer.len() - self.index < len {
            return Err(DecodeError::InsufficientBytes);
        }
        self.index += len;
        Ok(())
    }

    /// Reads `len` bytes.
    #[inline(always)]
    pub fn read_slice(&mut self, len: usize) -> Result<Restrict<&'a [u8]>, DecodeError>
        ensures takes { Takes self.old len (λ read. read.now ≡ next_bytes self.old len) result self.new }
    {
        if self.buffer.len() - self.index < len {
            return Err(DecodeError::InsufficientBytes);
        }
        let read = &self.buffer[self.index..self.index + len];
        self.index += len;
        Ok(Restrict::new(read))
    }

    /// Reads `len` bytes into a new vector. It fails with `Memory` if the vector cannot be allocated; no bytes need no
    /// allocation.
    pub fn read_vec(&mut self, alloc: Global, len: usize) -> Result<Restrict<Vec<u8>>, DecodeError>
        ensures takes { TakesCopy self.old len (λ read. read.items ≡ next_bytes self.old len) result self.new }
    {
        if self.buffer.len() - self.index < len {
            return Err(DecodeError::InsufficientBytes);
        }
        if len == 0 {
            return Ok(Restrict::new(Vec::new(alloc)));
        }
        let end = self.index + len;
        let read = Vec::from_slice(alloc, &self.buffer[self.index..end])?;
        self.index = end;
        Ok(Restrict::new(read))
    }

    /// Returns what was read from `index` on, up to the cursor. It fails with `InvalidPreviousIndex` if `index` is
    /// past the cursor.
    pub fn slice_from(&self, index: usize) -> Result<&'a [u8], DecodeError>
        ensures enough { IsOk result ↔ (index ≤ self.now.index) }
        ensures bytes { IfOk result (λ read. read.now ≡ slice_range self.now.bytes index self.now.index) }
        ensures error { IfErr result (λ e. e ≡ DecodeError.InvalidPreviousIndex) }
    {
        if index > self.index {
            return Err(DecodeError::InvalidPreviousIndex);
        }
        Ok(&self.buffer[index..self.index])
    }

    /// Reads one byte, as `pop` does.
    #[inline(always)]
    pub fn read_u8(&mut self) -> Result<Restrict<u8>, DecodeError>
        ensures takes { Takes self.old 1 (λ byte. slice_get self.old.bytes self.old.index ≡ Some byte) result self.new }
    {
        self.pop()
    }

    /// Reads a number of two bytes, the high one first (RFC 1035, section 2.3.2).
    #[inline(always)]
    pub fn read_u16(&mut self) -> Result<Restrict<u16>, DecodeError>
        ensures takes { Takes self.old 2 (λ n. n ≡ from_be_bytes w16 (next_bytes self.old 2)) result self.new }
    {
        let bytes = self.read_array::<2>()?;
        Ok(Restrict::new(u16::from_be_bytes(bytes)))
    }

    /// Reads a signed number of four bytes, the highest first.
    #[inline(always)]
    pub fn read_i32(&mut self) -> Result<Restrict<i32>, DecodeError>
        ensures takes { Takes self.old 4 (λ n. n ≡ cast_signed w32 (from_be_bytes w32 (next_bytes self.old 4))) result self.new }
    {
        let bytes = self.read_array::<4>()?;
        Ok(Restrict::new(u32::from_be_bytes(bytes).cast_signed()))
    }

    /// Reads a number of four bytes, the highest first.
    #[inline(always)]
    pub fn read_u32(&mut self) -> Result<Restrict<u32>, DecodeError>
        ensures takes { Takes self.old 4 (λ n. n ≡ from_be_bytes w32 (next_bytes self.old 4)) result self.new }
    {
        let bytes = self.read_array::<4>()?;
        Ok(Restrict::new(u32::from_be_bytes(bytes)))
    }

    /// Reads `N` bytes.
    #[inline(always)]
    fn read_array<const N: usize>(&mut self) -> Result<[u8; N], DecodeError>
        ensures takes { Takes self.old N (λ read. read ≡ next_bytes self.old N) result self.new }
    {
        if self.buffer.len() - self.index < N {
            return Err(DecodeError::InsufficientBytes);
        }
        let read = &self.buffer[self.index..self.index + N];
        self.index += N;
        Ok(*read.first_chunk::<N>().unwrap())
    }
}
