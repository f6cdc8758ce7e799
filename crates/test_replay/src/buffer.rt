//! The buffer that an encoder or a script begins with.

use crate::notation::{number, octets, zeros};
use dns_names_wire::encoder::{CANDIDATE_LIMIT, NAME_LIMIT};
use dns_names_wire::error::ProtoResult;
use std::alloc::Global;

/// A buffer, the offset to begin at, and the limits on candidates and names.
#[derive(Drop)]
pub(crate) struct Buffer {
    pub(crate) bytes: Vec<u8>,
    pub(crate) offset: u32,
    pub(crate) candidates: usize,
    pub(crate) names: usize,
}

impl Buffer {
    /// Returns what the settings among some words say. The offset is the buffer's end if none of them says another.
    pub(crate) fn new(alloc: Global, words: &str) -> ProtoResult<Self> {
        let mut buffer = Buffer {
            bytes: Vec::new(alloc),
            offset: 0,
            candidates: CANDIDATE_LIMIT,
            names: NAME_LIMIT,
        };
        for word in words.split(' ') {
            match word.split_once(':') {
                Some(("buf", bytes)) => buffer.set_bytes(octets(alloc, bytes)?),
                Some(("bufzeros", count)) => buffer.set_bytes(zeros(alloc, count)?),
                Some(("at", offset)) => buffer.offset = number(offset)?,
                Some(("candidates", limit)) => buffer.candidates = number(limit)?,
                Some(("names", limit)) => buffer.names = number(limit)?,
                _ => {}
            }
        }
        Ok(buffer)
    }

    fn set_bytes(&mut self, bytes: Vec<u8>) {
        self.offset = u32::try_from(bytes.len()).unwrap_or(u32::MAX);
        self.bytes = bytes;
    }
}

/// Returns `true` if a word of this kind is a setting, and not a step.
pub(crate) fn is_setting(kind: &str) -> bool {
    matches!(kind, "buf" | "bufzeros" | "at" | "candidates" | "names")
}
