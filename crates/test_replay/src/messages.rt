//! Messages that are made: cut, changed in an octet, and hostile ones.

use crate::readings::{agree, is_bounded, is_name};
use dns_names_wire::error::{ProtoError, ProtoResult};
use std::alloc::Global;

/// Reads at each offset of each beginning of a message, and returns how many readings agree.
pub(crate) fn cuts(alloc: Global, message: &[u8]) -> ProtoResult<String> {
    let mut readings = 0u64;
    for len in 0..message.len() + 1 {
        let cut = message.get(..len).unwrap_or(message);
        for start in 0..len + 1 {
            readings = agreed(alloc, cut, start, readings)?;
        }
    }
    Ok(format!(in alloc; "{readings} readings agree")?)
}

/// Reads the message with any octet at each of its offsets, and returns how many readings agree.
pub(crate) fn any_octet(alloc: Global, mut message: Vec<u8>, start: usize) -> ProtoResult<String> {
    let mut readings = 0u64;
    for index in 0..message.len() {
        let old = message.get(index).copied().unwrap_or(0);
        for octet in 0..=255u8 {
            put(&mut message, index, octet);
            readings = agreed(alloc, message.as_slice(), start, readings)?;
        }
        put(&mut message, index, old);
    }
    Ok(format!(in alloc; "{readings} readings agree")?)
}

fn put(message: &mut Vec<u8>, index: usize, octet: u8) {
    if let Some(old) = message.get_mut(index) {
        *old = octet;
    }
}

/// Reads all messages of at most two octets at each of their offsets, and returns how many names there are.
pub(crate) fn pairs(alloc: Global) -> ProtoResult<String> {
    let mut names = names_of(alloc, &[])?;
    for first in 0..=255u8 {
        names = names.saturating_add(names_of(alloc, &[first])?);
        for second in 0..=255u8 {
            names = names.saturating_add(names_of(alloc, &[first, second])?);
        }
    }
    Ok(format!(in alloc; "{names} names")?)
}

/// Returns the number of names at the offsets of a message.
fn names_of(alloc: Global, message: &[u8]) -> ProtoResult<u64> {
    let mut names = 0u64;
    for start in 0..message.len() + 1 {
        if !is_bounded(alloc, message, start)? {
            return Err(ProtoError::Message("the readers differ"));
        }
        if is_name(message, start)? {
            names = names.saturating_add(1);
        }
    }
    Ok(names)
}

/// Returns one more reading if the readers agree on it.
fn agreed(alloc: Global, message: &[u8], start: usize, readings: u64) -> ProtoResult<u64> {
    if agree(alloc, message, start)? {
        Ok(readings.saturating_add(1))
    } else {
        Err(ProtoError::Message("the readers differ"))
    }
}

/// Makes a message of a root, and so many pointers after it, each to the one before and the first to the root.
pub(crate) fn chain(alloc: Global, pointers: u16) -> ProtoResult<Vec<u8>> {
    let mut message = vec![in alloc; 0u8, 0xc0, 0x00]?;
    for i in 1..pointers {
        let before = i.wrapping_mul(2).wrapping_sub(1);
        message.extend_from_slice(&(0xc000 | before).to_be_bytes())?;
    }
    Ok(message)
}

/// Makes a message of `a.`, and so many blocks after it of a label and a pointer to the block before.
pub(crate) fn blocks(alloc: Global, count: u16) -> ProtoResult<Vec<u8>> {
    let mut message = vec![in alloc; 1u8, b'a', 0]?;
    for i in 0..count {
        let before = i.wrapping_mul(4).saturating_sub(1);
        message.extend_from_slice(b"\x01a")?;
        message.extend_from_slice(&(0xc000 | before).to_be_bytes())?;
    }
    Ok(message)
}
