//! Zone files, entry by entry.
ghost use Rattle.std.specs.Prelude.{◌≡◌};

use crate::FAILURE;
use dns_names_wire::name::Name;
use dns_names_wire::zone::{Context, Entry, Found, ZoneRecord, take_entry};
use std::alloc::Global;

/// The octets of a record between its owner and its data (RFC 1035, section 3.2.1).
const HEAD: u64 = 10;

/// Reads the entries of a zone file: the octets of its records, whose names are not compressed.
#[unsafe(no_mangle)]
pub extern "C" fn dnw_read_zone(alloc: Global, text: &[u8], count: u64) -> u64
    ensures idle { count ≡ 0 → result ≡ 0 }
{
    let mut sum = 0u64;
    for _round in 0..count {
        sum = sum.wrapping_add(read_entries(alloc, text));
    }
    sum
}

/// Reads all entries, below the root. Each takes an octet or more.
fn read_entries(alloc: Global, text: &[u8]) -> u64 {
    let mut context = Context::new(Name::root(alloc));
    let mut line = Vec::new(alloc);
    let mut left = text;
    let mut sum = 0u64;
    for _entry in 0..text.len() {
        if left.is_empty() {
            break;
        }
        let step = take_entry(alloc, &mut context, left, false, &mut line);
        sum = sum.wrapping_add(match &step.found {
            Ok(Found::Entry(Entry::Record(record))) => record_len(&context, record),
            Ok(_) => 0,
            Err(_) => FAILURE,
        });
        left = &left[step.used..];
    }
    sum
}

/// Returns the octets of a record, whose owner is the last one.
fn record_len(context: &Context, record: &ZoneRecord) -> u64 {
    let owner = match &context.owner {
        Some(owner) => owner.as_bytes().len() as u64,
        None => 0,
    };
    owner
        .wrapping_add(HEAD)
        .wrapping_add(record.wire.len() as u64)
}
