//! Octets: values that are written as octets and read from them, and values of messages that are not verified yet.
ghost use Rattle.std.specs.Prelude.{◌≡◌, ◌⊎◌, ◌↔◌, ◌+◌, ◌*◌, ◌≤◌, ◌<◌, IfErr, IfNone, IfOk, IfSome, IsTrue};
ghost use Rattle.dns_names_wire.specs.Words.{max_label};

use dns_names_wire::binary::{BinDecodable, BinEncodable, EncodedSize};
use dns_names_wire::codes::RecordDataDecodable;
use dns_names_wire::restrict::{Restrict, RestrictedMath};
use dns_names_wire::{
    BinDecoder, DNSClass, DecodeError, LowerName, Name, ProtoResult, RecordType, RecordTypeSet,
};
use std::alloc::Global;

/// Returns the octets of a question: its name, its type and its class (RFC 1035, section 4.1.2).
pub fn question(
    alloc: Global,
    name: &Name,
    record_type: RecordType,
    class: DNSClass,
) -> ProtoResult<Vec<u8>> {
    let mut octets = name.to_bytes(alloc)?;
    octets.extend_from_slice(record_type.to_bytes(alloc)?.as_slice())?;
    octets.extend_from_slice(class.to_bytes(alloc)?.as_slice())?;
    Ok(octets)
}

/// Returns the question that octets begin with, its name in lower case, as a cache looks it up.
pub fn question_of(
    alloc: Global,
    octets: &[u8],
) -> Result<(LowerName, RecordType, DNSClass), DecodeError> {
    let mut decoder = BinDecoder::new(octets);
    Ok((
        LowerName::read(alloc, &mut decoder)?,
        RecordType::read(alloc, &mut decoder)?,
        DNSClass::read(alloc, &mut decoder)?,
    ))
}

/// Returns the octets of numbers of each width, and what is read of them.
pub fn numbers(alloc: Global, short: u16, signed: i32, long: u32) -> ProtoResult<(u16, i32, u32)> {
    Ok((
        u16::from_bytes(alloc, short.to_bytes(alloc)?.as_slice())?,
        i32::from_bytes(alloc, signed.to_bytes(alloc)?.as_slice())?,
        u32::from_bytes(alloc, long.to_bytes(alloc)?.as_slice())?,
    ))
}

/// Returns the number of octets of all that a record says: a name in lower case, a set of types, octets, and how many octets these are.
pub fn size(
    alloc: Global,
    name: &LowerName,
    set: &RecordTypeSet,
    octets: &Vec<u8>,
) -> ProtoResult<usize> {
    let sizes = [
        name.to_bytes(alloc)?.len(),
        set.to_bytes(alloc)?.len(),
        octets.to_bytes(alloc)?.len(),
    ];
    Ok(
        sizes.iter().fold(
            <u16 as EncodedSize>::LEN,
            |sum, size| sum.saturating_add(*size),
        ),
    )
}

/// Returns the data of an MX record at the cursor: how it is preferred, and where mail goes (RFC 1035, section 3.3.9).
pub fn mail(
    alloc: Global,
    decoder: &mut BinDecoder<'_>,
    length: Restrict<u16>,
) -> Result<(u16, Name), DecodeError> {
    let preference = <u16 as RecordDataDecodable>::read_data(alloc, decoder, length)?;
    Ok((preference, Name::read_data(alloc, decoder, length)?))
}

/// Returns the first fields of an SOA record at the cursor: the zone's name server, whom to ask, the serial number, and when to
/// look for another (RFC 1035, section 3.3.13).
pub fn start_of_zone(
    alloc: Global,
    decoder: &mut BinDecoder<'_>,
    length: Restrict<u16>,
) -> Result<(LowerName, Name, u32, i32), DecodeError> {
    Ok((
        LowerName::read_data(alloc, decoder, length)?,
        Name::read_data(alloc, decoder, length)?,
        <u32 as RecordDataDecodable>::read_data(alloc, decoder, length)?,
        <i32 as RecordDataDecodable>::read_data(alloc, decoder, length)?,
    ))
}

/// Returns the number of octets of a label that a message says, or what it says if that is no label's: 0, or more than 63.
pub fn label_length(octet: Restrict<u8>) -> Result<usize, u8>
    ensures ok { IfOk result (λ length. (length ≡ octet) × (1 ≤ octet) × (octet ≤ max_label)) }
    ensures err { IfErr result (λ other. (other ≡ octet) × ((octet ≡ 0) ⊎ (max_label < octet))) }
{
    octet
        .verify_unwrap(|length| (1..=63).contains(length))
        .map(|length| usize::from(length))
}

/// Returns the last type of the first window of a bitmap, of which the message says how many octets it has: from 1 to 32 (RFC
/// 4034, section 4.1.2). Arithmetic on values that are not verified fails, rather than wraps.
pub fn last_type(octets: Restrict<u8>) -> Option<u8>
    ensures some { IfSome result (λ last. last + 1 ≡ 8 * octets) }
    ensures none { IfNone result ((octets ≡ 0) ⊎ (32 < octets)) }
{
    let last = octets.checked_sub(1).checked_mul(8).checked_add(7);
    last.ok().map(|last| last.unverified())
}

/// Returns `true` if a record's data of so many octets end within a message of so many octets, from an offset on.
pub fn ends_within(offset: usize, length: Restrict<u16>, size: usize) -> bool
    ensures { IsTrue result ↔ (offset + length ≤ size) }
{
    let end = length.map(|length| usize::from(length)).checked_add(offset);
    match end {
        Ok(end) => end.verify(|end| *end <= size).is_valid(),
        Err(_) => false,
    }
}
