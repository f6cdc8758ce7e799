//! Writes a reply of at most 512 bytes, with as many answers as fit.
ghost use Rattle.std.specs.Prelude.{◌≡◌, ◌≤◌, ◌++◌, drop, length, IfOk, OnOk};
ghost use Rattle.dns_names_wire.specs.Words.{value, lender};
ghost use Rattle.uses.specs.Bounded.{HasHeader, Keeps, header, max_reply};

use dns_names_wire::encoder::laws;
use dns_names_wire::{BinEncodable, BinEncoder, Name, ProtoError, ProtoResult};
use std::alloc::Global;

/// The most bytes of a message over UDP without EDNS (RFC 1035, section 4.2.1).
const MAX_REPLY: u16 = 512;

/// The bytes of a header (RFC 1035, section 4.1.1).
const HEADER: usize = 12;

/// The type of an IPv4 address, and the class of the internet (RFC 1035, sections 3.2.2 and 3.2.4).
const A: u16 = 1;

const IN: u16 = 1;

/// Writes a reply to a question for the addresses of a name, in at most 512 bytes. If not all answers fit, it has as many as
/// do, and the TC bit of its header is set (RFC 2181, section 9).
pub fn write_reply(
    alloc: Global,
    id: u16,
    name: &Name,
    ttl: u32,
    addresses: &[u32],
) -> ProtoResult<Vec<u8>>
    ensures { IfOk result (λ reply. length reply.items ≤ max_reply) }
{
    let mut reply = Vec::new(alloc);
    let mut encoder = BinEncoder::new(&mut reply);
    encoder.set_max_size(MAX_REPLY);
    encoder.emit_vec(&[0; HEADER])?;
    write_name(&mut encoder, name)?;
    write_numbers(&mut encoder, &[A, IN])?;
    let count = write_answers(&mut encoder, name, ttl, addresses)?;
    drop(encoder);
    let header = header_of(id, count, addresses.len());
    put_header(reply.as_mut_slice(), &header);
    Ok(reply)
}

/// Puts a header in the place of the first twelve bytes.
fn put_header(reply: &mut [u8], header: &[u8; HEADER])
    requires { 12 ≤ length reply.old }
    ensures { reply.new ≡ header.now ++ drop 12 reply.old }
{
    reply[..HEADER].copy_from_slice(header);
}

/// Returns the header of an authoritative reply to one question that has the first of its answers, so many. It has the TC
/// bit if that is not all of them.
fn header_of(id: u16, count: u16, answers: usize) -> [u8; HEADER]
    ensures { result ≡ header id count answers }
{
    let [id_high, id_low] = id.to_be_bytes();
    let [count_high, count_low] = count.to_be_bytes();
    let flags = if usize::from(count) < answers {
        0x86
    } else {
        0x84
    };
    [
        id_high, id_low, flags, 0, 0, 1, count_high, count_low, 0, 0, 0, 0,
    ]
}

/// Writes the addresses of a name up to the first that does not fit, and returns their number.
fn write_answers(
    encoder: &mut BinEncoder<'_>,
    name: &Name,
    ttl: u32,
    addresses: &[u32],
) -> ProtoResult<u16>
    requires { HasHeader (value encoder.old) }
    ensures header { OnOk result (HasHeader (value encoder.new)) }
    ensures few { IfOk result (λ count. count ≤ length addresses.now) }
    ensures lender { lender encoder.new ≡ lender encoder.old }
{
    let mut count = 0;
    for address in addresses {
        if count == u16::MAX || !try_answer(encoder, name, ttl, *address)? {
            break;
        }
        count += 1;
    }
    Ok(count)
}

/// Writes an address of a name and returns `true`, or returns `false` and leaves nothing if it does not fit.
fn try_answer(
    encoder: &mut BinEncoder<'_>,
    name: &Name,
    ttl: u32,
    address: u32,
) -> ProtoResult<bool>
    requires { HasHeader (value encoder.old) }
    ensures header { OnOk result (HasHeader (value encoder.new)) }
    ensures lender { lender encoder.new ≡ lender encoder.old }
{
    let start = encoder.mark();
    match write_answer(encoder, name, ttl, address) {
        Ok(()) => Ok(true),
        Err(ProtoError::MaxBufferSizeExceeded(_)) => {
            encoder.rewind(start);
            Ok(false)
        }
        Err(error) => Err(error),
    }
}

/// Writes an address of a name: its owner, type, class and TTL, the length of the data, and the data.
fn write_answer(
    encoder: &mut BinEncoder<'_>,
    name: &Name,
    ttl: u32,
    address: u32,
) -> ProtoResult<()>
    requires { HasHeader (value encoder.old) }
    ensures header { OnOk result (HasHeader (value encoder.new)) }
    ensures keeps { Keeps (value encoder.old) (value encoder.new) }
    ensures lender { lender encoder.new ≡ lender encoder.old }
{
    write_name(encoder, name)?;
    write_numbers(encoder, &[A, IN])?;
    write_number(encoder, ttl)?;
    write_numbers(encoder, &[4])?;
    write_number(encoder, address)
}

/// Writes numbers of 16 bits.
fn write_numbers(encoder: &mut BinEncoder<'_>, numbers: &[u16]) -> ProtoResult<()>
    requires { HasHeader (value encoder.old) }
    ensures header { OnOk result (HasHeader (value encoder.new)) }
    ensures keeps { Keeps (value encoder.old) (value encoder.new) }
    ensures lender { lender encoder.new ≡ lender encoder.old }
{
    for number in numbers {
        write_half(encoder, *number)?;
    }
    Ok(())
}

fn write_half(encoder: &mut BinEncoder<'_>, number: u16) -> ProtoResult<()>
    requires { HasHeader (value encoder.old) }
    ensures header { OnOk result (HasHeader (value encoder.new)) }
    ensures keeps { Keeps (value encoder.old) (value encoder.new) }
    ensures lender { lender encoder.new ≡ lender encoder.old }
{
    encoder.emit_u16(number)
}

/// Writes a number of 32 bits.
fn write_number(encoder: &mut BinEncoder<'_>, number: u32) -> ProtoResult<()>
    requires { HasHeader (value encoder.old) }
    ensures header { OnOk result (HasHeader (value encoder.new)) }
    ensures keeps { Keeps (value encoder.old) (value encoder.new) }
    ensures lender { lender encoder.new ≡ lender encoder.old }
{
    encoder.emit_u32(number)
}

/// Writes the name, or a pointer to where it is already.
fn write_name(encoder: &mut BinEncoder<'_>, name: &Name) -> ProtoResult<()>
    requires { HasHeader (value encoder.old) }
    ensures header { OnOk result (HasHeader (value encoder.new)) }
    ensures keeps { Keeps (value encoder.old) (value encoder.new) }
    ensures lender { lender encoder.new ≡ lender encoder.old }
{
    laws::names_stay_bounded();
    name.emit(encoder)
}
