//! Writes a referral: which server has a zone, and where that server is.
ghost use Rattle.std.specs.Prelude.{◌≡◌, ℕ, ◌<◌, ◌^◌, [], ◌∷◌, length, take, IfOk};
ghost use Rattle.dns_names_wire.specs.Words.{Done, Refused, RepliesTo, WireRecord, opening, write_record};
ghost use Rattle.uses.specs.Referrals.{HasOctets, HasRecord, HasName};
ghost use Rattle.uses.specs.Scripts.{IsReadAt};

use dns_names_wire::name::laws as name_laws;
use dns_names_wire::script::{Reply, Step, laws, run};
use dns_names_wire::{
    DNSClass, Name, ProtoResult, RDataEncoding, RecordType, WireData, WireRecord, code_laws,
};
use std::alloc::Global;

/// The bytes of a header (RFC 1035, section 4.1.1).
const HEADER: usize = 12;

/// Returns a message with this header, the name server of a zone and the address of that server (RFC 1034, section 4.2.1), and
/// the offset of the record of the address. Both records are read back at their offsets, with their owners, types, classes,
/// times to live and data. The counts in the header are the caller's.
pub fn write_referral(
    alloc: Global,
    header: &[u8; HEADER],
    zone: Name,
    server: Name,
    address: &[u8; 4],
    ttl: u32,
) -> ProtoResult<(Vec<u8>, usize)>
    ensures begins { IfOk result (λ made. take (length header.now) made.0.items ≡ header.now) }
    ensures served { IfOk result (λ made. HasRecord made.0.items zone.labels RecordType.NS DNSClass.IN ttl (HasName server.labels) (length header.now) made.1) }
    ensures address { IfOk result (λ made. HasRecord made.0.items server.labels RecordType.A DNSClass.IN ttl (HasOctets address.now) made.1 (length made.0.items)) }
{
    code_laws::types_come_back();
    code_laws::classes_come_back();
    let mut message = Vec::from_slice(alloc, header)?;
    let served = WireRecord {
        owner: zone,
        record_type: RecordType::NS,
        class: DNSClass::IN,
        ttl,
        rdata: WireData::Name {
            name: server.clone()?,
            encoding: RDataEncoding::StandardRecord,
        },
    };
    let glue = WireRecord {
        owner: server,
        record_type: RecordType::A,
        class: DNSClass::IN,
        ttl,
        rdata: WireData::Bytes(Vec::from_slice(alloc, address)?),
    };
    let place = append_both(alloc, &mut message, served, glue)?;
    Ok((message, place))
}

/// Writes two records after the bytes of a message, and returns the offset of the second.
fn append_both(
    alloc: Global,
    message: &mut Vec<u8>,
    first: WireRecord,
    second: WireRecord,
) -> ProtoResult<usize>
    requires { length message.old.items < 2 ^ 32 }
    ensures begins { IfOk result (λ _. take (length message.old.items) message.new.items ≡ message.old.items) }
    ensures read { IfOk result (λ place. IsReadAt message.new.items first (length message.old.items) place
        × IsReadAt message.new.items second place (length message.new.items)) }
{
    laws::records_are_read();
    name_laws::one_reading();
    let replies = run(alloc, message, &[Step::Record(first), Step::Record(second)])?;
    first_end(replies)
}

/// Returns the length that the first of two replies to records reports, or why a record was refused.
fn first_end(mut replies: Vec<Reply>) -> ProtoResult<usize>
    requires { (start : ℕ) × (first : WireRecord) × (second : WireRecord) × RepliesTo (opening start) (write_record first ∷ write_record second ∷ []) replies.items }
    ensures { IfOk result (λ len. (end : ℕ) × (replies.items ≡ Done len ∷ Done end ∷ [])) }
{
    let second = replies.pop();
    match (replies.pop(), second) {
        (Some(Reply::Done { len }), Some(Reply::Done { .. })) => Ok(len),
        (Some(Reply::Refused { error, .. }), _) => Err(error),
        (_, Some(Reply::Refused { error, .. })) => Err(error),
        _ => unreachable!(),
    }
}
