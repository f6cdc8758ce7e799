//! What a message says besides its records.
ghost use Rattle.std.specs.Prelude.{◌≡◌, ◌==◌};
ghost use Rattle.dns_names_wire.specs.Words.{is_opt, opts_in};
ghost use Rattle.ans_transfer.specs.Places.{asks_it, code_of_reply, has_question, high_bits_of, is_reply};

use crate::passing::is_same;
use crate::place::Place;
use crate::request::Request;
use dns_names_wire::RecordType;
use dns_names_wire::message::{MessageRef, MessageType, QueryRef, Records};

/// Returns the response code, with the high bits of EDNS.
#[tactic(auto, unfolding(crate::specs::Places::code_of_reply))]
pub(crate) fn code_of_reply(message: &MessageRef<'_>) -> u16
    ensures { result ≡ code_of_reply message.now }
{
    let low = message.header().metadata.response_code.code() % 16;
    low + u16::from(high_bits(message.additionals())) * 16
}

/// Returns the high bits of the response code, which the first `OPT` record has (RFC 6891, section 6.1.3).
fn high_bits(mut records: Records<'_>) -> u8
    ensures { result ≡ high_bits_of (opts_in records.entry) }
{
    'records: loop {
        let Some(record) = records.next() else {
            return 0;
        };
        if is_opt(record.record_type()) {
            return (record.ttl() >> 24) as u8;
        }
    }
}

/// Returns `true` for `OPT`.
fn is_opt(record_type: RecordType) -> bool
    ensures { result ≡ is_opt record_type }
{
    matches!(record_type, RecordType::OPT)
}

/// Returns `true` for a response.
pub(crate) fn is_reply(message_type: MessageType) -> bool
    ensures { result ≡ is_reply message_type }
{
    matches!(message_type, MessageType::Response)
}

/// Returns `true` if a message has the question of the request alone, or none after the first one.
#[tactic(auto, unfolding(crate::specs::Places::has_question))]
pub(crate) fn has_question(request: &Request<'_>, place: Place, message: &MessageRef<'_>) -> bool
    ensures { result ≡ has_question request.now place message.now.queries }
{
    let mut queries = message.queries();
    let Some(query) = queries.next() else {
        return place.has_begun();
    };
    if queries.next().is_some() {
        return false;
    }
    asks_it(request, &query)
}

/// Returns `true` if a question is that of the request.
#[tactic(auto, unfolding(crate::specs::Places::asks_it))]
fn asks_it(request: &Request<'_>, query: &QueryRef<'_>) -> bool
    ensures { result ≡ asks_it request.now query.now }
{
    is_same(query.name(), request.zone())
        && (query.query_type().code() == request.kind().code()
            && query.query_class().code() == request.class())
}
