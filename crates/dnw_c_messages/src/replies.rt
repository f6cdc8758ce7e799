//! Replies to requests.
ghost use Rattle.std.specs.Prelude.{◌≡◌, ◌↔◌, [], ◌∷◌, IsTrue, IfOk, IfErr, IfSome, IfNone};
ghost use Rattle.dnw_c_base.specs.Results.{Returns};
ghost use Rattle.dnw_message_read.specs.Messages.{QueryValue};
ghost use Rattle.dnw_c_messages.specs.ReplyCalls.{HasSameQuestion, IsNoMessage, IsResponseTo, IsSameQuestion, IsUsualMessage, LacksQuestion, Replies, TellsReply, is_refusal, is_update, may_lack_question};

use crate::message::of_message;
use dnw_c_base::failure::Failure;
use dnw_c_base::results::report;
use dnw_message_read::header::{MessageType, Metadata};
use dnw_message_read::items::Queries;
use dnw_message_read::message::MessageRef;
use dnw_message_read::op_code::OpCode;
use dnw_message_read::query::QueryRef;
use dnw_message_read::response_code::ResponseCode;
use std::alloc::Global;

/// Puts whether a message answers a request: QR, the id, the opcode and the question say so, if there is one. It does not allocate.
#[unsafe(no_mangle)]
pub extern "C" fn dnw_is_reply_to(
    alloc: Global,
    request: &[u8],
    response: &[u8],
    is_reply: &mut bool,
) -> u32
    ensures { Returns (TellsReply request.now response.now) is_reply.old is_reply.new result }
{
    report(is_reply_to(alloc, request, response), is_reply)
}

/// Reads both messages, and returns `true` if the second answers the first.
fn is_reply_to(alloc: Global, request: &[u8], response: &[u8]) -> Result<bool, Failure>
    ensures { TellsReply request.now response.now result }
{
    let asked = read(request)?;
    let answered = read(response)?;
    Ok(replies(alloc, &asked, &answered))
}

/// Reads a message.
fn read(octets: &[u8]) -> Result<MessageRef<'_>, Failure>
    ensures ok { IfOk result (IsUsualMessage octets.now) }
    ensures err { IfErr result (IsNoMessage octets.now) }
{
    match MessageRef::read(octets) {
        Ok(message) => Ok(message),
        Err(error) => Err(of_message(&error.kind)),
    }
}

/// Returns `true` if a message is a response to a request, with the same only question, or without one.
fn replies(alloc: Global, request: &MessageRef<'_>, response: &MessageRef<'_>) -> bool
    ensures { IsTrue result ↔ Replies request.now response.now }
{
    is_response_to(&request.header().metadata, &response.header().metadata)
        && (has_same_question(alloc, request.queries(), response.queries())
            || lacks_question(
                &response.header().metadata,
                request.queries(),
                response.queries(),
            ))
}

/// Returns `true` if a response has no question, since none was asked, or since it may lack it.
fn lacks_question(response: &Metadata, asked: Queries<'_>, answered: Queries<'_>) -> bool
    ensures { IsTrue result ↔ LacksQuestion response.now asked.entry answered.entry }
{
    is_none(answered) && (is_none(asked) || may_lack_question(response))
}

/// Returns `true` if there is no question.
fn is_none(mut queries: Queries<'_>) -> bool
    ensures { IsTrue result ↔ (queries.entry ≡ []) }
{
    queries.next().is_none()
}

/// Returns `true` for a response that may lack the question: to an UPDATE (RFC 2136, section 3.8), or a refusal.
fn may_lack_question(response: &Metadata) -> bool
    ensures { result ≡ may_lack_question response.now }
{
    is_update(response.op_code) || is_refusal(response.response_code)
}

/// Returns `true` for an UPDATE.
fn is_update(op: OpCode) -> bool
    ensures { result ≡ is_update op }
{
    matches!(op, OpCode::Update)
}

/// Returns `true` if a server does nothing for such a request, and may not have read it.
fn is_refusal(code: ResponseCode) -> bool
    ensures { result ≡ is_refusal code }
{
    matches!(
        code,
        ResponseCode::FormErr
            | ResponseCode::ServFail
            | ResponseCode::NotImp
            | ResponseCode::Refused
    )
}

/// Returns `true` for a request and a response to it by its header.
fn is_response_to(request: &Metadata, response: &Metadata) -> bool
    ensures { IsTrue result ↔ IsResponseTo request.now response.now }
{
    request.message_type != MessageType::Response
        && response.message_type == MessageType::Response
        && response.id == request.id
        && u8::from(response.op_code) == u8::from(request.op_code)
}

/// Returns `true` if each of these has one question, the same.
fn has_same_question(alloc: Global, asked: Queries<'_>, answered: Queries<'_>) -> bool
    ensures { IsTrue result ↔ HasSameQuestion asked.entry answered.entry }
{
    let Some(one) = only(asked) else {
        return false;
    };
    let Some(other) = only(answered) else {
        return false;
    };
    is_same_question(alloc, &one, &other)
}

/// Returns the only one of these questions, if there is one alone.
fn only<'m>(mut queries: Queries<'m>) -> Option<QueryRef<'m>>
    ensures some { IfSome result (λ query. queries.entry ≡ query ∷ []) }
    ensures none { IfNone result ((query : QueryValue) → queries.entry ≡ query ∷ [] → ⊥) }
{
    let query = queries.next()?;
    if queries.next().is_some() {
        return None;
    }
    Some(query)
}

/// Returns `true` if two questions have the same name, ignoring case, the same type and the same class.
fn is_same_question(alloc: Global, asked: &QueryRef<'_>, answered: &QueryRef<'_>) -> bool
    ensures { IsTrue result ↔ IsSameQuestion asked.now answered.now }
{
    let name = asked.name().to_name(alloc).unwrap();
    answered.name().eq_name(&name)
        && u16::from(answered.query_type()) == u16::from(asked.query_type())
        && u16::from(answered.query_class()) == u16::from(asked.query_class())
}
