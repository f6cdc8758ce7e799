//! Replies, as they begin (RFC 1035, section 4.1.1; RFC 6891, section 7; RFC 9619).
ghost use Rattle.std.specs.Prelude.{◌≡◌, ◌+◌, ◌↔◌, ◌≤◌, length, IfErr, IfOk, IsTrue, OnErr, OnOk};
ghost use Rattle.dnw_message_read.specs.Edns.{is_opt};
ghost use Rattle.dnw_message_writer.specs.Inside.Asked.{AsksByOpt, HasAdditionalsAlone};
ghost use Rattle.dnw_message_writer.specs.Replies.{AsksByEdns, AsksOf, BeginsAsked, BeginsReplyTo, FailsToBeginAsked, FailsToReply, IsRequest, closed_for, code_for, field_at, held_for, malformed, most_code, nothing_asked, reply_code, reply_flags, takes_records};

use crate::edns::are_options;
use crate::section::{Section, WriteError};
use crate::standing::FIRST_ITEM;
use crate::state::WriterState;
use dnw_base::limits::{MAX_NAME, MIN_PAYLOAD};
use dnw_base::record_type::RecordType;
use dnw_message_read::message::MessageRef;
use dnw_message_read::query::QueryRef;
use dnw_record::record_ref::RecordRef;
use thiserror::Error;

/// The octets of an `OPT` record without options.
const OPT_SIZE: usize = 11;

/// The response code of a request that is not understood (RFC 1035, section 4.1.1).
const FORMAT_ERROR: u16 = 1;

/// The response code of a request with an operation that is not implemented (RFC 1035, section 4.1.1).
const NOT_IMPLEMENTED: u16 = 4;

/// The response code of a request with a version of EDNS that is not known (RFC 6891, section 6.1.3).
const BAD_VERSION: u16 = 16;

/// The greatest response code that a header has (RFC 1035, section 4.1.1).
const MOST_IN_HEADER: u16 = 15;

/// The greatest response code of a message with EDNS (RFC 6891, section 6.1.3).
const MOST_BY_EDNS: u16 = 4095;

/// What a request asks of its reply.
#[derive(Clone, Copy, Debug, PartialEq, Eq)]
pub struct Asked {
    /// Whether the reply is to have an `OPT` record, for which 11 octets are held back.
    pub has_edns: bool,
    /// The size of the messages that the sender accepts, in octets: 512 without EDNS.
    pub max_payload: u16,
    /// Whether the sender accepts DNSSEC records.
    pub dnssec_ok: bool,
    /// The response code that the reply has to have: 1 (FORMERR), 16 (BADVERS), or 0 if the server chooses it.
    pub rcode: u16,
}

/// Why no reply was begun.
#[derive(Debug, Drop, Error, PartialEq, Eq)]
pub enum ReplyError {
    /// The request has no header, or is a reply itself.
    #[error("the octets are no request")]
    NoRequest,
    /// The response code has more bits than the reply can have: twelve with EDNS, and four without.
    #[error("the response code has too many bits")]
    LongCode,
    /// The header or the question has no room.
    #[error("{0}")]
    Write(WriteError),
}

impl From<WriteError> for ReplyError {
    ghost use Rattle.std.specs.Prelude.{◌≡◌};
    ghost use Rattle.dnw_message_writer.specs.declared.reply.ReplyError.TheVariants.{Write};

    ghost from_gives = { λ error e. e ≡ Write error };

    fn from(error: WriteError) -> Self {
        ReplyError::Write(error)
    }
}

impl WriterState {
    /// Begins the reply to a request: with its id, operation, RD and CD, and its question. AA, RA and AD are those of `flags`, and
    /// `code` is the response code, if the request has to get no other. Returns what the request asks.
    ///
    /// A request that cannot be read, or has more than one question (RFC 9619), or breaks a rule of EDNS, is answered with FORMERR, and
    /// in the last case without an `OPT` record (RFC 6891, section 7); one of another version of EDNS with BADVERS, whose high bits the
    /// `OPT` record has to have. Replies with these codes, or with NOTIMP, take additional records alone: `OPT`, and a signature.
    ///
    /// It fails with `LongCode` if the reply has no place for the response code: one above 15 needs EDNS, which a reply has only if the
    /// request has (RFC 6891, section 7). If it fails, the state is unchanged, but the octets of the message may have changed.
    pub fn reply_to(
        &mut self,
        message: &mut [u8],
        request: &[u8],
        flags: u16,
        code: u16,
        max_size: usize,
    ) -> Result<Asked, ReplyError>
        ensures ok { IfOk result (λ asked. BeginsReplyTo request.now flags code max_size asked message.old self.new message.new) }
        ensures err { IfErr result (FailsToReply request.now flags code max_size message.old) }
        ensures same { OnErr result (self.new ≡ self.old) }
    {
        if !is_request(request) {
            return Err(ReplyError::NoRequest);
        }
        let (asked, query) = asked_of(request);
        let code = reply_code(asked, code);
        if code > most_code(asked.has_edns) {
            return Err(ReplyError::LongCode);
        }
        let id = field_at(request, 0);
        let flags = reply_flags(field_at(request, 2), flags, code % 16);
        let saved = *self;
        let begun = self.begin_with(message, id, flags, max_size, query);
        if let Err(error) = begun {
            *self = saved;
            return Err(ReplyError::Write(error));
        }
        self.prepare_for(asked, code);
        Ok(asked)
    }

    /// Holds back the octets of the `OPT` record that a reply is to have, and takes additional records alone from now on if a reply
    /// with this response code is whole without a record.
    fn prepare_for(&mut self, asked: Asked, code: u16)
        ensures { self.new ≡ closed_for code (held_for asked self.old) }
    {
        if asked.has_edns {
            self.hold_back(OPT_SIZE);
        }
        if !takes_records(code) {
            self.rank = Section::Additionals.rank();
        }
    }

    /// Begins a message with a question, if there is one.
    #[inline(always)]
    fn begin_with(
        &mut self,
        message: &mut [u8],
        id: u16,
        flags: u16,
        max_size: usize,
        query: Option<QueryRef<'_>>,
    ) -> Result<(), WriteError>
        ensures ok { OnOk result (BeginsAsked query.entry id flags max_size message.old self.new message.new) }
        ensures err { IfErr result (FailsToBeginAsked query.entry id flags max_size message.old) }
    {
        self.begin(message, id, flags, max_size)?;
        let Some(query) = query else {
            return Ok(());
        };
        let mut room = [0; MAX_NAME];
        let query_type = u16::from(query.query_type());
        let class = u16::from(query.query_class());
        self.question(
            message,
            query.name().wire_labels(&mut room),
            query_type,
            class,
        )
    }
}

/// Returns `true` if the octets have a header, which is that of a request.
fn is_request(octets: &[u8]) -> bool
    ensures { IsTrue result ↔ IsRequest octets.now }
{
    octets.len() >= FIRST_ITEM && octets[2] < 128
}

/// Returns the number that two octets are.
#[inline(always)]
pub(crate) fn field_at(octets: &[u8], at: usize) -> u16
    requires { at + 2 ≤ length octets.now }
    ensures { result ≡ field_at octets.now at }
{
    u16::from_be_bytes([octets[at], octets[at + 1]])
}

/// Returns the flags of a reply.
fn reply_flags(requested: u16, own: u16, code: u16) -> u16
    ensures { result ≡ reply_flags requested own code }
{
    0x8000 | (requested & 0x7910) | (own & 0x04a0) | code
}

/// Returns the response code of a reply: the server's, if the request has to get no other.
pub fn reply_code(asked: Asked, own: u16) -> u16
    ensures { result ≡ reply_code asked own }
{
    if asked.rcode == 0 { own } else { asked.rcode }
}

/// Returns the greatest response code of a message, with EDNS or without it.
pub fn most_code(has_edns: bool) -> u16
    ensures { result ≡ most_code has_edns }
{
    if has_edns {
        MOST_BY_EDNS
    } else {
        MOST_IN_HEADER
    }
}

/// Returns `true` if a reply with this response code takes records, and `false` for FORMERR, NOTIMP and BADVERS.
pub fn takes_records(code: u16) -> bool
    ensures { result ≡ takes_records code }
{
    code != FORMAT_ERROR && code != NOT_IMPLEMENTED && code != BAD_VERSION
}

/// Returns what a request asks, and the question that its reply repeats.
#[inline(always)]
fn asked_of(request: &[u8]) -> (Asked, Option<QueryRef<'_>>)
    ensures { AsksOf request.now result.0 result.1 }
{
    let Ok(message) = MessageRef::read(request) else {
        return (nothing_asked(FORMAT_ERROR), None);
    };
    let asked = asked_by_edns(&message);
    let mut queries = message.queries();
    let first = queries.next();
    if queries.next().is_some() {
        return (malformed(asked), None);
    }
    (asked, first)
}

/// Returns what a request asks that is answered with FORMERR, if it is not with another code.
fn malformed(asked: Asked) -> Asked
    ensures { result ≡ malformed asked }
{
    if asked.rcode == 0 {
        return Asked {
            rcode: FORMAT_ERROR,
            ..asked
        };
    }
    asked
}

/// Returns what a message asks by EDNS. Mostly its only record is an `OPT` record.
#[inline(always)]
fn asked_by_edns(message: &MessageRef<'_>) -> Asked
    ensures { AsksByEdns message.now result }
{
    if !has_additionals_alone(message) {
        return asked_by_any(message);
    }
    let mut records = message.additionals();
    let Some(opt) = records.next() else {
        return nothing_asked(0);
    };
    if !is_opt(opt.record_type()) || records.next().is_some() {
        return asked_by_any(message);
    }
    asked_by(&opt)
}

/// Returns `true` if a message has no answers and no authorities.
fn has_additionals_alone(message: &MessageRef<'_>) -> bool
    ensures { IsTrue result → HasAdditionalsAlone message.now }
{
    message.answers().next().is_none() && message.authorities().next().is_none()
}

/// Returns `true` for `OPT`.
#[inline(always)]
fn is_opt(record_type: RecordType) -> bool
    ensures { result ≡ is_opt record_type }
{
    matches!(record_type, RecordType::OPT)
}

/// Returns what the only `OPT` record of a message asks.
#[inline(always)]
fn asked_by(opt: &RecordRef<'_>) -> Asked
    ensures { AsksByOpt opt.now result }
{
    if !opt.owner().is_root() {
        return nothing_asked(FORMAT_ERROR);
    }
    if !are_options(opt.rdata()) {
        return nothing_asked(FORMAT_ERROR);
    }
    let ttl = opt.ttl();
    Asked {
        has_edns: true,
        max_payload: u16::from(opt.class()).max(MIN_PAYLOAD),
        dnssec_ok: (ttl >> 15) % 2 == 1,
        rcode: code_for(((ttl >> 16) % 256) as u8),
    }
}

/// Returns the response code of a request with a version of EDNS: 0 if it is known.
#[inline(always)]
fn code_for(version: u8) -> u16
    ensures { result ≡ code_for version }
{
    if version > 0 { BAD_VERSION } else { 0 }
}

/// Returns what any message asks by EDNS.
#[inline(never)]
fn asked_by_any(message: &MessageRef<'_>) -> Asked
    ensures { AsksByEdns message.now result }
{
    let Ok(edns) = message.edns() else {
        return nothing_asked(FORMAT_ERROR);
    };
    let Some(edns) = edns else {
        return nothing_asked(0);
    };
    Asked {
        has_edns: true,
        max_payload: edns.max_payload(),
        dnssec_ok: edns.dnssec_ok(),
        rcode: code_for(edns.version()),
    }
}

/// Returns what a request without EDNS asks.
fn nothing_asked(rcode: u16) -> Asked
    ensures { result ≡ nothing_asked rcode }
{
    Asked {
        has_edns: false,
        max_payload: MIN_PAYLOAD,
        dnssec_ok: false,
        rcode,
    }
}
