//! Replies, as they begin.
ghost use Rattle.std.specs.Prelude.{◌≡◌};
ghost use Rattle.dnw_c_base.specs.Results.{Returns, ReturnsNumber};
ghost use Rattle.dnw_c_messages.specs.BegunReplies.{AddsReplyEdns, FailsToAddReplyEdns, RepliesOr, of_reply, read_asked};
ghost use Rattle.dnw_c_messages.specs.WriterCalls.{AddsOr};

use crate::edns::ReadEdns;
use crate::sets::add_edns;
use crate::writer::of_write;
use dnw_c_base::failure::Failure;
use dnw_c_base::results::report;
use dnw_message_writer::reply::{Asked, ReplyError, reply_code, takes_records};
use dnw_message_writer::state::WriterState;

/// The octets of an `OPT` record without options, which are held back from the start of a reply.
const OPT_SIZE: usize = 11;

/// The version of EDNS that replies have (RFC 6891, section 6.1.3).
const VERSION: u8 = 0;

/// Begins the reply to a request: puts its header and its question, and what the reply needs of EDNS.
#[unsafe(no_mangle)]
pub extern "C" fn dnw_writer_reply(
    message: &mut [u8],
    max_size: usize,
    request: &[u8],
    flags: u16,
    response_code: u16,
    writer: &mut WriterState,
    edns: &mut ReadEdns,
) -> u32
    ensures { Returns (RepliesOr request.now flags response_code max_size writer.old message.old writer.new message.new) edns.old edns.new result }
{
    report(
        reply(message, max_size, request, flags, response_code, writer),
        edns,
    )
}

/// Adds the `OPT` record of a reply, if its request has one: with this size of messages and these options, and else as the request asks.
#[unsafe(no_mangle)]
pub extern "C" fn dnw_writer_reply_edns(
    message: &mut [u8],
    asked: &ReadEdns,
    max_payload: u16,
    options: &[u8],
    block: u16,
    writer: &mut WriterState,
) -> u32
    ensures { ReturnsNumber (AddsOr (AddsReplyEdns asked.now max_payload options.now block) (FailsToAddReplyEdns asked.now max_payload options.now block)
        writer.old message.old writer.new message.new) result }
{
    let added = add_reply_edns(message, asked, max_payload, options, block, writer);
    report(added, &mut ())
}

/// Adds the `OPT` record of a reply, if it needs one.
fn add_reply_edns(
    message: &mut [u8],
    asked: &ReadEdns,
    max_payload: u16,
    options: &[u8],
    block: u16,
    writer: &mut WriterState,
) -> Result<(), Failure>
    ensures { AddsOr (AddsReplyEdns asked.now max_payload options.now block) (FailsToAddReplyEdns asked.now max_payload options.now block)
        writer.old message.old writer.new message.new result }
{
    if !asked.is_present {
        return Ok(());
    }
    let rcode_high = (asked.response_code / 16 % 256) as u8;
    let added = add_edns(
        message,
        OPT_SIZE,
        max_payload,
        rcode_high,
        VERSION,
        asked.dnssec_ok,
        options,
        block,
        writer,
    );
    match added {
        Ok(()) => Ok(()),
        Err(failure) => Err(failure),
    }
}

/// Begins the reply to a request.
fn reply(
    message: &mut [u8],
    max_size: usize,
    request: &[u8],
    flags: u16,
    response_code: u16,
    writer: &mut WriterState,
) -> Result<ReadEdns, Failure>
    ensures { RepliesOr request.now flags response_code max_size writer.old message.old writer.new message.new result }
{
    match writer.reply_to(message, request, flags, response_code, max_size) {
        Ok(asked) => Ok(read_asked(response_code, asked)),
        Err(error) => Err(of_reply(&error)),
    }
}

/// Returns what C learns of what a reply needs.
fn read_asked(code: u16, asked: Asked) -> ReadEdns
    ensures { result ≡ read_asked code asked }
{
    let response_code = reply_code(asked, code);
    ReadEdns {
        is_present: asked.has_edns,
        dnssec_ok: asked.dnssec_ok,
        version: 0,
        takes_records: takes_records(response_code),
        max_payload: asked.max_payload,
        response_code,
        options_offset: 0,
        options_len: 0,
    }
}

/// Returns the failure that stands for why no reply is begun.
fn of_reply(error: &ReplyError) -> Failure
    ensures { result ≡ of_reply error.now }
{
    match error {
        ReplyError::NoRequest | ReplyError::LongCode => Failure::BadItem,
        ReplyError::Write(error) => of_write(error),
    }
}
