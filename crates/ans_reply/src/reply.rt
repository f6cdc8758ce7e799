//! What a server replies to a request.
ghost use Rattle.std.specs.Prelude.{◌≡◌, ◌++◌, ℕ, false, Some, None, IfOk, OnOk};
ghost use Rattle.ans_answer.specs.Seen.{answer_seen};
ghost use Rattle.ans_reply.specs.Inside.Said.{AppendsReply};
ghost use Rattle.ans_reply.specs.Lists.{item_of_question, reply_items, sections_items};
ghost use Rattle.ans_reply.specs.Replies.{early_code, general_code, rcode_number, refused_for, refused_transfer, reply_by, reply_of, reply_to_question, zone_class};
ghost use Rattle.ans_reply.specs.Requests.{IsReplyAs};

use crate::helping::additionals_of;
use crate::item::{append_opt, append_question, append_section};
use crate::section::{answers_of, authorities_of};
use ans_answer::answer::{Answer, Rcode, answer_of};
use ans_store::store::ZoneStore;
use dns_names_wire::Name;
use dns_names_wire::message::QueryRef;
use dns_names_wire::message_writer::Asked;
use dns_names_wire::type_codes::{AXFR, IXFR};
use std::alloc::{AllocError, Global};

/// The response code of a request that is not understood (RFC 1035, section 4.1.1).
const FORMAT_ERROR: u16 = 1;

/// The response code of a request that is not implemented (RFC 1035, section 4.1.1).
const NOT_IMPLEMENTED: u16 = 4;

/// The response code of a request that is refused (RFC 1035, section 4.1.1).
const REFUSED: u16 = 5;

/// What a reply says, as items of which its message is written: an octet for the section of each, and the question or the record in wire
/// form, without pointers. `OPT` is the last one.
#[derive(Drop)]
pub struct ReplyItems {
    /// The items.
    pub items: Vec<u8>,
    /// The response code. One above 15 has its high bits in the `OPT` record (RFC 6891, section 6.1.3).
    pub code: u16,
    /// AA: the zone has authority for the first owner of the answer section, or for what is denied (RFC 1035, section 4.1.1).
    pub is_authoritative: bool,
}

/// What a reply says besides its records.
#[derive(Clone, Copy)]
pub(crate) struct Said {
    code: u16,
    is_authoritative: bool,
}

/// Returns what a server replies, by its zone, to a request with this operation that asks so, and has this question, if it has one alone.
/// The records of the zone are sent as `answer_of` finds them, and the addresses of the servers that they name.
///
/// A request with another operation than a query, or for AXFR, is answered with NOTIMP. One that cannot be read, has not exactly one
/// question (RFC 9619), or breaks a rule of EDNS, is answered with FORMERR, and one of another version of EDNS with BADVERS (RFC 6891,
/// section 6.1.3). One for IXFR, of another class than that of the zone, or for a name outside the zone, is answered with REFUSED. The
/// reply has an `OPT` record if the request has one, unless that breaks a rule.
pub fn items_of(
    alloc: Global,
    zone: &ZoneStore<'_>,
    operation: u8,
    asked: Asked,
    query: Option<QueryRef<'_>>,
) -> Result<ReplyItems, AllocError>
    ensures { IfOk result (IsReplyAs asked query.entry (reply_of zone.now operation asked query.entry)) }
{
    let mut items = Vec::new(alloc);
    let general = general_code(operation, asked);
    let said = append_reply(alloc, &mut items, zone, general, asked, query)?;
    Ok(ReplyItems {
        items,
        code: said.code,
        is_authoritative: said.is_authoritative,
    })
}

/// Returns the code that a request gets whatever its question is, or 0.
fn general_code(operation: u8, asked: Asked) -> u16
    ensures { result ≡ general_code operation asked }
{
    if operation == 0 {
        asked.rcode
    } else {
        NOT_IMPLEMENTED
    }
}

/// Appends the items of a reply.
fn append_reply(
    alloc: Global,
    items: &mut Vec<u8>,
    zone: &ZoneStore<'_>,
    general: u16,
    asked: Asked,
    query: Option<QueryRef<'_>>,
) -> Result<Said, AllocError>
    ensures { IfOk result (AppendsReply (reply_items asked query.entry (reply_to_question zone.now general query.entry)) (reply_to_question zone.now general query.entry) items.old.items items.new.items) }
{
    let said = append_said(alloc, items, zone, general, query)?;
    append_opt(items, asked)?;
    Ok(said)
}

/// Appends the items of a reply but `OPT`.
fn append_said(
    alloc: Global,
    items: &mut Vec<u8>,
    zone: &ZoneStore<'_>,
    general: u16,
    query: Option<QueryRef<'_>>,
) -> Result<Said, AllocError>
    ensures { IfOk result (AppendsReply (item_of_question query.entry ++ sections_items (reply_to_question zone.now general query.entry)) (reply_to_question zone.now general query.entry) items.old.items items.new.items) }
{
    let Some(query) = query else {
        return Ok(Said::bare(code_without_question(general)));
    };
    append_question(items, &query)?;
    let said = append_answer(alloc, items, zone, general, &query)?;
    Ok(said)
}

/// Returns the code of a request without a question.
fn code_without_question(general: u16) -> u16
    ensures { (class : ℕ) → result ≡ early_code class general None }
{
    if general == 0 { FORMAT_ERROR } else { general }
}

impl Said {
    /// Creates what a reply says that is a code alone.
    fn bare(code: u16) -> Self
        ensures { result ≡ record { code = code; is_authoritative = false } }
    {
        Said {
            code,
            is_authoritative: false,
        }
    }
}

/// Appends the records of the reply to a question.
fn append_answer(
    alloc: Global,
    items: &mut Vec<u8>,
    zone: &ZoneStore<'_>,
    general: u16,
    query: &QueryRef<'_>,
) -> Result<Said, AllocError>
    ensures { IfOk result (AppendsReply (sections_items (reply_to_question zone.now general (Some query.now))) (reply_to_question zone.now general (Some query.now)) items.old.items items.new.items) }
{
    let early = early_code(zone, general, query);
    if early != 0 {
        return Ok(Said::bare(early));
    }
    let name = query.name().to_name(alloc).unwrap();
    let code = query.query_type().code();
    let answer = answer_of(alloc, zone, &name, code)?;
    append_sections(alloc, items, zone, &name, code, &answer)?;
    Ok(Said {
        code: rcode_number(answer.rcode),
        is_authoritative: answer.is_authoritative,
    })
}

/// Returns the code with which a request is answered before the zone is asked, or 0.
fn early_code(zone: &ZoneStore<'_>, general: u16, query: &QueryRef<'_>) -> u16
    ensures { result ≡ early_code (zone_class zone.now.records) general (Some query.now) }
{
    if general == 0 {
        refused_for(zone, query)
    } else {
        general
    }
}

/// Returns why a zone is not asked, or 0 if it is.
fn refused_for(zone: &ZoneStore<'_>, query: &QueryRef<'_>) -> u16
    ensures { result ≡ refused_for (zone_class zone.now.records) query.now }
{
    let refused = refused_transfer(query.query_type().code());
    if refused != 0 {
        return refused;
    }
    if query.query_class().code() == zone_class(zone) {
        0
    } else {
        REFUSED
    }
}

/// Returns why there is no transfer, if this type asks for one, or 0.
fn refused_transfer(code: u16) -> u16
    ensures { result ≡ refused_transfer code }
{
    if code == AXFR {
        NOT_IMPLEMENTED
    } else if code == IXFR {
        REFUSED
    } else {
        0
    }
}

/// Returns the class of a zone.
fn zone_class(zone: &ZoneStore<'_>) -> u16
    ensures { result ≡ zone_class zone.now.records }
{
    if zone.len() == 0 {
        return 0;
    }
    zone.get(0).class().code()
}

/// Returns the number of a response code.
fn rcode_number(rcode: Rcode) -> u16
    ensures { result ≡ rcode_number rcode }
{
    match rcode {
        Rcode::NoError => 0,
        Rcode::NXDomain => 3,
        Rcode::Refused => 5,
        Rcode::YXDomain => 6,
    }
}

/// Appends the records of an answer, section by section.
fn append_sections(
    alloc: Global,
    items: &mut Vec<u8>,
    zone: &ZoneStore<'_>,
    asked: &Name,
    code: u16,
    answer: &Answer,
) -> Result<(), AllocError>
    ensures { OnOk result (items.new.items ≡ items.old.items ++ sections_items (reply_by zone.now code (answer_seen zone.now.records asked.now.labels answer.now))) }
{
    let answers = answers_of(alloc, zone, asked, answer)?;
    append_section(items, 1, answers.as_slice())?;
    let authorities = authorities_of(alloc, zone, asked, answer)?;
    append_section(items, 2, authorities.as_slice())?;
    let additionals = additionals_of(alloc, zone, asked, code, answer)?;
    append_section(items, 3, additionals.as_slice())?;
    Ok(())
}
