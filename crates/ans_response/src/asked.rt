//! A question, and the zone whose server was asked.
ghost use Rattle.std.specs.Prelude.{◌≡◌, Ok};
ghost use Rattle.dns_names_wire.specs.Words.{is_opt, opts_in};
ghost use Rattle.ans_response.specs.Counted.{counts};
ghost use Rattle.ans_response.specs.Meanings.{asks, by_class, asked_by, class_asked, whole_code, failed, high_code_bits, is_error_code, is_query, without_question};

use crate::names::{is_in, is_same};
use crate::reason::Reason;
use dns_names_wire::message::{MessageRef, MessageType, QueryRef, Records, ResponseCode};
use dns_names_wire::{Name, RecordRef, RecordType};
use std::marker::Model;

/// The response codes NOERROR and NXDOMAIN (RFC 1035, section 4.1.1): all others are errors.
const NO_ERROR: u16 = 0;

pub(crate) const NO_NAME: u16 = 3;

/// A question to which a message is the response, and the zone whose server was asked.
///
/// A contract sees it as the labels of its name and of its zone, and the codes of its type and class.
#[derive(Drop)]
pub struct Asked<'a> {
    name: &'a Name,
    code: u16,
    class: u16,
    zone: &'a Name,
}

impl<'a> Model for Asked<'a> {
    ghost use Rattle.ans_response.specs.Counted.{AskedValue};

    ghost Value = { AskedValue };

    ghost view = { λ a. record { name = a.name.now.labels; code = a.code; class = a.class; zone = a.zone.now.labels } };
}

impl<'a> Asked<'a> {
    /// Checks that a message is the response to a question, of which only the class is taken from the message.
    ///
    /// It fails with `NotAResponse`, `OtherQuestion`, `Failed`, `Truncated` or `OtherZone`, the first of these that is so. But a
    /// message without a question fails with `Failed` if it reports an error.
    #[tactic(auto, unfolding(crate::specs::Meanings::asked_by))]
    pub fn of(
        message: &MessageRef<'_>,
        name: &'a Name,
        code: u16,
        zone: &'a Name,
    ) -> Result<Self, Reason>
        ensures { result ≡ asked_by message.now name.now.labels code zone.now.labels }
    {
        let metadata = &message.header().metadata;
        if is_query(metadata.message_type) {
            return Err(Reason::NotAResponse);
        }
        let response = code_of(message);
        match class_asked(message, response, name, code) {
            Err(why) => Err(why),
            Ok(class) => { Asked::of_class(response, metadata.truncation, name, code, zone, class) }
        }
    }

    /// Checks the header of a response to a question of this class.
    fn of_class(
        response: u16,
        truncated: bool,
        name: &'a Name,
        code: u16,
        zone: &'a Name,
        class: u16,
    ) -> Result<Self, Reason>
        ensures { result ≡ by_class response truncated name.now.labels code zone.now.labels (Ok class) }
    {
        if is_error(response) {
            return Err(failed(response));
        }
        if truncated {
            return Err(Reason::Truncated);
        }
        if !is_in(zone, &name.as_name_ref()) {
            return Err(Reason::OtherZone);
        }
        Ok(Asked {
            name,
            code,
            class,
            zone,
        })
    }

    /// Returns the name that is asked for.
    #[inline(always)]
    pub fn name(&self) -> &'a Name
        ensures { result.now.labels ≡ self.now.name }
    {
        self.name
    }

    /// Returns the code of the type that is asked for.
    #[inline(always)]
    pub fn code(&self) -> u16
        ensures { result ≡ self.now.code }
    {
        self.code
    }

    /// Returns the code of the class that is asked for.
    #[inline(always)]
    pub fn class(&self) -> u16
        ensures { result ≡ self.now.class }
    {
        self.class
    }

    /// Returns the name of the zone whose server was asked.
    #[inline(always)]
    pub fn zone(&self) -> &'a Name
        ensures { result.now.labels ≡ self.now.zone }
    {
        self.zone
    }

    /// Returns `true` if a record counts: it is in the zone and of the class.
    pub fn counts(&self, record: &RecordRef<'_>) -> bool
        ensures { result ≡ counts self.now record.now }
    {
        is_in(self.zone, record.owner()) && record.class().code() == self.class
    }
}

/// Returns the response code, with the high bits of EDNS.
#[tactic(auto, unfolding(crate::specs::Meanings::whole_code))]
pub(crate) fn code_of(message: &MessageRef<'_>) -> u16
    ensures { result ≡ whole_code message.now }
{
    let low = message.header().metadata.response_code.code() % 16;
    low + u16::from(high_bits(message.additionals())) * 16
}

/// Returns the high bits of the response code, which the first `OPT` record has (RFC 6891, section 6.1.3).
fn high_bits(mut records: Records<'_>) -> u8
    ensures { result ≡ high_code_bits (opts_in records.entry) }
{
    'records: loop {
        let Some(record) = records.next() else {
            return 0;
        };
        if is_opt(record.record_type()) {
            return (record.ttl() >> 24) as u8;
        }
    }
}

/// Returns `true` for `OPT`.
fn is_opt(record_type: RecordType) -> bool
    ensures { result ≡ is_opt record_type }
{
    matches!(record_type, RecordType::OPT)
}

/// Returns `true` for a query.
fn is_query(message_type: MessageType) -> bool
    ensures { result ≡ is_query message_type }
{
    matches!(message_type, MessageType::Query)
}

/// Returns `true` for the code of an error.
fn is_error(code: u16) -> bool
    ensures { result ≡ is_error_code code }
{
    !(code == NO_ERROR || code == NO_NAME)
}

/// Returns the reason of a message that reports an error.
fn failed(code: u16) -> Reason
    ensures { result ≡ failed code }
{
    Reason::Failed {
        code: ResponseCode::from(code),
    }
}

/// Returns the class of the only question, if it is the one asked.
#[tactic(auto, unfolding(crate::specs::Meanings::class_asked))]
fn class_asked(
    message: &MessageRef<'_>,
    response: u16,
    name: &Name,
    code: u16,
) -> Result<u16, Reason>
    ensures { result ≡ class_asked response name.now.labels code message.now.queries }
{
    let mut queries = message.queries();
    let Some(query) = queries.next() else {
        return Err(without_question(response));
    };
    if queries.next().is_some() || !asks(&query, name, code) {
        return Err(Reason::OtherQuestion);
    }
    Ok(query.query_class().code())
}

/// Returns why a message without a question is no answer.
fn without_question(response: u16) -> Reason
    ensures { result ≡ without_question response }
{
    if is_error(response) {
        failed(response)
    } else {
        Reason::OtherQuestion
    }
}

/// Returns `true` if a question asks for a name and a type.
fn asks(query: &QueryRef<'_>, name: &Name, code: u16) -> bool
    ensures { result ≡ asks name.now.labels code query.now }
{
    is_same(query.name(), name) && query.query_type().code() == code
}
