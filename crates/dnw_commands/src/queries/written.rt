//! Queries.
ghost use Rattle.std.specs.Prelude.{◌≡◌, true, replicate, IfOk, IfErr, OnOk};
ghost use Rattle.std.specs.String.{string_bytes};
ghost use Rattle.hex.specs.Hex.{encode_lower};
ghost use Rattle.dnw_commands.specs.Refusals.{IsMemory};
ghost use Rattle.dnw_commands.specs.Asking.{SaysEdns, FailsQuestion, FailsToSayEdns, FailsToAsk, FailsToWrite, HasQuestion, IsQueryOf, IsAsked, framed, query_room};

use crate::base::Refusal;
use dns_names_wire::dns_class::DNSClass;
use dns_names_wire::message_writer::{Edns, WriteError, WriterState};
use dns_names_wire::name::Name;
use dns_names_wire::record_type::RecordType;
use std::alloc::Global;

/// The greatest query without options: a header, the longest name, a type and a class, and an `OPT` record.
const MAX_QUERY: usize = 12 + 255 + 4 + 11;

/// The flags of a query that asks for recursion: RD (RFC 1035, section 4.1.1).
const ASKING: u16 = 0x0100;

/// The size of a response that passes most links in one piece (DNS flag day 2020).
const MAX_PAYLOAD: u16 = 1232;

/// What a query asks for.
#[derive(Drop)]
pub(crate) struct Asked {
    /// Its id.
    pub(crate) id: u16,
    /// The name of the question.
    pub(crate) name: Name,
    /// The type of the question.
    pub(crate) record_type: RecordType,
    /// The class of the question.
    pub(crate) class: DNSClass,
    /// Whether there is an `OPT` record.
    pub(crate) has_edns: bool,
    /// Whether it asks for the records of DNSSEC.
    pub(crate) dnssec_ok: bool,
    /// The octets of the options of EDNS.
    pub(crate) options: Vec<u8>,
}

/// Returns a query for the records of a type and a class that a name has. It asks for recursion. It fails if the options are none,
/// or have no room in a message, or if an allocation fails.
pub(crate) fn query(alloc: Global, asked: &Asked) -> Result<Vec<u8>, Refusal>
    ensures ok { IfOk result (λ message. IsQueryOf asked.now message.items) }
    ensures err { IfErr result (FailsToAsk asked.now) }
{
    let mut message = Vec::new(alloc);
    message.resize(MAX_QUERY.saturating_add(asked.options.len()), 0)?;
    let mut writer = WriterState::new();
    write_query(asked, &mut writer, message.as_mut_slice())?;
    message.truncate(writer.end);
    Ok(message)
}

/// Writes the query into a buffer of zeros.
fn write_query(
    asked: &Asked,
    writer: &mut WriterState,
    message: &mut [u8],
) -> Result<(), WriteError>
    requires { message.old ≡ replicate (query_room asked.now) 0 }
    ensures ok { OnOk result (IsAsked asked.now writer.new message.new) }
    ensures err { IfErr result (FailsToWrite asked.now) }
{
    write_question(asked, writer, message)?;
    if asked.has_edns {
        add_edns(asked, writer, message)?;
    }
    Ok(())
}

/// Writes the header and the question.
fn write_question(
    asked: &Asked,
    writer: &mut WriterState,
    message: &mut [u8],
) -> Result<(), WriteError>
    requires { message.old ≡ replicate (query_room asked.now) 0 }
    ensures ok { OnOk result (HasQuestion asked.now writer.new message.new) }
    ensures err { IfErr result (FailsQuestion asked.now) }
{
    let room = message.len();
    writer.begin(message, asked.id, ASKING, room)?;
    let (code, class) = (asked.record_type.code(), asked.class.code());
    writer.question(message, asked.name.wire_labels(), code, class)?;
    Ok(())
}

/// Adds the `OPT` record.
fn add_edns(asked: &Asked, writer: &mut WriterState, message: &mut [u8]) -> Result<(), WriteError>
    ensures ok { OnOk result (SaysEdns true asked.now writer.old message.old writer.new message.new) }
    ensures err { IfErr result (FailsToSayEdns asked.now writer.old message.old) }
{
    let edns = Edns {
        max_payload: MAX_PAYLOAD,
        rcode_high: 0,
        version: 0,
        dnssec_ok: asked.dnssec_ok,
        options: asked.options.as_slice(),
    };
    writer.edns(message, 0, &edns, 0)?;
    Ok(())
}

/// Returns the hexadecimal digits of a message, after those of its length in two octets if it is framed (RFC 1035, section 4.2.2).
/// It fails only if an allocation fails.
pub(crate) fn digits(alloc: Global, message: &[u8], is_framed: bool) -> Result<String, Refusal>
    ensures ok { IfOk result (λ text. string_bytes text ≡ encode_lower (framed is_framed message.now)) }
    ensures err { IfErr result IsMemory }
{
    let mut octets = Vec::new(alloc);
    if is_framed {
        let len = u16::try_from(message.len()).unwrap_or(u16::MAX);
        octets.extend_from_slice(&len.to_be_bytes())?;
    }
    octets.extend_from_slice(message)?;
    Ok(hex::encode(alloc, octets.as_slice())?)
}
