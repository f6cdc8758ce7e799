//! Headers of messages.
ghost use Rattle.std.specs.Prelude.{◌≡◌, ◌<◌, ◌≤◌, ◌^◌};
ghost use Rattle.dnw_name.specs.Decodable.{LacksBytes};
ghost use Rattle.dnw_message_read.specs.HeaderLaws.{HeaderFits};
ghost use Rattle.dnw_message_read.specs.Headers.{TakesHeader, header_of, header_wire, is_set, flag, flags_of, metadata_of};

use crate::op_code::OpCode;
use crate::response_code::ResponseCode;
use dnw_base::decoder::BinDecoder;
use dnw_base::error::DecodeError;
use dnw_name::binary::BinDecodable;
use std::alloc::Global;

/// Whether a message asks or answers.
#[derive(Debug, Clone, Copy, PartialEq, Eq)]
pub enum MessageType {
    /// It asks.
    Query,
    /// It answers.
    Response,
}

/// What a header says besides the counts (RFC 1035, section 4.1.1, and RFC 4035, sections 3.1.6 and 3.2.2).
#[derive(Debug, Clone, Copy, PartialEq, Eq)]
pub struct Metadata {
    /// The number by which a requester knows the response to its request.
    pub id: u16,
    /// QR: whether this is a query or a response.
    pub message_type: MessageType,
    /// What is asked for. Only the low four bits of its code are written.
    pub op_code: OpCode,
    /// AA: the server is an authority for the name of the question.
    pub authoritative: bool,
    /// TC: the message was cut to the size that may be sent.
    pub truncation: bool,
    /// RD: the name server is to follow the query to other servers.
    pub recursion_desired: bool,
    /// RA: the name server can do so.
    pub recursion_available: bool,
    /// AD: the data are authentic by the rules of the server.
    pub authentic_data: bool,
    /// CD: the requester checks the data itself.
    pub checking_disabled: bool,
    /// How the request went. Only the low four bits of its code are written; an `OPT` record has the others (RFC 6891,
    /// section 6.1.3).
    pub response_code: ResponseCode,
}

impl Metadata {
    ghost use Rattle.dnw_message_read.specs.Responses.{response_to};

    /// Returns the metadata with which the response to a request begins: the id, the operation, RD and CD are those of the
    /// request (RFC 1035, section 4.1.1, and RFC 4035, section 3.2.2), and what the server says is not set.
    ///
    /// A response repeats the question too.
    pub fn response_from_request(request: &Metadata) -> Self
        ensures { result ≡ response_to request.now }
    {
        Metadata {
            id: request.id,
            message_type: MessageType::Response,
            op_code: request.op_code,
            authoritative: false,
            truncation: false,
            recursion_desired: request.recursion_desired,
            recursion_available: false,
            authentic_data: false,
            checking_disabled: request.checking_disabled,
            response_code: ResponseCode::NoError,
        }
    }
}

/// How many items each section of a message has (RFC 1035, section 4.1.1).
#[derive(Debug, Clone, Copy, PartialEq, Eq, Default)]
pub struct HeaderCounts {
    /// The questions.
    pub queries: u16,
    /// The records that answer.
    pub answers: u16,
    /// The records that lead to an authority.
    pub authorities: u16,
    /// The records that help.
    pub additionals: u16,
}

/// The header of a message: its first twelve octets (RFC 1035, section 4.1.1).
#[derive(Debug, Clone, Copy, PartialEq, Eq)]
pub struct Header {
    /// The id, the flags and the codes.
    pub metadata: Metadata,
    /// How many items each section has.
    pub counts: HeaderCounts,
}

impl Header {
    /// The number of octets of a header.
    pub const LEN: usize = 12;

    /// Returns the header that these octets are. The reserved bit is ignored.
    pub fn from_octets(octets: &[u8; Header::LEN]) -> Self
        ensures { result ≡ header_of octets.now }
    {
        let number = |at: usize| u16::from_be_bytes([octets[at], octets[at + 1]]);
        Header {
            metadata: metadata_of(number(0), number(2)),
            counts: HeaderCounts {
                queries: number(4),
                answers: number(6),
                authorities: number(8),
                additionals: number(10),
            },
        }
    }

    /// Returns the octets of the header. The reserved bit is zero.
    pub fn to_octets(&self) -> [u8; Header::LEN]
        ensures octets { result ≡ header_wire self.now }
        ensures fit { HeaderFits self.now }
    {
        let id = u16::to_be_bytes(self.metadata.id);
        let flags = u16::to_be_bytes(flags_of(&self.metadata));
        let queries = u16::to_be_bytes(self.counts.queries);
        let answers = u16::to_be_bytes(self.counts.answers);
        let authorities = u16::to_be_bytes(self.counts.authorities);
        let additionals = u16::to_be_bytes(self.counts.additionals);
        [
            id[0],
            id[1],
            flags[0],
            flags[1],
            queries[0],
            queries[1],
            answers[0],
            answers[1],
            authorities[0],
            authorities[1],
            additionals[0],
            additionals[1],
        ]
    }
}

impl<'r> BinDecodable<'r> for Header {
    ghost stands = { TakesHeader };

    ghost fails = { LacksBytes 12 };

    /// Reads the twelve octets at the cursor.
    fn read(_alloc: Global, decoder: &mut BinDecoder<'r>) -> Result<Self, DecodeError> {
        let octets = decoder.read_slice(Header::LEN)?.unverified();
        Ok(Header::from_octets(octets.first_chunk().unwrap()))
    }

    fn from_bytes(alloc: Global, bytes: &'r [u8]) -> Result<Self, DecodeError> {
        let mut decoder = BinDecoder::new(bytes);
        Header::read(alloc, &mut decoder)
    }
}

/// Returns what the id and the flags say.
fn metadata_of(id: u16, flags: u16) -> Metadata
    ensures { result ≡ metadata_of id flags }
{
    Metadata {
        id,
        message_type: if is_set(flags, 15) {
            MessageType::Response
        } else {
            MessageType::Query
        },
        op_code: OpCode::from((flags >> 11) as u8 % 16),
        authoritative: is_set(flags, 10),
        truncation: is_set(flags, 9),
        recursion_desired: is_set(flags, 8),
        recursion_available: is_set(flags, 7),
        authentic_data: is_set(flags, 5),
        checking_disabled: is_set(flags, 4),
        response_code: ResponseCode::from(flags % 16),
    }
}

/// Returns `true` if bit `n` is set; the lowest one is bit 0.
#[inline(always)]
fn is_set(flags: u16, n: u32) -> bool
    requires { n < 16 }
    ensures { result ≡ is_set flags n }
{
    (flags >> n) % 2 == 1
}

/// Returns the flags and the codes as one number.
fn flags_of(metadata: &Metadata) -> u16
    ensures { result ≡ flags_of metadata.now }
{
    let response = metadata.message_type == MessageType::Response;
    let op_code = u16::from(u8::from(metadata.op_code) % 16);
    let response_code = u16::from(metadata.response_code) % 16;
    let high = flag(response, 15)
        + (op_code << 11)
        + flag(metadata.authoritative, 10)
        + flag(metadata.truncation, 9)
        + flag(metadata.recursion_desired, 8);
    high + flag(metadata.recursion_available, 7)
        + flag(metadata.authentic_data, 5)
        + flag(metadata.checking_disabled, 4)
        + response_code
}

/// Returns a number with bit `n` set, if it is to be set.
#[inline(always)]
fn flag(set: bool, n: u32) -> u16
    requires { n < 16 }
    ensures value { result ≡ flag set n }
    ensures most { result ≤ 2 ^ n }
{
    u16::from(set) << n
}
