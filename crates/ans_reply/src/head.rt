//! The header of a reply, and its greatest size.
ghost use Rattle.std.specs.Prelude.{◌≡◌, ◌↔◌, ◌≤◌, ◌<◌, ◌+◌, length, IfNone, IfSome, IsTrue};
ghost use Rattle.dns_names_wire.specs.Words.{reply_flags};
ghost use Rattle.ans_reply.specs.Heads.{IsAsking, head, header_number, operation_of, own_flags, size_limit};

use dns_names_wire::message::Header;
use dns_names_wire::message_writer::Asked;

/// AA among the flags of a header (RFC 1035, section 4.1.1).
const AUTHORITATIVE: u16 = 0x0400;

/// What the header of a reply has of its request.
#[derive(Debug, Clone, Copy, PartialEq, Eq)]
pub struct ReplyHead {
    /// The id.
    pub id: u16,
    /// The flags, without TC and the response code.
    pub flags: u16,
}

/// Returns the header of the reply to a request: with its id, operation, RD and CD (RFC 1035, section 4.1.1; RFC 4035, section 3.1.6), and
/// with AA if the zone has authority. Returns `None` if the octets have no header, or that of a reply: a server drops them.
pub fn head_of(request: &[u8], is_authoritative: bool) -> Option<ReplyHead>
    ensures some { IfSome result (λ it. IsAsking request.now × (it ≡ head request.now is_authoritative)) }
    ensures none { IfNone result (IsAsking request.now → ⊥) }
{
    if !is_asking(request) {
        return None;
    }
    Some(ReplyHead {
        id: header_number(request, 0),
        flags: reply_flags(header_number(request, 2), own_flags(is_authoritative), 0),
    })
}

/// Returns the operation of a request, which its header has.
pub fn operation_of(request: &[u8]) -> u8
    requires { 2 < length request.now }
    ensures { result ≡ operation_of request.now }
{
    request[2] / 8 % 16
}

/// Returns the greatest size of a reply, in octets: what the transport has room for, and for a datagram no more than the sender of the
/// request accepts (RFC 6891, section 6.2.3).
pub fn size_limit(asked: Asked, is_datagram: bool, most: usize) -> usize
    ensures { result ≡ size_limit asked is_datagram most }
{
    if !is_datagram {
        return most;
    }
    usize::from(asked.max_payload).min(most)
}

/// Returns `true` if octets have the header of a request.
fn is_asking(octets: &[u8]) -> bool
    ensures { IsTrue result ↔ IsAsking octets.now }
{
    octets.len() >= Header::LEN && octets[2] < 128
}

/// Returns the number that two octets of a header are.
fn header_number(octets: &[u8], at: usize) -> u16
    requires { at + 2 ≤ length octets.now }
    ensures { result ≡ header_number octets.now at }
{
    u16::from_be_bytes([octets[at], octets[at + 1]])
}

/// Returns the flags that are a server's own.
fn own_flags(is_authoritative: bool) -> u16
    ensures { result ≡ own_flags is_authoritative }
{
    if is_authoritative { AUTHORITATIVE } else { 0 }
}

/// Returns the flags of a reply.
fn reply_flags(requested: u16, own: u16, code: u16) -> u16
    ensures { result ≡ reply_flags requested own code }
{
    0x8000 | (requested & 0x7910) | (own & 0x04a0) | code
}
