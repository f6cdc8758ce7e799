//! The message of a reply.
ghost use Rattle.std.specs.Prelude.{true};
ghost use Rattle.dns_names_wire.specs.Words.{WritesListOr};

use crate::head::ReplyHead;
use crate::reply::ReplyItems;
use dns_names_wire::message_list::{ListError, Written, write_list};

/// Writes the message of a reply, of at most so many octets. What has no room is left out by the rules of `write_list`, by which TC is set if
/// the message has to have it: all of the answer, the SOA record that denies, and the servers of a referral with their addresses below the
/// delegation (RFC 2181, section 9; RFC 9471). The octets of the buffer are those of no message if it fails, as it does if the question and
/// `OPT` alone have no room.
pub fn write_reply(
    reply: &ReplyItems,
    head: ReplyHead,
    max_size: usize,
    message: &mut [u8],
) -> Result<Written, ListError>
    ensures { WritesListOr reply.now.items.items max_size head.id head.flags reply.now.code true 0 message.old message.new result }
{
    let items = reply.items.as_slice();
    write_list(
        items, max_size, head.id, head.flags, reply.code, true, 0, message,
    )
}
