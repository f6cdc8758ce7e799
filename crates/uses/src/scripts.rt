//! Adds a record to a message by a script.
ghost use Rattle.std.specs.Prelude.{◌≡◌, ℕ, ◌<◌, ◌^◌, [], ◌∷◌, length, IfOk, IfErr, OnErr};
ghost use Rattle.dns_names_wire.specs.Words.{Done, Refused, RepliesTo, WireRecord, opening, write_record};
ghost use Rattle.uses.specs.Scripts.{IsReadAt};

use dns_names_wire::script::{Reply, Step, laws, run};
use dns_names_wire::{ProtoResult, WireRecord};
use std::alloc::Global;

/// Writes a record after the bytes of a message, and returns the offset after it. The record is read back from there, with
/// its owner, type, class, time to live and data. If it fails, the message is unchanged.
pub fn append_record(alloc: Global, message: &mut Vec<u8>, entry: WireRecord) -> ProtoResult<usize>
    requires { length message.old.items < 2 ^ 32 }
    ensures read { IfOk result (λ end. IsReadAt message.new.items entry (length message.old.items) end) }
    ensures unchanged { OnErr result (message.new.items ≡ message.old.items) }
{
    laws::records_are_read();
    let replies = run(alloc, message, &[Step::Record(entry)])?;
    only_reply(replies)
}

/// Returns the length that the reply to a record reports, or why it was refused.
fn only_reply(mut replies: Vec<Reply>) -> ProtoResult<usize>
    requires { (start : ℕ) × (entry : WireRecord) × RepliesTo (opening start) (write_record entry ∷ []) replies.items }
    ensures ok { IfOk result (λ len. replies.items ≡ Done len ∷ []) }
    ensures err { IfErr result (λ error. (len : ℕ) × (replies.items ≡ Refused error len ∷ [])) }
{
    match replies.pop() {
        Some(Reply::Done { len }) => Ok(len),
        Some(Reply::Refused { error, .. }) => Err(error),
        _ => unreachable!(),
    }
}
