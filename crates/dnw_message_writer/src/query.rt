//! Queries, as they begin (RFC 1035, section 4.1.1; RFC 6891, section 6.1).
ghost use Rattle.std.specs.Prelude.{◌≡◌, IfErr, OnErr, OnOk};
ghost use Rattle.dnw_message_writer.specs.Queries.{AddsSize, BeginsQuery, FailsToAddSize, FailsToQuery, query_flags};

use crate::section::WriteError;
use crate::state::WriterState;
use dnw_name_form::wire_labels::WireLabels;

/// The flag RD (RFC 1035, section 4.1.1).
const RECURSION_DESIRED: u16 = 0x0100;

impl WriterState {
    /// Begins a query: with an id, RD if recursion is desired, a question, and, if the sender says the size of the messages that it
    /// accepts, an `OPT` record without options. If it fails, the state is unchanged, but the octets of the message may have changed.
    pub fn query(
        &mut self,
        message: &mut [u8],
        id: u16,
        recursion_desired: bool,
        name: WireLabels<'_>,
        query_type: u16,
        class: u16,
        max_payload: Option<u16>,
        max_size: usize,
    ) -> Result<(), WriteError>
        ensures ok { OnOk result (BeginsQuery id (query_flags recursion_desired) max_size name.entry query_type class max_payload
            message.old self.new message.new) }
        ensures err { IfErr result (FailsToQuery id (query_flags recursion_desired) max_size name.entry query_type class max_payload message.old) }
        ensures same { OnErr result (self.new ≡ self.old) }
    {
        let saved = *self;
        let flags = query_flags(recursion_desired);
        let begun = self.ask(
            message,
            id,
            flags,
            max_size,
            name,
            query_type,
            class,
            max_payload,
        );
        if begun.is_err() {
            *self = saved;
        }
        begun
    }

    /// Begins a query with these flags.
    fn ask(
        &mut self,
        message: &mut [u8],
        id: u16,
        flags: u16,
        max_size: usize,
        name: WireLabels<'_>,
        query_type: u16,
        class: u16,
        max_payload: Option<u16>,
    ) -> Result<(), WriteError>
        ensures ok { OnOk result (BeginsQuery id flags max_size name.entry query_type class max_payload message.old self.new message.new) }
        ensures err { IfErr result (FailsToQuery id flags max_size name.entry query_type class max_payload message.old) }
    {
        if let Err(error) = self.begin(message, id, flags, max_size) {
            return Err(error);
        }
        if let Err(error) = self.question(message, name, query_type, class) {
            return Err(error);
        }
        self.say_size(message, max_payload)
    }

    /// Adds an `OPT` record without options, if there is a size to say.
    fn say_size(&mut self, message: &mut [u8], max_payload: Option<u16>) -> Result<(), WriteError>
        ensures ok { OnOk result (AddsSize max_payload self.old message.old self.new message.new) }
        ensures err { IfErr result (FailsToAddSize max_payload self.old message.old) }
    {
        match max_payload {
            None => Ok(()),
            Some(size) => self.opt_record(message, size, 0, &[], &[], &[]),
        }
    }
}

/// Returns the flags of a query.
fn query_flags(recursion_desired: bool) -> u16
    ensures { result ≡ query_flags recursion_desired }
{
    if recursion_desired {
        RECURSION_DESIRED
    } else {
        0
    }
}
