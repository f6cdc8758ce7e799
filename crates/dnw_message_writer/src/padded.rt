//! Messages that were read, written again with padding (RFC 7830; RFC 8467).
ghost use Rattle.std.specs.Prelude.{◌≡◌, ◌≤◌, ◌==◌, min, IfErr, IfNone, IfSome, OnErr, OnOk};
ghost use Rattle.dnw_record.specs.Records.{data_octets};
ghost use Rattle.dnw_message_writer.specs.Copying.{size_with};
ghost use Rattle.dnw_message_writer.specs.Edns.{most_block, padding_code};
ghost use Rattle.dnw_message_writer.specs.Padded.{CopiesEnds, CopiesOpt, CopiesPadded, CopiesSignatures, FailsEnds, FailsSignatures, FailsToCopyOpt, FailsToCopyPadded, IsNotToPad, IsToPad, SaysAs, has_padding};

use crate::copying::{CopyError, signs_message, size_with};
use crate::edns::{Edns, MAX_BLOCK, PADDING};
use crate::section::Section;
use crate::set::cut_off;
use crate::state::WriterState;
use dnw_message_read::edns::{EdnsOption, EdnsOptions};
use dnw_message_read::message::MessageRef;
use dnw_record::record_ref::RecordRef;
use std::alloc::Global;

impl WriterState {
    /// Writes a message that was read again, as `copy` does, and pads it to a multiple of `block` octets, or of 512 if it is more, by the
    /// option `Padding` of its `OPT` record. That comes before a signature, and its reserved flags are clear.
    ///
    /// The message is written as by `copy` if `block` is 0, if it has no `OPT` record, or if that has the option already: there is one at
    /// most (RFC 7830, section 3). It is not padded if there is no room for that. It fails as `copy` does.
    pub fn copy_padded(
        &mut self,
        alloc: Global,
        message: &mut [u8],
        source: &MessageRef<'_>,
        max_size: usize,
        block: usize,
    ) -> Result<(), CopyError>
        ensures ok { OnOk result (CopiesPadded source.now max_size (min block most_block) message.old self.new message.new) }
        ensures err { IfErr result (FailsToCopyPadded source.now max_size (min block most_block) message.old) }
        ensures same { OnErr result (self.new ≡ self.old) }
    {
        let saved = *self;
        let copied = self.copy_or_pad(alloc, message, source, max_size, block.min(MAX_BLOCK));
        if copied.is_err() {
            *self = saved;
        }
        copied
    }

    /// Writes a message again, padded if it is to be.
    fn copy_or_pad(
        &mut self,
        alloc: Global,
        message: &mut [u8],
        source: &MessageRef<'_>,
        max_size: usize,
        block: usize,
    ) -> Result<(), CopyError>
        requires { block ≤ most_block }
        ensures ok { OnOk result (CopiesPadded source.now max_size block message.old self.new message.new) }
        ensures err { IfErr result (FailsToCopyPadded source.now max_size block message.old) }
    {
        let Some(opt) = opt_to_pad(source, block) else {
            return match self.copy_items(alloc, message, source, max_size) {
                Ok(()) => Ok(()),
                Err(error) => Err(error),
            };
        };
        let missing = match self.copy_body(alloc, message, source, max_size) {
            Ok(missing) => missing,
            Err(error) => return Err(error),
        };
        match self.copy_ends(alloc, message, source, &opt, block) {
            Ok(()) => {}
            Err(error) => return Err(error),
        }
        if missing {
            cut_off(message);
        }
        Ok(())
    }

    /// Adds the records that come last: what the message says by EDNS, padded, and then its signatures.
    fn copy_ends(
        &mut self,
        alloc: Global,
        message: &mut [u8],
        source: &MessageRef<'_>,
        opt: &RecordRef<'_>,
        block: usize,
    ) -> Result<(), CopyError>
        requires { block ≤ most_block }
        ensures ok { OnOk result (CopiesEnds source.now opt.now block self.old message.old self.new message.new) }
        ensures err { IfErr result (FailsEnds source.now opt.now block self.old message.old) }
    {
        match self.copy_opt(message, opt, block) {
            Ok(()) => {}
            Err(error) => return Err(error),
        }
        match self.copy_signatures(alloc, message, source) {
            Ok(()) => Ok(()),
            Err(error) => Err(error),
        }
    }

    /// Adds an `OPT` record of another message, padded.
    fn copy_opt(
        &mut self,
        message: &mut [u8],
        opt: &RecordRef<'_>,
        block: usize,
    ) -> Result<(), CopyError>
        requires { block ≤ most_block }
        ensures ok { OnOk result (CopiesOpt opt.now block self.old message.old self.new message.new) }
        ensures err { IfErr result (FailsToCopyOpt opt.now block self.old message.old) }
    {
        let edns = said_by(opt);
        let held = held_for(opt);
        match self.edns(message, held, &edns, block) {
            Ok(()) => Ok(()),
            Err(error) => Err(CopyError::Write(error)),
        }
    }

    /// Adds the signatures of a message.
    fn copy_signatures(
        &mut self,
        alloc: Global,
        message: &mut [u8],
        source: &MessageRef<'_>,
    ) -> Result<(), CopyError>
        ensures ok { OnOk result (CopiesSignatures source.now self.old message.old self.new message.new) }
        ensures err { IfErr result (FailsSignatures source.now self.old message.old) }
    {
        self.forget_names(self.reserved);
        let mut records = source.additionals();
        'records: while let Some(record) = records.next() {
            if signs_message(&record) {
                let added = self.record_of(alloc, message, Section::Additionals, &record);
                if let Err(error) = added {
                    return Err(error);
                }
            }
        }
        Ok(())
    }
}

/// Returns what an `OPT` record says.
fn said_by<'m>(opt: &RecordRef<'m>) -> Edns<'m>
    ensures { SaysAs opt.now result }
{
    let ttl = opt.ttl();
    Edns {
        max_payload: u16::from(opt.class()),
        rcode_high: (ttl >> 24) as u8,
        version: ((ttl >> 16) % 256) as u8,
        dnssec_ok: (ttl >> 15) % 2 == 1,
        options: opt.rdata(),
    }
}

/// Returns how many octets are held back for an `OPT` record.
fn held_for(opt: &RecordRef<'_>) -> usize
    ensures { result ≡ size_with opt.now (data_octets opt.now) }
{
    size_with(opt, opt.rdata())
}

/// Returns the `OPT` record of a message, if that is to be padded to a multiple of so many octets.
fn opt_to_pad<'m>(source: &MessageRef<'m>, block: usize) -> Option<RecordRef<'m>>
    ensures some { IfSome result (IsToPad source.now block) }
    ensures none { IfNone result (IsNotToPad source.now block) }
{
    if block == 0 {
        return None;
    }
    let Ok(edns) = source.edns() else {
        return None;
    };
    let Some(edns) = edns else {
        return None;
    };
    if has_padding(edns.options()) {
        return None;
    }
    let Ok(opt) = source.opt() else {
        return None;
    };
    let Some(opt) = opt else {
        return None;
    };
    Some(opt)
}

/// Returns `true` if one of these options is `Padding`.
fn has_padding(mut options: EdnsOptions<'_>) -> bool
    ensures { result ≡ has_padding options.entry }
{
    'options: while let Some(option) = options.next() {
        if is_padding(&option) {
            return true;
        }
    }
    false
}

/// Returns `true` for the option `Padding`.
fn is_padding(option: &EdnsOption<'_>) -> bool
    ensures { result ≡ (option.now.code == padding_code) }
{
    option.code() == u16::from(PADDING)
}
