//! The records of a list that come last in its message: what it says by EDNS, and its signature.
ghost use Rattle.std.specs.Prelude.{◌≡◌, false, true, IfErr, OnOk};
ghost use Rattle.dnw_message_writer.specs.ListEnds.{AddsEnds, AddsOptEnd, AddsOptAs, AddsSignature, AddsWhole, FailsToAddEnds, FailsToAddOptEnd, FailsToAddOptAs, FailsToAddSignature, FailsToAddWhole, SaysWithCode, has_such, held_by, is_put_last, says_edns, no_ends, of_second, size_of_end, whole_item, with_end};

use crate::copying::is_held;
use crate::edns::{Edns, MAX_BLOCK};
use crate::list::writing::add_listed;
use crate::list::{ListError, of_write};
use crate::section::Section;
use crate::state::WriterState;
use dnw_base::limits::MIN_PAYLOAD;
use dnw_base::record_type::RecordType;
use dnw_record::record_ref::{FIXED_SIZE, RecordRef};

/// The records of a list that come last in its message, as far as it has any.
#[derive(Drop)]
pub(crate) struct Ends<'l> {
    /// What the message says by EDNS.
    pub(crate) opt: Option<RecordRef<'l>>,
    /// What signs the message: TSIG or SIG(0).
    pub(crate) signature: Option<RecordRef<'l>>,
}

impl<'l> Ends<'l> {
    /// Creates those of a list without such records.
    pub(crate) fn new() -> Self
        ensures { result ≡ no_ends }
    {
        Ends {
            opt: None,
            signature: None,
        }
    }

    /// Takes one more of them. It fails if there is one of its kind.
    pub(crate) fn take(&mut self, item: RecordRef<'l>) -> Result<(), ListError>
        ensures ok { OnOk result ((has_such item.entry self.old ≡ false) × (self.new ≡ with_end item.entry self.old)) }
        ensures err { IfErr result (λ failure. (has_such item.entry self.old ≡ true) × (failure ≡ of_second item.entry)) }
    {
        if says_edns(&item) {
            if self.opt.is_some() {
                return Err(ListError::SecondOpt);
            }
            self.opt = Some(item);
            return Ok(());
        }
        if self.signature.is_some() {
            return Err(ListError::BadItem);
        }
        self.signature = Some(item);
        Ok(())
    }

    /// Returns how many octets are held back for them: as many as they have if their names are whole.
    pub(crate) fn held(&self) -> usize
        ensures { result ≡ held_by self.now }
    {
        size_of_end(&self.opt).saturating_add(size_of_end(&self.signature))
    }

    /// Writes them, with a response code: what the message says by EDNS, padded if `block` is not 0, and then its signature.
    pub(crate) fn write(
        &self,
        code: u16,
        block: u16,
        message: &mut [u8],
        writer: &mut WriterState,
    ) -> Result<(), ListError>
        ensures ok { OnOk result (AddsEnds code block self.now writer.old message.old writer.new message.new) }
        ensures err { IfErr result (FailsToAddEnds code block self.now writer.old message.old) }
    {
        write_opt(code, block, &self.opt, message, writer)?;
        write_signature(&self.signature, message, writer)
    }
}

/// Returns `true` for a record that comes last, by the octet before it too, which is that of its section.
pub(crate) fn is_put_last(octet: u8, item: &RecordRef<'_>) -> bool
    ensures { result ≡ is_put_last octet item.now }
{
    octet % 4 == 3 && is_held(item)
}

/// Returns `true` for an `OPT` record.
fn says_edns(item: &RecordRef<'_>) -> bool
    ensures { result ≡ says_edns item.now }
{
    item.record_type().code() == RecordType::OPT.code()
}

/// Returns how many octets a record has, if its names are whole.
fn whole_item(item: &RecordRef<'_>) -> usize
    ensures { result ≡ whole_item item.now }
{
    item.owner().encoded_len() + FIXED_SIZE + item.rdata().len()
}

/// Returns how many octets are held back for a record, if there is one.
fn size_of_end(item: &Option<RecordRef<'_>>) -> usize
    ensures { result ≡ size_of_end item.now }
{
    match item {
        Some(item) => whole_item(item),
        None => 0,
    }
}

/// Writes the `OPT` record, if there is one.
fn write_opt(
    code: u16,
    block: u16,
    item: &Option<RecordRef<'_>>,
    message: &mut [u8],
    writer: &mut WriterState,
) -> Result<(), ListError>
    ensures ok { OnOk result (AddsOptEnd code block item.now writer.old message.old writer.new message.new) }
    ensures err { IfErr result (FailsToAddOptEnd code block item.now writer.old message.old) }
{
    let Some(item) = item else {
        return Ok(());
    };
    if !item.owner().is_root() {
        return Err(ListError::OwnerNotRoot);
    }
    add_opt(code, block, item, message, writer)
}

/// Adds an `OPT` record, with the high bits of a response code, and with the option for padding if `block` is not 0.
fn add_opt(
    code: u16,
    block: u16,
    item: &RecordRef<'_>,
    message: &mut [u8],
    writer: &mut WriterState,
) -> Result<(), ListError>
    ensures ok { OnOk result (AddsOptAs code block item.now writer.old message.old writer.new message.new) }
    ensures err { IfErr result (FailsToAddOptAs code block item.now writer.old message.old) }
{
    let edns = said_with(code, item);
    let held = whole_item(item);
    let block = usize::from(block).min(MAX_BLOCK);
    match writer.edns(message, held, &edns, block) {
        Ok(()) => Ok(()),
        Err(error) => Err(of_write(&error)),
    }
}

/// Returns what an `OPT` record says, with the high bits of a response code.
fn said_with<'l>(code: u16, item: &RecordRef<'l>) -> Edns<'l>
    ensures { SaysWithCode code item.now result }
{
    let ttl = item.ttl();
    Edns {
        max_payload: u16::from(item.class()).max(MIN_PAYLOAD),
        rcode_high: (code / 16 % 256) as u8,
        version: ((ttl >> 16) % 256) as u8,
        dnssec_ok: (ttl >> 15) % 2 == 1,
        options: item.rdata(),
    }
}

/// Writes the signature, if there is one.
fn write_signature(
    item: &Option<RecordRef<'_>>,
    message: &mut [u8],
    writer: &mut WriterState,
) -> Result<(), ListError>
    ensures ok { OnOk result (AddsSignature item.now writer.old message.old writer.new message.new) }
    ensures err { IfErr result (FailsToAddSignature item.now writer.old message.old) }
{
    let Some(item) = item else {
        return Ok(());
    };
    add_whole(item, message, writer)
}

/// Adds a record to the additional section, with its names whole.
fn add_whole(
    item: &RecordRef<'_>,
    message: &mut [u8],
    writer: &mut WriterState,
) -> Result<(), ListError>
    ensures ok { OnOk result (AddsWhole item.now writer.old message.old writer.new message.new) }
    ensures err { IfErr result (FailsToAddWhole item.now writer.old message.old) }
{
    writer.forget_names(whole_item(item));
    match add_listed(Section::Additionals, item, message, writer) {
        Ok(()) => Ok(()),
        Err(failure) => Err(failure),
    }
}
