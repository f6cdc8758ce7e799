//! Sets of records, and `OPT` records, added to messages that are written item by item.
ghost use Rattle.std.specs.Prelude.{◌≡◌};
ghost use Rattle.dnw_c_base.specs.Results.{ReturnsNumber};
ghost use Rattle.dnw_c_messages.specs.SetCalls.{AddsEdns, AddsSetOf, AddsSetOr, AddsSetTo, FailsToAddEdns, FailsToAddSetOf, FailsToAddSetTo, failure_of_data};
ghost use Rattle.dnw_c_messages.specs.WriterCalls.{AddsOr};

use crate::owners::labels_of;
use crate::writer::{of_write, section_of};
use dnw_base::limits::MIN_PAYLOAD;
use dnw_c_base::failure::Failure;
use dnw_c_base::results::report;
use dnw_message_writer::edns::{Edns, MAX_BLOCK};
use dnw_message_writer::listed::DataError;
use dnw_message_writer::section::Section;
use dnw_message_writer::set::cut_off;
use dnw_message_writer::state::WriterState;

/// Adds the records of a set, or none of them. If they have no room and are required, TC is set.
#[unsafe(no_mangle)]
pub extern "C" fn dnw_writer_set(
    message: &mut [u8],
    section: u32,
    is_required: bool,
    owner: &[u8],
    record_type: u16,
    class: u16,
    ttl: u32,
    set: &[u8],
    writer: &mut WriterState,
) -> u32
    ensures { ReturnsNumber (AddsSetOr is_required (AddsSetOf section owner.now record_type class ttl set.now)
        (FailsToAddSetOf section owner.now record_type class ttl set.now) writer.old message.old writer.new message.new) result }
{
    let added = add_set(
        message,
        section,
        is_required,
        owner,
        record_type,
        class,
        ttl,
        set,
        writer,
    );
    report(added, &mut ())
}

/// Adds an `OPT` record. It has so many of the octets that are held back.
#[unsafe(no_mangle)]
pub extern "C" fn dnw_writer_edns(
    message: &mut [u8],
    held: usize,
    max_payload: u16,
    rcode_high: u8,
    version: u8,
    dnssec_ok: bool,
    options: &[u8],
    block: u16,
    writer: &mut WriterState,
) -> u32
    ensures { ReturnsNumber (AddsOr (AddsEdns held max_payload rcode_high version dnssec_ok options.now block)
        (FailsToAddEdns held max_payload rcode_high version dnssec_ok options.now block) writer.old message.old writer.new message.new) result }
{
    let added = add_edns(
        message,
        held,
        max_payload,
        rcode_high,
        version,
        dnssec_ok,
        options,
        block,
        writer,
    );
    report(added, &mut ())
}

/// Adds the records of a set.
fn add_set(
    message: &mut [u8],
    number: u32,
    is_required: bool,
    form: &[u8],
    record_type: u16,
    class: u16,
    ttl: u32,
    set: &[u8],
    writer: &mut WriterState,
) -> Result<(), Failure>
    ensures { AddsSetOr is_required (AddsSetOf number form.now record_type class ttl set.now)
        (FailsToAddSetOf number form.now record_type class ttl set.now) writer.old message.old writer.new message.new result }
{
    let Some(section) = section_of(number) else {
        return Err(Failure::BadItem);
    };
    match add_set_to(message, section, form, record_type, class, ttl, set, writer) {
        Ok(()) => Ok(()),
        Err(Failure::MessageTooLong) => {
            if is_required {
                cut_off(message);
            }
            Err(Failure::MessageTooLong)
        }
        Err(failure) => Err(failure),
    }
}

/// Adds the records of a set to a section.
fn add_set_to(
    message: &mut [u8],
    section: Section,
    form: &[u8],
    record_type: u16,
    class: u16,
    ttl: u32,
    set: &[u8],
    writer: &mut WriterState,
) -> Result<(), Failure>
    ensures { AddsOr (AddsSetTo section form.now record_type class ttl set.now) (FailsToAddSetTo section form.now record_type class ttl set.now)
        writer.old message.old writer.new message.new result }
{
    let owner = labels_of(form)?;
    match writer.set_data(message, section, owner, record_type, class, ttl, set) {
        Ok(()) => Ok(()),
        Err(error) => Err(failure_of_data(&error)),
    }
}

/// Adds an `OPT` record.
pub(crate) fn add_edns(
    message: &mut [u8],
    held: usize,
    max_payload: u16,
    rcode_high: u8,
    version: u8,
    dnssec_ok: bool,
    options: &[u8],
    block: u16,
    writer: &mut WriterState,
) -> Result<(), Failure>
    ensures { AddsOr (AddsEdns held max_payload rcode_high version dnssec_ok options.now block)
        (FailsToAddEdns held max_payload rcode_high version dnssec_ok options.now block) writer.old message.old writer.new message.new result }
{
    let edns = Edns {
        max_payload: max_payload.max(MIN_PAYLOAD),
        rcode_high,
        version,
        dnssec_ok,
        options,
    };
    let block = usize::from(block).min(MAX_BLOCK);
    match writer.edns(message, held, &edns, block) {
        Ok(()) => Ok(()),
        Err(error) => Err(of_write(&error)),
    }
}

/// Returns the failure that stands for why data are not added.
fn failure_of_data(error: &DataError) -> Failure
    ensures { result ≡ failure_of_data error.now }
{
    match error {
        DataError::List => Failure::BadItem,
        DataError::Data => Failure::BadData,
        DataError::Write(error) => of_write(error),
    }
}
