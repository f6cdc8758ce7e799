//! Messages, written item by item.
ghost use Rattle.std.specs.Prelude.{◌≡◌, ◌+◌, ◌-◌, min, IfOk, IfErr, IfSome, IfNone};
ghost use Rattle.dnw_message_writer.specs.States.{released};
ghost use Rattle.dnw_c_base.specs.Results.{ReturnsNumber};
ghost use Rattle.dnw_c_messages.specs.WriterCalls.{AddsGiven, AddsLastRecord, AddsOr, AddsOwned, AddsQuestionOf, AddsRecord, BeginsOr, FailsToAddGiven, FailsToAddLast, FailsToAddOwned, FailsToAddQuestion, FailsToAddRecord, IsGiven, IsNoNumber, IsNotGiven, IsSectionNumber, of_write};

use crate::owners::labels_of;
use dnw_c_base::failure::Failure;
use dnw_c_base::results::report;
use dnw_message_writer::data::{Pieces, only_piece_of, pieces_of};
use dnw_message_writer::section::{Section, WriteError};
use dnw_message_writer::standing::FIRST_ITEM;
use dnw_message_writer::state::WriterState;
use dnw_name_form::wire_labels::WireLabels;

/// Begins a message: puts a header without items at the start of a buffer.
#[unsafe(no_mangle)]
pub extern "C" fn dnw_writer_begin(
    message: &mut [u8],
    max_size: usize,
    id: u16,
    flags: u16,
    writer: &mut WriterState,
) -> u32
    ensures { ReturnsNumber (BeginsOr id flags max_size writer.old message.old writer.new message.new) result }
{
    let begun = begin(message, max_size, id, flags, writer);
    report(begun, &mut ())
}

/// Adds a question.
#[unsafe(no_mangle)]
pub extern "C" fn dnw_writer_question(
    message: &mut [u8],
    name: &[u8],
    query_type: u16,
    class: u16,
    writer: &mut WriterState,
) -> u32
    ensures { ReturnsNumber (AddsOr (AddsQuestionOf name.now query_type class) (FailsToAddQuestion name.now)
        writer.old message.old writer.new message.new) result }
{
    let added = add_question(message, name, query_type, class, writer);
    report(added, &mut ())
}

/// Adds a record to a section, whose number is that of the answers or a later one.
#[unsafe(no_mangle)]
pub extern "C" fn dnw_writer_record(
    message: &mut [u8],
    section: u32,
    owner: &[u8],
    record_type: u16,
    class: u16,
    ttl: u32,
    octets: &[u8],
    writer: &mut WriterState,
) -> u32
    ensures { ReturnsNumber (AddsOr (AddsRecord section owner.now record_type class ttl octets.now)
        (FailsToAddRecord section owner.now record_type class ttl octets.now) writer.old message.old writer.new message.new) result }
{
    let added = add_record(
        message,
        section,
        owner,
        record_type,
        class,
        ttl,
        octets,
        writer,
    );
    report(added, &mut ())
}

/// Adds the last record of a message. It has so many of the octets that are held back.
#[unsafe(no_mangle)]
pub extern "C" fn dnw_writer_last(
    message: &mut [u8],
    held: usize,
    owner: &[u8],
    record_type: u16,
    class: u16,
    ttl: u32,
    octets: &[u8],
    writer: &mut WriterState,
) -> u32
    ensures { ReturnsNumber (AddsOr (AddsLastRecord held owner.now record_type class ttl octets.now)
        (FailsToAddLast held owner.now record_type class ttl octets.now) writer.old message.old writer.new message.new) result }
{
    let added = add_last(
        message,
        held,
        owner,
        record_type,
        class,
        ttl,
        octets,
        writer,
    );
    report(added, &mut ())
}

/// Holds back so many more octets of the maximum.
#[unsafe(no_mangle)]
pub extern "C" fn dnw_writer_hold(octets: usize, writer: &mut WriterState) -> u32
    ensures done { result ≡ 0 }
    ensures held { writer.new ≡ record writer.old { reserved = min (writer.old.reserved + octets) 18446744073709551615 } }
{
    writer.hold_back(octets);
    0
}

/// Gives back so many of the octets that are held back, or all if there are fewer.
#[unsafe(no_mangle)]
pub extern "C" fn dnw_writer_release(octets: usize, writer: &mut WriterState) -> u32
    ensures done { result ≡ 0 }
    ensures given { writer.new ≡ released octets writer.old }
{
    writer.give_back(octets);
    0
}

/// Begins a message.
fn begin(
    message: &mut [u8],
    max_size: usize,
    id: u16,
    flags: u16,
    writer: &mut WriterState,
) -> Result<(), Failure>
    ensures { BeginsOr id flags max_size writer.old message.old writer.new message.new result }
{
    if message.len() < FIRST_ITEM {
        return Err(Failure::NoRoom);
    }
    match writer.begin(message, id, flags, max_size) {
        Ok(()) => Ok(()),
        Err(_) => Err(Failure::MessageTooLong),
    }
}

/// Adds a question.
fn add_question(
    message: &mut [u8],
    form: &[u8],
    query_type: u16,
    class: u16,
    writer: &mut WriterState,
) -> Result<(), Failure>
    ensures { AddsOr (AddsQuestionOf form.now query_type class) (FailsToAddQuestion form.now)
        writer.old message.old writer.new message.new result }
{
    let name = labels_of(form)?;
    match writer.question(message, name, query_type, class) {
        Ok(()) => Ok(()),
        Err(error) => Err(of_write(&error)),
    }
}

/// Adds a record to a section.
fn add_record(
    message: &mut [u8],
    number: u32,
    form: &[u8],
    record_type: u16,
    class: u16,
    ttl: u32,
    octets: &[u8],
    writer: &mut WriterState,
) -> Result<(), Failure>
    ensures { AddsOr (AddsRecord number form.now record_type class ttl octets.now)
        (FailsToAddRecord number form.now record_type class ttl octets.now) writer.old message.old writer.new message.new result }
{
    let Some(section) = section_of(number) else {
        return Err(Failure::BadItem);
    };
    add_given(
        message,
        section,
        form,
        record_type,
        class,
        ttl,
        octets,
        writer,
    )
}

/// Adds a record that is given by its owner's wire form and its data to a section.
fn add_given(
    message: &mut [u8],
    section: Section,
    form: &[u8],
    record_type: u16,
    class: u16,
    ttl: u32,
    octets: &[u8],
    writer: &mut WriterState,
) -> Result<(), Failure>
    ensures { AddsOr (AddsGiven section form.now record_type class ttl octets.now)
        (FailsToAddGiven section form.now record_type class ttl octets.now) writer.old message.old writer.new message.new result }
{
    let owner = labels_of(form)?;
    match add_owned(
        message,
        section,
        owner,
        record_type,
        class,
        ttl,
        octets,
        writer,
    ) {
        Ok(()) => Ok(()),
        Err(failure) => Err(failure),
    }
}

/// Adds a record with this owner and these data to a section. Mostly the data are one piece.
#[inline(always)]
fn add_owned(
    message: &mut [u8],
    section: Section,
    owner: WireLabels<'_>,
    record_type: u16,
    class: u16,
    ttl: u32,
    octets: &[u8],
    writer: &mut WriterState,
) -> Result<(), Failure>
    ensures { AddsOr (AddsOwned section owner.entry record_type class ttl octets.now)
        (FailsToAddOwned section owner.entry record_type class ttl octets.now) writer.old message.old writer.new message.new result }
{
    let Some(piece) = only_piece_of(class, record_type, octets) else {
        return add_pieces(
            message,
            section,
            owner,
            record_type,
            class,
            ttl,
            octets,
            writer,
        );
    };
    let pieces = [piece];
    match writer.record(message, section, owner, record_type, class, ttl, &pieces) {
        Ok(()) => Ok(()),
        Err(error) => Err(of_write(&error)),
    }
}

/// Adds a record, as `add_owned` does, whose data may be several pieces.
#[inline(never)]
fn add_pieces(
    message: &mut [u8],
    section: Section,
    owner: WireLabels<'_>,
    record_type: u16,
    class: u16,
    ttl: u32,
    octets: &[u8],
    writer: &mut WriterState,
) -> Result<(), Failure>
    ensures { AddsOr (AddsOwned section owner.entry record_type class ttl octets.now)
        (FailsToAddOwned section owner.entry record_type class ttl octets.now) writer.old message.old writer.new message.new result }
{
    let Some(pieces) = pieces_of(class, record_type, octets) else {
        return Err(Failure::BadData);
    };
    let pieces = pieces.as_slice();
    match writer.record(message, section, owner, record_type, class, ttl, pieces) {
        Ok(()) => Ok(()),
        Err(error) => Err(of_write(&error)),
    }
}

/// Adds the last record of a message.
fn add_last(
    message: &mut [u8],
    held: usize,
    form: &[u8],
    record_type: u16,
    class: u16,
    ttl: u32,
    octets: &[u8],
    writer: &mut WriterState,
) -> Result<(), Failure>
    ensures { AddsOr (AddsLastRecord held form.now record_type class ttl octets.now)
        (FailsToAddLast held form.now record_type class ttl octets.now) writer.old message.old writer.new message.new result }
{
    let (owner, pieces) = given(form, record_type, class, octets)?;
    let pieces = pieces.as_slice();
    match writer.last_record(message, held, owner, record_type, class, ttl, pieces) {
        Ok(()) => Ok(()),
        Err(error) => Err(of_write(&error)),
    }
}

/// Returns the owner and the pieces of the data of a record.
#[inline(always)]
fn given<'g>(
    form: &'g [u8],
    record_type: u16,
    class: u16,
    octets: &'g [u8],
) -> Result<(WireLabels<'g>, Pieces<'g>), Failure>
    ensures ok { IfOk result (λ g. IsGiven form.now record_type class octets.now g.0 g.1) }
    ensures err { IfErr result (IsNotGiven form.now record_type class octets.now) }
{
    let owner = labels_of(form)?;
    match pieces_of(class, record_type, octets) {
        Some(pieces) => Ok((owner, pieces)),
        None => Err(Failure::BadData),
    }
}

/// Returns the section of records that has this number in C.
pub(crate) fn section_of(number: u32) -> Option<Section>
    ensures some { IfSome result (IsSectionNumber number) }
    ensures none { IfNone result (IsNoNumber number) }
{
    match number {
        2 => Some(Section::Answers),
        3 => Some(Section::Authorities),
        4 => Some(Section::Additionals),
        _ => None,
    }
}

/// Returns the failure that stands for why an item is not added.
pub(crate) fn of_write(error: &WriteError) -> Failure
    ensures { result ≡ of_write error.now }
{
    match error {
        WriteError::NoMessage => Failure::MessageCut,
        WriteError::OutOfOrder => Failure::BadItem,
        WriteError::NoRoom => Failure::MessageTooLong,
        WriteError::SecondOpt => Failure::DuplicateEdns,
        WriteError::CutOption => Failure::CutOption,
    }
}
