//! The walk over the items of a message, which keeps only where they end, and whether an `OPT` record is among them.
ghost use Rattle.std.specs.Prelude.{◌≡◌, ℕ, ◌+◌, ◌-◌, ◌≤◌, List, length, IfOk, IfErr, OnOk};
ghost use Rattle.dnw_base.specs.Decoder.{advanced, HasLeft};
ghost use Rattle.dnw_base.specs.Limits.{pointer_offsets};
ghost use Rattle.dnw_base.specs.declared.error.DecodeError.{DecodeError};
ghost use Rattle.dnw_message_read.specs.Messages.{Item, ItemAt, ItemsAt, FailsItem, FailsHere, FailsWithin, part, rest_of};
ghost use Rattle.dnw_message_read.specs.Inside.Passing.{FailsOne, IsKnown, IsPointer, PassesItem, PassesItems, first_pointer, known_after, opt_at};
ghost use Rattle.dnw_name_read.specs.Reading.{StopsAt, TakesName};

use crate::edns::is_opt_code;
use crate::error::{MessageError, MessageErrorKind, Section};
use dnw_base::decoder::BinDecoder;
use dnw_base::error::DecodeError;
use dnw_base::limits::POINTER_OFFSETS;
use dnw_name::name_ref::NameRef;
use dnw_name_read::walk::ReadSteps;
use dnw_record::record_ref::FIXED_SIZE;

/// How many octets of a question are after its name (RFC 1035, section 4.1.2).
const QUESTION_FIELDS: usize = 4;

/// The least number that the two octets of a pointer are.
const FIRST_POINTER: u16 = 0xC000;

/// A pointer to the name of the item before, or that name if it is a pointer, and how many pointers a name follows that is this
/// pointer. Most records of a message are owned by the name of the item before, which is not walked again.
#[derive(Clone, Copy)]
pub(crate) struct Known {
    pointer: u16,
    followed: usize,
}

impl Known {
    /// Before the first item no pointer is known.
    pub(crate) const NONE: Known = Known {
        pointer: 0,
        followed: 0,
    };
}

/// A walk over the items of a message: where it is, how many pointers its names may still follow, and which pointer is known.
#[derive(Drop)]
pub(crate) struct Walk<'m> {
    pub(crate) reader: BinDecoder<'m>,
    pub(crate) left: usize,
    pub(crate) known: Known,
}

/// Moves past the items of a section, and returns `true` if an `OPT` record is among them. The pointers that their names follow
/// are taken from those that are left.
pub(crate) fn pass_section(
    walk: &mut Walk<'_>,
    section: Section,
    count: u16,
) -> Result<bool, MessageError>
    requires { IsKnown walk.old.reader.bytes walk.old.reader.index walk.old.known }
    ensures known { OnOk result (IsKnown walk.new.reader.bytes walk.new.reader.index walk.new.known) }
    ensures ok { IfOk result (PassesItems section count walk.old.reader walk.new.reader walk.old.left walk.new.left) }
    ensures err { IfErr result (FailsWithin walk.old.reader.bytes walk.old.reader.index (part section count) walk.old.left) }
{
    let mut found = false;
    for item in 0..count {
        found |= pass_counted(
            &mut walk.reader,
            section,
            item,
            &mut walk.left,
            &mut walk.known,
        )?;
    }
    Ok(found)
}

/// Moves past one item, the one of this number, and returns `true` if it is an `OPT` record.
#[inline(always)]
fn pass_counted(
    reader: &mut BinDecoder<'_>,
    section: Section,
    item: u16,
    left: &mut usize,
    known: &mut Known,
) -> Result<bool, MessageError>
    requires { IsKnown reader.old.bytes reader.old.index known.old }
    ensures known { OnOk result (IsKnown reader.new.bytes reader.new.index known.new) }
    ensures ok { IfOk result (PassesItem section reader.old reader.new left.old left.new) }
    ensures err { IfErr result (FailsOne section item reader.old left.old) }
{
    let offset = reader.index();
    let mut steps = ReadSteps::default();
    let kind = match pass_item(reader, section, known, &mut steps) {
        Err(error) => MessageErrorKind::Decode(error),
        Ok(_) if steps.pointers > *left => MessageErrorKind::TooManyPointers,
        Ok(found) => {
            *left -= steps.pointers;
            return Ok(found);
        }
    };
    Err(MessageError {
        section,
        item,
        offset,
        kind,
    })
}

/// Moves past one item, counts the steps of its name, and returns `true` if it is an `OPT` record.
#[inline(always)]
fn pass_item(
    reader: &mut BinDecoder<'_>,
    section: Section,
    known: &mut Known,
    steps: &mut ReadSteps,
) -> Result<bool, DecodeError>
    requires { IsKnown reader.old.bytes reader.old.index known.old }
    ensures known { OnOk result (IsKnown reader.new.bytes reader.new.index known.new) }
    ensures ok { IfOk result (λ found. (x : Item) × ItemAt (rest_of section) reader.old.bytes reader.old.index x reader.new.index steps.new.pointers
        × (reader.new ≡ record { bytes = reader.old.bytes; index = reader.new.index }) × (found ≡ opt_at section reader.old.bytes x.name_end)) }
    ensures err { IfErr result (FailsItem (rest_of section) reader.old.bytes reader.old.index) }
{
    pass_name(reader, known, steps)?;
    pass_rest(reader, section)
}

/// Moves past a name, and counts the pointers that it follows. A pointer that is known is not followed.
#[inline(always)]
fn pass_name(
    reader: &mut BinDecoder<'_>,
    known: &mut Known,
    steps: &mut ReadSteps,
) -> Result<(), DecodeError>
    requires { IsKnown reader.old.bytes reader.old.index known.old }
    ensures known { OnOk result (IsKnown reader.new.bytes reader.new.index known.new) }
    ensures ok { OnOk result ((labels : List (List ℕ)) × TakesName reader.old reader.new labels steps.new.pointers) }
    ensures err { IfErr result (λ e. (k : ℕ) × (j : ℕ) × StopsAt reader.old e k j) }
{
    let start = reader.index();
    let octets = two_octets(reader.message(), start);
    if octets >= FIRST_POINTER && octets == known.pointer {
        reader.skip(2).unwrap();
        steps.pointers = known.followed;
        return Ok(());
    }
    NameRef::read_counted(reader, steps)?;
    *known = name_known(octets, start, steps.pointers);
    Ok(())
}

/// Returns the two octets at an offset as a number, or 0 if they are not there.
#[inline(always)]
fn two_octets(message: &[u8], start: usize) -> u16
    requires { start ≤ length message.now }
    ensures { first_pointer ≤ result → IsPointer message.now start result }
{
    if message.len() - start < 2 {
        return 0;
    }
    message[start] as u16 * 256 + message[start + 1] as u16
}

/// Returns what is known after a name that begins with these two octets and follows so many pointers.
#[inline(always)]
fn name_known(octets: u16, start: usize, followed: usize) -> Known
    requires { followed ≤ pointer_offsets }
    ensures { result ≡ known_after octets start followed }
{
    if octets >= FIRST_POINTER {
        return Known {
            pointer: octets,
            followed,
        };
    }
    if start < POINTER_OFFSETS {
        return Known {
            pointer: FIRST_POINTER + start as u16,
            followed: followed + 1,
        };
    }
    Known::NONE
}

/// Moves past what follows the name of an item, and returns `true` if the item is an `OPT` record.
#[inline(always)]
fn pass_rest(reader: &mut BinDecoder<'_>, section: Section) -> Result<bool, DecodeError>
    ensures ok { IfOk result (λ found. HasLeft reader.old (rest_of section reader.old.bytes reader.old.index)
        × (reader.new ≡ advanced reader.old (rest_of section reader.old.bytes reader.old.index))
        × (found ≡ opt_at section reader.old.bytes reader.old.index)) }
    ensures err { IfErr result (λ e. (¬ (HasLeft reader.old (rest_of section reader.old.bytes reader.old.index)))
        × (e ≡ DecodeError.InsufficientBytes)) }
{
    if section == Section::Queries {
        reader.skip(QUESTION_FIELDS)?;
        return Ok(false);
    }
    let fields = reader.read_slice(FIXED_SIZE)?.unverified();
    reader.skip(u16::from_be_bytes([fields[8], fields[9]]) as usize)?;
    Ok(is_opt_code(u16::from_be_bytes([fields[0], fields[1]])))
}
