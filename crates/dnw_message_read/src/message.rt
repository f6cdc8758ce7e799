//! Messages, which are read without copying.
ghost use Rattle.std.specs.Prelude.{◌≡◌, [], ℕ, ◌+◌, ◌*◌, ◌<◌, ◌≤◌, Some, length, drop, slice_range, IfOk, IfErr, IsTrue};
ghost use Rattle.std.specs.Bool.{FalseIff};
ghost use Rattle.dnw_message_read.specs.Headers.{header_of, header_size};
ghost use Rattle.dnw_message_read.specs.Edns.{FailsEdns, FailsOnlyOpt, HasEdns, HasOpt, IsOnlyOpt, IsResponseCode, opts_in, opts_outside};
ghost use Rattle.dnw_base.specs.Limits.{max_pointers};
ghost use Rattle.dnw_record.specs.DataPointers.{TakesAllPointers};
ghost use Rattle.dnw_message_read.specs.DataPointers.{records_of};
ghost use Rattle.dnw_message_read.specs.Messages.{MessageAt, FailsMessage, SectionsBegin, no_header};

use crate::edns::{EdnsError, EdnsRef, next_opt};
use crate::error::{MessageError, MessageErrorKind, Section};
use crate::header::Header;
use crate::items::{Queries, Records};
use crate::passing::{Known, Walk, pass_section};
use crate::response_code::ResponseCode;
use dnw_base::decoder::BinDecoder;
use dnw_base::error::DecodeError;
use dnw_base::limits::{MAX_MESSAGE, MAX_POINTERS};
use dnw_base::record_type::RecordType;
use dnw_record::record_ref::RecordRef;
use std::marker::Model;

/// The offsets at which the sections of records of a message begin. The questions begin after the header, at `Header::LEN`.
#[derive(Debug, Clone, Copy, PartialEq, Eq)]
pub struct SectionOffsets {
    /// The offset at which the questions end and the answers begin.
    pub answers: usize,
    /// The offset at which the answers end and the authorities begin.
    pub authorities: usize,
    /// The offset at which the authorities end and the additional records begin.
    pub additionals: usize,
}

/// A message (RFC 1035, section 4). It borrows all from the octets that it was read from, and nothing here allocates.
///
/// Reading checks that each question and each record is there. So the iterators over the sections can't fail. What the data of
/// a record are is not looked into; see `RecordRef::data_name`.
///
/// A contract sees it as its octets, its header, its sections and the offset at which it ends.
#[derive(Drop)]
pub struct MessageRef<'m> {
    message: &'m [u8],
    header: Header,
    answers: usize,
    authorities: usize,
    additionals: usize,
    end: usize,
    opt_outside: bool,
    opt_inside: bool,
}

impl<'m> Model for MessageRef<'m> {
    ghost use Rattle.dnw_message_read.specs.Messages.{MessageValue};
    ghost use Rattle.dnw_message_read.specs.Inside.Kept.{message_in, IsKept};

    ghost Value = { MessageValue };

    ghost view = { λ m. message_in m.message.now m.header m.answers m.authorities m.additionals m.end };

    ghost invariant = { λ m. IsKept m.message.now m.header m.answers m.authorities m.additionals m.end m.opt_outside m.opt_inside };
}

impl<'m> MessageRef<'m> {
    /// Reads the message at the start of these octets, whatever follows it.
    ///
    /// It fails at the first item that is not there. The names of its questions and the owners of its records may follow 65,536
    /// pointers in all; `read_limited` takes another number.
    #[inline(always)]
    pub fn read(octets: &'m [u8]) -> Result<Self, MessageError>
        ensures ok { IfOk result (λ m. (k : ℕ) × MessageAt octets.now m k × (k ≤ max_pointers)) }
        ensures err { IfErr result (FailsMessage octets.now max_pointers) }
    {
        MessageRef::read_limited(octets, MAX_POINTERS)
    }

    /// Reads as `read` does, if the names follow no more than `max_pointers` in all.
    ///
    /// So the time that it takes is linear in the number of octets and in `max_pointers`: each item costs its own octets, the
    /// pointers of its name, and at most 128 labels. Without a limit a chain of 8,000 pointers, with 4,000 records that each
    /// begin at its end, would follow 32 million pointers in 64 KB.
    #[inline(always)]
    pub fn read_limited(octets: &'m [u8], max_pointers: usize) -> Result<Self, MessageError>
        ensures ok { IfOk result (λ m. (k : ℕ) × MessageAt octets.now m k × (k ≤ max_pointers)) }
        ensures err { IfErr result (FailsMessage octets.now max_pointers) }
    {
        let header = read_header(octets)?;
        let counts = header.counts;
        let mut walk = Walk {
            reader: reader_at(octets, Header::LEN),
            left: max_pointers,
            known: Known::NONE,
        };
        pass_section(&mut walk, Section::Queries, counts.queries)?;
        let answers = walk.reader.index();
        let in_answers = pass_section(&mut walk, Section::Answers, counts.answers)?;
        let authorities = walk.reader.index();
        let in_authorities = pass_section(&mut walk, Section::Authorities, counts.authorities)?;
        let additionals = walk.reader.index();
        let in_additionals = pass_section(&mut walk, Section::Additionals, counts.additionals)?;
        Ok(MessageRef {
            message: octets,
            header,
            answers,
            authorities,
            additionals,
            end: walk.reader.index(),
            opt_outside: in_answers | in_authorities,
            opt_inside: in_additionals,
        })
    }

    /// Returns the header.
    #[inline(always)]
    pub fn header(&self) -> &Header
        ensures { result.now ≡ self.now.header }
    {
        &self.header
    }

    /// Returns the questions, one after another.
    pub fn queries(&self) -> Queries<'m>
        ensures { result ≡ self.now.queries }
    {
        Queries::new(
            reader_at(self.message, Header::LEN),
            self.header.counts.queries,
        )
    }

    /// Returns the records that answer, one after another.
    pub fn answers(&self) -> Records<'m>
        ensures { result ≡ self.now.answers }
    {
        Records::new(
            reader_at(self.message, self.answers),
            self.header.counts.answers,
        )
    }

    /// Returns the records that lead to an authority, one after another.
    pub fn authorities(&self) -> Records<'m>
        ensures { result ≡ self.now.authorities }
    {
        Records::new(
            reader_at(self.message, self.authorities),
            self.header.counts.authorities,
        )
    }

    /// Returns the records that help, one after another. An `OPT` record is among them.
    pub fn additionals(&self) -> Records<'m>
        ensures { result ≡ self.now.additionals }
    {
        Records::new(
            reader_at(self.message, self.additionals),
            self.header.counts.additionals,
        )
    }

    /// Returns what the message says by EDNS, or `None` without an `OPT` record (RFC 6891).
    ///
    /// It fails with `RecordNotInAdditionalSection` if an `OPT` record is among the answers or the authorities, with
    /// `DuplicateEdns` if there are two or more, with `OwnerNotRoot` if the only one is not owned by the root, or else with
    /// `CutOption` if its data are not options up to their end.
    pub fn edns(&self) -> Result<Option<EdnsRef<'m>>, EdnsError>
        ensures ok { IfOk result (HasEdns self.now) }
        ensures err { IfErr result (FailsEdns self.now) }
    {
        let Some(opt) = self.only_opt()? else {
            return Ok(None);
        };
        Ok(Some(EdnsRef::read(&opt)?))
    }

    /// Returns the `OPT` record of the message, if there is one (RFC 6891, section 6.1.1). It fails as `edns` does.
    pub fn opt(&self) -> Result<Option<RecordRef<'m>>, EdnsError>
        ensures ok { IfOk result (HasOpt self.now) }
        ensures err { IfErr result (FailsEdns self.now) }
    {
        let Some(opt) = self.only_opt()? else {
            return Ok(None);
        };
        let _ = EdnsRef::read(&opt)?;
        Ok(Some(opt))
    }

    /// Returns the only `OPT` record, whatever its options are.
    fn only_opt(&self) -> Result<Option<RecordRef<'m>>, EdnsError>
        ensures ok { IfOk result (IsOnlyOpt self.now) }
        ensures err { IfErr result (FailsOnlyOpt self.now) }
    {
        if self.has_opt_outside() {
            return Err(EdnsError::Decode(DecodeError::RecordNotInAdditionalSection(
                RecordType::OPT,
            )));
        }
        if !self.has_opt_inside() {
            return Ok(None);
        }
        let mut records = self.additionals();
        let opt = next_opt(&mut records).unwrap();
        if next_opt(&mut records).is_some() {
            return Err(EdnsError::Decode(DecodeError::DuplicateEdns));
        }
        Ok(Some(opt))
    }

    /// Returns `true` if an `OPT` record is among the answers or the authorities.
    #[inline(always)]
    fn has_opt_outside(&self) -> bool
        ensures { FalseIff result (opts_outside self.now ≡ []) }
    {
        self.opt_outside
    }

    /// Returns `true` if an `OPT` record is among the additional records.
    #[inline(always)]
    fn has_opt_inside(&self) -> bool
        ensures { FalseIff result (opts_in self.now.additionals ≡ []) }
    {
        self.opt_inside
    }

    /// Returns the response code, with the high bits that EDNS has (RFC 6891, section 6.1.3). It fails as `edns` does.
    pub fn response_code(&self) -> Result<ResponseCode, EdnsError>
        ensures ok { IfOk result (IsResponseCode self.now) }
        ensures err { IfErr result (FailsEdns self.now) }
    {
        let high = match self.edns()? {
            Some(edns) => edns.rcode_high(),
            None => 0,
        };
        let low = u16::from(self.header.metadata.response_code) % 16;
        Ok(ResponseCode::from(low + (u16::from(high) << 4)))
    }

    /// Returns the offsets at which the sections begin. An empty section begins where the next one does.
    #[inline(always)]
    pub fn section_offsets(&self) -> SectionOffsets
        ensures { SectionsBegin self.now result }
    {
        SectionOffsets {
            answers: self.answers,
            authorities: self.authorities,
            additionals: self.additionals,
        }
    }

    /// Returns `true` if the records and the octets are so few that the names in the data follow no more than `max_pointers`
    /// compression pointers in all.
    pub(crate) fn has_few_records(&self, max_pointers: usize) -> bool
        ensures { IsTrue result → (left : ℕ) × TakesAllPointers (records_of self.now) max_pointers (Some left) }
    {
        let counts = &self.header.counts;
        are_few(
            counts.answers,
            counts.authorities,
            counts.additionals,
            self.message.len(),
            max_pointers,
        )
    }

    /// Returns the offset at which the message ends.
    #[inline(always)]
    pub fn end(&self) -> usize
        ensures { result ≡ self.now.end }
    {
        self.end
    }

    /// Returns the octets after the message, if it was read from more.
    #[inline(always)]
    pub fn trailing(&self) -> &'m [u8]
        ensures { result.now ≡ drop self.now.end self.now.octets }
    {
        &self.message[self.end..]
    }
}

/// Returns `true` if the names in the data of so many records follow no more than `max_pointers` compression pointers in all, whatever
/// they are: no data have more than two names, and none follows more than the octets of the message.
fn are_few(
    answers: u16,
    authorities: u16,
    additionals: u16,
    octets: usize,
    max_pointers: usize,
) -> bool
    ensures { IsTrue result → (answers + authorities + additionals) * (octets + octets) ≤ max_pointers }
{
    if octets > usize::from(MAX_MESSAGE) {
        return false;
    }
    let records = usize::from(answers) + usize::from(authorities) + usize::from(additionals);
    match records.checked_mul(octets + octets) {
        Some(most) => most <= max_pointers,
        None => false,
    }
}

/// Reads the header at the start of these octets.
#[inline(always)]
fn read_header(octets: &[u8]) -> Result<Header, MessageError>
    ensures ok { IfOk result (λ h. (header_size ≤ length octets.now) × (h ≡ header_of (slice_range octets.now 0 header_size))) }
    ensures err { IfErr result (λ e. (length octets.now < header_size) × (e ≡ no_header)) }
{
    match octets.first_chunk() {
        Some(head) => Ok(Header::from_octets(head)),
        None => Err(MessageError {
            section: Section::Header,
            item: 0,
            offset: 0,
            kind: MessageErrorKind::Decode(DecodeError::InsufficientBytes),
        }),
    }
}

/// Returns a decoder of a message at an index.
#[inline(always)]
fn reader_at(message: &[u8], index: usize) -> BinDecoder<'_>
    requires { index ≤ length message.now }
    ensures { result ≡ record { bytes = message.now; index = index } }
{
    let mut reader = BinDecoder::new(message);
    reader.skip(index).unwrap();
    reader
}
