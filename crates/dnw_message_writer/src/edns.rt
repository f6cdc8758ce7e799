//! EDNS: an `OPT` record, and padding (RFC 6891, section 6.1; RFC 7830; RFC 8467).
ghost use Rattle.std.specs.Prelude.{◌≡◌, ◌↔◌, ◌+◌, ◌<◌, ◌≤◌, ◌++◌, [], Some, None, take, IfErr, IfSome, IsTrue, MatchOption, OnErr, OnOk};
ghost use Rattle.dnw_base.specs.TypeCodes.{opt_code};
ghost use Rattle.dnw_message_read.specs.Edns.{HasOptions, first_option, option_of};
ghost use Rattle.dnw_message_writer.specs.Edns.{AddsOpt, AddsOptItem, FailsToAddOpt, FailsToAddOptItem, ttl_of_edns, lacking, padding_size};
ghost use Rattle.dnw_message_writer.specs.Listed.{data_form, data_past};
ghost use Rattle.dnw_message_writer.specs.States.{AddsItem, FailsToAdd, released, room_of};
ghost use Rattle.dnw_message_writer.specs.declared.section.Section.TheVariants as Sections;
ghost use Rattle.dnw_message_writer.specs.declared.section.WriteError.TheVariants.{CutOption};

use crate::pieces::Piece;
use crate::section::{Section, WriteError};
use crate::state::WriterState;
use dnw_base::record_type::RecordType;
use dnw_name_form::wire_labels::WireLabels;

/// The code of the option `Padding` (RFC 7830, section 3).
pub(crate) const PADDING: u8 = 12;

/// The octets of an `OPT` record before its data, and those of an option before its own.
const OPT_FRONT: usize = 15;

/// A message is padded to a multiple of at most as many octets. RFC 8467, section 4.1, recommends 128 and 468.
pub const MAX_BLOCK: usize = 512;

/// What a message says by EDNS (RFC 6891, section 6.1.3).
#[derive(Clone, Copy)]
pub struct Edns<'a> {
    /// The size of the messages that the sender accepts, in octets.
    pub max_payload: u16,
    /// The high eight bits of the response code.
    pub rcode_high: u8,
    /// The version: 0 for this RFC.
    pub version: u8,
    /// Whether the sender accepts DNSSEC records (RFC 3225, section 3).
    pub dnssec_ok: bool,
    /// The octets of the options.
    pub options: &'a [u8],
}

impl WriterState {
    /// Adds an `OPT` record to the additional section, or nothing of it. It has so many of the octets that are held back.
    ///
    /// If `block` is not 0, the option `Padding` is added after the others, so that the message, with the octets that are still held
    /// back, has a multiple of so many octets; but not if there is no room for it (RFC 7830, section 4).
    ///
    /// It fails with `CutOption` if the options end within an option, and with `SecondOpt` if the message has an `OPT` record already.
    pub fn edns(
        &mut self,
        message: &mut [u8],
        held: usize,
        edns: &Edns<'_>,
        block: usize,
    ) -> Result<(), WriteError>
        requires { block ≤ 512 }
        ensures ok { OnOk result (AddsOpt edns.now block (released held self.old) message.old self.new message.new) }
        ensures err { IfErr result (FailsToAddOpt edns.now block (released held self.old) message.old) }
        ensures same { OnErr result ((self.new ≡ self.old) × (take self.old.end message.new ≡ take self.old.end message.old)) }
    {
        check_options(edns.options)?;
        let reserved = self.reserved;
        self.give_back(held);
        let added = self.add_opt(message, edns, block);
        if added.is_err() {
            self.reserved = reserved;
        }
        added
    }

    /// Adds an `OPT` record.
    fn add_opt(
        &mut self,
        message: &mut [u8],
        edns: &Edns<'_>,
        block: usize,
    ) -> Result<(), WriteError>
        requires { block ≤ 512 }
        ensures ok { OnOk result (AddsOptItem edns.now block self.old message.old self.new message.new) }
        ensures err { IfErr result (FailsToAddOptItem edns.now block self.old message.old) }
        ensures same { OnErr result ((self.new ≡ self.old) × (take self.old.end message.new ≡ take self.old.end message.old)) }
    {
        let ttl = ttl_of(edns);
        let options = edns.options;
        let Some(size) = self.padding_size(message, options.len(), block) else {
            return self.opt_record(message, edns.max_payload, ttl, options, &[], &[]);
        };
        let len = (size as u16).to_be_bytes();
        let head = [0, PADDING, len[0], len[1]];
        let zeros = [0; MAX_BLOCK];
        self.opt_record(
            message,
            edns.max_payload,
            ttl,
            options,
            &head,
            &zeros[..size],
        )
    }

    /// Adds an `OPT` record of this class and time to live, whose data stand in three pieces.
    pub(crate) fn opt_record<'p>(
        &mut self,
        message: &mut [u8],
        class: u16,
        ttl: u32,
        options: &'p [u8],
        head: &'p [u8],
        zeros: &'p [u8],
    ) -> Result<(), WriteError>
        ensures ok { OnOk result (AddsItem Sections.Additionals (data_form [] opt_code class ttl (options.now ++ (head.now ++ zeros.now))) self.old message.old self.new message.new) }
        ensures err { IfErr result (FailsToAdd Sections.Additionals (data_past [] opt_code class ttl (options.now ++ (head.now ++ zeros.now))) self.old message.old) }
        ensures same { OnErr result ((self.new ≡ self.old) × (take self.old.end message.new ≡ take self.old.end message.old)) }
    {
        self.record(
            message,
            Section::Additionals,
            root(),
            RecordType::OPT.code(),
            class,
            ttl,
            &[
                Piece::Octets(options),
                Piece::Octets(head),
                Piece::Octets(zeros),
            ],
        )
    }

    /// Returns how many octets the option `Padding` is to have, if it is to be added after options of this size.
    fn padding_size(&self, message: &[u8], options: usize, block: usize) -> Option<usize>
        requires few { block ≤ 512 }
        ensures size { result ≡ padding_size block self.now message.now options }
        ensures small { IfSome result (λ size. size < 512) }
    {
        let limit = self.room_of(message);
        if block == 0 || limit < self.end || limit - self.end < OPT_FRONT {
            return None;
        }
        let left = limit - self.end - OPT_FRONT;
        if left < options {
            return None;
        }
        let size = lacking(block, self.end + OPT_FRONT + options + self.reserved);
        if left - options < size {
            return None;
        }
        Some(size)
    }
}

/// Fails if octets are not options, up to their end.
fn check_options(octets: &[u8]) -> Result<(), WriteError>
    ensures ok { OnOk result (HasOptions octets.now) }
    ensures err { IfErr result (λ error. (HasOptions octets.now → ⊥) × (error ≡ CutOption)) }
{
    if are_options(octets) {
        return Ok(());
    }
    Err(WriteError::CutOption)
}

/// Returns `true` if octets are options, up to their end (RFC 6891, section 6.1.2).
pub(crate) fn are_options(octets: &[u8]) -> bool
    ensures { IsTrue result ↔ HasOptions octets.now }
{
    let mut rest = octets;
    'options: while !rest.is_empty() {
        match after_option(rest) {
            Some(after) => rest = after,
            None => return false,
        }
    }
    true
}

/// Returns the octets after the option that octets begin with.
#[inline(always)]
#[tactic(auto, unfolding(dnw_message_read::specs::Edns::first_option))]
fn after_option(octets: &[u8]) -> Option<&[u8]>
    ensures { MatchOption result (first_option octets.now ≡ None) (λ rest. first_option octets.now ≡ Some (option_of octets.now, rest.now)) }
{
    if octets.len() < 4 {
        return None;
    }
    let size = 4 + u16::from_be_bytes([octets[2], octets[3]]) as usize;
    if octets.len() < size {
        return None;
    }
    Some(&octets[size..])
}

/// Returns what a number lacks to a multiple of a block.
fn lacking(block: usize, total: usize) -> usize
    requires { 0 < block }
    ensures value { result ≡ lacking block total }
    ensures small { result < block }
{
    (block - total % block) % block
}

/// Returns the labels of the root: none.
#[inline(always)]
pub(crate) fn root() -> WireLabels<'static>
    ensures { result ≡ [] }
{
    WireLabels::new(&[0])
}

/// Returns the high bits of the response code, the version and the flags as one number.
fn ttl_of(edns: &Edns<'_>) -> u32
    ensures { result ≡ ttl_of_edns edns.now }
{
    (u32::from(edns.rcode_high) << 24)
        + (u32::from(edns.version) << 16)
        + (u32::from(edns.dnssec_ok) << 15)
}
