//! Extension mechanisms for DNS, version 0 (RFC 6891).
ghost use Rattle.std.specs.Prelude.{◌≡◌, ◌↔◌, [], ◌∷◌, Some, None, IsTrue, IfOk, IfErr, MatchOption};
ghost use Rattle.std.specs.Iterator.{YieldsFirst, item_count};
ghost use Rattle.dnw_base.specs.RecordTypes.{type_of_code};
ghost use Rattle.dnw_message_read.specs.Edns.{EdnsValue, FailsOpt, HasOptions, IsEdns, OptionValue, first_option, is_opt, opts_in};
ghost use Rattle.dnw_message_read.specs.Inside.Options.{options_of};

use crate::items::Records;
use dnw_base::error::DecodeError;
use dnw_base::limits::MIN_PAYLOAD;
use dnw_base::record_type::RecordType;
use dnw_base::type_codes::OPT;
use dnw_record::record_ref::RecordRef;
use std::marker::Model;
use thiserror::Error;

/// Why the EDNS of a message breaks a rule.
#[derive(Debug, Drop, Error)]
pub enum EdnsError {
    /// The message has `OPT` records that it may not have (RFC 6891, section 6.1.1): `RecordNotInAdditionalSection` if one is
    /// in another section, or `DuplicateEdns` if the additional section has more than one.
    #[error("{0}")]
    Decode(DecodeError),
    /// The `OPT` record is not owned by the root (RFC 6891, section 6.1.2).
    #[error("OPT record not owned by the root")]
    OwnerNotRoot,
    /// An option is not all there: its length is wrong (RFC 6891, section 6.1.2).
    #[error("EDNS option with a wrong length")]
    CutOption,
}

/// What a message says by EDNS. It borrows its options from the message.
///
/// A contract sees it as its fields and the list of its options.
#[derive(Drop)]
pub struct EdnsRef<'m> {
    max_payload: u16,
    rcode_high: u8,
    version: u8,
    dnssec_ok: bool,
    start: usize,
    options: &'m [u8],
}

impl<'m> Model for EdnsRef<'m> {
    ghost use Rattle.std.specs.Prelude.{length};
    ghost use Rattle.dnw_message_read.specs.Edns.{EdnsValue, HasOptions};
    ghost use Rattle.dnw_message_read.specs.Inside.Options.{options_of};

    ghost Value = { EdnsValue };

    ghost view = { λ e. record {
      max_payload = e.max_payload;
      rcode_high = e.rcode_high;
      version = e.version;
      dnssec_ok = e.dnssec_ok;
      start = e.start;
      len = length e.options.now;
      options = options_of e.options.now;
    } };

    ghost invariant = { λ e. HasOptions e.options.now };
}

impl<'m> EdnsRef<'m> {
    /// Returns what an `OPT` record says.
    ///
    /// It fails with `OwnerNotRoot`, or with `CutOption` if its data are not options up to their end.
    pub(crate) fn read(opt: &RecordRef<'m>) -> Result<Self, EdnsError>
        ensures ok { IfOk result (IsEdns opt.now) }
        ensures err { IfErr result (FailsOpt opt.now) }
    {
        if !opt.owner().is_root() {
            return Err(EdnsError::OwnerNotRoot);
        }
        let options = opt.rdata();
        if !are_options(options) {
            return Err(EdnsError::CutOption);
        }
        let ttl = opt.ttl();
        Ok(EdnsRef {
            max_payload: u16::from(opt.class()).max(MIN_PAYLOAD),
            rcode_high: (ttl >> 24) as u8,
            version: ((ttl >> 16) % 256) as u8,
            dnssec_ok: (ttl >> 15) % 2 == 1,
            start: opt.rdata_offset(),
            options,
        })
    }

    /// Returns the size of the messages that the sender accepts, in octets, at least 512 (RFC 6891, section 6.2.3).
    #[inline(always)]
    pub fn max_payload(&self) -> u16
        ensures { result ≡ self.now.max_payload }
    {
        self.max_payload
    }

    /// Returns the high eight bits of the response code (RFC 6891, section 6.1.3).
    #[inline(always)]
    pub fn rcode_high(&self) -> u8
        ensures { result ≡ self.now.rcode_high }
    {
        self.rcode_high
    }

    /// Returns the version: 0 for this RFC.
    #[inline(always)]
    pub fn version(&self) -> u8
        ensures { result ≡ self.now.version }
    {
        self.version
    }

    /// Returns `true` if the sender accepts DNSSEC records (RFC 3225, section 3).
    #[inline(always)]
    pub fn dnssec_ok(&self) -> bool
        ensures { result ≡ self.now.dnssec_ok }
    {
        self.dnssec_ok
    }

    /// Returns the offset at which the octets of the options begin in the message.
    #[inline(always)]
    pub fn options_offset(&self) -> usize
        ensures { result ≡ self.now.start }
    {
        self.start
    }

    /// Returns the number of octets of all options.
    #[inline(always)]
    pub fn options_len(&self) -> usize
        ensures { result ≡ self.now.len }
    {
        self.options.len()
    }

    /// Returns the options, one after another.
    #[inline(always)]
    pub fn options(&self) -> EdnsOptions<'m>
        ensures { result ≡ self.now.options }
    {
        EdnsOptions { rest: self.options }
    }
}

/// An option (RFC 6891, section 6.1.2). It borrows its data from the message.
#[derive(Drop)]
pub struct EdnsOption<'m> {
    code: u16,
    octets: &'m [u8],
}

impl<'m> Model for EdnsOption<'m> {
    ghost use Rattle.dnw_message_read.specs.Edns.{OptionValue};

    ghost Value = { OptionValue };

    ghost view = { λ o. record { code = o.code; octets = o.octets.now } };
}

impl<'m> EdnsOption<'m> {
    /// Returns the code, by which IANA's registry "DNS EDNS0 Option Codes" says what the option means.
    #[inline(always)]
    pub fn code(&self) -> u16
        ensures { result ≡ self.now.code }
    {
        self.code
    }

    /// Returns the octets of the option, borrowed from the message.
    #[inline(always)]
    pub fn octets(&self) -> &'m [u8]
        ensures { result.now ≡ self.now.octets }
    {
        self.octets
    }
}

/// An iterator over options.
///
/// A contract sees it as the list of the options that are left.
#[derive(Drop)]
pub struct EdnsOptions<'m> {
    rest: &'m [u8],
}

impl<'m> Model for EdnsOptions<'m> {
    ghost use Rattle.std.specs.Prelude.{List};
    ghost use Rattle.dnw_message_read.specs.Edns.{HasOptions, OptionValue};
    ghost use Rattle.dnw_message_read.specs.Inside.Options.{options_of};

    ghost Value = { List OptionValue };

    ghost view = { λ it. options_of it.rest.now };

    ghost invariant = { λ it. HasOptions it.rest.now };
}

impl<'m> Iterator for EdnsOptions<'m> {
    type Item = EdnsOption<'m>;

    ghost next_gives = { YieldsFirst (λ options. options) };

    ghost remaining = { item_count (λ options. options) };

    fn next(&mut self) -> Option<EdnsOption<'m>> {
        let (option, rest) = first_option(self.rest)?;
        self.rest = rest;
        Some(option)
    }
}

/// Returns the option that octets begin with, and the octets after it.
#[tactic(auto, unfolding(crate::specs::Edns::first_option))]
fn first_option(octets: &[u8]) -> Option<(EdnsOption<'_>, &[u8])>
    ensures { MatchOption result (first_option octets.now ≡ None) (λ x. first_option octets.now ≡ Some (x.0, x.1.now)) }
{
    if octets.len() < 4 {
        return None;
    }
    let code = u16::from_be_bytes([octets[0], octets[1]]);
    let size = 4 + u16::from_be_bytes([octets[2], octets[3]]) as usize;
    if octets.len() < size {
        return None;
    }
    let option = EdnsOption {
        code,
        octets: &octets[4..size],
    };
    Some((option, &octets[size..]))
}

/// Returns `true` if octets are options, up to their end.
fn are_options(octets: &[u8]) -> bool
    ensures { IsTrue result ↔ HasOptions octets.now }
{
    let mut rest = octets;
    'options: while !rest.is_empty() {
        match first_option(rest) {
            Some((_, after)) => rest = after,
            None => return false,
        }
    }
    true
}

/// Returns the next `OPT` record of those that are left.
pub(crate) fn next_opt<'m>(records: &mut Records<'m>) -> Option<RecordRef<'m>>
    ensures { MatchOption result (opts_in records.old ≡ []) (λ r. opts_in records.old ≡ r ∷ opts_in records.new) }
{
    'records: loop {
        let record = records.next()?;
        if is_opt(record.record_type()) {
            return Some(record);
        }
    }
}

/// Returns `true` for the code of `OPT`. It does not look a type up.
pub(crate) fn is_opt_code(code: u16) -> bool
    ensures { result ≡ is_opt (type_of_code code) }
{
    code == OPT
}

/// Returns `true` for `OPT`.
fn is_opt(record_type: RecordType) -> bool
    ensures { result ≡ is_opt record_type }
{
    matches!(record_type, RecordType::OPT)
}
