//! Records of a reply, before they are written.
ghost use Rattle.std.specs.Prelude.{◌≡◌, OnOk};
ghost use Rattle.std.specs.List.{list_any};
ghost use Rattle.dns_names_wire.specs.Words.{wire};
ghost use Rattle.ans_reply.specs.Lists.{fields_of_reply};
ghost use Rattle.ans_reply.specs.Sections.{is_again, is_dname_at, sent_as, with_once};

use crate::seen::is_same;
use dns_names_wire::type_codes::DNAME;
use dns_names_wire::{Name, RecordRef};
use std::alloc::AllocError;
use std::marker::Model;

/// A record of a reply. It borrows its data.
///
/// A contract sees it as its parts.
#[derive(Drop)]
pub(crate) struct Listed<'a> {
    owner: Name,
    code: u16,
    class: u16,
    ttl: u32,
    data: &'a [u8],
}

impl<'a> Model for Listed<'a> {
    ghost use Rattle.ans_reply.specs.Sections.{ReplyRecord};

    ghost Value = { ReplyRecord };

    ghost view = { λ x. record { owner = x.owner.labels; code = x.code; class = x.class; ttl = x.ttl; octets = x.data.now } };
}

impl<'a> Listed<'a> {
    /// Creates a record of its parts.
    pub(crate) fn new(owner: Name, code: u16, class: u16, ttl: u32, data: &'a [u8]) -> Self
        ensures { result ≡ record { owner = owner.labels; code = code; class = class; ttl = ttl; octets = data.now } }
    {
        Listed {
            owner,
            code,
            class,
            ttl,
            data,
        }
    }

    /// Returns a record of the zone, with another owner and another time to live.
    pub(crate) fn sent_as(owner: Name, ttl: u32, record: &RecordRef<'a>) -> Self
        ensures { result ≡ sent_as owner.labels ttl record.now }
    {
        let code = record.record_type().code();
        let class = record.class().code();
        Listed::new(owner, code, class, ttl, record.rdata())
    }

    /// Returns the wire form of the owner.
    #[inline(always)]
    pub(crate) fn owner_wire(&self) -> &[u8]
        ensures { result.now ≡ wire self.now.owner }
    {
        self.owner.as_wire()
    }

    /// Returns the type, the class, the time to live and the length of the data as octets (RFC 1035, section 3.2.1).
    pub(crate) fn fields(&self) -> [u8; 10]
        ensures { result ≡ fields_of_reply self.now }
    {
        let code = self.code.to_be_bytes();
        let class = self.class.to_be_bytes();
        let ttl = self.ttl.to_be_bytes();
        let len = ((self.data.len() % 65536) as u16).to_be_bytes();
        [
            code[0], code[1], class[0], class[1], ttl[0], ttl[1], ttl[2], ttl[3], len[0], len[1],
        ]
    }

    /// Returns the data.
    #[inline(always)]
    pub(crate) fn data(&self) -> &'a [u8]
        ensures { result.now ≡ self.now.octets }
    {
        self.data
    }

    /// Returns `true` if it is a DNAME record of a name.
    fn is_dname_at(&self, name: &Name) -> bool
        ensures { result ≡ is_dname_at name.now.labels self.now }
    {
        self.code == DNAME && is_same(&self.owner, name)
    }

    /// Returns `true` if it is a DNAME record of a name that has one among others.
    fn is_again(&self, before: &[Listed<'_>]) -> bool
        ensures { result ≡ is_again before.now self.now }
    {
        self.code == DNAME && has_dname(before, &self.owner)
    }
}

/// Returns `true` if a name has a DNAME record among these.
fn has_dname(records: &[Listed<'_>], name: &Name) -> bool
    ensures { result ≡ list_any (is_dname_at name.now.labels) records.now }
{
    'records: for record in records {
        if record.is_dname_at(name) {
            return true;
        }
    }
    false
}

/// Adds a record, unless it is a DNAME record that is there.
pub(crate) fn push_once<'a>(
    records: &mut Vec<Listed<'a>>,
    listed: Listed<'a>,
) -> Result<(), AllocError>
    ensures { OnOk result (records.new.items ≡ with_once records.old.items listed.entry) }
{
    if !listed.is_again(records.as_slice()) {
        records.push(listed)?;
    }
    Ok(())
}
