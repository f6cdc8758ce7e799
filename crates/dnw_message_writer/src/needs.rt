//! What a message cannot do without, and what it may leave out if it has no room.
//!
//! Read `specs/Needs.antt` first: it has each case with its RFC.
ghost use Rattle.std.specs.Prelude.{◌≡◌};
ghost use Rattle.dnw_message_writer.specs.Needs.{with_asked, covers_servers, first_cut, is_answered, is_of_address, is_asked, is_below, is_below_cut, is_glue, is_of_query, is_extra, is_server, last_data, signs_servers, is_request, is_required, is_required_in, is_transfer, is_uncut, purpose_by, holding};

use crate::reply::field_at;
use crate::section::Section;
use dnw_base::limits::MAX_NAME;
use dnw_base::record_type::RecordType;
use dnw_name::name_ref::NameRef;
use dnw_name_order::order::is_zone_of;
use dnw_record::record_ref::RecordRef;

/// What a message is for: what decides which of its records it cannot do without.
///
/// It is made of the flags, and then of the questions and the records, in their order.
#[derive(Drop)]
pub struct Purpose<'m> {
    /// The flags of the header.
    pub flags: u16,
    /// The code of the type that the first question asks for.
    pub asked: Option<u16>,
    /// The last answer of that type.
    pub found: Option<RecordRef<'m>>,
    /// The first NS of the authority section.
    pub cut: Option<RecordRef<'m>>,
}

impl<'m> Purpose<'m> {
    /// Creates that of a message with these flags, of which nothing else is known.
    pub fn new(flags: u16) -> Self
        ensures { result ≡ purpose_by flags }
    {
        Purpose {
            flags,
            asked: None,
            found: None,
            cut: None,
        }
    }

    /// Takes a question of the message, by the code of its type.
    pub fn ask(&mut self, query_type: u16)
        ensures { self.new ≡ with_asked query_type self.old }
    {
        if self.asked.is_none() {
            self.asked = Some(query_type);
        }
    }

    /// Takes a record of a section of the message.
    pub fn take(&mut self, section: Section, item: RecordRef<'m>)
        ensures { self.new ≡ holding section item.entry self.old }
    {
        match section {
            Section::Answers => {
                if is_asked(self.asked, item.record_type().code()) {
                    self.found = Some(item);
                }
            }
            Section::Authorities => {
                if self.cut.is_none() && item.record_type().code() == RecordType::NS.code() {
                    self.cut = Some(item);
                }
            }
            Section::Queries | Section::Additionals => {}
        }
    }

    /// Returns `true` if nothing of the message is ever left out: it is a request, or part of a transfer.
    pub fn is_uncut(&self) -> bool
        ensures { result ≡ is_uncut self.now }
    {
        is_request(self.flags) || is_transfer(self.asked)
    }

    /// Returns `true` if the message has to have this record of a section. The signatures of servers go with them: `out` is whether a
    /// server of the section is left out before the record, as `is_server` says of each.
    pub fn is_required(&self, section: Section, out: bool, item: &RecordRef<'_>) -> bool
        ensures { result ≡ is_required section self.now out item.now }
    {
        !is_of_query(self.flags) || self.is_required_in(section, out, item)
    }

    /// Returns `true` if the response to a query has to have this record of a section.
    fn is_required_in(&self, section: Section, out: bool, item: &RecordRef<'_>) -> bool
        ensures { result ≡ is_required_in section self.now out item.now }
    {
        match section {
            Section::Queries | Section::Answers => true,
            Section::Authorities => !(self.is_answered() && is_extra(out, item)),
            Section::Additionals => !self.is_answered() && self.is_glue(item),
        }
    }

    /// Returns `true` if the answer ends in data of the zone whose servers the message has.
    fn is_answered(&self) -> bool
        ensures { result ≡ is_answered self.now }
    {
        let Some(found) = &self.found else {
            return false;
        };
        self.is_below_cut(found)
    }

    /// Returns `true` for an address at the cut or below it.
    fn is_glue(&self, item: &RecordRef<'_>) -> bool
        ensures { result ≡ is_glue self.now.cut item.now }
    {
        is_of_address(item) && self.is_below_cut(item)
    }

    /// Returns `true` if the owner of a record is at the cut or below it.
    fn is_below_cut(&self, item: &RecordRef<'_>) -> bool
        ensures { result ≡ is_below_cut self.now.cut item.now }
    {
        let Some(cut) = &self.cut else {
            return false;
        };
        is_below(cut.owner(), item.owner())
    }
}

/// Returns `true` if records of a type are asked for.
fn is_asked(asked: Option<u16>, code: u16) -> bool
    ensures { result ≡ is_asked asked code }
{
    let Some(asked) = asked else {
        return false;
    };
    code == asked || asked == RecordType::ANY.code()
}

/// Returns `true` for the flags of a request.
fn is_request(flags: u16) -> bool
    ensures { result ≡ is_request flags }
{
    flags < 0x8000
}

/// Returns `true` if a transfer is asked for.
fn is_transfer(asked: Option<u16>) -> bool
    ensures { result ≡ is_transfer asked }
{
    let Some(asked) = asked else {
        return false;
    };
    asked == RecordType::AXFR.code() || asked == RecordType::IXFR.code()
}

/// Returns `true` for the flags of a query, or of a response to one.
fn is_of_query(flags: u16) -> bool
    ensures { result ≡ is_of_query flags }
{
    flags / 2048 % 16 == 0
}

/// Returns `true` for a server, and for what signs servers if one of them is left out before it.
fn is_extra(out: bool, item: &RecordRef<'_>) -> bool
    ensures { result ≡ is_extra out item.now }
{
    is_server(item) || (out && signs_servers(item))
}

/// Returns `true` for a server of a zone: NS (RFC 1035, section 3.3.11).
pub fn is_server(item: &RecordRef<'_>) -> bool
    ensures { result ≡ is_server item.now }
{
    item.record_type().code() == RecordType::NS.code()
}

/// Returns `true` for what signs the servers of a zone.
pub(crate) fn signs_servers(item: &RecordRef<'_>) -> bool
    ensures { result ≡ signs_servers item.now }
{
    item.record_type().code() == RecordType::RRSIG.code() && covers_servers(item.rdata())
}

/// Returns `true` if the type that the data of an RRSIG cover, which their first two octets are, is NS.
fn covers_servers(octets: &[u8]) -> bool
    ensures { result ≡ covers_servers octets.now }
{
    octets.len() >= 2 && field_at(octets, 0) == RecordType::NS.code()
}

/// Returns `true` for an address.
fn is_of_address(item: &RecordRef<'_>) -> bool
    ensures { result ≡ is_of_address item.now }
{
    let code = item.record_type().code();
    code == RecordType::A.code() || code == RecordType::AAAA.code()
}

/// Returns `true` if the last labels of a name are those of a cut, ignoring case.
#[inline(never)]
fn is_below(cut: &NameRef<'_>, name: &NameRef<'_>) -> bool
    ensures { result ≡ is_below cut.now name.now }
{
    let mut room = [0; MAX_NAME];
    let mut other_room = [0; MAX_NAME];
    is_zone_of(
        cut.wire_labels(&mut room),
        name.wire_labels(&mut other_room),
    )
}
