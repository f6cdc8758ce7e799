//! What zones are found to have that the standards forbid or advise against.
ghost use Rattle.std.specs.Prelude.{◌≡◌, ◌++◌, OnOk};
ghost use Rattle.dnw_zone_checks.specs.Findings.{check_number, if_so, is_error, apex_lack, listed, with_other};

use std::alloc::AllocError;
use thiserror::Error;

/// What a zone is against.
#[derive(Debug, Clone, Copy, PartialEq, Eq, Error)]
pub enum Check {
    /// A zone has a SOA record at its apex (RFC 1035, section 5.2).
    #[error("no SOA record is at the apex")]
    NoSoa,
    /// A zone has NS records at its apex (RFC 1034, section 4.2.1).
    #[error("no NS record is at the apex")]
    NoNs,
    /// The owners of a zone's records are the apex or below it (RFC 1034, section 4.2.1).
    #[error("the owner is not in the zone")]
    OutOfZone,
    /// The records of a zone have one class (RFC 1035, section 5.2).
    #[error("the class is not that of the first record")]
    OtherClass,
    /// A SOA record is at the apex (RFC 1034, section 4.2.1).
    #[error("a SOA record is not at the apex")]
    SoaElsewhere,
    /// A name has one record of type SOA (RFC 1035, section 5.2), CNAME (RFC 2181, section 10.1) or DNAME (RFC 6672, section 2.4).
    #[error("the owner has two records of a type of which there is one")]
    TwoOfOne,
    /// The records of a set have one time to live (RFC 2181, section 5.2), but for RRSIG records (RFC 4034, section 3).
    #[error("the time to live is not that of the set's first record")]
    OtherTtl,
    /// A name with a CNAME record has no other data (RFC 1034, section 3.6.2; RFC 2181, section 10.1), but for those of DNSSEC.
    #[error("the owner of a CNAME record has other data")]
    CnameAndOther,
    /// A DS record is at a delegation (RFC 4035, section 2.4).
    #[error("a DS record is not at a delegation")]
    DsElsewhere,
    /// No records are below the owner of a DNAME record (RFC 6672, section 2.4).
    #[error("the owner is below that of a DNAME record")]
    BelowDname,
    /// Below a delegation are the addresses of servers alone (RFC 1034, section 4.2.1).
    #[error("the owner is below a delegation, and the record is no address")]
    BelowDelegation,
    /// The owner of addresses or of an MX record is a name of a host (RFC 952; RFC 1123, section 2.1), or a wildcard.
    #[error("the owner is no name that hosts have")]
    NoHostName,
    /// The name of a server (NS, MX, SRV) is no alias (RFC 2181, section 10.3; RFC 2782).
    #[error("the name of a server is an alias")]
    ServerIsAlias,
    /// The name of a name server has an address in the zone, if the zone or a delegation itself needs it (RFC 1034, section 4.2.1;
    /// RFC 9471, section 3.1).
    #[error("the name of a server has no address in the zone")]
    NoAddress,
    /// A DNAME record is not beside NS records, but at the apex (RFC 6672, section 2.3).
    #[error("a DNAME record is beside NS records")]
    NsAndDname,
    /// The owner of an NS record is no wildcard (RFC 4592, section 4.2).
    #[error("the owner of an NS record is a wildcard")]
    WildcardNs,
    /// The digest of a DS, CDS or ZONEMD record has the length of its type (RFC 4034, section 5.1.3; RFC 8976, section 2.2.4).
    #[error("the digest does not have the length of its type")]
    DigestLength,
    /// The tag of a CAA record has letters and digits, at least one (RFC 8659, section 4.1).
    #[error("the tag has other octets than letters and digits, or none")]
    CaaTag,
    /// The name of a server is not the text of an address (RFC 1035, sections 3.3.9 and 3.3.11).
    #[error("the name of a server is the text of an address")]
    ServerIsAddress,
    /// The name of a name server that is of another delegation of the zone may have an address (RFC 9471, section 3.2).
    #[error("the name of a server, of another delegation, has no address in the zone")]
    NoSiblingGlue,
    /// The host of an MX or SRV record that is in the zone has an address (RFC 5321, section 5.1; RFC 2782).
    #[error("the name of a host has no address in the zone")]
    NoServerAddress,
}

impl Check {
    /// Returns the number of the check, from 1, in the order in which they stand here. It stays the same in later versions.
    pub fn number(self) -> u8
        ensures { result ≡ check_number self }
    {
        match self {
            Check::NoSoa => 1,
            Check::NoNs => 2,
            Check::OutOfZone => 3,
            Check::OtherClass => 4,
            Check::SoaElsewhere => 5,
            Check::TwoOfOne => 6,
            Check::OtherTtl => 7,
            Check::CnameAndOther => 8,
            Check::DsElsewhere => 9,
            Check::BelowDname => 10,
            Check::BelowDelegation => 11,
            Check::NoHostName => 12,
            Check::ServerIsAlias => 13,
            Check::NoAddress => 14,
            Check::NsAndDname => 15,
            Check::WildcardNs => 16,
            Check::DigestLength => 17,
            Check::CaaTag => 18,
            Check::ServerIsAddress => 19,
            Check::NoSiblingGlue => 20,
            Check::NoServerAddress => 21,
        }
    }

    /// Returns `true` if servers refuse such a zone, or serve it wrong, and `false` if they serve it.
    pub fn is_error(self) -> bool
        ensures { result ≡ is_error self }
    {
        !matches!(
            self,
            Check::OtherTtl
                | Check::BelowDelegation
                | Check::NoHostName
                | Check::WildcardNs
                | Check::ServerIsAddress
                | Check::NoSiblingGlue
                | Check::NoServerAddress
        )
    }
}

/// What was found, of which record.
#[derive(Debug, Clone, Copy, PartialEq, Eq)]
pub struct Finding {
    /// What the zone is against.
    pub check: Check,
    /// The number of the record, from 0, if it is about one.
    pub number: Option<usize>,
    /// The number of another record, if the finding is about two.
    pub other: Option<usize>,
}

/// Adds a finding, if there is one.
pub(crate) fn add(found: &mut Vec<Finding>, one: Option<Finding>) -> Result<(), AllocError>
    ensures { OnOk result (found.new.items ≡ found.old.items ++ listed one) }
{
    if let Some(one) = one {
        found.push(one)?;
    }
    Ok(())
}

/// Returns that a zone lacks a record at its apex, if there is none.
pub(crate) fn apex_lack(check: Check, first: Option<usize>) -> Option<Finding>
    ensures { result ≡ apex_lack check first }
{
    match first {
        Some(_) => None,
        None => Some(Finding {
            check,
            number: None,
            other: None,
        }),
    }
}

/// Returns a finding of a record, if it holds.
pub(crate) fn if_so(check: Check, number: usize, holds: bool) -> Option<Finding>
    ensures { result ≡ if_so check number holds }
{
    if holds {
        Some(Finding {
            check,
            number: Some(number),
            other: None,
        })
    } else {
        None
    }
}

/// Returns a finding of a record and another, if there is another.
pub(crate) fn with_other(check: Check, number: usize, other: Option<usize>) -> Option<Finding>
    ensures { result ≡ with_other check number other }
{
    match other {
        Some(_) => Some(Finding {
            check,
            number: Some(number),
            other,
        }),
        None => None,
    }
}
