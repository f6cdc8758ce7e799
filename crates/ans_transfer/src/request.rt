//! Requests for transfers.
ghost use Rattle.std.specs.Prelude.{◌≡◌};
ghost use Rattle.dns_names_wire.specs.Words.{class_code};
ghost use Rattle.ans_transfer.specs.Places.{kind_code};

use dns_names_wire::Name;
use dns_names_wire::codes::{DNSClass, SerialNumber};
use dns_names_wire::type_codes::{AXFR, IXFR};
use std::marker::Model;

/// What is asked for of a zone.
#[derive(Debug, Clone, Copy, PartialEq, Eq)]
pub enum Kind {
    /// The whole zone (RFC 5936).
    Axfr,
    /// Its changes since the version with this serial number, which the client has. The server may send the whole zone (RFC 1995).
    Ixfr {
        /// The serial number of the client's version.
        serial: SerialNumber,
    },
}

impl Kind {
    /// Returns the code of the type that a question has for it: AXFR or IXFR.
    pub fn code(&self) -> u16
        ensures { result ≡ kind_code self.now }
    {
        match self {
            Kind::Axfr => AXFR,
            Kind::Ixfr { .. } => IXFR,
        }
    }
}

/// A request for a transfer.
///
/// A contract sees it as the labels of the zone's name, the code of its class, what is asked for, and the ID.
#[derive(Drop)]
pub struct Request<'a> {
    zone: &'a Name,
    class: u16,
    kind: Kind,
    id: u16,
}

impl<'a> Model for Request<'a> {
    ghost use Rattle.ans_transfer.specs.Transfers.{RequestValue};

    ghost Value = { RequestValue };

    ghost view = { λ a. record { zone = a.zone.now.labels; class = a.class; kind = a.kind; id = a.id } };
}

impl<'a> Request<'a> {
    /// Creates a request with an ID for a transfer of the zone with this name and class.
    pub fn new(zone: &'a Name, class: DNSClass, kind: Kind, id: u16) -> Self
        ensures { result ≡ record { zone = zone.now.labels; class = class_code class; kind = kind; id = id } }
    {
        Request {
            zone,
            class: class.code(),
            kind,
            id,
        }
    }

    /// Returns the name of the zone.
    #[inline(always)]
    pub fn zone(&self) -> &'a Name
        ensures { result.now.labels ≡ self.now.zone }
    {
        self.zone
    }

    /// Returns the code of the zone's class.
    #[inline(always)]
    pub fn class(&self) -> u16
        ensures { result ≡ self.now.class }
    {
        self.class
    }

    /// Returns what is asked for.
    #[inline(always)]
    pub fn kind(&self) -> Kind
        ensures { result ≡ self.now.kind }
    {
        self.kind
    }

    /// Returns the ID.
    #[inline(always)]
    pub fn id(&self) -> u16
        ensures { result ≡ self.now.id }
    {
        self.id
    }
}
