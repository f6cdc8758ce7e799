//! The codes of the record types that rules name, as numbers; `specs/TypeCodes.antt` has the same words.
//!
//! `RecordType` is the type for callers. Here is what a rule compares with a code that was read: one constant for all crates.

/// A: an IPv4 address (RFC 1035, section 3.4.1).
pub const A: u16 = 1;

/// NS: a name server of a zone (RFC 1035, section 3.3.11).
pub const NS: u16 = 2;

/// CNAME: an alias (RFC 1035, section 3.3.1).
pub const CNAME: u16 = 5;

/// SOA: the start of a zone of authority (RFC 1035, section 3.3.13).
pub const SOA: u16 = 6;

/// PTR: a name that is pointed to (RFC 1035, section 3.3.12).
pub const PTR: u16 = 12;

/// MX: a mail server of a domain (RFC 1035, section 3.3.9).
pub const MX: u16 = 15;

/// SIG: a signature of records or of a message (RFC 2535, section 4; RFC 2931).
pub const SIG: u16 = 24;

/// KEY: a public key (RFC 2535, section 3).
pub const KEY: u16 = 25;

/// AAAA: an IPv6 address (RFC 3596, section 2.1).
pub const AAAA: u16 = 28;

/// NXT: the next name of a zone (RFC 2535, section 5).
pub const NXT: u16 = 30;

/// SRV: the host of a service (RFC 2782).
pub const SRV: u16 = 33;

/// DNAME: an alias of all names below one (RFC 6672).
pub const DNAME: u16 = 39;

/// OPT: what EDNS says of a message (RFC 6891, section 6.1.1).
pub const OPT: u16 = 41;

/// DS: a digest of a key of a zone below (RFC 4034, section 5).
pub const DS: u16 = 43;

/// RRSIG: a signature of a set of records (RFC 4034, section 3).
pub const RRSIG: u16 = 46;

/// NSEC: the next name of a zone (RFC 4034, section 4).
pub const NSEC: u16 = 47;

/// NSEC3: the next hashed name of a zone (RFC 5155, section 3).
pub const NSEC3: u16 = 50;

/// ZONEMD: a digest of a zone (RFC 8976, section 2).
pub const ZONEMD: u16 = 63;

/// TSIG: a signature of a message by a shared key (RFC 8945, section 4.2).
pub const TSIG: u16 = 250;

/// IXFR: a question for the changes of a zone (RFC 1995).
pub const IXFR: u16 = 251;

/// AXFR: a question for a whole zone (RFC 5936).
pub const AXFR: u16 = 252;

/// ANY: a question for records of all types (RFC 1035, section 3.2.3).
pub const ANY: u16 = 255;
