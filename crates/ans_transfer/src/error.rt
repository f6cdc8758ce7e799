//! Why a message is no part of a transfer.

use dns_names_wire::message::ResponseCode;
use thiserror::Error;

/// Why a message is no part of a transfer.
#[derive(Debug, Clone, Copy, PartialEq, Eq, Error)]
pub enum TransferError {
    /// It has another ID than the request (RFC 5936, section 2.2.1).
    #[error("the message has another ID")]
    OtherId,
    /// It is a query (RFC 1035, section 4.1.1).
    #[error("the message is a query")]
    NotAResponse,
    /// Its response code is not NOERROR (RFC 5936, section 2.2).
    #[error("the server reports {code:?}")]
    Failed {
        /// The response code, with the high bits of EDNS.
        code: ResponseCode,
    },
    /// It was cut to the size that may be sent (RFC 5936, section 2.2.1).
    #[error("the message is truncated")]
    Truncated,
    /// It has another question, or several, or it is the first message and has none (RFC 5936, section 2.2.2).
    #[error("the message does not have the question alone")]
    OtherQuestion,
    /// A record has another class than the zone.
    #[error("a record has another class")]
    OtherClass,
    /// The owner of a record is not in the zone.
    #[error("a record is not in the zone")]
    OutOfZone,
    /// The owner of an SOA record is below the zone's apex (RFC 1034, section 4.2.1).
    #[error("an SOA record is below the apex")]
    SoaBelow,
    /// The data of an SOA record are too short to be any (RFC 1035, section 3.3.13).
    #[error("the data of an SOA record are too short")]
    ShortSoa,
    /// The first record is not the zone's SOA record, or the first message has no record (RFC 5936, section 2.2).
    #[error("the transfer does not begin with an SOA record")]
    NoSoa,
    /// An SOA record has another serial number than the one that may be there (RFC 5936, section 2.2; RFC 1995, section 4).
    #[error("an SOA record has another serial number")]
    OtherSerial,
    /// A record or a message follows the end of the transfer.
    #[error("a record follows the end of the transfer")]
    AfterEnd,
}
