//! Why a message is no answer.

use dns_names_wire::message::ResponseCode;
use thiserror::Error;

/// Why a message is no answer to a question.
#[derive(Debug, Clone, Copy, PartialEq, Eq, Error)]
pub enum Reason {
    /// It is a query (RFC 1035, section 4.1.1).
    #[error("the message is a query")]
    NotAResponse,
    /// It has another question, or none, or several (RFC 9619).
    #[error("the message does not have the question alone")]
    OtherQuestion,
    /// Its response code is neither NOERROR nor NXDOMAIN (RFC 1035, section 4.1.1).
    #[error("the server reports {code:?}")]
    Failed {
        /// The response code, with the high bits of EDNS.
        code: ResponseCode,
    },
    /// It was cut to the size that may be sent (RFC 2181, section 9).
    #[error("the message is truncated")]
    Truncated,
    /// The name is not in the zone.
    #[error("the name is not in the zone")]
    OtherZone,
    /// The data of an alias are no name, or DNAME makes a name that is too long (RFC 6672, section 2.2).
    #[error("an alias leads to no name")]
    NoTarget,
    /// A CNAME record is not the one that the DNAME record beside it makes (RFC 6672, section 3.1).
    #[error("a CNAME record is not the one that DNAME makes")]
    WrongAlias,
    /// More than [`MAX_ALIASES`](crate::meaning::MAX_ALIASES) aliases follow one another, or they are a loop (RFC 1034, section 3.6.2).
    #[error("too many aliases, or a loop of them")]
    TooManyAliases,
}
