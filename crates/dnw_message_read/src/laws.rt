//! What follows from the definitions of headers and messages, for callers' proofs.
//!
//! The functions do nothing. Each is there for its clauses.
ghost use Rattle.dnw_message_read.specs.HeaderLaws.{HeadersReadBack, HeadersWriteBack};
ghost use Rattle.dnw_message_read.specs.MessageLaws.{OneMessage, MessagesDontFail, OneMessageError};

/// A header that is written and read is the same but for what four bits don't hold of its codes. Octets that are read and
/// written are the same but for the reserved bit.
pub fn headers_come_back()
    ensures read { HeadersReadBack }
    ensures written { HeadersWriteBack }
{}

/// Octets begin with one message at most, or reading them fails with one error.
pub fn one_message()
    ensures one_message { OneMessage }
    ensures not_both { MessagesDontFail }
    ensures one_fault { OneMessageError }
{}
