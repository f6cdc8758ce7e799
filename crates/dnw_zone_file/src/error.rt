//! Why an entry of a zone file is none, and where.
use dnw_zone_record::record_line::RecordLineError;
use dnw_zone_record::word_error::WordRule;
use thiserror::Error;

/// A rule for the entries of zone files (RFC 1035, section 5.1).
#[derive(Debug, Clone, Copy, PartialEq, Eq, Error)]
pub enum ZoneRule {
    /// Quotes, escapes and parentheses are closed.
    #[error("{0}")]
    Words(WordRule),
    /// The first record of a file has an owner.
    #[error("no owner is there, nor in an entry before")]
    NoOwner,
    /// The owner is a name.
    #[error("the owner is no name")]
    BadOwner,
    /// A record has a time to live, or `$TTL` or a record before it has one, or the caller gives one, or it is an SOA.
    #[error("no time to live is there, nor in an entry before")]
    NoTimeToLive,
    /// A record has a type.
    #[error("no type is there")]
    NoType,
    /// The type of a record has a name that is known, or is `TYPE` with a number.
    #[error("the type is unknown")]
    UnknownType,
    /// OPT, and types of 128 to 255 as ANY and TSIG, are none of a zone (RFC 6895, section 3.1).
    #[error("no zone has records of this type")]
    OtherType,
    /// A time to live is at most 2147483647 seconds (RFC 2181, section 8).
    #[error("the time is too large")]
    TimeTooLarge,
    /// An entry that begins with `$` is `$ORIGIN`, `$TTL` or `$INCLUDE`.
    #[error("no entry has this name")]
    UnknownDirective,
    /// `$GENERATE` is BIND's, and is not read.
    #[error("$GENERATE is not read")]
    Generate,
    /// `$ORIGIN` has a name, and `$INCLUDE` may have one.
    #[error("no name is there")]
    NoName,
    /// `$TTL` has a time.
    #[error("no time is there")]
    NoTime,
    /// `$INCLUDE` has a file.
    #[error("no file is there")]
    NoFile,
    /// Nothing more is in the entry.
    #[error("more words are there")]
    WordsLeft,
    /// `$GENERATE` has a range, as `1-10` or `0-100/2`.
    #[error("no range is there")]
    NoRange,
    /// `$GENERATE` stands for no more records than the caller allows.
    #[error("more records than the limit")]
    TooMany,
    /// A `$` of a template is alone, or before `{offset,width,base}`.
    #[error("wanted $ or ${{offset,width,base}}")]
    BadTemplate,
}

/// Why an entry is none, and where.
#[derive(Debug, Drop, Error)]
pub enum ZoneError {
    /// The entry is against a rule.
    #[error("at offset {offset}: {rule}")]
    Wrong {
        /// The offset, in octets, of what is against the rule, or of what it is wanted before.
        offset: usize,
        /// The rule.
        rule: ZoneRule,
    },
    /// The text after the type is no data of the class and type, or memory ran out. Its offset is counted in the entry.
    #[error("{0}")]
    Data(RecordLineError),
    /// An allocation failed.
    #[error("out of memory")]
    Memory,
}
