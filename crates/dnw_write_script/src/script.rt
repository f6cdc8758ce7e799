//! Scripts: messages that are written step by step, with a reply to each step.
use crate::wire_record::WireRecord;
use dnw_base::error::ProtoError;
use dnw_name::name::Name;
use dnw_write::encoder::NameEncoding;

mod emit;
pub mod laws;
mod running;

pub use running::{run, run_limited};

/// A step of a script.
#[derive(Debug, Drop)]
pub enum Step {
    /// Writes a name in the mode in force.
    Name(Name),
    /// Writes a byte.
    U8(u8),
    /// Writes a number in network byte order.
    U16(u16),
    /// Writes a number in network byte order, as its two's complement.
    I32(i32),
    /// Writes a number in network byte order.
    U32(u32),
    /// Writes bytes.
    Bytes(Vec<u8>),
    /// Writes character data: a length octet and at most 255 bytes (RFC 1035, section 3.3).
    Text(Vec<u8>),
    /// Sets the maximum size of the buffer for the steps after it.
    Max(u16),
    /// Sets how names are written after it.
    Encoding(NameEncoding),
    /// Sets whether the data of records after it are written in canonical form (RFC 4034, section 6.2). At first they are
    /// not.
    Canonical(bool),
    /// Reserves a placeholder of two bytes, which are zero until it is filled. Placeholders are numbered from 0.
    Reserve,
    /// Fills a placeholder, once.
    Fill {
        /// The placeholder's number.
        place: usize,
        /// The value, written in network byte order.
        value: u16,
    },
    /// Writes a record, its owner in the mode in force, or nothing of it if it fails.
    Record(WireRecord),
    /// Writes items in turn. The first one that fails is rolled back, and those after it are not written.
    Items(Vec<Item>),
}

/// An item: parts that are written or rolled back together.
#[derive(Debug, Drop)]
pub struct Item {
    /// How its names are written, if not in the mode in force.
    pub encoding: Option<NameEncoding>,
    /// Its parts, in their order.
    pub parts: Vec<Part>,
}

/// A part of an item.
#[derive(Debug, Drop)]
pub enum Part {
    /// A name.
    Name(Name),
    /// A byte.
    U8(u8),
    /// A number in network byte order.
    U16(u16),
    /// A number in network byte order, as its two's complement.
    I32(i32),
    /// A number in network byte order.
    U32(u32),
    /// Bytes.
    Bytes(Vec<u8>),
    /// Character data: a length octet and at most 255 bytes (RFC 1035, section 3.3).
    Text(Vec<u8>),
}

/// The reply to a step.
#[derive(Debug, Drop)]
pub enum Reply {
    /// The step was done.
    Done {
        /// The length of the buffer after the step.
        len: usize,
    },
    /// The step failed and changed nothing, except that a placeholder that was to be filled is used up.
    Refused {
        /// Why.
        error: ProtoError,
        /// The length of the buffer after the step.
        len: usize,
    },
    /// There is no placeholder of this number, or it is used up.
    NoPlace,
    /// Items were written.
    Items {
        /// Their number.
        count: usize,
        /// Why the next one failed, if it did.
        error: Option<ProtoError>,
        /// The length of the buffer after the step.
        len: usize,
    },
}
