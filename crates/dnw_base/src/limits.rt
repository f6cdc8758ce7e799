//! The limits of labels, names, records and messages.

/// The most octets of a label (RFC 1035, section 2.3.4).
pub const MAX_LABEL: usize = 63;

/// The most octets of a name in its wire form, length octets and closing zero included (RFC 1035, section 2.3.4).
pub const MAX_NAME: usize = 255;

/// The most octets of character data, without its length octet (RFC 1035, section 3.3).
pub const MAX_CHARACTER_DATA: usize = 255;

/// The size of a message that no write goes past unless another is set (RFC 1035, section 4.2.2).
pub const MAX_MESSAGE: u16 = 65535;

/// The most compression pointers that the names of one message follow, unless another limit is set. It is far more than
/// ordinary messages need.
pub const MAX_POINTERS: usize = 65536;

/// The least size of a message that a sender can be taken to accept, in octets (RFC 6891, section 6.2.3).
pub const MIN_PAYLOAD: u16 = 512;

/// The most octets of the data of a record (RFC 1035, section 3.2.1).
pub const MAX_DATA: usize = 65535;

/// The most octets of a window in a bitmap of record types (RFC 4034, section 4.1.2).
pub const MAX_WINDOW: usize = 32;

/// The first octet from which on an element of a name is a compression pointer (RFC 1035, section 4.1.4).
pub const POINTER_BITS: u8 = 192;

/// A compression pointer holds 14 bits, and so one of as many offsets (RFC 1035, section 4.1.4).
pub const POINTER_OFFSETS: usize = 16384;

/// Names that end before this offset are kept for compression: a pointer holds 14 bits (RFC 1035, section 4.1.4).
pub const POINTER_REACH: usize = POINTER_OFFSETS - 1;
