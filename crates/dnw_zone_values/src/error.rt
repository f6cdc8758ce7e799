//! Why a text gives no value.
use std::alloc::AllocError;
use thiserror::Error;

/// Why a text gives no value: what was wanted in its place, or that memory ran out.
#[derive(Debug, Clone, Copy, PartialEq, Eq, Error)]
pub enum FieldTextError {
    /// A decimal number up to this one was wanted: one or more digits and nothing else.
    #[error("wanted a decimal number of at most {0}")]
    Number(u64),
    /// Octets in hexadecimal were wanted: an even number of digits and nothing else.
    #[error("wanted octets in hexadecimal")]
    Hexadecimal,
    /// Octets in base 64 were wanted, with padding and nothing else.
    #[error("wanted octets in base 64")]
    Base64,
    /// A salt was wanted: `-`, or 1 to 255 octets in hexadecimal.
    #[error("wanted `-` or 1 to 255 octets in hexadecimal")]
    Salt,
    /// A time was wanted: 14 digits as YYYYMMDDHHmmSS, or a number of seconds.
    #[error("wanted YYYYMMDDHHmmSS from 1970 to 2106, or a number of seconds")]
    Time,
    /// A character string of at most 255 octets was wanted.
    #[error("wanted a character string of at most 255 octets")]
    CharacterString,
    /// A text of at most 65535 octets was wanted, written as a character string is.
    #[error("wanted a text of at most 65535 octets")]
    Text,
    /// A tag was wanted: 1 to 255 letters and digits.
    #[error("wanted 1 to 255 letters and digits")]
    Tag,
    /// A hashed name was wanted: 1 to 255 octets in base 32, without padding.
    #[error("wanted 1 to 255 octets in base 32")]
    Hash,
    /// An identifier was wanted: pairs of hexadecimal digits with hyphens between them.
    #[error("wanted pairs of hexadecimal digits with hyphens between them")]
    Pairs,
    /// An address prefix was wanted: `!` or nothing, a family of 1 or 2, `:`, an address, `/` and a number of bits.
    #[error("wanted an address prefix, as 1:192.0.2.0/24 or !2:2001:db8::/32")]
    Prefix,
    /// A locator was wanted: four groups of one to four hexadecimal digits with colons between them.
    #[error("wanted four groups of hexadecimal digits with colons between them")]
    Locator,
    /// An address of NSAP was wanted: `0x`, and octets in hexadecimal with any dots.
    #[error("wanted 0x and octets in hexadecimal, with dots or without")]
    Nsap,
    /// An IPv4 address was wanted.
    #[error("wanted an IPv4 address")]
    Ipv4,
    /// An IPv6 address was wanted.
    #[error("wanted an IPv6 address")]
    Ipv6,
    /// An allocation failed.
    #[error("out of memory")]
    Memory,
}

impl From<AllocError> for FieldTextError {
    ghost use Rattle.std.specs.Prelude.{◌≡◌};
    ghost use Rattle.dnw_zone_values.specs.declared.error.FieldTextError.TheVariants.{Memory};

    ghost from_gives = { λ _ e. e ≡ Memory };

    fn from(_: AllocError) -> Self {
        FieldTextError::Memory
    }
}
