//! Why octets are no option with a code.
use std::alloc::AllocError;
use thiserror::Error;

/// Why octets are not what an option with their code has, or what is to be written is not.
#[derive(Debug, Clone, Copy, PartialEq, Eq, Error)]
pub enum OptionError {
    /// No option with this code has so many octets.
    #[error("wrong number of octets")]
    Length,
    /// A prefix is longer than an address of its family (RFC 7871, section 6).
    #[error("prefix longer than an address")]
    Prefix,
    /// An address has a bit after its prefix that is not zero (RFC 7871, section 6).
    #[error("bits after the prefix")]
    Bits,
    /// The octets are not the wire form of a name (RFC 1035, section 3.1).
    #[error("not a name in its wire form")]
    Name,
    /// A text is not UTF-8 (RFC 8914, section 2).
    #[error("not UTF-8")]
    Text,
    /// An option of which nothing is known has a code that has a name.
    #[error("a code with a name")]
    Named,
    /// An allocation failed.
    #[error("out of memory")]
    Memory,
}

impl From<AllocError> for OptionError {
    ghost use Rattle.std.specs.Prelude.{◌≡◌};
    ghost use Rattle.dnw_message_read.specs.declared.option_error.OptionError.TheVariants.{Memory};

    ghost from_gives = { λ _ e. e ≡ Memory };

    fn from(_: AllocError) -> Self {
        OptionError::Memory
    }
}
