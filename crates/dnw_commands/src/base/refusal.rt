//! Why there is no answer.

use crate::base::misuse::Misuse;
use dns_names_wire::data_text::RecordEntryError;
use dns_names_wire::dnssec::DnssecError;
use dns_names_wire::message::MessageError;
use dns_names_wire::message_writer::WriteError;
use dns_names_wire::name_text::NameTextError;
use dns_names_wire::rdata::RDataError;
use dns_names_wire::zone::CheckError;
use dns_names_wire::{DecodeError, ProtoError};
use std::alloc::{AllocError, AllocFailed};
use std::io;
use thiserror::Error;

/// Why there is no answer.
#[derive(Debug, Drop, Error)]
pub(crate) enum Refusal {
    /// The words ask for nothing that the program does.
    #[error("{0}")]
    Usage(Misuse),
    /// The words could not be read.
    #[error("the words are not read: {0}")]
    Words(io::Error),
    /// The answer could not be written.
    #[error("the answer is not written: {0}")]
    Output(io::Error),
    /// A file, or standard input, could not be opened or read.
    #[error("refused: {file}: {error}")]
    File {
        /// The file.
        file: String,
        /// What is wrong.
        error: io::Error,
    },
    /// The system gave no random octets.
    #[error("refused: no random id: {0}")]
    Chance(io::Error),
    /// A name was refused, or memory ran out.
    #[error("refused: {0}")]
    Proto(ProtoError),
    /// A text gives no name.
    #[error("refused: {0}")]
    Name(NameTextError),
    /// A message was refused.
    #[error("refused: {0}")]
    Message(MessageError),
    /// There is something else than hexadecimal digits, two for each octet.
    #[error("refused: wanted hexadecimal digits, two for each octet")]
    Digits,
    /// A line is not UTF-8.
    #[error("refused: wanted UTF-8")]
    NoText,
    /// A stream of messages ends within a length or a message.
    #[error("refused: wanted {wanted} octets, found {found}")]
    Cut {
        /// How many octets the length, or the message, has.
        wanted: usize,
        /// How many are left.
        found: usize,
    },
    /// What is to be read at once is too long.
    #[error("refused: more than {0} octets")]
    TooLong(usize),
    /// The options of a query are too many.
    #[error("refused: the options have more than 32768 octets")]
    Options,
    /// A name or a record could not be read.
    #[error("refused: {0}")]
    Decode(DecodeError),
    /// A message has no room for an item.
    #[error("refused: {0}")]
    Write(WriteError),
    /// A text is no record.
    #[error("refused: {0}")]
    Entry(RecordEntryError),
    /// The data of a record are not those of its type.
    #[error("refused: {0}")]
    Data(RDataError),
    /// There is no sum.
    #[error("refused: {0}")]
    Sum(DnssecError),
    /// A zone is not checked.
    #[error("refused: {0}")]
    Check(CheckError),
}

impl From<Misuse> for Refusal {
    ghost use Rattle.std.specs.Prelude.{◌≡◌};
    ghost use Rattle.dnw_commands.specs.declared.base.refusal.Refusal.TheVariants.{Usage};

    ghost from_gives = { λ error refusal. refusal ≡ Usage error };

    fn from(e: Misuse) -> Self {
        Refusal::Usage(e)
    }
}

impl From<NameTextError> for Refusal {
    ghost use Rattle.std.specs.Prelude.{◌≡◌};
    ghost use Rattle.dnw_commands.specs.declared.base.refusal.Refusal.TheVariants.{Name};

    ghost from_gives = { λ error refusal. refusal ≡ Name error };

    fn from(e: NameTextError) -> Self {
        Refusal::Name(e)
    }
}

impl From<ProtoError> for Refusal {
    ghost use Rattle.std.specs.Prelude.{◌≡◌};
    ghost use Rattle.dnw_commands.specs.declared.base.refusal.Refusal.TheVariants.{Proto};

    ghost from_gives = { λ error refusal. refusal ≡ Proto error };

    fn from(e: ProtoError) -> Self {
        Refusal::Proto(e)
    }
}

impl From<MessageError> for Refusal {
    ghost use Rattle.std.specs.Prelude.{◌≡◌};
    ghost use Rattle.dnw_commands.specs.declared.base.refusal.Refusal.TheVariants.{Message};

    ghost from_gives = { λ error refusal. refusal ≡ Message error };

    fn from(e: MessageError) -> Self {
        Refusal::Message(e)
    }
}

impl From<DecodeError> for Refusal {
    ghost use Rattle.std.specs.Prelude.{◌≡◌};
    ghost use Rattle.dnw_commands.specs.declared.base.refusal.Refusal.TheVariants.{Decode};

    ghost from_gives = { λ error refusal. refusal ≡ Decode error };

    fn from(e: DecodeError) -> Self {
        Refusal::Decode(e)
    }
}

impl From<WriteError> for Refusal {
    ghost use Rattle.std.specs.Prelude.{◌≡◌};
    ghost use Rattle.dnw_commands.specs.declared.base.refusal.Refusal.TheVariants.{Write};

    ghost from_gives = { λ error refusal. refusal ≡ Write error };

    fn from(e: WriteError) -> Self {
        Refusal::Write(e)
    }
}

impl From<RecordEntryError> for Refusal {
    ghost use Rattle.std.specs.Prelude.{◌≡◌};
    ghost use Rattle.dnw_commands.specs.declared.base.refusal.Refusal.TheVariants.{Entry};

    ghost from_gives = { λ error refusal. refusal ≡ Entry error };

    fn from(e: RecordEntryError) -> Self {
        Refusal::Entry(e)
    }
}

impl From<RDataError> for Refusal {
    ghost use Rattle.std.specs.Prelude.{◌≡◌};
    ghost use Rattle.dnw_commands.specs.declared.base.refusal.Refusal.TheVariants.{Data};

    ghost from_gives = { λ error refusal. refusal ≡ Data error };

    fn from(e: RDataError) -> Self {
        Refusal::Data(e)
    }
}

impl From<DnssecError> for Refusal {
    ghost use Rattle.std.specs.Prelude.{◌≡◌};
    ghost use Rattle.dnw_commands.specs.declared.base.refusal.Refusal.TheVariants.{Sum};

    ghost from_gives = { λ error refusal. refusal ≡ Sum error };

    fn from(e: DnssecError) -> Self {
        Refusal::Sum(e)
    }
}

impl From<CheckError> for Refusal {
    ghost use Rattle.std.specs.Prelude.{◌≡◌};
    ghost use Rattle.dnw_commands.specs.declared.base.refusal.Refusal.TheVariants.{Check};

    ghost from_gives = { λ error refusal. refusal ≡ Check error };

    fn from(e: CheckError) -> Self {
        Refusal::Check(e)
    }
}

impl<T: Drop> From<AllocFailed<T>> for Refusal {
    ghost use Rattle.dnw_commands.specs.Refusals.{IsMemory};

    ghost from_gives = { λ _ refusal. IsMemory refusal };

    fn from(_: AllocFailed<T>) -> Self {
        Refusal::Proto(ProtoError::Memory)
    }
}

impl From<AllocError> for Refusal {
    ghost use Rattle.dnw_commands.specs.Refusals.{IsMemory};

    ghost from_gives = { λ _ refusal. IsMemory refusal };

    fn from(_: AllocError) -> Self {
        Refusal::Proto(ProtoError::Memory)
    }
}
