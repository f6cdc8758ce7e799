//! The errors of this layer.
ghost use Rattle.std.specs.Prelude.{◌≡◌, IfOk, IfErr, IsOk};

use crate::record_type::RecordType;
use std::alloc::{AllocError, AllocFailed};
use thiserror::Error;

/// What most calls of this layer return.
pub type ProtoResult<T> = Result<T, ProtoError>;

/// Why a call failed.
#[derive(Debug, Drop, Error)]
pub enum ProtoError {
    /// Character data has a length octet, and no room for more than `max` octets.
    #[error("char data length exceeds {max}: {len}")]
    CharacterDataTooLong {
        /// The most octets that are allowed.
        max: usize,
        /// The octets that there were.
        len: usize,
    },
    /// Bytes that could not be read.
    #[error("decoding error: {0}")]
    Decode(DecodeError),
    /// A write would have made the message longer than its maximum size, which is given in octets.
    #[error("maximum buffer size exceeded: {0}")]
    MaxBufferSizeExceeded(usize),
    /// Any other cause, as a fixed text.
    #[error("{0}")]
    Message(&'static str),
    /// Any other cause, as an allocated text.
    #[error("{0}")]
    Msg(String),
    /// A list did not fit into the message.
    #[error("not all records could be written, wrote: {count}")]
    NotAllRecordsWritten {
        /// How many of its items were written.
        count: usize,
    },
    /// A response whose flag says that it is a query.
    #[error("response received with incorrect QR flag")]
    NotAResponse,
    /// Bytes that are not UTF-8.
    #[error("error parsing utf8 string")]
    Utf8,
    /// Owned bytes that are not UTF-8.
    #[error("error parsing utf8 string")]
    FromUtf8,
    /// A text that is not a number of its type.
    #[error("error parsing int")]
    ParseInt,
    /// An allocation failed.
    #[error("out of memory")]
    Memory,
}

/// Why bytes could not be read.
#[derive(Debug, Drop, Error)]
pub enum DecodeError {
    /// Record data took more or fewer octets than its length said.
    #[error("incorrect rdata length read: {read} expected: {len}")]
    IncorrectRDataLengthRead {
        /// The octets that were read.
        read: usize,
        /// The octets that the length promised.
        len: usize,
    },
    /// The message ends too early.
    #[error("unexpected end of input reached")]
    InsufficientBytes,
    /// A record without data in a message that is not an update.
    #[error("unexpected record with length 0 in non-update message")]
    InvalidEmptyRecord,
    /// A slice was requested that begins after the cursor.
    #[error("the index passed to BinDecoder::slice_from must be greater than the decoder position")]
    InvalidPreviousIndex,
    /// A compression pointer that does not point before its own segment (RFC 1035, section 4.1.4).
    #[error("label points to data not prior to idx: {idx} ptr: {ptr}")]
    PointerNotPriorToLabel {
        /// The offset of the pointer.
        idx: usize,
        /// The offset that it points to.
        ptr: u16,
    },
    /// A label of more than 63 octets.
    #[error("label bytes exceed 63: {0}")]
    LabelBytesTooLong(usize),
    /// An octet from 64 to 191, which begins no label (RFC 1035, section 4.1.4).
    #[error("unrecognized label code: {0:b}")]
    UnrecognizedLabelCode(u8),
    /// A name of more than 255 octets.
    #[error("name label data exceed 255: {0}")]
    DomainNameTooLong(usize),
    /// A segment of a name that was reached through a pointer runs into the segment that it was reached from.
    #[error("overlapping labels name {label} other {other}")]
    LabelOverlapsWithOther {
        /// The offset at which the segment starts that runs too far.
        label: usize,
        /// The offset at which the other one starts.
        other: usize,
    },
    /// A digest algorithm that is not known.
    #[error("unknown digest algorithm: {0}")]
    UnknownDigestAlgorithm(u8),
    /// A text that is the name of no class.
    #[error("dns class string unknown: {0}")]
    UnknownDnsClassStr(String),
    /// A code of no class.
    #[error("dns class value unknown: {0}")]
    UnknownDnsClassValue(u16),
    /// A text that is the name of no record type.
    #[error("record type string unknown: {0}")]
    UnknownRecordTypeStr(String),
    /// A code of no record type.
    #[error("record type value unknown: {0}")]
    UnknownRecordTypeValue(u16),
    /// NSEC3 flags that are not known.
    #[error("nsec3 flags should be 0b0000000*: {0:b}")]
    UnrecognizedNsec3Flags(u8),
    /// CSYNC flags that are not known.
    #[error("csync flags should be 0b000000**: {0:b}")]
    UnrecognizedCsyncFlags(u16),
    /// An NSEC3 hash algorithm that is not known.
    #[error("unknown NSEC3 hash algorithm: {0}")]
    UnknownNsec3HashAlgorithm(u8),
    /// A record after the signature that must be the last.
    #[error("record after TSIG or SIG(0)")]
    RecordAfterSig,
    /// A record of a type that has no place in the additional section.
    #[error("record type {0} only allowed in additional section")]
    RecordNotInAdditionalSection(RecordType),
    /// A second EDNS record.
    #[error("more than one EDNS record")]
    DuplicateEdns,
    /// Service parameters that are not in ascending order.
    #[error("SvcParams out of order")]
    SvcParamsOutOfOrder,
    /// A service parameter without the value that it needs.
    #[error("SvcParam missing value")]
    SvcParamMissingValue,
    /// A type bitmap with a bit outside its window (RFC 4034, section 4.1.2).
    #[error("NSEC bitmap out of bounds")]
    NsecBitmapOutOfBounds,
    /// A CAA tag that is not allowed.
    #[error("CAA tag invalid")]
    CaaTagInvalid,
    /// NAPTR flags that are not allowed.
    #[error("NAPTR flags invalid")]
    NaptrFlagsInvalid,
    /// An address family that is not known.
    #[error("unknown address family: {0}")]
    UnknownAddressFamily(u16),
    /// Bytes that are not UTF-8.
    #[error("error parsing utf8 string")]
    Utf8,
    /// An allocation failed.
    #[error("out of memory")]
    Memory,
}

impl From<String> for ProtoError {
    ghost use Rattle.std.specs.Prelude.{◌≡◌};
    ghost use Rattle.dnw_base.specs.declared.error.ProtoError.TheVariants.{Msg};

    ghost from_gives = { λ text e. e ≡ Msg text };

    fn from(text: String) -> Self {
        ProtoError::Msg(text)
    }
}

impl From<&'static str> for ProtoError {
    ghost use Rattle.std.specs.Prelude.{◌≡◌};
    ghost use Rattle.dnw_base.specs.declared.error.ProtoError.TheVariants.{Message};

    ghost from_gives = { λ text e. e ≡ Message text };

    fn from(text: &'static str) -> Self {
        ProtoError::Message(text)
    }
}

impl From<DecodeError> for ProtoError {
    ghost use Rattle.std.specs.Prelude.{◌≡◌};
    ghost use Rattle.dnw_base.specs.declared.error.ProtoError.TheVariants.{Decode};

    ghost from_gives = { λ cause e. e ≡ Decode cause };

    fn from(cause: DecodeError) -> Self {
        ProtoError::Decode(cause)
    }
}

impl From<AllocError> for ProtoError {
    ghost use Rattle.std.specs.Prelude.{◌≡◌};
    ghost use Rattle.dnw_base.specs.declared.error.ProtoError.TheVariants.{Memory};

    ghost from_gives = { λ _ e. e ≡ Memory };

    fn from(_: AllocError) -> Self {
        ProtoError::Memory
    }
}

impl<T: Drop> From<AllocFailed<T>> for ProtoError {
    ghost use Rattle.std.specs.Prelude.{◌≡◌};
    ghost use Rattle.dnw_base.specs.declared.error.ProtoError.TheVariants.{Memory};

    ghost from_gives = { λ _ e. e ≡ Memory };

    fn from(_: AllocFailed<T>) -> Self {
        ProtoError::Memory
    }
}

impl From<AllocError> for DecodeError {
    ghost use Rattle.std.specs.Prelude.{◌≡◌};
    ghost use Rattle.dnw_base.specs.declared.error.DecodeError.TheVariants.{Memory};

    ghost from_gives = { λ _ e. e ≡ Memory };

    fn from(_: AllocError) -> Self {
        DecodeError::Memory
    }
}

impl ProtoError {
    ghost use Rattle.dnw_base.specs.Copies.{IsErrorCopyOf, OwnsText};
    ghost use Rattle.dnw_base.specs.declared.error.ProtoError.TheVariants.{Memory};

    /// Copies the error. It allocates only if the error has an allocated text, and then may fail with `Memory`.
    pub fn clone(&self) -> Result<Self, Self>
        ensures ok { IfOk result (IsErrorCopyOf self.now) }
        ensures err { IfErr result (λ e. (e ≡ Memory) × OwnsText self.now) }
    {
        Ok(match *self {
            Self::CharacterDataTooLong { max, len } => Self::CharacterDataTooLong { max, len },
            Self::Decode(ref cause) => match cause.clone() {
                Ok(cause) => return Ok(Self::Decode(cause)),
                Err(_) => return Err(Self::Memory),
            },
            Self::MaxBufferSizeExceeded(max) => Self::MaxBufferSizeExceeded(max),
            Self::Message(text) => Self::Message(text),
            Self::Msg(ref text) => return Ok(Self::Msg(text.clone()?)),
            Self::NotAllRecordsWritten { count } => Self::NotAllRecordsWritten { count },
            Self::NotAResponse => Self::NotAResponse,
            Self::Utf8 => Self::Utf8,
            Self::FromUtf8 => Self::FromUtf8,
            Self::ParseInt => Self::ParseInt,
            Self::Memory => Self::Memory,
        })
    }
}

impl DecodeError {
    ghost use Rattle.dnw_base.specs.Copies.{IsDecodeCopyOf, OwnsDecodeText};
    ghost use Rattle.dnw_base.specs.declared.error.DecodeError.TheVariants.{Memory};

    /// Copies the error. It allocates only if the error has a text, and then may fail with `Memory`.
    pub fn clone(&self) -> Result<Self, Self>
        ensures ok { IfOk result (IsDecodeCopyOf self.now) }
        ensures err { IfErr result (λ e. (e ≡ Memory) × OwnsDecodeText self.now) }
    {
        use DecodeError as E;
        Ok(match *self {
            E::IncorrectRDataLengthRead { read, len } => E::IncorrectRDataLengthRead { read, len },
            E::InsufficientBytes => E::InsufficientBytes,
            E::InvalidEmptyRecord => E::InvalidEmptyRecord,
            E::InvalidPreviousIndex => E::InvalidPreviousIndex,
            E::PointerNotPriorToLabel { idx, ptr } => E::PointerNotPriorToLabel { idx, ptr },
            E::LabelBytesTooLong(len) => E::LabelBytesTooLong(len),
            E::UnrecognizedLabelCode(code) => E::UnrecognizedLabelCode(code),
            E::DomainNameTooLong(len) => E::DomainNameTooLong(len),
            E::LabelOverlapsWithOther { label, other } => E::LabelOverlapsWithOther {
                label,
                other,
            },
            E::UnknownDigestAlgorithm(code) => E::UnknownDigestAlgorithm(code),
            E::UnknownDnsClassStr(ref text) => return Ok(E::UnknownDnsClassStr(text.clone()?)),
            E::UnknownDnsClassValue(code) => E::UnknownDnsClassValue(code),
            E::UnknownRecordTypeStr(ref text) => return Ok(E::UnknownRecordTypeStr(text.clone()?)),
            E::UnknownRecordTypeValue(code) => E::UnknownRecordTypeValue(code),
            E::UnrecognizedNsec3Flags(flags) => E::UnrecognizedNsec3Flags(flags),
            E::UnrecognizedCsyncFlags(flags) => E::UnrecognizedCsyncFlags(flags),
            E::UnknownNsec3HashAlgorithm(code) => E::UnknownNsec3HashAlgorithm(code),
            E::RecordAfterSig => E::RecordAfterSig,
            E::RecordNotInAdditionalSection(rr) => E::RecordNotInAdditionalSection(rr),
            E::DuplicateEdns => E::DuplicateEdns,
            E::SvcParamsOutOfOrder => E::SvcParamsOutOfOrder,
            E::SvcParamMissingValue => E::SvcParamMissingValue,
            E::NsecBitmapOutOfBounds => E::NsecBitmapOutOfBounds,
            E::CaaTagInvalid => E::CaaTagInvalid,
            E::NaptrFlagsInvalid => E::NaptrFlagsInvalid,
            E::UnknownAddressFamily(family) => E::UnknownAddressFamily(family),
            E::Utf8 => E::Utf8,
            E::Memory => E::Memory,
        })
    }
}
