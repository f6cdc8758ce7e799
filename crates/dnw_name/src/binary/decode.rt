//! Types that can be read from a message.
ghost use Rattle.std.specs.Prelude.{◌≡◌, ℕ, ℤ, IfOk, IfErr, OnErr, IsErrOf, IsOkAnd};
ghost use Rattle.dnw_base.specs.Decoder.{Decoder};
ghost use Rattle.dnw_base.specs.declared.error.DecodeError.{DecodeError};
ghost use Rattle.dnw_name.specs.Decodable.{TakesU16, TakesU32, TakesI32, TakesType, TakesClass, LacksBytes, TakesNameValue, StopsSomehow};

use crate::name::Name;
use dnw_base::decoder::BinDecoder;
use dnw_base::dns_class::DNSClass;
use dnw_base::error::DecodeError;
use dnw_base::record_type::RecordType;
use dnw_base::restrict::Restrict;
use std::alloc::Global;

/// Types that can be read from a message. Each says which octets are one of its values, so generic callers know what
/// they read.
pub trait BinDecodable<'r>: Sized {
    ghost use Rattle.dnw_base.specs.Decoder.{Decoder};
    ghost use Rattle.dnw_base.specs.declared.error.DecodeError.{DecodeError};

    // The decoder is at this value, and after it afterwards.
    ghost stands: { Decoder → Self → Decoder → Type 0 };

    // The decoder is at no value, and reading stops with this error.
    ghost fails: { Decoder → DecodeError → Type 0 };

    /// Reads the value at the cursor. If it fails, the cursor is unchanged.
    fn read(alloc: Global, decoder: &mut BinDecoder<'r>) -> Result<Self, DecodeError>
        ensures ok { IfOk result (λ x. stands decoder.old x decoder.new) }
        ensures err { IfErr result (fails decoder.old) }
        ensures same { OnErr result (decoder.new ≡ decoder.old) }
        ensures accepts { (x : Self) (after : Decoder) → stands decoder.old x after
            → IsOkAnd result (λ y. y ≡ x) × (decoder.new ≡ after) }
        ensures rejects { (e : DecodeError) → fails decoder.old e → IsErrOf result e };

    /// Reads the value at the start of a message, whatever follows it, as `read` with a new decoder.
    fn from_bytes(alloc: Global, bytes: &'r [u8]) -> Result<Self, DecodeError>
        ensures ok { IfOk result (λ x. (after : Decoder) × stands (record { bytes = bytes.now; index = 0 }) x after) }
        ensures err { IfErr result (fails (record { bytes = bytes.now; index = 0 })) }
        ensures accepts { (x : Self) (after : Decoder) → stands (record { bytes = bytes.now; index = 0 }) x after
            → IsOkAnd result (λ y. y ≡ x) }
        ensures rejects { (e : DecodeError) → fails (record { bytes = bytes.now; index = 0 }) e → IsErrOf result e };
}

impl<'r> BinDecodable<'r> for u16 {
    ghost stands = { TakesU16 };

    ghost fails = { LacksBytes 2 };

    fn read(_alloc: Global, decoder: &mut BinDecoder<'r>) -> Result<Self, DecodeError> {
        decoder.read_u16().map(Restrict::unverified)
    }

    fn from_bytes(alloc: Global, bytes: &'r [u8]) -> Result<Self, DecodeError> {
        let mut decoder = BinDecoder::new(bytes);
        u16::read(alloc, &mut decoder)
    }
}

impl<'r> BinDecodable<'r> for i32 {
    ghost stands = { TakesI32 };

    ghost fails = { LacksBytes 4 };

    fn read(_alloc: Global, decoder: &mut BinDecoder<'r>) -> Result<Self, DecodeError> {
        decoder.read_i32().map(Restrict::unverified)
    }

    fn from_bytes(alloc: Global, bytes: &'r [u8]) -> Result<Self, DecodeError> {
        let mut decoder = BinDecoder::new(bytes);
        i32::read(alloc, &mut decoder)
    }
}

impl<'r> BinDecodable<'r> for u32 {
    ghost stands = { TakesU32 };

    ghost fails = { LacksBytes 4 };

    fn read(_alloc: Global, decoder: &mut BinDecoder<'r>) -> Result<Self, DecodeError> {
        decoder.read_u32().map(Restrict::unverified)
    }

    fn from_bytes(alloc: Global, bytes: &'r [u8]) -> Result<Self, DecodeError> {
        let mut decoder = BinDecoder::new(bytes);
        u32::read(alloc, &mut decoder)
    }
}

impl<'r> BinDecodable<'r> for Name {
    ghost stands = { TakesNameValue };

    ghost fails = { StopsSomehow };

    fn read(alloc: Global, decoder: &mut BinDecoder<'r>) -> Result<Self, DecodeError> {
        Name::read(alloc, decoder)
    }

    fn from_bytes(alloc: Global, bytes: &'r [u8]) -> Result<Self, DecodeError> {
        let mut decoder = BinDecoder::new(bytes);
        Name::read(alloc, &mut decoder)
    }
}

/// Any two octets are a record type.
impl<'r> BinDecodable<'r> for RecordType {
    ghost stands = { TakesType };

    ghost fails = { LacksBytes 2 };

    fn read(_alloc: Global, decoder: &mut BinDecoder<'r>) -> Result<Self, DecodeError> {
        Ok(RecordType::from(decoder.read_u16()?.unverified()))
    }

    fn from_bytes(alloc: Global, bytes: &'r [u8]) -> Result<Self, DecodeError> {
        let mut decoder = BinDecoder::new(bytes);
        RecordType::read(alloc, &mut decoder)
    }
}

/// Any two octets are a class, which is never `OPT`.
impl<'r> BinDecodable<'r> for DNSClass {
    ghost stands = { TakesClass };

    ghost fails = { LacksBytes 2 };

    fn read(_alloc: Global, decoder: &mut BinDecoder<'r>) -> Result<Self, DecodeError> {
        Ok(DNSClass::from(decoder.read_u16()?.unverified()))
    }

    fn from_bytes(alloc: Global, bytes: &'r [u8]) -> Result<Self, DecodeError> {
        let mut decoder = BinDecoder::new(bytes);
        DNSClass::read(alloc, &mut decoder)
    }
}
