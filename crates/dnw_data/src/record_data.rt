//! Types that can be read from the data of a record.
ghost use Rattle.std.specs.Prelude.{◌≡◌, ℕ, ℤ, IfOk, IfErr, OnErr, IsErrOf};
ghost use Rattle.dnw_base.specs.Decoder.{Decoder};
ghost use Rattle.dnw_base.specs.declared.error.DecodeError.{DecodeError};
ghost use Rattle.dnw_name.specs.Decodable.{TakesU16, TakesU32, TakesI32, LacksBytes, TakesNameValue, StopsSomehow};
ghost use Rattle.dnw_name_zones.specs.LowerNames.{TakesLowerName};

use dnw_base::decoder::BinDecoder;
use dnw_base::error::DecodeError;
use dnw_base::restrict::Restrict;
use dnw_name::binary::BinDecodable;
use dnw_name::name::Name;
use dnw_name_zones::lower_name::LowerName;
use std::alloc::Global;

/// Types that can be read from the data of a record, of which the record gives the length in octets.
///
/// Each says which octets are one of its values, so generic callers know what they read.
pub trait RecordDataDecodable<'r>: Sized {
    ghost use Rattle.std.specs.Prelude.{◌≡◌, ℕ, IfOk, IfErr, OnErr, IsErrOf};
    ghost use Rattle.dnw_base.specs.Decoder.{Decoder};
    ghost use Rattle.dnw_base.specs.declared.error.DecodeError.{DecodeError};
    ghost use Rattle.dnw_data.specs.RecordData.{FailsOrRunsOut};

    // Given the length, the decoder is at this value, and after it afterwards.
    ghost stands: { ℕ → Decoder → Self → Decoder → Type 0 };

    // The decoder is at no value, and reading stops with this error.
    ghost fails: { ℕ → Decoder → DecodeError → Type 0 };

    // The value may need memory.
    ghost runs_out: { ℕ → Decoder → Type 0 };

    /// Reads the value at the cursor. If it fails, the cursor is unchanged.
    fn read_data(
        alloc: Global,
        decoder: &mut BinDecoder<'r>,
        length: Restrict<u16>,
    ) -> Result<Self, DecodeError>
        ensures ok { IfOk result (λ x. stands length decoder.old x decoder.new) }
        ensures err { IfErr result (FailsOrRunsOut (fails length decoder.old) (runs_out length decoder.old)) }
        ensures same { OnErr result (decoder.new ≡ decoder.old) }
        ensures accepts { (x : Self) (after : Decoder) → stands length decoder.old x after
            → IfErr result (λ e. (e ≡ DecodeError.Memory) × runs_out length decoder.old) }
        ensures rejects { (e : DecodeError) → fails length decoder.old e → IsErrOf result e };
}

/// A number, whatever the length.
impl<'r> RecordDataDecodable<'r> for u16 {
    ghost stands = { λ _. TakesU16 };

    ghost fails = { λ _. LacksBytes 2 };

    ghost runs_out = { λ _ _. ⊥ };

    fn read_data(
        alloc: Global,
        decoder: &mut BinDecoder<'r>,
        _length: Restrict<u16>,
    ) -> Result<Self, DecodeError> {
        <u16 as BinDecodable>::read(alloc, decoder)
    }
}

/// A signed number, whatever the length.
impl<'r> RecordDataDecodable<'r> for i32 {
    ghost stands = { λ _. TakesI32 };

    ghost fails = { λ _. LacksBytes 4 };

    ghost runs_out = { λ _ _. ⊥ };

    fn read_data(
        alloc: Global,
        decoder: &mut BinDecoder<'r>,
        _length: Restrict<u16>,
    ) -> Result<Self, DecodeError> {
        <i32 as BinDecodable>::read(alloc, decoder)
    }
}

/// A number, whatever the length.
impl<'r> RecordDataDecodable<'r> for u32 {
    ghost stands = { λ _. TakesU32 };

    ghost fails = { λ _. LacksBytes 4 };

    ghost runs_out = { λ _ _. ⊥ };

    fn read_data(
        alloc: Global,
        decoder: &mut BinDecoder<'r>,
        _length: Restrict<u16>,
    ) -> Result<Self, DecodeError> {
        <u32 as BinDecodable>::read(alloc, decoder)
    }
}

/// A name, whatever the length. It does not allocate.
impl<'r> RecordDataDecodable<'r> for Name {
    ghost stands = { λ _. TakesNameValue };

    ghost fails = { λ _. StopsSomehow };

    ghost runs_out = { λ _ _. ⊥ };

    fn read_data(
        alloc: Global,
        decoder: &mut BinDecoder<'r>,
        _length: Restrict<u16>,
    ) -> Result<Self, DecodeError> {
        Name::read(alloc, decoder)
    }
}

/// A name in lower case, whatever the length. It does not allocate.
impl<'r> RecordDataDecodable<'r> for LowerName {
    ghost stands = { λ _. TakesLowerName };

    ghost fails = { λ _. StopsSomehow };

    ghost runs_out = { λ _ _. ⊥ };

    fn read_data(
        alloc: Global,
        decoder: &mut BinDecoder<'r>,
        _length: Restrict<u16>,
    ) -> Result<Self, DecodeError> {
        LowerName::read(alloc, decoder)
    }
}
