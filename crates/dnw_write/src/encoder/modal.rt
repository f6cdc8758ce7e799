//! Guards, which set how names are written for a while.
ghost use Rattle.std.specs.Prelude.{◌≡◌};
ghost use Rattle.dnw_write.specs.Encoder.{mode_of_rdata};
ghost use Rattle.dnw_write.specs.EncoderValue.{value, lender};
ghost use Rattle.dnw_write.specs.Guards.{Guards, guarded, former};

use super::{BinEncoder, NameEncoding, RDataEncoding};
use std::ops::{Deref, DerefMut};

/// A guard that lends its encoder in another mode. When the guard is dropped, the encoder is in its former mode again.
pub struct ModalEncoder<'a, 'e> {
    inner: &'e mut BinEncoder<'a>,
    previous: NameEncoding,
}

impl<'a> Deref for ModalEncoder<'a, '_> {
    type Target = BinEncoder<'a>;

    ghost deref_gives = { λ guard encoder. encoder ≡ guarded guard };

    fn deref(&self) -> &BinEncoder<'a> {
        self.inner
    }
}

impl<'a> DerefMut for ModalEncoder<'a, '_> {
    ghost deref_mut_gives = { λ guard encoder. encoder ≡ guarded guard };

    fn deref_mut(&mut self) -> &mut BinEncoder<'a> {
        self.inner
    }
}

impl Drop for ModalEncoder<'_, '_> {
    fn drop(self)
        ensures value { value self.exit.0.now ≡ record (value (guarded self.entry)) { encoding = former self.entry } }
        ensures lender { lender self.exit.0.now ≡ lender (guarded self.entry) }
    {
        let ModalEncoder { inner, previous } = self;
        inner.set_name_encoding(previous);
    }
}

impl<'a> BinEncoder<'a> {
    /// Returns a guard that lends the encoder in this mode.
    pub fn with_name_encoding<'e>(&'e mut self, name_encoding: NameEncoding) -> ModalEncoder<'a, 'e>
        ensures { Guards self.entry name_encoding result }
    {
        let previous = self.name_encoding();
        self.set_name_encoding(name_encoding);
        ModalEncoder {
            inner: self,
            previous,
        }
    }

    /// Returns a guard that lends the encoder in the mode for the names of such record data (RFC 3597, sections 4 and 7;
    /// RFC 4034, section 6.2).
    pub fn with_rdata_behavior<'e>(
        &'e mut self,
        rdata_encoding: RDataEncoding,
    ) -> ModalEncoder<'a, 'e>
        ensures { Guards self.entry (mode_of_rdata rdata_encoding (value self.old).canonical (value self.old).encoding) result }
    {
        let mode = rdata_encoding.name_encoding(self.is_canonical_form(), self.name_encoding());
        self.with_name_encoding(mode)
    }
}
