//! How names are written.
ghost use Rattle.std.specs.Prelude.{◌≡◌};
ghost use Rattle.dnw_write.specs.Encoder.{mode_of_rdata};

/// How names are written.
#[derive(Clone, Copy, Debug)]
pub enum NameEncoding {
    /// Compressed (RFC 1035, section 4.1.4), in their own case.
    Compressed,
    /// Whole, in their own case.
    Uncompressed,
    /// Whole, in lower case (RFC 4034, section 6.2).
    UncompressedLowercase,
}

/// How names within record data are written.
#[derive(Clone, Copy, Debug)]
pub enum RDataEncoding {
    /// Of a record type that RFC 1035, section 3.3 defines: as other names, but in canonical form whole and in lower
    /// case.
    StandardRecord,
    /// Of a later record type whose canonical form has lower case (RFC 4034, section 6.2): always whole, and in
    /// canonical form in lower case.
    Canonical,
    /// Of any other record type (RFC 3597, section 4): always whole, in their own case.
    Other,
}

impl RDataEncoding {
    /// Returns how an encoder in such a mode writes the names of such data, in canonical form or not (RFC 3597, sections 4
    /// and 7; RFC 4034, section 6.2).
    pub fn name_encoding(self, canonical: bool, mode: NameEncoding) -> NameEncoding
        ensures { result ≡ mode_of_rdata self canonical mode }
    {
        match (self, canonical) {
            (RDataEncoding::StandardRecord, false) => mode,
            (RDataEncoding::StandardRecord, true) | (RDataEncoding::Canonical, true) => {
                NameEncoding::UncompressedLowercase
            }
            (RDataEncoding::Canonical, false) | (RDataEncoding::Other, _) =>
                NameEncoding::Uncompressed,
        }
    }
}
