//! Addresses of NSAP (RFC 1706, section 5).
ghost use Rattle.std.specs.Prelude.{◌≡◌, ◌<◌, Some, IfOk, slice_index};
ghost use Rattle.std.specs.List.{filter};
ghost use Rattle.hex.specs.Hex.{encode_lower, lower_digits};
ghost use Rattle.dnw_zone_values.specs.Spelling.{Appends};
ghost use Rattle.dnw_zone_values.specs.Nsap.{is_no_dot, nsap_text, IsNsapText};
ghost use Rattle.dnw_zone_values.specs.declared.error.FieldTextError.TheVariants.{Nsap as NsapWanted};

use crate::error::FieldTextError;
use crate::octets::append_digits;
use std::alloc::{AllocError, Global};
use std::{fmt, str};

/// An address of NSAP, printed as `0x47000580005a00`.
#[derive(Clone, Copy, Debug)]
pub struct Nsap<'a>(pub &'a [u8]);

impl fmt::Display for Nsap<'_> {
    ghost output = { λ octets. Some (nsap_text octets.0.now) };

    fn fmt<W: fmt::Write>(&self, f: &mut fmt::Formatter<W>) -> fmt::Result {
        write!(f, "0x{}", LowerHexadecimal(self.0))
    }
}

/// Octets that are printed in hexadecimal, in lower case.
#[derive(Clone, Copy)]
struct LowerHexadecimal<'a>(&'a [u8]);

impl fmt::Display for LowerHexadecimal<'_> {
    ghost output = { λ octets. Some (encode_lower octets.0.now) };

    fn fmt<W: fmt::Write>(&self, f: &mut fmt::Formatter<W>) -> fmt::Result {
        for octet in self.0 {
            let digits = [hex_digit(*octet / 16), hex_digit(*octet % 16)];
            f.write_str(str::from_utf8(&digits).map_err(|_| fmt::Error)?)?;
        }
        Ok(())
    }
}

/// Returns the digit of a number below 16, in lower case.
fn hex_digit(number: u8) -> u8
    requires { number < 16 }
    ensures { result ≡ slice_index lower_digits number }
{
    if number < 10 {
        b'0' + number
    } else {
        b'a' + (number - 10)
    }
}

/// Appends the octets of an address of NSAP: `0x`, and two hexadecimal digits for each octet, in either case. Dots among them mean
/// nothing.
///
/// Fails with `Nsap` if the text is something else, and with `Memory`; `octets` is then unchanged.
///
/// ```
/// parse_nsap(alloc, b"0x47.0005.80", &mut octets)?; // 0x47, 0, 5, 0x80
/// ```
pub fn parse_nsap(alloc: Global, text: &[u8], octets: &mut Vec<u8>) -> Result<(), FieldTextError>
    ensures { Appends NsapWanted IsNsapText text.now octets.old.items octets.new.items result }
{
    let [b'0', b'x', digits @ ..] = text else {
        return Err(FieldTextError::Nsap);
    };
    let joined = without_dots(alloc, digits)?;
    append_digits(joined.as_slice(), FieldTextError::Nsap, octets)
}

/// Returns the characters of a text that are no dots.
fn without_dots(alloc: Global, text: &[u8]) -> Result<Vec<u8>, AllocError>
    ensures { IfOk result (λ joined. joined.items ≡ filter is_no_dot text.now) }
{
    let mut joined = Vec::new(alloc);
    for c in text {
        if *c != b'.' {
            joined.push(*c)?;
        }
    }
    Ok(joined)
}
