//! Serial numbers of zones and signatures.
ghost use Rattle.std.specs.Prelude.{◌≡◌};
ghost use Rattle.dnw_base.specs.Serials.{serial_sum, serial_cmp};

use std::cmp::Ordering;
use std::marker::Model;
use std::ops::Add;

/// How far apart two serial numbers are that are not ordered.
const HALF_SERIALS: u32 = 1 << 31;

/// A serial number, which starts again at 0 after the greatest (RFC 1982): of a zone (RFC 1035, section 3.3.13), or a
/// time in a signature (RFC 4034, section 3.1.5).
///
/// A contract sees it as its value.
#[derive(Debug, Clone, Copy, PartialEq, Eq, Hash)]
pub struct SerialNumber(u32);

impl Model for SerialNumber {
    ghost use Rattle.std.specs.Prelude.{ℕ};

    ghost Value = { ℕ };

    ghost view = { λ s. s.0 };

    ghost inverse = { λ value. record { 0 = value } };
}

impl SerialNumber {
    /// Creates the serial number of a value.
    pub fn new(value: u32) -> Self
        ensures { result ≡ value }
    {
        SerialNumber(value)
    }

    /// Returns the value.
    pub fn get(&self) -> u32
        ensures { result ≡ self.now }
    {
        self.0
    }

    /// Compares two serial numbers by the shorter way round: `Less` if the other comes 1 to 2^31 - 1 after this one, and
    /// `Greater` if it comes as much before. It returns `None` if they are 2^31 apart (RFC 1982, section 3.2).
    ///
    /// It is no order: three numbers may each be less than the next, round in a circle.
    pub fn partial_cmp(&self, other: &Self) -> Option<Ordering>
        ensures { result ≡ serial_cmp self.now other.now }
    {
        let distance = other.0.wrapping_sub(self.0);
        if distance == 0 {
            Some(Ordering::Equal)
        } else if distance < HALF_SERIALS {
            Some(Ordering::Less)
        } else if distance > HALF_SERIALS {
            Some(Ordering::Greater)
        } else {
            None
        }
    }
}

impl From<u32> for SerialNumber {
    ghost from_gives = { λ value serial. serial ≡ value };

    fn from(value: u32) -> Self {
        SerialNumber(value)
    }
}

/// The sum, which starts again at 0 once it is past the greatest number (RFC 1982, section 3.1).
impl Add for SerialNumber {
    type Output = SerialNumber;

    ghost add_gives = { λ own other sum. sum ≡ serial_sum own other };

    fn add(self, rhs: Self) -> Self {
        SerialNumber(self.0.wrapping_add(rhs.0))
    }
}
