//! Values that were read from a message and are not verified yet.
ghost use Rattle.std.specs.Prelude.{◌≡◌, ℕ, ◌+◌, ◌-◌, ◌*◌, ◌<◌, ◌≤◌, ◌^◌, Bool, true, false, IsTrue, ◌↔◌, Option, Some, None, Result, Ok, Err, MatchResult};
ghost use Rattle.std.specs.Fn.{FnReturnsAt};
ghost use Rattle.std.specs.Borrow.{Bor};
ghost use Rattle.std.specs.Option.{ok_or, option_and_then};
ghost use Rattle.std.specs.Result.{result_ok};
ghost use Rattle.dnw_base.specs.Checked.{sum_below, difference, product_below};

use std::marker::Model;

/// A value that was read from a message and has not been verified.
///
/// It is taken out by a test (`verify_unwrap`), or on purpose without one (`unverified`). A contract sees it as the
/// value itself.
#[derive(Clone, Copy)]
pub struct Restrict<T>(T);

impl<T> Model for Restrict<T> {
    ghost Value = { T };

    ghost view = { λ r. r.0 };

    ghost inverse = { λ x. record { 0 = x } };
}

impl<T> Restrict<T> {
    ghost use Rattle.dnw_base.specs.Verified.{verified_value, verified_verdict};

    /// Marks a value as not verified.
    #[inline(always)]
    pub fn new(restricted: T) -> Self
        ensures { result ≡ restricted }
    {
        Restrict(restricted)
    }

    /// Tests the value, and returns it with the verdict.
    #[inline]
    pub fn verify<F: Fn(&T) -> bool>(&self, f: F) -> Verified<'_, T>
        requires { (x : Bor T) → x.now ≡ self.now → F.pre f x }
        ensures value { (verified_value result).now ≡ self.now }
        ensures verdict { FnReturnsAt F.Fn f self.now (verified_verdict result) }
    {
        let valid = passes(&f, &self.0);
        Verified {
            value: &self.0,
            valid,
        }
    }

    /// Returns the value: `Ok` if it passes the test, else `Err`.
    #[inline]
    pub fn verify_unwrap<F: Fn(&T) -> bool>(self, f: F) -> Result<T, T>
        requires { (x : Bor T) → x.now ≡ self → F.pre f x }
        ensures { MatchResult result (λ x. (x ≡ self) × FnReturnsAt F.Fn f self true) (λ x. (x ≡ self) × FnReturnsAt F.Fn f self false) }
    {
        let Restrict(value) = self;
        if passes(&f, &value) {
            Ok(value)
        } else {
            Err(value)
        }
    }

    /// Returns the value as it was read. The caller verifies it, or knows that any value is right.
    #[inline(always)]
    pub fn unverified(self) -> T
        ensures { result ≡ self }
    {
        let Restrict(value) = self;
        value
    }

    /// Makes another value of this one, which is not verified either.
    #[inline(always)]
    pub fn map<R, F: Fn(T) -> R>(self, f: F) -> Restrict<R>
        requires { F.pre f self }
        ensures { F.post f self result }
    {
        let Restrict(value) = self;
        Restrict(f(value))
    }
}

/// Returns the verdict of a test on a value.
#[inline(always)]
fn passes<T, F: Fn(&T) -> bool>(f: &F, value: &T) -> bool
    requires { (x : Bor T) → x.now ≡ value.now → F.pre f.now x }
    ensures { FnReturnsAt F.Fn f.now value.now result }
{
    f(value)
}

/// A value with the verdict of a test.
#[derive(Drop)]
pub struct Verified<'a, T> {
    value: &'a T,
    valid: bool,
}

impl<'a, T> Verified<'a, T> {
    ghost use Rattle.dnw_base.specs.Verified.{verified_value, verified_verdict};

    /// Returns what `f` makes of the value, or as an error the value, if it did not pass the test. Only a value that
    /// passed is given to `f`.
    #[inline]
    pub fn then<R, F: Fn(&T) -> R>(&self, f: F) -> Result<R, &'a T>
        requires { IsTrue (verified_verdict self.now) → (x : Bor T) → x.now ≡ (verified_value self.now).now → F.pre f x }
        ensures { MatchResult result (λ r. IsTrue (verified_verdict self.now) × FnReturnsAt F.Fn f (verified_value self.now).now r)
            (λ value. (verified_verdict self.now ≡ false) × (value.now ≡ (verified_value self.now).now)) }
    {
        if self.valid {
            Ok(f(self.value))
        } else {
            Err(self.value)
        }
    }

    /// Returns `true` if the value passed the test.
    #[inline(always)]
    pub fn is_valid(&self) -> bool
        ensures { result ≡ verified_verdict self.now }
    {
        self.valid
    }
}

/// Arithmetic on numbers that are not verified. If the exact result is out of range, the error is the argument.
pub trait RestrictedMath {
    /// The type of the second operand.
    type Arg: Copy;
    /// The type of the result.
    type Value: Copy;

    // The exact results, if they are in range.
    ghost sum: { Self → Self.Arg → Option Self.Value };

    ghost difference: { Self → Self.Arg → Option Self.Value };

    ghost product: { Self → Self.Arg → Option Self.Value };

    /// Returns the sum, if it is in range.
    fn checked_add(&self, arg: Self::Arg) -> Result<Restrict<Self::Value>, Self::Arg>
        ensures { result ≡ ok_or (sum self.now arg) arg };

    /// Returns the difference, if it is in range.
    fn checked_sub(&self, arg: Self::Arg) -> Result<Restrict<Self::Value>, Self::Arg>
        ensures { result ≡ ok_or (difference self.now arg) arg };

    /// Returns the product, if it is in range.
    fn checked_mul(&self, arg: Self::Arg) -> Result<Restrict<Self::Value>, Self::Arg>
        ensures { result ≡ ok_or (product self.now arg) arg };
}

impl RestrictedMath for Restrict<u8> {
    type Arg = u8;

    type Value = u8;

    ghost sum = { sum_below (2 ^ 8) };

    ghost difference = { difference };

    ghost product = { product_below (2 ^ 8) };

    fn checked_add(&self, arg: u8) -> Result<Restrict<u8>, u8> {
        self.0.checked_add(arg).map(Restrict::new).ok_or(arg)
    }

    fn checked_sub(&self, arg: u8) -> Result<Restrict<u8>, u8> {
        self.0.checked_sub(arg).map(Restrict::new).ok_or(arg)
    }

    fn checked_mul(&self, arg: u8) -> Result<Restrict<u8>, u8> {
        self.0.checked_mul(arg).map(Restrict::new).ok_or(arg)
    }
}

impl RestrictedMath for Restrict<usize> {
    type Arg = usize;

    type Value = usize;

    ghost sum = { sum_below (2 ^ 64) };

    ghost difference = { difference };

    ghost product = { product_below (2 ^ 64) };

    fn checked_add(&self, arg: usize) -> Result<Restrict<usize>, usize> {
        self.0.checked_add(arg).map(Restrict::new).ok_or(arg)
    }

    fn checked_sub(&self, arg: usize) -> Result<Restrict<usize>, usize> {
        self.0.checked_sub(arg).map(Restrict::new).ok_or(arg)
    }

    fn checked_mul(&self, arg: usize) -> Result<Restrict<usize>, usize> {
        self.0.checked_mul(arg).map(Restrict::new).ok_or(arg)
    }
}

impl RestrictedMath for Restrict<u16> {
    type Arg = u16;

    type Value = u16;

    ghost sum = { sum_below (2 ^ 16) };

    ghost difference = { difference };

    ghost product = { product_below (2 ^ 16) };

    fn checked_add(&self, arg: u16) -> Result<Restrict<u16>, u16> {
        self.0.checked_add(arg).map(Restrict::new).ok_or(arg)
    }

    fn checked_sub(&self, arg: u16) -> Result<Restrict<u16>, u16> {
        self.0.checked_sub(arg).map(Restrict::new).ok_or(arg)
    }

    fn checked_mul(&self, arg: u16) -> Result<Restrict<u16>, u16> {
        self.0.checked_mul(arg).map(Restrict::new).ok_or(arg)
    }
}

/// A chain of operations. After the first that is out of range, each later one fails with its own argument.
impl<R: RestrictedMath, A: Copy> RestrictedMath for Result<R, A> {
    type Arg = R::Arg;

    type Value = R::Value;

    ghost sum = { λ r arg. option_and_then (λ x. R.sum x arg) (result_ok r) };

    ghost difference = { λ r arg. option_and_then (λ x. R.difference x arg) (result_ok r) };

    ghost product = { λ r arg. option_and_then (λ x. R.product x arg) (result_ok r) };

    fn checked_add(&self, arg: R::Arg) -> Result<Restrict<R::Value>, R::Arg> {
        match self {
            Ok(r) => r.checked_add(arg),
            Err(_) => Err(arg),
        }
    }

    fn checked_sub(&self, arg: R::Arg) -> Result<Restrict<R::Value>, R::Arg> {
        match self {
            Ok(r) => r.checked_sub(arg),
            Err(_) => Err(arg),
        }
    }

    fn checked_mul(&self, arg: R::Arg) -> Result<Restrict<R::Value>, R::Arg> {
        match self {
            Ok(r) => r.checked_mul(arg),
            Err(_) => Err(arg),
        }
    }
}
