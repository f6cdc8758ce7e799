//! Module `restrict`: values that are not verified yet.

use crate::bounds::is_copy;
use dns_names_wire::restrict::{Restrict, RestrictedMath, Verified};

#[test]
fn values_are_tested_and_taken_out(rt: HostRuntime) {
    is_copy::<Restrict<u8>>();
    let five: Restrict<u8> = Restrict::new(5u8);
    let failed: Verified<'_, u8> = five.verify(|n| *n > 5);
    let is_valid: bool = failed.is_valid();
    let kept: Result<u16, &u8> = failed.then(|n| *n as u16);
    assert!(rt; !is_valid);
    assert!(rt; matches!(kept, Err(&5)));
    let passed: Verified<'_, u8> = five.verify(|n| *n == 5);
    let halved: Result<u16, &u8> = passed.then(|n| *n as u16 / 2);
    assert!(rt; passed.is_valid());
    assert!(rt; matches!(halved, Ok(2)));
    let taken: Result<u8, u8> = five.verify_unwrap(|n| *n == 5);
    let given_back: Result<u8, u8> = five.verify_unwrap(|n| *n > 5);
    assert_eq!(rt; (taken, given_back), (Ok(5), Err(5)));
    let mapped: Restrict<u16> = five.map(|n| n as u16);
    let number: u16 = mapped.unverified();
    assert_eq!(rt; number, 5);
}

/// Returns the sum, the difference and the product of a value and a number.
fn results<M: RestrictedMath>(left: &M, arg: M::Arg) -> [Result<M::Value, M::Arg>; 3] {
    let sum: Result<Restrict<M::Value>, M::Arg> = left.checked_add(arg);
    let difference: Result<Restrict<M::Value>, M::Arg> = left.checked_sub(arg);
    let product: Result<Restrict<M::Value>, M::Arg> = left.checked_mul(arg);
    [
        sum.map(Restrict::unverified),
        difference.map(Restrict::unverified),
        product.map(Restrict::unverified),
    ]
}

#[test]
fn arithmetic_is_checked(rt: HostRuntime) {
    let octets: [Result<u8, u8>; 3] = results(&Restrict::new(255u8), 1);
    assert_eq!(rt; octets, [Err(1), Ok(254), Ok(255)]);
    let numbers: [Result<u16, u16>; 3] = results(&Restrict::new(0u16), 2);
    assert_eq!(rt; numbers, [Ok(2), Err(2), Ok(0)]);
    let sizes: [Result<usize, usize>; 3] = results(&Restrict::new(usize::MAX), 2);
    assert_eq!(rt; sizes, [Err(2), Ok(usize::MAX - 2), Err(2)]);
    let known: Result<Restrict<u8>, u8> = Ok(Restrict::new(3));
    let chained: [Result<u8, u8>; 3] = results(&known, 100);
    assert_eq!(rt; chained, [Ok(103), Err(100), Err(100)]);
    let failed: Result<Restrict<u8>, u8> = Err(7);
    assert_eq!(rt; results(&failed, 1), [Err(1), Err(1), Err(1)]);
}

#[test]
fn arithmetic_is_chained(rt: HostRuntime) {
    let last = |first: u8, add: u8| {
        Restrict::new(first)
            .checked_sub(1)
            .checked_mul(8)
            .checked_add(add)
            .map(Restrict::unverified)
    };
    assert_eq!(rt; last(3, 7), Ok(23));
    assert_eq!(rt; last(0, 2), Err(2));
}
