//! Values that are not verified, and the closures that test them.
ghost use Rattle.std.specs.Prelude.{◌≤◌};

use dns_names_wire::restrict::Restrict;

#[test]
fn verdicts(rt: HostRuntime) {
    let five = Restrict::new(5u8);
    // a test that fails hands the value back
    let failed = five.verify(|n| *n > 5);
    assert!(rt; !failed.is_valid());
    assert!(rt; matches!(failed.then(|n| *n / 2), Err(&5)));
    let passed = five.verify(|n| *n < 6);
    assert!(rt; passed.is_valid());
    assert!(rt; matches!(passed.then(|n| *n / 2), Ok(2)));
    assert_eq!(rt; five.map(|n| n as u16).unverified(), 5u16);
}

/// The test may require what is known of the value, here that one can divide by it.
#[test]
fn a_test_with_a_condition(rt: HostRuntime) {
    let passed = Restrict::new(5u8).verify_unwrap(
        |n: &u8|
            requires { 1 ≤ n.now }
        { 10 / *n == 2 },
    );
    assert!(rt; matches!(passed, Ok(5)));
    let failed = Restrict::new(5u8).verify_unwrap(|n| *n > 6);
    assert!(rt; matches!(failed, Err(5)));
}
