//! Assertions that compare results with expected values.
use std::fmt::Debug;
use std::process::Abort;

/// Checks that a result is the expected one.
pub fn expect_same<T: Copy + Debug + PartialEq>(rt: &impl Abort, answer: T, wanted: T) {
    assert_eq!(rt; answer, wanted);
}

/// Checks that bytes are the expected ones.
pub fn expect_equal(rt: &impl Abort, bytes: &[u8], others: &[u8]) {
    assert_eq!(rt; bytes, others);
}

/// Checks a condition.
pub fn expect(rt: &impl Abort, holds: bool) {
    assert!(rt; holds);
}
