//! Assertions that compare results with expected values.
use std::fmt::Debug;
use std::process::Abort;

/// Checks that a result is the expected one.
pub fn expect_same<T: Copy + Debug + PartialEq>(rt: &impl Abort, answer: T, wanted: T) {
    assert_eq!(rt; answer, wanted);
}

/// Checks that a result is the expected one. A failure reports the offset or length.
pub fn expect_same_at<T: Copy + Debug + PartialEq>(rt: &impl Abort, answer: T, wanted: T, at: u32) {
    assert_eq!(rt; answer, wanted, "at {at}");
}

/// Checks that bytes are the expected ones.
pub fn expect_equal(rt: &impl Abort, bytes: &[u8], others: &[u8]) {
    assert_eq!(rt; bytes, others);
}
