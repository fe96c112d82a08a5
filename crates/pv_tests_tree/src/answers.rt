//! Assertions that compare results with expected values.
use pv_model::Name;
use std::fmt::Debug;
use std::process::Abort;

/// Checks that a result is the expected one.
pub fn expect_same<T: Copy + Debug + PartialEq>(rt: &impl Abort, answer: T, wanted: T) {
    assert_eq!(rt; answer, wanted);
}

/// Checks that bytes are the expected ones.
pub fn expect_equal(rt: &impl Abort, bytes: &[u8], others: &[u8]) {
    assert_eq!(rt; bytes, others);
}

/// Checks that a name is the expected one, or that there is none.
pub fn expect_name(rt: &impl Abort, name: Option<&Name>, wanted: Option<&[u8]>) {
    match (name, wanted) {
        (Some(name), Some(wanted)) => expect_equal(rt, name.as_slice(), wanted),
        (None, None) => {}
        _ => panic!(rt; "a name is missing, or one is there that is not wanted"),
    }
}
