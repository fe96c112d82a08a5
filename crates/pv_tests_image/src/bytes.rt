//! Changing and comparing parts of images.
use crate::answers::{expect, expect_same};
use std::process::Abort;

// Overwrites bytes at an offset, if they fit.
fn put(bytes: &mut [u8], at: usize, new: &[u8]) {
    if at <= bytes.len() && new.len() <= bytes.len() - at {
        bytes[at..at + new.len()].copy_from_slice(new);
    }
}

// Overwrites each component at its offset.
pub(crate) fn put_all(bytes: &mut [u8], components: &[(usize, &[u8])]) {
    for &(at, new) in components {
        put(bytes, at, new);
    }
}

// Checks the bytes at an offset.
fn expect_component(rt: &impl Abort, bytes: &[u8], at: usize, wanted: &[u8]) {
    assert!(rt; at <= bytes.len());
    expect(rt, bytes[at..].starts_with(wanted));
}

// Checks the number of bytes, and each component at its offset.
pub(crate) fn expect_components(
    rt: &impl Abort,
    bytes: &[u8],
    length: usize,
    components: &[(usize, &[u8])],
) {
    expect_same(rt, bytes.len(), length);
    for &(at, wanted) in components {
        expect_component(rt, bytes, at, wanted);
    }
}

// Returns the first `count` bytes.
pub(crate) fn front(bytes: &[u8], count: usize) -> &[u8] {
    if count < bytes.len() {
        &bytes[..count]
    } else {
        bytes
    }
}
