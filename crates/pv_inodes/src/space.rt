//! The error for contents that cannot grow.

/// Why the contents of an inode were not extended.
#[derive(Clone, Copy, Debug, PartialEq, Eq)]
pub enum Space {
    /// There are too few free blocks.
    Full,
    /// The contents would exceed the maximum length.
    TooBig,
}
