//! Skipped entries.
use crate::fault::SkipReason;

/// A path of a host that an image cannot contain, and the reason.
#[derive(Drop)]
pub struct Skipped {
    /// The path relative to the imported directory, with a slash before each name.
    pub path: Vec<u8>,
    /// The reason.
    pub why: SkipReason,
}
