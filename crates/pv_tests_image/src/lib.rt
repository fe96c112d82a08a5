//! Tests of images as bytes, and of copies between images and host directories.
//!
//! `listing` tests the listings of trees, `writer` the images that are written, `mount` the check of images, and
//! `migrate` migration. `trees` and `bytes` create the inputs of these tests, `sinks` has the sinks that they write to,
//! and `answers` the assertions. `tests` imports and exports host directories in memory: `directory` is a synthetic
//! directory whose entries are known to contracts, and `target` records the nodes that are created. `cases/command_lines/`
//! tests which manifest builds which tree.
#![tactic(auto)]

#[cfg(test)]
mod answers;
#[cfg(test)]
mod bytes;
pub mod directory;
#[cfg(test)]
mod listing;
#[cfg(test)]
mod migrate;
#[cfg(test)]
mod mount;
#[cfg(test)]
mod sinks;
pub mod target;
#[cfg(test)]
mod tests;
#[cfg(test)]
mod trees;
#[cfg(test)]
mod writer;
