//! The inode layer: files as inodes, each with a kind and contents, on blocks.
//!
//! The layout is that of an image of either version: block 0 is a header, which this crate does not read, then come the
//! inode blocks, then the data blocks. Contracts see `Files`: the version, the contents of each inode and the number of
//! data blocks. Pointers and the owners of blocks appear only in the invariant. `layout` computes the positions of
//! inodes and their fields, `fields` reads and writes numbers in blocks, `table` reads and writes the fields of inodes
//! and the list of blocks that each owns, `inodes` defines `Inodes`, and `space` defines the error for contents that
//! cannot grow.
#![tactic(auto)]

mod fields;
mod inodes;
mod layout;
mod space;
mod table;

pub use inodes::Inodes;
pub use space::Space;
