//! Writing the image of a tree to a sink, with the sizes and version of the tree or with others.
//!
//! The image contains the root and the named nodes under their numbers: the first block, the inode table, and then the
//! blocks of each node consecutively. Unused bytes are zero. `specs/Encoding` defines each byte, and the laws in
//! `proofs/` state that the bytes are an image of the tree by the relation of `pv_model`.
//!
//! `image` writes the whole image, `content` the contents of a node, and `inode` its inode. `filling` appends bytes,
//! zeros and numbers, `window` buffers output, and `fault` defines the errors. Memory is allocated once, before
//! anything is written. The amount of it that is used does not grow with the image.
#![tactic(auto)]

mod content;
mod fault;
mod filling;
mod image;
mod inode;
mod window;

pub use fault::WriteFault;
pub use image::{needed_blocks, write_as, write_tree};
pub use pv_tree as tree;
