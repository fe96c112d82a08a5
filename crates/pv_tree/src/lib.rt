//! The file tree: names, nodes and reference counts, on the blocks of an image.
//!
//! Contracts see a `HeldTree`: the specification's tree and the reference count of each node. A node exists as long as
//! it has a name or a reference. The tree always fits in its image. Lower crates hide blocks, pointers and slots. The
//! stored parents of directories and counts of names appear only in the invariant.
//!
//! `tree` defines `Tree` and its queries. Its submodules: `image` reads an existing image, `making` creates nodes,
//! `names` links, unlinks and renames, `node_names` lists the names of a node, `holding` counts references, and
//! `contents` writes files. `store` defines `Store`, a tree before boot, and `place` defines `PlaceRef`, a place with a
//! borrowed name.
#![tactic(auto)]

mod place;
mod store;
mod tree;

pub use place::PlaceRef;
pub use pv_dirs::inodes::Space;
pub use store::Store;
pub use tree::{Sizes, Tree};
