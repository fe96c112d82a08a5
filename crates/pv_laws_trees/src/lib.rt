//! Laws of directory trees, path walks and disk images.
//!
//! Each law is a function with an empty body whose contract is the statement. Statements are in `specs/`, one file per
//! subject, and contracts of other crates may cite them. Lemmas are in `proofs/`; those that proofs of code use are
//! public.
//!
//! - `tree`: well-formed trees, parents, and the changes that keep a tree well-formed. `walk`: the walk along a path as
//!   a relation, the valid places, and the part of the tree that a walk reads.
//! - `preserved`: the nodes that remain after unreferenced nodes are collected. `room`: which trees fit in an image.
//! - `image_bytes`: the bytes of an image and the tree that they hold.
#![tactic(auto)]

pub mod image_bytes;
pub mod preserved;
pub mod room;
pub mod tree;
pub mod walk;
