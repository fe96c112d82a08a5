//! Listings: a line for each name of a tree. All entries of a directory follow its line.
//!
//! `remarks` defines the trait of the text about a node at a path. `listing` traverses a tree with the path of the
//! current node, which can have any length, and writes the line of each node; `next_child` is a step of the traversal.
//! `line` has the lines of the listing itself, `path` writes paths, and `verdict` the result line of an audit.
//!
//! Contracts see the lines as `pv_model` defines them.
#![tactic(auto)]

mod line;
mod listing;
mod path;
mod remarks;
mod verdict;

pub use listing::{next_child, write_lines, write_listing};
pub use path::{ListedPath, write_path};
pub use pv_trace as trace;
pub use remarks::Remarks;
pub use verdict::write_verdict;
