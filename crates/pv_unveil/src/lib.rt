//! The unveil table of a process: its entries, its lock, and its answer for a place.
//!
//! An entry is for the node of a directory, or for a name in a directory. Texts of paths are neither stored nor
//! compared. `table` defines the table and its lock. `entries` stores the entries and searches an array of their keys.
//! `key` defines the keys, and `marks` a filter that avoids most searches. `rights` finds the entry that governs a
//! place of a tree, by climbing to parent directories. `law` states that this climb gives each directory the rights of
//! its parent unless it has an entry, and that every path leads to a place that can be checked. Only `Table::new`
//! allocates memory. Contracts see a `Table` as the record of `specs/Unveiled.antt`.
#![tactic(auto)]

mod entries;
mod key;
pub mod law;
mod marks;
mod rights;
pub mod table;

pub use pv_model::Judgement;
pub use pv_tree as tree;
pub use rights::above;
pub use table::{AddFault, Table};
