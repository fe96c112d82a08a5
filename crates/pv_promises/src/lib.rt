//! The promises of pledge(2): parsing and narrowing sets of promises, and deciding whether a call is allowed.
//!
//! `read` parses a set from a text of keywords, `missing` finds the promise that a call lacks, `order` lists the
//! promises in the order of their bits and finds the first one that would be an increase, and `pledge` has the two sets
//! of a process. Nothing here allocates memory. Contracts see a `Pledge` as the two bit sets of `specs/Pledge.antt`.
#![tactic(auto)]

mod missing;
mod order;
pub mod pledge;
pub mod read;

pub use order::{ALL, has};
pub use pledge::{Decision, Pledge};
pub use read::read_promises;
