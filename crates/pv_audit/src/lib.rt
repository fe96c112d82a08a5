//! The audit of a file: whether it is sealed or frozen, or which process is not closed to it, and why.
//!
//! `verdicts` audits a file, given its node or a path. The names of the file are enumerated once for all processes.
//! `suspects` collects for each live process the permissions of its unveil table under these names (`table_access`,
//! `entries`). `reasons` then decides whether a process is closed to the file. Nothing here allocates.
#![tactic(auto)]

mod entries;
mod reasons;
mod suspects;
mod table_access;
mod verdicts;

pub use pv_calls_state as calls_state;
pub use pv_calls_state::{procs, script, tree};
pub use pv_namei as namei;
pub use reasons::{Leaks, frozen_to, leak, leaks};
pub use verdicts::{audit, audit_node, verdict_of};
