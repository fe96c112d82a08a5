//! Laws of every run that an accepted image or bundle starts.
//!
//! The laws of other crates have premises, such as a valid state. This crate proves that every accepted input satisfies
//! them. Each law is a function with an empty body whose contract is the statement.
//!
//! - `starts`: parsed programs, the tree of a manifest or an image, and the state in which a machine starts satisfy the
//!   premises.
//! - `runs`: the security laws along every run from there, with the steps of any processes in any order.
//! - `turns`: the schedules of the answer `turns`, from there.
//! - `examples`: a run with a sealed file and a frozen file.
#![tactic(auto)]

pub mod examples;
pub mod runs;
pub mod starts;
pub mod turns;
