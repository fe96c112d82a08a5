//! Laws of states, system calls, steps and runs: the general facts on which the other law crates depend.
//!
//! Each law is a function with an empty body whose contract is the statement. Statements are in `specs/`, one file per
//! subject, and contracts of other crates may cite them. Lemmas are in `proofs/`.
//!
//! - `states`: the invariant of all states of a run, and that calls, steps and runs preserve it.
//! - `held`: which nodes and open files are referenced, and which are collected.
//! - `calls`: the changes by refused, waiting and killed calls, and process numbers. `courses`: the walks that calls
//!   make, and the refusals of calls there.
//! - `steps`: concatenation of runs, and the independence of the lines of a step.
#![tactic(auto)]

pub mod calls;
pub mod courses;
pub mod held;
pub mod states;
pub mod steps;
