//! Laws of states that a search may identify, and of steps that it may combine.
//!
//! Two states that are equal up to a renumbering of open files, or but for dead registers and bytes of buffers, have
//! steps with equal outcomes and lines, and the steps lead to such states. The steps of a process on registers can be
//! combined with its next other step. Each law is a function with an empty body whose contract is the statement, defined
//! in `specs/`.
//!
//! - `renumbering`: the law for open files, for steps and for runs.
//! - `canonical`: the equivalence, and the canonical form of a state.
//! - `liveness`: the law for dead registers and bytes, for steps and for runs, and tests that compute which are live.
//! - `together`: the normal form of a schedule, and combined steps.
//! - `reduced`: the search that identifies states in both ways and makes the steps of a process on registers directly before
//!   its next step, and its agreement with the search of all states.
//! - `shown`: the data of a process that `access`, `policy` and `exposure` show, which the reduced search finds.
//! - `examples`: worked runs and searches, and counterexamples: a map of numbers that is not injective, and live registers
//!   and bytes.
//! - `together_examples`: worked runs, and a read, which cannot be combined with the next step.
//! - `reduced_examples`: worked searches.
#![tactic(auto)]

pub mod canonical;
pub mod examples;
pub mod liveness;
pub mod reduced;
pub mod reduced_examples;
pub mod renumbering;
pub mod shown;
pub mod together;
pub mod together_examples;
