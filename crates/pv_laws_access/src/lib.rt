//! Laws of access control: the reach of a sandboxed process, the files that stay secret, and the meaning of each
//! refusal.
//!
//! Each law is a function with an empty body whose contract is the statement, defined in `specs/`.
//!
//! - Rights: `growth`, `descent` (inheritance), `means` and `lacking` (missing promises), `moves` (rename and link).
//! - Mediation: `justice` (each touch is justified), `tables` (decisions), `promises` and `table_refusals` (refusals).
//! - Secrecy: `secrets` (one step), `sealing` (runs), `own_runs` (runs of one process), `reasons` (audits).
//! - Other effects: `origins`, `frame` (open files), `leaving` (exit and kill), `order` (getdents and listings).
//! - `*examples`: worked runs in which the subjects of these laws occur.
#![tactic(auto)]

pub mod descent;
pub mod end_examples;
pub mod examples;
pub mod frame;
pub mod growth;
pub mod justice;
pub mod lacking;
pub mod leaving;
pub mod means;
pub mod moves;
pub mod name_examples;
pub mod order;
pub mod origins;
pub mod own_runs;
pub mod promises;
pub mod reasons;
pub mod refusal_examples;
pub mod sandbox_examples;
pub mod sealing;
pub mod secrets;
pub mod table_refusals;
pub mod tables;
