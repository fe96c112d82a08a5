//! The exposure of each program under all schedules: the gains of an attacker who takes over a process, line by line.
//!
//! A search visits the states, and `exposure` goes over them once. `files` lists the files of a state, with the first
//! process that is not closed to each. `reads` finds the file that the next step of a process reads, `edit` why a process is
//! not fixed to a file, and `reasons` has the text of each kind of finding. `programs` records each program that a process
//! has, with its findings (`findings`): of each kind, line and file text the first. `text` has the lines of the records, and
//! `ranges` ascending numbers as ranges.
#![tactic(auto)]

mod edit;
mod exposure;
mod files;
mod findings;
mod programs;
mod ranges;
mod reads;
mod reasons;
mod text;

pub use exposure::write_exposure;
