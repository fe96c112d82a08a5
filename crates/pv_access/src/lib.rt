//! The accesses of steps, and of all schedules: the files that each process can read, execute, change and open.
//!
//! `step` makes a step of a process and returns its accesses as texts. The tree changes with the step, so `candidates`
//! prepares, before a call, the texts of all accesses that it may have, each with a `condition` on its outcome. `ends`
//! finds the nodes and places of a call, `candidate` has a prepared access, and `word` has the words of lines.
//!
//! `access` writes the accesses of all schedules, which the search of `pv_explore` observes (`observer`). It then writes
//! the files of the first tree that no step reads or executes (`unread`). Lines may be about given files alone.
#![tactic(auto)]

mod access;
mod candidate;
mod candidates;
mod condition;
mod ends;
mod observer;
mod step;
mod unread;
mod word;

pub use access::write_access;
pub use step::step_with_accesses;
