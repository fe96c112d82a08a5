//! The process table: fork(2), exit(3), wait(2), and the effect of execve(2) on a process.
//!
//! The table has 32 slots for processes that are live or zombies (ended but not yet waited for), and 32 programs with
//! user counts, which live processes share. Only `Processes::new` allocates memory. Contracts see a `ProcessTable`, the
//! specification's list of processes by number with the last number that was assigned, and a `ProcessRecord`, the
//! resources of a live process. `processes` has the public interface, `record` the resources of a live process, `slot`
//! a slot of a process, `shared` a slot of a program, and `ending` ends a process.
#![tactic(auto)]

mod ending;
pub mod processes;
pub mod record;
mod shared;
mod slot;

pub use processes::{Fetched, Processes, Reap};
pub use pv_promises as promises;
pub use pv_script as script;
pub use pv_unveil as unveil;
pub use record::ProcessRecord;
