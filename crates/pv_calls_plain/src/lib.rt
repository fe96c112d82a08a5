//! The system calls that walk no path, implemented on `pv_calls_state::Parts`.
//!
//! Each call has the errors and the effect that the definitions give it. `answer` has the results of calls and reports
//! them to the process. The calls are in `descriptors` (close, dup, dup2, fchdir), `files` (read, write, lseek, fstat,
//! ftruncate, getdents), `processes` (getpid, getppid, fork, wait, exit) and `pledge`. `status` encodes the bytes of
//! stat(2).
#![tactic(auto)]

pub mod answer;
pub mod descriptors;
pub mod files;
pub mod pledge;
pub mod processes;
pub mod status;

pub use pv_calls_state as calls_state;
pub use pv_calls_state::{script, unveil};
