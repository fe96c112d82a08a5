//! The system calls that walk a path: the walk, the unveil check of the place where it ends, and the effect there.
//!
//! All calls work on a `System` (module `system`): the state, a name lookup, and storage for places behind links
//! (`links`). `reach` walks and checks. `programs` loads a program from a file. The calls are in `opening` (open,
//! openat), `looking` (stat, lstat, readlink), `names` (mkdir, symlink, link, unlink, rmdir), `rename`, `chdir`,
//! `unveil` and `execve`. `ends` computes where the walks of a call end without making the call.
#![tactic(auto)]

pub mod chdir;
pub mod ends;
pub mod execve;
pub mod links;
pub mod looking;
pub mod names;
pub mod opening;
pub mod programs;
mod reach;
pub mod rename;
pub mod system;
pub mod unveil;

pub use pv_calls_plain as calls_plain;
