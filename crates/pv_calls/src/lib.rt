//! The kernel: the calls of the machine, from the pledge check to the answer.
//!
//! `boot` starts process 1 on a tree. `calls` makes a call of a process: it checks the promises, dispatches the call
//! and reports its answer, as the definitions do. Both work on a `System` of `pv_calls_path`: the state, a name lookup,
//! and the storage that walks need. The next instruction of a process comes from its state. `law` states which answers
//! out of memory can replace.
#![tactic(auto)]

pub mod boot;
pub mod calls;
pub mod law;

pub use pv_audit as audit;
pub use pv_audit::{calls_state, namei, procs, script, tree};
pub use pv_calls_path as calls_path;
pub use pv_calls_path::calls_plain;
