//! The needs of each program under all schedules, and the promises and permissions that it holds and never uses.
//!
//! `policy` goes over the visited states of a search of `pv_explore`, and writes the lines at the end. `walks` finds
//! how many walks a call begins, if the call counts, and `note` records the call: `asked` finds the walks that were
//! checked and the permissions that they used, and `noted` has the record. `program_use` keeps the calls of each
//! program, in tables of `promises`, `targets` and `granted`, which have only the data of the lines. `writing` gives
//! the lines of the programs, and `text` those of a call. `specs/Usage` specifies the tables, call by call, and
//! `proofs/Collected` proves that they give the lines of the definition.
#![tactic(auto)]

mod asked;
mod granted;
mod note;
mod noted;
mod policy;
mod program_use;
mod promises;
mod targets;
mod text;
mod walks;
mod writing;

pub use policy::write_policy;
pub use pv_needs as needs;
pub use pv_needs::{answers, calls_state};
pub use pv_reduced as reduced;
