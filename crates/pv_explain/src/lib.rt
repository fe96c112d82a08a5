//! Explained traces: a STEP line for each step, its explained lines, the reason of each error that neither a promise nor a
//! table caused, the effect of each execve(2) on the restraints of its process, and the reason why each walk was
//! allowed.
//!
//! `explain` runs a schedule, writes the explained lines of each step, and then writes the location of each process.
//! `pv_step_lines` makes each step and writes its lines; `explained` writes the STEP line, and the lines of a call with
//! the lines added to it, which `extra` chooses. `errors` finds why a call failed that neither a promise nor a table
//! refused, and `error_text` writes it. `prior` captures the state before a call: `restraints` has the restraints of the
//! process, and writes the effect of an execve(2) on them; `allowed` has the walks that the table allows, by the levels
//! of `levels`, and `allowed_text` writes them. `laws` states that these lines are true. `origins` records the line at
//! which each table entry was set. Contracts cite the lines that the definitions in `pv_model` and `pv_model_questions`
//! give.
#![tactic(auto)]

mod allowed;
mod allowed_text;
mod error_text;
mod errors;
mod explain;
mod explained;
mod extra;
mod laws;
mod levels;
pub mod origins;
mod prior;
mod restraints;

pub use errors::reasons_hold;
pub use explain::{Explainer, explain_schedule};
pub use extra::Extra;
pub use laws::{adds_nothing_else, allowed_lines_hold, execve_lines_hold};
pub use origins::Origins;
