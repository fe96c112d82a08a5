//! A running machine: steps, turns and schedules, with their trace lines and audits.
//!
//! `session` has `Session`, which owns the state with its name cache, the texts of the last call, and the buffer for
//! trace lines. A contract sees it as a state, which `parts` lends for reading. `step` makes one step; `trace_step`
//! also writes its lines; `pass` makes consecutive steps on registers at once. `copy_from` makes a machine equal to
//! another one. `audit` checks a file. If it is sealed, no later step depends on its bytes (confidentiality); if it is
//! also frozen, no later step changes it (integrity).
//!
//! `observing` runs the turns of a schedule with an observer, which makes the steps. `running` has the observer of a
//! trace, which writes the lines of each step before it makes the next, and that of a run without lines.
#![tactic(auto)]

mod observing;
mod running;
mod session;

pub use observing::{RunObserver, run_with};
pub use pv_calls::{audit, calls_path, calls_plain};
pub use running::{pass_schedule, run_schedule, step_count};
pub use session::Session;
