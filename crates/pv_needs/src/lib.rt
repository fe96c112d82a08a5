//! Answers about a whole run: the demands of its programs on their sandboxes, and a fair schedule.
//!
//! `needs` runs a schedule and writes the needs of each program. `asking` computes the promises and the checked walks
//! of a call, `process_images` records them for each process image, that is, for each program that a process runs, and
//! `writing` writes the records. `wording` puts the targets of walks in words; it reuses the last path if that is still
//! valid (`paths`). `turns` writes a fair schedule. `worked` states the values of the definitions on small bundles.
#![tactic(auto)]

mod asking;
mod needs;
mod paths;
mod process_images;
mod turns;
mod wording;
mod worked;
mod writing;

pub use asking::{needs_either, promises_of};
pub use needs::{is_left_out, write_demands, write_needs};
pub use pv_answers as answers;
pub use pv_answers::calls_state;
pub use pv_session as session;
pub use pv_session::calls_path;
pub use turns::write_turns;
pub use worked::worked_runs_are_as_they_are_written;
