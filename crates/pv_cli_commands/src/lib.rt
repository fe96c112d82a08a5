//! The commands of `pvsim`, over any files and streams: their input and output, error messages, and exit status.
//!
//! `command` has the type of commands, `reading` reads their inputs, and `performing` carries them out: `perform` reads
//! first and writes then. `writing` has the commands that write an image or the output for a source, `importing` and
//! `exporting` those on directories; questions are answered by `pv_questions`. `system` has the traits of files and
//! streams, and `directories` those of directories. A command fails for one reason, a `Failure`.
//!
//! Contracts cite the bytes that a source gives, the bytes that a sink received and has buffered, the number of
//! failures of each, the bytes of named files, and the entries of named directories. Progress reports are not
//! specified. `pv_cli_line` parses the command line.
#![tactic(auto)]

pub mod command;
pub mod directories;
mod exporting;
mod importing;
pub mod performing;
pub mod reading;
pub mod system;
mod writing;

pub use command::{Asking, Command, Import, InputFile, ScheduleInput};
pub use directories::Directories;
pub use performing::perform;
pub use pv_host_copy as host_copy;
pub use pv_questions as questions;
pub use pv_questions::{Failure, Origin, Progress, Refusal, Target, Unshown, run};
pub use pv_source::Output;
pub use reading::{Inputs, read_inputs};
pub use system::{Files, HostSystem};
