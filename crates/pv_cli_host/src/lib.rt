//! Sources, sinks, files and directories over the operating system.
//!
//! `files` opens files by name: for reading, or for writing, in which case the file is created or truncated at the
//! first write. `directories` reads directories for import, and `targets` has the directories to which an image is
//! exported. `input` is the standard input, `output` an output stream, and `search_output` the standard output, to
//! which a search writes at once. All count their failures and are proved to implement their traits. Their contracts do
//! not know the bytes that the operating system gives or takes. `screen` is the terminal on which a search reports its
//! progress; it has no specification.
#![tactic(auto)]

pub mod directories;
pub mod files;
pub mod input;
pub mod output;
pub mod screen;
pub mod search_output;
pub mod targets;

pub use directories::{OpenedDirectory, ReadFile};
pub use files::{HostFiles, OpenedFile, WrittenFile};
pub use input::Input;
pub use output::Output;
pub use pv_cli_commands as cli_commands;
pub use pv_cli_commands::{host_copy, run};
pub use screen::{Screen, ScreenWriter, Shown};
pub use search_output::SearchOutput;
pub use targets::MadeDirectory;
