//! The command line of `pvsim`, over any files and streams: its parser, the error messages, and the exit status.
//!
//! `parser` builds the parser from the table of the commands. `matches` finds the command in the parser's matches, with
//! its texts and numbers (`texts`), and `command` returns it or the error in the command line; `superfluous` finds a
//! word too many. `fault` has the error messages, and `message` writes them. `explaining` explains the error of a command:
//! `names` has the files of the command, `kinds` the kind and encoding of a file, `readings` failed reads, and `places`
//! paths and processes that do not exist. `numbers` explains an argument that is not a number; `lines` has the lines of
//! explanations. `program` is the whole program: it carries out the command, reports an error, and returns the exit
//! status. A `main` passes it the words, the files and the streams of the operating system.
//!
//! Contracts cite the words and `clap`'s matches of them. If no command matches, the words are rejected and nothing is
//! run.
#![tactic(auto)]

pub mod command;
mod explaining;
pub mod fault;
mod kinds;
mod lines;
mod matches;
mod message;
mod names;
mod numbers;
mod parser;
mod paths;
mod places;
pub mod program;
mod readings;
mod superfluous;
mod texts;

pub use command::{CommandLine, LineFault, command_line_of, command_of};
pub use fault::Fault;
pub use program::{report, run};
