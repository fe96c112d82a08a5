//! Error messages and the exit status.
ghost use Rattle.std.specs.Prelude.{◌≡◌};
ghost use Rattle.pv_cli_line.specs.Program.{is_reported};
ghost use Rattle.pv_cli_line.specs.Status.{kind_status, exit_status_of};

use crate::command::LineFault;
use clap::error::ErrorKind;
use pv_cli_commands::Failure;
use std::fmt;
use thiserror::Error;

/// The reason why the program fails. Its `Display` is the whole message for a person, with a newline at its end.
#[derive(Debug, Drop, Error)]
pub enum Fault {
    /// The command failed.
    #[error("{0}")]
    Command(Failure),
    /// The words of the command line are not a command, or ask for help or the version.
    #[error("{0}")]
    Line(LineFault),
    /// The words of the command line are not UTF-8.
    #[error("pvsim: the command line is not UTF-8\n")]
    Words,
}

// Returns the status of an error of the parser, or of a request for help or the version.
fn parser_status(kind: ErrorKind) -> u8
    ensures { result ≡ kind_status kind }
{
    match kind {
        ErrorKind::DisplayHelp | ErrorKind::DisplayVersion => 0,
        _ => 2,
    }
}

impl Fault {
    /// Returns the exit status: that of the failure of a command, 2 for an error in the command line, 3 if there is no
    /// memory for it, and 0 if help or the version was requested.
    pub fn status(&self) -> u8
        ensures { result ≡ exit_status_of self.now }
    {
        match self {
            Fault::Command(failure) => failure.status(),
            Fault::Line(LineFault::Parser(error)) => parser_status(error.kind()),
            Fault::Line(LineFault::Memory) => 3,
            Fault::Line(LineFault::Number) | Fault::Words => 2,
        }
    }

    /// Returns whether the command already reported the error on the standard error.
    pub fn is_reported(&self) -> bool
        ensures { result ≡ is_reported self.now }
    {
        match self {
            Fault::Command(failure) => failure.is_reported(),
            _ => false,
        }
    }
}
