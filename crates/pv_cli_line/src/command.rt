//! The command line.
ghost use Rattle.std.specs.Prelude.{◌≡◌, map, None, IfOk, IfErr, option_map};
ghost use Rattle.clap.specs.Words.{kind_of, matches_of, subcommand_of};
ghost use Rattle.clap.specs.declared.error.kind.ErrorKind.TheVariants.{MissingRequiredArgument, ValueValidation};
ghost use Rattle.pv_cli_line.specs.Line.{AreFaultyFiles, AreFaultyPaths, AreGivenPaths, AreInvalidTurns, IsAsked, IsValidIn, RefusesLine, RefusesTurnsOf, RefusesWords, is_faulty, is_verbose_in, is_verbose_line, present_paths, turns_of as turns_text_of};
ghost use Rattle.pv_cli_line.specs.Parser.{pvsim_app};
ghost use Rattle.pv_cli_line.specs.Program.{is_number_error};

use crate::matches::{NoCommand, found_in};
use crate::parser::parser;
use crate::paths::is_plain_path;
use crate::superfluous::{Superfluous, superfluous_in};
use crate::texts::is_verbose;
use clap::error::ErrorKind;
use clap::{ArgMatches, Command as Parser, Error as ParserError};
use pv_cli_commands::questions::{Files, Question, is_turns};
use pv_cli_commands::{Asking, Command, InputFile, ScheduleInput};
use std::alloc::{AllocError, Global};
use std::convert::AsStr;
use thiserror::Error;

/// An error in the command line.
#[derive(Debug, Drop, Error)]
pub enum LineFault {
    /// The error of the parser, or the text of `--help` or `--version`.
    #[error("{0}")]
    Parser(ParserError),
    /// An argument is not a number, or is out of range.
    #[error("pvsim: number\n")]
    Number,
    /// There is no memory.
    #[error("pvsim: memory\n")]
    Memory,
}

impl LineFault {
    // Returns whether an argument is not a number, or is out of range.
    pub(crate) fn is_number(&self) -> bool
        ensures { result ≡ is_number_error self.now }
    {
        matches!(self, LineFault::Number)
    }
}

impl From<AllocError> for LineFault {
    ghost use Rattle.pv_cli_line.specs.declared.command.LineFault.TheVariants.{Memory};

    ghost from_gives = { λ _ fault. fault ≡ Memory };

    fn from(_error: AllocError) -> LineFault {
        LineFault::Memory
    }
}

impl From<ParserError> for LineFault {
    ghost use Rattle.pv_cli_line.specs.Line.{of_parser};

    ghost from_gives = { λ error fault. fault ≡ of_parser error };

    fn from(error: ParserError) -> LineFault {
        if error.kind() == ErrorKind::OutOfMemory {
            LineFault::Memory
        } else {
            LineFault::Parser(error)
        }
    }
}

/// A parsed command line.
#[derive(Clone, Copy)]
pub struct CommandLine<'a> {
    /// The command.
    pub command: Command<'a>,
    /// Whether an error is explained in more lines.
    pub is_verbose: bool,
}

// Returns the turns of a command, in place of a schedule.
fn turns_of(command: Command<'_>) -> Option<&str>
    ensures { option_map (λ text. text.now) result ≡ turns_text_of command.entry }
{
    match command {
        Command::Ask(asking) => match asking.schedule {
            ScheduleInput::Turns(turns) => Some(turns),
            ScheduleInput::Own | ScheduleInput::File(_) | ScheduleInput::Fair => None,
        },
        _ => None,
    }
}

// Returns the turns of a command if they are invalid.
fn faulty_turns(alloc: Global, command: Command<'_>) -> Result<Option<&str>, AllocError>
    ensures { IfOk result (λ turns. AreInvalidTurns command.entry (option_map (λ text. text.now) turns)) }
{
    let Some(turns) = turns_of(command) else {
        return Ok(None);
    };
    if is_turns(alloc, turns.as_bytes())? {
        return Ok(None);
    }
    Ok(Some(turns))
}

// Returns the error for invalid turns.
fn turns_fault(
    alloc: Global,
    parser: &mut Parser<'_>,
    turns: &str,
) -> Result<ParserError, AllocError>
    ensures { IfOk result (λ error. kind_of error ≡ ValueValidation) }
{
    let message = format!(in alloc;
        "invalid value '{turns}' for '--by <TURNS>': expected PID or PID COUNT, each from 1 to 99999, with ', ' between turns"
    )?;
    parser.error(ErrorKind::ValueValidation, message.as_str())
}

// Returns the files that a command is about, if it is about files.
fn files_of(command: Command<'_>) -> Option<Files<'_>>
    ensures { AreGivenPaths command.entry result }
{
    match command {
        Command::Ask(asking) => match asking.question {
            Question::Access { files, .. } | Question::Exposure { files, .. } => Some(files),
            _ => None,
        },
        _ => None,
    }
}

// Returns whether there is a path, and it is not plain.
fn is_faulty(path: Option<&[u8]>) -> bool
    ensures { result ≡ is_faulty path.entry }
{
    match path {
        Some(path) => !is_plain_path(path),
        None => false,
    }
}

// Returns the first of these paths that is not plain.
fn faulty_path<'a>(paths: &[Option<&'a [u8]>]) -> Option<&'a [u8]>
    ensures { AreFaultyPaths (present_paths paths.now) (option_map (λ path. path.now) result) }
{
    for path in paths {
        if is_faulty(*path) {
            return *path;
        }
    }
    None
}

// Returns the first path of a command's files that is not plain.
fn faulty_file(command: Command<'_>) -> Option<&[u8]>
    ensures { AreFaultyFiles command.entry (option_map (λ path. path.now) result) }
{
    let files = files_of(command)?;
    faulty_path(&files.to_array())
}

// Returns the error for the path of a file that is not plain.
fn file_fault(
    alloc: Global,
    parser: &mut Parser<'_>,
    path: &[u8],
) -> Result<ParserError, AllocError>
    ensures { IfOk result (λ error. kind_of error ≡ ValueValidation) }
{
    let path = std::str::from_utf8(path).unwrap_or("");
    let message = format!(in alloc;
        "invalid value '{path}' for '--file <PATH>': expected an absolute path as the answer writes it, with '/' before each name, and without '.' and '..'"
    )?;
    parser.error(ErrorKind::ValueValidation, message.as_str())
}

// Returns the error for too many files.
fn many_files(alloc: Global, parser: &mut Parser<'_>) -> Result<ParserError, AllocError>
    ensures { IfOk result (λ error. kind_of error ≡ ValueValidation) }
{
    let message = format!(in alloc; "'--file <PATH>' may be given at most 8 times")?;
    parser.error(ErrorKind::ValueValidation, message.as_str())
}

// Returns a command line, if the turns of its command are turns, and its files have plain paths.
#[tactic(auto, using(crate::proofs::PlainPaths::not_all_plain))]
fn checked<'a>(
    alloc: Global,
    parser: &mut Parser<'_>,
    command: Command<'a>,
    verbose: bool,
) -> Result<CommandLine<'a>, LineFault>
    ensures value { IfOk result (λ line. (line.command ≡ command.entry) × (line.is_verbose ≡ verbose)) }
    ensures turns { IfOk result (λ line. AreInvalidTurns line.command None) }
    ensures files { IfOk result (λ line. AreFaultyFiles line.command None) }
    ensures refused { IfErr result (RefusesTurnsOf command.entry) }
{
    if let Some(turns) = faulty_turns(alloc, command)? {
        return Err(LineFault::Parser(turns_fault(alloc, parser, turns)?));
    }
    if let Some(path) = faulty_file(command) {
        return Err(LineFault::Parser(file_fault(alloc, parser, path)?));
    }
    Ok(CommandLine {
        command,
        is_verbose: verbose,
    })
}

// Returns the arguments that the command in the matches expects.
fn expected(matches: &ArgMatches<'_>) -> &'static str {
    match matches.subcommand() {
        Some(("compare", _)) => {
            "expected FILE and OTHER, or --bundle FILE and a second bundle in place of FILE; only one of them may be '-'"
        }
        _ => {
            "expected FILE and its further arguments, or one of --bundle FILE and --source FILE in place of FILE; one of SCHEDULE, --by and --turns; and '-' only once"
        }
    }
}

// Returns the error for matches without a command. It names a superfluous word, if there is one, and otherwise the
// expected arguments.
fn no_command(
    alloc: Global,
    parser: &mut Parser<'_>,
    matches: &ArgMatches<'_>,
) -> Result<ParserError, AllocError>
    ensures { IfOk result (λ error. kind_of error ≡ MissingRequiredArgument) }
{
    let Some(Superfluous { command, word }) = superfluous_in(matches) else {
        return parser.error(ErrorKind::MissingRequiredArgument, expected(matches));
    };
    let message = format!(in alloc;
        "superfluous word '{word}' for '{command}' with these options"
    )?;
    parser.error(ErrorKind::MissingRequiredArgument, message.as_str())
}

// Parses the words of a command line.
fn parsed<'a, S: AsStr>(alloc: Global, words: &'a [S]) -> Result<CommandLine<'a>, LineFault>
    ensures asked { IfOk result (λ line. IsValidIn (subcommand_of pvsim_app (map S.text words.entry.now)) line.command) }
    ensures verbose { IfOk result (λ line. line.is_verbose
        ≡ is_verbose_in (matches_of pvsim_app (map S.text words.entry.now)) (subcommand_of pvsim_app (map S.text words.entry.now))) }
    ensures refused { IfErr result (RefusesWords (map S.text words.entry.now)) }
{
    let mut parser = parser(alloc)?;
    let matches = parser.try_get_matches_from_mut(words)?;
    match found_in(&matches) {
        Ok(command) => checked(alloc, &mut parser, command, is_verbose(&matches)),
        Err(NoCommand::Number) => Err(LineFault::Number),
        Err(NoCommand::ManyFiles) => Err(LineFault::Parser(many_files(alloc, &mut parser)?)),
        Err(NoCommand::Words) => {
            Err(LineFault::Parser(no_command(alloc, &mut parser, &matches)?))
        }
    }
}

/// Parses the words of a command line. The first word is the name of the program. Without further words, the command is
/// to run the bundle on the standard input. Otherwise it is the command in the parser's matches of the words, with its
/// arguments. Errors are explained, unless the flag `quiet` is set.
///
/// # Errors
///
/// - `Parser`: the parser rejects the words, or they ask for help or the version, or the turns of `--by` are invalid,
///   or a path of `--file` is not one that an answer writes, or there are more than 8.
/// - `Number`: a numeric argument is not a decimal number without leading zeros, or is above 4,294,967,295 or another
///   limit.
/// - `Memory`: there is no memory.
pub fn command_line_of<'a, S: AsStr>(
    alloc: Global,
    words: &'a [S],
) -> Result<CommandLine<'a>, LineFault>
    ensures asked { IfOk result (λ line. IsAsked (map S.text words.entry.now) line.command) }
    ensures verbose { IfOk result (λ line. line.is_verbose ≡ is_verbose_line (map S.text words.entry.now)) }
    ensures refused { IfErr result (RefusesLine (map S.text words.entry.now)) }
{
    if words.len() <= 1 {
        return Ok(CommandLine {
            command: Command::Ask(Asking {
                question: Question::Trace,
                input: InputFile::Bundle("-"),
                schedule: ScheduleInput::Own,
                steps: None,
            }),
            is_verbose: true,
        });
    }
    parsed(alloc, words)
}

/// Returns the command that the words of a command line ask for. The first word is the name of the program. Without
/// further words, the command is to run the bundle on the standard input.
///
/// # Errors
///
/// As for `command_line_of`.
pub fn command_of<'a, S: AsStr>(alloc: Global, words: &'a [S]) -> Result<Command<'a>, LineFault>
    ensures asked { IfOk result (IsAsked (map S.text words.entry.now)) }
    ensures refused { IfErr result (RefusesLine (map S.text words.entry.now)) }
{
    match command_line_of(alloc, words) {
        Ok(line) => Ok(line.command),
        Err(fault) => Err(fault),
    }
}
