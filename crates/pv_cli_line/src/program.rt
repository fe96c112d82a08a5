//! The whole program.
ghost use Rattle.std.specs.Prelude.{◌≡◌, ◌≢◌, map, ◌&&◌};
ghost use Rattle.pv_cli_commands.specs.OfQuestions.Failures.{failure_status as command_status_of};
ghost use Rattle.pv_cli_commands.specs.Streams.{disk_of, host_of};
ghost use Rattle.pv_cli_line.specs.declared.fault.Fault.TheVariants.{Command as OfCommand, Line as OfLine};
ghost use Rattle.pv_cli_line.specs.Program.{EndsRequest, EndsWith, IsRequest, ReportsError, ReportsAll, WritesNotes, is_explained, is_number_error};

use crate::command::{CommandLine, LineFault, command_line_of};
use crate::explaining::{explain, is_explained};
use crate::fault::Fault;
use crate::message::write_message;
use crate::numbers::explain_number;
use pv_cli_commands::{Directories, Failure, Files, HostSystem, Progress, Target, perform};
use pv_streams::{Failed, Sink, Source, write_through};
use std::alloc::Global;
use std::convert::AsStr;

/// Reports an error and returns the exit status. The message is written to the standard error; help and the version are
/// written to the standard output. If they cannot be written or flushed, the status is 4, and the standard error says
/// so. An error that is already reported is not reported again.
pub fn report<F: Drop, I: Drop, O: Sink + Drop, E: Sink + Drop>(
    fault: &Fault,
    system: &mut HostSystem<F, I, O, E>,
) -> u8
    ensures reports { ReportsError O.Sink E.Sink fault.now system.old system.new result }
    ensures flushed { O.buffered system.old.output ≡ 0 → result ≢ 4 → O.buffered system.new.output ≡ 0 }
{
    let status = fault.status();
    if fault.is_reported() {
        return status;
    }
    if status != 0 {
        let _written = write_message(fault, &mut system.errors);
        return status;
    }
    match write_message(fault, &mut system.output) {
        Ok(()) => status,
        Err(Failed) => {
            let unwritten = Fault::Command(Failure::Write(Target::Output));
            let _written = write_message(&unwritten, &mut system.errors);
            unwritten.status()
        }
    }
}

// Reports the error of a command, with its explanation if that is requested, and returns the exit status.
fn report_all<F: Files + Drop, I: Drop, O: Sink + Drop, E: Sink + Drop>(
    alloc: Global,
    line: CommandLine<'_>,
    failure: Failure,
    system: &mut HostSystem<F, I, O, E>,
) -> u8
    requires { command_status_of failure ≢ 0 }
    ensures reports { ReportsAll O.Sink E.Sink (OfCommand failure) (line.entry.is_verbose && is_explained failure) system.old system.new result }
    ensures output { system.new.output ≡ system.old.output }
{
    let status = report(&Fault::Command(failure), system);
    if line.is_verbose && is_explained(failure) {
        explain(
            alloc,
            &system.files,
            line.command,
            failure,
            &mut system.errors,
        );
    }
    status
}

// Reports an error in the command line, with the word that is not a number unless the words have the flag `quiet`, and
// returns the exit status.
fn report_words<S: AsStr, F: Drop, I: Drop, O: Sink + Drop, E: Sink + Drop>(
    alloc: Global,
    words: &[S],
    fault: LineFault,
    system: &mut HostSystem<F, I, O, E>,
) -> u8
    ensures reports { ReportsAll O.Sink E.Sink (OfLine fault) (is_number_error fault) system.old system.new result }
    ensures flushed { O.buffered system.old.output ≡ 0 → result ≢ 4 → O.buffered system.new.output ≡ 0 }
{
    let is_number = fault.is_number();
    let status = report(&Fault::Line(fault), system);
    if is_number {
        explain_number(alloc, words, &mut system.errors);
    }
    status
}

// Writes the notes on an answer to the standard error, if they are requested, and returns the exit status of
// success. If a write fails, nothing more is written.
#[tactic(auto, using(crate::proofs::ReportedErrors::notes_unrequested, crate::proofs::ReportedErrors::notes_absent, crate::proofs::ReportedErrors::notes_written))]
fn report_notes<F: Drop, I: Drop, O: Drop, E: Sink + Drop>(
    requested: bool,
    notes: &[u8],
    system: &mut HostSystem<F, I, O, E>,
) -> u8
    ensures notes { WritesNotes E.Sink requested notes.now system.old system.new }
    ensures status { result ≡ 0 }
{
    if !requested {
        return 0;
    }
    if notes.is_empty() {
        return 0;
    }
    let _written = write_through(&mut system.errors, notes);
    0
}

/// Runs the program: carries out the command in the words, whose first is the name of the program, reports an error to
/// a person, and returns the exit status.
///
/// The status is 0 on success and after help or the version, 1 if the input is invalid, 2 for an error in the command
/// line, 3 if there is no memory, 4 if a read or a write fails, 5 if a search left a state out, and 6 if the steps of two
/// inputs differ. Each of the words `--help`, `-h`, `--version` and `-V` alone shows help or the version: the status is 0,
/// unless there is no memory or a write fails. Unless the words have the flag `quiet`, an error is explained in lines
/// that begin with two spaces, and notes on an answer are written to the standard error in lines that begin with
/// `pvsim: note: `. If the standard output had nothing buffered and the status is not 4, it has nothing buffered
/// afterwards. A search of states reports to `progress`.
pub fn run<
    S: AsStr,
    F: Files + Directories + Drop,
    I: Source + Drop,
    O: Sink + Drop,
    E: Sink + Drop,
    P: Progress,
>(alloc: Global, words: &[S], system: &mut HostSystem<F, I, O, E>, progress: &mut P) -> u8
    ensures ends { EndsWith (disk_of F.Files F.Reader.Source F.Writer.Sink) (host_of F.entries F.targets F.target_of F.Target.made) I.Source O.Sink E.Sink
        (map S.text words.now) system.old system.new result }
    ensures request { IsRequest (map S.text words.now) → EndsRequest O.Sink E.Sink system.old system.new result }
    ensures flushed { O.buffered system.old.output ≡ 0 → result ≢ 4 → O.buffered system.new.output ≡ 0 }
{
    let line = match command_line_of(alloc, words) {
        Ok(line) => line,
        Err(fault) => return report_words(alloc, words, fault, system),
    };
    let mut notes = Vec::new(alloc);
    match perform(alloc, line.command, system, &mut notes, progress) {
        Ok(()) => report_notes(line.is_verbose, &notes, system),
        Err(failure) => report_all(alloc, line, failure, system),
    }
}
