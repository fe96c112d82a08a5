//! Execution of commands.
ghost use Rattle.std.specs.Prelude.{◌≡◌, ◌≢◌, IfErr, IfOk};
ghost use Rattle.pv_questions.specs.declared.failure.Failure.TheVariants.{Memory};
ghost use Rattle.pv_cli_commands.specs.Commands.{AsksQuestion, LeavesFlushed, IsScheduleOf, KeepsErrors, Performs, ReadsFiles, WritesFile, WritesNoted};
ghost use Rattle.pv_questions.specs.Failures.{failure_status};
ghost use Rattle.pv_cli_commands.specs.Created.{CreatesOnly, directory_made, file_written};
ghost use Rattle.pv_cli_commands.specs.Streams.{disk_of, host_of};

use crate::command::{Asking, Command, ScheduleInput};
use crate::directories::Directories;
use crate::exporting::export_input;
use crate::importing::import_directory;
use crate::reading::{Inputs, read_inputs, settled_question, settled_schedule};
use crate::system::{Files, HostSystem};
use crate::writing::{make_file, migrate_file, run_files, write_output};
use pv_questions::{
    Failure, Inputs as Asked, Progress, Question, Turns, answer, compare, text_of_turns,
};
use pv_streams::{Sink, Source};
use std::alloc::Global;

// Returns the schedule of a question.
fn turns_of(alloc: Global, schedule: ScheduleInput<'_>, text: Vec<u8>) -> Result<Turns, Failure>
    ensures value { IfOk result (IsScheduleOf schedule.entry text) }
    ensures memory { IfErr result (λ failure. failure ≡ Memory) }
{
    match schedule {
        ScheduleInput::Own => Ok(Turns::Own),
        ScheduleInput::Fair => Ok(Turns::Fair),
        ScheduleInput::File(_) => Ok(Turns::Text(text)),
        ScheduleInput::Turns(turns) => Ok(Turns::Text(text_of_turns(alloc, turns.as_bytes())?)),
    }
}

// Answers a question about the inputs that were read.
fn ask<W: Sink, P: Progress>(
    alloc: Global,
    asking: Asking<'_>,
    inputs: Inputs,
    notes: &mut Vec<u8>,
    progress: &mut P,
    out: &mut W,
) -> Result<(), Failure>
    ensures { AsksQuestion W.Sink asking.entry inputs out.old out.new notes.new.items result }
{
    let Asking {
        question,
        schedule,
        steps,
        ..
    } = asking;
    let Inputs { first, second } = inputs;
    let asked = settled_question(question, schedule, first.format);
    let schedule = settled_schedule(question, schedule, first.format);
    let turns = turns_of(alloc, schedule, second.bytes)?;
    let inputs = Asked {
        input: first,
        turns,
        steps,
    };
    answer(alloc, asked, inputs, notes, progress, out)
}

// Carries out a command whose inputs were read.
#[tactic(auto, using(crate::proofs::CommandStatus::buffers_nothing))]
fn perform_on<F: Files + Directories + Drop, I: Drop, O: Sink + Drop, E: Sink + Drop, P: Progress>(
    alloc: Global,
    command: Command<'_>,
    inputs: Inputs,
    system: &mut HostSystem<F, I, O, E>,
    notes: &mut Vec<u8>,
    progress: &mut P,
) -> Result<(), Failure>
    ensures writes { WritesNoted (disk_of F.Files F.Reader.Source F.Writer.Sink) (host_of F.entries F.targets F.target_of F.Target.made) O.Sink E.Sink command.entry inputs system.old system.new notes.old.items notes.new.items result }
    ensures flushed { LeavesFlushed O.Sink system.old.output system.new.output result }
    ensures created { CreatesOnly (file_written command.entry) (F.created system.old.files) (F.created system.new.files) }
    ensures targets { CreatesOnly (directory_made command.entry) (F.targets system.old.files) (F.targets system.new.files) }
    ensures known { (F.bytes system.new.files ≡ F.bytes system.old.files) × (F.entries system.new.files ≡ F.entries system.old.files) }
    ensures unread { system.new.input ≡ system.old.input }
    ensures silent { WritesFile command.entry → system.new.output ≡ system.old.output }
    ensures unreported { KeepsErrors command.entry → system.new.errors ≡ system.old.errors }
{
    let HostSystem {
        files,
        output,
        errors,
        ..
    } = system;
    let Inputs { first, second } = inputs;
    match command {
        Command::Ask(asking) => {
            let inputs = Inputs { first, second };
            ask(alloc, asking, inputs, notes, progress, output)
        }
        Command::Compare { pairs, .. } => compare(alloc, pairs, first, second, progress, output),
        Command::WriteSource { source, kind } => write_output(
            alloc, kind, source, first, output, errors,
        ),
        Command::MakeImage { image, .. } => make_file(alloc, files, first, image),
        Command::RunImage { out, .. } => run_files(alloc, files, first, second, out, output),
        Command::MigrateImage {
            out,
            blocks,
            inodes,
            ..
        } => migrate_file(alloc, files, first, out, blocks, inodes),
        Command::ImportDirectory(import) => import_directory(alloc, files, import, first, errors),
        Command::ExportImage { directory, .. } => export_input(
            alloc, files, first, directory, errors,
        ),
    }
}

/// Carries out a command: reads its inputs, and then writes its output.
///
/// - `Ask` writes the answer to a question to the standard output.
/// - `Compare` writes whether the steps of the machines on two inputs differ under some schedule.
/// - `WriteSource` writes the manifest or bundle of a source, or the lines of its programs, to the standard output, and
///   reports at most twenty lines with an unknown promise or permission on the standard error. If lines are in error, it
///   writes nothing to the standard output and reports at most twenty of them on the standard error.
/// - `MakeImage` makes the image of a manifest, and writes it to a file.
/// - `RunImage` runs a schedule on an image, writes the trace to the standard output, and then writes the image after
///   the run to a file.
/// - `MigrateImage` makes an image of version 2 from one of version 1, and writes it to a file.
/// - `ImportDirectory` makes the image of a directory, and writes it to a file. Each entry that an image can't have or
///   that could not be added is reported on the standard error, in a line with its path. If there is such an entry, the
///   file is not written, unless entries that an image can't have may be skipped and all reported entries are of this
///   kind. The programs and files of a source may be added: they replace the directory's entries at their paths.
/// - `ExportImage` makes the tree of an input in a directory, which is created or must be empty. If an entry cannot be
///   made, its path in the tree is reported on the standard error; all entries before it in the listing are then made.
///
/// `Ask` replaces `notes` by the notes on the answer, which are lines for a person; the other commands leave it as it
/// is. Everything that was written to the standard output is flushed, unless a write to it failed. A search of states
/// reports to `progress`.
///
/// # Errors
///
/// The failure of `read_inputs`; then that of the command. If the input is invalid, nothing was written to the standard
/// output; after `Incomplete` and `Different`, the whole answer was written.
#[tactic(auto, using(crate::proofs::CommandStatus::failed_with_status))]
pub fn perform<
    F: Files + Directories + Drop,
    I: Source + Drop,
    O: Sink + Drop,
    E: Sink + Drop,
    P: Progress,
>(
    alloc: Global,
    command: Command<'_>,
    system: &mut HostSystem<F, I, O, E>,
    notes: &mut Vec<u8>,
    progress: &mut P,
) -> Result<(), Failure>
    ensures does { Performs (disk_of F.Files F.Reader.Source F.Writer.Sink) (host_of F.entries F.targets F.target_of F.Target.made) I.Source O.Sink E.Sink command.entry system.old system.new notes.old.items notes.new.items result }
    ensures flushed { LeavesFlushed O.Sink system.old.output system.new.output result }
    ensures failed { IfErr result (λ failure. failure_status failure ≢ 0) }

    // A writer was returned for no other file than the one that the command names, and for no other directory.
    ensures created { CreatesOnly (file_written command.entry) (F.created system.old.files) (F.created system.new.files) }
    ensures targets { CreatesOnly (directory_made command.entry) (F.targets system.old.files) (F.targets system.new.files) }
    ensures known { (F.bytes system.new.files ≡ F.bytes system.old.files) × (F.entries system.new.files ≡ F.entries system.old.files) }

    // The rest of the system is unchanged.
    ensures unread { ReadsFiles command.entry → system.new.input ≡ system.old.input }
    ensures silent { WritesFile command.entry → system.new.output ≡ system.old.output }
    ensures unreported { KeepsErrors command.entry → system.new.errors ≡ system.old.errors }
    ensures rest { system.new ≡ record system.old { files = system.new.files; input = system.new.input; output = system.new.output; errors = system.new.errors } }
{
    let inputs = read_inputs(alloc, command, system)?;
    perform_on(alloc, command, inputs, system, notes, progress)
}
