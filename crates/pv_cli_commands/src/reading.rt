//! Reading the inputs of a command.
//!
//! `read_inputs` is the only function that reads files and the standard input. It translates a source once.
ghost use Rattle.std.specs.Prelude.{◌≡◌, ◌≤◌, length, vec_len, IfOk};
ghost use Rattle.pv_cli_commands.specs.Reading.{ReadsNamedBytes, ReadsInputs, ReadsNamed, TakesInput, TakesSource, first_named, input_named, misplaced, plain_named, second_named, settled_question, settled_schedule};
ghost use Rattle.pv_cli_commands.specs.Writing.{of_source};
ghost use Rattle.pv_cli_commands.specs.Streams.{disk_of};

use crate::command::{Command, InputFile, ScheduleInput};
use crate::system::{Files, HostSystem};
use pv_questions::{Failure, Format, Input, Origin, Question, Refusal, Target, is_source};
use pv_source::{SourceStop, translate};
use pv_streams::{SOURCE_BYTES, Sink, Source, read_whole};
use std::alloc::Global;

/// What a command read. An input that it does not have is empty.
#[derive(Drop)]
pub struct Inputs {
    /// The input that has a tree, or the source.
    pub first: Input,
    /// The schedule, or the second input of a comparison.
    pub second: Input,
}

// How the bytes of a file are taken.
#[derive(Clone, Copy)]
pub(crate) enum Form {
    // As an image, or as a source, which is translated.
    Any,
    // As a source, which is translated.
    Source,
    // As they are, in this format.
    Given(Format),
}

// A file that a command reads.
#[derive(Clone, Copy)]
pub(crate) struct Named<'a> {
    pub(crate) name: &'a str,
    pub(crate) form: Form,
    // Whether `-` is the standard input.
    pub(crate) has_input: bool,
}

// Returns a file that is taken as it is, and in which `-` is a name.
fn plain(name: &str, format: Format) -> Named<'_>
    ensures { result ≡ plain_named name.entry format }
{
    Named {
        name,
        form: Form::Given(format),
        has_input: false,
    }
}

// Returns the file of an input that has a tree.
fn file_of_input(input: InputFile<'_>) -> Named<'_>
    ensures { result ≡ input_named input.entry }
{
    let (name, form) = match input {
        InputFile::Any(name) => (name, Form::Any),
        InputFile::Bundle(name) => (name, Form::Given(Format::Text)),
        InputFile::Source(name) => (name, Form::Source),
    };
    Named {
        name,
        form,
        has_input: true,
    }
}

// Returns the first file that a command reads.
pub(crate) fn first_named<'a>(command: Command<'a>) -> Option<Named<'a>>
    ensures { result ≡ first_named command.entry }
{
    match command {
        Command::Ask(asking) => Some(file_of_input(asking.input)),
        Command::Compare { first: input, .. } | Command::ExportImage { input, .. } => {
            Some(file_of_input(input))
        }
        Command::WriteSource { source, .. } => Some(file_of_input(InputFile::Bundle(source))),
        Command::ImportDirectory(import) => Some(file_of_input(InputFile::Source(import.source?))),
        Command::MakeImage { manifest, .. } => Some(plain(manifest, Format::Text)),
        Command::RunImage { image, .. } | Command::MigrateImage { image, .. } => {
            Some(plain(image, Format::Image))
        }
    }
}

// Returns the file that is the schedule of an image, if an audit names it in the place of its path.
fn misplaced<'a>(
    question: Question<'a>,
    schedule: ScheduleInput<'a>,
    format: Format,
) -> Option<&'a str>
    ensures { result ≡ misplaced question.entry schedule.entry format }
{
    match (question, schedule, format) {
        (Question::Audit(path) | Question::Reasons(path), ScheduleInput::Own, Format::Image) =>
            path,
        _ => None,
    }
}

// Returns the schedule of a question about an input of a format.
pub(crate) fn settled_schedule<'a>(
    question: Question<'a>,
    schedule: ScheduleInput<'a>,
    format: Format,
) -> ScheduleInput<'a>
    ensures { result ≡ settled_schedule question.entry schedule.entry format }
{
    match misplaced(question, schedule, format) {
        Some(name) => ScheduleInput::File(name),
        None => schedule,
    }
}

// Returns the question about an input of a format.
pub(crate) fn settled_question<'a>(
    question: Question<'a>,
    schedule: ScheduleInput<'a>,
    format: Format,
) -> Question<'a>
    ensures { result ≡ settled_question question.entry schedule.entry format }
{
    if misplaced(question, schedule, format).is_none() {
        return question;
    }
    match question {
        Question::Reasons(_) => Question::Reasons(None),
        _ => Question::Audit(None),
    }
}

// Returns the second file that a command reads, whose first input has a format.
pub(crate) fn second_named<'a>(command: Command<'a>, format: Format) -> Option<Named<'a>>
    ensures { result ≡ second_named command.entry format }
{
    match command {
        Command::Ask(asking) => match settled_schedule(asking.question, asking.schedule, format) {
            ScheduleInput::File(name) => Some(Named {
                has_input: true,
                ..plain(name, Format::Text)
            }),
            ScheduleInput::Own | ScheduleInput::Turns(_) | ScheduleInput::Fair => None,
        },
        Command::Compare { second, .. } => Some(file_of_input(second)),
        Command::RunImage { schedule, .. } => Some(plain(schedule, Format::Text)),
        Command::WriteSource { .. }
        | Command::MakeImage { .. }
        | Command::MigrateImage { .. }
        | Command::ImportDirectory(_)
        | Command::ExportImage { .. } => None,
    }
}

// Returns the failure of a source that is not written or translated.
pub(crate) fn of_source(stop: SourceStop, written: Target) -> Failure
    ensures { result ≡ of_source written stop }
{
    match stop {
        SourceStop::Memory => Failure::Memory,
        SourceStop::Refused => Failure::Refused(Refusal::Lines),
        SourceStop::Write => Failure::Write(written),
    }
}

// Returns the translation of a source, or reports its lines in error under a name.
fn translated<E: Sink>(
    alloc: Global,
    name: &str,
    source: &[u8],
    errors: &mut E,
) -> Result<Input, Failure>
    requires { length source.now ≤ SOURCE_BYTES }
    ensures { TakesSource E.Sink name.now source.now errors.old errors.new result }
{
    let bytes = match translate(alloc, name.as_bytes(), source, errors) {
        Ok(bytes) => bytes,
        Err(stop) => return Err(of_source(stop, Target::Errors)),
    };
    if bytes.len() > SOURCE_BYTES {
        return Err(Failure::Read(Origin::File));
    }
    let format = Format::Text;
    Ok(Input { format, bytes })
}

// Returns the input that a file with these bytes is.
fn input_of<E: Sink>(
    alloc: Global,
    named: Named<'_>,
    bytes: Vec<u8>,
    errors: &mut E,
) -> Result<Input, Failure>
    requires { vec_len bytes ≤ SOURCE_BYTES }
    ensures { TakesInput E.Sink named.entry bytes.items errors.old errors.new result }
{
    match named.form {
        Form::Given(format) => Ok(Input { format, bytes }),
        Form::Source => translated(alloc, named.name, &bytes, errors),
        Form::Any if is_source(&bytes) => translated(alloc, named.name, &bytes, errors),
        Form::Any => {
            let format = Format::Image;
            Ok(Input { format, bytes })
        }
    }
}

// Returns the bytes of a file, or of the standard input for `-`.
fn bytes_of<F: Files, I: Source>(
    alloc: Global,
    files: &F,
    input: &mut I,
    named: Named<'_>,
) -> Result<Vec<u8>, Failure>
    ensures reads { ReadsNamedBytes (disk_of F.Files F.Reader.Source F.Writer.Sink) I.Source files.now named.entry input.old input.new result }
    ensures size { IfOk result (λ bytes. vec_len bytes ≤ SOURCE_BYTES) }
{
    if named.has_input && named.name == "-" {
        return Ok(read_whole(alloc, input)?);
    }
    let Ok(mut file) = files.open(named.name) else {
        return Err(Failure::Read(Origin::File));
    };
    Ok(read_whole(alloc, &mut file)?)
}

// Reads a file, if there is one.
fn read_named<F: Files + Drop, I: Source + Drop, O: Drop, E: Sink + Drop>(
    alloc: Global,
    named: Option<Named<'_>>,
    system: &mut HostSystem<F, I, O, E>,
) -> Result<Input, Failure>
    ensures { ReadsNamed (disk_of F.Files F.Reader.Source F.Writer.Sink) I.Source E.Sink named.entry system.old system.new result }
{
    let Some(named) = named else {
        return Ok(Input {
            format: Format::Text,
            bytes: Vec::new(alloc),
        });
    };
    let HostSystem {
        files,
        input,
        errors,
        ..
    } = system;
    let bytes = bytes_of(alloc, files, input, named)?;
    input_of(alloc, named, bytes, errors)
}

/// Reads the inputs of a command, in order: its files, or the standard input for `-`. A source is translated, and its
/// warnings are reported on the standard error. Nothing else is read by any command, except a directory that is imported.
///
/// # Errors
///
/// - `Read`: a file cannot be opened or read, or it or its translation has more than 67,108,864 bytes.
/// - `Refused` with `Lines`: a source has lines in error, which were reported on the standard error.
/// - `Memory`: there is no memory.
/// - `Write`: a report could not be written.
pub fn read_inputs<F: Files + Drop, I: Source + Drop, O: Drop, E: Sink + Drop>(
    alloc: Global,
    command: Command<'_>,
    system: &mut HostSystem<F, I, O, E>,
) -> Result<Inputs, Failure>
    ensures { ReadsInputs (disk_of F.Files F.Reader.Source F.Writer.Sink) I.Source E.Sink command.entry system.old system.new result }
{
    let first = read_named(alloc, first_named(command), system)?;
    let second = read_named(alloc, second_named(command, first.format), system)?;
    Ok(Inputs { first, second })
}
