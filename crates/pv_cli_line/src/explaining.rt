//! The explanation of a failure: the file, the reason of the operating system, the line, and its expected form.
//!
//! A contract says only that an explanation is written to the standard error. Each of its lines begins with two spaces.
ghost use Rattle.std.specs.Prelude.{◌≡◌, ◌≤◌, IfSome, vec_len};
ghost use Rattle.pv_cli_line.specs.Messages.{WritesMore};
ghost use Rattle.pv_cli_line.specs.Program.{is_explained};

use crate::kinds::{Kind, has_typographic_quotes, kind_of, push_encoding};
use crate::lines::{push_line, push_reason, push_shown};
use crate::names::{Names, Wanted, names_of};
use crate::places::{push_path, push_process};
use crate::readings::{push_directory, push_readings};
use pv_cli_commands::questions::{
    Format, Input, Inputs, Question, Turns, Unshown, answer, is_source,
};
use pv_cli_commands::{
    Asking, Command, Failure, Files, Import, InputFile, Origin, Refusal, ScheduleInput, Target,
};
use pv_model::{Layout, Version};
use pv_source::{Faults, faults_of};
use pv_streams::{Gathered, SOURCE_BYTES, Sink, read_whole, write_through};
use pv_text::lines::split_line;
use std::alloc::{AllocError, Global};

// Returns the line of a text with this number, counted from 1.
fn line_at(text: &[u8], number: u32) -> Option<&[u8]> {
    let mut rest = text;
    for _ in 1..number {
        let (_, following) = split_line(rest)?;
        rest = following;
    }
    let (line, _) = split_line(rest)?;
    Some(line)
}

// Returns the bytes of a file, if it can be read again.
fn bytes_of<F: Files>(alloc: Global, files: &F, name: &str) -> Option<Vec<u8>>
    ensures { IfSome result (λ bytes. vec_len bytes ≤ SOURCE_BYTES) }
{
    if !files.is_regular(name) {
        return None;
    }
    let mut reader = files.open(name).ok()?;
    read_whole(alloc, &mut reader).ok()
}

// The message for a bundle that ends before its schedule.
const UNSCHEDULED: &str = "the line 'schedule' is missing; expected it and a schedule below it";

// The message for a source that ends before its schedule.
const UNGIVEN: &str =
    "the line 'schedule' is missing; expected it and a schedule below it, or SCHEDULE, --by or --turns";

// Returns the message for a line that only a source may have, or for a text that ends before the line.
fn wanted_of(shown: Option<&[u8]>) -> &'static str {
    let Some(line) = shown else {
        return UNSCHEDULED;
    };
    if line == b"schedule".as_slice() {
        return "unexpected line 'schedule': expected a manifest without a schedule";
    }
    "expected no comment, label or extra blank; 'pvsim source' removes them"
}

// Appends the line that an error names, with its expected form.
fn push_named(
    alloc: Global,
    out: &mut Vec<u8>,
    name: &str,
    text: &[u8],
    line: u32,
) -> Result<(), AllocError> {
    let shown = line_at(text, line);
    let wanted = wanted_of(shown);
    push_line(out, format!(in alloc; "{name}:{line}: {wanted}")?.as_str())?;
    match shown {
        Some(shown) => push_shown(alloc, out, shown),
        None => Ok(()),
    }
}

// Appends the first of the lines in error that has typographic quotation marks, if there is one.
fn push_quotes(
    alloc: Global,
    out: &mut Vec<u8>,
    name: &str,
    text: &[u8],
    faults: &Faults,
) -> Result<(), AllocError> {
    for fault in faults.reported() {
        let line = fault.line;
        if has_typographic_quotes(line_at(text, line).unwrap_or(b"")) {
            let change = "typographic quotes; write '\"' and save as UTF-8 without BOM";
            return push_line(out, format!(in alloc; "{name}:{line}: {change}")?.as_str());
        }
    }
    Ok(())
}

// Returns the lines in error of a text, at most twenty, or none if the text is too long.
fn faults_in(alloc: Global, text: &[u8]) -> Result<Faults, AllocError> {
    if text.len() > SOURCE_BYTES {
        return Ok(Faults::new(alloc));
    }
    match faults_of(alloc, text) {
        Ok(faults) => Ok(faults),
        Err(_) => Err(AllocError),
    }
}

// Appends the lines in error of a text, each with its expected form. The line that the error names comes first, if a
// source may have it.
fn push_faults(
    alloc: Global,
    out: &mut Vec<u8>,
    name: &str,
    text: &[u8],
    named: Option<u32>,
) -> Result<(), AllocError> {
    let faults = faults_in(alloc, text)?;
    match named {
        Some(line) if !faults.reported().iter().any(|fault| fault.line == line) => {
            push_named(alloc, out, name, text, line)?;
        }
        None if faults.is_empty() => push_line(out, name)?,
        _ => {}
    }
    for fault in faults.reported() {
        let line = fault.line;
        out.extend_from_slice(format!(in alloc; "  {name}:{line}: ")?.as_bytes())?;
        out.extend_from_slice(fault.what.bytes())?;
        out.extend_from_slice(b"\n")?;
        if let Some(shown) = line_at(text, line) {
            push_shown(alloc, out, shown)?;
        }
    }
    push_quotes(alloc, out, name, text, &faults)
}

// Appends that a file is of another kind than expected, and returns whether it is.
fn push_kind(
    alloc: Global,
    out: &mut Vec<u8>,
    name: &str,
    kind: Kind,
    wanted: &str,
    hint: &str,
) -> Result<bool, AllocError> {
    let Some(words) = kind.words() else {
        return Ok(false);
    };
    let hint = if matches!(kind, Kind::Image | Kind::Text) {
        hint
    } else {
        ""
    };
    push_line(
        out,
        format!(in alloc; "{name}: {words}: expected {wanted}{hint}")?.as_str(),
    )?;
    Ok(true)
}

// Appends that a text is of another kind or encoding than expected, and returns whether it is.
fn push_unlike(
    alloc: Global,
    out: &mut Vec<u8>,
    names: &Names<'_>,
    name: &str,
    text: &[u8],
) -> Result<bool, AllocError> {
    let kind = kind_of(alloc, text)?;
    if kind == Kind::Text {
        return push_encoding(alloc, out, name, text);
    }
    if push_kind(alloc, out, name, kind, names.words, names.hint)? {
        return Ok(true);
    }
    push_encoding(alloc, out, name, text)
}

// Appends the explanation of an error in a text.
fn push_text<F: Files>(
    alloc: Global,
    out: &mut Vec<u8>,
    files: &F,
    names: &Names<'_>,
    named: Option<u32>,
) -> Result<(), AllocError> {
    let Some(name) = names.first_file() else {
        return push_line(out, "standard input");
    };
    match (names.wanted, named) {
        (Wanted::Any, Some(_)) => {
            return push_line(out, format!(in alloc; "{name}: {UNGIVEN}")?.as_str());
        }
        (Wanted::Source, Some(_)) => {
            return push_line(out, format!(in alloc; "{name}: {UNSCHEDULED}")?.as_str());
        }
        (Wanted::Image, _) => return push_line(out, name),
        _ => {}
    }
    let Some(bytes) = bytes_of(alloc, files, name) else {
        return push_line(out, name);
    };
    if push_unlike(alloc, out, names, name, &bytes)? {
        return Ok(());
    }
    push_faults(alloc, out, name, &bytes, named)
}

// Appends the explanation of an error in a source whose lines in error are already reported.
fn push_source<F: Files>(
    alloc: Global,
    out: &mut Vec<u8>,
    files: &F,
    names: &Names<'_>,
) -> Result<(), AllocError> {
    let Some(name) = names.first_file() else {
        return Ok(());
    };
    let Some(bytes) = bytes_of(alloc, files, name) else {
        return Ok(());
    };
    if push_unlike(alloc, out, names, name, &bytes)? {
        return Ok(());
    }
    push_quotes(alloc, out, name, &bytes, &faults_in(alloc, &bytes)?)
}

// Appends the explanation of an error in a line of a schedule.
fn push_turn<F: Files>(
    alloc: Global,
    out: &mut Vec<u8>,
    files: &F,
    name: &str,
    line: u32,
) -> Result<(), AllocError> {
    let Some(bytes) = bytes_of(alloc, files, name) else {
        return push_line(out, format!(in alloc; "{name}:{line}")?.as_str());
    };
    let kind = kind_of(alloc, &bytes)?;
    if push_kind(alloc, out, name, kind, "a schedule", "")?
        || push_encoding(alloc, out, name, &bytes)?
    {
        return Ok(());
    }
    let wanted =
        "expected PID or PID COUNT, each from 1 to 99999, with one blank between, on at most 65536 lines";
    push_line(out, format!(in alloc; "{name}:{line}: {wanted}")?.as_str())?;
    match line_at(&bytes, line) {
        Some(shown) => push_shown(alloc, out, shown),
        None => Ok(()),
    }
}

// Returns the bytes of `/init` in an image, if the image can be read again and has that file.
fn init_of<F: Files>(alloc: Global, files: &F, name: &str) -> Option<Vec<u8>> {
    let input = Input {
        format: Format::Image,
        bytes: bytes_of(alloc, files, name)?,
    };
    let inputs = Inputs {
        input,
        turns: Turns::Own,
        steps: None,
    };
    let (mut notes, mut init) = (Vec::new(alloc), Gathered::new(alloc));
    let question = Question::File("/init");
    answer(alloc, question, inputs, &mut notes, &mut Unshown, &mut init).ok()?;
    Some(init.bytes)
}

// Returns whether the first file is a text.
fn is_text<F: Files>(alloc: Global, files: &F, names: &Names<'_>) -> bool {
    match names.wanted {
        Wanted::Text | Wanted::Source => true,
        Wanted::Image => false,
        Wanted::Any => match names.first_file() {
            Some(name) => bytes_of(alloc, files, name).is_some_and(|bytes| is_source(&bytes)),
            None => true,
        },
    }
}

// Appends the explanation of an error in the program of process 1: in a text, or in the file `/init` of an image.
fn push_init<F: Files>(
    alloc: Global,
    out: &mut Vec<u8>,
    files: &F,
    names: &Names<'_>,
    line: u16,
) -> Result<(), AllocError> {
    if is_text(alloc, files, names) {
        return push_text(alloc, out, files, names, None);
    }
    let name = names.first;
    if line == 0 {
        let what = "'/init' is not an executable file";
        return push_line(out, format!(in alloc; "{name}: {what}")?.as_str());
    }
    let what = format!(in alloc;
        "line {line} of '/init': expected an instruction, on at most 256 lines"
    )?;
    let what = what.as_str();
    push_line(out, format!(in alloc; "{name}: {what}")?.as_str())?;
    let Some(init) = init_of(alloc, files, name) else {
        return Ok(());
    };
    match line_at(&init, u32::from(line)) {
        Some(shown) => push_shown(alloc, out, shown),
        None => Ok(()),
    }
}

// What a file is not that is neither an image nor a source.
const NEITHER: &str =
    "is neither an image (it does not begin with PVIMAGE1 or PVIMAGE2) nor a source (it does not begin with a line 'image BLOCKS INODES')";

// Appends that a file is neither an image nor a source, and what it is.
fn push_neither(
    alloc: Global,
    out: &mut Vec<u8>,
    name: &str,
    kind: Kind,
) -> Result<(), AllocError> {
    match kind.words() {
        Some(words) => push_line(
            out,
            format!(in alloc; "{name} {NEITHER}; {words}")?.as_str(),
        ),
        None => push_line(out, format!(in alloc; "{name} {NEITHER}")?.as_str()),
    }
}

// Appends the explanation of bytes that are not the image that they begin as.
fn push_damaged(
    alloc: Global,
    out: &mut Vec<u8>,
    name: &str,
    bytes: &[u8],
    command: Command<'_>,
) -> Result<(), AllocError> {
    let is_later = bytes.starts_with(Version::V2.magic());
    let what = if is_later && matches!(command, Command::MigrateImage { .. }) {
        "this is an image of version 2: expected one of version 1"
    } else {
        "this image is damaged: expected one that pvsim wrote"
    };
    push_line(out, format!(in alloc; "{name}: {what}")?.as_str())
}

// Appends the explanation of an error in an image.
fn push_image<F: Files>(
    alloc: Global,
    out: &mut Vec<u8>,
    files: &F,
    names: &Names<'_>,
    command: Command<'_>,
) -> Result<(), AllocError> {
    let name = names.first_words();
    let Some(name) = names.first_file() else {
        return push_line(out, name);
    };
    let Some(bytes) = bytes_of(alloc, files, name) else {
        return push_line(out, name);
    };
    let kind = kind_of(alloc, &bytes)?;
    if kind == Kind::Image {
        return push_damaged(alloc, out, name, &bytes, command);
    }
    if names.wanted == Wanted::Any {
        if push_encoding(alloc, out, name, &bytes)? {
            return Ok(());
        }
        return push_neither(alloc, out, name, kind);
    }
    if push_kind(alloc, out, name, kind, names.words, names.hint)? {
        return Ok(());
    }
    let what = "expected an image, which begins with PVIMAGE1 or PVIMAGE2";
    push_line(out, format!(in alloc; "{name}: {what}")?.as_str())
}

// Appends the explanation of sizes that a new image cannot have.
fn push_sizes(alloc: Global, out: &mut Vec<u8>, command: Command<'_>) -> Result<(), AllocError> {
    let Command::MigrateImage {
        image,
        blocks,
        inodes,
        ..
    } = command
    else {
        return Ok(());
    };
    let line = format!(in alloc;
        "BLOCKS {blocks}, INODES {inodes}: expected at most 65535 and at most 4096, not fewer inodes than {image}, and room for its tree"
    )?;
    push_line(out, line.as_str())
}

// Appends the limits of an image of this version, and, for version 1, the option for version 2.
fn push_limits(alloc: Global, out: &mut Vec<u8>, version: Version) -> Result<(), AllocError> {
    let (files, names) = (Layout::V2.greatest_length, Layout::V2.name_limit);
    let most = format!(in alloc; "files up to {files} bytes and names up to {names} bytes")?;
    let most = most.as_str();
    match version {
        Version::V1 => {
            let (files, names) = (Layout::V1.greatest_length, Layout::V1.name_limit);
            let line = format!(in alloc;
                "version 1 holds files up to {files} bytes and names up to {names} bytes; '--image-version 2' holds {most}, and more of them"
            )?;
            push_line(out, line.as_str())
        }
        Version::V2 => push_line(out, format!(in alloc; "version 2 holds {most}")?.as_str()),
    }
}

// Appends the ways out if an image cannot hold the entries of a directory.
fn push_ways_out(alloc: Global, out: &mut Vec<u8>, command: Command<'_>) -> Result<(), AllocError> {
    let Command::ImportDirectory(Import { version, skips, .. }) = command else {
        return Ok(());
    };
    push_limits(alloc, out, version)?;
    if skips {
        return Ok(());
    }
    push_line(
        out,
        "'--skip' leaves out each entry that is reported as name, size, text or kind",
    )
}

// Appends the explanation of an error in a line of the schedule of a command.
fn push_schedule<F: Files>(
    alloc: Global,
    out: &mut Vec<u8>,
    files: &F,
    names: &Names<'_>,
    command: Command<'_>,
    line: u32,
) -> Result<(), AllocError> {
    if let Some(name) = names.second {
        return push_turn(alloc, out, files, name, line);
    }
    match command {
        Command::Ask(
            Asking {
                question: Question::Audit(Some(name)) | Question::Reasons(Some(name)),
                schedule: ScheduleInput::Own,
                ..
            },
        ) if !is_text(alloc, files, names) => push_turn(alloc, out, files, name, line),
        Command::Ask(
            Asking {
                schedule: ScheduleInput::File(_),
                ..
            },
        ) => push_line(out, "standard input"),
        _ => push_text(alloc, out, files, names, None),
    }
}

// Appends the explanation of a refused input.
fn push_refusal<F: Files>(
    alloc: Global,
    out: &mut Vec<u8>,
    files: &F,
    names: &Names<'_>,
    command: Command<'_>,
    refusal: Refusal,
) -> Result<(), AllocError> {
    match refusal {
        Refusal::Short
        | Refusal::Magic
        | Refusal::Sizes
        | Refusal::Inode(_)
        | Refusal::Block(_)
        | Refusal::Directory(_)
        | Refusal::Tree(_) => push_image(alloc, out, files, names, command),
        Refusal::ManifestSizes => push_text(alloc, out, files, names, None),
        Refusal::Form(line)
        | Refusal::Parent(line)
        | Refusal::Exists(line)
        | Refusal::Source(line)
        | Refusal::Room(line) => push_text(alloc, out, files, names, Some(line)),
        Refusal::Schedule(line) => push_schedule(alloc, out, files, names, command, line),
        Refusal::Unscheduled => {
            let name = names.first_words();
            let what = "an image has no schedule; expected SCHEDULE, --by or --turns";
            push_line(out, format!(in alloc; "{name}: {what}")?.as_str())
        }
        Refusal::Init(line) => push_init(alloc, out, files, names, line),
        Refusal::NoProcess => push_process(alloc, out, command, names.first_words()),
        Refusal::NotAudited(fault) | Refusal::NotFile(fault) => {
            push_path(alloc, out, command, names.first_words(), fault)
        }
        Refusal::Small => push_sizes(alloc, out, command),
        Refusal::Lines => push_source(alloc, out, files, names),
        Refusal::Entries => push_ways_out(alloc, out, command),
    }
}

// Appends the explanation of a failed write.
fn push_target<F: Files>(
    alloc: Global,
    out: &mut Vec<u8>,
    files: &F,
    names: &Names<'_>,
    target: Target,
) -> Result<(), AllocError> {
    match (target, names.out) {
        (Target::Output, _) => push_line(out, "standard output"),
        (Target::File, Some(name)) => push_reason(
            alloc,
            out,
            name,
            files.write_reason(alloc, name),
        ),
        (Target::Directory, Some(name)) => {
            let wanted = "expected a directory that is empty or does not exist";
            push_line(out, format!(in alloc; "{name}: {wanted}")?.as_str())
        }
        _ => Ok(()),
    }
}

// Appends the explanation of a failed read.
fn push_origin<F: Files>(
    alloc: Global,
    out: &mut Vec<u8>,
    files: &F,
    names: &Names<'_>,
    command: Command<'_>,
    origin: Origin,
) -> Result<(), AllocError> {
    match (origin, command) {
        (Origin::Directory, Command::ImportDirectory(import)) => {
            push_directory(alloc, out, files, import.directory)
        }
        _ => push_readings(
            alloc,
            out,
            files,
            names.first_file(),
            second_file(alloc, files, names, command),
        ),
    }
}

// Returns the second file that a command reads.
fn second_file<'a, F: Files>(
    alloc: Global,
    files: &F,
    names: &Names<'a>,
    command: Command<'a>,
) -> Option<&'a str> {
    match command {
        Command::Ask(
            Asking {
                question: Question::Audit(Some(name)) | Question::Reasons(Some(name)),
                schedule: ScheduleInput::Own,
                input: InputFile::Any(_),
                ..
            },
        ) if !is_text(alloc, files, names) => Some(name),
        _ => names.second,
    }
}

// Returns the explanation of a command's failure.
fn explanation<F: Files>(
    alloc: Global,
    files: &F,
    command: Command<'_>,
    failure: Failure,
) -> Result<Vec<u8>, AllocError> {
    let names = &names_of(alloc, files, command);
    let mut out = Vec::new(alloc);
    match failure {
        Failure::Read(origin) => push_origin(alloc, &mut out, files, names, command, origin)?,
        Failure::Write(target) => push_target(alloc, &mut out, files, names, target)?,
        Failure::Refused(refusal) => {
            push_refusal(alloc, &mut out, files, names, command, refusal)?;
        }
        Failure::Memory | Failure::Incomplete | Failure::Different => {}
    }
    Ok(out)
}

// Returns whether a failure can be explained: it is not yet reported, or the entries of an import or the lines of a
// source are refused.
pub(crate) fn is_explained(failure: Failure) -> bool
    ensures { result ≡ is_explained failure }
{
    matches!(failure, Failure::Refused(_)) || !failure.is_reported()
}

// Writes the explanation of a command's failure. If there is no memory or a write fails, nothing more is written.
#[tactic(auto, using(crate::proofs::MessageParts::more_written, crate::proofs::MessageParts::more_nothing))]
pub(crate) fn explain<F: Files, E: Sink>(
    alloc: Global,
    files: &F,
    command: Command<'_>,
    failure: Failure,
    errors: &mut E,
)
    ensures { WritesMore E.Sink errors.old errors.new }
{
    let Ok(text) = explanation(alloc, files, command, failure) else {
        return;
    };
    let _written = write_through(errors, &text);
}
