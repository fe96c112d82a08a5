//! Writing the translation of a source, or the lines of its programs.
ghost use Rattle.std.specs.Prelude.{◌≡◌, ◌+◌, ◌<◌, ◌≤◌, ◌^◌, length, map, IfOk, OnOk};
ghost use Rattle.pv_source.specs.Given.{WritesOutput, WritesValidSource, output_of_source};
ghost use Rattle.pv_source.specs.Outcome.{AreLines, message_line, message_lines, line_and_message};
ghost use Rattle.pv_source.specs.Saying.{IsPrintable};
ghost use Rattle.pv_source.specs.declared.source.SourceStop.TheVariants.{Memory as MemoryStop, Write as WriteStop};
ghost use Rattle.pv_source.specs.Appending.{AppendsText};

use crate::faults::Fault;
use crate::located::located_lines;
use crate::texts::text_of;
use crate::warnings::warnings_of;
use crate::whole::faults_of;
use itoa::Buffer;
use pv_model::{Failed, ManifestFault};
use pv_streams::{SOURCE_BYTES, Sink, write_through};
use std::alloc::{AllocError, Global};

/// The output for a source without errors.
#[derive(Clone, Copy)]
pub enum Output {
    /// The manifest or bundle that the source translates to.
    Translation,
    /// A line for each instruction of the programs: its line in the source, the path of the program as a text, `:` with
    /// its line in the program, and the instruction as it is written in the translation.
    ProgramLines,
}

/// Why the output for a source was not written.
#[derive(Clone, Copy, Debug)]
pub enum SourceStop {
    /// Memory cannot be allocated.
    Memory,
    /// Lines have errors, which were reported.
    Refused,
    /// A write of the output or of the errors failed.
    Write,
}

impl From<AllocError> for SourceStop {
    ghost from_gives = { λ _ stop. stop ≡ MemoryStop };

    fn from(_error: AllocError) -> SourceStop {
        SourceStop::Memory
    }
}

impl From<ManifestFault> for SourceStop {
    ghost from_gives = { λ _ stop. stop ≡ MemoryStop };

    fn from(_fault: ManifestFault) -> SourceStop {
        SourceStop::Memory
    }
}

impl From<Failed> for SourceStop {
    ghost from_gives = { λ _ stop. stop ≡ WriteStop };

    fn from(_failed: Failed) -> SourceStop {
        SourceStop::Write
    }
}

// Appends the line of an error.
fn push_fault(name: &[u8], fault: &Fault, out: &mut Vec<u8>) -> Result<(), AllocError>
    ensures text { AppendsText (message_line name.now (line_and_message fault.now)) out.old out.new result }
    ensures line { OnOk result (IsPrintable fault.now.what) }
{
    let mut buffer = Buffer::new();
    out.extend_from_slice(b"pvsim: ")?;
    out.extend_from_slice(name)?;
    out.extend_from_slice(b":")?;
    out.extend_from_slice(buffer.format(fault.line).as_bytes())?;
    out.extend_from_slice(b": ")?;
    out.extend_from_slice(fault.what.bytes())?;
    out.extend_from_slice(b"\n")
}

// Returns the text that reports errors, one line each.
pub(crate) fn faults_text(
    alloc: Global,
    name: &[u8],
    reported: &[Fault],
) -> Result<Vec<u8>, AllocError>
    ensures text { IfOk result (λ text. text.items ≡ message_lines name.now (map line_and_message reported.now)) }
    ensures lines { OnOk result (AreLines (map line_and_message reported.now)) }
{
    let mut text = Vec::new(alloc);
    for fault in reported {
        push_fault(name, fault, &mut text)?;
    }
    Ok(text)
}

// Returns the output for a source without errors.
fn output_of(alloc: Global, output: Output, source: &[u8]) -> Result<Vec<u8>, AllocError>
    requires { length source.now + 1 < 2 ^ 31 }
    ensures { IfOk result (λ text. text.items ≡ output_of_source output source.now) }
{
    match output {
        Output::Translation => text_of(alloc, source),
        Output::ProgramLines => located_lines(alloc, source),
    }
}

// Writes the output for a source without errors, and then reports its warnings.
fn write_right<W: Sink, E: Sink>(
    alloc: Global,
    output: Output,
    name: &[u8],
    source: &[u8],
    out: &mut W,
    reported: &mut E,
) -> Result<(), SourceStop>
    requires { length source.now + 1 < 2 ^ 31 }
    ensures { WritesValidSource W.Sink E.Sink (output_of_source output source.now) name.now source.now out.old out.new reported.old reported.new result }
{
    let text = output_of(alloc, output, source)?;
    let warnings = warnings_of(alloc, source)?;
    let warned = faults_text(alloc, name, warnings.reported())?;
    write_through(out, &text)?;
    if warnings.is_empty() {
        return Ok(());
    }
    write_through(reported, &warned)?;
    Ok(())
}

/// Writes the output for a source to `out`: the manifest or bundle that it translates to, or the lines of its programs.
/// Then the first twenty lines with a pledge(2) that names a promise which does not exist, or with an unveil(2) with a
/// byte that is not a permission, are reported in order on `reported`, each in a line `pvsim: NAME:LINE: WHAT`. If
/// lines have errors, nothing is written to `out`, and the first twenty of them are reported instead. Each sink that
/// was written to is flushed.
///
/// # Errors
///
/// - `Refused`: lines have errors, which were reported.
/// - `Memory`: memory cannot be allocated. Nothing was written.
/// - `Write`: a write of the output, of the errors or of the warnings failed. The sink has received a prefix of it,
///   and nothing was written to the other sink, except that warnings follow the whole output.
pub fn write_source<W: Sink, E: Sink>(
    alloc: Global,
    output: Output,
    name: &[u8],
    source: &[u8],
    out: &mut W,
    reported: &mut E,
) -> Result<(), SourceStop>
    requires { length source.now ≤ SOURCE_BYTES }
    ensures { WritesOutput W.Sink E.Sink output name.now source.now out.old out.new reported.old reported.new result }
{
    let faults = faults_of(alloc, source)?;
    if faults.is_empty() {
        return write_right(alloc, output, name, source, out, reported);
    }
    let text = faults_text(alloc, name, faults.reported())?;
    write_through(reported, &text)?;
    Err(SourceStop::Refused)
}
