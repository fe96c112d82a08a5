//! The instructions of the programs of a source, each with its line in the source and its line in the program.
ghost use Rattle.std.specs.Prelude.{◌≡◌, ◌+◌, ◌<◌, ◌^◌, length, IfOk};
ghost use Rattle.pv_model.specs.Machine.{quote, quote_byte};
ghost use Rattle.pv_source.specs.Located.{NumbersAreOfTranslation, located_from, located_block_lines, located_instruction, located_lines, place_text, AppendsLocated};
ghost use Rattle.pv_source.specs.ReadBlocks.{parsed_block};
ghost use Rattle.pv_source.specs.ReadPrograms.{instruction_with, program_lines_in, taken_in};
ghost use Rattle.pv_source.specs.Appending.{AppendsText, AppendsLines};

use crate::blocks::{Block, Kind, next_block};
use crate::entries::exec_path;
use crate::lines::Lines;
use crate::programs::{
    Label, Labelled, instruction_count, labels_of, next_labelled, push_instruction,
};
use crate::words::has_no_word;
use itoa::Buffer;
use pv_model::is_plain;
use pv_streams::escape;
use pv_text::lines::split_line;
use std::alloc::{AllocError, Global};

/// The instruction with number K of a program is line K of the program in the translation.
pub fn numbers_are_of_the_translation()
    ensures { NumbersAreOfTranslation }
{}

// Appends a byte as it is written between quotation marks.
fn push_quoted_byte(byte: u8, out: &mut Vec<u8>) -> Result<(), AllocError>
    ensures { AppendsText (quote_byte byte) out.old out.new result }
{
    if is_plain(byte) {
        out.push(byte)?;
        return Ok(());
    }
    out.extend_from_slice(&escape(byte))
}

// Appends a text in quotation marks.
fn push_quoted(text: &[u8], out: &mut Vec<u8>) -> Result<(), AllocError>
    ensures { AppendsText (quote text.now) out.old out.new result }
{
    out.push(b'"')?;
    for byte in text {
        push_quoted_byte(*byte, out)?;
    }
    out.push(b'"')?;
    Ok(())
}

// Appends the place of an instruction: its line in the source, the path of its program, and its line in the program.
fn push_place(path: &[u8], line: u32, number: u32, out: &mut Vec<u8>) -> Result<(), AllocError>
    ensures { AppendsText (place_text path.now line number) out.old out.new result }
{
    let mut buffer = Buffer::new();
    out.extend_from_slice(buffer.format(line).as_bytes())?;
    out.extend_from_slice(b" ")?;
    push_quoted(path, out)?;
    out.extend_from_slice(b":")?;
    out.extend_from_slice(buffer.format(number).as_bytes())?;
    out.extend_from_slice(b" ")
}

// Appends the line of an instruction, if a line of a program has one.
#[tactic(auto, using(crate::proofs::LocatedLines::labelled_line))]
fn push_labelled(
    labels: &[Label],
    path: &[u8],
    number: u32,
    line: &Labelled,
    out: &mut Vec<u8>,
) -> Result<(), AllocError>
    ensures { AppendsLocated path.now (located_instruction line.now.number number (instruction_with labels.now line.now)) out.old out.new result }
{
    if has_no_word(line.words) {
        return Ok(());
    }
    push_place(path, line.number, number, out)?;
    push_instruction(labels, line.words, out)?;
    out.extend_from_slice(b"\n")
}

// Appends the lines of a program that ends with END.
fn push_program_lines(
    alloc: Global,
    path: &[u8],
    body: Lines,
    out: &mut Vec<u8>,
) -> Result<(), AllocError>
    requires { body.number + length body.text.now < 2 ^ 31 }
    ensures { AppendsLocated path.now (located_from 1 (program_lines_in body.entry)) out.old out.new result }
{
    let (labels, _) = labels_of(alloc, body)?;
    let mut number: u32 = 1;
    let mut rest = body;
    while let Some((line, following)) = next_labelled(rest) {
        push_labelled(&labels, path, number, &line, out)?;
        number += instruction_count(line.words);
        rest = following;
    }
    Ok(())
}

// Appends a line of a program whose lines are copied unchanged.
fn push_taken_line(
    path: &[u8],
    number: u32,
    line: u32,
    text: &[u8],
    out: &mut Vec<u8>,
) -> Result<(), AllocError>
    ensures { AppendsLocated path.now (located_instruction line number (Some text.now)) out.old out.new result }
{
    push_place(path, line, number, out)?;
    out.extend_from_slice(text)?;
    out.extend_from_slice(b"\n")
}

// Appends the lines of a program whose lines are copied unchanged.
fn push_taken_lines(path: &[u8], body: Lines, out: &mut Vec<u8>) -> Result<(), AllocError>
    requires { body.number + length body.text.now < 2 ^ 31 }
    ensures { AppendsLocated path.now (located_from 1 (taken_in body.entry)) out.old out.new result }
{
    let mut number: u32 = 1;
    let mut rest = body;
    while let Some((text, following)) = split_line(rest.text) {
        push_taken_line(path, number, rest.number, text, out)?;
        number += 1;
        rest = Lines {
            text: following,
            number: rest.number + 1,
        };
    }
    Ok(())
}

// Appends the lines of the program in a block.
#[tactic(auto, using(crate::proofs::LocatedLines::no_path))]
fn push_block_lines(alloc: Global, block: &Block, out: &mut Vec<u8>) -> Result<(), AllocError>
    requires { block.now.number + 1 + length block.now.body.now < 2 ^ 31 }
    ensures { AppendsLines (located_block_lines (parsed_block block.now)) out.old out.new result }
{
    let Some(path) = exec_path(block.words) else {
        return Ok(());
    };
    match block.kind {
        Kind::Program => push_program_lines(alloc, path.as_slice(), block.lines(), out),
        Kind::Taken => push_taken_lines(path.as_slice(), block.lines(), out),
        Kind::Single | Kind::CutOff | Kind::Schedule => Ok(()),
    }
}

/// Returns a line for each instruction of the programs of a source, in order: its line in the source, the path of the
/// program as a text, `:` with its line in the program, and the instruction as it is written in the translation. All
/// lines are counted from 1.
///
/// # Errors
///
/// Returns `AllocError` if memory cannot be allocated.
pub fn located_lines(alloc: Global, source: &[u8]) -> Result<Vec<u8>, AllocError>
    requires { length source.now + 1 < 2 ^ 31 }
    ensures { IfOk result (λ text. text.items ≡ located_lines source.now) }
{
    let mut out = Vec::new(alloc);
    let mut rest = Lines {
        text: source,
        number: 1,
    };
    while let Some((block, following)) = next_block(rest) {
        push_block_lines(alloc, &block, &mut out)?;
        rest = following;
    }
    Ok(out)
}
