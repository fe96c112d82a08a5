//! The text of a translated source.
ghost use Rattle.std.specs.Prelude.{◌≡◌, ◌+◌, ◌<◌, ◌^◌, ◌∷◌, [], length, map, IfOk};
ghost use Rattle.pv_model.specs.Machine.{spaced, lines_of, blocks_of, instructions_of, written_lines, text_of_blocks};
ghost use Rattle.pv_model.specs.Source.Written.{counted_program};
ghost use Rattle.pv_source.specs.Reading.{words_in, worded_in};
ghost use Rattle.pv_source.specs.ReadBlocks.{parsed_block};
ghost use Rattle.pv_source.specs.Appending.{AppendsLines};
ghost use Rattle.pv_source.specs.ReadPrograms.{program_lines_in};

use crate::blocks::{Block, Kind, next_block};
use crate::lines::{Lines, next_line};
use crate::programs::{labels_of, push_program};
use crate::words::{push_with_last, push_words};
use itoa::Buffer;
use pv_text::lines::split_line;
use std::alloc::{AllocError, Global};

// Appends words as a line.
fn push_line(words: &[u8], out: &mut Vec<u8>) -> Result<(), AllocError>
    ensures { AppendsLines (spaced (words_in words.now) ∷ []) out.old out.new result }
{
    push_words(words, out)?;
    out.push(b'\n')?;
    Ok(())
}

/// Appends the lines of a text to `out`, each with a line feed.
///
/// # Errors
///
/// Returns `AllocError` if memory cannot be allocated.
pub fn push_lines(text: &[u8], out: &mut Vec<u8>) -> Result<(), AllocError>
    ensures { AppendsLines (lines_of text.now) out.old out.new result }
{
    let mut rest = text;
    while let Some((line, following)) = split_line(rest) {
        out.extend_from_slice(line)?;
        out.push(b'\n')?;
        rest = following;
    }
    Ok(())
}

// Appends the lines that have words.
fn push_turns(lines: Lines, out: &mut Vec<u8>) -> Result<(), AllocError>
    requires { lines.number + length lines.text.now < 2 ^ 31 }
    ensures { AppendsLines (map (λ line. spaced line.1) (worded_in lines.entry)) out.old out.new result }
{
    let mut rest = lines;
    while let Some((line, following)) = next_line(rest) {
        push_line(line.words, out)?;
        rest = following;
    }
    Ok(())
}

// Appends the line of a program with its number of instructions, and then the instructions.
fn push_counted(
    alloc: Global,
    words: &[u8],
    body: Lines,
    out: &mut Vec<u8>,
) -> Result<(), AllocError>
    requires { body.number + length body.text.now < 2 ^ 31 }
    ensures { AppendsLines (counted_program (words_in words.now) (instructions_of (program_lines_in body.entry))) out.old out.new result }
{
    let (labels, count) = labels_of(alloc, body)?;
    let mut buffer = Buffer::new();
    push_with_last(words, buffer.format(count).as_bytes(), out)?;
    out.push(b'\n')?;
    push_program(&labels, body, out)
}

// Appends the line of an executable file, and the lines that it takes.
#[tactic(auto, using(crate::proofs::WrittenTexts::ended_both))]
fn push_taken(words: &[u8], text: &[u8], out: &mut Vec<u8>) -> Result<(), AllocError>
    ensures { AppendsLines (spaced (words_in words.now) ∷ lines_of text.now) out.old out.new result }
{
    push_line(words, out)?;
    push_lines(text, out)?;
    Ok(())
}

// Appends the translation of a block.
#[tactic(auto, using(crate::proofs::WrittenTexts::bytes_counted))]
fn push_block(alloc: Global, block: &Block, out: &mut Vec<u8>) -> Result<(), AllocError>
    requires { block.now.number + 1 + length block.now.body.now < 2 ^ 31 }
    ensures { AppendsLines (written_lines (parsed_block block.now)) out.old out.new result }
{
    match block.kind {
        Kind::Single => push_line(block.words, out),
        Kind::Program => push_counted(alloc, block.words, block.lines(), out),
        Kind::Taken => push_taken(block.words, block.body, out),
        Kind::CutOff => Ok(()),
        Kind::Schedule => {
            push_line(block.words, out)?;
            push_turns(block.lines(), out)
        }
    }
}

/// Returns the translation of a source. If no line has an error, it is a manifest or bundle.
///
/// # Errors
///
/// Returns `AllocError` if memory cannot be allocated.
pub fn text_of(alloc: Global, source: &[u8]) -> Result<Vec<u8>, AllocError>
    requires { length source.now + 1 < 2 ^ 31 }
    ensures { IfOk result (λ text. text.items ≡ text_of_blocks (blocks_of source.now)) }
{
    let mut out = Vec::new(alloc);
    let mut rest = Lines {
        text: source,
        number: 1,
    };
    while let Some((block, following)) = next_block(rest) {
        push_block(alloc, &block, &mut out)?;
        rest = following;
    }
    Ok(out)
}
