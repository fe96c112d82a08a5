//! The entries of blocks of a source.
ghost use Rattle.std.specs.Prelude.{◌≡◌, ◌+◌, ◌<◌, ◌^◌, List, [], length, IfOk, option_map};
ghost use Rattle.pv_image_manifest.specs.Entries.{entry_of_line};
ghost use Rattle.pv_model.specs.Machine.{Bytes, lines_of, entry_of, ended, single, instructions_of};
ghost use Rattle.pv_model.specs.Source.Judged.{second_text, has_three_words, exec_path, executable, entry_of_block};
ghost use Rattle.pv_source.specs.Reading.{words_in};
ghost use Rattle.pv_source.specs.ReadBlocks.{parsed_block};
ghost use Rattle.pv_source.specs.ReadEntries.{IsEntryOf};
ghost use Rattle.pv_source.specs.ReadPrograms.{program_lines_in};

use crate::blocks::{Block, Kind};
use crate::lines::{Lines, line_count};
use crate::programs::{labels_of, push_program};
use crate::texts::push_lines;
use crate::words::{has_no_word, next_word, push_words};
use pv_image_manifest::{Content, Entry, is_manifest_path, taken_by};
use pv_model::Text;
use pv_model::limits::PROGRAM_LINES;
use pv_text::texts::text;
use std::alloc::{AllocError, Global};

/// Returns the second word of a line as a text, if it is one.
pub fn second_text(words: &[u8]) -> Option<Text>
    ensures { result ≡ second_text (words_in words.now) }
{
    let (_, rest) = next_word(words)?;
    let (word, _) = next_word(rest)?;
    let (path, following) = text(word)?;
    if following.is_empty() {
        Some(path)
    } else {
        None
    }
}

// Returns whether there are exactly three words.
fn has_three_words(words: &[u8]) -> bool
    ensures { result ≡ has_three_words (words_in words.now) }
{
    let Some((_, rest)) = next_word(words) else {
        return false;
    };
    let Some((_, rest)) = next_word(rest) else {
        return false;
    };
    let Some((_, rest)) = next_word(rest) else {
        return false;
    };
    has_no_word(rest)
}

/// Returns the path of an `exec` line of the right form.
pub fn exec_path(words: &[u8]) -> Option<Text>
    ensures { result ≡ exec_path (words_in words.now) }
{
    if !has_three_words(words) {
        return None;
    }
    let path = second_text(words)?;
    if is_manifest_path(path.as_slice()) {
        Some(path)
    } else {
        None
    }
}

// Parses the entry of a line that takes no further lines.
fn line_entry(alloc: Global, number: u32, line: &[u8]) -> Result<Option<Entry>, AllocError>
    ensures { IfOk result (λ o. option_map entry_of_line o ≡ option_map (λ taking. (number, taking.0)) (entry_of line.now [])) }
{
    match taken_by(alloc, line, b"")? {
        Some(taken) => Ok(Some(Entry {
            line: number,
            path: taken.path,
            content: taken.content,
        })),
        None => Ok(None),
    }
}

// Returns the entry of a single line.
fn single_entry(alloc: Global, number: u32, words: &[u8]) -> Result<Option<Entry>, AllocError>
    ensures { IfOk result (IsEntryOf number (entry_of_block (single number (words_in words.now)))) }
{
    let mut line = Vec::new(alloc);
    push_words(words, &mut line)?;
    line_entry(alloc, number, &line)
}

// Returns the entry of an executable file with these bytes, if the line of its path has the right form.
fn executable(
    alloc: Global,
    number: u32,
    words: &[u8],
    bytes: Vec<u8>,
) -> Result<Option<Entry>, AllocError>
    ensures { (lines : List Bytes) → bytes.items ≡ ended lines → IfOk result (IsEntryOf number (executable lines (exec_path (words_in words.now)))) }
{
    let Some(path) = exec_path(words) else {
        return Ok(None);
    };
    Ok(Some(Entry {
        line: number,
        path: Vec::from_slice(alloc, path.as_slice())?,
        content: Content::File {
            executable: true,
            bytes,
        },
    }))
}

// Returns the bytes of a program up to its END.
fn program_bytes(alloc: Global, body: Lines) -> Result<Vec<u8>, AllocError>
    requires { body.number + length body.text.now < 2 ^ 31 }
    ensures { IfOk result (λ bytes. bytes.items ≡ ended (instructions_of (program_lines_in body.entry))) }
{
    let (labels, _) = labels_of(alloc, body)?;
    let mut bytes = Vec::new(alloc);
    push_program(&labels, body, &mut bytes)?;
    Ok(bytes)
}

// Returns the bytes of lines that are copied unchanged.
fn taken_bytes(alloc: Global, text: &[u8]) -> Result<Vec<u8>, AllocError>
    ensures { IfOk result (λ bytes. bytes.items ≡ ended (lines_of text.now)) }
{
    let mut bytes = Vec::new(alloc);
    push_lines(text, &mut bytes)?;
    Ok(bytes)
}

/// Returns the entry of a block of a manifest, or `None` if it does not have the form of an entry.
///
/// # Errors
///
/// Returns `AllocError` if memory cannot be allocated.
#[tactic(auto, unfolding(pv_model::specs::Source::Judged::entry_of_block))]
pub fn entry_of_block(alloc: Global, block: &Block) -> Result<Option<Entry>, AllocError>
    requires { block.now.number + 1 + length block.now.body.now < 2 ^ 31 }
    ensures { IfOk result (IsEntryOf block.now.number (entry_of_block (parsed_block block.now))) }
{
    match block.kind {
        Kind::Single => single_entry(alloc, block.number, block.words),
        Kind::Program => {
            let bytes = program_bytes(alloc, block.lines())?;
            executable(alloc, block.number, block.words, bytes)
        }
        Kind::Taken => {
            if line_count(block.body) > PROGRAM_LINES as u32 {
                return Ok(None);
            }
            let bytes = taken_bytes(alloc, block.body)?;
            executable(alloc, block.number, block.words, bytes)
        }
        Kind::CutOff | Kind::Schedule => Ok(None),
    }
}
