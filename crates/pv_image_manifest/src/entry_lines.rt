//! Parsing a line of a manifest, with the lines that belong to it.
ghost use Rattle.std.specs.Prelude.{IfOk};
ghost use Rattle.pv_model.specs.Machine.{text_at, word_at, one_argument, two_arguments, lines_of, decimal_of, entry_of};
ghost use Rattle.pv_model.specs.Grammar.Manifests.{directory_line, file_line, executable_line, link_line, name_line, entry_by};
ghost use Rattle.pv_image_manifest.specs.Reading.{ParsesEntry};

use crate::entry::Content;
use crate::lines::program_text;
use crate::paths::{is_link_text, is_manifest_path};
use crate::read_entry::ReadEntry;
use pv_model::limits::PROGRAM_LINES;
use pv_text::arguments::{one_text, text_and_size, two_texts};
use pv_text::lines::split_word;
use std::alloc::{AllocError, Global};

// Parses the entry of a `dir` line.
fn directory(
    alloc: Global,
    arguments: &[u8],
    following: &[u8],
) -> Result<Option<ReadEntry>, AllocError>
    ensures { IfOk result (λ o. ParsesEntry o (directory_line (one_argument text_at arguments.now)) (lines_of following.now)) }
{
    let _ = following;
    let Some(path) = one_text(arguments) else {
        return Ok(None);
    };
    if !is_manifest_path(path.as_slice()) {
        return Ok(None);
    }
    Ok(Some(ReadEntry {
        path: Vec::from_slice(alloc, path.as_slice())?,
        content: Content::Directory,
        lines: 0,
    }))
}

// Parses the entry of a `bytes` line.
fn file(alloc: Global, arguments: &[u8], following: &[u8]) -> Result<Option<ReadEntry>, AllocError>
    ensures { IfOk result (λ o. ParsesEntry o (file_line (two_arguments text_at text_at arguments.now)) (lines_of following.now)) }
{
    let _ = following;
    let Some((path, bytes)) = two_texts(arguments) else {
        return Ok(None);
    };
    if !is_manifest_path(path.as_slice()) {
        return Ok(None);
    }
    let bytes = Vec::from_slice(alloc, bytes.as_slice())?;
    Ok(Some(ReadEntry {
        path: Vec::from_slice(alloc, path.as_slice())?,
        content: Content::File {
            executable: false,
            bytes,
        },
        lines: 0,
    }))
}

// Parses the entry of an `exec` line, including the lines of its program.
fn executable(
    alloc: Global,
    arguments: &[u8],
    following: &[u8],
) -> Result<Option<ReadEntry>, AllocError>
    ensures { IfOk result (λ o. ParsesEntry o (executable_line (lines_of following.now) (two_arguments text_at (word_at decimal_of) arguments.now)) (lines_of following.now)) }
{
    let Some((path, lines)) = text_and_size(arguments) else {
        return Ok(None);
    };
    if !is_manifest_path(path.as_slice()) || lines > PROGRAM_LINES as u32 {
        return Ok(None);
    }
    let Some(bytes) = program_text(alloc, lines, following)? else {
        return Ok(None);
    };
    Ok(Some(ReadEntry {
        path: Vec::from_slice(alloc, path.as_slice())?,
        content: Content::File {
            executable: true,
            bytes,
        },
        lines,
    }))
}

// Parses the entry of a `link` line.
fn link(alloc: Global, arguments: &[u8], following: &[u8]) -> Result<Option<ReadEntry>, AllocError>
    ensures { IfOk result (λ o. ParsesEntry o (link_line (two_arguments text_at text_at arguments.now)) (lines_of following.now)) }
{
    let _ = following;
    let Some((path, text)) = two_texts(arguments) else {
        return Ok(None);
    };
    if !is_manifest_path(path.as_slice()) || !is_link_text(text.as_slice()) {
        return Ok(None);
    }
    let text = Vec::from_slice(alloc, text.as_slice())?;
    Ok(Some(ReadEntry {
        path: Vec::from_slice(alloc, path.as_slice())?,
        content: Content::Link(text),
        lines: 0,
    }))
}

// Parses the entry of a `name` line.
fn further_name(
    alloc: Global,
    arguments: &[u8],
    following: &[u8],
) -> Result<Option<ReadEntry>, AllocError>
    ensures { IfOk result (λ o. ParsesEntry o (name_line (two_arguments text_at text_at arguments.now)) (lines_of following.now)) }
{
    let _ = following;
    let Some((path, source)) = two_texts(arguments) else {
        return Ok(None);
    };
    if !is_manifest_path(path.as_slice()) || !is_manifest_path(source.as_slice()) {
        return Ok(None);
    }
    let source = Vec::from_slice(alloc, source.as_slice())?;
    Ok(Some(ReadEntry {
        path: Vec::from_slice(alloc, path.as_slice())?,
        content: Content::Name(source),
        lines: 0,
    }))
}

// Parses the entry of a line by its first word and the rest of the line.
fn by_word(
    alloc: Global,
    word: &[u8],
    arguments: &[u8],
    following: &[u8],
) -> Result<Option<ReadEntry>, AllocError>
    ensures { IfOk result (λ o. ParsesEntry o (entry_by word.now arguments.now (lines_of following.now)) (lines_of following.now)) }
{
    if word == b"dir".as_slice() {
        return directory(alloc, arguments, following);
    }
    if word == b"bytes".as_slice() {
        return file(alloc, arguments, following);
    }
    if word == b"exec".as_slice() {
        return executable(alloc, arguments, following);
    }
    if word == b"link".as_slice() {
        return link(alloc, arguments, following);
    }
    if word == b"name".as_slice() {
        return further_name(alloc, arguments, following);
    }
    Ok(None)
}

/// Parses the entry of a line. `following` is the text after the line. Returns `None` if the line is not an entry.
///
/// # Errors
///
/// Returns `AllocError` if memory cannot be allocated.
pub fn taken_by(
    alloc: Global,
    line: &[u8],
    following: &[u8],
) -> Result<Option<ReadEntry>, AllocError>
    ensures { IfOk result (λ o. ParsesEntry o (entry_of line.now (lines_of following.now)) (lines_of following.now)) }
{
    let (word, arguments) = split_word(line);
    by_word(alloc, word, arguments, following)
}
