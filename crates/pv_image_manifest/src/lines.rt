//! The first line of a manifest, and lines that are skipped.
ghost use Rattle.std.specs.Prelude.{◌≡◌, ◌&&◌, ◌<◌, ◌≤◌, length, take, drop, flat_map, option_map, IfOk, IfSome, IfNone};
ghost use Rattle.pv_model.specs.Machine.{lines_of, sizes_of, with_line_end};
ghost use Rattle.pv_model.specs.Grammar.Manifests.{are_sizes, is_schedule_line};
ghost use Rattle.pv_image_manifest.specs.Reading.{held_sizes, IsEnd};

use pv_model::limits::{BLOCKS_V1, INODES};
use pv_text::arguments::two_sizes;
use pv_text::lines::{split_line, split_word};
use std::alloc::{AllocError, Global};

/// Parses the first line of a manifest: the numbers of blocks and inodes. A number greater than 4,294,967,295 is parsed
/// as 4,294,967,295.
pub fn sizes(line: &[u8]) -> Option<(u32, u32)>
    ensures { result ≡ option_map held_sizes (sizes_of line.now) }
{
    let (word, rest) = split_word(line);
    if word == b"image".as_slice() {
        two_sizes(rest)
    } else {
        None
    }
}

/// Returns whether an image can have these sizes.
pub fn are_image_sizes(blocks: u32, inodes: u32) -> bool
    ensures { result ≡ are_sizes blocks inodes }
{
    if inodes < 1 || inodes > INODES as u32 {
        return false;
    }
    (inodes + 15) / 16 < blocks && blocks <= BLOCKS_V1 as u32
}

// Returns whether a line is the one that precedes a schedule.
fn is_schedule(line: &[u8]) -> bool
    ensures { result ≡ is_schedule_line line.now }
{
    line == b"schedule".as_slice()
}

/// Returns whether a line ends a manifest. In a bundle, the line `schedule` does.
pub fn ends_manifest(in_bundle: bool, line: &[u8]) -> bool
    ensures { result ≡ (in_bundle && is_schedule_line line.now) }
{
    in_bundle && is_schedule(line)
}

/// Returns the first `count` lines of a text, each with a line feed, or `None` if there are fewer.
///
/// # Errors
///
/// Returns `AllocError` if memory cannot be allocated.
pub fn program_text(alloc: Global, count: u32, text: &[u8]) -> Result<Option<Vec<u8>>, AllocError>
    ensures fewer { IfOk result (λ o. IfNone o (length (lines_of text.now) < count)) }
    ensures enough { IfOk result (λ o. IfSome o (λ bytes. count ≤ length (lines_of text.now))) }
    ensures bytes { IfOk result (λ o. IfSome o (λ bytes. bytes.items ≡ flat_map with_line_end (take count (lines_of text.now)))) }
{
    let mut bytes = Vec::new(alloc);
    let mut rest = text;
    for _ in 0..count {
        let Some((line, following)) = split_line(rest) else {
            return Ok(None);
        };
        bytes.extend_from_slice(line)?;
        bytes.push(b'\n')?;
        rest = following;
    }
    Ok(Some(bytes))
}

/// Returns the text after its first `count` lines. It is empty if there are no more.
pub fn after_lines(count: u32, text: &[u8]) -> &[u8]
    ensures lines { lines_of result.now ≡ drop count (lines_of text.now) }
    ensures end { IsEnd result.now text.now }
{
    let mut rest = text;
    for _ in 0..count {
        let Some((_, following)) = split_line(rest) else {
            return rest;
        };
        rest = following;
    }
    rest
}
