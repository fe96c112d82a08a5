//! Parsing complete manifests, alone or in a bundle.
ghost use Rattle.std.specs.Prelude.{◌≡◌, ◌+◌, ◌<◌, ◌^◌, [], length, false, IfOk};
ghost use Rattle.pv_model.specs.Machine.{lines_of, entry_of, read_manifest};
ghost use Rattle.pv_model.specs.Grammar.Manifests.{entries_from, manifest_by};
ghost use Rattle.pv_image_manifest.specs.Reading.{IsEnd, GivesListed, GivesManifest, GivesManifestAndRest};

use crate::entry::Entry;
use crate::entry_lines::taken_by;
use crate::lines::{after_lines, are_image_sizes, ends_manifest, sizes};
use crate::manifest::Manifest;
use pv_model::ManifestFault;
use pv_text::lines::split_line;
use std::alloc::Global;

// Parses the entries from the second line on, and returns them with the text after them. In a bundle, this is the text
// after the line `schedule`; otherwise it is empty.
fn entries(
    alloc: Global,
    in_bundle: bool,
    text: &[u8],
) -> Result<(Vec<Entry>, &[u8]), ManifestFault>
    requires { length text.now + 2 < 2 ^ 32 }
    ensures exact { GivesListed result (entries_from in_bundle entry_of (lines_of text.now) 2 0) }
    ensures end { IfOk result (λ p. IsEnd p.1.now text.now) }
    ensures alone { IfOk result (λ p. in_bundle ≡ false → lines_of p.1.now ≡ []) }
{
    let mut entries = Vec::new(alloc);
    let mut rest = text;
    let mut line_number: u32 = 2;
    while let Some((line, following)) = split_line(rest) {
        if ends_manifest(in_bundle, line) {
            return Ok((entries, following));
        }
        let Some(read_entry) = taken_by(alloc, line, following)? else {
            return Err(ManifestFault::Form(line_number));
        };
        rest = after_lines(read_entry.lines, following);
        let next = line_number + 1 + read_entry.lines;
        entries.push(Entry {
            line: line_number,
            path: read_entry.path,
            content: read_entry.content,
        })?;
        line_number = next;
    }
    if in_bundle {
        Err(ManifestFault::Form(line_number))
    } else {
        Ok((entries, rest))
    }
}

/// Parses a manifest, alone or in a bundle, and returns it with the text after it.
pub(crate) fn read(
    alloc: Global,
    in_bundle: bool,
    bytes: &[u8],
) -> Result<(Manifest, &[u8]), ManifestFault>
    requires { length bytes.now + 1 < 2 ^ 32 }
    ensures exact { GivesManifestAndRest result (manifest_by in_bundle entry_of (lines_of bytes.now)) }
    ensures end { IfOk result (λ p. IsEnd p.1.now bytes.now) }
    ensures alone { IfOk result (λ p. in_bundle ≡ false → lines_of p.1.now ≡ []) }
{
    let Some((first, rest)) = split_line(bytes) else {
        return Err(ManifestFault::Form(1));
    };
    let Some((block_count, inode_count)) = sizes(first) else {
        return Err(ManifestFault::Form(1));
    };
    let (entries, following) = entries(alloc, in_bundle, rest)?;
    if !are_image_sizes(block_count, inode_count) {
        return Err(ManifestFault::Size);
    }
    let manifest = Manifest {
        blocks: block_count as u16,
        inodes: inode_count as u16,
        entries,
    };
    Ok((manifest, following))
}

impl Manifest {
    /// Parses a manifest.
    ///
    /// # Errors
    ///
    /// Returns `Form(n)` for the first line, counted from 1, that does not have the form of a line of a manifest; in an
    /// empty text, this is line 1. Returns `Size` if all lines have the right form and the sizes of the image are
    /// invalid. Returns `Memory` if memory cannot be allocated.
    pub fn parse(alloc: Global, bytes: &[u8]) -> Result<Manifest, ManifestFault>
        requires { length bytes.now + 1 < 2 ^ 32 }
        ensures { GivesManifest result (read_manifest bytes.now) }
    {
        let (manifest, _) = read(alloc, false, bytes)?;
        Ok(manifest)
    }
}
