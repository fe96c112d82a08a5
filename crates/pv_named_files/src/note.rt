//! The note of a file: a text with its number.
ghost use Rattle.std.specs.Prelude.{◌≡◌, IfOk};
ghost use Rattle.pv_named_files.specs.Notes.{note};

use std::alloc::{AllocError, Global};

/// Returns the note of a file.
///
/// # Errors
///
/// `AllocError`, if there is no memory.
pub fn note_of(alloc: Global, node: u16) -> Result<Vec<u8>, AllocError>
    ensures { IfOk result (λ bytes. bytes.items ≡ note node) }
{
    let mut bytes = Vec::new(alloc);
    bytes.push(0)?;
    bytes.push((node / 256) as u8)?;
    bytes.push((node % 256) as u8)?;
    Ok(bytes)
}
