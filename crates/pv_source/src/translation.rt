//! Translating a source in memory.
ghost use Rattle.std.specs.Prelude.{◌+◌, ◌<◌, ◌≤◌, ◌^◌, length};
ghost use Rattle.pv_source.specs.Given.{TranslatesValidSource, TranslatesSource};

use crate::source::{SourceStop, faults_text};
use crate::texts::text_of;
use crate::warnings::warnings_of;
use crate::whole::faults_of;
use pv_streams::{SOURCE_BYTES, Sink, write_through};
use std::alloc::Global;

// Returns the translation of a source without errors, and reports its warnings.
fn translated_right<E: Sink>(
    alloc: Global,
    name: &[u8],
    source: &[u8],
    reported: &mut E,
) -> Result<Vec<u8>, SourceStop>
    requires { length source.now + 1 < 2 ^ 31 }
    ensures { TranslatesValidSource E.Sink name.now source.now reported.old reported.new result }
{
    let text = text_of(alloc, source)?;
    let warnings = warnings_of(alloc, source)?;
    let warned = faults_text(alloc, name, warnings.reported())?;
    if warnings.is_empty() {
        return Ok(text);
    }
    write_through(reported, &warned)?;
    Ok(text)
}

/// Returns the manifest or bundle that a source translates to. The first twenty lines with a pledge(2) that names a
/// promise which does not exist, or with an unveil(2) with a byte that is not a permission, are reported in order on
/// `reported`, each in a line `pvsim: NAME:LINE: WHAT`. If lines have errors, the first twenty of them are reported
/// instead. A sink that was written to is flushed.
///
/// # Errors
///
/// - `Refused`: lines have errors, which were reported.
/// - `Memory`: memory cannot be allocated. Nothing was written.
/// - `Write`: a write of the errors or of the warnings failed. The sink has received a prefix of them.
pub fn translate<E: Sink>(
    alloc: Global,
    name: &[u8],
    source: &[u8],
    reported: &mut E,
) -> Result<Vec<u8>, SourceStop>
    requires { length source.now ≤ SOURCE_BYTES }
    ensures { TranslatesSource E.Sink name.now source.now reported.old reported.new result }
{
    let faults = faults_of(alloc, source)?;
    if faults.is_empty() {
        return translated_right(alloc, name, source, reported);
    }
    let text = faults_text(alloc, name, faults.reported())?;
    write_through(reported, &text)?;
    Err(SourceStop::Refused)
}
