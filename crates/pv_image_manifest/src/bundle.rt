//! Bundles: a manifest, the line `schedule`, and a schedule.
ghost use Rattle.std.specs.Prelude.{◌+◌, ◌<◌, ◌≤◌, ◌^◌, length, IfOk};
ghost use Rattle.pv_model.specs.Machine.{read_bundle};
ghost use Rattle.pv_image_manifest.specs.Reading.{GivesBundle};

use crate::manifest::Manifest;
use crate::reading::read;
use pv_model::ManifestFault;
use std::alloc::Global;

/// A bundle: its manifest, and the offset of its schedule.
#[derive(Drop)]
pub struct Bundle {
    /// The manifest.
    pub manifest: Manifest,
    /// The offset at which the text of the schedule starts: after the line `schedule`. If nothing follows that line, it
    /// is the length of the bundle.
    pub schedule_at: usize,
}

impl Bundle {
    /// Parses a bundle. The text of the schedule is not parsed.
    ///
    /// # Errors
    ///
    /// Returns `Form(n)` for the first line, counted from 1, that does not have the form of a line of a manifest; if
    /// there is no line `schedule`, this is the line after the last. Returns `Size` if all lines have the right form
    /// and the sizes of the image are invalid. Returns `Memory` if memory cannot be allocated.
    pub fn parse(alloc: Global, bytes: &[u8]) -> Result<Bundle, ManifestFault>
        requires { length bytes.now + 1 < 2 ^ 32 }
        ensures exact { GivesBundle result bytes.now (read_bundle bytes.now) }
        ensures inside { IfOk result (λ bundle. bundle.schedule_at ≤ length bytes.now) }
    {
        let (manifest, following) = read(alloc, true, bytes)?;
        Ok(Bundle {
            manifest,
            schedule_at: bytes.len() - following.len(),
        })
    }
}
