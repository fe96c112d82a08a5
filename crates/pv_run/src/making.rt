//! Images of manifests.
ghost use Rattle.std.specs.Prelude.{◌≤◌, length};
ghost use Rattle.pv_run.specs.Making.{MakesImage};

use crate::image::write_image;
use pv_image_manifest::{Manifest, build};
use pv_model::RunFault;
use pv_streams::{SOURCE_BYTES, Sink};
use std::alloc::Global;

/// Writes the image of a manifest: exactly the tree that the manifest makes, in an image of version 1 with the
/// manifest's sizes. All bytes that no node uses are zero. The manifest is checked before anything is written.
///
/// # Errors
///
/// - `Manifest`: the first error of the manifest, with the first line that has such an error. Out of memory is never
///   reported as an error of the manifest.
/// - `Memory`: there is no memory.
/// - `WriteImage`: a write failed. `image` received a prefix of the bytes.
///
/// After any other error nothing was written.
pub fn make_image<W: Sink>(alloc: Global, bytes: &[u8], image: &mut W) -> Result<(), RunFault>
    requires { length bytes.now ≤ SOURCE_BYTES }
    ensures { MakesImage W.Sink bytes.now image.old image.new result }
{
    let manifest = Manifest::parse(alloc, bytes)?;
    let store = build(alloc, &manifest)?;
    store.invariant();
    write_image(alloc, store.tree(), image)
}
