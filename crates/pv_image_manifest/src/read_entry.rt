//! The result of parsing a line of a manifest.
ghost use Rattle.std.specs.Prelude.{IsTrue};
ghost use Rattle.pv_model.specs.Machine.{is_manifest_path};
ghost use Rattle.pv_image_manifest.specs.Contents.{is_content};

use crate::entry::Content;

/// The entry of a line of a manifest, and the number of lines after it that belong to it.
#[derive(Drop)]
pub struct ReadEntry {
    /// The path of the entry.
    pub path: Vec<u8>,
    /// The node or name that it creates.
    pub content: Content,
    /// The number of lines after its own that belong to it.
    pub lines: u32,
    pub ghost named: { IsTrue (is_manifest_path path.items) },
    pub ghost formed: { IsTrue (is_content content) },
}
