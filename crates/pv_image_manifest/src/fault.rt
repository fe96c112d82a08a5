//! The errors of adding an entry to a tree.
ghost use Rattle.std.specs.Prelude.{◌≡◌};
ghost use Rattle.pv_image_manifest.specs.Adding.{error_at_line};

use pv_model::ManifestFault;

/// Why an entry cannot be added to a tree.
#[derive(Clone, Copy, Debug)]
pub enum EntryFault {
    /// The parent of its path is not a directory.
    Parent,
    /// Its name exists already.
    Exists,
    /// The source of another name is not a file or symbolic link.
    Source,
    /// The image has too few inodes or blocks, or the directory has no room for another name.
    Room,
}

impl EntryFault {
    /// Returns the error of a manifest with the entry in this line.
    pub(crate) fn at_line(self, line: u32) -> ManifestFault
        ensures { result ≡ error_at_line line self }
    {
        match self {
            EntryFault::Parent => ManifestFault::Parent(line),
            EntryFault::Exists => ManifestFault::Exists(line),
            EntryFault::Source => ManifestFault::Source(line),
            EntryFault::Room => ManifestFault::Room(line),
        }
    }
}
