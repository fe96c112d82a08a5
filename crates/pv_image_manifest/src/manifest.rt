//! Manifests.
ghost use Rattle.std.specs.Prelude.{IsTrue};
ghost use Rattle.pv_model.specs.Grammar.Manifests.{are_sizes};

use crate::entry::Entry;

/// A manifest: the sizes of an image, and the entries of its tree in order.
#[derive(Drop)]
pub struct Manifest {
    /// The number of blocks of the image, from 2 to 8,192.
    pub blocks: u16,
    /// The number of inodes of the image, from 1 to 4,096.
    pub inodes: u16,
    /// The entries, in the order of their lines.
    pub entries: Vec<Entry>,
    pub ghost sized: { IsTrue (are_sizes blocks inodes) },
}
