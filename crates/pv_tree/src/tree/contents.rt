//! Writing the contents of files.
ghost use Rattle.std.specs.Prelude.{◌≡◌, ◌+◌, ◌<◌, ◌≤◌, false, length, IsTrue, OnOk};
ghost use Rattle.std.specs.Result.{is_err};
ghost use Rattle.pv_dirs.specs.Trees.{node_bytes_at};
ghost use Rattle.pv_model.specs.Machine.{greatest_length, is_file, node_at, find_entry};
ghost use Rattle.pv_laws_trees.specs.Found.{AreEqualLookups};
ghost use Rattle.pv_tree.specs.Changes.{overwritten, resized_tree};
ghost use Rattle.pv_tree.specs.Holding.{held_with_tree};
ghost use Rattle.pv_tree.specs.Rooms.{HeldTreeChanges};

use super::Tree;
use pv_dirs::inodes::Space;

impl Tree {
    /// Writes `bytes` to a file at offset `at`. A gap past the end of the file is filled with zeros. A write of zero
    /// bytes changes nothing.
    ///
    /// # Errors
    ///
    /// Returns `TooBig` if the file would exceed the maximum length. Otherwise returns `Full` if the image has too few
    /// free blocks. If the call fails, nothing changes.
    pub fn write_at(&mut self, node: u16, at: u32, bytes: &[u8]) -> Result<(), Space>
        requires { IsTrue (is_file (node_at self.old.tree node)) }
        ensures change { HeldTreeChanges result self.old self.new
            (held_with_tree self.old (overwritten self.old.tree node at bytes.now)) }
        ensures end { OnOk result (0 < length bytes.now
            → at + length bytes.now ≤ greatest_length self.old.tree.version) }
        ensures found { AreEqualLookups (find_entry self.old.tree) (find_entry self.new.tree) }
    {
        self.directories.write_at(node, at, bytes)
    }

    /// Truncates a file to `size` bytes, or extends it to this length with zeros.
    ///
    /// # Errors
    ///
    /// Returns `TooBig` if the file would exceed the maximum length. Otherwise returns `Full` if the image has too few
    /// free blocks. If the call fails, nothing changes. A truncation never fails.
    pub fn cut(&mut self, node: u16, size: u32) -> Result<(), Space>
        requires { IsTrue (is_file (node_at self.old.tree node)) }
        ensures change { HeldTreeChanges result self.old self.new
            (held_with_tree self.old (resized_tree self.old.tree node size)) }
        ensures shorter { size ≤ length (node_bytes_at self.old.tree node)
            → is_err result ≡ false }
        ensures found { AreEqualLookups (find_entry self.old.tree) (find_entry self.new.tree) }
    {
        self.directories.cut(node, size)
    }
}
