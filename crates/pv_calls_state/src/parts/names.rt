//! Names: new nodes, links, unlinking and renaming.
ghost use Rattle.std.specs.Prelude.{◌≡◌, [], IsSome, IsTrue, IfSome, None, false};
ghost use Rattle.pv_laws_states.specs.States.{IsValid};
ghost use Rattle.pv_model.specs.Machine.{contains_directory, entries_there, collect, with_tree, node_at, find_entry, is_directory_at, is_name, is_node, with_entry, without_entry, with_new_node};
ghost use Rattle.pv_calls_state.specs.Changes.{ChangesTree};
ghost use Rattle.pv_procs.specs.OfTree.Changes.{moved, new_node, IsOtherName};
ghost use Rattle.pv_laws_trees.specs.Tree.{Appears};

use super::Parts;
use pv_model::NewNode;
use pv_procs::unveil::tree::Space;

impl Parts {
    /// Makes a new node under a name that does not exist in the directory.
    ///
    /// # Errors
    ///
    /// - `TooBig`, if the directory would exceed its maximum length.
    /// - `Full`, if the image has no free inode or too few free blocks.
    ///
    /// The state is unchanged after an error.
    pub fn make(&mut self, directory: u16, name: &[u8], kind: NewNode) -> Result<(), Space>
        requires whole { IsValid self.old }
        requires directory { Appears self.old.tree directory }
        requires name { IsTrue (is_name self.old.tree.version name.now) }
        requires absent { find_entry self.old.tree directory name.now ≡ None }
        requires text { IsTrue (is_node self.old.tree.version (new_node kind)) }
        ensures { ChangesTree result self.old self.new
            (with_new_node self.old.tree directory name.now (new_node kind.entry)) }
    {
        self.tree.invariant();
        self.files.invariant();
        let _node = self.tree.make(directory, name, kind)?;
        Ok(())
    }

    /// Gives a file or a symbolic link another name. The name must not exist in the directory.
    ///
    /// # Errors
    ///
    /// As for `make`.
    pub fn link(&mut self, directory: u16, name: &[u8], node: u16) -> Result<(), Space>
        requires whole { IsValid self.old }
        requires directory { Appears self.old.tree directory }
        requires name { IsTrue (is_name self.old.tree.version name.now) }
        requires absent { find_entry self.old.tree directory name.now ≡ None }
        requires node { IsSome (node_at self.old.tree node) }
        requires other { is_directory_at self.old.tree node ≡ false }
        ensures { ChangesTree result self.old self.new
            (with_entry self.old.tree directory name.now node) }
    {
        self.tree.invariant();
        self.files.invariant();
        self.tree.link(directory, name, node)
    }

    /// Removes a name. If it names a directory, the directory must be empty.
    pub fn unlink(&mut self, directory: u16, name: &[u8])
        requires whole { IsValid self.old }
        requires directory { IsTrue (is_directory_at self.old.tree directory) }
        requires present { IsSome (find_entry self.old.tree directory name.now) }
        requires empty { entries_there self.old.tree
            (find_entry self.old.tree directory name.now) ≡ [] }
        ensures { self.new
            ≡ collect (with_tree self.old (without_entry self.old.tree directory name.now)) }
    {
        self.files.invariant();
        self.tree.unlink(directory, name);
    }

    /// Renames a node. If the new name exists, it is replaced; a directory that is replaced must be empty.
    ///
    /// # Errors
    ///
    /// - `TooBig`, if the directory would exceed its maximum length.
    /// - `Full`, if the image has too few free blocks.
    ///
    /// The state is unchanged after an error.
    pub fn rename(&mut self, from: u16, name: &[u8], to: u16, other: &[u8]) -> Result<(), Space>
        requires whole { IsValid self.old }
        requires entry { IsOtherName self.old.tree from name.now to other.now }
        requires to { Appears self.old.tree to }
        requires clear { IfSome (find_entry self.old.tree from name.now)
            (λ n. contains_directory self.old.tree n to ≡ false) }
        requires empty { entries_there self.old.tree
            (find_entry self.old.tree to other.now) ≡ [] }
        ensures { ChangesTree result self.old self.new
            (moved self.old.tree from name.now to other.now) }
    {
        self.files.invariant();
        self.tree.rename(from, name, to, other)
    }
}
