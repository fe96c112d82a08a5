//! Creating nodes.
ghost use Rattle.std.specs.Prelude.{◌≡◌, ◌<◌, length, IsTrue, false, None, Some, IsSome, IfOk, OnOk, OnErr};
ghost use Rattle.pv_model.specs.Machine.{greatest_entries, is_too_long, node_at, entries_at, find_entry, is_name, is_node, with_node, with_entry, with_new_node, new_number, IsWellFormed};
ghost use Rattle.pv_laws_trees.specs.Found.{AreEqualExceptAt};
ghost use Rattle.pv_laws_trees.specs.Encoded.{are_bytes, has_bytes};
ghost use Rattle.pv_laws_trees.specs.Tree.{Appears};
ghost use Rattle.pv_dirs.specs.Trees.{empty_node, LacksRoomForTree, without_node};
ghost use Rattle.pv_tree.specs.Changes.{new_node, kind_of_new, IsNewName};
ghost use Rattle.pv_tree.specs.Holding.{held_with_tree};
ghost use Rattle.pv_tree.specs.Rooms.{TreeChanges, HeldTreeChanges};
ghost use Rattle.pv_tree.specs.Present.{IsShaped};

use super::Tree;
use pv_dirs::Directories;
use pv_dirs::inodes::Space;
use pv_model::{Kind, NewNode};

// Returns the kind of a new node.
fn sort_of(kind: NewNode) -> Kind
    ensures { result ≡ kind_of_new kind.entry }
{
    match kind {
        NewNode::Directory => Kind::Directory,
        NewNode::File => Kind::File,
        NewNode::Executable => Kind::Executable,
        NewNode::Symlink(_) => Kind::Symlink,
    }
}

// Returns `text` itself. The contract shows that each of its numbers is a byte.
fn as_read(text: &[u8]) -> &[u8]
    ensures same { result.now ≡ text.now }
    ensures bytes { IsTrue (are_bytes result.now) }
{
    text
}

// Writes the contents of a new node. If there are too few free data blocks, it fails and changes nothing.
fn fill(directories: &mut Directories, node: u16, kind: NewNode) -> Result<(), Space>
    requires fresh { node_at directories.old node ≡ Some (empty_node (kind_of_new kind)) }
    requires text { IsTrue (is_node directories.old.version (new_node kind)) }
    ensures ok { OnOk result
        (directories.new ≡ with_node directories.old node (new_node kind.entry)) }
    ensures err { OnErr result (directories.new ≡ directories.old) }
    ensures full { OnErr result (LacksRoomForTree (with_node directories.old node (new_node kind.entry))) }
    ensures bytes { OnOk result (IsTrue (has_bytes (new_node kind.entry))) }
{
    match kind {
        NewNode::Symlink(text) => directories.write_at(node, 0, as_read(text)),
        _ => Ok(()),
    }
}

/// Adds an entry to a directory that has no entry of this name. It fails if the image has no room for the tree with the
/// entry.
pub(crate) fn enter(
    directories: &mut Directories,
    directory: u16,
    name: &[u8],
    node: u16,
) -> Result<(), Space>
    requires shaped { IsShaped directories.old }
    requires entry { IsNewName directories.old directory name.now }
    ensures { TreeChanges result directories.old directories.new
        (with_entry directories.old directory name.now node) }
{
    directories.add(directory, name, node)
}

// Writes the contents of a newly allocated node and gives it a name in a directory. If this fails, the node is removed.
fn furnish(
    directories: &mut Directories,
    directory: u16,
    name: &[u8],
    node: u16,
    kind: NewNode,
) -> Result<(), Space>
    requires fresh { node_at directories.old node ≡ Some (empty_node (kind_of_new kind)) }
    requires text { IsTrue (is_node directories.old.version (new_node kind)) }
    requires shaped { IsShaped (with_node directories.old node (new_node kind)) }
    requires entry { IsNewName (with_node directories.old node (new_node kind)) directory name.now }
    requires few { length (entries_at (with_node directories.old node (new_node kind)) directory)
        < greatest_entries directories.old.version }
    ensures change { TreeChanges result (without_node directories.old node) directories.new
        (with_entry (with_node directories.old node (new_node kind.entry))
        directory name.now node) }
    ensures bytes { OnOk result (IsTrue (has_bytes (new_node kind.entry))) }
{
    if fill(directories, node, kind).is_err() {
        directories.drop_inode(node);
        return Err(Space::Full);
    }
    if let Err(why) = enter(directories, directory, name, node) {
        directories.drop_inode(node);
        return Err(why);
    }
    Ok(())
}

// Creates a node under a name of a directory. If this fails, nothing changes.
fn add_node(
    directories: &mut Directories,
    directory: u16,
    name: &[u8],
    kind: NewNode,
) -> Result<u16, Space>
    requires well_formed { IsWellFormed directories.old }
    requires short { is_too_long directories.old ≡ false }
    requires entry { IsNewName directories.old directory name.now }
    requires text { IsTrue (is_node directories.old.version (new_node kind)) }
    ensures number { IfOk result (λ n. n ≡ new_number directories.old) }
    ensures within { IfOk result (λ n. n < length directories.old.nodes) }
    ensures bytes { OnOk result (IsTrue (has_bytes (new_node kind.entry))) }
    ensures change { TreeChanges result directories.old directories.new
        (with_new_node directories.old directory name.now (new_node kind.entry)) }
{
    let most = directories.version().layout().greatest_entries;
    if directories.size(directory) >= most {
        return Err(Space::TooBig);
    }
    let Some(node) = directories.fresh(sort_of(kind)) else {
        return Err(Space::Full);
    };
    if let Err(why) = furnish(directories, directory, name, node, kind) {
        return Err(why);
    }
    Ok(node)
}

impl Tree {
    /// Creates a node under a name that the directory does not have, and returns its number, the least unused one.
    ///
    /// # Errors
    ///
    /// Returns `TooBig` if the directory would exceed the maximum length. Otherwise returns `Full` if the image has no
    /// free inode or too few free blocks. If the call fails, nothing changes.
    pub fn make(&mut self, directory: u16, name: &[u8], kind: NewNode) -> Result<u16, Space>
        requires directory { Appears self.old.tree directory }
        requires name { IsTrue (is_name self.old.tree.version name.now) }
        requires absent { find_entry self.old.tree directory name.now ≡ None }
        requires text { IsTrue (is_node self.old.tree.version (new_node kind)) }
        ensures number { IfOk result (λ n. n ≡ new_number self.old.tree) }
        ensures change { HeldTreeChanges result self.old self.new
            (held_with_tree self.old
            (with_new_node self.old.tree directory name.now (new_node kind.entry))) }
        ensures elsewhere { AreEqualExceptAt directory name.now
            (find_entry self.old.tree) (find_entry self.new.tree) }
        ensures there { IfOk result (λ n. IsSome (node_at self.new.tree n)) }
    {
        let node = add_node(&mut self.directories, directory, name, kind)?;
        self.names[node as usize] = 1;
        self.parents[node as usize] = directory;
        Ok(node)
    }
}
