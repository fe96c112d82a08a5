//! Adding and removing names.
ghost use Rattle.std.specs.Prelude.{◌≡◌, [], IsTrue, false, None, IsSome, IfSome, IfOk, OnErr};
ghost use Rattle.pv_model.specs.Machine.{contains_directory, entries_there, fits, node_at, find_entry, is_directory_at, is_name, with_entry, without_entry, IsWellFormed};
ghost use Rattle.pv_laws_trees.specs.Found.{AreEqualExceptAt, AreEqualExceptAtTwo};
ghost use Rattle.pv_laws_trees.specs.Tree.{Appears};
ghost use Rattle.pv_tree.specs.Changes.{moved, IsMoveOfEntry, IsOtherName};
ghost use Rattle.pv_tree.specs.Holding.{held_with_tree, after};
ghost use Rattle.pv_tree.specs.Rooms.{TreeChanges, HeldTreeChanges};
ghost use Rattle.pv_tree.specs.Present.{IsShaped};

use super::Tree;
use super::holding::settle;
use super::making::enter;
use pv_dirs::Directories;
use pv_dirs::inodes::Space;

/// An entry that was moved.
#[derive(Clone, Copy)]
struct Moved {
    // The node of the entry.
    node: u16,
    // The previous node of the new name, if there was one.
    gone: Option<u16>,
}

// Moves an entry to another name, and removes the entry that had this name. If this fails, the entry is restored and
// nothing changes. It can fail only if there was no entry of the new name, because a removed entry leaves room for the
// moved one.
fn move_entry(
    directories: &mut Directories,
    from: u16,
    name: &[u8],
    to: u16,
    other: &[u8],
) -> Result<Moved, Space>
    requires well_formed { IsWellFormed directories.old }
    requires shaped { IsShaped directories.old }
    requires fits { IsTrue (fits directories.old) }
    requires entry { IsOtherName directories.old from name.now to other.now }
    requires to { IsTrue (is_directory_at directories.old to) }
    ensures nodes { IfOk result
        (λ m. IsMoveOfEntry directories.old from name.now to other.now m.node m.gone) }
    ensures change { TreeChanges result directories.old directories.new
        (moved directories.old from name.now to other.now) }
    ensures free { OnErr result (find_entry directories.old to other.now ≡ None) }
{
    let Some(node) = directories.remove(from, name) else {
        unreachable!()
    };
    let gone = directories.remove(to, other);
    if let Err(why) = enter(directories, to, other, node) {
        let _ = enter(directories, from, name, node);
        return Err(why);
    }
    Ok(Moved { node, gone })
}

impl Tree {
    /// Sorts the entries of the directories by name, unless they are known to be sorted. The tree does not change, but
    /// lookups and listings take fewer steps.
    pub fn order_entries(&mut self)
        ensures { self.new ≡ self.old }
    {
        self.directories.sort_slots();
    }

    /// Adds a name to a node that is not a directory. The directory has no entry of this name.
    ///
    /// # Errors
    ///
    /// Returns `TooBig` if the directory would exceed the maximum length. Otherwise returns `Full` if the image has too
    /// few free blocks. If the call fails, nothing changes.
    pub fn link(&mut self, directory: u16, name: &[u8], node: u16) -> Result<(), Space>
        requires directory { Appears self.old.tree directory }
        requires name { IsTrue (is_name self.old.tree.version name.now) }
        requires absent { find_entry self.old.tree directory name.now ≡ None }
        requires node { IsSome (node_at self.old.tree node) }
        requires other { is_directory_at self.old.tree node ≡ false }
        ensures change { HeldTreeChanges result self.old self.new
            (held_with_tree self.old (with_entry self.old.tree directory name.now node)) }
        ensures elsewhere { AreEqualExceptAt directory name.now
            (find_entry self.old.tree) (find_entry self.new.tree) }
    {
        enter(&mut self.directories, directory, name, node)?;
        self.names[node as usize] += 1;
        Ok(())
    }

    /// Removes a name of a node. If the node is a directory, it has no entries. If the node has no other name and no
    /// reference, it is removed.
    pub fn unlink(&mut self, directory: u16, name: &[u8])
        requires directory { IsTrue (is_directory_at self.old.tree directory) }
        requires present { IsSome (find_entry self.old.tree directory name.now) }
        requires empty { entries_there self.old.tree
            (find_entry self.old.tree directory name.now) ≡ [] }
        ensures tree { self.new
            ≡ after self.old (without_entry self.old.tree directory name.now) }
        ensures elsewhere { AreEqualExceptAt directory name.now
            (find_entry self.old.tree) (find_entry self.new.tree) }
    {
        let Some(node) = self.directories.remove(directory, name) else {
            unreachable!()
        };
        let at = node as usize;
        self.names[at] -= 1;
        self.parents[at] = 0;
        settle(&mut self.directories, node, self.names[at], self.holds[at]);
    }

    /// Moves the entry of one name to another name, in a directory that is neither the node itself nor below it. If
    /// another node has the new name, it has no entries: it loses the name, and is removed if it has no other name and
    /// no reference.
    ///
    /// # Errors
    ///
    /// Returns `TooBig` if the directory would exceed the maximum length. Otherwise returns `Full` if the image has too
    /// few free blocks. If the call fails, nothing changes.
    pub fn rename(&mut self, from: u16, name: &[u8], to: u16, other: &[u8]) -> Result<(), Space>
        requires entry { IsOtherName self.old.tree from name.now to other.now }
        requires to { Appears self.old.tree to }
        requires clear { IfSome (find_entry self.old.tree from name.now)
            (λ n. contains_directory self.old.tree n to ≡ false) }
        requires empty { entries_there self.old.tree
            (find_entry self.old.tree to other.now) ≡ [] }
        ensures change { HeldTreeChanges result self.old self.new
            (after self.old (moved self.old.tree from name.now to other.now)) }
        ensures elsewhere { AreEqualExceptAtTwo from name.now to other.now
            (find_entry self.old.tree) (find_entry self.new.tree) }
    {
        let moved = move_entry(&mut self.directories, from, name, to, other)?;
        self.parents[moved.node as usize] = to;
        let Some(gone) = moved.gone else {
            return Ok(());
        };
        let at = gone as usize;
        self.parents[at] = 0;
        self.names[at] -= 1;
        settle(&mut self.directories, gone, self.names[at], self.holds[at]);
        Ok(())
    }
}
