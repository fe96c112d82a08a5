//! Reference counts.
ghost use Rattle.std.specs.Prelude.{◌≡◌, ◌≢◌, ◌<◌, suc, ◌+◌, ◌-◌, ℕ, IsSome};
ghost use Rattle.pv_model.specs.Machine.{node_at, find_entry};
ghost use Rattle.pv_laws_trees.specs.Found.{AreEqualLookups};
ghost use Rattle.pv_tree.specs.Changes.{without_if_unreferenced};
ghost use Rattle.pv_tree.specs.Holding.{HeldTree, holds_at, held_more, held_less, collected};

use super::Tree;
use pv_dirs::Directories;
use pv_model::limits::ROOT;

/// Removes a node if it has no name and no reference. The root stays.
pub(crate) fn settle(directories: &mut Directories, node: u16, names: u32, holds: u16)
    requires { IsSome (node_at directories.old node) }
    ensures { directories.new ≡ without_if_unreferenced directories.old node names holds }
{
    if node != ROOT && names == 0 && holds == 0 {
        directories.drop_inode(node);
    }
}

impl Tree {
    /// Adds a reference to a node.
    pub fn hold(&mut self, node: u16)
        requires node { IsSome (node_at self.old.tree node) }
        requires few { holds_at self.old node < 65535 }
        ensures tree { self.new.tree ≡ self.old.tree }
        ensures holds { self.new.holds ≡ held_more self.old.holds node }
        ensures more { holds_at self.new node ≡ holds_at self.old node + 1 }
        ensures others { (other : ℕ) → other ≢ node
            → holds_at self.new other ≡ holds_at self.old other }
    {
        self.holds[node as usize] += 1;
    }

    /// Releases a reference to a node. If that was the last one and the node has no name, the node is removed.
    pub fn unreference(&mut self, node: u16)
        requires { 0 < holds_at self.old node }
        ensures tree { self.new.tree ≡ collected self.old.tree (held_less self.old.holds node) }
        ensures holds { self.new.holds ≡ held_less self.old.holds node }
        ensures less { holds_at self.new node + 1 ≡ holds_at self.old node }
        ensures others { (other : ℕ) → other ≢ node
            → holds_at self.new other ≡ holds_at self.old other }
        ensures found { AreEqualLookups (find_entry self.old.tree) (find_entry self.new.tree) }
    {
        let at = node as usize;
        self.holds[at] -= 1;
        settle(&mut self.directories, node, self.names[at], self.holds[at]);
    }
}
