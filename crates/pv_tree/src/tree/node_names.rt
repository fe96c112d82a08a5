//! Iterating over the names of a node.
ghost use Rattle.std.specs.Prelude.{◌≡◌};
ghost use Rattle.pv_model.specs.Answers.Nodes.{least_name};
ghost use Rattle.pv_model.specs.Machine.{names_of};
ghost use Rattle.pv_tree.specs.NodeNames.{first_after, names_after, names_from, last_name_of, IsNextNameOfNode};

use super::Tree;
use pv_model::Name;
use pv_model::limits::ROOT;

impl Tree {
    /// Returns the least name of a node with the number of its directory. Names are ordered by directory number, then
    /// by their bytes. Returns `None` if the node has no name. The name of a directory is looked up in its parent.
    pub fn least_name(&self, node: u16) -> Option<(u16, Name)>
        ensures { result ≡ least_name self.now.tree node }
    {
        self.invariant();
        if !self.is_directory(node) {
            return self.next_name(node, None);
        }
        if node == ROOT {
            return None;
        }
        let Some(above) = self.parent(node) else {
            return None;
        };
        match self.next_name_of(above, node, None) {
            Some(name) => Some((above, name)),
            None => None,
        }
    }

    /// Returns the least name of a node that is greater than `last`, with the number of its directory, or the least
    /// name of all if there is no `last`. Names are ordered by directory number, then by their bytes. Returns `None` if
    /// there is no greater name.
    pub fn next_name(&self, node: u16, last: Option<(u16, &[u8])>) -> Option<(u16, Name)>
        ensures value { result ≡ first_after (last_name_of last.entry) (names_of self.now.tree node) }
        ensures least { IsNextNameOfNode self.now.tree node (last_name_of last.entry) result }
        ensures rest { names_after (last_name_of last.entry) (names_of self.now.tree node)
            ≡ names_from result (names_of self.now.tree node) }
    {
        let (first, past) = match last {
            Some((directory, name)) => (directory, Some(name)),
            None => (0, None),
        };
        for directory in first..self.sizes().inodes + 1 {
            if !self.is_directory(directory) {
                continue;
            }
            let from = if directory == first { past } else { None };
            if let Some(name) = self.next_name_of(directory, node, from) {
                return Some((directory, name));
            }
        }
        None
    }
}
