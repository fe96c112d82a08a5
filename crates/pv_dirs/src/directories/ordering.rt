//! Sorting the slots of directories by name.
ghost use Rattle.std.specs.Prelude.{◌≡◌};

use super::Directories;
use crate::indexing::add_all;
use crate::sorting::{any_unordered, sort_all};

impl Directories {
    /// Sorts the slots of each directory by name, unless they are known to be sorted. The tree does not change, because
    /// its entries have no other order. With sorted slots, a listing finds each next name in one step, and a lookup is
    /// a binary search.
    pub fn sort_slots(&mut self)
        ensures { self.new ≡ self.old }
    {
        if any_unordered(&self.inodes, &self.index) {
            sort_all(&mut self.inodes);
            let index = &mut *self.index;
            index.clear();
            add_all(&self.inodes, index);
        }
    }
}
