//! Checking the position of inodes in the tree.
ghost use Rattle.std.specs.Prelude.{◌≡◌, ◌+◌, ◌≤◌, ◌<◌, ℕ, length, slice_index, IfNone, IfOk, IfSome};
ghost use Rattle.pv_blocks.specs.BlockSet.{is_member};
ghost use Rattle.pv_model.specs.Machine.{has_bad_block, has_bad_content, has_bad_inode, inode_number, is_reached_within, name_count, PassesNone};
ghost use Rattle.pv_model.specs.Mount.{has_bad_place, may_be_named, PassesLeast};
ghost use Rattle.pv_image_mount.specs.Numbers.{IsInodeNumber};

use crate::image::Image;
use pv_blocks::BlockSet;
use pv_model::format::{DIRECTORY, FREE};
use pv_model::limits::ROOT;
use std::alloc::{AllocError, Global};

impl Image<'_> {
    // Returns whether an inode can have `count` names: the root has none, every other directory has one, and a file or
    // symbolic link has at least one.
    fn may_be_named(&self, n: u16, count: u32) -> bool
        requires { IsInodeNumber self.now.bytes.now n }
        ensures { result ≡ may_be_named self.now.version self.now.bytes.now n count }
    {
        let is_directory = self.kind(n) == DIRECTORY;
        if n == ROOT {
            is_directory && count == 0
        } else if is_directory {
            count == 1
        } else {
            count >= 1
        }
    }

    // Returns whether an inode has an invalid number of names, or a stored link count that differs from it, or is not
    // reachable from the root. `counts` has the number of names of each inode, and `reached` the reachable inodes.
    #[tactic(auto, unfolding(pv_model::specs::Mount::has_bad_place))]
    fn has_bad_place(&self, n: u16, counts: &[u32], reached: &BlockSet) -> bool
        requires number { IsInodeNumber self.now.bytes.now n }
        requires length { length counts.now ≡ inode_number self.now.bytes.now + 1 }
        requires counts { slice_index counts.now n ≡ name_count self.now.version self.now.bytes.now n }
        requires reached { is_member reached.now n ≡ is_reached_within self.now.version self.now.bytes.now (inode_number self.now.bytes.now) n }
        ensures { result ≡ has_bad_place self.now.version self.now.bytes.now n }
    {
        if n != ROOT && self.kind(n) == FREE {
            return false;
        }
        let count = counts[n as usize];
        !self.may_be_named(n, count) || self.stored_count(n) != count || !reached.contains(n)
    }

    /// Returns the least inode without a valid position in the tree: its number of names is invalid or differs from the
    /// stored link count, or it is not reachable from the root.
    pub(crate) fn least_bad_place(&self, alloc: Global) -> Result<Option<u16>, AllocError>
        requires inodes { PassesNone self.now.bytes.now (has_bad_inode self.now.version self.now.bytes.now) }
        requires blocks { PassesNone self.now.bytes.now (has_bad_block self.now.version self.now.bytes.now) }
        requires contents { PassesNone self.now.bytes.now (has_bad_content self.now.version self.now.bytes.now) }
        requires root { 1 ≤ inode_number self.now.bytes.now }
        ensures none { IfOk result (λ o. IfNone o (PassesNone self.now.bytes.now (has_bad_place self.now.version self.now.bytes.now))) }
        ensures least { IfOk result (λ o. IfSome o (PassesLeast self.now.bytes.now (has_bad_place self.now.version self.now.bytes.now))) }
    {
        let counts = self.name_counts(alloc)?;
        let reached = self.reached(alloc)?;
        for n in 1..self.inodes + 1 {
            if self.has_bad_place(n, counts.as_slice(), &reached) {
                return Ok(Some(n));
            }
        }
        Ok(None)
    }
}
