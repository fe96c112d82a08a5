//! Finding the inodes that are reachable from the root.
ghost use Rattle.std.specs.Prelude.{◌≡◌, ◌≤◌, ℕ, IfOk, OnOk};
ghost use Rattle.pv_blocks.specs.BlockSet.{is_member};
ghost use Rattle.pv_model.specs.Machine.{has_bad_block, has_bad_content, has_bad_inode, inode_number, is_reached_within, PassesNone};
ghost use Rattle.pv_image_mount.specs.Places.{joined_numbers, HasEach};

use crate::image::Image;
use pv_blocks::BlockSet;
use pv_model::limits::ROOT;
use std::alloc::{AllocError, Global};

// Adds the numbers that are not in a set to the set, and appends them to the list of its elements.
fn add_unseen(seen: &mut BlockSet, order: &mut Vec<u16>, numbers: &[u16]) -> Result<(), AllocError>
    requires { HasEach seen.old order.old.items }
    ensures order { OnOk result (order.new.items ≡ joined_numbers order.old.items numbers.now) }
    ensures seen { OnOk result (HasEach seen.new order.new.items) }
{
    for k in numbers {
        if !seen.contains(*k) {
            seen.insert(*k);
            order.push(*k)?;
        }
    }
    Ok(())
}

impl Image<'_> {
    /// Returns the inodes that are reachable from the root.
    pub(crate) fn reached(&self, alloc: Global) -> Result<BlockSet, AllocError>
        requires inodes { PassesNone self.now.bytes.now (has_bad_inode self.now.version self.now.bytes.now) }
        requires blocks { PassesNone self.now.bytes.now (has_bad_block self.now.version self.now.bytes.now) }
        requires contents { PassesNone self.now.bytes.now (has_bad_content self.now.version self.now.bytes.now) }
        requires root { 1 ≤ inode_number self.now.bytes.now }
        ensures { IfOk result (λ seen. (k : ℕ) → is_member seen k ≡ is_reached_within self.now.version self.now.bytes.now (inode_number self.now.bytes.now) k) }
    {
        let mut seen = BlockSet::new();
        seen.insert(ROOT);
        let mut order = Vec::new(alloc);
        order.push(ROOT)?;
        let mut at = 0;
        while at < order.len() {
            let targets = self.targets(alloc, order[at])?;
            add_unseen(&mut seen, &mut order, targets.as_slice())?;
            at += 1;
        }
        Ok(seen)
    }
}
