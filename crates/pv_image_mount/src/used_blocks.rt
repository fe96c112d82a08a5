//! Checking the blocks that inodes use.
ghost use Rattle.std.specs.Prelude.{◌≡◌, ◌+◌, ◌*◌, ◌≤◌, ◌<◌, ◌++◌, ℕ, false, length, slice_index, IfNone, IfOk, IfSome, OnOk};
ghost use Rattle.pv_blocks.specs.BlockSet.{is_member};
ghost use Rattle.pv_model.specs.Machine.{block_count, size, used_content, used_index, block_number, has_bad_block, has_bad_inode, is_data_block, PassesNone, greatest_length, rounded_up};
ghost use Rattle.pv_model.specs.Mount.{PassesLeast};
ghost use Rattle.pv_image_mount.specs.Claims.{are_refused_blocks, is_taken_by, HasUsedBefore};
ghost use Rattle.pv_image_mount.specs.Numbers.{IsInodeNumber};
ghost use Rattle.pv_image_mount.specs.Rows.{pointed_row, pointer_row};

use crate::fields::u16_at;
use crate::image::Image;
use pv_blocks::BlockSet;
use pv_model::format::{DIRECT, FREE, INDEX_POINTERS_AT, POINTED, POINTERS_AT};
use pv_model::limits::BLOCK;
use std::alloc::{AllocError, Global};

// The number of blocks to which an inode points directly.
const DIRECT_BLOCKS: usize = DIRECT as usize;

// The number of blocks to which an index block points.
const POINTED_BLOCKS: usize = POINTED as usize;

// Appends `count` pointers that are stored in bytes.
fn add_pointers(list: &mut Vec<u16>, bytes: &[u8], count: usize) -> Result<(), AllocError>
    requires { 2 * count ≤ length bytes.now }
    ensures { OnOk result (list.new.items ≡ list.old.items ++ pointer_row count bytes.now) }
{
    for i in 0..count {
        list.push(u16_at(bytes, 2 * i))?;
    }
    Ok(())
}

impl Image<'_> {
    // Returns the number of blocks of an inode's contents.
    fn block_count(&self, n: u16) -> usize
        requires { IsInodeNumber self.now.bytes.now n }
        ensures { result ≡ block_count self.now.version self.now.bytes.now n }
    {
        self.size(n).div_ceil(BLOCK as u32) as usize
    }

    /// Returns the index blocks of an inode.
    pub(crate) fn used_index(&self, alloc: Global, n: u16) -> Result<Vec<u16>, AllocError>
        requires number { IsInodeNumber self.now.bytes.now n }
        requires size { size self.now.version self.now.bytes.now n ≤ greatest_length self.now.version }
        ensures { IfOk result (λ list. list.items ≡ used_index self.now.version self.now.bytes.now n) }
    {
        let count = self
            .block_count(n)
            .saturating_sub(DIRECT_BLOCKS)
            .div_ceil(POINTED_BLOCKS);
        let mut list = Vec::with_capacity(alloc, count)?;
        add_pointers(&mut list, &self.inode(n)[INDEX_POINTERS_AT..], count)?;
        Ok(list)
    }

    /// Returns the blocks of an inode's contents, in order. `index` has its index blocks.
    pub(crate) fn used_content(
        &self,
        alloc: Global,
        n: u16,
        index: &[u16],
    ) -> Result<Vec<u16>, AllocError>
        requires number { IsInodeNumber self.now.bytes.now n }
        requires index { index.now ≡ used_index self.now.version self.now.bytes.now n }
        requires within { (i : ℕ) → i < length index.now → slice_index index.now i < block_number self.now.bytes.now }
        ensures { IfOk result (λ list. list.items ≡ used_content self.now.version self.now.bytes.now n) }
    {
        let count = self.block_count(n);
        let mut list = Vec::with_capacity(alloc, count)?;
        add_pointers(
            &mut list,
            &self.inode(n)[POINTERS_AT..],
            count.min(DIRECT_BLOCKS),
        )?;
        for k in index {
            let left = count.saturating_sub(list.len());
            add_pointers(&mut list, self.block(*k), left.min(POINTED_BLOCKS))?;
        }
        Ok(list)
    }

    // Adds the blocks of `count` pointers, which are stored in bytes, to the set of used blocks. It stops at a block
    // that is not a data block or is used already, and returns whether there was one.
    fn claim_row(&self, bytes: &[u8], count: usize, used: &mut BlockSet) -> bool
        requires { 2 * count ≤ length bytes.now }
        ensures refused { result ≡ are_refused_blocks (is_data_block self.now.version self.now.bytes.now) (is_member used.old) (pointer_row count bytes.now) }
        ensures after { result ≡ false → (k : ℕ) → is_member used.new k ≡ is_taken_by (is_member used.old) (pointer_row count bytes.now) k }
    {
        for i in 0..count {
            let k = u16_at(bytes, 2 * i);
            if !self.is_data_block(k) || used.contains(k) {
                return true;
            }
            used.insert(k);
        }
        false
    }

    // Does the same for `count` pointers in index blocks, block by block. `index` has the pointers to the index blocks.
    fn claim_pointed(&self, index: &[u8], count: usize, used: &mut BlockSet) -> bool
        requires room { 2 * rounded_up count 256 ≤ length index.now }
        requires within { (i : ℕ) → i < rounded_up count 256 → slice_index (pointer_row (rounded_up count 256) index.now) i < block_number self.now.bytes.now }
        ensures refused { result ≡ are_refused_blocks (is_data_block self.now.version self.now.bytes.now) (is_member used.old) (pointed_row count self.now.bytes.now (pointer_row (rounded_up count 256) index.now)) }
        ensures after { result ≡ false → (k : ℕ) → is_member used.new k ≡ is_taken_by (is_member used.old) (pointed_row count self.now.bytes.now (pointer_row (rounded_up count 256) index.now)) k }
    {
        for i in 0..count.div_ceil(POINTED_BLOCKS) {
            let block = self.block(u16_at(index, 2 * i));
            let left = count.saturating_sub(POINTED_BLOCKS * i);
            if self.claim_row(block, left.min(POINTED_BLOCKS), used) {
                return true;
            }
        }
        false
    }

    // Does the same for all blocks of an inode in use. The index blocks come first, so that each is known to be a data
    // block before its pointers are read.
    fn claim_used(&self, n: u16, used: &mut BlockSet) -> bool
        requires number { IsInodeNumber self.now.bytes.now n }
        requires size { size self.now.version self.now.bytes.now n ≤ greatest_length self.now.version }
        ensures refused { result ≡ are_refused_blocks (is_data_block self.now.version self.now.bytes.now) (is_member used.old) (used_index self.now.version self.now.bytes.now n ++ used_content self.now.version self.now.bytes.now n) }
        ensures after { result ≡ false → (k : ℕ) → is_member used.new k ≡ is_taken_by (is_member used.old) (used_index self.now.version self.now.bytes.now n ++ used_content self.now.version self.now.bytes.now n) k }
    {
        let inode = self.inode(n);
        let count = self.block_count(n);
        let pointed = count.saturating_sub(DIRECT_BLOCKS);
        let index = &inode[INDEX_POINTERS_AT..];
        if self.claim_row(index, pointed.div_ceil(POINTED_BLOCKS), used) {
            return true;
        }
        if self.claim_row(&inode[POINTERS_AT..], count.min(DIRECT_BLOCKS), used) {
            return true;
        }
        self.claim_pointed(index, pointed, used)
    }

    // Returns whether an inode uses a block that is not a data block or is used already. If not, adds its blocks to the
    // set.
    fn has_bad_block(&self, n: u16, used: &mut BlockSet) -> bool
        requires number { IsInodeNumber self.now.bytes.now n }
        requires inode { has_bad_inode self.now.version self.now.bytes.now n ≡ false }
        requires used { HasUsedBefore used.old self.now.version self.now.bytes.now n }
        ensures bad { result ≡ has_bad_block self.now.version self.now.bytes.now n }
        ensures after { result ≡ false → HasUsedBefore used.new self.now.version self.now.bytes.now (n + 1) }
    {
        if self.kind(n) == FREE {
            return false;
        }
        self.claim_used(n, used)
    }

    /// Returns the least inode that uses a block that is not a data block or is used already.
    pub(crate) fn least_bad_block(&self) -> Option<u16>
        requires { PassesNone self.now.bytes.now (has_bad_inode self.now.version self.now.bytes.now) }
        ensures none { IfNone result (PassesNone self.now.bytes.now (has_bad_block self.now.version self.now.bytes.now)) }
        ensures least { IfSome result (PassesLeast self.now.bytes.now (has_bad_block self.now.version self.now.bytes.now)) }
    {
        let mut used = BlockSet::new();
        for n in 1..self.inodes + 1 {
            if self.has_bad_block(n, &mut used) {
                return Some(n);
            }
        }
        None
    }
}
