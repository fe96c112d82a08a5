//! Reading the contents of inodes.
ghost use Rattle.std.specs.Prelude.{◌≡◌, ◌<◌, ℕ, false, flat_map, length, slice_index, IfOk};
ghost use Rattle.pv_model.specs.Machine.{block, content, used_content, block_number, has_bad_block, has_bad_inode, is_free};
ghost use Rattle.pv_image_mount.specs.Numbers.{IsInodeNumber};

use crate::image::Image;
use pv_model::limits::BLOCK;
use std::alloc::{AllocError, Global};

impl Image<'_> {
    // Returns the blocks of an inode's contents, in order. The inode is in use.
    fn content_blocks(&self, alloc: Global, n: u16) -> Result<Vec<u16>, AllocError>
        requires number { IsInodeNumber self.now.bytes.now n }
        requires inode { has_bad_inode self.now.version self.now.bytes.now n ≡ false }
        requires block { has_bad_block self.now.version self.now.bytes.now n ≡ false }
        requires used { is_free self.now.version self.now.bytes.now n ≡ false }
        ensures { IfOk result (λ list. list.items ≡ used_content self.now.version self.now.bytes.now n) }
    {
        let index = self.used_index(alloc, n)?;
        self.used_content(alloc, n, index.as_slice())
    }

    // Returns the concatenation of blocks.
    fn gather(&self, alloc: Global, blocks: &[u16]) -> Result<Vec<u8>, AllocError>
        requires { (i : ℕ) → i < length blocks.now → slice_index blocks.now i < block_number self.now.bytes.now }
        ensures { IfOk result (λ bytes. bytes.items ≡ flat_map (block self.now.bytes.now) blocks.now) }
    {
        let mut bytes = Vec::with_capacity(alloc, BLOCK.saturating_mul(blocks.len()))?;
        for k in blocks {
            bytes.extend_from_slice(self.block(*k))?;
        }
        Ok(bytes)
    }

    /// Returns the contents of an inode in use.
    pub(crate) fn content(&self, alloc: Global, n: u16) -> Result<Vec<u8>, AllocError>
        requires number { IsInodeNumber self.now.bytes.now n }
        requires inode { has_bad_inode self.now.version self.now.bytes.now n ≡ false }
        requires block { has_bad_block self.now.version self.now.bytes.now n ≡ false }
        requires used { is_free self.now.version self.now.bytes.now n ≡ false }
        ensures { IfOk result (λ bytes. bytes.items ≡ content self.now.version self.now.bytes.now n) }
    {
        let blocks = self.content_blocks(alloc, n)?;
        let mut content = self.gather(alloc, blocks.as_slice())?;
        content.truncate(self.size(n) as usize);
        Ok(content)
    }
}
