//! The inodes of an existing image.
ghost use Rattle.std.specs.Prelude.{◌≡◌, ◌+◌, ◌*◌, ◌/◌, ◌%◌, ◌≤◌, vec_len};
ghost use Rattle.pv_model.specs.declared.limits.TheConstants.{BLOCK, BLOCKS_V2};
ghost use Rattle.pv_model.specs.Machine.{inode_blocks};
ghost use Rattle.pv_inodes.specs.Images.{AreInodes, files_in};

use super::Inodes;
use crate::table::{end_of_used, owned_by, owned_count};
use pv_blocks::{BlockSet, Blocks};
use pv_model::Version;
use pv_model::limits::{BLOCK, INODES};

impl Inodes {
    /// Creates the inodes of the image in `bytes`, with their contents. The vector becomes the store of blocks, at most
    /// 65,535 of 512 bytes, so nothing is copied.
    pub fn of_image(bytes: Vec<u8>, inodes: u16, version: Version) -> Inodes
        requires whole { vec_len bytes % BLOCK ≡ 0 }
        requires few_blocks { vec_len bytes ≤ BLOCK * BLOCKS_V2 }
        requires few_inodes { inodes ≤ INODES }
        requires some_blocks { inode_blocks version inodes + 1 ≤ vec_len bytes / BLOCK }
        requires inodes { AreInodes version bytes.items inodes }
        ensures { result ≡ files_in version bytes.items inodes }
    {
        let table = inodes as usize * version.layout().inode_length;
        let first = table.div_ceil(BLOCK) as u16 + 1;
        let mut blocks = Blocks::of_bytes(bytes, first, &BlockSet::new());
        for slot in 0..inodes {
            for i in 0..owned_count(&blocks, version, slot) {
                let block = owned_by(&blocks, version, slot, i);
                blocks.reserve(block);
            }
        }
        let most = end_of_used(&blocks, version, inodes);
        Inodes {
            blocks,
            inodes,
            version,
            least: 0,
            most,
        }
    }
}
