//! The sizes of images.
ghost use Rattle.std.specs.Prelude.{◌≡◌};
ghost use Rattle.pv_model.specs.Machine.{inode_blocks, are_image_sizes};

use pv_model::Version;
use pv_model::limits::{BLOCK, INODES};

/// Returns the number of blocks that contain this many inodes in an image of a version.
pub fn inode_blocks(version: Version, inodes: u32) -> usize
    ensures { result ≡ inode_blocks version inodes }
{
    (inodes as usize * version.layout().inode_length).div_ceil(BLOCK)
}

/// Returns whether an image of a version can have these numbers of blocks and inodes.
pub fn are_image_sizes(version: Version, blocks: u32, inodes: u32) -> bool
    ensures { result ≡ are_image_sizes version blocks inodes }
{
    inodes >= 1
        && inodes as usize <= INODES
        && inode_blocks(version, inodes) + 1 <= blocks as usize
        && blocks <= version.layout().greatest_blocks as u32
}
