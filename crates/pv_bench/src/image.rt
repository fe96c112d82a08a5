//! The image that is measured.
ghost use Rattle.std.specs.Prelude.{◌+◌, ◌≤◌};
ghost use Rattle.pv_model.specs.Machine.{inode_blocks, greatest_blocks};

use pv_model::Version;

/// The number of inodes of the image: they fill at most one block in either version.
pub const INODES: u16 = 8;

/// Returns the number of blocks of an image that has room for exactly one file of the maximum length: its first block,
/// the inode table, and 266 blocks of contents with one index block, or 1,290 with five.
pub fn blocks_of(version: Version) -> u16
    ensures some { inode_blocks version 8 + 1 ≤ result }
    ensures few { result ≤ greatest_blocks version }
{
    match version {
        Version::V1 => 2 + 266 + 1,
        Version::V2 => 2 + 1_290 + 5,
    }
}
