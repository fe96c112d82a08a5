//! The layout of inodes: the positions of inodes and of their fields, and the order of the blocks that an inode owns.
ghost use Rattle.std.specs.Prelude.{◌≡◌, ◌+◌, ◌*◌, ◌/◌, ◌≤◌};
ghost use Rattle.pv_model.specs.declared.limits.TheConstants.{BLOCK};
ghost use Rattle.pv_model.specs.declared.version.Version.TheVariants.{V2};
ghost use Rattle.pv_model.specs.Machine.{greatest_length};
ghost use Rattle.pv_inodes.specs.Layout.{home, offset, pointer_count, after_index, pointer_of, position_of_block, wanted};

use pv_model::Version;
use pv_model::format::{BLOCK_INODES_V1, BLOCK_INODES_V2, DIRECT, INODE_V1, INODE_V2, POINTED};
use pv_model::limits::BLOCK;

/// The size of a block, with the type of a length of contents.
pub(crate) const BLOCK_LENGTH: u32 = BLOCK as u32;

/// Returns the block that contains an inode.
#[tactic(auto, unfolding(crate::specs::Layout::home))]
pub(crate) fn home(version: Version, slot: u16) -> u16
    ensures { result ≡ home version slot }
{
    match version {
        Version::V1 => slot / BLOCK_INODES_V1 + 1,
        Version::V2 => slot / BLOCK_INODES_V2 + 1,
    }
}

/// Returns the offset of an inode in its block.
#[tactic(auto, unfolding(crate::specs::Layout::offset))]
pub(crate) fn offset(version: Version, slot: u16) -> usize
    ensures value { result ≡ offset version slot }
    ensures fits { result + 8 + 2 * pointer_count version ≤ BLOCK }
{
    match version {
        Version::V1 => INODE_V1 * (slot % BLOCK_INODES_V1) as usize,
        Version::V2 => INODE_V2 * (slot % BLOCK_INODES_V2) as usize,
    }
}

/// Returns the number of blocks that contents of `size` bytes own, including index blocks.
#[tactic(auto, unfolding(crate::specs::Layout::wanted))]
pub(crate) fn room(size: u32) -> u16
    requires { size ≤ greatest_length V2 }
    ensures { result ≡ wanted size }
{
    let blocks = size.div_ceil(BLOCK_LENGTH) as u16;
    blocks + blocks.saturating_sub(DIRECT).div_ceil(POINTED)
}

/// Returns the position of block number `block` of the contents among the blocks that the inode owns.
#[tactic(auto, unfolding(crate::specs::Layout::position_of_block))]
pub(crate) fn place(block: u16) -> u16
    requires { block ≤ greatest_length V2 / BLOCK }
    ensures { result ≡ position_of_block block }
{
    block + (block + POINTED - DIRECT) / POINTED
}

/// Returns the number of the inode's pointer that leads to the i-th block that it owns: the pointer to the block itself
/// or to its index block, whichever the inode has.
#[tactic(auto, unfolding(crate::specs::Layout::pointer_of))]
pub(crate) fn pointer_of(i: u16) -> u16
    ensures { result ≡ pointer_of i }
{
    i.min(DIRECT) + i.saturating_sub(DIRECT) / (POINTED + 1)
}

/// Returns how many blocks after its index block the i-th block that an inode owns comes, or 0 if the inode itself
/// points to it.
pub(crate) fn after_index(i: u16) -> u16
    ensures { result ≡ after_index i }
{
    i.saturating_sub(DIRECT) % (POINTED + 1)
}
