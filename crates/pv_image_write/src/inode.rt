//! The inode of a node, and the blocks of its contents.
ghost use Rattle.std.specs.Prelude.{◌≡◌, ◌+◌, ◌-◌, ◌*◌, ◌^◌, ◌<◌, ◌≤◌, ◌++◌, vec_capacity, vec_len, length};
ghost use Rattle.pv_model.specs.declared.limits.TheConstants.{BLOCK};
ghost use Rattle.pv_model.specs.declared.version.Version.TheVariants.{V2};
ghost use Rattle.pv_model.specs.Machine.{inode_length, greatest_length};
ghost use Rattle.pv_image_write.specs.Encoding.{before_size, after_content, after_pointers, blocks_for, direct_for, index_for, inode_bytes, taken};

use crate::filling::{put, put_pointers, put_u16, put_u32, put_zeros};
use pv_model::Version;
use pv_model::format::{DIRECT, POINTED};
use pv_model::limits::BLOCK;

/// The numbers of blocks that contents of some length take.
#[derive(Clone, Copy)]
pub(crate) struct Extent {
    /// The number of blocks of the contents.
    pub(crate) filled: u16,
    /// The number of these to which the inode points directly.
    pub(crate) direct: u16,
    /// The number of index blocks for the others.
    pub(crate) index: u16,
}

/// Returns the numbers of blocks for contents of `size` bytes.
pub(crate) fn extent_of(size: usize) -> Extent
    requires { size ≤ greatest_length V2 }
    ensures filled { result.filled ≡ blocks_for size }
    ensures direct { result.direct ≡ direct_for size }
    ensures index { result.index ≡ index_for size }
{
    let filled = size.div_ceil(BLOCK) as u16;
    let direct = filled.min(DIRECT);
    Extent {
        filled,
        direct,
        index: (filled - direct).div_ceil(POINTED),
    }
}

// Appends the field between the first two bytes of an inode and its size.
fn put_before_size(bytes: &mut Vec<u8>, version: Version, names: u32)
    requires names { version ≡ Version.V1 → names < 2 ^ 16 }
    requires room { vec_len bytes.old + 2 ≤ vec_capacity bytes.old }
    ensures items { bytes.new.items ≡ bytes.old.items ++ before_size version names }
    ensures len { vec_len bytes.new ≡ vec_len bytes.old + 2 }
    ensures capacity { vec_capacity bytes.old ≤ vec_capacity bytes.new }
{
    match version {
        Version::V1 => put_u16(bytes, names as u16),
        Version::V2 => put_zeros(bytes, 2),
    }
}

// Appends the fields after the pointers of an inode.
fn put_after_pointers(bytes: &mut Vec<u8>, version: Version, names: u32)
    requires { vec_len bytes.old + length (after_pointers version names) ≤ vec_capacity bytes.old }
    ensures items { bytes.new.items ≡ bytes.old.items ++ after_pointers version names }
    ensures len { vec_len bytes.new ≡ vec_len bytes.old + length (after_pointers version names) }
    ensures capacity { vec_capacity bytes.old ≤ vec_capacity bytes.new }
{
    match version {
        Version::V1 => put_zeros(bytes, 2),
        Version::V2 => {
            put_u32(bytes, names);
            put_zeros(bytes, 22);
        }
    }
}

/// Appends the inode of a node with this kind field, `names` names, and contents of `size` bytes that start at block
/// `first`.
#[tactic(auto, unfolding(crate::specs::Encoding::inode_bytes))]
pub(crate) fn put_inode(
    bytes: &mut Vec<u8>,
    version: Version,
    sort: u8,
    names: u32,
    size: usize,
    first: u16,
)
    requires names { version ≡ Version.V1 → names < 2 ^ 16 }
    requires size { size ≤ greatest_length version }
    requires blocks { first + taken size < 2 ^ 16 }
    requires room { vec_len bytes.old + inode_length version ≤ vec_capacity bytes.old }
    ensures items { bytes.new.items ≡ bytes.old.items ++ inode_bytes version sort names size first }
    ensures len { vec_len bytes.new ≡ vec_len bytes.old + inode_length version }
    ensures capacity { vec_capacity bytes.old ≤ vec_capacity bytes.new }
{
    let extent = extent_of(size);
    let index_length = 2 * version.layout().index_pointers as usize;
    put(bytes, &[sort, 0]);
    put_before_size(bytes, version, names);
    put_u32(bytes, size as u32);
    put_pointers(bytes, first, extent.direct, 2 * DIRECT as usize);
    put_pointers(bytes, first + extent.filled, extent.index, index_length);
    put_after_pointers(bytes, version, names);
}

/// Appends the bytes after contents of `size` bytes in their blocks, which start at `first`: zeros up to the end of the
/// last block, then the index blocks.
#[tactic(auto, unfolding(crate::specs::Encoding::after_content))]
pub(crate) fn put_after_content(bytes: &mut Vec<u8>, size: usize, first: u16)
    requires size { size ≤ greatest_length V2 }
    requires blocks { first + taken size < 2 ^ 16 }
    requires room { vec_len bytes.old + (BLOCK * taken size - size) ≤ vec_capacity bytes.old }
    ensures items { bytes.new.items ≡ bytes.old.items ++ after_content first size }
    ensures len { vec_len bytes.new ≡ vec_len bytes.old + (BLOCK * taken size - size) }
    ensures capacity { vec_capacity bytes.old ≤ vec_capacity bytes.new }
{
    let extent = extent_of(size);
    put_zeros(bytes, BLOCK * extent.filled as usize - size);
    put_pointers(
        bytes,
        first + extent.direct,
        extent.filled - extent.direct,
        BLOCK * extent.index as usize,
    );
}
