//! Images with valid sizes, and the fields of their inodes.
ghost use Rattle.std.specs.Prelude.{◌≡◌, ◌+◌, ◌*◌, ◌<◌, ◌≤◌, length, IfOk, IfErr};
ghost use Rattle.pv_model.specs.declared.format.TheConstants.{HEADER, MAGIC};
ghost use Rattle.pv_model.specs.declared.limits.TheConstants.{BLOCK, INODES};
ghost use Rattle.pv_model.specs.Machine.{block, inode, inode_blocks, inode_length, size, block_number, inode_number, is_data_block, kind};
ghost use Rattle.pv_model.specs.Image.{stored_count};
ghost use Rattle.pv_model.specs.Mount.{has_sizes, version_of, HasSizes, IsErrorOf};
ghost use Rattle.pv_image_mount.specs.Numbers.{IsInodeNumber};

use crate::fields::{u8_at, u16_at, u32_at};
use crate::sizes::{are_image_sizes, inode_blocks};
use pv_model::format::{
    BLOCKS_AT, HEADER, INODES_AT, KIND_AT, MAGIC, NAMES_AT_V1, NAMES_AT_V2, SIZE_AT,
};
use pv_model::limits::BLOCK;
use pv_model::{ImageFault, Version};

// Returns the version whose magic number the bytes start with.
fn version_of(bytes: &[u8]) -> Option<Version>
    requires { MAGIC ≤ length bytes.now }
    ensures { result ≡ version_of bytes.now }
{
    if &bytes[..MAGIC] == Version::V1.magic() {
        Some(Version::V1)
    } else if &bytes[..MAGIC] == Version::V2.magic() {
        Some(Version::V2)
    } else {
        None
    }
}

// Returns whether the sizes in the header are valid and match the length of the bytes.
fn has_sizes(version: Version, bytes: &[u8]) -> bool
    requires { HEADER ≤ length bytes.now }
    ensures { result ≡ has_sizes version bytes.now }
{
    let blocks = u16_at(bytes, BLOCKS_AT);
    are_image_sizes(version, blocks as u32, u16_at(bytes, INODES_AT) as u32)
        && bytes.len() == BLOCK * blocks as usize
}

/// The bytes of an image with valid sizes.
#[derive(Clone, Copy)]
pub(crate) struct Image<'a> {
    /// All bytes of the image.
    pub(crate) bytes: &'a [u8],
    /// The version of the format.
    pub(crate) version: Version,
    /// The number of blocks.
    pub(crate) blocks: u16,
    /// The number of inodes.
    pub(crate) inodes: u16,
    ghost are_blocks: { blocks ≡ block_number bytes.now },
    ghost are_inodes: { inodes ≡ inode_number bytes.now },
    ghost are_whole: { length bytes.now ≡ BLOCK * blocks },
    ghost few_inodes: { inodes ≤ INODES },
    ghost inodes_within: { inode_blocks version inodes + 1 ≤ blocks },
}

impl<'a> Image<'a> {
    /// Creates an image from bytes, if they start with a magic number and have the sizes in their header.
    pub(crate) fn read(bytes: &'a [u8]) -> Result<Image<'a>, ImageFault>
        ensures bytes { IfOk result (λ image. image.bytes.now ≡ bytes.now) }
        ensures sizes { IfOk result (λ image. HasSizes bytes.now image.version) }
        ensures refused { IfErr result (λ fault. IsErrorOf bytes.now fault) }
    {
        if bytes.len() < BLOCK {
            return Err(ImageFault::Short);
        }
        let Some(version) = version_of(bytes) else {
            return Err(ImageFault::Magic);
        };
        if !has_sizes(version, bytes) {
            return Err(ImageFault::Size);
        }
        Ok(Image {
            bytes,
            version,
            blocks: u16_at(bytes, BLOCKS_AT),
            inodes: u16_at(bytes, INODES_AT),
        })
    }

    /// Returns the bytes of an inode.
    pub(crate) fn inode(&self, n: u16) -> &'a [u8]
        requires { IsInodeNumber self.now.bytes.now n }
        ensures bytes { result.now ≡ inode self.now.version self.now.bytes.now n }
        ensures length { length result.now ≡ inode_length self.now.version }
    {
        let length = self.version.layout().inode_length;
        let start = BLOCK + length * (n - 1) as usize;
        &self.bytes[start..start + length]
    }

    /// Returns the kind field of an inode.
    pub(crate) fn kind(&self, n: u16) -> u8
        requires { IsInodeNumber self.now.bytes.now n }
        ensures { result ≡ kind self.now.version self.now.bytes.now n }
    {
        u8_at(self.inode(n), KIND_AT)
    }

    /// Returns the length of an inode's contents in bytes.
    pub(crate) fn size(&self, n: u16) -> u32
        requires { IsInodeNumber self.now.bytes.now n }
        ensures { result ≡ size self.now.version self.now.bytes.now n }
    {
        u32_at(self.inode(n), SIZE_AT)
    }

    /// Returns the link count that is stored in an inode.
    pub(crate) fn stored_count(&self, n: u16) -> u32
        requires { IsInodeNumber self.now.bytes.now n }
        ensures { result ≡ stored_count self.now.version (inode self.now.version self.now.bytes.now n) }
    {
        match self.version {
            Version::V1 => u16_at(self.inode(n), NAMES_AT_V1) as u32,
            Version::V2 => u32_at(self.inode(n), NAMES_AT_V2),
        }
    }

    /// Returns the bytes of a block.
    pub(crate) fn block(&self, k: u16) -> &'a [u8]
        requires { k < block_number self.now.bytes.now }
        ensures bytes { result.now ≡ block self.now.bytes.now k }
        ensures length { length result.now ≡ BLOCK }
    {
        let start = BLOCK * k as usize;
        &self.bytes[start..start + BLOCK]
    }

    /// Returns whether a block is a data block.
    pub(crate) fn is_data_block(&self, k: u16) -> bool
        ensures { result ≡ is_data_block self.now.version self.now.bytes.now k }
    {
        inode_blocks(self.version, self.inodes as u32) < k as usize && k < self.blocks
    }
}
