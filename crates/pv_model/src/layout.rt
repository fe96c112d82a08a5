//! The sizes of an image, by version.
ghost use Rattle.std.specs.Prelude.{◌≡◌};
ghost use Rattle.pv_model.specs.Image.{greatest_blocks, index_pointers, inode_length};
ghost use Rattle.pv_model.specs.Room.{entry_length, greatest_entries, greatest_length};
ghost use Rattle.pv_model.specs.Tree.{greatest_name};

use crate::Version;
use crate::format::{
    DIRECT, INDEX_POINTERS_V1, INDEX_POINTERS_V2, INODE_V1, INODE_V2, POINTED, SLOT_V1, SLOT_V2,
};
use crate::limits::{BLOCK, BLOCKS_V1, BLOCKS_V2, NAME_V1, NAME_V2};

// The greatest length of a content: one that fills every block that an inode's pointers reach.
const LENGTH_V1: usize = BLOCK * (DIRECT + POINTED * INDEX_POINTERS_V1) as usize;

const LENGTH_V2: usize = BLOCK * (DIRECT + POINTED * INDEX_POINTERS_V2) as usize;

/// The sizes and limits of an image of one version.
#[derive(Clone, Copy)]
pub struct Layout {
    /// Bytes of an inode.
    pub inode_length: usize,
    /// Bytes of a directory's slot, which contains one entry.
    pub slot_length: usize,
    /// The greatest length of a name, in bytes.
    pub name_limit: usize,
    /// Pointers to index blocks in an inode, in addition to the ten pointers to blocks of content.
    pub index_pointers: u16,
    /// The greatest length of a content, in bytes.
    pub greatest_length: u32,
    /// The greatest number of entries of a directory.
    pub greatest_entries: u32,
    /// The greatest number of blocks of an image.
    pub greatest_blocks: u16,
}

impl Layout {
    /// The sizes of version 1.
    pub const V1: Layout = Layout {
        inode_length: INODE_V1,
        slot_length: SLOT_V1,
        name_limit: NAME_V1,
        index_pointers: INDEX_POINTERS_V1,
        greatest_length: LENGTH_V1 as u32,
        greatest_entries: (LENGTH_V1 / SLOT_V1) as u32,
        greatest_blocks: BLOCKS_V1 as u16,
    };

    /// The sizes of version 2.
    pub const V2: Layout = Layout {
        inode_length: INODE_V2,
        slot_length: SLOT_V2,
        name_limit: NAME_V2,
        index_pointers: INDEX_POINTERS_V2,
        greatest_length: LENGTH_V2 as u32,
        greatest_entries: (LENGTH_V2 / SLOT_V2) as u32,
        greatest_blocks: BLOCKS_V2 as u16,
    };
}

impl Version {
    /// Returns the sizes and limits of an image of this version.
    pub fn layout(self) -> Layout
        ensures inode_length { result.inode_length ≡ inode_length self }
        ensures slot_length { result.slot_length ≡ entry_length self }
        ensures name_limit { result.name_limit ≡ greatest_name self }
        ensures index_pointers { result.index_pointers ≡ index_pointers self }
        ensures greatest_length { result.greatest_length ≡ greatest_length self }
        ensures greatest_entries { result.greatest_entries ≡ greatest_entries self }
        ensures greatest_blocks { result.greatest_blocks ≡ greatest_blocks self }
    {
        match self {
            Version::V1 => Layout::V1,
            Version::V2 => Layout::V2,
        }
    }
}
