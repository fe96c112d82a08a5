//! The format of an image, in both versions.
//!
//! An image consists of blocks of 512 bytes, numbered from 0. Each number in it is unsigned and little-endian. Bytes
//! that are not read are written as zeros.
//!
//! ```text
//! | block 0 | blocks of inodes | data blocks |
//! ```
//!
//! Block 0 contains the magic, which determines the version, and the sizes.
//!
//! ```text
//! byte  0       8        10       12         512
//!       | magic | blocks | inodes | not read |
//! ```
//!
//! Inodes are numbered from 1, and inode 1 is the root. An inode of version 1 has 32 bytes, so a block contains 16 of
//! them. An inode of version 2 has 64 bytes, so a block contains 8. A free inode has kind 0, and the rest of it is not
//! read.
//!
//! ```text
//! byte  0      1          2       4      8             28              30         32
//! V1    | kind | not read | names | size | 10 pointers | index pointer | not read |
//!
//! byte  0      1          4      8             28                 38      42         64
//! V2    | kind | not read | size | 10 pointers | 5 index pointers | names | not read |
//! ```
//!
//! `names` is the number of entries that name the inode, and `size` is the length of its content in bytes. A pointer is
//! the number of a data block, in 2 bytes. The first ten point to the first blocks of the content. Each index pointer
//! points to an index block, and the 256 pointers in that block point to the blocks that follow. Only the pointers that
//! the content needs are used; the others are not read.
//!
//! The content of a directory is a sequence of slots without gaps, one for each entry. A slot has 64 bytes in version 1
//! and 260 in version 2, where it may cross a block boundary.
//!
//! ```text
//! byte  0       2                3          4      4 + length 64
//! V1    | inode | length of name | not read | name | not read |
//!
//! byte  0       2                3          4      4 + length 260
//! V2    | inode | length of name | not read | name | not read |
//! ```
//!
//! The content of a file is its bytes, and the content of a link is its text.
ghost use Rattle.std.specs.Prelude.{◌≡◌, length};
ghost use Rattle.pv_model.specs.Image.{magic};

use crate::limits::BLOCK;
use crate::{Kind, Version};

// ---- block 0

/// Bytes of the magic at the start of an image.
pub const MAGIC: usize = 8;

/// The offset in block 0 of the number of blocks, in 2 bytes.
pub const BLOCKS_AT: usize = 8;

/// The offset in block 0 of the number of inodes, in 2 bytes.
pub const INODES_AT: usize = 10;

/// The number of bytes of block 0 that are read.
pub const HEADER: usize = 12;

// ---- inodes

/// Bytes of an inode of version 1.
pub const INODE_V1: usize = 32;

/// Bytes of an inode of version 2.
pub const INODE_V2: usize = 64;

/// Inodes per block in version 1.
pub const BLOCK_INODES_V1: u16 = (BLOCK / INODE_V1) as u16;

/// Inodes per block in version 2.
pub const BLOCK_INODES_V2: u16 = (BLOCK / INODE_V2) as u16;

/// The offset in an inode of its kind, in 1 byte.
pub const KIND_AT: usize = 0;

/// The offset in an inode of version 1 of the number of entries that name it, in 2 bytes.
pub const NAMES_AT_V1: usize = 2;

/// The offset in an inode of version 2 of the number of entries that name it, in 4 bytes.
pub const NAMES_AT_V2: usize = 38;

/// The offset in an inode of the length of its content, in 4 bytes.
pub const SIZE_AT: usize = 4;

/// The offset in an inode of its pointers, of 2 bytes each: first those to blocks of content, then those to index
/// blocks.
pub const POINTERS_AT: usize = 8;

/// The offset in an inode of its pointers to index blocks.
pub const INDEX_POINTERS_AT: usize = POINTERS_AT + 2 * DIRECT as usize;

/// The number of pointers to blocks of content in an inode.
pub const DIRECT: u16 = 10;

/// The number of pointers to blocks of content in an index block.
pub const POINTED: u16 = (BLOCK / 2) as u16;

/// The number of pointers to index blocks in an inode of version 1.
pub const INDEX_POINTERS_V1: u16 = 1;

/// The number of pointers to index blocks in an inode of version 2.
pub const INDEX_POINTERS_V2: u16 = 5;

// ---- kinds

/// The kind of a free inode.
pub const FREE: u8 = 0;

/// The kind of a directory.
pub const DIRECTORY: u8 = Kind::Directory as u8;

/// The kind of a file that is not executable.
pub const FILE: u8 = Kind::File as u8;

/// The kind of an executable file.
pub const EXECUTABLE: u8 = Kind::Executable as u8;

/// The kind of a symbolic link, which is the greatest kind.
pub const LINK: u8 = Kind::Symlink as u8;

// ---- slots

/// Bytes of a slot of version 1.
pub const SLOT_V1: usize = 64;

/// Bytes of a slot of version 2.
pub const SLOT_V2: usize = 260;

/// The offset in a slot of the inode's number, in 2 bytes.
pub const NUMBER_AT: usize = 0;

/// The offset in a slot of the length of its name, in 1 byte. The next byte is not read.
pub const NAME_LENGTH_AT: usize = 2;

/// The offset in a slot of its name.
pub const NAME_AT: usize = 4;

impl Version {
    /// Returns the magic of an image of this version.
    pub fn magic(self) -> &'static [u8]
        ensures value { result.now ≡ magic self }
        ensures length { length result.now ≡ MAGIC }
    {
        match self {
            Version::V1 => b"PVIMAGE1",
            Version::V2 => b"PVIMAGE2",
        }
    }
}
