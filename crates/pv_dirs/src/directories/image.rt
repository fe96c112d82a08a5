//! The directories of an existing image.
ghost use Rattle.std.specs.Prelude.{◌≡◌, IfOk};
ghost use Rattle.pv_model.specs.Machine.{IsImageOf, Tree};
ghost use Rattle.pv_dirs.specs.Images.{IsImage};

use super::Directories;
use crate::index::Index;
use crate::indexing::add_all;
use pv_inodes::Inodes;
use pv_model::Version;
use pv_model::limits::BLOCK;
use std::alloc::{AllocError, Global};

// The number of nodes to come for which an index has room.
const SPARE: u16 = 64;

impl Directories {
    /// Creates the tree of the image in `bytes`, which has this version and number of inodes. The vector becomes the
    /// store of blocks, so nothing is copied, and the slots stay where they are.
    ///
    /// # Errors
    ///
    /// Returns `AllocError` if memory for the index cannot be allocated.
    pub fn of_image(
        alloc: Global,
        bytes: Vec<u8>,
        inodes: u16,
        version: Version,
    ) -> Result<Directories, AllocError>
        requires { IsImage version inodes bytes.items }
        ensures { IfOk result (λ directories. (t : Tree) → IsImageOf bytes.items t → directories ≡ t) }
    {
        let table = inodes as usize * version.layout().inode_length;
        let block_count = (bytes.len() / BLOCK - table.div_ceil(BLOCK) - 1) as u16;
        let inodes = Inodes::of_image(bytes, inodes, version);
        // An index of the nodes that there are, with room for some more, is quick to copy.
        let expected = inodes.bound().saturating_add(SPARE).min(inodes.inodes());
        let mut index = Box::new(alloc, Index::empty(expected))?;
        add_all(&inodes, &mut index);
        Ok(Directories {
            inodes,
            block_count,
            index,
        })
    }
}
