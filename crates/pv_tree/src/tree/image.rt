//! The tree of an existing image.
ghost use Rattle.std.specs.Prelude.{◌≡◌, replicate, IfOk};
ghost use Rattle.pv_model.specs.Machine.{IsImageOf, Tree as Nodes};
ghost use Rattle.pv_dirs.specs.Images.{IsImage};

use super::{NUMBERS, Tree, no_holds, no_names, root_above_itself};
use pv_dirs::Directories;
use pv_model::Version;
use std::alloc::{AllocError, Global};

impl Tree {
    /// Creates the tree of the image in `bytes`, which has this version and number of inodes. No node is referenced.
    /// One pass over all entries counts the names and finds the parents.
    ///
    /// # Errors
    ///
    /// Returns `AllocError` if memory for the directories cannot be allocated.
    pub(crate) fn of_image(
        alloc: Global,
        bytes: Vec<u8>,
        inodes: u16,
        version: Version,
    ) -> Result<Tree, AllocError>
        requires { IsImage version inodes bytes.items }
        ensures tree { IfOk result
            (λ tree. (t : Nodes) → IsImageOf bytes.items t → tree.tree ≡ t) }
        ensures holds { IfOk result (λ tree. tree.holds ≡ replicate NUMBERS 0) }
    {
        let directories = Directories::of_image(alloc, bytes, inodes, version)?;
        let mut parents = root_above_itself();
        let mut names = no_names();
        for directory in 0..inodes + 1 {
            if directories.is_directory(directory) {
                directories.count_entries(directory, &mut names, &mut parents);
            }
        }
        // The contract of `free` shows that the nodes need no more blocks than the image has.
        let _free = directories.free();
        Ok(Tree {
            directories,
            parents,
            names,
            holds: no_holds(),
        })
    }
}
