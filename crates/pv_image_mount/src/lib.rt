//! Checking and mounting images. `check` returns the first error of the specification that the bytes have, or the
//! version of their tree; `mount`, in `mounting`, returns the store of the tree.
//!
//! The check makes four passes over the inodes, in the order in which the format lists errors: `inodes` checks kinds
//! and sizes, `used_blocks` the blocks that inodes use, `slots` the contents of directories and symbolic links, and
//! `places` the position of inodes in the tree. `fields` reads numbers, `sizes` checks the sizes of an image, `image`
//! defines `Image`, `contents` reads the contents of inodes, `targets` the inodes that directories name, and `reach`
//! finds the inodes that are reachable from the root. Each pass reads the contents of an inode once. If the names of a
//! directory do not ascend from slot to slot, their keys are sorted to find duplicates; if two keys are equal, the names
//! are sorted.
#![tactic(auto)]

ghost use Rattle.std.specs.Prelude.{◌≡◌, ◌⊎◌, IfErr, IfOk};
ghost use Rattle.pv_model.specs.Machine.{mounted, Tree};

mod contents;
mod fields;
mod image;
mod inodes;
mod mounting;
mod places;
mod reach;
mod sizes;
mod slots;
mod targets;
mod used_blocks;

use crate::image::Image;
pub use mounting::mount;
use pv_model::{ImageFault, Version};
pub use pv_tree as tree;
pub use sizes::{are_image_sizes, inode_blocks};
use std::alloc::Global;

/// Checks whether bytes are an image, and returns the version of its format. It allocates memory for the contents of
/// one inode at a time, for the names in them and their keys, and for the link count of each inode.
///
/// # Errors
///
/// Returns the first error in the order of `ImageFault`'s variants, with the number of the least inode that has it.
/// Returns `Memory` if memory cannot be allocated.
pub fn check(alloc: Global, bytes: &[u8]) -> Result<Version, ImageFault>
    ensures accepted { IfOk result (λ version. (t : Tree) × (mounted bytes.now ≡ Ok t) × (t.version ≡ version)) }
    ensures refused { IfErr result (λ fault. (fault ≡ ImageFault.Memory) ⊎ (mounted bytes.now ≡ Err fault)) }
{
    let image = Image::read(bytes)?;
    if let Some(n) = image.least_bad_inode() {
        return Err(ImageFault::Inode(n));
    }
    if let Some(n) = image.least_bad_block() {
        return Err(ImageFault::Block(n));
    }
    if let Some(n) = image.least_bad_content(alloc)? {
        return Err(ImageFault::Dir(n));
    }
    if let Some(n) = image.least_bad_place(alloc)? {
        return Err(ImageFault::Tree(n));
    }
    Ok(image.version)
}
