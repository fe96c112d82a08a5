//! Mounting images.
ghost use Rattle.std.specs.Prelude.{◌≡◌, ◌⊎◌, Ok, Err, IfOk, IfErr};
ghost use Rattle.pv_model.specs.Machine.{mounted};

use crate::check;
use crate::fields::u16_at;
use pv_model::ImageFault;
use pv_model::format::INODES_AT;
use pv_tree::Store;
use std::alloc::Global;

/// Checks an image and returns the store of its tree. The vector becomes the store's blocks, so nothing is copied.
///
/// # Errors
///
/// Returns the same errors as `check`: the first one in the order of `ImageFault`'s variants, with the number of the
/// least inode that has it, or `Memory` if memory cannot be allocated.
pub fn mount(alloc: Global, bytes: Vec<u8>) -> Result<Store, ImageFault>
    ensures mounted { IfOk result (λ store. mounted bytes.items ≡ Ok store) }
    ensures refused { IfErr result (λ fault. (fault ≡ ImageFault.Memory) ⊎ (mounted bytes.items ≡ Err fault)) }
{
    let version = check(alloc, &bytes)?;
    let inodes = u16_at(&bytes, INODES_AT);
    Ok(Store::of_image(alloc, bytes, inodes, version)?)
}
