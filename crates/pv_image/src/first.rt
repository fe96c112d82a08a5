//! Images of version 1.
ghost use Rattle.std.specs.Prelude.{◌≡◌, ◌⊎◌, ◌≤◌, length, take, bytes_eq, Ok, Err, IfOk, IfErr};
ghost use Rattle.pv_model.specs.declared.format.TheConstants.{MAGIC};
ghost use Rattle.pv_model.specs.declared.version.Version.TheVariants.{V1};
ghost use Rattle.pv_model.specs.Machine.{magic};
ghost use Rattle.pv_image.specs.Migrated.{mounted_first};

use pv_image_mount::mount;
use pv_image_mount::tree::Store;
use pv_model::format::MAGIC;
use pv_model::limits::BLOCK;
use pv_model::{ImageFault, Version};
use std::alloc::Global;

// Returns whether bytes start with the magic number of version 1.
fn is_first(bytes: &[u8]) -> bool
    requires { MAGIC ≤ length bytes.now }
    ensures { result ≡ bytes_eq (take 8 bytes.now) (magic V1) }
{
    &bytes[..MAGIC] == Version::V1.magic()
}

/// Checks an image of version 1 and returns the store of its tree.
///
/// # Errors
///
/// Returns the same errors as `mount`, and also `Magic` if the bytes start with the magic number of version 2.
pub(crate) fn mount_first(alloc: Global, bytes: Vec<u8>) -> Result<Store, ImageFault>
    ensures mounted { IfOk result (λ store. mounted_first bytes.items ≡ Ok store) }
    ensures refused { IfErr result (λ fault. (fault ≡ ImageFault.Memory) ⊎ (mounted_first bytes.items ≡ Err fault)) }
{
    if bytes.len() < BLOCK {
        return Err(ImageFault::Short);
    }
    if !is_first(&bytes) {
        return Err(ImageFault::Magic);
    }
    mount(alloc, bytes)
}
