//! Images as bytes in memory.
ghost use Rattle.std.specs.Prelude.{◌≡◌, ◌⊎◌, Err, IfErr, IfOk};
ghost use Rattle.pv_model.specs.Machine.{named_tree, IsWrittenImageOf};
ghost use Rattle.pv_image.specs.Migrated.{migrated, IsMigrateError};
ghost use Rattle.pv_image.specs.Written.{HoldsMigrated};

use crate::migrating::{MigratingStop, write_migrated};
use pv_image_mount::tree::Tree;
use pv_image_write::write_tree;
use pv_model::MigrateFault;
use pv_streams::Gathered;
use std::alloc::{AllocError, Global};

/// Returns an image of the tree with its sizes and version. The image contains only the root and the nodes with a name.
/// Unused bytes are zero.
///
/// # Errors
///
/// Returns `AllocError` if memory cannot be allocated.
pub fn to_bytes(alloc: Global, tree: &Tree) -> Result<Vec<u8>, AllocError>
    ensures { IfOk result (λ bytes. IsWrittenImageOf bytes.items (named_tree tree.now.tree)) }
{
    let mut image = Gathered::new(alloc);
    match write_tree(alloc, tree, &mut image) {
        Ok(()) => Ok(image.bytes),
        Err(_) => Err(AllocError),
    }
}

/// Returns an image of version 2 with the tree of an image of version 1 and the given numbers of blocks and inodes. Each
/// node keeps its number, its contents and its names. Unused bytes are zero.
///
/// # Errors
///
/// - `Image`: the bytes are not an image of version 1. It contains the first error in the order of `ImageFault`'s
///   variants. This error precedes `Small`, and it is never `Memory`.
/// - `Small`: an image of version 2 cannot have these sizes, or it has no room for the tree.
/// - `Memory`: memory cannot be allocated.
pub fn migrate(
    alloc: Global,
    bytes: &[u8],
    blocks: u32,
    inodes: u32,
) -> Result<Vec<u8>, MigrateFault>
    ensures migrated { IfOk result (λ image. HoldsMigrated bytes.now blocks inodes image.items) }
    ensures refused { IfErr result (λ fault. (fault ≡ MigrateFault.Memory) ⊎ (migrated bytes.now blocks inodes ≡ Err fault)) }
    ensures kind { IfErr result IsMigrateError }
{
    let Ok(old) = bytes.to_vec(alloc) else {
        return Err(MigrateFault::Memory);
    };
    let mut image = Gathered::new(alloc);
    match write_migrated(alloc, old, blocks, inodes, &mut image) {
        Ok(()) => Ok(image.bytes),
        Err(MigratingStop::Refused(fault)) => Err(fault),
        Err(MigratingStop::Write) => Err(MigrateFault::Memory),
    }
}
