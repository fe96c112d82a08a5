//! Migrating an image from version 1 to version 2.
ghost use Rattle.std.specs.Prelude.{◌≡◌, ◌⊎◌, IsTrue, Ok, Err, IfOk, IfErr, OnOk};
ghost use Rattle.pv_model.specs.Machine.{Rose};
ghost use Rattle.pv_image.specs.Migrated.{has_room, migrated, mounted_first, IsMigrateError};
ghost use Rattle.pv_image.specs.Written.{IsMigratingStop, AppearsInOldBytes, WritesMigrated};
ghost use Rattle.pv_image.specs.declared.migrating.MigratingStop.TheVariants.{Refused as RefusedStop};

use crate::first::mount_first;
use crate::room::has_room;
use pv_image_mount::tree::Store;
use pv_image_write::{WriteFault, write_as};
use pv_model::{MigrateFault, Version};
use pv_streams::Sink;
use std::alloc::Global;

/// Why an image was not migrated, or not completely.
#[derive(Clone, Copy, Debug, PartialEq, Eq)]
pub enum MigratingStop {
    /// The image or the sizes are invalid, or memory cannot be allocated. Nothing was written.
    Refused(MigrateFault),
    /// The sink failed. It has received a prefix of the new image.
    Write,
}

impl From<MigrateFault> for MigratingStop {
    ghost from_gives = { λ f e. e ≡ RefusedStop f };

    fn from(fault: MigrateFault) -> MigratingStop {
        MigratingStop::Refused(fault)
    }
}

// Mounts an image of version 1, if an image of version 2 of these sizes has room for its tree.
fn mount_roomy(
    alloc: Global,
    bytes: Vec<u8>,
    blocks: u32,
    inodes: u32,
) -> Result<Store, MigrateFault>
    ensures mounted { IfOk result (λ store. mounted_first bytes.items ≡ Ok store) }
    ensures room { IfOk result (λ store. IsTrue (has_room store blocks inodes)) }
    ensures kind { IfErr result IsMigrateError }
    ensures refused { IfErr result (λ fault. (fault ≡ MigrateFault.Memory) ⊎ (migrated bytes.items blocks inodes ≡ Err fault)) }
{
    let store = mount_first(alloc, bytes)?;
    store.invariant();
    if !has_room(store.tree(), blocks, inodes) {
        return Err(MigrateFault::Small);
    }
    Ok(store)
}

/// Migrates an image of version 1: writes an image of version 2 with the same tree and the given numbers of blocks and
/// inodes, and flushes the sink. Each node keeps its number, its contents and its names. Unused bytes are zero.
///
/// If the new image has at least five times the data blocks and at least as many inodes, each run without ENAMETOOLONG,
/// EFBIG and ENOSPC on the old image has the same trace on the new one and leaves a tree with equal nodes:
/// `migrated_keep_traces`.
///
/// # Errors
///
/// - `Refused(Image)`: the bytes are not an image of version 1. It contains the first error in the order of
///   `ImageFault`'s variants, with the number of the least inode that has it. The error is also `Magic` if the bytes
///   start with the magic number of version 2. This error precedes `Small`, and it is never `Memory`.
/// - `Refused(Small)`: an image of version 2 cannot have these sizes (1 to 4,096 inodes, and at most 65,535 blocks,
///   which include the first block and the inode table); or there are fewer inodes than before, or fewer data blocks
///   than the tree needs.
/// - `Refused(Memory)`: memory cannot be allocated.
/// - `Write`: a write or the flush failed. The sink has received a prefix of the new image.
///
/// If the error is `Refused`, nothing was written.
pub fn write_migrated<W: Sink>(
    alloc: Global,
    bytes: Vec<u8>,
    blocks: u32,
    inodes: u32,
    out: &mut W,
) -> Result<(), MigratingStop>
    ensures as_written { OnOk result (WritesMigrated bytes.items blocks inodes (W.written out.old) (W.written out.new)) }
    ensures refused { IfErr result (AppearsInOldBytes bytes.items blocks inodes (W.written out.old) (W.written out.new)) }
    ensures kind { IfErr result IsMigratingStop }
    ensures failed { result ≡ Err MigratingStop.Write → Rose (W.failures out.old) (W.failures out.new) }
    ensures flushed { OnOk result (W.buffered out.new ≡ 0) }
{
    let store = mount_roomy(alloc, bytes, blocks, inodes)?;
    store.invariant();
    match write_as(
        alloc,
        store.tree(),
        Version::V2,
        blocks as u16,
        inodes as u16,
        out,
    ) {
        Ok(()) => Ok(()),
        Err(WriteFault::Memory) => Err(MigratingStop::Refused(MigrateFault::Memory)),
        Err(WriteFault::Write) => Err(MigratingStop::Write),
    }
}
