//! Operations on images: mounting, building from manifests, writing to bytes, and migrating from version 1 to
//! version 2.
//!
//! `mount`, `build`, `Manifest` and `Bundle` are reexported from lower crates. `bytes` returns images as bytes
//! in memory: `to_bytes` the image that `pv_image_write` writes, and `migrate` the image that `migrating` writes.
//! `migrated` in `specs/Migrated` computes the new tree or the error from the old bytes, and the laws below state in
//! other words when each occurs. The new tree has the same nodes under the same numbers, in an image of exactly the
//! requested sizes. `first` mounts images of version 1 only, `room` checks that a tree has room, and `migrating` writes
//! the new image to a sink.
#![tactic(auto)]

ghost use Rattle.pv_image.specs.Migrated.{ImagesAreJudgedFirst, MigratesImages, SmallLacksRoom};
ghost use Rattle.pv_image.specs.Traces.{MigratedKeepTraces};

mod bytes;
mod first;
mod migrating;
mod room;

pub use bytes::{migrate, to_bytes};
pub use migrating::{MigratingStop, write_migrated};
pub use pv_image_manifest::{Bundle, Manifest, build};
pub use pv_image_mount as image_mount;
pub use pv_image_mount::{mount, tree};

/// Migration yields a tree if and only if the bytes are an image of version 1 and there is room for its nodes. The tree
/// has exactly these nodes, under the same numbers, in an image of version 2 of the requested sizes.
pub fn images_are_migrated()
    ensures { MigratesImages }
{}

/// If migration fails with `Small`, the bytes are an image of version 1 and there is no room for its nodes.
pub fn small_lacks_room()
    ensures { SmallLacksRoom }
{}

/// If migration fails because the bytes are not an image of version 1, it fails in the same way for all sizes.
pub fn images_are_judged_first()
    ensures { ImagesAreJudgedFirst }
{}

/// If the new image has at least five times the data blocks and at least as many inodes, a schedule that starts on the
/// old image also starts on the new one, with the same turns. If no call of the run on the old image fails with
/// ENAMETOOLONG, EFBIG or ENOSPC, the run on the new image has the same trace, byte for byte, and leaves a tree with
/// equal nodes. Five is the least factor: `pv_laws_steps::larger_examples::five_is_least`.
pub fn migrated_keep_traces()
    ensures { MigratedKeepTraces }
{}
