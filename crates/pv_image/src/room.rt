//! Room for a tree in an image of version 2.
ghost use Rattle.std.specs.Prelude.{◌≡◌};
ghost use Rattle.pv_image.specs.Migrated.{has_room};
ghost use Rattle.pv_laws_trees.specs.Preserved.{EachIsNamed};

use pv_image_mount::tree::Tree;
use pv_image_mount::{are_image_sizes, inode_blocks};
use pv_image_write::needed_blocks;
use pv_model::Version;

/// Returns whether an image can have these sizes, has at least as many inodes as the tree, and has room for its nodes,
/// each of which has a name.
#[tactic(auto, unfolding(crate::specs::Migrated::has_room))]
pub(crate) fn has_room(tree: &Tree, blocks: u32, inodes: u32) -> bool
    requires { EachIsNamed tree.now.tree }
    ensures { result ≡ has_room tree.now.tree blocks inodes }
{
    are_image_sizes(Version::V2, blocks, inodes)
        && tree.sizes().inodes as u32 <= inodes
        && needed_blocks(tree, Version::V2) as usize
            <= blocks as usize - inode_blocks(Version::V2, inodes) - 1
}
