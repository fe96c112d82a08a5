//! Building the tree of a manifest, on the blocks of an image.
ghost use Rattle.std.specs.Prelude.{◌≡◌, []};
ghost use Rattle.pv_image_manifest.specs.Building.{MakesTreeOrError, GivesStore};
ghost use Rattle.pv_image_manifest.specs.Entries.{entry_of_line};
ghost use Rattle.pv_image_manifest.specs.Reading.{manifest_before};
ghost use Rattle.pv_model.specs.Machine.{add_entry, tree_of};
ghost use Rattle.pv_model.specs.declared.version.Version.TheVariants.{V1};

use crate::adding::add_entry;
use crate::entry::Entry;
use crate::manifest::Manifest;
use pv_model::limits::BLOCK;
use pv_model::{ManifestFault, Version};
use pv_tree::{Store, Tree};
use std::alloc::Global;

/// Adds an entry of a manifest to a tree. If this fails, the tree must be discarded.
///
/// # Errors
///
/// Returns the error of `add_entry` for the line of the entry.
pub(crate) fn add(tree: &mut Tree, entry: &Entry) -> Result<(), ManifestFault>
    requires { tree.old.tree.version ≡ V1 }
    ensures { MakesTreeOrError result (add_entry entry.now.line tree.old.tree (entry_of_line entry.now).1) tree.old tree.new }
{
    match add_entry(tree, &entry.path, &entry.content) {
        Ok(()) => Ok(()),
        Err(fault) => Err(fault.at_line(entry.line)),
    }
}

/// Builds the tree of a manifest in an image of version 1: the root, then each entry in order. The slots of the
/// directories are sorted by name.
///
/// # Errors
///
/// Returns the error of the first line whose entry cannot be created. For one line, the first of these that applies is
/// returned:
///
/// - `Parent(n)`: the parent of the path is not a directory.
/// - `Exists(n)`: the name exists already.
/// - `Source(n)`: the entry adds a name, and the path of its source is not a file or a symbolic link.
/// - `Room(n)`: a node would exceed the maximum length, or the image has too few inodes or blocks.
///
/// Returns `Memory` if memory cannot be allocated. All memory is allocated before the first entry is created.
pub fn build(alloc: Global, manifest: &Manifest) -> Result<Store, ManifestFault>
    ensures { GivesStore result (tree_of (manifest_before manifest.now [])) }
{
    let zeros = vec![in alloc; 0; BLOCK * manifest.blocks as usize]?;
    let store = Store::empty(alloc, zeros, manifest.blocks, manifest.inodes, Version::V1)?;
    let mut tree = store.into_tree();
    for entry in &manifest.entries {
        add(&mut *tree, entry)?;
    }
    tree.order_entries();
    Ok(Store::of_tree(tree))
}
