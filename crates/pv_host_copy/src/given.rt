//! The entries of a source that are imported with a host directory.
ghost use Rattle.std.specs.Prelude.{◌≡◌, map, IsTrue, IfErr, OnOk};
ghost use Rattle.std.specs.List.{list_any};
ghost use Rattle.pv_host_copy.specs.Given.{add_missing, has_directory, is_present, makes_directory, takes_place};
ghost use Rattle.pv_host_copy.specs.Stopped.{StopsGiven};
ghost use Rattle.pv_image_manifest.specs.Contents.{entry_of_content};
ghost use Rattle.pv_image_manifest.specs.Entries.{entry_of_line};
ghost use Rattle.pv_model.specs.Machine.{is_manifest_path};

use crate::fault::{CopyStop, Refused};
use pv_image_manifest::{Content, Entry, add_entry};
use pv_model::limits::ROOT;
use pv_text::components::split_component;
use pv_tree::Tree;
use std::alloc::Global;

// Returns whether an entry is a directory.
fn is_directory(content: &Content) -> bool
    ensures { (path : _) → result ≡ makes_directory (entry_of_content path content.now) }
{
    matches!(content, Content::Directory)
}

// Returns whether an entry replaces the host's node at a path.
fn takes_place(entry: &Entry, directory: bool, path: &[u8]) -> bool
    ensures { result ≡ takes_place directory path.now (entry_of_line entry.now).1 }
{
    entry.path.as_slice() == path && !(directory && is_directory(&entry.content))
}

/// Returns whether an entry of a source replaces the host's node at a path: any node except a directory of both.
pub(crate) fn is_taken(given: &[Entry], directory: bool, path: &[u8]) -> bool
    ensures { result ≡ list_any (λ e. takes_place directory path.now (entry_of_line e).1) given.now }
{
    given
        .iter()
        .any(|entry| takes_place(entry, directory, path))
}

// Returns whether a tree has a directory at a path.
fn has_directory(tree: &Tree, path: &[u8]) -> bool
    requires { IsTrue (is_manifest_path path.now) }
    ensures { result ≡ has_directory tree.now.tree path.now }
{
    tree.invariant();
    let mut directory = ROOT;
    let mut rest = Some(&path[1..]);
    while let Some(names) = rest {
        let (name, following) = split_component(names);
        let Some(number) = tree.find(directory, name) else {
            return false;
        };
        if !tree.is_directory(number) {
            return false;
        }
        directory = number;
        rest = following;
    }
    true
}

// Returns whether a tree has the directory that an entry makes.
fn is_present(tree: &Tree, entry: &Entry) -> bool
    ensures { result ≡ is_present tree.now.tree (entry_of_line entry.now).1 }
{
    is_directory(&entry.content) && has_directory(tree, &entry.path)
}

/// Adds the entries of a source to a tree, without the directories that it has.
///
/// # Errors
///
/// Returns `Memory` if memory cannot be allocated, and `Entry` if an entry cannot be added. The tree must then be
/// discarded.
pub(crate) fn add_missing(alloc: Global, tree: &mut Tree, given: &[Entry]) -> Result<(), CopyStop>
    ensures added { OnOk result (add_missing (map entry_of_line given.now) tree.old.tree ≡ Ok tree.new.tree) }
    ensures stopped { IfErr result (StopsGiven (map entry_of_line given.now) tree.old.tree) }
    ensures holds { tree.new.holds ≡ tree.old.holds }
{
    for entry in given {
        if is_present(tree, entry) {
            continue;
        }
        if let Err(fault) = add_entry(tree, &entry.path, &entry.content) {
            let path = Vec::from_slice(alloc, &entry.path)?;
            return Err(CopyStop::Entry(Refused { path, fault }));
        }
    }
    Ok(())
}
