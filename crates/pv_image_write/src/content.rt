//! The contents of nodes.
ghost use Rattle.std.specs.Prelude.{◌≡◌, ◌+◌, ◌*◌, ◌≤◌, ◌++◌, false, length, flat_map, option_map, vec_capacity, vec_len, Some, IsTrue, IsSome, IfSome};
ghost use Rattle.pv_tree.specs.OfDirs.Trees.{node_bytes_at};
ghost use Rattle.pv_model.specs.Machine.{next_name, entry_length, greatest_length, greatest_name, node_at, entries_at, find_entry, is_directory_at};
ghost use Rattle.pv_image_write.specs.Encoding.{content_of, slot_of};

use crate::filling::{put, put_u16, put_zeros};
use pv_model::{Name, Version};
use pv_tree::Tree;

// Appends the slot of an entry.
#[tactic(auto, unfolding(crate::specs::Encoding::slot_of, crate::specs::Encoding::padded))]
fn put_slot(bytes: &mut Vec<u8>, version: Version, name: &[u8], node: u16)
    requires short { length name.now ≤ greatest_name version }
    requires room { vec_len bytes.old + entry_length version ≤ vec_capacity bytes.old }
    ensures items { bytes.new.items ≡ bytes.old.items ++ slot_of version (name.now, node) }
    ensures len { vec_len bytes.new ≡ vec_len bytes.old + entry_length version }
    ensures capacity { vec_capacity bytes.old ≤ vec_capacity bytes.new }
{
    let following = version.layout().slot_length - 4 - name.len();
    put_u16(bytes, node);
    put(bytes, &[name.len() as u8, 0]);
    put(bytes, name);
    put_zeros(bytes, following);
}

// Returns the name of a directory that follows `last`, with its node. `before` is a guess of the number of names that
// precede it.
fn next(tree: &Tree, directory: u16, last: &Option<Name>, before: u32) -> Option<(Name, u16)>
    requires { IsTrue (is_directory_at tree.now.tree directory) }
    ensures name { option_map (λ e. e.0) result ≡ next_name last.now (entries_at tree.now.tree directory) }
    ensures node { IfSome result (λ e. find_entry tree.now.tree directory e.0 ≡ Some e.1) }
{
    match last {
        None => tree.next_entry(directory, None, before),
        Some(name) => tree.next_entry(directory, Some(name.as_slice()), before),
    }
}

// Appends the slots of a directory, sorted by name.
fn put_slots(bytes: &mut Vec<u8>, tree: &Tree, version: Version, directory: u16)
    requires directory { IsTrue (is_directory_at tree.now.tree directory) }
    requires names { greatest_name tree.now.tree.version ≤ greatest_name version }
    requires room { vec_len bytes.old + entry_length version * length (entries_at tree.now.tree directory) ≤ vec_capacity bytes.old }
    ensures items { bytes.new.items ≡ bytes.old.items ++ flat_map (slot_of version) (entries_at tree.now.tree directory) }
    ensures len { vec_len bytes.new ≡ vec_len bytes.old + entry_length version * length (entries_at tree.now.tree directory) }
    ensures capacity { vec_capacity bytes.old ≤ vec_capacity bytes.new }
{
    tree.invariant();
    let mut last: Option<Name> = None;
    for entry in 0..tree.size(directory) {
        let Some((name, node)) = next(tree, directory, &last, entry) else {
            unreachable!()
        };
        put_slot(bytes, version, name.as_slice(), node);
        last = Some(name);
    }
}

// Appends the contents of a file, or the target of a symbolic link, run by run.
fn put_bytes(bytes: &mut Vec<u8>, tree: &Tree, node: u16)
    requires used { IsSome (node_at tree.now.tree node) }
    requires other { is_directory_at tree.now.tree node ≡ false }
    requires room { vec_len bytes.old + length (node_bytes_at tree.now.tree node) ≤ vec_capacity bytes.old }
    ensures items { bytes.new.items ≡ bytes.old.items ++ node_bytes_at tree.now.tree node }
    ensures len { vec_len bytes.new ≡ vec_len bytes.old + length (node_bytes_at tree.now.tree node) }
    ensures capacity { vec_capacity bytes.old ≤ vec_capacity bytes.new }
{
    let size = tree.size(node);
    let mut at = 0;
    while at < size {
        let part = tree.lend(node, at);
        put(bytes, part);
        at += part.len() as u32;
    }
}

/// Appends the contents of a node in an image of this version: the slots of a directory, the bytes of a file, or the
/// target of a symbolic link.
pub(crate) fn put_content(bytes: &mut Vec<u8>, tree: &Tree, version: Version, node: u16)
    requires used { IsSome (node_at tree.now.tree node) }
    requires names { greatest_name tree.now.tree.version ≤ greatest_name version }
    requires room { vec_len bytes.old + length (content_of version (node_at tree.now.tree node)) ≤ vec_capacity bytes.old }
    ensures items { bytes.new.items ≡ bytes.old.items ++ content_of version (node_at tree.now.tree node) }
    ensures len { vec_len bytes.new ≡ vec_len bytes.old + length (content_of version (node_at tree.now.tree node)) }
    ensures capacity { vec_capacity bytes.old ≤ vec_capacity bytes.new }
{
    tree.invariant();
    if tree.is_directory(node) {
        put_slots(bytes, tree, version, node);
    } else {
        put_bytes(bytes, tree, node);
    }
}

/// Returns the length of the contents that `put_content` appends. It is at most the maximum length of the version.
pub(crate) fn content_length(tree: &Tree, version: Version, node: u16) -> usize
    requires used { IsSome (node_at tree.now.tree node) }
    requires names { greatest_name tree.now.tree.version ≤ greatest_name version }
    ensures value { result ≡ length (content_of version (node_at tree.now.tree node)) }
    ensures allowed { result ≤ greatest_length version }
{
    tree.invariant();
    let size = tree.size(node) as usize;
    if tree.is_directory(node) {
        version.layout().slot_length * size
    } else {
        size
    }
}
