//! Creating trees for tests, and operations on them.
ghost use Rattle.std.specs.Prelude.{◌≡◌, ◌+◌, ◌≤◌, ◌==◌, not, nat_lt, length, IsTrue, None};
ghost use Rattle.std.specs.List.{list_all};
ghost use Rattle.pv_model.specs.declared.version.Version.{Version};
ghost use Rattle.pv_model.specs.Machine.{inode_blocks, greatest_blocks, is_name, is_node, is_link_text, find_entry};
ghost use Rattle.pv_tree.specs.Changes.{new_node};
ghost use Rattle.pv_laws_trees.specs.Tree.{Appears};

use crate::answers::expect_same;
use pv_model::{NewNode, Version, is_name};
use pv_tree::{Space, Store, Tree};
use std::alloc::{AllocError, Global};
use std::process::Abort;

// Creates a tree with only a root, in an image with this version and these numbers of blocks and inodes.
fn empty(alloc: Global, blocks: u16, inodes: u16, version: Version) -> Result<Tree, AllocError>
    requires some_inodes { 1 ≤ inodes }
    requires few_inodes { inodes ≤ 64 }
    requires some_blocks { inode_blocks version inodes + 1 ≤ blocks }
    requires few_blocks { blocks ≤ greatest_blocks version }
{
    let zeros = vec![in alloc; 0; 512 * blocks as usize]?;
    let store = Store::empty(alloc, zeros, blocks, inodes, version)?;
    Ok(Box::into_inner(store.into_tree()))
}

// Creates a tree with only a root, in an image of version 1 with 16 inodes and `count` data blocks.
pub(crate) fn with_data_blocks(alloc: Global, count: u16) -> Result<Tree, AllocError>
    requires { count ≤ 8000 }
{
    empty(alloc, count + 2, 16, Version::V1)
}

// Creates a tree with only a root, in an image of version 2 with 16 inodes and 20 blocks.
pub(crate) fn of_version_2(alloc: Global) -> Result<Tree, AllocError> {
    empty(alloc, 20, 16, Version::V2)
}

// Creates a tree with only a root, in an image of version 1 with 64 inodes and 64 blocks.
pub(crate) fn with_64_inodes(alloc: Global) -> Result<Tree, AllocError> {
    empty(alloc, 64, 64, Version::V1)
}

// Returns whether the target of a symbolic link would be too long.
fn is_long_text(text: &[u8]) -> bool
    ensures { result ≡ nat_lt 1023 (length text.now) }
{
    text.len() > 1_023
}

// Returns whether each byte is allowed in the target of a symbolic link.
fn has_text_bytes(text: &[u8]) -> bool
    ensures { result ≡ list_all (λ b. not (b == 0)) text.now }
{
    text.iter().all(|b| *b != 0)
}

// Returns whether bytes are a valid target of a symbolic link.
fn is_link_text(text: &[u8]) -> bool
    ensures { IsTrue result → IsTrue (is_link_text text.now) }
{
    if text.is_empty() || is_long_text(text) {
        return false;
    }
    has_text_bytes(text)
}

// Returns whether a node of this kind can be created: a symbolic link must have a valid target.
fn is_kind(kind: NewNode) -> bool
    ensures { IsTrue result → (v : Version) → IsTrue (is_node v (new_node kind.entry)) }
{
    match kind {
        NewNode::Symlink(text) => is_link_text(text),
        _ => true,
    }
}

// Checks that a directory does not have a name.
pub(crate) fn expect_new(rt: &impl Abort, tree: &Tree, directory: u16, name: &[u8])
    ensures directory { Appears tree.now.tree directory }
    ensures name { IsTrue (is_name tree.now.tree.version name.now) }
    ensures absent { find_entry tree.now.tree directory name.now ≡ None }
{
    assert!(rt; tree.is_directory(directory));
    assert!(rt; tree.parent(directory).is_some());
    assert!(rt; is_name(tree.sizes().version, name));
    assert!(rt; tree.find(directory, name).is_none());
}

// Checks the result of creating a node under a new name.
pub(crate) fn expect_make(
    rt: &impl Abort,
    tree: &mut Tree,
    directory: u16,
    name: &[u8],
    kind: NewNode,
    answer: Result<u16, Space>,
) {
    assert!(rt; is_kind(kind));
    expect_new(rt, tree, directory, name);
    expect_same(rt, tree.make(directory, name, kind), answer);
}

// Creates nodes in order. Each has a directory, a name, a kind and a number.
pub(crate) fn make_all(rt: &impl Abort, tree: &mut Tree, nodes: &[(u16, &[u8], NewNode, u16)]) {
    for &(directory, name, kind, node) in nodes {
        expect_make(rt, tree, directory, name, kind, Ok(node));
    }
}

pub(crate) fn expect_find(
    rt: &impl Abort,
    tree: &Tree,
    directory: u16,
    name: &[u8],
    answer: Option<u16>,
) {
    assert!(rt; tree.is_directory(directory));
    expect_same(rt, tree.find(directory, name), answer);
}

// Adds a reference to a node that has none.
pub(crate) fn hold(rt: &impl Abort, tree: &mut Tree, node: u16) {
    assert!(rt; tree.is_used(node));
    assert!(rt; tree.holds(node) == 0);
    tree.hold(node);
}

// Removes the name of a directory without entries.
pub(crate) fn remove_directory(rt: &impl Abort, tree: &mut Tree, directory: u16, name: &[u8]) {
    assert!(rt; tree.is_directory(directory));
    let node = tree.find(directory, name).expect(rt, "the name is there");
    assert!(rt; tree.is_directory(node));
    assert!(rt; tree.is_empty(node));
    tree.unlink(directory, name);
}
