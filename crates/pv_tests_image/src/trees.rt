//! Creating trees for tests.
ghost use Rattle.std.specs.Prelude.{◌≡◌, ◌≤◌, IsTrue, IsFalse, None};
ghost use Rattle.pv_model.specs.declared.version.Version.{Version};
ghost use Rattle.pv_model.specs.Machine.{find_entry, is_directory_at, is_name, is_node, is_removed};
ghost use Rattle.pv_tree.specs.Changes.{new_node};

use crate::answers::expect_same;
use pv_model::{Kind, NewNode, Version, is_name};
use pv_tree::{Store, Tree};
use std::alloc::{AllocError, Global};
use std::process::Abort;

// Creates a tree with only a root, in an image with 16 inodes and `count` data blocks.
fn small_tree(alloc: Global, count: u16) -> Result<Tree, AllocError>
    requires { count ≤ 7000 }
{
    let zeros = vec![in alloc; 0; 512 * (count as usize + 2)]?;
    let store = Store::empty(alloc, zeros, count + 2, 16, Version::V1)?;
    Ok(Box::into_inner(store.into_tree()))
}

// Checks that a directory does not have a name.
fn expect_new(rt: &impl Abort, tree: &Tree, directory: u16, name: &[u8])
    ensures directory { IsTrue (is_directory_at tree.now.tree directory) }
    ensures present { IsFalse (is_removed tree.now.tree directory) }
    ensures name { IsTrue (is_name tree.now.tree.version name.now) }
    ensures absent { find_entry tree.now.tree directory name.now ≡ None }
{
    assert!(rt; tree.is_directory(directory));
    assert!(rt; tree.parent(directory).is_some());
    assert!(rt; is_name(tree.sizes().version, name));
    assert!(rt; tree.find(directory, name).is_none());
}

// Returns a new node of this kind. A symbolic link has the target `d/f`.
fn kind_of(sort: Kind) -> NewNode<'static>
    ensures { (v : Version) → IsTrue (is_node v (new_node result)) }
{
    match sort {
        Kind::Directory => NewNode::Directory,
        Kind::File => NewNode::File,
        Kind::Executable => NewNode::Executable,
        Kind::Symlink => NewNode::Symlink(b"d/f"),
    }
}

// Creates a node under a name of a directory.
pub(crate) fn make(
    rt: &impl Abort,
    tree: &mut Tree,
    directory: u16,
    name: &[u8],
    sort: Kind,
) -> u16 {
    expect_new(rt, tree, directory, name);
    let made = tree.make(directory, name, kind_of(sort));
    made.expect(rt, "there is room")
}

// Writes bytes to a file at an offset.
fn write(rt: &impl Abort, tree: &mut Tree, node: u16, at: u32, bytes: &[u8]) {
    assert!(rt; tree.is_used(node));
    assert!(rt; tree.kind(node) == Kind::File);
    expect_same(rt, tree.write_at(node, at, bytes), Ok(()));
}

// Adds a name to a node that is not a directory.
fn link(rt: &impl Abort, tree: &mut Tree, directory: u16, name: &[u8], node: u16) {
    expect_new(rt, tree, directory, name);
    assert!(rt; tree.is_used(node));
    assert!(rt; !tree.is_directory(node));
    expect_same(rt, tree.link(directory, name, node), Ok(()));
}

// A step that changes a tree.
#[derive(Clone, Copy)]
pub(crate) enum Step<'a> {
    // Creates a node under a name of a directory, with this number.
    Make(u16, &'a [u8], Kind, u16),
    // Writes bytes to a file at an offset.
    Write(u16, u32, &'a [u8]),
    // Adds a name of a directory to a node.
    Link(u16, &'a [u8], u16),
}

use Step::{Link, Make, Write};

// Runs the step.
fn take(rt: &impl Abort, tree: &mut Tree, step: Step) {
    match step {
        Make(directory, name, sort, node) => {
            expect_same(rt, make(rt, tree, directory, name, sort), node);
        }
        Write(node, at, bytes) => write(rt, tree, node, at, bytes),
        Link(directory, name, node) => link(rt, tree, directory, name, node),
    }
}

// Creates a tree in an image with 16 inodes and `count` data blocks, and runs the steps.
pub(crate) fn tree_of(
    rt: &impl Abort,
    alloc: Global,
    count: u16,
    steps: &[Step],
) -> Result<Tree, AllocError> {
    assert!(rt; count <= 7_000);
    let mut tree = small_tree(alloc, count)?;
    for &step in steps {
        take(rt, &mut tree, step);
    }
    Ok(tree)
}
