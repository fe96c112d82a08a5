//! Tests of sequences of operations on a tree.
ghost use Rattle.std.specs.Prelude.{◌≤◌};

use crate::answers::{expect_equal, expect_name, expect_same};
use crate::trees::{
    expect_find, expect_make, expect_new, hold, of_version_2, remove_directory, with_data_blocks,
};
use pv_model::{Kind, NewNode, is_name};
use pv_tree::{Space, Tree};
use std::alloc::{AllocError, AllocGlobal};
use std::process::Abort;

// Checks the result of adding a name to a node.
fn expect_link(
    rt: &impl Abort,
    tree: &mut Tree,
    directory: u16,
    name: &[u8],
    node: u16,
    answer: Result<(), Space>,
) {
    expect_new(rt, tree, directory, name);
    assert!(rt; tree.is_used(node));
    assert!(rt; !tree.is_directory(node));
    expect_same(rt, tree.link(directory, name, node), answer);
}

// Moves an entry to a name that no node has.
fn expect_rename(
    rt: &impl Abort,
    tree: &mut Tree,
    from: u16,
    name: &[u8],
    to: u16,
    other: &[u8],
    answer: Result<(), Space>,
) {
    assert!(rt; tree.is_directory(from));
    let node = tree.find(from, name).expect(rt, "the name is there");
    expect_new(rt, tree, to, other);
    assert!(rt; !tree.contains(node, to));
    expect_same(rt, tree.rename(from, name, to, other), answer);
}

// Moves an entry to a name of another node without entries.
fn expect_rename_over(
    rt: &impl Abort,
    tree: &mut Tree,
    from: u16,
    name: &[u8],
    to: u16,
    other: &[u8],
    answer: Result<(), Space>,
) {
    assert!(rt; tree.is_directory(from));
    let node = tree.find(from, name).expect(rt, "the name is there");
    assert!(rt; tree.is_directory(to));
    assert!(rt; tree.parent(to).is_some());
    assert!(rt; !tree.contains(node, to));
    let gone = tree.find(to, other).expect(rt, "the other name is there");
    assert!(rt; gone != node);
    assert!(rt; tree.is_directory(gone));
    assert!(rt; tree.is_empty(gone));
    assert!(rt; is_name(tree.sizes().version, other));
    expect_same(rt, tree.rename(from, name, to, other), answer);
}

fn expect_write(
    rt: &impl Abort,
    tree: &mut Tree,
    node: u16,
    at: u32,
    bytes: &[u8],
    answer: Result<(), Space>,
) {
    assert!(rt; tree.is_used(node));
    assert!(rt; tree.kind(node) == Kind::File);
    expect_same(rt, tree.write_at(node, at, bytes), answer);
}

fn expect_cut(rt: &impl Abort, tree: &mut Tree, node: u16, size: u32, answer: Result<(), Space>) {
    assert!(rt; tree.is_used(node));
    assert!(rt; tree.kind(node) == Kind::File);
    expect_same(rt, tree.cut(node, size), answer);
}

// Releases a node that has one reference.
fn unreference(rt: &impl Abort, tree: &mut Tree, node: u16) {
    assert!(rt; tree.is_used(node));
    assert!(rt; tree.holds(node) == 1);
    tree.unreference(node);
}

// Checks the name of a directory that follows another, or that there is none.
fn expect_next(
    rt: &impl Abort,
    tree: &Tree,
    directory: u16,
    last: Option<&[u8]>,
    name: Option<&[u8]>,
) {
    assert!(rt; tree.is_directory(directory));
    let next = tree.next_after(directory, last);
    expect_name(rt, next.as_ref(), name);
}

// Checks that a directory has exactly these names, in this order.
fn expect_lists(rt: &impl Abort, tree: &Tree, directory: u16, names: &[&[u8]]) {
    let mut last = None;
    for &name in names {
        expect_next(rt, tree, directory, last, Some(name));
        last = Some(name);
    }
    expect_next(rt, tree, directory, last, None);
}

fn expect_parent(rt: &impl Abort, tree: &Tree, directory: u16, parent: Option<u16>) {
    assert!(rt; tree.is_directory(directory));
    expect_same(rt, tree.parent(directory), parent);
}

fn expect_size(rt: &impl Abort, tree: &Tree, node: u16, size: u32) {
    assert!(rt; tree.is_used(node));
    expect_same(rt, tree.size(node), size);
}

fn expect_names(rt: &impl Abort, tree: &Tree, node: u16, names: u32) {
    assert!(rt; tree.is_used(node));
    expect_same(rt, tree.names(node), names);
}

fn expect_holds(rt: &impl Abort, tree: &Tree, node: u16, holds: u16) {
    assert!(rt; tree.is_used(node));
    expect_same(rt, tree.holds(node), holds);
}

fn expect_empty(rt: &impl Abort, tree: &Tree, directory: u16) {
    assert!(rt; tree.is_directory(directory));
    assert!(rt; tree.is_empty(directory));
}

// A property of a tree.
#[derive(Clone, Copy)]
enum Fact<'a> {
    // A directory has exactly these names, in this order.
    Lists(u16, &'a [&'a [u8]]),
    // A name in a directory has this node.
    Find(u16, &'a [u8], u16),
    // A directory has this parent, or none.
    Parent(u16, Option<u16>),
    // A node has this number of bytes or entries.
    Size(u16, u32),
    // A node has this number of names.
    Names(u16, u32),
    // A node has this number of references.
    Holds(u16, u16),
    // A directory has no entries.
    Empty(u16),
    // No node has a number.
    Unused(u16),
}

use Fact::{Empty, Find, Holds, Lists, Names, Parent, Size, Unused};

fn expect_fact(rt: &impl Abort, tree: &Tree, fact: Fact) {
    match fact {
        Lists(directory, names) => expect_lists(rt, tree, directory, names),
        Find(directory, name, node) => expect_find(rt, tree, directory, name, Some(node)),
        Parent(directory, parent) => expect_parent(rt, tree, directory, parent),
        Size(node, size) => expect_size(rt, tree, node, size),
        Names(node, names) => expect_names(rt, tree, node, names),
        Holds(node, holds) => expect_holds(rt, tree, node, holds),
        Empty(directory) => expect_empty(rt, tree, directory),
        Unused(node) => assert!(rt; !tree.is_used(node)),
    }
}

// An operation on a tree with the expected result, or a property that must hold.
#[derive(Clone, Copy)]
enum Step<'a> {
    // Creates a node under a new name.
    Make(u16, &'a [u8], NewNode<'a>, Result<u16, Space>),
    // Adds a new name to a node.
    Link(u16, &'a [u8], u16, Result<(), Space>),
    // Moves an entry to a new name.
    Rename(u16, &'a [u8], u16, &'a [u8], Result<(), Space>),
    // Moves an entry to the name of an empty directory.
    RenameOver(u16, &'a [u8], u16, &'a [u8], Result<(), Space>),
    // Writes bytes to a file at an offset.
    Write(u16, u32, &'a [u8], Result<(), Space>),
    // Truncates a file to a length.
    Cut(u16, u32, Result<(), Space>),
    // Adds a reference to a node that has none.
    Hold(u16),
    // Releases a node that has one reference.
    Released(u16),
    // Removes the name of an empty directory.
    Remove(u16, &'a [u8]),
    // Checks a property.
    That(Fact<'a>),
}

use Step::{Cut, Hold, Link, Make, Released, Remove, Rename, RenameOver, That, Write};

fn expect_step(rt: &impl Abort, tree: &mut Tree, step: Step) {
    match step {
        Make(directory, name, kind, answer) => expect_make(rt, tree, directory, name, kind, answer),
        Link(directory, name, node, answer) => expect_link(rt, tree, directory, name, node, answer),
        Rename(from, name, to, other, answer) => {
            expect_rename(rt, tree, from, name, to, other, answer);
        }
        RenameOver(from, name, to, other, answer) => {
            expect_rename_over(rt, tree, from, name, to, other, answer);
        }
        Write(node, at, bytes, answer) => expect_write(rt, tree, node, at, bytes, answer),
        Cut(node, size, answer) => expect_cut(rt, tree, node, size, answer),
        Hold(node) => hold(rt, tree, node),
        Released(node) => unreference(rt, tree, node),
        Remove(directory, name) => remove_directory(rt, tree, directory, name),
        That(fact) => expect_fact(rt, tree, fact),
    }
}

// Runs steps in order.
fn expect_steps(rt: &impl Abort, tree: &mut Tree, steps: &[Step]) {
    for &step in steps {
        expect_step(rt, tree, step);
    }
}

// Runs steps on a tree with only a root and this number of data blocks.
fn expect_run<R: Abort + AllocGlobal>(rt: &R, count: u16, steps: &[Step]) -> Result<(), AllocError>
    requires { count ≤ 8000 }
{
    let mut tree = with_data_blocks(rt.alloc(), count)?;
    expect_steps(rt, &mut tree, steps);
    Ok(())
}

const GROWN: &[Step] = &[
    Make(1, b"f", NewNode::File, Ok(2)),
    Write(2, 1_023, b"x", Ok(())),
    Write(2, 1_024, b"x", Err(Space::Full)),
    Write(2, 136_192, b"x", Err(Space::TooBig)),
    That(Size(2, 1_024)),
    Cut(2, 1_025, Err(Space::Full)),
    Cut(2, 1, Ok(())),
    That(Size(2, 1)),
];

#[test]
fn a_file_grows_as_far_as_there_are_blocks(rt: HostRuntime) -> Result<(), AllocError> {
    expect_run(&rt, 3, GROWN)
}

// At the end, the directories use no block, two blocks and one. Only in the first does another name need a block.
const GIVEN_BACK: &[Step] = &[
    Make(1, b"a", NewNode::Directory, Ok(2)),
    Make(1, b"b", NewNode::Directory, Ok(3)),
    Make(2, b"f", NewNode::File, Ok(4)),
    Link(3, b"1", 4, Ok(())),
    Link(3, b"2", 4, Ok(())),
    Link(3, b"3", 4, Ok(())),
    Link(3, b"4", 4, Ok(())),
    Link(3, b"5", 4, Ok(())),
    Link(3, b"6", 4, Ok(())),
    Link(3, b"7", 4, Ok(())),
    Link(3, b"8", 4, Ok(())),
    Link(3, b"g", 4, Err(Space::Full)),
    Rename(2, b"f", 3, b"g", Ok(())),
    That(Find(3, b"g", 4)),
    That(Names(4, 9)),
    That(Empty(2)),
    That(Size(2, 0)),
    That(Size(3, 9)),
    That(Size(1, 2)),
    Link(2, b"h", 4, Err(Space::Full)),
    Link(3, b"h", 4, Ok(())),
    Link(1, b"h", 4, Ok(())),
];

#[test]
fn a_rename_gives_back_before_it_asks(rt: HostRuntime) -> Result<(), AllocError> {
    expect_run(&rt, 3, GIVEN_BACK)
}

const HELD: &[Step] = &[
    Make(1, b"d", NewNode::Directory, Ok(2)),
    Hold(2),
    Remove(1, b"d"),
    Make(1, b"d", NewNode::Directory, Ok(3)),
    That(Parent(2, None)),
    Released(2),
    That(Unused(2)),
    Make(1, b"e", NewNode::Symlink(b"d"), Ok(2)),
];

#[test]
fn a_node_that_is_held_keeps_its_number(rt: HostRuntime) -> Result<(), AllocError> {
    expect_run(&rt, 3, HELD)
}

const PUT_BACK: &[Step] = &[
    Make(1, b"a", NewNode::Directory, Ok(2)),
    Make(1, b"f", NewNode::File, Ok(3)),
    Write(3, 0, b"x", Ok(())),
    Rename(1, b"f", 2, b"g", Err(Space::Full)),
    That(Lists(1, &[b"a", b"f"])),
    That(Find(1, b"f", 3)),
    That(Lists(2, &[])),
    Cut(3, 0, Ok(())),
    Rename(1, b"f", 2, b"g", Ok(())),
    That(Lists(1, &[b"a"])),
    That(Lists(2, &[b"g"])),
];

#[test]
fn a_refused_rename_is_put_back(rt: HostRuntime) -> Result<(), AllocError> {
    expect_run(&rt, 2, PUT_BACK)
}

const REPLACED: &[Step] = &[
    Make(1, b"a", NewNode::Directory, Ok(2)),
    Make(2, b"d", NewNode::Directory, Ok(3)),
    Make(1, b"e", NewNode::Directory, Ok(4)),
    Hold(4),
    RenameOver(2, b"d", 1, b"e", Ok(())),
    That(Lists(1, &[b"a", b"e"])),
    That(Lists(2, &[])),
    That(Find(1, b"e", 3)),
    That(Parent(3, Some(1))),
    // The other one has a reference, so it stays, without a name.
    That(Parent(4, None)),
    That(Names(4, 0)),
    Released(4),
    That(Unused(4)),
    // A node without a reference is removed at once.
    RenameOver(1, b"e", 1, b"a", Ok(())),
    That(Unused(2)),
    That(Lists(1, &[b"a"])),
];

#[test]
fn a_rename_takes_the_place_of_another_node(rt: HostRuntime) -> Result<(), AllocError> {
    expect_run(&rt, 4, REPLACED)
}

// Creates 15 files whose names have one byte.
fn make_15(rt: &impl Abort, tree: &mut Tree) {
    for k in 0..15u8 {
        expect_make(rt, tree, 1, &[128 + k], NewNode::File, Ok(2 + u16::from(k)));
    }
}

const SIXTEENTH: &[Step] = &[
    Make(1, b"x", NewNode::File, Err(Space::Full)),
    That(Size(1, 15)),
    Link(1, b"x", 2, Ok(())),
];

#[test]
fn the_last_inode_is_the_sixteenth(rt: HostRuntime) -> Result<(), AllocError> {
    let mut tree = with_data_blocks(rt.alloc(), 3)?;
    make_15(&rt, &mut tree);
    expect_steps(&rt, &mut tree, SIXTEENTH);
    Ok(())
}

// Adds names of two bytes to node 2, so that its directory has 2,128 entries with its first.
fn link_2127(rt: &impl Abort, tree: &mut Tree) {
    for k in 0..2_127u16 {
        let name = [128 + (k / 64) as u8, 128 + (k % 64) as u8];
        expect_link(rt, tree, 1, &name, 2, Ok(()));
    }
}

const FULL: &[Step] = &[
    Link(1, b"g", 2, Err(Space::TooBig)),
    Make(1, b"g", NewNode::File, Err(Space::TooBig)),
    That(Names(2, 2_128)),
];

#[test]
fn the_last_name_is_the_2128th(rt: HostRuntime) -> Result<(), AllocError> {
    let mut tree = with_data_blocks(rt.alloc(), 300)?;
    expect_make(&rt, &mut tree, 1, b"f", NewNode::File, Ok(2));
    link_2127(&rt, &mut tree);
    expect_steps(&rt, &mut tree, FULL);
    Ok(())
}

// Checks the number of bytes that a read at an offset copies to five bytes, and the five bytes afterwards.
fn expect_read(
    rt: &impl Abort,
    tree: &Tree,
    node: u16,
    at: u32,
    buffer: &mut [u8; 5],
    count: usize,
    bytes: &[u8; 5],
) {
    assert!(rt; tree.is_used(node));
    assert!(rt; !tree.is_directory(node));
    expect_same(rt, tree.read_at(node, at, buffer), count);
    expect_equal(rt, buffer, bytes);
}

const WRITTEN: &[Step] = &[
    Make(1, b"f", NewNode::File, Ok(2)),
    Write(2, 510, b"abcd", Ok(())),
];

// Consecutive reads into the same five bytes: the offset, the number of bytes, and the buffer afterwards.
const READS: &[(u32, usize, &[u8; 5])] = &[
    (509, 5, b"\0abcd"),
    (513, 1, b"dabcd"),
    (514, 0, b"dabcd"),
];

#[test]
fn a_file_is_read_where_it_was_written(rt: HostRuntime) -> Result<(), AllocError> {
    let mut tree = with_data_blocks(rt.alloc(), 3)?;
    expect_steps(&rt, &mut tree, WRITTEN);
    let mut buffer = [255; 5];
    for &(at, count, bytes) in READS {
        expect_read(&rt, &tree, 2, at, &mut buffer, count, bytes);
    }
    Ok(())
}

const UNREFERENCE: &[Step] = &[
    Make(1, b"f", NewNode::File, Ok(2)),
    Hold(2),
    Released(2),
    That(Names(2, 1)),
    That(Holds(2, 0)),
];

#[test]
fn a_node_with_a_name_outlives_its_holders(rt: HostRuntime) -> Result<(), AllocError> {
    expect_run(&rt, 3, UNREFERENCE)
}

// The longest names of version 2 that repeat a single byte.
const A: &[u8] = &[b'a'; 255];

const B: &[u8] = &[b'b'; 255];

const C: &[u8] = &[b'c'; 255];

// The slot of the second name crosses a block boundary.
const LONG_NAMES: &[Step] = &[
    Make(1, C, NewNode::Directory, Ok(2)),
    Make(1, A, NewNode::File, Ok(3)),
    Link(1, B, 3, Ok(())),
    That(Lists(1, &[A, B, C])),
    Rename(1, A, 2, A, Ok(())),
    That(Lists(1, &[B, C])),
    That(Lists(2, &[A])),
    That(Find(1, B, 3)),
];

#[test]
fn names_of_version_2_have_255_bytes(rt: HostRuntime) -> Result<(), AllocError> {
    let mut tree = of_version_2(rt.alloc())?;
    expect_steps(&rt, &mut tree, LONG_NAMES);
    Ok(())
}

// Copies a tree over another one in an image of the same sizes.
fn copy_over(rt: &impl Abort, tree: &mut Tree, other: &Tree) {
    assert!(rt; tree.sizes() == other.sizes());
    tree.copy_from(other);
}

const COPIED: &[Step] = &[
    Make(1, b"d", NewNode::Directory, Ok(2)),
    Make(2, b"f", NewNode::File, Ok(3)),
    Write(3, 600, b"x", Ok(())),
    Hold(3),
];

const REPLACED_BY_A_COPY: &[Step] = &[
    Make(1, b"f", NewNode::File, Ok(2)),
    Link(1, b"g", 2, Ok(())),
    Hold(2),
];

// The copy has the entries, contents and references of the original. Changes of the copy do not change the original.
const COPY: &[Step] = &[
    That(Lists(1, &[b"d"])),
    That(Lists(2, &[b"f"])),
    That(Parent(2, Some(1))),
    That(Names(2, 1)),
    That(Size(3, 601)),
    That(Holds(2, 0)),
    Make(1, b"g", NewNode::File, Ok(4)),
    Released(3),
];

const ORIGINAL: &[Step] = &[That(Lists(1, &[b"d"])), That(Holds(3, 1)), That(Unused(4))];

#[test]
fn a_tree_is_copied_over_another(rt: HostRuntime) -> Result<(), AllocError> {
    let mut original = with_data_blocks(rt.alloc(), 6)?;
    expect_steps(&rt, &mut original, COPIED);
    let mut tree = with_data_blocks(rt.alloc(), 6)?;
    expect_steps(&rt, &mut tree, REPLACED_BY_A_COPY);
    copy_over(&rt, &mut tree, &original);
    expect_steps(&rt, &mut tree, COPY);
    expect_steps(&rt, &mut original, ORIGINAL);
    Ok(())
}
