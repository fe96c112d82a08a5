//! Tests of the bytes of images.
ghost use Rattle.std.specs.Prelude.{◌≤◌};

use crate::answers::{expect, expect_equal, expect_same};
use crate::bytes::{expect_components, front, put_all};
use crate::sinks::{sink_of, wide_sink};
use crate::trees::Step::{Make, Write};
use crate::trees::{Step, tree_of};
use pv_image_write::{WriteFault, needed_blocks, write_as, write_tree};
use pv_model::{Kind, Version};
use pv_tree::{Store, Tree};
use std::alloc::{AllocError, Global};
use std::process::Abort;

// Creates a tree with only a root, in an image with one inode and this number of blocks.
fn tree_of_one_inode(alloc: Global, blocks: u16) -> Result<Tree, AllocError>
    requires some { 2 ≤ blocks }
    requires few { blocks ≤ 7000 }
{
    let zeros = vec![in alloc; 0; 512 * blocks as usize]?;
    let store = Store::empty(alloc, zeros, blocks, 1, Version::V1)?;
    Ok(Box::into_inner(store.into_tree()))
}

// Returns the bytes of the image of a tree.
fn image_of(rt: &impl Abort, alloc: Global, tree: &Tree) -> Vec<u8> {
    let mut image = wide_sink(alloc);
    expect_same(rt, write_tree(alloc, tree, &mut image), Ok(()));
    image.bytes
}

// Checks the length of the image of a tree, and these components among zeros.
fn expect_whole(
    rt: &impl Abort,
    alloc: Global,
    tree: &Tree,
    length: usize,
    components: &[(usize, &[u8])],
) -> Result<(), AllocError> {
    let mut wanted = vec![in alloc; 0; length]?;
    put_all(&mut wanted, components);
    expect_equal(rt, &image_of(rt, alloc, tree), &wanted);
    Ok(())
}

const SMALLEST: &[(usize, &[u8])] = &[(0, b"PVIMAGE1\x02\x00\x01\x00"), (512, b"\x01")];

#[test]
fn the_smallest_image_has_a_root(rt: HostRuntime) -> Result<(), AllocError> {
    let tree = tree_of_one_inode(rt.alloc(), 2)?;
    expect_whole(&rt, rt.alloc(), &tree, 1_024, SMALLEST)
}

// Adds a reference to a node that has none.
fn hold(rt: &impl Abort, tree: &mut Tree, node: u16) {
    assert!(rt; tree.is_used(node));
    assert!(rt; tree.holds(node) == 0);
    tree.hold(node);
}

// Removes the name of a directory.
fn unlink(rt: &impl Abort, tree: &mut Tree, directory: u16, name: &[u8]) {
    assert!(rt; tree.is_directory(directory));
    let node = tree.find(directory, name).expect(rt, "the name is there");
    assert!(rt; tree.is_directory(node));
    assert!(rt; tree.is_empty(node));
    tree.unlink(directory, name);
}

const ROOT: &[(usize, &[u8])] = &[(0, b"PVIMAGE1\x08\x00\x10\x00"), (512, b"\x01")];

#[test]
fn a_held_node_without_a_name_is_not_written(rt: HostRuntime) -> Result<(), AllocError> {
    let steps = &[Make(1, b"d", Kind::Directory, 2)];
    let mut tree = tree_of(&rt, rt.alloc(), 6, steps)?;
    hold(&rt, &mut tree, 2);
    unlink(&rt, &mut tree, 1, b"d");
    expect(&rt, tree.is_used(2));
    expect_whole(&rt, rt.alloc(), &tree, 512 * 8, ROOT)
}

// The steps that create a tree of version 1 with this number of data blocks, the number of blocks that it needs in an
// image of a version, and the image.
#[derive(Clone, Copy)]
struct Image {
    count: u16,
    steps: &'static [Step<'static>],
    version: Version,
    need: u32,
    length: usize,
    components: &'static [(usize, &'static [u8])],
}

const A_DIRECTORY_AND_A_FILE: Image = Image {
    count: 6,
    steps: &[
        Make(1, b"d", Kind::Directory, 2),
        Make(1, b"file", Kind::File, 3),
        Write(3, 0, b"some bytes"),
    ],
    version: Version::V1,
    need: 2,
    length: 512 * 8,
    components: &[
        (0, b"PVIMAGE1\x08\x00\x10\x00"),
        (512, b"\x01\x00\x00\x00\x80\x00\x00\x00\x02\x00\x00"),
        (544, b"\x01\x00\x01\x00\x00\x00\x00\x00\x00\x00"),
        (576, b"\x02\x00\x01\x00\x0a\x00\x00\x00\x03\x00\x00"),
        (1_024, b"\x02\x00\x01\x00d\x00"),
        (1_088, b"\x03\x00\x04\x00file\x00"),
        (1_536, b"some bytes\x00"),
    ],
};

const TEN_BLOCKS: Image = Image {
    count: 21,
    steps: &[Make(1, b"f", Kind::File, 2), Write(2, 5_119, b"x")],
    version: Version::V1,
    need: 11,
    length: 512 * 23,
    components: &[
        (544, b"\x02\x00\x01\x00\x00\x14\x00\x00\x03\x00\x04"),
        (570, b"\x0c\x00\x00\x00\x00\x00"),
        (512 * 13 - 1, b"x\x00"),
    ],
};

// The number of the eleventh block is in an index block.
const ELEVEN_BLOCKS: Image = Image {
    count: 21,
    steps: &[
        Make(1, b"f", Kind::File, 2),
        Write(2, 5_119, b"x"),
        Write(2, 5_120, b"y"),
    ],
    version: Version::V1,
    need: 13,
    length: 512 * 23,
    components: &[
        (544, b"\x02\x00\x01\x00\x01\x14\x00\x00\x03\x00\x04"),
        (570, b"\x0c\x00\x0e\x00\x00\x00"),
        (512 * 13 - 1, b"xy\x00"),
        (512 * 14, b"\x0d\x00\x00\x00"),
    ],
};

// An image that is written in parts. The first part ends with the blocks of one file, the next starts with those of
// another, and the last has only zeros.
const LARGE: Image = Image {
    count: 400,
    steps: &[
        Make(1, b"f", Kind::File, 2),
        Write(2, 70_000, b"x"),
        Make(1, b"g", Kind::File, 3),
        Write(3, 100, b"y"),
    ],
    version: Version::V1,
    need: 140,
    length: 512 * 402,
    components: &[
        (544, b"\x02\x00\x01\x00\x71\x11\x01\x00\x03\x00\x04"),
        (570, b"\x0c\x00\x8c\x00\x00\x00"),
        (576, b"\x02\x00\x01\x00\x65\x00\x00\x00\x8d\x00\x00"),
        (512 * 3 + 70_000, b"x\x00"),
        (512 * 140, b"\x0d\x00\x0e\x00"),
        (512 * 140 + 252, b"\x8b\x00\x00\x00"),
        (512 * 141 + 99, b"\x00y\x00"),
    ],
};

// Longer inodes and slots, in 30 blocks with 17 inodes.
const SECOND: Image = Image {
    count: 21,
    steps: &[Make(1, b"f", Kind::File, 2), Write(2, 5_120, b"y")],
    version: Version::V2,
    need: 13,
    length: 512 * 30,
    components: &[
        (0, b"PVIMAGE2\x1e\x00\x11\x00"),
        (512, b"\x01\x00\x00\x00\x04\x01\x00\x00\x04\x00\x00"),
        (576, b"\x02\x00\x00\x00\x01\x14\x00\x00\x05\x00\x06"),
        (
            604,
            b"\x10\x00\x00\x00\x00\x00\x00\x00\x00\x00\x01\x00\x00\x00",
        ),
        (512 * 4, b"\x02\x00\x01\x00f\x00"),
        (512 * 15, b"y\x00"),
        (512 * 16, b"\x0f\x00\x00\x00"),
    ],
};

// Returns the bytes of the image of a tree, and checks the number of blocks that it needs.
fn as_written(rt: &impl Abort, alloc: Global, tree: &Tree, need: u32) -> Vec<u8> {
    assert!(rt; tree.sizes().version == Version::V1);
    expect_same(rt, needed_blocks(tree, Version::V1), need);
    image_of(rt, alloc, tree)
}

// Returns the bytes of an image of version 2 with 30 blocks and 17 inodes of a tree of version 1, and checks the number
// of blocks that it needs.
fn rewritten(rt: &impl Abort, alloc: Global, tree: &Tree, need: u32) -> Vec<u8> {
    let sizes = tree.sizes();
    assert!(rt; sizes.version == Version::V1);
    assert!(rt; sizes.inodes <= 17);
    let needed = needed_blocks(tree, Version::V2);
    expect_same(rt, needed, need);
    assert!(rt; needed <= 26);
    let mut image = wide_sink(alloc);
    let answer = write_as(alloc, tree, Version::V2, 30, 17, &mut image);
    expect_same(rt, answer, Ok(()));
    image.bytes
}

fn bytes_of(rt: &impl Abort, alloc: Global, tree: &Tree, image: &Image) -> Vec<u8> {
    match image.version {
        Version::V1 => as_written(rt, alloc, tree, image.need),
        Version::V2 => rewritten(rt, alloc, tree, image.need),
    }
}

fn expect_image(rt: &impl Abort, alloc: Global, image: &Image) -> Result<(), AllocError> {
    let tree = tree_of(rt, alloc, image.count, image.steps)?;
    let bytes = bytes_of(rt, alloc, &tree, image);
    expect_components(rt, &bytes, image.length, image.components);
    Ok(())
}

#[test]
fn nodes_and_blocks_appear_in_their_places(rt: HostRuntime) -> Result<(), AllocError> {
    for image in &[
        A_DIRECTORY_AND_A_FILE,
        TEN_BLOCKS,
        ELEVEN_BLOCKS,
        LARGE,
        SECOND,
    ] {
        expect_image(&rt, rt.alloc(), image)?;
    }
    Ok(())
}

// Checks that a sink with insufficient room receives a prefix of the image, and fails once.
fn expect_prefix(rt: &impl Abort, alloc: Global, tree: &Tree, room: usize, image: &[u8]) {
    let mut sink = sink_of(alloc, room, 1_000);
    expect_same(
        rt,
        write_tree(alloc, tree, &mut sink),
        Err(WriteFault::Write),
    );
    expect_equal(rt, sink.bytes.as_slice(), front(image, room));
    expect_same(rt, sink.failures, 1);
}

// In the first block, in the first part, in a later part, and before the last byte.
const ROOMS: &[usize] = &[0, 10, 60_000, 100_000, 512 * 402 - 1];

#[test]
fn a_sink_without_room_gets_a_prefix(rt: HostRuntime) -> Result<(), AllocError> {
    let tree = tree_of(&rt, rt.alloc(), LARGE.count, LARGE.steps)?;
    let image = image_of(&rt, rt.alloc(), &tree);
    for &room in ROOMS {
        expect_prefix(&rt, rt.alloc(), &tree, room, &image);
    }
    Ok(())
}
