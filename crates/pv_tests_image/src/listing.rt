//! Tests of listings and other lines about a tree, also with sinks of limited capacity.
ghost use Rattle.std.specs.Prelude.{◌≤◌, [], ◌∷◌};

use crate::answers::{expect, expect_equal, expect_same};
use crate::bytes::front;
use crate::sinks::{Narrow, sink_of};
use crate::trees::Step::{Link, Make, Write};
use crate::trees::{Step, make, tree_of};
use pv_listing::{Remarks, write_lines, write_listing, write_path};
use pv_model::{Kind, Version};
use pv_streams::{Failed, Sink, Stop, write_whole};
use pv_tree::{Store, Tree};
use std::alloc::{AllocError, Global};
use std::process::Abort;

// Writes the listing of a tree to a sink that accepts at most `room` bytes in total and `width` per write, and returns
// the sink and the result.
fn listed<R: AllocGlobal>(
    rt: &R,
    tree: &Tree,
    room: usize,
    width: usize,
) -> (Narrow, Result<(), Stop>) {
    let mut out = sink_of(rt.alloc(), room, width);
    let answer = write_listing(rt.alloc(), tree, &mut out);
    (out, answer)
}

// Checks the listing of a tree, written at most `width` bytes at a time.
fn expect_listing<R: Abort + AllocGlobal>(rt: &R, tree: &Tree, width: usize, wanted: &[u8]) {
    let (out, answer) = listed(rt, tree, 1_000, width);
    expect_same(rt, answer, Ok(()));
    expect_equal(rt, out.bytes.as_slice(), wanted);
}

// Two directories with a file of two names, an executable file and a symbolic link.
const SOME: &[Step] = &[
    Make(1, b"d", Kind::Directory, 2),
    Make(2, b"f", Kind::File, 3),
    Make(1, b"x", Kind::Executable, 4),
    Make(1, b"l", Kind::Symlink, 5),
    Make(2, b"e", Kind::Directory, 6),
    Make(6, b"g", Kind::File, 7),
    Write(3, 0, b"bytes"),
    Link(1, b"d.", 3),
];

// All entries of a directory follow its line.
const SOME_LISTED: &[u8] =
    b"d 1 4 \"/\"\nd 2 2 \"/d\"\nd 6 1 \"/d/e\"\nf 7 0 \"/d/e/g\"\nf 3 5 \"/d/f\"\nf 3 5 \"/d.\"\nl 5 3 \"/l\"\nx 4 0 \"/x\"\n";

// A name that is quoted.
const QUOTED: &[Step] = &[Make(1, b"\"\\ ~\x01\x7f\xff", Kind::File, 2)];

// The steps that create a tree, and its listing.
const LISTINGS: &[(&[Step], &[u8])] = &[
    (&[], b"d 1 0 \"/\"\n"),
    (SOME, SOME_LISTED),
    (
        QUOTED,
        b"d 1 1 \"/\"\nf 2 0 \"/\\x22\\x5c ~\\x01\\x7f\\xff\"\n",
    ),
];

// Checks the listing of a tree that is created by these steps, for several widths of the sink.
fn expect_listings<R: Abort + AllocGlobal>(
    rt: &R,
    steps: &[Step],
    wanted: &[u8],
) -> Result<(), AllocError> {
    let tree = tree_of(rt, rt.alloc(), 30, steps)?;
    for width in [1, 7, 1_000] {
        expect_listing(rt, &tree, width, wanted);
    }
    Ok(())
}

#[test]
fn trees_have_their_listings(rt: HostRuntime) -> Result<(), AllocError> {
    for &(steps, wanted) in LISTINGS {
        expect_listings(&rt, steps, wanted)?;
    }
    Ok(())
}

// Checks that a sink with insufficient room receives a prefix of the listing, and fails once.
fn expect_prefix<R: Abort + AllocGlobal>(
    rt: &R,
    tree: &Tree,
    room: usize,
    width: usize,
    listing: &[u8],
) {
    let (out, answer) = listed(rt, tree, room, width);
    expect_same(rt, answer, Err(Stop::Write));
    expect_equal(rt, out.bytes.as_slice(), front(listing, room));
    expect_same(rt, out.failures, 1);
}

// Checks it for all insufficient sizes of a sink.
fn expect_prefixes<R: Abort + AllocGlobal>(rt: &R, tree: &Tree, width: usize, listing: &[u8]) {
    for room in 0..listing.len() {
        expect_prefix(rt, tree, room, width, listing);
    }
}

#[test]
fn a_full_sink_has_a_prefix_of_the_listing(rt: HostRuntime) -> Result<(), AllocError> {
    let tree = tree_of(&rt, rt.alloc(), 30, SOME)?;
    for width in [1, 7, 1_000] {
        expect_prefixes(&rt, &tree, width, SOME_LISTED);
    }
    Ok(())
}

// Writes a dot for each name.
struct Dots;

impl Remarks for Dots {
    ghost line = { λ _ _ _. 46 ∷ [] };

    fn write<W: Sink>(&self, out: &mut W, _path: &[u8], _node: u16) -> Result<(), Failed> {
        write_whole(out, b".")
    }
}

// Checks the bytes that a sink of this size receives, and the result.
fn expect_dots<R: Abort + AllocGlobal>(
    rt: &R,
    tree: &Tree,
    room: usize,
    answer: Result<(), Stop>,
    wanted: &[u8],
) {
    let mut out = sink_of(rt.alloc(), room, 1_000);
    expect_same(rt, write_lines(rt.alloc(), tree, &Dots, &mut out), answer);
    expect_equal(rt, out.bytes.as_slice(), wanted);
}

#[test]
fn each_name_is_written_as_the_remarks_say(rt: HostRuntime) -> Result<(), AllocError> {
    let tree = tree_of(&rt, rt.alloc(), 30, SOME)?;
    expect_dots(&rt, &tree, 1_000, Ok(()), b"........");
    expect_dots(&rt, &tree, 3, Err(Stop::Write), b"...");
    Ok(())
}

// Checks the encoding of a path, followed by a line feed.
fn expect_path<R: Abort + AllocGlobal>(rt: &R, path: &[u8], wanted: &[u8]) {
    let mut out = sink_of(rt.alloc(), 100_000, 100_000);
    expect(rt, write_path(&mut out, path).is_ok());
    expect(rt, write_whole(&mut out, b"\n").is_ok());
    expect_equal(rt, out.bytes.as_slice(), wanted);
}

// Returns equal components in quotation marks, followed by a line feed.
fn quoted(alloc: Global, count: usize, component: &[u8]) -> Result<Vec<u8>, AllocError> {
    let mut path = Vec::from_slice(alloc, b"\"")?;
    for _component in 0..count {
        path.extend_from_slice(component)?;
    }
    path.extend_from_slice(b"\"\n")?;
    Ok(path)
}

// Checks that a path of `count` bytes 255 is written with `count` escapes.
fn expect_long_path<R: Abort + AllocGlobal>(rt: &R, count: usize) -> Result<(), AllocError> {
    let path = vec![in rt.alloc(); 255; count]?;
    let wanted = quoted(rt.alloc(), count, b"\\xff")?;
    expect_path(rt, &path, &wanted);
    Ok(())
}

#[test]
fn a_path_of_any_length_is_quoted(rt: HostRuntime) -> Result<(), AllocError> {
    for count in [1, 63, 64, 65, 128, 1_000] {
        expect_long_path(&rt, count)?;
    }
    expect_path(&rt, b"", b"\"/\"\n");
    Ok(())
}

// Creates a tree with only a root, in an image with 4,096 inodes and `count` data blocks.
fn great_tree(alloc: Global, count: u16) -> Result<Tree, AllocError>
    requires { count ≤ 7000 }
{
    let zeros = vec![in alloc; 0; 512 * (count as usize + 257)]?;
    let store = Store::empty(alloc, zeros, count + 257, 4_096, Version::V1)?;
    Ok(Box::into_inner(store.into_tree()))
}

// Creates a chain of `count` directories below the root, each with this name.
fn chain(rt: &impl Abort, alloc: Global, count: u16, name: &[u8]) -> Result<Tree, AllocError> {
    let mut tree = great_tree(alloc, 1_100)?;
    let mut directory = 1;
    for _made in 0..count {
        directory = make(rt, &mut tree, directory, name, Kind::Directory);
    }
    Ok(tree)
}

// Returns the listing of a tree.
fn listing_of<R: Abort + AllocGlobal>(rt: &R, tree: &Tree) -> Vec<u8> {
    let (out, answer) = listed(rt, tree, 100_000_000, 100_000_000);
    expect_same(rt, answer, Ok(()));
    let Narrow { bytes, .. } = out;
    bytes
}

// A chain of directories with one name, and its listing: the first lines, the component of the last line's path for
// each directory, and the length of that path with its line feed.
struct ChainListed {
    count: u16,
    name: &'static [u8],
    first: &'static [u8],
    component: &'static [u8],
    length: usize,
}

// A path in a listing can be longer than one that can be walked.
const LONG: ChainListed = ChainListed {
    count: 20,
    name: &[255; 60],
    first: b"d 1 1 \"/\"\nd 2 1 \"/\\xff\\xff",
    component: LONG_PIECE,
    length: 4_823,
};

// The encoding of a name of 60 bytes.
const LONG_PIECE: &[u8] =
    b"/\\xff\\xff\\xff\\xff\\xff\\xff\\xff\\xff\\xff\\xff\\xff\\xff\\xff\\xff\\xff\\xff\\xff\\xff\\xff\\xff\\xff\\xff\\xff\\xff\\xff\\xff\\xff\\xff\\xff\\xff\\xff\\xff\\xff\\xff\\xff\\xff\\xff\\xff\\xff\\xff\\xff\\xff\\xff\\xff\\xff\\xff\\xff\\xff\\xff\\xff\\xff\\xff\\xff\\xff\\xff\\xff\\xff\\xff\\xff\\xff";

const DEEP: ChainListed = ChainListed {
    count: 1_000,
    name: b"d",
    first: b"d 1 1 \"/\"\nd 2 1 \"/d\"\nd 3 1 \"/d/d\"\n",
    component: b"/d",
    length: 2_003,
};

// Checks the first lines of a listing, and the number of lines.
fn expect_lines(rt: &impl Abort, listing: &[u8], first: &[u8], count: usize) {
    expect(rt, listing.starts_with(first));
    let lines = listing.iter().filter(|byte| **byte == b'\n').count();
    expect_same(rt, lines, count);
}

// Checks that a listing ends with a path of `count` equal components with this encoded length.
fn expect_last_path(
    rt: &impl Abort,
    alloc: Global,
    listing: &[u8],
    count: usize,
    component: &[u8],
    length: usize,
) -> Result<(), AllocError> {
    let path = quoted(alloc, count, component)?;
    expect(rt, listing.ends_with(path.as_slice()));
    expect_same(rt, path.len(), length);
    Ok(())
}

fn expect_chain<R: Abort + AllocGlobal>(rt: &R, wanted: &ChainListed) -> Result<(), AllocError> {
    let tree = chain(rt, rt.alloc(), wanted.count, wanted.name)?;
    let listing = listing_of(rt, &tree);
    let count = wanted.count as usize;
    expect_lines(rt, &listing, wanted.first, count + 1);
    expect_last_path(
        rt,
        rt.alloc(),
        &listing,
        count,
        wanted.component,
        wanted.length,
    )
}

#[test]
fn chains_of_directories_are_listed(rt: HostRuntime) -> Result<(), AllocError> {
    expect_chain(&rt, &LONG)?;
    expect_chain(&rt, &DEEP)
}

// Creates a chain of 20 directories whose names have 60 bytes. Each byte has an encoding of four.
fn long_chain<R: Abort + AllocGlobal>(rt: &R) -> Result<Tree, AllocError> {
    chain(rt, rt.alloc(), 20, &[255; 60])
}

#[test]
fn a_full_sink_may_end_within_a_long_path(rt: HostRuntime) -> Result<(), AllocError> {
    let tree = long_chain(&rt)?;
    let whole = listing_of(&rt, &tree);
    for room in [0, 4_095, 4_096, 4_097, 20_000] {
        expect_prefix(&rt, &tree, room, 1_000_000, &whole);
    }
    Ok(())
}

// Creates a sink whose memory is already allocated.
fn ready_sink<R: AllocGlobal>(rt: &R) -> Result<Narrow, AllocError> {
    let mut out = sink_of(rt.alloc(), 1_000_000, 1_000_000);
    out.bytes.reserve(100_000)?;
    Ok(out)
}

// Checks that the output of a listing that can fail to allocate memory is a prefix of the whole listing, and is all of
// it if the result is `Ok`.
fn expect_part(rt: &impl Abort, listed: Result<(), Stop>, first: &Narrow, whole: &Narrow) {
    expect(rt, listed != Err(Stop::Write));
    expect_same(rt, first.failures, 0);
    expect(rt, whole.bytes.starts_with(first.bytes.as_slice()));
    let is_short = first.bytes.len() < whole.bytes.len();
    expect_same(rt, listed.is_err(), is_short);
}

// Checks a listing in which an allocation can fail. Both sinks are already allocated, so it is one for the first path.
fn expect_out_of_memory<R: Abort + AllocGlobal>(rt: &R, tree: &Tree) -> Result<(), AllocError> {
    let mut first = ready_sink(rt)?;
    let mut whole = ready_sink(rt)?;
    let listed = write_listing(rt.alloc(), tree, &mut first);
    expect_same(rt, write_listing(rt.alloc(), tree, &mut whole), Ok(()));
    expect_part(rt, listed, &first, &whole);
    Ok(())
}

#[test]
fn out_of_memory_leaves_a_prefix(rt: HostRuntime) -> Result<(), AllocError> {
    let tree = long_chain(&rt)?;
    expect_out_of_memory(&rt, &tree)
}
