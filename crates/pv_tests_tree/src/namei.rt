//! Tests of walks in small trees.
ghost use Rattle.std.specs.Prelude.{◌≤◌};

use crate::answers::expect_same;
use crate::trees::{expect_make, hold, make_all, remove_directory, with_64_inodes};
use pv_model::{Errno, Follow, NewNode, Place};
use pv_namei::{Lookup, PlainLookup, resolve};
use pv_tree::Tree;
use std::alloc::{AllocError, AllocGlobal, Global};
use std::process::Abort;

// The expected result of a walk.
#[derive(Clone, Copy)]
enum Expected<'a> {
    // An entry of a directory, and its node.
    At(u16, &'a [u8], Option<u16>),
    // A node without a name.
    Node(u16),
    // An error.
    Fault(Errno),
}

use Expected::{At, Fault, Node};

// Returns whether a walk has the expected result.
fn is_expected(walked: &Result<Place, Errno>, expected: Expected) -> bool {
    match (walked, expected) {
        (Ok(Place::At { dir, name, node }), At(directory, text, there)) => {
            *dir == directory && name.as_slice() == text && *node == there
        }
        (Ok(Place::Node(node)), Node(there)) => *node == there,
        (Err(fault), Fault(why)) => *fault == why,
        _ => false,
    }
}

// Walks a path, and checks the result.
fn expect_walk(
    rt: &impl Abort,
    tree: &Tree,
    start: u16,
    path: &[u8],
    follow: Follow,
    expected: Expected,
) {
    assert!(rt; tree.is_directory(start));
    let walked = resolve(tree, &mut PlainLookup, start, path, follow);
    assert!(rt; is_expected(&walked, expected));
}

// Walks paths from one directory, and checks the results.
fn expect_walks(rt: &impl Abort, tree: &Tree, start: u16, walks: &[(&[u8], Follow, Expected)]) {
    for &(path, follow, expected) in walks {
        expect_walk(rt, tree, start, path, follow, expected);
    }
}

// Walks paths from a directory of a tree with these nodes, and checks the results.
fn expect_paths<R: Abort + AllocGlobal>(
    rt: &R,
    nodes: &[(u16, &[u8], NewNode, u16)],
    start: u16,
    walks: &[(&[u8], Follow, Expected)],
) -> Result<(), AllocError> {
    let mut tree = with_64_inodes(rt.alloc())?;
    make_all(rt, &mut tree, nodes);
    expect_walks(rt, &tree, start, walks);
    Ok(())
}

const FOUR_NODES: &[(u16, &[u8], NewNode, u16)] = &[
    (1, b"f", NewNode::File, 2),
    (1, b"d", NewNode::Directory, 3),
    (1, b"l", NewNode::Symlink(b"d"), 4),
    (1, b"m", NewNode::Symlink(b"f/"), 5),
];

const ENDS: &[(&[u8], Follow, Expected)] = &[
    (b"/l", Follow::Keep, At(1, b"l", Some(4))),
    (b"/l", Follow::Last, At(1, b"d", Some(3))),
    (b"/l/", Follow::Keep, At(1, b"d", Some(3))),
    (b"/f/", Follow::Keep, Fault(Errno::ENOTDIR)),
    (b"/no/", Follow::Keep, Fault(Errno::ENOENT)),
    (b"/no", Follow::Keep, At(1, b"no", None)),
    (b"/f/x", Follow::Keep, Fault(Errno::ENOTDIR)),
    (b"/f", Follow::Last, At(1, b"f", Some(2))),
    (b"/m", Follow::Last, Fault(Errno::ENOTDIR)),
    (b"/m", Follow::Keep, At(1, b"m", Some(5))),
    (b"/no/", Follow::KeepTrimmed, At(1, b"no", None)),
    (b"", Follow::Last, Fault(Errno::ENOENT)),
];

#[test]
fn ends_of_paths(rt: HostRuntime) -> Result<(), AllocError> {
    expect_paths(&rt, FOUR_NODES, 1, ENDS)
}

// A symbolic link in the root: its name, its number, and its target, which repeats a component `count` times before an
// end.
#[derive(Clone, Copy)]
struct LongLink<'a> {
    name: &'a [u8],
    node: u16,
    component: &'a [u8],
    count: usize,
    end: &'a [u8],
}

fn make_long_link(
    rt: &impl Abort,
    alloc: Global,
    tree: &mut Tree,
    link: LongLink,
) -> Result<(), AllocError> {
    let mut text = link.component.repeat(alloc, link.count)?;
    text.extend_from_slice(link.end)?;
    expect_make(
        rt,
        tree,
        1,
        link.name,
        NewNode::Symlink(&text),
        Ok(link.node),
    );
    Ok(())
}

// Walks paths from the root of a tree with only these links, and checks the results.
fn expect_long_links<R: Abort + AllocGlobal>(
    rt: &R,
    links: &[LongLink],
    walks: &[(&[u8], Follow, Expected)],
) -> Result<(), AllocError> {
    let mut tree = with_64_inodes(rt.alloc())?;
    for &link in links {
        make_long_link(rt, rt.alloc(), &mut tree, link)?;
    }
    expect_walks(rt, &tree, 1, walks);
    Ok(())
}

// A link of 975 bytes: 16 names of 60 bytes with 15 slashes between them.
const LINK_OF_975: &[LongLink] = &[LongLink {
    name: b"k",
    node: 2,
    component: b"nnnnnnnnnnnnnnnnnnnnnnnnnnnnnnnnnnnnnnnnnnnnnnnnnnnnnnnnnnnn/",
    count: 15,
    end: &[b'n'; 60],
}];

// After the link, 48 bytes remain with their slash, and then 49.
const LEFT: &[(&[u8], Follow, Expected)] = &[
    (
        b"/k/aaaaaaaaaabbbbbbbbbbccccccccccddddddddddeeeeeee",
        Follow::Last,
        Fault(Errno::ENOENT),
    ),
    (
        b"/k/aaaaaaaaaabbbbbbbbbbccccccccccddddddddddeeeeeeee",
        Follow::Last,
        Fault(Errno::ENAMETOOLONG),
    ),
];

#[test]
fn a_link_leaves_1024_bytes_to_walk(rt: HostRuntime) -> Result<(), AllocError> {
    expect_long_links(&rt, LINK_OF_975, LEFT)
}

// Links of 978 and 977 bytes. Every second byte is a dot.
const DOTTED_LINKS: &[LongLink] = &[
    LongLink {
        name: b"k",
        node: 2,
        component: b"./",
        count: 489,
        end: b"",
    },
    LongLink {
        name: b"u",
        node: 3,
        component: b"./",
        count: 488,
        end: b".",
    },
];

// After each link, 45 bytes remain, and then 46.
const WEIGHED: &[(&[u8], Follow, Expected)] = &[
    (
        b"k/aaaaaaaaaabbbbbbbbbbccccccccccddddddddddeeeee",
        Follow::Keep,
        At(1, b"aaaaaaaaaabbbbbbbbbbccccccccccddddddddddeeeee", None),
    ),
    (
        b"k/aaaaaaaaaabbbbbbbbbbccccccccccddddddddddeeeeee",
        Follow::Keep,
        Fault(Errno::ENAMETOOLONG),
    ),
    (
        b"u/aaaaaaaaaabbbbbbbbbbccccccccccddddddddddeeeee",
        Follow::Keep,
        At(1, b"aaaaaaaaaabbbbbbbbbbccccccccccddddddddddeeeee", None),
    ),
    (
        b"u/aaaaaaaaaabbbbbbbbbbccccccccccddddddddddeeeeee",
        Follow::Keep,
        Fault(Errno::ENAMETOOLONG),
    ),
];

#[test]
fn components_after_a_link_weigh_at_most_1024(rt: HostRuntime) -> Result<(), AllocError> {
    expect_long_links(&rt, DOTTED_LINKS, WEIGHED)
}

// Links to directories whose names have one byte and two.
const SHORT_LINKS: &[(u16, &[u8], NewNode, u16)] = &[
    (1, b"b", NewNode::Directory, 2),
    (1, b"bc", NewNode::Directory, 3),
    (1, b"k", NewNode::Symlink(b"b"), 4),
    (1, b"u", NewNode::Symlink(b"bc"), 5),
];

// After a link, 511 dots remain with 510 slashes between them.
#[test]
fn dots_after_a_link_weigh_too(rt: HostRuntime) -> Result<(), AllocError> {
    let mut tree = with_64_inodes(rt.alloc())?;
    make_all(&rt, &mut tree, SHORT_LINKS);
    let dots = b"/.".repeat(rt.alloc(), 511)?;
    for (name, expected) in [(b"k", Node(2)), (b"u", Fault(Errno::ENAMETOOLONG))] {
        let mut path = Vec::from_slice(rt.alloc(), name)?;
        path.extend_from_slice(&dots)?;
        expect_walk(&rt, &tree, 1, &path, Follow::Last, expected);
    }
    Ok(())
}

const DOTTED_NODES: &[(u16, &[u8], NewNode, u16)] = &[
    (1, b"tmp", NewNode::Directory, 2),
    (1, b"etc", NewNode::Directory, 3),
    (3, b"motd", NewNode::File, 4),
    (2, b"l", NewNode::Symlink(b"/etc/motd"), 5),
    (2, b"e", NewNode::Symlink(b"../etc"), 6),
];

const DOTTED_FROM_ROOT: &[(&[u8], Follow, Expected)] = &[
    (b"/tmp/l", Follow::Last, At(3, b"motd", Some(4))),
    (b"/tmp/../etc/motd", Follow::Last, At(3, b"motd", Some(4))),
    (b"/tmp/e/../tmp/./x", Follow::Last, At(2, b"x", None)),
    (b"/../..", Follow::Last, Node(1)),
];

const DOTTED_FROM_TMP: &[(&[u8], Follow, Expected)] = &[
    (b"l", Follow::Last, At(3, b"motd", Some(4))),
    (b"e/motd", Follow::Last, At(3, b"motd", Some(4))),
    (b"e/..", Follow::Last, Node(1)),
];

#[test]
fn dots_and_links_lead_through_the_tree(rt: HostRuntime) -> Result<(), AllocError> {
    expect_paths(&rt, DOTTED_NODES, 1, DOTTED_FROM_ROOT)?;
    expect_paths(&rt, DOTTED_NODES, 2, DOTTED_FROM_TMP)
}

// Returns the name of a link of a chain.
fn link_name(k: u8) -> [u8; 3]
    requires { k ≤ 32 }
{
    [b'l', b'0' + k / 10, b'0' + k % 10]
}

const CHAIN_ENDS: &[(u16, &[u8], NewNode, u16)] = &[
    (1, b"f", NewNode::File, 2),
    (1, b"l32", NewNode::Symlink(b"f"), 3),
];

// Creates a chain of links: each leads to the next, and the last one to /f.
fn make_chain(rt: &impl Abort, tree: &mut Tree) {
    make_all(rt, tree, CHAIN_ENDS);
    for k in 0..32u8 {
        let next = link_name(k + 1);
        expect_make(
            rt,
            tree,
            1,
            &link_name(k),
            NewNode::Symlink(&next),
            Ok(4 + u16::from(k)),
        );
    }
}

// A link that leads to itself, and one that leads to its directory.
const TO_ITSELF: &[(u16, &[u8], NewNode, u16)] = &[
    (1, b"s", NewNode::Symlink(b"s"), 36),
    (1, b"e", NewNode::Symlink(b"."), 37),
];

const CHAINED: &[(&[u8], Follow, Expected)] = &[
    (b"/l01", Follow::Last, At(1, b"f", Some(2))),
    (b"/l00", Follow::Last, Fault(Errno::ELOOP)),
    (b"/s", Follow::Last, Fault(Errno::ELOOP)),
    (
        b"/e/e/e/e/e/e/e/e/e/e/e/e/e/e/e/e/e/e/e/e/e/e/e/e/e/e/e/e/e/e/e/e",
        Follow::Last,
        Node(1),
    ),
    (
        b"/e/e/e/e/e/e/e/e/e/e/e/e/e/e/e/e/e/e/e/e/e/e/e/e/e/e/e/e/e/e/e/e/e",
        Follow::Last,
        Fault(Errno::ELOOP),
    ),
];

#[test]
fn a_walk_follows_32_links(rt: HostRuntime) -> Result<(), AllocError> {
    let mut tree = with_64_inodes(rt.alloc())?;
    make_chain(&rt, &mut tree);
    make_all(&rt, &mut tree, TO_ITSELF);
    expect_walks(&rt, &tree, 1, CHAINED);
    Ok(())
}

const TURNING_NODES: &[(u16, &[u8], NewNode, u16)] = &[
    (1, b"d", NewNode::Directory, 2),
    (1, b"u", NewNode::Symlink(b"//d//"), 3),
    (2, b"v", NewNode::Symlink(b"./../d/.."), 4),
];

// Paths that follow u and v in turn: 32 links, and 33.
const TURNS: &[(&[u8], Follow, Expected)] = &[
    (
        b"/u/v/u/v/u/v/u/v/u/v/u/v/u/v/u/v/u/v/u/v/u/v/u/v/u/v/u/v/u/v/u/v",
        Follow::Last,
        Node(1),
    ),
    (
        b"/u/v/u/v/u/v/u/v/u/v/u/v/u/v/u/v/u/v/u/v/u/v/u/v/u/v/u/v/u/v/u/v/u",
        Follow::Keep,
        At(1, b"u", Some(3)),
    ),
    (
        b"/u/v/u/v/u/v/u/v/u/v/u/v/u/v/u/v/u/v/u/v/u/v/u/v/u/v/u/v/u/v/u/v/u",
        Follow::Last,
        Fault(Errno::ELOOP),
    ),
];

#[test]
fn a_path_has_32_links(rt: HostRuntime) -> Result<(), AllocError> {
    expect_paths(&rt, TURNING_NODES, 2, TURNS)
}

const SLASHED_NODES: &[(u16, &[u8], NewNode, u16)] = &[
    (1, b"d", NewNode::Directory, 2),
    (2, b"x", NewNode::File, 3),
    (1, b"l", NewNode::Symlink(b"//d//"), 4),
    (2, b"y", NewNode::Symlink(b"x"), 5),
    (1, b"n", NewNode::Symlink(b"no/"), 6),
];

const SLASHED: &[(&[u8], Follow, Expected)] = &[
    (b"//l///x", Follow::Keep, At(2, b"x", Some(3))),
    (b"//l///x//", Follow::Keep, Fault(Errno::ENOTDIR)),
    (b"l//", Follow::Keep, At(1, b"d", Some(2))),
    (b"l//", Follow::KeepTrimmed, At(1, b"l", Some(4))),
    (b"l//y", Follow::Last, At(2, b"x", Some(3))),
    (b"l//y//", Follow::Last, Fault(Errno::ENOTDIR)),
    (b"l/./no", Follow::Last, At(2, b"no", None)),
    (b"n", Follow::Last, Fault(Errno::ENOENT)),
    (b"n/x", Follow::Last, Fault(Errno::ENOENT)),
];

#[test]
fn links_appear_between_slashes(rt: HostRuntime) -> Result<(), AllocError> {
    expect_paths(&rt, SLASHED_NODES, 1, SLASHED)
}

const ROOTED_NODES: &[(u16, &[u8], NewNode, u16)] = &[
    (1, b"f", NewNode::File, 2),
    (1, b"d", NewNode::Directory, 3),
    (3, b"f", NewNode::File, 4),
    (3, b"a", NewNode::Symlink(b"/f"), 5),
    (3, b"b", NewNode::Symlink(b"f"), 6),
    (3, b"r", NewNode::Symlink(b"/"), 7),
];

const ROOTED: &[(&[u8], Follow, Expected)] = &[
    (b"a", Follow::Last, At(1, b"f", Some(2))),
    (b"a", Follow::Keep, At(3, b"a", Some(5))),
    (b"b", Follow::Last, At(3, b"f", Some(4))),
    (b"r/f", Follow::Keep, At(1, b"f", Some(2))),
    (b"r/d/b", Follow::Last, At(3, b"f", Some(4))),
    (b"r", Follow::Last, Node(1)),
];

#[test]
fn links_lead_from_the_root(rt: HostRuntime) -> Result<(), AllocError> {
    expect_paths(&rt, ROOTED_NODES, 3, ROOTED)
}

// A path has at most 1,023 bytes, and a name of version 1 has at most 60.
const LONGEST: &[(&[u8], Follow, Expected)] = &[
    (&[b'/'; 1_023], Follow::Last, Node(1)),
    (&[b'/'; 1_024], Follow::Last, Fault(Errno::ENAMETOOLONG)),
    (&[b'a'; 60], Follow::Last, At(1, &[b'a'; 60], None)),
    (&[b'a'; 61], Follow::Last, Fault(Errno::ENAMETOOLONG)),
];

#[test]
fn paths_have_1023_bytes(rt: HostRuntime) -> Result<(), AllocError> {
    expect_paths(&rt, &[], 1, LONGEST)
}

const REMOVED: &[(&[u8], Follow, Expected)] = &[
    (b".", Follow::Last, Node(2)),
    (b"..", Follow::Last, Fault(Errno::ENOENT)),
    (b"x", Follow::Last, Fault(Errno::ENOENT)),
    (b"./x", Follow::Last, Fault(Errno::ENOENT)),
];

#[test]
fn a_removed_directory_has_no_names(rt: HostRuntime) -> Result<(), AllocError> {
    let mut tree = with_64_inodes(rt.alloc())?;
    expect_make(&rt, &mut tree, 1, b"d", NewNode::Directory, Ok(2));
    hold(&rt, &mut tree, 2);
    remove_directory(&rt, &mut tree, 1, b"d");
    expect_walks(&rt, &tree, 2, REMOVED);
    Ok(())
}

// Checks a lookup in the root.
fn expect_look(
    rt: &impl Abort,
    tree: &Tree,
    lookup: &mut PlainLookup,
    name: &[u8],
    answer: Option<u16>,
) {
    assert!(rt; tree.is_directory(1));
    expect_same(rt, lookup.look(tree, 1, name), answer);
}

#[test]
fn a_plain_lookup_asks_the_tree(rt: HostRuntime) -> Result<(), AllocError> {
    let mut tree = with_64_inodes(rt.alloc())?;
    let mut lookup = PlainLookup;
    expect_look(&rt, &tree, &mut lookup, b"f", None);
    expect_make(&rt, &mut tree, 1, b"f", NewNode::File, Ok(2));
    lookup.changed(1, b"f");
    expect_look(&rt, &tree, &mut lookup, b"f", Some(2));
    Ok(())
}
