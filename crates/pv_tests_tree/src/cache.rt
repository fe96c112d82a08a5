//! Tests of the name cache: the answers that it keeps and those that it discards.
ghost use Rattle.pv_namei.specs.Cached.{FitsMap};
ghost use Rattle.pv_model.specs.Machine.{find_entry};

use crate::answers::expect_same;
use crate::trees::{expect_make, with_64_inodes};
use pv_model::{Follow, NewNode, Place};
use pv_namei::{CachedLookup, Lookup, resolve};
use pv_tree::Tree;
use std::alloc::{AllocError, Global};
use std::process::Abort;

// Checks a lookup in the root.
fn expect_look(
    rt: &impl Abort,
    tree: &Tree,
    lookup: &mut CachedLookup,
    name: &[u8],
    answer: Option<u16>,
)
    requires { FitsMap lookup.old.answers (find_entry tree.now.tree) }
    ensures { FitsMap lookup.new.answers (find_entry tree.now.tree) }
{
    assert!(rt; tree.is_directory(1));
    expect_same(rt, lookup.look(tree, 1, name), answer);
}

// Checks the cached answer for a directory and a name.
fn expect_preserved(
    rt: &impl Abort,
    lookup: &CachedLookup,
    directory: u16,
    name: &[u8],
    expected: Option<Option<u16>>,
) {
    expect_same(rt, lookup.preserved(directory, name), expected);
}

// Reports to a lookup that a name of the root has changed.
fn report_changed(lookup: &mut CachedLookup, name: &[u8]) {
    lookup.changed(1, name);
}

// An operation on a lookup, with the expected result.
#[derive(Clone, Copy)]
enum Step<'a> {
    // Looks up a name in the root.
    Look(&'a [u8], Option<u16>),
    // Checks the cached answer for a directory and a name, or that there is none.
    Preserved(u16, &'a [u8], Option<Option<u16>>),
}

use Step::{Look, Preserved};

fn expect_step(rt: &impl Abort, tree: &Tree, lookup: &mut CachedLookup, step: Step)
    requires { FitsMap lookup.old.answers (find_entry tree.now.tree) }
    ensures { FitsMap lookup.new.answers (find_entry tree.now.tree) }
{
    match step {
        Look(name, answer) => expect_look(rt, tree, lookup, name, answer),
        Preserved(directory, name, expected) => expect_preserved(
            rt, lookup, directory, name, expected,
        ),
    }
}

// Runs steps in order.
fn expect_steps(rt: &impl Abort, tree: &Tree, lookup: &mut CachedLookup, steps: &[Step])
    requires agrees { FitsMap lookup.old.answers (find_entry tree.now.tree) }
{
    for &step in steps {
        expect_step(rt, tree, lookup, step);
    }
}

// Looks up absent names in the root, once each: n and a number below 600.
fn look_for_absent(
    rt: &impl Abort,
    alloc: Global,
    tree: &Tree,
    lookup: &mut CachedLookup,
) -> Result<(), AllocError>
    requires agrees { FitsMap lookup.old.answers (find_entry tree.now.tree) }
{
    for number in 0..600 {
        let name = format!(in alloc; "n{number}")?;
        expect_look(rt, tree, lookup, name.as_bytes(), None);
    }
    Ok(())
}

// Checks that exactly the last 512 of these names are cached.
fn expect_512_preserved(
    rt: &impl Abort,
    alloc: Global,
    lookup: &CachedLookup,
) -> Result<(), AllocError> {
    for number in 0..600 {
        let name = format!(in alloc; "n{number}")?;
        let expected = if number < 88 { None } else { Some(None) };
        expect_preserved(rt, lookup, 1, name.as_bytes(), expected);
    }
    Ok(())
}

#[test]
fn a_cached_lookup_keeps_512_answers(rt: HostRuntime) -> Result<(), AllocError> {
    let tree = with_64_inodes(rt.alloc())?;
    let mut lookup = CachedLookup::new(rt.alloc())?;
    look_for_absent(&rt, rt.alloc(), &tree, &mut lookup)?;
    expect_512_preserved(&rt, rt.alloc(), &lookup)
}

// Checks a walk from the root to /f.
fn expect_resolved(rt: &impl Abort, tree: &Tree, lookup: &mut CachedLookup, f: u16)
    requires { FitsMap lookup.old.answers (find_entry tree.now.tree) }
    ensures { FitsMap lookup.new.answers (find_entry tree.now.tree) }
{
    assert!(rt; tree.is_directory(1));
    let walked = resolve(tree, lookup, 1, b"/f", Follow::Last);
    assert!(rt; matches!(walked, Ok(Place::At { node: Some(node), .. }) if node == f));
}

// The steps after a walk to /f, which is node 2.
const WALKED: &[Step] = &[
    Preserved(1, b"f", Some(Some(2))),
    Look(b"f", Some(2)),
    Look(b"g", None),
    Preserved(1, b"f", Some(Some(2))),
    Preserved(1, b"g", Some(None)),
    Preserved(2, b"f", None),
];

#[test]
fn a_cached_lookup_forgets_what_changed(rt: HostRuntime) -> Result<(), AllocError> {
    let mut tree = with_64_inodes(rt.alloc())?;
    expect_make(&rt, &mut tree, 1, b"f", NewNode::File, Ok(2));
    let mut lookup = CachedLookup::new(rt.alloc())?;
    expect_resolved(&rt, &tree, &mut lookup, 2);
    expect_steps(&rt, &tree, &mut lookup, WALKED);
    report_changed(&mut lookup, b"f");
    expect_preserved(&rt, &lookup, 1, b"f", None);
    expect_preserved(&rt, &lookup, 1, b"g", Some(None));
    Ok(())
}

// The longest name that is cached, and a longer one.
const LONG: &[u8] = &[b'a'; 255];

const LONGER: &[u8] = &[b'a'; 256];

const LONG_NAMES: &[Step] = &[
    Look(LONGER, None),
    Look(LONG, None),
    Preserved(1, LONGER, None),
    Preserved(1, LONG, Some(None)),
    Look(b"a", None),
    Preserved(1, b"a", Some(None)),
    Preserved(1, b"aa", None),
];

#[test]
fn a_long_name_goes_past_the_cache(rt: HostRuntime) -> Result<(), AllocError> {
    let tree = with_64_inodes(rt.alloc())?;
    let mut lookup = CachedLookup::new(rt.alloc())?;
    expect_steps(&rt, &tree, &mut lookup, LONG_NAMES);
    report_changed(&mut lookup, LONGER);
    expect_preserved(&rt, &lookup, 1, LONG, Some(None));
    Ok(())
}
