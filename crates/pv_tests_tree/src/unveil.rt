//! Tests of small unveil tables, and of their answers for the places of a small tree.
use crate::answers::expect_same;
use crate::trees::{
    expect_find, expect_make, hold, make_all, of_version_2, remove_directory, with_data_blocks,
};
use pv_model::{Judgement, Name, NewNode, Perms, Place, Target};
use pv_tree::{PlaceRef, Tree};
use pv_unveil::{AddFault, Table};
use std::alloc::{AllocError, AllocGlobal, Global};
use std::process::Abort;

const R: Perms = Perms {
    r: true,
    w: false,
    x: false,
    c: false,
};

const RW: Perms = Perms {
    r: true,
    w: true,
    x: false,
    c: false,
};

fn name(rt: &impl Abort, text: &[u8]) -> Name {
    Name::new(text).expect(rt, "a short name")
}

const SMALL_TREE: &[(u16, &[u8], NewNode, u16)] = &[
    (1, b"a", NewNode::Directory, 2),
    (2, b"b", NewNode::Directory, 3),
    (1, b"f", NewNode::File, 4),
    (2, b"x", NewNode::File, 5),
    (3, b"x", NewNode::File, 6),
    (3, b"r", NewNode::Directory, 7),
];

// Creates a tree with the directories /a (2) and /a/b (3), the files /f (4), /a/x (5) and /a/b/x (6), and a removed
// directory (7) that was /a/b/r.
fn small_tree(rt: &impl Abort, alloc: Global) -> Result<Tree, AllocError> {
    let mut tree = with_data_blocks(alloc, 8)?;
    make_all(rt, &mut tree, SMALL_TREE);
    hold(rt, &mut tree, 7);
    expect_find(rt, &tree, 3, b"r", Some(7));
    remove_directory(rt, &mut tree, 3, b"r");
    Ok(tree)
}

// Checks the answer for a name in a directory, with the node that it names.
fn expect_by_name(
    rt: &impl Abort,
    table: &Table,
    tree: &Tree,
    dir: u16,
    text: &[u8],
    needed: Perms,
    judgement: Judgement,
) {
    assert!(rt; tree.is_directory(dir));
    let place = Place::At {
        dir,
        name: name(rt, text),
        node: tree.find(dir, text),
    };
    expect_same(
        rt,
        table.judge(tree, &PlaceRef::of(&place), needed),
        judgement,
    );
}

// Checks the answer for a directory without a name.
fn expect_by_node(
    rt: &impl Abort,
    table: &Table,
    tree: &Tree,
    directory: u16,
    needed: Perms,
    judgement: Judgement,
) {
    assert!(rt; tree.is_directory(directory));
    expect_same(
        rt,
        table.judge(tree, &PlaceRef::of_node(directory), needed),
        judgement,
    );
}

// Checks the result of adding an entry for a directory.
fn expect_add(
    rt: &impl Abort,
    table: &mut Table,
    directory: u16,
    permissions: Perms,
    answer: Result<u8, AddFault>,
) {
    expect_same(
        rt,
        table.add(Target::Directory(directory), permissions),
        answer,
    );
}

// Checks the result of adding an entry for a name in a directory.
fn expect_add_name(
    rt: &impl Abort,
    table: &mut Table,
    dir: u16,
    text: &[u8],
    permissions: Perms,
    answer: Result<u8, AddFault>,
) {
    let target = Target::Name {
        dir,
        name: name(rt, text),
    };
    expect_same(rt, table.add(target, permissions), answer);
}

// An operation on a table, with the expected result.
#[derive(Clone, Copy)]
enum Step<'a> {
    // Adds an entry for a directory.
    Add(u16, Perms, Result<u8, AddFault>),
    // Adds an entry for a name in a directory.
    AddName(u16, &'a [u8], Perms, Result<u8, AddFault>),
    // Checks the answer for a name in a directory and the required permissions.
    ByName(u16, &'a [u8], Perms, Judgement),
    // Checks the answer for a directory without a name.
    ByNode(u16, Perms, Judgement),
}

use Judgement::{Allowed, Denied, Hidden};
use Step::{Add, AddName, ByName, ByNode};

fn expect_step(rt: &impl Abort, table: &mut Table, tree: &Tree, step: Step) {
    match step {
        Add(directory, permissions, answer) => expect_add(
            rt,
            table,
            directory,
            permissions,
            answer,
        ),
        AddName(dir, text, permissions, answer) => {
            expect_add_name(rt, table, dir, text, permissions, answer);
        }
        ByName(dir, text, needed, judgement) => {
            expect_by_name(rt, table, tree, dir, text, needed, judgement);
        }
        ByNode(directory, needed, judgement) => {
            expect_by_node(rt, table, tree, directory, needed, judgement);
        }
    }
}

// Runs steps in order.
fn expect_steps(rt: &impl Abort, table: &mut Table, tree: &Tree, steps: &[Step]) {
    for &step in steps {
        expect_step(rt, table, tree, step);
    }
}

// Runs steps with an empty table and the small tree.
fn expect_run<R: Abort + AllocGlobal>(rt: &R, steps: &[Step]) -> Result<(), AllocError> {
    let tree = small_tree(rt, rt.alloc())?;
    expect_steps(rt, &mut Table::new(rt.alloc())?, &tree, steps);
    Ok(())
}

const WITHOUT_ENTRIES: &[Step] = &[
    ByName(1, b"f", RW, Allowed),
    ByName(3, b"new", RW, Allowed),
    ByNode(7, RW, Allowed),
];

#[test]
fn without_entries_all_is_allowed(rt: HostRuntime) -> Result<(), AllocError> {
    expect_run(&rt, WITHOUT_ENTRIES)
}

const NEAREST: &[Step] = &[
    Add(2, R, Ok(0)),
    ByName(3, b"x", R, Allowed),
    Add(3, Perms::NONE, Ok(1)),
    ByName(2, b"x", R, Allowed),
    ByName(2, b"x", RW, Denied(0)),
    ByName(2, b"new", RW, Denied(0)),
    ByName(3, b"x", R, Denied(1)),
    ByName(2, b"b", R, Denied(1)),
    ByName(1, b"a", R, Allowed),
    ByNode(2, R, Allowed),
];

#[test]
fn judges_by_the_nearest_entry(rt: HostRuntime) -> Result<(), AllocError> {
    expect_run(&rt, NEAREST)
}

const UNGOVERNED: &[Step] = &[
    Add(2, RW, Ok(0)),
    ByName(1, b"f", R, Hidden),
    ByName(1, b"new", R, Hidden),
    ByNode(1, R, Hidden),
];

#[test]
fn hides_what_no_entry_governs(rt: HostRuntime) -> Result<(), AllocError> {
    expect_run(&rt, UNGOVERNED)
}

const REMOVED: &[Step] = &[
    Add(1, RW, Ok(0)),
    ByNode(3, R, Allowed),
    ByNode(7, R, Hidden),
    Add(7, R, Ok(1)),
    ByNode(7, R, Allowed),
    ByNode(7, RW, Denied(1)),
];

#[test]
fn a_removed_directory_has_nothing_from_above(rt: HostRuntime) -> Result<(), AllocError> {
    expect_run(&rt, REMOVED)
}

const NAMED: &[Step] = &[
    AddName(1, b"f", R, Ok(0)),
    AddName(2, b"new", RW, Ok(1)),
    ByName(1, b"f", R, Allowed),
    ByName(1, b"f", RW, Denied(0)),
    ByName(1, b"foo", R, Hidden),
    ByName(2, b"f", R, Hidden),
    // The name does not exist yet. If it becomes a directory, the entry that governs its parent applies.
    ByName(2, b"new", RW, Allowed),
];

const MADE: &[Step] = &[ByName(2, b"new", R, Hidden)];

#[test]
fn judges_by_a_name(rt: HostRuntime) -> Result<(), AllocError> {
    let mut tree = small_tree(&rt, rt.alloc())?;
    let mut table = Table::new(rt.alloc())?;
    expect_steps(&rt, &mut table, &tree, NAMED);
    expect_make(&rt, &mut tree, 2, b"new", NewNode::Directory, Ok(8));
    expect_steps(&rt, &mut table, &tree, MADE);
    Ok(())
}

// Names of 2 bytes in the root share a mark with names of 1 byte in directory 2.
const SHARED_MARKS: &[Step] = &[
    AddName(1, b"ff", R, Ok(0)),
    ByName(1, b"gg", R, Hidden),
    ByName(2, b"x", R, Hidden),
    AddName(2, b"x", RW, Ok(1)),
    ByName(1, b"ff", R, Allowed),
    ByName(1, b"ff", RW, Denied(0)),
    ByName(1, b"gg", R, Hidden),
    ByName(2, b"x", RW, Allowed),
    ByName(2, b"y", R, Hidden),
    ByName(3, b"xyz", R, Hidden),
    ByNode(3, R, Hidden),
    AddName(2, b"x", R, Ok(1)),
    ByName(2, b"x", RW, Denied(1)),
];

#[test]
fn judges_by_names_that_share_a_mark(rt: HostRuntime) -> Result<(), AllocError> {
    expect_run(&rt, SHARED_MARKS)
}

// Two names of 255 bytes that differ only in the last byte.
const KEY: &[u8; 255] = &[b'k'; 255];

const OTHER: &[u8; 255] =
    b"kkkkkkkkkkkkkkkkkkkkkkkkkkkkkkkkkkkkkkkkkkkkkkkkkkkkkkkkkkkkkkkkkkkkkkkkkkkkkkkkkkkkk\
    kkkkkkkkkkkkkkkkkkkkkkkkkkkkkkkkkkkkkkkkkkkkkkkkkkkkkkkkkkkkkkkkkkkkkkkkkkkkkkkkkkkkk\
    kkkkkkkkkkkkkkkkkkkkkkkkkkkkkkkkkkkkkkkkkkkkkkkkkkkkkkkkkkkkkkkkkkkkkkkkkkkkkkkkkkkkl";

const GREATEST_NAMES: &[(u16, &[u8], NewNode, u16)] = &[
    (1, KEY, NewNode::File, 2),
    (1, OTHER, NewNode::File, 3),
];

const BY_GREATEST_NAMES: &[Step] = &[
    AddName(1, KEY, R, Ok(0)),
    ByName(1, KEY, R, Allowed),
    ByName(1, KEY, RW, Denied(0)),
    ByName(1, OTHER, R, Hidden),
];

#[test]
fn judges_by_a_name_of_version_2(rt: HostRuntime) -> Result<(), AllocError> {
    let mut tree = of_version_2(rt.alloc())?;
    make_all(&rt, &mut tree, GREATEST_NAMES);
    expect_steps(&rt, &mut Table::new(rt.alloc())?, &tree, BY_GREATEST_NAMES);
    Ok(())
}

// Adds the maximum number of entries, for the directories 1 to 64.
fn add_64(rt: &impl Abort, table: &mut Table) {
    for k in 0..64u8 {
        expect_add(rt, table, 1 + u16::from(k), RW, Ok(k));
    }
}

const MANY: &[(u16, Perms, Result<u8, AddFault>)] = &[
    (65, R, Err(AddFault::Many)),
    (64, R, Ok(63)),
    (64, RW, Err(AddFault::Increase(63))),
];

#[test]
fn adds_entries(rt: HostRuntime) -> Result<(), AllocError> {
    let mut table = Table::new(rt.alloc())?;
    add_64(&rt, &mut table);
    for &(directory, permissions, answer) in MANY {
        expect_add(&rt, &mut table, directory, permissions, answer);
    }
    expect_same(&rt, table.len(), 64);
    table.lock();
    expect_add(&rt, &mut table, 64, R, Err(AddFault::Locked));
    Ok(())
}

// Checks the number of entries of a table, and whether it is locked.
fn expect_table(rt: &impl Abort, table: &Table, entries: usize, locked: bool) {
    expect_same(rt, table.len(), entries);
    expect_same(rt, table.is_locked(), locked);
    expect_same(rt, table.is_empty(), entries == 0);
}

// Checks the permissions of a table's two entries, and the directory and the name of the second.
fn expect_two(
    rt: &impl Abort,
    table: &Table,
    permissions: [Perms; 2],
    directory: u16,
    text: &[u8],
) {
    assert!(rt; table.len() == 2);
    expect_same(
        rt,
        [table.permissions(0), table.permissions(1)],
        permissions,
    );
    assert!(rt;
        matches!(table.target(1), Target::Name { dir, name } if *dir == directory && name.as_slice() == text)
    );
}

#[test]
fn goes_or_stays_at_execve(rt: HostRuntime) -> Result<(), AllocError> {
    let mut table = Table::new(rt.alloc())?;
    expect_add(&rt, &mut table, 2, RW, Ok(0));
    expect_add_name(&rt, &mut table, 1, b"f", R, Ok(1));
    table.lock();
    let mut copy = Table::new(rt.alloc())?;
    expect_add(&rt, &mut copy, 7, RW, Ok(0));
    copy.copy_from(&table);
    expect_table(&rt, &copy, 2, true);
    expect_two(&rt, &copy, [RW, R], 1, b"f");
    copy.after_exec(true);
    expect_table(&rt, &copy, 2, true);
    copy.after_exec(false);
    expect_table(&rt, &copy, 0, false);
    expect_add(&rt, &mut copy, 3, R, Ok(0));
    expect_table(&rt, &table, 2, true);
    Ok(())
}
