//! Tests of directories whose entries are added and removed, in both versions, and of files in them.
ghost use Rattle.std.specs.Prelude.{◌<◌, ◌≤◌};

use crate::store_answers::expect_same;
use pv_dirs::Directories;
use pv_inodes::Space;
use pv_model::{Kind, Name, Version, is_name};
use std::alloc::{AllocError, AllocGlobal, Global};
use std::process::Abort;

// Creates an image of version 1 with 16 inodes and `count` data blocks, and a directory with number 1.
fn with_data_blocks(rt: &impl Abort, alloc: Global, count: u16) -> Result<Directories, AllocError>
    requires some { 1 ≤ count }
    requires few { count ≤ 8000 }
{
    let zeros = vec![in alloc; 0; 512 * (count as usize + 2)]?;
    let mut files = Directories::empty(alloc, zeros, count + 2, 16, Version::V1)?;
    expect_same(rt, files.fresh(Kind::Directory), Some(1));
    Ok(files)
}

// Does the same in an image of version 2, where the inodes occupy two blocks.
fn of_version_2(rt: &impl Abort, alloc: Global, count: u16) -> Result<Directories, AllocError>
    requires some { 1 ≤ count }
    requires few { count ≤ 8000 }
{
    let zeros = vec![in alloc; 0; 512 * (count as usize + 3)]?;
    let mut files = Directories::empty(alloc, zeros, count + 3, 16, Version::V2)?;
    expect_same(rt, files.fresh(Kind::Directory), Some(1));
    Ok(files)
}

fn expect_find(rt: &impl Abort, files: &Directories, name: &[u8], answer: Option<u16>) {
    assert!(rt; files.is_directory(1));
    expect_same(rt, files.find(1, name), answer);
}

// Checks the result of adding an entry.
fn expect_add(
    rt: &impl Abort,
    files: &mut Directories,
    name: &[u8],
    inode: u16,
    answer: Result<(), Space>,
) {
    assert!(rt; files.is_directory(1));
    assert!(rt; files.find(1, name).is_none());
    assert!(rt; is_name(files.version(), name));
    expect_same(rt, files.add(1, name, inode), answer);
}

fn remove(rt: &impl Abort, files: &mut Directories, name: &[u8]) {
    assert!(rt; files.is_directory(1));
    let node = files.find(1, name);
    assert!(rt; node.is_some());
    expect_same(rt, files.remove(1, name), node);
}

// Checks that no name follows `last`.
fn expect_end(rt: &impl Abort, files: &Directories, last: &Option<Name>) {
    assert!(rt; files.is_directory(1));
    assert!(rt;
        files
            .next_after(1, last.as_ref().map(|last| last.as_slice()))
            .is_none()
    );
}

// Checks that the directory has exactly these names, in this order.
fn assert_lists(rt: &impl Abort, files: &Directories, names: &[&[u8]]) {
    let mut last: Option<Name> = None;
    for name in names {
        assert!(rt; files.is_directory(1));
        last = files.next_after(1, last.as_ref().map(|last| last.as_slice()));
        assert!(rt; last.as_ref().is_some_and(|last| last.as_slice() == *name));
    }
    expect_end(rt, files, &last);
}

fn expect_free(rt: &impl Abort, files: &Directories, blocks: u16) {
    expect_same(rt, files.free(), blocks);
}

fn expect_size(rt: &impl Abort, files: &Directories, inode: u16, size: u32) {
    assert!(rt; files.is_used(inode));
    expect_same(rt, files.size(inode), size);
}

// Adds `count` names of two bytes. `second` is the second byte of each.
fn add_many(rt: &impl Abort, files: &mut Directories, count: u8, second: u8)
    requires { count ≤ 100 }
{
    for k in 0..count {
        expect_add(rt, files, &[128 + k, second], 1, Ok(()));
    }
}

// Checks that a node is a file.
fn expect_file(rt: &impl Abort, files: &Directories, file: u16) {
    assert!(rt; files.is_used(file));
    expect_same(rt, files.kind(file), Kind::File);
    assert!(rt; !files.is_directory(file));
}

fn expect_write(
    rt: &impl Abort,
    files: &mut Directories,
    file: u16,
    at: u32,
    bytes: &[u8],
    answer: Result<(), Space>,
) {
    assert!(rt; files.is_used(file) && !files.is_directory(file));
    expect_same(rt, files.write_at(file, at, bytes), answer);
}

// Checks a read from the start of a file into a buffer of four bytes 255: the number of bytes read, and the buffer
// afterwards.
fn expect_read(rt: &impl Abort, files: &Directories, file: u16, count: usize, bytes: [u8; 4]) {
    assert!(rt; files.is_used(file) && !files.is_directory(file));
    let mut buffer = [255; 4];
    expect_same(rt, files.read_at(file, 0, &mut buffer), count);
    expect_same(rt, buffer, bytes);
}

fn expect_cut(
    rt: &impl Abort,
    files: &mut Directories,
    file: u16,
    size: u32,
    answer: Result<(), Space>,
) {
    assert!(rt; files.is_used(file) && !files.is_directory(file));
    expect_same(rt, files.cut(file, size), answer);
}

fn drop_inode(rt: &impl Abort, files: &mut Directories, inode: u16) {
    assert!(rt; files.is_used(inode));
    files.drop_inode(inode);
}

// An operation on the directory, with the expected result.
#[derive(Clone, Copy)]
enum Step<'a> {
    // Adds an entry.
    Add(&'a [u8], u16, Result<(), Space>),
    // Removes an entry.
    Remove(&'a [u8]),
    // Looks up a name.
    Find(&'a [u8], Option<u16>),
    // Checks that these are the names, in this order.
    Lists(&'a [&'a [u8]]),
    // Checks the number of free blocks.
    Free(u16),
    // Checks the number of entries.
    Size(u32),
}

use Step::{Add, Find, Free, Lists, Remove, Size};

fn expect_step(rt: &impl Abort, files: &mut Directories, step: Step) {
    match step {
        Add(name, inode, answer) => expect_add(rt, files, name, inode, answer),
        Remove(name) => remove(rt, files, name),
        Find(name, answer) => expect_find(rt, files, name, answer),
        Lists(names) => assert_lists(rt, files, names),
        Free(blocks) => expect_free(rt, files, blocks),
        Size(size) => expect_size(rt, files, 1, size),
    }
}

// Runs steps in order.
fn expect_steps(rt: &impl Abort, files: &mut Directories, steps: &[Step]) {
    for &step in steps {
        expect_step(rt, files, step);
    }
}

const BYTE_ORDER: &[Step] = &[
    Lists(&[]),
    Add(b"a", 2, Ok(())),
    Add(b"b", 3, Ok(())),
    Add(b"c", 4, Ok(())),
    Lists(&[b"a", b"b", b"c"]),
    Remove(b"a"),
    Lists(&[b"b", b"c"]),
    Add(b"ab", 5, Ok(())),
    Add(b"B", 6, Ok(())),
    Lists(&[b"B", b"ab", b"b", b"c"]),
    Find(b"B", Some(6)),
    Find(b"ab", Some(5)),
    Find(b"b", Some(3)),
    Find(b"c", Some(4)),
    Find(b"a", None),
];

// The second name precedes the first.
const OUT_OF_ORDER: &[Step] = &[
    Add(b"b", 2, Ok(())),
    Add(b"a", 3, Ok(())),
    Lists(&[b"a", b"b"]),
    Add(b"c", 4, Ok(())),
    Lists(&[b"a", b"b", b"c"]),
    Remove(b"c"),
    Lists(&[b"a", b"b"]),
    Remove(b"b"),
    Lists(&[b"a"]),
];

// Removes a name in the middle of ascending names, so that the last one moves to its slot, and then appends names.
const MIDDLE_REMOVED: &[Step] = &[
    Add(b"a", 2, Ok(())),
    Add(b"b", 3, Ok(())),
    Add(b"c", 4, Ok(())),
    Add(b"d", 5, Ok(())),
    Lists(&[b"a", b"b", b"c", b"d"]),
    Remove(b"b"),
    Add(b"e", 6, Ok(())),
    Lists(&[b"a", b"c", b"d", b"e"]),
    Find(b"d", Some(5)),
    Find(b"e", Some(6)),
];

// Removes the last of ascending names, and then adds one after and one before the others.
const LAST_REMOVED: &[Step] = &[
    Add(b"b", 2, Ok(())),
    Add(b"c", 3, Ok(())),
    Add(b"e", 4, Ok(())),
    Remove(b"e"),
    Lists(&[b"b", b"c"]),
    Add(b"d", 5, Ok(())),
    Lists(&[b"b", b"c", b"d"]),
    Add(b"a", 6, Ok(())),
    Lists(&[b"a", b"b", b"c", b"d"]),
];

#[test]
fn names_come_in_byte_order(rt: HostRuntime) -> Result<(), AllocError> {
    for &steps in &[BYTE_ORDER, OUT_OF_ORDER, MIDDLE_REMOVED, LAST_REMOVED] {
        let mut files = with_data_blocks(&rt, rt.alloc(), 2)?;
        expect_steps(&rt, &mut files, steps);
    }
    Ok(())
}

const HOLES: &[Step] = &[
    Add(b"a", 2, Ok(())),
    Add(b"b", 3, Ok(())),
    Add(b"c", 4, Ok(())),
    Add(b"d", 5, Ok(())),
    Remove(b"b"),
    Lists(&[b"a", b"c", b"d"]),
    Remove(b"c"),
    Lists(&[b"a", b"d"]),
    Remove(b"a"),
    Lists(&[b"d"]),
    Find(b"d", Some(5)),
    Remove(b"d"),
    Lists(&[]),
];

fn expect_empty(rt: &impl Abort, files: &Directories) {
    assert!(rt; files.is_directory(1));
    assert!(rt; files.is_empty(1));
}

#[test]
fn a_hole_is_closed_wherever_it_is(rt: HostRuntime) -> Result<(), AllocError> {
    let mut files = with_data_blocks(&rt, rt.alloc(), 2)?;
    expect_steps(&rt, &mut files, HOLES);
    expect_empty(&rt, &files);
    expect_free(&rt, &files, 2);
    Ok(())
}

const NINTH: &[Step] = &[Free(1), Add(b"a", 2, Ok(())), Free(0)];

const SEVENTEENTH: &[Step] = &[
    Add(b"b", 2, Err(Space::Full)),
    Find(b"b", None),
    Find(b"a", Some(2)),
    Size(16),
];

#[test]
fn the_ninth_entry_takes_a_second_block(rt: HostRuntime) -> Result<(), AllocError> {
    let mut files = with_data_blocks(&rt, rt.alloc(), 2)?;
    expect_same(&rt, files.blocks(), 2);
    expect_same(&rt, files.inodes(), 16);
    add_many(&rt, &mut files, 8, 128);
    expect_steps(&rt, &mut files, NINTH);
    add_many(&rt, &mut files, 7, 129);
    expect_steps(&rt, &mut files, SEVENTEENTH);
    Ok(())
}

// Returns the name with this number. The byte order of the names is the order of their numbers.
fn name_of(number: u16) -> [u8; 2]
    requires { number < 2128 }
{
    [128 + (number / 64) as u8, 128 + (number % 64) as u8]
}

// Adds the maximum number of names of a directory of version 1.
fn fill(rt: &impl Abort, files: &mut Directories) {
    for k in 0..2_128u16 {
        expect_add(rt, files, &name_of(k), 1, Ok(()));
    }
}

const ONE_MORE: &[Step] = &[
    Free(33),
    Add(b"a", 2, Err(Space::TooBig)),
    Find(b"a", None),
    Size(2_128),
];

#[test]
fn the_last_entry_is_the_2128th(rt: HostRuntime) -> Result<(), AllocError> {
    let mut files = with_data_blocks(&rt, rt.alloc(), 300)?;
    fill(&rt, &mut files);
    expect_steps(&rt, &mut files, ONE_MORE);
    Ok(())
}

// Creates a file under the first free number.
fn fresh_file(rt: &impl Abort, files: &mut Directories) -> u16 {
    let file = files.fresh(Kind::File).expect(rt, "an inode is free");
    expect_same(rt, file, 2);
    expect_file(rt, files, file);
    file
}

fn expect_unused(rt: &impl Abort, files: &Directories, inode: u16) {
    assert!(rt; !files.is_used(inode));
}

#[test]
fn a_file_holds_what_was_written(rt: HostRuntime) -> Result<(), AllocError> {
    let mut files = with_data_blocks(&rt, rt.alloc(), 2)?;
    let file = fresh_file(&rt, &mut files);
    expect_write(&rt, &mut files, file, 1, b"ab", Ok(()));
    expect_read(&rt, &files, file, 3, [0, b'a', b'b', 255]);
    expect_cut(&rt, &mut files, file, 2, Ok(()));
    expect_size(&rt, &files, file, 2);
    drop_inode(&rt, &mut files, file);
    expect_unused(&rt, &files, file);
    expect_free(&rt, &files, 2);
    Ok(())
}

// Returns a name of 255 bytes.
fn long_name(first: u8) -> [u8; 255] {
    let mut name = [b'x'; 255];
    name[0] = first;
    name
}

// Adds eight long names whose first bytes are 128 and up.
fn add_long(rt: &impl Abort, files: &mut Directories) {
    for k in 0..8u8 {
        expect_add(rt, files, &long_name(128 + k), 2 + u16::from(k), Ok(()));
    }
}

fn expect_long(rt: &impl Abort, files: &Directories, first: u8, answer: Option<u16>) {
    expect_find(rt, files, &long_name(first), answer);
}

// Checks that all long names except the second are there.
fn expect_seven(rt: &impl Abort, files: &Directories) {
    assert_lists(
        rt,
        files,
        &[
            &long_name(128),
            &long_name(130),
            &long_name(131),
            &long_name(132),
            &long_name(133),
            &long_name(134),
            &long_name(135),
        ],
    );
}

#[test]
fn slots_appear_across_two_blocks(rt: HostRuntime) -> Result<(), AllocError> {
    let mut files = of_version_2(&rt, rt.alloc(), 6)?;
    add_long(&rt, &mut files);
    // Eight names need 2,080 bytes, which is five blocks. The second slot ends in the second block.
    expect_free(&rt, &files, 1);
    expect_long(&rt, &files, 129, Some(3));
    remove(&rt, &mut files, &long_name(129));
    expect_long(&rt, &files, 129, None);
    // The last slot has moved to its place. Its name is still found and listed.
    expect_long(&rt, &files, 135, Some(9));
    expect_free(&rt, &files, 2);
    expect_seven(&rt, &files);
    Ok(())
}

// The number of names of a directory whose slots are sorted.
const MANY: u16 = 130;

// Adds many names. The number of each is that of the previous one plus `step`, modulo their count.
fn add_scattered(rt: &impl Abort, files: &mut Directories, step: u16)
    requires { step < 130 }
{
    for k in 0..MANY {
        let number = k * step % MANY;
        expect_add(rt, files, &name_of(number), number, Ok(()));
    }
}

// Checks that the name that follows `last` is the one with this number, and sets `last` to it.
fn expect_next(rt: &impl Abort, files: &Directories, last: &mut Option<Name>, number: u16)
    requires { number < 130 }
{
    let name = name_of(number);
    assert!(rt; files.is_directory(1));
    *last = files.next_after(1, last.as_ref().map(|last| last.as_slice()));
    assert!(rt;
        last.as_ref()
            .is_some_and(|last| last.as_slice() == name.as_slice())
    );
}

// Checks that all of the many names except the one with number `gone` are found, and listed in order.
fn expect_all_but(rt: &impl Abort, files: &Directories, gone: u16) {
    let mut last = None;
    for number in 0..MANY {
        if number == gone {
            expect_find(rt, files, &name_of(number), None);
        } else {
            expect_find(rt, files, &name_of(number), Some(number));
            expect_next(rt, files, &mut last, number);
        }
    }
    expect_end(rt, files, &last);
}

fn sort_and_expect_all_but(rt: &impl Abort, files: &mut Directories, gone: u16) {
    files.sort_slots();
    expect_all_but(rt, files, gone);
}

// Checks that slots are sorted, also after a removal and an addition.
fn expect_put_in_order(rt: &impl Abort, files: &mut Directories, step: u16)
    requires { step < 130 }
{
    add_scattered(rt, files, step);
    sort_and_expect_all_but(rt, files, MANY);
    remove(rt, files, &name_of(100));
    sort_and_expect_all_but(rt, files, 100);
    expect_add(rt, files, &name_of(100), 100, Ok(()));
    expect_all_but(rt, files, MANY);
}

// Checks it in both versions.
fn expect_put_in_order_in_both<R: Abort + AllocGlobal>(rt: &R, step: u16) -> Result<(), AllocError>
    requires { step < 130 }
{
    let mut files = with_data_blocks(rt, rt.alloc(), 30)?;
    expect_put_in_order(rt, &mut files, step);
    let mut files = of_version_2(rt, rt.alloc(), 120)?;
    expect_put_in_order(rt, &mut files, step);
    Ok(())
}

#[test]
fn slots_are_put_in_order(rt: HostRuntime) -> Result<(), AllocError> {
    // Names in mixed order, and names that descend.
    expect_put_in_order_in_both(&rt, 83)?;
    expect_put_in_order_in_both(&rt, 129)?;
    Ok(())
}

// Unordered names. Most start with the same eight bytes, and one consists of exactly these.
const ALIKE: &[Step] = &[
    Add(b"same-front-c", 2, Ok(())),
    Add(b"same-fro", 3, Ok(())),
    Add(b"same-front-a", 4, Ok(())),
    Add(b"same-fr", 5, Ok(())),
    Add(b"same-front-d", 6, Ok(())),
    Add(b"same-front", 7, Ok(())),
    Add(b"another", 8, Ok(())),
    Add(b"same-front-b", 9, Ok(())),
];

const ALIKE_IN_ORDER: &[Step] = &[
    Lists(&[
        b"another",
        b"same-fr",
        b"same-fro",
        b"same-front",
        b"same-front-a",
        b"same-front-b",
        b"same-front-c",
        b"same-front-d",
    ]),
    Find(b"same-fro", Some(3)),
    Find(b"same-front-a", Some(4)),
    Find(b"same-front-b", Some(9)),
    Find(b"same-front-c", Some(2)),
    Find(b"same-front-e", None),
    Remove(b"same-front-b"),
];

// Checks that they are sorted, also after a removal and an addition.
fn expect_alike_in_order(rt: &impl Abort, files: &mut Directories) {
    expect_steps(rt, files, ALIKE);
    files.sort_slots();
    expect_steps(rt, files, ALIKE_IN_ORDER);
    expect_add(rt, files, b"same-front-b", 9, Ok(()));
    files.sort_slots();
    expect_steps(rt, files, ALIKE_IN_ORDER);
}

#[test]
fn names_alike_at_their_front_are_put_in_order(rt: HostRuntime) -> Result<(), AllocError> {
    let mut files = with_data_blocks(&rt, rt.alloc(), 2)?;
    expect_alike_in_order(&rt, &mut files);
    let mut files = of_version_2(&rt, rt.alloc(), 6)?;
    expect_alike_in_order(&rt, &mut files);
    Ok(())
}

// Returns `N` equal bytes.
fn equal_bytes<const N: usize>() -> [u8; N] {
    [b'a'; N]
}

fn expect_no_name(rt: &impl Abort, files: &Directories, bytes: &[u8]) {
    assert!(rt; !is_name(files.version(), bytes));
}

// Checks that version 1 allows names of 60 bytes and no longer ones.
fn expect_names_of_60<R: Abort + AllocGlobal>(rt: &R) -> Result<(), AllocError> {
    let mut files = with_data_blocks(rt, rt.alloc(), 2)?;
    expect_add(rt, &mut files, &equal_bytes::<60>(), 2, Ok(()));
    expect_find(rt, &files, &equal_bytes::<60>(), Some(2));
    expect_no_name(rt, &files, &equal_bytes::<61>());
    Ok(())
}

fn expect_three_names(rt: &impl Abort, files: &Directories) {
    assert_lists(
        rt,
        files,
        &[
            &equal_bytes::<60>(),
            &equal_bytes::<61>(),
            &equal_bytes::<255>(),
        ],
    );
}

#[test]
fn each_version_has_its_greatest_name(rt: HostRuntime) -> Result<(), AllocError> {
    expect_names_of_60(&rt)?;
    let mut files = of_version_2(&rt, rt.alloc(), 2)?;
    expect_add(&rt, &mut files, &equal_bytes::<60>(), 2, Ok(()));
    expect_add(&rt, &mut files, &equal_bytes::<61>(), 3, Ok(()));
    expect_add(&rt, &mut files, &equal_bytes::<255>(), 4, Ok(()));
    expect_three_names(&rt, &files);
    expect_no_name(&rt, &files, &equal_bytes::<256>());
    Ok(())
}
