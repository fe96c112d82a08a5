//! Tests of open files with several users, and of descriptor numbers.
use crate::answers::{expect_name, expect_same};
use pv_files::{Descriptors, OpenFiles};
use pv_model::{Errno, Mode, Name};
use std::alloc::{AllocError, AllocGlobal};
use std::process::Abort;

// Checks the result of opening a file.
fn expect_add(
    rt: &impl Abort,
    files: &mut OpenFiles,
    node: u16,
    mode: Mode,
    append: bool,
    answer: Result<usize, Errno>,
) {
    expect_same(rt, files.add(node, mode, append), answer);
}

// Checks the result of removing a user of an open file.
fn expect_release(rt: &impl Abort, files: &mut OpenFiles, file: usize, answer: Option<u16>) {
    assert!(rt; files.is_open(file));
    expect_same(rt, files.release(file), answer);
}

// Adds a user to an open file that has `users` users.
fn expect_dup(rt: &impl Abort, files: &mut OpenFiles, file: usize, users: u16) {
    assert!(rt; files.users(file) == users);
    assert!(rt; users < 9);
    assert!(rt; files.is_open(file));
    files.dup(file);
}

// Checks the node, the mode, the append flag and the offset of an open file.
fn expect_opened(
    rt: &impl Abort,
    files: &OpenFiles,
    file: usize,
    (node, mode, append, offset): (u16, Mode, bool, u32),
) {
    assert!(rt; files.is_open(file));
    expect_same(rt, files.node(file), node);
    expect_same(rt, files.mode(file), mode);
    expect_same(rt, files.appends(file), append);
    expect_same(rt, files.offset(file), offset);
}

fn set_offset(rt: &impl Abort, files: &mut OpenFiles, file: usize, offset: u32) {
    assert!(rt; files.is_open(file));
    files.set_offset(file, offset);
}

fn set_last_name(rt: &impl Abort, files: &mut OpenFiles, file: usize, text: &[u8]) {
    assert!(rt; files.is_open(file));
    let name = Name::new(text).expect(rt, "a short name");
    files.set_last_name(file, name);
}

fn expect_last_name(rt: &impl Abort, files: &OpenFiles, file: usize, text: Option<&[u8]>) {
    assert!(rt; files.is_open(file));
    expect_name(rt, files.last_name(file), text);
}

// An operation on open files, with the expected result.
#[derive(Clone, Copy)]
enum Step<'a> {
    // Checks whether there is room for one more.
    Room(bool),
    // Opens a file: its node, its mode, and whether it appends.
    Add(u16, Mode, bool, Result<usize, Errno>),
    // Checks whether a file is open.
    Open(usize, bool),
    // Checks the number of users.
    Users(usize, u16),
    // Adds a user to a file with this number of users.
    Dup(usize, u16),
    // Removes a user of a file. Removing the last one returns the node.
    Release(usize, Option<u16>),
    // Changes or checks a part of a file.
    Of(usize, Part<'a>),
}

// A change or a check of an open file.
#[derive(Clone, Copy)]
enum Part<'a> {
    // Checks its node, its mode, whether it appends, and its offset.
    Opened(u16, Mode, bool, u32),
    // Sets its offset.
    SetOffset(u32),
    // Sets the last name listed.
    SetLastName(&'a [u8]),
    // Checks the last name listed, or that there is none.
    LastName(Option<&'a [u8]>),
}

use Part::{LastName, Opened, SetLastName, SetOffset};
use Step::{Add, Dup, Of, Open, Release, Room, Users};

fn expect_part(rt: &impl Abort, files: &mut OpenFiles, file: usize, part: Part) {
    match part {
        Opened(node, mode, append, offset) => {
            expect_opened(rt, files, file, (node, mode, append, offset));
        }
        SetOffset(offset) => set_offset(rt, files, file, offset),
        SetLastName(text) => set_last_name(rt, files, file, text),
        LastName(text) => expect_last_name(rt, files, file, text),
    }
}

fn expect_step(rt: &impl Abort, files: &mut OpenFiles, step: Step) {
    match step {
        Room(room) => expect_same(rt, files.has_room(), room),
        Add(node, mode, append, answer) => expect_add(rt, files, node, mode, append, answer),
        Open(file, open) => expect_same(rt, files.is_open(file), open),
        Users(file, users) => expect_same(rt, files.users(file), users),
        Dup(file, users) => expect_dup(rt, files, file, users),
        Release(file, answer) => expect_release(rt, files, file, answer),
        Of(file, part) => expect_part(rt, files, file, part),
    }
}

// Runs steps in order.
fn expect_steps(rt: &impl Abort, files: &mut OpenFiles, steps: &[Step]) {
    for &step in steps {
        expect_step(rt, files, step);
    }
}

// Runs steps from a state without open files.
fn expect_run<R: Abort + AllocGlobal>(rt: &R, steps: &[Step]) -> Result<(), AllocError> {
    let mut files = OpenFiles::new(rt.alloc())?;
    expect_steps(rt, &mut files, steps);
    files.invariant();
    Ok(())
}

// Opens the maximum number of files.
fn open_128(rt: &impl Abort, files: &mut OpenFiles) {
    for number in 0..128 {
        assert!(rt; files.has_room());
        expect_add(rt, files, 7, Mode::Read, false, Ok(number));
    }
}

const NO_ROOM: &[Step] = &[
    Room(false),
    Add(7, Mode::Read, false, Err(Errno::ENFILE)),
    Open(127, true),
    Open(128, false),
    Release(90, Some(7)),
    Open(90, false),
    Release(5, Some(7)),
    Open(5, false),
    Add(8, Mode::Read, false, Ok(5)),
    Add(9, Mode::Read, false, Ok(90)),
    Add(9, Mode::Read, false, Err(Errno::ENFILE)),
];

#[test]
fn gives_the_least_free_number(rt: HostRuntime) -> Result<(), AllocError> {
    let mut files = OpenFiles::new(rt.alloc())?;
    open_128(&rt, &mut files);
    expect_steps(&rt, &mut files, NO_ROOM);
    Ok(())
}

const FOUR_USERS: &[Step] = &[
    Users(0, 0),
    Add(4, Mode::ReadWrite, true, Ok(0)),
    Dup(0, 1),
    Dup(0, 2),
    Dup(0, 3),
    Release(0, None),
    Release(0, None),
    Release(0, None),
    Release(0, Some(4)),
    Users(0, 0),
];

#[test]
fn goes_with_the_last_user(rt: HostRuntime) -> Result<(), AllocError> {
    expect_run(&rt, FOUR_USERS)
}

const SHARED: &[Step] = &[
    Add(4, Mode::Write, false, Ok(0)),
    Add(5, Mode::Read, true, Ok(1)),
    Of(1, Opened(5, Mode::Read, true, 0)),
    Of(1, LastName(None)),
    Of(1, SetOffset(2_147_483_647)),
    Of(1, SetLastName(b"a")),
    Of(1, Opened(5, Mode::Read, true, 2_147_483_647)),
    Of(1, LastName(Some(b"a"))),
    Of(0, Opened(4, Mode::Write, false, 0)),
    Of(0, LastName(None)),
];

#[test]
fn keeps_what_its_users_share(rt: HostRuntime) -> Result<(), AllocError> {
    expect_run(&rt, SHARED)
}

// An operation on descriptors, with the expected result.
#[derive(Clone, Copy)]
enum Asked {
    // Checks whether there is room for one more.
    Left(bool),
    // Creates a descriptor of an open file; the flag is whether execve closes it.
    Give(usize, bool, Result<u8, Errno>),
    // Makes a number a descriptor of an open file.
    Set(u8, usize),
    // Checks the open file of a number.
    At(i32, Result<usize, Errno>),
    // Closes a number, and checks its open file.
    Close(i32, Result<usize, Errno>),
    // Checks whether execve closes a number.
    Marked(u8, bool),
    // Closes the descriptors that execve closes.
    AfterExec,
}

use Asked::{AfterExec, At, Close, Give, Left, Marked, Set};

fn set(rt: &impl Abort, descriptors: &mut Descriptors, d: u8, file: usize) {
    assert!(rt; d < 16);
    descriptors.set(d, file);
}

fn expect_asked(rt: &impl Abort, descriptors: &mut Descriptors, asked: Asked) {
    match asked {
        Left(room) => expect_same(rt, descriptors.has_room(), room),
        Give(file, close_on_exec, answer) => {
            expect_same(rt, descriptors.give(file, close_on_exec), answer);
        }
        Set(d, file) => set(rt, descriptors, d, file),
        At(d, answer) => expect_same(rt, descriptors.at(d), answer),
        Close(d, answer) => expect_same(rt, descriptors.close(d), answer),
        Marked(d, marked) => expect_same(rt, descriptors.marked(d), marked),
        AfterExec => descriptors.after_exec(),
    }
}

fn expect_all_asked(rt: &impl Abort, descriptors: &mut Descriptors, all: &[Asked]) {
    for &asked in all {
        expect_asked(rt, descriptors, asked);
    }
}

// Creates the maximum number of descriptors of an open file.
fn give_16(rt: &impl Abort, descriptors: &mut Descriptors) {
    for number in 0..16u8 {
        assert!(rt; descriptors.has_room());
        expect_asked(rt, descriptors, Give(100, number == 3, Ok(number)));
    }
}

const SIXTEEN: &[Asked] = &[
    Left(false),
    Give(100, false, Err(Errno::EMFILE)),
    Close(9, Ok(100)),
    Close(9, Err(Errno::EBADF)),
    At(-1, Err(Errno::EBADF)),
    Close(-1, Err(Errno::EBADF)),
    At(16, Err(Errno::EBADF)),
    Close(16, Err(Errno::EBADF)),
    At(i32::MIN, Err(Errno::EBADF)),
    Close(i32::MIN, Err(Errno::EBADF)),
    At(i32::MAX, Err(Errno::EBADF)),
    Close(i32::MAX, Err(Errno::EBADF)),
    Give(101, false, Ok(9)),
    At(9, Ok(101)),
    At(15, Ok(100)),
];

#[test]
fn numbers_descriptors(rt: HostRuntime) {
    let mut descriptors = Descriptors::new();
    give_16(&rt, &mut descriptors);
    expect_all_asked(&rt, &mut descriptors, SIXTEEN);
}

const TWO: &[Asked] = &[
    Give(6, true, Ok(0)),
    Give(7, false, Ok(1)),
    Marked(0, true),
    Marked(1, false),
    Marked(2, false),
    Marked(16, false),
];

// The steps on a copy of the two descriptors.
const COPIED: &[Asked] = &[
    Set(0, 7),
    Set(15, 8),
    Marked(0, false),
    Marked(15, false),
    At(0, Ok(7)),
    At(1, Ok(7)),
    At(15, Ok(8)),
    At(2, Err(Errno::EBADF)),
];

// The two descriptors afterwards. execve closes one.
const STILL_TWO: &[Asked] = &[
    Marked(0, true),
    At(0, Ok(6)),
    At(15, Err(Errno::EBADF)),
    AfterExec,
    At(0, Err(Errno::EBADF)),
    At(1, Ok(7)),
];

#[test]
fn marks_what_execve_closes(rt: HostRuntime) {
    let mut descriptors = Descriptors::new();
    expect_all_asked(&rt, &mut descriptors, TWO);
    let mut copy = descriptors;
    expect_all_asked(&rt, &mut copy, COPIED);
    expect_all_asked(&rt, &mut descriptors, STILL_TWO);
    descriptors.invariant();
}
