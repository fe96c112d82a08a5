//! Tests of parsing programs: errors, and the limit on the number of lines. The effect of a program's lines is tested
//! by cases that run the program.
use crate::answers::expect_same;
use pv_model::{ParseFault, What};
use pv_script::{Program, Schedule};
use std::process::Abort;

// Returns bytes repeated `count` times.
fn repeated<R: Abort + AllocGlobal>(rt: &R, bytes: &[u8], count: u32) -> Vec<u8> {
    let mut all = Vec::new(rt.alloc());
    for _ in 0..count {
        assert!(rt; all.extend_from_slice(bytes).is_ok());
    }
    all
}

// Parses a program.
fn read<R: Abort + AllocGlobal>(rt: &R, bytes: &[u8]) -> Program {
    Program::parse(rt.alloc(), bytes).expect(rt, "a program")
}

// Checks that bytes are a program with this number of lines.
fn expect_length<R: Abort + AllocGlobal>(rt: &R, bytes: &[u8], length: usize) {
    expect_same(rt, read(rt, bytes).len(), length);
}

// Checks that bytes are not a program, because of this error in this line.
fn expect_fault<R: Abort + AllocGlobal>(rt: &R, bytes: &[u8], line: u16, what: What) {
    let fault = Program::parse(rt.alloc(), bytes).err();
    expect_same(rt, fault, Some(ParseFault::Line(line, what)));
}

const NO_INSTRUCTIONS: &[(&[u8], u16, What)] = &[
    (b"exit 0\njmp 3\n", 2, What::Target),
    (b"exit 0\njmp 0\n", 2, What::Target),
    (b"jz r0 -1\n", 1, What::Target),
    (b"jmp r0\n", 1, What::Argument),
    (b"exit  0\n", 1, What::Argument),
    (b"exit 0 \n", 1, What::Argument),
    (b"exit\n", 1, What::Argument),
    (b"fork \n", 1, What::Argument),
    (b"\n", 1, What::Word),
    (b"exit 0\n\n", 2, What::Word),
    (b" exit 0", 1, What::Word),
    (b"Exit 0", 1, What::Word),
    (b"exits 0", 1, What::Word),
    (b"set r0 2147483648", 1, What::Argument),
    (b"set r0 -2147483649", 1, What::Argument),
    (b"set r0 -0", 1, What::Argument),
    (b"set r0 01", 1, What::Argument),
    (b"set r8 1", 1, What::Argument),
    (b"set r0 r1", 1, What::Argument),
    (b"peek r0 4096", 1, What::Argument),
    (b"peek r0 -1", 1, What::Argument),
    (b"put \"\\x00\"", 1, What::Argument),
    (b"put \"\\x4A\"", 1, What::Argument),
    (b"put null", 1, What::Argument),
    (b"open \"/a\" r+trunc+append", 1, What::Argument),
    (b"open \"/a\" wr", 1, What::Argument),
    (b"lseek 0 0 here", 1, What::Argument),
    (b"openat \"/a\" r", 1, What::Argument),
    (b"openat cwd \"/a\"", 1, What::Argument),
    (b"openat r8 \"/a\" r", 1, What::Argument),
];

#[test]
fn lines_that_are_no_instructions(rt: HostRuntime) {
    for &(bytes, line, what) in NO_INSTRUCTIONS {
        expect_fault(&rt, bytes, line, what);
    }
}

#[test]
fn more_lines_than_a_program_has(rt: HostRuntime) {
    expect_length(&rt, &repeated(&rt, b"wait\n", 256), 256);
    let many = repeated(&rt, b"wait\n", 257);
    expect_fault(&rt, &many, 257, What::TooMany);
}

// Returns the concatenation of two slices.
fn joined<R: Abort + AllocGlobal>(rt: &R, front: &[u8], following: &[u8]) -> Vec<u8> {
    let mut all = Vec::new(rt.alloc());
    assert!(rt; all.extend_from_slice(front).is_ok());
    assert!(rt; all.extend_from_slice(following).is_ok());
    all
}

// A jump must lead to one of the first 256 lines, even if there are more.
#[test]
fn jumps_past_the_last_line_that_a_program_has(rt: HostRuntime) {
    let front = joined(&rt, &repeated(&rt, b"wait\n", 8), b"jmp 257\n");
    let jump = joined(&rt, &front, &repeated(&rt, b"wait\n", 248));
    expect_fault(&rt, &jump, 9, What::Target);
}

#[test]
fn a_jump_to_the_last_line_that_a_program_has(rt: HostRuntime) {
    let last = joined(&rt, &repeated(&rt, b"wait\n", 255), b"jmp 256");
    expect_length(&rt, &last, 256);
}

const TURNS: &[(u32, u32)] = &[(1, 2), (3, 1)];

#[test]
fn lines_and_turns_as_lists(rt: HostRuntime) {
    expect_length(&rt, b"wait\nfork\n", 2);
    let schedule = Schedule::parse(rt.alloc(), b"1 2\n3\n").expect(&rt, "a schedule");
    assert_eq!(rt; schedule.turns(), TURNS);
}
