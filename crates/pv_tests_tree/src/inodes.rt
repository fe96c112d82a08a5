//! Tests of contents at their boundaries, in both versions.
ghost use Rattle.std.specs.Prelude.{◌≤◌};

use crate::store_answers::{expect_equal, expect_same, expect_same_at};
use pv_inodes::{Inodes, Space};
use pv_model::{Kind, Version};
use std::alloc::{AllocError, AllocGlobal, Global};
use std::process::Abort;

// Creates an image of version 1 with one inode block and `count` data blocks.
fn with_data_blocks(alloc: Global, count: u16) -> Result<Inodes, AllocError>
    requires some { 1 ≤ count }
    requires few { count ≤ 8000 }
{
    let zeros = vec![in alloc; 0; 512 * (count as usize + 2)]?;
    Ok(Inodes::empty(zeros, count + 2, 16, Version::V1))
}

// Does the same for version 2.
fn second_with_data_blocks(alloc: Global, count: u16) -> Result<Inodes, AllocError>
    requires some { 1 ≤ count }
    requires few { count ≤ 65000 }
{
    let zeros = vec![in alloc; 0; 512 * (count as usize + 2)]?;
    Ok(Inodes::empty(zeros, count + 2, 8, Version::V2))
}

// Creates an image of version 2 with this number of blocks and the maximum number of inodes. The first block and the
// inode table occupy 513 blocks.
fn second_of_blocks(alloc: Global, blocks: u16) -> Result<Inodes, AllocError>
    requires { 513 ≤ blocks }
{
    let zeros = vec![in alloc; 0; 512 * blocks as usize]?;
    Ok(Inodes::empty(zeros, blocks, 4_096, Version::V2))
}

// Creates a file.
fn fresh(rt: &impl Abort, files: &mut Inodes) -> u16 {
    files.fresh(Kind::File).expect(rt, "an inode is free")
}

// Checks the result of a write.
fn expect_bytes(
    rt: &impl Abort,
    files: &mut Inodes,
    file: u16,
    at: u32,
    bytes: &[u8],
    answer: Result<(), Space>,
) {
    assert!(rt; files.is_used(file));
    expect_same_at(rt, files.write_at(file, at, bytes), answer, at);
}

// Checks the result of a write of one byte.
fn expect_write(
    rt: &impl Abort,
    files: &mut Inodes,
    file: u16,
    at: u32,
    byte: u8,
    answer: Result<(), Space>,
) {
    expect_bytes(rt, files, file, at, &[byte], answer);
}

// Checks the result of a write of equal bytes at the start.
fn expect_equal_bytes<R: Abort + AllocGlobal>(
    rt: &R,
    files: &mut Inodes,
    file: u16,
    count: usize,
    byte: u8,
    answer: Result<(), Space>,
) -> Result<(), AllocError> {
    let bytes = vec![in rt.alloc(); byte; count]?;
    expect_bytes(rt, files, file, 0, &bytes, answer);
    Ok(())
}

// Checks the result of a truncation.
fn expect_cut(
    rt: &impl Abort,
    files: &mut Inodes,
    file: u16,
    size: u32,
    answer: Result<(), Space>,
) {
    assert!(rt; files.is_used(file));
    expect_same_at(rt, files.cut(file, size), answer, size);
}

fn expect_size(rt: &impl Abort, files: &Inodes, file: u16, size: u32) {
    assert!(rt; files.is_used(file));
    expect_same(rt, files.size(file), size);
}

fn expect_free(rt: &impl Abort, files: &Inodes, blocks: u16) {
    expect_same(rt, files.free(), blocks);
}

// Checks the number of bytes that a read at an offset copies.
fn expect_read(
    rt: &impl Abort,
    files: &Inodes,
    file: u16,
    at: u32,
    buffer: &mut [u8],
    count: usize,
) {
    assert!(rt; files.is_used(file));
    expect_same_at(rt, files.read_at(file, at, buffer), count, at);
}

fn expect_byte(rt: &impl Abort, files: &Inodes, file: u16, at: u32, byte: u8) {
    let mut buffer = [255];
    expect_read(rt, files, file, at, &mut buffer, 1);
    expect_same_at(rt, buffer[0], byte, at);
}

// Checks that a file has `count` bytes of one value at an offset.
fn expect_run<R: Abort + AllocGlobal>(
    rt: &R,
    files: &Inodes,
    file: u16,
    at: u32,
    count: usize,
    value: u8,
) -> Result<(), AllocError> {
    let mut buffer = vec![in rt.alloc(); 255; count]?;
    expect_read(rt, files, file, at, &mut buffer, count);
    assert!(rt; buffer.iter().all(|&byte| byte == value));
    Ok(())
}

// Truncates a file to each length, and checks its number of blocks; `all` is the number of data blocks.
fn expect_needs(rt: &impl Abort, files: &mut Inodes, file: u16, all: u16, needs: &[(u32, u16)]) {
    for &(length, blocks) in needs {
        expect_cut(rt, files, file, length, Ok(()));
        expect_size(rt, files, file, length);
        let used = all.checked_sub(files.free());
        expect_same_at(rt, used, Some(blocks), length);
    }
}

// Writes single bytes, and checks that they are where they were written.
fn expect_places(rt: &impl Abort, files: &mut Inodes, file: u16, places: &[(u32, u8)]) {
    for &(at, value) in places {
        expect_write(rt, files, file, at, value, Ok(()));
    }
    for &(at, value) in places {
        expect_byte(rt, files, file, at, value);
    }
}

fn drop_inode(rt: &impl Abort, files: &mut Inodes, file: u16) {
    assert!(rt; files.is_used(file));
    files.drop_inode(file);
}

// An operation on a file, with the expected result.
#[derive(Clone, Copy)]
enum Step {
    // Writes a byte at an offset.
    Write(u32, u8, Result<(), Space>),
    // Writes equal bytes at the start.
    Fill(usize, u8, Result<(), Space>),
    // Truncates the file to a length.
    Cut(u32, Result<(), Space>),
    // Checks the length of the file.
    Size(u32),
    // Checks the number of free blocks.
    Free(u16),
    // Checks a byte at an offset.
    Byte(u32, u8),
    // Checks a number of bytes of one value at an offset.
    Run(u32, usize, u8),
}

use Step::{Byte, Cut, Fill, Free, Run, Size, Write};

fn expect_step<R: Abort + AllocGlobal>(
    rt: &R,
    files: &mut Inodes,
    file: u16,
    step: Step,
) -> Result<(), AllocError> {
    match step {
        Write(at, byte, answer) => expect_write(rt, files, file, at, byte, answer),
        Fill(count, byte, answer) => {
            return expect_equal_bytes(rt, files, file, count, byte, answer);
        }
        Cut(size, answer) => expect_cut(rt, files, file, size, answer),
        Size(size) => expect_size(rt, files, file, size),
        Free(blocks) => expect_free(rt, files, blocks),
        Byte(at, byte) => expect_byte(rt, files, file, at, byte),
        Run(at, count, value) => return expect_run(rt, files, file, at, count, value),
    }
    Ok(())
}

// Runs steps in order.
fn expect_steps<R: Abort + AllocGlobal>(
    rt: &R,
    files: &mut Inodes,
    file: u16,
    steps: &[Step],
) -> Result<(), AllocError> {
    for &step in steps {
        expect_step(rt, files, file, step)?;
    }
    Ok(())
}

// Runs steps on the first file of an image of version 1 with this number of data blocks.
fn expect_first<R: Abort + AllocGlobal>(
    rt: &R,
    count: u16,
    steps: &[Step],
) -> Result<(), AllocError>
    requires some { 1 ≤ count }
    requires few { count ≤ 8000 }
{
    let mut files = with_data_blocks(rt.alloc(), count)?;
    let file = fresh(rt, &mut files);
    expect_steps(rt, &mut files, file, steps)
}

const IN_ELEVEN: &[Step] = &[
    Write(5_119, 7, Ok(())),
    Free(1),
    Write(5_120, 7, Err(Space::Full)),
    Size(5_120),
    Free(1),
    Write(136_192, 7, Err(Space::TooBig)),
];

const IN_TWELVE: &[Step] = &[
    Write(5_119, 7, Ok(())),
    Write(5_120, 7, Ok(())),
    Free(0),
    Byte(5_119, 7),
    Byte(5_120, 7),
    Cut(5_120, Ok(())),
    Free(2),
];

#[test]
fn the_eleventh_block_wants_two(rt: HostRuntime) -> Result<(), AllocError> {
    expect_first(&rt, 11, IN_ELEVEN)?;
    expect_first(&rt, 12, IN_TWELVE)
}

const GREATEST_LENGTH: &[Step] = &[
    Write(136_191, 7, Ok(())),
    Free(33),
    Byte(136_191, 7),
    Byte(136_190, 0),
    Write(136_192, 7, Err(Space::TooBig)),
    Cut(136_193, Err(Space::TooBig)),
    Cut(136_192, Ok(())),
    Size(136_192),
];

#[test]
fn the_greatest_length_is_reached(rt: HostRuntime) -> Result<(), AllocError> {
    expect_first(&rt, 300, GREATEST_LENGTH)
}

const FILLED_AND_CUT: &[Step] = &[
    Fill(1_000, 9, Ok(())),
    Free(0),
    Cut(100, Ok(())),
    Write(600, 8, Ok(())),
    Byte(99, 9),
    Byte(100, 0),
    Byte(599, 0),
];

fn expect_kind(rt: &impl Abort, files: &Inodes, inode: u16, kind: Kind) {
    assert!(rt; files.is_used(inode));
    expect_same(rt, files.kind(inode), kind);
}

// Checks that the blocks of a removed inode are free, and that a symbolic link gets its number.
fn expect_again(rt: &impl Abort, files: &mut Inodes, inode: u16, free: u16) {
    drop_inode(rt, files, inode);
    expect_free(rt, files, free);
    expect_same(rt, files.fresh(Kind::Symlink), Some(inode));
    expect_kind(rt, files, inode, Kind::Symlink);
    expect_size(rt, files, inode, 0);
}

#[test]
fn blocks_that_come_again_are_zeros(rt: HostRuntime) -> Result<(), AllocError> {
    let mut files = with_data_blocks(rt.alloc(), 2)?;
    let first = fresh(&rt, &mut files);
    expect_steps(&rt, &mut files, first, FILLED_AND_CUT)?;
    expect_again(&rt, &mut files, first, 2);
    Ok(())
}

const NEEDS: &[(u32, u16)] = &[
    (1, 1),
    (512, 1),
    (513, 2),
    (5_120, 10),
    (5_121, 12),
    (5_632, 12),
    (5_633, 13),
    (136_192, 267),
    (5_633, 13),
    (5_632, 12),
    (5_121, 12),
    (5_120, 10),
    (4_609, 10),
    (4_608, 9),
    (0, 0),
];

#[test]
fn blocks_are_taken_as_the_length_needs(rt: HostRuntime) -> Result<(), AllocError> {
    let mut files = with_data_blocks(rt.alloc(), 267)?;
    let file = fresh(&rt, &mut files);
    expect_needs(&rt, &mut files, file, 267, NEEDS);
    Ok(())
}

const FILLED_AT_ONCE: &[Step] = &[
    Fill(136_193, 7, Err(Space::TooBig)),
    Size(0),
    Free(300),
    Fill(136_192, 7, Ok(())),
    Size(136_192),
    Free(33),
];

#[test]
fn one_write_fills_a_file(rt: HostRuntime) -> Result<(), AllocError> {
    let mut files = with_data_blocks(rt.alloc(), 300)?;
    let file = fresh(&rt, &mut files);
    expect_steps(&rt, &mut files, file, FILLED_AT_ONCE)?;
    expect_bytes(&rt, &mut files, file, 136_191, &[8, 8], Err(Space::TooBig));
    expect_run(&rt, &files, file, 0, 136_192, 7)
}

// Steps on the files 1 and 2.
const TURNS: &[(u16, Step)] = &[
    (1, Fill(5_632, 9, Ok(()))),
    (1, Free(0)),
    (2, Write(0, 8, Err(Space::Full))),
    (1, Cut(513, Ok(()))),
    (1, Free(10)),
    (2, Write(5_119, 8, Ok(()))),
    (2, Free(0)),
    (2, Run(0, 5_119, 0)),
    (2, Run(5_119, 1, 8)),
    (1, Run(0, 513, 9)),
    (1, Size(513)),
];

fn expect_turns<R: Abort + AllocGlobal>(
    rt: &R,
    files: &mut Inodes,
    turns: &[(u16, Step)],
) -> Result<(), AllocError> {
    for &(file, step) in turns {
        expect_step(rt, files, file, step)?;
    }
    Ok(())
}

#[test]
fn blocks_go_from_file_to_file(rt: HostRuntime) -> Result<(), AllocError> {
    let mut files = with_data_blocks(rt.alloc(), 12)?;
    expect_same(&rt, fresh(&rt, &mut files), 1);
    expect_same(&rt, fresh(&rt, &mut files), 2);
    expect_turns(&rt, &mut files, TURNS)
}

const PLACES_OF_NO_BYTES: &[u32] = &[0, 3, 4, 512, 136_192, 136_193, u32::MAX];

// Checks that a write of zero bytes anywhere does not change the length.
fn expect_no_change(rt: &impl Abort, files: &mut Inodes, file: u16, size: u32, places: &[u32]) {
    for &at in places {
        expect_bytes(rt, files, file, at, &[], Ok(()));
        expect_size(rt, files, file, size);
    }
}

#[test]
fn no_bytes_change_nothing(rt: HostRuntime) -> Result<(), AllocError> {
    let mut files = with_data_blocks(rt.alloc(), 1)?;
    let file = fresh(&rt, &mut files);
    expect_bytes(&rt, &mut files, file, 0, &[1, 2, 3], Ok(()));
    expect_free(&rt, &files, 0);
    expect_no_change(&rt, &mut files, file, 3, PLACES_OF_NO_BYTES);
    let mut bytes = [0; 3];
    expect_read(&rt, &files, file, 0, &mut bytes, 3);
    expect_equal(&rt, &bytes, &[1, 2, 3]);
    Ok(())
}

const CUT_LONGER: &[Step] = &[
    Fill(1_500, 9, Ok(())),
    Cut(3, Ok(())),
    Cut(1_537, Err(Space::Full)),
    Size(3),
    Free(2),
    Cut(1_536, Ok(())),
    Free(0),
    Run(0, 3, 9),
    Run(3, 1_533, 0),
];

#[test]
fn a_longer_cut_fills_with_zeros(rt: HostRuntime) -> Result<(), AllocError> {
    expect_first(&rt, 3, CUT_LONGER)
}

// Checks that a read at these offsets copies nothing.
fn expect_no_read(rt: &impl Abort, files: &Inodes, file: u16, places: &[u32]) {
    let mut bytes = [255; 4];
    for &at in places {
        expect_read(rt, files, file, at, &mut bytes, 0);
    }
    expect_equal(rt, &bytes, &[255; 4]);
}

const PLACES_PAST_THE_END: &[u32] = &[513, 514, 1_024, 136_192, u32::MAX];

#[test]
fn nothing_is_read_past_the_end(rt: HostRuntime) -> Result<(), AllocError> {
    let mut files = with_data_blocks(rt.alloc(), 2)?;
    let file = fresh(&rt, &mut files);
    expect_no_read(&rt, &files, file, &[0]);
    expect_bytes(&rt, &mut files, file, 510, &[1, 2, 3], Ok(()));
    expect_no_read(&rt, &files, file, PLACES_PAST_THE_END);
    let mut bytes = [255; 4];
    expect_read(&rt, &files, file, 511, &mut bytes, 2);
    expect_equal(&rt, &bytes, &[2, 3, 255, 255]);
    expect_read(&rt, &files, file, 0, &mut [], 0);
    Ok(())
}

// Overwrites four bytes of a file of 1,200 bytes.
fn overwrite(rt: &impl Abort, files: &mut Inodes, file: u16) {
    assert!(rt; files.is_used(file) && files.size(file) == 1_200);
    files.overwrite(file, 510, &[8, 9, 10, 11]);
}

// Shrinks a file of 1,200 bytes.
fn shrink(rt: &impl Abort, files: &mut Inodes, file: u16) {
    assert!(rt; files.is_used(file) && files.size(file) == 1_200);
    files.shrink(file, 512);
}

const OVERWRITTEN: &[Step] = &[Byte(509, 7), Byte(510, 8), Byte(513, 11), Byte(514, 7)];

#[test]
fn a_part_is_overwritten_and_cut(rt: HostRuntime) -> Result<(), AllocError> {
    let mut files = with_data_blocks(rt.alloc(), 3)?;
    expect_same(&rt, files.inodes(), 16);
    let file = fresh(&rt, &mut files);
    expect_equal_bytes(&rt, &mut files, file, 1_200, 7, Ok(()))?;
    overwrite(&rt, &mut files, file);
    expect_steps(&rt, &mut files, file, OVERWRITTEN)?;
    shrink(&rt, &mut files, file);
    expect_size(&rt, &files, file, 512);
    expect_free(&rt, &files, 2);
    Ok(())
}

// Contents of 10, 11, 266, 267, 522, 523 and 1,290 blocks, and back.
const SECOND_NEEDS: &[(u32, u16)] = &[
    (5_120, 10),
    (5_121, 12),
    (5_632, 12),
    (136_192, 267),
    (136_193, 269),
    (136_704, 269),
    (136_705, 270),
    (267_264, 524),
    (267_265, 526),
    (660_479, 1_295),
    (660_480, 1_295),
    (529_409, 1_040),
    (529_408, 1_038),
    (398_337, 783),
    (398_336, 781),
    (267_265, 526),
    (267_264, 524),
    (136_193, 269),
    (136_192, 267),
    (5_121, 12),
    (5_120, 10),
    (0, 0),
];

#[test]
fn second_blocks_are_taken_and_given_back_one_by_one(rt: HostRuntime) -> Result<(), AllocError> {
    let mut files = second_with_data_blocks(rt.alloc(), 1_295)?;
    expect_same(&rt, files.version(), Version::V2);
    let file = fresh(&rt, &mut files);
    expect_needs(&rt, &mut files, file, 1_295, SECOND_NEEDS);
    Ok(())
}

const SECOND_GREATEST_LENGTH: &[Step] = &[
    Fill(660_481, 7, Err(Space::TooBig)),
    Cut(660_481, Err(Space::TooBig)),
    Size(0),
    Free(1_300),
    Fill(660_480, 7, Ok(())),
    Size(660_480),
    Free(5),
    Write(660_480, 8, Err(Space::TooBig)),
    Run(0, 660_480, 7),
];

// The last byte and the first byte of the blocks on both sides of each index block.
const EDGES: &[(u32, u8)] = &[
    (5_119, 1),
    (5_120, 2),
    (136_191, 3),
    (136_192, 4),
    (267_263, 5),
    (267_264, 6),
    (398_335, 7),
    (398_336, 8),
    (529_407, 9),
    (529_408, 10),
    (660_479, 11),
];

#[test]
fn second_greatest_length_is_reached(rt: HostRuntime) -> Result<(), AllocError> {
    let mut files = second_with_data_blocks(rt.alloc(), 1_300)?;
    let file = fresh(&rt, &mut files);
    expect_steps(&rt, &mut files, file, SECOND_GREATEST_LENGTH)?;
    expect_places(&rt, &mut files, file, EDGES);
    expect_run(&rt, &files, file, 136_193, 131_070, 7)
}

const WITHOUT_ROOM: &[Step] = &[
    Write(136_191, 7, Ok(())),
    Free(1),
    Write(136_192, 7, Err(Space::Full)),
    Cut(136_193, Err(Space::Full)),
    Size(136_192),
    Free(1),
    Byte(136_191, 7),
];

#[test]
fn second_room_is_tested_before_an_index_block(rt: HostRuntime) -> Result<(), AllocError> {
    let mut files = second_with_data_blocks(rt.alloc(), 268)?;
    let file = fresh(&rt, &mut files);
    expect_steps(&rt, &mut files, file, WITHOUT_ROOM)?;
    let other = fresh(&rt, &mut files);
    expect_write(&rt, &mut files, other, 0, 8, Ok(()));
    expect_free(&rt, &files, 0);
    Ok(())
}

// Creates 50 files of the maximum length.
fn make_great(rt: &impl Abort, files: &mut Inodes) {
    for _ in 0..50 {
        let file = fresh(rt, files);
        expect_cut(rt, files, file, 660_480, Ok(()));
    }
}

const LAST: &[Step] = &[
    Cut(138_241, Err(Space::Full)),
    Write(138_239, 9, Ok(())),
    Free(0),
    Byte(138_239, 9),
];

#[test]
fn the_greatest_image_is_filled(rt: HostRuntime) -> Result<(), AllocError> {
    let mut files = second_of_blocks(rt.alloc(), 65_535)?;
    expect_free(&rt, &files, 65_022);
    make_great(&rt, &mut files);
    expect_free(&rt, &files, 272);
    let last = fresh(&rt, &mut files);
    expect_same(&rt, last, 51);
    expect_steps(&rt, &mut files, last, LAST)?;
    expect_byte(&rt, &files, 50, 660_479, 0);
    drop_inode(&rt, &mut files, 50);
    expect_free(&rt, &files, 1_295);
    expect_byte(&rt, &files, last, 138_239, 9);
    Ok(())
}
