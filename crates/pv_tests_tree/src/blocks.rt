//! Tests of block allocation and of borrowed blocks.
use crate::store_answers::{expect_equal, expect_same};
use pv_blocks::{BlockSet, Blocks};
use std::alloc::AllocError;
use std::process::Abort;

fn expect_free(rt: &impl Abort, blocks: &Blocks, free: u16) {
    expect_same(rt, blocks.free(), free);
}

fn expect_take(rt: &impl Abort, blocks: &mut Blocks, answer: Option<u16>) {
    expect_same(rt, blocks.take(), answer);
}

// Allocates and frees the first of two free blocks.
fn expect_first(rt: &impl Abort, blocks: &mut Blocks) {
    let first = blocks.take().expect(rt, "a block is free");
    expect_same(rt, first, 1);
    expect_free(rt, blocks, 1);
    blocks.give_back(first);
}

#[test]
fn blocks_are_taken_and_given_back(rt: HostRuntime) -> Result<(), AllocError> {
    let bytes = vec![in rt.alloc(); 0; 4 * 512]?;
    let mut used = BlockSet::new();
    used.insert(2);
    let mut blocks = Blocks::of_bytes(bytes, 1, &used);
    expect_free(&rt, &blocks, 2);
    expect_first(&rt, &mut blocks);
    expect_free(&rt, &blocks, 2);
    expect_take(&rt, &mut blocks, Some(1));
    expect_take(&rt, &mut blocks, Some(3));
    expect_take(&rt, &mut blocks, None);
    Ok(())
}

#[test]
fn a_block_holds_what_was_written(rt: HostRuntime) -> Result<(), AllocError> {
    let bytes = vec![in rt.alloc(); 7; 3 * 512]?;
    let mut blocks = Blocks::of_bytes(bytes, 0, &BlockSet::new());
    blocks.lend_mut(1).fill(9);
    expect_equal(&rt, blocks.lend(1), &[9; 512]);
    expect_equal(&rt, blocks.lend(2), &[7; 512]);
    Ok(())
}
