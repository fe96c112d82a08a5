//! The fields of an inode, and the blocks that it owns. Inodes are numbered from 0 here.
ghost use Rattle.std.specs.Prelude.{◌≡◌, ℕ, ◌<◌, ◌≤◌, ◌≢◌, length};
ghost use Rattle.pv_blocks.specs.BlockStore.{free_count, IsFree, with_block};
ghost use Rattle.pv_model.specs.declared.version.Version.TheVariants.{V2};
ghost use Rattle.pv_model.specs.Machine.{greatest_length};
ghost use Rattle.pv_inodes.specs.Layout.{home, kind_at, size_at, pointer_at, pointer_count, pointer_of, after_index, most_owned, owned_at, owned_count, position_of_block, with_kind, with_size, with_owned, zeros};
ghost use Rattle.pv_inodes.specs.Sound.{pushed};

use crate::fields::{byte_at, put, put_u16, put_u32, u16_at, u32_at};
use crate::layout::{after_index, home, offset, pointer_of, room};
use pv_blocks::Blocks;
use pv_model::Version;
use pv_model::format::{DIRECT, FREE, POINTED, POINTERS_AT, SIZE_AT};

/// Returns the kind field of an inode. It is `FREE` if the inode is free.
#[tactic(auto, unfolding(crate::specs::Layout::kind_at))]
pub(crate) fn kind_of(blocks: &Blocks, version: Version, slot: u16) -> u8
    requires { home version slot < length blocks.now.blocks }
    ensures { result ≡ kind_at version blocks.now.blocks slot }
{
    byte_at(blocks, home(version, slot), offset(version, slot))
}

/// Returns the length of an inode's contents.
#[tactic(auto, unfolding(crate::specs::Layout::size_at))]
pub(crate) fn size_of(blocks: &Blocks, version: Version, slot: u16) -> u32
    requires { home version slot < length blocks.now.blocks }
    ensures { result ≡ size_at version blocks.now.blocks slot }
{
    u32_at(blocks, home(version, slot), offset(version, slot) + SIZE_AT)
}

/// Returns a number such that no inode from it on is in use.
pub(crate) fn end_of_used(blocks: &Blocks, version: Version, inodes: u16) -> u16
    requires { (s : ℕ) → s < inodes → home version s < length blocks.now.blocks }
    ensures { (s : ℕ) → result ≤ s → s < inodes → kind_at version blocks.now.blocks s ≡ 0 }
{
    let mut end = inodes;
    while end > 0 && kind_of(blocks, version, end - 1) == FREE {
        end -= 1;
    }
    end
}

/// Returns the number of blocks that an inode owns, including index blocks. A free inode owns none.
#[tactic(auto, unfolding(crate::specs::Layout::owned_count))]
pub(crate) fn owned_count(blocks: &Blocks, version: Version, slot: u16) -> u16
    requires block { home version slot < length blocks.now.blocks }
    requires allowed { 0 < kind_at version blocks.now.blocks slot → size_at version blocks.now.blocks slot ≤ greatest_length V2 }
    ensures { result ≡ owned_count version blocks.now.blocks slot }
{
    if kind_of(blocks, version, slot) == FREE {
        0
    } else {
        room(size_of(blocks, version, slot))
    }
}

/// Returns pointer `p` of an inode. The first ten pointers lead to blocks of the contents, the others to index blocks.
#[tactic(auto, unfolding(crate::specs::Layout::pointer_at))]
fn pointer(blocks: &Blocks, version: Version, slot: u16, p: u16) -> u16
    requires block { home version slot < length blocks.now.blocks }
    requires pointer { p < pointer_count version }
    ensures { result ≡ pointer_at version blocks.now.blocks slot p }
{
    u16_at(
        blocks,
        home(version, slot),
        offset(version, slot) + POINTERS_AT + 2 * p as usize,
    )
}

/// Returns the i-th block that an inode owns, index blocks included.
#[tactic(auto, using(std::proofs::lemmas::Bool::Decides::nat_tests, crate::proofs::InodeLayouts::has_pointer), unfolding(crate::specs::Layout::owned_at))]
pub(crate) fn owned_by(blocks: &Blocks, version: Version, slot: u16, i: u16) -> u16
    requires block { home version slot < length blocks.now.blocks }
    requires owned { i < most_owned version }
    requires index { after_index i ≢ 0 → pointer_at version blocks.now.blocks slot (pointer_of i) < length blocks.now.blocks }
    ensures { result ≡ owned_at version blocks.now.blocks slot i }
{
    let pointer = pointer(blocks, version, slot, pointer_of(i));
    let following = after_index(i);
    if following == 0 {
        pointer
    } else {
        u16_at(blocks, pointer, 2 * (following - 1) as usize)
    }
}

/// Returns block number `block` of an inode's contents.
pub(crate) fn content_block(blocks: &Blocks, version: Version, slot: u16, block: u16) -> u16
    requires block { home version slot < length blocks.now.blocks }
    requires owned { position_of_block block < most_owned version }
    requires index { after_index (position_of_block block) ≢ 0 → pointer_at version blocks.now.blocks slot (pointer_of (position_of_block block)) < length blocks.now.blocks }
    ensures { result ≡ owned_at version blocks.now.blocks slot (position_of_block block) }
{
    if block < DIRECT {
        pointer(blocks, version, slot, block)
    } else {
        let past = block - DIRECT;
        let index = pointer(blocks, version, slot, DIRECT + past / POINTED);
        u16_at(blocks, index, 2 * (past % POINTED) as usize)
    }
}

/// Writes the kind field of an inode.
#[tactic(auto, unfolding(crate::specs::Layout::with_kind))]
pub(crate) fn set_kind(blocks: &mut Blocks, version: Version, slot: u16, kind: u8)
    requires { home version slot < length blocks.old.blocks }
    ensures { blocks.new ≡ record blocks.old { blocks = with_kind version blocks.old.blocks slot kind } }
{
    put(blocks, home(version, slot), offset(version, slot), &[kind]);
}

/// Writes the length of an inode's contents.
#[tactic(auto, unfolding(crate::specs::Layout::with_size))]
pub(crate) fn set_size(blocks: &mut Blocks, version: Version, slot: u16, size: u32)
    requires { home version slot < length blocks.old.blocks }
    ensures { blocks.new ≡ record blocks.old { blocks = with_size version blocks.old.blocks slot size } }
{
    put_u32(
        blocks,
        home(version, slot),
        offset(version, slot) + SIZE_AT,
        size,
    );
}

/// Makes block `k` the i-th block that an inode owns.
#[tactic(auto, using(std::proofs::lemmas::Bool::Decides::nat_tests, crate::proofs::InodeLayouts::has_pointer), unfolding(crate::specs::Layout::with_owned))]
pub(crate) fn set_owned(blocks: &mut Blocks, version: Version, slot: u16, i: u16, k: u16)
    requires block { home version slot < length blocks.old.blocks }
    requires owned { i < most_owned version }
    requires index { after_index i ≢ 0 → pointer_at version blocks.old.blocks slot (pointer_of i) < length blocks.old.blocks }
    ensures { blocks.new ≡ record blocks.old { blocks = with_owned version blocks.old.blocks slot i k } }
{
    let following = after_index(i);
    if following == 0 {
        put_u16(
            blocks,
            home(version, slot),
            offset(version, slot) + POINTERS_AT + 2 * pointer_of(i) as usize,
            k,
        );
    } else {
        let index = pointer(blocks, version, slot, pointer_of(i));
        put_u16(blocks, index, 2 * (following - 1) as usize, k);
    }
}

/// Writes zeros to a block.
#[tactic(auto, unfolding(crate::specs::Layout::zeros))]
fn clear(blocks: &mut Blocks, k: u16)
    requires { k < length blocks.old.blocks }
    ensures { blocks.new ≡ with_block blocks.old k zeros }
{
    blocks.lend_mut(k).fill(0);
}

/// Allocates a free block, clears it, makes it the i-th block that an inode owns, and returns its number.
pub(crate) fn push_block(blocks: &mut Blocks, version: Version, slot: u16, i: u16) -> u16
    requires free { free_count blocks.old ≢ 0 }
    requires home { home version slot < blocks.old.first }
    requires first { blocks.old.first ≤ length blocks.old.blocks }
    requires whole { length blocks.old.free ≡ length blocks.old.blocks }
    requires owned { i < most_owned version }
    requires index { after_index i ≢ 0 → pointer_at version blocks.old.blocks slot (pointer_of i) < length blocks.old.blocks }
    ensures free { IsFree blocks.old result }
    ensures after { blocks.new ≡ pushed version blocks.old slot i result }
{
    let Some(k) = blocks.take() else {
        unreachable!()
    };
    clear(blocks, k);
    set_owned(blocks, version, slot, i, k);
    k
}
