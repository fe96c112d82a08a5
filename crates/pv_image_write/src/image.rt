//! Writing images.
ghost use Rattle.std.specs.Prelude.{◌≡◌, ◌+◌, ◌-◌, ◌*◌, ◌^◌, ◌<◌, ◌≤◌, ◌++◌, false, length, vec_capacity, vec_len, IsTrue, IsSome, None, Err, IfOk, OnOk, OnErr};
ghost use Rattle.pv_model.specs.declared.limits.TheConstants.{BLOCK, INODES};
ghost use Rattle.pv_model.specs.Machine.{named_tree, inode_blocks, inode_length, are_image_sizes, Rose, greatest_name, names_of, node_at};
ghost use Rattle.pv_streams.specs.Sinks.{and_all, Writes, WritesPrefix};
ghost use Rattle.pv_image_write.specs.Placed.{placed, placed_contents, written_at, named_need};
ghost use Rattle.pv_image_write.specs.Encoding.{all_inodes, content_blocks_of, first_block, image_bytes, inode_of, padded, taken_of};
ghost use Rattle.pv_image_write.specs.Written.{WritesTree};
ghost use Rattle.pv_image_write.specs.Writable.{names_end, IsWritableAs};

use crate::content::{content_length, put_content};
use crate::fault::WriteFault;
use crate::filling::{fill, put, put_u16, put_zeros};
use crate::inode::{extent_of, put_after_content, put_inode};
use crate::window::{write_full, write_zeros};
use pv_model::Version;
use pv_model::format::HEADER;
use pv_model::limits::{BLOCK, ROOT};
use pv_streams::{Failed, Sink, write_through};
use pv_tree::Tree;
use std::alloc::{AllocError, Global};

// Returns whether an image contains a node: it is the root, or has a name.
fn is_written(tree: &Tree, node: u16) -> bool
    ensures as_written { IsTrue result
        → written_at tree.now.tree node ≡ node_at tree.now.tree node }
    ensures used { IsTrue result → IsSome (node_at tree.now.tree node) }
    ensures free { result ≡ false → written_at tree.now.tree node ≡ None }
{
    tree.is_used(node) && (node == ROOT || tree.names(node) > 0)
}

// Returns the number of data blocks that a node takes in an image of this version, or 0 if the image does not contain
// it.
fn taken_blocks(tree: &Tree, version: Version, node: u16) -> u32
    requires { greatest_name tree.now.tree.version ≤ greatest_name version }
    ensures { result ≡ taken_of version (written_at tree.now.tree node) }
{
    if !is_written(tree, node) {
        return 0;
    }
    let extent = extent_of(content_length(tree, version, node));
    u32::from(extent.filled + extent.index)
}

// Appends the inode of a node whose blocks start at `first`, or a free inode if the image does not contain the node.
fn add_inode(bytes: &mut Vec<u8>, tree: &Tree, version: Version, node: u16, first: u16)
    requires names { greatest_name tree.now.tree.version ≤ greatest_name version }
    requires counted { length (names_of tree.now.tree node) < names_end version }
    requires blocks { first + taken_of version (written_at tree.now.tree node) < 2 ^ 16 }
    requires room { vec_len bytes.old + inode_length version ≤ vec_capacity bytes.old }
    ensures items { let names = length (names_of tree.now.tree node) in
        let inode = inode_of version names first (written_at tree.now.tree node) in
        bytes.new.items ≡ bytes.old.items ++ inode }
    ensures len { vec_len bytes.new ≡ vec_len bytes.old + inode_length version }
    ensures capacity { vec_capacity bytes.old ≤ vec_capacity bytes.new }
{
    if !is_written(tree, node) {
        return put_zeros(bytes, version.layout().inode_length);
    }
    let sort = tree.kind(node) as u8;
    let names = tree.names(node);
    let size = content_length(tree, version, node);
    put_inode(bytes, version, sort, names, size, first);
}

// Appends the blocks of a node, which start at `first`, if the image contains it.
fn add_blocks(bytes: &mut Vec<u8>, tree: &Tree, version: Version, node: u16, first: u16)
    requires names { greatest_name tree.now.tree.version ≤ greatest_name version }
    requires blocks { first + taken_of version (written_at tree.now.tree node) < 2 ^ 16 }
    requires room { let taken = taken_of version (written_at tree.now.tree node) in
        vec_len bytes.old + BLOCK * taken ≤ vec_capacity bytes.old }
    ensures items { let blocks = content_blocks_of version first (written_at tree.now.tree node) in
        bytes.new.items ≡ bytes.old.items ++ blocks }
    ensures capacity { vec_capacity bytes.old ≤ vec_capacity bytes.new }
{
    if !is_written(tree, node) {
        return;
    }
    put_content(bytes, tree, version, node);
    put_after_content(bytes, content_length(tree, version, node), first);
}

// Returns the number of blocks of an inode table.
fn table_blocks(version: Version, inodes: u16) -> u16
    requires { inodes ≤ INODES }
    ensures { result ≡ inode_blocks version inodes }
{
    (inodes as usize * version.layout().inode_length).div_ceil(BLOCK) as u16
}

// Returns the first block of an image of these sizes, in a vector with capacity for the others. Capacity that is not
// written costs nothing.
#[tactic(auto, unfolding(crate::specs::Encoding::first_block))]
fn prefix(alloc: Global, version: Version, blocks: u16, inodes: u16) -> Result<Vec<u8>, AllocError>
    requires { 1 ≤ blocks }
    ensures items { IfOk result (λ bytes. bytes.items ≡ first_block version blocks inodes) }
    ensures room { IfOk result (λ bytes. BLOCK * blocks ≤ vec_capacity bytes) }
{
    let mut bytes = Vec::with_capacity(alloc, BLOCK * blocks as usize)?;
    put(&mut bytes, version.magic());
    put_u16(&mut bytes, blocks);
    put_u16(&mut bytes, inodes);
    put_zeros(&mut bytes, BLOCK - HEADER);
    Ok(bytes)
}

// Returns the first block and the inode table, in a vector with capacity for the contents.
fn with_table(
    alloc: Global,
    tree: &Tree,
    version: Version,
    blocks: u16,
    inodes: u16,
) -> Result<Vec<u8>, AllocError>
    requires { IsWritableAs tree.now.tree version blocks inodes }
    ensures items { let t = placed tree.now.tree version blocks inodes in
        let table = padded (BLOCK * inode_blocks version inodes) (all_inodes t inodes) in
        IfOk result (λ bytes. bytes.items ≡ first_block version blocks inodes ++ table) }
    ensures room { IfOk result (λ bytes. BLOCK * blocks ≤ vec_capacity bytes) }
{
    tree.invariant();
    let first_data = table_blocks(version, inodes) + 1;
    let mut bytes = prefix(alloc, version, blocks, inodes)?;
    let mut first = first_data;
    for slot in 0..inodes {
        add_inode(&mut bytes, tree, version, slot + 1, first);
        first += taken_blocks(tree, version, slot + 1) as u16;
    }
    fill(&mut bytes, BLOCK * first_data as usize);
    Ok(bytes)
}

// Writes the window, then the contents of all nodes, then zeros up to the end of the image.
fn write_contents<O: Sink>(
    window: &mut Vec<u8>,
    tree: &Tree,
    version: Version,
    blocks: u16,
    inodes: u16,
    image: &mut O,
) -> Result<(), Failed>
    requires image { IsWritableAs tree.now.tree version blocks inodes }
    requires following { length window.old.items ≡ BLOCK * (inode_blocks version inodes + 1) }
    requires room { BLOCK * blocks ≤ vec_capacity window.old }
    ensures written { Writes O.Sink
        (window.old.items ++ placed_contents tree.now.tree version blocks inodes)
        image.old image.new result }
    ensures flushed { OnOk result (O.buffered image.new ≡ 0) }
{
    tree.invariant();
    let mut next = table_blocks(version, inodes) + 1;
    for slot in 0..inodes {
        add_blocks(window, tree, version, slot + 1, next);
        next += taken_blocks(tree, version, slot + 1) as u16;
        write_full(window, image)?;
    }
    write_zeros(window, blocks - next, image)?;
    write_through(image, window.as_slice())
}

// Writes the bytes of an image.
fn write_bytes<O: Sink>(
    alloc: Global,
    tree: &Tree,
    version: Version,
    blocks: u16,
    inodes: u16,
    image: &mut O,
) -> Result<(), WriteFault>
    requires { IsWritableAs tree.now.tree version blocks inodes }
    ensures whole { let bytes = image_bytes (placed tree.now.tree version blocks inodes) in
        OnOk result (O.written image.new ≡ and_all (O.written image.old) bytes) }
    ensures cut { let bytes = image_bytes (placed tree.now.tree version blocks inodes) in
        result ≡ Err WriteFault.Write
        → WritesPrefix bytes (O.written image.old) (O.written image.new) }
    ensures failed { result ≡ Err WriteFault.Write
        → Rose (O.failures image.old) (O.failures image.new) }
    ensures memory { result ≡ Err WriteFault.Memory
        → O.written image.new ≡ O.written image.old }
    ensures flushed { OnOk result (O.buffered image.new ≡ 0) }
{
    let mut window = with_table(alloc, tree, version, blocks, inodes)?;
    Ok(write_contents(&mut window, tree, version, blocks, inodes, image)?)
}

/// Returns the number of data blocks that the root and the named nodes need in an image of a version that allows the
/// names of the tree. `write_as` requires this many.
pub fn needed_blocks(tree: &Tree, version: Version) -> u32
    requires { greatest_name tree.now.tree.version ≤ greatest_name version }
    ensures { result ≡ named_need tree.now.tree version }
{
    let mut needed = 0;
    for slot in 0..tree.sizes().inodes {
        needed += taken_blocks(tree, version, slot + 1);
    }
    needed
}

/// Writes an image of this version with the given numbers of blocks and inodes, which the version must allow, and
/// flushes the sink. The image contains the root and the nodes with a name, under their numbers, and nothing else.
/// Unused bytes are zero. The number of inodes must be at least that of the tree, the version must allow the names of
/// the tree, and there must be as many data blocks as `needed_blocks` returns.
///
/// # Errors
///
/// Returns `Memory` if memory cannot be allocated; nothing is written then. Returns `Write` if a write or the flush
/// fails; the sink then has received a prefix of the image.
pub fn write_as<O: Sink>(
    alloc: Global,
    tree: &Tree,
    version: Version,
    blocks: u16,
    inodes: u16,
    image: &mut O,
) -> Result<(), WriteFault>
    requires sizes { IsTrue (are_image_sizes version blocks inodes) }
    requires inodes { tree.now.tree.inodes ≤ inodes }
    requires names { greatest_name tree.now.tree.version ≤ greatest_name version }
    requires room { inode_blocks version inodes + 1 + named_need tree.now.tree version ≤ blocks }
    ensures { WritesTree O.Sink (placed tree.now.tree version blocks inodes)
        image.old image.new result }
{
    tree.invariant();
    write_bytes(alloc, tree, version, blocks, inodes, image)
}

/// Writes an image of the tree with its sizes and version, and flushes the sink. The image contains only the root and
/// the nodes with a name.
///
/// # Errors
///
/// Returns `Memory` if memory cannot be allocated; nothing is written then. Returns `Write` if a write or the flush
/// fails; the sink then has received a prefix of the image.
pub fn write_tree<O: Sink>(alloc: Global, tree: &Tree, image: &mut O) -> Result<(), WriteFault>
    ensures { WritesTree O.Sink (named_tree tree.now.tree) image.old image.new result }
{
    let sizes = tree.sizes();
    let blocks = table_blocks(sizes.version, sizes.inodes) + 1 + sizes.blocks;
    write_as(alloc, tree, sizes.version, blocks, sizes.inodes, image)
}
