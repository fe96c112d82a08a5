//! Traversing a tree and writing its lines.
ghost use Rattle.std.specs.Prelude.{◌≡◌, ◌≤◌, drop, take, vec_len, IsTrue, IfOk, OnOk};
ghost use Rattle.pv_model.specs.Machine.{listing, entries_at, is_directory_at, IsWellFormed};
ghost use Rattle.pv_model.specs.Listing.{lines_of_all, lines_within};
ghost use Rattle.pv_streams.specs.Sinks.{FailsBy, WritesOr};
ghost use Rattle.pv_listing.specs.Lines.{IsNextChild, last_name};

use crate::line::NodeLines;
use crate::remarks::Remarks;
use pv_model::limits::ROOT;
use pv_streams::{Sink, Stop};
use pv_tree::Tree;
use std::alloc::{AllocError, Global};

/// Replaces the last name of a path by the next name of a directory, in byte order, and returns its node. If there is no
/// next name, returns `None`, and the path is that of the directory.
///
/// The first `base` bytes of `path` are the directory's path. After them the path has a slash and the last name, or
/// nothing before the first name. `before` is a guess of the number of names that precede the next one; a wrong guess
/// takes more time. The function is not inlined, so that a recursion that calls it needs little stack.
///
/// # Errors
///
/// Returns `AllocError` if memory for the path cannot be allocated.
#[inline(never)]
pub fn next_child(
    tree: &Tree,
    directory: u16,
    base: usize,
    path: &mut Vec<u8>,
    before: u32,
) -> Result<Option<u16>, AllocError>
    requires well_formed { IsWellFormed tree.now.tree }
    requires directory { IsTrue (is_directory_at tree.now.tree directory) }
    requires within { base ≤ vec_len path.old }
    ensures { IfOk result (λ child. IsNextChild (entries_at tree.now.tree directory) (last_name (drop base path.old.items)) (take base path.old.items) child path.new.items) }
{
    let next = tree.next_entry(directory, path.get(base + 1..), before);
    path.truncate(base);
    let Some((name, child)) = next else {
        return Ok(None);
    };
    path.push(b'/')?;
    path.extend_from_slice(name.as_slice())?;
    Ok(Some(child))
}

// Writes the lines of the node at the end of a path, and of everything below it up to `depth` levels.
fn write_within<R: Remarks, W: Sink>(
    out: &mut W,
    tree: &Tree,
    remarks: &R,
    depth: u16,
    path: &mut Vec<u8>,
    node: u16,
) -> Result<(), Stop>
    requires { IsWellFormed tree.now.tree }
    ensures written { WritesOr W.Sink FailsBy (lines_within tree.now.tree (R.line remarks.now) depth path.old.items node) out.old out.new result }
    ensures path { OnOk result (path.new.items ≡ path.old.items) }
{
    if depth == 0 {
        return Ok(());
    }
    remarks.write(out, path.as_slice(), node)?;
    if !tree.is_directory(node) {
        return Ok(());
    }
    let base = path.len();
    let mut before = 0;
    while let Some(child) = next_child(tree, node, base, path, before)? {
        write_within(out, tree, remarks, depth - 1, path, child)?;
        before = before.saturating_add(1);
    }
    Ok(())
}

/// Writes a line for each name of a tree, as `remarks` defines it. Names are in byte order, and all entries of a
/// directory follow its line.
///
/// Memory is allocated only for the path.
///
/// # Errors
///
/// Returns `Write` if a write fails, and `Memory` if memory for a path cannot be allocated. The sink then has received
/// a prefix of the lines.
pub fn write_lines<R: Remarks, W: Sink>(
    alloc: Global,
    tree: &Tree,
    remarks: &R,
    out: &mut W,
) -> Result<(), Stop>
    ensures { WritesOr W.Sink FailsBy (lines_of_all tree.now.tree (R.line remarks.now)) out.old out.new result }
{
    let mut path = Vec::new(alloc);
    let depth = tree.sizes().inodes + 1;
    write_within(out, tree, remarks, depth, &mut path, ROOT)
}

/// Writes the listing of a tree: a line for each name. Names are in byte order, and all entries of a directory follow
/// its line.
///
/// A line has the letter of the node's kind, its number, its size as stat(2) reports it, and its path in quotation
/// marks. Memory is allocated only for the path.
///
/// # Errors
///
/// Returns `Write` if a write fails, and `Memory` if memory for a path cannot be allocated. The sink then has received
/// a prefix of the listing.
#[tactic(auto, unfolding(pv_model::specs::Listing::listing))]
pub fn write_listing<W: Sink>(alloc: Global, tree: &Tree, out: &mut W) -> Result<(), Stop>
    ensures { WritesOr W.Sink FailsBy (listing tree.now.tree) out.old out.new result }
{
    write_lines(alloc, tree, &NodeLines { tree }, out)
}
