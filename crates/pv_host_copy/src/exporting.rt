//! Exporting the tree of an image to a host directory.
ghost use Rattle.std.specs.Prelude.{◌≡◌, false, map, IsSome, IfOk, OnOk};
ghost use Rattle.std.specs.Option.{option_copied};
ghost use Rattle.pv_dirs.specs.Trees.{node_bytes_at};
ghost use Rattle.pv_model.specs.Machine.{is_directory_at, node_at, IsWellFormed};
ghost use Rattle.pv_host_copy.specs.Exported.{path_pair, CreatesNode, Exports, MakesEntries, MakesNew};
ghost use Rattle.pv_host_copy.specs.Encoded.{first_path, encoded_entries, encodes_node, encodes_within};

use crate::target::{HostTarget, TargetFault};
use pv_listing::next_child;
use pv_model::Kind;
use pv_model::limits::ROOT;
use pv_tree::Tree;
use std::alloc::{AllocError, Global};

/// Why the tree of an image was not exported, or not completely.
#[derive(Drop)]
pub enum ExportStop {
    /// The node at this path of the tree was not created, or not completely. The path has a slash before each name.
    Make(Vec<u8>),
    /// Memory cannot be allocated.
    Memory,
}

/// A file or symbolic link of an image, and the first path at which it was created.
#[derive(Drop)]
pub(crate) struct FirstPath {
    pub(crate) node: u16,
    pub(crate) path: Vec<u8>,
}

// Returns the first path of a file or symbolic link, if it was created.
fn first_path(firsts: &[FirstPath], node: u16) -> Option<&[u8]>
    ensures { option_copied result ≡ first_path node (map path_pair firsts.now) }
{
    for first in firsts {
        if first.node == node {
            return Some(first.path.as_slice());
        }
    }
    None
}

// Returns the bytes of a file, or the target of a symbolic link.
fn content(alloc: Global, tree: &Tree, node: u16) -> Result<Vec<u8>, AllocError>
    requires used { IsSome (node_at tree.now.tree node) }
    requires other { is_directory_at tree.now.tree node ≡ false }
    ensures { IfOk result (λ bytes. bytes.items ≡ node_bytes_at tree.now.tree node) }
{
    let mut bytes = vec![in alloc; 0; tree.size(node) as usize]?;
    tree.read_at(node, 0, &mut bytes);
    Ok(bytes)
}

// Creates a file or symbolic link with its contents.
fn make_new<T: HostTarget>(
    alloc: Global,
    tree: &Tree,
    path: &[u8],
    node: u16,
    target: &mut T,
) -> Result<(), TargetFault>
    requires used { IsSome (node_at tree.now.tree node) }
    requires other { is_directory_at tree.now.tree node ≡ false }
    ensures { CreatesNode path.now (node_at tree.now.tree node) (T.made target.old) result (T.made target.new) }
{
    let bytes = content(alloc, tree, node)?;
    match tree.kind(node) {
        Kind::Symlink => target.make_link(alloc, path, &bytes),
        Kind::Executable => target.make_file(alloc, path, true, &bytes),
        _ => target.make_file(alloc, path, false, &bytes),
    }
}

// Creates a file or symbolic link at its first path, and records the path.
fn export_new<T: HostTarget>(
    alloc: Global,
    tree: &Tree,
    firsts: &mut Vec<FirstPath>,
    path: &[u8],
    node: u16,
    target: &mut T,
) -> Result<(), TargetFault>
    requires used { IsSome (node_at tree.now.tree node) }
    requires other { is_directory_at tree.now.tree node ≡ false }
    ensures { MakesNew path.now node (node_at tree.now.tree node) firsts.old.items (T.made target.old) result firsts.new.items (T.made target.new) }
{
    make_new(alloc, tree, path, node, target)?;
    let path = Vec::from_slice(alloc, path)?;
    firsts.push(FirstPath { node, path })?;
    Ok(())
}

// Creates a node at a path, a directory without its entries. This function is not inlined, so that the recursion
// needs little stack.
#[inline(never)]
fn export_node<T: HostTarget>(
    alloc: Global,
    tree: &Tree,
    firsts: &mut Vec<FirstPath>,
    path: &[u8],
    node: u16,
    target: &mut T,
) -> Result<(), TargetFault>
    ensures { MakesEntries (encodes_node path.now node (node_at tree.now.tree node)) firsts.old.items (T.made target.old) result firsts.new.items (T.made target.new) path.now }
{
    if !tree.is_used(node) {
        return Ok(());
    }
    if tree.is_directory(node) {
        return target.make_directory(alloc, path);
    }
    if let Some(first) = first_path(firsts, node) {
        return target.make_name(alloc, path, first);
    }
    export_new(alloc, tree, firsts, path, node, target)
}

// Creates all entries of the directory at the end of a path, up to `depth` levels. If a node cannot be created, the
// path ends with its name.
fn export_within<T: HostTarget>(
    alloc: Global,
    tree: &Tree,
    firsts: &mut Vec<FirstPath>,
    depth: u16,
    path: &mut Vec<u8>,
    node: u16,
    target: &mut T,
) -> Result<(), TargetFault>
    requires { IsWellFormed tree.now.tree }
    ensures made { MakesEntries (encodes_within tree.now.tree depth path.old.items node) firsts.old.items (T.made target.old) result firsts.new.items (T.made target.new) path.new.items }
    ensures path { OnOk result (path.new.items ≡ path.old.items) }
{
    if depth == 0 || !tree.is_directory(node) {
        return Ok(());
    }
    let base = path.len();
    let mut before = 0;
    while let Some(child) = next_child(tree, node, base, path, before)? {
        export_node(alloc, tree, firsts, path, child, target)?;
        export_within(alloc, tree, firsts, depth - 1, path, child, target)?;
        before = before.saturating_add(1);
    }
    Ok(())
}

/// Creates the tree of an image in a host directory, in the order of the listing. Each directory is created before its
/// entries. A file or symbolic link is created at its first name, and its other names become hard links to it. An empty
/// directory then has exactly the entries of the tree.
///
/// # Errors
///
/// - `Make`: the node at that path was not created, or not completely. All nodes before it were created, and no other
///   node.
/// - `Memory`: memory cannot be allocated. The nodes before some path were created, and no other node, but for a part
///   of the next one.
pub fn export<T: HostTarget>(alloc: Global, tree: &Tree, target: &mut T) -> Result<(), ExportStop>
    ensures { Exports (encoded_entries tree.now.tree) (T.made target.old) result (T.made target.new) }
{
    tree.invariant();
    let mut firsts = Vec::new(alloc);
    let mut path = Vec::new(alloc);
    let depth = tree.sizes().inodes + 1;
    match export_within(alloc, tree, &mut firsts, depth, &mut path, ROOT, target) {
        Ok(()) => Ok(()),
        Err(TargetFault::Make) => Err(ExportStop::Make(path)),
        Err(TargetFault::Memory) => Err(ExportStop::Memory),
    }
}
