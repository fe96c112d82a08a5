//! The files of a state, and who leaks them.
ghost use Rattle.std.specs.Prelude.{◌≡◌, ◌&&◌, ◌++◌, ◌∷◌, [], List, filter, length, map, not, IfOk, OnOk};
ghost use Rattle.pv_exposure.specs.StateFiles.{AreFilesOf, described, described_file, first_leak_at, is_safe_at, leak_in};
ghost use Rattle.pv_exposure.specs.Unnamed.{is_unnamed};
ghost use Rattle.pv_model.specs.Machine.{Bytes, files_of_tree, State, Tree as DefinedTree};
ghost use Rattle.pv_model.specs.Answers.Files.{unnamed_files};
ghost use Rattle.pv_model_questions.specs.ExposureAbout.{kept_files_of};
ghost use Rattle.pv_named_files.specs.FirstPaths.{files_given, first_tree};
ghost use Rattle.pv_model_questions.specs.Exposure.{first_leak_of};
ghost use Rattle.std.specs.List.{range_with_len};
ghost use Rattle.std.specs.Prelude.{None, slice_index_or};

use pv_audit::leak;
use pv_model::Why;
use pv_named_files::{FirstPaths, is_file, named_files};
use pv_programs::calls_state::Parts;
use pv_tree::Tree;
use std::alloc::{AllocError, Global};

/// A file of a state.
#[derive(Drop)]
pub(crate) struct StateFile {
    /// The number of the file.
    pub(crate) node: u16,
    /// The file in brief, and its path in the first tree if that is another one.
    pub(crate) text: Vec<u8>,
}

/// The files of a state.
#[derive(Drop)]
pub(crate) struct StateFiles {
    /// The files, those with names first.
    pub(crate) files: Vec<StateFile>,
    // For each node, the live process with the least number that is not closed to it if it is a file, and the first
    // reason.
    leaks: Vec<Option<(u32, Why)>>,
}

// Returns whether a number is the node of a file without a name.
fn is_unnamed(tree: &Tree, node: u16) -> bool
    ensures { result ≡ is_unnamed tree.now.tree node }
{
    is_file(tree, node) && tree.names(node) == 0
}

// Appends a node, if it is a file without a name.
fn push_unnamed(files: &mut Vec<u16>, tree: &Tree, node: u16) -> Result<(), AllocError>
    ensures { OnOk result (files.new.items ≡ files.old.items ++ filter (is_unnamed tree.now.tree) (node ∷ [])) }
{
    if is_unnamed(tree, node) {
        files.push(node)?;
    }
    Ok(())
}

// Returns the number after the greatest number that a node can have.
fn node_count(tree: &Tree) -> u16
    ensures { result ≡ length tree.now.tree.nodes }
{
    tree.sizes().inodes + 1
}

// Appends the files without names, by number.
fn push_all_unnamed(files: &mut Vec<u16>, tree: &Tree) -> Result<(), AllocError>
    ensures { OnOk result (files.new.items ≡ files.old.items ++ unnamed_files tree.now.tree) }
{
    for node in 0..node_count(tree) {
        push_unnamed(files, tree, node)?;
    }
    Ok(())
}

// Returns the files of a tree: those with names in the order of a listing, each once, and then those without, by
// number.
fn files_of_tree(alloc: Global, tree: &Tree) -> Result<Vec<u16>, AllocError>
    ensures { IfOk result (λ files. files.items ≡ files_of_tree tree.now.tree) }
{
    let mut files = named_files(alloc, tree)?;
    push_all_unnamed(&mut files, tree)?;
    Ok(files)
}

// Returns those files of a tree that are kept.
fn kept_files_of_tree(
    alloc: Global,
    paths: &FirstPaths<'_>,
    tree: &Tree,
) -> Result<Vec<u16>, AllocError>
    ensures { IfOk result (λ files. files.items ≡ kept_files_of (files_given paths.now) (first_tree paths.now) tree.now.tree) }
{
    let nodes = files_of_tree(alloc, tree)?;
    paths.kept(alloc, tree, &nodes)
}

// Appends a file.
fn push_described(
    alloc: Global,
    files: &mut Vec<StateFile>,
    paths: &FirstPaths<'_>,
    tree: &Tree,
    node: u16,
) -> Result<(), AllocError>
    ensures { OnOk result (map described files.new.items ≡ map described files.old.items ++ described_file (first_tree paths.now) tree.now.tree node ∷ []) }
{
    let text = paths.described(alloc, tree, node)?;
    files.push(StateFile { node, text })?;
    Ok(())
}

// Returns files with their descriptions.
fn describe(
    alloc: Global,
    paths: &FirstPaths<'_>,
    tree: &Tree,
    nodes: &[u16],
) -> Result<Vec<StateFile>, AllocError>
    ensures { IfOk result (λ files. map described files.items ≡ map (described_file (first_tree paths.now) tree.now.tree) nodes.now) }
{
    let mut files = Vec::new(alloc);
    for node in nodes {
        push_described(alloc, &mut files, paths, tree, *node)?;
    }
    Ok(files)
}

// Returns the first reason why a process is not closed to a file, if it is live.
fn leak_if_live(parts: &Parts, pid: u32, node: u16) -> Option<Why>
    ensures { result ≡ leak_in parts.now pid node }
{
    if parts.processes().live(pid) {
        leak(parts, pid, node)
    } else {
        None
    }
}

// Returns the live process with the least number that is not closed to a file, with its first reason.
fn first_leak(parts: &Parts, node: u16) -> Option<(u32, Why)>
    ensures { result ≡ first_leak_of parts.now node }
{
    // The contract of `invariant` states that the numbers ascend.
    parts.invariant();
    let mut last = 0;
    while let Some(pid) = parts.processes().next_number(last) {
        if let Some(why) = leak_if_live(parts, pid, node) {
            return Some((pid, why));
        }
        last = pid;
    }
    None
}

// Returns the first leak of a node, if it is a file.
fn leak_of_node(parts: &Parts, node: u16) -> Option<(u32, Why)>
    ensures { result ≡ first_leak_at parts.now node }
{
    if is_file(parts.tree(), node) {
        first_leak(parts, node)
    } else {
        None
    }
}

// Appends the first leak of a node.
fn push_leak(
    leaks: &mut Vec<Option<(u32, Why)>>,
    parts: &Parts,
    node: u16,
) -> Result<(), AllocError>
    ensures { OnOk result (leaks.new.items ≡ leaks.old.items ++ first_leak_at parts.now node ∷ []) }
{
    leaks.push(leak_of_node(parts, node))?;
    Ok(())
}

// Returns the first leak of each node.
fn leaks_of(alloc: Global, parts: &Parts) -> Result<Vec<Option<(u32, Why)>>, AllocError>
    ensures { IfOk result (λ leaks. leaks.items ≡ map (first_leak_at parts.now) (range_with_len 0 (length parts.now.tree.nodes))) }
{
    let mut leaks = Vec::new(alloc);
    for node in 0..node_count(parts.tree()) {
        push_leak(&mut leaks, parts, node)?;
    }
    Ok(leaks)
}

// Returns the element of a list with a number, if there is one.
fn leak_at(leaks: &[Option<(u32, Why)>], node: u16) -> Option<(u32, Why)>
    ensures { result ≡ slice_index_or leaks.now node None }
{
    let node = usize::from(node);
    if node < leaks.len() {
        leaks[node]
    } else {
        None
    }
}

impl StateFiles {
    /// Returns the files of a state that are kept, given the first tree.
    ///
    /// # Errors
    ///
    /// `AllocError`, if there is no memory.
    pub(crate) fn of(
        alloc: Global,
        paths: &FirstPaths<'_>,
        parts: &Parts,
    ) -> Result<StateFiles, AllocError>
        ensures { IfOk result (λ files. AreFilesOf (files_given paths.now) (first_tree paths.now) parts.now files) }
    {
        let nodes = kept_files_of_tree(alloc, paths, parts.tree())?;
        let files = describe(alloc, paths, parts.tree(), &nodes)?;
        let leaks = leaks_of(alloc, parts)?;
        Ok(StateFiles { files, leaks })
    }

    /// Returns the live process with the least number that is not closed to a file, with its first reason.
    pub(crate) fn leak(&self, node: u16) -> Option<(u32, Why)>
        ensures { (given : List Bytes) (first : DefinedTree) (s : State) → AreFilesOf given first s self.now → result ≡ first_leak_at s node }
    {
        leak_at(&self.leaks, node)
    }

    /// Returns whether every live process is closed to the file with a number, if the state has one.
    pub(crate) fn is_safe(&self, node: u16) -> bool
        ensures { (given : List Bytes) (first : DefinedTree) (s : State) → AreFilesOf given first s self.now → result ≡ is_safe_at node s }
    {
        self.leak(node).is_none()
    }
}
