//! The accesses that a call may have.
ghost use Rattle.std.specs.Prelude.{◌≡◌, ◌++◌, IfOk, IsSome, OnOk, Some, option_and_then, option_to_list};
ghost use Rattle.pv_laws_states.specs.States.{IsValid};
ghost use Rattle.pv_model.specs.Machine.{executes, call_of, node_of, Process, process_at};
ghost use Rattle.pv_model.specs.Answers.Access.{reads};
ghost use Rattle.pv_named_files.specs.FirstPaths.{files_given, first_tree};
ghost use Rattle.pv_access.specs.Candidates.{candidates, candidates_at, candidates_by, list_of_two, name_candidates, node_candidates, open_candidates};
ghost use Rattle.pv_access.specs.Texts.{access_at, all_prepared, with_texts};
ghost use Rattle.pv_access.specs.declared.condition.Condition.TheVariants.{AnyValue, NoProgram};

use crate::candidate::{Candidate, push_name, push_node};
use crate::condition::Condition;
use crate::ends::{Ends, ends_of, file_of};
use crate::word::NodeWord;
use pv_model::{CallRef, OpenFlags, Place};
use pv_named_files::FirstPaths;
use pv_reduced::calls_state::Parts;
use pv_tree::Tree;
use std::alloc::{AllocError, Global};

// Returns the node at a place, if there are both.
fn node_at(place: &Option<Place>) -> Option<u16>
    ensures { result ≡ option_and_then node_of place.now }
{
    match place {
        Some(Place::At { node, .. }) => *node,
        Some(Place::Node(node)) => Some(*node),
        None => None,
    }
}

// Adds an access to a node, if there is one.
fn push_some_node(
    alloc: Global,
    list: &mut Vec<Candidate>,
    paths: &FirstPaths<'_>,
    tree: &Tree,
    pid: u32,
    condition: Condition,
    word: NodeWord,
    node: Option<u16>,
) -> Result<(), AllocError>
    ensures { OnOk result (all_prepared list.new.items ≡ all_prepared list.old.items ++ with_texts (files_given paths.now) (first_tree paths.now) tree.now.tree pid (candidates_by condition (access_at word) (option_to_list node))) }
{
    match node {
        Some(node) => push_node(alloc, list, paths, tree, pid, condition, word, node),
        None => Ok(()),
    }
}

// Adds accesses to the nodes at places.
fn push_nodes(
    alloc: Global,
    list: &mut Vec<Candidate>,
    paths: &FirstPaths<'_>,
    tree: &Tree,
    pid: u32,
    condition: Condition,
    word: NodeWord,
    ends: &Ends,
) -> Result<(), AllocError>
    ensures { OnOk result (all_prepared list.new.items ≡ all_prepared list.old.items ++ with_texts (files_given paths.now) (first_tree paths.now) tree.now.tree pid (node_candidates (list_of_two ends.now.first ends.now.second) condition (access_at word))) }
{
    let first = node_at(&ends.first);
    let second = node_at(&ends.second);
    push_some_node(alloc, list, paths, tree, pid, condition, word, first)?;
    push_some_node(alloc, list, paths, tree, pid, condition, word, second)
}

// Adds a change of the name of a place, if there is one. If `absent` is set, adds nothing for the name of a node.
fn push_place_name(
    alloc: Global,
    list: &mut Vec<Candidate>,
    paths: &FirstPaths<'_>,
    tree: &Tree,
    pid: u32,
    absent: bool,
    place: &Option<Place>,
) -> Result<(), AllocError>
    ensures { OnOk result (all_prepared list.new.items ≡ all_prepared list.old.items ++ with_texts (files_given paths.now) (first_tree paths.now) tree.now.tree pid (name_candidates (option_to_list place.now) absent)) }
{
    match place {
        Some(Place::At { dir, name, node }) if !absent || node.is_none() => {
            push_name(alloc, list, paths, tree, pid, *dir, name.as_slice())
        }
        _ => Ok(()),
    }
}

// Adds changes of the names of places. If `absent` is set, only of names that do not exist.
fn push_names(
    alloc: Global,
    list: &mut Vec<Candidate>,
    paths: &FirstPaths<'_>,
    tree: &Tree,
    pid: u32,
    absent: bool,
    ends: &Ends,
) -> Result<(), AllocError>
    ensures { OnOk result (all_prepared list.new.items ≡ all_prepared list.old.items ++ with_texts (files_given paths.now) (first_tree paths.now) tree.now.tree pid (name_candidates (list_of_two ends.now.first ends.now.second) absent)) }
{
    push_place_name(alloc, list, paths, tree, pid, absent, &ends.first)?;
    push_place_name(alloc, list, paths, tree, pid, absent, &ends.second)
}

// Adds the accesses that an open may have, but for the new descriptor.
fn push_open(
    alloc: Global,
    list: &mut Vec<Candidate>,
    paths: &FirstPaths<'_>,
    tree: &Tree,
    pid: u32,
    flags: OpenFlags,
    ends: &Ends,
) -> Result<(), AllocError>
    ensures { OnOk result (all_prepared list.new.items ≡ all_prepared list.old.items ++ with_texts (files_given paths.now) (first_tree paths.now) tree.now.tree pid (open_candidates (list_of_two ends.now.first ends.now.second) flags)) }
{
    if flags.truncate {
        let condition = Condition::AnyValue;
        push_nodes(
            alloc,
            list,
            paths,
            tree,
            pid,
            condition,
            NodeWord::Write,
            ends,
        )?;
    }
    push_names(alloc, list, paths, tree, pid, true, ends)
}

// Adds the accesses that an execve(2) may have.
fn push_execve(
    alloc: Global,
    list: &mut Vec<Candidate>,
    paths: &FirstPaths<'_>,
    tree: &Tree,
    pid: u32,
    ends: &Ends,
) -> Result<(), AllocError>
    ensures { OnOk result (all_prepared list.new.items ≡ all_prepared list.old.items ++ with_texts (files_given paths.now) (first_tree paths.now) tree.now.tree pid (node_candidates (list_of_two ends.now.first ends.now.second) NoProgram reads ++ node_candidates (list_of_two ends.now.first ends.now.second) AnyValue executes)) }
{
    let (refused, made) = (Condition::NoProgram, Condition::AnyValue);
    push_nodes(alloc, list, paths, tree, pid, refused, NodeWord::Read, ends)?;
    push_nodes(alloc, list, paths, tree, pid, made, NodeWord::Execute, ends)
}

// Adds the accesses that a call may have.
fn push_call(
    alloc: Global,
    list: &mut Vec<Candidate>,
    paths: &FirstPaths<'_>,
    tree: &Tree,
    pid: u32,
    call: CallRef<'_>,
    file: Option<u16>,
    ends: &Ends,
) -> Result<(), AllocError>
    ensures { OnOk result (all_prepared list.new.items ≡ all_prepared list.old.items ++ with_texts (files_given paths.now) (first_tree paths.now) tree.now.tree pid (candidates_at (option_to_list file) (list_of_two ends.now.first ends.now.second) (call_of call.entry))) }
{
    let (bytes, count) = (Condition::SomeBytes, Condition::SomeCount);
    let (value, success) = (Condition::AnyValue, Condition::Success);
    match call {
        CallRef::Read(_, _) => push_some_node(
            alloc,
            list,
            paths,
            tree,
            pid,
            bytes,
            NodeWord::Read,
            file,
        ),
        CallRef::Write(_, _) => push_some_node(
            alloc,
            list,
            paths,
            tree,
            pid,
            count,
            NodeWord::Write,
            file,
        ),
        CallRef::Ftruncate(_, _) => {
            push_some_node(alloc, list, paths, tree, pid, value, NodeWord::Write, file)
        }
        CallRef::Lseek(_, _, _) | CallRef::Fstat(_) | CallRef::Fchdir(_) | CallRef::Getdents(_) => {
            push_some_node(
                alloc,
                list,
                paths,
                tree,
                pid,
                success,
                NodeWord::Report,
                file,
            )
        }
        CallRef::Execve(_) => push_execve(alloc, list, paths, tree, pid, ends),
        CallRef::Open(_, flags) | CallRef::OpenAt(_, _, flags) => {
            push_open(alloc, list, paths, tree, pid, flags, ends)
        }
        CallRef::Stat(_) | CallRef::Lstat(_) | CallRef::Readlink(_) | CallRef::Chdir(_) => {
            push_nodes(
                alloc,
                list,
                paths,
                tree,
                pid,
                success,
                NodeWord::Report,
                ends,
            )
        }
        CallRef::Mkdir(_) | CallRef::Symlink(_, _) | CallRef::Link(_, _) => {
            push_names(alloc, list, paths, tree, pid, true, ends)
        }
        CallRef::Unlink(_) | CallRef::Rmdir(_) | CallRef::Rename(_, _) => {
            push_names(alloc, list, paths, tree, pid, false, ends)
        }
        _ => Ok(()),
    }
}

/// Returns the accesses that a call of a live process may have, but for a new descriptor, in the order of their lines.
///
/// # Errors
///
/// `AllocError`, if there is no memory.
pub(crate) fn candidates_of(
    alloc: Global,
    paths: &FirstPaths<'_>,
    parts: &Parts,
    pid: u32,
    call: CallRef<'_>,
) -> Result<Vec<Candidate>, AllocError>
    requires whole { IsValid parts.now }
    requires live { IsSome (process_at parts.now pid) }
    ensures { IfOk result (λ list. (p : Process) → process_at parts.now pid ≡ Some p → all_prepared list.items ≡ with_texts (files_given paths.now) (first_tree paths.now) parts.now.tree pid (candidates parts.now pid p (call_of call.entry))) }
{
    let mut list = Vec::new(alloc);
    let file = file_of(parts, pid, call);
    let ends = ends_of(parts, pid, call);
    let tree = parts.tree();
    push_call(alloc, &mut list, paths, tree, pid, call, file, &ends)?;
    Ok(list)
}
