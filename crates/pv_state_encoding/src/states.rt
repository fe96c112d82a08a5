//! States.
ghost use Rattle.std.specs.Prelude.{◌≡◌, ◌++◌, ◌∷◌, [], length, map, IfOk, OnOk};
ghost use Rattle.pv_state_encoding.specs.Groups.{counts_part, files_part, groups_of, parts_of, state_groups, tree_part};
ghost use Rattle.pv_state_encoding.specs.Encoded.{counts_group, encoded, encoded_all, encoded_of, plain, tree_groups};

use crate::encoded::{EncodedGroup, push_encoded_processes, push_plain};
use crate::files::part_of_files;
use crate::numbers::push_number;
use crate::parts::{push_group, push_part};
use crate::processes::{count, push_process_groups};
use crate::trees::{group_of_nodes, part_of_sizes};
use pv_answers::calls_state::Parts;
use pv_answers::procs::Processes;
use std::alloc::{AllocError, Global};

// Returns the group of the last process number given and the number of processes.
#[tactic(auto, using(crate::proofs::AppendedNumbers::added_then, crate::proofs::StateGroups::added_whole))]
fn group_of_counts(
    alloc: Global,
    processes: &Processes,
    last: u32,
) -> Result<Vec<Vec<u8>>, AllocError>
    ensures { IfOk result (λ group. parts_of group ≡ counts_part last (length processes.now.processes) ∷ []) }
{
    let mut part = Vec::new(alloc);
    push_number(&mut part, u64::from(last))?;
    push_number(&mut part, count(processes))?;
    let mut group = Vec::new(alloc);
    push_part(&mut group, part)?;
    Ok(group)
}

// Returns the group of the open files and of the tree's sizes.
fn group_of_files(alloc: Global, parts: &Parts) -> Result<Vec<Vec<u8>>, AllocError>
    ensures { IfOk result (λ group. parts_of group ≡ files_part parts.now.files ∷ tree_part parts.now.tree ∷ []) }
{
    let mut group = Vec::new(alloc);
    push_part(&mut group, part_of_files(alloc, parts.files())?)?;
    push_part(&mut group, part_of_sizes(alloc, parts.tree())?)?;
    Ok(group)
}

/// Returns the encoding of a state as groups of parts. Two states are equal if and only if their groups are equal. A
/// program, a buffer or a node is a part of its own, because many states share it. `last` is the last process number
/// that the state has given.
///
/// # Errors
///
/// `AllocError`, if there is no memory.
#[tactic(auto, unfolding(crate::specs::Groups::state_groups))]
pub fn state_groups(
    alloc: Global,
    parts: &Parts,
    last: u32,
) -> Result<Vec<Vec<Vec<u8>>>, AllocError>
    requires { last ≡ parts.now.last_process }
    ensures { IfOk result (λ groups. groups_of groups.items ≡ state_groups parts.now) }
{
    let mut groups = Vec::new(alloc);
    push_group(
        &mut groups,
        group_of_counts(alloc, parts.processes(), last)?,
    )?;
    push_process_groups(alloc, &mut groups, parts.processes())?;
    push_group(&mut groups, group_of_files(alloc, parts)?)?;
    push_group(&mut groups, group_of_nodes(alloc, parts.tree())?)?;
    Ok(groups)
}

// Appends the groups of a state's open files and tree.
fn push_trees(
    alloc: Global,
    encoded: &mut Vec<EncodedGroup>,
    parts: &Parts,
) -> Result<(), AllocError>
    ensures { OnOk result (encoded_all encoded.new.items ≡ encoded_all encoded.old.items ++ map plain (tree_groups parts.now)) }
{
    push_plain(encoded, group_of_files(alloc, parts)?)?;
    push_plain(encoded, group_of_nodes(alloc, parts.tree())?)
}

/// Returns the encoding of a state as groups of parts, each with its owner and, for a live process, its outside view.
/// `last` is the last process number that the state has given.
///
/// # Errors
///
/// `AllocError`, if there is no memory.
pub fn encoded_state(
    alloc: Global,
    parts: &Parts,
    last: u32,
) -> Result<Vec<EncodedGroup>, AllocError>
    requires { last ≡ parts.now.last_process }
    ensures { IfOk result (λ groups. encoded_all groups.items ≡ encoded parts.now) }
{
    let mut encoded = Vec::new(alloc);
    push_plain(
        &mut encoded,
        group_of_counts(alloc, parts.processes(), last)?,
    )?;
    push_encoded_processes(alloc, &mut encoded, parts.processes())?;
    push_trees(alloc, &mut encoded, parts)?;
    Ok(encoded)
}

/// Returns the group of a state's counts: the last process number given, which is `last`, and the number of processes.
///
/// # Errors
///
/// `AllocError`, if there is no memory.
pub fn encoded_counts(alloc: Global, parts: &Parts, last: u32) -> Result<EncodedGroup, AllocError>
    requires { last ≡ parts.now.last_process }
    ensures { IfOk result (λ group. encoded_of group ≡ plain (counts_group parts.now)) }
{
    Ok(EncodedGroup::Plain(group_of_counts(alloc, parts.processes(), last)?))
}

/// Returns the groups of a state's open files and tree.
///
/// # Errors
///
/// `AllocError`, if there is no memory.
pub fn encoded_trees(alloc: Global, parts: &Parts) -> Result<Vec<EncodedGroup>, AllocError>
    ensures { IfOk result (λ groups. encoded_all groups.items ≡ map plain (tree_groups parts.now)) }
{
    let mut groups = Vec::new(alloc);
    push_trees(alloc, &mut groups, parts)?;
    Ok(groups)
}
