//! The outside view of a process: the part on which the steps of other processes depend.
ghost use Rattle.std.specs.Prelude.{◌≡◌, ◌∷◌, [], IsSome, IfOk, OnOk};
ghost use Rattle.pv_answers.specs.OfProcs.ProcessTable.{process_in};
ghost use Rattle.pv_state_encoding.specs.Groups.{parts_of};
ghost use Rattle.pv_state_encoding.specs.Packed.{IsAdded, packed_all};
ghost use Rattle.pv_state_encoding.specs.Encoded.{bare_numbers, live_outside, outside_numbers, outside_parts};

use crate::numbers::push_number;
use crate::parts::push_part;
use crate::processes::{push_descriptors, push_table};
use pv_answers::procs::{ProcessRecord, Processes};
use std::alloc::{AllocError, Global};

// Appends three zeros in place of the omitted fields.
#[tactic(auto, using(crate::proofs::AppendedNumbers::added_then))]
fn push_nothing(key: &mut Vec<u8>) -> Result<(), AllocError>
    ensures { OnOk result (IsAdded (0 ∷ 0 ∷ 0 ∷ []) key.old.items key.new.items) }
{
    push_number(key, 0)?;
    push_number(key, 0)?;
    push_number(key, 0)
}

// Appends the number of a process, its parent and its directory.
#[tactic(auto, using(crate::proofs::AppendedNumbers::added_then, crate::proofs::AppendedNumbers::added_both))]
fn push_bare(key: &mut Vec<u8>, pid: u32, parent: u32, directory: u16) -> Result<(), AllocError>
    ensures { OnOk result (IsAdded (bare_numbers pid parent directory) key.old.items key.new.items) }
{
    push_number(key, u64::from(pid))?;
    push_nothing(key)?;
    push_number(key, u64::from(parent))?;
    push_number(key, u64::from(directory))?;
    push_nothing(key)
}

// Appends the same, then the descriptors and the table.
#[tactic(auto, using(crate::proofs::AppendedNumbers::added_both))]
fn push_outside(
    key: &mut Vec<u8>,
    pid: u32,
    owned: &ProcessRecord,
    parent: u32,
) -> Result<(), AllocError>
    ensures { OnOk result (IsAdded (outside_numbers pid owned.now parent) key.old.items key.new.items) }
{
    push_bare(key, pid, parent, owned.directory)?;
    push_descriptors(key, &owned.descriptors)?;
    push_table(key, &owned.unveiled)
}

// Returns the part of the outside view.
#[tactic(auto, using(crate::proofs::StateGroups::added_whole))]
fn part_outside(
    alloc: Global,
    pid: u32,
    owned: &ProcessRecord,
    parent: u32,
) -> Result<Vec<u8>, AllocError>
    ensures { IfOk result (λ part. part.items ≡ packed_all (outside_numbers pid owned.now parent)) }
{
    let mut part = Vec::new(alloc);
    push_outside(&mut part, pid, owned, parent)?;
    Ok(part)
}

// Returns an empty part, in place of the program or the buffer.
#[tactic(auto, using(crate::proofs::StateGroups::added_whole))]
fn part_of_nothing(alloc: Global) -> Result<Vec<u8>, AllocError>
    ensures { IfOk result (λ part. part.items ≡ packed_all (0 ∷ [])) }
{
    let mut part = Vec::new(alloc);
    push_number(&mut part, 0)?;
    Ok(part)
}

// Returns the group of the outside view.
fn group_outside(
    alloc: Global,
    pid: u32,
    owned: &ProcessRecord,
    parent: u32,
) -> Result<Vec<Vec<u8>>, AllocError>
    ensures { IfOk result (λ group. parts_of group ≡ outside_parts pid owned.now parent) }
{
    let mut group = Vec::new(alloc);
    push_part(&mut group, part_outside(alloc, pid, owned, parent)?)?;
    push_part(&mut group, part_of_nothing(alloc)?)?;
    push_part(&mut group, part_of_nothing(alloc)?)?;
    Ok(group)
}

/// Returns the group of a live process's outside view.
///
/// # Errors
///
/// `AllocError`, if there is no memory.
pub(crate) fn outside_of_live(
    alloc: Global,
    processes: &Processes,
    pid: u32,
) -> Result<Vec<Vec<u8>>, AllocError>
    requires { IsSome (process_in processes.now pid) }
    ensures { IfOk result (λ group. parts_of group ≡ live_outside pid (process_in processes.now pid)) }
{
    let Some(parent) = processes.parent_of(pid) else {
        unreachable!()
    };
    group_outside(alloc, pid, processes.record(pid), parent)
}
