//! Groups of a state, with the processes that own them.
ghost use Rattle.std.specs.Prelude.{◌≡◌, ◌∷◌, ◌++◌, [], map, IsSome, IfOk, OnOk};
ghost use Rattle.std.specs.FinMap.Entries.{find};
ghost use Rattle.std.specs.Ordering.{nat_cmp};
ghost use Rattle.pv_answers.specs.OfProcs.ProcessTable.{process_in};
ghost use Rattle.pv_state_encoding.specs.Groups.{parts_of};
ghost use Rattle.pv_state_encoding.specs.Encoded.{live_encoded, numbered_encoded, plain, encoded_all, encoded_of, encoded_record};

use crate::outsides::outside_of_live;
use crate::processes::{group_live, group_of_process};
use pv_answers::procs::Processes;
use std::alloc::{AllocError, Global};

/// A group of a state.
#[derive(Drop)]
pub enum EncodedGroup {
    /// A group that belongs to no live process.
    Plain(Vec<Vec<u8>>),
    /// The group of a live process: its number, the group, and the outside view, that is, the part of the process on
    /// which the steps of other processes depend.
    Live(u32, Vec<Vec<u8>>, Vec<Vec<u8>>),
}

// Returns the group of a live process.
fn encoded_live(alloc: Global, processes: &Processes, pid: u32) -> Result<EncodedGroup, AllocError>
    requires { IsSome (process_in processes.now pid) }
    ensures { IfOk result (λ group. encoded_of group ≡ live_encoded pid (process_in processes.now pid)) }
{
    let outside = outside_of_live(alloc, processes, pid)?;
    let group = group_live(alloc, processes, pid)?;
    Ok(EncodedGroup::Live(pid, group, outside))
}

/// Returns the group of a process, with its outside view if it is live. It is empty if there is no such process.
///
/// # Errors
///
/// `AllocError`, if there is no memory.
pub fn encoded_process(
    alloc: Global,
    processes: &Processes,
    pid: u32,
) -> Result<EncodedGroup, AllocError>
    ensures { IfOk result (λ group. encoded_of group ≡ numbered_encoded pid (find nat_cmp pid processes.now.processes)) }
{
    if processes.live(pid) {
        return encoded_live(alloc, processes, pid);
    }
    Ok(EncodedGroup::Plain(group_of_process(alloc, processes, pid)?))
}

// Appends a group.
fn push_encoded(encoded: &mut Vec<EncodedGroup>, group: EncodedGroup) -> Result<(), AllocError>
    ensures { OnOk result (encoded_all encoded.new.items ≡ encoded_all encoded.old.items ++ encoded_of group ∷ []) }
{
    encoded.push(group)?;
    Ok(())
}

/// Appends a group that belongs to no live process.
///
/// # Errors
///
/// `AllocError`, if there is no memory.
pub(crate) fn push_plain(
    encoded: &mut Vec<EncodedGroup>,
    group: Vec<Vec<u8>>,
) -> Result<(), AllocError>
    ensures { OnOk result (encoded_all encoded.new.items ≡ encoded_all encoded.old.items ++ plain (parts_of group) ∷ []) }
{
    push_encoded(encoded, EncodedGroup::Plain(group))
}

/// Appends the groups of all processes, by process number.
///
/// # Errors
///
/// `AllocError`, if there is no memory.
pub(crate) fn push_encoded_processes(
    alloc: Global,
    encoded: &mut Vec<EncodedGroup>,
    processes: &Processes,
) -> Result<(), AllocError>
    ensures { OnOk result (encoded_all encoded.new.items ≡ encoded_all encoded.old.items ++ map encoded_record processes.now.processes) }
{
    processes.invariant();
    let mut last = 0;
    while let Some(pid) = processes.next_number(last) {
        push_encoded(encoded, encoded_process(alloc, processes, pid)?)?;
        last = pid;
    }
    Ok(())
}
