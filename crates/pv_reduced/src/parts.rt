//! The encoding of the representative of a state: dead variables are zero, and the open files have the numbers 0, 1, 2 ..
//! in the order of their first reference.
ghost use Rattle.std.specs.Prelude.{ℕ, pos, false, ◌≡◌, ◌<◌, ◌≤◌, if◌then◌else◌, ◌∷◌, ◌++◌, [], flat_map, option_map, replicate, length, slice_index_or, IsSome, Some, IfOk, OnOk};
ghost use Rattle.std.specs.FinMap.Entries.{find};
ghost use Rattle.std.specs.Ordering.{nat_cmp};
ghost use Rattle.pv_laws_classes.specs.Canonical.{index_in};
ghost use Rattle.pv_laws_classes.specs.Liveness.{cleared_buffer, cleared_registers, is_live_below};
ghost use Rattle.pv_laws_classes.specs.Renumbering.{renumbered_descriptors};
ghost use Rattle.pv_model.specs.declared.limits.TheConstants.{OPEN_FILES};
ghost use Rattle.pv_model.specs.Machine.{bytes_numbers, descriptor_numbers, file_numbers, list_numbers, option_numbers, at_number, Program as Instructions};
ghost use Rattle.pv_state_encoding.specs.OfProcs.ProcessTable.{process_in};
ghost use Rattle.pv_reduced.specs.Keys.{ordered_files, held_under, location_under, parts_under, promised_under, reduced_parts};
ghost use Rattle.pv_reduced.specs.Live.{live_line};
ghost use Rattle.pv_state_encoding.specs.Groups.{counts_part, files_part, parts_of};
ghost use Rattle.pv_state_encoding.specs.Packed.{IsAdded, packed_all};

use crate::live_tables::LiveTables;
use crate::liveness::LiveLine;
use crate::order::{index_in, references};
use pv_files::{Descriptors, OpenFiles};
use pv_model::limits::{BUFFER, DESCRIPTORS, OPEN_FILES, REGISTERS};
use pv_state_encoding::calls_state::Parts;
use pv_state_encoding::procs::{ProcessRecord, Processes};
use pv_state_encoding::{
    count, group_ended, group_of_nodes, part_of_program, part_of_sizes, push_bool, push_file,
    push_items, push_number, push_promises, push_registers, push_table,
};
use std::alloc::{AllocError, Global};

// ---- variables

// Returns the value of a register, or zero if it is dead.
fn live_value(registers: &[i32; REGISTERS], live: LiveLine, number: usize) -> i32
    requires { number < REGISTERS }
    ensures { result ≡ (if slice_index_or live.registers number false then slice_index_or registers.now number (pos 0) else pos 0) }
{
    if live.registers[number] {
        registers[number]
    } else {
        0
    }
}

// Returns the registers with zero in the dead ones.
fn live_registers(registers: &[i32; REGISTERS], live: LiveLine) -> [i32; REGISTERS]
    ensures { (program : Instructions) (line : ℕ) → live ≡ live_line program line → result ≡ cleared_registers is_live_below program line registers.now }
{
    let mut cleared = [0; REGISTERS];
    for number in 0..REGISTERS {
        cleared[number] = live_value(registers, live, number);
    }
    cleared
}

// Appends zeros, at most one for each byte of a buffer.
#[tactic(auto, using(crate::proofs::StateKeys::zeros_added))]
fn push_zeros(part: &mut Vec<u8>, count: usize) -> Result<(), AllocError>
    requires { count ≤ BUFFER }
    ensures { OnOk result (IsAdded (replicate count 0) part.old.items part.new.items) }
{
    let zeros = [0; BUFFER];
    part.extend_from_slice(&zeros[..count])?;
    Ok(())
}

// Returns the part of a buffer with zero in the dead bytes.
fn part_of_buffer(alloc: Global, buffer: &[u8], live: LiveLine) -> Result<Vec<u8>, AllocError>
    requires { length buffer.now ≡ BUFFER }
    ensures { IfOk result (λ part. (program : Instructions) (line : ℕ) → live ≡ live_line program line → part.items ≡ packed_all (bytes_numbers (cleared_buffer is_live_below program line buffer.now))) }
{
    let count = live.bytes.min(buffer.len());
    let mut part = Vec::new(alloc);
    push_number(&mut part, buffer.len() as u64)?;
    push_items(&mut part, &buffer[..count])?;
    push_zeros(&mut part, buffer.len() - count)?;
    Ok(part)
}

// ---- processes

// Returns the open file of a descriptor, if there is such a descriptor.
fn file_of(descriptors: &Descriptors, number: u8) -> Option<usize>
    ensures { result ≡ option_map (λ e. e.file) (at_number descriptors.now number) }
{
    match descriptors.at(i32::from(number)) {
        Ok(file) => Some(file),
        Err(_) => None,
    }
}

// Appends the descriptor of a number, if it is open, with the index of its open file.
#[tactic(auto, using(crate::proofs::StateKeys::added_descriptor, crate::proofs::StateKeys::added_no_descriptor))]
fn push_descriptor(
    part: &mut Vec<u8>,
    descriptors: &Descriptors,
    order: &[usize],
    number: u8,
) -> Result<(), AllocError>
    ensures { OnOk result (IsAdded (option_numbers descriptor_numbers (at_number (renumbered_descriptors (index_in order.now) descriptors.now) number)) part.old.items part.new.items) }
{
    let Some(file) = file_of(descriptors, number) else {
        return push_number(part, 0);
    };
    push_number(part, 1)?;
    push_number(part, index_in(order, file) as u64)?;
    push_bool(part, descriptors.marked(number))
}

// Appends descriptors, by their numbers.
fn push_each_descriptor(
    part: &mut Vec<u8>,
    descriptors: &Descriptors,
    order: &[usize],
) -> Result<(), AllocError>
    ensures { OnOk result (IsAdded (flat_map (option_numbers descriptor_numbers) (renumbered_descriptors (index_in order.now) descriptors.now)) part.old.items part.new.items) }
{
    descriptors.invariant();
    for number in 0..DESCRIPTORS as u8 {
        push_descriptor(part, descriptors, order, number)?;
    }
    Ok(())
}

// Appends all descriptors.
#[tactic(auto, using(pv_state_encoding::proofs::AppendedNumbers::added_then, crate::proofs::StateKeys::long_under))]
fn push_descriptors(
    part: &mut Vec<u8>,
    descriptors: &Descriptors,
    order: &[usize],
) -> Result<(), AllocError>
    ensures { OnOk result (IsAdded (list_numbers (option_numbers descriptor_numbers) (renumbered_descriptors (index_in order.now) descriptors.now)) part.old.items part.new.items) }
{
    descriptors.invariant();
    push_number(part, DESCRIPTORS as u64)?;
    push_each_descriptor(part, descriptors, order)
}

// Appends the line, the registers, the parent and the directory.
#[tactic(auto, using(pv_state_encoding::proofs::AppendedNumbers::added_both))]
fn push_location(
    part: &mut Vec<u8>,
    owned: &ProcessRecord,
    registers: &[i32],
    parent: u32,
) -> Result<(), AllocError>
    ensures { OnOk result (IsAdded (location_under registers.now owned.now parent) part.old.items part.new.items) }
{
    push_number(part, u64::from(owned.context.line()))?;
    push_registers(part, registers)?;
    push_number(part, u64::from(parent))?;
    push_number(part, u64::from(owned.directory))
}

// Appends the line, the registers, the parent, the directory, the lock and the promises.
#[tactic(auto, using(pv_state_encoding::proofs::AppendedNumbers::added_both))]
fn push_promised(
    part: &mut Vec<u8>,
    owned: &ProcessRecord,
    registers: &[i32],
    parent: u32,
) -> Result<(), AllocError>
    ensures { OnOk result (IsAdded (promised_under registers.now owned.now parent) part.old.items part.new.items) }
{
    push_location(part, owned, registers, parent)?;
    push_bool(part, owned.unveiled.is_locked())?;
    push_promises(part, owned.pledge.promises())?;
    push_promises(part, owned.pledge.execpromises())
}

// Appends the same, then the descriptors and the table.
fn push_held(
    part: &mut Vec<u8>,
    owned: &ProcessRecord,
    registers: &[i32],
    order: &[usize],
    parent: u32,
) -> Result<(), AllocError>
    ensures { OnOk result (IsAdded (held_under registers.now (index_in order.now) owned.now parent) part.old.items part.new.items) }
{
    push_promised(part, owned, registers, parent)?;
    push_descriptors(part, &owned.descriptors, order)?;
    push_table(part, &owned.unveiled)
}

// Returns the part of a live process that has neither its program nor its buffer.
#[tactic(auto, using(pv_state_encoding::proofs::AppendedNumbers::added_then, pv_state_encoding::proofs::StateGroups::added_whole))]
fn part_held(
    alloc: Global,
    pid: u32,
    owned: &ProcessRecord,
    registers: &[i32],
    order: &[usize],
    parent: u32,
) -> Result<Vec<u8>, AllocError>
    ensures { IfOk result (λ part. part.items ≡ packed_all (pid ∷ 0 ∷ held_under registers.now (index_in order.now) owned.now parent)) }
{
    let mut part = Vec::new(alloc);
    push_number(&mut part, u64::from(pid))?;
    push_number(&mut part, 0)?;
    push_held(&mut part, owned, registers, order, parent)?;
    Ok(part)
}

// Appends a part.
fn push_part(parts: &mut Vec<Vec<u8>>, part: Vec<u8>) -> Result<(), AllocError>
    ensures { OnOk result (parts_of parts.new ≡ parts_of parts.old ++ part.items ∷ []) }
{
    parts.push(part)?;
    Ok(())
}

// Appends parts.
fn push_parts(parts: &mut Vec<Vec<u8>>, more: Vec<Vec<u8>>) -> Result<(), AllocError>
    ensures { OnOk result (parts_of parts.new ≡ parts_of parts.old ++ parts_of more) }
{
    for part in more {
        push_part(parts, part)?;
    }
    Ok(())
}

// Appends the parts of a live process.
fn push_live(
    alloc: Global,
    parts: &mut Vec<Vec<u8>>,
    tables: &mut LiveTables,
    processes: &Processes,
    order: &[usize],
    pid: u32,
) -> Result<(), AllocError>
    requires { IsSome (process_in processes.now pid) }
    ensures { OnOk result (parts_of parts.new ≡ parts_of parts.old ++ parts_under (index_in order.now) pid (find nat_cmp pid processes.now.processes)) }
{
    let Some(parent) = processes.parent_of(pid) else {
        unreachable!()
    };
    let owned = processes.record(pid);
    let program = processes.program(pid);
    let part = part_of_program(alloc, program)?;
    let live = tables.live_line(alloc, &part, program, owned.context.line())?;
    let registers = live_registers(&owned.context.registers(), live);
    push_part(
        parts,
        part_held(alloc, pid, owned, &registers, order, parent)?,
    )?;
    push_part(parts, part)?;
    push_part(parts, part_of_buffer(alloc, owned.context.buffer(), live)?)
}

// Appends the parts of a process, if there is such a process.
#[tactic(auto, using(crate::proofs::StateKeys::ended_under, crate::proofs::StateKeys::nobody_under))]
fn push_process(
    alloc: Global,
    parts: &mut Vec<Vec<u8>>,
    tables: &mut LiveTables,
    processes: &Processes,
    order: &[usize],
    pid: u32,
) -> Result<(), AllocError>
    ensures { OnOk result (parts_of parts.new ≡ parts_of parts.old ++ parts_under (index_in order.now) pid (find nat_cmp pid processes.now.processes)) }
{
    if processes.live(pid) {
        return push_live(alloc, parts, tables, processes, order, pid);
    }
    match processes.ended(pid) {
        Some((parent, status)) => push_parts(parts, group_ended(alloc, pid, parent, status)?),
        None => Ok(()),
    }
}

// Appends the parts of all processes, by process number.
fn push_processes(
    alloc: Global,
    parts: &mut Vec<Vec<u8>>,
    tables: &mut LiveTables,
    processes: &Processes,
    order: &[usize],
) -> Result<(), AllocError>
    ensures { OnOk result (parts_of parts.new ≡ parts_of parts.old ++ flat_map (λ r. parts_under (index_in order.now) r.0 (Some r.1)) processes.now.processes) }
{
    processes.invariant();
    let mut last = 0;
    while let Some(pid) = processes.next_number(last) {
        push_process(alloc, parts, tables, processes, order, pid)?;
        last = pid;
    }
    Ok(())
}

// ---- open files

// Appends open files in this order.
#[tactic(auto, using(pv_state_encoding::proofs::AppendedNumbers::added_each))]
fn push_files_in_order(
    part: &mut Vec<u8>,
    files: &OpenFiles,
    order: &[usize],
) -> Result<(), AllocError>
    ensures { OnOk result (IsAdded (flat_map (λ n. option_numbers file_numbers (at_number files.now.files n)) order.now) part.old.items part.new.items) }
{
    for file in order {
        push_file(part, files, *file)?;
    }
    Ok(())
}

// Returns the part of the table of open files in this order.
fn part_of_files(alloc: Global, files: &OpenFiles, order: &[usize]) -> Result<Vec<u8>, AllocError>
    ensures { IfOk result (λ part. part.items ≡ files_part (ordered_files files.now.files order.now)) }
{
    let rest = OPEN_FILES.saturating_sub(order.len());
    let mut part = Vec::new(alloc);
    push_number(&mut part, (order.len() + rest) as u64)?;
    push_files_in_order(&mut part, files, order)?;
    push_zeros(&mut part, rest)?;
    Ok(part)
}

// ---- states

// Returns the part of a process number that must make the next step, or 0.
#[tactic(auto, using(pv_state_encoding::proofs::StateGroups::added_whole))]
fn part_of_bound(alloc: Global, bound: u32) -> Result<Vec<u8>, AllocError>
    ensures { IfOk result (λ part. part.items ≡ packed_all (bound ∷ [])) }
{
    let mut part = Vec::new(alloc);
    push_number(&mut part, u64::from(bound))?;
    Ok(part)
}

// Returns the part of the last process number given and the number of processes.
#[tactic(auto, using(pv_state_encoding::proofs::AppendedNumbers::added_then, pv_state_encoding::proofs::StateGroups::added_whole))]
fn part_of_counts(alloc: Global, processes: &Processes) -> Result<Vec<u8>, AllocError>
    ensures { IfOk result (λ part. part.items ≡ counts_part processes.now.last_process (length processes.now.processes)) }
{
    let mut part = Vec::new(alloc);
    push_number(&mut part, u64::from(processes.last_number()))?;
    push_number(&mut part, count(processes))?;
    Ok(part)
}

/// Returns the process number that must make the next step, or 0, and the encoding of the representative of a state, as
/// parts. A program, a buffer or a node is a part of its own, because many states share it.
///
/// # Errors
///
/// `AllocError`, if there is no memory.
pub(crate) fn reduced_parts(
    alloc: Global,
    tables: &mut LiveTables,
    bound: u32,
    state: &Parts,
) -> Result<Vec<Vec<u8>>, AllocError>
    ensures { IfOk result (λ parts. parts_of parts ≡ reduced_parts bound state.now) }
{
    let processes = state.processes();
    let order = references(alloc, processes)?;
    let mut parts = Vec::new(alloc);
    push_part(&mut parts, part_of_bound(alloc, bound)?)?;
    push_part(&mut parts, part_of_counts(alloc, processes)?)?;
    push_processes(alloc, &mut parts, tables, processes, &order)?;
    push_part(&mut parts, part_of_files(alloc, state.files(), &order)?)?;
    push_part(&mut parts, part_of_sizes(alloc, state.tree())?)?;
    push_parts(&mut parts, group_of_nodes(alloc, state.tree())?)?;
    Ok(parts)
}
