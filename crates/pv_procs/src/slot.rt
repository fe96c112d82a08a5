//! A slot for a process.
ghost use Rattle.std.specs.Prelude.{◌≡◌, ◌+◌, ◌-◌, ◌<◌, ◌≤◌, ◌==◌, nat_lt, min, length, true, find as first_where, List, option_map, position, is_some, IsSome, IfSome, Some, None, IfOk, vec_len, vec_capacity, if◌then◌else◌};
ghost use Rattle.std.specs.FinMap.Entries.{find};
ghost use Rattle.std.specs.Ordering.{nat_cmp};
ghost use Rattle.pv_model.specs.Machine.{live_process};
ghost use Rattle.pv_procs.specs.declared.shared.Shared.{Shared};
ghost use Rattle.pv_procs.specs.Children.{child_slot};
ghost use Rattle.pv_procs.specs.Parts.{first_record};
ghost use Rattle.std.specs.List.{list_any, HoldsAt};
ghost use Rattle.pv_procs.specs.Slots.{is_ended_child, ascends, slot_records};

use crate::record::Stored;
use pv_model::limits::PROCESSES;
use std::alloc::{AllocError, Global};

/// A process that is live, or a zombie.
#[derive(Drop)]
pub(crate) struct ProcessSlot {
    /// Its number.
    pub(crate) number: u32,
    /// The number of its parent, or 0 if it has none.
    pub(crate) parent: u32,
    /// Its exit status, if it has ended.
    pub(crate) status: Option<u32>,
    /// The slot of its program.
    pub(crate) program: usize,
    /// Its record, which is in use while it is live.
    pub(crate) record: Stored,
}

/// Creates a slot with the record of a process before its first step.
pub(crate) fn blank(alloc: Global, number: u32) -> Result<ProcessSlot, AllocError>
    ensures { IfOk result (λ slot. slot ≡ record { number = number; parent = 0; status = None; program = 0; «record» = first_record }) }
{
    Ok(ProcessSlot {
        number,
        parent: 0,
        status: None,
        program: 0,
        record: Stored::new(alloc)?,
    })
}

/// Creates the slots of all processes but one, in a vector with room for that one.
pub(crate) fn spare_slots(alloc: Global) -> Result<Vec<ProcessSlot>, AllocError>
    ensures count { IfOk result (λ spare. vec_len spare ≡ PROCESSES - 1) }
    ensures room { IfOk result (λ spare. vec_capacity spare ≡ PROCESSES) }
{
    let mut spare = Vec::with_capacity(alloc, PROCESSES)?;
    for _slot in 0..PROCESSES - 1 {
        spare.push_reserved(blank(alloc, 0)?);
    }
    Ok(spare)
}

/// Makes a spare slot that of a child with this number. The child receives 0 as the result of fork(2).
pub(crate) fn make_child(slot: &mut ProcessSlot, number: u32, parent: &ProcessSlot)
    ensures { slot.new ≡ child_slot number parent.now }
{
    slot.number = number;
    slot.parent = parent.number;
    slot.status = None;
    slot.program = parent.program;
    let owned = slot.record.get_mut();
    owned.copy_from(parent.record.get());
    owned.context.report(0, 0);
}

// Makes a slot equal to another one.
fn copy_slot(slot: &mut ProcessSlot, other: &ProcessSlot)
    ensures { slot.new ≡ other.now }
{
    slot.number = other.number;
    slot.parent = other.parent;
    slot.status = other.status;
    slot.program = other.program;
    let owned = slot.record.get_mut();
    owned.copy_from(other.record.get());
}

/// Makes slots equal to others.
pub(crate) fn copy_slots(slots: &mut [ProcessSlot], others: &[ProcessSlot])
    requires { length slots.old ≡ length others.now }
    ensures { slots.new ≡ others.now }
{
    for k in 0..others.len() {
        copy_slot(&mut slots[k], &others[k]);
    }
}

// Moves the last slot of a vector to the end of another one.
fn move_last(from: &mut Vec<ProcessSlot>, to: &mut Vec<ProcessSlot>)
    requires there { 0 < vec_len from.old }
    requires room { vec_len to.old < vec_capacity to.old }
    ensures fewer { vec_len from.new + 1 ≡ vec_len from.old }
    ensures more { vec_len to.new ≡ vec_len to.old + 1 }
    ensures from_capacity { vec_capacity from.new ≡ vec_capacity from.old }
    ensures to_capacity { vec_capacity to.new ≡ vec_capacity to.old }
{
    let Some(slot) = from.pop() else {
        unreachable!()
    };
    to.push_reserved(slot);
}

// Moves slots from the end of a vector to another one, until at most `count` are left.
fn move_beyond(from: &mut Vec<ProcessSlot>, to: &mut Vec<ProcessSlot>, count: usize)
    requires { vec_len from.old + vec_len to.old ≤ vec_capacity to.old }
    ensures left { vec_len from.new ≡ min (vec_len from.old) count }
    ensures all { vec_len from.new + vec_len to.new ≡ vec_len from.old + vec_len to.old }
    ensures from_capacity { vec_capacity from.new ≡ vec_capacity from.old }
    ensures to_capacity { vec_capacity to.new ≡ vec_capacity to.old }
{
    for _slot in count..from.len() {
        move_last(from, to);
    }
}

/// Moves slots between those in use and the spare ones, until `count` are in use.
pub(crate) fn use_slots(slots: &mut Vec<ProcessSlot>, spare: &mut Vec<ProcessSlot>, count: usize)
    requires enough { count ≤ vec_len slots.old + vec_len spare.old }
    requires room { vec_len slots.old + vec_len spare.old ≤ vec_capacity slots.old }
    requires spare_room { vec_len slots.old + vec_len spare.old ≤ vec_capacity spare.old }
    ensures used { vec_len slots.new ≡ count }
    ensures all { vec_len slots.new + vec_len spare.new ≡ vec_len slots.old + vec_len spare.old }
    ensures capacity { vec_capacity slots.new ≡ vec_capacity slots.old }
    ensures spare_capacity { vec_capacity spare.new ≡ vec_capacity spare.old }
{
    let unused = slots.len() + spare.len() - count;
    move_beyond(slots, spare, count);
    move_beyond(spare, slots, unused);
}

// Returns whether slot `k` is that of a process.
fn appears_at(slots: &[ProcessSlot], k: usize, pid: u32) -> bool
    requires { ascends slots.now ≡ true }
    ensures { result ≡ true → Some k ≡ position (λ slot. slot.number == pid) slots.now }
{
    if k >= slots.len() {
        return false;
    }
    let slot = &slots[k];
    slot.number == pid
}

// Returns the index of a process's slot, if no process with a greater number has been removed.
fn from_the_end(slots: &[ProcessSlot], pid: u32) -> usize {
    let last = match slots.last() {
        Some(last) => last.number,
        None => 0,
    };
    let following = last.saturating_sub(pid) as usize;
    slots.len().saturating_sub(following).saturating_sub(1)
}

// Returns the index of a process's slot. Slots are in ascending order of their numbers. The search first tries the
// index that the slot has if no process with a smaller number has been removed, then the one that it has if no process
// with a greater number has been removed.
pub(crate) fn index_of(slots: &[ProcessSlot], pid: u32) -> Option<usize>
    requires { ascends slots.now ≡ true }
    ensures { result ≡ position (λ slot. slot.number == pid) slots.now }
{
    let guess = (pid as usize).saturating_sub(1);
    if appears_at(slots, guess, pid) {
        return Some(guess);
    }
    let guess = from_the_end(slots, pid);
    if appears_at(slots, guess, pid) {
        return Some(guess);
    }
    match slots.binary_search_by_key(&pid, |slot| slot.number) {
        Ok(k) => Some(k),
        Err(_) => None,
    }
}

/// Returns the first number of a slot that is greater than `last`.
pub(crate) fn number_after(slots: &[ProcessSlot], last: u32) -> Option<u32>
    ensures { result ≡ option_map (λ slot. slot.number) (first_where (λ slot. nat_lt last slot.number) slots.now) }
{
    let slot = slots.iter().find(|slot| slot.number > last)?;
    Some(slot.number)
}

/// Returns the parent and the exit status of a zombie.
pub(crate) fn left_of(slot: &ProcessSlot) -> Option<(u32, u32)>
    ensures { result ≡ option_map (λ status. (slot.now.parent, status)) slot.now.status }
{
    match slot.status {
        Some(status) => Some((slot.parent, status)),
        None => None,
    }
}

// Returns the index of the slot of a process that has one.
pub(crate) fn live_index(slots: &[ProcessSlot], pid: u32) -> usize
    requires ascends { ascends slots.now ≡ true }
    requires there { IsSome (position (λ slot. slot.number == pid) slots.now) }
    ensures { position (λ slot. slot.number == pid) slots.now ≡ Some result }
{
    match index_of(slots, pid) {
        Some(k) => k,
        None => unreachable!(),
    }
}

// Returns the index of the first slot of an ended child of a process.
pub(crate) fn ended_child_of(slots: &[ProcessSlot], pid: u32) -> Option<usize>
    ensures { result ≡ position (λ slot. is_ended_child pid slot) slots.now }
{
    slots
        .iter()
        .position(|slot| slot.parent == pid && slot.status.is_some())
}

// Returns whether a process is live.
pub(crate) fn is_live(slots: &[ProcessSlot], pid: u32) -> bool
    requires { ascends slots.now ≡ true }
    ensures { (programs : List Shared) → result ≡ is_some (live_process (find nat_cmp pid (slot_records programs slots.now))) }
{
    match index_of(slots, pid) {
        Some(k) => slots[k].status.is_none(),
        None => false,
    }
}

// Returns the index of the slot of a live process.
pub(crate) fn index_of_live(slots: &[ProcessSlot], pid: u32) -> Option<usize>
    requires { ascends slots.now ≡ true }
    ensures slot { IfSome result (λ k. position (λ slot. slot.number == pid) slots.now ≡ Some k) }
    ensures live { IfSome result (λ k. HoldsAt (λ slot. slot.status ≡ None) slots.now k) }
    ensures none { result ≡ None → (programs : List Shared) → live_process (find nat_cmp pid (slot_records programs slots.now)) ≡ None }
{
    let k = index_of(slots, pid)?;
    let slot = &slots[k];
    match slot.status {
        None => Some(k),
        Some(_) => None,
    }
}

// Returns the process that adopts orphans: process 1 while it is live, otherwise 0 for none.
pub(crate) fn adopter(slots: &[ProcessSlot]) -> u32
    requires { ascends slots.now ≡ true }
    ensures { (programs : List Shared) → result
        ≡ (if is_some (live_process (find nat_cmp 1 (slot_records programs slots.now))) then 1 else 0) }
{
    if is_live(slots, 1) { 1 } else { 0 }
}

// Returns whether a process has a child.
pub(crate) fn has_child(slots: &[ProcessSlot], pid: u32) -> bool
    ensures { result ≡ list_any (λ slot. slot.parent == pid) slots.now }
{
    slots.iter().any(|slot| slot.parent == pid)
}

// Returns whether a process has a child that has ended.
pub(crate) fn has_ended_child(slots: &[ProcessSlot], pid: u32) -> bool
    ensures { result ≡ list_any (λ slot. is_ended_child pid slot) slots.now }
{
    slots
        .iter()
        .any(|slot| slot.parent == pid && slot.status.is_some())
}
