//! The end of a process.
ghost use Rattle.std.specs.Prelude.{◌≡◌, ◌+◌, ◌≤◌, length, map, filter, vec_len, vec_capacity};
ghost use Rattle.pv_procs.specs.Slots.{adopted, is_claimed};

use crate::slot::ProcessSlot;

// Makes a child of process `old` a child of process `new`.
fn adopt(slot: &mut ProcessSlot, old: u32, new: u32)
    ensures { slot.new ≡ adopted old new slot.old }
{
    if slot.parent == old {
        slot.parent = new;
    }
}

// Makes the children of process `old` children of process `new`.
fn adopt_orphans(slots: &mut [ProcessSlot], old: u32, new: u32)
    ensures { slots.new ≡ map (adopted old new) slots.old }
{
    for k in 0..slots.len() {
        adopt(&mut slots[k], old, new);
    }
}

// Returns whether the process in a slot is live or has a parent that can wait for it.
fn is_claimed(slot: &ProcessSlot) -> bool
    ensures { result ≡ is_claimed slot.now }
{
    slot.status.is_none() || slot.parent != 0
}

// Moves the slots that no process can wait for to the spare ones.
fn spare_unclaimed(slots: &mut Vec<ProcessSlot>, spare: &mut Vec<ProcessSlot>)
    requires { vec_len slots.old + vec_len spare.old ≤ vec_capacity spare.old }
    ensures slots { slots.new.items ≡ filter is_claimed slots.old.items }
    ensures all { vec_len slots.new + vec_len spare.new ≡ vec_len slots.old + vec_len spare.old }
    ensures room { vec_capacity slots.new ≡ vec_capacity slots.old }
    ensures spare_room { vec_capacity spare.new ≡ vec_capacity spare.old }
{
    for k in (0..slots.len()).rev() {
        if !is_claimed(&slots[k]) {
            spare.push_reserved(slots.remove(k));
        }
    }
}

/// Makes the children of process `old` children of process `new`, and moves the slots that no process can wait for to
/// the spare ones.
pub(crate) fn settle(slots: &mut Vec<ProcessSlot>, spare: &mut Vec<ProcessSlot>, old: u32, new: u32)
    requires { vec_len slots.old + vec_len spare.old ≤ vec_capacity spare.old }
    ensures slots { slots.new.items ≡ filter is_claimed (map (adopted old new) slots.old.items) }
    ensures all { vec_len slots.new + vec_len spare.new ≡ vec_len slots.old + vec_len spare.old }
    ensures room { vec_capacity slots.new ≡ vec_capacity slots.old }
    ensures spare_room { vec_capacity spare.new ≡ vec_capacity spare.old }
{
    adopt_orphans(slots, old, new);
    spare_unclaimed(slots, spare);
}
