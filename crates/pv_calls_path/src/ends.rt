//! The ends of a call's walks, without the unveil check.
ghost use Rattle.std.specs.Prelude.{◌≡◌, ℕ, ◌≤◌, IsSome, Some};
ghost use Rattle.pv_laws_states.specs.States.{IsValid};
ghost use Rattle.pv_model.specs.declared.call.Call.{Call};
ghost use Rattle.pv_model.specs.Machine.{answer, call_of, walk_of, end_of as end_by_definition, program_of, Process, State, process_at, place_found, Walk as DefinedWalk, walk_number, walks_of};
ghost use Rattle.pv_calls_path.specs.Ends.{end_begun, end_of_some};

use crate::opening::start_of;
use pv_calls_plain::calls_state::Parts;
use pv_model::{CallRef, Place, Walk, Walks};
use pv_namei::{PlainLookup, resolve};

/// Returns the place at which a walk of a live process ends in the current state. The place is not checked against the
/// unveil table.
///
/// Returns `None` if the walk fails, or if a relative path starts at a descriptor that is not open or does not refer to
/// a directory.
pub fn end_of(parts: &Parts, pid: u32, walk: Walk<'_>) -> Option<Place>
    requires whole { IsValid parts.now }
    requires live { IsSome (process_at parts.now pid) }
    ensures { (me : Process) → process_at parts.now pid ≡ Some me
        → result ≡ end_begun parts.now pid me (walk_of walk.entry) }
{
    let Ok(start) = start_of(parts, pid, walk.start, walk.path) else {
        return None;
    };
    let path = walk.path.as_slice();
    resolve(parts.tree(), &mut PlainLookup, start, path, walk.follow).ok()
}

/// Returns the place at which walk `number` of a call ends, counted from 1, as `end_of` does.
///
/// Also returns `None` if the call has no such walk.
pub fn end_of_walk(parts: &Parts, pid: u32, call: CallRef<'_>, number: u8) -> Option<Place>
    requires whole { IsValid parts.now }
    requires live { IsSome (process_at parts.now pid) }
    ensures { (me : Process) → process_at parts.now pid ≡ Some me
        → result ≡ end_of_some parts.now pid me
        (walk_number (walks_of (call_of call.entry)) number) }
{
    match (call.walks(), number) {
        (Walks::One(first) | Walks::Two(first, _), 1) => end_of(parts, pid, first),
        (Walks::Two(_, second), 2) => end_of(parts, pid, second),
        _ => None,
    }
}

/// States that `end_of` and `end_of_walk`, applied to the state before a call, are right for each walk that the call
/// began: they return the place to which the walk of the definitions leads, or `None` if it leads to none.
pub fn begun_ends()
    ensures { (s : State) (pid : ℕ) (me : Process) (call : Call) (number : ℕ) (walk : DefinedWalk)
        → process_at s pid ≡ Some me
        → walk_number (walks_of call) number ≡ Some walk
        → number ≤ (answer program_of s pid call).walks
        → end_begun s pid me walk ≡ place_found (end_by_definition s me walk) }
{}
