//! The file of a call's descriptor, and the places that its walks find.
ghost use Rattle.std.specs.Prelude.{◌≡◌, IsSome, Some, option_map, option_to_list};
ghost use Rattle.pv_laws_states.specs.States.{IsValid};
ghost use Rattle.pv_model.specs.Machine.{node_of_descriptor, call_of, open_file, Process, process_at};
ghost use Rattle.pv_access.specs.Candidates.{list_of_two, places_begun};

use pv_model::{CallRef, Place, Walks};
use pv_reduced::calls_path::ends::end_of;
use pv_reduced::calls_plain::descriptors::open_file;
use pv_reduced::calls_state::Parts;

/// Returns the node of a descriptor of a live process, if the descriptor is open.
pub(crate) fn node_at_descriptor(parts: &Parts, pid: u32, d: i32) -> Option<u16>
    requires whole { IsValid parts.now }
    requires live { IsSome (process_at parts.now pid) }
    ensures { (p : Process) → process_at parts.now pid ≡ Some p → result ≡ option_map (λ file. file.1.node) (open_file parts.now p d) }
{
    match open_file(parts, pid, d) {
        Some(file) => Some(parts.files().node(file)),
        None => None,
    }
}

/// Returns the node of the descriptor that a live process's call uses, if the descriptor is open.
pub(crate) fn file_of(parts: &Parts, pid: u32, call: CallRef<'_>) -> Option<u16>
    requires whole { IsValid parts.now }
    requires live { IsSome (process_at parts.now pid) }
    ensures { (p : Process) → process_at parts.now pid ≡ Some p → option_to_list result ≡ node_of_descriptor parts.now p (call_of call.entry) }
{
    match call {
        CallRef::Read(d, _)
        | CallRef::Write(d, _)
        | CallRef::Lseek(d, _, _)
        | CallRef::Fstat(d)
        | CallRef::Ftruncate(d, _)
        | CallRef::Getdents(d)
        | CallRef::Fchdir(d) => node_at_descriptor(parts, pid, d),
        _ => None,
    }
}

/// The places that the walks of a call find.
#[derive(Drop)]
pub(crate) struct Ends {
    /// The place of the first walk.
    pub(crate) first: Option<Place>,
    /// The place of the second walk.
    pub(crate) second: Option<Place>,
}

/// Returns the places that the walks of a live process's call find in the current state.
pub(crate) fn ends_of(parts: &Parts, pid: u32, call: CallRef<'_>) -> Ends
    requires whole { IsValid parts.now }
    requires live { IsSome (process_at parts.now pid) }
    ensures { (p : Process) → process_at parts.now pid ≡ Some p → list_of_two result.first result.second ≡ places_begun parts.now pid p (call_of call.entry) }
{
    match call.walks() {
        Walks::Zero => Ends {
            first: None,
            second: None,
        },
        Walks::One(walk) => Ends {
            first: end_of(parts, pid, walk),
            second: None,
        },
        Walks::Two(first, second) => Ends {
            first: end_of(parts, pid, first),
            second: end_of(parts, pid, second),
        },
    }
}
