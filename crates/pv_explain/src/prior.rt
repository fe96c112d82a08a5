//! The part of the state before a call that the added lines need.
ghost use Rattle.std.specs.Prelude.{◌≡◌, IsSome, Some};
ghost use Rattle.pv_explain.specs.Added.{IsPrior};
ghost use Rattle.pv_laws_states.specs.States.{IsValid};
ghost use Rattle.pv_model.specs.Machine.{call_of, Process, process_at};

use crate::allowed::AllowedWalks;
use crate::extra::Extra;
use crate::restraints::Restraints;
use pv_model::CallRef;
use pv_step_lines::calls_state::Parts;

/// The part of the state before a call that the lines added to it need, and that the call may change.
#[derive(Drop)]
pub(crate) struct Prior {
    /// The restraints of the process.
    pub(crate) restraints: Restraints,
    /// The walks of the call that are allowed, if they are requested.
    pub(crate) walks: AllowedWalks,
}

impl Prior {
    /// Captures the state before the next call of a live process.
    pub(crate) fn of(parts: &Parts, pid: u32, call: CallRef<'_>, extra: Extra) -> Prior
        requires whole { IsValid parts.now }
        requires live { IsSome (process_at parts.now pid) }
        ensures { (p : Process) → process_at parts.now pid ≡ Some p → IsPrior extra.allowed parts.now pid p (call_of call.entry) result }
    {
        Prior {
            restraints: Restraints::of(parts.record(pid)),
            walks: AllowedWalks::before(parts, pid, call, extra.allowed),
        }
    }
}
