//! Laws of valid states. A state is valid if it satisfies `IsValid`, the invariant of all states of a run.

ghost use Rattle.pv_laws_states.specs.States.{FirstIsValid, CallPreservesValidity, StepPreservesValidity, RunPreservesValidity};

/// The first state of a tree whose nodes all have names, with a valid program, is valid.
pub fn first_is_whole()
    ensures { FirstIsValid }
{}

/// Each call preserves validity.
pub fn call_keeps_whole()
    ensures { CallPreservesValidity }
{}

/// Each step preserves validity.
pub fn step_keeps_whole()
    ensures { StepPreservesValidity }
{}

/// Each state that a run reaches from a valid state is valid.
pub fn run_keeps_whole()
    ensures { RunPreservesValidity }
{}
