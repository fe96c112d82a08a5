//! Laws of steps and runs.

ghost use Rattle.pv_laws_states.specs.Steps.{RunsConcatenate, IgnoresOthers};

/// A run over the concatenation of two lists of process numbers is the run over the first, followed by the run over the
/// second.
pub fn runs_join()
    ensures { RunsConcatenate }
{}

/// Noninterference of lines: the lines of a step do not depend on the registers and the buffers of other processes.
pub fn ignores_others()
    ensures { IgnoresOthers }
{}
