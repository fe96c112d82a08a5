//! The law of the part of a state on which a step depends.

ghost use Rattle.pv_laws_steps.specs.Seen.{StepsBySeen};

/// Noninterference with all other processes at once: let two valid states agree on the tree, the open files, the last
/// number, the stepping process, and every other process's number, parent and references. A step then has the same
/// outcome in both. The results agree on the same parts; every other process keeps the rest of its state.
pub fn steps_by_seen()
    ensures { StepsBySeen }
{}
