//! Laws of runs in which one process and those that are forked from it make the steps.

ghost use Rattle.pv_laws_access.specs.OwnRuns.{ClosedRunsAreEqual, FixedRunsKeep};

/// Confidentiality of a process: let a process be closed to a file, and let only this process and those forked from it
/// make steps. If the bytes of the file are replaced by others of equal length, the run has the same text, byte for byte,
/// and its final state differs only in these bytes.
pub fn closed_runs_alike()
    ensures { ClosedRunsAreEqual }
{}

/// Integrity of a process: let a process be fixed to a file, and let only this process and those forked from it make
/// steps. Then the bytes of the file stay the same while it is there.
pub fn fixed_runs_keep()
    ensures { FixedRunsKeep }
{}
