//! Laws of the end of a process.

ghost use Rattle.pv_laws_access.specs.Ends.{ExitsLeave, KillsLeave};

/// After an exit, the process keeps its parent and its status, or nothing if nobody will wait for it. Its children
/// become those of process 1, or nobody's if process 1 has ended; ended children without a parent are removed. No entry
/// changes, and no open file is added or changed.
pub fn exits_leave()
    ensures { ExitsLeave }
{}

/// After a kill, the state is as after an exit, with status 6.
pub fn kills_leave()
    ensures { KillsLeave }
{}
