//! Laws of system calls.

ghost use Rattle.pv_laws_states.specs.Calls.{RefusedOnlyReports, RefusedIsUnharmed, BlockedLeavesState, GoneLeavesState, AlwaysAnswered, OthersKill, NextNumber, LargeIsTooLong};

/// A refused call moves its caller to the next line with the error in its registers, and changes nothing else in the
/// state.
pub fn refused_only_reports()
    ensures { RefusedOnlyReports }
{}

/// A refused call leaves the tree, the open files and the rights of every process unchanged.
pub fn refused_is_unharmed()
    ensures { RefusedIsUnharmed }
{}

/// A call that waits leaves the state unchanged.
pub fn blocked_leaves_all()
    ensures { BlockedLeavesState }
{}

/// If a call answers `Gone`, its process is not live and the state is unchanged.
pub fn gone_leaves_all()
    ensures { GoneLeavesState }
{}

/// exit and pledge need no promise.
pub fn answered_always()
    ensures { AlwaysAnswered }
{}

/// Under the empty set of promises, every call other than exit and pledge kills the process.
pub fn others_kill()
    ensures { OthersKill }
{}

/// fork returns the number after the last one that was given, which is at most 99,999.
pub fn next_number()
    ensures { NextNumber }
{}

/// If the early length test of write or ftruncate refuses a length, the resulting tree would contain a node that is too
/// long.
pub fn far_is_too_long()
    ensures { LargeIsTooLong }
{}
