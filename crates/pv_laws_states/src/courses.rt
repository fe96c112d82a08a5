//! Laws of the walks that calls make, and of the refusals of calls there.

ghost use Rattle.pv_laws_states.specs.Courses.{CallsAreOnCourse, RefusalsNameTheEntry, RefusalsNameTheLock, LockRefusesUnveils};

/// Each call other than unveil is refused before its first walk, and not by the table, or makes the walks of the one
/// table of walks in order, each checked at its end for the permissions that it needs. If a walk is refused, the call
/// is refused; after the walks the table refuses nothing.
pub fn calls_go_along()
    ensures { CallsAreOnCourse }
{}

/// If a refusal names an entry of the table, or reports that there is no entry, it results from the place where the
/// call stopped, for the permissions that the call needs there, which are the permissions that the trace prints.
pub fn refusals_name_the_entry()
    ensures { RefusalsNameTheEntry }
{}

/// If a refusal names the lock, the call is an unveil by a process whose table is locked.
pub fn refusals_name_the_lock()
    ensures { RefusalsNameTheLock }
{}

/// Under the lock, with or without a table, each unveil of a path with permissions is refused and names the lock.
pub fn lock_refuses_unveils()
    ensures { LockRefusesUnveils }
{}
