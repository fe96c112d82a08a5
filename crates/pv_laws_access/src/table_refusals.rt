//! Laws of refusals by an unveil table, unveil(2).

ghost use Rattle.pv_laws_access.specs.TableRefusals.{TableRefusesExactly, LockRefusesExactly, LinesReportDecisions};

/// A refusal of a call other than unveil names entry k if and only if k governs the place where the call stopped and
/// lacks a permission needed there; it names no entry if and only if none governs the place. A refusal of an unveil
/// names the entry for its place if and only if the request would widen it.
pub fn table_refuses_exactly()
    ensures { TableRefusesExactly }
{}

/// A refusal names the lock if and only if the call is an unveil of a path with permissions under the lock, with or
/// without a table.
pub fn lock_refuses_exactly()
    ensures { LockRefusesExactly }
{}

/// The UNVL lines of a call report exactly the decision of the table: the entry, or that there is none, with the
/// permissions that the call needs at the place where it stopped; or the lock; or nothing if neither refused the call.
pub fn lines_say_what_decided()
    ensures { LinesReportDecisions }
{}
