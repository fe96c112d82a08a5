//! Laws of the promises and permissions that the granted calls of a program need.

ghost use Rattle.pv_laws_schedules.specs.GrantedPolicy.{GrantedCallsNeedNoMore, GrantedCallsNeedNoMoreReduced, ListedNeedsAreGranted, ListedNeedsAreGrantedReduced};

/// Each promise and permission that `policy --granted` lists for a program is asked by a call of it that neither a promise
/// nor a table refused, at the end of its witness; with less, a promise or the table refuses such a call.
pub fn listed_needs_are_granted()
    ensures { ListedNeedsAreGranted }
{}

/// Each promise and permission that `policy --granted --reduced` lists for a program is asked by a call of it that neither
/// a promise nor a table refused, at the end of its witness; with less, a promise or the table refuses such a call.
pub fn listed_needs_are_granted_reduced()
    ensures { ListedNeedsAreGrantedReduced }
{}

/// If a search is complete, `policy --granted` lists the program of each call that neither a promise nor a table refuses in
/// some schedule. Made with promises that meet all listed needs, the call lacks no promise. Made with a table that gives all
/// listed permissions, it has no UNVL line of a check, unless it is an unveil.
pub fn granted_calls_need_no_more()
    ensures { GrantedCallsNeedNoMore }
{}

/// If the reduced search is complete, `policy --granted --reduced` lists the program of each call that neither a promise nor
/// a table refuses in some schedule of live processes. Made with promises that meet all listed needs, the call lacks no
/// promise. Made with a table that gives all listed permissions, it has no UNVL line of a check, unless it is an unveil.
pub fn granted_calls_need_no_more_reduced()
    ensures { GrantedCallsNeedNoMoreReduced }
{}
