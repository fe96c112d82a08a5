//! Laws of the promises and permissions that a program needs, by the reduced search.

ghost use Rattle.pv_laws_schedules.specs.Idle.{IdlePromisesAreIdleReduced};
ghost use Rattle.pv_laws_schedules.specs.IdlePermissions.{IdlePermissionsAreIdleReduced};
ghost use Rattle.pv_laws_schedules.specs.ReducedPolicy.{CallingProgramsAreListedReduced, ListedPromisesAreEnoughReduced, ListedPromisesAreNeededReduced, ListedPermissionsAreEnoughReduced, ListedPermissionsAreNeededReduced};

/// If the reduced search is complete, each program that makes a call in some schedule is listed.
pub fn calling_programs_are_listed_reduced()
    ensures { CallingProgramsAreListedReduced }
{}

/// If the reduced search is complete, no step of a program in any schedule lacks a promise, if it is made with promises
/// that meet all needs that are listed for the program.
pub fn listed_promises_are_enough_reduced()
    ensures { ListedPromisesAreEnoughReduced }
{}

/// With promises that do not meet a need listed by the reduced search, the last step of its witness lacks a promise.
pub fn listed_promises_are_needed_reduced()
    ensures { ListedPromisesAreNeededReduced }
{}

/// If the reduced search is complete, no call of a listed program in any schedule, made with a table that gives all
/// permissions listed for the program, has an UNVL line of a check, except at a second walk whose call was refused at
/// the first.
pub fn listed_permissions_are_enough_reduced()
    ensures { ListedPermissionsAreEnoughReduced }
{}

/// If the entry that governs a target lacks a permission that a call of the reduced search asked there, this entry
/// refuses the call.
pub fn listed_permissions_are_needed_reduced()
    ensures { ListedPermissionsAreNeededReduced }
{}

/// If the reduced search is complete, each step of a listed program in any schedule, other than pledge, has the same lines
/// if it is made without the promises listed as idle, and the next state differs only in promises.
pub fn idle_promises_are_idle_reduced()
    ensures { IdlePromisesAreIdleReduced }
{}

/// If the reduced search is complete, each step of a listed program in any schedule, other than unveil, has the same lines
/// if it is made with a table whose entries lack permissions that are listed as idle for their words.
pub fn idle_permissions_are_idle_reduced()
    ensures { IdlePermissionsAreIdleReduced }
{}
