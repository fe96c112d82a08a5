//! Laws of the promises and permissions that a program needs.

ghost use Rattle.pv_laws_schedules.specs.Idle.{IdlePromisesAreIdle};
ghost use Rattle.pv_laws_schedules.specs.IdlePermissions.{IdleLinesAreOfPermissions, IdlePermissionsAreIdle};
ghost use Rattle.pv_laws_schedules.specs.Policy.{PromiseLinesAreOfNeeds, CallingProgramsAreListed, PolicyPromisesAreEnough, PolicyPromisesAreNeeded, ListedPermissionsAreEnough, ListedPermissionsAreNeeded, TargetLinesAreOfPermissions};
ghost use Rattle.pv_laws_schedules.specs.ShortestWitnesses.{NeedWitnessesAreShortest, PermissionWitnessesAreShortest};

/// The lines about promises of a program are those of its listed needs, each with the first call that has it.
pub fn promise_lines_are_of_needs()
    ensures { PromiseLinesAreOfNeeds }
{}

/// If a search is complete, each program that makes a call in some schedule is listed.
pub fn calling_programs_are_listed()
    ensures { CallingProgramsAreListed }
{}

/// If a search is complete, no step of a program in any schedule lacks a promise, if it is made with promises that meet
/// all needs that are listed for the program.
pub fn listed_promises_are_enough()
    ensures { PolicyPromisesAreEnough }
{}

/// With promises that do not meet a listed need, the last step of its witness lacks a promise.
pub fn listed_promises_are_needed()
    ensures { PolicyPromisesAreNeeded }
{}

/// The lines about targets of a program are those of the permissions newly asked at each target in words, which are
/// together all permissions that are asked there.
pub fn target_lines_are_of_permissions()
    ensures { TargetLinesAreOfPermissions }
{}

/// If a search is complete, no call of a listed program in any schedule, made with a table that gives all permissions
/// listed for the program, has an UNVL line of a check, except at a second walk whose call was refused at the first.
pub fn listed_permissions_are_enough()
    ensures { ListedPermissionsAreEnough }
{}

/// If the entry that governs a target lacks a permission that a call asked there, this entry refuses the call.
pub fn listed_permissions_are_needed()
    ensures { ListedPermissionsAreNeeded }
{}

/// The witness of a line PLDG leads to the state of a call of the program that has the need, and no shorter schedule leads to
/// such a call.
pub fn need_witnesses_are_shortest()
    ensures { NeedWitnessesAreShortest }
{}

/// The witness of a line UNVL leads to the state of a call of the program that asks for the line's permissions at a target
/// with its words, and no shorter schedule leads to a call that asks there for any of them.
pub fn permission_witnesses_are_shortest()
    ensures { PermissionWitnessesAreShortest }
{}

/// If a search is complete, each step of a listed program in any schedule, other than pledge, has the same lines if it is
/// made without the promises listed as idle, and the next state differs only in promises.
pub fn idle_promises_are_idle()
    ensures { IdlePromisesAreIdle }
{}

/// The lines IDLE about permissions of a program are those of the permissions that its calls' tables give at entries with
/// the same words and that none of its calls uses there.
pub fn idle_lines_are_of_permissions()
    ensures { IdleLinesAreOfPermissions }
{}

/// If a search is complete, each step of a listed program in any schedule, other than unveil, has the same lines if it is
/// made with a table whose entries lack permissions that are listed as idle for their words.
pub fn idle_permissions_are_idle()
    ensures { IdlePermissionsAreIdle }
{}
