//! Laws of the provenance of names and permissions: unveil(2), rename(2), link(2).

ghost use Rattle.pv_laws_access.specs.Moves.{NamesAreGivenByCalls, PermissionsAreGivenByMoves, OwnStepsGrantNothing};

/// If a step gives an existing node a new name, it is a successful rename(2) or link(2) of the node to that name; the
/// caller's table allows the old place for `c` (rename) or for `r` (link), and the new place for `c`.
pub fn names_come_by_calls()
    ensures { NamesAreGivenByCalls }
{}

/// If an entry of a table governs a name of an existing node after a step, it governed that name of the node before, or
/// the step gave the node that name by rename(2) or link(2), or the step renamed a directory at or above the name's
/// directory.
pub fn permissions_come_by_moves()
    ensures { PermissionsAreGivenByMoves }
{}

/// If the locked table of a process grants no permission at any name of a file, this still holds after the process's
/// own step, unless the step is an execve without execpromises, which removes the table.
pub fn own_steps_give_nothing()
    ensures { OwnStepsGrantNothing }
{}
