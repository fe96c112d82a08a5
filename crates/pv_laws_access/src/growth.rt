//! Laws of privilege: within one program image it never grows.

ghost use Rattle.pv_laws_access.specs.Growth.{ValidIsInOrder, RightsNeverGrow, OthersAreUnchanged, OthersKeepTheirFiles, ChildHasSameRights, ExecveLeaves, RunsWithoutGrowth};

/// In each valid state, the process table is in ascending order and does not contain the next process number.
pub fn whole_is_in_order()
    ensures { ValidIsInOrder }
{}

/// Monotonicity of privilege: let a step start no new program image, and its process stay live. Then its promises and
/// execpromises stay set and gain no keyword; its table stays in force, and no entry is removed or gains a permission;
/// a lock stays, and a locked table does not change.
pub fn grows_never()
    ensures { RightsNeverGrow }
{}

/// Noninterference in the state: a step of another process leaves a live process live, and changes only its parent.
pub fn others_keep_theirs()
    ensures { OthersAreUnchanged }
{}

/// A step of another process leaves each descriptor of a live process on an open file with the same node and mode.
///
/// The whole open file, including its offset, is unchanged unless the call uses a descriptor for the same open file.
pub fn others_keep_their_files()
    ensures { OthersKeepTheirFiles }
{}

/// A child starts with the restraints and the descriptors of its parent.
pub fn child_has_the_same()
    ensures { ChildHasSameRights }
{}

/// After an execve, the promises are the old execpromises, and the execpromises stay. The table and the lock stay if
/// there are execpromises, and are removed otherwise.
pub fn execve_leaves()
    ensures { ExecveLeaves }
{}

/// Along a run with steps of any processes, a process that stays live in one program image loses no restraint.
pub fn runs_without_growth()
    ensures { RunsWithoutGrowth }
{}
