//! Laws of calls that only query the tree, a node or a parent: stat(2), lstat(2), readlink(2), fstat(2), getppid(2).

ghost use Rattle.pv_laws_steps.specs.Asking.{QueryingStepsCommute, FstatsCommute, GetPpidsCommute};

/// A stat, lstat, readlink or fstat that does not kill its process commutes with any step of another process that
/// leaves the tree unchanged.
pub fn asking_steps_commute()
    ensures { QueryingStepsCommute }
{}

/// An fstat that does not kill its process commutes with any step of another process that leaves the node of its
/// descriptor unchanged.
pub fn fstats_commute()
    ensures { FstatsCommute }
{}

/// A getppid that does not kill its process commutes with any step of another process that leaves the caller unchanged,
/// including its parent.
pub fn getppids_commute()
    ensures { GetPpidsCommute }
{}
