//! Laws of steps of different processes that commute.

ghost use Rattle.pv_laws_steps.specs.Commuting.{InsideStepsCommute, StepsStayInside, IndependentStepsCommute, RunsReorder};

/// Two steps of different processes commute if each changes nothing but the inside of its own process.
pub fn inside_steps_commute()
    ensures { InsideStepsCommute }
{}

/// A step changes nothing but the inside of its own process if it is an instruction on registers; if it is a getpid,
/// getppid, pledge, stat, lstat, readlink or fstat that does not kill; or if its call is refused or waits.
pub fn steps_stay_inside()
    ensures { StepsStayInside }
{}

/// A step that depends on its own process alone commutes with any step of another process. Such steps are instructions
/// on registers, getpid, pledge, the unveil that locks, and calls refused for a missing promise.
pub fn lone_steps_commute()
    ensures { IndependentStepsCommute }
{}

/// If two steps commute, the runs that begin with them in either order reach the same final state, and their lines
/// differ only in that the lines of the two steps change places.
pub fn runs_reorder()
    ensures { RunsReorder }
{}
