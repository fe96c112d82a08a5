//! Laws of states that are equal up to a renumbering of open files.

ghost use Rattle.pv_laws_classes.specs.Renumbering.{RenumberedStepsAreEqual, RenumberedRunsAreEqual};

/// The steps of a process from two states that are equal up to a renumbering of open files have the same outcome and
/// the same lines, and lead to such states. The numbering of the next states may differ.
pub fn renumbered_steps_answer_alike()
    ensures { RenumberedStepsAreEqual }
{}

/// The runs of one schedule from two states that are equal up to a renumbering of open files have the same lines, and
/// lead to such states.
pub fn renumbered_runs_answer_alike()
    ensures { RenumberedRunsAreEqual }
{}
