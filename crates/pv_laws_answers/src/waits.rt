//! Laws of waiting: no schedule ends in a deadlock.

ghost use Rattle.pv_laws_answers.specs.Waits.{FirstParentsHaveLesserNumbers, StepsKeepParentsLesser, SomeProcessIsUnblocked, NoRunDeadlocks};

/// In the first state, each process has a greater number than its parent.
pub fn first_parents_are_older()
    ensures { FirstParentsHaveLesserNumbers }
{}

/// Each step keeps the number of each process greater than its parent's, even if process 1 adopts orphans.
pub fn steps_keep_parents_older()
    ensures { StepsKeepParentsLesser }
{}

/// If a process is live, some live process has a next step that does not block: the live process with the greatest
/// number has no live child to wait for.
pub fn some_process_continues()
    ensures { SomeProcessIsUnblocked }
{}

/// No schedule ends in a deadlock.
pub fn no_run_deadlocks()
    ensures { NoRunDeadlocks }
{}
