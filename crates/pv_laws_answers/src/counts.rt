//! Laws of the answer `needs`: its counts and last lines are those of the calls of the run.

ghost use Rattle.pv_laws_answers.specs.Counts.{CallsAreAsked, NeedsAreOfCalls, PromisesAreCounted, TargetsAreCounted};

/// The lines of `needs` are those of every program image of every process, in order.
pub fn needs_are_of_calls()
    ensures { NeedsAreOfCalls }
{}

/// Each call of a program image has the line of the process in the state in which the process makes it, and the
/// promises that the call needs there.
pub fn calls_are_asked()
    ensures { CallsAreAsked }
{}

/// For each promise a program image has one text if one of its calls needed the promise, and otherwise none. The text
/// has the number of these calls, and the line of the last.
pub fn promises_are_counted()
    ensures { PromisesAreCounted }
{}

/// For each target a program image has one text, with the number of the walks to the target that a table decides about,
/// and the line of the call of the last.
pub fn targets_are_counted()
    ensures { TargetsAreCounted }
{}
