//! Laws of a run that starts with promises.

ghost use Rattle.pv_laws_answers.specs.Begun.{AllListedKeepTheTrace, MissingPromiseChangesTrace};

/// A run without pledge and execve that starts with all promises listed for it has the same trace as without promises.
pub fn all_listed_keep_the_trace()
    ensures { AllListedKeepTheTrace }
{}

/// A run that starts without one of the promises listed for it has a different trace. For rpath, the start must lack
/// wpath too.
pub fn one_less_changes_the_trace()
    ensures { MissingPromiseChangesTrace }
{}
