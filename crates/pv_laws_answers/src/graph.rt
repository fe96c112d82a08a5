//! Laws of the state graph: its paths are the runs.

ghost use Rattle.pv_laws_answers.specs.Graphs.{WitnessesAreRuns, RunsAreWitnesses, AllRunsAreWitnesses, WitnessesAreExplained};

/// Each path along the lines STEP of a graph, from its first state, is a run of live processes: it ends at the run's
/// final state, and its lines are the run's steps explained. This holds even if the search is not complete.
pub fn witnesses_are_runs()
    ensures { WitnessesAreRuns }
{}

/// Each run of live processes whose states are all in the graph is a path along its lines STEP.
pub fn runs_are_witnesses()
    ensures { RunsAreWitnesses }
{}

/// If the search is complete, each run of live processes is a path along the lines STEP of the graph.
pub fn all_runs_are_witnesses()
    ensures { AllRunsAreWitnesses }
{}

/// The lines on a path are those of `explain` for that schedule, without its lines STEP, its final lines PROC and NEXT,
/// and the places where entries were set, which a state does not record.
pub fn witnesses_are_explained()
    ensures { WitnessesAreExplained }
{}
