//! Laws of the reduced search: it identifies states that are equal up to the numbers of open files and for dead
//! variables, and after a step of a process on registers, the next step is of the same process.

ghost use Rattle.pv_laws_classes.specs.Reduced.{ReducedSchedulesReachEach, ReducedSchedulesReachEndings, ReducedStatesAreReached, EachTextIsReportedReduced, ReducedWitnessesAreShortest, ReducedEndingsHappen, ReducedEndingsAreAll, ReducedReportsAreSame, ReducedEndingsAreSame};

/// Each step of a schedule that is not on registers is the last step of a reduced schedule that is no longer.
pub fn reduced_schedules_reach_each()
    ensures { ReducedSchedulesReachEach }
{}

/// Each schedule that leaves no live process has a reduced schedule of the same length with the same final state.
pub fn reduced_schedules_reach_endings()
    ensures { ReducedSchedulesReachEndings }
{}

/// Each state that the reduced search visits is reached by its witness, a reduced schedule. No two are identified, the
/// witnesses ascend, and the limit is observed.
pub fn reduced_states_are_reached()
    ensures { ReducedStatesAreReached }
{}

/// If the reduced search is complete, it reports the text of each step of a live process in each schedule.
pub fn each_text_is_reported_reduced()
    ensures { EachTextIsReportedReduced }
{}

/// Each step that the reduced search reports can happen, each text is reported once, and no schedule of live processes
/// with the same text is shorter than its witness, whether the search is complete or not.
pub fn reduced_witnesses_are_shortest()
    ensures { ReducedWitnessesAreShortest }
{}

/// Each tree that the reduced search counts is left by a schedule after which no process is live, and these trees are
/// distinct.
pub fn reduced_endings_happen()
    ensures { ReducedEndingsHappen }
{}

/// If the reduced search is complete, each schedule that leaves no process live leaves a tree that it counts.
pub fn reduced_endings_are_all()
    ensures { ReducedEndingsAreAll }
{}

/// If the reduced search and the full search are complete, both report the same texts, with witnesses of the same
/// lengths.
pub fn reduced_reports_are_same()
    ensures { ReducedReportsAreSame }
{}

/// If the reduced search and the full search are complete, both count the same endings.
pub fn reduced_endings_are_same()
    ensures { ReducedEndingsAreSame }
{}
