//! Laws of the search of all schedules: the states that it visits and the texts that it reports.

ghost use Rattle.pv_laws_answers.specs.Search.{StatesAreDistinguished, StatesAreReached, CompleteVisitsAll, EachTextIsReported, WitnessesAreLeast, EndingsHappen, EndingsAreComplete};

/// The encoding of states is injective: a search identifies two states if and only if they are equal.
pub fn states_are_distinguished()
    ensures { StatesAreDistinguished }
{}

/// Each visited state is reached by its witness, which consists of steps of live processes, and no state is visited
/// twice.
pub fn states_are_reached()
    ensures { StatesAreReached }
{}

/// If a search is complete, every schedule ends in a visited state.
pub fn complete_has_all()
    ensures { CompleteVisitsAll }
{}

/// If a search is complete, it reports the text of every step of a live process in every schedule.
pub fn each_text_is_reported()
    ensures { EachTextIsReported }
{}

/// Each reported step can happen, each text is reported once, and no schedule with its text is shorter than its
/// witness, or of equal length and less. This holds even if the search is not complete.
pub fn witnesses_are_least()
    ensures { WitnessesAreLeast }
{}

/// Each tree that is counted as an ending is left by a schedule after which no process is live, and these trees are
/// distinct.
pub fn endings_happen()
    ensures { EndingsHappen }
{}

/// If a search is complete, each schedule that leaves no process live leaves one of the trees that are counted.
pub fn endings_are_all()
    ensures { EndingsAreComplete }
{}
