//! Worked searches, by computation: the full search and the reduced search of four states.

ghost use Rattle.pv_laws_classes.specs.ReducedExamples.{VisitedStates, both_open, both_make, both_set, WitnessExamples};

/// If a process and its child each open a file, the full search visits 13 states, and the reduced search 10: it identifies
/// states that are equal up to the numbers of open files.
pub fn numbered_files_happen()
    ensures { VisitedStates both_open 13 10 }
{}

/// If a process and its child make the same directory, the full search visits 13 states, and the reduced search 10: it
/// identifies states that are equal up to dead registers.
pub fn dead_registers_happen()
    ensures { VisitedStates both_make 13 10 }
{}

/// If a process and its child each set two registers, the full search visits 17 states, and the reduced search 13: after
/// a step on registers, the next step is of the same process.
pub fn register_steps_happen()
    ensures { VisitedStates both_set 17 13 }
{}

/// In a worked run, the reduced and the full search report the same texts, with witnesses of the same lengths, and one
/// of the witnesses differs.
pub fn other_witnesses_happen()
    ensures { WitnessExamples }
{}
